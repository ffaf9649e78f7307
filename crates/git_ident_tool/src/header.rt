//! The line before an object's contents: its id, its kind and its size.
ghost use Rattle.std.specs.Prelude.{◌≡◌, ◌≤◌, length};
ghost use Rattle.std.specs.List.{before_first, after_first, find, list_all, position_or_len};
ghost use Rattle.std.specs.Char.{is_ascii_digit};
ghost use Rattle.std.specs.Str.Parse.{digits_value};
ghost use Rattle.git_ident_tool.specs as Spec;
ghost use Rattle.gix_date.specs as GixDate;
ghost use Rattle.gix_signature.specs as GixSignature;

use crate::error::HeaderFault;
use gix_signature::number;

/// What an object is.
#[derive(Debug, Clone, Copy, PartialEq, Eq)]
pub enum Kind {
    Commit,
    Tag,
    Tree,
    Blob,
}

/// What a header says of an object.
#[derive(Debug, Clone, Copy)]
pub struct Header {
    /// What it is.
    pub kind: Kind,
    /// How many bytes its contents have.
    pub size: usize,
}

const KINDS: [Kind; 4] = [Kind::Commit, Kind::Tag, Kind::Tree, Kind::Blob];

/// Reads a header, without its newline.
#[tactic(auto, unfolding(crate::specs::read_header))]
pub(crate) fn read_header(header: &[u8]) -> Result<Header, HeaderFault>
    ensures { result ≡ Spec.read_header header.now }
{
    if header.ends_with(b" missing") || header.ends_with(b" ambiguous") {
        return Err(HeaderFault::NoObject);
    }
    let rest = after_space(header);
    let Some(kind) = kind_of(rest) else {
        return Err(HeaderFault::BadHeader);
    };
    match size_of(&rest[kind.start().len()..]) {
        Some(size) => Ok(Header { kind, size }),
        None => Err(HeaderFault::BadSize),
    }
}

/// The id that a header begins with.
pub(crate) fn id_of(header: &[u8]) -> &[u8]
    ensures { result.now ≡ before_first GixDate.is_space header.now }
{
    &header[..space_place(header)]
}

/// How many bytes stand before the first space.
fn space_place(text: &[u8]) -> usize
    ensures value { result ≡ position_or_len GixDate.is_space text.now }
    ensures within { result ≤ length text.now }
{
    text.iter().take_while(|b| **b != b' ').count()
}

/// What stands after the first space, or nothing.
fn after_space(text: &[u8]) -> &[u8]
    ensures { result.now ≡ after_first GixDate.is_space text.now }
{
    match &text[space_place(text)..] {
        [] => &[],
        [_, rest @ ..] => rest,
    }
}

impl Kind {
    /// How a header names it, with the space after it.
    fn start(self) -> &'static [u8]
        ensures { result.now ≡ Spec.kind_start self }
    {
        match self {
            Kind::Commit => b"commit ",
            Kind::Tag => b"tag ",
            Kind::Tree => b"tree ",
            Kind::Blob => b"blob ",
        }
    }
}

fn kinds() -> &'static [Kind]
    ensures { result.now ≡ Spec.kinds }
{
    &KINDS
}

/// The kind whose name stands at the front of a text.
fn kind_of(text: &[u8]) -> Option<Kind>
    ensures { result ≡ Spec.kind_of text.now }
{
    kind_in(text, kinds())
}

/// The first of these kinds whose name does.
fn kind_in(text: &[u8], kinds: &[Kind]) -> Option<Kind>
    ensures { result ≡ find (λ kind. Spec.begins text.now (Spec.kind_start kind)) kinds.now }
{
    kinds
        .iter()
        .copied()
        .find(|kind| text.starts_with(kind.start()))
}

/// The size that digits write, if 64 bits hold it.
fn size_of(text: &[u8]) -> Option<usize>
    ensures { result ≡ Spec.size_of text.now }
{
    if is_number(text) {
        number_of(text)
    } else {
        None
    }
}

/// Whether a text is digits alone, at least one.
fn is_number(text: &[u8]) -> bool
    ensures { result ≡ Spec.is_number text.now }
{
    0 < text.len() && are_digits(text)
}

/// Whether a text is digits alone, or nothing.
fn are_digits(text: &[u8]) -> bool
    ensures { result ≡ list_all is_ascii_digit text.now }
{
    text.iter().all(|b| b.is_ascii_digit())
}

/// The number that digits write, if 64 bits hold it.
fn number_of(digits: &[u8]) -> Option<usize>
    ensures { result ≡ GixSignature.held_number (digits_value 10 digits.now) }
{
    match number(digits) {
        Some(n) => Some(n as usize),
        None => None,
    }
}
