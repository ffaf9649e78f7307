//! The pieces of a format, one after the other, without memory.
ghost use Rattle.std.specs.Prelude.{◌≡◌, ◌≤◌, ◌<◌, length, drop, get_or, IfOk};
ghost use Rattle.git_date.specs as Spec;

use crate::format::directives::{Directive, Plain, directive_lettered, plain_lettered};
use crate::format::error::FormatFault;
use crate::format::flags::{Flags, MAX_WIDTH, is_flag};
use crate::tokens::digits_len;
use crate::tokens::numbers::number;

/// What a percent sign begins.
#[derive(Clone, Copy)]
pub(crate) enum Made {
    Plain(Plain),
    Directive(Directive, Flags),
}

/// A piece of a format.
#[derive(Clone, Copy)]
pub(crate) enum Piece<'a> {
    /// Text up to a percent sign or the end.
    Text(&'a str),
    Made(Made),
}

/// How many bytes stand before the first percent sign.
#[inline(always)]
#[tactic(auto, using(crate::proofs::Formats::Letters::front_fits))]
fn text_len(text: &[u8]) -> usize
    ensures value { result ≡ Spec.text_len text.now }
    ensures within { result ≤ length text.now }
{
    text.iter().take_while(|b| **b != b'%').count()
}

/// How many flags stand first.
#[tactic(auto, using(crate::proofs::Formats::Letters::front_fits))]
fn marks_len(text: &[u8]) -> usize
    ensures value { result ≡ Spec.marks_len text.now }
    ensures within { result ≤ length text.now }
{
    text.iter().take_while(|b| is_flag(**b)).count()
}

/// A letter that takes no flags, `len` bytes after its percent sign, from which `left` bytes are left.
fn plain_at(left: usize, len: usize, plain: Plain) -> Result<Made, FormatFault>
    ensures { result ≡ Spec.plain_at left len plain }
{
    if len == 0 {
        Ok(Made::Plain(plain))
    } else {
        Err(FormatFault::FlagRefused(left))
    }
}

/// What these flags, this width and this letter are, from whose percent sign on `left` bytes are left.
pub(crate) fn made_by(
    left: usize,
    marks: &[u8],
    digits: &[u8],
    letter: u8,
) -> Result<Made, FormatFault>
    ensures { result ≡ Spec.made_by left marks.now digits.now letter }
{
    if let Some(plain) = plain_lettered(letter) {
        return plain_at(left, marks.len() + digits.len(), plain);
    }
    let Some(directive) = directive_lettered(letter) else {
        return Err(FormatFault::UnknownDirective(left));
    };
    let width = number(digits);
    if width > MAX_WIDTH as u64 {
        return Err(FormatFault::WidthTooLarge(left));
    }
    Ok(Made::Directive(directive, Flags::of(marks, width as u8)))
}

/// What stands after a percent sign.
#[tactic(auto, unfolding(crate::specs::made_at))]
fn made_at(text: &[u8]) -> Result<Made, FormatFault>
    ensures { result ≡ Spec.made_at text.now }
{
    let left = text.len().saturating_add(1);
    let (marks, rest) = text.split_at(marks_len(text));
    let (digits, rest) = rest.split_at(digits_len(rest));
    match rest.first() {
        Some(letter) => made_by(left, marks, digits, *letter),
        None => Err(FormatFault::UnknownDirective(left)),
    }
}

/// Where the letter of a directive stands, after its percent sign.
fn letter_place(text: &[u8]) -> usize
    ensures value { result ≡ Spec.letter_place text.now }
    ensures within { result ≤ length text.now }
{
    let (marks, rest) = text.split_at(marks_len(text));
    marks.len() + digits_len(rest)
}

/// What stands after the first byte.
fn after_first(text: &str) -> &[u8]
    requires { 0 < length text.now }
    ensures { result.now ≡ drop 1 text.now }
{
    let (_, after) = text.as_bytes().split_at(1);
    after
}

/// A piece that begins with a percent sign, and what is left.
#[tactic(auto, using(crate::proofs::Formats::Pieces::next_fault, crate::proofs::Formats::Pieces::cut_after, crate::proofs::Formats::Pieces::next_made))]
fn begun(text: &str) -> Result<(Piece<'_>, &str), FormatFault>
    requires there { 0 < length text.now }
    requires percent { get_or text.now 0 0 ≡ Spec.percent }
    ensures value { Spec.next_view result ≡ Spec.next_piece text.now }
    ensures shorter { IfOk result (λ found. length found.1.now < length text.now) }
{
    let after = after_first(text);
    let made = made_at(after)?;
    let (_, rest) = text.split_at(letter_place(after) + 2);
    Ok((Piece::Made(made), rest))
}

/// The first piece of a format that is not empty, and what is left.
#[tactic(auto, using(crate::proofs::Formats::Pieces::cut_before, crate::proofs::Formats::Pieces::next_text))]
#[inline(always)]
pub(crate) fn next_piece(text: &str) -> Result<(Piece<'_>, &str), FormatFault>
    requires { 0 < length text.now }
    ensures value { Spec.next_view result ≡ Spec.next_piece text.now }
    ensures shorter { IfOk result (λ found. length found.1.now < length text.now) }
{
    let place = text_len(text.as_bytes());
    if place == 0 {
        return begun(text);
    }
    let (front, rest) = text.split_at(place);
    Ok((Piece::Text(front), rest))
}
