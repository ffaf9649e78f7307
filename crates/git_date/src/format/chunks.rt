//! The text of a piece, lent or made.
ghost use Rattle.std.specs.Prelude.{◌≡◌, ◌+◌, ◌≤◌, ◌<◌, ◌++◌, unsigned_abs};
ghost use Rattle.arrayvec.specs.ArrayString.{array_string_len};
ghost use Rattle.git_date.specs as Spec;
ghost use Rattle.gix_date.specs as GixDate;

use crate::format::directives::{Directive, Plain};
use crate::format::flags::{Flags, Part};
use crate::format::pieces::{Made, Piece};
use crate::format::shown::Shown;
use crate::format::texts::push_directive;
use arrayvec::ArrayString;
use gix_date::clock::{Clock, push_hours, push_minutes};

/// The text of a piece.
#[derive(Drop)]
pub(crate) enum Chunk<'t> {
    /// Text of the format, or an abbreviation.
    Lent(&'t str),
    Made(Part),
}

fn seconds_part(seconds: Option<i64>) -> Part
    ensures { result.bytes ≡ Spec.seconds_text seconds }
{
    let mut part = Part::new();
    if let Some(seconds) = seconds {
        part.push_str(itoa::Buffer::new().format(seconds));
    }
    part
}

/// Appends `+hhmm`.
#[inline(always)]
pub(crate) fn push_offset<const CAP: usize>(part: &mut ArrayString<CAP>, offset: i32)
    requires short { unsigned_abs offset < GixDate.hundred_hours }
    requires room { array_string_len part.old + 5 ≤ CAP }
    ensures { part.new.bytes ≡ part.old.bytes ++ GixDate.compact_offset_text offset }
{
    push_hours(part, offset);
    push_minutes(part, offset);
}

fn plain_chunk<'t>(plain: Plain, shown: &'t Shown) -> Chunk<'t>
    ensures { Spec.chunk_text result ≡ Spec.plain_text (Spec.shown_of shown.now) plain }
{
    match plain {
        Plain::Percent => Chunk::Lent("%"),
        Plain::Seconds => Chunk::Made(seconds_part(shown.seconds)),
        Plain::Offset => {
            let mut part = Part::new();
            push_offset(&mut part, shown.clock.offset());
            Chunk::Made(part)
        }
        Plain::Abbreviation => Chunk::Lent(shown.abbreviation()),
    }
}

pub(crate) fn made_chunk<'t>(made: Made, shown: &'t Shown) -> Chunk<'t>
    ensures { Spec.chunk_text result ≡ Spec.piece_text (Spec.shown_of shown.now) (Spec.Begun made) }
{
    match made {
        Made::Plain(plain) => plain_chunk(plain, shown),
        Made::Directive(directive, flags) => {
            let mut part = Part::new();
            push_directive(&mut part, directive, flags, shown.clock);
            Chunk::Made(part)
        }
    }
}

/// The text of a piece.
pub(crate) fn chunk_of<'t>(piece: Piece<'t>, shown: &'t Shown) -> Chunk<'t>
    ensures { Spec.chunk_text result ≡ Spec.piece_text (Spec.shown_of shown.now) (Spec.piece_of piece.entry) }
{
    match piece {
        Piece::Text(text) => Chunk::Lent(text),
        Piece::Made(made) => made_chunk(made, shown),
    }
}

impl Chunk<'_> {
    pub(crate) fn as_str(&self) -> &str
        ensures { result.now ≡ Spec.chunk_text self.now }
    {
        match self {
            Chunk::Lent(text) => text,
            Chunk::Made(part) => part.as_str(),
        }
    }
}
