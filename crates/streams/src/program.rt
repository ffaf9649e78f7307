//! What programs share that run once over their input: how they end, and texts that wait to be sent.
ghost use Rattle.std.specs.Prelude.{◌≡◌, IfOk, [], OnOk};
ghost use Rattle.streams.specs as Spec;
ghost use Rattle.gix_date.specs as GixDate;

use crate::error::ToolError;
use arrayvec::ArrayString;
use gix_date::device::{Sink, put_all};
use gix_date::{ParseError, RawOffsets, Time, parse_no_alloc};
use std::alloc::AllocError;
use std::rt::Env;
use std::{env, io};

/// How a program ends.
#[derive(Debug, Clone, Copy, PartialEq, Eq)]
pub enum Status {
    /// The input was read to its end, and the replies to all its lines were written. Or the help or the version was written.
    Success,
    /// A fault, or out of memory.
    Failure,
    /// The command line is another than the program has.
    Usage,
}

impl Status {
    /// The exit status of the process: 0, 1 or 2.
    pub fn code(self) -> u8
        ensures { result ≡ Spec.code_of self }
    {
        match self {
            Status::Success => 0,
            Status::Failure => 1,
            Status::Usage => 2,
        }
    }
}

/// The words of the command line, without the program's name. `None` where one is no text.
pub fn words<S: Env + AllocGlobal>(system: &S) -> Result<Option<Vec<String>>, AllocError> {
    match env::args(system) {
        Ok(words) => Ok(Some(words.skip(1).collect(system.alloc())?)),
        Err(e) if e.kind() == io::ErrorKind::OutOfMemory => Err(AllocError),
        Err(_) => Ok(None),
    }
}

/// Writes a text, as the help. If the writer refuses, it has taken a proper prefix of it.
pub fn print<W: Sink>(text: &str, writer: &mut W) -> Result<(), ToolError>
    ensures { Spec.Prints text.now (Spec.change (W.known writer.old) (W.known writer.new)) result }
{
    match put_all(writer, text.as_bytes()) {
        Ok(()) => Ok(()),
        Err(kind) => Err(ToolError::Write(kind)),
    }
}

/// Why NOW is no moment.
#[derive(Clone, Copy)]
pub enum NoMoment {
    /// No form that a date may have holds it, or its offset is above what a formatted date may have.
    UnknownFormat,
    /// It is raw, or an at text, but for an offset that is no quarter of an hour or above 14:45.
    RawOffset,
    /// It is a day without an instant.
    DateConversion,
    /// It is relative to a moment.
    Relative,
    /// It is a time that does not convert.
    Conversion,
}

impl NoMoment {
    /// What is said of it.
    pub fn text(self) -> &'static str
        ensures { result.now ≡ Spec.no_moment_words self }
    {
        match self {
            NoMoment::UnknownFormat => {
                "NOW is in no known date format, or its offset is above 23:59; expected a date, \
                 such as \"2022-08-18 12:45:06 +0800\" or \"1660874655 +0800\""
            }
            NoMoment::RawOffset => {
                "NOW has an offset that a raw date may not have; \
                 expected at most 14:45, and 00, 15, 30 or 45 minutes"
            }
            NoMoment::DateConversion => "NOW is beyond the last instant that can be computed with",
            NoMoment::Relative => "NOW is a relative date, and has no moment to count from",
            NoMoment::Conversion => "NOW is too far from 1970",
        }
    }
}

/// The time that a text is a moment of, or why it is none. A moment is a date that [`gix_date::parse`] reads without a moment, and
/// [`Time::to_zoned`] converts. Takes no memory.
pub fn moment(text: &str) -> Result<Time, NoMoment>
    ensures answer { result ≡ Spec.moment_or_why text.now }
    ensures converts { IfOk result GixDate.IsConvertible }
{
    match parse_no_alloc(text, None, RawOffsets::Quarter) {
        Ok(time) if time.to_zoned().is_ok() => Ok(time),
        Ok(_) => Err(NoMoment::Conversion),
        Err(ParseError::UnknownFormat) => Err(why_unread(text)),
        Err(ParseError::DateConversion) => Err(NoMoment::DateConversion),
        Err(ParseError::MissingNow) => Err(NoMoment::Relative),
        // Without a moment nothing leads out of the range.
        Err(ParseError::Range) => unreachable!(),
    }
}

/// Why a text that is not read is no moment.
fn why_unread(text: &str) -> NoMoment
    ensures { result ≡ Spec.why_unread (GixDate.first_family_by GixDate.is_minute_offset text.now) }
{
    match parse_no_alloc(text, None, RawOffsets::WholeMinutes) {
        Ok(_) => NoMoment::RawOffset,
        Err(_) => NoMoment::UnknownFormat,
    }
}

/// How many bytes wait at most, so that a sink is called once for many lines.
const CAPACITY: usize = 16384;

/// A text that waits to be sent.
#[derive(Drop)]
pub struct Outbox {
    unsent: ArrayString<CAPACITY>,
}

impl Outbox {
    /// Nothing waits.
    pub fn new() -> Outbox
        ensures { Spec.waiting result ≡ [] }
    {
        Outbox {
            unsent: ArrayString::new(),
        }
    }

    /// Sends what waits.
    pub fn send<W: Sink>(&mut self, out: &mut W) -> Result<(), io::ErrorKind>
        ensures sends { Spec.Sends (Spec.output self.old (W.known out.old)) (Spec.output self.new (W.known out.new))
            [] result }
        ensures all { OnOk result (Spec.waiting self.new ≡ []) }
    {
        put_all(out, self.unsent.as_str().as_bytes())?;
        self.unsent.clear();
        Ok(())
    }

    /// Puts a text, given in pieces, after what waits. It may have any length.
    pub fn push<W: Sink>(&mut self, pieces: &[&str], out: &mut W) -> Result<(), io::ErrorKind>
        ensures { Spec.Sends (Spec.output self.old (W.known out.old)) (Spec.output self.new (W.known out.new))
            (Spec.pieces_text pieces.now) result }
    {
        for piece in pieces {
            self.push_piece(piece, out)?;
        }
        Ok(())
    }

    /// Puts a text after what waits, and sends that first where there is no room. A text that can never have room is
    /// sent at once.
    #[tactic(auto, using(crate::proofs::Sending::sends_at_once))]
    #[inline(always)]
    pub fn push_piece<W: Sink>(&mut self, piece: &str, out: &mut W) -> Result<(), io::ErrorKind>
        ensures { Spec.Sends (Spec.output self.old (W.known out.old)) (Spec.output self.new (W.known out.new))
            piece.now result }
    {
        if piece.len() > self.unsent.remaining_capacity() {
            self.send(out)?;
            if piece.len() > CAPACITY {
                return put_all(out, piece.as_bytes());
            }
        }
        self.unsent.push_str(piece);
        Ok(())
    }
}
