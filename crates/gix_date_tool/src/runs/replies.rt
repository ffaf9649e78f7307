//! The reply to one line.
ghost use Rattle.std.specs.Prelude.{◌≡◌, ◌∷◌, []};
ghost use Rattle.gix_date_tool.specs.declared.runs.replies.Reply.TheVariants.{Parsed, Read};
ghost use Rattle.gix_date_tool.specs as Spec;
ghost use Rattle.gix_date.specs as GixDate;
ghost use Rattle.streams.specs as Streams;

use crate::program::arguments::Mode;
use crate::runs::signed::{SignedLine, sign};
use gix_date::bytes::text_of;
use gix_date::clock::usual_header_text;
use gix_date::device::Sink;
use gix_date::time::any_header_text;
use gix_date::{
    HeaderKind, ParseError, RawOffsets, Time, Zoned, header_kind, parse_unusual, usual_date,
};
use std::{io, str};
use streams::Outbox;

/// What is asked of each line.
#[derive(Clone, Copy)]
pub(crate) struct Query {
    /// Which replies the lines get.
    pub(crate) mode: Mode,
    /// What a date may be relative to.
    pub(crate) now: Option<Zoned<'static>>,
}

/// What is replied to a line.
#[derive(Drop)]
pub(crate) enum Reply<'a> {
    /// The line is not UTF-8.
    NotText,
    /// The line is read as no time.
    NoTime,
    /// The line is the header text of the time that it is read as.
    Canonical,
    /// The line is read as this time, and is not its header text.
    Read(Time),
    /// The line is parsed as this time.
    Parsed(Time),
    /// No form that a date may have holds the line, or its offset is above what a formatted date may have.
    UnknownFormat,
    /// The line is a day whose midnight is no instant.
    DateConversion,
    /// The line is relative to a moment, and none was given.
    MissingMoment,
    /// The line leads from the moment to no time.
    OutOfRange,
    /// The line is a signature line, which is written again as this one.
    Signed(SignedLine<'a>),
    /// The line is no signature line, or has a time that is not read or cannot be written.
    NoSignature,
}

impl Reply<'_> {
    /// Puts the text of a reply, and a newline, after what is unsent.
    #[tactic(auto, using(crate::proofs::Sent::date_sent))]
    #[inline(always)]
    pub(crate) fn push_to<W: Sink>(
        self,
        outbox: &mut Outbox,
        out: &mut W,
    ) -> Result<(), io::ErrorKind>
        requires { Spec.IsWritable self }
        ensures { Streams.Sends (Streams.output outbox.old (W.known out.old)) (Streams.output outbox.new (W.known out.new))
            (Spec.reply_line self.entry) result }
    {
        match self {
            Reply::NotText => outbox.push(&["not text\n"], out),
            Reply::NoTime => outbox.push(&["none\n"], out),
            Reply::Canonical => outbox.push(&["canonical\n"], out),
            Reply::Read(time) => push_reading(time, outbox, out),
            Reply::Parsed(time) => push_time(time, outbox, out),
            Reply::UnknownFormat => outbox.push(&["error unknown-format\n"], out),
            Reply::DateConversion => outbox.push(&["error date-conversion\n"], out),
            Reply::MissingMoment => outbox.push(&["error missing-moment\n"], out),
            Reply::OutOfRange => outbox.push(&["error range\n"], out),
            Reply::Signed(line) => line.push_to(outbox, out),
            Reply::NoSignature => outbox.push(&["none\n"], out),
        }
    }
}

/// Puts the header text of a time that a line is parsed as after what is unsent. Nearly all have ten digits and six bytes more.
#[tactic(auto, using(crate::proofs::Sent::time_sent))]
#[inline(always)]
fn push_time<W: Sink>(time: Time, outbox: &mut Outbox, out: &mut W) -> Result<(), io::ErrorKind>
    requires { Spec.IsWritable (Parsed time) }
    ensures { Streams.Sends (Streams.output outbox.old (W.known out.old)) (Streams.output outbox.new (W.known out.new))
        (Spec.reply_line (Parsed time)) result }
{
    let Some(text) = usual_header_text(time) else {
        return push_any_time(time, outbox, out);
    };
    let mut line = [b'\n'; 17];
    line[..text.len()].copy_from_slice(&text);
    outbox.push_piece(unsafe { str::from_utf8_unchecked(&line) }, out)
}

/// The same of any time.
#[tactic(auto, using(crate::proofs::Sent::time_sent))]
fn push_any_time<W: Sink>(time: Time, outbox: &mut Outbox, out: &mut W) -> Result<(), io::ErrorKind>
    requires { Spec.IsWritable (Parsed time) }
    ensures { Streams.Sends (Streams.output outbox.old (W.known out.old)) (Streams.output outbox.new (W.known out.new))
        (Spec.reply_line (Parsed time)) result }
{
    let text = any_header_text(time).unwrap();
    outbox.push(&[text.as_str(), "\n"], out)
}

/// Puts the seconds and the offset of a time that a line is read as after what is unsent.
#[tactic(auto, using(crate::proofs::Sent::reading_sent))]
fn push_reading<W: Sink>(time: Time, outbox: &mut Outbox, out: &mut W) -> Result<(), io::ErrorKind>
    ensures { Streams.Sends (Streams.output outbox.old (W.known out.old)) (Streams.output outbox.new (W.known out.new))
        (Spec.reply_line (Read time)) result }
{
    let mut seconds = itoa::Buffer::new();
    let mut offset = itoa::Buffer::new();
    let pieces = [
        "read ",
        seconds.format(time.seconds),
        " ",
        offset.format(time.offset),
        "\n",
    ];
    outbox.push(&pieces, out)
}

/// Each line has at most one reply, in a mode and at a moment.
#[tactic(auto, using(crate::proofs::Replying::reply_once))]
pub fn replies_are_unique()
    ensures { Spec.RepliesAreUnique }
{}

/// In Check the reply to a line is `canonical` iff the line is a canonical header (`is_canonical_header`), whatever the
/// moment.
#[tactic(auto, using(crate::proofs::CanonicalLines::canonical_lines))]
pub fn canonical_lines(line: &[u8])
    ensures { Spec.CanonicalLines line.now }
{}

/// In Sign the reply to a line is the line iff it is text, has a cut, and has a canonical header as its time
/// (`is_canonical_header`), whatever the moment.
#[tactic(auto, using(crate::proofs::UnchangedLines::unchanged_lines))]
pub fn unchanged_lines(line: &[u8])
    ensures { Spec.UnchangedLines line.now }
{}

/// Puts the reply to a line, and a newline, after what is unsent. Usual dates are replied to before those of other replies are made.
#[tactic(auto, using(crate::proofs::Sent::not_text_sent, crate::proofs::Sent::check_sent, crate::proofs::Sent::usual_sent, gix_date::proofs::Header::HeaderTexts::fitting_has_text, crate::proofs::Sent::parse_sent, crate::proofs::Sent::sign_sent))]
pub(crate) fn push_reply<W: Sink>(
    query: &Query,
    line: &[u8],
    outbox: &mut Outbox,
    out: &mut W,
) -> Result<(), io::ErrorKind>
    ensures { Spec.SendsReply (Streams.output outbox.old (W.known out.old)) (Streams.output outbox.new (W.known out.new))
        query.entry.now line.now result }
{
    let Some(text) = text_of(line) else {
        return outbox.push(&["not text\n"], out);
    };
    match query.mode {
        Mode::Check => push_checked(text, outbox, out),
        Mode::Parse => match usual_date(text, RawOffsets::Quarter) {
            Some(time) => push_time(time, outbox, out),
            None => push_unusual(text, query, outbox, out),
        },
        Mode::Sign => push_signed(text, outbox, out),
    }
}

/// Puts what is replied to a text in Check after what is unsent.
#[inline(always)]
fn push_checked<W: Sink>(text: &str, outbox: &mut Outbox, out: &mut W) -> Result<(), io::ErrorKind>
    ensures { Streams.Sends (Streams.output outbox.old (W.known out.old)) (Streams.output outbox.new (W.known out.new))
        (Spec.reply_line (Spec.check_reply text.now)) result }
{
    check_reply(text).push_to(outbox, out)
}

/// Puts what is replied to a text in Sign after what is unsent.
#[inline(always)]
fn push_signed<W: Sink>(text: &str, outbox: &mut Outbox, out: &mut W) -> Result<(), io::ErrorKind>
    ensures { Spec.SendsSome (Spec.IsSignReply text.now) (Streams.output outbox.old (W.known out.old))
        (Streams.output outbox.new (W.known out.new)) result }
{
    sign_reply(text).push_to(outbox, out)
}

/// Puts what is replied to a text in Parse after what is unsent, for a caller that has tried usual dates.
#[inline(always)]
fn push_unusual<W: Sink>(
    text: &str,
    query: &Query,
    outbox: &mut Outbox,
    out: &mut W,
) -> Result<(), io::ErrorKind>
    ensures { Spec.SendsSome (Spec.IsParseReply (GixDate.first_family text.now) query.entry.now.now)
        (Streams.output outbox.old (W.known out.old)) (Streams.output outbox.new (W.known out.new)) result }
{
    parse_reply(text, query.now).push_to(outbox, out)
}

/// Whether a text is a header text that comes back when it is read and written, and else what it is read as.
#[inline(always)]
fn check_reply(text: &str) -> Reply<'static>
    ensures is { result ≡ Spec.check_reply text.now }
    ensures writable { Spec.IsWritable result }
{
    match header_kind(text) {
        HeaderKind::Canonical => Reply::Canonical,
        HeaderKind::Lenient(time) => Reply::Read(time),
        HeaderKind::NoHeader => Reply::NoTime,
    }
}

/// The time that a text is parsed as, or why it is not.
#[tactic(auto, using(crate::proofs::Replying::parsed_is, gix_date::proofs::Header::HeaderTexts::fitting_has_text))]
#[inline(always)]
fn parse_reply(text: &str, now: Option<Zoned<'static>>) -> Reply<'static>
    ensures is { Spec.IsParseReply (GixDate.first_family text.now) now.entry result }
    ensures writable { Spec.IsWritable result }
{
    match parse_unusual(text, now, RawOffsets::Quarter) {
        Ok(time) => Reply::Parsed(time),
        Err(ParseError::UnknownFormat) => Reply::UnknownFormat,
        Err(ParseError::DateConversion) => Reply::DateConversion,
        Err(ParseError::MissingNow) => Reply::MissingMoment,
        Err(ParseError::Range) => Reply::OutOfRange,
    }
}

/// The line that is written of a signature line's parts, or that there is none.
#[tactic(auto, unfolding(crate::specs::IsSignReply))]
fn sign_reply(text: &str) -> Reply<'_>
    ensures is { Spec.IsSignReply text.now result }
    ensures writable { Spec.IsWritable result }
{
    match sign(text) {
        Some(line) => Reply::Signed(line),
        None => Reply::NoSignature,
    }
}
