//! What a text is answered by.
ghost use Rattle.std.specs.Prelude.{◌≡◌, [], IfOk, IsSome, OnOk, option_map};
ghost use Rattle.git_date_tool.specs as Spec;
ghost use Rattle.streams.specs as Streams;
ghost use Rattle.std.specs.Result.{result_map_both};

pub(crate) mod refusals;
pub(crate) mod warnings;

use crate::answers::refusals::{Refusal, of_careful, of_git, of_gix};
use crate::answers::warnings::{Numbered, Warning, warning_of};
use git_date::{
    Approximate, DateFormat, DateKind, DateMode, DateText, ExactDate, FormatFault, ShowError,
    approxidate, parse_date, show_date, text_by_format,
};
use gix_date::bytes::text_of;
use gix_date::device::Sink;
use gix_date::time::format::{Format, format_named};
use gix_date::{
    CarefulOptions, Error, RawOffsets, Texts, Time, WithoutOffset, Zoned, is_canonical_header,
    parse_carefully, parse_header, parse_no_alloc,
};
use std::alloc::{AllocError, Global};
use std::io;
use streams::Outbox;

/// What is asked of each text.
#[derive(Clone, Copy)]
pub struct Query<'z> {
    /// What reads the texts.
    pub reader: Reader,
    /// What is shown of each date.
    pub shown: Shown<'z>,
    /// The moment that dates are relative to, in the zone of dates without an offset.
    pub now: Zoned<'z>,
    /// How much of a text has to be understood.
    pub strictness: Strictness,
    /// What a warning calls a text.
    pub numbered: Numbered,
}

/// What a text is answered by.
#[derive(Debug, Drop)]
pub enum Answer<'a> {
    /// The text of its date, and what is said beside it.
    Date(DateLine, Warning<'a>),
    /// Why there is none.
    Refused(Refusal),
}

impl Answer<'_> {
    /// Whether the text was read, and its date can be shown.
    pub fn is_date(&self) -> bool
        ensures { result ≡ (Spec.answer_reply self.now).is_date }
    {
        matches!(self, Answer::Date(_, _))
    }

    /// Whether its reader understood each word of the text: no warning stands beside its date, or it is refused for something else.
    pub fn is_clear(&self) -> bool
        ensures { result ≡ (Spec.answer_reply self.now).is_clear }
    {
        match self {
            Answer::Date(_, warning) => warning.is_empty(),
            Answer::Refused(refusal) => !refusal.is_unclear(),
        }
    }

    /// Puts its line after those that wait. Where something is to be said beside it, all are sent, so that it stands before its warning.
    #[tactic(auto, using(crate::proofs::Answering::put_and_sent))]
    pub(crate) fn put<W: Sink>(&self, outbox: &mut Outbox, out: &mut W) -> Result<(), io::ErrorKind>
        ensures sends { Streams.Sends (Streams.output outbox.old (W.known out.old)) (Streams.output outbox.new (W.known out.new))
            (Streams.with_newline (Spec.answer_reply self.now).text) result }
        ensures before_warning { IsSome (Spec.answer_reply self.now).warning → OnOk result (Streams.waiting outbox.new ≡ []) }
    {
        match self {
            Answer::Date(line, warning) => {
                outbox.push(&[line.as_str(), "\n"], out)?;
                if warning.is_empty() {
                    return Ok(());
                }
                outbox.send(out)
            }
            Answer::Refused(refusal) => put_refusal(*refusal, outbox, out),
        }
    }

    /// Says what is to be said beside it, of the text with this number. What the messages refuse is not said.
    pub(crate) fn warn<M: Sink>(&self, numbered: Numbered, number: u64, messages: &mut M)
        ensures { Streams.Reports (Streams.change (M.known messages.old) (M.known messages.new))
            (Spec.warning_line numbered number (Spec.answer_reply self.now).warning) }
    {
        match self {
            Answer::Date(_, warning) => warning.tell(numbered, number, messages),
            Answer::Refused(_) => {}
        }
    }
}

/// Puts the line of a refusal after those that wait.
fn put_refusal<W: Sink>(
    refusal: Refusal,
    outbox: &mut Outbox,
    out: &mut W,
) -> Result<(), io::ErrorKind>
    ensures { Streams.Sends (Streams.output outbox.old (W.known out.old)) (Streams.output outbox.new (W.known out.new))
        (Streams.with_newline (Spec.refusal_text refusal)) result }
{
    match refusal.place() {
        Some(place) => {
            let mut digits = itoa::Buffer::new();
            outbox.push(&[refusal.name(), " ", digits.format(place), "\n"], out)
        }
        None => outbox.push(&[refusal.name(), "\n"], out),
    }
}

/// The answer to a line. Memory is taken to print by a format, and for nothing else; `Err` if it is refused.
///
/// Git's readers take any bytes, and the others text alone.
#[tactic(auto, unfolding(crate::specs::IsReply))]
pub fn answer_line<'a>(
    alloc: Global,
    query: &Query<'_>,
    line: &'a [u8],
) -> Result<Answer<'a>, AllocError>
    ensures { IfOk result (λ answer. Spec.IsReply query.entry.now line.now (Spec.answer_reply answer)) }
{
    let found = match read(query.reader, query.strictness, line, query.now) {
        Ok(found) => found,
        Err(refusal) => return Ok(Answer::Refused(refusal)),
    };
    match show(alloc, query.shown, found.time, query.now) {
        Ok(Ok(shown)) => Ok(Answer::Date(shown, warning_of(line, &found))),
        #[tactic(auto, using(crate::proofs::Answering::not_shown))]
        Ok(Err(refusal)) => Ok(Answer::Refused(refusal)),
        Err(AllocError) => Err(AllocError),
    }
}

/// What reads the texts.
#[derive(Clone, Copy, Debug, PartialEq, Eq)]
pub enum Reader {
    /// [`git_date::parse_date`], as Git reads the dates of commits.
    Exact,
    /// [`git_date::approxidate`], as Git reads `--since`.
    Approxidate,
    /// [`gix_date::parse_carefully`], of which every character has to count. A date without an offset is in the
    /// moment's zone.
    Careful,
    /// [`gix_date::parse_no_alloc`], as the crate gix-date reads dates.
    Gix,
    /// [`gix_date::parse_header`], as the time in a commit's header: with [`Strictness::Strict`] only where that is canonical.
    Header,
}

/// How much of a text has to be understood.
#[derive(Clone, Copy, Debug, PartialEq, Eq)]
pub enum Strictness {
    /// Nothing, as for Git: [`Reader::Approxidate`] answers near the moment.
    Lenient,
    /// Something.
    Usual,
    /// Each word.
    Strict,
}

/// What the bytes of a text say at a moment, where so much of it has to be understood.
pub(crate) fn read(
    reader: Reader,
    strictness: Strictness,
    text: &[u8],
    now: Zoned<'_>,
) -> Result<Approximate, Refusal>
    ensures is { Spec.IsRead reader strictness now.entry text.now result }
    ensures place { IfOk result (Spec.HasPlace text.now) }
{
    judged(strictness, read_by(reader, strictness, text, now)?)
}

/// What a reader finds in a text.
fn read_by(
    reader: Reader,
    strictness: Strictness,
    text: &[u8],
    now: Zoned<'_>,
) -> Result<Approximate, Refusal>
    ensures is { Spec.IsReadBy reader strictness now.entry text.now result }
    ensures place { IfOk result (Spec.HasPlace text.now) }
{
    match reader {
        Reader::Exact => Ok(of_exact(parse_date(text, now).map_err(of_git)?)),
        Reader::Approxidate => approxidate(text, now).map_err(of_git),
        Reader::Careful => carefully(text, now),
        Reader::Gix => by_gix(text, now),
        Reader::Header => header(strictness, text),
    }
}

/// The time of a header, in bytes that are text.
#[tactic(auto, using(crate::proofs::OfText::of_text, crate::proofs::OfText::of_bytes))]
fn header(strictness: Strictness, text: &[u8]) -> Result<Approximate, Refusal>
    ensures is { Spec.IsOfText (Spec.IsHeader strictness) text.now result }
    ensures place { IfOk result (Spec.HasPlace text.now) }
{
    header_found(strictness, text_of(text).ok_or(Refusal::NotText)?)
}

/// The time of a header.
fn header_found(strictness: Strictness, text: &str) -> Result<Approximate, Refusal>
    ensures is { result ≡ Spec.header_found strictness text.now }
    ensures place { IfOk result (Spec.HasPlace text.now) }
{
    match parse_header(text) {
        Some(_) if strictness == Strictness::Strict && !is_canonical_header(text) => {
            Err(Refusal::NotCanonical)
        }
        Some(time) => Ok(whole(time)),
        None => Err(Refusal::NoHeader),
    }
}

/// What the careful reader finds in bytes that are text.
#[tactic(auto, using(crate::proofs::OfText::of_text, crate::proofs::OfText::of_bytes))]
fn carefully(text: &[u8], now: Zoned<'_>) -> Result<Approximate, Refusal>
    ensures is { Spec.IsOfText (Spec.IsCarefully now.entry) text.now result }
    ensures place { IfOk result (Spec.HasPlace text.now) }
{
    let text = text_of(text).ok_or(Refusal::NotText)?;
    let time = parse_carefully(text, Some(now), careful_options()).map_err(of_careful)?;
    Ok(whole(time))
}

/// What the reader of gix-date finds in bytes that are text.
#[tactic(auto, using(crate::proofs::OfText::of_text, crate::proofs::OfText::of_bytes))]
fn by_gix(text: &[u8], now: Zoned<'_>) -> Result<Approximate, Refusal>
    ensures is { Spec.IsOfText (Spec.IsByGix now.entry) text.now result }
    ensures place { IfOk result (Spec.HasPlace text.now) }
{
    let text = text_of(text).ok_or(Refusal::NotText)?;
    let time = parse_no_alloc(text, Some(now), RawOffsets::Quarter).map_err(of_gix)?;
    Ok(whole(time))
}

/// How the careful reader reads.
fn careful_options() -> CarefulOptions
    ensures { result ≡ Spec.careful_options }
{
    CarefulOptions {
        raw: RawOffsets::Quarter,
        without_offset: WithoutOffset::MomentsZone,
        texts: Texts::Careful,
    }
}

/// An exact date is understood.
fn of_exact(date: ExactDate) -> Approximate
    ensures { result ≡ Spec.of_exact date }
{
    Approximate {
        time: date.time,
        understood: true,
        ignored: date.ignored,
    }
}

/// A time of which nothing was ignored.
fn whole(time: Time) -> Approximate
    ensures { result ≡ Spec.whole time }
{
    Approximate {
        time,
        understood: true,
        ignored: None,
    }
}

/// What was found, unless something was not understood and has to be.
fn judged(strictness: Strictness, found: Approximate) -> Result<Approximate, Refusal>
    ensures { result ≡ Spec.judged strictness found }
{
    match (strictness, found.ignored) {
        (Strictness::Lenient, _) => Ok(found),
        _ if !found.understood => Err(Refusal::NotUnderstood),
        (Strictness::Strict, Some(place)) => Err(Refusal::Ignored(place)),
        _ => Ok(found),
    }
}

/// What is shown of a date.
#[derive(Clone, Copy, Debug)]
pub enum Shown<'w> {
    /// What `git log --date=MODE` shows.
    Git(DateMode),
    /// What [`gix_date::Time::format`] prints.
    Gix(Format),
    /// What `git log --date=format:FORMAT` shows, or `format-local:FORMAT` by the clock of the moment's zone.
    ByFormat(DateFormat<'w>, bool),
}

/// Why a name stands for no way to show a date.
#[derive(Clone, Copy, Debug, PartialEq, Eq)]
pub enum NoWay {
    /// There is no such name.
    Unknown,
    /// It is one of Git's formats, which has this fault.
    Format(FormatFault),
}

impl Shown<'_> {
    /// The text of a commit's header, as `git log --date=raw` shows it.
    pub const RAW: Shown<'static> = Shown::Git(DateMode {
        kind: DateKind::Raw,
        local: false,
    });
}

/// What a name stands for: one of Git's modes, one of its formats after `format:` or `format-local:`, or a constant of
/// gix-date's formats. Letter case matters: `iso8601` is Git's, and `ISO8601` gix-date's.
pub fn shown_named(name: &str) -> Result<Shown<'_>, NoWay>
    ensures { result_map_both Spec.way_of (λ why. why) result ≡ Spec.way_named name.now }
{
    if let Some(format) = after_front(name, "format:") {
        return by_format(format, false);
    }
    if let Some(format) = after_front(name, "format-local:") {
        return by_format(format, true);
    }
    if let Some(format) = format_named(name) {
        return Ok(Shown::Gix(format));
    }
    match name.parse::<DateMode>() {
        Ok(mode) => Ok(Shown::Git(mode)),
        Err(_) => Err(NoWay::Unknown),
    }
}

/// What stands after a front, in a text that begins so.
#[tactic(auto, using(crate::proofs::Fronts::after_front_is))]
fn after_front<'w>(text: &'w str, front: &str) -> Option<&'w str>
    ensures { option_map (λ rest. rest.now) result ≡ Spec.after_front front.now text.now }
{
    text.strip_prefix(front)
}

/// What Git's format shows, by the zone's clock or not.
fn by_format(format: &str, local: bool) -> Result<Shown<'_>, NoWay>
    ensures { result_map_both Spec.way_of (λ why. why) result ≡ Spec.by_format local format.now }
{
    match DateFormat::new(format) {
        Ok(format) => Ok(Shown::ByFormat(format, local)),
        Err(fault) => Err(NoWay::Format(fault)),
    }
}

/// The text of a date.
#[derive(Debug, Drop)]
pub enum DateLine {
    /// Git's.
    Git(DateText),
    /// gix-date's.
    Gix(String),
    /// That of one of Git's formats.
    ByFormat(String),
}

impl DateLine {
    /// The text, without a newline.
    pub fn as_str(&self) -> &str
        ensures { result.now ≡ Spec.line_text self.now }
    {
        match self {
            DateLine::Git(text) => text.as_str(),
            DateLine::Gix(text) => text.as_str(),
            DateLine::ByFormat(text) => text.as_str(),
        }
    }
}

/// Shows a time at a moment. [`Refusal::NotShown`] if it cannot be shown so. Memory is taken by formats alone.
pub(crate) fn show(
    alloc: Global,
    shown: Shown<'_>,
    time: Time,
    now: Zoned<'_>,
) -> Result<Result<DateLine, Refusal>, AllocError>
    ensures { Spec.IsShown shown.entry now.entry time result }
{
    match shown {
        Shown::Git(mode) => match show_date(time, mode, now) {
            Ok(text) => Ok(Ok(DateLine::Git(text))),
            Err(_) => Ok(Err(Refusal::NotShown)),
        },
        Shown::Gix(format) => match time.format(alloc, format) {
            Ok(text) => Ok(Ok(DateLine::Gix(text))),
            Err(Error::Memory) => Err(AllocError),
            Err(_) => Ok(Err(Refusal::NotShown)),
        },
        Shown::ByFormat(format, local) => match text_by_format(alloc, time, format, local, now) {
            Ok(text) => Ok(Ok(DateLine::ByFormat(text))),
            Err(ShowError::Range) => Ok(Err(Refusal::NotShown)),
            Err(ShowError::Memory) => Err(AllocError),
            Err(ShowError::Write(_)) => unreachable!(),
        },
    }
}
