//! What the program does with a command line.
ghost use Rattle.std.specs.Prelude.{◌≡◌, ◌++◌, MatchResult, map, option_map, string_bytes};
ghost use Rattle.jiff.specs.ZoneView.{plain_zone};
ghost use Rattle.git_date_tool.specs.declared.help.TheConstants.{USAGE};
ghost use Rattle.git_date_tool.specs as Spec;
ghost use Rattle.streams.specs as Streams;
ghost use Rattle.std.specs.Result.{result_map_both};

pub(crate) mod arguments;
mod wrong;

use crate::answers::warnings::Numbered;
use crate::answers::{Query, Reader, Shown, Strictness};
use crate::help::{HELP, USAGE, VERSION};
use crate::program::arguments::{Command, Request, read_words};
use crate::program::wrong::{WrongWords, place_digits};
use crate::runs::{Verdict, run_over, run_through};
use crate::zones::{NoZone, ZoneText, zone_source, zone_text};
use git_date::{ExactDate, parse_date_at};
use gix_date::Zoned;
use gix_date::device::{Sink, Source};
use jiff::Timestamp;
use jiff::tz::TimeZone;
use std::alloc::Global;
use std::env;
use std::env::VarError;
use std::rt::{Env, Files};
use std::time::Clock;
use streams::{NoMoment, Status, ToolError, print, tell_fault, write_message};

/// Does what the words of a command line, without the program's name, ask for: answers each text, or each line of the reader
/// if there is no text, or writes the help or the version. Of wrong words it says which and why, and how it is called.
///
/// ZONE is an offset to 25:59, or else what `TZ` may be, but that `./` begins the path of a file of the current folder. Without it
/// `TZ` says the zone: a POSIX rule, or else a TZif file by a path from `/` or a name below `TZDIR` or the system's folder, or UTC if it
/// is empty; a colon in front says nothing. Without `TZ` it is that of `/etc/localtime`. Where there is no such file,
/// [`git_date::zone_without_file`] says the zone. That the clock, `TZ`, `TZDIR` and the files are the machine's is trusted: no contract can
/// say what they hold.
///
/// [`Status::Success`] if each text was read and shown, [`Status::Failure`] if one was not or the run has a fault, and [`Status::Usage`]
/// if the words, NOW or the zone are wrong. Takes memory for a line, for zones and for formats.
///
/// A line is put into the messages for what was ignored or not understood of a text that was read, one after several texts of which a
/// word was not understood, one for a fault but that of a closed pipe, and two for wrong words: what is wrong, and the usage. What they
/// refuse changes nothing.
pub fn execute<S: Files + Env + Clock + AllocGlobal, R: Source, W: Sink, M: Sink>(
    system: &S,
    words: &[String],
    reader: &mut R,
    writer: &mut W,
    messages: &mut M,
) -> Status
    ensures { Spec.Executes (map string_bytes words.now) (Streams.change (R.known reader.old) (R.known reader.new))
        (Streams.change (W.known writer.old) (W.known writer.new))
        (Streams.change (M.known messages.old) (M.known messages.new)) result }
{
    let tz = env::var(system, "TZ");
    let outcome = dispatch(system, words, &tz, reader, writer, messages);
    report(&outcome, messages);
    status_of(&outcome)
}

/// Says that a word of the command line is not UTF-8, and how the program is called.
#[tactic(auto, unfolding(crate::specs::Says))]
pub fn show_usage<M: Sink>(messages: &mut M) -> Status
    ensures { Spec.ShowsUsage (Streams.change (M.known messages.old) (M.known messages.new)) result }
{
    tell_wrong(WrongWords::NotText, messages);
    Status::Usage
}

/// Does what the words ask for, but for the message of its end.
fn dispatch<'w, S: Files + Env + Clock + AllocGlobal, R: Source, W: Sink, M: Sink>(
    system: &S,
    words: &'w [String],
    tz: &'w Result<String, VarError>,
    reader: &mut R,
    writer: &mut W,
    messages: &mut M,
) -> Outcome<'w>
    ensures { Spec.EndsCommand (Spec.asked (map string_bytes words.now)) (Streams.change (R.known reader.old) (R.known reader.new))
        (Spec.output (Streams.change (W.known writer.old) (W.known writer.new))
        (Streams.change (M.known messages.old) (M.known messages.new))) result }
{
    match read_words(words) {
        Ok(Command::Answer(request)) => execute_request(
            system, request, tz, reader, writer, messages,
        ),
        Ok(Command::Help) => show(HELP, writer),
        Ok(Command::Version) => show(VERSION, writer),
        Err(why) => Outcome::Shown(why),
    }
}

/// Does what is asked for, but for the message of its end.
#[tactic(auto, using(crate::proofs::AskedZones::taken_is), unfolding(crate::specs::EndsRequest))]
fn execute_request<'w, S: Files + Env + Clock + AllocGlobal, R: Source, W: Sink, M: Sink>(
    system: &S,
    request: Request<'w>,
    tz: &'w Result<String, VarError>,
    reader: &mut R,
    writer: &mut W,
    messages: &mut M,
) -> Outcome<'w>
    ensures { Spec.EndsRequest (Spec.request_view request.entry) (Streams.change (R.known reader.old) (R.known reader.new))
        (Spec.output (Streams.change (W.known writer.old) (W.known writer.new))
        (Streams.change (M.known messages.old) (M.known messages.new))) result }
{
    let text = zone_text(request.zone, tz);
    let source = match zone_source(system, text) {
        Ok(source) => source,
        Err(why) => return no_zone(text, why),
    };
    let zone = source.zone();
    match query_of(system, request, zone) {
        Ok(query) => run(system.alloc(), request, &query, reader, writer, messages),
        Err(NoNow::Clock) => Outcome::NoClock,
        Err(NoNow::NoMoment(text, why)) => Outcome::Shown(WrongWords::NoMoment(text, why)),
    }
}

/// Answers the texts, or the lines of the reader if there is no text, and says how that ends.
fn run<'w, R: Source, W: Sink, M: Sink>(
    alloc: Global,
    request: Request<'w>,
    query: &Query<'_>,
    reader: &mut R,
    writer: &mut W,
    messages: &mut M,
) -> Outcome<'w>
    ensures { Spec.EndsRun (Spec.request_view request.entry) query.entry.now (Streams.change (R.known reader.old) (R.known reader.new))
        (Spec.output (Streams.change (W.known writer.old) (W.known writer.new))
        (Streams.change (M.known messages.old) (M.known messages.new))) result }
{
    let ran = run_as(alloc, request.texts, query, reader, writer, messages);
    end_of(request.texts, ran)
}

/// Answers the texts, or the lines of the reader if there is no text. Apart, so that its outbox and the tables of a zone's file, which was
/// read before, do not both lie on the stack.
#[inline(never)]
fn run_as<R: Source, W: Sink, M: Sink>(
    alloc: Global,
    texts: &[String],
    query: &Query<'_>,
    reader: &mut R,
    writer: &mut W,
    messages: &mut M,
) -> Result<Verdict, ToolError>
    ensures { Spec.RunsAs (map string_bytes texts.now) query.entry.now (Streams.change (R.known reader.old) (R.known reader.new))
        (Spec.output (Streams.change (W.known writer.old) (W.known writer.new))
        (Streams.change (M.known messages.old) (M.known messages.new))) result }
{
    if texts.is_empty() {
        run_through(alloc, query, reader, writer, messages)
    } else {
        run_over(alloc, query, texts, writer, messages)
    }
}

/// How a run over these texts ends, or over lines if there is no text. Where a word of several texts was not understood, a quote
/// may be missing.
fn end_of<'w>(texts: &[String], ran: Result<Verdict, ToolError>) -> Outcome<'w>
    ensures { result ≡ Spec.end_of (map string_bytes texts.now) ran }
{
    let verdict = match ran {
        Ok(verdict) => verdict,
        Err(fault) => return Outcome::Fault(fault),
    };
    if are_several(texts) && !verdict.all_clear {
        return Outcome::Unquoted(verdict.all_read);
    }
    Outcome::Answered(verdict.all_read)
}

/// Whether there are more texts than one.
fn are_several(texts: &[String]) -> bool
    ensures { result ≡ Spec.are_several (map string_bytes texts.now) }
{
    matches!(texts, [_, _, ..])
}

/// What is asked of each text, in a zone.
fn query_of<'w: 'z, 'z, S: Clock>(
    system: &S,
    request: Request<'w>,
    zone: TimeZone<'z>,
) -> Result<Query<'z>, NoNow<'w>>
    requires { Spec.IsAskedZone (Spec.request_view request).zone (plain_zone zone) }
    ensures { MatchResult result (Spec.IsQuery (Spec.request_view request.entry)) (Spec.IsNoQuery (Spec.request_view request.entry)) }
{
    let now = moment(system, request.now, zone)?;
    Ok(Query {
        reader: request.reader.unwrap_or(Reader::Approxidate),
        shown: request.shown.unwrap_or(Shown::RAW),
        now,
        strictness: request.strictness.unwrap_or(Strictness::Usual),
        numbered: numbered_of(request.texts),
    })
}

/// What warnings call the texts: those of the command line, or else lines.
fn numbered_of(texts: &[String]) -> Numbered
    ensures { result ≡ Spec.numbered_of (map string_bytes texts.now) }
{
    match texts {
        [] => Numbered::Line,
        _ => Numbered::Text,
    }
}

/// Without a zone of a text: memory was refused, or its file was not read, or it says none.
fn no_zone<'w>(text: ZoneText<'w>, why: NoZone) -> Outcome<'w>
    ensures { result ≡ Spec.without_zone text.entry why }
{
    match why {
        NoZone::Memory => Outcome::Fault(ToolError::Memory),
        NoZone::Fault(kind) => Outcome::Fault(ToolError::Read(kind)),
        NoZone::Text(fault) => Outcome::Shown(WrongWords::NoZone(text, fault)),
    }
}

/// The moment in a zone: that of NOW, or the clock's.
fn moment<'w, 'z, S: Clock>(
    system: &S,
    now: Option<&'w str>,
    zone: TimeZone<'z>,
) -> Result<Zoned<'z>, NoNow<'w>>
    ensures { MatchResult result (Spec.IsMomentIn (option_map (λ now. now.now) now.entry) (plain_zone zone.entry))
        (Spec.IsNoMoment (option_map (λ now. now.now) now.entry) (plain_zone zone.entry)) }
{
    match now {
        Some(text) => match instant_of(text, zone) {
            Ok(instant) => Ok(instant.to_zoned(zone)),
            Err(why) => Err(NoNow::NoMoment(text, why)),
        },
        None => match Timestamp::now(system) {
            Ok(instant) => Ok(instant.to_zoned(zone)),
            Err(_) => Err(NoNow::Clock),
        },
    }
}

/// Writes a text.
fn show<'w, W: Sink>(text: &str, writer: &mut W) -> Outcome<'w>
    ensures { Spec.Prints text.now (Streams.change (W.known writer.old) (W.known writer.new)) result }
{
    match print(text, writer) {
        Ok(()) => Outcome::Printed,
        Err(fault) => Outcome::Fault(fault),
    }
}

/// Says why the program ends so, where there is something to say.
#[tactic(auto, using(crate::proofs::Reported::fault_reported, crate::proofs::Reported::shown_reported, crate::proofs::Reported::clock_reported, crate::proofs::Reported::quote_reported))]
fn report<M: Sink>(outcome: &Outcome<'_>, messages: &mut M)
    ensures { Streams.Reports (Streams.change (M.known messages.old) (M.known messages.new)) (Spec.message_of outcome.now) }
{
    match outcome {
        Outcome::Fault(fault) => tell_fault("git_date", fault, messages),
        Outcome::Shown(why) => tell_wrong(*why, messages),
        Outcome::NoClock => write_message(&["git_date: the clock cannot be read\n"], messages),
        Outcome::Unquoted(_) => write_message(
            &["git_date: each word is a text by itself; quote a text of several words\n"],
            messages,
        ),
        Outcome::Answered(_) => {}
        Outcome::Printed => {}
    }
}

/// Says what is wrong with the command line, and how the program is called.
#[tactic(auto, using(crate::proofs::Reported::wrong_told, crate::proofs::Reported::none_told))]
fn tell_wrong<M: Sink>(why: WrongWords<'_>, messages: &mut M)
    ensures { Spec.Says (Streams.change (M.known messages.old) (M.known messages.new)) (Spec.wrong_words why.entry) USAGE.now }
{
    let mut digits = itoa::Buffer::new();
    let place = place_digits(why.place(), &mut digits);
    match why.subject() {
        Some(word) => tell_about(word, why.lead(), place, why.text(), USAGE, messages),
        None => say(why.lead(), place, why.text(), USAGE, messages),
    }
}

/// Says of a word what is wrong with it, and then more.
#[tactic(auto, using(crate::proofs::Reported::about_said))]
fn tell_about<'a, M: Sink>(
    word: &'a str,
    lead: &'a str,
    place: &'a str,
    text: &'a str,
    more: &'a str,
    messages: &mut M,
)
    ensures { Spec.Says (Streams.change (M.known messages.old) (M.known messages.new))
        (Spec.about word.now (lead.now ++ (place.now ++ text.now))) more.now }
{
    write_message(
        &["git_date: '", word, "' ", lead, place, text, "\n", more],
        messages,
    );
}

/// Says this in one line after the program's name, and then more.
#[tactic(auto, using(crate::proofs::Reported::said))]
fn say<'a, M: Sink>(lead: &'a str, place: &'a str, text: &'a str, more: &'a str, messages: &mut M)
    ensures { Spec.Says (Streams.change (M.known messages.old) (M.known messages.new)) (lead.now ++ (place.now ++ text.now)) more.now }
{
    write_message(&["git_date: ", lead, place, text, "\n", more], messages);
}

/// The status that an end has.
fn status_of(outcome: &Outcome<'_>) -> Status
    ensures { result ≡ Spec.status_of outcome.now }
{
    match outcome {
        Outcome::Printed => Status::Success,
        Outcome::Answered(true) => Status::Success,
        Outcome::Answered(false) => Status::Failure,
        Outcome::Unquoted(true) => Status::Success,
        Outcome::Unquoted(false) => Status::Failure,
        Outcome::Fault(_) => Status::Failure,
        Outcome::NoClock => Status::Failure,
        Outcome::Shown(_) => Status::Usage,
    }
}

/// How the program ends, before its status and message.
#[derive(Drop)]
pub(crate) enum Outcome<'w> {
    /// Each text was answered. Whether all were read.
    Answered(bool),
    /// Each of several texts was answered, and a word of them was not understood: a quote may be missing. Whether all were read.
    Unquoted(bool),
    /// The run has this fault, or the writer refused the help or the version.
    Fault(ToolError),
    /// The clock was not read.
    NoClock,
    /// The help or the version was written.
    Printed,
    /// This is wrong with the command line.
    Shown(WrongWords<'w>),
}

/// Why there is no moment.
#[derive(Clone, Copy)]
pub(crate) enum NoNow<'w> {
    /// The clock was not read.
    Clock,
    /// NOW is no moment.
    NoMoment(&'w str, NoMoment),
}

/// The instant of NOW: an exact date of Git of which nothing is ignored, in the zone if it names no offset, or else a date of
/// gix-date that is not relative.
///
/// No exact date is ahead of the last instant, so that the text and the zone alone decide.
pub(crate) fn instant_of(text: &str, zone: TimeZone<'_>) -> Result<Timestamp, NoMoment>
    ensures { Spec.IsInstantOf (plain_zone zone.entry) text.now
        (result_map_both (λ instant. instant.nanosecond) (λ why. why) result) }
{
    match parse_date_at(text.as_bytes(), Timestamp::MAX, zone) {
        Ok(
            ExactDate {
                time,
                ignored: None,
                has_offset: _,
            },
        ) => instant_at(time.seconds),
        _ => instant_at(streams::moment(text)?.seconds),
    }
}

/// The instant of these seconds since 1970.
fn instant_at(seconds: i64) -> Result<Timestamp, NoMoment>
    ensures { Spec.IsInstantAt seconds (result_map_both (λ instant. instant.nanosecond) (λ why. why) result) }
{
    match Timestamp::from_second(seconds) {
        Ok(instant) => Ok(instant),
        Err(_) => Err(NoMoment::Conversion),
    }
}
