//! One call that standard input asks for. Nothing here takes memory but the call, so that `tests/memory` can count its requests and
//! refuse them.
use crate::answer::Answer;
use crate::calls::converted;
use gix_date::device::{Device, Sink, Source, put_all};
use gix_date::parsing::TimeBuf;
use gix_date::time::format::format_named;
use gix_date::{Error, RawOffsets, Time, Zoned, parse, parse_header, parse_with};
use gix_signature::{SignatureError, SignatureRef, write_line};
use jiff::Timestamp;
use jiff::tz::TimeZone;
use std::alloc::Global;
use std::io::ErrorKind;
use std::process::ExitCode;
use std::str;

/// How many bytes of standard input are read.
const INPUT: usize = 4096;

/// Makes a call and tells its answer. Standard input holds a line with the call, a line with what it is handed beside its text, and
/// the text.
pub(crate) fn make_call(rt: HostRuntime) -> ExitCode {
    let mut reader = Device::new(rt.stdin());
    let mut writer = Device::new(rt.stdout());
    let mut piece = [0; INPUT];
    let Ok(count) = reader.get(&mut piece) else {
        return ExitCode::from(2);
    };
    let input = str::from_utf8(&piece[..count]).unwrap_or("");
    let (call, rest) = input.split_once('\n').unwrap_or((input, ""));
    let (with, text) = rest.split_once('\n').unwrap_or((rest, ""));
    let told = match call {
        "from_line" => tell_line(text, &mut writer),
        _ => tell(&answer_to(rt.alloc(), call, with, text), &mut writer),
    };
    match told {
        Ok(()) => ExitCode::from(0),
        Err(_) => ExitCode::from(2),
    }
}

/// What this call of a text answers.
fn answer_to(alloc: Global, call: &str, with: &str, text: &str) -> Answer {
    match call {
        "parse" => parse(alloc, text, moment_of(with)).into(),
        "parse_with" => {
            parse_with(alloc, text, moment_of(with), RawOffsets::WholeMinutes).into()
        }
        "parse_header" => Answer::of_time(parse_header(text), "none"),
        "from_str" => text.parse::<Time>().into(),
        "to_zoned" => converted(header(text)),
        "now_local" => Answer::of_time(local(with, header(text)), "none"),
        "format_by_pattern" => header(text).format_by_pattern(alloc, with).into(),
        "format_by_pattern_or_unix" => header(text).format_by_pattern_or_unix(alloc, with).into(),
        _ => printed(alloc, call, with, header(text)),
    }
}

/// What a call that prints a time in the format of this name answers.
fn printed(alloc: Global, call: &str, name: &str, time: Time) -> Answer {
    match (call, format_named(name)) {
        ("format", Some(format)) => time.format(alloc, format).into(),
        ("format_or_unix", Some(format)) => time.format_or_unix(alloc, format).into(),
        _ => Answer::Refused("no call"),
    }
}

/// The moment of a header text.
fn moment_of(text: &str) -> Option<Zoned<'static>> {
    parse_header(text)?.to_zoned().ok()
}

/// The time at these seconds by the clock of this zone.
fn local(zone: &str, time: Time) -> Option<Time> {
    let clock = Timestamp::from_second(time.seconds).ok()?;
    Time::now_local(clock, TimeZone::posix(zone).ok())
}

/// The time of a header text, or the first of 1970.
fn header(text: &str) -> Time {
    parse_header(text).unwrap_or_default()
}

/// Writes an answer, in memory that it has. No call here has an answer of another kind.
fn tell<W: Sink>(answer: &Answer, out: &mut W) -> Result<(), ErrorKind> {
    match answer {
        Answer::Time(time) => tell_time(*time, out),
        Answer::Text(text) => put_all(out, text.as_bytes()),
        Answer::Refused(name) => put_all(out, name.as_bytes()),
        _ => put_all(out, b"another answer"),
    }
}

/// Writes a time by each of the calls that write one, which have to agree.
fn tell_time<W: Sink>(time: Time, out: &mut W) -> Result<(), ErrorKind> {
    let Ok(buf) = time.to_buf() else {
        return put_all(out, b"no header text");
    };
    if !is_lent(time, buf.as_str()) {
        return put_all(out, b"another header text");
    }
    put_all(out, buf.as_str().as_bytes())?;
    put_all(out, b"\n")?;
    match time.write_to(out) {
        Err(Error::Write(kind)) => Err(kind),
        _ => Ok(()),
    }
}

/// Whether a time lends this text, and has as many bytes.
fn is_lent(time: Time, text: &str) -> bool {
    match time.to_str(&mut TimeBuf::default()) {
        Ok(lent) => lent == text && lent.len() == time.size(),
        Err(_) => false,
    }
}

/// Writes a signature line again from its parts, with the time in it.
fn tell_line<W: Sink>(line: &str, out: &mut W) -> Result<(), ErrorKind> {
    let Some((parts, time)) = dated(line) else {
        return put_all(out, b"none");
    };
    match write_line(parts.name, parts.email, time, out) {
        Err(SignatureError::Write(kind)) => Err(kind),
        Err(_) => put_all(out, b"no line"),
        Ok(()) => Ok(()),
    }
}

/// The parts of a signature line, and the time in it.
fn dated(line: &str) -> Option<(SignatureRef<'_>, Time)> {
    let parts = SignatureRef::from_line(line)?;
    Some((parts, parts.time_of()?))
}
