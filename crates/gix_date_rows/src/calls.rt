//! The calls of rows, each named as in the library.
//!
//! A row is a line: a call, its arguments and the answer that is due, cut by tabs. A line that is empty or begins with `#` is none.
//! The calls, with what each row of them has:
//!
//! | Call | Arguments | Answer |
//! |---|---|---|
//! | `parse_header` | text | time |
//! | `is_canonical_header` | text | `yes` or `no` |
//! | `header_text` | seconds, offset | text |
//! | `parse` | rule, moment, text | time |
//! | `parse_carefully` | rule, `utc` or `local`, `careful` or `all`, moment, text | time |
//! | `parse_date` | moment, text | time |
//! | `ignored` | moment, text | place of what `parse_date` ignores, or `none` |
//! | `has_offset` | moment, text | `yes` if the date names an offset, or `no` |
//! | `approxidate` | moment, text | time, and ` ?` after it if nothing is understood |
//! | `approximate_ignored` | moment, text | place of what `approxidate` ignores, or `none` |
//! | `expiry_date` | moment, text | time, `never` or `all` |
//! | `to_zoned` | seconds, offset | time |
//! | `now_local` | seconds, nanoseconds, zone | time |
//! | `date_mode` | name of a mode | the name that the mode shows |
//! | `show_date` | mode, moment, seconds, offset | text |
//! | `show_git_time` | mode, moment, seconds, offset as its decimal number | text |
//! | `show_by_format` | Git's format, `own` or `local`, moment, seconds, offset | text |
//! | `format` | format, seconds, offset | text |
//! | `format_by_pattern` | pattern, seconds, offset | text |
//! | `cut_signature` | line | name, `<`, email, `>` and time |
//! | `signature_time` | line | time |
//! | `write_signature` | name, email, seconds, offset | line |
//! | `ident` | line | name, `<`, email, `>`, and the date's seconds as they are written |
//! | `ident_label` | line | name, ` <`, email and `>` |
//! | `ident_again` | line | the line that is written of what Git shows, if the same comes back |
//! | `ident_offset` | line | offset as it is written |
//! | `git_time` | line | seconds and offset that Git shows |
//! | `ident_time` | line | time |
//! | `fsck_of` | line | ID of the message of `git fsck`, or `none` |
//! | `write_ident` | name, email, seconds, offset | line |
//!
//! - A refusal is its name after `!`, and its place after a space if it has one: `!Range`, `!Unclear 3`. A text that begins with
//!   `!` is written `\x21..`.
//! - A time is its seconds and its offset, cut by a space. A place counts bytes.
//! - A rule is `quarters`, `minutes`, or `both`, if both answer the same.
//! - A moment is `none`; or seconds, nanoseconds and a zone, cut by spaces; or `any` in `parse`, if none and five others answer the
//!   same.
//! - A zone is an offset in seconds, a POSIX rule, or a TZif file in `data`.
//! - Escapes are `\t`, `\n`, `\r`, `\\`, `\xff` for a byte and `\u{2028}` for a character.
//!
//! A row runs all calls that answer the same, such as `parse_with` and `parse_no_alloc`. Rows that are not UTF-8 are skipped here if
//! `!NotText` is due. The library for C has no `to_zoned` and no `now_local`, so the readers in C and Python pass over these by name.
use crate::answer::{Answer, name_of};
use crate::approximate::{expires, guessed, passed_over};
use crate::arguments::Arguments;
use crate::formats::shown_by_format;
use crate::idents::{
    fsck_word, shown_label, shown_parts, shown_time, stored_offset, time_of, written_again,
    written_line,
};
use crate::moments::{
    ignored_place, names_offset, parsed, parsed_carefully, read_date, shown_date, shown_git_time,
    zone_of,
};
use git_date::DateMode;
use gix_date::device::Device;
use gix_date::parsing::TimeBuf;
use gix_date::time::{Format, FormatBuf};
use gix_date::{CarefulOptions, Error, RawOffsets, Time, parse_header};
use gix_signature::{SignatureRef, write_line};
use jiff::Timestamp;
use jiff::tz::TimeZoneDatabase;
use std::alloc::{AllocError, Global};

/// What the call answers that a row's fields name. `None` where they name none, or not its arguments.
pub(crate) fn answer_to(
    alloc: Global,
    zones: &TimeZoneDatabase,
    row: &mut Arguments<'_>,
) -> Option<Answer> {
    let call = row.text()?;
    line(alloc, call, row)
        .or_else(|| dated(alloc, zones, call, row))
        .or_else(|| printed(alloc, zones, call, row))
        .or_else(|| dated_by_git(zones, call, row))
}

/// What a call for headers, signature lines and identity lines answers, or for the instant of a time.
fn line(alloc: Global, call: &str, row: &mut Arguments<'_>) -> Option<Answer> {
    match call {
        "parse_header" => Some(header_time(row.text()?)),
        "is_canonical_header" => Some(is_canonical_header(row.text()?)),
        "header_text" => Some(header_text(alloc, row.time()?)),
        "to_zoned" => Some(converted(row.time()?)),
        "cut_signature" => Some(cut(alloc, row.text()?)),
        "signature_time" => Some(signature_time(row.text()?)),
        "write_signature" => {
            let (name, email) = (row.text()?, row.text()?);
            Some(signature_line(alloc, name, email, row.time()?))
        }
        "ident" => Some(shown_parts(alloc, row.bytes()?)),
        "ident_label" => Some(shown_label(alloc, row.bytes()?)),
        "ident_again" => Some(written_again(alloc, row.bytes()?)),
        "ident_offset" => Some(stored_offset(alloc, row.bytes()?)),
        "git_time" => Some(shown_time(alloc, row.bytes()?)),
        "ident_time" => Some(time_of(row.bytes()?)),
        "fsck_of" => Some(fsck_word(row.bytes()?)),
        "write_ident" => {
            let (name, email) = (row.bytes()?, row.bytes()?);
            Some(written_line(alloc, name, email, row.time()?))
        }
        _ => None,
    }
}

/// What a call answers that reads a date as gix-date does, or the clock.
fn dated(
    alloc: Global,
    zones: &TimeZoneDatabase,
    call: &str,
    row: &mut Arguments<'_>,
) -> Option<Answer> {
    match call {
        "parse" => {
            let rules = row.rules()?;
            let moments = row.text()?;
            parsed(alloc, zones, rules, moments, row.text()?)
        }
        "parse_carefully" => {
            let rules = row.rules()?;
            let options = CarefulOptions {
                raw: RawOffsets::Quarter,
                without_offset: row.without_offset()?,
                texts: row.texts()?,
            };
            let moment = row.text()?;
            parsed_carefully(zones, rules, options, moment, row.text()?)
        }
        "now_local" => {
            let clock = row.instant()?;
            now_local(zones, clock, row.text()?)
        }
        _ => None,
    }
}

/// What a call answers that reads a date as Git does, at a moment.
fn dated_by_git(zones: &TimeZoneDatabase, call: &str, row: &mut Arguments<'_>) -> Option<Answer> {
    let moment = row.text()?;
    let text = row.bytes()?;
    match call {
        "parse_date" => read_date(zones, moment, text),
        "ignored" => ignored_place(zones, moment, text),
        "has_offset" => names_offset(zones, moment, text),
        "approxidate" => guessed(zones, moment, text),
        "approximate_ignored" => passed_over(zones, moment, text),
        "expiry_date" => expires(zones, moment, text),
        _ => None,
    }
}

/// What a call that prints a time answers.
fn printed(
    alloc: Global,
    zones: &TimeZoneDatabase,
    call: &str,
    row: &mut Arguments<'_>,
) -> Option<Answer> {
    match call {
        "date_mode" => Some(mode_name(alloc, row.text()?)),
        "show_date" => {
            let mode = row.mode()?;
            let moment = row.text()?;
            shown_date(alloc, zones, mode, moment, row.time()?)
        }
        "show_git_time" => {
            let mode = row.mode()?;
            let moment = row.text()?;
            shown_git_time(alloc, zones, mode, moment, row.git_time()?)
        }
        "show_by_format" => {
            let format = row.text()?;
            let local = row.is_local()?;
            let moment = row.text()?;
            shown_by_format(alloc, zones, format, local, moment, row.time()?)
        }
        "format" => {
            let format = row.format()?;
            Some(format_text(alloc, format, row.time()?))
        }
        "format_by_pattern" => {
            let pattern = row.text()?;
            Some(pattern_text(alloc, pattern, row.time()?))
        }
        _ => None,
    }
}

/// The time of a header, where both calls that read one agree.
fn header_time(text: &str) -> Answer {
    let time = parse_header(text);
    let is_same = match text.parse::<Time>() {
        Ok(other) => time == Some(other),
        Err(fault) => time.is_none() && matches!(fault, Error::InvalidTime),
    };
    if is_same {
        Answer::of_time(time, "InvalidTime")
    } else {
        Answer::APART
    }
}

/// Whether a text is that of a time as it is written.
fn is_canonical_header(text: &str) -> Answer {
    Answer::of_bool(gix_date::is_canonical_header(text))
}

/// The text of a time in a header, where the calls that write one agree.
fn header_text(alloc: Global, time: Time) -> Answer {
    let mut out = Device::new(Vec::new(alloc));
    let written = time.write_to(&mut out);
    let bytes = out.into_inner();
    let shown: Result<String, AllocError> = format!(in alloc; "{time}");
    let mut lent = TimeBuf::default();
    match (time.to_buf(), time.to_str(&mut lent)) {
        (Ok(buf), Ok(text)) => {
            let is_same = written.is_ok()
                && bytes.as_slice() == text.as_bytes()
                && buf.as_str() == text
                && matches!(&shown, Ok(shown) if shown.as_str() == text)
                && time.size() == text.len();
            if is_same { shown.into() } else { Answer::APART }
        }
        (Err(Error::OffsetTooWide), Err(fault))
            if written.is_err() && bytes.is_empty() && shown.is_err() => {
            Answer::Refused(name_of(&fault))
        }
        _ => Answer::APART,
    }
}

/// The time of the zoned value of a time.
pub(crate) fn converted(time: Time) -> Answer {
    match time.to_zoned() {
        Ok(zoned) => Answer::Time(Time::new(
            zoned.timestamp().as_second(),
            zoned.offset().seconds(),
        )),
        Err(fault) => Answer::Refused(name_of(&fault)),
    }
}

/// The time that a clock shows in a zone, where the calls for one agree. `None` where there is no such zone.
fn now_local(zones: &TimeZoneDatabase, clock: Timestamp, zone: &str) -> Option<Answer> {
    let zone = zone_of(zones, zone)?;
    let utc = Time::now_utc(clock);
    let local = Time::now_local_or_utc(clock, Some(zone));
    let do_agree = Time::now_local(clock, Some(zone)) == Some(local)
        && Time::now_local(clock, None).is_none()
        && Time::now_local_or_utc(clock, None) == utc
        && utc == Time::new(local.seconds, 0);
    Some(if do_agree {
        Answer::Time(local)
    } else {
        Answer::APART
    })
}

/// The name that a mode of shown dates shows.
fn mode_name(alloc: Global, name: &str) -> Answer {
    match name.parse::<DateMode>() {
        Ok(mode) => {
            let shown: Result<String, AllocError> = format!(in alloc; "{mode}");
            shown.into()
        }
        Err(_fault) => Answer::Refused("UnknownMode"),
    }
}

/// The text of a time in a format. `format_or_unix` has to answer the same, or the seconds where there is none, and
/// `format_to_buf` the same, or no text where it owes none.
fn format_text(alloc: Global, format: Format, time: Time) -> Answer {
    let text = time.format(alloc, format);
    let always = time.format_or_unix(alloc, format);
    let seconds = time.format(alloc, Format::Unix);
    let is_same = match (&text, &always, &seconds) {
        (Ok(text), Ok(always), _) => text.as_str() == always.as_str(),
        (Err(_), Ok(always), Ok(seconds)) => always.as_str() == seconds.as_str(),
        _ => false,
    };
    let is_owed = match format {
        Format::Custom(_) => has_four_digit_fields(time),
        Format::Unix | Format::Raw => true,
    };
    if is_same && agrees(&text, time.format_to_buf(format), is_owed) {
        text.into()
    } else {
        Answer::APART
    }
}

/// The text of a time by a pattern, where the call that takes no memory gives the same or none.
fn pattern_text(alloc: Global, pattern: &str, time: Time) -> Answer {
    let text = time.format_by_pattern(alloc, pattern);
    if agrees(&text, time.format_by_pattern_to_buf(pattern), false) {
        text.into()
    } else {
        Answer::APART
    }
}

/// Whether a text by value is the text of `format`. It may be missing where there is none, or where none is owed.
fn agrees(text: &Result<String, Error>, buf: Option<FormatBuf>, is_owed: bool) -> bool {
    match (text, buf) {
        (Ok(text), Some(buf)) => text.as_str() == buf.as_str(),
        (Ok(_), None) => !is_owed,
        (Err(_), buf) => buf.is_none(),
    }
}

/// Whether the clock of a time shows a year from 1000 to 9999 and its offset is whole minutes.
fn has_four_digit_fields(time: Time) -> bool {
    match time.to_zoned() {
        Ok(zoned) => {
            (1000..=9999).contains(&zoned.to_plain().datetime.date.year) && time.offset % 60 == 0
        }
        Err(_fault) => false,
    }
}

/// The name, the email and the time of a line, with the brackets between them.
fn cut(alloc: Global, line: &str) -> Answer {
    match SignatureRef::from_line(line) {
        Some(SignatureRef { name, email, time }) => {
            let text: Result<String, AllocError> = format!(in alloc; "{name}<{email}>{time}");
            text.into()
        }
        None => Answer::Refused("NoSignature"),
    }
}

/// The time of a line.
fn signature_time(line: &str) -> Answer {
    match SignatureRef::from_line(line) {
        Some(parts) => Answer::of_time(parts.time_of(), "InvalidTime"),
        None => Answer::Refused("NoSignature"),
    }
}

/// The line that is written of these parts. Where they are refused, nothing may be written.
fn signature_line(alloc: Global, name: &str, email: &str, time: Time) -> Answer {
    let mut out = Device::new(Vec::new(alloc));
    let written = write_line(name, email, time, &mut out);
    let bytes = out.into_inner();
    match written {
        Ok(()) => match String::from_utf8(bytes) {
            Ok(line) => Answer::Text(line),
            Err(_fault) => Answer::APART,
        },
        Err(fault) if bytes.is_empty() => fault.into(),
        Err(_fault) => Answer::APART,
    }
}
