//! Dates parsed at no moment, at one, or at any.
use crate::answer::Answer;
use git_date::{DateMode, ExactDate, parse_date, show_date, show_git_time};
use gix_date::{
    CarefulOptions, Error, ParseError, RawOffsets, Time, Zoned, parse, parse_carefully,
    parse_no_alloc, parse_with,
};
use gix_signature::GitTime;
use jiff::Timestamp;
use jiff::tz::{Offset, TimeZone, TimeZoneDatabase};
use std::alloc::Global;

/// Moments by their seconds and offset, at which a text that is not relative means the same as at none.
const MOMENTS: [(i64, i32); 5] = [
    (1_698_400_800, 0),
    (1_698_400_800, 3600),
    (1_698_400_800, 7200),
    (-1, -34_200),
    (0, 93_599),
];

/// What a text answers by each of these rules at the moments that a field says: `any`, or as `moment_of` has it. `None` where it
/// says none of these.
pub(crate) fn parsed(
    alloc: Global,
    zones: &TimeZoneDatabase,
    rules: &[RawOffsets],
    moments: &str,
    text: &str,
) -> Option<Answer> {
    if moments == "any" {
        return Some(at_any(alloc, rules, text));
    }
    match moment_of(zones, moments)? {
        Ok(now) => Some(by_each(alloc, rules, text, now)),
        Err(refusal) => Some(Answer::Refused(refusal)),
    }
}

/// What a text answers carefully by each of these rules and the other options, at the moment that a field says. `None` where it says
/// none.
pub(crate) fn parsed_carefully(
    zones: &TimeZoneDatabase,
    rules: &[RawOffsets],
    options: CarefulOptions,
    moment: &str,
    text: &str,
) -> Option<Answer> {
    match moment_of(zones, moment)? {
        Ok(now) => Some(carefully(rules, options, text, now)),
        Err(refusal) => Some(Answer::Refused(refusal)),
    }
}

/// The time of a date as Git reads it, at the moment that a field says. `None` where it says none.
pub(crate) fn read_date(zones: &TimeZoneDatabase, moment: &str, text: &[u8]) -> Option<Answer> {
    Some(match dated(zones, moment, text)? {
        Ok(date) => Answer::Time(date.time),
        Err(refusal) => refusal,
    })
}

/// The place of what such a date ignores.
pub(crate) fn ignored_place(zones: &TimeZoneDatabase, moment: &str, text: &[u8]) -> Option<Answer> {
    Some(match dated(zones, moment, text)? {
        Ok(date) => Answer::Ignored(date.ignored),
        Err(refusal) => refusal,
    })
}

/// Whether such a date names its own offset.
pub(crate) fn names_offset(zones: &TimeZoneDatabase, moment: &str, text: &[u8]) -> Option<Answer> {
    Some(match dated(zones, moment, text)? {
        Ok(date) => Answer::of_bool(date.has_offset),
        Err(refusal) => refusal,
    })
}

fn dated(zones: &TimeZoneDatabase, moment: &str, text: &[u8]) -> Option<Result<ExactDate, Answer>> {
    match moment_of(zones, moment)? {
        Ok(now) => Some(parse_date(text, now?).map_err(Answer::from)),
        Err(refusal) => Some(Err(Answer::Refused(refusal))),
    }
}

/// What Git shows of a time, at the moment that a field says. `None` where it says none.
pub(crate) fn shown_date(
    alloc: Global,
    zones: &TimeZoneDatabase,
    mode: DateMode,
    moment: &str,
    time: Time,
) -> Option<Answer> {
    Some(match moment_of(zones, moment)? {
        Ok(now) => match show_date(time, mode, now?) {
            Ok(text) => Answer::copied(alloc, text.as_str()),
            Err(refusal) => refusal.into(),
        },
        Err(refusal) => Answer::Refused(refusal),
    })
}

/// What Git shows of the time of an identity line, at the moment that a field says. `None` where it says none.
pub(crate) fn shown_git_time(
    alloc: Global,
    zones: &TimeZoneDatabase,
    mode: DateMode,
    moment: &str,
    time: GitTime,
) -> Option<Answer> {
    let now = match moment_of(zones, moment)? {
        Ok(now) => now?,
        Err(refusal) => return Some(Answer::Refused(refusal)),
    };
    let shown = show_git_time(time, mode, now.timestamp(), now.time_zone());
    Some(match shown {
        Ok(text) => Answer::copied(alloc, text.as_str()),
        Err(refusal) => refusal.into(),
    })
}

/// The answer that is the same by each of these rules and the other options.
fn carefully(
    rules: &[RawOffsets],
    options: CarefulOptions,
    text: &str,
    now: Option<Zoned<'_>>,
) -> Answer {
    let mut found = None;
    for raw in rules {
        let answer = parse_carefully(
            text,
            now,
            CarefulOptions {
                raw: *raw,
                ..options
            },
        );
        if found.unwrap_or(answer) != answer {
            return Answer::APART;
        }
        found = Some(answer);
    }
    match found {
        Some(answer) => answer.into(),
        None => Answer::APART,
    }
}

/// No moment where the text is `none`, or the one that is written as its seconds, its nanoseconds and its zone with a space after each
/// of the first two, or the name of what is wrong with it. `None` where it is written otherwise.
pub(crate) fn moment_of<'a>(
    zones: &'a TimeZoneDatabase,
    text: &str,
) -> Option<Result<Option<Zoned<'a>>, &'static str>> {
    if text == "none" {
        return Some(Ok(None));
    }
    let (seconds, rest) = text.split_once(' ')?;
    let (nanoseconds, zone) = rest.split_once(' ')?;
    let seconds = seconds.parse().ok()?;
    let nanoseconds = nanoseconds.parse().ok()?;
    let Some(zone) = zone_of(zones, zone) else {
        return Some(Err("InvalidZone"));
    };
    match Timestamp::new(seconds, nanoseconds) {
        Ok(instant) => Some(Ok(Some(instant.to_zoned(zone)))),
        Err(_) => Some(Err("InvalidInstant")),
    }
}

/// A zone: an offset in seconds, the name of a TZif file, or a rule as POSIX has it.
pub(crate) fn zone_of<'a>(zones: &'a TimeZoneDatabase, name: &str) -> Option<TimeZone<'a>> {
    if name.ends_with(".tzif") {
        return zones.get(name).ok();
    }
    if let Ok(offset) = name.parse::<i32>() {
        return Some(Offset::from_seconds(offset).ok()?.to_time_zone());
    }
    TimeZone::posix(name).ok()
}

/// The answer that is the same at no moment and at each of `MOMENTS`.
fn at_any(alloc: Global, rules: &[RawOffsets], text: &str) -> Answer {
    let first = by_all(alloc, rules, text, None);
    for (seconds, offset) in MOMENTS {
        let now = Time::new(seconds, offset).to_zoned().ok();
        if by_all(alloc, rules, text, now) != first {
            return Answer::APART;
        }
    }
    of_same(first)
}

/// The answer at one moment.
fn by_each(alloc: Global, rules: &[RawOffsets], text: &str, now: Option<Zoned<'_>>) -> Answer {
    of_same(by_all(alloc, rules, text, now))
}

fn of_same(answer: Option<Result<Time, ParseError>>) -> Answer {
    match answer {
        Some(answer) => answer.into(),
        None => Answer::APART,
    }
}

/// What a text is by each of these rules. `None` where they differ, or the calls with an allocator and without it.
fn by_all(
    alloc: Global,
    rules: &[RawOffsets],
    text: &str,
    now: Option<Zoned<'_>>,
) -> Option<Result<Time, ParseError>> {
    let mut found = None;
    for raw in rules {
        let answer = parse_no_alloc(text, now, *raw);
        let mut is_same = found.unwrap_or(answer) == answer;
        is_same &= is_alike(&parse_with(alloc, text, now, *raw), text, answer);
        if *raw == RawOffsets::Quarter {
            is_same &= is_alike(&parse(alloc, text, now), text, answer);
        }
        if !is_same {
            return None;
        }
        found = Some(answer);
    }
    found
}

/// Whether a call with an allocator answers the same, and gives the text back where it refuses that.
fn is_alike(one: &Result<Time, Error>, text: &str, other: Result<Time, ParseError>) -> bool {
    match (one, other) {
        (Ok(time), Ok(other)) => *time == other,
        (Err(Error::UnknownFormat { input }), Err(ParseError::UnknownFormat)) => {
            input.as_bytes() == text.as_bytes()
        }
        (Err(Error::DateConversion { input }), Err(ParseError::DateConversion)) => {
            input.as_bytes() == text.as_bytes()
        }
        (Err(Error::MissingNow), Err(ParseError::MissingNow)) => true,
        (Err(Error::Range), Err(ParseError::Range)) => true,
        _ => false,
    }
}
