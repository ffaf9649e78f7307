//! Dates parsed.
ghost use Rattle.std.specs.Prelude.{◌≡◌, Result, Ok, None, IfSome};
ghost use Rattle.std.specs.Result.{result_map_both};
ghost use Rattle.jiff.specs.Words.{plain_zone};
ghost use Rattle.gix_date_c.specs as Spec;

use crate::moment::{CInstant, is_usual_instant, timestamp_of};
use crate::values::status::Status;
use crate::values::text::utf8_text;
use crate::values::time::{CTime, store_time};
use crate::zone::ShownZone;
use gix_date::{ParseError, RawOffsets, Time, Zoned, parse_no_alloc, parse_unusual, usual_date};
use jiff::Timestamp;
use jiff::tz::TimeZone;

/// Parses a date that is relative to no moment.
#[unsafe(no_mangle)]
pub extern "C" fn gix_date_parse(text: &[u8], raw_offsets: u32, time: &mut CTime) -> u32
    ensures { (answer : Result Time Status) × Spec.IsParsed raw_offsets None text.now answer
        × Spec.StoresTime answer time.old time.new result }
{
    store_time(parse_text(text, raw_offsets, None), time)
}

/// Parses a date, which may be relative to a moment in a zone that C holds.
#[unsafe(no_mangle)]
pub extern "C" fn gix_date_parse_at(
    text: &[u8],
    raw_offsets: u32,
    now: &CInstant,
    zone: &ShownZone,
    time: &mut CTime,
) -> u32
    ensures { (answer : Result Time Status) × Spec.IsParsedIn raw_offsets (Spec.IsShown zone.now) now.now text.now answer
        × Spec.StoresTime answer time.old time.new result }
{
    let answer = match usual_there(text, raw_offsets, now, zone) {
        Some(date) => Ok(date),
        None => parse_placed(text, raw_offsets, timestamp_of(now), zone.zone()),
    };
    store_time(answer, time)
}

/// A date in a usual form at an instant in a zone, which need only be there. `None` says nothing.
#[inline(always)]
fn usual_there(text: &[u8], raw_offsets: u32, now: &CInstant, zone: &ShownZone) -> Option<Time>
    ensures { IfSome result (λ date. Spec.IsParsedIn raw_offsets (Spec.IsShown zone.now) now.now text.now (Ok date)) }
{
    if !zone.is_zone() || !is_usual_instant(now) {
        return None;
    }
    let rule = raw_rule(raw_offsets)?;
    let Ok(text) = utf8_text(text) else {
        return None;
    };
    let date = usual_date(text, rule)?;
    Some(date)
}

/// What a text says at an instant in a zone, where there are both.
fn parse_placed(
    text: &[u8],
    raw_offsets: u32,
    now: Result<Timestamp, Status>,
    zone: Result<TimeZone<'_>, Status>,
) -> Result<Time, Status>
    ensures { Spec.IsParsedIfPlaced raw_offsets (Spec.placed (result_map_both (λ now. now.nanosecond) (λ status. status) now)
        (result_map_both plain_zone (λ status. status) zone.entry)) text.now result }
{
    let zone = zone?;
    let now = now?;
    parse_there(text, raw_offsets, now, zone)
}

/// What a text says at an instant in a zone.
#[tactic(auto, using(crate::proofs::Placed::cases))]
#[inline(always)]
fn parse_there(
    text: &[u8],
    raw_offsets: u32,
    now: Timestamp,
    zone: TimeZone<'_>,
) -> Result<Time, Status>
    ensures { Spec.IsParsedThere raw_offsets (now.nanosecond, plain_zone zone.entry) text.now result }
{
    let rule = raw_rule(raw_offsets).ok_or(Status::NoSuchOption)?;
    let text = utf8_text(text)?;
    parse_unusual(text, Some(now.to_zoned(zone)), rule).map_err(refusal_status)
}

/// What a text says by the rule for raw offsets of a number.
#[inline(always)]
pub(crate) fn parse_text(
    text: &[u8],
    raw_offsets: u32,
    now: Option<Zoned<'_>>,
) -> Result<Time, Status>
    ensures { Spec.IsParsed raw_offsets now.entry text.now result }
{
    let rule = raw_rule(raw_offsets).ok_or(Status::NoSuchOption)?;
    parse_no_alloc(utf8_text(text)?, now, rule).map_err(refusal_status)
}

/// The status of a refusal of the library.
pub(crate) fn refusal_status(error: ParseError) -> Status
    ensures { result ≡ Spec.refusal_status error }
{
    match error {
        ParseError::UnknownFormat => Status::UnknownFormat,
        ParseError::DateConversion => Status::DateConversion,
        ParseError::MissingNow => Status::MissingNow,
        ParseError::Range => Status::Range,
    }
}

/// What a text says at a moment, where there is one.
#[inline(always)]
pub(crate) fn parse_at(
    text: &[u8],
    raw_offsets: u32,
    now: Result<Zoned<'_>, Status>,
) -> Result<Time, Status>
    ensures { Spec.IsParsedAt raw_offsets now.entry text.now result }
{
    parse_text(text, raw_offsets, Some(now?))
}

pub(crate) fn raw_rule(number: u32) -> Option<RawOffsets>
    ensures { result ≡ Spec.raw_rule number }
{
    match number {
        0 => Some(RawOffsets::Quarter),
        1 => Some(RawOffsets::WholeMinutes),
        _ => None,
    }
}
