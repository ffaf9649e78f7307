//! Moments: instants in zones.
ghost use Rattle.std.specs.Prelude.{◌≡◌, true, Ok, IsTrue};
ghost use Rattle.std.specs.Result.{result_map_both};
ghost use Rattle.jiff.specs.Words.{plain_zone};
ghost use Rattle.gix_date_c.specs as Spec;

use crate::values::status::Status;
use crate::values::text::utf8_text;
use git_date::{TableError, zone_of_text, zone_table};
use gix_date::Zoned;
use gix_date::time::{FIRST_SECOND, LAST_SECOND};
use jiff::Timestamp;
use jiff::tz::{Offset, TimeZone, Tzif};
use std::alloc::Global;

/// An instant, as seconds and nanoseconds since 1970-01-01 00:00:00 UTC.
#[repr(C)]
#[derive(Clone, Copy)]
pub struct CInstant {
    pub seconds: i64,
    pub nanoseconds: i32,
}

/// The moment of an instant in a zone, where there is the zone.
#[inline(always)]
pub(crate) fn moment_in<'z>(
    instant: &CInstant,
    zone: Result<TimeZone<'z>, Status>,
) -> Result<Zoned<'z>, Status>
    ensures { Spec.place_of result ≡ Spec.placed (Spec.nanos_of instant.now) (result_map_both plain_zone (λ status. status) zone.entry) }
{
    let zone = zone?;
    Ok(timestamp_of(instant)?.to_zoned(zone))
}

/// An instant, where `jiff` has it.
#[inline(always)]
pub(crate) fn timestamp_of(instant: &CInstant) -> Result<Timestamp, Status>
    ensures { result_map_both (λ now. now.nanosecond) (λ status. status) result ≡ Spec.nanos_of instant.now }
{
    match Timestamp::new(instant.seconds, instant.nanoseconds) {
        Ok(now) => Ok(now),
        Err(_) => Err(Status::InvalidInstant),
    }
}

/// Whether an instant is one of `jiff`, told without its nanoseconds since 1970. `false` says nothing.
#[inline(always)]
pub(crate) fn is_usual_instant(instant: &CInstant) -> bool
    ensures { IsTrue result → Spec.has_instant instant.now ≡ true }
{
    FIRST_SECOND <= instant.seconds
        && instant.seconds <= LAST_SECOND
        && 0 <= instant.nanoseconds
        && instant.nanoseconds < 1_000_000_000
}

/// The zone that always has an offset.
#[tactic(auto, using(gix_date::proofs::Text::Ints::held, crate::proofs::Named::offset_zone, crate::proofs::Named::no_offset_zone))]
#[inline(always)]
pub(crate) fn offset_zone(offset: i32) -> Result<TimeZone<'static>, Status>
    ensures { Spec.IsOffsetZone offset (result_map_both plain_zone (λ status. status) result) }
{
    match Offset::from_seconds(offset) {
        Ok(offset) => Ok(offset.to_time_zone()),
        Err(_) => Err(Status::InvalidZone),
    }
}

/// The zone that a text means by itself: that of a POSIX rule, or UTC by its name.
pub(crate) fn text_zone(text: &[u8]) -> Result<TimeZone<'static>, Status>
    ensures { Spec.IsTextZone text.now (result_map_both plain_zone (λ status. status) result) }
{
    zone_of_text(utf8_text(text)?).ok_or(Status::InvalidZone)
}

/// The table of a TZif file. It needs much stack, which a rule is not to pay for.
#[inline(never)]
pub(crate) fn table_of(alloc: Global, file: &[u8]) -> Result<Tzif, Status>
    ensures { Spec.IsTable file.now result }
{
    zone_table(alloc, file).map_err(table_status)
}

/// The status of a file that says no zone.
fn table_status(error: TableError) -> Status
    ensures { result ≡ Spec.table_status error }
{
    match error {
        TableError::OutOfMemory => Status::Memory,
        TableError::NotTzif => Status::InvalidZone,
        TableError::CountsLeapSeconds => Status::ZoneCountsLeapSeconds,
    }
}
