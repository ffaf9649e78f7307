//! The offset of a zone.
ghost use Rattle.std.specs.Prelude.{◌≡◌, ℤ, Result, Ok};
ghost use Rattle.std.specs.Result.{result_map_both};
ghost use Rattle.jiff.specs.Words.{plain_zone, offset_at as zone_offset_at};
ghost use Rattle.gix_date_c.specs as Spec;

use crate::moment::{CInstant, timestamp_of};
use crate::values::status::Status;
use crate::values::store::store;
use crate::zone::ShownZone;
use git_date::offset_in;
use jiff::Timestamp;
use jiff::tz::TimeZone;

/// Tells the offset of a zone that C holds at an instant, in seconds east of UTC.
#[unsafe(no_mangle)]
pub extern "C" fn gix_date_offset_at(instant: &CInstant, zone: &ShownZone, offset: &mut i32) -> u32
    ensures offset { (answer : Result ℤ Status) × Spec.IsOffset (Spec.IsShown zone.now) instant.now answer
        × Spec.Stores answer offset.old offset.new result }
{
    store(offset_at(instant, zone.zone()), offset)
}

/// The offset of a zone at an instant, where there are both.
fn offset_at(instant: &CInstant, zone: Result<TimeZone<'_>, Status>) -> Result<i32, Status>
    ensures { result ≡ Spec.offset_at (Spec.placed (Spec.nanos_of instant.now) (result_map_both plain_zone (λ status. status) zone.entry)) }
{
    let zone = zone?;
    let now = timestamp_of(instant)?;
    Ok(offset_there(&zone, instant, now))
}

/// The offset of a zone at an instant that `jiff` has. Nanoseconds below 0 reach back into the second before.
#[tactic(auto, using(gix_date::proofs::Text::Ints::held, crate::proofs::Instants::in_second, crate::proofs::Instants::of_instant))]
#[inline(always)]
fn offset_there(zone: &TimeZone<'_>, instant: &CInstant, now: Timestamp) -> i32
    requires { Spec.nanos_of instant.now ≡ Ok now.nanosecond }
    ensures { result ≡ zone_offset_at (plain_zone zone.now) now.nanosecond }
{
    if instant.nanoseconds < 0 {
        return zone.to_offset(now).seconds();
    }
    offset_in(zone, instant.seconds, now)
}
