//! Ages as Git chooses their units.
ghost use Rattle.std.specs.Prelude.{◌≡◌};
ghost use Rattle.std.specs.Result.{result_map_both};
ghost use Rattle.gix_date_c.specs as Spec;

use crate::moment::{CInstant, timestamp_of};
use crate::values::status::Status;
use crate::values::store::store;
use crate::values::time::{CTime, load_time};
use git_date::Age;
use gix_date::Time;
use jiff::Timestamp;

/// How long ago a time was: `struct git_date_age`.
#[repr(C)]
#[derive(Clone, Copy)]
pub struct CAge {
    pub unit: u32,
    pub count: u32,
    pub months: u32,
}

/// Tells how long before a moment a time was.
#[unsafe(no_mangle)]
pub extern "C" fn git_date_age_at(time: &CTime, now: &CInstant, age: &mut CAge) -> u32
    ensures { Spec.Stores (Spec.age_at time.now.seconds (Spec.nanos_of now.now)) age.old age.new result }
{
    store(age_at(load_time(time), timestamp_of(now)), age)
}

/// The age of a time at an instant, where there is one.
fn age_at(time: Time, now: Result<Timestamp, Status>) -> Result<CAge, Status>
    ensures { result ≡ Spec.age_at time.seconds (result_map_both (λ now. now.nanosecond) (λ status. status) now) }
{
    let age = git_date::age_at(time, now?);
    age.map(age_for_c).map_err(|_| Status::GitRange)
}

/// An age as C has it. A time after the moment has none.
fn age_for_c(age: Option<Age>) -> CAge
    ensures { result ≡ Spec.age_for_c age }
{
    let (unit, count, months) = match age {
        Some(Age::Seconds(count)) => (0, count, 0),
        Some(Age::Minutes(count)) => (1, count, 0),
        Some(Age::Hours(count)) => (2, count, 0),
        Some(Age::Days(count)) => (3, count, 0),
        Some(Age::Weeks(count)) => (4, count, 0),
        Some(Age::Months(count)) => (5, count, 0),
        Some(Age::Years(years, months)) => (6, years, months),
        None => (7, 0, 0),
    };
    CAge {
        unit,
        count: u32::from(count),
        months: u32::from(months),
    }
}
