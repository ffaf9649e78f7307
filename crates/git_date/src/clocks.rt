//! The clock of UTC.
ghost use Rattle.std.specs.Prelude.{◌≡◌, ◌<◌, unsigned_abs};
ghost use Rattle.git_date.specs as Spec;
ghost use Rattle.gix_date.specs as GixDate;
ghost use Rattle.jiff.specs.Words.{plain_zone};

use crate::zones::offset_in;
use gix_date::Time;
use gix_date::clock::{Clock, local_seconds};
use gix_date::time::{
    FIRST_SECOND, HUNDRED_HOURS, LAST_OF_YEAR_9999, LAST_SECOND, SECONDS_PER_MINUTE,
};
use jiff::Timestamp;
use jiff::tz::TimeZone;

/// Whether the seconds are those of an instant.
pub(crate) fn is_instant(seconds: i64) -> bool
    ensures { result ≡ GixDate.is_instant seconds }
{
    FIRST_SECOND <= seconds && seconds <= LAST_SECOND
}

/// What the clock of UTC shows so many seconds after 1970. `None` if that is no instant of `jiff`.
#[tactic(auto, using(crate::proofs::Rules::HeldClocks::no_clock, std::proofs::lemmas::Int::to_z_pos, crate::proofs::Rules::HeldClocks::utc_showable, jiff_core::proofs::SignedLemmas::signed_arith, crate::proofs::Rules::HeldClocks::a_clock))]
pub(crate) fn utc_clock(seconds: u64) -> Option<Clock>
    ensures { result ≡ Spec.utc_clock seconds }
{
    if seconds > LAST_SECOND as u64 {
        return None;
    }
    Some(Clock::of(Time::new(seconds as i64, 0)))
}

/// The year of some seconds by the clock of UTC, or 0 before 1970.
pub(crate) fn utc_year(seconds: i64) -> u16
    ensures { result ≡ Spec.utc_year seconds }
{
    let Ok(seconds) = u64::try_from(seconds) else {
        return 0;
    };
    utc_clock(seconds).map_or(0, |shown| shown.year())
}

/// Whether an offset is shown: whole minutes, as Git's are, and below 100 hours.
pub(crate) fn is_written_offset(offset: i32) -> bool
    ensures { result ≡ Spec.is_written_offset offset }
{
    let distance = offset.unsigned_abs();
    distance < HUNDRED_HOURS && distance % SECONDS_PER_MINUTE as u32 == 0
}

/// Whether seconds are from 1970 on and of a year of four digits.
fn is_dated(seconds: i64) -> bool
    ensures { result ≡ Spec.is_dated seconds }
{
    0 <= seconds && seconds <= LAST_OF_YEAR_9999
}

#[tactic(auto, using(gix_date::proofs::Text::Ints::held, crate::proofs::Printing::ShownClocks::and_last))]
fn has_own_clock(time: Time) -> bool
    ensures { result ≡ Spec.has_own_clock time }
{
    is_written_offset(time.offset) && is_dated(time.seconds) && is_dated(local_seconds(time))
}

/// Whether seconds are from 1970 on and those of an instant.
fn has_zone_clock(seconds: i64) -> bool
    ensures { result ≡ Spec.has_zone_clock seconds }
{
    0 <= seconds && seconds <= LAST_SECOND
}

/// What the time's own clock shows. `None` if the time or what the clock shows is before 1970 or after the year 9999, and
/// for an offset with seconds or of 100 hours or more.
#[tactic(auto, using(crate::proofs::Printing::ShownClocks::an_own_clock, crate::proofs::Printing::ShownClocks::no_own_clock))]
pub(crate) fn own_clock(time: Time) -> Option<Clock>
    ensures { result ≡ Spec.own_clock time }
{
    if !has_own_clock(time) {
        return None;
    }
    Some(Clock::of(time))
}

/// The offset that Git says of a zone's clock: whole minutes, in the years that Git knows, and else 0.
fn known_offset(shown: Clock) -> i32
    ensures value { result ≡ Spec.known_offset shown }
    ensures short { unsigned_abs result < GixDate.hundred_hours }
{
    if 1970 <= shown.year() && shown.year() <= 2099 {
        SECONDS_PER_MINUTE * (shown.offset() / SECONDS_PER_MINUTE)
    } else {
        0
    }
}

/// What the clock of a zone shows at an instant, which may be before 1970 there. `None` for an instant before 1970
/// UTC, and after 9999-12-30 22:00:00 UTC, the last second of `jiff`.
#[tactic(auto, using(gix_date::proofs::Text::Ints::held, crate::proofs::Printing::ShownClocks::no_zone_clock, crate::proofs::Printing::ShownClocks::zone_dated, crate::proofs::Printing::ShownClocks::near_zone, crate::proofs::Printing::ShownClocks::timed_at, crate::proofs::Printing::ShownClocks::a_zone_clock, crate::proofs::Printing::ShownClocks::known))]
pub(crate) fn zone_clock(seconds: i64, zone: TimeZone<'_>) -> Option<Clock>
    ensures { result ≡ Spec.zone_clock (plain_zone zone.entry) seconds }
{
    if !has_zone_clock(seconds) {
        return None;
    }
    let Ok(instant) = Timestamp::from_second(seconds) else {
        unreachable!()
    };
    let offset = offset_in(&zone, seconds, instant);
    let shown = Clock::of(Time::new(seconds, offset));
    Some(shown.with_offset(known_offset(shown)))
}
