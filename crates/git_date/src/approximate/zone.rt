//! What a zone's clock shows, which instants Git finds by it, and how dates are filled in from there.
ghost use Rattle.std.specs.Prelude.{◌≡◌, ◌^◌, pos, neg_ℤ, IfSome};
ghost use Rattle.jiff_core.specs.Calendar.{IsBetween};
ghost use Rattle.jiff.specs.Words.{plain_zone};
ghost use Rattle.git_date.specs as Spec;

use crate::approximate::drafts::{Draft, Drafted, LastShown};
use crate::error::Fault;
use crate::fields::Fields;
use crate::fields::dates::{first_second, seconds_after};
use crate::zones::{Asked, before_leap, earlier, found_offset, state_at};
use gix_date::Time;
use gix_date::clock::Clock;
use gix_date::time::LAST_OF_YEAR_9999;
use jiff::tz::TimeZone;

/// The instant at which a clock is read.
#[derive(Clone, Copy)]
pub(crate) struct Found {
    pub(crate) instant: i64,
    /// The offset by which it was found, from which the next search begins.
    pub(crate) guess: i32,
}

/// What the zone's clock shows at an instant, with its offset and its flag there. `None` before 1900.
#[tactic(auto, unfolding(crate::specs::shown_in))]
pub(crate) fn shown_in(zone: &TimeZone<'_>, instant: i64) -> Option<ZoneClock>
    ensures { result ≡ Spec.shown_in (Spec.states_of (plain_zone zone.now)) instant }
{
    let there = state_at(zone, instant)?;
    let shown = shown_at(instant + i64::from(there.offset))?;
    Some(ZoneClock {
        clock: shown.with_offset(there.offset),
        daylight: there.daylight,
    })
}

/// The instant at which the zone's clock has counted so many seconds since 1970-01-01 00:00:00, by the flag of the last
/// one and from where the last search ended.
#[tactic(auto, unfolding(crate::specs::found_at))]
fn found_at(zone: &TimeZone<'_>, last: LastShown, leap: bool, local: i64) -> Option<Found>
    requires { IsBetween (neg_ℤ (pos (10 ^ 16))) (pos (10 ^ 16)) local }
    ensures value { result ≡ Spec.found_at (Spec.states_of (plain_zone zone.now)) last leap local }
    ensures small { IfSome result (λ found. IsBetween (neg_ℤ (pos (10 ^ 15))) (pos (10 ^ 15)) found.instant) }
{
    let asked = Asked {
        clock: before_leap(leap, local),
        daylight: Some(last.daylight),
    };
    let guess = found_offset(*zone, asked, last.guess)?;
    Some(Found {
        instant: local - i64::from(guess),
        guess,
    })
}

/// The instant at which the zone's clock shows these fields.
#[tactic(auto, unfolding(crate::specs::filled_instant))]
fn filled(zone: &TimeZone<'_>, today: Clock, last: LastShown, fields: Fields) -> Option<Found>
    ensures value { result ≡ Spec.filled_instant (Spec.states_of (plain_zone zone.now)) today last fields }
    ensures small { IfSome result (λ found. IsBetween (neg_ℤ (pos (10 ^ 15))) (pos (10 ^ 15)) found.instant) }
{
    let local = filled_seconds(today, fields)?;
    found_at(zone, last, fields.is_leap(), local)
}

/// The time at which the zone's clock shows these fields, or that is found in its place.
#[tactic(auto, unfolding(crate::specs::filled_time))]
pub(crate) fn filled_time(
    zone: &TimeZone<'_>,
    today: Clock,
    last: LastShown,
    fields: Fields,
) -> Option<Time>
    ensures { result ≡ Spec.filled_time (Spec.states_of (plain_zone zone.now)) today last fields }
{
    let found = filled(zone, today, last, fields)?;
    let there = state_at(zone, found.instant)?;
    Some(Time::new(found.instant, there.offset))
}

/// With the zone's clock at an instant.
#[tactic(auto, unfolding(crate::specs::moved_to))]
pub(crate) fn moved_to(zone: &TimeZone<'_>, draft: Draft, left: usize, found: Found) -> Drafted
    ensures { result ≡ Spec.moved_to (Spec.states_of (plain_zone zone.now)) draft left found }
{
    let shown = shown_in(zone, found.instant).ok_or(Fault::BackTooFar(left))?;
    Ok(draft.with_shown(found.guess, shown))
}

/// With the zone's clock so many seconds before it shows the fields, where the date is today's as far as it is not said.
#[tactic(auto, using(gix_date::proofs::Text::Ints::held, crate::proofs::Guesses::ZoneClocks::filled_by), unfolding(crate::specs::fill))]
pub(crate) fn fill(
    zone: &TimeZone<'_>,
    today: Clock,
    draft: Draft,
    back: u32,
    left: usize,
) -> Drafted
    ensures { result ≡ Spec.fill (Spec.states_of (plain_zone zone.now)) today draft back left }
{
    match filled(zone, today, draft.last, draft.fields) {
        Some(found) => {
            let instant = earlier(found.instant, i64::from(back));
            moved_to(zone, draft, left, Found { instant, ..found })
        }
        None => Err(Fault::Range),
    }
}

/// What a zone's clock shows at an instant.
#[derive(Clone, Copy)]
pub(crate) struct ZoneClock {
    /// With its offset there.
    pub(crate) clock: Clock,
    /// Whether that is daylight saving time.
    pub(crate) daylight: bool,
}

/// The first second of the year 1900 by a clock.
const FIRST_OF_YEAR_1900: i64 = -2_208_988_800;

/// Whether a clock shows a year from 1900 to 9999 when it has counted so many seconds.
fn is_shown(seconds: i64) -> bool
    ensures { result ≡ Spec.is_shown seconds }
{
    FIRST_OF_YEAR_1900 <= seconds && seconds <= LAST_OF_YEAR_9999
}

/// What a clock shows that has counted so many seconds since 1970-01-01 00:00:00. `None` before 1900 and after 9999.
#[tactic(auto, using(gix_date::proofs::Text::Ints::held, crate::proofs::Guesses::Clocks::none_shown, crate::proofs::Rules::HeldClocks::utc_showable, crate::proofs::Guesses::Clocks::shown_within, crate::proofs::Guesses::Clocks::a_shown))]
pub(crate) fn shown_at(seconds: i64) -> Option<Clock>
    ensures { result ≡ Spec.clock_shown_at seconds }
{
    if !is_shown(seconds) {
        return None;
    }
    Some(Clock::of(Time::new(seconds, 0)))
}

/// The year of a month where none is said: a month later than today's is one of last year.
fn year_of_month(today: Clock, month: u8) -> u16
    ensures { result ≡ Spec.year_of_month today month }
{
    if today.month() < month {
        today.year().saturating_sub(1)
    } else {
        today.year()
    }
}

/// The seconds that a clock has counted when it shows these fields, where the date is today's as far as it is not said.
#[tactic(auto, unfolding(crate::specs::filled_seconds))]
pub(crate) fn filled_seconds(today: Clock, fields: Fields) -> Option<i64>
    ensures value { result ≡ Spec.filled_seconds today fields }
    ensures small { IfSome result (λ s. IsBetween (neg_ℤ (pos (10 ^ 16))) (pos (10 ^ 16)) s) }
{
    let hour = fields.hour?;
    let minute = fields.minute?;
    let second = fields.second?;
    let month = fields.month.unwrap_or(today.month());
    let year = fields.year.unwrap_or(year_of_month(today, month));
    let day = fields.day.unwrap_or(today.day());
    let start = first_second(year, month)?;
    Some(seconds_after(start, Some(day), hour, minute, second))
}
