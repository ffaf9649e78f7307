//! Dates: their years, the seconds that fields come to, and dates of three numbers or of two.
ghost use Rattle.std.specs.Prelude.{◌≡◌, ◌<◌, ◌^◌, ◌*ℤ◌, pos, negsuc, neg_ℤ, IfSome};
ghost use Rattle.jiff_core.specs.Calendar.{IsBetween};
ghost use Rattle.git_date.specs as Spec;

use crate::clocks::utc_year;
use crate::fields::Fields;
use crate::tokens::numbers::NUMBERS_OF_32_BITS;
use gix_date::time::{SECONDS_PER_DAY, SECONDS_PER_HOUR, SECONDS_PER_MINUTE};
use jiff::Timestamp;
use jiff_core::civil::Date;

/// What the rules use of an instant.
#[derive(Clone, Copy)]
pub(crate) struct Now {
    /// Seconds since 1970-01-01 00:00:00 UTC.
    pub(crate) seconds: i64,
}

impl Now {
    pub(crate) fn of(instant: Timestamp) -> Now
        ensures { result ≡ Spec.now_at instant.nanosecond }
    {
        Now {
            seconds: instant.as_second(),
        }
    }
}

/// What a date comes to.
#[derive(Clone, Copy)]
pub(crate) enum Dated {
    /// It is taken.
    Taken(Fields),
    /// It is no date.
    Refused,
    /// Its month and day are taken, and its year is refused.
    YearRefused,
}

/// The year that a number says in a date.
#[tactic(auto, unfolding(crate::specs::year_said))]
fn year_said(n: u64) -> Option<u16>
    ensures { result ≡ Spec.year_said n }
{
    if 1970 <= n && n <= 2099 {
        Some(n as u16)
    } else if 71 <= n && n <= 99 {
        Some(1900 + n as u16)
    } else if n < 38 {
        Some(2000 + n as u16)
    } else if 2_147_483_648 <= n {
        Some(2000u64.saturating_sub(NUMBERS_OF_32_BITS.saturating_sub(n)) as u16)
    } else {
        None
    }
}

/// Whether some month of the calendar has this day.
fn is_day_of_month(month: u64, day: u64) -> bool
    ensures { result ≡ Spec.is_day_of_month month day }
{
    1 <= month && month <= 12 && 1 <= day && day <= 31
}

/// Whether this is a month of the years that Git knows.
fn is_month(year: u16, month: u8) -> bool
    ensures { result ≡ Spec.is_month year month }
{
    1970 <= year && year <= 2099 && 1 <= month && month <= 12
}

/// Whether this is a month of the years from 1900 to 9999.
fn is_shown_month(year: u16, month: u8) -> bool
    ensures { result ≡ Spec.is_shown_month year month }
{
    1900 <= year && year <= 9999 && 1 <= month && month <= 12
}

/// The first second of such a month by a clock.
#[tactic(auto, using(gix_date::proofs::Text::Ints::held, jiff_core::proofs::SignedLemmas::signed_arith, gix_date::proofs::Fields::Instants::instant_holds), unfolding(crate::specs::first_second))]
pub(crate) fn first_second(year: u16, month: u8) -> Option<i64>
    ensures value { result ≡ Spec.first_second year month }
    ensures small { IfSome result Spec.IsSmall }
{
    if !is_shown_month(year, month) {
        return None;
    }
    let Ok(first) = Date::new(year as i16, month as i8, 1) else {
        return None;
    };
    Some(SECONDS_PER_DAY * i64::from(first.to_unix_epoch_day()))
}

/// The first second of a month of the years that Git knows.
#[tactic(auto, using(crate::proofs::Rules::Months::a_month, crate::proofs::Rules::Months::no_month))]
fn month_start(year: u16, month: u8) -> Option<i64>
    ensures value { result ≡ Spec.month_start year month }
    ensures small { IfSome result Spec.IsSmall }
{
    if is_month(year, month) {
        first_second(year, month)
    } else {
        None
    }
}

/// The seconds since the first of a month. An unknown day is two days before it.
fn day_seconds(day: Option<u8>) -> i64
    ensures value { result ≡ pos 86_400 *ℤ Spec.days_after_first day }
    ensures small { IsBetween (negsuc 172_799) (pos 22_032_000) result }
{
    match day {
        Some(day) => SECONDS_PER_DAY * (i64::from(day) - 1),
        None => -2 * SECONDS_PER_DAY,
    }
}

fn clock_seconds(hour: u8, minute: u8, second: u8) -> u32
    ensures value { result ≡ Spec.seconds_of_day hour minute second }
    ensures small { result < 1_000_000 }
{
    SECONDS_PER_HOUR as u32 * u32::from(hour)
        + SECONDS_PER_MINUTE as u32 * u32::from(minute)
        + u32::from(second)
}

pub(crate) fn seconds_after(start: i64, day: Option<u8>, hour: u8, minute: u8, second: u8) -> i64
    requires { Spec.IsSmall start }
    ensures value { result ≡ Spec.seconds_after start day hour minute second }
    ensures small { IsBetween (neg_ℤ (pos (10 ^ 16))) (pos (10 ^ 16)) result }
{
    start + (day_seconds(day) + i64::from(clock_seconds(hour, minute, second)))
}

/// The seconds that a clock has counted when it shows these fields, where all but the day are known.
#[tactic(auto, unfolding(crate::specs::exact_seconds))]
#[inline(always)]
pub(crate) fn exact_seconds(fields: Fields) -> Option<i64>
    ensures value { result ≡ Spec.exact_seconds fields }
    ensures small { IfSome result (λ s. IsBetween (neg_ℤ (pos (10 ^ 16))) (pos (10 ^ 16)) s) }
{
    let year = fields.year?;
    let month = fields.month?;
    let hour = fields.hour?;
    let minute = fields.minute?;
    let second = fields.second?;
    let start = month_start(year, month)?;
    Some(seconds_after(start, fields.day, hour, minute, second))
}

/// A month, a day and perhaps a year, if that is at most ten days after now, with the clock that was read before it.
#[tactic(auto, unfolding(crate::specs::recent_date))]
#[inline(always)]
pub(crate) fn recent_date(
    now: Now,
    fields: Fields,
    month: u64,
    day: u64,
    third: Option<u64>,
) -> Option<Fields>
    ensures { result ≡ Spec.recent_date now fields month day third }
{
    if !is_day_of_month(month, day) {
        return None;
    }
    let year = match third {
        Some(third) => year_said(third)?,
        None => utc_year(now.seconds),
    };
    let dated = Fields {
        year: Some(year),
        month: Some(month as u8),
        day: Some(day as u8),
        ..fields
    };
    if exact_seconds(dated).is_some_and(|seconds| now.seconds < seconds - 10 * SECONDS_PER_DAY) {
        return None;
    }
    match third {
        Some(_) => Some(dated),
        None => Some(Fields {
            year: fields.year,
            ..dated
        }),
    }
}

/// A year, a month and a day, which may be ahead.
#[tactic(auto, unfolding(crate::specs::year_date))]
pub(crate) fn year_date(fields: Fields, year: u64, month: u64, day: u64) -> Dated
    ensures { result ≡ Spec.year_date fields year month day }
{
    if !is_day_of_month(month, day) {
        return Dated::Refused;
    }
    match year_said(year) {
        Some(year) => Dated::Taken(Fields {
            year: Some(year),
            month: Some(month as u8),
            day: Some(day as u8),
            ..fields
        }),
        None => Dated::YearRefused,
    }
}
