//! Steps that take a moment back in its zone.
ghost use Rattle.std.specs.Prelude.{◌≡◌, ◌↔◌, ◌+ℤ◌, ◌-ℤ◌, pos, IfSome, IsSome};
ghost use Rattle.std.specs.Int.{int_div_euclid, int_rem_euclid};
ghost use Rattle.jiff.specs.Words.{plain_zone, zoned_nanos, nanos_of_seconds, KeepsZone, IsTimestampNanos, IsYear, IsYmd, IsEpochDay};
ghost use Rattle.jiff.specs.Words.{IsBetween, epoch_day, month_number};
ghost use Rattle.gix_date.specs as Spec;

use crate::parsing::relative::pairs::Pair;
use crate::parsing::relative::words::{MONTHS_PER_YEAR, TimeUnit};
use crate::time::SECONDS_PER_DAY;
use jiff::civil::{Date, Time as TimeOfDay};
use jiff::tz::TimeZone;
use jiff::{SignedDuration, Zoned};

/// The moment to which its zone resolves its local time: an earlier one where the clock shows that time again.
pub(crate) fn resolve<'a>(moment: Zoned<'a>) -> Option<Zoned<'a>>
    ensures step { Spec.IsAt (Spec.Resolves (Spec.zone_of moment.entry) (zoned_nanos moment.entry)) result }
    ensures zone { IfSome result (KeepsZone moment.entry) }
{
    let zone = moment.time_zone();
    let Ok(instant) = zone.to_timestamp(moment.datetime()) else {
        return None;
    };
    // Mostly it is the moment itself: a new zoned value would look its offset up again.
    if instant == moment.timestamp() {
        return Some(moment);
    }
    Some(instant.to_zoned(zone))
}

/// Subtracts a pair from a moment.
pub(crate) fn subtract<'a>(moment: Zoned<'a>, pair: Pair) -> Option<Zoned<'a>>
    ensures step { Spec.IsAt (Spec.PairStep (Spec.zone_of moment.entry) (Spec.pair_of pair) (zoned_nanos moment.entry)) result }
    ensures zone { IfSome result (KeepsZone moment.entry) }
{
    match pair.unit {
        TimeUnit::Seconds(size) => subtract_seconds(moment, pair.count.checked_mul(size)?),
        TimeUnit::Months(size) => subtract_months(moment, pair.count.checked_mul(size)?),
    }
}

/// Subtracts seconds from a moment.
#[tactic(auto, using(crate::proofs::Text::Ints::held, crate::proofs::Relative::Steps::at_same))]
fn subtract_seconds<'a>(moment: Zoned<'a>, seconds: i64) -> Option<Zoned<'a>>
    ensures step { Spec.IsAt (Spec.SecondsStep (Spec.zone_of moment.entry) seconds (zoned_nanos moment.entry)) result }
    ensures zone { IfSome result (KeepsZone moment.entry) }
{
    resolve(earlier(moment, seconds)?)
}

/// The instant so many seconds before a moment, in its zone.
pub(crate) fn earlier<'a>(moment: Zoned<'a>, seconds: i64) -> Option<Zoned<'a>>
    ensures some { IsSome result ↔ IsTimestampNanos (zoned_nanos moment.entry -ℤ nanos_of_seconds seconds) }
    ensures instant { IfSome result (λ r. zoned_nanos r ≡ zoned_nanos moment.entry -ℤ nanos_of_seconds seconds) }
    ensures zone { IfSome result (KeepsZone moment.entry) }
{
    match moment
        .timestamp()
        .checked_sub(SignedDuration::from_secs(seconds))
    {
        Ok(instant) => Some(instant.to_zoned(moment.time_zone())),
        Err(_) => None,
    }
}

/// Subtracts months from a moment. The time of day stays.
fn subtract_months<'a>(moment: Zoned<'a>, months: i64) -> Option<Zoned<'a>>
    ensures step { Spec.IsAt (Spec.MonthsStep (Spec.zone_of moment.entry) months (zoned_nanos moment.entry)) result }
    ensures zone { IfSome result (KeepsZone moment.entry) }
{
    let date = months_before(moment.date(), months)?;
    to_instant(date, moment.time(), moment.time_zone())
}

/// The date so many months before a date. The day stays, so a day past the end of its month falls into the next.
pub(crate) fn months_before(date: Date, months: i64) -> Option<Date>
    ensures { Spec.IsMonthsBeforeIfAny date months result }
{
    let number = month_number(date).checked_sub(months)?;
    let first = first_day_of(number)?;
    day_from(first, date.day())
}

/// The months from January of the year 0 to a date's.
fn month_number(date: Date) -> i64
    ensures { result ≡ month_number date }
{
    date.year() as i64 * MONTHS_PER_YEAR + date.month() as i64 - 1
}

/// The first day of a month.
fn first_day_of(month_number: i64) -> Option<Date>
    ensures some { IsSome result ↔ IsYear (int_div_euclid month_number (pos 12)) }
    ensures value { IfSome result (IsYmd (int_div_euclid month_number (pos 12))
        (int_rem_euclid month_number (pos 12) +ℤ pos 1) (pos 1)) }
{
    let Ok(year) = i16::try_from(month_number.div_euclid(MONTHS_PER_YEAR)) else {
        return None;
    };
    let month = (month_number.rem_euclid(MONTHS_PER_YEAR) + 1) as i8;
    match Date::new(year, month, 1) {
        Ok(first) => Some(first),
        Err(_) => None,
    }
}

/// The date so many days after the first of a month, which may fall into the next month.
fn day_from(first: Date, day: i8) -> Option<Date>
    requires { IsBetween (pos 1) (pos 31) day }
    ensures some { IsSome result ↔ IsEpochDay (epoch_day first +ℤ (day -ℤ pos 1)) }
    ensures value { IfSome result (λ d. epoch_day d ≡ epoch_day first +ℤ (day -ℤ pos 1)) }
{
    let beyond = SignedDuration::from_secs((day as i64 - 1) * SECONDS_PER_DAY);
    match first.checked_add(beyond) {
        Ok(date) => Some(date),
        Err(_) => None,
    }
}

/// The instant to which a zone resolves a date and a time of day. In a fold it is the earlier, and in a gap it is moved
/// later, as in `jiff`.
#[inline(always)]
pub(crate) fn to_instant<'a>(date: Date, time: TimeOfDay, zone: TimeZone<'a>) -> Option<Zoned<'a>>
    ensures instant { Spec.IsAt (Spec.IsPicked (plain_zone zone.entry) (Spec.civil_of (epoch_day date) time)) result }
    ensures zone { IfSome result (λ r. Spec.zone_of r ≡ plain_zone zone.entry) }
{
    match date.to_datetime(time).to_zoned(zone) {
        Ok(moment) => Some(moment),
        Err(_) => None,
    }
}
