//! When the clock of a POSIX rule changes.
ghost use Rattle.std.specs.Prelude.{◌≡◌, ◌≤◌, ◌+◌, ◌-◌, ◌%◌, ◌*ℤ◌, ◌+ℤ◌, ◌-ℤ◌, ℤ, pos, IfSome};
ghost use Rattle.std.specs.Int.{IsInRange, int_div_euclid};
ghost use Rattle.std.specs.Int.Signed.{le_z};
ghost use Rattle.jiff_core.specs.Calendar.{IsYear, IsEpochDay, IsBetween, IsWithin};
ghost use Rattle.jiff_core.specs.Date.{epoch_day};
ghost use Rattle.jiff_tz.specs.PosixRule as Rule;
ghost use Rattle.gix_date.specs as GixDate;

use gix_date::time::SECONDS_PER_DAY;
use jiff_core::Offset;
use jiff_core::civil::Date;
use jiff_tz::posix::{Day, DayTime};

/// The weekday of 1970-01-01, from 0 for Sunday: Thursday.
const FIRST_WEEKDAY: i32 = 4;

/// When a rule's clock changes: on a weekday in a week of a month, so many seconds from its midnight by the clock of UTC. In January
/// and December that may be in another year.
#[derive(Clone, Copy)]
pub(crate) struct Change {
    pub(crate) month: u8,
    pub(crate) week: u8,
    pub(crate) weekday: u8,
    pub(crate) second: i32,
    pub(crate) ghost month_in: { IsInRange 2 11 month },
    pub(crate) ghost week_in: { IsInRange 1 5 week },
    pub(crate) ghost weekday_in: { weekday ≤ 6 },
    pub(crate) ghost second_in: { IsWithin 698_398 second },
}

impl Change {
    ghost use Rattle.git_date.specs as Spec;

    /// A change by a clock of this offset. `None` says nothing.
    pub(crate) fn of(at: DayTime, clock: Offset) -> Option<Change>
        ensures { IfSome result (Spec.IsChange at clock) }
    {
        let Day::WeekdayOfMonth {
            month,
            week,
            weekday,
        } = at.date
        else {
            return None;
        };
        if month < 2 || 11 < month {
            return None;
        }
        Some(Change {
            month,
            week,
            weekday,
            second: by_utc(at.time, clock.seconds),
        })
    }

    /// How many months from its own it may lie, by the clock of UTC.
    fn slack(self) -> u8
        ensures own { result ≡ 0 → IsBetween (pos 0) (pos 86_399) self.second }
        ensures few { result ≤ 1 }
    {
        if 0 <= self.second && self.second < SECONDS_PER_DAY as i32 {
            0
        } else {
            1
        }
    }

    /// Whether a change has come by a second of this day of its year: as the months say, where they are far apart or the change stays
    /// within its day.
    #[tactic(auto, using(gix_date::proofs::Text::Ints::held))]
    #[inline(always)]
    pub(crate) fn has_come(self, today: Date, seconds: i64) -> bool
        requires { epoch_day today ≡ int_div_euclid seconds (pos GixDate.seconds_per_day) }
        ensures { result ≡ le_z (Spec.change_second today.year self) seconds }
    {
        let slack = self.slack();
        if self.month + slack < today.month {
            return true;
        }
        if today.month + slack < self.month {
            return false;
        }
        self.second_in(today.year) <= seconds
    }

    /// The second in which a change comes in a year.
    #[inline(never)]
    #[tactic(auto, using(gix_date::proofs::Text::Ints::held))]
    fn second_in(self, year: i16) -> i64
        requires { IsYear year }
        ensures { result ≡ Spec.change_second year self }
    {
        let day = weekday_of_month(year, self.month, self.week, self.weekday);
        second_on(day, self.second)
    }

    /// Whether a change comes before another in each year. `None` says nothing, as their months are near.
    #[tactic(auto, using(crate::proofs::Exact::RuleYears::first_told, crate::proofs::Exact::RuleYears::last_told))]
    pub(crate) fn comes_before(self, other: Change) -> Option<bool>
        ensures { IfSome result (λ first. (y : ℤ) → first ≡ le_z (Spec.change_second y self) (Spec.change_second y other)) }
    {
        if self.month + 1 < other.month {
            return Some(true);
        }
        if other.month + 1 < self.month {
            return Some(false);
        }
        None
    }
}

/// The seconds by the clock of UTC, from the midnight of the clock that shows a time at an offset.
fn by_utc(time: i32, offset: i32) -> i32
    requires time { IsWithin 604_799 time }
    requires offset { IsWithin 93_599 offset }
    ensures value { result ≡ time -ℤ offset }
    ensures bound { IsWithin 698_398 result }
{
    time - offset
}

/// So many seconds from the midnight that begins a day.
fn second_on(day: i32, second: i32) -> i64
    requires { IsWithin 698_398 second }
    ensures { result ≡ day *ℤ pos GixDate.seconds_per_day +ℤ second }
{
    SECONDS_PER_DAY * i64::from(day) + i64::from(second)
}

/// The day number of a weekday, from 0 for Sunday, in a week of the month, where week 5 is the last.
fn weekday_of_month(year: i16, month: u8, week: u8, weekday: u8) -> i32
    requires year { IsYear year }
    requires month { IsInRange 1 12 month }
    requires week { IsInRange 1 5 week }
    requires weekday { weekday ≤ 6 }
    ensures { result ≡ Rule.weekday_of_month year month week weekday }
{
    if week == 5 {
        let last = Date::constrain(year, month, 31).to_unix_epoch_day();
        return last - days_since(last, weekday);
    }
    let first = Date::constrain(year, month, 1).to_unix_epoch_day();
    first + days_until(first, weekday) + 7 * (week as i32 - 1)
}

/// How many days before this one the weekday was last.
#[tactic(auto, using(gix_date::proofs::Text::Ints::held, crate::proofs::Exact::RuleYears::back_is))]
fn days_since(day: i32, weekday: u8) -> i32
    requires day { IsEpochDay day }
    requires weekday { weekday ≤ 6 }
    ensures value { result ≡ pos ((Rule.sunday_number day + 7 - weekday) % 7) }
    ensures bound { IsWithin 6 result }
{
    (day + FIRST_WEEKDAY - weekday as i32).rem_euclid(7)
}

/// How many days after this one the weekday is next.
#[tactic(auto, using(gix_date::proofs::Text::Ints::held, crate::proofs::Exact::RuleYears::ahead_is))]
fn days_until(day: i32, weekday: u8) -> i32
    requires day { IsEpochDay day }
    requires weekday { weekday ≤ 6 }
    ensures value { result ≡ pos ((weekday + 7 - Rule.sunday_number day) % 7) }
    ensures bound { IsWithin 6 result }
{
    (weekday as i32 - day - FIRST_WEEKDAY).rem_euclid(7)
}
