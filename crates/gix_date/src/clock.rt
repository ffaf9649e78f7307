//! What clocks show: the day of the week, the date and the time of day, their texts, and the instants that they are.
ghost use Rattle.std.specs.Prelude.{◌≡◌, ◌≤◌, ◌<◌, ◌%◌, pos, unsigned_abs, FitsSigned};
ghost use Rattle.std.specs.Int.{IsInRange, int_div_euclid, int_rem_euclid, w64};
ghost use Rattle.jiff_core.specs.Calendar.{IsEpochDay, weekday_number};
ghost use Rattle.gix_date.specs.Fields.ClockNumbers.{hours_in, minutes_in, seconds_per_day, seconds_per_minute};
ghost use Rattle.gix_date.specs.Header.Text.{hundred_hours};
ghost use Rattle.gix_date.specs.Printing.LocalClocks.{clock_of, local_seconds, IsShowable};
ghost use Rattle.jiff.specs.Words.{IsOffsetSeconds};
ghost use Rattle.gix_date.specs as Spec;

mod pieces;
mod texts;

use crate::time::{
    FIRST_SECOND, LAST_SECOND, OffsetInSeconds, SECONDS_PER_DAY, SECONDS_PER_HOUR,
    SECONDS_PER_MINUTE, SecondsSinceUnixEpoch, Time,
};
use jiff::civil::DateTime;
use jiff_core::civil::Date;
pub use pieces::{
    push_clock, push_colon_offset, push_date, push_day, push_hours, push_minutes, push_month,
    push_offset, push_spaced_day, push_two_digits, push_weekday, push_year, usual_header_text,
};
pub(crate) use pieces::{letters, push_ascii, push_pair};
use std::marker::Model;
pub use texts::{
    push_bare_default, push_default, push_git_rfc2822, push_gitoxide, push_iso8601,
    push_iso8601_strict, push_rfc2822,
};

/// A year, month and day, whether or not the calendar has it.
#[derive(Clone, Copy)]
pub(crate) struct DateFields {
    pub(crate) year: u16,
    pub(crate) month: u8,
    pub(crate) day: u8,
}

/// An hour, minute and second, whether or not the day has it.
#[derive(Clone, Copy)]
pub(crate) struct ClockFields {
    pub(crate) hour: u8,
    pub(crate) minute: u8,
    pub(crate) second: u8,
}

/// The beginning of a day.
const MIDNIGHT: ClockFields = ClockFields {
    hour: 0,
    minute: 0,
    second: 0,
};

/// The seconds since 1970-01-01 00:00:00 UTC of this clock on this day, at this offset from UTC.
///
/// `None` if the calendar has no such day, the day no such clock, or `jiff` no such instant.
pub(crate) fn civil_instant(
    date: DateFields,
    clock: ClockFields,
    offset: OffsetInSeconds,
) -> Option<SecondsSinceUnixEpoch>
    requires date { Spec.DateFits date }
    requires clock { Spec.ClockFits clock }
    requires offset { IsOffsetSeconds offset }
    ensures { result ≡ Spec.civil_instant date clock offset }
{
    instant_at(date, clock, offset)
}

/// The instant of a day's midnight in UTC: the constant clock leaves less to compute.
#[inline(always)]
pub(crate) fn midnight_instant(date: DateFields) -> Option<SecondsSinceUnixEpoch>
    requires { Spec.DateFits date }
    ensures { result ≡ Spec.civil_instant date Spec.midnight (pos 0) }
{
    instant_at(date, MIDNIGHT, 0)
}

/// The body of both, inlined so that a constant clock folds away, and fields need not be packed for a call.
#[inline(always)]
pub(crate) fn instant_at(
    date: DateFields,
    clock: ClockFields,
    offset: OffsetInSeconds,
) -> Option<SecondsSinceUnixEpoch>
    requires date { Spec.DateFits date }
    requires clock { Spec.ClockFits clock }
    requires offset { IsOffsetSeconds offset }
    ensures { result ≡ Spec.civil_instant date clock offset }
{
    let (year, month, day) = (date.year as i16, date.month as i8, date.day as i8);
    let (hour, minute, second) = (clock.hour as i8, clock.minute as i8, clock.second as i8);
    let Ok(local) = DateTime::new(year, month, day, hour, minute, second, 0) else {
        return None;
    };
    let seconds = local.to_plain().to_second() - i64::from(offset);
    if FIRST_SECOND <= seconds && seconds <= LAST_SECOND {
        Some(seconds)
    } else {
        None
    }
}

/// Whether the calendar has this day.
pub(crate) fn is_date(date: DateFields) -> bool
    requires { Spec.DateFits date }
    ensures { result ≡ Spec.is_date date }
{
    jiff::civil::Date::new(date.year as i16, date.month as i8, date.day as i8).is_ok()
}

/// What the clock of a time shows in a year of four digits, at an offset below 100 hours. Contracts see it as a `LocalTime`.
#[derive(Clone, Copy)]
pub struct Clock {
    weekday: u8,
    date: DateFields,
    clock: ClockFields,
    offset: OffsetInSeconds,
}

impl Model for Clock {
    ghost use Rattle.gix_date.specs.Fields.Layout.{LocalTime};
    ghost use Rattle.gix_date.specs.Printing.LocalClocks.{HasFields};

    ghost Value = { LocalTime };

    ghost view = { λ c. record { weekday = c.weekday; date = c.date; clock = c.clock; offset = c.offset } };

    ghost invariant = { λ c. HasFields (record { weekday = c.weekday; date = c.date; clock = c.clock; offset = c.offset }) };

    ghost inverse = { λ t. record { weekday = t.weekday; date = t.date; clock = t.clock; offset = t.offset } };
}

/// The seconds that a time's own clock has counted since 1970-01-01 00:00:00.
#[inline(always)]
pub fn local_seconds(time: Time) -> SecondsSinceUnixEpoch
    requires { FitsSigned w64 (local_seconds time) }
    ensures { result ≡ local_seconds time }
{
    time.seconds + SecondsSinceUnixEpoch::from(time.offset)
}

/// The day of the week of a day number, from 0 for Monday.
#[inline(always)]
#[tactic(auto, unfolding(jiff_core::specs::Calendar::weekday_number))]
fn weekday_of(day: i64) -> u8
    requires { IsEpochDay day }
    ensures { result ≡ weekday_number day }
{
    (day + 3).rem_euclid(7) as u8
}

/// The day of so many seconds since 1970-01-01 00:00:00, counted from 0, and the second of that day. From 1970 on one
/// division of numbers without a sign gives both.
#[inline(always)]
fn day_and_second(seconds: SecondsSinceUnixEpoch) -> (i64, u32)
    ensures day { result.0 ≡ int_div_euclid seconds (pos seconds_per_day) }
    ensures second { result.1 ≡ unsigned_abs (int_rem_euclid seconds (pos seconds_per_day)) }
    ensures small { result.1 < seconds_per_day }
{
    if seconds >= 0 {
        let seconds = seconds as u64;
        return (
            (seconds / SECONDS_PER_DAY as u64) as i64,
            (seconds % SECONDS_PER_DAY as u64) as u32,
        );
    }
    (
        seconds.div_euclid(SECONDS_PER_DAY),
        seconds.rem_euclid(SECONDS_PER_DAY) as u32,
    )
}

/// The clock that shows so many seconds of a day.
#[inline(always)]
fn clock_at(second: u32) -> ClockFields
    requires { second < 86400 }
    ensures hour { result.hour ≡ hours_in second }
    ensures minute { result.minute ≡ minutes_in second }
    ensures second { result.second ≡ second % seconds_per_minute }
    ensures small { (result.hour < 24) × (result.minute < 60) × (result.second < 60) }
{
    ClockFields {
        hour: (second / SECONDS_PER_HOUR as u32) as u8,
        minute: (second % SECONDS_PER_HOUR as u32 / SECONDS_PER_MINUTE as u32) as u8,
        second: (second % SECONDS_PER_MINUTE as u32) as u8,
    }
}

impl Clock {
    /// What a time's own clock shows, for the years from 1000 to 9999 and an offset below 100 hours. Takes no memory.
    #[inline(always)]
    pub fn of(time: Time) -> Clock
        requires { IsShowable time }
        ensures { result ≡ clock_of time }
    {
        let (day, second) = day_and_second(local_seconds(time));
        let Ok(date) = Date::from_unix_epoch_day(day) else {
            unreachable!();
        };
        Clock {
            weekday: weekday_of(day),
            date: DateFields {
                year: date.year.unsigned_abs(),
                month: date.month,
                day: date.day,
            },
            clock: clock_at(second),
            offset: time.offset,
        }
    }

    /// The same clock with another offset, in seconds east of UTC.
    #[inline(always)]
    pub fn with_offset(self, offset: OffsetInSeconds) -> Clock
        requires { unsigned_abs offset < hundred_hours }
        ensures { result ≡ record self { offset = offset } }
    {
        Clock { offset, ..self }
    }

    /// The day of the week, from 0 for Monday.
    #[inline(always)]
    pub fn weekday(self) -> u8
        ensures value { result ≡ self.weekday }
        ensures small { result < 7 }
    {
        self.weekday
    }

    /// The year, of four digits.
    #[inline(always)]
    pub fn year(self) -> u16
        ensures value { result ≡ self.date.year }
        ensures small { result ≤ 9999 }
    {
        self.date.year
    }

    /// The month, from 1 for January.
    #[inline(always)]
    pub fn month(self) -> u8
        ensures value { result ≡ self.date.month }
        ensures small { IsInRange 1 12 result }
    {
        self.date.month
    }

    /// The day of the month, from 1.
    #[inline(always)]
    pub fn day(self) -> u8
        ensures value { result ≡ self.date.day }
        ensures small { IsInRange 1 31 result }
    {
        self.date.day
    }

    /// The hour of the day, from 0 to 23.
    #[inline(always)]
    pub fn hour(self) -> u8
        ensures value { result ≡ self.clock.hour }
        ensures small { result < 24 }
    {
        self.clock.hour
    }

    /// The minute of the hour, from 0 to 59.
    #[inline(always)]
    pub fn minute(self) -> u8
        ensures value { result ≡ self.clock.minute }
        ensures small { result < 60 }
    {
        self.clock.minute
    }

    /// The second of the minute, from 0 to 59.
    #[inline(always)]
    pub fn second(self) -> u8
        ensures value { result ≡ self.clock.second }
        ensures small { result < 60 }
    {
        self.clock.second
    }

    /// The offset, in seconds east of UTC, below 100 hours either way.
    #[inline(always)]
    pub fn offset(self) -> OffsetInSeconds
        ensures value { result ≡ self.offset }
        ensures small { unsigned_abs result < hundred_hours }
    {
        self.offset
    }
}
