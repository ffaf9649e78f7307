//! The numbers that a clock shows.
ghost use Rattle.std.specs.Prelude.{◌≡◌, ◌≤◌, ◌<◌};
ghost use Rattle.std.specs.Int.{IsInRange};
ghost use Rattle.git_date.specs as Spec;

use gix_date::clock::Clock;
use jiff_core::civil::{Date, is_leap_year};

/// A number that a clock shows.
#[derive(Clone, Copy)]
pub(crate) enum Number {
    Century,
    YearOfCentury,
    Year,
    Month,
    Day,
    /// The day, after a space in place of a zero.
    SpacedDay,
    DayOfYear,
    Hour,
    SpacedHour,
    /// The hour from 1 to 12.
    HourOfHalf,
    SpacedHourOfHalf,
    Minute,
    Second,
    /// The day of the week from 1 for Monday.
    DayFromMonday,
    /// The day of the week from 0 for Sunday.
    DayFromSunday,
    /// The week of the year, where weeks begin with Sunday.
    WeekFromSunday,
    WeekFromMonday,
    IsoWeek,
    IsoYear,
    IsoYearOfCentury,
}

/// The number of a letter.
pub(crate) fn number_lettered(letter: u8) -> Option<Number>
    ensures { result ≡ Spec.number_lettered letter }
{
    match letter {
        b'C' => Some(Number::Century),
        b'y' => Some(Number::YearOfCentury),
        b'Y' => Some(Number::Year),
        b'm' => Some(Number::Month),
        b'd' => Some(Number::Day),
        b'e' => Some(Number::SpacedDay),
        b'j' => Some(Number::DayOfYear),
        b'H' => Some(Number::Hour),
        b'k' => Some(Number::SpacedHour),
        b'I' => Some(Number::HourOfHalf),
        b'l' => Some(Number::SpacedHourOfHalf),
        b'M' => Some(Number::Minute),
        b'S' => Some(Number::Second),
        b'u' => Some(Number::DayFromMonday),
        b'w' => Some(Number::DayFromSunday),
        b'U' => Some(Number::WeekFromSunday),
        b'W' => Some(Number::WeekFromMonday),
        b'V' => Some(Number::IsoWeek),
        b'G' => Some(Number::IsoYear),
        b'g' => Some(Number::IsoYearOfCentury),
        _ => None,
    }
}

/// The day of a year in which an ISO week lies, as that of its Thursday.
#[derive(Clone, Copy)]
pub(crate) struct IsoDay {
    year: u16,
    day: u16,
}

fn year_days(year: u16) -> u16
    requires { year ≤ 9999 }
    ensures value { result ≡ Spec.year_days year }
    ensures small { IsInRange 365 366 result }
{
    if is_leap_year(year as i16) { 366 } else { 365 }
}

/// The day of the year, from 1.
#[tactic(auto, using(std::proofs::lemmas::Int::ints, gix_date::proofs::Text::Ints::held, jiff_core::proofs::SignedLemmas::signed_arith), unfolding(crate::specs::year_day))]
fn year_day(t: Clock) -> u16
    ensures value { result ≡ Spec.year_day t }
    ensures small { IsInRange 1 403 result }
{
    let Ok(first) = Date::new(t.year() as i16, t.month() as i8, 1) else {
        unreachable!();
    };
    first.day_of_year() + u16::from(t.day()) - 1
}

/// The day of the week from 1 for Monday.
fn monday_day(t: Clock) -> u16
    ensures value { result ≡ Spec.monday_day t }
    ensures small { IsInRange 1 7 result }
{
    u16::from(t.weekday()) + 1
}

/// The day of the week from 0 for Sunday.
fn sunday_day(t: Clock) -> u16
    ensures value { result ≡ Spec.sunday_day t }
    ensures small { result < 7 }
{
    monday_day(t) % 7
}

/// The year in which a clock's ISO week lies, and the day of it that its Thursday is.
#[tactic(auto, unfolding(crate::specs::iso_day))]
fn iso_day(t: Clock) -> IsoDay
    ensures value { result ≡ Spec.iso_day t }
    ensures small { result.year ≤ 10000 }
    ensures day { result.day ≤ 800 }
{
    let (year, thursday, monday) = (t.year(), year_day(t) + 4, monday_day(t));
    let length = year_days(year);
    if thursday <= monday {
        let year = year.saturating_sub(1);
        let day = thursday + year_days(year) - monday;
        return IsoDay { year, day };
    }
    let day = thursday - monday;
    if length < day {
        return IsoDay {
            year: year + 1,
            day: day - length,
        };
    }
    IsoDay { year, day }
}

impl Number {
    /// What a clock shows of it.
    pub(crate) fn value(self, t: Clock) -> u16
        ensures { result ≡ Spec.number_value self t }
    {
        match self {
            Number::Century => t.year() / 100,
            Number::YearOfCentury => t.year() % 100,
            Number::Year => t.year(),
            Number::Month => u16::from(t.month()),
            Number::Day | Number::SpacedDay => u16::from(t.day()),
            Number::DayOfYear => year_day(t),
            Number::Hour | Number::SpacedHour => u16::from(t.hour()),
            Number::HourOfHalf | Number::SpacedHourOfHalf => (u16::from(t.hour()) + 11) % 12 + 1,
            Number::Minute => u16::from(t.minute()),
            Number::Second => u16::from(t.second()),
            Number::DayFromMonday => monday_day(t),
            Number::DayFromSunday => sunday_day(t),
            Number::WeekFromSunday => (year_day(t) + 6 - sunday_day(t)) / 7,
            Number::WeekFromMonday => (year_day(t) + 7 - monday_day(t)) / 7,
            Number::IsoWeek => (iso_day(t).day + 6) / 7,
            Number::IsoYear => iso_day(t).year,
            Number::IsoYearOfCentury => iso_day(t).year % 100,
        }
    }

    /// The least width to which it is filled.
    pub(crate) fn least(self) -> u8
        ensures value { result ≡ Spec.number_least self }
        ensures small { result ≤ 4 }
    {
        match self {
            Number::Year | Number::IsoYear => 4,
            Number::DayOfYear => 3,
            Number::DayFromMonday | Number::DayFromSunday => 1,
            _ => 2,
        }
    }
}
