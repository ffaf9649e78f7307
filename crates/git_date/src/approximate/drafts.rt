//! What an approximate text says so far.
ghost use Rattle.std.specs.Prelude.{◌≡◌, ◌≤◌};
ghost use Rattle.git_date.specs as Spec;

use crate::approximate::zone::ZoneClock;
use crate::error::Fault;
use crate::fields::Fields;
use crate::fields::groups::Number;
use gix_date::clock::Clock;
use gix_date::time::SECONDS_PER_DAY;

/// What the rules use of the clock of the zone that was shown last.
#[derive(Clone, Copy)]
pub(crate) struct LastShown {
    /// The day of the week, from 0 for Monday.
    pub(crate) weekday: u8,
    /// Whether that was daylight saving time.
    pub(crate) daylight: bool,
    /// The offset from which the next search for an instant begins: that of the last one, or UTC's.
    pub(crate) guess: i32,
}

impl LastShown {
    fn of(guess: i32, shown: ZoneClock) -> LastShown
        ensures { result ≡ Spec.last_of guess shown }
    {
        LastShown {
            weekday: shown.clock.weekday(),
            daylight: shown.daylight,
            guess,
        }
    }
}

/// What a rule makes of a draft, or why the whole text is refused.
pub(crate) type Drafted = Result<Draft, Fault>;

/// What an approximate text says so far.
#[derive(Clone, Copy)]
pub(crate) struct Draft {
    pub(crate) fields: Fields,
    pub(crate) last: LastShown,
    /// A number of which no word has said yet what it counts.
    pub(crate) waiting: Option<Number>,
    /// Whether anything was understood.
    pub(crate) understood: bool,
    /// How many bytes are left from the first word or number on that no rule used.
    pub(crate) ignored: Option<usize>,
}

/// The fields of a clock without its date.
fn clock_fields(shown: Clock) -> Fields
    ensures { result ≡ Spec.clock_fields shown }
{
    Fields {
        hour: Some(shown.hour()),
        minute: Some(shown.minute()),
        second: Some(shown.second()),
        ..Fields::UNKNOWN
    }
}

/// The fields of a clock and its date.
fn all_fields(shown: Clock) -> Fields
    ensures { result ≡ Spec.all_fields shown }
{
    Fields {
        year: Some(shown.year()),
        month: Some(shown.month()),
        day: Some(shown.day()),
        ..clock_fields(shown)
    }
}

impl Fields {
    /// With what a number says alone: the day, the month or the year.
    fn with_number(self, n: u64) -> Option<Fields>
        ensures { result ≡ Spec.with_number self n }
    {
        if n < 32 && self.day.is_none() {
            return Some(Fields {
                day: Some(n as u8),
                ..self
            });
        }
        if n < 13 && self.month.is_none() {
            return Some(Fields {
                month: Some(n as u8),
                ..self
            });
        }
        if self.year.is_some() {
            return None;
        }
        Some(Fields {
            year: Some(lone_year(n)?),
            ..self
        })
    }

    /// With the month so many months earlier. `None` before 1900.
    pub(crate) fn less_months(self, months: u64) -> Option<Fields>
        ensures { result ≡ Spec.less_months self months }
    {
        let year = self.year?;
        let month = self.month?;
        let whole = 12 * u64::from(year) + u64::from(month.saturating_sub(1));
        let before = whole.saturating_sub(months);
        if before / 12 < 1900 || 9999 < before / 12 {
            return None;
        }
        Some(Fields {
            year: Some((before / 12) as u16),
            month: Some((before % 12 + 1) as u8),
            ..self
        })
    }
}

/// The year that a number says alone.
fn lone_year(n: u64) -> Option<u16>
    ensures { result ≡ Spec.lone_year n }
{
    if 1970 <= n && n <= 2099 {
        Some(n as u16)
    } else if 70 <= n && n <= 99 {
        Some(1900 + n as u16)
    } else if n < 38 {
        Some(2000 + n as u16)
    } else {
        None
    }
}

impl Draft {
    /// Before the first token: today's clock, and no date.
    pub(crate) fn first(today: ZoneClock) -> Draft
        ensures { result ≡ Spec.first_draft today }
    {
        Draft {
            fields: clock_fields(today.clock),
            last: LastShown::of(0, today),
            waiting: None,
            understood: false,
            ignored: None,
        }
    }

    /// With all that a clock shows.
    pub(crate) fn with_shown(self, guess: i32, shown: ZoneClock) -> Draft
        ensures { result ≡ Spec.with_shown self guess shown }
    {
        Draft {
            fields: all_fields(shown.clock),
            last: LastShown::of(guess, shown),
            ..self
        }
    }

    /// With what is ignored from the place on from which so many bytes are left.
    pub(crate) fn ignore(self, left: usize) -> Draft
        ensures { result ≡ Spec.ignore self left }
    {
        Draft {
            ignored: Some(self.ignored.map_or(left, |other| left.max(other))),
            ..self
        }
    }

    /// With no number that waits.
    pub(crate) fn without_number(self) -> Draft
        ensures { result ≡ Spec.without_number self }
    {
        Draft {
            waiting: None,
            ..self
        }
    }

    /// With the field that the waiting number says, or with that number ignored.
    #[tactic(auto, unfolding(crate::specs::settle))]
    pub(crate) fn settle(self) -> Draft
        ensures { result ≡ Spec.settle self }
    {
        let Some(n) = self.waiting else {
            return self;
        };
        let rest = self.without_number();
        match self.fields.with_number(n.value) {
            Some(fields) => Draft { fields, ..rest },
            None => rest.ignore(n.left),
        }
    }

    /// With the waiting number ignored.
    pub(crate) fn dropped(self) -> Draft
        ensures { result ≡ Spec.dropped self }
    {
        match self.waiting {
            Some(n) => self.without_number().ignore(n.left),
            None => self,
        }
    }

    /// With a whole hour.
    pub(crate) fn with_hour(self, hour: u8) -> Draft
        ensures { result ≡ Spec.with_hour self hour }
    {
        Draft {
            fields: Fields {
                hour: Some(hour),
                minute: Some(0),
                second: Some(0),
                ..self.fields
            },
            ..self
        }
    }

    /// With an hour of the half of a day that begins with this one: the waiting number, or else the clock's hour.
    pub(crate) fn half(self, first: u8) -> Draft
        requires { first ≤ 12 }
        ensures { result ≡ Spec.half self first }
    {
        match self.waiting {
            Some(n) => self
                .without_number()
                .with_hour((n.value % 12) as u8 + first),
            None => Draft {
                fields: Fields {
                    hour: self.fields.hour.map(|hour| hour % 12 + first),
                    ..self.fields
                },
                ..self
            },
        }
    }
}

/// So many units of so much.
pub(crate) fn units(n: u64, size: u32) -> u64
    ensures { result ≡ Spec.units n size }
{
    n.saturating_mul(u64::from(size))
}

/// The days from 1 to 7 back to the day of the week that is named.
fn days_back(weekday: u8, named: u8) -> u32
    ensures value { result ≡ Spec.days_back weekday named }
    ensures small { result ≤ 7 }
{
    (u32::from(weekday) + 6).saturating_sub(u32::from(named)) % 7 + 1
}

/// The seconds back to the day of the week that is named, at the count of such days.
pub(crate) fn weekday_seconds(weekday: u8, named: u8, n: u64) -> u64
    ensures { result ≡ Spec.weekday_seconds weekday named n }
{
    let weeks = units(n.saturating_sub(1), 7 * SECONDS_PER_DAY as u32);
    weeks.saturating_add(SECONDS_PER_DAY as u64 * u64::from(days_back(weekday, named)))
}
