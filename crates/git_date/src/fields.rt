//! What was read of a date so far.
ghost use Rattle.std.specs.Prelude.{◌≡◌};
ghost use Rattle.git_date.specs as Spec;

pub(crate) mod dates;
pub(crate) mod digits;
pub(crate) mod groups;
pub(crate) mod offsets;

/// The fields of a date, its clock and its offset in minutes, as far as they are known.
#[derive(Clone, Copy)]
pub(crate) struct Fields {
    pub(crate) year: Option<u16>,
    pub(crate) month: Option<u8>,
    pub(crate) day: Option<u8>,
    pub(crate) hour: Option<u8>,
    pub(crate) minute: Option<u8>,
    pub(crate) second: Option<u8>,
    pub(crate) offset: Option<i16>,
    /// Whether the fields are those of an instant in UTC.
    pub(crate) epoch: bool,
}

impl Fields {
    pub(crate) const UNKNOWN: Fields = Fields {
        year: None,
        month: None,
        day: None,
        hour: None,
        minute: None,
        second: None,
        offset: None,
        epoch: false,
    };

    /// Whether neither a part of the date nor one of the clock is known.
    pub(crate) fn knows_nothing(self) -> bool
        ensures { result ≡ Spec.knows_nothing self }
    {
        self.year.is_none()
            && self.month.is_none()
            && self.day.is_none()
            && self.hour.is_none()
            && self.minute.is_none()
            && self.second.is_none()
    }

    /// Whether the date is known.
    pub(crate) fn knows_date(self) -> bool
        ensures { result ≡ Spec.knows_date self }
    {
        self.year.is_some() && self.month.is_some() && self.day.is_some()
    }

    /// Whether the second is the one after 59.
    pub(crate) fn is_leap(self) -> bool
        ensures { result ≡ Spec.is_leap self }
    {
        self.second.is_some_and(|second| second == 60)
    }

    /// With this clock, if it is one.
    #[tactic(auto, unfolding(crate::specs::with_clock))]
    pub(crate) fn with_clock(self, hour: u64, minute: u64, second: u64) -> Option<Fields>
        ensures { result ≡ Spec.with_clock self hour minute second }
    {
        if hour <= 24 && minute <= 59 && second <= 60 {
            Some(Fields {
                hour: Some(hour as u8),
                minute: Some(minute as u8),
                second: Some(second as u8),
                ..self
            })
        } else {
            None
        }
    }
}
