//! The names that a clock shows, and their letter case.
ghost use Rattle.std.specs.Prelude.{◌≡◌, ◌≤◌, length};
ghost use Rattle.git_date.specs as Spec;

use crate::format::directives::Name;
use crate::format::flags::Flags;
use gix_date::clock::Clock;
use gix_date::names::{day_name, month_name, whole_day_name, whole_month_name};

/// The letter case of a name.
#[derive(Clone, Copy)]
pub(crate) enum Case {
    Kept,
    Upper,
    Lower,
}

impl Name {
    /// What a clock shows by it.
    pub(crate) fn text(self, t: Clock) -> &'static str
        ensures name { result.now ≡ Spec.name_text self t }
        ensures len { length result.now ≤ 9 }
    {
        match self {
            Name::ShortDay => day_name(t.weekday()),
            Name::LongDay => whole_day_name(t.weekday()),
            Name::ShortMonth => month_name(t.month()),
            Name::LongMonth => whole_month_name(t.month()),
            Name::HalfDay => { if t.hour() < 12 { "AM" } else { "PM" } }
            Name::SmallHalfDay => { if t.hour() < 12 { "am" } else { "pm" } }
            Name::LineFeed => "\n",
            Name::Tab => "\t",
        }
    }

    pub(crate) fn case_of(self, flags: Flags) -> Case
        ensures { result ≡ Spec.case_of self flags }
    {
        match self {
            Name::ShortDay | Name::LongDay | Name::ShortMonth | Name::LongMonth
                if flags.upper || flags.swap => { Case::Upper }
            Name::HalfDay if flags.swap => Case::Lower,
            _ => Case::Kept,
        }
    }
}

impl Case {
    pub(crate) fn of_letter(self, letter: u8) -> u8
        ensures { result ≡ Spec.cased_letter self letter }
    {
        match self {
            Case::Kept => letter,
            Case::Upper => letter.to_ascii_uppercase(),
            Case::Lower => letter.to_ascii_lowercase(),
        }
    }
}
