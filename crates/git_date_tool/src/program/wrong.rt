//! What may be wrong with a command line.
ghost use Rattle.std.specs.Prelude.{◌≡◌, ◌++◌};
ghost use Rattle.git_date_tool.specs as Spec;

use crate::program::arguments::Given;
use crate::zones::{ZoneFault, ZoneText};
use git_date::{FormatFault, MACHINE_ZONE};
use streams::NoMoment;

/// What is wrong with the words of a command line.
#[derive(Clone, Copy)]
pub(crate) enum WrongWords<'w> {
    /// There is no such option.
    UnknownOption(&'w str),
    /// The last option has no value.
    NoValue(Given),
    /// An option is given twice.
    Twice(Given),
    /// Another option says already how much has to be understood.
    TwoDemands(&'w str),
    /// There is no such reader.
    UnknownReader(&'w str),
    /// There is no such way to show a date.
    UnknownMode(&'w str),
    /// A format of Git's has a fault.
    WrongFormat(&'w str, FormatFault),
    /// An option stands after a text.
    LateOption(&'w str),
    /// A word is not UTF-8.
    NotText,
    /// NOW is no moment.
    NoMoment(&'w str, NoMoment),
    /// ZONE, the value of `TZ` or the file of the machine says no zone.
    NoZone(ZoneText<'w>, ZoneFault),
}

impl<'w> WrongWords<'w> {
    /// The word that is wrong, where it is one.
    pub(crate) fn subject(self) -> Option<&'w str>
        ensures { Spec.subject_of result ≡ Spec.wrong_subject self.entry }
    {
        match self {
            WrongWords::UnknownOption(word) => Some(word),
            WrongWords::NoValue(given) => Some(given.text()),
            WrongWords::Twice(given) => Some(given.text()),
            WrongWords::TwoDemands(word) => Some(word),
            WrongWords::UnknownReader(word) => Some(word),
            WrongWords::UnknownMode(word) => Some(word),
            WrongWords::WrongFormat(word, _) => Some(word),
            WrongWords::LateOption(word) => Some(word),
            WrongWords::NotText => None,
            WrongWords::NoMoment(text, _) => Some(text),
            WrongWords::NoZone(text, _) => text.subject(),
        }
    }

    /// How what is said begins.
    pub(crate) fn lead(self) -> &'static str
        ensures { result.now ≡ Spec.wrong_lead self.entry }
    {
        match self {
            WrongWords::WrongFormat(_, _) => "is no format: the directive at byte ",
            WrongWords::NoMoment(_, _) => "is no moment: ",
            WrongWords::NoZone(text, _) => text.lead(),
            _ => "",
        }
    }

    /// The place that is said then, where there is one.
    pub(crate) fn place(self) -> Option<usize>
        ensures { result ≡ Spec.wrong_place self.entry }
    {
        match self {
            WrongWords::WrongFormat(_, fault) => Some(format_fault_place(fault)),
            _ => None,
        }
    }

    /// What is said of it then.
    pub(crate) fn text(self) -> &'static str
        ensures { result.now ≡ Spec.wrong_text self.entry }
    {
        match self {
            WrongWords::UnknownOption(_) =>
                "is no option; --help lists them, and a text may stand after --",
            WrongWords::NoValue(_) => "has no value",
            WrongWords::Twice(_) => "is given twice",
            WrongWords::TwoDemands(_) => "stands beside another --strict or --lenient",
            WrongWords::UnknownReader(_) => {
                "is no reader; expected exact, approxidate, careful, gix or header"
            }
            WrongWords::UnknownMode(_) => {
                "is no way to show a date; expected one such as iso8601, human or RFC2822"
            }
            WrongWords::WrongFormat(_, fault) => format_fault_text(fault),
            WrongWords::LateOption(_) => {
                "stands after a text; write options before all texts, or -- before these"
            }
            WrongWords::NotText => "a word is not UTF-8",
            WrongWords::NoMoment(_, why) => why.text(),
            WrongWords::NoZone(_, fault) => fault.text(),
        }
    }
}

/// What is said of the directive that has this fault.
fn format_fault_text(fault: FormatFault) -> &'static str
    ensures { result.now ≡ Spec.format_fault_text fault }
{
    match fault {
        FormatFault::FlagRefused(_) => " takes no flags and no width",
        FormatFault::UnknownDirective(_) => " is unknown",
        FormatFault::WidthTooLarge(_) => " has a width above 255",
    }
}

fn format_fault_place(fault: FormatFault) -> usize
    ensures { result ≡ Spec.format_fault_place fault }
{
    match fault {
        FormatFault::FlagRefused(place) => place,
        FormatFault::UnknownDirective(place) => place,
        FormatFault::WidthTooLarge(place) => place,
    }
}

/// A place in digits, where there is one.
pub(crate) fn place_digits(place: Option<usize>, digits: &mut itoa::Buffer) -> &str
    ensures { result.now ≡ Spec.place_digits place }
{
    match place {
        Some(place) => digits.format(place),
        None => "",
    }
}

impl<'w> ZoneText<'w> {
    /// The text itself, where it is one, or else the file of the machine.
    fn subject(self) -> Option<&'w str>
        ensures { Spec.subject_of result ≡ Spec.zone_subject self.entry }
    {
        match self {
            ZoneText::Zone(text) => Some(text),
            ZoneText::Tz(text) => Some(text),
            ZoneText::TzNotText => None,
            ZoneText::TzNoMemory => None,
            ZoneText::Machine => Some(MACHINE_ZONE),
        }
    }

    /// How begins what is said of it.
    fn lead(self) -> &'static str
        ensures { result.now ≡ Spec.zone_lead self.entry }
    {
        match self {
            ZoneText::Zone(_) => "is no zone: ",
            ZoneText::Tz(_) => "of TZ is no zone: ",
            ZoneText::TzNotText => "TZ says no zone: ",
            ZoneText::TzNoMemory => "TZ says no zone: ",
            ZoneText::Machine => "is no zone: ",
        }
    }
}

impl ZoneFault {
    /// What is said of it.
    fn text(self) -> &'static str
        ensures { result.now ≡ Spec.zone_fault_text self }
    {
        match self {
            ZoneFault::NotText => "it is not UTF-8",
            ZoneFault::NoName => {
                "there is none of this name; expected one such as Europe/Berlin, or a rule such as \
                 EST5EDT,M3.2.0,M11.1.0, and for --zone also an offset to 25:59, as +0800"
            }
            ZoneFault::NoFolder => {
                "for names a time zone database is missing; expected a rule such as EST5EDT,M3.2.0,M11.1.0, \
                 and for --zone also +0800"
            }
            ZoneFault::CountsLeapSeconds => "its file counts leap seconds, as no time of Git does",
            ZoneFault::NoFile => "there is no such file",
            ZoneFault::Denied => "its file may not be read",
            ZoneFault::NotRegular => "it is a folder, a pipe or a device",
            ZoneFault::TooLarge => "its file has more than 1048576 bytes",
            ZoneFault::NotTzif => "its file is no TZif",
        }
    }
}
