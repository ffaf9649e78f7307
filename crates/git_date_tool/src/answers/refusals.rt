//! Why a text is answered by no date.
ghost use Rattle.std.specs.Prelude.{◌≡◌};
ghost use Rattle.git_date_tool.specs as Spec;

use git_date::DateError;
use gix_date::{CarefulError, ParseError};

/// Why a text is answered by no date. A place counts bytes from the text's start.
#[derive(Clone, Copy, Debug, PartialEq, Eq)]
pub enum Refusal {
    /// The text is not UTF-8.
    NotText,
    /// No form that a date may have holds the text.
    UnknownFormat,
    /// The text is a day whose midnight is no instant.
    DateConversion,
    /// The text is relative to a moment, and none was given.
    MissingMoment,
    /// The text leads to no time.
    Range,
    /// Git reads no date either.
    Unreadable,
    /// The number at this place is too large.
    NumberTooLarge(usize),
    /// The date at this place leads back too far.
    BackTooFar(usize),
    /// The date at this place begins with a year that Git refuses.
    YearRefused(usize),
    /// The text is not careful from this place on.
    Unclear(usize),
    /// The careful text is a number of seconds after the year 9999.
    AfterYear9999,
    /// Git understands nothing of the text.
    NotUnderstood,
    /// Git ignores the word or number at this place.
    Ignored(usize),
    /// The text is no header.
    NoHeader,
    /// The header is not canonical.
    NotCanonical,
    /// The time of the text cannot be shown so.
    NotShown,
}

impl Refusal {
    /// What it is called.
    pub fn name(self) -> &'static str
        ensures { result.now ≡ Spec.refusal_name self }
    {
        match self {
            Refusal::NotText => "not text",
            Refusal::UnknownFormat => "error unknown-format",
            Refusal::DateConversion => "error date-conversion",
            Refusal::MissingMoment => "error missing-moment",
            Refusal::Range => "error range",
            Refusal::Unreadable => "error unreadable",
            Refusal::NumberTooLarge(_) => "error number-too-large",
            Refusal::BackTooFar(_) => "error back-too-far",
            Refusal::YearRefused(_) => "error year-refused",
            Refusal::Unclear(_) => "error unclear",
            Refusal::AfterYear9999 => "error after-year-9999",
            Refusal::NotUnderstood => "error not-understood",
            Refusal::Ignored(_) => "error ignored",
            Refusal::NoHeader => "error no-header",
            Refusal::NotCanonical => "error not-canonical",
            Refusal::NotShown => "error not-shown",
        }
    }

    /// The place that it is about.
    pub fn place(self) -> Option<usize>
        ensures { result ≡ Spec.refusal_place self }
    {
        match self {
            Refusal::NumberTooLarge(place) => Some(place),
            Refusal::BackTooFar(place) => Some(place),
            Refusal::YearRefused(place) => Some(place),
            Refusal::Unclear(place) => Some(place),
            Refusal::Ignored(place) => Some(place),
            _ => None,
        }
    }

    /// Whether the reader does not understand the text, or a word of it.
    pub fn is_unclear(self) -> bool
        ensures { result ≡ Spec.is_unclear self }
    {
        matches!(
            self,
            Refusal::NotUnderstood
                | Refusal::Ignored(_)
                | Refusal::Unreadable
                | Refusal::Unclear(_)
                | Refusal::UnknownFormat
                | Refusal::NoHeader
        )
    }
}

/// The refusal of Git's readers.
pub(crate) fn of_git(error: DateError) -> Refusal
    ensures { result ≡ Spec.of_git error }
{
    match error {
        DateError::Unreadable => Refusal::Unreadable,
        DateError::NumberTooLarge(place) => Refusal::NumberTooLarge(place),
        DateError::BackTooFar(place) => Refusal::BackTooFar(place),
        DateError::YearRefused(place) => Refusal::YearRefused(place),
        DateError::Range => Refusal::Range,
    }
}

/// The refusal of gix-date's reader.
pub(crate) fn of_gix(error: ParseError) -> Refusal
    ensures { result ≡ Spec.of_gix error }
{
    match error {
        ParseError::UnknownFormat => Refusal::UnknownFormat,
        ParseError::DateConversion => Refusal::DateConversion,
        ParseError::MissingNow => Refusal::MissingMoment,
        ParseError::Range => Refusal::Range,
    }
}

/// The refusal of the careful reader.
pub(crate) fn of_careful(error: CarefulError) -> Refusal
    ensures { result ≡ Spec.of_careful error }
{
    match error {
        CarefulError::Unclear(place) => Refusal::Unclear(place),
        CarefulError::AfterYear9999 => Refusal::AfterYear9999,
        CarefulError::Refused(refusal) => of_gix(refusal),
    }
}
