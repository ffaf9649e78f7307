//! Why a date is refused.
use thiserror::Error;

/// Why a call of this crate refuses. A place counts bytes from the text's start.
#[derive(Clone, Copy, Debug, PartialEq, Eq, Error)]
pub enum DateError {
    /// Git reads no date either: the text says no year, month or time of day, or none that Git knows.
    #[error("not a date with a time of day; expected one such as \"2005-04-07 22:13:13 +0200\"")]
    Unreadable,
    /// The digits at this place say more than 2147483647, and are neither an epoch nor a fraction. Git cuts such numbers.
    #[error("the number at byte {0} is too large")]
    NumberTooLarge(usize),
    /// The date leads back beyond what Git can say: over 2147483647 seconds, or to a year before 1900. No exact date does.
    #[error("the date at byte {0} leads back too far")]
    BackTooFar(usize),
    /// The date at this place begins with a year that Git refuses, of which it would keep month and day: `1900-02-03`.
    #[error("the year at byte {0} is refused; expected 1970 to 2099")]
    YearRefused(usize),
    /// The date is before 1970-01-01 00:00:00 UTC, no instant of `jiff`, or a local time that Git's search does not find in the zone.
    /// Of [`approxidate`](crate::approxidate) also a moment before 1900, and of [`show_date`](crate::show_date) a time that it does
    /// not show.
    #[error("the date is before 1970 or leads to an instant that cannot be computed with")]
    Range,
}

/// Why a rule refuses the whole text. A place is how many bytes are left from there to the text's end.
#[derive(Clone, Copy)]
pub(crate) enum Fault {
    /// The digits there are too large, and no rule takes them.
    NumberTooLarge(usize),
    /// The date there has a year that is refused.
    YearRefused(usize),
    /// The word or number there leads back beyond what Git can say.
    BackTooFar(usize),
    /// An epoch is no instant.
    Range,
}
