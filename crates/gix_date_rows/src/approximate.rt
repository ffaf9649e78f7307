//! Dates as people write them, at a moment.
use crate::answer::Answer;
use crate::moments::moment_of;
use git_date::{Approximate, Expiry, approxidate, expiry_date};
use jiff::tz::TimeZoneDatabase;

/// The time of a date as Git reads it approximately, at the moment that a field says. `None` where it says none.
pub(crate) fn guessed(zones: &TimeZoneDatabase, moment: &str, text: &[u8]) -> Option<Answer> {
    Some(match approximate(zones, moment, text)? {
        Ok(date) if date.understood => Answer::Time(date.time),
        Ok(date) => Answer::Doubtful(date.time),
        Err(refusal) => refusal,
    })
}

/// The place of what such a date ignores.
pub(crate) fn passed_over(zones: &TimeZoneDatabase, moment: &str, text: &[u8]) -> Option<Answer> {
    Some(match approximate(zones, moment, text)? {
        Ok(date) => Answer::Ignored(date.ignored),
        Err(refusal) => refusal,
    })
}

/// What expires by a text, at the moment that a field says. `None` where it says none.
pub(crate) fn expires(zones: &TimeZoneDatabase, moment: &str, text: &[u8]) -> Option<Answer> {
    match moment_of(zones, moment)? {
        Ok(now) => Some(match expiry_date(text, now?) {
            Ok(Expiry::Never) => Answer::Word("never"),
            Ok(Expiry::All) => Answer::Word("all"),
            Ok(Expiry::Before(date)) => Answer::Time(date.time),
            Err(error) => error.into(),
        }),
        Err(refusal) => Some(Answer::Refused(refusal)),
    }
}

fn approximate(
    zones: &TimeZoneDatabase,
    moment: &str,
    text: &[u8],
) -> Option<Result<Approximate, Answer>> {
    match moment_of(zones, moment)? {
        Ok(now) => Some(approxidate(text, now?).map_err(Answer::from)),
        Err(refusal) => Some(Err(Answer::Refused(refusal))),
    }
}
