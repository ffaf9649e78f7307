//! Callers of `git_date` that have an instant and a zone, and need no clock of both.
ghost use Rattle.std.specs.Prelude.{◌≡◌, Result, Ok, option_map};
ghost use Rattle.std.specs.Result.{result_map_both};
ghost use Rattle.jiff.specs.Words.{plain_zone};
ghost use Rattle.git_date.specs.declared.reader.ExactDate.{ExactDate as Read};
ghost use Rattle.git_date.specs.declared.error.DateError.{DateError as Refusal};
ghost use Rattle.git_date.specs as GitDate;

use git_date::{DateError, DateMode, DateText, parse_date_at, show_date_at};
use gix_date::Time;
use jiff::Timestamp;
use jiff::tz::TimeZone;

/// The time of `GIT_COMMITTER_DATE`.
pub fn committed(date: &str, now: Timestamp, zone: TimeZone<'_>) -> Result<Time, DateError>
    ensures { (read : Result Read Refusal)
        × GitDate.DateOutcomeAt now.nanosecond (plain_zone zone.entry) date.now read
        × (result ≡ result_map_both (λ found. found.time) (λ e. e) read) }
{
    match parse_date_at(date.as_bytes(), now, zone) {
        Ok(found) => Ok(found.time),
        Err(error) => Err(error),
    }
}

/// A time as `git log --date=MODE` shows it, or nothing where Git shows none.
pub fn logged(time: Time, mode: DateMode, now: Timestamp, zone: TimeZone<'_>) -> Option<DateText>
    ensures { option_map (λ text. text.bytes) result
        ≡ GitDate.shown (GitDate.moment_at now.nanosecond (plain_zone zone.entry)) mode time }
{
    match show_date_at(time, mode, now, zone) {
        Ok(text) => Some(text),
        Err(_) => None,
    }
}
