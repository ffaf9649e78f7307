//! Callers of `git_date::approxidate` and `git_date::show_date`: docs/GIT_DATES.md says what each is for.
ghost use Rattle.std.specs.Prelude.{◌≡◌, true, false, Some, None, Ok, IfSome, IfOk, MatchResult};
ghost use Rattle.git_date.specs.declared.approximate.Approximate.{Approximate as Guess};
ghost use Rattle.git_date.specs.declared.error.DateError.TheVariants.{Range};
ghost use Rattle.git_date.specs.declared.mode.DateKind.TheVariants.{Human};
ghost use Rattle.git_date.specs as GitDate;

use git_date::{DateError, DateKind, DateMode, DateText, approxidate, show_date};
use gix_date::{Time, Zoned};

/// The time of `REF@{TEXT}`. `None` where Git finds no such reference, since nothing of the text was understood, or where the
/// date is refused.
#[tactic(auto, using(crate::proofs::Outcomes::understood))]
pub fn reference_time(text: &str, now: Zoned<'_>) -> Option<Time>
    ensures { IfSome result (λ time. (date : Guess) × GitDate.ApproximateOutcome now.entry text.now (Ok date)
        × (date.understood ≡ true) × (time ≡ date.time)) }
{
    match approxidate(text.as_bytes(), now) {
        Ok(date) => {
            if date.understood {
                Some(date.time)
            } else {
                None
            }
        }
        Err(_) => None,
    }
}

/// The time of `--since=TEXT`, and the text from the first word on that Git passes over, to warn of.
#[tactic(auto, using(crate::proofs::Outcomes::guessed))]
pub fn since<'a>(text: &'a str, now: Zoned<'_>) -> Result<(Time, Option<&'a str>), DateError>
    ensures { IfOk result (λ found. (date : Guess) × GitDate.ApproximateOutcome now.entry text.now (Ok date)
        × (found.0 ≡ date.time)) }
{
    match approxidate(text.as_bytes(), now) {
        Ok(date) => Ok((date.time, rest_from(text, date.ignored))),
        Err(error) => Err(error),
    }
}

/// The text from a place on.
fn rest_from(text: &str, place: Option<usize>) -> Option<&str> {
    text.get(place?..)
}

/// A time as `git log --date=human` shows it at a moment.
pub fn human(time: Time, now: Zoned<'_>) -> Result<DateText, DateError>
    ensures { MatchResult result
        (λ text. GitDate.shown (GitDate.moment_of now.entry) (record { kind = Human; local = false }) time ≡ Some text.bytes)
        (λ e. (e ≡ Range) × (GitDate.shown (GitDate.moment_of now.entry) (record { kind = Human; local = false }) time ≡ None)) }
{
    let mode = DateMode {
        kind: DateKind::Human,
        local: false,
    };
    show_date(time, mode, now)
}
