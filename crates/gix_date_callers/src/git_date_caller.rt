//! Callers of `git_date`, as docs/GIT_DATES.md shows them.
ghost use Rattle.std.specs.Prelude.{◌≡◌, Ok, Err, IfOk, IfErr, drop, option_map};
ghost use Rattle.git_date.specs as GitDate;

use git_date::{DateError, ExactDate, parse_date};
use gix_date::Zoned;

/// A date as Git reads it, and the text from the first word on that Git ignores, so that a program can warn of it.
pub fn date_and_ignored<'a>(
    text: &'a str,
    now: Zoned<'_>,
) -> Result<(ExactDate, Option<&'a str>), DateError>
    ensures date { IfOk result (λ found. GitDate.DateOutcome now.entry text.now (Ok found.0)) }
    ensures rest { IfOk result (λ found. option_map (λ rest. rest.now) found.1
        ≡ option_map (λ place. drop place text.now) found.0.ignored) }
    ensures refuses { IfErr result (λ e. GitDate.DateOutcome now.entry text.now (Err e)) }
{
    let date = match parse_date(text.as_bytes(), now) {
        Ok(date) => date,
        Err(error) => return Err(error),
    };
    let ignored = match date.ignored {
        Some(place) => Some(text.split_at(place).1),
        None => None,
    };
    Ok((date, ignored))
}
