//! The approximate reader of dates: one token after the other.
ghost use Rattle.std.specs.Prelude.{◌≡◌, ◌≤◌, length, IfOk, Err};
ghost use Rattle.jiff.specs.Words.{plain_zone};
ghost use Rattle.git_date.specs as Spec;
ghost use Rattle.gix_date.specs as GixDate;

mod drafts;
mod expiry;
mod meanings;
mod rules;
mod zone;

use crate::error::{DateError, Fault};
use crate::fields::dates::Now;
use crate::reader::{error_of, parse_date, place_in};
use crate::tokens::words::without_ending;
use crate::tokens::{Token, next_token, up_to_nul};
use drafts::Draft;
pub use expiry::{Expiry, expiry_date};
use gix_date::{Time, Zoned};
use jiff::tz::TimeZone;
use rules::{digits_rule, letters_rule};
use zone::{ZoneClock, filled_time, shown_in};

/// Reads a date as people write it: `yesterday noon`, `last friday`, `2 weeks ago`, `July 5th`. So Git reads `--since`,
/// `--until` and `REF@{..}`.
///
/// A text that [`parse_date`](crate::parse_date) reads has its answer. In any other the words and numbers change the moment's
/// clock and date one after the other, as `docs/GIT_DATES.md` says, and the time has the zone's offset. Git passes over
/// each word that it does not know, so `5 mins ago` is the fifth of the month: [`Approximate::ignored`] tells of that.
///
/// In every zone each answer is Git's, as it reads the first date of a process, or a refusal by name: [`DateError::BackTooFar`]
/// where Git would wrap or go before 1900, and the refusals of [`parse_date`](crate::parse_date) but for
/// [`DateError::Unreadable`]. A local time is looked for with the daylight flag that the zone's clock showed last, at the moment or
/// at the last step: in Berlin, said at 10:00 in November, `3 months ago` is at 11:00. A NUL ends the text, as for
/// [`parse_date`](crate::parse_date). A place that the answer has is one where a character of the text begins. Takes no memory.
#[tactic(auto, using(crate::proofs::Guesses::Places::guessed_places))]
pub fn approxidate(text: &[u8], now: Zoned<'_>) -> Result<Approximate, DateError>
    ensures answer { Spec.ApproximateOutcome now.entry text.now result }
    ensures places { Spec.HasApproximatePlacesIn text.now result }
{
    match parse_date(text, now) {
        Ok(date) => Ok(Approximate {
            time: date.time,
            understood: true,
            ignored: date.ignored,
        }),
        Err(error) => or_guess(now, text, error),
    }
}

/// What a token makes of a draft, and what is left to read. Marks say nothing.
fn rule<'a>(
    zone: &TimeZone<'_>,
    today: &Today,
    draft: Draft,
    token: Token<'_>,
    text: &'a [u8],
) -> Result<(Draft, &'a [u8]), Fault>
    ensures value { Spec.step_view result ≡ Spec.approximate_rule (Spec.states_of (plain_zone zone.now)) today.entry.now draft
        (Spec.token_of token.entry) (Spec.tokens text.now) }
    ensures shorter { IfOk result (λ found. length found.1.now ≤ length text.now) }
{
    match token {
        Token::Letters(run) => Ok((
            letters_rule(zone, today.shown.clock, draft, run, text)?,
            text,
        )),
        Token::Digits(run) => {
            let (next, rest) = digits_rule(today.now, draft, run, text)?;
            Ok((next, without_ending(rest)))
        }
        Token::Mark(_) => Ok((draft, text)),
    }
}

/// What the tokens of a text say, one after the other.
pub(crate) fn draft_of(zone: &TimeZone<'_>, today: &Today, text: &[u8]) -> Result<Draft, Fault>
    ensures { result ≡ Spec.draft_of (Spec.states_of (plain_zone zone.now)) today.entry.now text.now }
{
    let mut draft = Draft::first(today.shown);
    let mut rest = text;
    'tokens: while let Some((token, after)) = next_token(rest) {
        let (next, later) = match rule(zone, today, draft, token, after) {
            Ok(step) => step,
            Err(fault) => return Err(fault),
        };
        draft = next;
        rest = later;
    }
    Ok(draft)
}

/// What [`approxidate`](crate::approxidate) makes of a text.
#[derive(Clone, Copy, Debug, PartialEq, Eq)]
pub struct Approximate {
    /// The time: seconds since 1970-01-01 00:00:00 UTC, and the offset in seconds east of UTC.
    pub time: Time,
    /// Whether anything was understood, by Git's own count. If not, the time is the moment in whole seconds, if the
    /// zone's clock finds it again: an hour off where that shows it twice, and near it in the last days of 9999.
    pub understood: bool,
    /// The place, in bytes, of the first word or number that no rule used, so that a program can say so; or else that of the first
    /// NUL, which ends the text.
    ///
    /// Not counted are other marks, `ago`, `at`, `on`, `of`, `the`, `and`, the ending of a number as in `7th`, and one `T` between
    /// digits.
    pub ignored: Option<usize>,
}

/// What the rules use of the moment.
#[derive(Clone, Copy)]
pub(crate) struct Today {
    pub(crate) now: Now,
    /// What the clock of its zone shows.
    pub(crate) shown: ZoneClock,
}

/// The answer of a draft, by the time at which the zone's clock shows it.
fn answer(text: &[u8], draft: Draft, time: Option<Time>) -> Result<Approximate, DateError>
    ensures { result ≡ Spec.answer text.now draft time }
{
    let time = time.ok_or(DateError::Range)?;
    if 0 <= time.seconds {
        Ok(Approximate {
            time,
            understood: draft.understood,
            ignored: draft.ignored.map(|left| place_in(text, left)),
        })
    } else {
        Err(DateError::Range)
    }
}

/// The answer of what the tokens say, with the number settled that still waits.
fn answer_of(zone: &TimeZone<'_>, today: &Today, text: &[u8]) -> Result<Approximate, DateError>
    ensures { result ≡ Spec.answer_of (Spec.states_of (plain_zone zone.now)) today.entry.now text.now
        (Spec.draft_of (Spec.states_of (plain_zone zone.now)) today.entry.now text.now) }
{
    let draft = draft_of(zone, today, text).map_err(|fault| error_of(text, fault))?;
    let last = draft.settle();
    let time = filled_time(zone, today.shown.clock, last.last, last.fields);
    answer(text, last, time)
}

/// What the approximate reader makes of a text without NUL.
#[tactic(auto, unfolding(crate::specs::string_guess))]
fn string_guess(moment: Zoned<'_>, text: &[u8]) -> Result<Approximate, DateError>
    ensures { result ≡ Spec.string_guess (Spec.states_of (GixDate.zone_of moment.entry)) (Spec.now_of moment.entry) text.now }
{
    let now = Now::of(moment.timestamp());
    let zone = moment.time_zone();
    let shown = shown_in(&zone, now.seconds).ok_or(DateError::Range)?;
    answer_of(&zone, &Today { now, shown }, text)
}

/// What the approximate reader makes of a text, up to its first NUL.
#[tactic(auto, unfolding(crate::specs::guess))]
fn guess(moment: Zoned<'_>, text: &[u8]) -> Result<Approximate, DateError>
    ensures { result ≡ Spec.guess (Spec.states_of (GixDate.zone_of moment.entry)) (Spec.now_of moment.entry) text.now }
{
    let (string, nul) = up_to_nul(text);
    let date = string_guess(moment, string)?;
    Ok(Approximate {
        ignored: date.ignored.or(nul),
        ..date
    })
}

/// What the approximate reader makes of a text that the exact one does not read, or that one's refusal by another name.
pub(crate) fn or_guess(
    moment: Zoned<'_>,
    text: &[u8],
    error: DateError,
) -> Result<Approximate, DateError>
    ensures { result
        ≡ Spec.exact_or_guess (Err error) (Spec.guess (Spec.states_of (GixDate.zone_of moment.entry)) (Spec.now_of moment.entry) text.now) }
{
    match error {
        DateError::Unreadable => guess(moment, text),
        _ => Err(error),
    }
}
