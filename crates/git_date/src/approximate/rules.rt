//! The rules of the approximate reader: what digits and words make of a draft.
ghost use Rattle.std.specs.Prelude.{◌≡◌, ◌≤◌, length, IfOk};
ghost use Rattle.jiff.specs.Words.{plain_zone};
ghost use Rattle.git_date.specs as Spec;

use crate::approximate::drafts::{Draft, Drafted, units, weekday_seconds};
use crate::approximate::meanings::{Meaning, Unit, meaning_of};
use crate::approximate::zone::{Found, fill, moved_to};
use crate::error::Fault;
use crate::fields::Fields;
use crate::fields::dates::Now;
use crate::fields::digits::group_said;
use crate::fields::groups::Number;
use crate::tokens::numbers::{MAX_SMALL, is_too_large, number};
use crate::tokens::words::is_filler;
use crate::tokens::{Token, left_from, next_token};
use gix_date::clock::Clock;
use gix_date::time::SECONDS_PER_DAY;
use jiff::tz::TimeZone;

/// What a rule makes of a draft: `None` if it did nothing.
type Ruled = Result<Option<Draft>, Fault>;

fn used(draft: Drafted) -> Ruled
    ensures { result ≡ Spec.used draft }
{
    Ok(Some(draft?))
}

/// `midnight`, `noon` and `tea`: where the clock is before that hour, the day before. gitrevisions asks for a prior point in time.
fn hour_rule(zone: &TimeZone<'_>, today: Clock, draft: Draft, hour: u8, left: usize) -> Drafted
    ensures { result ≡ Spec.hour_rule (Spec.states_of (plain_zone zone.now)) today draft hour left }
{
    let settled = draft.settle();
    let day = if settled.fields.hour.is_some_and(|shown| shown < hour) {
        fill(zone, today, settled, SECONDS_PER_DAY as u32, left)?
    } else {
        settled
    };
    Ok(day.with_hour(hour))
}

/// A number of seconds back. Git keeps them in 32 bits: its `25000 days ago` lies ahead, and is refused here.
fn back_rule(zone: &TimeZone<'_>, today: Clock, draft: Draft, back: u64, n: Number) -> Drafted
    ensures { result ≡ Spec.back_rule (Spec.states_of (plain_zone zone.now)) today draft back n }
{
    if MAX_SMALL < back {
        return Err(Fault::BackTooFar(n.left));
    }
    fill(zone, today, draft, back as u32, n.left)
}

/// A number of months back. To Git a year before 1900 is unknown, so its `200 years ago` is this year, and is refused here.
fn months_rule(zone: &TimeZone<'_>, today: Clock, draft: Draft, months: u64, n: Number) -> Drafted
    ensures { result ≡ Spec.months_rule (Spec.states_of (plain_zone zone.now)) today draft months n }
{
    let filled = fill(zone, today, draft, 0, n.left)?;
    let fields = filled
        .fields
        .less_months(months)
        .ok_or(Fault::BackTooFar(n.left))?;
    Ok(Draft { fields, ..filled })
}

/// What a number counts.
fn unit_rule(zone: &TimeZone<'_>, today: Clock, draft: Draft, unit: Unit, n: Number) -> Drafted
    ensures { result ≡ Spec.unit_rule (Spec.states_of (plain_zone zone.now)) today draft unit n }
{
    let rest = draft.without_number();
    match unit {
        Unit::Seconds(size) => back_rule(zone, today, rest, units(n.value, size), n),
        Unit::Weekday(day) => {
            let back = weekday_seconds(draft.last.weekday, day, n.value);
            back_rule(zone, today, rest, back, n)
        }
        Unit::Months(size) => months_rule(zone, today, rest, units(n.value, size), n),
    }
}

/// What the waiting number counts. Without one a unit says nothing, so Git understands no `friday` alone.
fn counted(zone: &TimeZone<'_>, today: Clock, draft: Draft, unit: Unit) -> Ruled
    ensures { result ≡ Spec.counted_by (Spec.states_of (plain_zone zone.now)) today draft unit draft.waiting }
{
    match draft.waiting {
        Some(n) => used(unit_rule(zone, today, draft, unit, n)),
        None => Ok(None),
    }
}

/// A number waits, where none waits yet.
fn count_waits(draft: Draft, n: u8, left: usize) -> Option<Draft>
    ensures { result ≡ Spec.count_waits draft n left draft.waiting }
{
    match draft.waiting {
        Some(_) => None,
        None => Some(Draft {
            waiting: Some(Number {
                value: u64::from(n),
                left,
            }),
            ..draft
        }),
    }
}

/// With a month.
fn with_month(draft: Draft, month: u8) -> Draft
    ensures { result ≡ Spec.with_month draft month }
{
    Draft {
        fields: Fields {
            month: Some(month),
            ..draft.fields
        },
        ..draft
    }
}

/// What a word makes of a draft by what it says.
#[tactic(auto, unfolding(crate::specs::meaning_rule))]
fn meaning_rule(
    zone: &TimeZone<'_>,
    today: Clock,
    draft: Draft,
    left: usize,
    meaning: Meaning,
) -> Ruled
    ensures { result ≡ Spec.meaning_rule (Spec.states_of (plain_zone zone.now)) today draft left meaning }
{
    match meaning {
        Meaning::Month(month) => Ok(Some(with_month(draft, month))),
        Meaning::Back(seconds) => used(fill(zone, today, draft.dropped(), seconds, left)),
        // The first instant of 1970, which no search finds.
        Meaning::Never => {
            let guess = draft.last.guess;
            used(moved_to(zone, draft.dropped(), left, Found { instant: 0, guess }))
        }
        Meaning::Hour(hour) => used(hour_rule(zone, today, draft, hour, left)),
        Meaning::Morning => Ok(Some(draft.half(0))),
        Meaning::Afternoon => Ok(Some(draft.half(12))),
        Meaning::Count(n) => Ok(count_waits(draft, n, left)),
        Meaning::Unit(unit) => counted(zone, today, draft, unit),
    }
}

/// What a word makes of a draft.
fn word_rule(zone: &TimeZone<'_>, today: Clock, draft: Draft, left: usize, word: &[u8]) -> Ruled
    ensures { result ≡ Spec.word_by (Spec.states_of (plain_zone zone.now)) today draft left (Spec.meaning_of word.now) }
{
    match meaning_of(word) {
        Some(meaning) => meaning_rule(zone, today, draft, left, meaning),
        None => Ok(None),
    }
}

/// The draft after a word: one that did nothing is ignored, unless it is a filler.
fn read_word(draft: Draft, word: &[u8], left: usize, ruled: Ruled) -> Drafted
    ensures { result ≡ Spec.read_word draft word.now left ruled }
{
    match ruled? {
        Some(next) => Ok(Draft {
            understood: true,
            ..next
        }),
        None if is_filler(word) => Ok(draft),
        None => Ok(draft.ignore(left)),
    }
}

/// What letters make of a draft, by the text after them. To Git `jan5` is one word, and no name has a digit.
#[tactic(auto, unfolding(crate::specs::approximate_letters_rule))]
pub(crate) fn letters_rule(
    zone: &TimeZone<'_>,
    today: Clock,
    draft: Draft,
    run: &[u8],
    text: &[u8],
) -> Drafted
    ensures { result
        ≡ Spec.approximate_letters_rule (Spec.states_of (plain_zone zone.now)) today draft run.now (Spec.tokens text.now) }
{
    let left = left_from(run, text);
    if matches!(next_token(text), Some((Token::Digits(_), _))) {
        return Ok(draft.ignore(left));
    }
    read_word(draft, run, left, word_rule(zone, today, draft, left, run))
}

/// Whether three digits or more begin with 0. In Git `07` may be a day or a month, and `007` says nothing.
fn is_padded(run: &[u8]) -> bool
    ensures { result ≡ Spec.is_padded run.now }
{
    matches!(run, [first, _, _, ..] if *first == b'0')
}

/// A number waits, unless it is padded, or 0, by which Git says that none waits.
fn number_waits(draft: Draft, value: u64, run: &[u8], left: usize) -> Draft
    requires { value ≡ Spec.number run.now }
    ensures { result ≡ Spec.number_waits draft run.now left }
{
    if value == 0 || is_padded(run) {
        return draft.ignore(left);
    }
    Draft {
        waiting: Some(Number { value, left }),
        ..draft
    }
}

/// What digits make of a draft, and what is left to read, before an ending of theirs.
#[tactic(auto, unfolding(crate::specs::approximate_digits_rule))]
pub(crate) fn digits_rule<'a>(
    now: Now,
    draft: Draft,
    run: &[u8],
    text: &'a [u8],
) -> Result<(Draft, &'a [u8]), Fault>
    ensures value { Spec.step_view result ≡ Spec.approximate_digits_rule now draft run.now (Spec.tokens text.now) }
    ensures shorter { IfOk result (λ found. length found.1.now ≤ length text.now) }
{
    let n = number(run);
    let left = left_from(run, text);
    if is_too_large(n) {
        return Err(Fault::NumberTooLarge(left));
    }
    let ready = Draft {
        understood: true,
        ..draft.settle()
    };
    match group_said(now, ready.fields, n, run, text)? {
        Some((fields, rest)) => Ok((Draft { fields, ..ready }, rest)),
        None => Ok((number_waits(ready, n, run, left), text)),
    }
}
