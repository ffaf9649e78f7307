//! The words of a relative text: what each counts, and which unit it names.
ghost use Rattle.std.specs.Prelude.{◌≡◌, ◌∷◌, [], ◌<◌, length, IfSome, MatchOption, drop};
ghost use Rattle.std.specs.List.{prefix_len, position};
ghost use Rattle.std.specs.Char.{is_ascii_alphanumeric};
ghost use Rattle.gix_date.specs as Spec;

use crate::parsing::numbers::{are_digits, parse_int};
use crate::time::{SECONDS_PER_DAY, SECONDS_PER_HOUR, SECONDS_PER_MINUTE};

pub(crate) const MONTHS_PER_YEAR: i64 = 12;

/// The names of numbers that count.
const NUMBERS: [&str; 10] = [
    "one", "two", "three", "four", "five", "six", "seven", "eight", "nine", "ten",
];

/// A unit, as the seconds or the months to subtract.
#[derive(Debug, Clone, Copy)]
pub(crate) enum TimeUnit {
    /// So many seconds.
    Seconds(i64),
    /// So many months of the calendar.
    Months(i64),
}

/// The first word of a text, and what stands after it. A word is a longest run of ASCII letters and digits.
#[tactic(auto, using(crate::proofs::Relative::RelativeWordSteps::word_end, crate::proofs::Relative::RelativeWordSteps::no_words, crate::proofs::Relative::RelativeWordSteps::word_comes))]
pub(crate) fn next_word(text: &str) -> Option<(&str, &str)>
    ensures words { MatchOption result (Spec.relative_words text.now ≡ [])
        (λ found. Spec.relative_words text.now ≡ found.0.now ∷ Spec.relative_words found.1.now) }
    ensures shorter { IfSome result (λ found. length found.1.now < length text.now) }
{
    let from = skip_gap(text);
    let len = word_len(from);
    if len == 0 {
        return None;
    }
    Some(from.split_at(len))
}

/// The text from its first word on.
#[tactic(auto, using(crate::proofs::Relative::RelativeWordSteps::gap_end))]
fn skip_gap(text: &str) -> &str
    ensures { result.now ≡ drop (prefix_len Spec.is_gap text.now) text.now }
{
    &text[gap_len(text)..]
}

/// How many bytes stand before the first word.
fn gap_len(text: &str) -> usize
    ensures { result ≡ prefix_len Spec.is_gap text.now }
{
    text.bytes()
        .take_while(|b| !b.is_ascii_alphanumeric())
        .count()
}

/// How many bytes the word has that stands first.
pub(crate) fn word_len(text: &str) -> usize
    ensures { result ≡ prefix_len is_ascii_alphanumeric text.now }
{
    text.bytes()
        .take_while(|b| b.is_ascii_alphanumeric())
        .count()
}

/// What a count word counts: digits whose number an `i64` holds, or in any letter case `one` to `ten`, and `last`,
/// which is 1.
#[tactic(auto, unfolding(crate::specs::count_of))]
pub(crate) fn count_of(word: &str) -> Option<i64>
    ensures { result ≡ Spec.count_of word.now }
{
    // A sign is not read as part of a number.
    if are_digits(word.as_bytes()) {
        parse_int(word)
    } else {
        named_count(word)
    }
}

/// What `one` to `ten` count, and `last`.
#[tactic(auto, unfolding(crate::specs::named_count))]
fn named_count(word: &str) -> Option<i64>
    ensures { result ≡ Spec.named_count word.now }
{
    if word.eq_ignore_ascii_case("last") {
        return Some(1);
    }
    number_named(word)
}

/// The number from 1 to 10 of this name, in any letter case.
#[tactic(auto, unfolding(crate::specs::number_named))]
fn number_named(word: &str) -> Option<i64>
    ensures { result ≡ Spec.number_named word.now }
{
    Some(place_of(word, &NUMBERS)? as i64 + 1)
}

/// The place of the name that a word is.
fn place_of(word: &str, names: &[&str]) -> Option<usize>
    ensures { result ≡ position (λ name. Spec.is_name word.now name.now) names.now }
{
    names
        .iter()
        .position(|name| word.eq_ignore_ascii_case(name))
}

/// Whether a word counts.
#[tactic(auto, unfolding(crate::specs::is_count_word))]
pub(crate) fn is_count_word(word: &str) -> bool
    ensures { result ≡ Spec.is_count_word word.now }
{
    count_of(word).is_some()
}

/// The unit that a period names in any letter case, one final `s` aside.
#[tactic(auto, unfolding(crate::specs::unit_of))]
pub(crate) fn unit_of(period: &str) -> Option<TimeUnit>
    ensures { result ≡ Spec.unit_of period.now }
{
    named_unit(singular(period))
}

/// A period without one final `s` or `S`.
#[tactic(auto, using(crate::proofs::Relative::RelativeCounts::without_small, std::proofs::lemmas::Grind::common_steps, crate::proofs::Relative::RelativeCounts::without_other))]
fn singular(period: &str) -> &str
    ensures { result.now ≡ Spec.singular period.now }
{
    if period.ends_with('s') {
        return &period[..period.len() - 1];
    }
    if period.ends_with('S') {
        return &period[..period.len() - 1];
    }
    period
}

/// The unit of this name.
#[tactic(auto, unfolding(crate::specs::named_unit))]
fn named_unit(name: &str) -> Option<TimeUnit>
    ensures { result ≡ Spec.named_unit name.now }
{
    if name.eq_ignore_ascii_case("second") {
        Some(TimeUnit::Seconds(1))
    } else if name.eq_ignore_ascii_case("minute") {
        Some(TimeUnit::Seconds(i64::from(SECONDS_PER_MINUTE)))
    } else if name.eq_ignore_ascii_case("hour") {
        Some(TimeUnit::Seconds(i64::from(SECONDS_PER_HOUR)))
    } else if name.eq_ignore_ascii_case("day") {
        Some(TimeUnit::Seconds(SECONDS_PER_DAY))
    } else if name.eq_ignore_ascii_case("week") {
        Some(TimeUnit::Seconds(7 * SECONDS_PER_DAY))
    } else if name.eq_ignore_ascii_case("month") {
        Some(TimeUnit::Months(1))
    } else if name.eq_ignore_ascii_case("year") {
        Some(TimeUnit::Months(MONTHS_PER_YEAR))
    } else {
        None
    }
}

/// Whether a period names a unit.
#[tactic(auto, unfolding(crate::specs::has_unit))]
pub(crate) fn has_unit(period: &str) -> bool
    ensures { result ≡ Spec.has_unit period.now }
{
    unit_of(period).is_some()
}

/// Whether a word is `ago`, in any letter case.
pub(crate) fn is_ago(word: &str) -> bool
    ensures { result ≡ Spec.is_ago word.now }
{
    word.eq_ignore_ascii_case("ago")
}
