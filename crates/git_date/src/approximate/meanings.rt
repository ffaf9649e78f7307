//! What words say to the approximate reader.
ghost use Rattle.std.specs.Prelude.{◌≡◌};
ghost use Rattle.std.specs.List.{position};
ghost use Rattle.git_date.specs as Spec;
ghost use Rattle.gix_date.specs as GixDate;

use gix_date::names::{begins, is_name, month_of_word, weekday_of_word};
use gix_date::time::SECONDS_PER_DAY;

/// What a word says.
#[derive(Clone, Copy)]
pub(crate) enum Meaning {
    /// A month, from 1.
    Month(u8),
    /// So many seconds back: `now` and `yesterday`.
    Back(u32),
    /// The first instant of 1970: `never`.
    Never,
    /// A whole hour: `midnight`, `noon` and `tea`.
    Hour(u8),
    /// `AM`.
    Morning,
    /// `PM`.
    Afternoon,
    /// A number: `one` to `ten`, and `last`, which is one.
    Count(u8),
    /// What a number counts.
    Unit(Unit),
}

/// What a number counts.
#[derive(Clone, Copy)]
pub(crate) enum Unit {
    /// So many seconds.
    Seconds(u32),
    /// A day of the week, from 0 for Monday.
    Weekday(u8),
    /// So many months.
    Months(u32),
}

const NUMBERS: [&[u8]; 10] = [
    b"one", b"two", b"three", b"four", b"five", b"six", b"seven", b"eight", b"nine", b"ten",
];

/// What a word of a moment says.
#[tactic(auto, unfolding(crate::specs::moment_named))]
fn moment_named(word: &[u8]) -> Option<Meaning>
    ensures { result ≡ Spec.moment_named word.now }
{
    if is_name(word, b"now") {
        Some(Meaning::Back(0))
    } else if is_name(word, b"yesterday") {
        Some(Meaning::Back(SECONDS_PER_DAY as u32))
    } else if is_name(word, b"never") {
        Some(Meaning::Never)
    } else if is_name(word, b"midnight") {
        Some(Meaning::Hour(0))
    } else if is_name(word, b"noon") {
        Some(Meaning::Hour(12))
    } else if is_name(word, b"tea") {
        Some(Meaning::Hour(17))
    } else if is_name(word, b"AM") {
        Some(Meaning::Morning)
    } else if is_name(word, b"PM") {
        Some(Meaning::Afternoon)
    } else {
        None
    }
}

/// The place of the name that a word is.
fn place_of(word: &[u8], names: &[&[u8]]) -> Option<usize>
    ensures { result ≡ position (λ name. GixDate.is_name word.now name.now) names.now }
{
    names.iter().position(|name| is_name(word, name))
}

/// What `one` to `ten` and `last` count.
#[tactic(auto, unfolding(crate::specs::count_named))]
fn count_named(word: &[u8]) -> Option<u8>
    ensures { result ≡ Spec.count_named word.now }
{
    if is_name(word, b"last") {
        return Some(1);
    }
    let place = place_of(word, &NUMBERS)?;
    Some(place as u8 + 1)
}

/// Whether a word is a unit's name, or that without its last letter. Git knows no shorter ones: `mins` is none.
fn is_unit(word: &[u8], name: &[u8]) -> bool
    ensures { result ≡ Spec.is_unit word.now name.now }
{
    is_name(word, name) || (word.len() + 1 == name.len() && begins(word, name))
}

/// The unit that a word names.
#[tactic(auto, unfolding(crate::specs::unit_named))]
fn unit_named(word: &[u8]) -> Option<Unit>
    ensures { result ≡ Spec.unit_named word.now }
{
    if is_unit(word, b"seconds") {
        Some(Unit::Seconds(1))
    } else if is_unit(word, b"minutes") {
        Some(Unit::Seconds(60))
    } else if is_unit(word, b"hours") {
        Some(Unit::Seconds(3600))
    } else if is_unit(word, b"days") {
        Some(Unit::Seconds(SECONDS_PER_DAY as u32))
    } else if is_unit(word, b"weeks") {
        Some(Unit::Seconds(604_800))
    } else if is_unit(word, b"months") {
        Some(Unit::Months(1))
    } else if is_unit(word, b"years") {
        Some(Unit::Months(12))
    } else {
        None
    }
}

/// What a word says, if it is known. As in Git `today`, `tomorrow` and `next` are not.
#[tactic(auto, unfolding(crate::specs::meaning_of))]
pub(crate) fn meaning_of(word: &[u8]) -> Option<Meaning>
    ensures { result ≡ Spec.meaning_of word.now }
{
    if let Some(month) = month_of_word(word) {
        return Some(Meaning::Month(month));
    }
    if let Some(meaning) = moment_named(word) {
        return Some(meaning);
    }
    if let Some(n) = count_named(word) {
        return Some(Meaning::Count(n));
    }
    if let Some(day) = weekday_of_word(word) {
        return Some(Meaning::Unit(Unit::Weekday(day)));
    }
    Some(Meaning::Unit(unit_named(word)?))
}
