//! The fields of formatted dates.
ghost use Rattle.std.specs.Prelude.{◌≡◌, ◌<◌, IfSome, [], ◌∷◌, true, is_some, if◌then◌else◌, option_copied};
ghost use Rattle.std.specs.List.{prefix_len};
ghost use Rattle.gix_date.specs as Spec;

use crate::clock::{ClockFields, DateFields};
use crate::names::{month_of_word, weekday_of_word};
use crate::parsing::fields::{read_colon_clock, read_marked_date, skip_char};
use crate::parsing::numbers::{read_field, read_year};
use crate::time::MAX_SECOND;

/// What stands after one space or more. Nearly all texts have one.
#[tactic(auto, using(crate::proofs::Text::AsciiCuts::first_end), unfolding(crate::specs::skip_spaces))]
#[inline(always)]
pub(crate) fn skip_spaces(text: &str) -> Option<&str>
    ensures { option_copied result ≡ Spec.skip_spaces text.now }
{
    match text.as_bytes() {
        [b' ', next, ..] if *next != b' ' => Some(&text[1..]),
        _ => skip_any_spaces(text),
    }
}

/// [`skip_spaces`] for any number of spaces.
#[tactic(auto, using(crate::proofs::Text::AsciiCuts::spaces_end), unfolding(crate::specs::skip_spaces))]
fn skip_any_spaces(text: &str) -> Option<&str>
    ensures { option_copied result ≡ Spec.skip_spaces text.now }
{
    let len = spaces_len(text);
    if len == 0 {
        return None;
    }
    Some(&text[len..])
}

#[inline(always)]
fn spaces_len(text: &str) -> usize
    ensures { result ≡ prefix_len Spec.is_space text.now }
{
    text.bytes().take_while(|b| *b == b' ').count()
}

/// The month that three letters name, in any letter case.
#[tactic(auto, using(crate::proofs::Fields::ThreeLetters::months_of_words))]
#[inline(always)]
fn month_named(a: u8, b: u8, c: u8) -> Option<u8>
    ensures value { result ≡ Spec.month_named (a ∷ b ∷ c ∷ []) }
    ensures small { IfSome result (λ month. month < 100) }
    ensures letters { is_some result ≡ true → Spec.AreThreeLetters (a ∷ b ∷ c ∷ []) }
{
    month_of_word(&[a, b, c])
}

/// Whether three letters name a day of the week, in any letter case.
#[tactic(auto, using(crate::proofs::Fields::ThreeLetters::weekday_is, crate::proofs::Fields::ThreeLetters::day_has_letters), unfolding(crate::specs::is_weekday))]
#[inline(always)]
fn is_weekday(a: u8, b: u8, c: u8) -> bool
    ensures value { result ≡ Spec.is_weekday (a ∷ b ∷ c ∷ []) }
    ensures letters { result ≡ true → Spec.AreThreeLetters (a ∷ b ∷ c ∷ []) }
{
    weekday_of_word(&[a, b, c]).is_some()
}

/// A month's name at the front.
#[tactic(auto, using(crate::proofs::Fields::NamesRead::cut_three, crate::proofs::Fields::NamesRead::month_of_letters, crate::proofs::Fields::NamesRead::no_month_of, crate::proofs::Fields::NamesRead::short_no_month))]
#[inline(always)]
pub(crate) fn read_month(text: &str) -> Option<(u8, &str)>
    ensures value { Spec.read_view result ≡ Spec.read_month text.now }
    ensures small { IfSome result (λ found. found.0 < 100) }
{
    match text.as_bytes() {
        [a, b, c, ..] => {
            let month = month_named(*a, *b, *c)?;
            Some((month, &text[3..]))
        }
        _ => None,
    }
}

/// What stands after the name of a day of the week, whichever it is: it is not compared with the date.
#[tactic(auto, using(crate::proofs::Fields::NamesRead::cut_three, crate::proofs::Fields::NamesRead::day_of_letters, crate::proofs::Fields::NamesRead::no_day_of, crate::proofs::Fields::NamesRead::short_no_day), unfolding(crate::specs::skip_weekday))]
#[inline(always)]
pub(crate) fn skip_weekday(text: &str) -> Option<&str>
    ensures { option_copied result ≡ Spec.skip_weekday text.now }
{
    match text.as_bytes() {
        [a, b, c, ..] => {
            if is_weekday(*a, *b, *c) {
                Some(&text[3..])
            } else {
                None
            }
        }
        _ => None,
    }
}

/// A year of four digits, and a month and a day of one or two, nearly always two, with `-` between them.
#[tactic(auto, unfolding(crate::specs::computing))]
#[inline(always)]
pub(crate) fn read_plain_date(text: &str) -> Option<(DateFields, &str)>
    ensures value { Spec.read_view result ≡ Spec.read_plain_date text.now }
    ensures fits { IfSome result (λ found. Spec.DateFits found.0) }
{
    if let Some(found) = read_marked_date('-', text) {
        return Some(found);
    }
    let (year, rest) = read_year(text)?;
    let rest = skip_char('-', rest)?;
    let (month, rest) = read_field(rest)?;
    let rest = skip_char('-', rest)?;
    let (day, rest) = read_field(rest)?;
    Some((DateFields { year, month, day }, rest))
}

/// A second after an hour and a minute, where 60 is read as 59.
#[tactic(auto, unfolding(crate::specs::read_second))]
#[inline(always)]
fn read_second(clock: ClockFields, text: &str) -> Option<(ClockFields, &str)>
    requires { Spec.ClockFits clock }
    ensures value { Spec.read_view result ≡ Spec.read_second clock text.now }
    ensures fits { IfSome result (λ found. Spec.ClockFits found.0) }
{
    let rest = skip_char(':', text)?;
    let (second, rest) = read_field(rest)?;
    let second = without_leap_second(second);
    Some((ClockFields { second, ..clock }, rest))
}

/// A second, which is 59 where it is 60.
#[inline(always)]
fn without_leap_second(second: u8) -> u8
    requires { second < 100 }
    ensures value { result ≡ Spec.without_leap_second second }
    ensures small { result < 100 }
{
    if second == 60 { MAX_SECOND } else { second }
}

/// An hour, a minute and a second, nearly always of two digits each. In RFC 2822 the second may be left out.
#[tactic(auto, unfolding(crate::specs::computing, crate::specs::read_colon_clock))]
#[inline(always)]
pub(crate) fn read_clock(is_rfc2822: bool, text: &str) -> Option<(ClockFields, &str)>
    ensures value { Spec.read_view result ≡ (if is_rfc2822 then Spec.read_rfc2822_clock text.now else Spec.read_clock text.now) }
    ensures fits { IfSome result (λ found. Spec.ClockFits found.0) }
{
    if let Some((clock, rest)) = read_colon_clock(text) {
        let second = without_leap_second(clock.second);
        return Some((ClockFields { second, ..clock }, rest));
    }
    let (hour, rest) = read_field(text)?;
    let (minute, rest) = read_field(skip_char(':', rest)?)?;
    let second = 0;
    let clock = ClockFields {
        hour,
        minute,
        second,
    };
    match read_second(clock, rest) {
        None if is_rfc2822 => Some((clock, rest)),
        found => found,
    }
}
