//! Numbers and digits.
//!
//! A `read_` function takes the front of a text, and gives the value and the rest; a `parse_` function takes a whole
//! text, or the bytes of one field.
ghost use Rattle.std.specs.Prelude.{◌≡◌, ◌<◌, ◌≤◌, ◌^◌, IfSome, Some, drop, length, take_while, true};
ghost use Rattle.std.specs.List.{prefix_len, list_all};
ghost use Rattle.std.specs.Char.{is_ascii_digit};
ghost use Rattle.std.specs.Str.{all_ascii_digits};
ghost use Rattle.std.specs.Str.Parse.{digits_value};
ghost use Rattle.gix_date.specs as Spec;

use std::simd::prelude::*;

/// The most digits that are read at once: an `i64` holds any so many.
pub(crate) const MAX_DIGITS: usize = 18;

/// The bytes of four pairs of digits.
const FOUR_PAIRS: usize = 8;

/// The weights of two digits in a lane of 16 bits: its upper byte becomes ten times the first and the second.
pub(crate) const TEN_AND_ONE: u16 = 10 * 256 + 1;

/// The value of an optional sign and digits, where an `i64` can hold it. Nearly all numbers are short.
#[tactic(auto, using(crate::proofs::Text::Ints::int_value_lem))]
pub(crate) fn parse_int(word: &str) -> Option<i64>
    ensures { result ≡ Spec.int_value word.now }
{
    if let Some(value) = fast_int(word.as_bytes()) {
        return Some(value);
    }
    word.parse::<i64>().ok()
}

/// The value of a short text of digits, with a minus or no sign.
#[tactic(auto, using(crate::proofs::Text::ShortDigits::minus_rest, std::proofs::lemmas::Int::ints, crate::proofs::Text::ShortDigits::bare_int))]
#[inline(always)]
pub(crate) fn fast_int(text: &[u8]) -> Option<i64>
    ensures { IfSome result (λ n. Spec.int_value text.now ≡ Some n) }
{
    match text {
        [b'-', digits @ ..] => Some(-(parse_short_digits(digits)? as i64)),
        _ => Some(parse_short_digits(text)? as i64),
    }
}

/// The value of a few digits. Nearly all times have ten.
#[inline(always)]
pub fn parse_short_digits(digits: &[u8]) -> Option<u64>
    ensures some { IfSome result (λ n. 0 < length digits.now) }
    ensures digits { IfSome result (λ n. all_ascii_digits digits.now ≡ true) }
    ensures value { IfSome result (λ n. n ≡ digits_value 10 digits.now) }
    ensures small { IfSome result (λ n. n < 10 ^ 18) }
{
    if let Some(value) = parse_ten_digits(digits) {
        return Some(value);
    }
    if digits.is_empty() || digits.len() > MAX_DIGITS {
        return None;
    }
    let mut value = 0;
    for digit in digits {
        if !digit.is_ascii_digit() {
            return None;
        }
        value = 10 * value + u64::from(*digit - b'0');
    }
    Some(value)
}

/// The value of ten digits, without a loop.
#[inline(always)]
pub fn parse_ten_digits(digits: &[u8]) -> Option<u64>
    ensures some { IfSome result (λ n. 0 < length digits.now) }
    ensures digits { IfSome result (λ n. all_ascii_digits digits.now ≡ true) }
    ensures value { IfSome result (λ n. n ≡ digits_value 10 digits.now) }
    ensures small { IfSome result (λ n. n < 10 ^ 18) }
{
    match digits {
        [_, _, _, _, _, _, _, _, tens, ones] => {
            let [a, b, c, d] = four_pairs(digits)?;
            let last = parse_two_digits(*tens, *ones)?;
            let high = 100 * (100 * u64::from(a) + u64::from(b)) + u64::from(c);
            Some(100 * (100 * high + u64::from(d)) + u64::from(last))
        }
        _ => None,
    }
}

/// The numbers of the first four pairs of digits.
#[tactic(auto, using(crate::proofs::Fast::Pairs::other_bits, std::proofs::lemmas::Bool::Decides::nat_tests, crate::proofs::Fast::Pairs::four_at))]
#[inline(always)]
fn four_pairs(bytes: &[u8]) -> Option<[u16; 4]>
    requires { FOUR_PAIRS ≤ length bytes.now }
    ensures { IfSome result (λ numbers. Spec.AreDigitPairs 4 bytes.now numbers) }
{
    let digits = u8x8::from_slice(bytes) - u8x8::splat(b'0');
    if digits.simd_ge(u8x8::splat(10)).to_bitmask() != 0 {
        return None;
    }
    let sums = u16x4::from_le_bytes(digits) * u16x4::splat(TEN_AND_ONE);
    Some((sums >> u16x4::splat(8)).to_array())
}

/// Whether bytes are digits alone, or there are none.
#[inline(always)]
pub(crate) fn are_digits(bytes: &[u8]) -> bool
    ensures { result ≡ list_all is_ascii_digit bytes.now }
{
    bytes.iter().all(|b| b.is_ascii_digit())
}

/// The digits that a word begins with.
#[tactic(auto, using(crate::proofs::Text::AsciiCuts::digits_end))]
pub(crate) fn leading_digits(word: &str) -> &str
    ensures { result.now ≡ take_while is_ascii_digit word.now }
{
    &word[..leading_digits_len(word)]
}

/// What stands after the digits that a text begins with.
#[tactic(auto, using(crate::proofs::Text::AsciiCuts::digits_end))]
pub(crate) fn skip_digits(text: &str) -> &str
    ensures { result.now ≡ drop (prefix_len is_ascii_digit text.now) text.now }
{
    &text[leading_digits_len(text)..]
}

fn leading_digits_len(word: &str) -> usize
    ensures { result ≡ prefix_len is_ascii_digit word.now }
{
    word.bytes().take_while(|b| b.is_ascii_digit()).count()
}

/// The number that two digits write.
#[inline(always)]
pub(crate) fn parse_two_digits(tens: u8, ones: u8) -> Option<u8>
    ensures value { result ≡ Spec.two_digit_value tens ones }
    ensures small { IfSome result (λ n. n < 100) }
{
    if tens.is_ascii_digit() && ones.is_ascii_digit() {
        Some(10 * (tens - b'0') + (ones - b'0'))
    } else {
        None
    }
}

/// The number that two digits at the front write.
#[tactic(auto, using(crate::proofs::Text::AsciiCuts::cut_pair), unfolding(crate::specs::read_two_digits))]
#[inline(always)]
pub(crate) fn read_two_digits(text: &str) -> Option<(u8, &str)>
    ensures value { Spec.read_view result ≡ Spec.read_two_digits text.now }
    ensures small { IfSome result (λ found. found.0 < 100) }
{
    match text.as_bytes() {
        [tens, ones, ..] => {
            let value = parse_two_digits(*tens, *ones)?;
            Some((value, &text[2..]))
        }
        _ => None,
    }
}

/// The number that two digits at the front write, or else one.
#[tactic(auto, using(crate::proofs::Text::AsciiCuts::first_end, crate::proofs::Text::AsciiCuts::digit_is_ascii), unfolding(crate::specs::read_field, crate::specs::read_digit))]
#[inline(always)]
pub(crate) fn read_field(text: &str) -> Option<(u8, &str)>
    ensures value { Spec.read_view result ≡ Spec.read_field text.now }
    ensures small { IfSome result (λ found. found.0 < 100) }
{
    if let Some(found) = read_two_digits(text) {
        return Some(found);
    }
    match text.as_bytes() {
        [digit, ..] if digit.is_ascii_digit() => Some((digit - b'0', &text[1..])),
        _ => None,
    }
}

/// The number that four digits at the front write.
#[tactic(auto, unfolding(crate::specs::read_year))]
#[inline(always)]
pub(crate) fn read_year(text: &str) -> Option<(u16, &str)>
    ensures value { Spec.read_view result ≡ Spec.read_year text.now }
    ensures small { IfSome result (λ found. found.0 ≤ 9999) }
{
    let (century, rest) = read_two_digits(text)?;
    let (year, rest) = read_two_digits(rest)?;
    Some((100 * u16::from(century) + u16::from(year), rest))
}
