//! The pieces of dates, each appended to a buffer of any capacity.
ghost use Rattle.std.specs.Str.{IsAscii};
ghost use Rattle.std.specs.Prelude.{◌≡◌, ◌+◌, ◌≤◌, ◌<◌, ◌^◌, ◌∷◌, ◌++◌, [], decimal, length, unsigned_abs, Some, IfSome};
ghost use Rattle.arrayvec.specs.ArrayString.{array_string_len};
ghost use Rattle.gix_date.specs as Spec;

use crate::clock::Clock;
use crate::names::{day_name, month_name};
use crate::time::{HUNDRED_HOURS, OffsetInSeconds, SECONDS_PER_HOUR, SECONDS_PER_MINUTE, Time};
use arrayvec::ArrayString;
use std::simd::prelude::*;
use std::str;

/// The two digits of each number below 100.
const PAIRS: &str =
    "00010203040506070809101112131415161718192021222324252627282930313233343536373839404142434445464748495051525354555657585960616263646566676869707172737475767778798081828384858687888990919293949596979899";

/// The two digits of a number below 100. They are copied by value, here and below: so the compiler keeps them in
/// registers, and copies them to the text at once.
#[tactic(auto, using(crate::proofs::Printing::Pairs::pair_of_digits))]
#[inline(always)]
fn two_digits(n: u8) -> [u8; 2]
    requires { n < 100 }
    ensures { result ≡ Spec.two_digits n }
{
    let place = 2 * usize::from(n);
    let pairs = PAIRS.as_bytes();
    [pairs[place], pairs[place + 1]]
}

/// The three letters of a name.
#[inline(always)]
pub(crate) fn letters(name: &str) -> [u8; 3]
    requires { length name.now ≡ 3 }
    ensures { result ≡ name.now }
{
    let bytes = name.as_bytes();
    [bytes[0], bytes[1], bytes[2]]
}

/// Appends bytes of ASCII.
#[inline(always)]
#[tactic(auto, using(crate::proofs::Text::AsciiCuts::ascii_is_utf8))]
pub(crate) fn push_ascii<const CAP: usize>(text: &mut ArrayString<CAP>, bytes: &[u8])
    requires ascii { IsAscii bytes.now }
    requires room { array_string_len text.old + length bytes.now ≤ CAP }
    ensures bytes { text.new.bytes ≡ text.old.bytes ++ bytes.now }
    ensures len { array_string_len text.new ≡ array_string_len text.old + length bytes.now }
{
    text.push_str(unsafe { str::from_utf8_unchecked(bytes) });
}

/// Appends the two digits of a number below 100.
#[inline(always)]
pub fn push_two_digits<const CAP: usize>(text: &mut ArrayString<CAP>, n: u8)
    requires { array_string_len text.old + 2 ≤ CAP }
    ensures bytes { text.new.bytes ≡ text.old.bytes ++ Spec.two_digits n }
    ensures len { array_string_len text.new ≡ array_string_len text.old + 2 }
{
    if n < 100 {
        push_pair(text, n);
    } else {
        text.push(char::from(b'0' + n / 10));
        text.push(char::from(b'0' + n % 10));
    }
}

/// Appends two digits from the table.
#[inline(always)]
pub(crate) fn push_pair<const CAP: usize>(text: &mut ArrayString<CAP>, n: u8)
    requires small { n < 100 }
    requires room { array_string_len text.old + 2 ≤ CAP }
    ensures bytes { text.new.bytes ≡ text.old.bytes ++ Spec.two_digits n }
    ensures len { array_string_len text.new ≡ array_string_len text.old + 2 }
{
    push_ascii(text, &two_digits(n));
}

/// The four digits of a number below 10000.
#[inline(always)]
fn four_digits(n: u16) -> [u8; 4]
    requires { n ≤ 9999 }
    ensures { result ≡ Spec.four_digits n }
{
    let [a, b] = two_digits((n / 100) as u8);
    let [c, d] = two_digits((n % 100) as u8);
    [a, b, c, d]
}

/// A text like `0000000000 +0000`: of ten digits, with more than a plus as its sign, and the hours and minutes of a distance. Its eight
/// pairs are made at once: in 16 bits each is its tens and 256 times its ones, and its bytes are added to those of zero.
#[inline(always)]
fn header_bytes(n: u64, more: u16, distance: u32) -> [u8; 16]
    requires digits { n < 10 ^ 10 }
    requires sign { more < 10 }
    requires hours { distance < Spec.hundred_hours }
    ensures { result ≡ Spec.ten_digits n ++ (Spec.space ∷ (Spec.plus + more) ∷ Spec.hours_and_minutes distance) }
{
    let low = (n % 100_000_000) as u32;
    let pairs = u16x8::from_array([
        (n / 100_000_000) as u16,
        (low / 10_000 / 100) as u16,
        (low / 10_000 % 100) as u16,
        (low % 10_000 / 100) as u16,
        (low % 10_000 % 100) as u16,
        more,
        (distance / SECONDS_PER_HOUR as u32) as u16,
        (distance % SECONDS_PER_HOUR as u32 / SECONDS_PER_MINUTE as u32) as u16,
    ]);
    let tens = (pairs * u16x8::splat(103)) >> u16x8::splat(10);
    let digits = pairs * u16x8::splat(256) - tens * u16x8::splat(2559);
    (digits.to_le_bytes() + u8x16::from_slice(b"0000000000 +0000")).to_array()
}

/// The header text of a time as nearly all are: its seconds have ten digits.
#[tactic(auto, using(crate::proofs::Fast::WrittenHeaders::ten_text, crate::proofs::Fast::WrittenHeaders::ten_ascii))]
#[inline(always)]
pub fn usual_header_text(time: Time) -> Option<[u8; 16]>
    ensures text { IfSome result (λ text. Spec.header_text time ≡ Some text) }
    ensures ascii { IfSome result (λ text. IsAscii text) }
{
    let distance = time.offset.unsigned_abs();
    if time.seconds < 1_000_000_000 || time.seconds > 9_999_999_999 || distance >= HUNDRED_HOURS {
        return None;
    }
    let more = if time.offset < 0 { b'-' - b'+' } else { 0 };
    Some(header_bytes(time.seconds as u64, u16::from(more), distance))
}

/// `YYYY-MM-DD` of a clock.
#[inline(always)]
fn date_bytes(t: Clock) -> [u8; 10]
    ensures { result ≡ Spec.date_text t.date }
{
    let [a, b, c, d] = four_digits(t.year());
    let [e, f] = two_digits(t.month());
    let [g, h] = two_digits(t.day());
    [a, b, c, d, b'-', e, f, b'-', g, h]
}

/// `hh:mm:ss` of a clock.
#[inline(always)]
pub(crate) fn clock_bytes(t: Clock) -> [u8; 8]
    ensures { result ≡ Spec.clock_text t.clock }
{
    let [a, b] = two_digits(t.hour());
    let [c, d] = two_digits(t.minute());
    let [e, f] = two_digits(t.second());
    [a, b, b':', c, d, b':', e, f]
}

/// Appends the four digits of the year.
#[inline(always)]
pub fn push_year<const CAP: usize>(text: &mut ArrayString<CAP>, t: Clock)
    requires { array_string_len text.old + 4 ≤ CAP }
    ensures bytes { text.new.bytes ≡ text.old.bytes ++ Spec.four_digits t.date.year }
    ensures len { array_string_len text.new ≡ array_string_len text.old + 4 }
{
    push_ascii(text, &four_digits(t.year()));
}

/// Appends the day of the month, with no zero before it.
#[tactic(auto, using(crate::proofs::Printing::ShownTexts::day_of_one, crate::proofs::Printing::ShownTexts::day_of_two))]
#[inline(always)]
pub fn push_day<const CAP: usize>(text: &mut ArrayString<CAP>, t: Clock)
    requires { array_string_len text.old + 2 ≤ CAP }
    ensures bytes { text.new.bytes ≡ text.old.bytes ++ decimal t.date.day }
    ensures len { array_string_len text.new ≤ array_string_len text.old + 2 }
{
    let day = t.day();
    if day < 10 {
        text.push(char::from(b'0' + day));
    } else {
        push_pair(text, day);
    }
}

/// Appends the day of the month, after a space in place of a zero.
#[tactic(auto, using(std::proofs::lemmas::Bool::Decides::nat_tests))]
#[inline(always)]
pub fn push_spaced_day<const CAP: usize>(text: &mut ArrayString<CAP>, t: Clock)
    requires { array_string_len text.old + 2 ≤ CAP }
    ensures bytes { text.new.bytes ≡ text.old.bytes ++ Spec.spaced_day t.date.day }
    ensures len { array_string_len text.new ≡ array_string_len text.old + 2 }
{
    let day = t.day();
    if day < 10 {
        push_ascii(text, &[b' ', b'0' + day]);
    } else {
        push_pair(text, day);
    }
}

/// Appends `Www `.
#[inline(always)]
pub fn push_weekday<const CAP: usize>(text: &mut ArrayString<CAP>, t: Clock)
    requires { array_string_len text.old + 4 ≤ CAP }
    ensures bytes { text.new.bytes ≡ text.old.bytes ++ (Spec.day_name t.weekday ++ (Spec.space ∷ [])) }
    ensures len { array_string_len text.new ≡ array_string_len text.old + 4 }
{
    let [a, b, c] = letters(day_name(t.weekday()));
    push_ascii(text, &[a, b, c, b' ']);
}

/// Appends `Mmm `.
#[inline(always)]
pub fn push_month<const CAP: usize>(text: &mut ArrayString<CAP>, t: Clock)
    requires { array_string_len text.old + 4 ≤ CAP }
    ensures bytes { text.new.bytes ≡ text.old.bytes ++ (Spec.month_name t.date.month ++ (Spec.space ∷ [])) }
    ensures len { array_string_len text.new ≡ array_string_len text.old + 4 }
{
    let [a, b, c] = letters(month_name(t.month()));
    push_ascii(text, &[a, b, c, b' ']);
}

/// Appends `YYYY-MM-DD`.
#[inline(always)]
pub fn push_date<const CAP: usize>(text: &mut ArrayString<CAP>, t: Clock)
    requires { array_string_len text.old + 10 ≤ CAP }
    ensures bytes { text.new.bytes ≡ text.old.bytes ++ Spec.date_text t.date }
    ensures len { array_string_len text.new ≡ array_string_len text.old + 10 }
{
    push_ascii(text, &date_bytes(t));
}

/// Appends `hh:mm:ss`.
#[inline(always)]
pub fn push_clock<const CAP: usize>(text: &mut ArrayString<CAP>, t: Clock)
    requires { array_string_len text.old + 8 ≤ CAP }
    ensures bytes { text.new.bytes ≡ text.old.bytes ++ Spec.clock_text t.clock }
    ensures len { array_string_len text.new ≡ array_string_len text.old + 8 }
{
    push_ascii(text, &clock_bytes(t));
}

/// Appends the sign of an offset and two digits of its whole hours.
#[inline(always)]
pub fn push_hours<const CAP: usize>(text: &mut ArrayString<CAP>, offset: OffsetInSeconds)
    requires short { unsigned_abs offset < Spec.hundred_hours }
    requires room { array_string_len text.old + 3 ≤ CAP }
    ensures bytes { text.new.bytes
        ≡ text.old.bytes ++ Spec.offset_sign offset ∷ Spec.two_digits (Spec.hours_in (unsigned_abs offset)) }
    ensures len { array_string_len text.new ≡ array_string_len text.old + 3 }
{
    let hours = offset.unsigned_abs() / SECONDS_PER_HOUR as u32;
    text.push(if offset < 0 { '-' } else { '+' });
    push_pair(text, hours as u8);
}

/// Appends two digits of the whole minutes that remain.
#[inline(always)]
pub fn push_minutes<const CAP: usize>(text: &mut ArrayString<CAP>, offset: OffsetInSeconds)
    requires { array_string_len text.old + 2 ≤ CAP }
    ensures bytes { text.new.bytes ≡ text.old.bytes ++ Spec.two_digits (Spec.minutes_in (unsigned_abs offset)) }
    ensures len { array_string_len text.new ≡ array_string_len text.old + 2 }
{
    let minutes = offset.unsigned_abs() % SECONDS_PER_HOUR as u32 / SECONDS_PER_MINUTE as u32;
    push_pair(text, minutes as u8);
}

/// ` +hhmm` of an offset.
#[inline(always)]
fn offset_bytes(offset: OffsetInSeconds) -> [u8; 6]
    requires { unsigned_abs offset < Spec.hundred_hours }
    ensures { result ≡ Spec.space ∷ Spec.compact_offset_text offset }
{
    let distance = offset.unsigned_abs();
    let [a, b] = two_digits((distance / SECONDS_PER_HOUR as u32) as u8);
    let [c, d] = two_digits((distance % SECONDS_PER_HOUR as u32 / SECONDS_PER_MINUTE as u32) as u8);
    let sign = if offset < 0 { b'-' } else { b'+' };
    [b' ', sign, a, b, c, d]
}

/// Appends ` +hhmm`.
#[inline(always)]
pub fn push_offset<const CAP: usize>(text: &mut ArrayString<CAP>, offset: OffsetInSeconds)
    requires short { unsigned_abs offset < Spec.hundred_hours }
    requires room { array_string_len text.old + 6 ≤ CAP }
    ensures bytes { text.new.bytes ≡ text.old.bytes ++ Spec.space ∷ Spec.compact_offset_text offset }
    ensures len { array_string_len text.new ≡ array_string_len text.old + 6 }
{
    push_ascii(text, &offset_bytes(offset));
}

/// Appends `+hh:mm`.
#[inline(always)]
pub fn push_colon_offset<const CAP: usize>(text: &mut ArrayString<CAP>, t: Clock)
    requires { array_string_len text.old + 6 ≤ CAP }
    ensures bytes { text.new.bytes ≡ text.old.bytes ++ Spec.strict_offset_text t.offset }
    ensures len { array_string_len text.new ≡ array_string_len text.old + 6 }
{
    push_hours(text, t.offset());
    text.push(':');
    push_minutes(text, t.offset());
}
