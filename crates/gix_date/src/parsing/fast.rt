//! Fast paths for usual headers and numbers. `None` means only that the text has another form.
ghost use Rattle.std.specs.Prelude.{◌≡◌, IfSome, Some, length};
ghost use Rattle.gix_date.specs as Spec;

use crate::parsing::numbers::{MAX_DIGITS, TEN_AND_ONE, fast_int};
use crate::parsing::offset::{OffsetFields, parse_offset_fields, sign_of};
use crate::time::{SecondsSinceUnixEpoch, Time};
use std::simd::prelude::*;

/// The bytes of a space and of an offset such as `+0800`.
pub(crate) const ZONE_BYTES: usize = 6;

/// The bytes of a header of ten digits.
const TEN_DIGIT_BYTES: usize = 16;

/// Which of them are its space and its sign, one bit each.
const SPACE_AND_SIGN: u64 = 0b1100_0000_0000;

/// The least bytes of a bare epoch.
const EPOCH_BYTES: usize = 9;

/// The time of a usual header: up to 18 bytes of digits, perhaps after a minus, one space, and an offset of four digits.
/// It is read in one pass, without a search for words.
#[tactic(auto, using(std::proofs::lemmas::Int::ints, crate::proofs::Fast::FastHeaders::plain_time, crate::proofs::Fields::FieldsTaken::time_at))]
pub(crate) fn fast_header(input: &str) -> Option<Time>
    ensures { IfSome result (λ t. Spec.header_time input.now ≡ Some t) }
{
    let (seconds, fields) = fast_fields(input)?;
    Some(Time::new(seconds, fields.in_seconds()))
}

/// The time of a header of ten digits and six bytes more. `None` means only that bytes have another form.
#[tactic(auto, using(std::proofs::lemmas::Int::ints, crate::proofs::Fast::FastHeaders::usual_line, crate::proofs::Fields::FieldsTaken::time_at))]
#[inline(always)]
pub fn usual_header_time(bytes: &[u8]) -> Option<Time>
    ensures { IfSome result (Spec.IsHeaderLine bytes.now) }
{
    let (seconds, fields) = ten_digit_fields(bytes)?;
    Some(Time::new(seconds, fields.in_seconds()))
}

/// The seconds and the offset's fields of a usual header. Nearly all have ten digits.
#[tactic(auto, using(std::proofs::lemmas::Int::ints, crate::proofs::Text::AsciiCuts::byte_end, crate::proofs::Fast::FastHeaders::by_places))]
#[inline(always)]
pub(crate) fn fast_fields(input: &str) -> Option<(SecondsSinceUnixEpoch, OffsetFields)>
    ensures { IfSome result (λ found. Spec.IsUsualHeader input.now found.0 found.1) }
{
    let bytes = input.as_bytes();
    if bytes.len() < ZONE_BYTES {
        return None;
    }
    let place = bytes.len() - ZONE_BYTES;
    if place > MAX_DIGITS {
        return None;
    }
    if bytes[place] != b' ' {
        return None;
    }
    if let Some(found) = ten_digit_fields(bytes) {
        return Some(found);
    }
    let seconds = fast_int(&bytes[..place])?;
    let fields = parse_offset_fields(false, &input[place + 1..])?;
    Some((seconds, fields))
}

/// The seconds and the offset's fields of a header of ten digits, one space, a sign and four digits.
#[tactic(auto, using(crate::proofs::Fast::TenDigits::ten_header, crate::proofs::Fast::TenDigits::hours_small, crate::proofs::Fast::TenDigits::minutes_small))]
#[inline(always)]
fn ten_digit_fields(bytes: &[u8]) -> Option<(SecondsSinceUnixEpoch, OffsetFields)>
    ensures { IfSome result (λ found. Spec.IsUsualHeader bytes.now found.0 found.1) }
{
    match bytes {
        [_, _, _, _, _, _, _, _, _, _, b' ', mark, _, _, _, _] => {
            let [a, b, c, d, e, _, hours, minutes] = pairs_but_one(bytes)?;
            let sign = sign_of(*mark)?;
            let high = 100 * (100 * u64::from(a) + u64::from(b)) + u64::from(c);
            let seconds = 100 * (100 * high + u64::from(d)) + u64::from(e);
            let fields = OffsetFields {
                sign,
                hours: hours as u8,
                minutes: minutes as u8,
                seconds: None,
            };
            Some((seconds as i64, fields))
        }
        _ => None,
    }
}

/// The numbers of the eight pairs of 16 bytes, if all but the sixth pair are digits, and that one is none.
#[tactic(auto, using(crate::proofs::Fast::Pairs::other_bits, std::proofs::lemmas::Bool::Decides::nat_tests, crate::proofs::Fast::TenDigits::pair_but_sixth))]
#[inline(always)]
fn pairs_but_one(bytes: &[u8]) -> Option<[u16; 8]>
    requires { length bytes.now ≡ TEN_DIGIT_BYTES }
    ensures { IfSome result (λ pairs. Spec.ArePairsButSixth bytes.now pairs) }
{
    let digits = u8x16::from_slice(bytes) - u8x16::splat(b'0');
    let others = digits.simd_ge(u8x16::splat(10)).to_bitmask();
    if others != SPACE_AND_SIGN {
        return None;
    }
    let sums = u16x8::from_le_bytes(digits) * u16x8::splat(TEN_AND_ONE);
    Some((sums >> u16x8::splat(8)).to_array())
}

/// The value of a usual epoch: digits, perhaps after a minus, of 9 to 18 bytes in all. Two bytes reject nearly all dates:
/// the first of the last six, and the ninth.
#[inline(always)]
pub(crate) fn fast_number(input: &str) -> Option<SecondsSinceUnixEpoch>
    ensures { IfSome result (λ n. Spec.int_value input.now ≡ Some n) }
{
    let bytes = input.as_bytes();
    if bytes.len() < EPOCH_BYTES || bytes.len() > MAX_DIGITS {
        return None;
    }
    if !bytes[bytes.len() - ZONE_BYTES].is_ascii_digit()
        || !bytes[EPOCH_BYTES - 1].is_ascii_digit()
    {
        return None;
    }
    fast_int(bytes)
}
