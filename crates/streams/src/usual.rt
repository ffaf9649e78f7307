//! Lines as nearly all are, at the front of bytes. `None` means only that the line has another form.
ghost use Rattle.std.specs.Prelude.{◌≡◌, ◌≤◌, ◌++◌, ◌∷◌, [], true, codes, length, IfSome, IsTrue};
ghost use Rattle.streams.specs as Spec;
ghost use Rattle.gix_date.specs as GixDate;

use crate::blocks::{DIGITS_BLOCK, leading_digits};
use gix_date::{Time, usual_header_time};
use std::str;

/// The most bytes of a line that is found: 16 digits and an offset.
pub const MAX_HEADER: usize = 22;

/// The bytes of a header of ten digits.
const TEN_DIGIT_HEADER: usize = 16;

/// The bytes after a first line that is a canonical header, and ends in a newline.
///
/// Only headers of at most 16 digits are found, the first no zero, and only where 16 bytes are left.
#[tactic(auto, using(crate::proofs::HeaderLines::header_is_line))]
#[inline(always)]
pub fn canonical_line(bytes: &[u8]) -> Option<&[u8]>
    ensures { IfSome result (λ after. Spec.BeginsWithHeader bytes.now after.now) }
{
    match after_header(bytes)? {
        [end, after @ ..] if *end == b'\n' => Some(after),
        _ => None,
    }
}

/// Whether bytes are a canonical header of the kind that [`canonical_line`] finds.
#[tactic(auto, using(crate::proofs::HeaderLines::header_is_all))]
#[inline(always)]
pub fn is_usual_header(bytes: &[u8]) -> bool
    ensures { IsTrue result → GixDate.is_canonical_header bytes.now ≡ true }
{
    matches!(after_header(bytes), Some([]))
}

/// The time of a first line that is a header of ten digits, and the bytes after its newline.
#[tactic(auto, using(crate::proofs::HeaderLines::time_is_line))]
#[inline(always)]
pub fn usual_line_time(bytes: &[u8]) -> Option<(Time, &[u8])>
    ensures { IfSome result (λ found. Spec.BeginsWithTime bytes.now found.0 found.1.now) }
{
    if bytes.len() < TEN_DIGIT_HEADER {
        return None;
    }
    let (line, rest) = bytes.split_at(TEN_DIGIT_HEADER);
    match rest {
        [end, after @ ..] if *end == b'\n' => Some((usual_header_time(line)?, after)),
        _ => None,
    }
}

/// The bytes after a canonical header in front.
#[inline(always)]
fn after_header(bytes: &[u8]) -> Option<&[u8]>
    ensures { IfSome result (λ after. Spec.HasHeaderInFront bytes.now after.now) }
{
    let (_, rest) = split_seconds(bytes)?;
    match rest {
        [blank, sign, a, b, c, d, after @ ..] if is_usual_offset(*blank, *sign, *a, *b, *c, *d) => {
            Some(after)
        }
        _ => None,
    }
}

/// The seconds of a first line that is a header of the unknown offset `-0000`, and the bytes after its newline.
///
/// Only headers that [`canonical_line`] would find with another offset are found.
#[inline(always)]
pub fn unknown_line(bytes: &[u8]) -> Option<(&str, &[u8])>
    ensures { IfSome result (λ found. Spec.BeginsWithUnknown bytes.now found.0.now found.1.now) }
{
    let (seconds, rest) = split_seconds(bytes)?;
    match rest {
        [blank, sign, a, b, c, d, end, after @ ..]
            if *end == b'\n' && is_unknown_offset(*blank, *sign, *a, *b, *c, *d) => {
            Some((unsafe { str::from_utf8_unchecked(seconds) }, after))
        }
        _ => None,
    }
}

/// The digits that bytes begin with, and the bytes after them, where they are the seconds of a usual header.
#[tactic(auto, using(crate::proofs::HeaderLines::few_are_seconds))]
#[inline(always)]
fn split_seconds(bytes: &[u8]) -> Option<(&[u8], &[u8])>
    ensures { IfSome result (λ cut. (bytes.now ≡ cut.0.now ++ cut.1.now) × (GixDate.are_usual_seconds cut.0.now ≡ true)
        × (length cut.0.now ≤ DIGITS_BLOCK)) }
{
    if bytes.len() < DIGITS_BLOCK {
        return None;
    }
    let (seconds, rest) = bytes.split_at(leading_digits(bytes));
    match seconds {
        [first, ..] if *first != b'0' => Some((seconds, rest)),
        _ => None,
    }
}

/// Whether these are a space, a sign, two digits of hours and two of minutes below 60, with hours where it is a minus.
#[inline(always)]
#[tactic(auto, unfolding(gix_date::specs::is_usual_offset))]
fn is_usual_offset(blank: u8, sign: u8, a: u8, b: u8, c: u8, d: u8) -> bool
    ensures { result ≡ GixDate.is_usual_offset (blank ∷ sign ∷ a ∷ b ∷ c ∷ d ∷ []) }
{
    blank == b' '
        && a.is_ascii_digit()
        && b.is_ascii_digit()
        && c.is_ascii_digit()
        && c < b'6'
        && d.is_ascii_digit()
        && (sign == b'+' || sign == b'-' && !(a == b'0' && b == b'0'))
}

/// Whether these are a space and `-0000`.
#[inline(always)]
fn is_unknown_offset(blank: u8, sign: u8, a: u8, b: u8, c: u8, d: u8) -> bool
    ensures { IsTrue result → blank ∷ sign ∷ a ∷ b ∷ c ∷ d ∷ [] ≡ codes " -0000" }
{
    blank == b' ' && sign == b'-' && a == b'0' && b == b'0' && c == b'0' && d == b'0'
}
