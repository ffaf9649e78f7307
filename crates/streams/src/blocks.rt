//! Searches of a block of bytes, all at once.
ghost use Rattle.std.specs.Prelude.{◌≡◌, ◌≤◌, true, length, take};
ghost use Rattle.std.specs.Char.{is_ascii_digit};
ghost use Rattle.std.specs.List.{list_all};
ghost use Rattle.memchr.specs.Find.{IsFirstByte, is_byte};
ghost use Rattle.gix_date.specs as GixDate;

use memchr::memchr;
use std::simd::prelude::*;

/// The bytes among which digits are looked for.
pub(crate) const DIGITS_BLOCK: usize = 16;

/// The bytes among which a newline is looked for first: most lines are shorter.
const LINE_BLOCK: usize = 32;

/// How many digits the first block begins with.
#[tactic(auto, using(crate::proofs::ByteBlocks::digits_alone, crate::proofs::ByteBlocks::digits_few, crate::proofs::ByteBlocks::digits_before))]
#[inline(always)]
pub(crate) fn leading_digits(bytes: &[u8]) -> usize
    requires { DIGITS_BLOCK ≤ length bytes.now }
    ensures few { result ≤ DIGITS_BLOCK }
    ensures digits { list_all is_ascii_digit (take result bytes.now) ≡ true }
{
    let block = u8x16::from_slice(bytes);
    let others = (block - u8x16::splat(b'0'))
        .simd_ge(u8x16::splat(10))
        .to_bitmask();
    if others == 0 {
        return DIGITS_BLOCK;
    }
    others.trailing_zeros() as usize
}

/// The place of the first newline.
#[tactic(auto, using(crate::proofs::ByteBlocks::first_newline))]
#[inline(always)]
pub(crate) fn newline_at(bytes: &[u8]) -> Option<usize>
    ensures { IsFirstByte (is_byte GixDate.newline) bytes.now result }
{
    if bytes.len() >= LINE_BLOCK {
        let block = u8x32::from_slice(bytes);
        let newlines = block.simd_eq(u8x32::splat(b'\n')).to_bitmask();
        if newlines != 0 {
            return Some(newlines.trailing_zeros() as usize);
        }
    }
    memchr(b'\n', bytes)
}
