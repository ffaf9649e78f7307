//! Bytes that may be text.
ghost use Rattle.std.specs.Prelude.{◌≡◌, ◌<◌, ◌≤◌, ◌+◌, length, take, IsTrue, MatchOption};
ghost use Rattle.std.specs.Str.{IsAscii, IsUtf8};

use std::simd::prelude::*;
use std::str;

/// The text that the bytes are, `None` iff they are not UTF-8 as RFC 3629 defines it: what `str::from_utf8` of the Rust
/// standard library gives, without its error.
///
/// The text is the bytes, borrowed, so no call takes memory.
#[tactic(auto, using(crate::proofs::Text::AsciiCuts::ascii_is_utf8))]
pub fn text_of(bytes: &[u8]) -> Option<&str>
    ensures { MatchOption result (¬ (IsUtf8 bytes.now)) (λ text. (text.now ≡ bytes.now) × IsUtf8 bytes.now) }
{
    // Nearly all texts are ASCII: `from_utf8` takes 54 instructions more for a header, and 71 for a mail date.
    if fast_ascii(bytes) {
        return Some(unsafe { str::from_utf8_unchecked(bytes) });
    }
    str::from_utf8(bytes).ok()
}

/// Whether four to 128 bytes are ASCII. Of others it says no.
#[inline(always)]
fn fast_ascii(bytes: &[u8]) -> bool
    ensures { IsTrue result → IsAscii bytes.now }
{
    let count = bytes.len();
    if count <= 8 {
        count >= 4 && ends_are_ascii::<4>(bytes)
    } else if count <= 16 {
        ends_are_ascii::<8>(bytes)
    } else if count <= 32 {
        ends_are_ascii::<16>(bytes)
    } else if count <= 64 {
        ends_are_ascii::<32>(bytes)
    } else {
        count <= 128 && ends_are_ascii::<64>(bytes)
    }
}

/// Whether the first N bytes and the last N are ASCII. They cover the bytes.
#[inline(always)]
fn ends_are_ascii<const N: usize>(bytes: &[u8]) -> bool
    requires { (0 < N) × (N ≤ 64) × (N ≤ length bytes.now) × (length bytes.now ≤ N + N) }
    ensures { IsTrue result → IsAscii bytes.now }
{
    is_ascii::<N>(bytes) & is_ascii::<N>(&bytes[bytes.len() - N..])
}

/// Whether the first N bytes are ASCII.
#[tactic(auto, using(crate::proofs::Text::AsciiBlocks::block_is_ascii))]
#[inline(always)]
fn is_ascii<const N: usize>(bytes: &[u8]) -> bool
    requires { (0 < N) × (N ≤ 64) × (N ≤ length bytes.now) }
    ensures { IsTrue result → IsAscii (take N bytes.now) }
{
    let block = Simd::<u8, N>::from_slice(bytes);
    block.simd_ge(Simd::splat(0x80)).to_bitmask() == 0
}
