//! Parts of lines, in which no bracket, newline or NUL stands, and how a line is cut at them.
ghost use Rattle.std.specs.Prelude.{◌≡◌, ◌≢◌, ◌≤◌, ◌+◌, ◌∷◌, ◌++◌, ◌==◌, [], if◌then◌else◌, ℕ, List, true, false, length, drop};
ghost use Rattle.std.specs.Prelude.{MatchOption};
ghost use Rattle.std.specs.List.{prefix_len};
ghost use Rattle.gix_signature.specs as Spec;
ghost use Rattle.gix_date.specs as GixDate;

use crate::ident::written::after;
use std::simd::prelude::*;

/// How many bytes a block has in which a part's end is looked for at once: a usual time is as long.
const BLOCK: usize = 16;

/// Whether a text may be a part of a line.
pub(crate) fn is_part(text: &[u8]) -> bool
    ensures { result ≡ Spec.is_part text.now }
{
    part_len(text) == text.len()
}

/// Whether a byte may stand in a part of a line.
fn is_allowed(byte: u8) -> bool
    ensures { result ≡ Spec.is_allowed byte }
{
    !matches!(byte, b'<' | b'>' | b'\n' | b'\0')
}

/// A part at the front of a text, and what stands after it and this byte, which stands in no part.
#[tactic(auto, using(crate::proofs::Runs::cut_is))]
pub(crate) fn cut_part(text: &[u8], byte: u8) -> Option<(&[u8], &[u8])>
    requires { Spec.is_allowed byte ≡ false }
    ensures { MatchOption result ((part rest : List ℕ) → Spec.is_part part ≡ true → text.now ≢ part ++ (byte ∷ rest))
        (λ cut. (text.now ≡ cut.0.now ++ (byte ∷ cut.1.now)) × (Spec.is_part cut.0.now ≡ true)) }
{
    let (part, rest) = text.split_at(part_len(text));
    let more = after(rest, &[byte])?;
    Some((part, more))
}

/// What stands before a space at the end of a text.
pub(crate) fn before_last_space(text: &[u8]) -> Option<&[u8]>
    ensures { MatchOption result ((name : List ℕ) → text.now ≢ name ++ (GixDate.space ∷ []))
        (λ name. text.now ≡ name.now ++ (GixDate.space ∷ [])) }
{
    let (last, name) = text.split_last()?;
    if *last == b' ' { Some(name) } else { None }
}

/// How many bytes a text begins with that may stand in a part.
fn part_len(text: &[u8]) -> usize
    ensures value { result ≡ prefix_len Spec.is_allowed text.now }
    ensures within { result ≤ length text.now }
{
    let mut len = 0;
    let mut rest = text;
    while rest.len() >= BLOCK {
        let near = near_len(rest);
        len += near;
        if near < BLOCK {
            return len;
        }
        rest = rest.split_at(BLOCK).1;
    }
    len + short_len(rest)
}

/// The same, byte by byte.
fn short_len(text: &[u8]) -> usize
    ensures value { result ≡ prefix_len Spec.is_allowed text.now }
    ensures within { result ≤ length text.now }
{
    text.iter().take_while(|b| is_allowed(**b)).count()
}

/// How many bytes of the first block stand before one that may stand in no part.
#[inline(always)]
fn near_len(text: &[u8]) -> usize
    requires { BLOCK ≤ length text.now }
    ensures { (prefix_len Spec.is_allowed text.now
        ≡ result + (if result == BLOCK then prefix_len Spec.is_allowed (drop BLOCK text.now) else 0)) × (result ≤ BLOCK) }
{
    let block = u8x16::from_slice(text);
    let brackets = block.simd_eq(u8x16::splat(b'<')) | block.simd_eq(u8x16::splat(b'>'));
    let ends = brackets | block.simd_eq(u8x16::splat(b'\n')) | block.simd_eq(u8x16::splat(b'\0'));
    let places = ends.to_bitmask();
    if places == 0 {
        return BLOCK;
    }
    places.trailing_zeros() as usize
}
