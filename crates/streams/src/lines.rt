//! The lines of bytes: each ends at a newline, which the last may lack.
ghost use Rattle.std.specs.Prelude.{◌≡◌, ◌++◌, ◌∷◌, MatchOption, option_map};
ghost use Rattle.streams.specs as Spec;
ghost use Rattle.gix_date.specs as GixDate;

use crate::blocks::newline_at;

/// The most bytes that a line has, without its newline.
pub const MAX_LINE_LEN: usize = 65536;

/// An input has one way to be split into lines.
#[tactic(auto, using(crate::proofs::Splitting::splits_unique))]
pub fn lines_are_unique()
    ensures { Spec.SplitsAreUnique }
{}

/// The bytes before the first newline, and those after it, where there is one.
pub fn split_line(bytes: &[u8]) -> Option<(&[u8], &[u8])>
    ensures { MatchOption result (Spec.IsLine bytes.now)
        (λ cut. Spec.IsLine cut.0.now × (bytes.now ≡ cut.0.now ++ GixDate.newline ∷ cut.1.now)) }
{
    let at = newline_at(bytes)?;
    Some((&bytes[..at], &bytes[at + 1..]))
}

/// The first line of bytes, without its newline, and the bytes after both. The last line may lack its newline. `None` of no bytes.
#[inline(always)]
pub fn first_line(bytes: &[u8]) -> Option<(&[u8], &[u8])>
    ensures { Spec.IsFirstLine bytes.now (option_map (λ cut. (cut.0.now, cut.1.now)) result) }
{
    if bytes.is_empty() {
        return None;
    }
    match split_line(bytes) {
        Some(cut) => Some(cut),
        None => Some((bytes, &[])),
    }
}
