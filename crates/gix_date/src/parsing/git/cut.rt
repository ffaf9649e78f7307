//! Where the clock of a Git text ends, and its offset begins.
ghost use Rattle.std.specs.Prelude.{◌≡◌, ◌<◌, length, IfSome, option_map, slice_index};
ghost use Rattle.gix_date.specs as Spec;

use crate::parsing::fields::trimmed;

/// The slices of a text, already trimmed, that are its clock and its offset: the first of these cuts that there is.
///
/// 1. The text ends in `Z`, which is the offset.
/// 2. Its last space stands above place 5, and after it, white space aside, a sign is first: that is the offset.
/// 3. The last sign directly before a digit, at a place of 2 or more, begins the offset.
/// 4. All is the clock, and the offset is empty.
#[tactic(auto, using(crate::proofs::Git::ClockCuts::cut_means))]
pub(crate) fn clock_cut(text: &str) -> (&str, &str)
    ensures value { (result.0.now, result.1.now) ≡ Spec.clock_cut text.now }
    ensures meaning { Spec.IsCut text.now result.0.now result.1.now }
{
    first_cut(text)
}

/// The cuts, tried in their order.
#[tactic(auto, unfolding(crate::specs::clock_cut))]
fn first_cut(text: &str) -> (&str, &str)
    ensures { (result.0.now, result.1.now) ≡ Spec.clock_cut text.now }
{
    if let Some(parts) = cut_at_z(text) {
        return parts;
    }
    if let Some(parts) = cut_at_space(text) {
        return parts;
    }
    if let Some(parts) = cut_at_sign(text) {
        return parts;
    }
    (text, "")
}

#[tactic(auto, using(crate::proofs::Git::ClockCuts::z_found, std::proofs::lemmas::Grind::common_steps, crate::proofs::Git::ClockCuts::z_none))]
fn cut_at_z(text: &str) -> Option<(&str, &str)>
    ensures { option_map (λ cut. (cut.0.now, cut.1.now)) result ≡ Spec.cut_at_z text.now }
{
    if text.ends_with('Z') {
        Some((&text[..text.len() - 1], "Z"))
    } else {
        None
    }
}

fn cut_at_space(text: &str) -> Option<(&str, &str)>
    ensures { option_map (λ cut. (cut.0.now, cut.1.now)) result ≡ Spec.cut_at_space text.now }
{
    let place = text.rfind(' ')?;
    if place <= 5 {
        return None;
    }
    let offset = trimmed(&text[place + 1..]);
    if !begins_with_sign(offset) {
        return None;
    }
    Some((&text[..place], offset))
}

#[tactic(auto, using(crate::proofs::Git::ClockCuts::sign_none, crate::proofs::Git::ClockCuts::sign_at))]
fn cut_at_sign(text: &str) -> Option<(&str, &str)>
    ensures { option_map (λ cut. (cut.0.now, cut.1.now)) result ≡ Spec.cut_at_sign text.now }
{
    Some(text.split_at(last_sign(text)?))
}

/// The last place of 2 or more that has a sign directly before a digit.
#[tactic(auto, using(crate::proofs::Git::ClockCuts::no_sign_at), unfolding(crate::specs::last_sign))]
fn last_sign(text: &str) -> Option<usize>
    ensures value { result ≡ Spec.last_sign text.now }
    ensures found { IfSome result (λ k. (k < length text.now) × (slice_index text.now k < 128)) }
{
    let bytes = text.as_bytes();
    let mut end = bytes.len();
    while end > 0 {
        end -= 1;
        if has_offset_at(bytes, end) {
            return Some(end);
        }
    }
    None
}

/// Whether this is a place of 2 or more with a sign directly before a digit.
fn has_offset_at(bytes: &[u8], place: usize) -> bool
    requires { place < length bytes.now }
    ensures { result ≡ Spec.has_offset_at bytes.now place }
{
    if place < 2 || !matches!(bytes[place], b'+' | b'-') {
        return false;
    }
    place + 1 < bytes.len() && bytes[place + 1].is_ascii_digit()
}

fn begins_with_sign(text: &str) -> bool
    ensures { result ≡ Spec.is_sign (slice_index text.now 0) }
{
    text.starts_with('+') || text.starts_with('-')
}
