//! Numbers, as Git keeps them.
ghost use Rattle.std.specs.Prelude.{◌≡◌};
ghost use Rattle.git_date.specs as Spec;

use gix_date::parse_short_digits;

/// The greatest number that 32 bits hold with a sign, as Git's dates keep numbers.
pub(crate) const MAX_SMALL: u64 = 2_147_483_647;

/// The greatest number that 64 bits hold with a sign, at which Git stops after the first number of a group.
const MAX_GROUPED: u64 = 9_223_372_036_854_775_807;

/// How many numbers 32 bits hold.
pub(crate) const NUMBERS_OF_32_BITS: u64 = 4_294_967_296;

/// The number that digits write, or else the greatest, at which Git stops. Nearly all are short, and need no limit.
#[tactic(auto, using(crate::proofs::Rules::Saturated::short_is, crate::proofs::Rules::Saturated::saturated_is))]
pub(crate) fn number(digits: &[u8]) -> u64
    ensures { result ≡ Spec.number digits.now }
{
    match parse_short_digits(digits) {
        Some(n) => n,
        None => saturated(digits),
    }
}

#[tactic(auto, unfolding(crate::specs::saturated))]
fn saturated(digits: &[u8]) -> u64
    ensures { result ≡ Spec.saturated digits.now }
{
    digits.iter().fold(0u64, |value, digit| {
        value
            .saturating_mul(10)
            .saturating_add(u64::from(digit.saturating_sub(b'0')))
    })
}

/// Whether a number is more than Git's 32 bits hold, so that Git would cut it.
pub(crate) fn is_too_large(n: u64) -> bool
    ensures { result ≡ Spec.is_too_large n }
{
    MAX_SMALL < n
}

/// What Git's 32 bits hold of a number.
#[tactic(auto, unfolding(crate::specs::narrow))]
pub(crate) fn narrow(n: u64) -> u64
    ensures { result ≡ Spec.narrow n }
{
    n.min(MAX_GROUPED) % NUMBERS_OF_32_BITS
}
