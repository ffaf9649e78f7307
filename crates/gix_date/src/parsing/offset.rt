//! The fields of an offset from UTC, as header lines and dates write it. Each reader has limits of its own on them.
ghost use Rattle.std.specs.Prelude.{◌≡◌, ◌<◌, IfSome, true, false, if◌then◌else◌, option_and_then};
ghost use Rattle.gix_date.specs as Spec;

use crate::parsing::fields::skip_char;
use crate::parsing::numbers::{parse_two_digits, read_two_digits};
use crate::time::{OffsetInSeconds, SECONDS_PER_HOUR, SECONDS_PER_MINUTE};

/// Which side of UTC an offset lies on.
#[derive(Clone, Copy)]
pub(crate) enum Sign {
    /// East of UTC, or none.
    Plus,
    /// West of UTC.
    Minus,
}

/// A sign and pairs of digits: any numbers below 100.
#[derive(Clone, Copy)]
pub(crate) struct OffsetFields {
    pub(crate) sign: Sign,
    pub(crate) hours: u8,
    pub(crate) minutes: u8,
    pub(crate) seconds: Option<u8>,
}

impl OffsetFields {
    /// The offset in seconds, positive east of UTC.
    #[inline(always)]
    pub(crate) fn in_seconds(self) -> OffsetInSeconds
        ensures { result ≡ Spec.offset_of self }
    {
        let hours = SECONDS_PER_HOUR as u32 * u32::from(self.hours);
        let minutes = SECONDS_PER_MINUTE as u32 * u32::from(self.minutes);
        let distance = (hours + minutes + u32::from(self.seconds.unwrap_or(0))) as i32;
        match self.sign {
            Sign::Plus => distance,
            Sign::Minus => -distance,
        }
    }
}

/// Reads a whole text that is a sign, two digits of hours, two of minutes and perhaps two of seconds, with a colon
/// between the pairs or without.
///
/// `None` for any other text.
#[tactic(auto, unfolding(crate::specs::offset_fields, crate::specs::strict_offset))]
#[inline(always)]
pub(crate) fn parse_offset_fields(colons: bool, text: &str) -> Option<OffsetFields>
    ensures compact { colons ≡ false → result ≡ Spec.offset_fields text.now }
    ensures strict { colons ≡ true → option_and_then Spec.jiff_offset result ≡ Spec.strict_offset text.now }
{
    let (sign, rest) = read_sign(text)?;
    let (hours, rest) = read_two_digits(rest)?;
    let (minutes, rest) = read_pair(colons, rest)?;
    let seconds = parse_last_pair(colons, rest)?;
    Some(OffsetFields {
        sign,
        hours,
        minutes,
        seconds,
    })
}

/// A sign at the front.
#[tactic(auto, unfolding(crate::specs::read_sign))]
#[inline(always)]
pub(crate) fn read_sign(text: &str) -> Option<(Sign, &str)>
    ensures { Spec.read_view result ≡ Spec.read_sign text.now }
{
    if let Some(rest) = skip_char('+', text) {
        return Some((Sign::Plus, rest));
    }
    Some((Sign::Minus, skip_char('-', text)?))
}

/// The sign of a mark.
#[inline(always)]
pub(crate) fn sign_of(mark: u8) -> Option<Sign>
    ensures { IfSome result (λ sign. Spec.IsSign mark sign) }
{
    match mark {
        b'+' => Some(Sign::Plus),
        b'-' => Some(Sign::Minus),
        _ => None,
    }
}

/// Two digits at the front, with a colon before them or without.
#[inline(always)]
fn read_pair(colons: bool, text: &str) -> Option<(u8, &str)>
    ensures value { Spec.read_view result
        ≡ (if colons then option_and_then Spec.read_two_digits (Spec.skip_char Spec.colon text.now) else Spec.read_two_digits text.now) }
    ensures small { IfSome result (λ found. found.0 < 100) }
{
    if colons {
        return read_two_digits(skip_char(':', text)?);
    }
    read_two_digits(text)
}

/// Nothing more, or such two digits.
#[tactic(auto, unfolding(crate::specs::last_pair, crate::specs::last_colon_pair))]
#[inline(always)]
fn parse_last_pair(colons: bool, text: &str) -> Option<Option<u8>>
    ensures { result ≡ (if colons then Spec.last_colon_pair text.now else Spec.last_pair text.now) }
{
    match text.as_bytes() {
        [] => Some(None),
        [b':', tens, ones] if colons => Some(Some(parse_two_digits(*tens, *ones)?)),
        [tens, ones] if !colons => Some(Some(parse_two_digits(*tens, *ones)?)),
        _ => None,
    }
}
