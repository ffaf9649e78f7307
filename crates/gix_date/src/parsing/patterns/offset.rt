//! The offsets of formatted dates. Each reader takes a whole text.
ghost use Rattle.std.specs.Prelude.{◌≡◌, IfSome, if◌then◌else◌};
ghost use Rattle.jiff.specs.Words.{IsOffsetSeconds};
ghost use Rattle.gix_date.specs as Spec;

use crate::parsing::offset::{OffsetFields, parse_offset_fields};
use crate::time::{MAX_MINUTE, MAX_SECOND, OffsetInSeconds, SECONDS_PER_HOUR};

/// The offset of fields: hours of at most 25, and minutes and seconds of at most 59.
#[inline(always)]
fn jiff_offset(fields: OffsetFields) -> Option<OffsetInSeconds>
    ensures value { result ≡ Spec.jiff_offset fields }
    ensures offset_fits { IfSome result (λ offset. IsOffsetSeconds offset) }
{
    if fields.hours <= 25
        && fields.minutes <= MAX_MINUTE
        && fields.seconds.unwrap_or(0) <= MAX_SECOND
    {
        Some(fields.in_seconds())
    } else {
        None
    }
}

/// A sign, two digits of hours, two of minutes, and perhaps two of seconds, with a colon between the pairs or without.
#[tactic(auto, unfolding(crate::specs::compact_offset))]
#[inline(always)]
pub(crate) fn parse_date_offset(colons: bool, text: &str) -> Option<OffsetInSeconds>
    ensures value { result ≡ (if colons then Spec.strict_offset text.now else Spec.compact_offset text.now) }
    ensures offset_fits { IfSome result (λ offset. IsOffsetSeconds offset) }
{
    jiff_offset(parse_offset_fields(colons, text)?)
}

/// A sign, two digits of hours and two of minutes, or else the name of a zone.
#[tactic(auto, unfolding(crate::specs::rfc2822_zone))]
#[inline(always)]
pub(crate) fn parse_rfc2822_zone(text: &str) -> Option<OffsetInSeconds>
    ensures value { result ≡ Spec.rfc2822_zone text.now }
    ensures offset_fits { IfSome result (λ offset. IsOffsetSeconds offset) }
{
    if let Some(offset) = parse_rfc2822_offset(text) {
        return Some(offset);
    }
    named_zone(text)
}

/// A sign, two digits of hours and two of minutes.
#[tactic(auto, unfolding(crate::specs::rfc2822_offset))]
#[inline(always)]
fn parse_rfc2822_offset(text: &str) -> Option<OffsetInSeconds>
    ensures value { result ≡ Spec.rfc2822_offset text.now }
    ensures offset_fits { IfSome result (λ offset. IsOffsetSeconds offset) }
{
    let fields = parse_offset_fields(false, text)?;
    if fields.seconds.is_some() {
        return None;
    }
    jiff_offset(fields)
}

/// The offset of a zone's name in RFC 2822, in any letter case.
#[tactic(auto, unfolding(crate::specs::named_zone))]
fn named_zone(name: &str) -> Option<OffsetInSeconds>
    ensures value { result ≡ Spec.named_zone name.now }
    ensures offset_fits { IfSome result (λ offset. IsOffsetSeconds offset) }
{
    if name.eq_ignore_ascii_case("ut") || name.eq_ignore_ascii_case("gmt") {
        Some(0)
    } else if name.eq_ignore_ascii_case("edt") {
        Some(-4 * SECONDS_PER_HOUR)
    } else if name.eq_ignore_ascii_case("est") || name.eq_ignore_ascii_case("cdt") {
        Some(-5 * SECONDS_PER_HOUR)
    } else if name.eq_ignore_ascii_case("cst") || name.eq_ignore_ascii_case("mdt") {
        Some(-6 * SECONDS_PER_HOUR)
    } else if name.eq_ignore_ascii_case("mst") || name.eq_ignore_ascii_case("pdt") {
        Some(-7 * SECONDS_PER_HOUR)
    } else if name.eq_ignore_ascii_case("pst") {
        Some(-8 * SECONDS_PER_HOUR)
    } else {
        None
    }
}
