//! The raw form of a date, as a commit header has it, read strictly.
ghost use Rattle.std.specs.Prelude.{◌≡◌, IfSome, Some};
ghost use Rattle.jiff.specs.Words.{IsOffsetSeconds};
ghost use Rattle.gix_date.specs as Spec;

use crate::parsing::fast::fast_fields;
use crate::parsing::fields::first_words;
use crate::parsing::numbers::parse_int;
use crate::parsing::offset::{OffsetFields, parse_offset_fields};
use crate::time::{MAX_HOUR, MAX_MINUTE, OffsetInSeconds, Time};

/// The most hours of a raw offset, as gix-date has it.
const MAX_HOURS: u8 = 14;

/// The most hours of a raw offset by the wider rule: those of a day.
const MAX_WIDE_HOURS: u8 = MAX_HOUR;

/// The most minutes of a raw offset by the wider rule: those of an hour.
const MAX_MINUTES: u8 = MAX_MINUTE;

/// Which offsets raw texts may have, also after `@`.
///
/// An offset is a sign, two digits of hours, two of minutes and optionally two of seconds, which are 00 by both rules.
#[derive(Debug, Clone, Copy, PartialEq, Eq)]
pub enum RawOffsets {
    /// Quarters of an hour up to 14:45, as gix-date has them.
    Quarter,
    /// Whole minutes up to 23:59, as some commits have them.
    WholeMinutes,
}

impl RawOffsets {
    /// Whether the rule allows these fields.
    fn allows(self, fields: OffsetFields) -> bool
        ensures { result ≡ Spec.allows self fields }
    {
        match self {
            RawOffsets::Quarter => {
                fields.hours <= MAX_HOURS
                    && matches!(fields.minutes, 0 | 15 | 30 | 45)
                    && fields.seconds.unwrap_or(0) == 0
            }
            RawOffsets::WholeMinutes => {
                fields.hours <= MAX_WIDE_HOURS
                    && fields.minutes <= MAX_MINUTES
                    && fields.seconds.unwrap_or(0) == 0
            }
        }
    }
}

/// Reads a raw text, as gix-date does: seconds as an optional sign and digits, and an offset as a sign, two digits of
/// hours, two of minutes, and optionally `00` for its seconds, which the rule has to allow. White space may stand round
/// each of the two, and nothing else.
///
/// `None` for any other text.
#[tactic(auto, unfolding(crate::specs::raw_time_by))]
pub(crate) fn parse_raw(input: &str, raw: RawOffsets) -> Option<Time>
    ensures time { result ≡ Spec.raw_time_by (Spec.allows raw) input.now }
    ensures offset_fits { IfSome result (λ t. IsOffsetSeconds t.offset) }
{
    let (first, second) = first_words(input)?;
    let second = second?;
    let seconds = parse_int(first)?;
    let offset = parse_raw_offset(second, raw)?;
    Some(Time::new(seconds, offset))
}

/// The time of a raw text that is a usual header ([`fast_fields`]). `None` means only that the text has another form, or
/// an offset that the rule does not allow. No shape and no other family is tried.
#[tactic(auto, using(std::proofs::lemmas::Int::ints, crate::proofs::Fast::FastHeaders::plain_raw, crate::proofs::Fields::FieldsTaken::time_at))]
#[inline(always)]
pub(crate) fn fast_raw(input: &str, raw: RawOffsets) -> Option<Time>
    ensures time { IfSome result (λ t. Spec.raw_time_by (Spec.allows raw) input.now ≡ Some t) }
    ensures offset_fits { IfSome result (λ t. IsOffsetSeconds t.offset) }
{
    let (seconds, fields) = fast_fields(input)?;
    if raw.allows(fields) {
        Some(Time::new(seconds, fields.in_seconds()))
    } else {
        None
    }
}

/// The offset of a raw text.
#[tactic(auto, unfolding(crate::specs::raw_offset_by))]
fn parse_raw_offset(word: &str, raw: RawOffsets) -> Option<OffsetInSeconds>
    ensures offset { result ≡ Spec.raw_offset_by (Spec.allows raw) word.now }
    ensures offset_fits { IfSome result (λ offset. IsOffsetSeconds offset) }
{
    let fields = parse_offset_fields(false, word)?;
    if raw.allows(fields) {
        Some(fields.in_seconds())
    } else {
        None
    }
}
