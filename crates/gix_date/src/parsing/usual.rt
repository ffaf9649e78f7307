//! A fast path for dates as programs print them: raw texts, numbers and dates of fixed length. `None` means only that a text has another
//! form.
ghost use Rattle.std.specs.Prelude.{◌≡◌, ◌≤◌, ◌<◌, ◌+◌, length, take, IfSome, IsTrue, Some, unsigned_abs};
ghost use Rattle.jiff.specs.Words.{IsOffsetSeconds};
ghost use Rattle.gix_date.specs as Spec;

use crate::clock::{ClockFields, DateFields, instant_at};
use crate::parsing::Answer;
use crate::parsing::dates::epoch_time;
use crate::parsing::fast::fast_number;
use crate::parsing::offset::{OffsetFields, sign_of};
use crate::parsing::patterns::parse_dashed;
use crate::parsing::raw::{RawOffsets, fast_raw};
use crate::time::{MAX_HOUR, OffsetInSeconds, Time};
use std::simd::prelude::*;

/// How many bytes `2022-08-18 12:45:06 +0800` has, and `2022-08-18T12:45:06+08:00`.
const ISO8601_LEN: usize = 25;

/// How many bytes `2018-12-24` has.
const DAY_LEN: usize = 10;

/// How many bytes are compared at once.
const BLOCK: usize = 16;

/// Whether none of the first N bytes of a slice is above that of another.
#[tactic(auto, using(crate::proofs::Fast::UsualDates::block_at_most))]
#[inline(always)]
fn are_at_most<const N: usize>(low: &[u8], high: &[u8]) -> bool
    requires { (0 < N) × (N ≤ 64) × (N ≤ length low.now) × (N ≤ length high.now) }
    ensures { IsTrue result → Spec.AreAtMost (take N low.now) (take N high.now) }
{
    let block = Simd::<u8, N>::from_slice(low);
    block.simd_gt(Simd::from_slice(high)).to_bitmask() == 0
}

/// Whether each byte of a text is within its own bounds: two blocks cover them.
#[tactic(auto, using(crate::proofs::Fast::UsualDates::all_within))]
#[inline(always)]
fn are_within(text: &[u8], low: &[u8], high: &[u8]) -> bool
    requires covered { (BLOCK ≤ length text.now) × (length text.now ≤ BLOCK + BLOCK) }
    requires low { length low.now ≡ length text.now }
    requires high { length high.now ≡ length text.now }
    ensures { IsTrue result → Spec.AreWithin low.now high.now text.now }
{
    let last = text.len() - BLOCK;
    are_at_most::<BLOCK>(low, text)
        && are_at_most::<BLOCK>(text, high)
        && are_at_most::<BLOCK>(&low[last..], &text[last..])
        && are_at_most::<BLOCK>(&text[last..], &high[last..])
}

/// The number that two digits write, and any of other bytes.
#[tactic(auto, unfolding(crate::specs::SaysField))]
#[inline(always)]
fn two(tens: u8, ones: u8) -> u8
    ensures { Spec.SaysField tens ones result }
{
    tens.wrapping_mul(10).wrapping_add(ones).wrapping_sub(16)
}

/// The number that four digits write, and any of other bytes.
#[tactic(auto, unfolding(crate::specs::SaysField, crate::specs::SaysYear))]
#[inline(always)]
fn four(a: u8, b: u8, c: u8, d: u8) -> u16
    ensures { Spec.SaysYear a b c d result }
{
    100 * u16::from(two(a, b)) + u16::from(two(c, d))
}

/// The date of what looks like `2022-08-18`.
#[tactic(auto, using(crate::proofs::Fast::UsualDates::date_of))]
#[inline(always)]
fn date(text: &[u8]) -> Option<DateFields>
    ensures { IfSome result (Spec.SaysDate text.now) }
{
    match text {
        [a, b, c, d, _, e, f, _, g, h] => {
            let year = four(*a, *b, *c, *d);
            let month = two(*e, *f);
            let day = two(*g, *h);
            Some(DateFields { year, month, day })
        }
        _ => None,
    }
}

/// The clock of what looks like `12:45:06`.
#[tactic(auto, using(crate::proofs::Fast::UsualDates::clock_of))]
#[inline(always)]
fn clock(text: &[u8]) -> Option<ClockFields>
    ensures { IfSome result (Spec.SaysClock text.now) }
{
    match text {
        [a, b, _, c, d, _, e, f] => {
            let hour = two(*a, *b);
            let minute = two(*c, *d);
            let second = two(*e, *f);
            Some(ClockFields {
                hour,
                minute,
                second,
            })
        }
        _ => None,
    }
}

/// The offset of what looks like `+0800`, within 23:59.
#[tactic(auto, unfolding(crate::specs::SaysField, crate::specs::AreAtMost, crate::specs::AreWithin, crate::specs::SaysOffset))]
#[inline(always)]
fn offset(mark: u8, a: u8, b: u8, c: u8, d: u8) -> Option<OffsetInSeconds>
    ensures { IfSome result (Spec.SaysOffset mark a b c d) }
{
    let sign = sign_of(mark)?;
    let hours = two(a, b);
    let minutes = two(c, d);
    if hours > MAX_HOUR {
        return None;
    }
    let seconds = None;
    let fields = OffsetFields {
        sign,
        hours,
        minutes,
        seconds,
    };
    Some(fields.in_seconds())
}

/// The time of a date and a clock at an offset.
#[tactic(auto, using(std::proofs::lemmas::Int::ints, crate::proofs::Printing::ReadBack::answer_is))]
#[inline(always)]
fn time_at(date: DateFields, clock: ClockFields, offset: OffsetInSeconds) -> Option<Time>
    requires date { Spec.DateFits date }
    requires clock { Spec.ClockFits clock }
    requires within { unsigned_abs offset ≤ Spec.max_date_offset }
    ensures answers { IfSome result (λ t. Spec.date_answer date clock offset ≡ Some (Spec.Absolute t)) }
    ensures offset_fits { IfSome result (λ t. IsOffsetSeconds t.offset) }
{
    let seconds = instant_at(date, clock, offset)?;
    Some(Time::new(seconds, offset))
}

/// The time of these fields, if each byte of the text they are from is within its own bounds.
#[tactic(auto, using(std::proofs::lemmas::Int::ints))]
#[inline(always)]
fn time_within(
    text: &[u8],
    low: &[u8],
    high: &[u8],
    date: DateFields,
    clock: ClockFields,
    offset: OffsetInSeconds,
) -> Option<Time>
    requires covered { (BLOCK ≤ length text.now) × (length text.now ≤ BLOCK + BLOCK) }
    requires low { length low.now ≡ length text.now }
    requires high { length high.now ≡ length text.now }
    requires says { Spec.AreWithin low.now high.now text.now → Spec.Says text.now (date, clock, offset) }
    ensures first { IfSome result (Spec.AnswersFirst text.now) }
    ensures offset_fits { IfSome result (λ t. IsOffsetSeconds t.offset) }
{
    if are_within(text, low, high) {
        time_at(date, clock, offset)
    } else {
        None
    }
}

/// The time of `2022-08-18 12:45:06 +0800`. The bytes are tested last: so the compiler reads each once, where it is used.
/// The offset is read first: so it needs fewer registers.
fn iso8601(text: &[u8]) -> Option<Time>
    requires { length text.now ≡ ISO8601_LEN }
    ensures first { IfSome result (Spec.AnswersFirst text.now) }
    ensures offset_fits { IfSome result (λ t. IsOffsetSeconds t.offset) }
{
    let offset = offset(text[20], text[21], text[22], text[23], text[24])?;
    let date = date(&text[..10])?;
    let clock = clock(&text[11..19])?;
    let low = b"0000-00-00 00:00:00 +0000";
    let high = b"9999-19-39 29:59:59 -2959";
    time_within(text, low, high, date, clock, offset)
}

/// The time of `2022-08-18T12:45:06+08:00`.
fn iso8601_strict(text: &[u8]) -> Option<Time>
    requires { length text.now ≡ ISO8601_LEN }
    ensures first { IfSome result (Spec.AnswersFirst text.now) }
    ensures offset_fits { IfSome result (λ t. IsOffsetSeconds t.offset) }
{
    let offset = offset(text[19], text[20], text[21], text[23], text[24])?;
    let date = date(&text[..10])?;
    let clock = clock(&text[11..19])?;
    let low = b"0000-00-00T00:00:00+00:00";
    let high = b"9999-19-39T29:59:59-29:59";
    time_within(text, low, high, date, clock, offset)
}

/// The time of a date of this length. Each form has a function of its own, and one byte rejects nearly all other texts.
#[inline(always)]
fn usual_time(text: &[u8]) -> Option<Time>
    requires { length text.now ≡ ISO8601_LEN }
    ensures first { IfSome result (Spec.AnswersFirst text.now) }
    ensures offset_fits { IfSome result (λ t. IsOffsetSeconds t.offset) }
{
    if text[4] != b'-' {
        None
    } else if text[10] == b'T' {
        iso8601_strict(text)
    } else {
        iso8601(text)
    }
}

/// The time of a raw text, a number or a date in its usual form, which no family before theirs holds. Their lengths tell
/// which is tried. `None` means only that the text is not in such a form.
#[inline(always)]
pub fn usual_date(input: &str, raw: RawOffsets) -> Option<Time>
    ensures first { IfSome result (λ t. Spec.first_family_by (Spec.allows raw) input.now ≡ Some (Spec.Absolute t)) }
    ensures offset_fits { IfSome result (λ t. IsOffsetSeconds t.offset) }
{
    if input.len() == ISO8601_LEN {
        return usual_time(input.as_bytes());
    }
    if let Some(time) = fast_raw(input, raw) {
        return Some(time);
    }
    if let Some(seconds) = fast_number(input) {
        return epoch_time(seconds);
    }
    usual_day(input)
}

/// The midnight in UTC of a day alone of ten bytes: `2018-12-24`.
#[tactic(auto, using(crate::proofs::Fast::UsualPieces::dashed_first))]
#[inline(always)]
fn usual_day(input: &str) -> Option<Time>
    ensures first { IfSome result (Spec.AnswersFirst input.now) }
    ensures offset_fits { IfSome result (λ t. IsOffsetSeconds t.offset) }
{
    let bytes = input.as_bytes();
    if bytes.len() != DAY_LEN || bytes[4] != b'-' {
        return None;
    }
    match parse_dashed(input) {
        Some(Answer::Absolute(time)) => Some(time),
        _ => None,
    }
}
