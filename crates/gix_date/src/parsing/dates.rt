//! Dates: a whole text by the first family that holds it.
ghost use Rattle.std.specs.Prelude.{◌≡◌, if◌then◌else◌, IfOk, IfSome, Some, None, option_map};
ghost use Rattle.std.specs.Int.Signed.{le_z};
ghost use Rattle.std.specs.Option.{option_or};
ghost use Rattle.jiff.specs.Words.{IsOffsetSeconds};
ghost use Rattle.gix_date.specs.Families.Answer.{Relative};
ghost use Rattle.gix_date.specs as Spec;

use crate::error::{Error, InputBytes, ParseError};
use crate::parsing::fields::skip_char;
use crate::parsing::git::parse_git_date_format;
use crate::parsing::numbers::{fast_int, parse_int};
use crate::parsing::patterns::{parse_dashed, parse_named_day, parse_rfc2822};
use crate::parsing::raw::{RawOffsets, fast_raw, parse_raw};
use crate::parsing::shape::Shape;
use crate::parsing::usual::usual_date;
use crate::parsing::{Answer, relative};
use crate::time::{SecondsSinceUnixEpoch, Time};
use jiff::Zoned;
use std::alloc::Global;

/// The least seconds of a bare epoch: less could be a compact date, as in Git.
pub(crate) const MIN_EPOCH: i64 = 100_000_000;

/// Reads a date, by the first of these families, in order, that holds the whole text:
///
/// - at text: `@` and a raw text (`@1745582210 +0200`), or `@` and seconds (`@-1000`)
/// - day alone, at its midnight in UTC: `2018-12-24`
/// - RFC 2822: `Thu, 18 Aug 2022 12:45:06 +0800`
/// - ISO 8601, then its strict form: `2022-08-18 12:45:06 +0800`, `2022-08-18T12:45:06+08:00`
/// - gitoxide's form, then Git's default form: `Thu Aug 18 2022 12:45:06 +0800`, `Thu Aug 18 12:45:06 2022 +0800`
/// - bare epoch: seconds from 100000000 (`1700000000`)
/// - one of Git's own forms: `2008.02.14 20:30:45 -0500`, `20080214T203045.019-04:00`, `2008-02-14T20 +05`
/// - relative text: `now`, `today`, `yesterday`, or counts and periods (`2 weeks ago`, `1 month 2 days ago`, `last
///   year`)
/// - raw text: seconds and an offset in quarters of an hour up to 14:45 (`1660874655 +0800`)
///
/// `docs/SPECIFICATION.md` has their grammars. Without an offset a date is in UTC. A relative text counts from the moment
/// `now`, and has its zone's offset.
///
/// [`Error::UnknownFormat`] if no family holds the text, or a formatted date has an offset above 23:59.
/// [`Error::DateConversion`] if a day alone has no instant (`9999-12-31`). Both carry a copy of the text, or
/// [`Error::Memory`] replaces them; nothing else takes memory. [`Error::MissingNow`] for a relative text without a
/// moment, and [`Error::Range`] if it names no instant of `jiff`.
pub fn parse(alloc: Global, input: &str, now: Option<Zoned<'_>>) -> Result<Time, Error>
    ensures outcome { Spec.ParseOutcome (Spec.first_family input.now) input.now now.entry result }
    ensures offset_fits { IfOk result (λ t. IsOffsetSeconds t.offset) }
{
    parse_with(alloc, input, now, RawOffsets::Quarter)
}

/// Reads a date as [`parse`] does, by the rule `raw` for the offsets of raw texts, also after `@`.
///
/// [`RawOffsets::Quarter`] is the rule of [`parse`]. [`RawOffsets::WholeMinutes`] allows whole minutes up to 23:59, as
/// in `1660797906 +0007`. The refusals are those of [`parse`]; a raw text with another offset is of no family.
pub fn parse_with(
    alloc: Global,
    input: &str,
    now: Option<Zoned<'_>>,
    raw: RawOffsets,
) -> Result<Time, Error>
    ensures outcome { Spec.ParseOutcome (Spec.first_family_by (Spec.allows raw) input.now) input.now now.entry result }
    ensures offset_fits { IfOk result (λ t. IsOffsetSeconds t.offset) }
{
    match parse_no_alloc(input, now, raw) {
        Ok(time) => Ok(time),
        Err(refusal) => Err(with_copy(alloc, input, refusal)),
    }
}

/// Reads a date as [`parse_with`] does, without an allocator. It takes no memory, and its refusals have no text.
///
/// [`ParseError::UnknownFormat`] if no family holds the text, or a formatted date has an offset above 23:59.
/// [`ParseError::DateConversion`] if a day alone has no instant. [`ParseError::MissingNow`] for a relative text without
/// a moment, and [`ParseError::Range`] if it names no instant of `jiff`.
// Inlined, so that a caller without a moment passes none on, and has no frame beside that of a usual date.
#[inline(always)]
pub fn parse_no_alloc(
    input: &str,
    now: Option<Zoned<'_>>,
    raw: RawOffsets,
) -> Result<Time, ParseError>
    ensures outcome { Spec.ParseNoAllocOutcome (Spec.first_family_by (Spec.allows raw) input.now) now.entry result }
    ensures offset_fits { IfOk result (λ t. IsOffsetSeconds t.offset) }
{
    if let Some(time) = usual_date(input, raw) {
        return Ok(time);
    }
    parse_unusual(input, now, raw)
}

/// Reads a date as [`parse_no_alloc`] does, for a caller that has tried [`usual_date`] before the moment is at hand.
#[inline(always)]
pub fn parse_unusual(
    input: &str,
    now: Option<Zoned<'_>>,
    raw: RawOffsets,
) -> Result<Time, ParseError>
    ensures outcome { Spec.ParseNoAllocOutcome (Spec.first_family_by (Spec.allows raw) input.now) now.entry result }
    ensures offset_fits { IfOk result (λ t. IsOffsetSeconds t.offset) }
{
    outcome(any_answer(input, raw), now)
}

/// What a call without an allocator results in, by the first answer.
#[inline(always)]
pub(crate) fn outcome(
    answer: Option<Answer<'_>>,
    now: Option<Zoned<'_>>,
) -> Result<Time, ParseError>
    requires { IfSome answer Spec.HasJiffOffset }
    ensures outcome { Spec.ParseNoAllocOutcome (option_map Spec.answer_of answer.entry) now.entry result }
    ensures offset_fits { IfOk result (λ t. IsOffsetSeconds t.offset) }
{
    match answer {
        Some(Answer::Absolute(time)) => Ok(time),
        Some(Answer::OffsetAboveDay) => Err(ParseError::UnknownFormat),
        Some(Answer::NoInstant) => Err(ParseError::DateConversion),
        Some(Answer::Relative(date)) => date.time(now),
        None => Err(ParseError::UnknownFormat),
    }
}

/// The refusal with a copy of the text, where it has one.
fn with_copy(alloc: Global, input: &str, refusal: ParseError) -> Error
    ensures { Spec.RefusesWithCopy input.now refusal result }
{
    match refusal {
        ParseError::UnknownFormat => unknown_format(alloc, input),
        ParseError::DateConversion => date_conversion(alloc, input),
        ParseError::MissingNow => Error::MissingNow,
        ParseError::Range => Error::Range,
    }
}

/// The answer of the first family that holds the text.
#[inline(always)]
pub(crate) fn first_answer(input: &str, raw: RawOffsets) -> Option<Answer<'_>>
    ensures first { option_map Spec.answer_of result ≡ Spec.first_family_by (Spec.allows raw) input.now }
    ensures offset_fits { IfSome result Spec.HasJiffOffset }
{
    if let Some(time) = usual_date(input, raw) {
        return Some(Answer::Absolute(time));
    }
    any_answer(input, raw)
}

/// The answer of the first family that holds the text, by its shape. Not inlined, so that a usual date does not pay for
/// the frames of all families.
#[tactic(auto, using(crate::proofs::Families::Shapes::is_dispatched))]
#[inline(never)]
fn any_answer(input: &str, raw: RawOffsets) -> Option<Answer<'_>>
    ensures first { option_map Spec.answer_of result ≡ Spec.first_family_by (Spec.allows raw) input.now }
    ensures offset_fits { IfSome result Spec.HasJiffOffset }
{
    answer_by_shape(Shape::of(input), input, raw)
}

/// The first answer that is not `None`; later ones are not computed. A closure, as for `or_else`, would be proved again
/// at each place.
macro_rules! first_of {
    ($last:expr) => {
        $last
    };
    ($answer:expr, $($others:expr),+) => {
        match $answer {
            Some(answer) => Some(answer),
            None => first_of!($($others),+),
        }
    };
}

/// The answer of the first of a shape's families that holds the text. Each arm tries the families of `shape_families`, in
/// their order.
#[tactic(auto, unfolding(crate::specs::epoch_time))]
#[inline(always)]
fn answer_by_shape<'a>(shape: Shape, input: &'a str, raw: RawOffsets) -> Option<Answer<'a>>
    ensures first { option_map Spec.answer_of result ≡ Spec.first_among (Spec.allows raw) (Spec.shape_families shape) input.now }
    ensures offset_fits { IfSome result Spec.HasJiffOffset }
{
    match shape {
        Shape::AtSign => first_of!(at_answer(input, raw), relative_answer(input)),
        Shape::Rfc2822Day => first_of!(parse_rfc2822(input), relative_answer(input)),
        Shape::NamedDay => first_of!(parse_named_day(input), relative_answer(input)),
        Shape::Word => relative_answer(input),
        Shape::DashedDay => {
            first_of!(
                parse_dashed(input),
                git_answer(input),
                relative_answer(input)
            )
        }
        Shape::GitDay => first_of!(git_answer(input), relative_answer(input)),
        Shape::Count => first_of!(
            parse_rfc2822(input),
            relative_answer(input),
            raw_answer(input, raw)
        ),
        Shape::WholeNumber => epoch_answer(parse_int(input)?),
        Shape::Other => first_of!(
            git_answer(input),
            relative_answer(input),
            raw_answer(input, raw)
        ),
    }
}

/// The answer of the family of at texts.
#[inline(always)]
fn at_answer(input: &str, raw: RawOffsets) -> Option<Answer<'_>>
    ensures answer { option_map Spec.answer_of result ≡ Spec.family_answer (Spec.allows raw) Spec.AtText input.now }
    ensures offset_fits { IfSome result Spec.HasJiffOffset }
{
    Some(Answer::Absolute(parse_at(input, raw)?))
}

/// The answer of the family of bare epochs for this number.
#[inline(always)]
fn epoch_answer<'a>(seconds: SecondsSinceUnixEpoch) -> Option<Answer<'a>>
    ensures first { option_map Spec.answer_of result
        ≡ (if le_z Spec.min_bare_epoch seconds then Some (Spec.Absolute (Spec.utc_time seconds)) else None) }
    ensures offset_fits { IfSome result Spec.HasJiffOffset }
{
    Some(Answer::Absolute(epoch_time(seconds)?))
}

/// The time of a bare epoch of this number.
#[inline(always)]
pub(crate) fn epoch_time(seconds: SecondsSinceUnixEpoch) -> Option<Time>
    ensures time { result ≡ (if le_z Spec.min_bare_epoch seconds then Some (Spec.utc_time seconds) else None) }
    ensures offset_fits { IfSome result (λ t. IsOffsetSeconds t.offset) }
{
    if seconds >= MIN_EPOCH {
        Some(Time::new(seconds, 0))
    } else {
        None
    }
}

/// The answer of the family of Git's own forms.
#[inline(always)]
fn git_answer(input: &str) -> Option<Answer<'_>>
    ensures answer { option_map Spec.answer_of result ≡ option_map Spec.Absolute (Spec.git_time input.now) }
    ensures offset_fits { IfSome result Spec.HasJiffOffset }
{
    Some(Answer::Absolute(parse_git_date_format(input)?))
}

/// The answer of the family of relative texts.
#[inline(always)]
fn relative_answer(input: &str) -> Option<Answer<'_>>
    ensures answer { option_map Spec.answer_of result ≡ option_map Relative (Spec.relative_date input.now) }
    ensures offset_fits { IfSome result Spec.HasJiffOffset }
{
    Some(Answer::Relative(relative::parse(input)?))
}

/// The answer of the family of raw texts.
#[inline(always)]
fn raw_answer(input: &str, raw: RawOffsets) -> Option<Answer<'_>>
    ensures answer { option_map Spec.answer_of result ≡ Spec.family_answer (Spec.allows raw) Spec.RawText input.now }
    ensures offset_fits { IfSome result Spec.HasJiffOffset }
{
    Some(Answer::Absolute(parse_raw(input, raw)?))
}

/// The refusal of a text that no family holds.
fn unknown_format(alloc: Global, input: &str) -> Error
    ensures { Spec.RefusesUnknown input.now result }
{
    match InputBytes::copied(alloc, input) {
        Ok(input) => Error::UnknownFormat { input },
        Err(_) => Error::Memory,
    }
}

/// The refusal of a day whose midnight is no instant.
fn date_conversion(alloc: Global, input: &str) -> Error
    ensures { Spec.RefusesDate input.now result }
{
    match InputBytes::copied(alloc, input) {
        Ok(input) => Error::DateConversion { input },
        Err(_) => Error::Memory,
    }
}

/// The time of an at text. Its usual forms come first: a usual raw text, and digits alone.
#[tactic(auto, using(std::proofs::lemmas::Int::ints, crate::proofs::Families::Shapes::at_int), unfolding(crate::specs::at_time))]
fn parse_at(input: &str, raw: RawOffsets) -> Option<Time>
    ensures time { result ≡ Spec.at_time (Spec.allows raw) input.now }
    ensures offset_fits { IfSome result (λ t. IsOffsetSeconds t.offset) }
{
    let text = skip_char('@', input)?;
    if let Some(time) = fast_raw(text, raw) {
        return Some(time);
    }
    if let Some(seconds) = fast_int(text.as_bytes()) {
        return Some(Time::new(seconds, 0));
    }
    if let Some(time) = parse_raw(text, raw) {
        return Some(time);
    }
    Some(Time::new(parse_int(text)?, 0))
}
