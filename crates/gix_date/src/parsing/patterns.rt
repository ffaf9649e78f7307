//! Formatted dates, as logs and other programs print them.
ghost use Rattle.std.specs.Prelude.{◌≡◌, IfSome, [], ◌∷◌, option_map, option_copied};
ghost use Rattle.jiff.specs.Words.{IsOffsetSeconds};
ghost use Rattle.gix_date.specs as Spec;

use crate::clock::{ClockFields, DateFields, civil_instant, is_date, midnight_instant};
use crate::parsing::Answer;
use crate::parsing::fields::skip_char;
use crate::parsing::numbers::{read_field, read_year};
use crate::parsing::patterns::fields::{
    read_clock, read_month, read_plain_date, skip_spaces, skip_weekday,
};
use crate::parsing::patterns::offset::{parse_date_offset, parse_rfc2822_zone};
use crate::time::{MAX_OFFSET_IN_SECONDS, OffsetInSeconds, Time};

pub(crate) mod fields;
pub(crate) mod offset;

/// Reads a date that begins with a day: the day alone, `2018-12-24`, which is its midnight in UTC; ISO 8601 as Git
/// prints it, `2022-08-18 12:45:06 +0800`; or its strict form, `2022-08-18T12:45:06+08:00`. The day is read once for
/// all three.
#[tactic(auto, using(crate::proofs::Fields::AfterDay::plain_days))]
pub(crate) fn parse_dashed(text: &str) -> Option<Answer<'static>>
    ensures answer { option_map Spec.answer_of result ≡ Spec.dashed_answer text.now }
    ensures offset_fits { IfSome result Spec.HasJiffOffset }
{
    let (date, rest) = read_plain_date(text)?;
    if rest.is_empty() {
        return real_day_answer(date);
    }
    if let Some(answer) = iso8601_after(date, rest) {
        return Some(answer);
    }
    iso8601_strict_after(date, rest)
}

/// The midnight in UTC of a text that is a day alone.
#[tactic(auto, unfolding(crate::specs::unzoned_day))]
pub(crate) fn parse_unzoned_day(text: &str) -> Option<Time>
    ensures day { result ≡ Spec.unzoned_day text.now }
    ensures offset_fits { IfSome result (λ t. IsOffsetSeconds t.offset) }
{
    let (date, rest) = read_plain_date(text)?;
    if !rest.is_empty() {
        return None;
    }
    let seconds = midnight_instant(date)?;
    Some(Time::new(seconds, 0))
}

/// What a day alone answers. The calendar check runs only if there is no instant.
#[tactic(auto, using(jiff_core::proofs::SignedLemmas::signed_arith, crate::proofs::Text::Ints::held, crate::proofs::Fields::AfterDay::day_with_instant))]
#[inline(always)]
fn real_day_answer(date: DateFields) -> Option<Answer<'static>>
    requires { Spec.DateFits date }
    ensures answer { option_map Spec.answer_of result ≡ Spec.answer_after [] Spec.real_day_answer date [] }
    ensures offset_fits { IfSome result Spec.HasJiffOffset }
{
    if let Some(seconds) = midnight_instant(date) {
        return Some(Answer::Absolute(Time::new(seconds, 0)));
    }
    if is_date(date) {
        return Some(Answer::NoInstant);
    }
    None
}

/// Reads an RFC 2822 date, `Thu, 18 Aug 2022 12:45:06 +0800`: the day's name and the seconds may be left
/// out, and a zone may be named.
#[tactic(auto, unfolding(crate::specs::rfc2822_answer))]
pub(crate) fn parse_rfc2822(text: &str) -> Option<Answer<'static>>
    ensures answer { option_map Spec.answer_of result ≡ Spec.rfc2822_answer text.now }
    ensures offset_fits { IfSome result Spec.HasJiffOffset }
{
    let date = skip_day_name(text).unwrap_or(text);
    let (day, rest) = read_field(date)?;
    let (month, rest) = read_month(skip_spaces(rest)?)?;
    let (year, rest) = read_year(skip_spaces(rest)?)?;
    rfc2822_after(DateFields { year, month, day }, skip_spaces(rest)?)
}

/// What an RFC 2822 date answers, after its year.
#[inline(always)]
fn rfc2822_after(date: DateFields, rest: &str) -> Option<Answer<'static>>
    requires { Spec.DateFits date }
    ensures answer { option_map Spec.answer_of result
        ≡ Spec.answer_after (Spec.Rfc2822Clock ∷ Spec.Spaces ∷ Spec.Rfc2822Offset ∷ []) Spec.time_answer date rest.now }
    ensures offset_fits { IfSome result Spec.HasJiffOffset }
{
    let (clock, rest) = read_clock(true, rest)?;
    let offset = parse_rfc2822_zone(skip_spaces(rest)?)?;
    date_answer(date, clock, offset)
}

/// What stands after a day's name, a comma and spaces.
#[tactic(auto, unfolding(crate::specs::skip_day_name))]
#[inline(always)]
pub(crate) fn skip_day_name(text: &str) -> Option<&str>
    ensures { option_copied result ≡ Spec.skip_day_name text.now }
{
    skip_spaces(skip_char(',', skip_weekday(text)?)?)
}

/// What an ISO 8601 date answers as Git prints it, after its day.
#[inline(always)]
fn iso8601_after(date: DateFields, rest: &str) -> Option<Answer<'static>>
    requires { Spec.DateFits date }
    ensures answer { option_map Spec.answer_of result
        ≡ Spec.answer_after (Spec.Spaces ∷ Spec.Clock ∷ Spec.Spaces ∷ Spec.Offset ∷ []) Spec.time_answer date rest.now }
    ensures offset_fits { IfSome result Spec.HasJiffOffset }
{
    let (clock, rest) = read_clock(false, skip_spaces(rest)?)?;
    let offset = parse_date_offset(false, skip_spaces(rest)?)?;
    date_answer(date, clock, offset)
}

/// What a strict ISO 8601 date answers, after its day.
#[inline(always)]
fn iso8601_strict_after(date: DateFields, rest: &str) -> Option<Answer<'static>>
    requires { Spec.DateFits date }
    ensures answer { option_map Spec.answer_of result
        ≡ Spec.answer_after (Spec.LetterT ∷ Spec.Clock ∷ Spec.ColonOffset ∷ []) Spec.time_answer date rest.now }
    ensures offset_fits { IfSome result Spec.HasJiffOffset }
{
    let (clock, rest) = read_clock(false, skip_char('T', rest)?)?;
    let offset = parse_date_offset(true, rest)?;
    date_answer(date, clock, offset)
}

/// Reads a date that begins with a day of the week, a month and a day: as gitoxide prints it, `Thu Aug 18 2022 12:45:06
/// +0800`; or as Git does by default, `Thu Aug 18 12:45:06 2022 +0800`. These three are read once for both.
#[tactic(auto, using(crate::proofs::Fields::AfterDay::named_days))]
pub(crate) fn parse_named_day(text: &str) -> Option<Answer<'static>>
    ensures answer { option_map Spec.answer_of result ≡ Spec.named_day_answer text.now }
    ensures offset_fits { IfSome result Spec.HasJiffOffset }
{
    let (date, rest) = read_named_day(text)?;
    if let Some(answer) = gitoxide_after(date, rest) {
        return Some(answer);
    }
    default_after(date, rest)
}

/// A day of the week, a month by its name, a day, and the spaces after each, with the year left at 0.
#[tactic(auto, unfolding(crate::specs::read_named_day))]
#[inline(always)]
fn read_named_day(text: &str) -> Option<(DateFields, &str)>
    ensures value { Spec.read_view result ≡ Spec.read_named_day text.now }
    ensures fits { IfSome result (λ found. Spec.DateFits found.0) }
{
    let (month, rest) = read_month(skip_spaces(skip_weekday(text)?)?)?;
    let (day, rest) = read_field(skip_spaces(rest)?)?;
    let rest = skip_spaces(rest)?;
    let year = 0;
    Some((DateFields { year, month, day }, rest))
}

/// What a date answers as gitoxide prints it, after its month and day. After the year it goes on as ISO 8601 does.
#[inline(always)]
fn gitoxide_after(date: DateFields, rest: &str) -> Option<Answer<'static>>
    requires { Spec.DateFits date }
    ensures answer { option_map Spec.answer_of result
        ≡ Spec.answer_after (Spec.Year ∷ Spec.Spaces ∷ Spec.Clock ∷ Spec.Spaces ∷ Spec.Offset ∷ []) Spec.time_answer date rest.now }
    ensures offset_fits { IfSome result Spec.HasJiffOffset }
{
    let (year, rest) = read_year(rest)?;
    iso8601_after(DateFields { year, ..date }, rest)
}

/// What a date answers as Git prints it by default, after its month and day.
#[inline(always)]
fn default_after(date: DateFields, rest: &str) -> Option<Answer<'static>>
    requires { Spec.DateFits date }
    ensures answer { option_map Spec.answer_of result
        ≡ Spec.answer_after (Spec.Clock ∷ Spec.Spaces ∷ Spec.Year ∷ Spec.Spaces ∷ Spec.Offset ∷ []) Spec.time_answer date rest.now }
    ensures offset_fits { IfSome result Spec.HasJiffOffset }
{
    let (clock, rest) = read_clock(false, rest)?;
    let (year, rest) = read_year(skip_spaces(rest)?)?;
    let offset = parse_date_offset(false, skip_spaces(rest)?)?;
    date_answer(DateFields { year, ..date }, clock, offset)
}

/// What a formatted date answers, where there is such an instant.
#[tactic(auto, unfolding(crate::specs::date_answer))]
#[inline(always)]
fn date_answer(
    date: DateFields,
    clock: ClockFields,
    offset: OffsetInSeconds,
) -> Option<Answer<'static>>
    requires date { Spec.DateFits date }
    requires clock { Spec.ClockFits clock }
    requires offset { IsOffsetSeconds offset }
    ensures answer { option_map Spec.answer_of result ≡ Spec.date_answer date clock offset }
    ensures offset_fits { IfSome result Spec.HasJiffOffset }
{
    let seconds = civil_instant(date, clock, offset)?;
    if offset.unsigned_abs() > MAX_OFFSET_IN_SECONDS {
        return Some(Answer::OffsetAboveDay);
    }
    Some(Answer::Absolute(Time::new(seconds, offset)))
}
