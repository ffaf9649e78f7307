//! A fast path for dates as Git prints them. `None` means only that a text has another form.
ghost use Rattle.std.specs.Prelude.{◌≡◌, ◌∷◌, [], IfSome};
ghost use Rattle.git_date.specs as Spec;
ghost use Rattle.gix_date.specs as GixDate;

use crate::fields::Fields;
use crate::fields::offsets::signed_minutes;
use gix_date::names::{day_name, month_name, month_of_word, weekday_of_word};

/// Year, month and day.
type Date = (u16, u8, u8);

/// Hour, minute and second.
type Clock = (u8, u8, u8);

/// How many bytes `2022-08-18` and `10:00` have.
const DATE_LEN: usize = 10;

const SHORT_CLOCK_LEN: usize = 5;

/// How many bytes ` Aug 2022`, ` 12:45:06 +0800` and ` 12:45:06 2022 +0800` have.
const MONTH_YEAR_LEN: usize = 9;

const TIME_LEN: usize = 15;

const YEAR_TIME_LEN: usize = 20;

/// The number that two digits write, if it is within these bounds.
#[inline(always)]
pub(crate) fn two(low: u8, high: u8, tens: u8, ones: u8) -> Option<u8>
    ensures { IfSome result (Spec.WritesTwo low high tens ones) }
{
    if !tens.is_ascii_digit() || !ones.is_ascii_digit() {
        return None;
    }
    let n = 10 * (tens - b'0') + (ones - b'0');
    (low <= n && n <= high).then_some(n)
}

/// The year that four digits write, if Git knows it.
#[inline(always)]
fn year(a: u8, b: u8, c: u8, d: u8) -> Option<u16>
    ensures { IfSome result (Spec.WritesYear (a ∷ b ∷ c ∷ d ∷ [])) }
{
    let century = two(19, 20, a, b)?;
    let years = two(0, 99, c, d)?;
    let n = 100 * u16::from(century) + u16::from(years);
    (1970 <= n).then_some(n)
}

/// The month that has this name, in the letter case that Git prints.
#[inline(always)]
fn month(a: u8, b: u8, c: u8) -> Option<u8>
    ensures { IfSome result (Spec.WritesMonth (a ∷ b ∷ c ∷ [])) }
{
    let name: &[u8] = &[a, b, c];
    let month = month_of_word(name)?;
    (month_name(month).as_bytes() == name).then_some(month)
}

/// The day of the week that has this name, in the letter case that Git prints, from 0 for Monday.
#[inline(always)]
fn weekday(a: u8, b: u8, c: u8) -> Option<u8>
    ensures { IfSome result (Spec.WritesWeekday (a ∷ b ∷ c ∷ [])) }
{
    let name: &[u8] = &[a, b, c];
    let weekday = weekday_of_word(name)?;
    (day_name(weekday).as_bytes() == name).then_some(weekday)
}

/// The date of `2022-08-18`, `2022.08.18` or `2022/08/18`.
#[inline(always)]
fn date(text: &[u8]) -> Option<Date>
    ensures { IfSome result (Spec.WritesDate text.now) }
{
    match text {
        [a, b, c, d, mark, e, f, again, g, h] if is_date_mark(*mark) && mark == again => {
            let year = year(*a, *b, *c, *d)?;
            let month = two(1, 12, *e, *f)?;
            let day = two(1, 31, *g, *h)?;
            Some((year, month, day))
        }
        _ => None,
    }
}

#[inline(always)]
fn is_date_mark(mark: u8) -> bool
    ensures { result ≡ Spec.is_date_mark mark }
{
    mark == b'-' || mark == b'.' || mark == b'/'
}

/// The day of `7`, `07` or `18`.
#[tactic(auto, using(crate::proofs::Exact::FastTexts::one_digit))]
#[inline(always)]
fn day(text: &[u8]) -> Option<u8>
    ensures { IfSome result (Spec.WritesDay text.now) }
{
    match text {
        [a] => two(1, 9, b'0', *a),
        [a, b] => two(1, 31, *a, *b),
        _ => None,
    }
}

/// The month and the year of ` Aug 2022`.
#[inline(always)]
fn month_year(text: &[u8]) -> Option<(u8, u16)>
    ensures { IfSome result (Spec.WritesMonthYear text.now) }
{
    match text {
        [space, a, b, c, again, d, e, f, g] if *space == b' ' && *again == b' ' => {
            let month = month(*a, *b, *c)?;
            let year = year(*d, *e, *f, *g)?;
            Some((month, year))
        }
        _ => None,
    }
}

/// The date of `18 Aug 2022`.
#[inline(always)]
fn mail_date(text: &[u8]) -> Option<Date>
    ensures { IfSome result (Spec.WritesMailDate text.now) }
{
    let (front, back) = text.split_at(text.len().checked_sub(MONTH_YEAR_LEN)?);
    let day = day(front)?;
    let (month, year) = month_year(back)?;
    Some((year, month, day))
}

/// The date of `Thu, 18 Aug 2022`.
#[inline(always)]
fn mail_day(text: &[u8]) -> Option<Date>
    ensures { IfSome result (Spec.WritesMailDay text.now) }
{
    match text {
        [a, b, c, comma, space, rest @ ..] if *comma == b',' && *space == b' ' => {
            let _weekday = weekday(*a, *b, *c)?;
            mail_date(rest)
        }
        _ => None,
    }
}

/// The month and the day of `Thu Aug 18`.
#[inline(always)]
fn named_day(text: &[u8]) -> Option<(u8, u8)>
    ensures { IfSome result (Spec.WritesNamedDay text.now) }
{
    match text {
        [a, b, c, space, d, e, f, again, rest @ ..] if *space == b' ' && *again == b' ' => {
            let _weekday = weekday(*a, *b, *c)?;
            let month = month(*d, *e, *f)?;
            let day = day(rest)?;
            Some((month, day))
        }
        _ => None,
    }
}

/// The clock of `12:45:06`.
#[inline(always)]
fn clock(text: &[u8]) -> Option<Clock>
    ensures { IfSome result (Spec.WritesClock text.now) }
{
    match text {
        [a, b, colon, c, d, again, e, f] if *colon == b':' && *again == b':' => {
            let hour = two(0, 23, *a, *b)?;
            let minute = two(0, 59, *c, *d)?;
            let second = two(0, 59, *e, *f)?;
            Some((hour, minute, second))
        }
        _ => None,
    }
}

/// The minutes of an offset. `-0001`, which is none, and `-0000` are left to the rules.
#[inline(always)]
fn minutes(sign: u8, a: u8, b: u8, c: u8, d: u8) -> Option<i16>
    ensures { IfSome result (Spec.WritesOffset GixDate.compact_offset_text (sign ∷ a ∷ b ∷ c ∷ d ∷ [])) }
{
    let hours = two(0, 23, a, b)?;
    let minutes = two(0, 59, c, d)?;
    let all = 60 * u32::from(hours) + u32::from(minutes);
    if sign == b'+' {
        Some(signed_minutes(false, all))
    } else if sign == b'-' && 1 < all {
        Some(signed_minutes(true, all))
    } else {
        None
    }
}

/// The minutes of `+0800`.
#[inline(always)]
pub(crate) fn offset(text: &[u8]) -> Option<i16>
    ensures { IfSome result (Spec.WritesOffset GixDate.compact_offset_text text.now) }
{
    match text {
        [sign, a, b, c, d] => minutes(*sign, *a, *b, *c, *d),
        _ => None,
    }
}

/// The minutes of `+08:00`.
#[inline(always)]
fn colon_offset(text: &[u8]) -> Option<i16>
    ensures { IfSome result (Spec.WritesOffset GixDate.strict_offset_text text.now) }
{
    match text {
        [sign, a, b, colon, c, d] if *colon == b':' => minutes(*sign, *a, *b, *c, *d),
        _ => None,
    }
}

/// The clock and the offset of ` 12:45:06 +0800`.
#[inline(always)]
fn time(text: &[u8]) -> Option<(Clock, i16)>
    ensures { IfSome result (Spec.WritesTime text.now) }
{
    if text.len() != TIME_LEN || text[0] != b' ' || text[9] != b' ' {
        return None;
    }
    let clock = clock(&text[1..9])?;
    let offset = offset(&text[10..])?;
    Some((clock, offset))
}

/// The clock and the offset of `T12:45:06+08:00`.
#[inline(always)]
fn strict_time(text: &[u8]) -> Option<(Clock, i16)>
    ensures { IfSome result (Spec.WritesStrictTime text.now) }
{
    if text.len() != TIME_LEN || text[0] != b'T' {
        return None;
    }
    let clock = clock(&text[1..9])?;
    let offset = colon_offset(&text[9..])?;
    Some((clock, offset))
}

/// The year and the offset of ` 2022 +0800`.
#[inline(always)]
fn year_offset(text: &[u8]) -> Option<(u16, i16)>
    ensures { IfSome result (Spec.WritesYearOffset text.now) }
{
    match text {
        [space, a, b, c, d, again, rest @ ..] if *space == b' ' && *again == b' ' => {
            let year = year(*a, *b, *c, *d)?;
            let offset = offset(rest)?;
            Some((year, offset))
        }
        _ => None,
    }
}

/// The clock, the year and the offset of ` 12:45:06 2022 +0800`.
#[inline(always)]
fn year_time(text: &[u8]) -> Option<(Clock, u16, i16)>
    ensures { IfSome result (Spec.WritesYearTime text.now) }
{
    if text.len() != YEAR_TIME_LEN || text[0] != b' ' {
        return None;
    }
    let clock = clock(&text[1..9])?;
    let (year, offset) = year_offset(&text[9..])?;
    Some((clock, year, offset))
}

#[inline(always)]
fn fields(date: Date, clock: Clock, offset: i16) -> Fields
    ensures { result ≡ Spec.fields_in date clock offset }
{
    Fields {
        year: Some(date.0),
        month: Some(date.1),
        day: Some(date.2),
        hour: Some(clock.0),
        minute: Some(clock.1),
        second: Some(clock.2),
        offset: Some(offset),
        epoch: false,
    }
}

/// The fields of a date alone.
#[inline(always)]
fn day_fields(date: Date) -> Fields
    ensures { result ≡ Spec.day_fields date }
{
    Fields {
        year: Some(date.0),
        month: Some(date.1),
        day: Some(date.2),
        ..Fields::UNKNOWN
    }
}

/// Those of a date and a clock without an offset.
#[inline(always)]
fn local_fields(date: Date, clock: Clock) -> Fields
    ensures { result ≡ Spec.local_fields date clock }
{
    Fields {
        hour: Some(clock.0),
        minute: Some(clock.1),
        second: Some(clock.2),
        ..day_fields(date)
    }
}

/// The clock of `10:00`.
#[inline(always)]
fn short_clock(text: &[u8]) -> Option<Clock>
    ensures { IfSome result (Spec.WritesShortClock text.now) }
{
    match text {
        [a, b, colon, c, d] if *colon == b':' => {
            let hour = two(0, 23, *a, *b)?;
            let minute = two(0, 59, *c, *d)?;
            Some((hour, minute, 0))
        }
        _ => None,
    }
}

/// The clock of `10:00` or `10:00:06`.
#[tactic(auto, using(crate::proofs::Exact::LocalClocks::short_or, crate::proofs::Exact::LocalClocks::or_whole))]
#[inline(always)]
fn any_clock(text: &[u8]) -> Option<Clock>
    ensures { IfSome result (Spec.WritesAnyClock text.now) }
{
    if text.len() == SHORT_CLOCK_LEN {
        short_clock(text)
    } else {
        clock(text)
    }
}

/// The clock after a space.
#[inline(always)]
fn spaced_clock(text: &[u8]) -> Option<Clock>
    ensures { IfSome result (Spec.WritesSpacedClock text.now) }
{
    match text {
        [space, rest @ ..] if *space == b' ' => any_clock(rest),
        _ => None,
    }
}

/// The fields of `2024-01-05`, `2024-01-05 10:00` or `2024-01-05 10:00:06`, which say no offset.
#[tactic(auto, using(gix_date::proofs::Text::Ints::held, crate::proofs::Exact::FastTexts::made_says, crate::proofs::Exact::FastTexts::joined, crate::proofs::Exact::LocalClocks::day_says, crate::proofs::Exact::LocalClocks::local_says))]
#[inline(always)]
pub(crate) fn local(text: &[u8]) -> Option<Fields>
    ensures { IfSome result (Spec.SaysFields text.now) }
{
    let (front, back) = text.split_at(DATE_LEN.min(text.len()));
    let date = date(front)?;
    if back.is_empty() {
        return Some(day_fields(date));
    }
    let clock = spaced_clock(back)?;
    Some(local_fields(date, clock))
}

/// The fields of `2022-08-18 12:45:06 +0800`.
#[tactic(auto, using(gix_date::proofs::Text::Ints::held, crate::proofs::Exact::FastTexts::made_says, crate::proofs::Exact::FastTexts::iso_says, crate::proofs::Exact::FastTexts::joined))]
#[inline(always)]
pub(crate) fn iso8601(text: &[u8]) -> Option<Fields>
    ensures { IfSome result (Spec.SaysFields text.now) }
{
    let (front, back) = text.split_at(text.len().checked_sub(TIME_LEN)?);
    let date = date(front)?;
    let (clock, offset) = time(back)?;
    Some(fields(date, clock, offset))
}

/// The fields of `2022-08-18T12:45:06+08:00`.
#[tactic(auto, using(gix_date::proofs::Text::Ints::held, crate::proofs::Exact::FastTexts::made_says, crate::proofs::Exact::FastTexts::strict_says, crate::proofs::Exact::FastTexts::joined))]
#[inline(always)]
pub(crate) fn iso8601_strict(text: &[u8]) -> Option<Fields>
    ensures { IfSome result (Spec.SaysFields text.now) }
{
    let (front, back) = text.split_at(text.len().checked_sub(TIME_LEN)?);
    let date = date(front)?;
    let (clock, offset) = strict_time(back)?;
    Some(fields(date, clock, offset))
}

/// The fields of `Thu, 18 Aug 2022 12:45:06 +0800`.
#[tactic(auto, using(gix_date::proofs::Text::Ints::held, crate::proofs::Exact::FastTexts::made_says, crate::proofs::Exact::FastTexts::mail_says, crate::proofs::Exact::FastTexts::joined))]
#[inline(always)]
pub(crate) fn rfc2822(text: &[u8]) -> Option<Fields>
    ensures { IfSome result (Spec.SaysFields text.now) }
{
    let (front, back) = text.split_at(text.len().checked_sub(TIME_LEN)?);
    let date = mail_day(front)?;
    let (clock, offset) = time(back)?;
    Some(fields(date, clock, offset))
}

/// The fields of `Thu Aug 18 12:45:06 2022 +0800`.
#[tactic(auto, using(gix_date::proofs::Text::Ints::held, crate::proofs::Exact::FastTexts::made_says, crate::proofs::Exact::FastTexts::default_says, crate::proofs::Exact::FastTexts::joined))]
#[inline(always)]
pub(crate) fn default(text: &[u8]) -> Option<Fields>
    ensures { IfSome result (Spec.SaysFields text.now) }
{
    let (front, back) = text.split_at(text.len().checked_sub(YEAR_TIME_LEN)?);
    let (month, day) = named_day(front)?;
    let (clock, year, offset) = year_time(back)?;
    Some(fields((year, month, day), clock, offset))
}
