//! Git's own forms of a date.
ghost use Rattle.std.specs.Prelude.{◌≡◌, ◌<◌, ◌≤◌, if◌then◌else◌, IfSome, Some, None, option_map};
ghost use Rattle.jiff.specs.Words.{IsOffsetSeconds};
ghost use Rattle.gix_date.specs as Spec;

use crate::clock::{ClockFields, DateFields, civil_instant};
use crate::parsing::fields::{read_marked_date, skip_char, trimmed};
use crate::parsing::fronts::skip_git_clock;
use crate::parsing::git::clock::{parse_clock, parse_git_offset};
use crate::parsing::git::cut::clock_cut;
use crate::parsing::numbers::{read_two_digits, read_year};
use crate::time::{OffsetInSeconds, Time};

pub(crate) mod clock;
mod cut;

/// Reads a date in one of Git's own forms, with white space round it or none:
///
/// - dotted: `2008.02.14 20:30:45 -0500`;
/// - compact: `20080214T203045.019-04:00`;
/// - flexible: `2008-02-14 20:30:45 Z`, `2008-02-14T20 +05`.
///
/// `None` for any other text, for a date that does not exist, and without an instant of `jiff`.
#[tactic(auto, unfolding(crate::specs::git_time, crate::specs::git_form))]
pub(crate) fn parse_git_date_format(input: &str) -> Option<Time>
    ensures time { result ≡ Spec.git_time input.now }
    ensures offset_fits { IfSome result (λ t. IsOffsetSeconds t.offset) }
{
    let (date, rest) = read_front(trimmed(input))?;
    let (clock, offset) = clock_cut(trimmed(rest));
    parse_cut(date, clock, offset)
}

/// A date in one of Git's own forms, and how much of it is written.
#[derive(Clone, Copy)]
pub(crate) struct GitDate {
    pub(crate) time: Time,
    /// Whether an offset is written.
    pub(crate) has_offset: bool,
    /// Whether no character of the clock is dropped.
    pub(crate) is_whole: bool,
}

/// Reads a date in one of Git's own forms once, and how much of it is written.
#[tactic(auto, unfolding(crate::specs::git_time, crate::specs::git_form, crate::specs::unzoned_git_time, crate::specs::is_whole_git))]
pub(crate) fn parse_git_date(input: &str) -> Option<GitDate>
    ensures time { option_map (λ found. found.time) result ≡ Spec.git_time input.now }
    ensures unzoned { IfSome result (λ found. Spec.unzoned_git_time input.now ≡ (if found.has_offset then None else Some found.time)) }
    ensures whole { IfSome result (λ found. found.is_whole ≡ Spec.is_whole_git input.now) }
    ensures offset_fits { IfSome result (λ found. IsOffsetSeconds found.time.offset) }
{
    let (date, rest) = read_front(trimmed(input))?;
    let (clock, offset) = clock_cut(trimmed(rest));
    let time = parse_cut(date, clock, offset)?;
    Some(GitDate {
        time,
        has_offset: !offset.is_empty(),
        is_whole: is_whole_clock(clock),
    })
}

/// Whether no character of a clock's slice is dropped.
#[tactic(auto, unfolding(crate::specs::is_whole_clock))]
fn is_whole_clock(clock: &str) -> bool
    ensures { result ≡ Spec.is_whole_clock clock.now }
{
    match skip_git_clock(trimmed(clock)) {
        Some(rest) => rest.is_empty(),
        None => false,
    }
}

/// Reads a date in one of Git's own forms in which no offset is written: its time in UTC.
#[tactic(auto, unfolding(crate::specs::unzoned_git_time))]
pub(crate) fn parse_unzoned_git(input: &str) -> Option<Time>
    ensures { result ≡ Spec.unzoned_git_time input.now }
{
    let (date, rest) = read_front(trimmed(input))?;
    let (clock, offset) = clock_cut(trimmed(rest));
    if !offset.is_empty() {
        return None;
    }
    parse_cut(date, clock, offset)
}

/// The date of one of the three forms, and what stands after its gap.
#[tactic(auto, unfolding(crate::specs::git_front))]
pub(crate) fn read_front(text: &str) -> Option<(DateFields, &str)>
    ensures value { Spec.read_view result ≡ Spec.git_front text.now }
    ensures fits { IfSome result (λ found. Spec.DateFits found.0) }
{
    if let Some(front) = read_dotted_front(text) {
        return Some(front);
    }
    if let Some(front) = read_compact_front(text) {
        return Some(front);
    }
    read_flexible_front(text)
}

/// `YYYY.MM.DD`, and one space.
#[tactic(auto, unfolding(crate::specs::dotted_front))]
fn read_dotted_front(text: &str) -> Option<(DateFields, &str)>
    ensures value { Spec.read_view result ≡ Spec.dotted_front text.now }
    ensures fits { IfSome result (λ found. Spec.DateFits found.0) }
{
    let (date, rest) = read_marked_date('.', text)?;
    Some((date, skip_char(' ', rest)?))
}

/// `YYYYMMDD`, and `T`.
#[tactic(auto, unfolding(crate::specs::compact_front))]
fn read_compact_front(text: &str) -> Option<(DateFields, &str)>
    ensures value { Spec.read_view result ≡ Spec.compact_front text.now }
    ensures fits { IfSome result (λ found. Spec.DateFits found.0) }
{
    let (date, rest) = read_compact_date(text)?;
    Some((date, skip_char('T', rest)?))
}

/// `YYYY-MM-DD`, and `T` or one space.
#[tactic(auto, unfolding(crate::specs::flexible_front))]
fn read_flexible_front(text: &str) -> Option<(DateFields, &str)>
    ensures value { Spec.read_view result ≡ Spec.flexible_front text.now }
    ensures fits { IfSome result (λ found. Spec.DateFits found.0) }
{
    let (date, rest) = read_marked_date('-', text)?;
    if let Some(rest) = skip_char('T', rest) {
        return Some((date, rest));
    }
    Some((date, skip_char(' ', rest)?))
}

/// The time of a date, a clock and an offset.
#[tactic(auto, unfolding(crate::specs::time_of_cut))]
fn parse_cut(date: DateFields, clock: &str, offset: &str) -> Option<Time>
    requires { Spec.DateFits date }
    ensures time { result ≡ Spec.time_of_cut date (clock.now, offset.now) }
    ensures offset_fits { IfSome result (λ t. IsOffsetSeconds t.offset) }
{
    let clock = parse_clock(clock)?;
    let offset = parse_git_offset(offset)?;
    time_at(date, clock, offset)
}

/// The time of a date and a clock at an offset.
fn time_at(date: DateFields, clock: ClockFields, offset: OffsetInSeconds) -> Option<Time>
    requires date { Spec.DateFits date }
    requires clock { Spec.ClockFits clock }
    requires offset { IsOffsetSeconds offset }
    ensures time { result ≡ Spec.time_at date clock offset }
    ensures offset_fits { IfSome result (λ t. IsOffsetSeconds t.offset) }
{
    let seconds = civil_instant(date, clock, offset)?;
    Some(Time::new(seconds, offset))
}

/// A year of four digits, a month of two and a day of two, with no mark between them.
#[tactic(auto, unfolding(crate::specs::read_compact_date))]
#[inline(always)]
fn read_compact_date(text: &str) -> Option<(DateFields, &str)>
    ensures value { Spec.read_view result ≡ Spec.read_compact_date text.now }
    ensures fits { IfSome result (λ found. Spec.DateFits found.0) }
{
    let (year, rest) = read_year(text)?;
    let (month, rest) = read_two_digits(rest)?;
    let (day, rest) = read_two_digits(rest)?;
    Some((DateFields { year, month, day }, rest))
}
