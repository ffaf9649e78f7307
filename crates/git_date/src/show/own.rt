//! Dates as Git shows an identity line's own.
ghost use Rattle.std.specs.Prelude.{◌≡◌, ◌+◌, ◌≤◌, ◌<◌, ◌++◌, decimal, length, pos, false, true, unsigned_abs, MatchResult, OnOk, Ok, Err};
ghost use Rattle.std.specs.Int.Signed.{lt_z};
ghost use Rattle.arrayvec.specs.ArrayString.{array_string_len};
ghost use Rattle.jiff.specs.Words.{plain_zone};
ghost use Rattle.git_date.specs as Spec;
ghost use Rattle.gix_date.specs as GixDate;

use crate::clocks::zone_clock;
use crate::mode::{DateKind, DateMode};
use crate::show::ages::relative_text;
use crate::show::human::{Distance, distance_of, few_days_text, human_text};
use crate::show::{DateText, show_date_at};
use crate::zone_texts::offset_to_decimal;
use arrayvec::ArrayString;
use gix_date::Time;
use gix_date::clock::{
    Clock, local_seconds, push_bare_default, push_clock, push_date, push_day, push_month, push_year,
};
use gix_date::names::day_name;
use gix_date::time::LAST_OF_YEAR_9999;
use gix_signature::{GitTime, push_offset_digits};
use jiff::Timestamp;
use jiff::tz::TimeZone;
use thiserror::Error;

/// The most bytes that [`show_git_time`] shows: those of [`DateKind::Rfc2822`] with eight digits of an offset.
const MAX_OWN_LEN: usize = 35;

/// A shown date of an identity line, in a buffer of its own. It is ASCII.
pub type OwnDateText = ArrayString<MAX_OWN_LEN>;

/// No offset leads seconds after these back into the year 9999.
const LAST_BY_ANY_OFFSET: i64 = LAST_OF_YEAR_9999 + 2_147_483_648;

/// The offset by which Git marks that it is unknown, as its number.
const UNKNOWN_DECIMAL: i32 = -1;

/// Why [`show_git_time`] shows nothing.
#[derive(Clone, Copy, Debug, PartialEq, Eq, Error)]
pub enum OwnDateError {
    /// The clock shows a year after 9999, or no clock of the zone shows the time. Or the moment is before 1970.
    #[error("the date is after the year 9999 or leads to an instant that cannot be computed with")]
    Range,
    /// The time or the line's own clock is before 1970. Git ends: `Timestamp before Unix epoch`.
    #[error("the date is before 1970 by its own clock")]
    BeforeEpoch,
    /// The offset is more than 35791394 minutes, whose seconds 32 bits do not hold.
    #[error("the offset is more than 35791394 minutes")]
    OffsetTooWide,
}

/// The time of an identity line as `git log --date=MODE` shows it at this moment: by the line's own clock, and with the offset as
/// it is written. `+0060` stays `+0060`, where [`show_date`](crate::show_date) says `+0100`, and `+051800` is `+51800`.
///
/// A mode that is local, [`DateKind::Relative`] and [`DateKind::Unix`] show what [`show_date_at`](crate::show_date_at) shows of
/// the seconds. [`DateKind::Raw`] shows each offset, [`DateKind::Default`] each but `-0001`. [`DateKind::Human`] shows an offset
/// that is written otherwise than that of the zone at this moment.
///
/// The refusals:
/// - [`OwnDateError::BeforeEpoch`]: seconds below 0, which no line says. Of kinds with a clock, unless local, also a clock before
///   1970: here Git ends
/// - [`OwnDateError::OffsetTooWide`]: of the same kinds, an offset of more than 35791394 minutes either way
/// - [`OwnDateError::Range`]: of the same kinds, a clock after the year 9999, which Git shows; and where `show_date_at` refuses
///   seconds from 0 on: in local modes after 9999-12-30 22:00:00 UTC, and ages and human dates at a moment before 1970
///
/// Takes no memory.
#[tactic(auto, unfolding(crate::specs::own_date_shown, crate::specs::shown))]
pub fn show_git_time(
    time: GitTime,
    mode: DateMode,
    now: Timestamp,
    zone: TimeZone<'_>,
) -> Result<OwnDateText, OwnDateError>
    ensures { MatchResult result
        (λ text. Spec.own_date_shown (Spec.moment_at now.nanosecond (plain_zone zone.entry)) mode time ≡ Ok text.bytes)
        (λ e. Spec.own_date_shown (Spec.moment_at now.nanosecond (plain_zone zone.entry)) mode time ≡ Err e) }
{
    if time.seconds < 0 {
        return Err(OwnDateError::BeforeEpoch);
    }
    if mode.local || matches!(mode.kind, DateKind::Relative | DateKind::Unix) {
        let shown = show_date_at(Time::new(time.seconds, 0), mode, now, zone);
        return Ok(widened(shown.map_err(|_| OwnDateError::Range)?));
    }
    own_shown_by(time, mode.kind, now, zone)
}

/// The same text in a wider buffer.
fn widened(text: DateText) -> OwnDateText
    ensures bytes { result.bytes ≡ text.bytes }
    ensures len { array_string_len result ≡ array_string_len text }
{
    let mut wide = ArrayString::new();
    wide.push_str(&text);
    wide
}

/// What the kinds show that show a line's own offset or clock.
#[tactic(auto, using(crate::proofs::Printing::WrittenOffsets::by_clock))]
fn own_shown_by(
    time: GitTime,
    kind: DateKind,
    now: Timestamp,
    zone: TimeZone<'_>,
) -> Result<OwnDateText, OwnDateError>
    requires kind { Spec.is_without_offset kind ≡ false }
    requires seconds { lt_z time.seconds (pos 0) ≡ false }
    ensures { MatchResult result
        (λ text. Spec.own_date_shown_by kind (Spec.moment_at now.nanosecond (plain_zone zone.entry)) time ≡ Ok text.bytes)
        (λ e. Spec.own_date_shown_by kind (Spec.moment_at now.nanosecond (plain_zone zone.entry)) time ≡ Err e) }
{
    match kind {
        DateKind::Raw => Ok(own_raw_text(time)),
        DateKind::Human => human_shown(time, line_clock(time)?, now, zone),
        kind => own_clock_shown(time, kind),
    }
}

/// What a kind with a clock and nothing else shows, if the line has a clock.
fn own_clock_shown(time: GitTime, kind: DateKind) -> Result<OwnDateText, OwnDateError>
    requires kind { Spec.is_clock_kind kind ≡ true }
    requires seconds { lt_z time.seconds (pos 0) ≡ false }
    ensures { MatchResult result
        (λ text. Spec.own_clock_shown kind time ≡ Ok text.bytes)
        (λ e. Spec.own_clock_shown kind time ≡ Err e) }
{
    Ok(own_clock_text(kind, time.offset, line_clock(time)?))
}

/// A human date by the clock of a line and that of the moment.
fn human_shown(
    time: GitTime,
    clock: Clock,
    now: Timestamp,
    zone: TimeZone<'_>,
) -> Result<OwnDateText, OwnDateError>
    requires short { unsigned_abs time.offset < Spec.short_decimals }
    requires seconds { lt_z time.seconds (pos 0) ≡ false }
    ensures { MatchResult result
        (λ text. Spec.human_by (Spec.moment_at now.nanosecond (plain_zone zone.entry)) time
        (Spec.zone_clock (plain_zone zone.entry) (GixDate.whole_seconds now.nanosecond)) clock ≡ Ok text.bytes)
        (λ e. Spec.human_by (Spec.moment_at now.nanosecond (plain_zone zone.entry)) time
        (Spec.zone_clock (plain_zone zone.entry) (GixDate.whole_seconds now.nanosecond)) clock ≡ Err e) }
{
    let second = now.as_second();
    let today = zone_clock(second, zone).ok_or(OwnDateError::Range)?;
    let age = relative_text(second, time.seconds);
    Ok(own_human_text(time.offset, clock, today, age))
}

/// The seconds in decimal, and the offset as the line writes it.
#[tactic(auto, using(gix_signature::proofs::TimeTexts::any_offset))]
fn own_raw_text(time: GitTime) -> OwnDateText
    ensures { result.bytes ≡ GixDate.decimal_text time.seconds ++ Spec.spaced_offset_text time.offset }
{
    let mut text = ArrayString::new();
    text.push_str(itoa::Buffer::new().format(time.seconds));
    text.push_str(" ");
    push_written_offset(&mut text, "", time.offset);
    text
}

/// What a line's own clock shows.
#[tactic(auto, using(crate::proofs::Printing::WrittenOffsets::made_seconds, crate::proofs::Printing::WrittenOffsets::made_short), unfolding(crate::specs::line_clock))]
fn line_clock(time: GitTime) -> Result<Clock, OwnDateError>
    requires { lt_z time.seconds (pos 0) ≡ false }
    ensures value { result ≡ Spec.line_clock time }
    ensures short { OnOk result (unsigned_abs time.offset < Spec.short_decimals) }
{
    dated_clock(time.to_time().map_err(|_| OwnDateError::OffsetTooWide)?)
}

/// What a time's own clock shows from 1970 on, and in years of four digits.
fn dated_clock(time: Time) -> Result<Clock, OwnDateError>
    requires { lt_z time.seconds (pos 0) ≡ false }
    ensures { result ≡ Spec.dated_clock (GixDate.local_seconds time) }
{
    if LAST_BY_ANY_OFFSET < time.seconds {
        return Err(OwnDateError::Range);
    }
    let local = local_seconds(time);
    if local < 0 {
        Err(OwnDateError::BeforeEpoch)
    } else if LAST_OF_YEAR_9999 < local {
        Err(OwnDateError::Range)
    } else {
        Ok(Clock::of(Time::new(local, 0)))
    }
}

/// The most bytes of an offset's text: a sign, eight digits of hours and two of minutes.
const MAX_OFFSET_LEN: usize = 11;

/// The text of an offset, in a buffer of its own. It is ASCII.
pub type OffsetText = ArrayString<MAX_OFFSET_LEN>;

/// The text of an offset in seconds east of UTC, as Git writes it: a sign, hours in two digits or more, and two digits of minutes:
/// `+0530`, `-0130`, `+51800`. Seconds beyond whole minutes are dropped. [`crate::parse_offset`] reads it up to 25 hours. Takes no memory.
#[tactic(auto, using(gix_signature::proofs::TimeTexts::any_offset), unfolding(crate::specs::offset_text))]
pub fn offset_text(offset: i32) -> OffsetText
    ensures { result.bytes ≡ Spec.offset_text offset }
{
    let mut text = ArrayString::new();
    push_written_offset(&mut text, "", offset_to_decimal(offset));
    text
}

/// Appends an offset as it is written, with a mark before its minutes.
fn push_written_offset<const CAP: usize>(text: &mut ArrayString<CAP>, mark: &str, offset: i32)
    requires { array_string_len text.old + length (Spec.written_offset_text mark.now offset) ≤ CAP }
    ensures { text.new.bytes ≡ text.old.bytes ++ Spec.written_offset_text mark.now offset }
{
    text.push(if offset < 0 { '-' } else { '+' });
    push_offset_digits(text, mark, offset);
}

/// Appends a space and an offset as it is written.
#[tactic(auto, using(gix_date::proofs::Text::Ints::held, gix_signature::proofs::TimeTexts::short_offset))]
fn push_spaced_offset(text: &mut OwnDateText, offset: i32)
    requires short { unsigned_abs offset < Spec.short_decimals }
    requires room { array_string_len text.old + 10 ≤ MAX_OWN_LEN }
    ensures { text.new.bytes ≡ text.old.bytes ++ Spec.spaced_offset_text offset }
{
    text.push_str(" ");
    push_written_offset(text, "", offset);
}

/// Appends `Www, `.
#[tactic(auto, unfolding(crate::specs::before_day))]
fn push_day_name(text: &mut OwnDateText, t: Clock)
    requires { array_string_len text.old ≡ 0 }
    ensures bytes { text.new.bytes ≡ text.old.bytes ++ Spec.before_day t }
    ensures len { array_string_len text.new ≡ 5 }
{
    text.push_str(day_name(t.weekday()));
    text.push_str(", ");
}

/// Appends ` Mmm YYYY hh:mm:ss`.
#[tactic(auto, unfolding(crate::specs::then_month))]
fn push_from_month(text: &mut OwnDateText, t: Clock)
    requires { array_string_len text.old ≤ 7 }
    ensures bytes { text.new.bytes ≡ Spec.then_month text.old.bytes t }
    ensures len { array_string_len text.new ≤ 25 }
{
    text.push(' ');
    push_month(text, t);
    push_year(text, t);
    text.push(' ');
    push_clock(text, t);
}

/// Appends `Www, D Mmm YYYY hh:mm:ss`.
#[tactic(auto, using(crate::proofs::Printing::WrittenOffsets::front_is))]
fn push_rfc2822_front(text: &mut OwnDateText, t: Clock)
    requires { array_string_len text.old ≡ 0 }
    ensures bytes { text.new.bytes ≡ text.old.bytes ++ GixDate.print_pieces decimal Spec.rfc2822_front t }
    ensures len { array_string_len text.new ≤ 25 }
{
    push_day_name(text, t);
    push_day(text, t);
    push_from_month(text, t);
}

/// What a kind with a clock and nothing else shows of an offset and a clock.
#[tactic(auto, using(gix_signature::proofs::TimeTexts::short_offset))]
fn own_clock_text(kind: DateKind, offset: i32, t: Clock) -> OwnDateText
    requires kind { Spec.is_clock_kind kind ≡ true }
    requires short { unsigned_abs offset < Spec.short_decimals }
    ensures { result.bytes ≡ Spec.own_clock_text kind offset t }
{
    let mut text = ArrayString::new();
    match kind {
        DateKind::Iso8601Strict => {
            push_date(&mut text, t);
            text.push('T');
            push_clock(&mut text, t);
            push_written_offset(&mut text, ":", offset);
        }
        DateKind::Iso8601 => {
            push_date(&mut text, t);
            text.push(' ');
            push_clock(&mut text, t);
            push_spaced_offset(&mut text, offset);
        }
        DateKind::Rfc2822 => {
            push_rfc2822_front(&mut text, t);
            push_spaced_offset(&mut text, offset);
        }
        DateKind::Short => push_date(&mut text, t),
        DateKind::Default => {
            push_bare_default(&mut text, t);
            if offset != UNKNOWN_DECIMAL {
                push_spaced_offset(&mut text, offset);
            }
        }
        DateKind::Relative | DateKind::Human | DateKind::Unix | DateKind::Raw => unreachable!(),
    }
    text
}

/// A human date by the clock of a line and that of today.
fn own_human_text(offset: i32, t: Clock, today: Clock, age: DateText) -> OwnDateText
    requires { unsigned_abs offset < Spec.short_decimals }
    ensures { result.bytes ≡ Spec.own_human_text offset t today age.bytes }
{
    match distance_of(t, today) {
        Distance::FewDays => {
            let mut text = widened(few_days_text(true, t, today));
            if offset != offset_to_decimal(today.offset()) {
                push_spaced_offset(&mut text, offset);
            }
            text
        }
        Distance::OtherYear | Distance::SameDay | Distance::SameYear => {
            widened(human_text(true, t, today, age))
        }
    }
}
