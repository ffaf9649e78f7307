//! Dates as Git shows them.
ghost use Rattle.std.specs.Prelude.{◌≡◌, ◌<◌, ◌≤ℤ◌, pos, MatchResult, IfSome, option_map, unsigned_abs, false};
ghost use Rattle.std.specs.Int.Signed.{lt_z};
ghost use Rattle.jiff.specs.Words.{plain_zone};
ghost use Rattle.git_date.specs.declared.error.DateError.TheVariants.{Range};
ghost use Rattle.git_date.specs as Spec;
ghost use Rattle.gix_date.specs as GixDate;

mod ages;
mod dates;
mod human;
mod own;

use crate::clocks::{is_written_offset, own_clock, zone_clock};
use crate::error::DateError;
use crate::mode::{DateKind, DateMode};
pub use ages::Age;
use ages::{age_between, relative_text};
use arrayvec::ArrayString;
use dates::{push_clock_text, raw_text, unix_text};
use gix_date::clock::Clock;
use gix_date::{Time, Zoned};
use human::human_text;
use jiff::Timestamp;
use jiff::tz::TimeZone;
pub use own::{OffsetText, OwnDateError, OwnDateText, offset_text, show_git_time};

/// The most bytes of a shown date: those of [`DateKind::Rfc2822`].
const MAX_DATE_LEN: usize = 31;

/// A shown date, in a buffer of its own. It is ASCII.
pub type DateText = ArrayString<MAX_DATE_LEN>;

/// A date as `git log --date=MODE` shows it at this moment.
///
/// A mode that is local shows the clock of the moment's zone. Git says the offset of that clock in whole minutes, and as 0
/// in years outside 1970 to 2099. Other modes show the time's own clock. [`DateKind::Default`] shows no offset of a local
/// clock, nor of an unknown one (`-0001`).
///
/// [`DateError::Range`] is the only refusal, for these:
/// - in every mode, a time before 1970
/// - [`DateKind::Relative`] and [`DateKind::Human`], local or not: a moment whose whole seconds are before 1970, where Git's
///   ages wrap
/// - [`DateKind::Raw`] and all kinds with a clock, unless local: an offset with seconds, or of 100 hours or more
/// - kinds with a clock, unless local: a clock before 1970; a time or a clock after the year 9999
/// - the same kinds and [`DateKind::Raw`], if local: a time after 9999-12-30 22:00:00 UTC, the last second of `jiff`
///
/// Git itself shows offsets of 100 hours and years above 9999. All kinds but [`DateKind::Relative`], [`DateKind::Unix`] and
/// [`DateKind::Raw`] have a clock. Takes no memory.
pub fn show_date(time: Time, mode: DateMode, now: Zoned<'_>) -> Result<DateText, DateError>
    ensures { MatchResult result
        (λ text. Spec.shown (Spec.moment_of now.entry) mode time ≡ Some text.bytes)
        (λ e. (e ≡ Range) × (Spec.shown (Spec.moment_of now.entry) mode time ≡ None)) }
{
    show_date_at(time, mode, now.timestamp(), now.time_zone())
}

/// [`show_date`] at an instant in a zone, without the clock of both.
#[tactic(auto, unfolding(crate::specs::shown))]
pub fn show_date_at(
    time: Time,
    mode: DateMode,
    now: Timestamp,
    zone: TimeZone<'_>,
) -> Result<DateText, DateError>
    ensures { MatchResult result
        (λ text. Spec.shown (Spec.moment_at now.nanosecond (plain_zone zone.entry)) mode time ≡ Some text.bytes)
        (λ e. (e ≡ Range) × (Spec.shown (Spec.moment_at now.nanosecond (plain_zone zone.entry)) mode time ≡ None)) }
{
    if time.seconds < 0 {
        return Err(DateError::Range);
    }
    shown_by(time, mode, now, zone).ok_or(DateError::Range)
}

/// How long before a moment a time was, as [`DateKind::Relative`] shows it: for a program that says it in another language.
/// `None` is a time after the moment, which Git shows as `in the future`.
///
/// [`DateError::Range`] for a time or a moment whose whole seconds are before 1970. Takes no memory.
#[tactic(auto, unfolding(crate::specs::age_answer))]
pub fn age_at(time: Time, now: Timestamp) -> Result<Option<Age>, DateError>
    ensures { result ≡ Spec.age_answer (GixDate.whole_seconds now.nanosecond) time.seconds }
{
    let second = now.as_second();
    if time.seconds < 0 || second < 0 {
        return Err(DateError::Range);
    }
    Ok(age_between(second, time.seconds))
}

/// The clock by which a time is shown. Inlined, so that a zone that is not looked at is not copied.
#[inline(always)]
fn shown_clock(time: Time, local: bool, now: Timestamp, zone: TimeZone<'_>) -> Option<Clock>
    ensures { result ≡ Spec.shown_clock (Spec.moment_at now.nanosecond (plain_zone zone.entry)) local time }
{
    if local {
        zone_clock(time.seconds, zone)
    } else {
        own_clock(time)
    }
}

/// The offset that is shown without a clock.
#[tactic(auto, unfolding(crate::specs::shown_offset))]
fn shown_offset(time: Time, local: bool, now: Timestamp, zone: TimeZone<'_>) -> Option<i32>
    ensures value { result ≡ Spec.shown_offset (Spec.moment_at now.nanosecond (plain_zone zone.entry)) local time }
    ensures short { IfSome result (λ offset. unsigned_abs offset < GixDate.hundred_hours) }
{
    if local {
        return Some(zone_clock(time.seconds, zone)?.offset());
    }
    is_written_offset(time.offset).then_some(time.offset)
}

/// How long ago a time was. `None` at a moment before 1970, where Git's ages wrap.
#[tactic(auto, unfolding(crate::specs::relative_shown))]
fn relative_shown(now: i64, seconds: i64) -> Option<DateText>
    requires now { now ≤ℤ GixDate.last_second }
    requires seconds { lt_z seconds (pos 0) ≡ false }
    ensures { option_map (λ text. text.bytes) result ≡ Spec.relative_shown now seconds }
{
    if now < 0 {
        return None;
    }
    Some(relative_text(now, seconds))
}

/// What each kind shows of a time from 1970 on.
fn shown_by(time: Time, mode: DateMode, now: Timestamp, zone: TimeZone<'_>) -> Option<DateText>
    requires { lt_z time.seconds (pos 0) ≡ false }
    ensures { option_map (λ text. text.bytes) result
        ≡ Spec.shown_by mode.kind (Spec.moment_at now.nanosecond (plain_zone zone.entry)) mode.local time }
{
    match mode.kind {
        DateKind::Unix => Some(unix_text(time.seconds)),
        DateKind::Raw => Some(raw_text(time.seconds, shown_offset(time, mode.local, now, zone)?)),
        _ => shown_apart(time, mode, now, zone),
    }
}

/// What the kinds show that do not show a time as it is stored. They need more room, which costs the others a third.
#[inline(never)]
fn shown_apart(time: Time, mode: DateMode, now: Timestamp, zone: TimeZone<'_>) -> Option<DateText>
    requires kind { Spec.is_stored mode.kind ≡ false }
    requires seconds { lt_z time.seconds (pos 0) ≡ false }
    ensures { option_map (λ text. text.bytes) result
        ≡ Spec.shown_by mode.kind (Spec.moment_at now.nanosecond (plain_zone zone.entry)) mode.local time }
{
    let local = mode.local;
    match mode.kind {
        DateKind::Relative => relative_shown(now.as_second(), time.seconds),
        DateKind::Human => {
            let second = now.as_second();
            let shown = shown_clock(time, local, now, zone)?;
            let today = zone_clock(second, zone)?;
            let age = relative_text(second, time.seconds);
            Some(human_text(local, shown, today, age))
        }
        kind => {
            let mut text = ArrayString::new();
            push_clock_text(&mut text, kind, local, shown_clock(time, local, now, zone)?);
            Some(text)
        }
    }
}
