//! Dates by a pattern, as `git log --date=format:PATTERN` shows them.
ghost use Rattle.std.specs.Prelude.{◌≡◌, false, Some, Ok, IsTrue, string_bytes, option_map, MatchResult};
ghost use Rattle.jiff.specs.Types.{TimeZone as Zone};
ghost use Rattle.jiff.specs.Words.{plain_zone};
ghost use Rattle.git_date.specs as Spec;

mod begun;
mod checked;
mod chunks;
mod directives;
mod error;
mod flags;
mod names;
mod numbers;
mod pieces;
mod shown;
mod texts;
mod usual;
mod walks;

pub use checked::DateFormat;
pub use error::{FormatFault, ShowError};
use gix_date::device::Sink;
use gix_date::{Time, Zoned};
use jiff::tz::TimeZone;
use shown::{Shown, own_shown, shown_at};
use std::alloc::Global;
pub use walks::{BriefText, ShortText};
use walks::{asks_seconds, push_short, push_shown, put_shown};

/// Writes a date as `git log --date=format:PATTERN` shows it, or `format-local:PATTERN` at this moment.
///
/// A local date is by the clock of the moment's zone, of which `%Z` is the abbreviation, as `jiff` has it. Others are by the
/// time's own clock, which has no abbreviation: there `%Z` is nothing. Names are English.
///
/// [`ShowError::Range`] where [`show_date`](crate::show_date) refuses a clock, and if `%s` is asked of a clock outside the
/// years 1970 to 2099: nothing is written. [`ShowError::Write`] carries the writer's fault after a proper prefix of the
/// text. There is no flush. Takes no memory of its own.
pub fn show_by_format<W: Sink>(
    time: Time,
    format: DateFormat<'_>,
    local: bool,
    now: Zoned<'_>,
    out: &mut W,
) -> Result<(), ShowError>
    ensures { Spec.WritesShown (Spec.shown_by_format (Spec.moment_of now.entry).zone local (Spec.format_bytes format.entry) time)
        (W.known out.old) (W.known out.new) result }
{
    let shown = shown_for(time, format, local, now.time_zone()).ok_or(ShowError::Range)?;
    put_shown(format.text, &shown, out).map_err(ShowError::Write)
}

/// The text that [`show_by_format`] writes.
///
/// [`ShowError::Range`] as there, before any memory is taken. [`ShowError::Memory`] where memory for the text is refused.
pub fn text_by_format(
    alloc: Global,
    time: Time,
    format: DateFormat<'_>,
    local: bool,
    now: Zoned<'_>,
) -> Result<String, ShowError>
    ensures { MatchResult result
        (λ text. Spec.shown_by_format (Spec.moment_of now.entry).zone local (Spec.format_bytes format.entry) time
        ≡ Some (string_bytes text))
        (Spec.RefusesText (Spec.shown_by_format (Spec.moment_of now.entry).zone local (Spec.format_bytes format.entry) time)) }
{
    text_by_format_in_zone(alloc, time, format, local, now.time_zone())
}

/// [`text_by_format`] in a zone, which is all that a format needs of a moment.
pub fn text_by_format_in_zone(
    alloc: Global,
    time: Time,
    format: DateFormat<'_>,
    local: bool,
    zone: TimeZone<'_>,
) -> Result<String, ShowError>
    ensures { MatchResult result
        (λ text. Spec.shown_by_format (plain_zone zone.entry) local (Spec.format_bytes format.entry) time ≡ Some (string_bytes text))
        (Spec.RefusesText (Spec.shown_by_format (plain_zone zone.entry) local (Spec.format_bytes format.entry) time)) }
{
    let shown = shown_for(time, format, local, zone).ok_or(ShowError::Range)?;
    let mut text = String::new(alloc);
    push_shown(format.text, &shown, &mut text).map_err(|_| ShowError::Memory)?;
    Ok(text)
}

/// Puts what [`text_by_format_in_zone`] gives by a format that was not checked into a text of at most 255 bytes, by one walk over
/// the format.
///
/// `false` says nothing: the format may have a fault, the time no such clock, or the text no room. Then ask
/// [`DateFormat::new`] and [`text_by_format_in_zone`]. Years after 2099 are never shown so. Takes no memory.
#[tactic(auto, using(crate::proofs::Formats::Walks::whole_checked), unfolding(crate::specs::shown_by_format))]
pub fn text_by_format_short(
    time: Time,
    format: &str,
    local: bool,
    zone: TimeZone<'_>,
    out: &mut ShortText,
) -> bool
    ensures whole { IsTrue result → Spec.checked format.now ≡ Ok format.now }
    ensures shown { IsTrue result
        → Spec.shown_by_format (plain_zone zone.entry) local format.now time ≡ Some out.new.bytes }
{
    out.clear();
    match shown_at(time, local, zone) {
        Some(shown) if shown.seconds.is_some() => push_short(out, format, &shown),
        _ => false,
    }
}

/// The same by the time's own clock, for which no zone matters, into a text of at most 120 bytes.
#[tactic(auto, using(crate::proofs::Formats::Walks::whole_checked), unfolding(crate::specs::shown_by_format))]
pub fn text_by_format_brief(time: Time, format: &str, out: &mut BriefText) -> bool
    ensures whole { IsTrue result → Spec.checked format.now ≡ Ok format.now }
    ensures shown { IsTrue result → (zone : Zone) → Spec.shown_by_format zone false format.now time ≡ Some out.new.bytes }
{
    out.clear();
    match own_shown(time) {
        Some(shown) if shown.seconds.is_some() => push_short(out, format, &shown),
        _ => false,
    }
}

/// What the format shows of a time, if it can show all that it asks for.
#[tactic(auto, unfolding(crate::specs::shown_by_format))]
fn shown_for(time: Time, format: DateFormat<'_>, local: bool, zone: TimeZone<'_>) -> Option<Shown>
    ensures { option_map (λ shown. Spec.pieces_text (Spec.shown_of shown) (Spec.pieces_or_none (Spec.format_bytes format.entry))) result
        ≡ Spec.shown_by_format (plain_zone zone.entry) local (Spec.format_bytes format.entry) time }
{
    let shown = shown_at(time, local, zone)?;
    if shown.seconds.is_none() && asks_seconds(format.text) {
        return None;
    }
    Some(shown)
}
