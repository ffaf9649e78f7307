//! Dates as Git shows them.
ghost use Rattle.std.specs.Prelude.{◌≡◌};
ghost use Rattle.std.specs.Result.{result_map_both};
ghost use Rattle.jiff.specs.Words.{plain_zone};
ghost use Rattle.gix_date_c.specs as Spec;

use crate::moment::{CInstant, timestamp_of};
use crate::values::buffer::store_array;
use crate::values::status::Status;
use crate::values::store::store;
use crate::values::text::utf8_text;
use crate::values::time::{CTime, load_time};
use crate::zone::ShownZone;
use git_date::{DateKind, DateMode, DateText, show_date_at};
use gix_date::Time;
use jiff::Timestamp;
use jiff::tz::TimeZone;

/// How a date is shown: `struct git_date_mode`. Its last field is a `bool` of C.
#[repr(C)]
#[derive(Clone, Copy)]
pub struct CMode {
    pub kind: u32,
    pub local: u8,
}

/// The mode of one of Git's names.
#[unsafe(no_mangle)]
pub extern "C" fn git_date_mode_named(name: &[u8], mode: &mut CMode) -> u32
    ensures { Spec.Stores (Spec.mode_answer name.now) mode.old mode.new result }
{
    store(mode_named(name), mode)
}

/// Puts a date into a buffer as Git shows it, at a moment in a zone that C holds.
#[unsafe(no_mangle)]
pub extern "C" fn git_date_show_at(
    time: &CTime,
    mode: &CMode,
    now: &CInstant,
    zone: &ShownZone,
    out: &mut [u8],
    len: &mut usize,
) -> u32
    ensures { Spec.Puts (Spec.IsShownIn (Spec.load_time time.now) mode.now (Spec.IsShown zone.now) now.now) out.old out.new len.new result }
{
    let shown = shown_at(load_time(time), mode, timestamp_of(now), zone.zone());
    store_array(shown, out, len)
}

/// What Git shows of a time at an instant in a zone, where there are both.
fn shown_at(
    time: Time,
    mode: &CMode,
    now: Result<Timestamp, Status>,
    zone: Result<TimeZone<'_>, Status>,
) -> Result<DateText, Status>
    ensures { result_map_both (λ text. text.bytes) (λ status. status) result
        ≡ Spec.shown_at time mode.now (Spec.placed (result_map_both (λ now. now.nanosecond) (λ status. status) now)
        (result_map_both plain_zone (λ status. status) zone.entry)) }
{
    let zone = zone?;
    let now = now?;
    let mode = mode_of(mode).ok_or(Status::NoSuchOption)?;
    show_date_at(time, mode, now, zone).map_err(|_| Status::GitRange)
}

/// The mode that a name of Git's says, as C has it.
fn mode_named(name: &[u8]) -> Result<CMode, Status>
    ensures { result ≡ Spec.mode_answer name.now }
{
    let mode = utf8_text(name)?.parse::<DateMode>();
    mode.map(mode_for_c).map_err(|_| Status::NoSuchOption)
}

fn mode_for_c(mode: DateMode) -> CMode
    ensures { result ≡ Spec.mode_for_c mode }
{
    CMode {
        kind: mode.kind as u32,
        local: u8::from(mode.local),
    }
}

/// The mode of these numbers.
pub(crate) fn mode_of(mode: &CMode) -> Option<DateMode>
    ensures { result ≡ Spec.mode_of mode.now }
{
    Some(DateMode {
        kind: kind_of(mode.kind)?,
        local: local_of(mode.local)?,
    })
}

fn kind_of(number: u32) -> Option<DateKind>
    ensures { result ≡ Spec.kind_numbered number }
{
    match number {
        0 => Some(DateKind::Relative),
        1 => Some(DateKind::Iso8601Strict),
        2 => Some(DateKind::Iso8601),
        3 => Some(DateKind::Rfc2822),
        4 => Some(DateKind::Short),
        5 => Some(DateKind::Default),
        6 => Some(DateKind::Human),
        7 => Some(DateKind::Raw),
        8 => Some(DateKind::Unix),
        _ => None,
    }
}

/// Whether the clock is the zone's, by a `bool` of C.
pub(crate) fn local_of(number: u8) -> Option<bool>
    ensures { result ≡ Spec.local_of number }
{
    match number {
        0 => Some(false),
        1 => Some(true),
        _ => None,
    }
}
