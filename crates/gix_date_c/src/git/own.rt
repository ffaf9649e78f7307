//! The dates of identity lines as Git shows them.
ghost use Rattle.std.specs.Prelude.{◌≡◌};
ghost use Rattle.std.specs.Result.{result_map_both};
ghost use Rattle.jiff.specs.Words.{plain_zone};
ghost use Rattle.gix_date_c.specs as Spec;

use crate::git::show::{CMode, mode_of};
use crate::ident::{CGitTime, load_git_time};
use crate::moment::{CInstant, timestamp_of};
use crate::values::buffer::store_array;
use crate::values::status::Status;
use crate::zone::ShownZone;
use git_date::{OwnDateError, OwnDateText, show_git_time};
use gix_signature::GitTime;
use jiff::Timestamp;
use jiff::tz::TimeZone;

/// Puts the date of an identity line into a buffer as Git shows it, at a moment in a zone that C holds.
#[unsafe(no_mangle)]
pub extern "C" fn git_date_show_git_time_at(
    time: &CGitTime,
    mode: &CMode,
    now: &CInstant,
    zone: &ShownZone,
    out: &mut [u8],
    len: &mut usize,
) -> u32
    ensures { Spec.Puts (Spec.IsOwnShownIn (Spec.load_git_time time.now) mode.now (Spec.IsShown zone.now) now.now)
        out.old out.new len.new result }
{
    let shown = shown_at(load_git_time(time), mode, timestamp_of(now), zone.zone());
    store_array(shown, out, len)
}

/// What Git shows of the date of a line at an instant in a zone, where there are both.
fn shown_at(
    time: GitTime,
    mode: &CMode,
    now: Result<Timestamp, Status>,
    zone: Result<TimeZone<'_>, Status>,
) -> Result<OwnDateText, Status>
    ensures { result_map_both (λ text. text.bytes) (λ status. status) result
        ≡ Spec.own_shown_at time mode.now (Spec.placed (result_map_both (λ now. now.nanosecond) (λ status. status) now)
        (result_map_both plain_zone (λ status. status) zone.entry)) }
{
    let zone = zone?;
    let now = now?;
    let mode = mode_of(mode).ok_or(Status::NoSuchOption)?;
    show_git_time(time, mode, now, zone).map_err(own_status)
}

/// The status of a refusal.
fn own_status(error: OwnDateError) -> Status
    ensures { result ≡ Spec.own_status error }
{
    match error {
        OwnDateError::Range => Status::GitRange,
        OwnDateError::BeforeEpoch => Status::BeforeEpoch,
        OwnDateError::OffsetTooWide => Status::OffsetTooWide,
    }
}
