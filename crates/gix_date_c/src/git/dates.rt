//! Dates as Git reads them: exactly, as people write them, and what expires.
ghost use Rattle.std.specs.Prelude.{◌≡◌};
ghost use Rattle.std.specs.Result.{result_map_both};
ghost use Rattle.jiff.specs.Words.{plain_zone};
ghost use Rattle.gix_date_c.specs as Spec;

use crate::git::{date_refusal, ignored_place};
use crate::moment::{CInstant, timestamp_of};
use crate::values::refusal::Refusal;
use crate::values::status::Status;
use crate::values::store::store_read;
use crate::values::time::{CTime, time_for_c};
use crate::zone::ShownZone;
use git_date::{
    Approximate, ExactDate, Expiry, approxidate, expiry_date, parse_date, parse_date_at,
};
use gix_date::Zoned;
use jiff::Timestamp;
use jiff::tz::TimeZone;

/// A date that is read exactly: `struct git_date_exact`. Its last field is a `bool` of C.
#[repr(C)]
#[derive(Clone, Copy)]
pub struct CExact {
    pub time: CTime,
    pub ignored: usize,
    pub has_offset: u8,
}

/// Reads a date as Git does, at a moment in a zone that C holds.
#[unsafe(no_mangle)]
pub extern "C" fn git_date_parse_at(
    text: &[u8],
    now: &CInstant,
    zone: &ShownZone,
    date: &mut CExact,
    place: &mut usize,
) -> u32
    ensures { Spec.StoresRead (Spec.IsReadPlaced Spec.IsExact (Spec.IsShown zone.now) now.now text.now)
        (date.old, place.old) (date.new, place.new) result }
{
    let answer = read_exact(text, timestamp_of(now), zone.zone());
    store_read(answer, date, place)
}

/// What a text says at an instant in a zone, where there are both.
fn read_exact(
    text: &[u8],
    now: Result<Timestamp, Status>,
    zone: Result<TimeZone<'_>, Status>,
) -> Result<CExact, Refusal>
    ensures { Spec.IsReadAt Spec.IsExact (Spec.placed (result_map_both (λ now. now.nanosecond) (λ status. status) now)
        (result_map_both plain_zone (λ status. status) zone.entry)) text.now result }
{
    let zone = zone.map_err(Refusal::of)?;
    let now = now.map_err(Refusal::of)?;
    let date = parse_date_at(text, now, zone).map_err(date_refusal)?;
    Ok(exact_of(date))
}

/// What a text says at a moment, where there is one.
pub(crate) fn read_exact_now(text: &[u8], now: Result<Zoned<'_>, Status>) -> Result<CExact, Refusal>
    ensures { Spec.IsReadAt Spec.IsExact (Spec.place_of now.entry) text.now result }
{
    let now = now.map_err(Refusal::of)?;
    let date = parse_date(text, now).map_err(date_refusal)?;
    Ok(exact_of(date))
}

/// A date as C has it.
fn exact_of(date: ExactDate) -> CExact
    ensures { result ≡ Spec.exact_of date }
{
    CExact {
        time: time_for_c(date.time),
        ignored: ignored_place(date.ignored),
        has_offset: u8::from(date.has_offset),
    }
}

/// A date that is read as people write it: `struct git_date_approximate`. Its last field is a `bool` of C.
#[repr(C)]
#[derive(Clone, Copy)]
pub struct CApproximate {
    pub time: CTime,
    pub ignored: usize,
    pub understood: u8,
}

/// Reads a date as people write it, at a moment in a zone that C holds.
#[unsafe(no_mangle)]
pub extern "C" fn git_date_approxidate_at(
    text: &[u8],
    now: &CInstant,
    zone: &ShownZone,
    date: &mut CApproximate,
    place: &mut usize,
) -> u32
    ensures { Spec.StoresRead (Spec.IsReadIn Spec.IsApproximate (Spec.IsShown zone.now) now.now text.now)
        (date.old, place.old) (date.new, place.new) result }
{
    let answer = read_approximate(text, zone.moment(now));
    store_read(answer, date, place)
}

/// What a text says at a moment, where there is one.
pub(crate) fn read_approximate(
    text: &[u8],
    now: Result<Zoned<'_>, Status>,
) -> Result<CApproximate, Refusal>
    ensures { Spec.IsReadAt Spec.IsApproximate now.entry text.now result }
{
    let now = now.map_err(Refusal::of)?;
    let date = approxidate(text, now).map_err(date_refusal)?;
    Ok(approximate_of(date))
}

/// A date as C has it.
fn approximate_of(date: Approximate) -> CApproximate
    ensures { result ≡ Spec.approximate_of date }
{
    CApproximate {
        time: time_for_c(date.time),
        ignored: ignored_place(date.ignored),
        understood: u8::from(date.understood),
    }
}

/// What expires: `struct git_date_expiry`. The date is one only of the last kind.
#[repr(C)]
#[derive(Clone, Copy)]
pub struct CExpiry {
    pub kind: u32,
    pub before: CApproximate,
}

/// Reads what expires, at a moment in a zone that C holds.
#[unsafe(no_mangle)]
pub extern "C" fn git_date_expiry_at(
    text: &[u8],
    now: &CInstant,
    zone: &ShownZone,
    expiry: &mut CExpiry,
    place: &mut usize,
) -> u32
    ensures { Spec.StoresRead (Spec.IsReadIn (Spec.IsExpiry expiry.old) (Spec.IsShown zone.now) now.now text.now)
        (expiry.old, place.old) (expiry.new, place.new) result }
{
    let answer = read_expiry(text, zone.moment(now), *expiry);
    store_read(answer, expiry, place)
}

/// What expires by a text at a moment, where there is one. What is no date leaves the date that was there before.
fn read_expiry(
    text: &[u8],
    now: Result<Zoned<'_>, Status>,
    old: CExpiry,
) -> Result<CExpiry, Refusal>
    ensures { Spec.IsReadAt (Spec.IsExpiry old) now.entry text.now result }
{
    let now = now.map_err(Refusal::of)?;
    let expiry = expiry_date(text, now).map_err(date_refusal)?;
    Ok(expiry_of(old, expiry))
}

/// What expires, as C has it.
fn expiry_of(old: CExpiry, expiry: Expiry) -> CExpiry
    ensures { result ≡ Spec.expiry_of old expiry }
{
    match expiry {
        Expiry::Never => CExpiry { kind: 0, ..old },
        Expiry::All => CExpiry { kind: 1, ..old },
        Expiry::Before(date) => CExpiry {
            kind: 2,
            before: approximate_of(date),
        },
    }
}
