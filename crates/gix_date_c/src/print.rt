//! Times printed by named formats and patterns, and dates by those of Git.
ghost use Rattle.std.specs.Prelude.{◌≡◌, Result, Some, Ok, string_bytes, IsTrue};
ghost use Rattle.std.specs.Str.{is_utf8};
ghost use Rattle.gix_date_c.specs as Spec;
ghost use Rattle.gix_date.specs as GixDate;
ghost use Rattle.std.specs.Result.{result_map_both};
ghost use Rattle.jiff.specs.Types.{TimeZone as Zone};
ghost use Rattle.jiff.specs.Words.{plain_zone};
ghost use Rattle.git_date.specs as GitDate;

use crate::git::show::local_of;
use crate::values::buffer::store_text;
use crate::values::refusal::{Refusal, store_place};
use crate::values::status::Status;
use crate::values::text::utf8_text;
use crate::values::time::{CTime, load_time};
use crate::zone::ShownZone;
use git_date::{
    BriefText, DateFormat, FormatFault, ShortText, ShowError, text_by_format_brief,
    text_by_format_in_zone, text_by_format_short,
};
use gix_date::time::format::{Format, PatternBuf, format_numbered};
use gix_date::{Error, Time};
use jiff::tz::TimeZone;
use std::alloc::Global;

/// Puts the text of a time in a named format into a buffer.
#[unsafe(no_mangle)]
pub extern "C" fn gix_date_format(
    alloc: Global,
    time: &CTime,
    format: u32,
    out: &mut [u8],
    len: &mut usize,
) -> u32
    ensures { Spec.Puts (Spec.IsFormatted (GixDate.Prints (Spec.load_time time.now)) format) out.old out.new len.new result }
{
    put_formatted(alloc, time, format, false, out, len)
}

/// Prints as [`gix_date_format`] does, but the seconds for a time that has no text in that format.
#[unsafe(no_mangle)]
pub extern "C" fn gix_date_format_or_unix(
    alloc: Global,
    time: &CTime,
    format: u32,
    out: &mut [u8],
    len: &mut usize,
) -> u32
    ensures { Spec.Puts (Spec.IsFormatted (GixDate.PrintsOrSeconds (Spec.load_time time.now)) format) out.old out.new len.new result }
{
    put_formatted(alloc, time, format, true, out, len)
}

/// Puts the text of a time by a pattern into a buffer.
#[unsafe(no_mangle)]
pub extern "C" fn gix_date_format_by_pattern(
    alloc: Global,
    time: &CTime,
    pattern: &[u8],
    out: &mut [u8],
    len: &mut usize,
) -> u32
    ensures { Spec.Puts (Spec.IsPatternPrinted (GixDate.PrintsPattern (Spec.load_time time.now) pattern.now) (is_utf8 pattern.now))
        out.old out.new len.new result }
{
    put_by_pattern(alloc, time, pattern, false, out, len)
}

/// Prints as [`gix_date_format_by_pattern`] does, but the seconds for a time that has no text by that pattern.
#[unsafe(no_mangle)]
pub extern "C" fn gix_date_format_by_pattern_or_unix(
    alloc: Global,
    time: &CTime,
    pattern: &[u8],
    out: &mut [u8],
    len: &mut usize,
) -> u32
    ensures { Spec.Puts (Spec.IsPatternPrinted (GixDate.PrintsPatternOrSeconds (Spec.load_time time.now) pattern.now) (is_utf8 pattern.now))
        out.old out.new len.new result }
{
    put_by_pattern(alloc, time, pattern, true, out, len)
}

/// Puts a time in the format of a number into a buffer, or the seconds of one that has no such text, if they are wanted.
#[tactic(auto, using(crate::proofs::Printed::no_format))]
#[inline(always)]
fn put_formatted(
    alloc: Global,
    time: &CTime,
    format: u32,
    or_unix: bool,
    out: &mut [u8],
    len: &mut usize,
) -> u32
    ensures { Spec.Puts (Spec.IsFormatted (Spec.PrintsSo or_unix (Spec.load_time time.now)) format) out.old out.new len.new result }
{
    // An arm for each kind of format: where they meet, the text is copied twice more.
    match format_numbered(format as usize) {
        Some(Format::Custom(custom)) => {
            put_in_format(alloc, time, Format::Custom(custom), or_unix, out, len)
        }
        Some(format) => put_in_format(alloc, time, format, or_unix, out, len),
        None => store_text(Err(Status::NoSuchOption), out, len),
    }
}

/// Puts a time in a format into a buffer, or the seconds of one that has no such text, if they are wanted.
#[inline(always)]
fn put_in_format(
    alloc: Global,
    time: &CTime,
    format: Format,
    or_unix: bool,
    out: &mut [u8],
    len: &mut usize,
) -> u32
    ensures { Spec.Puts (Spec.IsPrinted (Spec.PrintsSo or_unix (Spec.load_time time.now) format)) out.old out.new len.new result }
{
    let printed = load_time(time).format_to_buf(format);
    match &printed {
        Some(text) => store_text(Ok(text.as_str()), out, len),
        None => put_printed(alloc, time, format, or_unix, out, len),
    }
}

/// Puts what the library prints of a time in a format into a buffer, or the seconds, if they are wanted.
#[inline(never)]
fn put_printed(
    alloc: Global,
    time: &CTime,
    format: Format,
    or_unix: bool,
    out: &mut [u8],
    len: &mut usize,
) -> u32
    ensures { Spec.Puts (Spec.IsPrinted (Spec.PrintsSo or_unix (Spec.load_time time.now) format)) out.old out.new len.new result }
{
    let time = load_time(time);
    if or_unix {
        return store_printed(time.format_or_unix(alloc, format), out, len);
    }
    store_printed(time.format(alloc, format), out, len)
}

/// Puts a time by a pattern into a buffer, or the seconds of one that has no such text, if they are wanted.
#[inline(always)]
fn put_by_pattern(
    alloc: Global,
    time: &CTime,
    pattern: &[u8],
    or_unix: bool,
    out: &mut [u8],
    len: &mut usize,
) -> u32
    ensures { Spec.Puts (Spec.IsPatternPrinted (Spec.PrintsPatternSo or_unix (Spec.load_time time.now) pattern.now) (is_utf8 pattern.now))
        out.old out.new len.new result }
{
    let pattern = match utf8_text(pattern) {
        Ok(pattern) => pattern,
        Err(status) => return store_text(Err(status), out, len),
    };
    let time = load_time(time);
    if !may_be_named(pattern) {
        return put_unnamed(alloc, time, pattern, or_unix, out, len);
    }
    let printed = time.format_by_pattern_to_buf(pattern);
    match &printed {
        Some(text) => store_text(Ok(text.as_str()), out, len),
        None => put_unnamed(alloc, time, pattern, or_unix, out, len),
    }
}

/// Whether a pattern may be that of a named format: it has the length of one, and its last byte, or the third of a day's.
#[inline(always)]
fn may_be_named(pattern: &str) -> bool {
    let bytes = pattern.as_bytes();
    match bytes.len() {
        8 => bytes[2] == b'-',
        20..=25 => bytes[bytes.len() - 1] == b'z',
        _ => false,
    }
}

/// The same by a pattern that no named format has, or of a time that no such format prints. By itself, since it takes a text
/// of its own.
#[inline(never)]
fn put_unnamed(
    alloc: Global,
    time: Time,
    pattern: &str,
    or_unix: bool,
    out: &mut [u8],
    len: &mut usize,
) -> u32
    ensures { Spec.Puts (Spec.IsPrinted (Spec.PrintsPatternSo or_unix time pattern.now)) out.old out.new len.new result }
{
    let mut short = PatternBuf::new();
    if time.format_by_pattern_short(pattern, &mut short) {
        return store_text(Ok(short.as_str()), out, len);
    }
    if or_unix {
        return store_printed(time.format_by_jiff_or_unix(alloc, pattern), out, len);
    }
    store_printed(time.format_by_jiff(alloc, pattern), out, len)
}

/// Stores what was printed.
fn store_printed(printed: Result<String, Error>, out: &mut [u8], len: &mut usize) -> u32
    ensures { Spec.outcome out.new len.new result ≡ Spec.outcome_of (Spec.printed_text printed) out.old }
{
    match printed {
        Ok(text) => store_text(Ok(text.as_str()), out, len),
        Err(error) => store_text(Err(print_status(error)), out, len),
    }
}

/// The status of a refusal to print.
fn print_status(error: Error) -> Status
    ensures { result ≡ Spec.print_status error }
{
    match error {
        Error::Conversion => Status::Conversion,
        Error::OffsetTooWide => Status::OffsetTooWide,
        Error::Memory => Status::Memory,
        _ => Status::Pattern,
    }
}

/// Puts a date into a buffer by one of Git's formats. A local clock is that of a zone that C holds.
#[unsafe(no_mangle)]
pub extern "C" fn git_date_show_by_format(
    alloc: Global,
    time: &CTime,
    format: &[u8],
    local: u8,
    zone: &ShownZone,
    out: &mut [u8],
    len: &mut usize,
    place: &mut usize,
) -> u32
    ensures { Spec.PutsRead
        (Spec.IsByFormatIn (record { time = Spec.load_time time.now; format = format.now; local = local }) (Spec.IsShown zone.now))
        (out.old, place.old) (Spec.outcome out.new len.new result, place.new) }
{
    let mut brief = BriefText::new();
    if zone.is_zone() && is_own_brief(load_time(time), format, local, &mut brief) {
        return store_text(Ok(brief.as_str()), out, len);
    }
    store_by_format(alloc, time, format, local, zone, out, len, place)
}

/// The same of any text and clock. By itself, since it takes a text of its own.
#[inline(never)]
fn store_by_format(
    alloc: Global,
    time: &CTime,
    format: &[u8],
    local: u8,
    zone: &ShownZone,
    out: &mut [u8],
    len: &mut usize,
    place: &mut usize,
) -> u32
    ensures { Spec.PutsRead
        (Spec.IsByFormatIn (record { time = Spec.load_time time.now; format = format.now; local = local }) (Spec.IsShown zone.now))
        (out.old, place.old) (Spec.outcome out.new len.new result, place.new) }
{
    let mut short = ShortText::new();
    let answer = by_format(
        alloc,
        load_time(time),
        format,
        local,
        zone.zone(),
        &mut short,
    );
    store_shown(store_place(answer, place), &short, out, len)
}

/// Puts what a format shows of a time by its own clock into a brief text, for which no zone matters. `false` says nothing.
fn is_own_brief(time: Time, format: &[u8], local: u8, brief: &mut BriefText) -> bool
    ensures { IsTrue result
        → (zone : Zone) → Spec.IsByFormat time zone (Spec.local_of local) (Spec.checked_bytes format.now) (Ok brief.new.bytes) }
{
    if local != 0 {
        return false;
    }
    match utf8_text(format) {
        Ok(text) => text_by_format_brief(time, text, brief),
        Err(_) => false,
    }
}

/// What a format shows of a time in a zone, where there are all three.
fn by_format(
    alloc: Global,
    time: Time,
    format: &[u8],
    local: u8,
    zone: Result<TimeZone<'_>, Status>,
    short: &mut ShortText,
) -> Result<Option<String>, Refusal>
    ensures { Spec.IsByFormatAt (record { time = time; format = format.now; local = local })
        (result_map_both plain_zone (λ status. status) zone.entry)
        (result_map_both (Spec.text_of short.new.bytes) (λ refusal. refusal) result) }
{
    let zone = zone.map_err(Refusal::of)?;
    let local = local_of(local).ok_or(Refusal::of(Status::NoSuchOption))?;
    if is_short(time, format, local, zone, short) {
        return Ok(None);
    }
    Ok(Some(long_by_format(alloc, time, format, local, zone)?))
}

/// Puts what a format shows into a short text. `false` says nothing.
fn is_short(
    time: Time,
    format: &[u8],
    local: bool,
    zone: TimeZone<'_>,
    short: &mut ShortText,
) -> bool
    ensures { IsTrue result
        → Spec.IsByFormat time (plain_zone zone.entry) (Some local) (Spec.checked_bytes format.now) (Ok short.new.bytes) }
{
    match utf8_text(format) {
        Ok(text) => text_by_format_short(time, text, local, zone, short),
        Err(_) => false,
    }
}

/// What a format shows of a time in a zone, of any length.
fn long_by_format(
    alloc: Global,
    time: Time,
    format: &[u8],
    local: bool,
    zone: TimeZone<'_>,
) -> Result<String, Refusal>
    ensures { Spec.IsByFormat time (plain_zone zone.entry) (Some local) (Spec.checked_bytes format.now)
        (result_map_both string_bytes (λ refusal. refusal) result) }
{
    let format = checked_bytes(format)?;
    match text_by_format_in_zone(alloc, time, format, local, zone) {
        Ok(text) => Ok(text),
        Err(ShowError::Range) => Err(Refusal::of(Status::GitRange)),
        Err(ShowError::Memory) => Err(Refusal::of(Status::Memory)),
        Err(ShowError::Write(_)) => unreachable!(),
    }
}

/// The format of these bytes.
fn checked_bytes(bytes: &[u8]) -> Result<DateFormat<'_>, Refusal>
    ensures { result_map_both GitDate.format_bytes (λ refusal. refusal) result ≡ Spec.checked_bytes bytes.now }
{
    let text = utf8_text(bytes).map_err(Refusal::of)?;
    DateFormat::new(text).map_err(format_refusal)
}

/// The refusal that C is told for the fault of a format.
fn format_refusal(fault: FormatFault) -> Refusal
    ensures { result ≡ Spec.format_refusal fault }
{
    match fault {
        FormatFault::FlagRefused(place) => Refusal::at(Status::FlagRefused, place),
        FormatFault::UnknownDirective(place) => Refusal::at(Status::UnknownDirective, place),
        FormatFault::WidthTooLarge(place) => Refusal::at(Status::WidthTooLarge, place),
    }
}

/// Puts a text into a buffer: the short one, or one of its own.
fn store_shown(
    answer: Result<Option<String>, Status>,
    short: &ShortText,
    out: &mut [u8],
    len: &mut usize,
) -> u32
    ensures { Spec.outcome out.new len.new result
        ≡ Spec.outcome_of (result_map_both (Spec.text_of short.now.bytes) (λ status. status) answer) out.old }
{
    match answer {
        Ok(None) => store_text(Ok(short.as_str()), out, len),
        Ok(Some(text)) => store_text(Ok(text.as_str()), out, len),
        Err(status) => store_text(Err(status), out, len),
    }
}
