//! The text of a time by a pattern: that of a named format without `jiff`, and any other by its printer.
ghost use Rattle.std.specs.Prelude.{◌≡◌, ◌≤◌, ◌<◌, ◌*◌, ◌↔◌, ◌⊎◌, [], Some, option_map, length, take, IsTrue, IsSome, IfSome, IfOk, IfErr};
ghost use Rattle.std.specs.Prelude.{string_bytes};
ghost use Rattle.jiff.specs.Words.{plain_zoned};
ghost use Rattle.jiff.specs.ZonedText.{zoned_parts};
ghost use Rattle.jiff_core.specs.Date.{weekday_of};
ghost use Rattle.jiff_strtime.specs.Text.{parts_of};
ghost use Rattle.jiff_core.specs.declared.error.Error.TheVariants as jiff_errors;
ghost use Rattle.gix_date.specs.declared.error.Error.TheVariants as errors;
ghost use Rattle.gix_date.specs as Spec;

use crate::clock::{
    Clock, local_seconds, push_date, push_default, push_git_rfc2822, push_gitoxide, push_iso8601,
    push_iso8601_strict, push_rfc2822,
};
use crate::error::Error;
use crate::time::{
    FIRST_SECOND, LAST_OF_YEAR_9999, LAST_SECOND, MAX_OFFSET_IN_SECONDS, SECONDS_PER_MINUTE,
    SecondsSinceUnixEpoch, Time,
};
use arrayvec::ArrayString;
use jiff::Zoned;
use jiff::fmt::strtime::{BrokenDownTime, Config, to_string};
use std::alloc::Global;
use std::simd::prelude::*;

// The patterns of the named formats: those of `crate::time::format` have them, and the fast path matches them.
pub(crate) const SHORT_PATTERN: &str = "%Y-%m-%d";

pub(crate) const ISO8601_PATTERN: &str = "%Y-%m-%d %H:%M:%S %z";

pub(crate) const ISO8601_STRICT_PATTERN: &str = "%Y-%m-%dT%H:%M:%S%:z";

pub(crate) const RFC2822_PATTERN: &str = "%a, %d %b %Y %H:%M:%S %z";

pub(crate) const GIT_RFC2822_PATTERN: &str = "%a, %-d %b %Y %H:%M:%S %z";

pub(crate) const GITOXIDE_PATTERN: &str = "%a %b %d %Y %H:%M:%S %z";

pub(crate) const DEFAULT_PATTERN: &str = "%a %b %-d %H:%M:%S %Y %z";

/// The most bytes of a named pattern that shows numbers alone.
const NUMBERS_LEN: usize = 20;

/// The bytes of a pattern that are compared at once.
const BLOCK: usize = 16;

/// A bit for each of them.
const ALL_LANES: u64 = 0xffff;

/// The most seconds that the offset of a zone has, either way.
const MAX_ZONE_OFFSET: u32 = 93_599;

/// The first second of the year 1000 by a clock.
const FIRST_OF_YEAR_1000: SecondsSinceUnixEpoch = -30_610_224_000;

/// The most bytes of such a text: those of an RFC 2822 date.
pub const MAX_NAMED_LEN: usize = 31;

/// The text of a time in a format, by value: at most 31 bytes, without an allocation. `as_str` lends it.
pub type FormatBuf = ArrayString<MAX_NAMED_LEN>;

/// Whether the time converts, its own clock shows a year of four digits, and its offset is whole minutes.
pub(crate) fn has_named_clock(time: Time) -> bool
    ensures { IsTrue result ↔ (Spec.IsConvertible time × Spec.HasFourDigitFields time) }
{
    let distance = time.offset.unsigned_abs();
    if distance > MAX_ZONE_OFFSET || distance % SECONDS_PER_MINUTE as u32 != 0 {
        return false;
    }
    if time.seconds < FIRST_SECOND || time.seconds > LAST_SECOND {
        return false;
    }
    let local = local_seconds(time);
    FIRST_OF_YEAR_1000 <= local && local <= LAST_OF_YEAR_9999
}

impl Time {
    ghost use Rattle.std.specs.Prelude.{◌↔◌, IsTrue};

    /// Whether [`Time::to_zoned`] accepts this time, its own clock shows a year from 1000 to 9999, and its offset is whole
    /// minutes within 23:59.
    ///
    /// If so, [`parse`](crate::parse) reads this time back from what each of the six named formats with a clock prints
    /// of it ([`laws::read_back`](crate::laws::read_back)). No memory is taken.
    pub fn round_trips(self) -> bool
        ensures { IsTrue result ↔ Spec.RoundTrips self }
    {
        self.offset.unsigned_abs() <= MAX_OFFSET_IN_SECONDS && has_named_clock(self)
    }
}

/// Appends what a named pattern shows by the clock of a time. Only patterns with names take the day of the week, and these
/// are the longer ones.
#[inline(always)]
fn push_named(text: &mut FormatBuf, pattern: &str, time: Time) -> Option<()>
    requires empty { text.old.bytes ≡ [] }
    requires showable { Spec.IsShowable time }
    ensures shown { IfSome result (λ _. Spec.IsShownByAll pattern.now (Spec.clock_of time) text.new.bytes) }
    ensures succeeds { IsSome result ↔ Spec.IsNamedPattern pattern.now }
{
    if pattern.len() <= NUMBERS_LEN {
        push_numbers(text, pattern, Clock::of(time))
    } else {
        push_names(text, pattern, Clock::of(time))
    }
}

/// Appends what a named pattern without names shows by a clock.
#[tactic(auto, using(crate::proofs::Printing::ShownTexts::numbers_shown))]
#[inline(always)]
fn push_numbers(text: &mut FormatBuf, pattern: &str, t: Clock) -> Option<()>
    requires empty { text.old.bytes ≡ [] }
    requires short { length pattern.now ≤ NUMBERS_LEN }
    ensures shown { IfSome result (λ _. Spec.IsShownByAll pattern.now t text.new.bytes) }
    ensures succeeds { IsSome result ↔ Spec.IsNamedPattern pattern.now }
{
    if is_pattern(pattern, ISO8601_PATTERN) {
        push_iso8601(text, t);
    } else if is_pattern(pattern, ISO8601_STRICT_PATTERN) {
        push_iso8601_strict(text, t);
    } else if pattern == SHORT_PATTERN {
        push_date(text, t);
    } else {
        return None;
    }
    Some(())
}

/// Appends what a named pattern with names shows by a clock.
#[inline(always)]
fn push_names(text: &mut FormatBuf, pattern: &str, t: Clock) -> Option<()>
    requires empty { text.old.bytes ≡ [] }
    requires long { NUMBERS_LEN < length pattern.now }
    ensures shown { IfSome result (λ _. Spec.IsShownByAll pattern.now t text.new.bytes) }
    ensures succeeds { IsSome result ↔ Spec.IsNamedPattern pattern.now }
{
    if is_pattern(pattern, DEFAULT_PATTERN) {
        push_default(text, t);
    } else if is_pattern(pattern, RFC2822_PATTERN) {
        push_rfc2822(text, t);
    } else if is_pattern(pattern, GIT_RFC2822_PATTERN) {
        push_git_rfc2822(text, t);
    } else if is_pattern(pattern, GITOXIDE_PATTERN) {
        push_gitoxide(text, t);
    } else {
        return None;
    }
    Some(())
}

/// Whether a pattern is this one, of 16 to 32 bytes: its first 16 bytes and its last 16, which cover it, are compared.
#[tactic(auto, using(std::proofs::lemmas::Bool::and_parts, crate::proofs::Fast::Masks::ends_tell))]
#[inline(always)]
fn is_pattern(pattern: &str, name: &str) -> bool
    requires { (BLOCK ≤ length name.now) × (length name.now ≤ 2 * BLOCK) }
    ensures { IsTrue result ↔ (pattern.now ≡ name.now) }
{
    let (a, b) = (pattern.as_bytes(), name.as_bytes());
    if a.len() != b.len() {
        return false;
    }
    let place = b.len() - BLOCK;
    begin_alike(a, b) & begin_alike(&a[place..], &b[place..])
}

/// Whether the first 16 bytes are the same.
#[tactic(auto, using(crate::proofs::Fast::Masks::equal_bits, std::proofs::lemmas::Bool::Decides::nat_tests, crate::proofs::Fast::Masks::alike_from, crate::proofs::Fast::Masks::alike_to))]
#[inline(always)]
fn begin_alike(a: &[u8], b: &[u8]) -> bool
    requires { (BLOCK ≤ length a.now) × (BLOCK ≤ length b.now) }
    ensures { IsTrue result ↔ (take BLOCK a.now ≡ take BLOCK b.now) }
{
    let same = u8x16::from_slice(a).simd_eq(u8x16::from_slice(b));
    same.to_bitmask() == ALL_LANES
}

/// A copy of a text.
pub(crate) fn copy_text(alloc: Global, text: &str) -> Result<String, Error>
    ensures text { IfOk result (λ copy. string_bytes copy ≡ text.now) }
    ensures memory { IfErr result (λ e. e ≡ errors.Memory) }
{
    String::from_str(alloc, text).map_err(|_| Error::Memory)
}

/// What a named pattern prints of a time, where it is known, without `jiff`. Saves some 2650 instructions, which `jiff`
/// needs to interpret the pattern. Not inlined: where the text is copied within one function, it is copied by bytes.
#[tactic(auto, using(crate::proofs::Printing::ShownTexts::named_text))]
#[inline(never)]
pub(crate) fn named_text(pattern: &str, time: Time) -> Option<FormatBuf>
    ensures text { IfSome result (λ text. Spec.IsPatternText time pattern.now text.bytes) }
    ensures succeeds { IsSome result ↔ Spec.HasNamedText time pattern.now }
{
    if !has_named_clock(time) {
        return None;
    }
    let mut text = ArrayString::new();
    push_named(&mut text, pattern, time)?;
    Some(text)
}

/// A short text by value.
#[inline(always)]
pub(crate) fn short_buf(text: &str) -> FormatBuf
    requires { length text.now ≤ MAX_NAMED_LEN }
    ensures { result.bytes ≡ text.now }
{
    let mut buf = ArrayString::new();
    buf.push_str(text);
    buf
}

/// Maps a fault of `jiff`'s printer.
fn printing_fault(error: jiff::Error) -> Error
    ensures { ((error ≡ jiff_errors.OutOfMemory) × (result ≡ errors.Memory))
        ⊎ ((error ≡ jiff_errors.OutOfMemory → ⊥) × (result ≡ errors.Pattern)) }
{
    match error {
        jiff::Error::OutOfMemory => Error::Memory,
        _ => Error::Pattern,
    }
}

/// The parts that are printed, with the abbreviation and the name of the zone.
fn broken_down_time<'t>(
    moment: &Zoned<'_>,
    abbreviation: &'t str,
    name: Option<&'t str>,
) -> BrokenDownTime<'t>
    ensures { parts_of result
        ≡ record (zoned_parts (plain_zoned moment.now).datetime (plain_zoned moment.now).offset
        (plain_zoned moment.now).timestamp
        abbreviation.now (option_map (λ s. s.now) name.entry))
        { weekday = Some (weekday_of (plain_zoned moment.now).datetime.date) } }
{
    let plain = moment.to_plain();
    BrokenDownTime {
        offset: Some(plain.offset),
        weekday: Some(moment.weekday()),
        timestamp: Some(plain.timestamp),
        tz_abbreviation: Some(abbreviation),
        iana: name,
        ..BrokenDownTime::from_datetime(plain.datetime)
    }
}

/// What `jiff`'s strict printer shows by a pattern. It is given the day of the week, since it promises none by itself.
pub(crate) fn pattern_text(
    alloc: Global,
    pattern: &str,
    moment: &Zoned<'_>,
) -> Result<String, Error>
    ensures { Spec.PrintsAt pattern.now (plain_zoned moment.now) result }
{
    let plain = moment.to_plain();
    let info = plain.time_zone.to_offset_info(plain.timestamp);
    let (abbreviation, name) = (info.abbreviation.as_str(), plain.time_zone.iana_name());
    let parts = broken_down_time(moment, abbreviation, name);
    match to_string(alloc, Config::new(), pattern.as_bytes(), &parts) {
        Ok(text) => Ok(text),
        Err(error) => Err(printing_fault(error)),
    }
}
