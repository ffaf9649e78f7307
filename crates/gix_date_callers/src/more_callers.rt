//! More callers of `gix_date`: docs/CALLING.md says what each is for.
ghost use Rattle.std.specs.Prelude.{◌≡◌, ◌≢◌, ◌↔◌, ◌⊎◌, ◌<◌, ◌-ℤ◌, pos, true, false, IsTrue, IsSome, Some, None, Err, Ok, IfSome, IfNone};
ghost use Rattle.std.specs.Prelude.{IsOk, IsOkAnd, IsSomeAnd, IfOk, MatchResult, option_map, replicate, string_bytes, unwrap_or, int_lt, ℤ};
ghost use Rattle.std.specs.Prelude.{Option};
ghost use Rattle.std.specs.Str.{IsUtf8};
ghost use Rattle.gix_date.specs.Families.Answer.{Relative};
ghost use Rattle.gix_date.specs.declared.error.Error.TheVariants.{Memory, OffsetTooWide, Range};
ghost use Rattle.gix_date.specs.declared.time.Time.{Time as Read};
ghost use Rattle.gix_date.specs.declared.time.format.Format.TheVariants.{Custom, Unix};
ghost use Rattle.jiff.specs.Words.{plain_zone, zoned_nanos, nanos_of_seconds};
ghost use Rattle.jiff.specs.declared.tz.timezone.TimeZone.{TimeZone as Place};
ghost use Rattle.jiff.specs.declared.zoned.Zoned.{Zoned as Moment};
ghost use Rattle.gix_date.specs as GixDate;

use crate::caller::date_typed;
use gix_date::bytes::text_of;
use gix_date::device::Device;
use gix_date::names::{month_name, month_of_word};
use gix_date::parsing::TimeBuf;
use gix_date::time::format::{
    DEFAULT, GIT_RFC2822, GITOXIDE, ISO8601, ISO8601_STRICT, RFC2822, UNIX,
};
use gix_date::time::{CustomFormat, FormatBuf};
use gix_date::{
    Error, ParseError, RawOffsets, Time, is_canonical_header, laws, parse, parse_header,
    parse_no_alloc, parse_with,
};
use jiff::tz::{SystemTimeZone, TimeZone, TimeZoneDatabase};
use jiff::{Timestamp, Zoned};
use std::alloc::{AllocError, AllocGlobal, Global};
use std::rt::{Env, Files};
use std::time::Clock;

/// The text of a commit header in memory. It is refused where the time has none, and when out of memory, which is the
/// fault of the `Vec` that is written to.
pub fn header_bytes(alloc: Global, time: Time) -> Result<Vec<u8>, Error>
    ensures text { IfOk result (λ bytes. GixDate.header_text time ≡ Some bytes.items) }
    ensures wide { GixDate.header_text time ≡ None → result ≡ Err OffsetTooWide }
{
    let mut out = Device::new(Vec::new(alloc));
    time.write_to(&mut out)?;
    Ok(out.into_inner())
}

/// The time of a header in bytes, such as a line of a commit. None for bytes that are not UTF-8.
pub fn header_in_bytes(header: &[u8]) -> Option<Time>
    ensures text { IsUtf8 header.now → result ≡ GixDate.header_time header.now }
    ensures other { ¬ (IsUtf8 header.now) → result ≡ None }
{
    parse_header(text_of(header)?)
}

/// The month that a word tells, by the three letters that dates show: `Aug` for `august`.
pub fn short_month(word: &[u8]) -> Option<&'static str>
    ensures { option_map (λ name. name.now) result ≡ option_map GixDate.month_name (GixDate.month_of_word word.now) }
{
    match month_of_word(word) {
        Some(month) => Some(month_name(month)),
        None => None,
    }
}

/// The time of a header that is written as Git writes it, and of no other.
pub fn read_canonical(header: &str) -> Option<Time>
    ensures some { IfSome result (λ t. (GixDate.header_time header.now ≡ Some t) × (GixDate.is_canonical_header header.now ≡ true)) }
    ensures none { IfNone result (GixDate.is_canonical_header header.now ≢ true) }
{
    laws::canonical(header);
    if !is_canonical_header(header) {
        return None;
    }
    parse_header(header)
}

/// A time whose offset is whole minutes short of a day, written as in a header and parsed as a date: the same. No
/// memory is taken.
pub fn kept_in_date(alloc: Global, time: Time) -> Result<Time, Error>
    requires { GixDate.IsMinuteOffset time.offset }
    ensures { result ≡ Ok time }
{
    laws::raw_read_back_wide(time);
    let buf = time.to_buf()?;
    parse_with(alloc, buf.as_str(), None, RawOffsets::WholeMinutes)
}

/// The time of a date as programs store it, seconds and an offset, also where that is of odd minutes, as in some
/// commits.
#[tactic(auto, using(crate::proofs::Outcomes::minute_result))]
pub fn stored_date(alloc: Global, date: &str) -> Result<Time, Error>
    ensures raw { (t : Read) → GixDate.raw_time_by GixDate.is_minute_offset date.now ≡ Some t → result ≡ Ok t }
    ensures outcome { GixDate.ParseOutcome (GixDate.first_family_by GixDate.is_minute_offset date.now) date.now None result }
{
    gix_date_laws::comes_first(date, RawOffsets::WholeMinutes);
    parse_with(alloc, date, None, RawOffsets::WholeMinutes)
}

/// Whether a date is read from the moment, so that it has to be handed in: never for what programs store, which are raw
/// texts and bare epochs. No memory is taken, also where the text is no date.
pub fn asks_for_a_moment(date: &str) -> bool
    ensures raw { (t : Read) → GixDate.raw_time date.now ≡ Some t → result ≡ false }
    ensures epoch { (t : Read) → GixDate.epoch_time date.now ≡ Some t → result ≡ false }
    ensures relative { IsTrue result → IsSome (GixDate.relative_date date.now) }
    ensures asks { (counts : GixDate.RelativeDate) → GixDate.first_family date.now ≡ Some (Relative counts) → result ≡ true }
    ensures absolute { (t : Read) → GixDate.first_family date.now ≡ Some (GixDate.Absolute t) → result ≡ false }
{
    laws::disjoint(date);
    gix_date_laws::comes_first(date, RawOffsets::Quarter);
    parse_no_alloc(date, None, RawOffsets::Quarter) == Err(ParseError::MissingNow)
}

/// The time of a date that means the same at any moment.
pub fn absolute_date(alloc: Global, date: &str) -> Result<Time, Error>
    ensures absolute { IfOk result (λ t. GixDate.first_family date.now ≡ Some (GixDate.Absolute t)) }
    ensures outcome { GixDate.ParseOutcome (GixDate.first_family date.now) date.now None result }
{
    parse(alloc, date, None)
}

/// The time of a revision's date, as of the words in `@{2 days ago}`, by the machine's clock and in its zone, or why
/// the date has none. The fault of `jiff` where clock or zone are not read.
///
/// A program hands in its own runtime, as `resolved(&rt, date)` in `main`.
#[tactic(auto, using(crate::proofs::Outcomes::resolved_at))]
pub fn resolved<R: Clock + Env + Files + AllocGlobal + Clone + Drop>(
    rt: &R,
    date: &str,
) -> Result<Result<Time, Error>, jiff::Error>
    ensures { IfOk result (λ answer. (moment : Moment)
        × GixDate.ParseOutcome (GixDate.first_family date.now) date.now (Some moment) answer) }
{
    let zones = TimeZoneDatabase::from_env(rt)?;
    let named = SystemTimeZone::read(rt)?;
    let now = Zoned::now(rt, named.time_zone(&zones)?)?;
    Ok(parse(rt.alloc(), date, Some(now)))
}

/// The date of a line in a log, or the seconds of a time that has no text in that format. It fails only when out of
/// memory.
pub fn log_date(alloc: Global, time: Time, format: CustomFormat) -> Result<String, Error>
    ensures { GixDate.PrintsOrSeconds time (Custom format) result }
{
    time.format_or_unix(alloc, format.into())
}

/// The log's date by a pattern that a user wrote, as that of `git log --date=format:..`.
pub fn log_date_by(alloc: Global, time: Time, pattern: &str) -> Result<String, Error>
    ensures { GixDate.PrintsPatternOrSeconds time pattern.now result }
{
    time.format_by_pattern_or_unix(alloc, pattern)
}

/// The date of a line in a log without memory: the seconds of a time that has no such text.
pub fn log_text(time: Time, format: CustomFormat) -> FormatBuf
    ensures { GixDate.IsTextOf time (Custom format) result.bytes
        ⊎ ((¬ (GixDate.HasNamedText time format.pattern.now)) × GixDate.IsTextOf time Unix result.bytes) }
{
    if let Some(text) = time.format_to_buf(format.into()) {
        return text;
    }
    let Some(seconds) = time.format_to_buf(UNIX) else {
        unreachable!();
    };
    seconds
}

/// The text by which a program stores a time, in one of the six named formats with a clock; `None` for a time that need
/// not be read back from it. It fails only when out of memory.
pub fn store(alloc: Global, time: Time, format: CustomFormat) -> Result<Option<String>, Error>
    requires { GixDate.HasClock format.pattern.now }
    ensures some { GixDate.RoundTrips time → MatchResult result
        (λ stored. IsSomeAnd stored (λ text. GixDate.first_family (string_bytes text) ≡ Some (GixDate.Absolute time)))
        (λ e. e ≡ Memory) }
    ensures none { ¬ (GixDate.RoundTrips time) → result ≡ Ok None }
{
    if !time.round_trips() {
        return Ok(None);
    }
    laws::read_back(time);
    Ok(Some(time.format(alloc, format.into())?))
}

/// The time that was stored as this text, at any moment or none.
pub fn load(alloc: Global, text: &str, now: Option<Zoned<'_>>) -> Result<Time, Error>
    ensures { (t : Read) → GixDate.first_family text.now ≡ Some (GixDate.Absolute t) → result ≡ Ok t }
{
    parse(alloc, text, now)
}

/// A time that was stored by such a format and loaded again: the same time.
pub fn kept(
    alloc: Global,
    time: Time,
    format: CustomFormat,
    now: Option<Zoned<'_>>,
) -> Result<Option<Time>, Error>
    requires { GixDate.HasClock format.pattern.now }
    ensures some { GixDate.RoundTrips time → MatchResult result (λ back. back ≡ Some time) (λ e. e ≡ Memory) }
    ensures none { ¬ (GixDate.RoundTrips time) → result ≡ Ok None }
{
    match store(alloc, time, format)? {
        Some(text) => Ok(Some(load(alloc, &text, now)?)),
        None => Ok(None),
    }
}

/// A time as each of the six keeps it: RFC 2822, the same as Git writes it, ISO 8601 and its strict form, gitoxide's and
/// Git's default.
pub fn kept_by_each(
    alloc: Global,
    time: Time,
    now: Option<Zoned<'_>>,
) -> Result<[Option<Time>; 6], Error>
    ensures { GixDate.RoundTrips time → MatchResult result (λ times. times ≡ replicate 6 (Some time)) (λ e. e ≡ Memory) }
{
    let mail = kept(alloc, time, RFC2822, now)?;
    let git_mail = kept(alloc, time, GIT_RFC2822, now)?;
    let iso = kept(alloc, time, ISO8601, now)?;
    let strict = kept(alloc, time, ISO8601_STRICT, now)?;
    let gitoxide = kept(alloc, time, GITOXIDE, now)?;
    let default = kept(alloc, time, DEFAULT, now)?;
    Ok([mail, git_mail, iso, strict, gitoxide, default])
}

/// The time a day before this one, at its offset: what `yesterday` names there, or `Range` where that has no instant.
pub fn day_before(alloc: Global, time: Time) -> Result<Time, Error>
    requires { GixDate.IsConvertible time }
    ensures time { MatchResult result (λ t. t ≡ GixDate.earlier time (pos 86_400)) (λ e. e ≡ Range) }
    ensures exists { IsOk result ↔ (GixDate.is_instant (time.seconds -ℤ pos 86_400) ≡ true) }
{
    gix_date_laws::earlier(time, &[]);
    date_typed(alloc, "yesterday", time)
}

/// The time two weeks before this one, at its offset: what `2 weeks ago` names there, or `Range` where that has no instant.
pub fn two_weeks_before(alloc: Global, time: Time) -> Result<Time, Error>
    requires { GixDate.IsConvertible time }
    ensures { MatchResult result (λ t. t ≡ GixDate.earlier time (pos 1_209_600)) (λ e. e ≡ Range) }
{
    gix_date_laws::earlier(time, &[(2, 604_800)]);
    date_typed(alloc, "2 weeks ago", time)
}

/// Whether the time of a commit's header is older than two weeks, in seconds; `None` where the header has no time.
pub fn is_older_than_two_weeks(
    alloc: Global,
    header: &str,
    now: Time,
) -> Result<Option<bool>, Error>
    requires { GixDate.IsConvertible now }
    ensures { MatchResult result
        (λ older. older ≡ option_map (λ t. int_lt t.seconds (now.seconds -ℤ pos 1_209_600)) (GixDate.header_time header.now))
        (λ e. e ≡ Range) }
{
    let limit = two_weeks_before(alloc, now)?;
    match parse_header(header) {
        Some(time) => Ok(Some(time.seconds < limit.seconds)),
        None => Ok(None),
    }
}

/// What `yesterday` names at a moment in any zone: the time 86400 seconds before, or `Range` where `jiff` has no such instant.
pub fn day_before_in_zone(alloc: Global, moment: Zoned<'_>) -> Result<Time, Error>
    ensures { MatchResult result
        (λ t. t ≡ GixDate.time_in (GixDate.zone_of moment.entry) (zoned_nanos moment.entry -ℤ nanos_of_seconds (pos 86_400)))
        (λ e. e ≡ Range) }
{
    gix_date_laws::named_instants("yesterday", &moment);
    parse(alloc, "yesterday", Some(moment))
}

/// The time of a commit that is made at this instant in its author's zone, and none where the zone is not known.
pub fn authored(clock: Timestamp, zone: Option<TimeZone<'_>>) -> Option<Time>
    ensures { result ≡ option_map (λ z. GixDate.time_in (plain_zone z) clock.nanosecond) zone.entry }
{
    Time::now_local(clock, zone)
}

/// The time of a commit that a program makes at this instant, in UTC.
pub fn authored_in_utc(clock: Timestamp) -> Time
    ensures { result ≡ GixDate.time_in_utc clock.nanosecond }
{
    Time::now_utc(clock)
}

/// A second buffer with the same text. It takes no memory, so it never fails.
pub fn doubled(buf: &TimeBuf) -> Result<TimeBuf, AllocError>
    ensures { IsOkAnd result (λ copy. GixDate.text_in copy ≡ GixDate.text_in buf.now) }
{
    gix_date_laws::clones();
    buf.clone()
}

/// The text of a time, for a log. Where its offset has no text this fails as it does when out of memory; `to_str` tells
/// the two apart.
pub fn shown(alloc: Global, time: Time) -> Result<String, AllocError>
    ensures { IfOk result (λ text. IfSome (GixDate.header_text time) (λ due. string_bytes text ≡ due)) }
{
    format!(in alloc; "{time}")
}

/// The time of a commit made now, in the machine's zone, or in UTC if that is not found.
#[tactic(auto, using(crate::proofs::Outcomes::made_at))]
pub fn commit_time<R: Clock + Env + Files + AllocGlobal + Clone + Drop>(
    rt: &R,
) -> Result<Time, jiff::Error>
    ensures { IfOk result (λ t. (instant : ℤ) × (zone : Option Place)
        × (t ≡ unwrap_or (option_map (λ z. GixDate.time_in (plain_zone z) instant) zone) (GixDate.time_in_utc instant))) }
{
    let zones = TimeZoneDatabase::from_env(rt)?;
    let named = SystemTimeZone::read(rt)?;
    let zone = named.time_zone(&zones).ok();
    Ok(Time::now_local_or_utc(Timestamp::now(rt)?, zone))
}
