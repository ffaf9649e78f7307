//! A time, and what it is written as.
ghost use Rattle.std.specs.Prelude.{◌≢◌, ◌↔◌, pos, IsTrue, ◌≡◌, option_map, unwrap_or, IsOk, IfOk, IfErr, ◌+◌, ◌≤◌, length, None, Err};
ghost use Rattle.std.specs.Prelude.{IfSome};
ghost use Rattle.jiff.specs.Words.{plain_zone};
ghost use Rattle.gix_date.specs as Spec;
ghost use Rattle.gix_date.specs.declared.error.Error.TheVariants.{Conversion};
ghost use Rattle.std.specs.Fmt.{decimal, fmt_error, DisplaysOnOk, DisplaysStyledOnOk};

pub mod format;
mod named;
mod patterns;

use crate::clock::{push_ascii, push_offset, usual_header_text};
use crate::device::{Sink, put_all};
use crate::error::Error;
use arrayvec::ArrayString;
pub use format::{CustomFormat, Format, FormatBuf, PatternBuf};
use jiff::tz::{Offset, TimeZone};
use jiff::{Timestamp, Zoned};
use serde::{Deserialize, Serialize};
use std::fmt;

/// Seconds since 1970-01-01 00:00:00 UTC, negative before. Git itself reads only dates from 1970 on.
pub type SecondsSinceUnixEpoch = i64;

/// Seconds that a place's clock is ahead of UTC, negative where it is behind: positive is east.
pub type OffsetInSeconds = i32;

/// The last hour of a day.
pub(crate) const MAX_HOUR: u8 = 23;

/// The last minute of an hour.
pub(crate) const MAX_MINUTE: u8 = 59;

/// The last second of a minute.
pub(crate) const MAX_SECOND: u8 = 59;

/// Seconds of a minute.
pub const SECONDS_PER_MINUTE: OffsetInSeconds = 60;

/// Seconds of an hour.
pub const SECONDS_PER_HOUR: OffsetInSeconds = 60 * SECONDS_PER_MINUTE;

/// Seconds of a day in which the zone's offset does not change.
pub const SECONDS_PER_DAY: SecondsSinceUnixEpoch = 86_400;

/// The least distance from UTC, in seconds, that two digits of hours cannot say.
pub const HUNDRED_HOURS: u32 = 100 * SECONDS_PER_HOUR as u32;

/// The first whole second of `jiff`'s instants.
pub const FIRST_SECOND: SecondsSinceUnixEpoch = -377_705_023_201;

/// The last one: 9999-12-30 22:00:00 UTC.
pub const LAST_SECOND: SecondsSinceUnixEpoch = 253_402_207_200;

/// The last second of the year 9999 by a clock.
pub const LAST_OF_YEAR_9999: SecondsSinceUnixEpoch = 253_402_300_799;

/// The farthest offset of a formatted date: 23:59 either way.
pub(crate) const MAX_OFFSET_IN_SECONDS: u32 = SECONDS_PER_DAY as u32 - SECONDS_PER_MINUTE as u32;

/// The most bytes that the text of a time has: those of the least seconds with an offset.
pub const MAX_TEXT_LEN: usize = 26;

/// An instant in whole seconds, and the offset of the place where it was written down.
///
/// The offset says how to show the instant, and does not change it. Both numbers can be any of their type. Times are in
/// order of their seconds, and at the same seconds of their offset.
#[derive(Default, Clone, Copy, PartialEq, Eq, PartialOrd, Ord, Hash, Debug, Serialize, Deserialize)]
pub struct Time {
    /// Seconds since 1970-01-01 00:00:00 UTC.
    pub seconds: SecondsSinceUnixEpoch,
    /// Seconds east of UTC.
    pub offset: OffsetInSeconds,
}

impl Time {
    /// Whether this is another time than 0 seconds with offset 0.
    pub fn is_set(&self) -> bool
        ensures { IsTrue result ↔ (self.now ≢ record { seconds = pos 0; offset = pos 0 }) }
    {
        *self != Time::default()
    }

    /// The time of any seconds since 1970-01-01 00:00:00 UTC and any offset in seconds east of UTC.
    pub fn new(seconds: SecondsSinceUnixEpoch, offset: OffsetInSeconds) -> Time
        ensures { result ≡ record { seconds = seconds; offset = offset } }
    {
        Time { seconds, offset }
    }

    /// The time that a clock shows, in UTC: its whole seconds, cut towards 1970.
    pub fn now_utc(clock: Timestamp) -> Time
        ensures { result ≡ Spec.time_in_utc clock.nanosecond }
    {
        Time::new(clock.as_second(), 0)
    }

    /// The time that a clock shows, with the zone's offset at that instant; `None` iff there is no zone.
    pub fn now_local(clock: Timestamp, zone: Option<TimeZone<'_>>) -> Option<Time>
        ensures { result ≡ option_map (λ z. Spec.time_in (plain_zone z) clock.nanosecond) zone.entry }
    {
        let zone = zone?;
        Some(Time::new(clock.as_second(), zone.to_offset(clock).seconds()))
    }

    /// The time that a clock shows, with the zone's offset at that instant, or with 0 without a zone.
    pub fn now_local_or_utc(clock: Timestamp, zone: Option<TimeZone<'_>>) -> Time
        ensures { result
            ≡ unwrap_or (option_map (λ z. Spec.time_in (plain_zone z) clock.nanosecond) zone.entry)
            (Spec.time_in_utc clock.nanosecond) }
    {
        Time::now_local(clock, zone).unwrap_or(Time::now_utc(clock))
    }

    /// This instant, in the zone that always has this offset.
    ///
    /// [`Error::Conversion`] where the offset is beyond 93599 seconds (25:59:59) either way, or the seconds are outside
    /// -377705023201 to 253402207200, the instants of `jiff`, and nowhere else.
    pub fn to_zoned(self) -> Result<Zoned<'static>, Error>
        ensures succeeds { IsOk result ↔ Spec.IsConvertible self }
        ensures value { IfOk result (Spec.IsMoment self) }
        ensures refuses { IfErr result (λ e. e ≡ Conversion) }
    {
        let Ok(offset) = Offset::from_seconds(self.offset) else {
            return Err(Error::Conversion);
        };
        match Timestamp::from_second(self.seconds) {
            Ok(instant) => Ok(instant.to_zoned(offset.to_time_zone())),
            Err(_) => Err(Error::Conversion),
        }
    }

    /// The greatest seconds with the greatest offset that has a text, 99:59:59 east of UTC. Another time can lie
    /// beyond, since an offset can be any number.
    pub const MAX: Time = Time {
        seconds: SecondsSinceUnixEpoch::MAX,
        offset: 359_999,
    };

    /// The least seconds with the least offset that has a text, 99:59:59 west of UTC. Another time can lie beyond.
    pub const MIN: Time = Time {
        seconds: SecondsSinceUnixEpoch::MIN,
        offset: -359_999,
    };

    /// Writes the time as a commit header has it: the seconds in decimal, a space, and the offset as a sign, two digits
    /// of hours and two of minutes (`1660874655 +0800`). What the offset has beyond whole minutes is dropped.
    ///
    /// An offset of 100 hours or more, either way, is refused by [`Error::OffsetTooWide`] before a byte is written.
    /// [`Error::Write`] carries the writer's fault, and then a proper prefix of the text was taken. There are at most
    /// 26 calls of [`Sink::put`] and no flush. Takes no memory of its own.
    pub fn write_to<W: Sink>(&self, out: &mut W) -> Result<(), Error>
        ensures { Spec.Writes self.now (W.known out.old) (W.known out.new) result }
    {
        let text = header_text(*self).ok_or(Error::OffsetTooWide)?;
        put_all(out, text.as_str().as_bytes()).map_err(Error::Write)
    }

    /// How many bytes [`Time::write_to`] writes, at most 26: the digits of the seconds, 1 more where they are negative,
    /// and 6. Where the offset is too wide to be written, the number is the same as for an offset that is not.
    #[tactic(auto, using(crate::proofs::Text::Decimals::length_decimal_i64, crate::proofs::Header::HeaderTexts::length_header_text, std::proofs::lemmas::Grind::common_steps))]
    pub const fn size(&self) -> usize
        ensures digits { result ≡ length (Spec.decimal_text self.now.seconds) + 6 }
        ensures text { IfSome (Spec.header_text self.now) (λ text. result ≡ length text) }
        ensures most { result ≤ Spec.max_text_len }
    {
        decimal_len(self.seconds.unsigned_abs()) + 6 + (self.seconds < 0) as usize
    }
}

/// Shows the text that [`Time::write_to`] writes, in one piece. The formatting fault where there is none, and then
/// nothing is written.
impl fmt::Display for Time {
    ghost output = { Spec.header_text };

    ghost styled_output = { λ t _. Spec.header_text t };

    fn fmt<W: fmt::Write>(&self, f: &mut fmt::Formatter<W>) -> fmt::Result
        ensures writes { DisplaysOnOk W.write_str_gives f.old result (Spec.header_text self.now) f.new }
        ensures styled { DisplaysStyledOnOk W.write_str_gives f.old result (Spec.header_text self.now) f.new }
        ensures wide { Spec.header_text self.now ≡ None → (result ≡ Err fmt_error) × (f.new ≡ f.old) }
    {
        match header_text(*self) {
            Some(text) => f.write_str(text.as_str()),
            None => Err(fmt::Error),
        }
    }
}

/// How many digits a number has.
#[tactic(auto, using(crate::proofs::Text::Decimals::length_decimal_power, crate::proofs::Text::Decimals::length_decimal_digit))]
const fn decimal_len(n: u64) -> usize
    ensures { result ≡ length (decimal n) }
{
    match n.checked_ilog10() {
        Some(power) => power as usize + 1,
        None => 1,
    }
}

/// The header text of a time, where its offset is short of 100 hours. Nearly all have ten digits and six bytes more.
#[inline(always)]
pub(crate) fn header_text(time: Time) -> Option<ArrayString<MAX_TEXT_LEN>>
    ensures { option_map (λ text. text.bytes) result ≡ Spec.header_text time }
{
    if let Some(bytes) = usual_header_text(time) {
        let mut text = ArrayString::new();
        push_ascii(&mut text, &bytes);
        return Some(text);
    }
    any_header_text(time)
}

/// The same of any time, for a caller that has tried [`usual_header_text`].
#[inline(always)]
#[tactic(auto, unfolding(crate::specs::header_text))]
pub fn any_header_text(time: Time) -> Option<ArrayString<MAX_TEXT_LEN>>
    ensures { option_map (λ text. text.bytes) result ≡ Spec.header_text time }
{
    let distance = time.offset.unsigned_abs();
    if distance >= HUNDRED_HOURS {
        return None;
    }
    let mut text = ArrayString::new();
    text.push_str(itoa::Buffer::new().format(time.seconds));
    push_offset(&mut text, time.offset);
    Some(text)
}
