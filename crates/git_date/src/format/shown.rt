//! What a format shows of a time: its clock, and what Git writes itself.
ghost use Rattle.std.specs.Prelude.{◌≡◌, ◌<◌, ◌≤ℤ◌, ◌+ℤ◌, ◌-ℤ◌, pos, unsigned_abs, option_map};
ghost use Rattle.jiff.specs.Words.{plain_zone};
ghost use Rattle.git_date.specs as Spec;
ghost use Rattle.gix_date.specs as GixDate;

use crate::clocks::{own_clock, zone_clock};
use crate::zones::offset_in;
use gix_date::Time;
use gix_date::clock::Clock;
use jiff::Timestamp;
use jiff::tz::{TimeZone, TimeZoneOffsetInfo};

/// What a format shows of a time.
#[derive(Clone, Copy)]
pub(crate) struct Shown {
    pub(crate) clock: Clock,
    /// The seconds that Git writes, in the years that it knows.
    pub(crate) seconds: Option<i64>,
    /// What holds in the zone, if the clock is the zone's.
    info: Option<TimeZoneOffsetInfo>,
}

/// The seconds of a clock, if Git knows its year.
fn seconds_said(clock: Clock, seconds: i64) -> Option<i64>
    ensures { result ≡ Spec.seconds_said clock seconds }
{
    (1970 <= clock.year() && clock.year() <= 2099).then_some(seconds)
}

#[tactic(auto, unfolding(crate::specs::own_shown))]
pub(crate) fn own_shown(time: Time) -> Option<Shown>
    ensures { option_map Spec.shown_of result ≡ Spec.own_shown time }
{
    let clock = own_clock(time)?;
    Some(Shown {
        clock,
        seconds: seconds_said(clock, time.seconds),
        info: None,
    })
}

/// The seconds of a clock at an offset, less the offset that is shown.
fn counted(seconds: i64, offset: i32, shown: i32) -> i64
    requires from { pos 0 ≤ℤ seconds }
    requires to { seconds ≤ℤ GixDate.last_second }
    requires offset { unsigned_abs offset < GixDate.hundred_hours }
    requires shown { unsigned_abs shown < GixDate.hundred_hours }
    ensures { result ≡ seconds +ℤ (offset -ℤ shown) }
{
    seconds + i64::from(offset - shown)
}

/// What the zone's clock shows at an instant.
#[tactic(auto, using(gix_date::proofs::Text::Ints::held, crate::proofs::Formats::Shown::same_shown, crate::proofs::Formats::Shown::abbreviation_is))]
fn zone_shown_by(clock: Clock, seconds: i64, zone: TimeZone<'_>) -> Shown
    requires from { pos 0 ≤ℤ seconds }
    requires to { seconds ≤ℤ GixDate.last_second }
    ensures { Spec.shown_of result ≡ Spec.zone_shown_by (plain_zone zone.entry) seconds clock }
{
    let Ok(instant) = Timestamp::from_second(seconds) else {
        unreachable!()
    };
    let offset = offset_in(&zone, seconds, instant);
    Shown {
        clock,
        seconds: seconds_said(clock, counted(seconds, offset, clock.offset())),
        info: Some(zone.to_offset_info(instant)),
    }
}

#[tactic(auto, using(gix_date::proofs::Text::Ints::held, crate::proofs::Formats::Shown::no_clock, crate::proofs::Printing::ShownClocks::zone_dated, crate::proofs::Formats::Shown::clock_dated, crate::proofs::Formats::Shown::a_clock))]
fn zone_shown(seconds: i64, zone: TimeZone<'_>) -> Option<Shown>
    ensures { option_map Spec.shown_of result ≡ Spec.zone_shown (plain_zone zone.entry) seconds }
{
    Some(zone_shown_by(zone_clock(seconds, zone)?, seconds, zone))
}

/// What a format shows of a time: by the zone's clock, or by the time's own.
pub(crate) fn shown_at(time: Time, local: bool, zone: TimeZone<'_>) -> Option<Shown>
    ensures { option_map Spec.shown_of result ≡ Spec.shown_at (plain_zone zone.entry) local time }
{
    if local {
        zone_shown(time.seconds, zone)
    } else {
        own_shown(time)
    }
}

impl Shown {
    /// The zone's abbreviation. The time's own clock has none.
    pub(crate) fn abbreviation(&self) -> &str
        ensures { result.now ≡ (Spec.shown_of self.now).abbreviation }
    {
        match &self.info {
            Some(info) => info.abbreviation(),
            None => "",
        }
    }
}
