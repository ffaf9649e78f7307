//! What a zone says of an instant, and Git's search for the instant at which its clock shows a time.
ghost use Rattle.std.specs.Prelude.{◌≡◌, ◌+ℤ◌, ◌-ℤ◌, ◌^◌, pos, neg_ℤ, true, IfSome, unwrap_or};
ghost use Rattle.jiff_core.specs.Calendar.{IsBetween, IsWithin};
ghost use Rattle.jiff.specs.Words.{plain_zone, offset_at, IsOffsetSeconds};
ghost use Rattle.git_date.specs as Spec;
ghost use Rattle.gix_date.specs as GixDate;

mod changes;
mod rules;

use crate::clocks::is_instant;
use jiff::Timestamp;
use jiff::tz::TimeZone;
use jiff_tz::TimeZone as Kind;
use rules::{state_by_rule, state_of_rule};

/// What a zone says of an instant.
#[derive(Clone, Copy)]
pub(crate) struct ZoneState {
    /// Seconds east of UTC.
    pub(crate) offset: i32,
    /// Whether that is daylight saving time.
    pub(crate) daylight: bool,
}

/// A clock that is looked for.
#[derive(Clone, Copy)]
pub(crate) struct Asked {
    /// The seconds that it has counted since 1970-01-01 00:00:00.
    pub(crate) clock: i64,
    /// Whether it is to be one of daylight saving time, if that is asked.
    pub(crate) daylight: Option<bool>,
}

/// Where a search stands, and stood before: at offsets by which the clock may be read.
#[derive(Clone, Copy)]
pub(crate) struct Trail {
    pub(crate) here: i32,
    /// The one before, with the flag that the zone has there.
    pub(crate) last: Option<ZoneState>,
    /// The one before that.
    pub(crate) before: Option<i32>,
}

/// The moves of a search. Git finds nothing after them.
const MOST_MOVES: u8 = 6;

/// How far the steps are in which a time with another flag is looked for: 6 days and 23 hours.
const FLAG_STEP: i64 = 601_200;

/// How many of these are taken to each side.
const FLAG_STEPS: u16 = 381;

/// What the zone says of an instant. `None` if the seconds are those of none.
pub(crate) fn state_at(zone: &TimeZone<'_>, seconds: i64) -> Option<ZoneState>
    ensures value { result ≡ Spec.states_of (plain_zone zone.now) seconds }
    ensures near { IfSome result (λ there. IsOffsetSeconds there.offset) }
{
    if !is_instant(seconds) {
        return None;
    }
    if let Ok(offset) = zone.to_fixed_offset() {
        return Some(ZoneState {
            offset: offset.seconds(),
            daylight: false,
        });
    }
    if let Some(there) = state_by_rule(zone, seconds) {
        return Some(there);
    }
    let Ok(at) = Timestamp::from_second(seconds) else {
        return None;
    };
    let info = zone.to_offset_info(at);
    Some(ZoneState {
        offset: info.offset().seconds(),
        daylight: info.dst().is_dst(),
    })
}

/// The zone's offset at an instant in this second, in seconds east of UTC: what `jiff` says, which takes longer for a rule.
#[inline(always)]
#[tactic(auto, unfolding(jiff_tz::specs::Zone::offset_at))]
pub fn offset_in(zone: &TimeZone<'_>, seconds: i64, instant: Timestamp) -> i32
    requires within { GixDate.is_instant seconds ≡ true }
    requires second { Spec.whole_second instant.nanosecond ≡ seconds }
    ensures value { result ≡ offset_at (plain_zone zone.now) instant.nanosecond }
    ensures near { IsOffsetSeconds result }
{
    match zone.to_plain() {
        Kind::UTC => 0,
        Kind::Unknown => 0,
        Kind::Fixed(offset) => offset.seconds,
        Kind::Posix(_) => offset_of_rule(zone, seconds, instant),
        Kind::Tzif(table) => table.to_offset(instant.to_plain()).seconds,
    }
}

/// The same, apart from what zones of other kinds ask.
fn offset_of_rule(zone: &TimeZone<'_>, seconds: i64, instant: Timestamp) -> i32
    requires within { GixDate.is_instant seconds ≡ true }
    requires second { Spec.whole_second instant.nanosecond ≡ seconds }
    ensures value { result ≡ offset_at (plain_zone zone.now) instant.nanosecond }
    ensures near { IsOffsetSeconds result }
{
    match state_of_rule(zone, seconds) {
        Some(there) => there.offset,
        None => zone.to_offset(instant).seconds(),
    }
}

/// So many seconds later.
fn later(seconds: i64, by: i64) -> i64
    requires seconds { IsWithin (10 ^ 16) seconds }
    requires by { IsWithin (10 ^ 16) by }
    ensures { result ≡ seconds +ℤ by }
{
    seconds + by
}

/// So many seconds earlier.
pub(crate) fn earlier(seconds: i64, by: i64) -> i64
    requires seconds { IsWithin (10 ^ 16) seconds }
    requires by { IsWithin (10 ^ 16) by }
    ensures { result ≡ seconds -ℤ by }
{
    seconds - by
}

/// The zone's offset, if it has this flag at an instant.
fn flagged(zone: &TimeZone<'_>, flag: bool, seconds: i64) -> Option<i32>
    ensures value { result ≡ Spec.flagged flag (Spec.states_of (plain_zone zone.now) seconds) }
    ensures near { IfSome result IsOffsetSeconds }
{
    let there = state_at(zone, seconds)?;
    (there.daylight == flag).then_some(there.offset)
}

/// The offset of a time with this flag at a distance from an instant. That before the instant comes first.
#[tactic(auto, using(gix_date::proofs::Text::Ints::held, crate::proofs::Exact::Searches::instant_within, crate::proofs::Exact::Searches::found_before, crate::proofs::Exact::Searches::found_after))]
fn flagged_at(zone: &TimeZone<'_>, flag: bool, instant: i64, distance: i64) -> Option<i32>
    requires instant { GixDate.is_instant instant ≡ true }
    requires distance { IsWithin (10 ^ 16) distance }
    ensures value { result ≡ Spec.flagged_at (Spec.states_of (plain_zone zone.now)) flag instant distance }
    ensures near { IfSome result IsOffsetSeconds }
{
    let before = flagged(zone, flag, earlier(instant, distance));
    if before.is_some() {
        return before;
    }
    flagged(zone, flag, later(instant, distance))
}

/// The offset of the nearest time with this flag.
fn nearest(zone: &TimeZone<'_>, flag: bool, instant: i64) -> Option<i32>
    requires { GixDate.is_instant instant ≡ true }
    ensures value { result ≡ Spec.nearest Spec.flag_steps (Spec.states_of (plain_zone zone.now)) flag instant }
    ensures near { IfSome result IsOffsetSeconds }
{
    'steps: for steps in 1..=FLAG_STEPS {
        if let Some(offset) = flagged_at(zone, flag, instant, FLAG_STEP * i64::from(steps)) {
            return Some(offset);
        }
    }
    None
}

/// An offset an hour off, where no time near has this flag.
fn hour_off(flag: bool, offset: i32) -> i32
    requires { IsOffsetSeconds offset }
    ensures { result ≡ Spec.hour_off flag offset }
{
    if flag { offset + 3600 } else { offset - 3600 }
}

/// The offset by which a clock is read where the zone shows it with another flag than is asked.
#[tactic(auto, using(gix_date::proofs::Text::Ints::held, crate::proofs::Exact::Searches::clock_within))]
fn by_other_flag(zone: &TimeZone<'_>, flag: bool, clock: i64, offset: i32) -> i32
    requires clock { GixDate.is_instant (clock -ℤ offset) ≡ true }
    requires near { IsOffsetSeconds offset }
    ensures { result ≡ unwrap_or (Spec.nearest Spec.flag_steps (Spec.states_of (plain_zone zone.now)) flag (clock -ℤ offset))
        (Spec.hour_off flag offset) }
{
    let instant = earlier(clock, i64::from(offset));
    nearest(zone, flag, instant).unwrap_or(hour_off(flag, offset))
}

/// The offset by which a clock is read that the zone shows there, perhaps with another flag than is asked.
#[tactic(auto, using(gix_date::proofs::Text::Ints::held, crate::proofs::Exact::Searches::other_told))]
fn by_flag(zone: &TimeZone<'_>, asked: Asked, there: ZoneState) -> i32
    requires clock { GixDate.is_instant (asked.clock -ℤ there.offset) ≡ true }
    requires near { IsOffsetSeconds there.offset }
    ensures { result ≡ Spec.by_flag (Spec.states_of (plain_zone zone.now)) asked asked.daylight there }
{
    let Some(flag) = asked.daylight else {
        return there.offset;
    };
    if flag == there.daylight {
        return there.offset;
    }
    by_other_flag(zone, flag, asked.clock, there.offset)
}

impl Trail {
    /// At the first offset of a search.
    fn at(guess: i32) -> Trail
        ensures { result ≡ Spec.first_trail guess }
    {
        Trail {
            here: guess,
            last: None,
            before: None,
        }
    }

    /// At the offset to which the zone leads from here.
    fn moved(self, there: ZoneState) -> Trail
        ensures { result ≡ Spec.moved self there }
    {
        Trail {
            here: there.offset,
            last: Some(ZoneState {
                offset: self.here,
                daylight: there.daylight,
            }),
            before: self.last.map(|last| last.offset),
        }
    }

    /// Whether the search goes to and fro, and stops here.
    fn is_back(self, flag: Option<bool>, here: bool) -> bool
        ensures { result ≡ Spec.is_back self flag here }
    {
        self.before.is_some_and(|before| self.here == before) && stops(flag, self.last, here)
    }
}

/// Whether a search that goes to and fro stops where the zone has this flag.
fn stops(flag: Option<bool>, last: Option<ZoneState>, here: bool) -> bool
    ensures { result ≡ Spec.stops flag last here }
{
    match (flag, last) {
        (Some(flag), _) => flag != here,
        (None, Some(last)) => !last.daylight || here,
        (None, None) => false,
    }
}

/// Second 60 is the second after 59, which is looked for.
pub(crate) fn before_leap(is_leap: bool, clock: i64) -> i64
    requires { IsBetween (neg_ℤ (pos (10 ^ 16))) (pos (10 ^ 16)) clock }
    ensures { result ≡ Spec.before_leap is_leap clock }
{
    if is_leap { clock - 1 } else { clock }
}

/// Git's search: the offset by which a clock is read, from the one that the last search found. `None` where it finds none in six
/// moves, or leaves the instants.
#[tactic(auto, unfolding(crate::specs::found_offset))]
pub(crate) fn found_offset(zone: TimeZone<'_>, asked: Asked, guess: i32) -> Option<i32>
    ensures value { result ≡ Spec.found_offset (Spec.states_of (plain_zone zone.entry)) asked guess }
    ensures clock { IfSome result (λ offset. GixDate.is_instant asked.clock ≡ true) }
{
    if !is_instant(asked.clock) {
        return None;
    }
    let mut trail = Trail::at(guess);
    'moves: for _move in 0..MOST_MOVES {
        let Some(there) = state_at(&zone, asked.clock - i64::from(trail.here)) else {
            return None;
        };
        if there.offset == trail.here {
            return Some(by_flag(&zone, asked, there));
        }
        if trail.is_back(asked.daylight, there.daylight) {
            return Some(trail.here);
        }
        trail = trail.moved(there);
    }
    None
}
