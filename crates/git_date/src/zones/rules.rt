//! What a POSIX rule says of an instant: what `jiff` says, by the months in which its daylight saving time begins and ends.
ghost use Rattle.std.specs.Prelude.{◌≡◌, ◌&&◌, if◌then◌else◌, not, ℤ, pos, true, IfSome};
ghost use Rattle.std.specs.Int.{int_div_euclid};
ghost use Rattle.jiff_core.specs.Date.{epoch_day};
ghost use Rattle.jiff.specs.Words.{plain_zone, IsOffsetSeconds};
ghost use Rattle.git_date.specs as Spec;
ghost use Rattle.gix_date.specs as GixDate;

use crate::zones::ZoneState;
use crate::zones::changes::Change;
use gix_date::time::SECONDS_PER_DAY;
use jiff::tz::TimeZone;
use jiff_core::Offset;
use jiff_core::civil::Date;
use jiff_tz::posix::Dst;

/// What a zone of a rule says of an instant in this second. `None` says nothing: the zone has another kind, or its rule counts
/// days of the year, or changes as the year does.
#[inline(always)]
pub(crate) fn state_by_rule(zone: &TimeZone<'_>, seconds: i64) -> Option<ZoneState>
    requires { GixDate.is_instant seconds ≡ true }
    ensures value { IfSome result (λ there. (n : ℤ) → Spec.whole_second n ≡ seconds → there ≡ Spec.state_there (plain_zone zone.now) n) }
    ensures near { IfSome result (λ there. IsOffsetSeconds there.offset) }
{
    if is_rule(zone) {
        state_of_rule(zone, seconds)
    } else {
        None
    }
}

/// Whether a zone is that of a rule: others are not copied to be asked.
#[inline(always)]
fn is_rule(zone: &TimeZone<'_>) -> bool {
    matches!(zone.to_plain(), jiff_tz::TimeZone::Posix(_))
}

/// The same, apart from what other zones ask.
#[inline(never)]
#[tactic(auto, using(gix_date::proofs::Text::Ints::held, crate::proofs::Exact::RuleYears::standard_always, crate::proofs::Exact::RuleYears::standard_there, crate::proofs::Exact::RuleYears::daylight_there))]
pub(crate) fn state_of_rule(zone: &TimeZone<'_>, seconds: i64) -> Option<ZoneState>
    requires { GixDate.is_instant seconds ≡ true }
    ensures value { IfSome result (λ there. (n : ℤ) → Spec.whole_second n ≡ seconds → there ≡ Spec.state_there (plain_zone zone.now) n) }
    ensures near { IfSome result (λ there. IsOffsetSeconds there.offset) }
{
    let jiff_tz::TimeZone::Posix(rule) = zone.to_plain() else {
        return None;
    };
    let standard = ZoneState {
        offset: rule.std_offset.seconds,
        daylight: false,
    };
    let Some(daylight) = rule.dst else {
        return Some(standard);
    };
    if !is_daylight(daylight, rule.std_offset, seconds)? {
        return Some(standard);
    }
    Some(ZoneState {
        offset: daylight.offset.seconds,
        daylight: true,
    })
}

/// Whether daylight saving time is in force in a second. `None` says nothing.
#[tactic(auto, using(gix_date::proofs::Text::Ints::held))]
fn is_daylight(rule: Dst, standard: Offset, seconds: i64) -> Option<bool>
    requires { GixDate.is_instant seconds ≡ true }
    ensures { IfSome result (Spec.IsDaylight rule standard seconds) }
{
    let start = Change::of(rule.rule.start, standard)?;
    let end = Change::of(rule.rule.end, rule.offset)?;
    let starts_first = start.comes_before(end)?;
    let today = day_of(seconds)?;
    let started = start.has_come(today, seconds);
    let ended = end.has_come(today, seconds);
    Some(is_on(starts_first, started, ended))
}

/// The day of a second by the clock of UTC.
#[tactic(auto, using(gix_date::proofs::Text::Ints::held))]
fn day_of(seconds: i64) -> Option<Date>
    ensures { IfSome result (λ day. epoch_day day ≡ int_div_euclid seconds (pos GixDate.seconds_per_day)) }
{
    Date::from_unix_epoch_day(seconds.div_euclid(SECONDS_PER_DAY)).ok()
}

/// Whether daylight saving time is in force where these of its changes have come in the year. Where it ends first, it is so before
/// the end too.
fn is_on(starts_first: bool, started: bool, ended: bool) -> bool
    ensures { result ≡ (if starts_first then started && not ended else not (ended && not started)) }
{
    if starts_first {
        started && !ended
    } else {
        !(ended && !started)
    }
}
