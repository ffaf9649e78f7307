//! Relative texts: `yesterday`, `2 weeks ago`, `1 month 2 days ago`.
ghost use Rattle.std.specs.Prelude.{◌≡◌, pos, IfOk, IfSome, option_map};
ghost use Rattle.jiff.specs.Words.{zoned_nanos, offset_at, KeepsZone, IsOffsetSeconds};
ghost use Rattle.gix_date.specs as Spec;

use crate::error::ParseError;
use crate::parsing::fields::trimmed;
use crate::parsing::relative::pairs::{are_pairs, next_pair};
use crate::parsing::relative::steps::{earlier, resolve, subtract};
use crate::time::{SECONDS_PER_DAY, Time};
use jiff::Zoned;

pub(crate) mod pairs;
pub(crate) mod steps;
mod words;

/// What a relative text asks for.
#[derive(Clone, Copy)]
pub(crate) enum Relative<'a> {
    /// So many seconds before the moment.
    MinusSeconds(i64),
    /// The pairs of this text, subtracted from the moment one after the other. They are read again, so that no memory is
    /// taken.
    MinusPairs(&'a str),
}

/// What a text asks for, where it is relative: white space aside `now`, `today` or `yesterday` in any letter case, or
/// pairs of counts and periods (`2 days 3 hours ago`).
#[tactic(auto, unfolding(crate::specs::relative_date, crate::specs::pairs_date))]
pub(crate) fn parse(input: &str) -> Option<Relative<'_>>
    ensures { option_map Spec.relative_date_of result ≡ Spec.relative_date input.now }
{
    if let Some(date) = parse_named(trimmed(input)) {
        return Some(date);
    }
    if are_pairs(input) {
        return Some(Relative::MinusPairs(input));
    }
    None
}

/// What a name asks for.
#[tactic(auto, unfolding(crate::specs::named_date))]
fn parse_named(name: &str) -> Option<Relative<'static>>
    ensures { option_map Spec.relative_date_of result ≡ Spec.named_date name.now }
{
    if name.eq_ignore_ascii_case("now") || name.eq_ignore_ascii_case("today") {
        Some(Relative::MinusSeconds(0))
    } else if name.eq_ignore_ascii_case("yesterday") {
        Some(Relative::MinusSeconds(SECONDS_PER_DAY))
    } else {
        None
    }
}

impl<'a> Relative<'a> {
    /// The time that is asked for, from this moment: whole seconds, and the offset of the moment's zone there.
    ///
    /// [`ParseError::MissingNow`] without a moment, and [`ParseError::Range`] if there is no such time.
    #[inline(always)]
    pub(crate) fn time(self, now: Option<Zoned<'_>>) -> Result<Time, ParseError>
        ensures outcome { Spec.RelativeOutcome (Spec.relative_date_of self.entry) now.entry result }
        ensures offset_fits { IfOk result (λ t. IsOffsetSeconds t.offset) }
    {
        let Some(moment) = now else {
            return Err(ParseError::MissingNow);
        };
        self.time_from(moment).ok_or(ParseError::Range)
    }

    /// The time that is asked for from a moment.
    fn time_from(self, moment: Zoned<'_>) -> Option<Time>
        ensures named { Spec.IsNamedIfAny (Spec.relative_date_of self.entry) moment.entry result }
        ensures offset_fits { IfSome result (λ t. IsOffsetSeconds t.offset) }
    {
        let instant = instant_of(self, moment)?;
        Some(time_of_moment(instant))
    }
}

/// The instant that is asked for, in the moment's zone.
fn instant_of<'z>(relative: Relative<'_>, moment: Zoned<'z>) -> Option<Zoned<'z>>
    ensures reaches { Spec.IsAt
        (Spec.Reaches (Spec.relative_date_of relative.entry) (Spec.zone_of moment.entry) (zoned_nanos moment.entry)) result }
    ensures zone { IfSome result (KeepsZone moment.entry) }
{
    match relative {
        Relative::MinusSeconds(seconds) => earlier(moment, seconds),
        Relative::MinusPairs(text) => subtract_pairs(resolve(moment)?, text),
    }
}

/// Subtracts the pairs of a text from the moment, one after the other.
fn subtract_pairs<'a>(start: Zoned<'a>, text: &str) -> Option<Zoned<'a>>
    ensures chain { Spec.IsAt
        (Spec.Chain (Spec.zone_of start.entry) (Spec.pairs_read (Spec.relative_words text.now)) (zoned_nanos start.entry)) result }
    ensures zone { IfSome result (KeepsZone start.entry) }
{
    let mut moment = start;
    let mut rest = text;
    while let Some((pair, after)) = next_pair(rest) {
        moment = subtract(moment, pair)?;
        rest = after;
    }
    Some(moment)
}

/// The time of a moment: whole seconds, towards 1970, and the offset of its zone there.
pub(crate) fn time_of_moment(moment: Zoned<'_>) -> Time
    ensures seconds { result.seconds ≡ Spec.whole_seconds (zoned_nanos moment.entry) }
    ensures offset { result.offset ≡ offset_at (Spec.zone_of moment.entry) (zoned_nanos moment.entry) }
    ensures offset_fits { IsOffsetSeconds result.offset }
{
    Time::new(moment.timestamp().as_second(), moment.offset().seconds())
}
