//! Laws: each is the contract of a function. When they run, only [`headline`] and [`headline_with`] do something.
ghost use Rattle.gix_date.specs as Spec;
ghost use Rattle.gix_date.specs.declared.parsing.raw.RawOffsets.TheVariants.{Quarter, WholeMinutes};
ghost use Rattle.std.specs.Prelude.{◌≡◌, ◌<◌, ◌%◌, unsigned_abs, ◌≤◌, [], ◌∷◌, pos, FitsSigned};
ghost use Rattle.std.specs.Int.{w64};
ghost use Rattle.std.specs.List.{All};
ghost use Rattle.jiff.specs.Words.{plain_zoned, IsFixed};

use crate::error::Error;
use crate::parsing::dates::{parse, parse_with};
use crate::parsing::raw::RawOffsets;
use crate::time::Time;
use jiff::Zoned;
use std::alloc::Global;

/// The whole promise, in five parts.
///
/// - For every text, moment and zone, [`parse`] gives the answer or refusal of the first family in its list that holds
///   the text. This function returns what `parse` gives.
/// - Raw texts, bare epochs and Git's own forms exclude one another. No raw text or bare epoch is relative.
/// - No text is of two families, but Git's own forms share texts with ISO 8601, its strict form and relative texts.
/// - Reading a header and writing it gives the same text iff the text is canonical.
/// - The texts of the six named formats with a clock are parsed back to the time. The time has to convert, its own
///   clock to show a year from 1000 to 9999, and its offset to be whole minutes within 23:59.
///
/// This holds unless memory runs out or the writer fails. The parts are the contract of `parse` and the laws
/// [`disjoint`], [`exclusive`], [`canonical`] and [`read_back`].
#[tactic(auto, using(crate::proofs::Printing::PrintedBack::round_trips_by_each))]
pub fn headline(alloc: Global, text: &str, now: Option<Zoned<'_>>) -> Result<Time, Error>
    ensures first_family { Spec.ParseOutcome (Spec.first_family text.now) text.now now.entry result }
    ensures disjoint { Spec.AreDisjoint Spec.is_quarter_offset text.now }
    ensures exclusive { Spec.AreExclusive Spec.is_quarter_offset text.now }
    ensures canonical { Spec.CanonicalIffUnchanged text.now }
    ensures read_back { Spec.TimesRoundTrip Spec.is_quarter_offset }
{
    disjoint(text);
    exclusive(text, RawOffsets::Quarter);
    canonical(text);
    parse(alloc, text, now)
}

/// The whole promise of [`parse_with`], by either rule for the offsets of raw texts. It is that of [`headline`], for
/// the texts that are raw by this rule.
#[tactic(auto, using(crate::proofs::Families::Disjoint::are_disjoint, crate::proofs::Printing::PrintedBack::round_trips_by_each))]
pub fn headline_with(
    alloc: Global,
    text: &str,
    now: Option<Zoned<'_>>,
    raw: RawOffsets,
) -> Result<Time, Error>
    ensures first_family { Spec.ParseOutcome (Spec.first_family_by (Spec.allows raw) text.now) text.now now.entry result }
    ensures disjoint { Spec.AreDisjoint (Spec.allows raw) text.now }
    ensures exclusive { Spec.AreExclusive (Spec.allows raw) text.now }
    ensures canonical { Spec.CanonicalIffUnchanged text.now }
    ensures read_back { Spec.TimesRoundTrip (Spec.allows raw) }
{
    exclusive(text, raw);
    canonical(text);
    parse_with(alloc, text, now, raw)
}

/// No text is of two of these families: raw texts, bare epochs and Git's own forms. No raw text or bare epoch is
/// relative.
#[tactic(auto, using(crate::proofs::Families::Disjoint::are_disjoint))]
pub fn disjoint(text: &str)
    ensures { Spec.AreDisjoint Spec.is_quarter_offset text.now }
{}

/// [`disjoint`], where raw texts have offsets of whole minutes up to 23:59.
#[tactic(auto, using(crate::proofs::Families::Disjoint::are_disjoint))]
pub fn disjoint_wide(text: &str)
    ensures { Spec.AreDisjoint Spec.is_minute_offset text.now }
{}

/// A text of one family is of no other family, unless the two overlap, by either rule for raw offsets. Git's own forms
/// overlap with ISO 8601, its strict form and relative texts (`overlap`).
#[tactic(auto, using(crate::proofs::Families::Exclusive::are_exclusive))]
pub fn exclusive(text: &str, raw: RawOffsets)
    ensures { Spec.AreExclusive (Spec.allows raw) text.now }
{}

/// What a named format with a clock prints of a time is parsed back to it, at every moment and without one. The time
/// has to round-trip (`Time::round_trips`): it converts, its own clock shows a year from 1000 to 9999, and its offset is
/// whole minutes within 23:59.
#[tactic(auto, using(crate::proofs::Printing::PrintedBack::round_trips_by_pattern, crate::proofs::Printing::PrintedBack::quarters_by_each))]
pub fn read_back(time: Time)
    requires { Spec.RoundTrips time }
    ensures formats { Spec.RoundTripsByEach Spec.is_quarter_offset time }
    ensures texts { Spec.RoundTripsByPattern Spec.is_quarter_offset time }
{}

/// [`read_back`] for `parse_with`, where raw texts have offsets of whole minutes up to 23:59.
#[tactic(auto, using(crate::proofs::Printing::PrintedBack::round_trips_by_pattern, crate::proofs::Printing::PrintedBack::minutes_by_each))]
pub fn read_back_wide(time: Time)
    requires { Spec.RoundTrips time }
    ensures formats { Spec.RoundTripsByEach Spec.is_minute_offset time }
    ensures texts { Spec.RoundTripsByPattern Spec.is_minute_offset time }
{}

/// The header text of a time whose offset is quarters of an hour up to 14:45 is parsed back to it. The decimal text of
/// seconds from 100000000 on is parsed back to these seconds with offset 0. Both hold at every moment and without one.
#[tactic(auto, using(crate::proofs::Printing::RawBack::raw_back, crate::proofs::Printing::RawBack::seconds_back))]
pub fn raw_read_back(time: Time)
    ensures header { Spec.HeaderRoundTrips Quarter time }
    ensures seconds { Spec.SecondsRoundTrip Quarter time.seconds }
{}

/// [`raw_read_back`] for `parse_with`, and header texts whose offset is whole minutes up to 23:59.
#[tactic(auto, using(crate::proofs::Printing::RawBack::wide_back, crate::proofs::Printing::RawBack::seconds_back))]
pub fn raw_read_back_wide(time: Time)
    ensures header { Spec.HeaderRoundTrips WholeMinutes time }
    ensures seconds { Spec.SecondsRoundTrip WholeMinutes time.seconds }
{}

/// Reading a header and writing it gives the same text iff the text is canonical. A canonical header is the
/// decimal text of an `i64`, one space, a sign, two digits of hours and two of minutes below 60. Its offset is not
/// `-0000`.
#[tactic(auto, using(crate::proofs::Header::HeaderLaws::comes_back_canonical, crate::proofs::Header::HeaderLaws::canonical_back, crate::proofs::Header::HeaderLaws::canonical_taken))]
pub fn canonical(text: &str)
    ensures { Spec.CanonicalIffUnchanged text.now }
{}

/// A time is read back from its header text, if its offset is whole minutes below 100 hours either way.
#[tactic(auto, using(crate::proofs::Header::HeaderLaws::written_text_is_read))]
pub fn written_is_read(time: Time)
    requires short { unsigned_abs time.offset < Spec.hundred_hours }
    requires whole { unsigned_abs time.offset % 60 ≡ 0 }
    ensures { Spec.RoundTripsThroughHeader time }
{}

/// Two times with offsets below 100 hours have the same header text iff their seconds are equal, and their offsets have
/// equal signs and whole minutes.
#[tactic(auto, using(crate::proofs::Header::HeaderLaws::alike_to, crate::proofs::Header::HeaderLaws::alike_from))]
pub fn alike(a: Time, b: Time)
    requires first { unsigned_abs a.offset < Spec.hundred_hours }
    requires second { unsigned_abs b.offset < Spec.hundred_hours }
    ensures { Spec.AreWrittenAlike a b }
{}

/// In a zone of one offset `yesterday` and one pair of a day name the same instant, or neither names an instant. Such a
/// zone is UTC, an unknown zone, or one that `jiff` makes of an offset.
#[tactic(auto, using(crate::proofs::Relative::FixedSeconds::yesterday_alike))]
pub fn yesterday(moment: &Zoned<'_>)
    requires fixed { IsFixed (Spec.zone_of moment.now) }
    ensures { Spec.NamesAlike moment.now (Spec.MinusSeconds (pos 86_400)) (Spec.less_seconds ((pos 1, pos 86_400) ∷ [])) }
{}

/// In a zone of one offset pairs of seconds name the moment less their sum. An `i64` has to hold each product, and the
/// result has to be an instant. They name nothing else, so their order does not matter. In a zone whose clock goes back a
/// pair may do more than subtract seconds.
#[tactic(auto, using(crate::proofs::Relative::FixedSeconds::seconds_add, crate::proofs::Relative::FixedSeconds::seconds_permute))]
pub fn seconds_permute(moment: &Zoned<'_>, pairs: &[(i64, i64)])
    requires fixed { IsFixed (Spec.zone_of moment.now) }
    requires pairs { All Spec.IsNonnegativePair pairs.now }
    ensures sum { Spec.NamesSum pairs.now moment.now }
    ensures order { Spec.IgnoresOrder pairs.now moment.now }
{}

/// In a zone of one offset pairs of months name what one pair of their sum names, or neither names an instant. This
/// needs a day of the month up to the 28th: for a later one a month between may be too short.
#[tactic(auto, using(crate::proofs::Relative::FixedSteps::months_alike))]
pub fn months_add(moment: &Zoned<'_>, pairs: &[(i64, i64)])
    requires fixed { IsFixed (Spec.zone_of moment.now) }
    requires pairs { All Spec.IsNonnegativePair pairs.now }
    requires sum { FitsSigned w64 (Spec.total pairs.now) }
    requires day { (plain_zoned moment.now).datetime.date.day ≤ 28 }
    ensures { Spec.NamesAlike moment.now (Spec.less_months pairs.now) (Spec.less_months ((Spec.total pairs.now, pos 1) ∷ [])) }
{}
