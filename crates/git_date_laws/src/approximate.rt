//! Laws of dates as people write them.
ghost use Rattle.git_date_laws.specs as Spec;

use gix_date::Zoned;

/// In a zone of one offset [`git_date::approxidate`] has one answer: the guess of a definition that asks no zone.
#[tactic(auto, using(crate::proofs::Whole::Guesses::one_answers))]
pub fn one_answer(text: &[u8], now: &Zoned<'_>)
    ensures { Spec.HasOneAnswer now.now text.now }
{}

/// In every zone `n UNIT ago`, of seconds to weeks, is exactly that many seconds before now, at the zone's offset there, if both
/// instants are found again: Git looks for each by what the zone's clock shows there, and whether that is daylight saving time. Of
/// a clock that is shown once [`clock_read`](crate::clock_read) says that it is. A NUL after the text is all that is ignored. The
/// seconds fit 32 bits and lead to no time before 1970.
///
/// The count is 1 or more, below 100000000 and not of eight digits: [`git_date::parse_date`] takes larger numbers for seconds since
/// 1970, and eight digits for a date. It has no leading 0 in three digits or more, which Git ignores.
#[tactic(auto, using(crate::proofs::Whole::EveryZone::back_in_every_zone))]
pub fn back_in_every_zone(text: &[u8], now: &Zoned<'_>)
    ensures { Spec.IsBackInEveryZone now.now text.now }
{}

/// Where nothing of a text is understood, the time is the moment's, in whole seconds, in every zone where it is found again.
#[tactic(auto, using(crate::proofs::Whole::Understood::moment_unless))]
pub fn not_understood_is_now(text: &[u8], now: &Zoned<'_>)
    ensures { Spec.IsMomentUnlessUnderstood now.now text.now }
{}

/// What is ignored of a text that [`git_date::parse_date`] does not read is the earliest that is not used, or else a NUL. Not used are
/// letters directly before digits; unknown words but `ago`, `at`, `on`, `of`, `the` and `and`; a unit without a number, and a count
/// beside a number that waits; the number 0, and one of three digits or more that begins with 0; and a number that fits no unknown
/// field, or that `now`, `yesterday` or `never` drops.
#[tactic(auto, using(crate::proofs::Ignored::UnusedDrafts::ignores_earliest))]
pub fn approximate_ignored_is_unused(text: &[u8], now: &Zoned<'_>)
    ensures { Spec.IgnoresEarliest now.now text.now }
{}
