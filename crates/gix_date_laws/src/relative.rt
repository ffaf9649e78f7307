//! Laws of relative dates: how their texts are written, that each names one time, which time some name, and which are read without a
//! guess.
ghost use Rattle.std.specs.Prelude.{pos, ◌-ℤ◌, codes};
ghost use Rattle.std.specs.List.{All};
ghost use Rattle.jiff.specs.Words.{zoned_nanos, nanos_of_seconds};
ghost use Rattle.gix_date_laws.specs as Spec;
ghost use Rattle.gix_date.specs as GixDate;

use gix_date::{CarefulOptions, RawOffsets, Time};
use jiff::Zoned;

/// A relative date names at most one time from each moment.
#[tactic(auto, using(crate::proofs::Pairs::named_once))]
pub fn named_once()
    ensures { GixDate.AreNamedOnce }
{}

/// Relative texts are the names `now`, `today` and `yesterday` and the texts whose words are pairs. In pairs some count has
/// a period. Each period of a count is a unit, or some free word is `ago`. A word is free iff an even number of count words
/// stands directly before it.
pub fn spelled_relative(text: &str)
    ensures so { GixDate.IsSpelledSo text.now }
    ensures parity { GixDate.AreFreeByParity }
{}

/// From a time, at its offset, `yesterday` and pairs of seconds name the time that many seconds earlier, if it has an
/// instant, and nothing else.
pub fn earlier(time: Time, pairs: &[(i64, i64)])
    requires { All GixDate.IsNonnegativePair pairs.now }
    ensures yesterday { GixDate.NamesEarlier (GixDate.MinusSeconds (pos 86_400)) time (pos 86_400) }
    ensures pairs { GixDate.NamesEarlier (GixDate.less_seconds pairs.now) time (GixDate.total pairs.now) }
{}

/// In every zone `now` and `today` name the moment, and `yesterday` the instant 86400 seconds before. White space around
/// the word and letter case make no difference.
#[tactic(auto, using(crate::proofs::Pairs::now_names, crate::proofs::Pairs::today_names, crate::proofs::Pairs::yesterday_names))]
pub fn named_instants(text: &str, moment: &Zoned<'_>)
    ensures now { Spec.IsWord (codes "now") text.now → Spec.NamesInstant text.now moment.now (zoned_nanos moment.now) }
    ensures today { Spec.IsWord (codes "today") text.now → Spec.NamesInstant text.now moment.now (zoned_nanos moment.now) }
    ensures yesterday { Spec.IsWord (codes "yesterday") text.now
        → Spec.NamesInstant text.now moment.now (zoned_nanos moment.now -ℤ nanos_of_seconds (pos 86_400)) }
{}

/// What `parse_carefully` reads, `parse_with` reads as the same time. The exception is a date of the moment's zone.
#[tactic(auto, using(crate::proofs::Whole::Cases::parsed_too))]
pub fn careful_is_parsed(text: &str, options: CarefulOptions)
    ensures { GixDate.IsParsedToo options text.now }
{}

/// A text that is clear at each place is a careful text, `count unit (and? count unit)* ago`, and nothing else is. The
/// first family answers its pairs, by either rule.
pub fn spelled_careful(text: &str, raw: RawOffsets)
    ensures so { GixDate.IsCarefulSo text.now }
    ensures answer { GixDate.AnswersPairs (GixDate.allows raw) text.now }
{}
