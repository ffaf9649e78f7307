//! Laws of `git_date`: each is the contract of a function that does nothing, so that a proof which calls it knows the law.
#![tactic(auto)]

ghost use Rattle.std.specs.Prelude.{◌≡◌};
ghost use Rattle.jiff.specs.Words.{plain_zone};
ghost use Rattle.git_date_laws.specs as Spec;
ghost use Rattle.git_date.specs as GitDate;

mod approximate;
mod formats;
mod readers;

pub use approximate::{
    approximate_ignored_is_unused, back_in_every_zone, not_understood_is_now, one_answer,
};
pub use formats::{joined_formats, modes_by_format, plain_format, stored_by_format};
use gix_date::{Time, Zoned};
use jiff::tz::TimeZone;
pub use readers::agree;

/// For every text, time and moment, in every zone: [`git_date::parse_date`], [`git_date::approxidate`] and [`git_date::expiry_date`] have
/// exactly one result each, by the rules that are written. `approxidate` has that of `parse_date` wherever this reads. Letter case
/// changes neither. `now` is now, where that is found again.
///
/// What [`git_date::show_date`] shows of a time by `iso8601`, `iso8601-strict`, `rfc2822` and `default` is read as that time in every
/// zone, and nothing is ignored: for times from 1970 on of the years to 2099, at whole minutes within 23:59, but for one minute behind
/// UTC. So it is of the first three with `-local`, at the zone's offset. What `raw` and `raw-local` show is read so from 100000000
/// seconds to the end of 2099 by UTC, and after `@` what `raw` shows of every time. What `unix` shows of such seconds is read as
/// them.
#[tactic(auto, using(crate::proofs::Whole::Headline::headline_holds))]
pub fn headline(text: &[u8], time: Time, now: &Zoned<'_>)
    ensures { Spec.IsHeadline now.now text.now time }
{}

/// The texts of the tokens are the text, and no two neighbours are both letters or both digits.
#[tactic(auto, using(git_date::proofs::Text::TokenRuns::texts_are, crate::proofs::Alike::Apart::apart))]
pub fn tokens(text: &[u8])
    ensures texts { GitDate.texts (GitDate.tokens text.now) ≡ text.now }
    ensures apart { Spec.AreApart (GitDate.tokens text.now) }
{}

/// A date that says its offset has the same answer in every zone. [`git_date::ExactDate::has_offset`] tells of such a date.
#[tactic(auto, using(crate::proofs::Back::Zones::zones, crate::proofs::Back::Zones::every_zone))]
pub fn written_offset(text: &[u8], now: &Zoned<'_>)
    ensures said { Spec.IgnoresZone now.now text.now }
    ensures told { Spec.IsOfEveryZone now.now text.now }
{}

/// Where a zone has at most two offsets within 26 hours of a clock, as each zone of a rule has, [`git_date::parse_date`] reads the
/// clock by an offset that shows it, wherever the zone's clock ever does: also where changes stand near each other, or near New
/// Year. A clock that is shown once is found again by what it shows, and whether that is daylight saving time.
#[tactic(auto, using(crate::proofs::Back::ClockRead::clocks_read))]
pub fn clock_read(zone: TimeZone<'_>)
    ensures { Spec.IsClockRead (plain_zone zone.entry) }
{}

/// What is ignored of a date is the first word, number or sign of an offset that is not used, or else a NUL. A word is used if it is
/// a month, a day of the week, a zone, `AM`, `PM`, `ago`, `at`, `on`, `of`, `the` or `and`, and no digit follows directly; digits are
/// if they set a field, and a sign directly before digits is if they say an offset. Only other marks, a fraction or the ending of a
/// number, a `T` between digits and what follows a line feed are passed over. After `@` nothing is ignored but a NUL.
#[tactic(auto, using(crate::proofs::Ignored::Unused::ignores_unused))]
pub fn ignored_is_unused(text: &[u8], now: &Zoned<'_>)
    ensures { Spec.IgnoresUnused now.now text.now }
{}

/// What follows a line feed changes no answer, unless an offset goes on there: after `@`, seconds, a space and a sign, or after
/// a sign, two digits and a colon. What begins at a NUL there is ignored, unless something before it is.
#[tactic(auto, using(crate::proofs::Alike::Cases::any_lines))]
pub fn later_lines(text: &[u8], now: &Zoned<'_>)
    ensures { Spec.IgnoresLines now.now text.now }
{}

/// A text in which the reader comes to no date with dots, slashes or dashes but those that begin with their year has the same
/// answer at every instant. So has one in which no number up to 70 stands directly before a dot, a slash or a dash and digits.
#[tactic(auto, using(crate::proofs::Alike::Moments::any_instant, crate::proofs::Alike::Moments::without_days))]
pub fn instants(text: &[u8], now: &Zoned<'_>)
    ensures met { Spec.IgnoresInstant now.now text.now }
    ensures begun { Spec.IsWithoutDayMonth now.now text.now }
{}
