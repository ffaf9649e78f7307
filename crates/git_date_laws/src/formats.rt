//! Laws of dates by a format.
ghost use Rattle.jiff.specs.Words.{plain_zone};
ghost use Rattle.git_date_laws.specs as Spec;

use gix_date::Time;
use jiff::tz::TimeZone;

/// A format without a percent sign shows itself, wherever the clock shows anything.
#[tactic(auto, using(crate::proofs::Printing::FormatLaws::shows_itself))]
pub fn plain_format(format: &str, local: bool, zone: TimeZone<'_>, time: Time)
    ensures { Spec.ShowsItself (plain_zone zone.entry) local format.now time }
{}

/// By `%s` a time's own clock in the years 1970 to 2099 shows what [`git_date::show_date`] shows by `unix`, and by `%s %z` what it
/// shows by `raw`.
#[tactic(auto, using(crate::proofs::Printing::FormatLaws::shows_stored))]
pub fn stored_by_format(zone: TimeZone<'_>, time: Time)
    ensures { Spec.ShowsStored (plain_zone zone.entry) time }
{}

/// By `%Y-%m-%d %H:%M:%S %z` a format shows what [`git_date::show_date`] shows by `iso8601`, and by `%F` what it shows by `short`, by
/// either clock. Where the mode shows nothing of a time, nor does the format.
#[tactic(auto, using(crate::proofs::Whole::FormatModes::shows_modes))]
pub fn modes_by_format(zone: TimeZone<'_>, time: Time)
    ensures { Spec.ShowsModes (plain_zone zone.entry) time }
{}

/// Two formats joined are a format, which shows both texts joined, wherever both show one. A fault of the second is that of both, at
/// its place after the first.
#[tactic(auto, using(crate::proofs::Printing::JoinedFormats::checks_joined, crate::proofs::Printing::JoinedFormats::shows_joined))]
pub fn joined_formats(first: &str, second: &str, local: bool, zone: TimeZone<'_>, time: Time)
    ensures checked { Spec.ChecksJoined first.now second.now }
    ensures shown { Spec.ShowsJoined (plain_zone zone.entry) local first.now second.now time }
{}
