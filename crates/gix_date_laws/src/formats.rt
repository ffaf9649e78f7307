//! Laws of what is printed: the named formats, their texts, and what is parsed back.
ghost use Rattle.gix_date.specs as GixDate;

use gix_date::{RawOffsets, Time};

/// Each named pattern prints what the time's own clock shows, for years from 1000 to 9999 and offsets of whole minutes.
/// The printer refuses no such time.
#[tactic(auto, using(gix_date::proofs::Printing::PrintedTimes::printed_as, gix_date::proofs::Printing::NamedTexts::formats_printed))]
pub fn printed(time: Time)
    ensures short { GixDate.IsPrintedAs GixDate.short_pattern GixDate.short_text time }
    ensures rfc2822 { GixDate.IsPrintedAs GixDate.rfc2822_pattern GixDate.rfc2822_text time }
    ensures git_rfc2822 { GixDate.IsPrintedAs GixDate.git_rfc2822_pattern GixDate.git_rfc2822_text time }
    ensures iso8601 { GixDate.IsPrintedAs GixDate.iso8601_pattern GixDate.iso8601_text time }
    ensures iso8601_strict { GixDate.IsPrintedAs GixDate.iso8601_strict_pattern GixDate.iso8601_strict_text time }
    ensures gitoxide { GixDate.IsPrintedAs GixDate.gitoxide_pattern GixDate.gitoxide_text time }
    ensures default { GixDate.IsPrintedAs GixDate.default_pattern GixDate.default_text time }
{}

/// What [`SHORT`] prints of a time is parsed as midnight in UTC of the day that the time's own clock shows. For
/// 9999-12-31 that midnight is no instant, so `parse` refuses this text. The time has to convert, and its clock to
/// show four-digit fields.
#[tactic(auto, using(crate::proofs::Printing::short_back))]
pub fn short_read_back(time: Time, raw: RawOffsets)
    requires converts { GixDate.IsConvertible time }
    requires four_digits { GixDate.HasFourDigitFields time }
    ensures { GixDate.ShortReadsAsMidnight (GixDate.allows raw) time }
{}
