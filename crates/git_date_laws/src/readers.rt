//! Where `gix_date` and `git_date` read the same time.
ghost use Rattle.git_date_laws.specs as Spec;
ghost use Rattle.gix_date.specs as GixDate;

use gix_date::{RawOffsets, Zoned};

/// [`gix_date::parse_with`] and [`git_date::parse_date`] read the same time, where both read one, the offset is written, and Git
/// ignores nothing: of seconds since 1970, and of formatted dates from 1970 on without a second 60, which `gix_date` reads as 59. Git
/// has no offset of one minute behind UTC.
///
/// The law does not speak of Git's own forms: `2008-02-14 20:30:45 -:0530` is behind UTC by `gix_date`, and ahead of it by Git.
#[tactic(auto, using(crate::proofs::Agreement::Agreed::seconds_agree, crate::proofs::Agreement::Agreed::dates_agree))]
pub fn agree(text: &str, raw: RawOffsets, now: &Zoned<'_>)
    ensures seconds { Spec.AgreesOnSeconds (GixDate.allows raw) now.now text.now }
    ensures dates { Spec.AgreesOnDates (GixDate.allows raw) now.now text.now }
{}
