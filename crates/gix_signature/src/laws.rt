//! Laws, each the contract of a function that does nothing.
ghost use Rattle.std.specs.Prelude.{IfOk};
ghost use Rattle.gix_signature.specs as Spec;

use crate::ident::GitTime;
use gix_date::Time;

/// A line has at most one cut.
#[tactic(auto, using(crate::proofs::Cuts::the_cut))]
pub fn one_cut(line: &str)
    ensures { Spec.OneCut line.now }
{}

/// What is written of a name, an email and a time is cut into the name, the email and the text of the time. This text
/// is read as the time again if the offset is whole minutes.
#[tactic(auto, using(crate::proofs::Written::written_is_cut))]
pub fn written_is_cut(name: &str, email: &str, time: Time)
    ensures { IfOk (Spec.line_due name.now email.now time) (Spec.IsWritten name.now email.now time) }
{}

/// Git shows a line that is cut with its email, and with its name but for blanks at the end.
#[tactic(auto, using(crate::proofs::Idents::Shown::cut_is_shown))]
pub fn cut_is_shown(line: &str)
    ensures { Spec.CutIsShown line.now }
{}

/// `git fsck` says nothing of a line that `write_ident` writes. Git shows the cleaned name and email, and the time in whole
/// minutes of its offset.
#[tactic(auto, using(crate::proofs::Cleaned::written_passes))]
pub fn written_passes(name: &[u8], email: &[u8], time: Time)
    ensures { Spec.WrittenPasses name.now email.now time }
{}

/// `git fsck` says nothing of a line that is cut and has a canonical time from the epoch on, and Git shows that time. Of
/// `-5 +0000` it says that the date overflows.
#[tactic(auto, using(crate::proofs::Cleaned::canonical_passes))]
pub fn canonical_passes(line: &str)
    ensures { Spec.CanonicalPasses line.now }
{}

/// Git shows a line that [`crate::write_ident_as_is`] writes with its email and time, and with its name but for blanks at the end.
/// Such a line, of a name without blanks at its end, is written again byte for byte of what Git shows.
#[tactic(auto, using(crate::proofs::Idents::Again::as_is_is_shown))]
pub fn as_is_is_shown(name: &[u8], email: &[u8], time: GitTime)
    ensures { Spec.AsIsIsShown name.now email.now time }
{}

/// The parts that Git shows of a line stand at the places of [`crate::IdentPlaces`]. What follows the email and its `>` is
/// the rest.
#[tactic(auto, using(crate::proofs::Idents::Places::places_hold))]
pub fn places_hold(text: &[u8])
    ensures { Spec.PlacesHold text.now }
{}
