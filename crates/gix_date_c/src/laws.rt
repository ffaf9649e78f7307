//! Laws of the calls for C: each is the contract of a function that does nothing.
ghost use Rattle.gix_date_c.specs as Spec;

use crate::lines::reader::LineReader;
use crate::zone::{CZone, ShownZone};
use git_date::DateMode;

/// The numbers by which C says how a date is shown say each mode, and no two say one.
#[tactic(auto, using(crate::proofs::Modes::numbered))]
fn numbered_modes(mode: DateMode)
    ensures { Spec.IsNumbered mode }
{}

/// After `gix_date_zone_read` of an offset, a file or a rule each call has the moments of the zone that this text names: its answer
/// is that of the library in this zone.
#[tactic(auto, using(crate::proofs::Named::moments, crate::proofs::Named::places))]
fn read_zone(text: &[u8], zone: &CZone, shown: &ShownZone)
    ensures moments { Spec.HasMomentsOf text.now zone.now shown.now }
    ensures places { Spec.HasPlacesOf text.now zone.now shown.now }
{}

/// A copy of such a zone means what that text names.
#[tactic(auto, using(crate::proofs::Named::copies))]
fn copied_zone(text: &[u8], zone: &CZone, shown: &ShownZone)
    ensures { Spec.AreCopiesNamed text.now zone.now shown.now }
{}

/// After a call for many lines the cells of each line hold what the call for one text stores of it.
#[tactic(auto, using(crate::proofs::Blocks::Cells::lines_are_texts))]
fn lines_are_texts(reader: &LineReader<'_>)
    ensures { Spec.LinesAreTexts reader.now }
{}

/// After a call for identity lines the cells of each line hold what the calls for one line tell of it, and its parts have their places
/// in the block.
#[tactic(auto, using(crate::proofs::Blocks::Told::ident_lines_are_told))]
fn ident_lines_are_told()
    ensures { Spec.IdentLinesAreTold }
{}
