//! What a call asks of a zone that C shows.
ghost use Rattle.std.specs.Prelude.{◌≡◌, MatchResult, IsTrue};
ghost use Rattle.std.specs.Result.{result_map_both};
ghost use Rattle.jiff.specs.Words.{plain_zone};
ghost use Rattle.gix_date_c.specs.declared.values.status.Status.TheVariants.{Memory};
ghost use Rattle.gix_date_c.specs as Spec;

use crate::handle::ShownZone;
use crate::moment::{CInstant, moment_in, offset_zone};
use crate::values::status::Status;
use crate::zone::{TakenZone, in_box};
use gix_date::Zoned;
use jiff::tz::TimeZone;
use std::alloc::Global;

impl ShownZone {
    /// Whether there is the zone.
    #[tactic(auto, using(gix_date::proofs::Text::Ints::held, crate::proofs::Named::held_found, crate::proofs::Named::offset_found))]
    #[inline(always)]
    pub(crate) fn is_zone(&self) -> bool
        ensures { IsTrue result → Spec.HasZone self.now }
    {
        if self.holds() {
            return true;
        }
        offset_zone(self.offset).is_ok()
    }

    /// The moment of an instant in the zone.
    pub(crate) fn moment(&self, instant: &CInstant) -> Result<Zoned<'_>, Status>
        ensures { Spec.IsNow (Spec.IsShown self.now) instant.now result }
    {
        moment_in(instant, self.zone())
    }

    /// The zone itself.
    pub(crate) fn zone(&self) -> Result<TimeZone<'_>, Status>
        ensures { Spec.IsShown self.now (result_map_both plain_zone (λ status. status) result) }
    {
        match self.held() {
            Some(held) => Ok(held.zone()),
            None => offset_zone(self.offset),
        }
    }

    /// The same zone once more, out of C's hands.
    pub(crate) fn copied(&self, alloc: Global) -> Result<TakenZone, Status>
        ensures { MatchResult result (Spec.IsTakenCopy self.now) (λ status. status ≡ Memory) }
    {
        let held = match self.held() {
            Some(held) => Some(in_box(alloc, held.copied()?)?),
            None => None,
        };
        Ok(TakenZone {
            offset: self.offset,
            held,
        })
    }
}
