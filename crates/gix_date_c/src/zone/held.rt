//! What zones are, where C holds them.
ghost use Rattle.std.specs.Prelude.{◌≡◌, MatchResult};
ghost use Rattle.std.specs.Result.{result_map_both};
ghost use Rattle.jiff.specs.Words.{plain_zone};
ghost use Rattle.gix_date_c.specs.declared.values.status.Status.TheVariants.{Memory};
ghost use Rattle.gix_date_c.specs as Spec;

use crate::moment::{table_of, text_zone};
use crate::values::status::Status;
use jiff::tz::{TimeZone, Tzif};
use std::alloc::Global;
use std::sync::Arc;

/// A zone that C holds: that of a text, or the table of a TZif file, which copies share.
#[derive(Drop)]
pub enum Held {
    Rule(TimeZone<'static>),
    Table(Arc<Tzif>),
}

impl Held {
    /// What a text names: a TZif file, or else what the text means by itself.
    pub(crate) fn of(alloc: Global, text: &[u8]) -> Result<Held, Status>
        ensures { Spec.IsHeld (Spec.is_file text.now) text.now result }
    {
        if is_file(text) {
            return Ok(Held::Table(shared(alloc, table_of(alloc, text)?)?));
        }
        Ok(Held::Rule(text_zone(text)?))
    }

    /// The same zone once more.
    pub(crate) fn copied(&self) -> Result<Held, Status>
        ensures { MatchResult result (Spec.IsCopy self.now) (λ status. status ≡ Memory) }
    {
        match self {
            Held::Rule(zone) => Ok(Held::Rule(*zone)),
            Held::Table(table) => match Arc::try_clone(table) {
                Ok(table) => Ok(Held::Table(table)),
                Err(_) => Err(Status::Memory),
            },
        }
    }

    /// The zone itself.
    #[tactic(auto, using(crate::proofs::Named::lent_zone))]
    pub(crate) fn zone(&self) -> TimeZone<'_>
        ensures { Spec.IsHeldZone self.now (plain_zone result) }
    {
        match self {
            Held::Rule(zone) => *zone,
            Held::Table(table) => TimeZone::tzif(table),
        }
    }
}

/// A table that zones share.
pub(crate) fn shared(alloc: Global, table: Tzif) -> Result<Arc<Tzif>, Status>
    ensures { MatchResult result (λ shared. shared.value ≡ table) (λ status. status ≡ Memory) }
{
    Arc::new(alloc, table).map_err(|_| Status::Memory)
}

/// Whether a text is that of a TZif file, by its first bytes.
fn is_file(text: &[u8]) -> bool
    ensures { result ≡ Spec.is_file text.now }
{
    text.starts_with(b"TZif")
}
