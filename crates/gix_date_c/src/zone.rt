//! Zones that C holds, each read once for many calls.
ghost use Rattle.std.specs.Prelude.{◌≡◌, MatchResult, None};
ghost use Rattle.gix_date_c.specs.declared.values.status.Status.TheVariants.{Memory};
ghost use Rattle.gix_date_c.specs as Spec;
ghost use Rattle.git_date.specs as GitDate;

mod found;
mod held;
mod offset;
mod shown;
mod stored;

pub(crate) use crate::handle::ShownZone;
use crate::values::status::Status;
pub(crate) use crate::zone::held::Held;
pub(crate) use crate::zone::stored::CZone;
use git_date::parse_offset;
use std::alloc::Global;

/// A zone out of C's hands.
#[derive(Drop)]
pub(crate) struct TakenZone {
    offset: i32,
    held: Option<Box<Held>>,
}

/// Reads a zone once for many calls: that of an offset, of a TZif file, or else of a POSIX rule. What was held before is freed.
#[tactic(auto, using(crate::proofs::Named::reads, crate::proofs::Named::not_read))]
#[unsafe(no_mangle)]
pub extern "C" fn gix_date_zone_read(alloc: Global, text: &[u8], zone: &mut CZone) -> u32
    ensures { Spec.Reads text.now zone.old zone.new result }
{
    match kept(alloc, text) {
        Ok(kept) => {
            *zone = CZone::given(alloc, kept);
            Status::Done.number()
        }
        Err(status) => status.number(),
    }
}

/// Frees what is held of a zone, which is UTC then.
#[unsafe(no_mangle)]
pub extern "C" fn gix_date_zone_free(alloc: Global, zone: &mut CZone)
    ensures { Spec.IsUtc zone.new }
{
    *zone = CZone::at_offset(alloc, 0);
}

/// Makes a zone mean what another does. What was held before is freed. Both share the table of a file, and each is
/// freed by itself.
#[unsafe(no_mangle)]
pub extern "C" fn gix_date_zone_copy(alloc: Global, from: &ShownZone, zone: &mut CZone) -> u32
    ensures { Spec.Copies from.now zone.old zone.new result }
{
    match from.copied(alloc) {
        Ok(copy) => {
            *zone = CZone::given(alloc, copy);
            Status::Done.number()
        }
        Err(status) => status.number(),
    }
}

/// The zone that a text names, out of C's hands.
fn kept(alloc: Global, text: &[u8]) -> Result<TakenZone, Status>
    ensures { Spec.IsKept (GitDate.zone_offset text.now) text.now result }
{
    match parse_offset(text) {
        Some(offset) => Ok(TakenZone { offset, held: None }),
        None => kept_held(alloc, text),
    }
}

/// The zone of a file or a rule, which is held.
fn kept_held(alloc: Global, text: &[u8]) -> Result<TakenZone, Status>
    ensures { Spec.IsKept None text.now result }
{
    Ok(TakenZone {
        offset: 0,
        held: Some(in_box(alloc, Held::of(alloc, text)?)?),
    })
}

/// A zone that is held, in a box.
pub(crate) fn in_box(alloc: Global, held: Held) -> Result<Box<Held>, Status>
    ensures { MatchResult result (λ boxed. boxed.value ≡ held) (λ status. status ≡ Memory) }
{
    Box::new(alloc, held).map_err(|_| Status::Memory)
}

impl CZone {
    /// A zone in C's hands.
    fn given(alloc: Global, taken: TakenZone) -> CZone
        ensures { Spec.IsTaken result taken }
    {
        let TakenZone { offset, held } = taken;
        match held {
            Some(held) => CZone::holding(alloc, offset, held),
            None => CZone::at_offset(alloc, offset),
        }
    }
}
