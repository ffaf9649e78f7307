//! A zone as C has it.
ghost use Rattle.std.specs.Prelude.{◌≡◌, None, Some, option_map};
ghost use Rattle.gix_date_c.specs.Handles.{kind_of};

use crate::handle::{HOLDS, Handle};
use crate::zone::held::Held;
use std::alloc::Global;

/// A zone that C holds: `struct gix_date_zone`. All zero it is UTC. Where nothing is held it always has the offset.
#[repr(C)]
pub struct CZone {
    kind: u32,
    pub offset: i32,
    pub handle: Handle,
    ghost told: { kind ≡ kind_of handle.held },
}

impl CZone {
    /// The zone that always has an offset.
    pub(crate) fn at_offset(alloc: Global, offset: i32) -> CZone
        ensures offset { result.offset ≡ offset }
        ensures held { result.handle.held ≡ None }
    {
        CZone {
            kind: 0,
            offset,
            handle: Handle::none(alloc),
        }
    }

    /// The zone that is held.
    pub(crate) fn holding(alloc: Global, offset: i32, held: Box<Held>) -> CZone
        ensures offset { result.offset ≡ offset }
        ensures held { result.handle.held ≡ Some held.value }
    {
        CZone {
            kind: HOLDS,
            offset,
            handle: Handle::of(alloc, held),
        }
    }

    /// What is held, out of C's hands.
    pub(crate) fn into_held(self) -> Option<Box<Held>>
        ensures { option_map (λ held. held.value) result ≡ self.handle.held }
    {
        let CZone {
            kind,
            offset: _,
            handle,
        } = self;
        if kind != HOLDS {
            return None;
        }
        Some(handle.into_box())
    }
}

impl Drop for CZone {
    /// Frees what is held.
    fn drop(self) {
        drop(self.into_held());
    }
}
