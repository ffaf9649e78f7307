//! What C has of a zone: a pointer that owns it, or one that shows it to a call, by which nothing is owned and nothing written.
ghost use Rattle.std.specs.Prelude.{◌≡◌, List, ℕ, Option, None, Some, is_some, option_map};
ghost use Rattle.gix_date_c.specs.Handles.{held_owns, held_shown, kind_of};
ghost use Rattle.gix_date_c.specs.declared.zone.held.Held.{Held};

use crate::zone::Held;
use std::alloc::Global;
use std::marker::Model;

/// The kind of a zone that holds one. What memory has by chance is another.
pub(crate) const HOLDS: u32 = 0x7a6f_6e65;

/// A pointer that owns a zone, or none.
#[repr(C)]
#[derive(Drop)]
pub struct Handle {
    at: *mut u8,
    alloc: Global,
    pub ghost held: { Option Held },
}

impl Model for Handle {
    ghost also_owns = { λ handle. held_owns handle.alloc handle.at handle.held };
}

impl Handle {
    /// Nothing is held.
    pub(crate) fn none(alloc: Global) -> Handle
        ensures { result.held ≡ None }
    {
        Handle {
            at: std::ptr::null_mut(),
            alloc,
        }
    }

    /// A zone in C's hands.
    pub(crate) fn of(alloc: Global, held: Box<Held>) -> Handle
        ensures { result.held ≡ Some held.value }
    {
        let at = Box::into_raw(held);
        Handle {
            at: at as *mut u8,
            alloc,
        }
    }

    /// The zone, out of C's hands.
    pub(crate) fn into_box(self) -> Box<Held>
        requires { (value : Held) × (self.held ≡ Some value) }
        ensures { Some result.value ≡ self.held }
    {
        let Handle { at, alloc } = self;
        unsafe { Box::from_raw(alloc, at as *mut Held) }
    }
}

// A handle may go to another thread.
unsafe impl Send for Handle {}

/// A pointer at a zone that stays as it is for a lifetime, or none.
#[repr(C)]
pub struct Lent {
    at: *const u8,
    pub ghost life: { List ℕ },
    pub ghost held: { Option Held },
}

impl Model for Lent {
    ghost also_owns = { λ lent. held_shown lent.life lent.at lent.held };
}

// Threads may read a zone at once.
unsafe impl Send for Lent {}

unsafe impl Sync for Lent {}

impl Lent {
    /// What C shows of a zone that it never frees: so there is something to show of each.
    fn of(alloc: Global, held: Box<Held>) -> Lent
        ensures { result.held ≡ Some held.value }
    {
        let at = Box::into_raw(held);
        Lent {
            at: at as *const u8,
        }
    }

    /// The zone.
    pub(crate) fn held(&self) -> &Held
        requires { (value : Held) × (self.now.held ≡ Some value) }
        ensures { Some result.now ≡ self.now.held }
    {
        unsafe { &*(self.at as *const Held) }
    }
}

/// A zone that a call only reads: `const struct gix_date_zone`. Where nothing is held it always has the offset.
#[repr(C)]
pub struct ShownZone {
    kind: u32,
    pub offset: i32,
    pub handle: Lent,
    ghost told: { kind ≡ kind_of handle.held },
}

impl ShownZone {
    /// Whether a zone is held.
    #[inline(always)]
    pub(crate) fn holds(&self) -> bool
        ensures { result ≡ is_some self.now.handle.held }
    {
        self.kind == HOLDS
    }

    /// What is held, if anything is.
    #[inline(always)]
    pub(crate) fn held(&self) -> Option<&Held>
        ensures { option_map (λ held. held.now) result ≡ self.now.handle.held }
    {
        if self.kind != HOLDS {
            return None;
        }
        Some(self.handle.held())
    }
}
