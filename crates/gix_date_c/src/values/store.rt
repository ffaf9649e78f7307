//! Values that go out to the caller.
ghost use Rattle.std.specs.Prelude.{◌≡◌};
ghost use Rattle.gix_date_c.specs as Spec;

use crate::values::refusal::{Refusal, store_place};
use crate::values::status::Status;

/// Stores a value and tells how the call ended. A refusal leaves what is there as it is.
pub(crate) fn store<T: Copy>(answer: Result<T, Status>, out: &mut T) -> u32
    ensures { Spec.Stores answer out.old out.new result }
{
    match answer {
        Ok(value) => {
            *out = value;
            Status::Done.number()
        }
        Err(status) => status.number(),
    }
}

/// Stores what was read of a text, or the place of the refusal where it has one, and tells how the call ended.
pub(crate) fn store_read<T: Copy>(answer: Result<T, Refusal>, out: &mut T, place: &mut usize) -> u32
    ensures value { Spec.Stores (Spec.with_status answer) out.old out.new result }
    ensures place { place.new ≡ Spec.place_after answer place.old }
{
    store(store_place(answer, place), out)
}
