//! The arrays of the caller's that the answers for lines go into.
ghost use Rattle.std.specs.Prelude.{◌≡◌, ◌<◌, min, length};
ghost use Rattle.gix_date_c.specs as Spec;

use crate::values::status::Status;
use crate::values::time::CTime;

/// How many lines have a cell in each array.
pub(crate) fn room(seconds: &[i64], offsets: &[i32], statuses: &[u32]) -> usize
    ensures { result ≡ Spec.room_of (record { seconds = seconds.now; offsets = offsets.now; statuses = statuses.now }) }
{
    seconds.len().min(offsets.len().min(statuses.len()))
}

/// Stores the answer for a line in the cells of an index. A refusal leaves seconds and offset as they are.
#[inline(always)]
pub(crate) fn store_answer(
    at: usize,
    answer: Result<CTime, Status>,
    seconds: &mut [i64],
    offsets: &mut [i32],
    statuses: &mut [u32],
)
    requires seconds { at < length seconds.old }
    requires offsets { at < length offsets.old }
    requires statuses { at < length statuses.old }
    ensures { record { seconds = seconds.new; offsets = offsets.new; statuses = statuses.new }
        ≡ Spec.with_answer at answer (record { seconds = seconds.old; offsets = offsets.old; statuses = statuses.old }) }
{
    match answer {
        Ok(time) => {
            seconds[at] = time.seconds;
            offsets[at] = time.offset;
            statuses[at] = Status::Done.number();
        }
        Err(status) => statuses[at] = status.number(),
    }
}
