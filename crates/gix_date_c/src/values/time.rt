//! A time as C has it.
ghost use Rattle.std.specs.Prelude.{◌≡◌};
ghost use Rattle.gix_date_c.specs as Spec;

use crate::values::status::Status;
use crate::values::store::store;
use gix_date::Time;

/// Seconds since 1970-01-01 00:00:00 UTC, and the offset from UTC in seconds east of it: `struct gix_date_time`.
#[repr(C)]
#[derive(Clone, Copy)]
pub struct CTime {
    pub seconds: i64,
    pub offset: i32,
}

/// A time of C as one of the library.
pub(crate) fn load_time(time: &CTime) -> Time
    ensures { result ≡ Spec.load_time time.now }
{
    Time::new(time.seconds, time.offset)
}

/// A time of the library as C has it.
pub(crate) fn time_for_c(time: Time) -> CTime
    ensures { result ≡ Spec.time_for_c time }
{
    CTime {
        seconds: time.seconds,
        offset: time.offset,
    }
}

/// Stores the time of an answer and tells how the call ended. A refusal leaves what is there as it is.
pub(crate) fn store_time(answer: Result<Time, Status>, time: &mut CTime) -> u32
    ensures { Spec.StoresTime answer time.old time.new result }
{
    store(answer.map(time_for_c), time)
}
