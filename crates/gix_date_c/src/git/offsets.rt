//! Offsets: their texts, and the numbers that Git's own code has of them.
ghost use Rattle.std.specs.Prelude.{◌≡◌, Ok, ok_or};
ghost use Rattle.gix_date_c.specs.declared.values.status.Status.TheVariants.{InvalidZone};
ghost use Rattle.gix_date_c.specs as Spec;
ghost use Rattle.git_date.specs as GitDate;

use crate::values::buffer::store_array;
use crate::values::status::Status;
use crate::values::store::store;
use git_date::{offset_text, parse_offset};

/// Reads an offset's text, into seconds east of UTC.
#[unsafe(no_mangle)]
pub extern "C" fn git_date_parse_offset(text: &[u8], offset: &mut i32) -> u32
    ensures { Spec.Stores (ok_or (GitDate.zone_offset text.now) InvalidZone) offset.old offset.new result }
{
    store(parse_offset(text).ok_or(Status::InvalidZone), offset)
}

/// Puts the text of an offset in seconds into a buffer.
#[unsafe(no_mangle)]
pub extern "C" fn git_date_offset_text(offset: i32, out: &mut [u8], len: &mut usize) -> u32
    ensures { Spec.outcome out.new len.new result ≡ Spec.outcome_of (Ok (GitDate.offset_text offset)) out.old }
{
    store_array(Ok(offset_text(offset)), out, len)
}

/// The offset in seconds of a number of Git's.
#[unsafe(no_mangle)]
pub extern "C" fn git_date_offset_from_decimal(decimal: i32) -> i32
    ensures { result ≡ GitDate.offset_from_decimal decimal }
{
    git_date::offset_from_decimal(decimal)
}

/// The number of Git's for an offset in seconds.
#[unsafe(no_mangle)]
pub extern "C" fn git_date_offset_to_decimal(offset: i32) -> i32
    ensures { result ≡ GitDate.offset_to_decimal offset }
{
    git_date::offset_to_decimal(offset)
}
