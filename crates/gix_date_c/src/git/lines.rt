//! Blocks of many lines, each one of Git's dates.
ghost use Rattle.std.specs.Prelude.{Result};
ghost use Rattle.jiff.specs.declared.zoned.Zoned.{Zoned};
ghost use Rattle.gix_date_c.specs.declared.values.status.Status.{Status};
ghost use Rattle.gix_date_c.specs as Spec;

use crate::lines::read_lines;
use crate::lines::reader::LineReader;
use crate::moment::CInstant;
use crate::zone::ShownZone;

/// Reads each line of a block as Git's exact reader does, at a moment in a zone that C holds.
#[unsafe(no_mangle)]
pub extern "C" fn git_date_parse_lines_at(
    block: &[u8],
    now: &CInstant,
    zone: &ShownZone,
    seconds: &mut [i64],
    offsets: &mut [i32],
    statuses: &mut [u32],
    bytes: &mut usize,
) -> usize
    ensures { (place : Result Spec.Place Status) × Spec.IsPlaced (Spec.IsShown zone.now) now.now place
        × Spec.DoesLines (Spec.IsExactLine place) block.now
        (record { seconds = seconds.old; offsets = offsets.old; statuses = statuses.old })
        (record { seconds = seconds.new; offsets = offsets.new; statuses = statuses.new }) (result, bytes.new) }
{
    let reader = LineReader::Exact {
        now: zone.moment(now),
    };
    read_lines(&reader, block, seconds, offsets, statuses, bytes)
}

/// Reads each line of a block as people write dates, at a moment in a zone that C holds.
#[unsafe(no_mangle)]
pub extern "C" fn git_date_approxidate_lines_at(
    block: &[u8],
    now: &CInstant,
    zone: &ShownZone,
    seconds: &mut [i64],
    offsets: &mut [i32],
    statuses: &mut [u32],
    bytes: &mut usize,
) -> usize
    ensures { (moment : Result Zoned Status) × Spec.IsNow (Spec.IsShown zone.now) now.now moment
        × Spec.DoesLines (Spec.IsApproximateLine moment) block.now
        (record { seconds = seconds.old; offsets = offsets.old; statuses = statuses.old })
        (record { seconds = seconds.new; offsets = offsets.new; statuses = statuses.new }) (result, bytes.new) }
{
    let reader = LineReader::Approximate {
        now: zone.moment(now),
    };
    read_lines(&reader, block, seconds, offsets, statuses, bytes)
}
