//! Blocks of many lines, read and checked in one call.
ghost use Rattle.std.specs.Prelude.{◌≡◌, ◌⊎◌, ◌≤◌, ◌<◌, length, [], MatchOption, Result, Some, None};
ghost use Rattle.jiff.specs.declared.zoned.Zoned.{Zoned};
ghost use Rattle.gix_date_c.specs.declared.values.status.Status.{Status};
ghost use Rattle.gix_date_c.specs.declared.lines.reader.LineReader.TheVariants.{Header};
ghost use Rattle.gix_date_c.specs as Spec;
ghost use Rattle.streams.specs as Streams;

mod columns;
mod idents;
pub(crate) mod reader;

use crate::careful::CCarefulOptions;
use crate::header::{header_time, is_canonical};
use crate::lines::columns::{room, store_answer};
use crate::lines::reader::{LineReader, for_c, line_reader};
use crate::moment::CInstant;
use crate::values::status::Status;
use crate::values::time::{CTime, time_for_c};
use crate::zone::ShownZone;
use streams::first_line;
use streams::usual::{canonical_line, usual_line_time};

/// Reads each line of a block by the reader of a number. What is relative to a moment is refused.
#[unsafe(no_mangle)]
pub extern "C" fn gix_date_parse_lines(
    block: &[u8],
    reader: u32,
    options: &CCarefulOptions,
    seconds: &mut [i64],
    offsets: &mut [i32],
    statuses: &mut [u32],
    bytes: &mut usize,
) -> usize
    ensures { Spec.DoesLines (Spec.IsLineRead (Spec.line_reader reader options.now None)) block.now
        (record { seconds = seconds.old; offsets = offsets.old; statuses = statuses.old })
        (record { seconds = seconds.new; offsets = offsets.new; statuses = statuses.new }) (result, bytes.new) }
{
    let reader = line_reader(reader, options, None);
    read_lines(&reader, block, seconds, offsets, statuses, bytes)
}

/// Reads each line of a block by the reader of a number, at a moment in a zone that C holds.
#[unsafe(no_mangle)]
pub extern "C" fn gix_date_parse_lines_at(
    block: &[u8],
    reader: u32,
    options: &CCarefulOptions,
    now: &CInstant,
    zone: &ShownZone,
    seconds: &mut [i64],
    offsets: &mut [i32],
    statuses: &mut [u32],
    bytes: &mut usize,
) -> usize
    ensures { (moment : Result Zoned Status) × Spec.IsNow (Spec.IsShown zone.now) now.now moment
        × Spec.DoesLines (Spec.IsLineRead (Spec.line_reader reader options.now (Some moment))) block.now
        (record { seconds = seconds.old; offsets = offsets.old; statuses = statuses.old })
        (record { seconds = seconds.new; offsets = offsets.new; statuses = statuses.new }) (result, bytes.new) }
{
    let reader = line_reader(reader, options, Some(zone.moment(now)));
    read_lines(&reader, block, seconds, offsets, statuses, bytes)
}

/// Tells of each line of a block whether it comes back when it is read as a header and written.
#[unsafe(no_mangle)]
pub extern "C" fn gix_date_check_lines(
    block: &[u8],
    canonical: &mut [u8],
    bytes: &mut usize,
) -> usize
    ensures { Spec.ChecksLines block.now canonical.old canonical.new (result, bytes.new) }
{
    let room = canonical.len();
    let mut left = block;
    let mut done = 0;
    'lines: while let Some((comes_back, after)) = next_checked(left, done, room) {
        canonical[done] = u8::from(comes_back);
        left = after;
        done += 1;
    }
    *bytes = block.len() - left.len();
    done
}

/// Reads the lines of a block into the caller's arrays, as many as these have cells for.
pub(crate) fn read_lines(
    reader: &LineReader<'_>,
    block: &[u8],
    seconds: &mut [i64],
    offsets: &mut [i32],
    statuses: &mut [u32],
    bytes: &mut usize,
) -> usize
    ensures { Spec.DoesLines (Spec.IsLineRead reader.now) block.now
        (record { seconds = seconds.old; offsets = offsets.old; statuses = statuses.old })
        (record { seconds = seconds.new; offsets = offsets.new; statuses = statuses.new }) (result, bytes.new) }
{
    let room = room(seconds, offsets, statuses);
    let mut left = block;
    let mut done = 0;
    'lines: while let Some((answer, after)) = next_read(reader, left, done, room) {
        store_answer(done, answer, seconds, offsets, statuses);
        left = after;
        done += 1;
    }
    *bytes = block.len() - left.len();
    done
}

/// The next line and the bytes after it, where there is one, and room for it.
#[inline(always)]
fn next_line(left: &[u8], done: usize, room: usize) -> Option<(&[u8], &[u8])>
    requires { done ≤ room }
    ensures { MatchOption result ((left.now ≡ []) ⊎ (done ≡ room))
        (λ cut. (done < room) × Streams.IsCutAfter left.now (cut.0.now, cut.1.now)) }
{
    if done == room {
        return None;
    }
    first_line(left)
}

/// What the next line says, and the bytes after it, where there is one, and room for it.
#[inline(always)]
fn next_read<'b>(
    reader: &LineReader<'_>,
    left: &'b [u8],
    done: usize,
    room: usize,
) -> Option<(Result<CTime, Status>, &'b [u8])>
    requires { done ≤ room }
    ensures { MatchOption result ((left.now ≡ []) ⊎ (done ≡ room))
        (λ found. (done < room) × Spec.IsFirstRead (Spec.IsLineRead reader.now) left.now found.0 found.1.now) }
{
    if done == room {
        return None;
    }
    first_read(reader, left)
}

/// What the first line says, and the bytes after it.
#[tactic(auto, using(crate::proofs::Blocks::Steps::header_reader))]
#[inline(always)]
fn first_read<'b>(
    reader: &LineReader<'_>,
    bytes: &'b [u8],
) -> Option<(Result<CTime, Status>, &'b [u8])>
    ensures { MatchOption result (bytes.now ≡ [])
        (λ found. Spec.IsFirstRead (Spec.IsLineRead reader.now) bytes.now found.0 found.1.now) }
{
    if let LineReader::Header = reader {
        return first_header(bytes);
    }
    match first_line(bytes) {
        Some((line, after)) => Some((reader.read(line), after)),
        None => None,
    }
}

/// What the first line says as a header, and the bytes after it. Of nearly all headers the first bytes tell both.
#[tactic(auto, using(crate::proofs::Blocks::Steps::header_read))]
#[inline(always)]
fn first_header(bytes: &[u8]) -> Option<(Result<CTime, Status>, &[u8])>
    ensures { MatchOption result (bytes.now ≡ [])
        (λ found. Spec.IsFirstRead (Spec.IsLineRead Header) bytes.now found.0 found.1.now) }
{
    if let Some((time, after)) = usual_line_time(bytes) {
        return Some((Ok(time_for_c(time)), after));
    }
    match first_line(bytes) {
        Some((line, after)) => Some((for_c(header_time(line)), after)),
        None => None,
    }
}

/// Whether the next line comes back, and the bytes after it, where there is one, and room for it.
#[inline(always)]
fn next_checked(left: &[u8], done: usize, room: usize) -> Option<(bool, &[u8])>
    requires { done ≤ room }
    ensures { MatchOption result ((left.now ≡ []) ⊎ (done ≡ room))
        (λ found. (done < room) × Spec.IsChecked left.now found.0 found.1.now) }
{
    if done == room {
        return None;
    }
    first_checked(left)
}

/// Whether the first line comes back, and the bytes after it. Of nearly all lines their first bytes say that.
#[tactic(auto, using(crate::proofs::Blocks::Steps::canonical_checked))]
#[inline(always)]
fn first_checked(bytes: &[u8]) -> Option<(bool, &[u8])>
    ensures { MatchOption result (bytes.now ≡ []) (λ found. Spec.IsChecked bytes.now found.0 found.1.now) }
{
    if let Some(after) = canonical_line(bytes) {
        return Some((true, after));
    }
    match first_line(bytes) {
        Some((line, after)) => Some((is_canonical(line), after)),
        None => None,
    }
}
