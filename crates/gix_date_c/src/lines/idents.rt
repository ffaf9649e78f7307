//! Blocks of identity lines, each read and judged in one call.
ghost use Rattle.std.specs.Prelude.{◌≡◌, ◌+◌, ◌<◌, ◌^◌, slice_set, IfOk};
ghost use Rattle.gix_date_c.specs as Spec;
ghost use Rattle.gix_signature.specs as GixSignature;

use crate::ident::{CIdent, any_ident, message_number, usual_for_c};
use crate::lines::next_line;
use crate::signature::CSpan;
use crate::values::status::Status;
use gix_signature::fsck_of;

/// What is told of a line: its parts, with their places in it, and the number of what `git fsck` says, or 0.
#[derive(Clone, Copy)]
pub(crate) struct ToldLine {
    pub(crate) ident: Result<CIdent, Status>,
    pub(crate) message: u32,
}

/// What Git shows of each identity line of a block, and what `git fsck` says of it.
#[unsafe(no_mangle)]
pub extern "C" fn gix_date_ident_lines(
    block: &[u8],
    parts: &mut [CIdent],
    seconds: &mut [i64],
    offsets: &mut [i32],
    messages: &mut [u32],
    statuses: &mut [u32],
    bytes: &mut usize,
) -> usize
    ensures { Spec.TellsIdents block.now
        (record { parts = parts.old; seconds = seconds.old; offsets = offsets.old; messages = messages.old; statuses = statuses.old })
        (record { parts = parts.new; seconds = seconds.new; offsets = offsets.new; messages = messages.new; statuses = statuses.new })
        (result, bytes.new) }
{
    let room = ident_room(parts, seconds, offsets, messages, statuses);
    let mut left = block;
    let mut done = 0;
    'lines: while let Some((line, after)) = next_line(left, done, room) {
        let before = block.len() - left.len();
        tell_line(
            done, before, line, parts, seconds, offsets, messages, statuses,
        );
        left = after;
        done += 1;
    }
    *bytes = block.len() - left.len();
    done
}

/// How many lines have a cell in each array that is not left out.
fn ident_room(
    parts: &[CIdent],
    seconds: &[i64],
    offsets: &[i32],
    messages: &[u32],
    statuses: &[u32],
) -> usize
    ensures { result ≡ Spec.ident_room
        (record { parts = parts.now; seconds = seconds.now; offsets = offsets.now; messages = messages.now; statuses = statuses.now }) }
{
    let judged = lesser_room(messages.len(), statuses.len());
    let dated = lesser_room(seconds.len(), lesser_room(offsets.len(), judged));
    lesser_room(parts.len(), dated)
}

/// The lesser of two numbers of cells, but the other one where one array is left out.
fn lesser_room(a: usize, b: usize) -> usize
    ensures { result ≡ Spec.lesser_room a b }
{
    if a == 0 {
        b
    } else if b == 0 {
        a
    } else {
        a.min(b)
    }
}

/// Stores what is told of a line that stands behind so many bytes of the block. One walk tells it of a line as most are.
#[inline(always)]
fn tell_line(
    at: usize,
    before: usize,
    line: &[u8],
    parts: &mut [CIdent],
    seconds: &mut [i64],
    offsets: &mut [i32],
    messages: &mut [u32],
    statuses: &mut [u32],
)
    requires { IfOk (Spec.ident_answer line.now) (Spec.FitsInBlock before) }
    ensures { record { parts = parts.new; seconds = seconds.new; offsets = offsets.new; messages = messages.new; statuses = statuses.new }
        ≡ Spec.with_ident at (Spec.answer_in_block before (Spec.ident_answer line.now)) (Spec.fsck_number (GixSignature.fsck_of line.now))
        (record { parts = parts.old; seconds = seconds.old; offsets = offsets.old; messages = messages.old; statuses = statuses.old }) }
{
    match usual_for_c(line) {
        Some(ident) => {
            let told = ToldLine {
                ident: Ok(ident),
                message: 0,
            };
            store_told(
                at, before, &told, parts, seconds, offsets, messages, statuses,
            );
        }
        None => tell_any(
            at, before, line, parts, seconds, offsets, messages, statuses,
        ),
    }
}

/// The same of any line.
#[inline(never)]
fn tell_any(
    at: usize,
    before: usize,
    line: &[u8],
    parts: &mut [CIdent],
    seconds: &mut [i64],
    offsets: &mut [i32],
    messages: &mut [u32],
    statuses: &mut [u32],
)
    requires { IfOk (Spec.ident_answer line.now) (Spec.FitsInBlock before) }
    ensures { record { parts = parts.new; seconds = seconds.new; offsets = offsets.new; messages = messages.new; statuses = statuses.new }
        ≡ Spec.with_ident at (Spec.answer_in_block before (Spec.ident_answer line.now)) (Spec.fsck_number (GixSignature.fsck_of line.now))
        (record { parts = parts.old; seconds = seconds.old; offsets = offsets.old; messages = messages.old; statuses = statuses.old }) }
{
    let told = ToldLine {
        ident: any_ident(line),
        message: message_of(line),
    };
    store_told(
        at, before, &told, parts, seconds, offsets, messages, statuses,
    );
}

/// The number of what `git fsck` says of a line, or 0.
fn message_of(line: &[u8]) -> u32
    ensures { result ≡ Spec.fsck_number (GixSignature.fsck_of line.now) }
{
    match fsck_of(line) {
        Some(fault) => message_number(fault.id),
        None => 0,
    }
}

/// Stores what is told of a line in the cells of an index, in those arrays that have them. Places are counted from the front of the
/// block, where so many bytes stand before the line.
#[inline(always)]
fn store_told(
    at: usize,
    before: usize,
    told: &ToldLine,
    parts: &mut [CIdent],
    seconds: &mut [i64],
    offsets: &mut [i32],
    messages: &mut [u32],
    statuses: &mut [u32],
)
    requires { IfOk told.now.ident (Spec.FitsInBlock before) }
    ensures { record { parts = parts.new; seconds = seconds.new; offsets = offsets.new; messages = messages.new; statuses = statuses.new }
        ≡ Spec.with_ident at (Spec.answer_in_block before told.now.ident) told.now.message
        (record { parts = parts.old; seconds = seconds.old; offsets = offsets.old; messages = messages.old; statuses = statuses.old }) }
{
    match told.ident {
        Ok(ident) => {
            put(parts, at, parts_in_block(before, ident));
            if ident.has_date != 0 {
                put(seconds, at, ident.shown.seconds);
                put(offsets, at, ident.shown.offset);
            }
            put(statuses, at, Status::Done.number());
        }
        Err(status) => put(statuses, at, status.number()),
    }
    put(messages, at, told.message);
}

/// Puts a value into the cell of an index, where there is one.
#[inline(always)]
#[tactic(auto, using(std::proofs::lemmas::List::set_past))]
fn put<T: Copy>(cells: &mut [T], at: usize, value: T)
    ensures { cells.new ≡ slice_set cells.old at value }
{
    if at < cells.len() {
        cells[at] = value;
    }
}

/// The parts of a line, with their places in a block where so many bytes stand before the line.
fn parts_in_block(before: usize, parts: CIdent) -> CIdent
    requires { Spec.FitsInBlock before parts }
    ensures { result ≡ Spec.parts_in_block before parts }
{
    CIdent {
        name: span_in_block(before, parts.name),
        email: span_in_block(before, parts.email),
        rest: span_in_block(before, parts.rest),
        seconds: span_in_block(before, parts.seconds),
        offset: span_in_block(before, parts.offset),
        ..parts
    }
}

fn span_in_block(before: usize, span: CSpan) -> CSpan
    requires { before + span.start < 2 ^ 64 }
    ensures { result ≡ Spec.span_in_block before span }
{
    CSpan {
        start: before + span.start,
        len: span.len,
    }
}
