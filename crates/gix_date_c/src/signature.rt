//! Signature lines.
ghost use Rattle.std.specs.Prelude.{◌≡◌, ◌+◌, ◌<◌, ◌≤◌, ◌^◌, length, drop, take, ◌++◌, Result, Ok, None};
ghost use Rattle.std.specs.Result.{result_map_both};
ghost use Rattle.gix_date_c.specs as Spec;
ghost use Rattle.gix_signature.specs as GixSignature;

use crate::values::buffer::{put_at, put_bytes_at, store_text};
use crate::values::status::Status;
use crate::values::store::store;
use crate::values::text::utf8_text;
use crate::values::time::{CTime, load_time};
use gix_date::Time;
use gix_date::device::Sink;
use gix_date::parsing::TimeBuf;
use gix_signature::{SignatureError, SignatureRef, is_kept, write_line};
use std::io;

/// A part of a text: where it starts, and how many bytes it has.
#[repr(C)]
#[derive(Clone, Copy)]
pub struct CSpan {
    pub start: usize,
    pub len: usize,
}

/// The parts of a signature line.
#[repr(C)]
#[derive(Clone, Copy)]
pub struct CSignature {
    pub name: CSpan,
    pub email: CSpan,
    pub time: CSpan,
}

/// Where the parts of a signature line stand.
#[unsafe(no_mangle)]
pub extern "C" fn gix_date_cut_signature(line: &[u8], parts: &mut CSignature) -> u32
    ensures { (answer : Result GixSignature.Parts Status) × Spec.IsCutAnswer line.now answer
        × Spec.StoresParts answer parts.old parts.new result }
{
    let answer = match signature_of(line) {
        Ok(signature) => Ok(spans_of(signature)),
        Err(status) => Err(status),
    };
    store(answer, parts)
}

/// The parts of a line.
pub(crate) fn signature_of(line: &[u8]) -> Result<SignatureRef<'_>, Status>
    ensures { Spec.IsCutAnswer line.now (result_map_both GixSignature.parts_of (λ status. status) result) }
{
    SignatureRef::from_line(utf8_text(line)?).ok_or(Status::NoSignature)
}

/// Where the parts of a line stand in it.
fn spans_of(signature: SignatureRef<'_>) -> CSignature
    requires { length (GixSignature.line_of (GixSignature.parts_of signature)) < 2 ^ 64 }
    ensures { result ≡ Spec.spans_of (GixSignature.parts_of signature.entry) }
{
    let email = signature.name.len() + " <".len();
    let time = email + signature.email.len() + "> ".len();
    CSignature {
        name: span(0, signature.name),
        email: span(email, signature.email),
        time: span(time, signature.time),
    }
}

fn span(start: usize, part: &str) -> CSpan
    ensures { result ≡ record { start = start; len = length part.now } }
{
    CSpan {
        start,
        len: part.len(),
    }
}

/// Puts a signature line into a buffer.
#[unsafe(no_mangle)]
pub extern "C" fn gix_date_write_signature(
    name: &[u8],
    email: &[u8],
    time: &CTime,
    out: &mut [u8],
    len: &mut usize,
) -> u32
    ensures { Spec.outcome out.new len.new result
        ≡ Spec.outcome_of (Spec.line_answer name.now email.now (Spec.load_time time.now)) out.old }
{
    let mut buf = TimeBuf::default();
    store_line(pieces_of(name, email, load_time(time), &mut buf), out, len)
}

/// A sink that takes all and keeps nothing.
#[derive(Drop)]
pub(crate) struct Nowhere;

impl Sink for Nowhere {
    ghost known = { λ _. record { bytes = None; fault = None } };

    fn put(&mut self, piece: &[u8]) -> Result<usize, io::ErrorKind> {
        Ok(piece.len())
    }
}

/// The pieces of the line of a name, an email and a time.
fn pieces_of<'a>(
    name: &'a [u8],
    email: &'a [u8],
    time: Time,
    buf: &'a mut TimeBuf,
) -> Result<Pieces<'a>, Status>
    ensures { result_map_both Spec.line_of_pieces (λ status. status) result ≡ Spec.line_answer name.now email.now time }
{
    may_write(utf8_text(name)?, utf8_text(email)?, time)?;
    let text = time.to_buf().ok().ok_or(Status::OffsetTooWide)?;
    *buf = text;
    Ok(Pieces {
        name,
        email,
        time: buf.as_str(),
        is_whole: true,
    })
}

/// Whether these have a line, which [`write_line`] tells.
fn may_write(name: &str, email: &str, time: Time) -> Result<(), Status>
    ensures { result ≡ result_map_both (λ line. tt) Spec.line_status (GixSignature.line_due name.now email.now time) }
{
    match write_line(name, email, time, &mut Nowhere) {
        Ok(()) => Ok(()),
        Err(error) => Err(line_status(error)),
    }
}

/// The status of a refusal to write a line. A buffer that is written to has no fault but its end.
pub(crate) fn line_status(error: SignatureError) -> Status
    ensures { result ≡ Spec.line_status error }
{
    match error {
        SignatureError::BadPart => Status::BadPart,
        SignatureError::OffsetTooWide => Status::OffsetTooWide,
        SignatureError::Write(_) => Status::NoRoom,
    }
}

/// The pieces of a line: a name, an email and the text of a time. The name and the email stand in the line as they are, or
/// without the bytes that [`is_kept`] refuses.
#[derive(Clone, Copy)]
pub(crate) struct Pieces<'a> {
    pub(crate) name: &'a [u8],
    pub(crate) email: &'a [u8],
    pub(crate) time: &'a str,
    pub(crate) is_whole: bool,
}

/// Puts the line of these pieces at the front of a buffer, as [`store_text`] puts a text.
pub(crate) fn store_line(line: Result<Pieces<'_>, Status>, out: &mut [u8], len: &mut usize) -> u32
    ensures { Spec.outcome out.new len.new result
        ≡ Spec.outcome_of (result_map_both Spec.line_of_pieces (λ status. status) line.entry) out.old }
{
    match line {
        Ok(line) => {
            *len = line_len(line);
            put_line(line, out).number()
        }
        Err(status) => store_text(Err(status), out, len),
    }
}

/// Puts a line at the front of a buffer that has room for it.
#[tactic(auto, using(crate::proofs::Pieces::line_put))]
fn put_line(line: Pieces<'_>, out: &mut [u8]) -> Status
    ensures { record {
      bytes = out.new;
      len = Spec.as_usize (length (Spec.line_of_pieces line.entry));
      status = Spec.number_of result;
    }
        ≡ Spec.text_outcome (Spec.line_of_pieces line.entry) out.old }
{
    if line_len(line) > out.len() {
        return Status::NoRoom;
    }
    let after_name = put_part(out, 0, line.name, line.is_whole);
    let email = put_at(out, after_name, " <");
    let after_email = put_part(out, email, line.email, line.is_whole);
    let time = put_at(out, after_email, "> ");
    put_at(out, time, line.time);
    Status::Done
}

/// How many bytes a line has. No memory holds a line for which the sum is not exact.
fn line_len(line: Pieces<'_>) -> usize
    ensures { result ≡ Spec.as_usize (length (Spec.line_of_pieces line.entry)) }
{
    part_len(line.name, line.is_whole)
        .saturating_add(" <".len())
        .saturating_add(part_len(line.email, line.is_whole))
        .saturating_add("> ".len())
        .saturating_add(line.time.len())
}

/// How many bytes of a part stand in a line.
#[tactic(auto, using(crate::proofs::Kept::kept_lengths))]
fn part_len(part: &[u8], is_whole: bool) -> usize
    ensures { result ≡ length (Spec.part_put is_whole part.now) }
{
    if is_whole {
        return part.len();
    }
    part.iter().filter(|b| is_kept(**b)).count()
}

/// Puts the bytes of a part that stand in a line into a buffer from this place on, and answers the place after them.
fn put_part(out: &mut [u8], at: usize, part: &[u8], is_whole: bool) -> usize
    requires room { at + length (Spec.part_put is_whole part.now) ≤ length out.old }
    ensures bytes { out.new
        ≡ take at out.old ++ (Spec.part_put is_whole part.now ++ drop (at + length (Spec.part_put is_whole part.now)) out.old) }
    ensures after { result ≡ at + length (Spec.part_put is_whole part.now) }
{
    if is_whole {
        return put_bytes_at(out, at, part);
    }
    let mut place = at;
    for byte in part {
        if is_kept(*byte) {
            place = put_bytes_at(out, place, &[*byte]);
        }
    }
    place
}
