//! Texts that go into a buffer of the caller.
ghost use Rattle.std.specs.Prelude.{◌≡◌, ◌+◌, ◌≤◌, ◌++◌, length, take, drop, Ok};
ghost use Rattle.std.specs.Result.{result_map_both};
ghost use Rattle.gix_date_c.specs as Spec;

use crate::values::status::Status;
use arrayvec::ArrayString;

/// Puts a piece into a buffer from this place on, and answers the place after it.
pub(crate) fn put_at(out: &mut [u8], at: usize, piece: &str) -> usize
    requires room { at + length piece.now ≤ length out.old }
    ensures bytes { out.new ≡ take at out.old ++ (piece.now ++ drop (at + length piece.now) out.old) }
    ensures after { result ≡ at + length piece.now }
{
    put_bytes_at(out, at, piece.as_bytes())
}

/// The same of bytes.
pub(crate) fn put_bytes_at(out: &mut [u8], at: usize, piece: &[u8]) -> usize
    requires room { at + length piece.now ≤ length out.old }
    ensures bytes { out.new ≡ take at out.old ++ (piece.now ++ drop (at + length piece.now) out.old) }
    ensures after { result ≡ at + length piece.now }
{
    let after = at + piece.len();
    out[at..after].copy_from_slice(piece);
    after
}

/// Puts the text of an answer at the front of a buffer, and tells how many bytes it has and how the call ended. A
/// refusal, and a text that the buffer is too short for, leave the buffer as it is.
pub(crate) fn store_text(answer: Result<&str, Status>, out: &mut [u8], len: &mut usize) -> u32
    ensures { Spec.outcome out.new len.new result
        ≡ Spec.outcome_of (result_map_both (λ text. text.now) (λ status. status) answer.entry) out.old }
{
    match answer {
        Ok(text) => store_bytes(text.as_bytes(), out, len),
        Err(status) => {
            *len = 0;
            status.number()
        }
    }
}

/// The same of a text that needs no memory.
#[inline(always)]
pub(crate) fn store_array<const CAP: usize>(
    answer: Result<ArrayString<CAP>, Status>,
    out: &mut [u8],
    len: &mut usize,
) -> u32
    ensures { Spec.outcome out.new len.new result
        ≡ Spec.outcome_of (result_map_both (λ text. text.bytes) (λ status. status) answer.entry) out.old }
{
    match &answer {
        Ok(text) => store_text(Ok(text.as_str()), out, len),
        Err(status) => store_text(Err(*status), out, len),
    }
}

/// The same of a text's bytes. It is inlined, so that bytes whose number is known are stored without a loop.
#[inline(always)]
pub(crate) fn store_bytes(text: &[u8], out: &mut [u8], len: &mut usize) -> u32
    ensures { Spec.outcome out.new len.new result ≡ Spec.outcome_of (Ok text.now) out.old }
{
    *len = text.len();
    if text.len() > out.len() {
        return Status::NoRoom.number();
    }
    out[..text.len()].copy_from_slice(text);
    Status::Done.number()
}
