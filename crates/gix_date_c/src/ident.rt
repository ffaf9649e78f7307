//! Identity lines, as Git reads, judges and writes them.
ghost use Rattle.std.specs.Prelude.{◌≡◌, ◌≤◌, Result, Ok, Err, IfErr, IfSome, None, option_map};
ghost use Rattle.std.specs.Result.{result_map_both};
ghost use Rattle.gix_date_c.specs as Spec;
ghost use Rattle.gix_signature.specs as GixSignature;

use crate::signature::{CSpan, Nowhere, Pieces, line_status, store_line};
use crate::values::buffer::store_array;
use crate::values::status::Status;
use crate::values::store::store;
use crate::values::time::{CTime, load_time, store_time};
use gix_date::Time;
use gix_date::parsing::TimeBuf;
use gix_signature::{
    DateParts, FsckId, GitTime, GitTimeText, IdentFault, IdentPlaces, IdentRef, fsck_of, trimmed,
    usual_ident, write_ident, write_ident_as_is,
};

/// A time as Git keeps it: `struct gix_date_git_time`. Its last field is a `bool` of C.
#[repr(C)]
#[derive(Clone, Copy)]
pub struct CGitTime {
    pub seconds: i64,
    pub offset: i32,
    pub minus_zero: u8,
}

/// What Git shows of an identity line: `struct gix_date_ident_parts`. Its last fields are a `bool` of C each.
#[repr(C)]
#[derive(Clone, Copy)]
pub struct CIdent {
    pub name: CSpan,
    pub email: CSpan,
    pub rest: CSpan,
    pub seconds: CSpan,
    pub offset: CSpan,
    pub shown: CGitTime,
    pub has_date: u8,
    pub comes_back: u8,
}

/// What Git shows of an identity line.
#[unsafe(no_mangle)]
pub extern "C" fn gix_date_ident(text: &[u8], ident: &mut CIdent) -> u32
    ensures { Spec.Stores (Spec.ident_answer text.now) ident.old ident.new result }
{
    store(ident_of(text), ident)
}

pub(crate) fn ident_of(text: &[u8]) -> Result<CIdent, Status>
    ensures { result ≡ Spec.ident_answer text.now }
{
    match usual_for_c(text) {
        Some(ident) => Ok(ident),
        None => any_ident(text),
    }
}

/// What Git shows of a line as most are, of which `git fsck` says nothing. `None` says nothing of a line.
#[inline(always)]
#[tactic(auto, using(crate::proofs::Blocks::Idents::usual_time))]
pub(crate) fn usual_for_c(line: &[u8]) -> Option<CIdent>
    ensures ident { IfSome result (λ ident. Spec.ident_answer line.now ≡ Ok ident) }
    ensures clean { IfSome result (λ ident. GixSignature.fsck_of line.now ≡ None) }
{
    let usual = usual_ident(line)?;
    let shown = git_time_for_c(usual.time);
    Some(ident_for_c(usual.places, true, usual.ident, shown))
}

/// What Git shows of any line.
pub(crate) fn any_ident(text: &[u8]) -> Result<CIdent, Status>
    ensures { result ≡ Spec.ident_answer text.now }
{
    match IdentRef::from_bytes(text) {
        Some(ident) => Ok(ident_for_c(
            IdentPlaces::of(text),
            ident.comes_back(text),
            ident,
            time_shown(ident.date),
        )),
        None => Err(Status::NoIdentity),
    }
}

/// The parts at these places, with the time that Git shows.
pub(crate) fn ident_for_c(
    at: IdentPlaces,
    comes_back: bool,
    ident: IdentRef<'_>,
    shown: CGitTime,
) -> CIdent
    requires within { at.rest ≤ at.end }
    requires shown { shown ≡ Spec.time_shown (GixSignature.ident_text_of ident).date }
    ensures { result ≡ Spec.ident_for_c at comes_back (GixSignature.ident_text_of ident.entry) }
{
    CIdent {
        name: span_at(0, ident.name),
        email: span_at(at.email, ident.email),
        rest: CSpan {
            start: at.rest,
            len: at.end - at.rest,
        },
        seconds: span_at(at.seconds, seconds_written(ident.date)),
        offset: span_at(at.offset, offset_written(ident.date)),
        shown,
        has_date: u8::from(ident.date.is_some()),
        comes_back: u8::from(comes_back),
    }
}

fn span_at(start: usize, part: &[u8]) -> CSpan
    ensures { result ≡ Spec.span_at start part.now }
{
    CSpan {
        start,
        len: part.len(),
    }
}

fn seconds_written(date: Option<DateParts<'_>>) -> &[u8]
    ensures { result.now ≡ Spec.seconds_written (option_map GixSignature.date_text_of date.entry) }
{
    match date {
        Some(date) => date.seconds,
        None => b"",
    }
}

fn offset_written(date: Option<DateParts<'_>>) -> &[u8]
    ensures { result.now ≡ Spec.offset_written (option_map GixSignature.date_text_of date.entry) }
{
    match date {
        Some(date) => date.offset,
        None => b"",
    }
}

/// The time that Git shows of a date, and the epoch without one.
fn time_shown(date: Option<DateParts<'_>>) -> CGitTime
    ensures { result ≡ Spec.time_shown (option_map GixSignature.date_text_of date.entry) }
{
    match date {
        Some(date) => git_time_for_c(date.git_time()),
        None => CGitTime {
            seconds: 0,
            offset: 0,
            minus_zero: 0,
        },
    }
}

pub(crate) fn git_time_for_c(time: GitTime) -> CGitTime
    ensures { result ≡ Spec.git_time_for_c time }
{
    CGitTime {
        seconds: time.seconds,
        offset: time.offset,
        minus_zero: u8::from(time.minus_zero),
    }
}

/// The time of what Git shows.
#[unsafe(no_mangle)]
pub extern "C" fn gix_date_ident_time(shown: &CGitTime, time: &mut CTime) -> u32
    ensures { Spec.StoresTime (Spec.ident_time_answer shown.now) time.old time.new result }
{
    store_time(time_of(shown), time)
}

fn time_of(shown: &CGitTime) -> Result<Time, Status>
    ensures { result ≡ Spec.ident_time_answer shown.now }
{
    load_git_time(shown).to_time().map_err(ident_status)
}

/// A time of Git that C has.
pub(crate) fn load_git_time(time: &CGitTime) -> GitTime
    ensures { result ≡ Spec.load_git_time time.now }
{
    GitTime {
        seconds: time.seconds,
        offset: time.offset,
        minus_zero: time.minus_zero != 0,
    }
}

/// Puts a time, as a line has it, into a buffer.
#[unsafe(no_mangle)]
pub extern "C" fn gix_date_git_time_text(time: &CGitTime, out: &mut [u8], len: &mut usize) -> u32
    ensures { Spec.outcome out.new len.new result
        ≡ Spec.outcome_of (Ok (GixSignature.git_time_text (Spec.load_git_time time.now))) out.old }
{
    store_array(Ok(load_git_time(time).text()), out, len)
}

/// The status of a refusal. A buffer that is written to has no fault but its end.
fn ident_status(fault: IdentFault) -> Status
    ensures { result ≡ Spec.ident_status fault }
{
    match fault {
        IdentFault::NulInPart => Status::NulInPart,
        IdentFault::EmptyName => Status::EmptyName,
        IdentFault::OnlyCrud => Status::OnlyCrud,
        IdentFault::BeforeEpoch => Status::BeforeEpoch,
        IdentFault::OffsetTooWide => Status::OffsetTooWide,
        IdentFault::Write(_) => Status::NoRoom,
    }
}

/// What `git fsck` says of an identity line: the number of its message, or 0; and the place of the fault.
#[unsafe(no_mangle)]
pub extern "C" fn gix_date_fsck(text: &[u8], place: &mut usize) -> u32
    ensures message { result ≡ Spec.fsck_number (GixSignature.fsck_of text.now) }
    ensures place { place.new ≡ Spec.fsck_place (GixSignature.fsck_of text.now) place.old }
{
    match fsck_of(text) {
        Some(fault) => {
            *place = fault.place;
            message_number(fault.id)
        }
        None => 0,
    }
}

/// The messages are numbered in the order in which Git looks for them, from 1.
pub(crate) fn message_number(id: FsckId) -> u32
    ensures { result ≡ Spec.message_number id }
{
    id as u32 + 1
}

/// Puts an identity line, as Git writes it, into a buffer.
#[unsafe(no_mangle)]
pub extern "C" fn gix_date_write_ident(
    name: &[u8],
    email: &[u8],
    time: &CTime,
    out: &mut [u8],
    len: &mut usize,
) -> u32
    ensures { Spec.outcome out.new len.new result
        ≡ Spec.outcome_of (Spec.ident_line_answer name.now email.now (Spec.load_time time.now)) out.old }
{
    let mut buf = TimeBuf::default();
    store_line(pieces_of(name, email, load_time(time), &mut buf), out, len)
}

/// The pieces of the line of a name, an email and a time.
#[tactic(auto, unfolding(gix_signature::specs::ident_due))]
fn pieces_of<'a>(
    name: &'a [u8],
    email: &'a [u8],
    time: Time,
    buf: &'a mut TimeBuf,
) -> Result<Pieces<'a>, Status>
    ensures { result_map_both Spec.line_of_pieces (λ status. status) result ≡ Spec.ident_line_answer name.now email.now time }
{
    may_write(name, email, time)?;
    let Ok(text) = time.to_buf() else {
        return Err(Status::OffsetTooWide);
    };
    *buf = text;
    Ok(Pieces {
        name: trimmed(name),
        email: trimmed(email),
        time: buf.as_str(),
        is_whole: false,
    })
}

/// Whether these have a line, which [`write_ident`] tells.
#[tactic(auto, using(crate::proofs::Kept::refused_so))]
fn may_write(name: &[u8], email: &[u8], time: Time) -> Result<(), Status>
    ensures written { result ≡ result_map_both (λ line. tt) Spec.ident_status (GixSignature.ident_due name.now email.now time) }
    ensures refused { IfErr result (λ status. Err status ≡ Spec.ident_line_answer name.now email.now time) }
{
    write_ident(name, email, time, &mut Nowhere).map_err(ident_status)
}

/// Puts the line of a name and an email, as they are, and a time of Git into a buffer.
#[unsafe(no_mangle)]
pub extern "C" fn gix_date_write_ident_as_is(
    name: &[u8],
    email: &[u8],
    time: &CGitTime,
    out: &mut [u8],
    len: &mut usize,
) -> u32
    ensures { Spec.outcome out.new len.new result
        ≡ Spec.outcome_of (Spec.as_is_answer name.now email.now (Spec.load_git_time time.now)) out.old }
{
    let mut buf = GitTimeText::new();
    store_line(
        pieces_as_is(name, email, load_git_time(time), &mut buf),
        out,
        len,
    )
}

/// The pieces of such a line.
fn pieces_as_is<'a>(
    name: &'a [u8],
    email: &'a [u8],
    time: GitTime,
    buf: &'a mut GitTimeText,
) -> Result<Pieces<'a>, Status>
    ensures { result_map_both Spec.line_of_pieces (λ status. status) result ≡ Spec.as_is_answer name.now email.now time }
{
    may_write_as_is(name, email, time)?;
    *buf = time.text();
    Ok(Pieces {
        name,
        email,
        time: buf.as_str(),
        is_whole: true,
    })
}

/// Whether these have such a line, which [`write_ident_as_is`] tells.
fn may_write_as_is(name: &[u8], email: &[u8], time: GitTime) -> Result<(), Status>
    ensures { result ≡ result_map_both (λ line. tt) Spec.line_status (GixSignature.as_is_due name.now email.now time) }
{
    match write_ident_as_is(name, email, time, &mut Nowhere) {
        Ok(()) => Ok(()),
        Err(error) => Err(line_status(error)),
    }
}
