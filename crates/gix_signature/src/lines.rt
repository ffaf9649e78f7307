//! Signature lines, as they are cut, and both these and identity lines, as they are written.
ghost use Rattle.std.specs.Prelude.{◌≡◌, ℕ, List, MatchOption, OnOk, filter};
ghost use Rattle.gix_signature.specs as Spec;
ghost use Rattle.gix_date.specs as GixDate;
ghost use Rattle.std.specs.List.{list_all};
ghost use Rattle.std.specs.Str.{IsUtf8};

use crate::error::{IdentFault, SignatureError};
use crate::ident::GitTime;
use crate::ident::bytes::{after_one, crud_len, has_nul, is_crud, kept_len, last_crud_len};
use crate::ident::written::after;
use crate::parts::{before_last_space, cut_part, is_part};
use gix_date::device::{Sink, put_all};
use gix_date::{Time, parse_header};
use std::{io, str};

/// The parts of a signature line, each the slice of the line at its place.
#[derive(Debug, Clone, Copy)]
pub struct SignatureRef<'a> {
    /// What stands before ` <`, which may be empty.
    pub name: &'a str,
    /// What stands between the brackets, which may be empty. Whether it is an address is not asked.
    pub email: &'a str,
    /// What stands after `> `, at least one byte: as Git writes it the text of a time in a commit header.
    pub time: &'a str,
}

impl<'a> SignatureRef<'a> {
    /// Cuts a line, without its newline, into its parts: a name, ` <`, an email, `> `, and a time.
    ///
    /// `None` where the line has no such cut: no part holds `<`, `>`, a newline or NUL, and the time is not empty. A
    /// line has one cut at most.
    pub fn from_line(line: &'a str) -> Option<SignatureRef<'a>>
        ensures { MatchOption result (Spec.HasNoCut line.now) (λ s. Spec.IsCut line.now (Spec.parts_of s)) }
    {
        cut_line(line)
    }

    /// The time that the line's time is read as, leniently, as [`gix_date::parse_header`] reads the time of a commit
    /// header. `None` where that reads none.
    pub fn time_of(&self) -> Option<Time>
        ensures { result ≡ GixDate.header_time self.now.time.now }
    {
        parse_header(self.time)
    }
}

/// Cuts a line at its brackets, if what stands between them may stand there.
fn cut_line(line: &str) -> Option<SignatureRef<'_>>
    ensures { MatchOption result (Spec.HasNoCut line.now) (λ s. Spec.IsCut line.now (Spec.parts_of s)) }
{
    let (front, inside) = cut_part(line.as_bytes(), b'<')?;
    let name = before_last_space(front)?;
    let (email, rest) = cut_part(inside, b'>')?;
    let time = after(rest, b" ")?;
    if time.is_empty() || !is_part(time) {
        return None;
    }
    Some(SignatureRef {
        name: text_of(name),
        email: text_of(email),
        time: text_of(time),
    })
}

/// Bytes as a text, where they are one.
fn text_of(part: &[u8]) -> &str
    requires { IsUtf8 part.now }
    ensures { result.now ≡ part.now }
{
    unsafe { str::from_utf8_unchecked(part) }
}

/// Writes a signature line, without a newline: the name, ` <`, the email, `> `, and the time as [`Time::write_to`]
/// writes it. The name and the email may be empty.
///
/// [`SignatureError::BadPart`] if the name or the email holds `<`, `>`, a newline or NUL; else
/// [`SignatureError::OffsetTooWide`] if the offset is 100 hours or more, either way. Neither writes a byte.
/// [`SignatureError::Write`] carries the writer's fault after a proper prefix of the line. There is no flush.
/// [`SignatureRef::from_line`] cuts what was written into these parts; their time is read again if its offset is whole
/// minutes.
#[tactic(auto, using(crate::proofs::Written::wrote))]
pub fn write_line<W: Sink>(
    name: &str,
    email: &str,
    time: Time,
    out: &mut W,
) -> Result<(), SignatureError>
    ensures writes { Spec.WritesLine (Spec.line_due name.now email.now time) (W.known out.old) (W.known out.new) result }
    ensures cut { OnOk result ((line : List ℕ) × Spec.IsWritten name.now email.now time line
        × GixDate.Takes (W.known out.old) (W.known out.new) line) }
{
    if !is_part(name.as_bytes()) || !is_part(email.as_bytes()) {
        return Err(SignatureError::BadPart);
    }
    let Ok(buf) = time.to_buf() else {
        return Err(SignatureError::OffsetTooWide);
    };
    put_parts(name.as_bytes(), email.as_bytes(), buf.as_str(), true, out).map_err(
        SignatureError::Write,
    )
}

/// Writes an identity line of parts as they are, without a newline: the name, ` <`, the email, `> `, and the time as
/// [`GitTime::text`] gives it. The name and the email may be empty, and hold bytes from 128.
///
/// [`SignatureError::BadPart`] if the name or the email holds `<`, `>`, a newline or NUL: it writes no byte.
/// [`SignatureError::Write`] carries the writer's fault after a proper prefix of the line. There is no flush.
/// [`IdentRef::comes_back`](crate::IdentRef::comes_back) says whether a line that was read is written again so. Takes no memory.
pub fn write_ident_as_is<W: Sink>(
    name: &[u8],
    email: &[u8],
    time: GitTime,
    out: &mut W,
) -> Result<(), SignatureError>
    ensures { Spec.WritesLine (Spec.as_is_due name.now email.now time) (W.known out.old) (W.known out.new) result }
{
    if !is_part(name) || !is_part(email) {
        return Err(SignatureError::BadPart);
    }
    put_parts(name, email, time.text().as_str(), true, out).map_err(SignatureError::Write)
}

/// Writes the line that Git writes of a name, an email and a time, without a newline: the name and the email cleaned, and
/// the time as [`Time::write_to`] writes it.
///
/// Cleaned is a text without crud at both ends, and then without `<`, `>` and line feeds. Crud is a byte from 1 to 32, and
/// each of `. , : ; < > " \ '`. The refusals, in this order, write no byte: [`IdentFault::NulInPart`] if the name or the
/// email holds NUL, [`IdentFault::EmptyName`], [`IdentFault::OnlyCrud`] if the name is crud alone, [`IdentFault::BeforeEpoch`]
/// for seconds below 0, and [`IdentFault::OffsetTooWide`] for an offset of 100 hours or more. [`IdentFault::Write`] carries
/// the writer's fault after a proper prefix of the line. There is no flush. Takes no memory.
#[tactic(auto, unfolding(crate::specs::ident_due))]
pub fn write_ident<W: Sink>(
    name: &[u8],
    email: &[u8],
    time: Time,
    out: &mut W,
) -> Result<(), IdentFault>
    ensures { Spec.WritesIdent (Spec.ident_due name.now email.now time) (W.known out.old) (W.known out.new) result }
{
    if has_nul(name) || has_nul(email) {
        return Err(IdentFault::NulInPart);
    }
    if name.is_empty() {
        return Err(IdentFault::EmptyName);
    }
    if is_crud_alone(name) {
        return Err(IdentFault::OnlyCrud);
    }
    put_dated(name, email, time, out)
}

fn is_crud_alone(text: &[u8]) -> bool
    ensures { result ≡ list_all Spec.is_crud text.now }
{
    text.iter().all(|b| is_crud(*b))
}

/// Writes the line of a name and an email that may be written, or refuses the time.
fn put_dated<W: Sink>(name: &[u8], email: &[u8], time: Time, out: &mut W) -> Result<(), IdentFault>
    ensures { Spec.WritesIdent (Spec.dated_line name.now email.now time) (W.known out.old) (W.known out.new) result }
{
    if time.seconds < 0 {
        return Err(IdentFault::BeforeEpoch);
    }
    let Ok(buf) = time.to_buf() else {
        return Err(IdentFault::OffsetTooWide);
    };
    put_parts(name, email, buf.as_str(), false, out).map_err(IdentFault::Write)
}

/// Puts the line of a name, an email and a time's text into a sink: name and email as they are, or cleaned.
pub(crate) fn put_parts<W: Sink>(
    name: &[u8],
    email: &[u8],
    time: &str,
    is_whole: bool,
    out: &mut W,
) -> Result<(), io::ErrorKind>
    ensures { Spec.Puts (W.known out.old) (W.known out.new) (Spec.line_of (Spec.parts_put is_whole name.now email.now time.now)) result }
{
    put_part(name, is_whole, out)?;
    put_bytes(b" <", out)?;
    put_part(email, is_whole, out)?;
    put_bytes(b"> ", out)?;
    put_bytes(time.as_bytes(), out)
}

fn put_bytes<W: Sink>(text: &[u8], out: &mut W) -> Result<(), io::ErrorKind>
    ensures { Spec.Puts (W.known out.old) (W.known out.new) text.now result }
{
    put_all(out, text)
}

/// Puts a name or email into a sink, as it is or cleaned.
fn put_part<W: Sink>(part: &[u8], is_whole: bool, out: &mut W) -> Result<(), io::ErrorKind>
    ensures { Spec.Puts (W.known out.old) (W.known out.new) (Spec.part_put is_whole part.now) result }
{
    if is_whole {
        return put_bytes(part, out);
    }
    put_kept(trimmed(part), out)
}

/// A name or email without crud at both ends. Git then leaves out the bytes that [`is_kept`] refuses. Takes no memory.
pub fn trimmed(part: &[u8]) -> &[u8]
    ensures { result.now ≡ Spec.trimmed part.now }
{
    let part = &part[crud_len(part)..];
    &part[..part.len() - last_crud_len(part)]
}

/// Puts the bytes that are kept into a sink.
fn put_kept<W: Sink>(text: &[u8], out: &mut W) -> Result<(), io::ErrorKind>
    ensures { Spec.Puts (W.known out.old) (W.known out.new) (filter Spec.is_kept text.now) result }
{
    let mut rest = text;
    while !rest.is_empty() {
        let (run, others) = rest.split_at(kept_len(rest));
        put_bytes(run, out)?;
        rest = after_one(others);
    }
    Ok(())
}
