//! Walks over the pieces of a format, of which one checks it too and shows at most 255 bytes.
ghost use Rattle.std.specs.Prelude.{◌≡◌, ◌+◌, ◌≤◌, ◌<◌, ◌++◌, true, Some, length, string_bytes, IsTrue, IsFalse};
ghost use Rattle.std.specs.Prelude.{IfSome, IfNone, IfErr, IfOk, OnOk, OnErr};
ghost use Rattle.std.specs.Result.{is_ok};
ghost use Rattle.arrayvec.specs.ArrayString.{array_string_len};
ghost use Rattle.git_date.specs as Spec;
ghost use Rattle.gix_date.specs as GixDate;

use crate::format::begun::{push_begun, push_text};
use crate::format::chunks::chunk_of;
use crate::format::directives::Plain;
use crate::format::error::FormatFault;
use crate::format::flags::Part;
use crate::format::pieces::{Made, Piece, next_piece};
use crate::format::shown::Shown;
use crate::format::usual::{USUAL_ROOM, push_letter};
use arrayvec::ArrayString;
use gix_date::device::{Sink, put_all};
use std::alloc::AllocError;
use std::io;

/// The text of a date that has at most 255 bytes.
pub type ShortText = Part;

/// The text of a date that has at most 120 bytes. To clear memory for more takes a call, and some 35 instructions.
pub type BriefText = ArrayString<120>;

/// The first fault of a format, by its place.
pub(crate) fn first_fault(text: &str) -> Option<FormatFault>
    ensures { result ≡ Spec.format_fault text.now }
{
    let mut rest = text;
    'pieces: while !rest.is_empty() {
        match next_piece(rest) {
            Ok((_, left)) => rest = left,
            Err(fault) => return Some(fault.placed(text.len())),
        }
    }
    None
}

fn is_seconds(piece: Piece<'_>) -> bool
    ensures { result ≡ Spec.is_seconds (Spec.piece_of piece.entry) }
{
    matches!(piece, Piece::Made(Made::Plain(Plain::Seconds)))
}

/// Whether a format asks for the seconds.
pub(crate) fn asks_seconds(text: &str) -> bool
    requires { Spec.is_format text.now ≡ true }
    ensures { result ≡ Spec.asks_seconds (Spec.pieces_or_none text.now) }
{
    let mut rest = text;
    'pieces: while !rest.is_empty() {
        let Ok((piece, left)) = next_piece(rest) else {
            unreachable!()
        };
        if is_seconds(piece) {
            return true;
        }
        rest = left;
    }
    false
}

/// Appends what a format shows first, if that is a percent sign and a usual letter, and answers what is left. `None` means
/// only that it begins otherwise: nothing is appended.
#[inline(always)]
fn push_lettered<'a, const CAP: usize>(
    out: &mut ArrayString<CAP>,
    text: &'a str,
    shown: &Shown,
) -> Option<&'a str>
    requires { array_string_len out.old + 10 ≤ CAP }
    ensures passes { IfSome result (λ rest. Spec.Passes (Spec.shown_of shown.now) text.now rest.now out.old.bytes out.new.bytes) }
    ensures kept { IfNone result (out.new.bytes ≡ out.old.bytes) }
{
    let bytes = text.as_bytes();
    if bytes.len() < 2 || bytes[0] != b'%' {
        return None;
    }
    if !push_letter(out, bytes[1], shown) {
        return None;
    }
    let (_, rest) = text.split_at(2);
    Some(rest)
}

/// Appends what a format shows first, if that is one byte before a percent sign, and answers what is left.
#[tactic(auto, using(crate::proofs::Formats::Usual::mark_goes))]
#[inline(always)]
fn push_mark<'a, const CAP: usize>(out: &mut ArrayString<CAP>, text: &'a str) -> Option<&'a str>
    requires { array_string_len out.old + 1 ≤ CAP }
    ensures passes { IfSome result (λ rest. (shown : Spec.Shown) → Spec.Passes shown text.now rest.now out.old.bytes out.new.bytes) }
    ensures kept { IfNone result (out.new.bytes ≡ out.old.bytes) }
{
    let bytes = text.as_bytes();
    if bytes.len() < 2 || bytes[0] == b'%' || bytes[1] != b'%' {
        return None;
    }
    let (mark, rest) = text.split_at(1);
    out.push_str(mark);
    Some(rest)
}

/// Appends what a format shows first, if that is usual, and answers what is left. `None` means only that it begins otherwise:
/// nothing is appended.
#[inline(always)]
fn push_usual<'a, const CAP: usize>(
    out: &mut ArrayString<CAP>,
    text: &'a str,
    shown: &Shown,
) -> Option<&'a str>
    requires { array_string_len out.old + 10 ≤ CAP }
    ensures passes { IfSome result (λ rest. Spec.Passes (Spec.shown_of shown.now) text.now rest.now out.old.bytes out.new.bytes) }
    ensures kept { IfNone result (out.new.bytes ≡ out.old.bytes) }
{
    if let Some(rest) = push_mark(out, text) {
        return Some(rest);
    }
    push_lettered(out, text, shown)
}

/// Appends the text of a piece, if there is room for it.
#[inline(always)]
fn push_piece<const CAP: usize>(out: &mut ArrayString<CAP>, piece: Piece<'_>, shown: &Shown) -> bool
    ensures pushed { IsTrue result
        → out.new.bytes ≡ out.old.bytes ++ Spec.piece_text (Spec.shown_of shown.now) (Spec.piece_of piece.entry) }
    ensures kept { IsFalse result → out.new.bytes ≡ out.old.bytes }
{
    match piece {
        Piece::Text(text) => push_text(out, text),
        Piece::Made(made) => push_begun(out, made, shown),
    }
}

/// Appends the text of the first piece, and answers what is left. `None` where the piece is a fault, or has no room: nothing is
/// appended. By itself, since it takes texts and pieces of its own.
#[inline(never)]
fn push_first<'a, const CAP: usize>(
    out: &mut ArrayString<CAP>,
    text: &'a str,
    shown: &Shown,
) -> Option<&'a str>
    requires { 0 < length text.now }
    ensures passes { IfSome result (λ rest. Spec.Passes (Spec.shown_of shown.now) text.now rest.now out.old.bytes out.new.bytes) }
    ensures kept { IfNone result (out.new.bytes ≡ out.old.bytes) }
{
    let (piece, rest) = next_piece(text).ok()?;
    push_piece(out, piece, shown).then_some(rest)
}

/// The same, where what is usual comes first.
#[inline(always)]
fn push_next<'a, const CAP: usize>(
    out: &mut ArrayString<CAP>,
    text: &'a str,
    shown: &Shown,
) -> Option<&'a str>
    requires { 0 < length text.now }
    ensures passes { IfSome result (λ rest. Spec.Passes (Spec.shown_of shown.now) text.now rest.now out.old.bytes out.new.bytes) }
    ensures kept { IfNone result (out.new.bytes ≡ out.old.bytes) }
{
    if CAP - out.len() >= USUAL_ROOM {
        if let Some(rest) = push_usual(out, text, shown) {
            return Some(rest);
        }
    }
    push_first(out, text, shown)
}

/// Appends what a format shows, if it is without fault and there is room.
pub(crate) fn push_short<const CAP: usize>(
    out: &mut ArrayString<CAP>,
    text: &str,
    shown: &Shown,
) -> bool
    ensures whole { IsTrue result → Spec.is_format text.now ≡ true }
    ensures shown { IsTrue result → out.new.bytes
        ≡ out.old.bytes ++ Spec.pieces_text (Spec.shown_of shown.now) (Spec.pieces_or_none text.now) }
{
    let mut rest = text;
    'pieces: while !rest.is_empty() {
        match push_next(out, rest, shown) {
            Some(left) => rest = left,
            None => return false,
        }
    }
    true
}

/// Puts the texts of the pieces into a sink.
fn put_pieces<W: Sink>(text: &str, shown: &Shown, out: &mut W) -> Result<(), io::ErrorKind>
    requires { Spec.is_format text.now ≡ true }
    ensures ok { OnOk result
        (GixDate.Takes (W.known out.old) (W.known out.new) (Spec.pieces_text (Spec.shown_of shown.now) (Spec.pieces_or_none text.now))) }
    ensures cut { OnErr result
        (GixDate.TakesProperPrefix (W.known out.old) (W.known out.new)
        (Spec.pieces_text (Spec.shown_of shown.now) (Spec.pieces_or_none text.now))) }
    ensures fault { IfErr result (λ kind. (W.known out.new).fault ≡ Some kind) }
{
    let mut rest = text;
    'pieces: while !rest.is_empty() {
        let Ok((piece, left)) = next_piece(rest) else {
            unreachable!()
        };
        put_all(out, chunk_of(piece, shown).as_str().as_bytes())?;
        rest = left;
    }
    Ok(())
}

/// Appends a part, which it empties, and after it the first piece, for which there was no room in that. By itself, since it
/// takes a text of its own.
#[inline(never)]
fn push_apart<'a>(
    out: &mut String,
    part: &mut Part,
    text: &'a str,
    shown: &Shown,
) -> Result<&'a str, AllocError>
    requires some { 0 < length text.now }
    requires whole { is_ok (Spec.next_piece text.now) ≡ true }
    ensures { IfOk result (λ rest. Spec.Passes (Spec.shown_of shown.now) text.now rest.now (string_bytes out.old ++ part.old.bytes)
        (string_bytes out.new ++ part.new.bytes)) }
{
    let Ok((piece, rest)) = next_piece(text) else {
        unreachable!()
    };
    out.push_str(part.as_str())?;
    part.clear();
    out.push_str(chunk_of(piece, shown).as_str())?;
    Ok(rest)
}

/// Puts what a whole format shows into a sink.
pub(crate) fn put_shown<W: Sink>(
    text: &str,
    shown: &Shown,
    out: &mut W,
) -> Result<(), io::ErrorKind>
    requires { Spec.is_format text.now ≡ true }
    ensures ok { OnOk result
        (GixDate.Takes (W.known out.old) (W.known out.new) (Spec.pieces_text (Spec.shown_of shown.now) (Spec.pieces_or_none text.now))) }
    ensures cut { OnErr result
        (GixDate.TakesProperPrefix (W.known out.old) (W.known out.new)
        (Spec.pieces_text (Spec.shown_of shown.now) (Spec.pieces_or_none text.now))) }
    ensures fault { IfErr result (λ kind. (W.known out.new).fault ≡ Some kind) }
{
    let mut short = ShortText::new();
    if push_short(&mut short, text, shown) {
        put_all(out, short.as_str().as_bytes())
    } else {
        put_pieces(text, shown, out)
    }
}

/// Appends what a whole format shows, in parts of at most 255 bytes.
pub(crate) fn push_shown(text: &str, shown: &Shown, out: &mut String) -> Result<(), AllocError>
    requires { Spec.is_format text.now ≡ true }
    ensures { OnOk result
        (string_bytes out.new ≡ string_bytes out.old ++ Spec.pieces_text (Spec.shown_of shown.now) (Spec.pieces_or_none text.now)) }
{
    let mut part = Part::new();
    let mut rest = text;
    'pieces: while !rest.is_empty() {
        if let Some(left) = push_next(&mut part, rest, shown) {
            rest = left;
            continue;
        }
        rest = push_apart(out, &mut part, rest, shown)?;
    }
    out.push_str(part.as_str())?;
    Ok(())
}
