//! What `git fsck` says of an identity line.
ghost use Rattle.std.specs.Prelude.{◌≡◌, ◌≤◌, ◌∷◌, ◌++◌, false, length, option_map};
ghost use Rattle.std.specs.List.{list_any};
ghost use Rattle.gix_signature.specs as Spec;
ghost use Rattle.gix_date.specs as GixDate;

use crate::ident::bytes::{
    after_first, after_one, are_digits, begins_with, begins_with_nul, begins_with_sign,
    bracket_place, last_spaces_len, line_len, place_of,
};
use crate::ident::usual::usual_ident;
use crate::ident::{TOO_MANY_SECONDS, c_number};

/// A message of `git fsck`, named as its ID there.
#[derive(Debug, Clone, Copy, PartialEq, Eq)]
pub enum FsckId {
    /// `nulInHeader`: the line holds NUL.
    NulInHeader,
    /// `missingNameBeforeEmail`: the line begins with `<`.
    MissingNameBeforeEmail,
    /// `badName`: the first bracket is `>`.
    BadName,
    /// `missingEmail`: there is no bracket.
    MissingEmail,
    /// `missingSpaceBeforeEmail`: no space stands directly before the first `<`.
    MissingSpaceBeforeEmail,
    /// `badEmail`: the bracket after the first `<` is not `>`, or there is none.
    BadEmail,
    /// `missingSpaceBeforeDate`: no space stands directly after that `>`.
    MissingSpaceBeforeDate,
    /// `zeroPaddedDate`: after that space stands `0`, and no space after it.
    ZeroPaddedDate,
    /// `badDateOverflow`: the number there is 2^63 or more, or it is negative.
    BadDateOverflow,
    /// `badDate`: no number stands there, or no space after it.
    BadDate,
    /// `badTimezone`: what follows is not a sign and four digits up to the line's end.
    BadTimezone,
}

/// What `git fsck` says of a line, and where.
#[derive(Debug, Clone, Copy, PartialEq, Eq)]
pub struct FsckFault {
    /// The message.
    pub id: FsckId,
    /// How many bytes of the line stand before what is wrong: the NUL, the bracket, the line's end, the date or the offset.
    pub place: usize,
}

/// What `git fsck` says of the identity line at the front of a text, after `author `, `committer ` or `tagger `: the first
/// of its messages that applies, or `None` if it says nothing.
///
/// The line ends before the first line feed, or is all. Git reads a number also in the next line where this one ends
/// after `> `; here that is [`FsckId::BadDate`]. Takes no memory.
#[inline(always)]
pub fn fsck_of(text: &[u8]) -> Option<FsckFault>
    ensures { result ≡ Spec.fsck_of text.now }
{
    if usual_ident(text).is_some() {
        return None;
    }
    fault_in(text)
}

/// The same, of any line.
#[inline(never)]
#[tactic(auto, using(crate::proofs::Idents::Judged::nul_found, crate::proofs::Idents::Judged::without_nul, crate::proofs::Idents::Judged::judged))]
fn fault_in(text: &[u8]) -> Option<FsckFault>
    ensures { result ≡ Spec.fsck_of text.now }
{
    let (line, rest) = text.split_at(line_len(text));
    if begins_with_nul(rest) {
        return Some(FsckFault {
            id: FsckId::NulInHeader,
            place: line.len(),
        });
    }
    fault_of_line(line)
}

/// What is said of a line without NUL.
fn fault_of_line(line: &[u8]) -> Option<FsckFault>
    requires { list_any Spec.is_nul line.now ≡ false }
    ensures { result ≡ option_map (Spec.fault_at line.now) (Spec.first_fault line.now) }
{
    let id = first_fault(line)?;
    Some(FsckFault {
        id,
        place: line.len() - from_fault(line, id).len(),
    })
}

/// The first fault of a line without NUL.
#[tactic(auto, using(crate::proofs::Idents::Judged::no_bracket, crate::proofs::Idents::Judged::closing_first, crate::proofs::Idents::Judged::whole_line_is, crate::proofs::Idents::Judged::none_before))]
fn first_fault(line: &[u8]) -> Option<FsckId>
    requires { list_any Spec.is_nul line.now ≡ false }
    ensures { result ≡ Spec.first_fault line.now }
{
    let (name, rest) = line.split_at(bracket_place(line));
    if rest.is_empty() {
        return Some(FsckId::MissingEmail);
    }
    if !begins_with(rest, b'<') {
        return Some(FsckId::BadName);
    }
    opened_fault(name, after_one(rest))
}

/// The first fault of a line by what stands before and after its first bracket, `<`.
#[tactic(auto, using(crate::proofs::Idents::Judged::opened))]
fn opened_fault(name: &[u8], inside: &[u8]) -> Option<FsckId>
    requires nul { list_any Spec.is_nul (name.now ++ (Spec.opening ∷ inside.now)) ≡ false }
    requires bracket { list_any Spec.is_bracket name.now ≡ false }
    ensures { result ≡ Spec.first_fault (name.now ++ (Spec.opening ∷ inside.now)) }
{
    if name.is_empty() {
        return Some(FsckId::MissingNameBeforeEmail);
    }
    if !ends_with_space(name) {
        return Some(FsckId::MissingSpaceBeforeEmail);
    }
    let rest = from_bracket(inside);
    if !begins_with(rest, b'>') {
        return Some(FsckId::BadEmail);
    }
    let rest = after_one(rest);
    if !begins_with(rest, b' ') {
        return Some(FsckId::MissingSpaceBeforeDate);
    }
    date_fault(after_one(rest))
}

/// The first fault of what stands after the email and a space.
#[tactic(auto, using(crate::proofs::Idents::Judged::padded, crate::proofs::Idents::Judged::no_number, crate::proofs::Idents::Judged::numbered), unfolding(crate::specs::first_date_fault))]
fn date_fault(date: &[u8]) -> Option<FsckId>
    ensures { result ≡ Spec.first_date_fault date.now }
{
    if begins_with(date, b'0') && !begins_with(after_one(date), b' ') {
        return Some(FsckId::ZeroPaddedDate);
    }
    match c_number(date) {
        None => Some(FsckId::BadDate),
        Some((seconds, _)) if seconds >= TOO_MANY_SECONDS => Some(FsckId::BadDateOverflow),
        Some((_, rest)) if !begins_with(rest, b' ') => Some(FsckId::BadDate),
        Some((_, rest)) if !is_fsck_zone(after_one(rest)) => Some(FsckId::BadTimezone),
        Some(_) => None,
    }
}

/// What stands after a number and one byte more.
fn after_number(date: &[u8]) -> &[u8]
    ensures value { result.now ≡ Spec.after_number date.now }
    ensures within { length result.now ≤ length date.now }
{
    match c_number(date) {
        Some((_, rest)) => after_one(rest),
        None => date,
    }
}

/// Whether a text is a sign and four digits.
pub(crate) fn is_fsck_zone(text: &[u8]) -> bool
    ensures { result ≡ Spec.is_fsck_zone text.now }
{
    begins_with_sign(text) && text.len() == 5 && are_digits(after_one(text))
}

/// Whether a text ends with a space.
fn ends_with_space(text: &[u8]) -> bool
    ensures { result ≡ Spec.ends_with GixDate.is_space text.now }
{
    0 < last_spaces_len(text)
}

/// What stands from the place of a fault on.
fn from_fault(line: &[u8], id: FsckId) -> &[u8]
    ensures value { result.now ≡ Spec.from_fault line.now id }
    ensures within { length result.now ≤ length line.now }
{
    match id {
        FsckId::NulInHeader => &line[place_of(line, b'\0')..],
        FsckId::MissingNameBeforeEmail => line,
        FsckId::BadName => from_bracket(line),
        FsckId::MissingEmail => &line[line.len()..],
        FsckId::MissingSpaceBeforeEmail => from_bracket(line),
        FsckId::BadEmail => from_next_bracket(line),
        FsckId::MissingSpaceBeforeDate => after_email(line),
        FsckId::ZeroPaddedDate | FsckId::BadDateOverflow | FsckId::BadDate => fsck_date(line),
        FsckId::BadTimezone => after_number(fsck_date(line)),
    }
}

/// What stands from the first bracket on.
fn from_bracket(line: &[u8]) -> &[u8]
    ensures value { result.now ≡ Spec.from_bracket line.now }
    ensures within { length result.now ≤ length line.now }
{
    &line[bracket_place(line)..]
}

/// What stands from the next bracket after the first `<` on.
fn from_next_bracket(line: &[u8]) -> &[u8]
    ensures value { result.now ≡ Spec.from_next_bracket line.now }
    ensures within { length result.now ≤ length line.now }
{
    from_bracket(after_first(line, b'<'))
}

/// What stands after that bracket.
fn after_email(line: &[u8]) -> &[u8]
    ensures value { result.now ≡ Spec.after_email line.now }
    ensures within { length result.now ≤ length line.now }
{
    after_one(from_next_bracket(line))
}

/// What stands after that, without one byte.
fn fsck_date(line: &[u8]) -> &[u8]
    ensures value { result.now ≡ Spec.fsck_date line.now }
    ensures within { length result.now ≤ length line.now }
{
    after_one(after_email(line))
}
