//! Identity lines as most are, whose parts are found in one walk.
ghost use Rattle.std.specs.Prelude.{◌≡◌, ◌≤◌, ◌<◌, pos, ◌∷◌, ◌++◌, ◌==◌, [], true, length, take, drop, option_map, Some, None, IfSome};
ghost use Rattle.std.specs.Char.{is_ascii_digit};
ghost use Rattle.std.specs.List.{list_all, position_or_len, prefix_len};
ghost use Rattle.std.specs.Str.Parse.{digits_value, signed_digits_value};
ghost use Rattle.gix_date.specs as GixDate;
ghost use Rattle.gix_signature.specs as Spec;

use super::bytes::{after_one, begins_with, digits_len};
use super::written::after;
use super::{DateParts, GitTime, IdentPlaces, IdentRef, time_of};
use crate::fsck::is_fsck_zone;
use crate::parts::{before_last_space, cut_part};
use std::simd::prelude::*;

/// The most digits of the seconds of such a line.
const MOST_DIGITS: usize = 18;

/// How many bytes a block has in which digits are counted at once.
const NEAR_DIGITS: usize = 16;

/// The parts of a line as most are, and their places.
#[derive(Debug, Clone, Copy)]
pub struct UsualIdent<'a> {
    /// What [`IdentRef::from_bytes`] gives of the line, with a date.
    pub ident: IdentRef<'a>,
    /// What [`IdentPlaces::of`] gives of it.
    pub places: IdentPlaces,
    /// What [`DateParts::git_time`] gives of its date.
    pub time: GitTime,
}

/// The parts of a line as Git writes it, of which `git fsck` says nothing. It is a name that no blank ends, ` <`, an email, `> `, at
/// most 18 digits of seconds without needless zeros, a space, a sign and four digits, and no more. `None` says nothing of a line.
/// Takes no memory.
#[inline(always)]
pub fn usual_ident(line: &[u8]) -> Option<UsualIdent<'_>>
    ensures told { IfSome result (λ u. Spec.IsToldOf line.now (Spec.ident_text_of u.ident) u.places) }
    ensures time { IfSome result (λ u. option_map Spec.git_time (Spec.ident_text_of u.ident).date ≡ Some u.time) }
{
    let found = usual_line(line)?;
    Some(told(line, found))
}

/// The parts of such a line, and what stands after its brackets and before its date.
#[derive(Clone, Copy)]
struct UsualLine<'a> {
    name: &'a [u8],
    inside: &'a [u8],
    email: &'a [u8],
    rest: &'a [u8],
    date: &'a [u8],
    parts: DateParts<'a>,
}

/// What is told of a line by these.
#[tactic(auto, using(crate::proofs::Idents::Usual::told_parts, crate::proofs::Idents::Usual::told_places, crate::proofs::Idents::Usual::told_clean, crate::proofs::Idents::Usual::told_back))]
fn told<'a>(line: &'a [u8], found: UsualLine<'a>) -> UsualIdent<'a>
    requires { Spec.AreUsualParts line.now found }
    ensures parts { Spec.ident_parts line.now ≡ Some (Spec.ident_text_of result.ident) }
    ensures places { result.places ≡ Spec.ident_places line.now }
    ensures clean { Spec.fsck_of line.now ≡ None }
    ensures back { Spec.is_line_of (Spec.whole_line line.now) (Spec.ident_text_of result.ident) ≡ true }
    ensures time { option_map Spec.git_time (Spec.ident_text_of result.ident).date ≡ Some result.time }
{
    UsualIdent {
        ident: IdentRef {
            name: found.name,
            email: found.email,
            date: Some(found.parts),
        },
        places: IdentPlaces {
            email: line.len() - found.inside.len(),
            rest: line.len() - found.rest.len(),
            seconds: line.len() - found.date.len(),
            offset: line.len() - found.parts.offset.len(),
            end: line.len(),
        },
        time: usual_time(found.parts),
    }
}

/// The time that Git shows of such a date.
#[tactic(auto, using(crate::proofs::Idents::UsualDates::few_digits))]
fn usual_time(parts: DateParts<'_>) -> GitTime
    requires digits { list_all is_ascii_digit parts.seconds.now ≡ true }
    requires number { Spec.is_usual_number parts.seconds.now ≡ true }
    requires zone { Spec.is_fsck_zone parts.offset.now ≡ true }
    ensures { result ≡ Spec.git_time (Spec.date_text_of parts.entry) }
{
    let seconds = small_number(parts.seconds);
    time_of(seconds as i64, usual_offset(parts.offset), parts.offset)
}

/// The offset of a sign and four digits.
fn usual_offset(text: &[u8]) -> i32
    requires { Spec.is_fsck_zone text.now ≡ true }
    ensures { result ≡ Spec.kept_offset (signed_digits_value 10 text.now) }
{
    let size = zone_number(text);
    if begins_with(text, b'-') { -size } else { size }
}

/// The number that stands after the sign of such an offset.
#[tactic(auto, using(crate::proofs::Idents::UsualDates::zone_digits, crate::proofs::Idents::UsualDates::zone_small))]
fn zone_number(text: &[u8]) -> i32
    requires { Spec.is_fsck_zone text.now ≡ true }
    ensures { result ≡ pos (digits_value 10 (drop 1 text.now)) }
{
    small_number(after_one(text)) as i32
}

/// The number of digits that are few.
#[tactic(auto, using(std::proofs::lemmas::Int::Digits::digits_value_more, crate::proofs::Idents::UsualDates::digit_at, crate::proofs::Idents::UsualDates::small_so_far, crate::proofs::Idents::UsualDates::all_read))]
fn small_number(digits: &[u8]) -> u64
    requires digits { list_all is_ascii_digit digits.now ≡ true }
    requires short { length digits.now ≤ MOST_DIGITS }
    ensures value { result ≡ digits_value 10 digits.now }
    ensures small { result < Spec.too_many_seconds }
{
    let mut value = 0;
    for digit in digits {
        value = 10 * value + (u64::from(*digit) - u64::from(b'0'));
    }
    value
}

/// Walks over a line once.
#[inline(always)]
fn usual_line(line: &[u8]) -> Option<UsualLine<'_>>
    ensures { IfSome result (Spec.AreUsualParts line.now) }
{
    let (front, inside) = cut_part(line, b'<')?;
    let name = before_space(front)?;
    let (email, rest) = cut_part(inside, b'>')?;
    let date = after(rest, b" ")?;
    let parts = usual_date(date)?;
    Some(UsualLine {
        name,
        inside,
        email,
        rest,
        date,
        parts,
    })
}

/// What stands before the space at the end of a text, where a byte above a space ends that. `None` says nothing of a text.
fn before_space(text: &[u8]) -> Option<&[u8]>
    ensures { IfSome result (λ name. (text.now ≡ name.now ++ (GixDate.space ∷ [])) × (Spec.without_end Spec.is_blank name.now ≡ name.now)) }
{
    let name = before_last_space(text)?;
    ends_above_space(name).then_some(name)
}

/// Whether a byte above a space ends a text, or it is empty: then no blank ends it.
#[tactic(auto, using(crate::proofs::Idents::Usual::plain_end))]
fn ends_above_space(text: &[u8]) -> bool
    ensures { result ≡ true → Spec.without_end Spec.is_blank text.now ≡ text.now }
{
    if text.is_empty() {
        return true;
    }
    text[text.len() - 1] > b' '
}

/// The parts of a date.
#[tactic(auto, using(crate::proofs::Idents::Usual::date_is))]
#[inline(always)]
fn usual_date(date: &[u8]) -> Option<DateParts<'_>>
    ensures { IfSome result (λ parts. Spec.IsUsualDate date.now (Spec.date_text_of parts)) }
{
    let (seconds, rest) = date.split_at(near_digits(date));
    let offset = after(rest, b" ")?;
    if is_usual_number(seconds) && is_fsck_zone(offset) {
        Some(DateParts { seconds, offset })
    } else {
        None
    }
}

/// How many digits a text begins with.
#[tactic(auto, using(crate::proofs::Idents::Near::digits_few, crate::proofs::Idents::Near::digits_before, crate::proofs::Idents::Near::counted_digits))]
#[inline(always)]
fn near_digits(text: &[u8]) -> usize
    ensures within { result ≤ length text.now }
    ensures digits { list_all is_ascii_digit (take result text.now) ≡ true }
{
    if text.len() >= NEAR_DIGITS {
        let block = u8x16::from_slice(text);
        let others = (block - u8x16::splat(b'0'))
            .simd_ge(u8x16::splat(10))
            .to_bitmask();
        if others != 0 {
            return others.trailing_zeros() as usize;
        }
    }
    digits_len(text)
}

/// Whether digits are at most 18, and begin with no needless zero.
fn is_usual_number(digits: &[u8]) -> bool
    ensures { result ≡ Spec.is_usual_number digits.now }
{
    match digits {
        [] => false,
        [_] => true,
        [first, ..] => *first != b'0' && digits.len() <= MOST_DIGITS,
    }
}
