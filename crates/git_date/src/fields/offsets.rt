//! Offsets after a sign, and `@` with its seconds and offset.
ghost use Rattle.std.specs.Prelude.{◌≡◌, ◌≤◌, ◌<◌, length, IfSome, IfOk};
ghost use Rattle.git_date.specs as Spec;

use crate::error::Fault;
use crate::fields::Fields;
use crate::fields::digits::Stepped;
use crate::tokens::numbers::{is_too_large, number};
use crate::tokens::{Token, is_end, left_from, next_token, skip_white};

/// A number after white space and perhaps a sign.
#[derive(Clone, Copy)]
pub(crate) struct Padded {
    negative: bool,
    value: u64,
    /// How many bytes white space, sign and digits have.
    width: usize,
    /// How many bytes are left from the digits on.
    left: usize,
}

/// What was read of an offset: its minutes, or `None` if it is refused, and what is left to read.
type SaidOffset<'a> = Result<(Option<i16>, &'a [u8]), Fault>;

/// The number of these digits, by the text after them.
fn padded_by<'a>(negative: bool, before: usize, run: &[u8], text: &'a [u8]) -> (Padded, &'a [u8])
    requires { before ≤ 9_223_372_036_854_775_808 }
    ensures value { Spec.rest_view result ≡ Spec.padded_by negative before run.now (Spec.tokens text.now) }
    ensures same { result.1.now ≡ text.now }
{
    let number = Padded {
        negative,
        value: number(run),
        width: before + run.len(),
        left: left_from(run, text),
    };
    (number, text)
}

/// The number that stands after white space of so many bytes.
#[inline(always)]
fn padded_after(before: usize, text: &[u8]) -> Option<(Padded, &[u8])>
    requires { before < 9_223_372_036_854_775_808 }
    ensures value { Spec.read_view result ≡ Spec.padded_after before (Spec.tokens text.now) }
    ensures shorter { IfSome result (λ found. length found.1.now ≤ length text.now) }
{
    match next_token(text)? {
        (Token::Digits(run), rest) => Some(padded_by(false, before, run, rest)),
        (Token::Mark(mark), rest) => {
            let Some((Token::Digits(run), rest)) = next_token(rest) else {
                return None;
            };
            match mark {
                b'+' => Some(padded_by(false, 1 + before, run, rest)),
                b'-' => Some(padded_by(true, 1 + before, run, rest)),
                _ => None,
            }
        }
        (Token::Letters(_), _) => None,
    }
}

/// A number after white space and perhaps a sign.
#[tactic(auto, unfolding(crate::specs::padded_number))]
#[inline(always)]
fn padded_number(text: &[u8]) -> Option<(Padded, &[u8])>
    ensures value { Spec.read_view result ≡ Spec.padded_number (Spec.tokens text.now) }
    ensures shorter { IfSome result (λ found. length found.1.now ≤ length text.now) }
{
    let (before, rest) = skip_white(text);
    padded_after(before, rest)
}

/// So many minutes, or so many below 0.
pub(crate) fn signed_minutes(negative: bool, minutes: u32) -> i16
    requires { minutes < 10_000 }
    ensures { result ≡ Spec.signed_minutes negative minutes }
{
    if negative {
        -(minutes as i16)
    } else {
        minutes as i16
    }
}

/// The minutes of an offset: hours below 24, and minutes below 60.
#[tactic(auto, unfolding(crate::specs::offset_minutes))]
fn offset_minutes(hours: u64, negative: bool, minutes: u64) -> Option<i16>
    ensures value { result ≡ Spec.offset_minutes hours negative minutes }
    ensures small { IfSome result Spec.IsOffset }
{
    if hours < 24 && minutes < 60 {
        Some((60 * hours) as i16 + signed_minutes(negative, minutes as u32))
    } else {
        None
    }
}

/// The minutes after the colon of an offset: two bytes, with white space and sign. Git counts bytes, so `+05: 3` and `+05:-3` are
/// offsets.
#[tactic(auto, unfolding(crate::specs::colon_minutes))]
fn colon_minutes<'a>(hours: u64, text: &'a [u8]) -> SaidOffset<'a>
    ensures value { Spec.step_view result ≡ Spec.colon_minutes hours (Spec.tokens text.now) }
    ensures shorter { IfOk result (λ found. length found.1.now ≤ length text.now) }
    ensures small { IfOk result (λ found. IfSome found.0 Spec.IsOffset) }
{
    let Some((n, rest)) = padded_number(text) else {
        return Ok((None, text));
    };
    if is_too_large(n.value) {
        return Err(Fault::NumberTooLarge(n.left));
    }
    if n.width == 2 {
        Ok((offset_minutes(hours, n.negative, n.value), rest))
    } else {
        Ok((None, rest))
    }
}

/// Two digits after a sign: hours, and minutes after a colon.
#[tactic(auto, unfolding(crate::specs::two_digit_offset))]
fn two_digit_offset<'a>(hours: u64, text: &'a [u8]) -> SaidOffset<'a>
    ensures value { Spec.step_view result ≡ Spec.two_digit_offset hours (Spec.tokens text.now) }
    ensures shorter { IfOk result (λ found. length found.1.now ≤ length text.now) }
    ensures small { IfOk result (λ found. IfSome found.0 Spec.IsOffset) }
{
    match next_token(text) {
        Some((Token::Mark(b':'), rest)) => colon_minutes(hours, rest),
        _ => Ok((offset_minutes(hours, false, 0), text)),
    }
}

/// The offset after a sign, by its first digits and the text after them.
#[tactic(auto, unfolding(crate::specs::offset_said))]
fn offset_said<'a>(run: &[u8], text: &'a [u8]) -> SaidOffset<'a>
    ensures value { Spec.step_view result ≡ Spec.offset_said run.now (Spec.tokens text.now) }
    ensures shorter { IfOk result (λ found. length found.1.now ≤ length text.now) }
    ensures small { IfOk result (λ found. IfSome found.0 Spec.IsOffset) }
{
    let n = number(run);
    if is_too_large(n) {
        return Err(Fault::NumberTooLarge(left_from(run, text)));
    }
    match run.len() {
        2 => two_digit_offset(n, text),
        4 => Ok((offset_minutes(n / 100, false, n % 100), text)),
        _ => Ok((None, text)),
    }
}

impl Fields {
    /// With an offset that is said by a sign, also where one was known. One minute behind UTC is none: by `-0001` Git marks an
    /// unknown offset.
    fn with_offset(self, behind: bool, minutes: i16) -> Fields
        requires { Spec.IsOffset minutes }
        ensures { result ≡ Spec.with_offset self behind minutes }
    {
        let minutes = if behind { -minutes } else { minutes };
        Fields {
            offset: (minutes != -1).then_some(minutes),
            ..self
        }
    }
}

/// What a sign directly before digits says.
#[inline(always)]
pub(crate) fn offset_rule<'a>(
    fields: Fields,
    behind: bool,
    run: &[u8],
    text: &'a [u8],
) -> Stepped<'a>
    ensures value { Spec.step_view result ≡ Spec.offset_rule fields behind run.now (Spec.tokens text.now) }
    ensures shorter { IfOk result (λ found. length found.1.now ≤ length text.now) }
{
    match offset_said(run, text)? {
        (Some(minutes), rest) => Ok((Some(fields.with_offset(behind, minutes)), rest)),
        (None, rest) => Ok((None, rest)),
    }
}

/// Whether a text ends here: nothing more, or a line feed.
fn ends(text: &[u8]) -> bool
    ensures { result ≡ Spec.ends (Spec.tokens text.now) }
{
    match next_token(text) {
        Some((token, _)) => is_end(token),
        None => true,
    }
}

/// The minutes of the four bytes after a sign: hours by hundreds, without a limit.
fn wide_minutes(behind: bool, n: Padded, text: &[u8]) -> Option<i16>
    ensures { result ≡ Spec.wide_minutes behind n (Spec.tokens text.now) }
{
    if n.width == 4 && n.value < 10_000 && ends(text) {
        let minutes = 60 * (n.value / 100) + n.value % 100;
        Some(signed_minutes(behind != n.negative, minutes as u32))
    } else {
        None
    }
}

fn by_sign(mark: u8, text: &[u8]) -> Option<i16>
    ensures { result ≡ Spec.by_sign mark (Spec.tokens text.now) }
{
    let behind = match mark {
        b'+' => false,
        b'-' => true,
        _ => return None,
    };
    let (n, rest) = padded_number(text)?;
    wide_minutes(behind, n, rest)
}

/// The seconds and the minutes of offset of `@`, seconds, one space and an offset. So `git commit --date` hands its date on.
#[tactic(auto, unfolding(crate::specs::at_text))]
pub(crate) fn at_text(text: &[u8]) -> Option<(u64, i16)>
    ensures { result ≡ Spec.at_text (Spec.tokens text.now) }
{
    let Some((Token::Mark(b'@'), rest)) = next_token(text) else {
        return None;
    };
    let Some((Token::Digits(run), rest)) = next_token(rest) else {
        return None;
    };
    let Some((Token::Mark(b' '), rest)) = next_token(rest) else {
        return None;
    };
    let Some((Token::Mark(sign), rest)) = next_token(rest) else {
        return None;
    };
    let minutes = by_sign(sign, rest)?;
    Some((number(run), minutes))
}
