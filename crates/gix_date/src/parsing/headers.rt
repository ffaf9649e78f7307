//! Commit headers: a whole text by its words.
ghost use Rattle.std.specs.Prelude.{◌≡◌, true, IsTrue};
ghost use Rattle.gix_date.specs as Spec;

use crate::parsing::fast::{ZONE_BYTES, fast_header};
use crate::parsing::fields::{first_words, has_colon};
use crate::parsing::numbers::{MAX_DIGITS, are_digits, leading_digits, parse_int};
use crate::parsing::offset::parse_offset_fields;
use crate::time::{SecondsSinceUnixEpoch, Time, any_header_text};

/// Reads the time of a commit header leniently, as gix-date does.
///
/// The text is cut into words at Unicode white space. The first word gives the seconds: an optional sign and digits, or
/// else the digits that it begins with. With two words the second gives the offset where it is a sign, two digits of
/// hours, two of minutes and optionally two of seconds, with no limit on any of them; else the offset is 0.
///
/// `None` if the text has a colon or no word, or if its first word gives no number that an `i64` holds.
pub fn parse_header(input: &str) -> Option<Time>
    ensures { result ≡ Spec.header_time input.now }
{
    if let Some(time) = fast_header(input) {
        return Some(time);
    }
    parse_any_header(input)
}

/// What a text is as a commit header.
#[derive(Debug, Clone, Copy, PartialEq, Eq)]
pub enum HeaderKind {
    /// A canonical header: the text as which its time is written.
    Canonical,
    /// Another header, by the time that [`parse_header`] gives.
    Lenient(Time),
    /// A text that is no header.
    NoHeader,
}

/// What a text is as a commit header: canonical, or else what [`parse_header`] reads it as. It reads the text once, and
/// takes no memory. The original has no such call.
#[tactic(auto, using(crate::proofs::Header::HeaderLaws::canonical_written, crate::proofs::Header::HeaderLaws::no_time_not_canonical))]
pub fn header_kind(input: &str) -> HeaderKind
    ensures { result ≡ Spec.header_kind input.now }
{
    if fast_canonical(input) {
        return HeaderKind::Canonical;
    }
    match parse_header(input) {
        Some(time) => {
            if is_header_text_of(time, input) {
                HeaderKind::Canonical
            } else {
                HeaderKind::Lenient(time)
            }
        }
        None => HeaderKind::NoHeader,
    }
}

/// Whether a text is a canonical header: [`parse_header`] reads it, and the time that it gives is written as this text.
///
/// A canonical header is the decimal text of an `i64`, one space, a sign, two digits of hours, and two of minutes below
/// 60; its offset is not `-0000`. Takes no memory. The original has no such call.
#[tactic(auto, using(crate::proofs::Header::HeaderLaws::kind_canonical, crate::proofs::Header::HeaderLaws::kind_lenient, crate::proofs::Header::HeaderLaws::kind_none))]
pub fn is_canonical_header(input: &str) -> bool
    ensures { result ≡ Spec.is_canonical_header input.now }
{
    match header_kind(input) {
        HeaderKind::Canonical => true,
        HeaderKind::Lenient(_) => false,
        HeaderKind::NoHeader => false,
    }
}

/// Whether a time is written as this text.
fn is_header_text_of(time: Time, text: &str) -> bool
    ensures { result ≡ Spec.is_header_text_of time text.now }
{
    match any_header_text(time) {
        Some(written) => written.as_str() == text,
        None => false,
    }
}

/// The time of a commit header in any form, by its words.
#[tactic(auto, unfolding(crate::specs::header_time, crate::specs::time_of_words, crate::specs::header_offset))]
fn parse_any_header(input: &str) -> Option<Time>
    ensures { result ≡ Spec.header_time input.now }
{
    if has_colon(input) {
        return None;
    }
    let (first, second) = first_words(input)?;
    let seconds = parse_seconds(first)?;
    let offset = match second {
        Some(word) => match parse_offset_fields(false, word) {
            Some(fields) => fields.in_seconds(),
            None => 0,
        },
        None => 0,
    };
    Some(Time::new(seconds, offset))
}

/// The seconds that the first word of a header says.
#[tactic(auto, unfolding(crate::specs::header_seconds))]
fn parse_seconds(word: &str) -> Option<SecondsSinceUnixEpoch>
    ensures { result ≡ Spec.header_seconds word.now }
{
    let whole = parse_int(word);
    if whole.is_some() {
        return whole;
    }
    parse_int(leading_digits(word))
}

/// Whether a text is a usual canonical header: at most 18 digits, the first no zero, one space, and an offset that is not
/// behind UTC by less than an hour. `false` means only that the text has another form.
#[tactic(auto, using(crate::proofs::Fast::CanonicalBytes::usual_canonical))]
fn fast_canonical(text: &str) -> bool
    ensures { IsTrue result → Spec.is_canonical_header text.now ≡ true }
{
    let bytes = text.as_bytes();
    if bytes.len() < ZONE_BYTES {
        return false;
    }
    let (seconds, offset) = bytes.split_at(bytes.len() - ZONE_BYTES);
    are_usual_seconds(seconds) && is_usual_offset(offset)
}

/// Whether bytes are digits, the first no zero, and few enough for an `i64`.
#[tactic(auto, unfolding(crate::specs::are_usual_seconds))]
fn are_usual_seconds(bytes: &[u8]) -> bool
    ensures { result ≡ Spec.are_usual_seconds bytes.now }
{
    match bytes {
        [first, rest @ ..] => {
            first.is_ascii_digit() && *first != b'0' && rest.len() < MAX_DIGITS && are_digits(rest)
        }
        _ => false,
    }
}

/// Whether bytes are a space and an offset of whole minutes, with hours where it is behind UTC.
#[tactic(auto, unfolding(crate::specs::is_usual_offset))]
fn is_usual_offset(bytes: &[u8]) -> bool
    ensures { result ≡ Spec.is_usual_offset bytes.now }
{
    match bytes {
        [blank, sign, a, b, c, d] => {
            *blank == b' '
                && are_hours_and_minutes(*a, *b, *c, *d)
                && (*sign == b'+' || *sign == b'-' && !(*a == b'0' && *b == b'0'))
        }
        _ => false,
    }
}

/// Whether these are two digits of hours and two of minutes below 60.
fn are_hours_and_minutes(a: u8, b: u8, c: u8, d: u8) -> bool
    ensures { result ≡ Spec.are_hours_and_minutes a b c d }
{
    a.is_ascii_digit() && b.is_ascii_digit() && c.is_ascii_digit() && c < b'6' && d.is_ascii_digit()
}
