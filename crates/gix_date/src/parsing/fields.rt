//! Helpers shared by the readers: fields off the front of a `&str`, its words between white space, and the text without white space
//! round it.
ghost use Rattle.std.specs.Prelude.{◌≡◌, ◌<◌, IfSome, option_copied};
ghost use Rattle.gix_date.specs as Spec;
ghost use Rattle.std.specs.Str.{trim};

use crate::clock::{ClockFields, DateFields};
use crate::parsing::numbers::parse_two_digits;

/// The text after this character, if it is the first.
#[tactic(auto, using(crate::proofs::Text::AsciiCuts::first_end), unfolding(crate::specs::skip_char))]
#[inline(always)]
pub(crate) fn skip_char(mark: char, text: &str) -> Option<&str>
    requires { mark < 128 }
    ensures { option_copied result ≡ Spec.skip_char mark text.now }
{
    match text.as_bytes() {
        [first, ..] if char::from(*first) == mark => Some(&text[1..]),
        _ => None,
    }
}

/// Whether a text has a colon anywhere.
pub(crate) fn has_colon(text: &str) -> bool
    ensures { result ≡ Spec.has_colon text.now }
{
    text.as_bytes().contains(&b':')
}

/// A year of four digits, a month of two and a day of two, with a mark between them, matched at once.
#[tactic(auto, unfolding(crate::specs::computing))]
#[inline(always)]
pub(crate) fn read_marked_date(mark: char, text: &str) -> Option<(DateFields, &str)>
    requires { mark < 128 }
    ensures value { Spec.read_view result ≡ Spec.read_marked_date mark text.now }
    ensures fits { IfSome result (λ found. Spec.DateFits found.0) }
{
    let &[a, b, c, d, first, e, f, second, g, h, ..] = text.as_bytes() else {
        return None;
    };
    if char::from(first) != mark || char::from(second) != mark {
        return None;
    }
    let century = parse_two_digits(a, b)?;
    let year = parse_two_digits(c, d)?;
    let month = parse_two_digits(e, f)?;
    let day = parse_two_digits(g, h)?;
    let year = 100 * u16::from(century) + u16::from(year);
    Some((DateFields { year, month, day }, &text[10..]))
}

/// `HH:MM:SS` at the front, matched at once.
#[tactic(auto, using(crate::proofs::Text::AsciiCuts::cut_pair), unfolding(crate::specs::computing, crate::specs::read_colon_clock))]
#[inline(always)]
pub(crate) fn read_colon_clock(text: &str) -> Option<(ClockFields, &str)>
    ensures value { Spec.read_view result ≡ Spec.read_colon_clock text.now }
    ensures fits { IfSome result (λ found. Spec.ClockFits found.0) }
{
    match text.as_bytes() {
        [h0, h1, b':', m0, m1, b':', s0, s1, ..] => {
            let hour = parse_two_digits(*h0, *h1)?;
            let minute = parse_two_digits(*m0, *m1)?;
            let second = parse_two_digits(*s0, *s1)?;
            let clock = ClockFields {
                hour,
                minute,
                second,
            };
            Some((clock, &text[8..]))
        }
        _ => None,
    }
}

/// The first word of a text, and the second if there are exactly two. `None` without a word.
///
/// Words stand between Unicode white space.
pub(crate) fn first_words(text: &str) -> Option<(&str, Option<&str>)>
    ensures { Spec.words_view result ≡ Spec.first_words (Spec.space_words text.now) }
{
    let mut words = text.split_whitespace();
    let first = words.next()?;
    let second = words.next();
    if words.next().is_some() {
        return Some((first, None));
    }
    Some((first, second))
}

/// A text without the white space round it, which nearly all texts are.
#[tactic(auto, using(crate::proofs::Text::Trimmed::trim_ends))]
#[inline(always)]
pub(crate) fn trimmed(text: &str) -> &str
    ensures { result.now ≡ trim text.now }
{
    match text.as_bytes() {
        [first, .., last] if first.is_ascii_graphic() && last.is_ascii_graphic() => text,
        _ => text.trim(),
    }
}
