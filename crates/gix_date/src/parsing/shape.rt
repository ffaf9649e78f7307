//! The shape of a text, which selects the families that are tried.
ghost use Rattle.std.specs.Prelude.{◌≡◌};
ghost use Rattle.gix_date.specs as Spec;

use crate::parsing::numbers::parse_int;

/// The shape of a text: the first that fits. The first bytes decide it, or for a number the whole text.
#[derive(Clone, Copy)]
pub(crate) enum Shape {
    /// Begins with `@`.
    AtSign,
    /// Begins with an ASCII letter, and its fourth byte is a comma: `Thu,`.
    Rfc2822Day,
    /// Begins with an ASCII letter, and its fourth byte is a space: `Thu Aug`.
    NamedDay,
    /// Begins with an ASCII letter, and has neither there.
    Word,
    /// Begins with four digits and `-`: `2018-`.
    DashedDay,
    /// Begins with four digits, `.`, two digits and `.`, or with eight digits and `T`: `2018.12.`, `20181224T`.
    GitDay,
    /// Has three bytes or more, and begins with one or two digits and a space: `2 w`.
    Count,
    /// Is an int text: digits with a sign or without, whose number an `i64` holds.
    WholeNumber,
    /// Any other text, such as the empty one.
    Other,
}

impl Shape {
    /// The shape of a text.
    #[tactic(auto, unfolding(crate::specs::shape_of, crate::specs::begins_with_at, crate::specs::begins_with_letter, crate::specs::letter_shape))]
    #[inline(always)]
    pub(crate) fn of(text: &str) -> Shape
        ensures { result ≡ Spec.shape_of text.now }
    {
        let bytes = text.as_bytes();
        match bytes {
            [b'@', ..] => return Shape::AtSign,
            [a, _, _, b',', ..] if a.is_ascii_alphabetic() => return Shape::Rfc2822Day,
            [a, _, _, b' ', ..] if a.is_ascii_alphabetic() => return Shape::NamedDay,
            [a, ..] if a.is_ascii_alphabetic() => return Shape::Word,
            _ => {}
        }
        if begins_with_year(bytes) {
            Shape::DashedDay
        } else if begins_with_dotted_day(bytes) || begins_with_compact_day(bytes) {
            Shape::GitDay
        } else if begins_with_count(bytes) {
            Shape::Count
        } else if parse_int(text).is_some() {
            Shape::WholeNumber
        } else {
            Shape::Other
        }
    }
}

/// Whether a text begins with four digits and `-`.
#[tactic(auto, unfolding(crate::specs::begins_with_year))]
#[inline(always)]
fn begins_with_year(text: &[u8]) -> bool
    ensures { result ≡ Spec.begins_with_year text.now }
{
    match text {
        [a, b, c, d, mark, ..] => are_four_digits(*a, *b, *c, *d) && *mark == b'-',
        _ => false,
    }
}

/// Whether a text begins with four digits, `.`, two digits and `.`.
#[tactic(auto, unfolding(crate::specs::begins_with_dotted_day))]
#[inline(always)]
fn begins_with_dotted_day(text: &[u8]) -> bool
    ensures { result ≡ Spec.begins_with_dotted_day text.now }
{
    match text {
        [y0, y1, y2, y3, first, m0, m1, second, ..] => {
            are_four_digits(*y0, *y1, *y2, *y3)
                && *first == b'.'
                && are_two_digits(*m0, *m1)
                && *second == b'.'
        }
        _ => false,
    }
}

/// Whether a text begins with eight digits and `T`.
#[tactic(auto, unfolding(crate::specs::begins_with_compact_day))]
#[inline(always)]
fn begins_with_compact_day(text: &[u8]) -> bool
    ensures { result ≡ Spec.begins_with_compact_day text.now }
{
    match text {
        [y0, y1, y2, y3, m0, m1, d0, d1, mark, ..] => {
            are_four_digits(*y0, *y1, *y2, *y3)
                && are_four_digits(*m0, *m1, *d0, *d1)
                && *mark == b'T'
        }
        _ => false,
    }
}

/// Whether a text of three bytes or more begins with one or two digits and a space, as `2 weeks ago` does. No form of
/// Git's own begins so.
#[tactic(auto, unfolding(crate::specs::begins_with_count))]
#[inline(always)]
fn begins_with_count(text: &[u8]) -> bool
    ensures { result ≡ Spec.begins_with_count text.now }
{
    match text {
        [a, b, c, ..] => a.is_ascii_digit() && (*b == b' ' || b.is_ascii_digit() && *c == b' '),
        _ => false,
    }
}

#[inline(always)]
fn are_four_digits(a: u8, b: u8, c: u8, d: u8) -> bool
    ensures { result ≡ Spec.are_four_digits a b c d }
{
    are_two_digits(a, b) && are_two_digits(c, d)
}

#[inline(always)]
fn are_two_digits(a: u8, b: u8) -> bool
    ensures { result ≡ Spec.are_two_digits a b }
{
    a.is_ascii_digit() && b.is_ascii_digit()
}
