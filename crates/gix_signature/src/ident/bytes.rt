//! Bytes that mean something in an identity line, and how many of them stand at the ends of a text.
ghost use Rattle.std.specs.Prelude.{◌≡◌, ◌==◌, ◌+◌, ◌≤◌, length, drop, not, MatchOption, true, false};
ghost use Rattle.std.specs.List.{prefix_len, suffix_len, position_or_len, list_any, list_all, before_first, after_first};
ghost use Rattle.std.specs.Char.{is_ascii_digit};
ghost use Rattle.gix_signature.specs as Spec;
ghost use Rattle.gix_date.specs as GixDate;

/// A space, tab, line feed or carriage return.
fn is_blank(byte: u8) -> bool
    ensures { result ≡ Spec.is_blank byte }
{
    matches!(byte, b' ' | b'\t' | b'\n' | b'\r')
}

/// A blank, a vertical tab or a form feed.
fn is_white(byte: u8) -> bool
    ensures { result ≡ Spec.is_white byte }
{
    matches!(byte, b' ' | b'\t' | b'\n' | b'\r' | 11 | 12)
}

/// What Git cuts off both ends of a name or email.
pub(crate) fn is_crud(byte: u8) -> bool
    ensures { result ≡ Spec.is_crud byte }
{
    matches!(
        byte,
        1..=32 | b'.' | b',' | b':' | b';' | b'<' | b'>' | b'"' | b'\\' | b'\''
    )
}

/// Whether Git keeps a byte of a name or email between its ends: it leaves out `<`, `>` and line feeds.
pub fn is_kept(byte: u8) -> bool
    ensures { result ≡ Spec.is_kept byte }
{
    !matches!(byte, b'<' | b'>' | b'\n')
}

/// How many bytes stand before the first line feed or NUL.
pub(crate) fn line_len(text: &[u8]) -> usize
    ensures value { result ≡ position_or_len Spec.ends_line text.now }
    ensures within { result ≤ length text.now }
{
    text.iter()
        .take_while(|b| !matches!(**b, b'\n' | b'\0'))
        .count()
}

/// How many bytes stand before the first bracket.
pub(crate) fn bracket_place(text: &[u8]) -> usize
    ensures value { result ≡ position_or_len Spec.is_bracket text.now }
    ensures within { result ≤ length text.now }
{
    text.iter()
        .take_while(|b| !matches!(**b, b'<' | b'>'))
        .count()
}

/// How many bytes stand before the first such byte.
pub(crate) fn place_of(text: &[u8], byte: u8) -> usize
    ensures value { result ≡ position_or_len (λ c. c == byte) text.now }
    ensures within { result ≤ length text.now }
{
    text.iter().take_while(|b| **b != byte).count()
}

/// How many blanks a text begins with.
pub(crate) fn blanks_len(text: &[u8]) -> usize
    ensures value { result ≡ prefix_len Spec.is_blank text.now }
    ensures within { result ≤ length text.now }
{
    text.iter().take_while(|b| is_blank(**b)).count()
}

/// How many white bytes a text begins with.
pub(crate) fn white_len(text: &[u8]) -> usize
    ensures value { result ≡ prefix_len Spec.is_white text.now }
    ensures within { result ≤ length text.now }
{
    text.iter().take_while(|b| is_white(**b)).count()
}

/// How many digits a text begins with.
pub(crate) fn digits_len(text: &[u8]) -> usize
    ensures value { result ≡ prefix_len is_ascii_digit text.now }
    ensures within { result ≤ length text.now }
{
    text.iter().take_while(|b| b.is_ascii_digit()).count()
}

/// How many bytes of crud a text begins with.
pub(crate) fn crud_len(text: &[u8]) -> usize
    ensures value { result ≡ prefix_len Spec.is_crud text.now }
    ensures within { result ≤ length text.now }
{
    text.iter().take_while(|b| is_crud(**b)).count()
}

/// How many bytes that are kept a text begins with.
pub(crate) fn kept_len(text: &[u8]) -> usize
    ensures value { result ≡ prefix_len Spec.is_kept text.now }
    ensures within { result ≤ length text.now }
{
    text.iter().take_while(|b| is_kept(**b)).count()
}

/// How many blanks a text ends with.
pub(crate) fn last_blanks_len(text: &[u8]) -> usize
    ensures value { result ≡ suffix_len Spec.is_blank text.now }
    ensures within { result ≤ length text.now }
{
    text.iter().rev().take_while(|b| is_blank(**b)).count()
}

/// How many bytes of crud a text ends with.
pub(crate) fn last_crud_len(text: &[u8]) -> usize
    ensures value { result ≡ suffix_len Spec.is_crud text.now }
    ensures within { result ≤ length text.now }
{
    text.iter().rev().take_while(|b| is_crud(**b)).count()
}

/// How many spaces a text ends with.
pub(crate) fn last_spaces_len(text: &[u8]) -> usize
    ensures value { result ≡ suffix_len GixDate.is_space text.now }
    ensures within { result ≤ length text.now }
{
    text.iter().rev().take_while(|b| **b == b' ').count()
}

/// How many bytes stand after the last `>`, or all if there is none.
pub(crate) fn tail_len(text: &[u8]) -> usize
    ensures value { result ≡ suffix_len (λ c. not (Spec.is_closing c)) text.now }
    ensures within { result ≤ length text.now }
{
    text.iter().rev().take_while(|b| **b != b'>').count()
}

/// What stands before and after the first such byte.
#[tactic(auto, using(crate::proofs::Texts::none_there, crate::proofs::Texts::one_there, std::proofs::lemmas::List::take_rest))]
pub(crate) fn cut_at(text: &[u8], byte: u8) -> Option<(&[u8], &[u8])>
    ensures { MatchOption result (list_any (λ c. c == byte) text.now ≡ false) (λ found. (list_any (λ c. c == byte) text.now ≡ true)
        × (found.0.now ≡ before_first (λ c. c == byte) text.now) × (found.1.now ≡ after_first (λ c. c == byte) text.now)) }
{
    let place = place_of(text, byte);
    if place == text.len() {
        return None;
    }
    Some((&text[..place], &text[place + 1..]))
}

/// What stands after the first such byte, or nothing.
#[tactic(auto, using(std::proofs::lemmas::List::take_rest, crate::proofs::Texts::after_place))]
pub(crate) fn after_first(text: &[u8], byte: u8) -> &[u8]
    ensures { result.now ≡ after_first (λ c. c == byte) text.now }
{
    after_one(&text[place_of(text, byte)..])
}

/// Whether a text holds NUL.
#[tactic(auto, using(crate::proofs::Texts::place_within))]
pub(crate) fn has_nul(text: &[u8]) -> bool
    ensures { result ≡ list_any Spec.is_nul text.now }
{
    place_of(text, b'\0') < text.len()
}

/// Whether a text begins with such a byte.
pub(crate) fn begins_with(text: &[u8], byte: u8) -> bool
    ensures { result ≡ Spec.begins_with (λ c. c == byte) text.now }
{
    text.first() == Some(&byte)
}

/// Whether a text begins with NUL.
pub(crate) fn begins_with_nul(text: &[u8]) -> bool
    ensures { result ≡ Spec.begins_with Spec.is_nul text.now }
{
    matches!(text, [b'\0', ..])
}

/// Whether a text begins with a digit.
pub(crate) fn begins_with_digit(text: &[u8]) -> bool
    ensures { result ≡ Spec.begins_with is_ascii_digit text.now }
{
    matches!(text, [b'0'..=b'9', ..])
}

/// Whether bytes are digits alone, or there are none.
pub(crate) fn are_digits(text: &[u8]) -> bool
    ensures { result ≡ list_all is_ascii_digit text.now }
{
    text.iter().all(|b| b.is_ascii_digit())
}

/// Whether a text begins with a sign.
pub(crate) fn begins_with_sign(text: &[u8]) -> bool
    ensures { result ≡ Spec.begins_with Spec.is_sign text.now }
{
    matches!(text, [b'+' | b'-', ..])
}

/// A text without its first byte, or all of an empty one.
pub(crate) fn after_one(text: &[u8]) -> &[u8]
    ensures { result.now ≡ drop 1 text.now }
{
    match text {
        [] => text,
        [_, rest @ ..] => rest,
    }
}
