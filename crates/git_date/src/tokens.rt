//! The tokens of a text, one after the other, without memory.
ghost use Rattle.std.specs.Prelude.{◌≡◌, ◌∷◌, [], ◌<◌, ◌≤◌, length, IfSome, MatchOption};
ghost use Rattle.std.specs.List.{prefix_len};
ghost use Rattle.std.specs.Char.{is_ascii_alphabetic, is_ascii_digit};
ghost use Rattle.git_date.specs as Spec;

pub(crate) mod names;
pub(crate) mod numbers;
pub(crate) mod words;

/// A longest run of letters or of digits, or a single mark.
#[derive(Clone, Copy)]
pub(crate) enum Token<'a> {
    Letters(&'a [u8]),
    Digits(&'a [u8]),
    Mark(u8),
}

/// The first token of a text, and what stands after it.
#[tactic(auto, using(crate::proofs::Text::TokenRuns::run_lengths, crate::proofs::Text::TokenRuns::nothing_first, crate::proofs::Text::TokenRuns::letters_front, crate::proofs::Text::TokenRuns::digits_front, crate::proofs::Text::TokenRuns::mark_front, std::proofs::lemmas::Grind::common_steps))]
pub(crate) fn next_token(text: &[u8]) -> Option<(Token<'_>, &[u8])>
    ensures tokens { MatchOption result (Spec.tokens text.now ≡ [])
        (λ found. Spec.tokens text.now ≡ Spec.token_of found.0 ∷ Spec.tokens found.1.now) }
    ensures shorter { IfSome result (λ found. length found.1.now < length text.now) }
{
    match text {
        [] => None,
        [first, ..] if first.is_ascii_alphabetic() => {
            let (run, rest) = text.split_at(letters_len(text));
            Some((Token::Letters(run), rest))
        }
        [first, ..] if first.is_ascii_digit() => {
            let (run, rest) = text.split_at(digits_len(text));
            Some((Token::Digits(run), rest))
        }
        [first, rest @ ..] => Some((Token::Mark(*first), rest)),
    }
}

fn letters_len(text: &[u8]) -> usize
    ensures { result ≡ prefix_len is_ascii_alphabetic text.now }
{
    text.iter().take_while(|b| b.is_ascii_alphabetic()).count()
}

#[tactic(auto, using(crate::proofs::Formats::Letters::front_fits))]
pub(crate) fn digits_len(text: &[u8]) -> usize
    ensures value { result ≡ prefix_len is_ascii_digit text.now }
    ensures within { result ≤ length text.now }
{
    text.iter().take_while(|b| b.is_ascii_digit()).count()
}

/// How many bytes are left from these digits or letters on, by the text after them.
#[tactic(auto, using(crate::proofs::Text::TokenRuns::texts_are, crate::proofs::Text::TokenRuns::run_lengths))]
pub(crate) fn left_from(run: &[u8], text: &[u8]) -> usize
    ensures digits { result ≡ Spec.bytes_left (Spec.Digits run.now ∷ Spec.tokens text.now) }
    ensures letters { result ≡ Spec.bytes_left (Spec.Letters run.now ∷ Spec.tokens text.now) }
{
    run.len() + text.len()
}

/// Whether a token is a line feed: one that no rule takes ends an exact date.
pub(crate) fn is_end(token: Token<'_>) -> bool
    ensures { result ≡ Spec.is_end (Spec.token_of token.entry) }
{
    matches!(token, Token::Mark(b'\n'))
}

fn is_white(byte: u8) -> bool
    ensures { result ≡ Spec.is_white (Spec.Mark byte) }
{
    byte == b' ' || (9 <= byte && byte <= 13)
}

/// How many bytes of white space stand first. Each is a token.
#[tactic(auto, using(crate::proofs::Formats::Letters::front_fits))]
fn white_len(text: &[u8]) -> usize
    ensures value { result ≡ prefix_len (λ byte. Spec.is_white (Spec.Mark byte)) text.now }
    ensures within { result ≤ length text.now }
{
    text.iter().take_while(|b| is_white(**b)).count()
}

/// How much white space stands first, and what stands after it.
#[tactic(auto, using(crate::proofs::Text::Whites::white_count, crate::proofs::Text::Whites::white_rest, crate::proofs::Text::TokenRuns::run_lengths))]
pub(crate) fn skip_white(text: &[u8]) -> (usize, &[u8])
    ensures count { result.0 ≡ Spec.white (Spec.tokens text.now) }
    ensures rest { Spec.tokens result.1.now ≡ Spec.without_white (Spec.tokens text.now) }
    ensures shorter { length result.1.now ≤ length text.now }
    ensures fits { result.0 ≤ length text.now }
{
    let count = white_len(text);
    let (_, rest) = text.split_at(count);
    (count, rest)
}

/// How many bytes stand before the first NUL.
fn string_len(text: &[u8]) -> usize
    ensures value { result ≡ Spec.string_len text.now }
    ensures within { result ≤ length text.now }
{
    text.iter().take_while(|b| **b != b'\0').count()
}

/// The text before its first NUL, or all of it, and the place of that NUL.
#[tactic(auto, using(crate::proofs::Text::StringEnds::all_stand_before, crate::proofs::Text::StringEnds::holds_none, crate::proofs::Text::StringEnds::no_place, crate::proofs::Text::StringEnds::some_place_is, crate::proofs::Text::StringEnds::holds_one), unfolding(crate::specs::before_nul))]
pub(crate) fn up_to_nul(text: &[u8]) -> (&[u8], Option<usize>)
    ensures string { result.0.now ≡ Spec.before_nul text.now }
    ensures place { result.1 ≡ Spec.nul_place text.now }
{
    // Most texts have none, which is found by many bytes at a time.
    if !text.contains(&b'\0') {
        return (text, None);
    }
    let len = string_len(text);
    (&text[..len], Some(len))
}
