//! Pairs of counts and periods: whether the words of a text are such pairs, whether they leave something to guess, and each pair, off
//! its front.
//!
//! The definition gives each word its role by its place; the lemma `verdict_of` shows that one pass decides the same.
ghost use Rattle.std.specs.Prelude.{◌≡◌, ◌∷◌, [], ◌<◌, length, IfSome, MatchOption, ◌↔◌, IsTrue, IsCharBoundary, option_copied};
ghost use Rattle.gix_date.specs as Spec;

use crate::parsing::relative::words::{
    TimeUnit, count_of, has_unit, is_ago, is_count_word, next_word, unit_of, word_len,
};

/// What the words so far say.
#[derive(Clone, Copy)]
struct Scan {
    /// A count waits for its period.
    waiting: bool,
    /// Some count has a period.
    any: bool,
    /// Each period is a unit.
    known: bool,
    /// Some `ago` is no period.
    ago: bool,
}

/// Whether the words of a text are pairs of counts and periods: there is one, and each period is a unit, or some `ago`
/// is no period.
pub(crate) fn are_pairs(text: &str) -> bool
    ensures value { result ≡ Spec.are_pairs (Spec.relative_words text.now) }
    ensures meaning { IsTrue result ↔ Spec.ArePairs (Spec.relative_words text.now) }
{
    let mut scan = Scan {
        waiting: false,
        any: false,
        known: true,
        ago: false,
    };
    let mut rest = text;
    while let Some((word, after)) = next_word(rest) {
        scan = scan.step(word);
        rest = after;
    }
    scan.verdict()
}

impl Scan {
    /// The scan after one more word.
    fn step(self, word: &str) -> Scan
        ensures { result ≡ Spec.step self word.now }
    {
        if self.waiting {
            Scan {
                waiting: false,
                any: true,
                known: self.known && has_unit(word),
                ..self
            }
        } else {
            Scan {
                waiting: is_count_word(word),
                ago: self.ago || is_ago(word),
                ..self
            }
        }
    }

    /// Whether the words are pairs.
    fn verdict(self) -> bool
        ensures { result ≡ Spec.verdict self }
    {
        self.any && (self.known || self.ago)
    }
}

/// A count, and the unit that its period names.
#[derive(Clone, Copy)]
pub(crate) struct Pair {
    pub(crate) count: i64,
    pub(crate) unit: TimeUnit,
}

/// The first pair of a text, and the text after it. Skips words that are no count, and a last count without a period.
pub(crate) fn next_pair(text: &str) -> Option<(Pair, &str)>
    ensures pairs { MatchOption result (Spec.pairs_read (Spec.relative_words text.now) ≡ [])
        (λ found. Spec.pairs_read (Spec.relative_words text.now)
        ≡ Spec.pair_of found.0 ∷ Spec.pairs_read (Spec.relative_words found.1.now)) }
    ensures shorter { IfSome result (λ found. length found.1.now < length text.now) }
{
    let mut rest = text;
    while let Some((word, after)) = next_word(rest) {
        let Some(count) = count_of(word) else {
            rest = after;
            continue;
        };
        let (period, after) = next_word(after)?;
        let unit = unit_or_seconds(period);
        return Some((Pair { count, unit }, after));
    }
    None
}

/// The unit that a period names, or else a second.
fn unit_or_seconds(period: &str) -> TimeUnit
    ensures { result ≡ Spec.unit_or_seconds period.now }
{
    unit_of(period).unwrap_or(TimeUnit::Seconds(1))
}

/// Where a text stops being careful: the place of the first byte that does not fit, or the text's length if its last word
/// is not `ago`. `None` if it is careful.
pub(crate) fn unclear_place(text: &str) -> Option<usize>
    ensures place { result ≡ Spec.unclear_place text.now }
    ensures boundary { IfSome result (IsCharBoundary text.now) }
{
    let bytes = text.as_bytes();
    let mut before = None;
    let mut place = 0;
    // Words are passed whole, so that a letter or digit at `place` begins one.
    while place < bytes.len() {
        if bytes[place].is_ascii_alphanumeric() {
            let word = word_at(text, place);
            if !may_stand_after(before, word) {
                return Some(place);
            }
            before = Some(word);
            place += word.len();
        } else {
            if !separates(bytes, place) {
                return Some(place);
            }
            place += 1;
        }
    }
    if ends_in_ago(before) {
        return None;
    }
    Some(place)
}

/// Whether a word may stand after the one before it, or first.
fn may_stand_after(before: Option<&str>, word: &str) -> bool
    ensures { result ≡ Spec.may_stand_after (option_copied before.entry) word.now }
{
    match before {
        Some(before) => may_follow(before, word),
        None => is_plain_count(word),
    }
}

/// Whether the second word may follow the first. What costs least is asked first.
fn may_follow(first: &str, second: &str) -> bool
    ensures { result ≡ Spec.may_follow first.now second.now }
{
    is_ago(second) && has_unit(first)
        || has_unit(second) && is_plain_count(first)
        || has_unit(first) && (is_and(second) || is_plain_count(second))
        || is_and(first) && is_plain_count(second)
}

/// Whether a word is a count, but not `last`.
fn is_plain_count(word: &str) -> bool
    ensures { result ≡ Spec.is_plain_count word.now }
{
    is_count_word(word) && !word.eq_ignore_ascii_case("last")
}

fn is_and(word: &str) -> bool
    ensures { result ≡ Spec.is_and word.now }
{
    word.eq_ignore_ascii_case("and")
}

/// Whether the last word is `ago`.
fn ends_in_ago(last: Option<&str>) -> bool
    ensures { result ≡ Spec.ends_in_ago (option_copied last.entry) }
{
    match last {
        Some(word) => is_ago(word),
        None => false,
    }
}

/// The word that begins at this place.
#[tactic(auto, using(crate::proofs::Relative::RelativeWordSteps::word_end))]
fn word_at(text: &str, place: usize) -> &str
    requires { Spec.IsWordPlace text.now place }
    ensures { result.now ≡ Spec.word_at text.now place }
{
    let from = &text[place..];
    from.split_at(word_len(from)).0
}

/// Whether what stands at this place separates words: white space of ASCII, `,`, `.`, `_`, or `-` directly after a word.
fn separates(bytes: &[u8], place: usize) -> bool
    requires { place < length bytes.now }
    ensures { result ≡ Spec.separates bytes.now place }
{
    match bytes[place] {
        b'-' => place > 0 && bytes[place - 1].is_ascii_alphanumeric(),
        b => b.is_ascii_whitespace() || matches!(b, b',' | b'.' | b'_'),
    }
}
