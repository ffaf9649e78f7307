//! What words say.
ghost use Rattle.std.specs.Prelude.{◌≡◌, ◌≤◌, length};
ghost use Rattle.std.specs.List.{list_any};
ghost use Rattle.git_date.specs as Spec;
ghost use Rattle.gix_date.specs as GixDate;

use crate::fields::Fields;
use crate::tokens::names::zone_named;
use crate::tokens::{Token, next_token};
use gix_date::names::{is_name, month_of_word, weekday_of_word};

impl Fields {
    /// With the offset of a zone's name. As in Git the first name counts, and a sign overrules it.
    fn with_zone(self, minutes: i16) -> Fields
        ensures { result ≡ Spec.with_zone self minutes }
    {
        Fields {
            offset: self.offset.or(Some(minutes)),
            ..self
        }
    }

    /// With what a word says. `None` if it is unknown. Git does not compare a day of the week with the date.
    #[tactic(auto, unfolding(crate::specs::with_word, crate::specs::is_weekday))]
    fn with_word(self, word: &[u8]) -> Option<Fields>
        ensures { result ≡ Spec.with_word self word.now }
    {
        if let Some(month) = month_of_word(word) {
            return Some(Fields {
                month: Some(month),
                ..self
            });
        }
        if weekday_of_word(word).is_some() {
            return Some(self);
        }
        if let Some(minutes) = zone_named(word) {
            return Some(self.with_zone(minutes));
        }
        self.half_or_filler(word)
    }

    /// `PM` and `AM`. Git has -1 for an unknown hour and counts with it, so that `PM` makes 11 of it. With `AM` it stays unknown.
    fn half_or_filler(self, word: &[u8]) -> Option<Fields>
        ensures { result ≡ Spec.half_or_filler self word.now }
    {
        let hour = if is_name(word, b"PM") {
            Some(self.hour.map_or(11, |hour| hour % 12 + 12))
        } else if is_name(word, b"AM") {
            self.hour.map(|hour| hour % 12)
        } else if is_filler(word) {
            self.hour
        } else {
            return None;
        };
        Some(Fields { hour, ..self })
    }
}

/// Whether a word is one of these, in any letter case.
fn is_any_of(names: &[&[u8]], word: &[u8]) -> bool
    ensures { result ≡ list_any (λ name. GixDate.is_name word.now name.now) names.now }
{
    names.iter().any(|name| is_name(word, name))
}

const FILLERS: [&[u8]; 6] = [b"ago", b"at", b"on", b"of", b"the", b"and"];

/// The endings of `1st`, `2nd`, `3rd` and `4th`.
const ENDINGS: [&[u8]; 4] = [b"st", b"nd", b"rd", b"th"];

/// Whether a word says nothing, and people write it. `in` is none, since people mean the future by it, and Git goes back.
pub(crate) fn is_filler(word: &[u8]) -> bool
    ensures { result ≡ Spec.is_filler word.now }
{
    is_any_of(&FILLERS, word)
}

/// What letters say, by the text after them. To Git `Jan5` is one word, and no name has a digit.
#[tactic(auto, unfolding(crate::specs::letters_rule))]
pub(crate) fn letters_rule(fields: Fields, run: &[u8], text: &[u8]) -> Option<Fields>
    ensures { result ≡ Spec.letters_rule fields run.now (Spec.tokens text.now) }
{
    match next_token(text) {
        Some((Token::Digits(_), _)) => None,
        _ => fields.with_word(run),
    }
}

/// What stands after a number, without its ending or a `T` before further digits, as in `2005-04-07T22:13:13`.
#[tactic(auto, unfolding(crate::specs::without_ending))]
pub(crate) fn without_ending(text: &[u8]) -> &[u8]
    ensures value { Spec.tokens result.now ≡ Spec.without_ending (Spec.tokens text.now) }
    ensures shorter { length result.now ≤ length text.now }
{
    let Some((Token::Letters(run), rest)) = next_token(text) else {
        return text;
    };
    let says_nothing = match next_token(rest) {
        Some((Token::Digits(_), _)) => run.eq_ignore_ascii_case(b"T"),
        _ => is_any_of(&ENDINGS, run),
    };
    if says_nothing { rest } else { text }
}
