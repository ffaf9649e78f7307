//! What is said beside a date.
ghost use Rattle.std.specs.Prelude.{◌≡◌, ◌≤◌, ◌++◌, None, Some, codes, is_none, length};
ghost use Rattle.std.specs.List.{prefix_len};
ghost use Rattle.std.specs.Char.{is_ascii_alphanumeric};
ghost use Rattle.git_date_tool.specs as Spec;
ghost use Rattle.git_date.specs as GitDate;
ghost use Rattle.streams.specs as Streams;

use git_date::Approximate;
use gix_date::bytes::text_of;
use gix_date::device::Sink;
use streams::write_message;

/// What is said beside a date: that nothing of its text was understood, or what was ignored. There may be nothing to say.
#[derive(Clone, Copy, Debug)]
pub struct Warning<'a> {
    understood: bool,
    /// The place in bytes, and the word or number that stands there.
    ignored: Option<(usize, &'a str)>,
}

/// What is said of what was found in a text.
pub(crate) fn warning_of<'a>(text: &'a [u8], found: &Approximate) -> Warning<'a>
    requires { Spec.HasPlace text.now found.now }
    ensures { Spec.warning_view result ≡ Spec.warning_of text.now found.now }
{
    let ignored = match found.ignored {
        Some(place) => Some((place, word_at(text, place))),
        None => None,
    };
    Warning {
        understood: found.understood,
        ignored,
    }
}

/// The letters and digits from a place on, perhaps after a sign.
#[tactic(auto, using(crate::proofs::Words::word_is_utf8))]
fn word_at(text: &[u8], place: usize) -> &str
    requires { GitDate.IsPlaceIn text.now place }
    ensures { result.now ≡ Spec.word_at text.now place }
{
    let rest = &text[place..];
    match text_of(&rest[..word_len(rest)]) {
        Some(word) => word,
        None => unreachable!(),
    }
}

/// How many bytes the word in front has.
#[tactic(auto, using(crate::proofs::Words::word_within))]
fn word_len(text: &[u8]) -> usize
    ensures value { result ≡ Spec.word_len text.now }
    ensures within { result ≤ length text.now }
{
    match text {
        [b'+' | b'-', digits @ ..] => 1 + alphanumeric_len(digits),
        _ => alphanumeric_len(text),
    }
}

/// How many letters and digits stand in front.
#[tactic(auto, using(crate::proofs::Words::letters_within))]
fn alphanumeric_len(text: &[u8]) -> usize
    ensures value { result ≡ prefix_len is_ascii_alphanumeric text.now }
    ensures within { result ≤ length text.now }
{
    text.iter()
        .take_while(|b| b.is_ascii_alphanumeric())
        .count()
}

/// What a warning calls a text before its number.
#[derive(Clone, Copy, Debug, PartialEq, Eq)]
pub enum Numbered {
    /// A line of the input.
    Line,
    /// A text of the command line.
    Text,
}

impl Numbered {
    /// How a line of it begins.
    fn called(self) -> &'static str
        ensures { result.now ≡ Spec.called self }
    {
        match self {
            Numbered::Line => "git_date: line ",
            Numbered::Text => "git_date: text ",
        }
    }
}

impl Warning<'_> {
    /// Whether there is nothing to say.
    #[tactic(auto, using(crate::proofs::Told::unsaid))]
    pub(crate) fn is_empty(self) -> bool
        ensures { result ≡ is_none (Spec.warning_words (Spec.warning_view self.entry)) }
    {
        match self.ignored {
            Some(_) => false,
            None => self.understood,
        }
    }

    /// Puts the line of it into the messages, if there is something to say of the text with this number. What they refuse is
    /// not said.
    pub(crate) fn tell<M: Sink>(self, numbered: Numbered, number: u64, messages: &mut M)
        ensures { Streams.Reports (Streams.change (M.known messages.old) (M.known messages.new))
            (Spec.warning_line numbered number (Spec.warning_words (Spec.warning_view self.entry))) }
    {
        match self.ignored {
            Some(ignored) => tell_ignored(numbered, number, self.understood, ignored, messages),
            None => tell_nothing(numbered, number, self.understood, messages),
        }
    }
}

/// Puts the place and the word of what was ignored into the messages.
fn tell_ignored<M: Sink>(
    numbered: Numbered,
    number: u64,
    understood: bool,
    ignored: (usize, &str),
    messages: &mut M,
)
    ensures { Streams.Reports (Streams.change (M.known messages.old) (M.known messages.new))
        (Spec.warning_line numbered number (Spec.words_by understood (Some (Spec.ignored_view ignored.entry)))) }
{
    let mut digits = itoa::Buffer::new();
    let mut place = itoa::Buffer::new();
    tell_word(
        numbered.called(),
        digits.format(number),
        front(understood),
        place.format(ignored.0),
        ignored.1,
        messages,
    );
}

/// Puts these words into the messages, in one line.
#[tactic(auto, using(crate::proofs::Told::word_told))]
fn tell_word<'a, M: Sink>(
    called: &'a str,
    number: &'a str,
    front: &'a str,
    place: &'a str,
    word: &'a str,
    messages: &mut M,
)
    ensures { Streams.WritesMessage (Streams.change (M.known messages.old) (M.known messages.new))
        (Streams.with_newline (called.now ++ (number.now ++ (front.now ++ (place.now ++ (codes ": " ++ word.now)))))) }
{
    write_message(&[called, number, front, place, ": ", word, "\n"], messages);
}

/// How that begins.
fn front(understood: bool) -> &'static str
    ensures { result.now ≡ Spec.ignored_front understood }
{
    if understood {
        ": ignored from byte "
    } else {
        ": nothing understood; ignored from byte "
    }
}

/// Puts into the messages that nothing was understood, if so.
fn tell_nothing<M: Sink>(numbered: Numbered, number: u64, understood: bool, messages: &mut M)
    ensures { Streams.Reports (Streams.change (M.known messages.old) (M.known messages.new))
        (Spec.warning_line numbered number (Spec.words_by understood None)) }
{
    if !understood {
        let mut digits = itoa::Buffer::new();
        tell_number(numbered.called(), digits.format(number), messages);
    }
}

/// Puts into the messages that nothing was understood of the text with this number.
fn tell_number<'a, M: Sink>(called: &'a str, number: &'a str, messages: &mut M)
    ensures { Streams.WritesMessage (Streams.change (M.known messages.old) (M.known messages.new))
        (Streams.with_newline (called.now ++ (number.now ++ codes ": nothing understood"))) }
{
    tell_line(called, number, ": nothing understood", messages);
}

/// Puts this into the messages, in one line.
#[tactic(auto, using(crate::proofs::Told::number_told))]
fn tell_line<'a, M: Sink>(called: &'a str, number: &'a str, said: &'a str, messages: &mut M)
    ensures { Streams.WritesMessage (Streams.change (M.known messages.old) (M.known messages.new))
        (Streams.with_newline (called.now ++ (number.now ++ said.now))) }
{
    write_message(&[called, number, said, "\n"], messages);
}
