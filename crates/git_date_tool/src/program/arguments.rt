//! What the program is asked for.
ghost use Rattle.std.specs.Prelude.{◌≡◌, map, option_map, string_bytes};
ghost use Rattle.std.specs.List.{find};
ghost use Rattle.std.specs.Option.{is_some};
ghost use Rattle.std.specs.Result.{result_map_both};
ghost use Rattle.git_date_tool.specs as Spec;

use crate::answers::{NoWay, Reader, Shown, Strictness, shown_named};
use crate::program::wrong::WrongWords;
use gix_date::names::value_named;

/// What the words of a command line ask for.
#[derive(Clone, Copy)]
pub(crate) enum Command<'w> {
    /// Texts are answered.
    Answer(Request<'w>),
    /// The help is printed.
    Help,
    /// The version is printed.
    Version,
}

/// How texts are answered.
#[derive(Clone, Copy)]
pub(crate) struct Request<'w> {
    /// What reads the texts, unless it is [`Reader::Approxidate`].
    pub(crate) reader: Option<Reader>,
    /// What is shown of each date, unless it is the header's text.
    pub(crate) shown: Option<Shown<'w>>,
    /// How much of a text has to be understood, unless it is something.
    pub(crate) strictness: Option<Strictness>,
    /// The moment, unless it is the clock's.
    pub(crate) now: Option<&'w str>,
    /// The zone, unless it is the system's.
    pub(crate) zone: Option<&'w str>,
    /// The texts. If there is none, the lines of standard input are read.
    pub(crate) texts: &'w [String],
}

/// An option that takes a value.
#[derive(Clone, Copy, Debug, PartialEq, Eq)]
pub(crate) enum Given {
    /// `--now`
    Now,
    /// `--zone`
    Zone,
    /// `--as`
    As,
    /// `--show`
    Show,
}

/// What a word comes to.
#[derive(Clone, Copy)]
pub(crate) enum Step<'w> {
    /// It is an option, or a value: this is asked, and this option waits for its value.
    On(Request<'w>, Option<Given>),
    /// It is the first text.
    Here,
    /// The texts stand after it.
    After,
    /// Nothing is answered: it asks for the help, or the version.
    Instead(Command<'w>),
    /// It is wrong.
    Wrong(WrongWords<'w>),
}

/// Reads the words of a command line, without the program's name.
pub(crate) fn read_words(words: &[String]) -> Result<Command<'_>, WrongWords<'_>>
    ensures { result_map_both Spec.command_view Spec.wrong_words result ≡ Spec.asked (map string_bytes words.now) }
{
    read_from(nothing_asked(), None, words)
}

/// Reads words after others, by which this is asked and perhaps an option waits for its value. No option stands twice, so that
/// these words are few.
#[tactic(auto, unfolding(crate::specs::asked_from))]
fn read_from<'w>(
    request: Request<'w>,
    waits: Option<Given>,
    words: &'w [String],
) -> Result<Command<'w>, WrongWords<'w>>
    ensures { result_map_both Spec.command_view Spec.wrong_words result
        ≡ Spec.asked_from (Spec.request_view request.entry) waits (map string_bytes words.now) }
{
    let Some((first, more)) = words.split_first() else {
        return at_end(request, waits);
    };
    match step_of(request, waits, first.as_str()) {
        Step::On(next, waiting) => read_from(next, waiting, more),
        Step::Here => with_texts(request, words),
        Step::After => Ok(Command::Answer(with_all(request, more))),
        Step::Instead(command) => Ok(command),
        Step::Wrong(why) => Err(why),
    }
}

/// What the next word comes to.
fn step_of<'w>(request: Request<'w>, waits: Option<Given>, word: &'w str) -> Step<'w>
    ensures { Spec.step_view result ≡ Spec.step_of (Spec.request_view request.entry) waits word.now }
{
    if let Some(given) = waits {
        return stepped(with_value(request, given, word));
    }
    if word == "--" {
        return Step::After;
    }
    if !is_option(word) {
        return Step::Here;
    }
    if word == "--help" || word == "-h" {
        return Step::Instead(Command::Help);
    }
    if word == "--version" {
        return Step::Instead(Command::Version);
    }
    stepped(taken(request, word))
}

/// What such a word comes to.
fn stepped<'w>(next: Result<(Request<'w>, Option<Given>), WrongWords<'w>>) -> Step<'w>
    ensures { Spec.step_view result ≡ Spec.step_on (result_map_both Spec.taken_view Spec.wrong_words next.entry) }
{
    match next {
        Ok((request, waits)) => Step::On(request, waits),
        Err(why) => Step::Wrong(why),
    }
}

/// The request with these texts.
fn with_all<'w>(request: Request<'w>, texts: &'w [String]) -> Request<'w>
    ensures { Spec.request_view result ≡ Spec.with_all (Spec.request_view request.entry) (map string_bytes texts.now) }
{
    Request { texts, ..request }
}

/// What is asked without a word.
fn nothing_asked<'w>() -> Request<'w>
    ensures { Spec.request_view result ≡ Spec.first_asked }
{
    Request {
        reader: None,
        shown: None,
        strictness: None,
        now: None,
        zone: None,
        texts: &[],
    }
}

/// Whether a word is an option, or none that the program has.
fn is_option(word: &str) -> bool
    ensures { result ≡ Spec.is_option word.now }
{
    matches!(word.as_bytes(), [b'-', ..])
}

/// What is asked at the end of the words. The last option may not wait for its value.
fn at_end<'w>(request: Request<'w>, waits: Option<Given>) -> Result<Command<'w>, WrongWords<'w>>
    ensures { result_map_both Spec.command_view Spec.wrong_words result ≡ Spec.at_end (Spec.request_view request.entry) waits }
{
    match waits {
        Some(given) => Err(WrongWords::NoValue(given)),
        None => Ok(Command::Answer(request)),
    }
}

/// The first option among words.
fn first_option(words: &[String]) -> Option<&str>
    ensures { option_map (λ word. word.now) result
        ≡ option_map string_bytes (find (λ word. Spec.is_option (string_bytes word)) words.now) }
{
    let word = words.iter().find(|word| is_option(word.as_str()))?;
    Some(word.as_str())
}

/// What is asked with texts, among which no option may stand.
fn with_texts<'w>(request: Request<'w>, texts: &'w [String]) -> Result<Command<'w>, WrongWords<'w>>
    ensures { result_map_both Spec.command_view Spec.wrong_words result
        ≡ Spec.with_texts (Spec.request_view request.entry) (map string_bytes texts.now) }
{
    match first_option(texts) {
        Some(word) => Err(WrongWords::LateOption(word)),
        None => Ok(Command::Answer(with_all(request, texts))),
    }
}

/// What an option adds: how much has to be understood, or a value, for which it may wait.
fn taken<'w>(
    request: Request<'w>,
    word: &'w str,
) -> Result<(Request<'w>, Option<Given>), WrongWords<'w>>
    ensures { result_map_both Spec.taken_view Spec.wrong_words result ≡ Spec.taken (Spec.request_view request.entry) word.now }
{
    if word == "--strict" {
        return with_demand(request, word, Strictness::Strict);
    }
    if word == "--lenient" {
        return with_demand(request, word, Strictness::Lenient);
    }
    let (name, value) = cut_word(word);
    match option_named(name) {
        Some(given) => with_option(request, given, value),
        None => Err(WrongWords::UnknownOption(word)),
    }
}

/// The name of an option, and the value after `=`.
fn cut_word(word: &str) -> (&str, Option<&str>)
    ensures { Spec.cut_view result ≡ Spec.cut_word word.now }
{
    match word.split_once('=') {
        Some((name, value)) => (name, Some(value)),
        None => (word, None),
    }
}

/// With how much has to be understood, which only one option may say.
fn with_demand<'w>(
    request: Request<'w>,
    word: &'w str,
    strictness: Strictness,
) -> Result<(Request<'w>, Option<Given>), WrongWords<'w>>
    ensures { result_map_both Spec.taken_view Spec.wrong_words result
        ≡ Spec.with_demand (Spec.request_view request.entry) word.now strictness }
{
    match request.strictness {
        Some(_) => Err(WrongWords::TwoDemands(word)),
        None => Ok((
            Request {
                strictness: Some(strictness),
                ..request
            },
            None,
        )),
    }
}

/// With the value of an option, or with the option, which waits for it then.
fn with_option<'w>(
    request: Request<'w>,
    given: Given,
    value: Option<&'w str>,
) -> Result<(Request<'w>, Option<Given>), WrongWords<'w>>
    ensures { result_map_both Spec.taken_view Spec.wrong_words result
        ≡ Spec.with_option (Spec.request_view request.entry) given (option_map (λ value. value.now) value.entry) }
{
    match value {
        Some(value) => with_value(request, given, value),
        None => Ok((request, Some(given))),
    }
}

/// The option of this name.
fn option_named(word: &str) -> Option<Given>
    ensures { result ≡ Spec.option_named word.now }
{
    let options = [
        ("--now", Given::Now),
        ("--zone", Given::Zone),
        ("--as", Given::As),
        ("--show", Given::Show),
    ];
    value_named(&options, word)
}

impl Given {
    /// Its name.
    pub(crate) fn text(self) -> &'static str
        ensures { result.now ≡ Spec.option_text self }
    {
        match self {
            Given::Now => "--now",
            Given::Zone => "--zone",
            Given::As => "--as",
            Given::Show => "--show",
        }
    }
}

/// Whether a request has the value of an option.
fn is_given(request: Request<'_>, given: Given) -> bool
    ensures { result ≡ Spec.is_given (Spec.request_view request.entry) given }
{
    match given {
        Given::Now => request.now.is_some(),
        Given::Zone => request.zone.is_some(),
        Given::As => request.reader.is_some(),
        Given::Show => request.shown.is_some(),
    }
}

/// The request with an option's value, which it may not have yet.
fn with_value<'w>(
    request: Request<'w>,
    given: Given,
    value: &'w str,
) -> Result<(Request<'w>, Option<Given>), WrongWords<'w>>
    ensures { result_map_both Spec.taken_view Spec.wrong_words result ≡ Spec.with_value (Spec.request_view request.entry) given value.now }
{
    if is_given(request, given) {
        return Err(WrongWords::Twice(given));
    }
    let next = match given {
        Given::Now => Request {
            now: Some(value),
            ..request
        },
        Given::Zone => Request {
            zone: Some(value),
            ..request
        },
        Given::As => match reader_named(value) {
            Some(reader) => Request {
                reader: Some(reader),
                ..request
            },
            None => return Err(WrongWords::UnknownReader(value)),
        },
        Given::Show => match shown_named(value) {
            Ok(shown) => Request {
                shown: Some(shown),
                ..request
            },
            Err(NoWay::Unknown) => return Err(WrongWords::UnknownMode(value)),
            Err(NoWay::Format(fault)) => return Err(WrongWords::WrongFormat(value, fault)),
        },
    };
    Ok((next, None))
}

/// The reader of this name.
fn reader_named(word: &str) -> Option<Reader>
    ensures { result ≡ Spec.reader_named word.now }
{
    let readers = [
        ("exact", Reader::Exact),
        ("approxidate", Reader::Approxidate),
        ("careful", Reader::Careful),
        ("gix", Reader::Gix),
        ("header", Reader::Header),
    ];
    value_named(&readers, word)
}
