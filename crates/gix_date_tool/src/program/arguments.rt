//! What the program is asked for.
ghost use Rattle.std.specs.Prelude.{◌≡◌, IfOk, IfSome, Ok, map, string_bytes};
ghost use Rattle.std.specs.Option.{ForSome};
ghost use Rattle.gix_date_tool.specs as Spec;
ghost use Rattle.gix_date.specs as GixDate;

use gix_date::Time;
use gix_date::names::value_named;
use std::alloc::Global;
use streams::{NoMoment, ToolError, moment};

/// What [`crate::run`] replies to each line.
#[derive(Debug, Clone, Copy, PartialEq, Eq)]
pub enum Mode {
    /// Whether the line is a header text that comes back when it is read and written, and else what it is read as.
    Check,
    /// The header text of the time that the line is parsed as, or why it is not.
    Parse,
    /// The line that is written of the signature line's name, email and time, or that it is no such line.
    Sign,
}

/// What the words of a command line ask for.
#[derive(Clone, Copy)]
pub(crate) enum Request {
    /// A run in this mode, at this moment where there is one.
    Run(Mode, Option<Time>),
    /// The usage line, for this reason.
    Usage(WrongWords),
}

/// What is wrong with the words of a command line.
#[derive(Clone, Copy)]
pub(crate) enum WrongWords {
    /// There is no word.
    NoMode,
    /// The first word is no mode.
    UnknownMode,
    /// A word stands after a mode that takes no NOW.
    NowWithoutParse,
    /// A word stands after NOW.
    AfterNow,
    /// A word is not UTF-8.
    NotText,
    /// NOW is no moment.
    NoMoment(NoMoment),
}

impl WrongWords {
    /// What is said of it.
    pub(crate) fn text(self) -> &'static str
        ensures { result.now ≡ Spec.wrong_words self }
    {
        match self {
            WrongWords::NoMode => "MODE is missing; expected check, parse or sign",
            WrongWords::UnknownMode => "MODE is none of check, parse and sign",
            WrongWords::NowWithoutParse => "only parse takes a word after it, NOW",
            WrongWords::AfterNow => "a word stands after NOW; quote a date of several words",
            WrongWords::NotText => "a word is not UTF-8",
            WrongWords::NoMoment(why) => why.text(),
        }
    }
}

/// Reads the words of a command line, without the program's name: the mode, and the moment where there is one.
///
/// The command lines are `check`, `parse`, `parse NOW` and `sign`, where NOW is a date that [`gix_date::parse`]
/// reads without a moment (`1698400800 +0000`) and [`Time::to_zoned`] converts. `None` for any other: then the usage line
/// is due, or the text that `--help`, `-h` or `--version` asks for. A moment that is answered is one that [`crate::run`] may be
/// given. It is always `Ok`, since it asks the allocator for nothing.
pub fn command(_alloc: Global, words: &[String]) -> Result<Option<(Mode, Option<Time>)>, ToolError>
    ensures answer { result ≡ Ok (Spec.command_of (map string_bytes words.now)) }
    ensures moment { IfOk result (λ asked. IfSome asked (λ both. ForSome both.1 GixDate.IsConvertible)) }
{
    match read_words(words) {
        Request::Run(mode, now) => Ok(Some((mode, now))),
        Request::Usage(_) => Ok(None),
    }
}

/// What the words of a command line ask for.
pub(crate) fn read_words(words: &[String]) -> Request
    ensures is { Spec.IsRequest (map string_bytes words.now) result }
    ensures runnable { Spec.IsRunnable result }
{
    let [word, more @ ..] = words else {
        return Request::Usage(WrongWords::NoMode);
    };
    match mode_named(word.as_str()) {
        Some(mode) => request_of(mode, more),
        None => Request::Usage(WrongWords::UnknownMode),
    }
}

fn mode_named(word: &str) -> Option<Mode>
    ensures { result ≡ Spec.mode_of word.now }
{
    let modes = [
        ("check", Mode::Check),
        ("parse", Mode::Parse),
        ("sign", Mode::Sign),
    ];
    value_named(&modes, word)
}

/// What a mode with these words after it asks for.
fn request_of(mode: Mode, more: &[String]) -> Request
    ensures is { Spec.IsAnswer (Spec.asked_of mode (map string_bytes more.now)) result }
    ensures runnable { Spec.IsRunnable result }
{
    match (mode, more) {
        (_, []) => Request::Run(mode, None),
        (Mode::Parse, [now]) => match moment(now.as_str()) {
            Ok(now) => Request::Run(Mode::Parse, Some(now)),
            Err(why) => Request::Usage(WrongWords::NoMoment(why)),
        },
        (Mode::Parse, _) => Request::Usage(WrongWords::AfterNow),
        _ => Request::Usage(WrongWords::NowWithoutParse),
    }
}
