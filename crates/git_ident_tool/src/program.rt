//! What the program does with a command line.
ghost use Rattle.std.specs.Prelude.{◌≡◌, map, string_bytes};
ghost use Rattle.git_ident_tool.specs.declared.help.TheConstants.{USAGE};
ghost use Rattle.git_ident_tool.specs as Spec;
ghost use Rattle.streams.specs as Streams;

use crate::error::Fault;
use crate::help::{HELP, USAGE, VERSION};
use crate::judging::Judge;
use crate::verdicts::Telling;
use gix_date::device::{Sink, Source};
use std::alloc::Global;
use streams::{Status, print, tell_fault, write_message};

/// Does what the words of a command line, without the program's name, ask for: judges the objects, or the lines, of the reader, or writes
/// the help or the version. Of wrong words it says which and why, and how it is called.
pub fn execute<R: Source, W: Sink, M: Sink>(
    alloc: Global,
    words: &[String],
    reader: &mut R,
    writer: &mut W,
    messages: &mut M,
) -> Status
    ensures { Spec.Executes (map string_bytes words.now) (Spec.flow (Streams.change (R.known reader.old) (R.known reader.new))
        (Streams.change (W.known writer.old) (W.known writer.new)))
        (Streams.change (M.known messages.old) (M.known messages.new)) result }
{
    let outcome = dispatch(alloc, words, reader, writer);
    report(&outcome, messages);
    status_of(&outcome)
}

/// Says that a word of the command line is not UTF-8, and how the program is called.
#[tactic(auto, unfolding(crate::specs::Says))]
pub fn show_usage<M: Sink>(messages: &mut M) -> Status
    ensures { Spec.ShowsUsage (Streams.change (M.known messages.old) (M.known messages.new)) result }
{
    tell_wrong(WrongWords::NotText, messages);
    Status::Usage
}

/// Does what the words ask for, but for the message of its end.
fn dispatch<R: Source, W: Sink>(
    alloc: Global,
    words: &[String],
    reader: &mut R,
    writer: &mut W,
) -> Outcome
    ensures { Spec.EndsCommand (Spec.asked (map string_bytes words.now))
        (Spec.flow (Streams.change (R.known reader.old) (R.known reader.new))
        (Streams.change (W.known writer.old) (W.known writer.new))) result }
{
    match read_words(words) {
        Ok(Command::Judge(request)) => end_of(judge(alloc, request, reader, writer)),
        Ok(Command::Help) => show(HELP, writer),
        Ok(Command::Version) => show(VERSION, writer),
        Err(why) => Outcome::Shown(why),
    }
}

/// Judges objects or lines.
fn judge<R: Source, W: Sink>(
    alloc: Global,
    request: Request,
    reader: &mut R,
    writer: &mut W,
) -> Result<bool, Fault>
    ensures { Spec.JudgesAs request.lines request.telling (Spec.flow (Streams.change (R.known reader.old) (R.known reader.new))
        (Streams.change (W.known writer.old) (W.known writer.new))) result }
{
    let judge = Judge {
        alloc,
        telling: request.telling,
    };
    if request.lines {
        judge.judge_lines(reader, writer)
    } else {
        judge.judge_objects(reader, writer)
    }
}

/// How that ends.
fn end_of(judged: Result<bool, Fault>) -> Outcome
    ensures { result ≡ Spec.end_of judged }
{
    match judged {
        Ok(clean) => Outcome::Judged(clean),
        Err(fault) => Outcome::Failed(fault),
    }
}

/// Writes a text.
fn show<W: Sink>(text: &str, writer: &mut W) -> Outcome
    ensures { Spec.Prints text.now (Streams.change (W.known writer.old) (W.known writer.new)) result }
{
    match print(text, writer) {
        Ok(()) => Outcome::Printed,
        Err(fault) => Outcome::Failed(Fault::Tool(fault)),
    }
}

/// Says why the program ends so, where there is something to say.
#[tactic(auto, using(crate::proofs::Reported::failed_reported, crate::proofs::Reported::shown_reported))]
fn report<M: Sink>(outcome: &Outcome, messages: &mut M)
    ensures { Streams.Reports (Streams.change (M.known messages.old) (M.known messages.new)) (Spec.message_of outcome.now) }
{
    match outcome {
        Outcome::Failed(fault) => report_fault(fault, messages),
        Outcome::Shown(why) => tell_wrong(*why, messages),
        Outcome::Judged(_) => {}
        Outcome::Printed => {}
    }
}

/// Says in one line what fault a run has.
#[tactic(auto, using(crate::proofs::Reported::tool_reported, crate::proofs::Reported::refused_reported, crate::proofs::Reported::stream_reported))]
fn report_fault<M: Sink>(fault: &Fault, messages: &mut M)
    ensures { Streams.Reports (Streams.change (M.known messages.old) (M.known messages.new)) (Spec.fault_message fault.now) }
{
    match fault {
        Fault::Tool(fault) => tell_fault("git_ident", fault, messages),
        Fault::Refused(why) => say(why.text(), "", messages),
        Fault::Stream(why) => say(why.text(), "", messages),
    }
}

/// Says what is wrong with the command line, and how the program is called.
fn tell_wrong<M: Sink>(why: WrongWords, messages: &mut M)
    ensures { Spec.Says (Streams.change (M.known messages.old) (M.known messages.new)) (Spec.wrong_words why) USAGE.now }
{
    say(why.text(), USAGE, messages);
}

/// Says these words in one line after the program's name, and then more.
fn say<'a, M: Sink>(words: &'a str, more: &'a str, messages: &mut M)
    ensures { Spec.Says (Streams.change (M.known messages.old) (M.known messages.new)) words.now more.now }
{
    write_message(&["git_ident: ", words, "\n", more], messages);
}

/// The status that an end has.
fn status_of(outcome: &Outcome) -> Status
    ensures { result ≡ Spec.status_of outcome.now }
{
    match outcome {
        Outcome::Printed => Status::Success,
        Outcome::Judged(true) => Status::Success,
        Outcome::Judged(false) => Status::Failure,
        Outcome::Failed(_) => Status::Failure,
        Outcome::Shown(_) => Status::Usage,
    }
}

/// How the program ends, before its status and message.
#[derive(Drop)]
pub(crate) enum Outcome {
    /// All lines were judged. Whether all are clean.
    Judged(bool),
    /// The run has this fault, or the writer refused the help or the version.
    Failed(Fault),
    /// The help or the version was written.
    Printed,
    /// This is wrong with the command line.
    Shown(WrongWords),
}

/// What the words of a command line ask for.
#[derive(Clone, Copy)]
pub(crate) enum Command {
    /// Objects or lines are judged.
    Judge(Request),
    /// The help is printed.
    Help,
    /// The version is printed.
    Version,
}

/// How lines are judged.
#[derive(Clone, Copy)]
pub(crate) struct Request {
    /// Which are told of.
    pub(crate) telling: Telling,
    /// Whether they stand in no objects.
    pub(crate) lines: bool,
}

/// What is wrong with the words of a command line.
#[derive(Clone, Copy)]
pub(crate) enum WrongWords {
    /// A word is no option.
    NoOption,
    /// A word is not UTF-8.
    NotText,
}

impl WrongWords {
    /// What is said of it.
    pub(crate) fn text(self) -> &'static str
        ensures { result.now ≡ Spec.wrong_words self }
    {
        match self {
            WrongWords::NoOption => "a word is no option",
            WrongWords::NotText => "a word is not UTF-8",
        }
    }
}

/// What a word comes to.
#[derive(Clone, Copy)]
pub(crate) enum Step {
    /// This is asked.
    On(Request),
    /// Nothing is judged: it asks for the help, or the version.
    Instead(Command),
    /// It is no option.
    Wrong,
}

/// Reads the words of a command line, without the program's name.
pub(crate) fn read_words(words: &[String]) -> Result<Command, WrongWords>
    ensures { result ≡ Spec.asked (map string_bytes words.now) }
{
    let request = Request {
        telling: Telling::Faults,
        lines: false,
    };
    read_from(request, words)
}

/// Reads words after others, by which this is asked.
#[tactic(auto, unfolding(crate::specs::asked_from))]
fn read_from(request: Request, words: &[String]) -> Result<Command, WrongWords>
    ensures { result ≡ Spec.asked_from request (map string_bytes words.now) }
{
    let Some((first, more)) = words.split_first() else {
        return Ok(Command::Judge(request));
    };
    match step_of(request, first.as_str()) {
        Step::On(next) => read_from(next, more),
        Step::Instead(command) => Ok(command),
        Step::Wrong => Err(WrongWords::NoOption),
    }
}

/// What the next word comes to.
fn step_of(request: Request, word: &str) -> Step
    ensures { result ≡ Spec.step_of request word.now }
{
    if word == "--all" {
        Step::On(Request {
            telling: Telling::All,
            ..request
        })
    } else if word == "--lines" {
        Step::On(Request {
            lines: true,
            ..request
        })
    } else if word == "--help" {
        Step::Instead(Command::Help)
    } else if word == "-h" {
        Step::Instead(Command::Help)
    } else if word == "--version" {
        Step::Instead(Command::Version)
    } else {
        Step::Wrong
    }
}
