//! What the program does with a command line.
ghost use Rattle.std.specs.Prelude.{◌≡◌, map, string_bytes};
ghost use Rattle.gix_date_tool.specs as Spec;
ghost use Rattle.streams.specs as Streams;

pub(crate) mod arguments;
mod outcome;

use crate::help::text_asked;
use crate::program::arguments::{Request, WrongWords, read_words};
use crate::program::outcome::Outcome;
use crate::runs::run;
use gix_date::device::{Sink, Source, put_all};
use std::alloc::Global;
use streams::{Status, ToolError, print, tell_fault, write_message};

/// How the program is called.
pub(crate) const USAGE: &[u8] = b"usage: gix_date_tool MODE [NOW]\n";

/// Does what the words of a command line, without the program's name, ask for: runs over the reader's lines, or writes
/// the usage line if the words are invalid. If the first word is `--help` or `-h`, it writes the help instead, and if it is
/// `--version` the version, whatever follows it. Then it reads nothing.
///
/// [`Status::Failure`] if the run has a fault, or such a text is not written. Takes memory as [`run`] does.
///
/// One line is put into the messages: after the program's name the text of the run's fault, or of the writer's that
/// refused such a text, or what is wrong with the words. Else they are not called, and what they refuse changes nothing.
pub fn execute<R: Source, W: Sink, M: Sink>(
    alloc: Global,
    words: &[String],
    reader: &mut R,
    writer: &mut W,
    messages: &mut M,
) -> Status
    ensures { Spec.Executes (map string_bytes words.now) (Streams.change (R.known reader.old) (R.known reader.new))
        (Streams.change (W.known writer.old) (W.known writer.new))
        (Streams.change (M.known messages.old) (M.known messages.new)) result }
{
    let outcome = dispatch(alloc, words, reader, writer);
    report(&outcome, messages);
    status_of(&outcome)
}

/// Writes the usage line for a command line with a word that is not UTF-8, and puts that into the messages.
/// [`Status::Failure`] if the writer refuses; its fault then goes into the messages.
pub fn show_usage<W: Sink, M: Sink>(writer: &mut W, messages: &mut M) -> Status
    ensures { Spec.ShowsUsage (Streams.change (W.known writer.old) (W.known writer.new))
        (Streams.change (M.known messages.old) (M.known messages.new)) result }
{
    let outcome = usage_outcome(writer, WrongWords::NotText);
    report(&outcome, messages);
    status_of(&outcome)
}

/// Does what the words ask for, but for the messages.
fn dispatch<R: Source, W: Sink>(
    alloc: Global,
    words: &[String],
    reader: &mut R,
    writer: &mut W,
) -> Outcome
    ensures { Spec.Ends (map string_bytes words.now) (Streams.change (R.known reader.old) (R.known reader.new))
        (Streams.change (W.known writer.old) (W.known writer.new)) result }
{
    match text_asked(words) {
        Some(text) => show(text, writer),
        None => reply(alloc, words, reader, writer),
    }
}

/// Writes a text.
fn show<W: Sink>(text: &str, writer: &mut W) -> Outcome
    ensures { Spec.Prints text.now (Streams.change (W.known writer.old) (W.known writer.new)) result }
{
    match print(text, writer) {
        Ok(()) => Outcome::Printed,
        Err(fault) => Outcome::Fault(fault),
    }
}

/// Replies to lines, or writes the usage line.
fn reply<R: Source, W: Sink>(
    alloc: Global,
    words: &[String],
    reader: &mut R,
    writer: &mut W,
) -> Outcome
    ensures { Spec.EndsCommand (Spec.asked (map string_bytes words.now)) (Streams.change (R.known reader.old) (R.known reader.new))
        (Streams.change (W.known writer.old) (W.known writer.new)) result }
{
    match read_words(words) {
        Request::Run(mode, now) => match run(alloc, mode, now, reader, writer) {
            Ok(_) => Outcome::Replied,
            Err(fault) => Outcome::Fault(fault),
        },
        Request::Usage(why) => usage_outcome(writer, why),
    }
}

/// Writes the usage line.
fn usage_outcome<W: Sink>(writer: &mut W, why: WrongWords) -> Outcome
    ensures { Spec.EndsInUsage why (Streams.change (W.known writer.old) (W.known writer.new)) result }
{
    match put_all(writer, USAGE) {
        Ok(()) => Outcome::Shown(why),
        Err(kind) => Outcome::Fault(ToolError::Write(kind)),
    }
}

/// Says in one line why the program ends so, where there is something to say.
fn report<M: Sink>(outcome: &Outcome, messages: &mut M)
    ensures { Streams.Reports (Streams.change (M.known messages.old) (M.known messages.new)) (Spec.message_of outcome.now) }
{
    match outcome {
        Outcome::Fault(fault) => tell_fault("gix_date_tool", fault, messages),
        Outcome::Shown(why) => write_message(&["gix_date_tool", ": ", why.text(), "\n"], messages),
        Outcome::Replied => {}
        Outcome::Printed => {}
    }
}

/// The status that an end has.
fn status_of(outcome: &Outcome) -> Status
    ensures { result ≡ Spec.status_of outcome.now }
{
    match outcome {
        Outcome::Replied => Status::Success,
        Outcome::Printed => Status::Success,
        Outcome::Fault(_) => Status::Failure,
        Outcome::Shown(_) => Status::Usage,
    }
}
