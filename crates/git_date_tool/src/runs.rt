//! Runs over the words of a command line, and over the lines of a stream.
ghost use Rattle.std.specs.Prelude.{◌≡◌, [], map, string_bytes};
ghost use Rattle.git_date_tool.specs as Spec;
ghost use Rattle.streams.specs as Streams;

use crate::answers::{Answer, Query, answer_line};
use gix_date::device::{Sink, Source};
use std::alloc::{AllocError, Global};
use streams::{MAX_LINES, Outbox, Server, ToolError, serve_lines};

/// The last number that a text has in warnings.
const LAST_NUMBER: u64 = u64::MAX;

/// Answers each text by a line.
pub(crate) fn run_over<W: Sink, M: Sink>(
    alloc: Global,
    query: &Query<'_>,
    texts: &[String],
    writer: &mut W,
    messages: &mut M,
) -> Result<Verdict, ToolError>
    ensures { Spec.RunsOver query.entry.now (map string_bytes texts.now)
        (Spec.output (Streams.change (W.known writer.old) (W.known writer.new))
        (Streams.change (M.known messages.old) (M.known messages.new))) result }
{
    let mut answering = Answering::new(alloc, *query);
    for text in texts {
        if let Err(fault) = answering.serve(text.as_bytes(), writer, messages) {
            return Err(fault);
        }
    }
    match answering.settle(writer) {
        Ok(()) => Ok(answering.verdict),
        Err(fault) => Err(fault),
    }
}

/// Answers each line of a reader by a line. What was answered is written before more is read.
#[tactic(auto, using(crate::proofs::Answering::run_ended, crate::proofs::Answering::run_stopped))]
pub(crate) fn run_through<R: Source, W: Sink, M: Sink>(
    alloc: Global,
    query: &Query<'_>,
    reader: &mut R,
    writer: &mut W,
    messages: &mut M,
) -> Result<Verdict, ToolError>
    ensures { Spec.RunsThrough query.entry.now (Streams.change (R.known reader.old) (R.known reader.new))
        (Spec.output (Streams.change (W.known writer.old) (W.known writer.new))
        (Streams.change (M.known messages.old) (M.known messages.new))) result }
{
    let mut answering = Answering::new(alloc, *query);
    match serve_lines(alloc, MAX_LINES, &mut answering, reader, writer, messages) {
        Ok(_) => Ok(answering.verdict),
        Err(stop) => Err(stop.fault()),
    }
}

/// Answers texts, one after the other.
#[derive(Drop)]
struct Answering<'q> {
    alloc: Global,
    /// What is asked of each text.
    query: Query<'q>,
    /// The number of the next text, from 1.
    number: u64,
    /// What is known of those that were answered.
    verdict: Verdict,
    /// The lines that are unsent.
    outbox: Outbox,
}

impl<'q> Answering<'q> {
    /// No text was answered.
    fn new(alloc: Global, query: Query<'q>) -> Answering<'q>
        ensures turn { Spec.turn_of result ≡ Spec.first_turn query.entry }
        ensures verdict { result.verdict ≡ Spec.first_verdict }
        ensures unsent { Streams.waiting result.outbox ≡ [] }
    {
        Answering {
            alloc,
            query,
            number: 1,
            verdict: Verdict::first(),
            outbox: Outbox::new(),
        }
    }
}

impl<'q> Server for Answering<'q> {
    ghost serves = { Spec.AnswersTo };

    ghost is_settled = { λ s. Streams.waiting s.outbox ≡ [] };

    #[tactic(auto, using(crate::proofs::Answering::served))]
    fn serve<W: Sink, M: Sink>(
        &mut self,
        line: &[u8],
        out: &mut W,
        messages: &mut M,
    ) -> Result<(), ToolError> {
        let Ok(answer) = answer_line(self.alloc, &self.query, line) else {
            if let Err(fault) = self.settle(out) {
                return Err(fault);
            }
            return Err(ToolError::Memory);
        };
        if let Err(kind) = answer.put(&mut self.outbox, out) {
            return Err(ToolError::Write(kind));
        }
        answer.warn(self.query.numbered, self.number, messages);
        self.number = next_number(self.number);
        self.verdict = self.verdict.with(verdict_of(&answer));
        Ok(())
    }

    #[tactic(auto, using(crate::proofs::Answering::settled))]
    fn settle<W: Sink>(&mut self, out: &mut W) -> Result<(), ToolError> {
        match self.outbox.send(out) {
            Ok(()) => Ok(()),
            Err(kind) => Err(ToolError::Write(kind)),
        }
    }

    ghost stays = { Spec.no_lines };

    ghost joins = { Spec.more_lines };
}

/// The number of the text after the one with this number. It stops at the last.
fn next_number(number: u64) -> u64
    ensures { result ≡ Spec.next_number number }
{
    if number == LAST_NUMBER {
        number
    } else {
        number + 1
    }
}

/// What is known of texts that were answered.
#[derive(Clone, Copy)]
pub(crate) struct Verdict {
    /// Whether each was read, and its date can be shown.
    pub(crate) all_read: bool,
    /// Whether each word of them was understood.
    pub(crate) all_clear: bool,
}

impl Verdict {
    /// That of no text.
    pub(crate) fn first() -> Verdict
        ensures { result ≡ Spec.first_verdict }
    {
        Verdict {
            all_read: true,
            all_clear: true,
        }
    }

    /// That of more texts.
    pub(crate) fn with(self, more: Verdict) -> Verdict
        ensures { result ≡ Spec.both self more }
    {
        Verdict {
            all_read: self.all_read && more.all_read,
            all_clear: self.all_clear && more.all_clear,
        }
    }
}

/// What is known of a text with this answer.
fn verdict_of(answer: &Answer<'_>) -> Verdict
    ensures { result ≡ Spec.verdict_of (Spec.answer_reply answer.now) }
{
    Verdict {
        all_read: answer.is_date(),
        all_clear: answer.is_clear(),
    }
}
