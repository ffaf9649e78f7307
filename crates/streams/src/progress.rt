//! The lines of a reader, each given to a server in turn, and how far that is between two reads.
ghost use Rattle.std.specs.Prelude.{◌≡◌, ◌<◌, ◌≤◌, ◌==◌, length, IfErr, IfOk, OnOk};
ghost use Rattle.std.specs.Io.KnownBytes.{ReadConsumes};
ghost use Rattle.streams.specs.declared.error.ToolError.TheVariants.{TooManyLines};
ghost use Rattle.streams.specs.declared.serving.Stop.TheVariants.{Reading};
ghost use Rattle.streams.specs as Spec;
ghost use Rattle.gix_date.specs as GixDate;

use crate::error::ToolError;
use crate::lines::{MAX_LINE_LEN, split_line};
use crate::serving::{Server, Stop};
use gix_date::device::{Sink, Source};
use std::alloc::{AllocError, Global};
use std::io;

/// How many bytes are read at most at a time: as many as a pipe holds.
const CHUNK: usize = 16384;

/// Serves each line of a reader, and answers how many they were. There may be at most so many.
///
/// Lines end at `\n`, and a last line without one counts where it has a byte. The server settles before each read and at the end,
/// but not once it has refused. Memory is taken for a line that no read gives whole, newline included, and for that alone.
///
/// [`Stop::Reading`] carries [`ToolError::LineTooLong`] where one of the lines that may be has more than 65536 bytes,
/// [`ToolError::TooManyLines`] where a byte stands after the last of them, [`ToolError::Memory`] where memory for a line that grows is
/// refused, and [`ToolError::Read`] with the reader's fault: then all lines before were served. [`Stop::Serving`] carries the
/// server's fault.
pub fn serve_lines<S: Server, R: Source, W: Sink, M: Sink>(
    alloc: Global,
    most: u64,
    server: &mut S,
    reader: &mut R,
    writer: &mut W,
    messages: &mut M,
) -> Result<u64, Stop>
    ensures { Spec.Ran (S.serves (Spec.service server.old (W.known writer.old) (M.known messages.old))
        (Spec.service server.new (W.known writer.new) (M.known messages.new))) (S.is_settled server.new) most
        (Spec.change (R.known reader.old) (R.known reader.new)) result }
{
    let mut progress = Progress::new(alloc, most);
    let ended = progress.serve_all(server, reader, writer, messages);
    if is_refused(&ended) {
        return ended;
    }
    if let Err(refused) = server.settle(writer) {
        return Err(Stop::Serving(refused));
    }
    ended
}

/// Whether the server refused.
fn is_refused(ended: &Result<u64, Stop>) -> bool
    ensures { result ≡ Spec.is_refused ended.now }
{
    matches!(ended, Err(Stop::Serving(_)))
}

/// What is known between two reads.
#[derive(Drop)]
struct Progress {
    /// The most lines that may be.
    most: u64,
    /// The bytes read of the line that has not ended.
    line: Vec<u8>,
    /// How many lines have ended.
    ended: u64,
}

impl Progress {
    /// Nothing was read.
    fn new(alloc: Global, most: u64) -> Progress
        ensures most { result.most ≡ most }
        ensures fresh { Spec.held_of result ≡ Spec.first_held result.most }
    {
        Progress {
            most,
            line: Vec::new(alloc),
            ended: 0,
        }
    }

    /// Serves all lines, and says how many they were. What waits at the end is still to be written.
    fn serve_all<S: Server, R: Source, W: Sink, M: Sink>(
        &mut self,
        server: &mut S,
        reader: &mut R,
        writer: &mut W,
        messages: &mut M,
    ) -> Result<u64, Stop>
        requires { Spec.held_of self.old ≡ Spec.first_held self.old.most }
        ensures { Spec.Ran (S.serves (Spec.service server.old (W.known writer.old) (M.known messages.old))
            (Spec.service server.new (W.known writer.new) (M.known messages.new))) (Unit {0}) self.old.most
            (Spec.change (R.known reader.old) (R.known reader.new)) result }
    {
        let mut piece = [0; CHUNK];
        'pieces: loop {
            if let Err(fault) = server.settle(writer) {
                return Err(Stop::Serving(fault));
            }
            let count = match read(server, reader, &mut piece) {
                Ok(count) => count,
                Err(kind) => return Err(Stop::Reading(ToolError::Read(kind))),
            };
            if count == 0 {
                return match self.end_input(server, writer, messages) {
                    Ok(()) => Ok(self.ended),
                    Err(fault) => Err(Stop::Serving(fault)),
                };
            }
            self.feed(&piece[..count], server, writer, messages)?;
        }
    }

    /// Takes in the next bytes, and serves the lines that they end.
    fn feed<S: Server, W: Sink, M: Sink>(
        &mut self,
        bytes: &[u8],
        server: &mut S,
        writer: &mut W,
        messages: &mut M,
    ) -> Result<(), Stop>
        requires { Spec.IsReady (Spec.held_of self.old) }
        ensures { Spec.TakesIn S.serves
            (Spec.stage (Spec.held_of self.old) (Spec.service server.old (W.known writer.old) (M.known messages.old)))
            (Spec.stage (Spec.held_of self.new) (Spec.service server.new (W.known writer.new) (M.known messages.new)))
            bytes.now result }
    {
        let mut rest = bytes;
        'lines: while let Some(after) = self.next_line(rest, server, writer, messages)? {
            rest = after;
        }
        self.extend(rest)
    }

    /// Takes in the first line of some bytes and its newline, serves it, and gives the bytes after both. `None` where the bytes end no
    /// line.
    #[inline(always)]
    fn next_line<'b, S: Server, W: Sink, M: Sink>(
        &mut self,
        bytes: &'b [u8],
        server: &mut S,
        writer: &mut W,
        messages: &mut M,
    ) -> Result<Option<&'b [u8]>, Stop>
        requires { Spec.IsReady (Spec.held_of self.old) }
        ensures { Spec.TakesLine S.serves
            (Spec.stage (Spec.held_of self.old) (Spec.service server.old (W.known writer.old) (M.known messages.old)))
            (Spec.stage (Spec.held_of self.new) (Spec.service server.new (W.known writer.new) (M.known messages.new)))
            bytes.now result }
    {
        match self.next_known(bytes, server, writer, messages) {
            Ok(Some(after)) => return Ok(Some(after)),
            Ok(None) => {}
            Err(stop) => return Err(stop),
        }
        let Some((part, after)) = split_line(bytes) else {
            return Ok(None);
        };
        match self.end_line(part, server, writer, messages) {
            Ok(()) => Ok(Some(after)),
            Err(stop) => Err(stop),
        }
    }

    /// The same where the server knows the line by its bytes. Else nothing is done.
    #[inline(always)]
    fn next_known<'b, S: Server, W: Sink, M: Sink>(
        &mut self,
        bytes: &'b [u8],
        server: &mut S,
        writer: &mut W,
        messages: &mut M,
    ) -> Result<Option<&'b [u8]>, Stop>
        requires { Spec.IsReady (Spec.held_of self.old) }
        ensures { Spec.TakesKnown S.serves
            (Spec.stage (Spec.held_of self.old) (Spec.service server.old (W.known writer.old) (M.known messages.old)))
            (Spec.stage (Spec.held_of self.new) (Spec.service server.new (W.known writer.new) (M.known messages.new)))
            bytes.now result }
    {
        if !self.is_between_lines() || self.ended == self.most {
            return Ok(None);
        }
        match server.serve_front(bytes, writer, messages) {
            Ok(Some(after)) => {
                self.ended += 1;
                Ok(Some(after))
            }
            Ok(None) => Ok(None),
            Err(fault) => Err(Stop::Serving(fault)),
        }
    }

    /// Whether no line stands open.
    #[inline(always)]
    fn is_between_lines(&self) -> bool
        ensures { result ≡ (length self.now.line.items == 0) }
    {
        self.line.len() == 0
    }

    /// Takes in the last bytes of a line and its newline, and serves it. A line that lies in one piece is served where it lies, so
    /// that no memory is asked for.
    fn end_line<S: Server, W: Sink, M: Sink>(
        &mut self,
        part: &[u8],
        server: &mut S,
        writer: &mut W,
        messages: &mut M,
    ) -> Result<(), Stop>
        requires ready { Spec.IsReady (Spec.held_of self.old) }
        requires is_line { Spec.IsLine part.now }
        ensures { Spec.TakesIn S.serves
            (Spec.stage (Spec.held_of self.old) (Spec.service server.old (W.known writer.old) (M.known messages.old)))
            (Spec.stage (Spec.held_of self.new) (Spec.service server.new (W.known writer.new) (M.known messages.new)))
            (Spec.with_newline part.now) result }
    {
        if self.is_between_lines() {
            self.check_count()?;
            if part.len() > MAX_LINE_LEN {
                return Err(Stop::Reading(ToolError::LineTooLong));
            }
            if let Err(fault) = server.serve(part, writer, messages) {
                return Err(Stop::Serving(fault));
            }
            self.ended += 1;
            return Ok(());
        }
        self.extend(part)?;
        self.check_count()?;
        if let Err(fault) = server.serve(self.line.as_slice(), writer, messages) {
            return Err(Stop::Serving(fault));
        }
        self.line.clear();
        self.ended += 1;
        Ok(())
    }

    /// Appends bytes to the open line. An empty slice never allocates.
    fn extend(&mut self, part: &[u8]) -> Result<(), Stop>
        requires ready { Spec.IsReady (Spec.held_of self.old) }
        requires is_line { Spec.IsLine part.now }
        ensures { Spec.Extends (Spec.held_of self.old) (Spec.held_of self.new) part.now result }
    {
        if part.is_empty() {
            return Ok(());
        }
        self.check_count()?;
        if part.len() > MAX_LINE_LEN - self.line.len() {
            return Err(Stop::Reading(ToolError::LineTooLong));
        }
        if let Err(AllocError) = self.line.extend_from_slice(part) {
            return Err(Stop::Reading(ToolError::Memory));
        }
        Ok(())
    }

    /// [`ToolError::TooManyLines`] if no line may begin any more.
    fn check_count(&self) -> Result<(), Stop>
        requires { self.now.ended ≤ self.now.most }
        ensures room { OnOk result (self.now.ended < self.now.most) }
        ensures none { IfErr result (λ e. (e ≡ Reading TooManyLines) × (self.now.ended ≡ self.now.most)) }
    {
        if self.ended == self.most {
            return Err(Stop::Reading(ToolError::TooManyLines));
        }
        Ok(())
    }

    /// Serves the line that stands open at the end of the input.
    fn end_input<S: Server, W: Sink, M: Sink>(
        &mut self,
        server: &mut S,
        writer: &mut W,
        messages: &mut M,
    ) -> Result<(), ToolError>
        requires { Spec.IsReady (Spec.held_of self.old) }
        ensures { Spec.EndsInput S.serves
            (Spec.stage (Spec.held_of self.old) (Spec.service server.old (W.known writer.old) (M.known messages.old)))
            (Spec.stage (Spec.held_of self.new) (Spec.service server.new (W.known writer.new) (M.known messages.new)))
            result }
    {
        if self.line.is_empty() {
            return Ok(());
        }
        if let Err(fault) = server.serve(self.line.as_slice(), writer, messages) {
            return Err(fault);
        }
        self.ended += 1;
        Ok(())
    }
}

/// Reads the next bytes. Nothing that is to be written may wait meanwhile, since a reader may block.
fn read<S: Server, R: Source>(
    server: &S,
    reader: &mut R,
    piece: &mut [u8],
) -> Result<usize, io::ErrorKind>
    requires piece { 0 < length piece.old }
    requires settled { S.is_settled server.now }
    ensures count { IfOk result (λ n. n ≤ length piece.new) }
    ensures bytes { ReadConsumes (R.known reader.old).bytes (R.known reader.new).bytes result piece.new }
    ensures fault { (R.known reader.new).fault ≡ GixDate.refusal result }
{
    reader.get(piece)
}
