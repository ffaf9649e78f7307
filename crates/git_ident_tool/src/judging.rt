//! Identity lines and objects judged.
ghost use Rattle.std.specs.Prelude.{◌≡◌, ◌&&◌, drop, length, true};
ghost use Rattle.std.specs.List.{before_first};
ghost use Rattle.git_ident_tool.specs as Spec;
ghost use Rattle.gix_date.specs as GixDate;
ghost use Rattle.gix_signature.specs as GixSignature;
ghost use Rattle.streams.specs as Streams;

use crate::error::{Fault, HeaderFault, StreamFault};
use crate::header::{Header, Kind, id_of, read_header};
use crate::stream::{Cursor, LineEnd};
use crate::verdicts::{Telling, fault_of, is_told, line_reply, object_reply, role_in};
use gix_date::device::{Device, Sink, Source, put_all};
use gix_signature::Role;
use std::alloc::Global;
use std::io;
use streams::{MAX_LINE_LEN, Server, Stop, ToolError, serve_lines};

/// The most objects that a stream has, or lines.
pub(crate) const MAX_OBJECTS: u64 = u64::MAX;

/// Judges lines, and tells of those that it has to.
#[derive(Clone, Copy)]
pub struct Judge {
    pub alloc: Global,
    /// Which lines it tells of.
    pub telling: Telling,
}

impl Judge {
    /// Judges the objects of a stream, and answers whether all their identity lines are clean.
    pub fn judge_objects<R: Source, W: Sink>(
        self,
        reader: &mut R,
        writer: &mut W,
    ) -> Result<bool, Fault>
        ensures { Spec.JudgesStream self.telling (Spec.flow (Streams.change (R.known reader.old) (R.known reader.new))
            (Streams.change (W.known writer.old) (W.known writer.new))) result }
    {
        let mut cursor = Cursor::new();
        let mut header = Vec::new(self.alloc);
        let mut line = Vec::new(self.alloc);
        let mut clean = true;
        let mut count = 0;
        'objects: while count < MAX_OBJECTS {
            match cursor.next(reader, MAX_LINE_LEN, &mut header) {
                Ok(LineEnd::Newline) => {}
                Ok(LineEnd::Full) => return Err(Fault::Refused(HeaderFault::BadHeader)),
                Ok(LineEnd::Input) => {
                    if header.is_empty() {
                        return Ok(clean);
                    }
                    return Err(Fault::Stream(StreamFault::EarlyEnd));
                }
                Err(fault) => return Err(Fault::Tool(fault)),
            }
            match self.judge_object(header.as_slice(), &mut cursor, &mut line, reader, writer) {
                Ok(one) => clean = both(clean, one),
                Err(fault) => return Err(fault),
            }
            count += 1;
        }
        Err(Fault::Stream(StreamFault::TooMany))
    }

    /// Judges an object, of which the header was read.
    fn judge_object<R: Source, W: Sink>(
        self,
        header: &[u8],
        cursor: &mut Cursor,
        line: &mut Vec<u8>,
        reader: &mut R,
        writer: &mut W,
    ) -> Result<bool, Fault>
        ensures { Spec.JudgesObject self.telling header.now
            (Spec.flow (Streams.change (Spec.input cursor.old (R.known reader.old)) (Spec.input cursor.new (R.known reader.new)))
            (Streams.change (W.known writer.old) (W.known writer.new))) result }
    {
        let said = match read_header(header) {
            Ok(said) => said,
            Err(fault) => return Err(Fault::Refused(fault)),
        };
        let (clean, left) = match self.judge_contents(
            id_of(header),
            said,
            cursor,
            line,
            reader,
            writer,
        ) {
            Ok(judged) => judged,
            Err(fault) => return Err(fault),
        };
        match end_object(left, cursor, line, reader) {
            Ok(()) => Ok(clean),
            Err(fault) => Err(fault),
        }
    }

    /// Judges the lines of an object's own header, if it has one. Whether all are clean, and how many bytes are left.
    fn judge_contents<R: Source, W: Sink>(
        self,
        id: &[u8],
        said: Header,
        cursor: &mut Cursor,
        line: &mut Vec<u8>,
        reader: &mut R,
        writer: &mut W,
    ) -> Result<(bool, usize), Fault>
        ensures { Spec.JudgesHeader self.telling id.now said
            (Spec.flow (Streams.change (Spec.input cursor.old (R.known reader.old)) (Spec.input cursor.new (R.known reader.new)))
            (Streams.change (W.known writer.old) (W.known writer.new))) result }
    {
        if !has_own_header(said.kind) {
            return Ok((true, said.size));
        }
        judge_header(self, id, said, cursor, line, reader, writer)
    }

    /// Judges a line of an object's header.
    fn judge_line<W: Sink>(
        self,
        id: &[u8],
        kind: Kind,
        line: &[u8],
        writer: &mut W,
    ) -> Result<bool, ToolError>
        ensures { Spec.Tells (Spec.line_due self.telling id.now kind line.now) (Spec.is_clean_in kind line.now)
            (Streams.change (W.known writer.old) (W.known writer.new)) result }
    {
        match role_in(kind, line) {
            Some(role) => self.judge_role(id, role, line, writer),
            None => Ok(true),
        }
    }

    /// Judges the identity line of a role.
    fn judge_role<W: Sink>(
        self,
        id: &[u8],
        role: Role,
        line: &[u8],
        writer: &mut W,
    ) -> Result<bool, ToolError>
        ensures { Spec.Tells (Spec.role_due self.telling id.now line.now role)
            (Spec.is_clean (drop (length (GixSignature.role_start role)) line.now))
            (Streams.change (W.known writer.old) (W.known writer.new)) result }
    {
        let text = after(line, role.start().len());
        let fault = fault_of(text);
        if is_told(self.telling, fault) {
            let Ok(reply) = object_reply(self.alloc, id, role, fault, text) else {
                return Err(ToolError::Memory);
            };
            put_all(writer, reply.as_slice()).map_err(ToolError::Write)?;
        }
        Ok(fault.is_none())
    }
}

/// Judges the lines of an object's own header, to its first empty line.
fn judge_header<R: Source, W: Sink>(
    judge: Judge,
    id: &[u8],
    said: Header,
    cursor: &mut Cursor,
    line: &mut Vec<u8>,
    reader: &mut R,
    writer: &mut W,
) -> Result<(bool, usize), Fault>
    requires { Spec.has_own_header said.kind ≡ true }
    ensures { Spec.JudgesHeader judge.telling id.now said
        (Spec.flow (Streams.change (Spec.input cursor.old (R.known reader.old)) (Spec.input cursor.new (R.known reader.new)))
        (Streams.change (W.known writer.old) (W.known writer.new))) result }
{
    let mut clean = true;
    let mut left = said.size;
    'lines: loop {
        match cursor.next(reader, left, line) {
            Ok(LineEnd::Newline) => left -= line.len() + 1,
            Ok(LineEnd::Full) => {
                return match judge.judge_line(id, said.kind, line.as_slice(), writer) {
                    Ok(one) => Ok((both(clean, one), 0)),
                    Err(fault) => Err(Fault::Tool(fault)),
                };
            }
            Ok(LineEnd::Input) => return Err(Fault::Stream(StreamFault::EarlyEnd)),
            Err(fault) => return Err(Fault::Tool(fault)),
        }
        if line.is_empty() {
            return Ok((clean, left));
        }
        match judge.judge_line(id, said.kind, line.as_slice(), writer) {
            Ok(one) => clean = both(clean, one),
            Err(fault) => return Err(Fault::Tool(fault)),
        }
    }
}

/// Whether lines of such an object are looked at.
fn has_own_header(kind: Kind) -> bool
    ensures { result ≡ Spec.has_own_header kind }
{
    matches!(kind, Kind::Commit | Kind::Tag)
}

/// Whether both are.
pub(crate) fn both(some: bool, more: bool) -> bool
    ensures { result ≡ (some && more) }
{
    some && more
}

/// A text without its first bytes.
fn after(text: &[u8], count: usize) -> &[u8]
    ensures { result.now ≡ drop count text.now }
{
    if count <= text.len() {
        &text[count..]
    } else {
        &[]
    }
}

/// Skips what is left of an object's contents, and takes the newline after them.
#[tactic(auto, using(crate::proofs::Streams::skips_to_byte, crate::proofs::Streams::skips_to_fault))]
fn end_object<R: Source>(
    left: usize,
    cursor: &mut Cursor,
    line: &mut Vec<u8>,
    reader: &mut R,
) -> Result<(), Fault>
    ensures { Spec.EndsObject left
        (Streams.change (Spec.input cursor.old (R.known reader.old)) (Spec.input cursor.new (R.known reader.new))) result }
{
    match cursor.skip(reader, left) {
        Ok(true) => {}
        Ok(false) => return Err(Fault::Stream(StreamFault::EarlyEnd)),
        Err(kind) => return Err(Fault::Tool(ToolError::Read(kind))),
    }
    match cursor.next(reader, 1, line) {
        Ok(LineEnd::Newline) => Ok(()),
        Ok(LineEnd::Full) => Err(Fault::Stream(StreamFault::BadEnd)),
        Ok(LineEnd::Input) => Err(Fault::Stream(StreamFault::EarlyEnd)),
        Err(fault) => Err(Fault::Tool(fault)),
    }
}

/// Judges lines, and keeps whether all are clean.
#[derive(Clone, Copy)]
pub(crate) struct Judging {
    judge: Judge,
    clean: bool,
}

impl Judge {
    /// Judges the lines of an input, and answers whether all are clean. The last may lack its newline.
    #[tactic(auto, using(crate::proofs::Served::lines_judged, crate::proofs::Served::lines_stopped))]
    pub fn judge_lines<R: Source, W: Sink>(
        self,
        reader: &mut R,
        writer: &mut W,
    ) -> Result<bool, Fault>
        ensures { Spec.JudgesLines self.telling (Spec.flow (Streams.change (R.known reader.old) (R.known reader.new))
            (Streams.change (W.known writer.old) (W.known writer.new))) result }
    {
        let mut judging = Judging {
            judge: self,
            clean: true,
        };
        let mut silence = Device::new(io::sink());
        match serve_lines(
            self.alloc,
            MAX_OBJECTS,
            &mut judging,
            reader,
            writer,
            &mut silence,
        ) {
            Ok(_) => Ok(judging.clean),
            Err(stop) => Err(fault_in(stop)),
        }
    }

    /// Judges an identity line that stands in no object.
    fn judge_text<W: Sink>(self, text: &[u8], writer: &mut W) -> Result<bool, ToolError>
        ensures { Spec.Tells (Spec.text_due self.telling text.now) (Spec.is_clean text.now)
            (Streams.change (W.known writer.old) (W.known writer.new)) result }
    {
        let fault = fault_of(text);
        if is_told(self.telling, fault) {
            let Ok(reply) = line_reply(self.alloc, fault, text) else {
                return Err(ToolError::Memory);
            };
            put_all(writer, reply.as_slice()).map_err(ToolError::Write)?;
        }
        Ok(fault.is_none())
    }
}

impl Server for Judging {
    ghost serves = { Spec.JudgesTo };

    ghost is_settled = { λ s. Unit {0} };

    #[tactic(auto, using(crate::proofs::Served::breaks_one))]
    fn serve<W: Sink, M: Sink>(
        &mut self,
        line: &[u8],
        out: &mut W,
        _messages: &mut M,
    ) -> Result<(), ToolError> {
        match self.judge.judge_text(line, out) {
            Ok(one) => {
                self.clean = both(self.clean, one);
                Ok(())
            }
            Err(fault) => Err(fault),
        }
    }

    #[tactic(auto, using(crate::proofs::Judged::nothing_done))]
    fn settle<W: Sink>(&mut self, _out: &mut W) -> Result<(), ToolError> {
        Ok(())
    }

    ghost stays = { Spec.no_lines };

    ghost joins = { Spec.more_lines };
}

/// The fault of an end: there may be as many lines as objects.
fn fault_in(stop: Stop) -> Fault
    ensures { result ≡ Spec.fault_in stop }
{
    match stop {
        Stop::Reading(ToolError::TooManyLines) => Fault::Stream(StreamFault::TooMany),
        Stop::Reading(fault) => Fault::Tool(fault),
        Stop::Serving(fault) => Fault::Tool(fault),
    }
}
