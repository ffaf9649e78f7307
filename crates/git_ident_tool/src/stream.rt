//! The bytes of a source, line by line, or skipped.
ghost use Rattle.std.specs.Prelude.{◌≡◌, ◌≤◌, length, take, drop};

use gix_date::device::Source;
use std::alloc::AllocError;
use std::io;
use streams::{ToolError, split_line};

/// How many bytes are read at most at a time.
const CHUNK: usize = 16384;

/// Where a line that was read ends.
#[derive(Debug, Clone, Copy, PartialEq, Eq)]
pub(crate) enum LineEnd {
    /// At its newline, which was read too.
    Newline,
    /// As many bytes were read as were asked for.
    Full,
    /// At the end of the input.
    Input,
}

/// What was read of a source and is not taken yet.
#[derive(Drop)]
pub(crate) struct Cursor {
    /// The bytes that were read last. Those between the two places are not taken yet.
    bytes: [u8; CHUNK],
    from: usize,
    to: usize,

    ghost within: { (from ≤ to) × (to ≤ length bytes) },
}

impl Cursor {
    ghost use Rattle.std.specs.Prelude.{◌≡◌, []};
    ghost use Rattle.git_ident_tool.specs.Cursor.{unread, input, stretch, TakesPart, Refills, ReadsLine, Skips};

    /// Nothing was read.
    pub(crate) fn new() -> Cursor
        ensures { unread result ≡ [] }
    {
        Cursor {
            bytes: [0; CHUNK],
            from: 0,
            to: 0,
        }
    }

    /// Takes the next line, or its front of so many bytes.
    pub(crate) fn next<R: Source>(
        &mut self,
        reader: &mut R,
        most: usize,
        line: &mut Vec<u8>,
    ) -> Result<LineEnd, ToolError>
        ensures { ReadsLine most (input self.old (R.known reader.old)) (input self.new (R.known reader.new))
            line.new.items result }
    {
        line.clear();
        'reads: loop {
            if self.take_part(most - line.len(), line)? {
                return Ok(LineEnd::Newline);
            }
            if line.len() == most {
                return Ok(LineEnd::Full);
            }
            if !self.refill(reader).map_err(ToolError::Read)? {
                return Ok(LineEnd::Input);
            }
        }
    }

    /// Skips so many bytes. `false` if the input ends before.
    pub(crate) fn skip<R: Source>(
        &mut self,
        reader: &mut R,
        count: usize,
    ) -> Result<bool, io::ErrorKind>
        ensures { Skips count (input self.old (R.known reader.old)) (input self.new (R.known reader.new)) result }
    {
        let mut left = count;
        'skips: while self.to - self.from < left {
            left -= self.to - self.from;
            self.from = self.to;
            match self.refill(reader) {
                Ok(true) => {}
                Ok(false) => return Ok(false),
                Err(kind) => return Err(kind),
            }
        }
        self.advance(left);
        Ok(true)
    }

    /// Takes so many of the bytes that are not taken yet.
    #[tactic(auto, using(crate::proofs::Taking::advanced))]
    fn advance(&mut self, count: usize)
        requires { count ≤ length (unread self.old) }
        ensures { unread self.new ≡ drop count (unread self.old) }
    {
        self.from = self.to - (self.to - self.from - count);
    }

    /// Appends what was read of the next line, at most so many bytes, to a line. Whether its newline was taken too.
    #[tactic(auto, using(crate::proofs::Taking::end_taken, crate::proofs::Taking::front_taken))]
    fn take_part(&mut self, most: usize, line: &mut Vec<u8>) -> Result<bool, ToolError>
        ensures { TakesPart most (stretch (unread self.old) line.old.items) (stretch (unread self.new) line.new.items) result }
    {
        let front = first_of(&self.bytes[self.from..self.to], most);
        match split_line(front) {
            Some((part, _)) => {
                let used = part.len() + 1;
                if let Err(AllocError) = line.extend_from_slice(part) {
                    return Err(ToolError::Memory);
                }
                self.from += used;
                Ok(true)
            }
            None => {
                let used = front.len();
                if let Err(AllocError) = line.extend_from_slice(front) {
                    return Err(ToolError::Memory);
                }
                self.from += used;
                Ok(false)
            }
        }
    }

    /// Reads more, where all is taken. `false` at the end of the input.
    fn refill<R: Source>(&mut self, reader: &mut R) -> Result<bool, io::ErrorKind>
        requires { unread self.old ≡ [] }
        ensures { Refills (unread self.new) (input self.old (R.known reader.old)) (input self.new (R.known reader.new)) result }
    {
        self.from = 0;
        self.to = 0;
        match reader.get(&mut self.bytes) {
            Ok(0) => Ok(false),
            Ok(count) => {
                self.to = count;
                Ok(true)
            }
            Err(kind) => Err(kind),
        }
    }
}

/// The first so many bytes, or all.
fn first_of(bytes: &[u8], most: usize) -> &[u8]
    ensures { result.now ≡ take most bytes.now }
{
    if bytes.len() <= most {
        bytes
    } else {
        &bytes[..most]
    }
}
