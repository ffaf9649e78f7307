//! Writers and readers for tests: they take and give a few bytes a call, count the calls, and fail on demand.
pub mod answers;
pub mod harness;
pub mod machine;

use gix_date::device::Sink;
use std::alloc::{AllocError, Global};
use std::cell::Cell;
use std::io::{Read, Write};
use std::{fmt, io, str};

/// Kinds of faults: what a call may be tried again after, what ends a stream, and what has no name.
pub const KINDS: [io::ErrorKind; 6] = [
    io::ErrorKind::WouldBlock,
    io::ErrorKind::Interrupted,
    io::ErrorKind::StorageFull,
    io::ErrorKind::UnexpectedEof,
    io::ErrorKind::Other,
    io::ErrorKind::Uncategorized,
];

/// The bytes of stack that a test may use once it has taken all memory.
const DEPTH: usize = 131_072;

/// Whether the stack was made as deep as that. Where every address is taken it can grow no further, and a call that wants more is killed.
fn is_deepened() -> bool {
    let mut pages = [0_u8; DEPTH];
    for place in (0..DEPTH).step_by(4096) {
        pages[place] = b'p';
    }
    str::from_utf8(pages.as_slice()).is_ok()
}

/// How often a byte stands in a text.
pub fn count_of(byte: u8, text: &[u8]) -> usize {
    let mut count = 0_usize;
    for other in text {
        if *other == byte {
            count = count.saturating_add(1);
        }
    }
    count
}

/// Takes all memory that there is, in ever smaller blocks, until the smallest is refused. It fails where it got none.
pub fn take_all(alloc: Global) -> Result<Vec<Vec<u8>>, AllocError> {
    if !is_deepened() {
        return Err(AllocError);
    }
    let mut blocks = Vec::with_capacity(alloc, 65536)?;
    let mut size = 1_usize << 46;
    for _ in 0..47 {
        for _ in 0..65536 {
            match Vec::with_capacity(alloc, size) {
                Ok(block) => {
                    let _ = blocks.push(block);
                }
                Err(_) => break,
            }
        }
        size /= 2;
    }
    if blocks.is_empty() {
        return Err(AllocError);
    }
    Ok(blocks)
}

/// A writer that takes a few bytes a call, up to a limit, and then fails, or takes none.
#[derive(Drop)]
pub struct Slow {
    pub taken: Vec<u8>,
    pub calls: usize,
    pub flushes: usize,
    bytes_a_call: usize,
    room: usize,
    fault: Option<io::ErrorKind>,
}

impl Slow {
    pub fn new(alloc: Global, bytes_a_call: usize, room: usize, kind: io::ErrorKind) -> Slow {
        Slow::ending(alloc, bytes_a_call, room, Some(kind))
    }

    /// One that takes no byte at its end if it has no fault.
    pub fn ending(
        alloc: Global,
        bytes_a_call: usize,
        room: usize,
        fault: Option<io::ErrorKind>,
    ) -> Slow {
        Slow {
            taken: Vec::new(alloc),
            calls: 0,
            flushes: 0,
            bytes_a_call,
            room,
            fault,
        }
    }

    /// A writer that takes all that it is given.
    pub fn roomy(alloc: Global) -> Slow {
        Slow::new(alloc, 1 << 20, 1 << 30, io::ErrorKind::Other)
    }

    /// Whether it took exactly this.
    pub fn took(&self, text: &[u8]) -> bool {
        self.taken.as_slice() == text
    }
}

impl Write for Slow {
    fn write(&mut self, buf: &[u8]) -> io::Result<usize> {
        self.calls = self.calls.saturating_add(1);
        let room = self.room.saturating_sub(self.taken.len());
        if room == 0 {
            return match self.fault {
                Some(kind) => Err(io::Error::from(kind)),
                None => Ok(0),
            };
        }
        let count = buf.len().min(self.bytes_a_call).min(room);
        self.taken.extend_from_slice(&buf[..count])?;
        Ok(count)
    }

    fn flush(&mut self) -> io::Result<()> {
        self.flushes = self.flushes.saturating_add(1);
        Ok(())
    }
}

/// A reader that gives a text over and over, a few bytes a call, so many bytes in all, and then ends or fails.
#[derive(Drop)]
pub struct Supply<'a> {
    pub calls: usize,
    text: &'a [u8],
    place: usize,
    bytes_a_call: usize,
    left: usize,
    fault: Option<io::ErrorKind>,
}

impl<'a> Supply<'a> {
    /// The text once.
    pub fn once(text: &'a [u8], bytes_a_call: usize, fault: Option<io::ErrorKind>) -> Supply<'a> {
        Supply::of(text, bytes_a_call, text.len(), fault)
    }

    /// So many bytes of the text and its repetitions.
    pub fn of(
        text: &'a [u8],
        bytes_a_call: usize,
        left: usize,
        fault: Option<io::ErrorKind>,
    ) -> Supply<'a> {
        Supply {
            calls: 0,
            text,
            place: 0,
            bytes_a_call,
            left,
            fault,
        }
    }
}

impl Read for Supply<'_> {
    fn read(&mut self, buf: &mut [u8]) -> io::Result<usize> {
        self.calls = self.calls.saturating_add(1);
        if self.left == 0 || self.text.is_empty() {
            return match self.fault {
                Some(kind) => Err(io::Error::from(kind)),
                None => Ok(0),
            };
        }
        if self.place >= self.text.len() {
            self.place = 0;
        }
        let front = &self.text[self.place..];
        let count = front
            .len()
            .min(self.left)
            .min(self.bytes_a_call)
            .min(buf.len());
        buf[..count].copy_from_slice(&front[..count]);
        self.place += count;
        self.left -= count;
        Ok(count)
    }
}

/// A reader that gives one piece a call, and takes all memory that there is before it gives the last.
#[derive(Drop)]
pub struct Hoarder<'a> {
    alloc: Global,
    pieces: &'a [&'a [u8]],
    blocks: Option<Vec<Vec<u8>>>,
}

impl<'a> Hoarder<'a> {
    pub fn new(alloc: Global, pieces: &'a [&'a [u8]]) -> Hoarder<'a> {
        Hoarder {
            alloc,
            pieces,
            blocks: None,
        }
    }
}

impl Read for Hoarder<'_> {
    fn read(&mut self, buf: &mut [u8]) -> io::Result<usize> {
        let [piece, rest @ ..] = self.pieces else {
            return Ok(0);
        };
        if rest.is_empty() {
            self.blocks = take_all(self.alloc).ok();
        }
        let count = piece.len().min(buf.len());
        buf[..count].copy_from_slice(&piece[..count]);
        self.pieces = rest;
        Ok(count)
    }
}

/// A sink that is no device: it takes one byte a call, so many in all, and then refuses.
#[derive(Drop)]
pub struct Dribble {
    pub calls: usize,
    room: usize,
    fault: Option<io::ErrorKind>,
}

impl Dribble {
    pub fn new(room: usize) -> Dribble {
        Dribble {
            calls: 0,
            room,
            fault: None,
        }
    }
}

impl Sink for Dribble {
    ghost use Rattle.std.specs.Prelude.{None};

    ghost known = { λ s. record { bytes = None; fault = s.fault } };

    fn put(&mut self, _piece: &[u8]) -> Result<usize, io::ErrorKind> {
        self.calls = self.calls.saturating_add(1);
        if let Some(kind) = self.fault {
            return Err(kind);
        }
        if self.room == 0 {
            self.fault = Some(io::ErrorKind::StorageFull);
            return Err(io::ErrorKind::StorageFull);
        }
        self.room -= 1;
        Ok(1)
    }
}

/// A place for texts that counts its pieces.
#[derive(Drop)]
pub struct Pieces {
    pub count: usize,
}

impl fmt::Write for Pieces {
    fn write_str(&mut self, _s: &str) -> fmt::Result {
        self.count = self.count.saturating_add(1);
        Ok(())
    }
}

/// A reader that gives header lines, so many a call at most, and counts its calls and those that come before each line
/// that it gave was replied to.
#[derive(Drop)]
pub struct Asking<'a> {
    pub calls: usize,
    pub early: usize,
    left: usize,
    lines_a_call: usize,
    given: usize,
    replied: &'a Cell<usize>,
}

impl<'a> Asking<'a> {
    pub fn new(lines: usize, lines_a_call: usize, replied: &'a Cell<usize>) -> Asking<'a> {
        Asking {
            calls: 0,
            early: 0,
            left: lines,
            lines_a_call,
            given: 0,
            replied,
        }
    }
}

impl Read for Asking<'_> {
    fn read(&mut self, buf: &mut [u8]) -> io::Result<usize> {
        self.calls = self.calls.saturating_add(1);
        if self.replied.get() < self.given {
            self.early = self.early.saturating_add(1);
        }
        let lines = self.left.min(self.lines_a_call).min(buf.len() / 8);
        let count = lines * 8;
        for place in buf[..count].chunks_exact_mut(8) {
            place.copy_from_slice(b"0 +0000\n");
        }
        self.left -= lines;
        self.given = self.given.saturating_add(lines);
        Ok(count)
    }
}

/// A writer that counts the lines that were written.
#[derive(Drop)]
pub struct Replied<'a>(pub &'a Cell<usize>);

impl Write for Replied<'_> {
    fn write(&mut self, buf: &[u8]) -> io::Result<usize> {
        self.0
            .set(self.0.get().saturating_add(count_of(b'\n', buf)));
        Ok(buf.len())
    }

    fn flush(&mut self) -> io::Result<()> {
        Ok(())
    }
}

/// A writer with a place for a few bytes, which takes no memory.
#[derive(Drop)]
pub struct Small {
    bytes: [u8; 256],
    len: usize,
}

impl Small {
    pub fn new() -> Small {
        Small {
            bytes: [0; 256],
            len: 0,
        }
    }

    /// Whether exactly this was written.
    pub fn is(&self, text: &[u8]) -> bool {
        self.len <= self.bytes.len() && &self.bytes[..self.len] == text
    }
}

impl Write for Small {
    fn write(&mut self, buf: &[u8]) -> io::Result<usize> {
        let room = self.bytes.len().saturating_sub(self.len);
        let count = buf.len().min(room);
        if count > 0 {
            self.bytes[self.len..self.len + count].copy_from_slice(&buf[..count]);
            self.len += count;
        }
        Ok(count)
    }

    fn flush(&mut self) -> io::Result<()> {
        Ok(())
    }
}
