//! Why a call refuses.
ghost use Rattle.std.specs.Prelude.{◌≡◌, Some, IfOk};
ghost use Rattle.gix_date.specs.Devices.InputBytes.{shown_text};

use std::alloc::{AllocError, Global};
use std::marker::Model;
use std::{fmt, io, str};
use thiserror::Error;

/// Why a call of this crate refuses. Each variant names the calls that answer it.
#[derive(Debug, Drop, Error)]
pub enum Error {
    /// The text is of no family, or a formatted date has an offset above 23:59 (`parse`).
    #[error("no known date format: {:?}; expected seconds since 1970, such as \"@0\" or \"1700000000\", \
        seconds and an offset, such as \"1660874655 +0800\", a date, such as \"2022-08-18 12:45:06 +0800\", \
        or a relative one, such as \"2 weeks ago\"", .input.as_text())]
    UnknownFormat {
        /// The text that was given.
        input: InputBytes,
    },
    /// The header says no time (`from_str`).
    #[error("not a time: expected seconds since 1970, perhaps an offset such as +0100, and no colon")]
    InvalidTime,
    /// The text is relative, and no moment was given (`parse`).
    #[error("the date needs a moment, and none was given")]
    MissingNow,
    /// The day's midnight in UTC is no instant of `jiff` (`parse`).
    #[error("the date is beyond the last instant that can be computed with: {:?}", .input.as_text())]
    DateConversion {
        /// The text that was given.
        input: InputBytes,
    },
    /// The seconds are no instant of `jiff`, or the offset is above 25:59:59 either way (`to_zoned`, `format`).
    #[error("the time is too far from 1970, or its offset from UTC is beyond 25:59:59")]
    Conversion,
    /// The relative text names no instant of `jiff` (`parse`).
    #[error("the date leads to an instant that cannot be computed with")]
    Range,
    /// The offset is 100 hours or more, which four digits cannot write (`write_to`, `to_str`, `to_buf`, `format`).
    #[error("an offset of 100 hours or more from UTC cannot be written")]
    OffsetTooWide,
    /// `jiff` refuses the pattern, or prints no UTF-8 (`format`).
    #[error("the pattern cannot be printed")]
    Pattern,
    /// The writer refused, and this is its fault (`write_to`).
    #[error("writing failed: {0}")]
    Write(io::ErrorKind),
    /// An allocation failed (each call with an allocator).
    #[error("out of memory")]
    Memory,
}

/// Why [`parse_no_alloc`](crate::parse_no_alloc) refuses: the faults of `parse`, without the text.
#[derive(Clone, Copy, Debug, PartialEq, Eq, Error)]
pub enum ParseError {
    /// The text is of no family, or a formatted date has an offset above 23:59.
    #[error("no known date format; expected seconds since 1970, such as \"@0\" or \"1700000000\", \
        seconds and an offset, such as \"1660874655 +0800\", a date, such as \"2022-08-18 12:45:06 +0800\", \
        or a relative one, such as \"2 weeks ago\"")]
    UnknownFormat,
    /// The day's midnight in UTC is no instant of `jiff`.
    #[error("the date is beyond the last instant that can be computed with")]
    DateConversion,
    /// The text is relative, or a date of the moment's zone, and no moment was given.
    #[error("the date needs a moment, and none was given")]
    MissingNow,
    /// The relative text names no instant of `jiff`, or a date has none in the moment's zone.
    #[error("the date leads to an instant that cannot be computed with")]
    Range,
}

/// Why [`parse_carefully`](crate::parse_carefully) refuses.
#[derive(Clone, Copy, Debug, PartialEq, Eq, Error)]
pub enum CarefulError {
    /// The text is not careful: the place, in bytes, of the first character that does not fit, or the text's length if its
    /// end is missing.
    #[error("not understood from byte {0} on; expected a date, or counts and whole units, then `ago`, such as \"2 weeks ago\"")]
    Unclear(usize),
    /// The text is a number of seconds after the year 9999, alone or before an offset. Of the formats only `UNIX` and `RAW`
    /// print these.
    #[error("a number of seconds after the year 9999; if milliseconds were meant, divide them by 1000, \
        and if a date and a clock, write them as \"2024-01-05 10:30:00\"; `@` before the number reads it as seconds")]
    AfterYear9999,
    /// The text is refused as by `parse_no_alloc`.
    #[error("{0}")]
    Refused(ParseError),
}

/// A copy of the text that a call refused.
///
/// It shows as that text.
#[derive(Debug, Drop)]
pub struct InputBytes {
    bytes: Vec<u8>,
}

impl Model for InputBytes {
    ghost use Rattle.std.specs.Prelude.{ℕ, List};

    ghost Value = { List ℕ };

    ghost view = { λ s. s.bytes.items };
}

impl InputBytes {
    /// A copy of the bytes of a text, or the fault of its allocation.
    pub(crate) fn copied(alloc: Global, input: &str) -> Result<InputBytes, AllocError>
        ensures { IfOk result (λ copy. copy ≡ input.now) }
    {
        let bytes = Vec::from_slice(alloc, input.as_bytes())?;
        Ok(InputBytes { bytes })
    }

    /// The bytes of the text.
    pub fn as_bytes(&self) -> &[u8]
        ensures { result.now ≡ self.now }
    {
        self.bytes.as_slice()
    }

    #[tactic(auto, using(crate::proofs::Text::Texts::if_text, crate::proofs::Text::Texts::if_no_text))]
    fn as_text(&self) -> &str
        ensures { result.now ≡ shown_text self.now }
    {
        str::from_utf8(self.as_bytes()).unwrap_or("not text")
    }
}

impl fmt::Display for InputBytes {
    ghost output = { λ bytes. Some (shown_text bytes) };

    fn fmt<W: fmt::Write>(&self, f: &mut fmt::Formatter<W>) -> fmt::Result {
        f.write_str(self.as_text())
    }
}
