//! Reading headers and dates, and the buffer for a header text.
//!
//! The Rust crate names this module `parse`. Here a module and a function beside it cannot share a name.
ghost use Rattle.std.specs.Prelude.{◌≡◌, [], ok_or};
ghost use Rattle.std.specs.Borrow.{sem};
ghost use Rattle.gix_date.specs.declared.error.Error.TheVariants.{OffsetTooWide};
ghost use Rattle.gix_date.specs as Spec;

pub mod careful;
pub(crate) mod dates;
pub(crate) mod fast;
mod fields;
mod fronts;
mod git;
pub(crate) mod headers;
pub(crate) mod numbers;
mod offset;
mod patterns;
pub(crate) mod raw;
mod relative;
mod shape;
pub(crate) mod usual;

use crate::error::Error;
pub use crate::parsing::dates::parse_no_alloc;
use crate::parsing::headers::parse_header;
use crate::parsing::relative::Relative;
use crate::time::{MAX_TEXT_LEN, Time, header_text};
use arrayvec::ArrayString;
use std::str::FromStr;

/// A buffer for the header text of one time, of at most 26 bytes, without an allocation.
#[derive(Clone, Copy)]
pub struct TimeBuf {
    text: ArrayString<MAX_TEXT_LEN>,
}

impl TimeBuf {
    /// The text that [`Time::to_buf`] or the last [`Time::to_str`] wrote here; empty before, and after a refusal.
    pub fn as_str(&self) -> &str
        ensures { result.now ≡ Spec.text_in self.now }
    {
        self.text.as_str()
    }

    /// Writes the text of a time here and lends it, or empties the buffer if the time has none.
    // Apart from `to_str`: the prover shows what a buffer holds after a loan only where the result owns no memory, as an
    // `Error` may.
    #[inline(always)]
    fn write_text(&mut self, time: &Time) -> Option<&str>
        ensures text { Spec.GivesText time.now (ok_or result OffsetTooWide) }
        ensures* after { sem 𝓛 (Spec.LeavesText self.entry (Spec.text_left (ok_or result OffsetTooWide))) }
    {
        self.text.clear();
        self.text = header_text(*time)?;
        Some(self.as_str())
    }
}

impl Default for TimeBuf {
    ghost is_default = { λ buf. Spec.text_in buf ≡ [] };

    /// An empty buffer.
    fn default() -> TimeBuf {
        TimeBuf {
            text: ArrayString::new(),
        }
    }
}

/// The text, or the refusal of a time that has none.
fn or_too_wide(text: Option<&str>) -> Result<&str, Error>
    ensures { result ≡ ok_or text.entry OffsetTooWide }
{
    text.ok_or(Error::OffsetTooWide)
}

impl Time {
    /// The text that [`Time::write_to`] writes, in a buffer of its own: [`TimeBuf::as_str`] lends it. Takes no memory.
    ///
    /// An offset of 100 hours or more, either way, is refused by [`Error::OffsetTooWide`].
    #[inline(always)]
    pub fn to_buf(self) -> Result<TimeBuf, Error>
        ensures { Spec.HoldsText self result }
    {
        match header_text(self) {
            Some(text) => Ok(TimeBuf { text }),
            None => Err(Error::OffsetTooWide),
        }
    }

    /// The text that [`Time::write_to`] writes, lent out of the buffer, which keeps it.
    ///
    /// An offset of 100 hours or more is refused by [`Error::OffsetTooWide`], and the buffer is empty then.
    #[inline(always)]
    pub fn to_str<'a>(&self, buf: &'a mut TimeBuf) -> Result<&'a str, Error>
        ensures text { Spec.GivesText self.now result }
        ensures* after { sem 𝓛 (Spec.LeavesText buf.entry (Spec.text_left result)) }
    {
        or_too_wide(buf.write_text(self))
    }
}

/// Reads the time of a commit header, as [`parse_header`](crate::parse_header) does. [`Error::InvalidTime`] where that
/// gives `None`.
impl FromStr for Time {
    type Err = Error;

    ghost from_str_gives = { Spec.ReadsHeader };

    fn from_str(text: &str) -> Result<Time, Error> {
        parse_header(text).ok_or(Error::InvalidTime)
    }
}

/// What a family says of a text that it holds.
#[derive(Clone, Copy)]
pub(crate) enum Answer<'a> {
    /// A time, whatever the moment.
    Absolute(Time),
    /// No time: a formatted date whose offset is above 23:59.
    OffsetAboveDay,
    /// No time: a day whose midnight is no instant.
    NoInstant,
    /// A relative date, whose time depends on the moment.
    Relative(Relative<'a>),
}
