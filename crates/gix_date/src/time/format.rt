//! Formats of a time by their names.
//!
//! [`parse`](crate::parse) reads what these print of a year of four digits and an offset of whole minutes up to 23:59:
//! of [`SHORT`] the midnight in UTC of that day, of [`UNIX`] from 100000000 on, and of [`RAW`] offsets in quarters of
//! an hour up to 14:45; [`parse_with`](crate::parse_with) reads those of whole minutes up to 23:59. The day
//! `9999-12-31`, which [`SHORT`] prints of 253402207200 at +0200, is refused by `DateConversion`: its midnight in UTC
//! is no instant.
ghost use Rattle.std.specs.Prelude.{◌≡◌, ◌↔◌, Some, Err, map, option_map, IsTrue, IsSome, IfSome};
ghost use Rattle.gix_date.specs.declared.error.Error.TheVariants as errors;
ghost use Rattle.gix_date.specs as Spec;

use crate::error::Error;
use crate::names::value_named;
pub use crate::time::named::FormatBuf;
use crate::time::named::{
    DEFAULT_PATTERN, GIT_RFC2822_PATTERN, GITOXIDE_PATTERN, ISO8601_PATTERN,
    ISO8601_STRICT_PATTERN, RFC2822_PATTERN, SHORT_PATTERN, copy_text, named_text, pattern_text,
    short_buf,
};
pub use crate::time::patterns::PatternBuf;
use crate::time::{Time, header_text};
use std::alloc::Global;

/// What a time is printed as.
#[derive(Debug, Clone, Copy)]
pub enum Format {
    /// By a pattern, as one of those that this module names.
    Custom(CustomFormat),
    /// As seconds since 1970-01-01 00:00:00 UTC: `1660874655`.
    Unix,
    /// As in a commit header: `1660874655 +0800`.
    Raw,
}

/// A pattern that a time is printed by, in the directives of `strftime` as `jiff` has them.
#[derive(Debug, Clone, Copy)]
pub struct CustomFormat {
    pattern: &'static str,
}

impl CustomFormat {
    ghost use Rattle.std.specs.Prelude.{◌≡◌};

    /// The format of this pattern, whether or not it can be printed.
    pub const fn new(format: &'static str) -> CustomFormat
        ensures { result.pattern.now ≡ format.now }
    {
        CustomFormat { pattern: format }
    }
}

impl From<CustomFormat> for Format {
    ghost use Rattle.gix_date.specs.declared.time.format.Format.TheVariants.{Custom};

    ghost from_gives = { λ format result. result ≡ Custom format };

    /// The format by that pattern.
    fn from(format: CustomFormat) -> Format {
        Format::Custom(format)
    }
}

/// A day: `2018-12-24`.
pub const SHORT: CustomFormat = CustomFormat {
    pattern: SHORT_PATTERN,
};

/// An RFC 2822 date: `Mon, 08 Aug 2022 12:45:06 +0800`.
pub const RFC2822: CustomFormat = CustomFormat {
    pattern: RFC2822_PATTERN,
};

/// An RFC 2822 date without a zero before the day, as Git prints it (`git log --pretty=%aD`): `Mon, 8 Aug 2022 12:45:06
/// +0800`.
pub const GIT_RFC2822: CustomFormat = CustomFormat {
    pattern: GIT_RFC2822_PATTERN,
};

/// A date after ISO 8601, as Git prints it (`git log --pretty=%ai`): `2022-08-17 22:04:58 +0200`.
pub const ISO8601: CustomFormat = CustomFormat {
    pattern: ISO8601_PATTERN,
};

/// A date in the strict form of ISO 8601, as Git 2.39 prints it (`git log --pretty=%aI`): `2022-08-17T21:43:13+08:00`.
pub const ISO8601_STRICT: CustomFormat = CustomFormat {
    pattern: ISO8601_STRICT_PATTERN,
};

/// Seconds since 1970-01-01 00:00:00 UTC: `123456789`.
pub const UNIX: Format = Format::Unix;

/// A time as in a commit header: `1660874655 +0800`.
pub const RAW: Format = Format::Raw;

/// A date as gitoxide prints it: `Sun Sep 04 2022 10:45:06 -0400`.
pub const GITOXIDE: CustomFormat = CustomFormat {
    pattern: GITOXIDE_PATTERN,
};

/// A date as Git prints it by default (`git log --pretty=%ad`): `Sun Sep 4 10:45:06 2022 -0400`.
pub const DEFAULT: CustomFormat = CustomFormat {
    pattern: DEFAULT_PATTERN,
};

static NAMED_FORMATS: [(&str, Format); 9] = [
    ("UNIX", UNIX),
    ("RAW", RAW),
    ("SHORT", Format::Custom(SHORT)),
    ("RFC2822", Format::Custom(RFC2822)),
    ("GIT_RFC2822", Format::Custom(GIT_RFC2822)),
    ("ISO8601", Format::Custom(ISO8601)),
    ("ISO8601_STRICT", Format::Custom(ISO8601_STRICT)),
    ("GITOXIDE", Format::Custom(GITOXIDE)),
    ("DEFAULT", Format::Custom(DEFAULT)),
];

/// The named formats, each beside its name, in the order of their numbers: that of [`UNIX`] is 0.
pub fn named_formats() -> &'static [(&'static str, Format)]
    ensures { map Spec.format_row result.now ≡ Spec.named_formats }
{
    &NAMED_FORMATS
}

/// The named format of this name, as `ISO8601`: letter case matters. `None` where none is called so.
#[tactic(auto, using(crate::proofs::Printing::FormatTable::named_is))]
pub fn format_named(name: &str) -> Option<Format>
    ensures { option_map Spec.printed_by result ≡ Spec.format_named name.now }
{
    value_named(named_formats(), name)
}

/// The named format of this number. `None` where none has it.
#[tactic(auto, using(crate::proofs::Printing::FormatTable::at_place))]
pub fn format_numbered(number: usize) -> Option<Format>
    ensures { option_map Spec.printed_by result ≡ Spec.format_numbered number }
{
    let row = *named_formats().get(number)?;
    Some(row.1)
}

fn is_memory(error: &Error) -> bool
    ensures { IsTrue result ↔ (error.now ≡ errors.Memory) }
{
    matches!(error, Error::Memory)
}

impl Time {
    /// The text of this time in a format: the seconds in decimal, the text of a commit header, or what `jiff`'s strict
    /// printer shows of [`Time::to_zoned`] by the pattern.
    ///
    /// [`Error::OffsetTooWide`] where a time has no header text, [`Error::Conversion`] where `to_zoned` refuses, both
    /// before any memory is taken; [`Error::Pattern`] where the printer refuses the pattern, or what it shows is no
    /// UTF-8; [`Error::Memory`] where memory for the text is refused.
    pub fn format(&self, alloc: Global, format: Format) -> Result<String, Error>
        ensures { Spec.Prints self.now format result }
    {
        match format {
            Format::Custom(custom) => self.format_by_pattern(alloc, custom.pattern),
            Format::Unix => self.unix_seconds(alloc),
            Format::Raw => self.header(alloc),
        }
    }

    /// The text of [`Time::format`], or the seconds in decimal for a time that has none in that format: where `format`
    /// answers [`Error::Conversion`], [`Error::OffsetTooWide`] or [`Error::Pattern`].
    ///
    /// The one refusal is [`Error::Memory`], where memory for the text is refused.
    pub fn format_or_unix(&self, alloc: Global, format: Format) -> Result<String, Error>
        ensures { Spec.PrintsOrSeconds self.now format result }
    {
        match self.format(alloc, format) {
            Ok(text) => Ok(text),
            Err(error) if is_memory(&error) => Err(error),
            Err(_other) => self.unix_seconds(alloc),
        }
    }

    /// The text of this time by a pattern, which need not be `'static` as that of a [`CustomFormat`] is.
    ///
    /// The refusals are those of [`Time::format`] by this pattern.
    pub fn format_by_pattern(&self, alloc: Global, pattern: &str) -> Result<String, Error>
        ensures { Spec.PrintsPattern self.now pattern.now result }
    {
        if let Some(text) = self.format_by_pattern_to_buf(pattern) {
            return copy_text(alloc, text.as_str());
        }
        let mut short = PatternBuf::new();
        if self.format_by_pattern_short(pattern, &mut short) {
            return copy_text(alloc, short.as_str());
        }
        self.format_by_jiff(alloc, pattern)
    }

    /// The same by `jiff`'s printer, also where [`Time::format_by_pattern`] needs none.
    pub fn format_by_jiff(&self, alloc: Global, pattern: &str) -> Result<String, Error>
        ensures { Spec.PrintsPattern self.now pattern.now result }
    {
        pattern_text(alloc, pattern, &self.to_zoned()?)
    }

    /// [`Time::format_by_pattern_or_unix`] by `jiff`'s printer, also where that needs none.
    pub fn format_by_jiff_or_unix(&self, alloc: Global, pattern: &str) -> Result<String, Error>
        ensures { Spec.PrintsPatternOrSeconds self.now pattern.now result }
    {
        match self.format_by_jiff(alloc, pattern) {
            Ok(text) => Ok(text),
            Err(error) if is_memory(&error) => Err(error),
            Err(_other) => self.unix_seconds(alloc),
        }
    }

    /// The text of [`Time::format_by_pattern`], or the seconds in decimal for a time that has none by that pattern: where
    /// `format_by_pattern` answers [`Error::Conversion`] or [`Error::Pattern`].
    ///
    /// The one refusal is [`Error::Memory`], where memory for the text is refused.
    pub fn format_by_pattern_or_unix(&self, alloc: Global, pattern: &str) -> Result<String, Error>
        ensures { Spec.PrintsPatternOrSeconds self.now pattern.now result }
    {
        match self.format_by_pattern(alloc, pattern) {
            Ok(text) => Ok(text),
            Err(error) if is_memory(&error) => Err(error),
            Err(_other) => self.unix_seconds(alloc),
        }
    }

    /// The text of [`Time::format`] by value, without an allocator: [`FormatBuf`] lends it by `as_str`.
    ///
    /// [`UNIX`] always has one; [`RAW`] has one iff the time has a header text, an offset below 100 hours. A pattern has
    /// one iff it is that of a named format, [`Time::to_zoned`] accepts the time, its own clock shows a year from 1000
    /// to 9999, and its offset is whole minutes. Otherwise the answer is `None`, and [`Time::format`] may still have a
    /// text. Takes no memory.
    #[inline(always)]
    pub fn format_to_buf(self, format: Format) -> Option<FormatBuf>
        ensures text { IfSome result (λ text. Spec.IsTextOf self format text.bytes) }
        ensures succeeds { IsSome result ↔ Spec.HasBufText self format }
    {
        match format {
            Format::Custom(custom) => self.format_by_pattern_to_buf(custom.pattern),
            Format::Unix => Some(self.unix_text()),
            Format::Raw => self.raw_text(),
        }
    }

    /// The text of [`Time::format_by_pattern`] by value, without an allocator, where [`Time::format_to_buf`] has one by
    /// this pattern. Takes no memory.
    #[inline(always)]
    pub fn format_by_pattern_to_buf(self, pattern: &str) -> Option<FormatBuf>
        ensures text { IfSome result (λ text. Spec.IsPatternText self pattern.now text.bytes) }
        ensures succeeds { IsSome result ↔ Spec.HasNamedText self pattern.now }
    {
        named_text(pattern, self)
    }

    fn unix_text(self) -> FormatBuf
        ensures { result.bytes ≡ Spec.decimal_text self.seconds }
    {
        short_buf(itoa::Buffer::new().format(self.seconds))
    }

    fn raw_text(self) -> Option<FormatBuf>
        ensures { option_map (λ text. text.bytes) result ≡ Spec.header_text self }
    {
        let text = header_text(self)?;
        Some(short_buf(text.as_str()))
    }

    fn unix_seconds(self, alloc: Global) -> Result<String, Error>
        ensures { Spec.PrintsSeconds self result }
    {
        copy_text(alloc, self.unix_text().as_str())
    }

    fn header(self, alloc: Global) -> Result<String, Error>
        ensures { Spec.PrintsHeader self result }
    {
        let text = header_text(self).ok_or(Error::OffsetTooWide)?;
        copy_text(alloc, text.as_str())
    }
}
