//! The fields of a row, taken one after the other.
use git_date::DateMode;
use gix_date::time::Format;
use gix_date::time::format::format_named;
use gix_date::{RawOffsets, Texts, Time, WithoutOffset};
use gix_signature::GitTime;
use jiff::Timestamp;
use std::str;

/// Fields, and how many of them are taken.
#[derive(Drop)]
pub(crate) struct Arguments<'a> {
    fields: &'a [Vec<u8>],
    taken: usize,
    /// Whether a field had to be a text and is none.
    pub(crate) wants_text: bool,
}

impl<'a> Arguments<'a> {
    pub(crate) fn new(fields: &'a [Vec<u8>]) -> Arguments<'a> {
        Arguments {
            fields,
            taken: 0,
            wants_text: false,
        }
    }

    /// Whether each field is taken.
    pub(crate) fn is_empty(&self) -> bool {
        self.fields.len() == self.taken
    }

    /// The bytes of the next field.
    pub(crate) fn bytes(&mut self) -> Option<&'a [u8]> {
        let field = self.fields.get(self.taken)?;
        self.taken = self.taken.saturating_add(1);
        Some(field.as_slice())
    }

    /// The next field, where it is a text.
    pub(crate) fn text(&mut self) -> Option<&'a str> {
        match str::from_utf8(self.bytes()?) {
            Ok(text) => Some(text),
            Err(_) => {
                self.wants_text = true;
                None
            }
        }
    }

    /// A time: its seconds and its offset.
    pub(crate) fn time(&mut self) -> Option<Time> {
        let seconds = self.text()?.parse().ok()?;
        let offset = self.text()?.parse().ok()?;
        Some(Time::new(seconds, offset))
    }

    /// A time of an identity line: its seconds and the decimal number of its offset.
    pub(crate) fn git_time(&mut self) -> Option<GitTime> {
        let seconds = self.text()?.parse().ok()?;
        let offset = self.text()?.parse().ok()?;
        Some(GitTime::new(seconds, offset))
    }

    /// An instant: its seconds and its nanoseconds.
    pub(crate) fn instant(&mut self) -> Option<Timestamp> {
        let seconds = self.text()?.parse().ok()?;
        let nanoseconds = self.text()?.parse().ok()?;
        Timestamp::new(seconds, nanoseconds).ok()
    }

    /// Rules for raw offsets: both, or the one of this name.
    pub(crate) fn rules(&mut self) -> Option<&'static [RawOffsets]> {
        match self.text()? {
            "both" => Some(&[RawOffsets::Quarter, RawOffsets::WholeMinutes]),
            "quarters" => Some(&[RawOffsets::Quarter]),
            "minutes" => Some(&[RawOffsets::WholeMinutes]),
            _ => None,
        }
    }

    /// What a date without an offset means.
    pub(crate) fn without_offset(&mut self) -> Option<WithoutOffset> {
        match self.text()? {
            "utc" => Some(WithoutOffset::Utc),
            "local" => Some(WithoutOffset::MomentsZone),
            _ => None,
        }
    }

    /// Which texts are read.
    pub(crate) fn texts(&mut self) -> Option<Texts> {
        match self.text()? {
            "careful" => Some(Texts::Careful),
            "all" => Some(Texts::All),
            _ => None,
        }
    }

    /// A way in which Git shows dates, by its name.
    pub(crate) fn mode(&mut self) -> Option<DateMode> {
        self.text()?.parse().ok()
    }

    /// Whether a clock is the zone's.
    pub(crate) fn is_local(&mut self) -> Option<bool> {
        match self.text()? {
            "local" => Some(true),
            "own" => Some(false),
            _ => None,
        }
    }

    /// A format, by its name.
    pub(crate) fn format(&mut self) -> Option<Format> {
        format_named(self.text()?)
    }
}
