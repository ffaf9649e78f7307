//! What calls answer, compared apart from the tests: a test that held the texts would drop each on every path that leaves it. So an
//! assertion is a call, and no path of its own.
use gix_date::Error;
use gix_date::parsing::TimeBuf;
use std::alloc::Global;
use std::fmt::{Debug, Display};
use std::io::ErrorKind;
use std::process::Abort;

/// A fault of `gix_date` without the text that it may carry.
#[derive(Clone, Copy, PartialEq)]
pub enum Fault {
    UnknownFormat,
    DateConversion,
    InvalidTime,
    MissingNow,
    Conversion,
    Range,
    OffsetTooWide,
    Pattern,
    Write(ErrorKind),
    Memory,
}

fn fault_of(error: &Error) -> Fault {
    match error {
        Error::UnknownFormat { .. } => Fault::UnknownFormat,
        Error::DateConversion { .. } => Fault::DateConversion,
        Error::InvalidTime => Fault::InvalidTime,
        Error::MissingNow => Fault::MissingNow,
        Error::Conversion => Fault::Conversion,
        Error::Range => Fault::Range,
        Error::OffsetTooWide => Fault::OffsetTooWide,
        Error::Pattern => Fault::Pattern,
        Error::Write(kind) => Fault::Write(*kind),
        Error::Memory => Fault::Memory,
    }
}

/// Whether a call answers this fault.
pub fn fails<T: Drop>(answer: Result<T, Error>, fault: Fault) -> bool {
    match answer {
        Ok(_) => false,
        Err(error) => fault_of(&error) == fault,
    }
}

/// Whether a call answers this text.
pub fn reads<E: Drop>(answer: Result<String, E>, text: &str) -> bool {
    match answer {
        Ok(read) => read.as_str() == text,
        Err(_) => false,
    }
}

/// Whether a call answers a buffer of this header.
pub fn holds<E: Drop>(answer: Result<TimeBuf, E>, header: &str) -> bool {
    matches!(answer.ok(), Some(buf) if buf.as_str() == header)
}

/// Whether this text shows the value.
pub fn shows<T: Display>(alloc: Global, value: &T, text: &str) -> bool {
    reads(format!(in alloc; "{value}"), text)
}

/// Whether this is the debug form of the value.
pub fn debugs<T: Debug>(alloc: Global, value: &T, form: &str) -> bool {
    reads(format!(in alloc; "{value:?}"), form)
}

/// Whether the value has a debug form with this in it, which is more than nothing.
pub fn debug_has<T: Debug>(alloc: Global, value: &T, part: &str) -> bool {
    match format!(in alloc; "{value:?}") {
        Ok(form) => !form.is_empty() && form.contains(part),
        Err(_) => false,
    }
}

/// Ends the test where this is not so.
pub fn check(rt: &impl Abort, is_so: bool) {
    assert!(rt; is_so);
}

/// Ends the test where this is not so, and tells of what.
pub fn check_at<T: Debug>(rt: &impl Abort, is_so: bool, what: &T) {
    assert!(rt; is_so, "{what:?}");
}

/// Each value with the text that shows it, and with its debug form.
pub fn all_show<T: Display + Debug>(rt: &impl Abort, alloc: Global, rows: &[(T, &str, &str)]) {
    for (value, text, form) in rows {
        assert!(rt; shows(alloc, value, text), "{text}");
        assert!(rt; debugs(alloc, value, form), "{form}");
    }
}
