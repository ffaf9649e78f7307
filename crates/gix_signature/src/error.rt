//! Why a line is not written.
use std::io;
use thiserror::Error;

/// Why [`crate::write_line`] refuses.
#[derive(Debug, Drop, Error)]
pub enum SignatureError {
    /// The name or the email holds `<`, `>`, a newline or NUL, so a line of it has no cut.
    #[error("a name or email may not hold `<`, `>`, a newline or NUL")]
    BadPart,
    /// The offset is 100 hours or more, so four digits cannot say it.
    #[error("an offset of 100 hours or more from UTC cannot be written")]
    OffsetTooWide,
    /// The writer refused, and this is its fault.
    #[error("writing failed: {0}")]
    Write(io::ErrorKind),
}

/// Why [`crate::lines::write_ident`] writes no line, or [`crate::ident::GitTime::to_time`] makes no time.
#[derive(Debug, Drop, Error)]
pub enum IdentFault {
    /// The name or the email holds NUL, at which a text ends for Git.
    #[error("a name or email may not hold NUL")]
    NulInPart,
    /// The name has no bytes.
    #[error("the name is empty")]
    EmptyName,
    /// The name holds only bytes that Git cuts off its ends.
    #[error("the name consists only of disallowed characters")]
    OnlyCrud,
    /// The time lies before 1970, so Git cannot hold its seconds.
    #[error("a time before 1970 cannot be written")]
    BeforeEpoch,
    /// The offset is 100 hours or more where a line is written, or more than 35791394 minutes where a time is made.
    #[error("the offset is too wide")]
    OffsetTooWide,
    /// The writer refused, and this is its fault.
    #[error("writing failed: {0}")]
    Write(io::ErrorKind),
}
