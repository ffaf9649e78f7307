//! Why a run ends before the end of its input.
ghost use Rattle.std.specs.Prelude.{◌≡◌};
ghost use Rattle.streams.specs as Spec;

use std::io;
use std::io::ErrorKind;
use thiserror::Error;

/// Why a run refuses.
#[derive(Debug, Drop, Error)]
#[error("{}{}", self.text(), self.cause())]
pub enum ToolError {
    /// The reader refused, and this is its fault.
    Read(io::ErrorKind),
    /// The writer refused, and this is its fault.
    Write(io::ErrorKind),
    /// Memory for a line was asked for and refused.
    Memory,
    /// A line has more than 65536 bytes.
    LineTooLong,
    /// There are more than 1000000 lines.
    TooManyLines,
}

impl ToolError {
    /// What has failed, and after too many lines how to go on.
    pub fn text(&self) -> &'static str
        ensures { result.now ≡ Spec.fault_words self.now }
    {
        match self {
            ToolError::Read(_) => "reading failed: ",
            ToolError::Write(_) => "writing failed: ",
            ToolError::Memory => "out of memory",
            ToolError::LineTooLong => "a line has more than 65536 bytes",
            ToolError::TooManyLines => {
                "there are more than 1000000 lines; `split -l 1000000 --filter` runs a program on so many at a time"
            }
        }
    }

    /// What the fault of a reader or writer is called, and nothing of another.
    pub fn cause(&self) -> &'static str
        ensures { result.now ≡ Spec.cause_words self.now }
    {
        match self {
            ToolError::Read(kind) => kind_text(*kind),
            ToolError::Write(kind) => kind_text(*kind),
            ToolError::Memory => "",
            ToolError::LineTooLong => "",
            ToolError::TooManyLines => "",
        }
    }
}

/// What a kind of fault is called, in the words of the standard library, which promises no text for it: so this is a
/// table of our own. A closed stream has no kind, so the last row says that it may be one.
#[tactic(auto, unfolding(crate::specs::kind_words))]
pub(crate) fn kind_text(kind: ErrorKind) -> &'static str
    ensures { result.now ≡ Spec.kind_words kind }
{
    match kind {
        ErrorKind::NotFound => "entity not found",
        ErrorKind::PermissionDenied => "permission denied",
        ErrorKind::ConnectionRefused => "connection refused",
        ErrorKind::ConnectionReset => "connection reset",
        ErrorKind::HostUnreachable => "host unreachable",
        ErrorKind::NetworkUnreachable => "network unreachable",
        ErrorKind::ConnectionAborted => "connection aborted",
        ErrorKind::NotConnected => "not connected",
        ErrorKind::AddrInUse => "address in use",
        ErrorKind::AddrNotAvailable => "address not available",
        ErrorKind::NetworkDown => "network down",
        ErrorKind::BrokenPipe => "broken pipe",
        ErrorKind::AlreadyExists => "entity already exists",
        ErrorKind::WouldBlock => "operation would block",
        ErrorKind::NotADirectory => "not a directory",
        ErrorKind::IsADirectory => "is a directory",
        ErrorKind::DirectoryNotEmpty => "directory not empty",
        ErrorKind::ReadOnlyFilesystem => "read-only filesystem or storage medium",
        ErrorKind::FilesystemLoop => "filesystem loop or indirection limit (e.g. symlink loop)",
        ErrorKind::StaleNetworkFileHandle => "stale network file handle",
        ErrorKind::InvalidInput => "invalid input parameter",
        ErrorKind::InvalidData => "invalid data",
        ErrorKind::TimedOut => "timed out",
        ErrorKind::WriteZero => "write zero",
        ErrorKind::StorageFull => "no storage space",
        ErrorKind::NotSeekable => "seek on unseekable file",
        ErrorKind::QuotaExceeded => "quota exceeded",
        ErrorKind::FileTooLarge => "file too large",
        ErrorKind::ResourceBusy => "resource busy",
        ErrorKind::ExecutableFileBusy => "executable file busy",
        ErrorKind::Deadlock => "deadlock",
        ErrorKind::CrossesDevices => "cross-device link or rename",
        ErrorKind::TooManyLinks => "too many links",
        ErrorKind::InvalidFilename => "invalid filename",
        ErrorKind::ArgumentListTooLong => "argument list too long",
        ErrorKind::Interrupted => "operation interrupted",
        ErrorKind::Unsupported => "unsupported",
        ErrorKind::UnexpectedEof => "unexpected end of file",
        ErrorKind::OutOfMemory => "out of memory",
        ErrorKind::InProgress => "in progress",
        ErrorKind::Other => "other error",
        ErrorKind::Uncategorized => "uncategorized error, as of a closed stream",
    }
}
