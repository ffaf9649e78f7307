//! Why a run ends before the end of its input.
ghost use Rattle.std.specs.Prelude.{◌≡◌};
ghost use Rattle.git_ident_tool.specs as Spec;

use streams::ToolError;

/// Why a run ends before the end of its input.
#[derive(Debug, Drop)]
pub enum Fault {
    /// The reader or writer refused, or memory was refused.
    Tool(ToolError),
    /// A line is no header of an object.
    Refused(HeaderFault),
    /// The input is no stream of objects.
    Stream(StreamFault),
}

/// Why a line is no header of an object, as `git cat-file --batch` prints it: an id, a kind and a size.
#[derive(Debug, Clone, Copy, PartialEq, Eq)]
pub enum HeaderFault {
    /// No kind stands after the first space, or the line is too long.
    BadHeader,
    /// What stands after the kind is no number of 64 bits.
    BadSize,
    /// An object is missing, or its id is the front of several.
    NoObject,
}

/// Why an input is no stream of objects.
#[derive(Debug, Clone, Copy, PartialEq, Eq)]
pub enum StreamFault {
    /// No newline stands after an object's contents.
    BadEnd,
    /// The input ends within an object.
    EarlyEnd,
    /// There are more than 18446744073709551615 objects or lines.
    TooMany,
}

impl HeaderFault {
    pub(crate) fn text(self) -> &'static str
        ensures { result.now ≡ Spec.header_words self }
    {
        match self {
            HeaderFault::BadHeader => "a line is no header of an object",
            HeaderFault::BadSize => "a header has no size below 18446744073709551616",
            HeaderFault::NoObject => "an object is missing or ambiguous",
        }
    }
}

impl StreamFault {
    pub(crate) fn text(self) -> &'static str
        ensures { result.now ≡ Spec.stream_words self }
    {
        match self {
            StreamFault::BadEnd => "no newline stands after an object",
            StreamFault::EarlyEnd => "the input ends within an object",
            StreamFault::TooMany => "there are more than 18446744073709551615 objects or lines",
        }
    }
}
