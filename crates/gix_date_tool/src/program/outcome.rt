//! How the program ends.
use crate::program::arguments::WrongWords;
use streams::ToolError;

/// How the program ends, before its status and message.
#[derive(Drop)]
pub(crate) enum Outcome {
    /// The run came to the end of the input.
    Replied,
    /// The run has this fault, or the writer refused the usage line, the help or the version.
    Fault(ToolError),
    /// The help or the version was written.
    Printed,
    /// The usage line was written, for this reason.
    Shown(WrongWords),
}
