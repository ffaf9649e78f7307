//! Replies to the lines of a stream: header texts of Git's times checked, dates parsed, or signature lines written
//! again.
#![tactic(auto)]

mod help;
pub mod laws;
mod program;
mod runs;

pub use laws::limits;
pub use program::arguments::{Mode, command};
pub use program::{execute, show_usage};
pub use runs::replies::{canonical_lines, replies_are_unique, unchanged_lines};
pub use runs::run;
pub use streams::{MAX_LINE_LEN, MAX_LINES, Status, ToolError};
