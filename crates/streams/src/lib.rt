//! What programs that serve lines share: the lines of an input, texts that wait to be sent, messages, faults and statuses.
//!
//! [`serve_lines`] gives each line of a reader to a [`Server`], and says how that ended. Nothing waits while it reads.
#![tactic(auto)]

mod blocks;
mod error;
mod lines;
mod messages;
mod program;
mod progress;
mod serving;
pub mod usual;

pub use error::ToolError;
pub use lines::{MAX_LINE_LEN, first_line, lines_are_unique, split_line};
pub use messages::{tell_fault, write_message};
pub use program::{NoMoment, Outbox, Status, moment, print, words};
pub use progress::serve_lines;
pub use serving::{MAX_LINES, Server, Stop};
