//! Identity lines of a repository's objects judged as `git fsck` does: what the program `git_ident` does.
#![tactic(auto)]

mod error;
mod header;
mod help;
mod judging;
pub mod laws;
mod program;
mod stream;
mod verdicts;

pub use error::{Fault, HeaderFault, StreamFault};
pub use judging::Judge;
pub use program::{execute, show_usage};
pub use verdicts::Telling;
