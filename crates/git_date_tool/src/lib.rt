//! Dates read as Git reads them, and shown: what the program `git_date` does.
#![tactic(auto)]

mod answers;
mod help;
pub mod laws;
mod program;
mod runs;
mod zones;

pub use answers::refusals::Refusal;
pub use answers::warnings::{Numbered, Warning};
pub use answers::{
    Answer, DateLine, NoWay, Query, Reader, Shown, Strictness, answer_line, shown_named,
};
pub use program::{execute, show_usage};
