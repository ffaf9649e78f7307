//! The calls of `gix_date`, `gix_signature` and `git_date` for C, as `include/gix_date.h` and `include/git_date.h` declare
//! them.
//!
//! A text is bytes, given by a pointer and a length, which need not be UTF-8: `Status::NotText` where they are not. A
//! call answers the number of a [`Status`]. No call has a condition that C would have to meet but for its pointers and
//! lengths, which have to be valid, and none keeps a pointer.
#![tactic(auto)]

mod careful;
mod git;
mod handle;
mod header;
mod ident;
mod laws;
mod lines;
mod moment;
mod parse;
mod print;
mod signature;
mod values;
mod version;
mod zone;
