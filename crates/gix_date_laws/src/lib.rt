//! More laws of `gix_date`, beside those of `gix_date::laws`: each is the contract of a function that does nothing.
//!
//! They stand in a crate of their own, so that a program that stands on `gix_date` does not prove them first.
#![tactic(auto)]

mod families;
mod formats;
mod relative;
mod values;

pub use families::{agree, comes_first, dispatched_by_rows, one_outcome, spelled, spelled_git};
pub use formats::{printed, short_read_back};
pub use relative::{
    careful_is_parsed, earlier, named_instants, named_once, spelled_careful, spelled_relative,
};
pub use values::{clones, constants, equality, hash, limits, order, white_space};
