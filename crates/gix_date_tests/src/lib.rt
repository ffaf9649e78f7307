//! Tests of what the rows of `gix_date_rows` cannot say.
#![tactic(auto)]

#[cfg(test)]
mod callers;
#[cfg(test)]
mod fakes;
#[cfg(test)]
mod laws;
#[cfg(test)]
mod library;
#[cfg(test)]
mod programs;
