//! Callers of `gix_date`, `gix_signature` and `git_date` that are proved, as the documents quote or name them.
#![tactic(auto)]

pub mod approximate_caller;
pub mod caller;
pub mod clock_caller;
pub mod git_date_caller;
pub mod header_caller;
pub mod instant_caller;
pub mod mail_caller;
pub mod more_callers;
pub mod readme;
pub mod signature_caller;
