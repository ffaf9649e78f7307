//! Signature lines of commits and tags: cut into name, email and time, and written from these.
//!
//! ```
//! let line = "A U Thor <author@example.com> 1660874655 +0800";
//! let author = SignatureRef::from_line(line)?; // name "A U Thor", email "author@example.com", time "1660874655 +0800"
//! let time = author.time_of()?;                // Time { seconds: 1660874655, offset: 28800 }
//! write_line(author.name, author.email, time, out)?; // the line again
//! ```
//!
//! No call here takes memory.
#![tactic(auto)]

mod error;
pub mod fsck;
pub mod ident;
pub mod laws;
mod lines;
pub mod object;
mod parts;

pub use error::{IdentFault, SignatureError};
pub use fsck::{FsckFault, FsckId, fsck_of};
pub use ident::bytes::is_kept;
pub use ident::usual::{UsualIdent, usual_ident};
pub use ident::written::{GitTimeText, push_offset_digits};
pub use ident::{DateParts, GitTime, IdentPlaces, IdentRef, number};
pub use lines::{SignatureRef, trimmed, write_ident, write_ident_as_is, write_line};
pub use object::{Role, RoleLines, named};
