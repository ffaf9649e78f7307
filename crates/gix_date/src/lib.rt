//! Git's times: commit headers read and written, dates parsed, and times printed.
//!
//! [`parse_header`] reads a commit header leniently; [`is_canonical_header`] accepts only what Git writes. [`parse`]
//! reads a date in one of eleven forms. [`parse_with`] takes the rule for raw offsets, and [`parse_no_alloc`] needs no
//! allocator. [`Time::to_str`] and [`Time::write_to`] write a header, [`Time::format`] prints by a format, and
//! [`Time::now_local`] makes a time of a clock and a zone.
//!
//! ```
//! let time = parse_header("1660874655 +0800"); // Some(Time { seconds: 1660874655, offset: 28800 })
//! let lenient = parse_header("12abc");         // Some(Time { seconds: 12, offset: 0 })
//! let strict = parse(alloc, "12abc", None);    // Err(Error::UnknownFormat { .. })
//! let date = time?.format(alloc, ISO8601.into()); // Ok("2022-08-19 10:04:15 +0800")
//! ```
//!
//! Names and modules are those of the Rust crate gix-date 0.18.1, except for `parsing`, which is `parse` there.
//! `docs/RUST.md` lists what differs. The caller always passes clock and zone. A call takes memory only by
//! an allocator that it is given, or as a `Vec` that is written to grows.
#![tactic(auto)]

pub mod bytes;
pub mod clock;
pub mod device;
mod error;
pub mod laws;
pub mod names;
pub mod parsing;
pub mod time;

pub use error::{CarefulError, Error, InputBytes, ParseError};
pub use jiff::Zoned;
pub use parsing::careful::{CarefulOptions, Texts, WithoutOffset, parse_carefully};
pub use parsing::dates::{parse, parse_no_alloc, parse_unusual, parse_with};
pub use parsing::fast::usual_header_time;
pub use parsing::headers::{HeaderKind, header_kind, is_canonical_header, parse_header};
pub use parsing::numbers::{parse_short_digits, parse_ten_digits};
pub use parsing::raw::RawOffsets;
pub use parsing::usual::usual_date;
pub use time::{OffsetInSeconds, SecondsSinceUnixEpoch, Time};
