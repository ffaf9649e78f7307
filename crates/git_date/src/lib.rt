//! Dates as Git itself reads them.
//!
//! [`parse_date`] reads what Git's own exact reader reads: the dates of `GIT_COMMITTER_DATE` and of mails, and nearly all
//! that `git commit --date` is given. In every zone each answer is Git's, as it reads the first date of a process, or a
//! refusal by name ([`DateError`]); but by a rule of `TZ` `jiff` has daylight saving time before 1970 too.
//!
//! So dates of people are looked for with the daylight flag that the clock showed last: in Berlin, said at 10:00 in
//! November, `3 months ago` is at 11:00.
//!
//! ```
//! let now = Time::new(1251660000, 0).to_zoned()?;
//! parse_date(b"Thu, 07 Apr 2005 22:13:13 +0200", now); // Ok, with the time 1112904793 +0200
//! parse_date(b"2008-02-14 20:30:45 EST", now);         // Ok, with the time 1203039045 -0500
//! parse_date(b"2008-02-14 20:30:45 IST", now);         // Ok, with 1203021045 +0000 and Some(20): `IST` was ignored
//! parse_date(b"2008-02-14", now);                      // Err(DateError::Unreadable): no clock
//! ```
//!
//! [`approxidate`] reads what people write, as Git reads `--since` and `REF@{..}`: `yesterday noon`, `2 weeks ago`. It says which
//! word Git passes over ([`Approximate::ignored`]).
//!
//! ```
//! approxidate(b"last friday at noon", now); // Ok, with the time 1251460800 +0000
//! approxidate(b"5 mins ago", now);          // Ok, with 1249500000 +0000 and Some(2): Git knows no `mins`, so this is the 5th
//! ```
//!
//! [`show_date`] shows a date as `git log --date=MODE` does, and [`show_by_format`] as `--date=format:PATTERN` does.
//!
//! The text of a date is bytes, UTF-8 or not, as in Git: each byte that is not ASCII is a mark, and a NUL ends the text. The
//! moment and its zone are handed in, as for [`gix_date::parse`]. No call here takes memory, but for
//! [`text_by_format`] and [`text_by_format_in_zone`].
#![tactic(auto)]

mod approximate;
mod clocks;
mod error;
mod fast;
mod fields;
mod format;
mod mode;
mod reader;
mod show;
mod tokens;
mod zone_texts;
mod zones;

pub use approximate::{Approximate, Expiry, approxidate, expiry_date};
pub use error::DateError;
pub use format::{
    BriefText, DateFormat, FormatFault, ShortText, ShowError, show_by_format, text_by_format,
    text_by_format_brief, text_by_format_in_zone, text_by_format_short,
};
pub use mode::{DateKind, DateMode, UnknownMode};
pub use reader::{ExactDate, parse_date, parse_date_at};
pub use show::{
    Age, DateText, OffsetText, OwnDateError, OwnDateText, age_at, offset_text, show_date,
    show_date_at, show_git_time,
};
pub use zone_texts::{
    MACHINE_ZONE, TableError, ZONE_FOLDER, offset_from_decimal, offset_to_decimal, parse_offset,
    zone_file, zone_folder, zone_of_text, zone_table, zone_without_file,
};
pub use zones::offset_in;
