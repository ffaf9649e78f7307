//! A caller of `git_date` that reads the date of a mail.
ghost use Rattle.std.specs.Prelude.{◌≡◌, ◌++◌, ℕ, List, Ok, Err, IfSome, IfNone, codes};
ghost use Rattle.git_date.specs.declared.reader.ExactDate.{ExactDate as Read};
ghost use Rattle.git_date.specs.declared.error.DateError.{DateError as Refusal};
ghost use Rattle.git_date.specs as GitDate;

use git_date::parse_date;
use gix_date::{Time, Zoned};

/// When a mail was sent, by its line `Date: Thu, 07 Apr 2005 22:13:13 +0200`.
pub fn mail_time(line: &str, now: Zoned<'_>) -> Option<Time>
    ensures some { IfSome result (λ t. (text : List ℕ) × (date : Read) × (line.now ≡ codes "Date: " ++ text) × (date.time ≡ t)
        × GitDate.DateOutcome now.entry text (Ok date)) }
    ensures none { IfNone result ((text : List ℕ) → line.now ≡ codes "Date: " ++ text
        → (e : Refusal) × GitDate.DateOutcome now.entry text (Err e)) }
{
    let text = line.strip_prefix("Date: ")?;
    match parse_date(text.as_bytes(), now) {
        Ok(date) => Some(date.time),
        Err(_) => None,
    }
}
