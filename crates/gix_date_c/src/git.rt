//! Dates as Git reads and shows them, as `include/git_date.h` declares them.
ghost use Rattle.std.specs.Prelude.{◌≡◌};
ghost use Rattle.gix_date_c.specs as Spec;

mod ages;
pub(crate) mod dates;
mod lines;
mod offsets;
mod own;
pub(crate) mod show;

use crate::values::refusal::Refusal;
use crate::values::status::Status;
use git_date::DateError;

/// The refusal that C is told for one of Git's dates.
fn date_refusal(error: DateError) -> Refusal
    ensures { result ≡ Spec.date_refusal error }
{
    match error {
        DateError::Unreadable => Refusal::of(Status::Unreadable),
        DateError::NumberTooLarge(place) => Refusal::at(Status::NumberTooLarge, place),
        DateError::BackTooFar(place) => Refusal::at(Status::BackTooFar, place),
        DateError::YearRefused(place) => Refusal::at(Status::YearRefused, place),
        DateError::Range => Refusal::of(Status::GitRange),
    }
}

/// The place of what was ignored, or the greatest number if nothing was.
fn ignored_place(ignored: Option<usize>) -> usize
    ensures { result ≡ Spec.ignored_place ignored }
{
    match ignored {
        Some(place) => place,
        None => usize::MAX,
    }
}
