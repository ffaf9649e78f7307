//! What expires, as in `gc.pruneExpire`.
ghost use Rattle.std.specs.Prelude.{◌≡◌};
ghost use Rattle.git_date.specs as Spec;

use crate::approximate::{Approximate, approxidate};
use crate::error::DateError;
use crate::tokens::up_to_nul;
use gix_date::Zoned;

/// What expires by a text such as `gc.pruneExpire` has.
#[derive(Clone, Copy, Debug, PartialEq, Eq)]
pub enum Expiry {
    /// Nothing.
    Never,
    /// All, however new it is.
    All,
    /// What is older than this date.
    Before(Approximate),
}

/// What the words say that are no dates here. By git-gc's manual `never` suppresses expiration, and `now` expires all at once.
fn fixed_expiry(text: &[u8]) -> Option<Expiry>
    ensures { result ≡ Spec.fixed_expiry text.now }
{
    if text == b"never".as_slice() || text == b"false".as_slice() {
        Some(Expiry::Never)
    } else if text == b"all".as_slice() || text == b"now".as_slice() {
        Some(Expiry::All)
    } else {
        None
    }
}

/// What a date says of which something was understood. Git refuses any other, too.
fn expiry_of(date: Result<Approximate, DateError>) -> Result<Expiry, DateError>
    ensures { result ≡ Spec.expiry_of date }
{
    let date = date?;
    if date.understood {
        Ok(Expiry::Before(date))
    } else {
        Err(DateError::Unreadable)
    }
}

/// Reads what expires, as Git reads `gc.pruneExpire` and `reflog expire --expire=`.
///
/// `never` and `false` are [`Expiry::Never`], `all` and `now` are [`Expiry::All`]: these words alone, in small letters. Any other
/// text is a date, read as by [`approxidate`](crate::approxidate), with its refusals; [`DateError::Unreadable`] if nothing of it
/// was understood. A NUL ends the text: `never\0x` is [`Expiry::Never`], which does not tell of it. A place that the answer has
/// is one where a character of the text begins. Takes no memory.
#[tactic(auto, using(crate::proofs::Guesses::Places::expiry_places))]
pub fn expiry_date(text: &[u8], now: Zoned<'_>) -> Result<Expiry, DateError>
    ensures answer { Spec.ExpiryOutcome now.entry text.now result }
    ensures places { Spec.HasExpiryPlacesIn text.now result }
{
    match fixed_expiry(up_to_nul(text).0) {
        Some(expiry) => Ok(expiry),
        None => expiry_of(approxidate(text, now)),
    }
}
