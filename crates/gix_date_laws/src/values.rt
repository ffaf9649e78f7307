//! Laws of values: constants, limits, clones, equality, order and hash, and white space.
ghost use Rattle.std.specs.Prelude.{◌≡◌, pos, neg_ℤ, length, IfSome};
ghost use Rattle.gix_date.specs as GixDate;

use gix_date::Time;
use gix_date::parsing::TimeBuf;
use std::hash::Hash;

/// The seconds and offsets of the two constants and of the default, which is 0 with offset 0.
pub fn constants()
    ensures max { Time.MAX ≡ record { seconds = pos 9_223_372_036_854_775_807; offset = pos 359_999 } }
    ensures min { Time.MIN ≡ record { seconds = neg_ℤ (pos 9_223_372_036_854_775_808); offset = neg_ℤ (pos 359_999) } }
    ensures default_is { (t : Time) → ⟦<Time as Default>⟧.is_default t → t ≡ record { seconds = pos 0; offset = pos 0 } }
{}

/// The limits that contracts name, as numbers. The least time has the longest header text.
#[tactic(auto, using(crate::proofs::Printing::least_text))]
pub fn limits()
    ensures min_bare_epoch { GixDate.min_bare_epoch ≡ pos 100_000_000 }
    ensures max_raw_hours { GixDate.max_raw_hours ≡ 14 }
    ensures max_wide_hours { GixDate.max_wide_hours ≡ 23 }
    ensures max_wide_minutes { GixDate.max_wide_minutes ≡ 59 }
    ensures max_date_offset { GixDate.max_date_offset ≡ 86_340 }
    ensures offset_without_text { GixDate.hundred_hours ≡ 360_000 }
    ensures max_text_len { GixDate.max_text_len ≡ 26 }
    ensures text_of_min { IfSome (GixDate.header_text Time.MIN) (λ text. length text ≡ GixDate.max_text_len) }
{}

/// A clone of a time is that time, and one of a buffer holds the same text. No clone fails.
pub fn clones()
    ensures time { (a b : Time) → ⟦<Time as Clone>⟧.is_clone a b → b ≡ a }
    ensures time_succeeds { (a : Time) → ⟦<Time as Clone>⟧.is_infallible a }
    ensures buffer { (a b : TimeBuf) → ⟦<TimeBuf as Clone>⟧.is_clone a b → GixDate.text_in b ≡ GixDate.text_in a }
    ensures buffer_succeeds { (a : TimeBuf) → ⟦<TimeBuf as Clone>⟧.is_infallible a }
{}

/// Times are ordered by their seconds, and then by their offset. Two times are equal in this order iff `==` holds.
pub fn order()
    ensures by_parts { GixDate.ComparesParts ⟦<Time as Ord>⟧.cmp }
    ensures agrees { GixDate.AgreesWith ⟦<Time as Ord>⟧.cmp ⟦<Time as PartialEq>⟧.eq }
{}

/// Times are equal by `==` iff both numbers are the same.
pub fn equality()
    ensures time { GixDate.IsEquality ⟦<Time as PartialEq>⟧.eq }
{}

/// A time feeds a hasher its seconds and then its offset. So equal times hash alike.
pub fn hash()
    ensures input { GixDate.FeedsParts ⟦<Time as Hash>⟧.hash_input }
    ensures alike { GixDate.FeedsAlike ⟦<Time as PartialEq>⟧.eq ⟦<Time as Hash>⟧.hash_input }
{}

/// The white space between words is that of the standard library, which is Unicode's White_Space: these characters and
/// no others.
#[tactic(auto, using(crate::proofs::Letters::WhiteSpace::is_whitespace_listed))]
pub fn white_space()
    ensures { GixDate.StdWhiteSpaceIsUnicodes }
{}
