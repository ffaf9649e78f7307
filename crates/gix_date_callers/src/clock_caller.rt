//! A caller of what a clock shows: docs/CALLING.md says what it is for.
ghost use Rattle.std.specs.Prelude.{◌≡◌, ◌∷◌, ◌++◌, ◌↔◌, IsSome, IfSome};
ghost use Rattle.gix_date.specs as GixDate;

use arrayvec::ArrayString;
use gix_date::Time;
use gix_date::clock::{Clock, push_clock, push_weekday};

/// What a time's own clock shows. `None` unless the time round trips.
pub fn own_clock(time: Time) -> Option<Clock>
    ensures value { IfSome result (λ clock. clock ≡ GixDate.clock_of time) }
    ensures shown { IsSome result ↔ GixDate.RoundTrips time }
{
    if time.round_trips() {
        Some(Clock::of(time))
    } else {
        None
    }
}

/// The day of the week and the time of day by a time's own clock, as `Thu 12:45:06`.
pub fn day_and_clock(time: Time) -> Option<ArrayString<12>>
    ensures text { IfSome result (λ text. text.bytes
        ≡ GixDate.day_name (GixDate.clock_of time).weekday ++ GixDate.space ∷ GixDate.clock_text (GixDate.clock_of time).clock) }
    ensures shown { IsSome result ↔ GixDate.RoundTrips time }
{
    let clock = own_clock(time)?;
    let mut text = ArrayString::new();
    push_weekday(&mut text, clock);
    push_clock(&mut text, clock);
    Some(text)
}
