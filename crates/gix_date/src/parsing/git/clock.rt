//! The clock and the offset of a Git text.
ghost use Rattle.std.specs.Prelude.{◌≡◌, ◌<◌, ◌≤◌, ◌==◌, IfSome, [], ◌∷◌, Some, None, MatchOption};
ghost use Rattle.std.specs.Str.{IsUtf8};
ghost use Rattle.std.specs.Char.{is_ascii};
ghost use Rattle.std.specs.List.{list_all, before_first};
ghost use Rattle.gix_date.specs as Spec;
ghost use Rattle.jiff.specs.Words.{IsOffsetSeconds};

use crate::clock::ClockFields;
use crate::parsing::fields::{has_colon, trimmed};
use crate::parsing::numbers::{are_digits, parse_two_digits, read_two_digits};
use crate::parsing::offset::{OffsetFields, Sign, read_sign};
use crate::time::{MAX_HOUR, MAX_MINUTE, MAX_SECOND, OffsetInSeconds};

/// Reads the clock of a Git text: hours, and perhaps minutes and seconds, in digits alone. It ends at its first dot, if
/// there is one, white space may stand round it, and all of it is ASCII.
///
/// With a colon its parts stand between colons and have any width, one that is not there is 0, and those after the
/// third are ignored; without a colon it has two, four or six digits. `None` for any other text.
#[tactic(auto, unfolding(crate::specs::git_clock))]
pub(crate) fn parse_clock(text: &str) -> Option<ClockFields>
    ensures value { result ≡ Spec.git_clock text.now }
    ensures fits { IfSome result Spec.ClockFits }
{
    if let Some(clock) = usual_clock(text.as_bytes()) {
        return Some(clock);
    }
    parse_trimmed_clock(trimmed(before('.', text)))
}

/// The clock of `20:30:45` or `20:30`, as nearly all are. `None` means only that a text has another form.
#[inline(always)]
fn usual_clock(text: &[u8]) -> Option<ClockFields>
    requires { IsUtf8 text.now }
    ensures value { IfSome result (λ c. Spec.git_clock text.now ≡ Some c) }
    ensures fits { IfSome result Spec.ClockFits }
{
    match text {
        [a, b, colon, c, d, again, e, f] if *colon == b':' && *again == b':' => {
            let hour = parse_two_digits(*a, *b)?;
            let minute = parse_two_digits(*c, *d)?;
            let second = parse_two_digits(*e, *f)?;
            if hour > MAX_HOUR || minute > MAX_MINUTE || second > MAX_SECOND {
                return None;
            }
            Some(ClockFields {
                hour,
                minute,
                second,
            })
        }
        [a, b, colon, c, d] if *colon == b':' => {
            let hour = parse_two_digits(*a, *b)?;
            let minute = parse_two_digits(*c, *d)?;
            if hour > MAX_HOUR || minute > MAX_MINUTE {
                return None;
            }
            let second = 0;
            Some(ClockFields {
                hour,
                minute,
                second,
            })
        }
        _ => None,
    }
}

/// The clock of a text that has neither its dot nor white space round it.
#[tactic(auto, unfolding(crate::specs::trimmed_clock))]
fn parse_trimmed_clock(text: &str) -> Option<ClockFields>
    ensures value { result ≡ Spec.trimmed_clock text.now }
    ensures fits { IfSome result Spec.ClockFits }
{
    if !is_all_ascii(text) {
        return None;
    }
    if has_colon(text) {
        parse_clock_with_colons(text)
    } else {
        parse_clock_without_colons(text)
    }
}

fn is_all_ascii(text: &str) -> bool
    ensures { result ≡ list_all is_ascii text.now }
{
    text.bytes().all(|b| b.is_ascii())
}

/// What stands before this character, where it first stands.
fn before(mark: char, text: &str) -> &str
    requires { mark < 128 }
    ensures { result.now ≡ before_first (λ c. c == mark) text.now }
{
    match text.split_once(mark) {
        Some((front, _)) => front,
        None => text,
    }
}

/// A clock of parts between colons.
fn parse_clock_with_colons(text: &str) -> Option<ClockFields>
    ensures value { result ≡ Spec.clock_with_colons text.now }
    ensures fits { IfSome result Spec.ClockFits }
{
    let Some((hours, rest)) = text.split_once(':') else {
        return clock_of_fields(digits_at_most(MAX_HOUR, text), Some(0), Some(0));
    };
    let Some((minutes, seconds)) = rest.split_once(':') else {
        return clock_of_fields(
            digits_at_most(MAX_HOUR, hours),
            digits_at_most(MAX_MINUTE, rest),
            Some(0),
        );
    };
    let seconds = before(':', seconds);
    clock_of_fields(
        digits_at_most(MAX_HOUR, hours),
        digits_at_most(MAX_MINUTE, minutes),
        digits_at_most(MAX_SECOND, seconds),
    )
}

/// The clock of these fields, where there are all.
fn clock_of_fields(hour: Option<u8>, minute: Option<u8>, second: Option<u8>) -> Option<ClockFields>
    requires hour { IfSome hour (λ n. n ≤ 99) }
    requires minute { IfSome minute (λ n. n ≤ 99) }
    requires second { IfSome second (λ n. n ≤ 99) }
    ensures value { result ≡ Spec.clock_of_fields hour minute second }
    ensures fits { IfSome result Spec.ClockFits }
{
    match (hour, minute, second) {
        (Some(hour), Some(minute), Some(second)) => Some(ClockFields {
            hour,
            minute,
            second,
        }),
        _ => None,
    }
}

/// The number of digits alone, of any width, where it is at most this.
#[tactic(auto, using(crate::proofs::Git::ClockParts::field_no, crate::proofs::Git::ClockParts::field_none, crate::proofs::Git::ClockParts::over_most, crate::proofs::Git::ClockParts::up_to_most))]
fn digits_at_most(most: u8, text: &str) -> Option<u8>
    ensures value { result ≡ Spec.digits_at_most most text.now }
    ensures bound { IfSome result (λ n. n ≤ most) }
{
    if !are_digits(text.as_bytes()) {
        return None;
    }
    let number = text.parse::<u32>().ok()?;
    if number > u32::from(most) {
        return None;
    }
    Some(number as u8)
}

/// A clock of two, four or six digits.
#[tactic(auto, unfolding(crate::specs::clock_without_colons))]
fn parse_clock_without_colons(text: &str) -> Option<ClockFields>
    ensures value { result ≡ Spec.clock_without_colons text.now }
    ensures fits { IfSome result Spec.ClockFits }
{
    let (hour, rest) = read_two_digits(text)?;
    let (minute, rest) = read_pair_or_end(rest)?;
    let (second, rest) = read_pair_or_end(rest)?;
    if rest.is_empty() {
        Some(ClockFields {
            hour,
            minute,
            second,
        })
    } else {
        None
    }
}

/// Two digits, or 0 where nothing is left.
#[tactic(auto, unfolding(crate::specs::read_pair_or_end))]
fn read_pair_or_end(text: &str) -> Option<(u8, &str)>
    ensures value { Spec.read_view result ≡ Spec.read_pair_or_end text.now }
    ensures small { IfSome result (λ found. found.0 < 100) }
{
    if text.is_empty() {
        return Some((0, text));
    }
    read_two_digits(text)
}

/// Reads the offset of a Git text: 0 where it is empty or `Z`, else a sign and, once all colons are struck out, two
/// digits of hours up to 23 and perhaps two of minutes up to 59.
///
/// `None` for any other text.
#[tactic(auto, unfolding(crate::specs::git_offset))]
pub(crate) fn parse_git_offset(text: &str) -> Option<OffsetInSeconds>
    ensures value { result ≡ Spec.git_offset text.now }
    ensures offset_fits { IfSome result IsOffsetSeconds }
{
    if text.is_empty() || text == "Z" {
        return Some(0);
    }
    let (sign, rest) = read_sign(text)?;
    seconds_within_a_day(offset_of_digits(sign, rest.as_bytes())?)
}

/// The offset in seconds, where it is of less than a day.
#[tactic(auto, using(crate::proofs::Git::ClockParts::no_seconds))]
#[inline(always)]
fn seconds_within_a_day(fields: OffsetFields) -> Option<OffsetInSeconds>
    requires { fields.seconds ≡ None }
    ensures value { result ≡ Spec.offset_by Spec.is_within_a_day fields }
    ensures offset_fits { IfSome result IsOffsetSeconds }
{
    if fields.hours <= MAX_HOUR && fields.minutes <= MAX_MINUTE {
        Some(fields.in_seconds())
    } else {
        None
    }
}

/// Two digits of hours, or four of hours and minutes, among any colons.
fn offset_of_digits(sign: Sign, text: &[u8]) -> Option<OffsetFields>
    ensures value { result ≡ Spec.offset_of_digits sign (Spec.without_colons text.now) }
    ensures whole_minutes { IfSome result (λ f. f.seconds ≡ None) }
{
    let (h0, rest) = first_but_colons(text)?;
    let (h1, rest) = first_but_colons(rest)?;
    let hours = parse_two_digits(h0, h1);
    let Some((m0, rest)) = first_but_colons(rest) else {
        return fields_of(sign, hours, Some(0));
    };
    let (m1, rest) = first_but_colons(rest)?;
    if first_but_colons(rest).is_some() {
        return None;
    }
    fields_of(sign, hours, parse_two_digits(m0, m1))
}

fn fields_of(sign: Sign, hours: Option<u8>, minutes: Option<u8>) -> Option<OffsetFields>
    ensures value { result ≡ Spec.fields_of sign hours minutes }
    ensures whole_minutes { IfSome result (λ f. f.seconds ≡ None) }
{
    match (hours, minutes) {
        (Some(hours), Some(minutes)) => Some(OffsetFields {
            sign,
            hours,
            minutes,
            seconds: None,
        }),
        _ => None,
    }
}

/// The first byte that is no colon, and what stands after it.
fn first_but_colons(text: &[u8]) -> Option<(u8, &[u8])>
    ensures { MatchOption result (Spec.without_colons text.now ≡ [])
        (λ found. Spec.without_colons text.now ≡ found.0 ∷ Spec.without_colons found.1.now) }
{
    let mut rest = text;
    while let [b':', after @ ..] = rest {
        rest = after;
    }
    match rest {
        [] => None,
        [first, after @ ..] => Some((*first, after)),
    }
}
