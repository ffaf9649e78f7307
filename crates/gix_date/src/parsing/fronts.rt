//! Where a text that is not careful stops being so: at the end of the longest front that some form of a date has.
ghost use Rattle.std.specs.Prelude.{◌≡◌, ◌<◌, ◌-◌, length, option_copied, if◌then◌else◌, nat_lt, IsCharBoundary};
ghost use Rattle.gix_date.specs as Spec;

use crate::clock::is_date;
use crate::parsing::fields::skip_char;
use crate::parsing::git::clock::parse_git_offset;
use crate::parsing::git::read_front;
use crate::parsing::numbers::{read_field, read_two_digits, read_year, skip_digits};
use crate::parsing::patterns::fields::{
    read_clock, read_month, read_plain_date, skip_spaces, skip_weekday,
};
use crate::parsing::patterns::offset::{parse_date_offset, parse_rfc2822_zone};
use crate::parsing::patterns::skip_day_name;
use crate::time::{MAX_HOUR, MAX_MINUTE, MAX_SECOND};

/// The end of the longest front that a form of a date has, or pairs, which stop at `pairs_end`.
#[tactic(auto, using(crate::proofs::Careful::LeftTexts::git_left, crate::proofs::Careful::LeftTexts::iso8601_left, crate::proofs::Careful::LeftTexts::strict_left, crate::proofs::Careful::LeftTexts::rfc2822_left, crate::proofs::Careful::LeftTexts::gitoxide_left, crate::proofs::Careful::LeftTexts::default_left), unfolding(crate::specs::longest_front))]
pub(crate) fn longest_front(text: &str, pairs_end: usize) -> usize
    requires { IsCharBoundary text.now pairs_end }
    ensures place { result ≡ Spec.longest_front text.now pairs_end }
    ensures boundary { IsCharBoundary text.now result }
{
    let place = later(text, default_left(text), pairs_end);
    let place = later(text, gitoxide_left(text), place);
    let place = later(text, rfc2822_left(text), place);
    let place = later(text, strict_left(text), place);
    let place = later(text, iso8601_left(text), place);
    later(text, git_left(text), place)
}

/// The later of a place and of where the rest of a text begins.
#[tactic(auto, using(crate::proofs::Text::AsciiCuts::rest_begins), unfolding(crate::specs::IsRestOf))]
fn later(text: &str, rest: &str, place: usize) -> usize
    requires rest { Spec.IsRestOf text.now rest.now }
    requires boundary { IsCharBoundary text.now place }
    ensures place { result ≡ (if nat_lt place (length text.now - length rest.now) then length text.now - length rest.now else place) }
    ensures boundary { IsCharBoundary text.now result }
{
    let front = text.len() - rest.len();
    if place < front { front } else { place }
}

/// What is left of a text where its parts stop, one after the other: from there on, or all of it if they take all. The
/// last part is an offset.
macro_rules! left_by {
    ($text:ident, $rest:ident: $($part:pat = $read:expr),+ => $offset:expr) => {{
        let $rest = $text;
        $(
            let $part = $read else {
                return $rest;
            };
        )+
        if $offset.is_some() { $text } else { $rest }
    }};
}

/// What is left where one of Git's own forms stops.
fn git_left(text: &str) -> &str
    ensures { result.now ≡ Spec.left_by Spec.git_parts text.now text.now }
{
    left_by!(text, rest:
        Some(rest) = Some(skip_spaces(rest).unwrap_or(rest)),
        Some(rest) = skip_git_day(rest),
        Some(rest) = Some(skip_spaces(rest).unwrap_or(rest)),
        Some(rest) = skip_git_clock(rest),
        Some(rest) = Some(skip_spaces(rest).unwrap_or(rest))
        => parse_git_offset(rest))
}

/// What is left where ISO 8601 stops.
fn iso8601_left(text: &str) -> &str
    ensures { result.now ≡ Spec.left_by Spec.iso8601_parts text.now text.now }
{
    left_by!(text, rest:
        Some(rest) = skip_day(rest),
        Some(rest) = skip_spaces(rest),
        Some(rest) = skip_clock(rest),
        Some(rest) = skip_spaces(rest)
        => parse_date_offset(false, rest))
}

/// What is left where the strict form of ISO 8601 stops.
fn strict_left(text: &str) -> &str
    ensures { result.now ≡ Spec.left_by Spec.strict_parts text.now text.now }
{
    left_by!(text, rest:
        Some(rest) = skip_day(rest),
        Some(rest) = skip_char('T', rest),
        Some(rest) = skip_clock(rest)
        => parse_date_offset(true, rest))
}

/// What is left where RFC 2822 stops.
fn rfc2822_left(text: &str) -> &str
    ensures { result.now ≡ Spec.left_by Spec.rfc2822_parts text.now text.now }
{
    left_by!(text, rest:
        Some(rest) = Some(skip_day_name(rest).unwrap_or(rest)),
        Some((_, rest)) = read_field(rest),
        Some(rest) = skip_spaces(rest),
        Some((_, rest)) = read_month(rest),
        Some(rest) = skip_spaces(rest),
        Some((_, rest)) = read_year(rest),
        Some(rest) = skip_spaces(rest),
        Some((_, rest)) = read_clock(true, rest),
        Some(rest) = skip_spaces(rest)
        => parse_rfc2822_zone(rest))
}

/// What is left where gitoxide's form stops.
fn gitoxide_left(text: &str) -> &str
    ensures { result.now ≡ Spec.left_by Spec.gitoxide_parts text.now text.now }
{
    left_by!(text, rest:
        Some(rest) = skip_named_day(rest),
        Some((_, rest)) = read_month(rest),
        Some(rest) = skip_spaces(rest),
        Some((_, rest)) = read_field(rest),
        Some(rest) = skip_spaces(rest),
        Some((_, rest)) = read_year(rest),
        Some(rest) = skip_spaces(rest),
        Some(rest) = skip_clock(rest),
        Some(rest) = skip_spaces(rest)
        => parse_date_offset(false, rest))
}

/// What is left where Git's default form stops.
fn default_left(text: &str) -> &str
    ensures { result.now ≡ Spec.left_by Spec.default_parts text.now text.now }
{
    left_by!(text, rest:
        Some(rest) = skip_named_day(rest),
        Some((_, rest)) = read_month(rest),
        Some(rest) = skip_spaces(rest),
        Some((_, rest)) = read_field(rest),
        Some(rest) = skip_spaces(rest),
        Some(rest) = skip_clock(rest),
        Some(rest) = skip_spaces(rest),
        Some((_, rest)) = read_year(rest),
        Some(rest) = skip_spaces(rest)
        => parse_date_offset(false, rest))
}

/// A day of the calendar, `YYYY-M-D`.
#[tactic(auto, unfolding(crate::specs::skip_day))]
fn skip_day(text: &str) -> Option<&str>
    ensures { option_copied result ≡ Spec.skip_day text.now }
{
    let (date, rest) = read_plain_date(text)?;
    if is_date(date) { Some(rest) } else { None }
}

/// A clock of the day, `h:m:s`.
#[tactic(auto, unfolding(crate::specs::skip_clock))]
fn skip_clock(text: &str) -> Option<&str>
    ensures { option_copied result ≡ Spec.skip_clock text.now }
{
    let (clock, rest) = read_clock(false, text)?;
    if clock.hour <= MAX_HOUR && clock.minute <= MAX_MINUTE && clock.second <= MAX_SECOND {
        Some(rest)
    } else {
        None
    }
}

/// The name of a day, and spaces.
#[tactic(auto, unfolding(crate::specs::skip_named_day))]
fn skip_named_day(text: &str) -> Option<&str>
    ensures { option_copied result ≡ Spec.skip_named_day text.now }
{
    skip_spaces(skip_weekday(text)?)
}

/// A day of the calendar in one of Git's own forms, and the gap after it.
#[tactic(auto, unfolding(crate::specs::skip_git_day))]
fn skip_git_day(text: &str) -> Option<&str>
    ensures { option_copied result ≡ Spec.skip_git_day text.now }
{
    let (date, rest) = read_front(text)?;
    if is_date(date) { Some(rest) } else { None }
}

/// The clock of one of Git's own forms: digits, `h:m`, `h:m:s`, `h:m:s.digits` or `HHMMSS.digits`.
#[tactic(auto, unfolding(crate::specs::skip_git_clock))]
pub(crate) fn skip_git_clock(text: &str) -> Option<&str>
    ensures { option_copied result ≡ Spec.skip_git_clock text.now }
{
    if let Some(rest) = skip_bare_fraction(text) {
        return Some(rest);
    }
    let rest = skip_number(text)?;
    let Some(rest) = skip_marked(':', rest) else {
        return Some(rest);
    };
    let Some(rest) = skip_marked(':', rest) else {
        return Some(rest);
    };
    Some(skip_marked('.', rest).unwrap_or(rest))
}

/// `HHMMSS.` and digits.
#[tactic(auto, unfolding(crate::specs::skip_bare_fraction))]
fn skip_bare_fraction(text: &str) -> Option<&str>
    ensures { option_copied result ≡ Spec.skip_bare_fraction text.now }
{
    let (_, rest) = read_two_digits(text)?;
    let (_, rest) = read_two_digits(rest)?;
    let (_, rest) = read_two_digits(rest)?;
    skip_marked('.', rest)
}

/// A mark, and digits.
#[tactic(auto, unfolding(crate::specs::skip_marked))]
fn skip_marked(mark: char, text: &str) -> Option<&str>
    requires { mark < 128 }
    ensures { option_copied result ≡ Spec.skip_marked mark text.now }
{
    skip_number(skip_char(mark, text)?)
}

/// Digits.
#[tactic(auto, using(crate::proofs::Text::AsciiCuts::first_end, crate::proofs::Text::AsciiCuts::digit_is_ascii), unfolding(crate::specs::skip_number))]
fn skip_number(text: &str) -> Option<&str>
    ensures { option_copied result ≡ Spec.skip_number text.now }
{
    match text.as_bytes() {
        [digit, ..] if digit.is_ascii_digit() => Some(skip_digits(&text[1..])),
        _ => None,
    }
}
