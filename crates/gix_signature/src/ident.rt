//! Identity lines of commits and tags, in the parts that Git shows.
ghost use Rattle.std.specs.Prelude.{◌≡◌, option_map, ◌≤◌, ◌≤ℤ◌, pos, int_lt, if◌then◌else◌, length, false, Some, IfSome};
ghost use Rattle.gix_signature.specs as Spec;
ghost use Rattle.std.specs.Char.{digit_value};
ghost use Rattle.std.specs.Str.Parse.{digits_value, signed_digits_value};
ghost use Rattle.gix_date.specs as GixDate;

pub(crate) mod bytes;
pub mod usual;
pub mod written;

use crate::error::IdentFault;
use bytes::{
    after_first, after_one, begins_with, begins_with_digit, begins_with_sign, blanks_len, cut_at,
    digits_len, last_blanks_len, line_len, place_of, tail_len, white_len,
};
use gix_date::Time;

/// The parts of an identity line that Git shows, each the slice of the text at its place.
#[derive(Debug, Clone, Copy)]
pub struct IdentRef<'a> {
    /// What stands before the first `<`, without the blanks at its end. It may be empty.
    pub name: &'a [u8],
    /// What stands between the first `<` and the next `>`, which may be empty.
    pub email: &'a [u8],
    /// The date after the last `>`; `None` where Git shows none.
    pub date: Option<DateParts<'a>>,
}

/// Where the parts of an identity line stand, in bytes from the front of its text. The name stands at the front.
#[derive(Debug, Clone, Copy, PartialEq, Eq)]
pub struct IdentPlaces {
    /// Where the email stands: after the first `<`.
    pub email: usize,
    /// Where the rest stands: after the email and its `>`.
    pub rest: usize,
    /// Where the seconds stand: after the last `>` and blanks. Without a date they would stand there.
    pub seconds: usize,
    /// Where the offset stands: after the digits of the seconds and blanks.
    pub offset: usize,
    /// Where the line ends: before its line feed or NUL.
    pub end: usize,
}

impl IdentPlaces {
    /// Where the parts stand that [`IdentRef::from_bytes`] gives of a text: those that it gives. Takes no memory.
    pub fn of(text: &[u8]) -> IdentPlaces
        ensures { result ≡ Spec.ident_places text.now }
    {
        let line = &text[..line_len(text)];
        let date = date_text(line);
        IdentPlaces {
            email: place_of(line, b'<') + 1,
            rest: line.len() - after_first(after_first(line, b'<'), b'>').len(),
            seconds: line.len() - date.len(),
            offset: line.len() - after_seconds(date).len(),
            end: line.len(),
        }
    }
}

/// The texts of a date, as they are written.
#[derive(Debug, Clone, Copy)]
pub struct DateParts<'a> {
    /// One or more digits: seconds since the epoch, of any size.
    pub seconds: &'a [u8],
    /// A sign, and one or more digits.
    pub offset: &'a [u8],
}

impl<'a> IdentRef<'a> {
    /// What Git shows of the line at the front of a text: it ends before the first line feed or NUL, or is all.
    ///
    /// `None` where Git finds no identity: no `<`, or no `>` after the first `<`. Bytes from 128 mean nothing, in UTF-8 or
    /// not. A blank is a space, tab, line feed or carriage return. Takes no memory.
    pub fn from_bytes(text: &'a [u8]) -> Option<IdentRef<'a>>
        ensures { option_map Spec.ident_text_of result ≡ Spec.ident_parts text.now }
    {
        IdentRef::of_line(&text[..line_len(text)])
    }

    /// The parts of a whole line.
    #[tactic(auto, unfolding(crate::specs::line_parts))]
    fn of_line(line: &'a [u8]) -> Option<IdentRef<'a>>
        ensures { option_map Spec.ident_text_of result ≡ Spec.line_parts line.now }
    {
        let (name, rest) = cut_at(line, b'<')?;
        let (email, _) = cut_at(rest, b'>')?;
        Some(IdentRef {
            name: without_last_blanks(name),
            email,
            date: date_parts(date_text(line)),
        })
    }
}

/// A text without the blanks at its end.
fn without_last_blanks(text: &[u8]) -> &[u8]
    ensures { result.now ≡ Spec.without_end Spec.is_blank text.now }
{
    &text[..text.len() - last_blanks_len(text)]
}

/// What stands after the last `>` of a line, and blanks.
fn date_text(line: &[u8]) -> &[u8]
    ensures { result.now ≡ Spec.date_text line.now }
{
    without_first_blanks(&line[line.len() - tail_len(line)..])
}

fn without_first_blanks(text: &[u8]) -> &[u8]
    ensures { result.now ≡ Spec.without_front Spec.is_blank text.now }
{
    &text[blanks_len(text)..]
}

/// The date at the front of a text: digits, blanks or none, a sign and digits.
#[tactic(auto, unfolding(crate::specs::date_parts))]
fn date_parts(text: &[u8]) -> Option<DateParts<'_>>
    ensures { option_map Spec.date_text_of result ≡ Spec.date_parts text.now }
{
    let rest = after_seconds(text);
    if !begins_with_digit(text) || !begins_with_offset(rest) {
        return None;
    }
    Some(DateParts {
        seconds: &text[..digits_len(text)],
        offset: &rest[..1 + digits_len(after_one(rest))],
    })
}

/// What stands after digits and blanks.
fn after_seconds(text: &[u8]) -> &[u8]
    ensures { result.now ≡ Spec.after_seconds text.now }
{
    without_first_blanks(&text[digits_len(text)..])
}

/// Whether a text begins with a sign, and a digit directly after it.
fn begins_with_offset(text: &[u8]) -> bool
    ensures { result ≡ Spec.begins_with_offset text.now }
{
    begins_with_sign(text) && begins_with_digit(after_one(text))
}

/// From so many seconds on Git shows none: 2^63.
pub(crate) const TOO_MANY_SECONDS: u64 = 9_223_372_036_854_775_808;

/// The widest offset, in minutes, whose seconds an `i32` holds.
const WIDEST_MINUTES: u32 = 35_791_394;

/// A time as Git keeps it of an identity line.
#[derive(Debug, Clone, Copy)]
pub struct GitTime {
    /// Seconds since the epoch: of a line from 0.
    pub seconds: i64,
    /// The offset as one decimal number, hours before the last two digits, minutes in them: `+0530` is 530.
    pub offset: i32,
    /// Whether a minus stands before an offset of 0, as in `-0000`. Beside another offset it means nothing.
    pub minus_zero: bool,
}

impl GitTime {
    /// A time of seconds and an offset's number, with a plus before 0.
    pub const fn new(seconds: i64, offset: i32) -> GitTime
        ensures { result ≡ record { seconds = seconds; offset = offset; minus_zero = false } }
    {
        GitTime {
            seconds,
            offset,
            minus_zero: false,
        }
    }

    /// The time of these seconds, with the offset in seconds. Minutes may be 60 and more: `+0060` is an hour.
    ///
    /// [`IdentFault::OffsetTooWide`] if the offset is more than 35791394 minutes, either way.
    #[tactic(auto, unfolding(crate::specs::time_of_git))]
    pub fn to_time(self) -> Result<Time, IdentFault>
        ensures { result ≡ Spec.time_of_git self }
    {
        let size = self.offset.unsigned_abs();
        let minutes = size / 100 * 60 + size % 100;
        if WIDEST_MINUTES < minutes {
            return Err(IdentFault::OffsetTooWide);
        }
        let offset = (60 * minutes) as i32;
        let offset = if self.offset < 0 { -offset } else { offset };
        Ok(Time {
            seconds: self.seconds,
            offset,
        })
    }
}

impl DateParts<'_> {
    /// The time that Git shows of a date. From 2^63 seconds on, seconds and offset are 0. An offset whose decimal number
    /// is below -2147483647 or above 2147483646 is 0.
    #[tactic(auto, unfolding(crate::specs::git_time))]
    pub fn git_time(self) -> GitTime
        ensures { result ≡ Spec.git_time (Spec.date_text_of self.entry) }
    {
        time_at(seconds_of(self.seconds), self.offset)
    }
}

/// The time of seconds and an offset's text, and the epoch without seconds.
fn time_at(seconds: Option<i64>, text: &[u8]) -> GitTime
    ensures { result ≡ Spec.git_time_at seconds (Spec.begins_with Spec.is_minus text.now) (signed_digits_value 10 text.now) }
{
    let Some(seconds) = seconds else {
        return GitTime::new(0, 0);
    };
    time_of(seconds, git_offset(text), text)
}

/// The time of seconds, and of the offset that Git keeps of a text.
pub(crate) fn time_of(seconds: i64, offset: i32, text: &[u8]) -> GitTime
    requires { offset ≡ Spec.kept_offset (signed_digits_value 10 text.now) }
    ensures { result ≡ Spec.git_time_at (Some seconds) (Spec.begins_with Spec.is_minus text.now) (signed_digits_value 10 text.now) }
{
    GitTime {
        seconds,
        offset,
        minus_zero: begins_with(text, b'-') && offset == 0,
    }
}

/// The seconds that digits write, if they are less than 2^63.
fn seconds_of(digits: &[u8]) -> Option<i64>
    ensures { result ≡ Spec.seconds_shown (digits_value 10 digits.now) }
{
    match number(digits) {
        Some(n) if n < TOO_MANY_SECONDS => Some(n as i64),
        _ => None,
    }
}

/// The offset that Git keeps of a sign and digits.
fn git_offset(text: &[u8]) -> i32
    ensures { result ≡ Spec.kept_offset (signed_digits_value 10 text.now) }
{
    match text {
        [b'-', digits @ ..] => -number_to(2_147_483_647, digits),
        [b'+', digits @ ..] => number_to(2_147_483_646, digits),
        digits => number_to(2_147_483_646, digits),
    }
}

/// The number that digits write, or 0 if it is more than a limit.
fn number_to(most: i32, digits: &[u8]) -> i32
    requires { pos 0 ≤ℤ most }
    ensures within { pos 0 ≤ℤ result }
    ensures value { result ≡ (if int_lt most (pos (digits_value 10 digits.now)) then pos 0 else pos (digits_value 10 digits.now)) }
{
    match number(digits) {
        Some(n) if n <= most as u64 => n as i32,
        _ => 0,
    }
}

/// The number that digits write, if 64 bits hold it. Takes no memory.
#[tactic(auto, using(std::proofs::lemmas::Int::Digits::digits_value_more, crate::proofs::Numbers::too_many, crate::proofs::Numbers::one_too_many, crate::proofs::Numbers::held))]
pub fn number(digits: &[u8]) -> Option<u64>
    ensures { result ≡ Spec.held_number (digits_value 10 digits.now) }
{
    let mut value = 0u64;
    for digit in digits {
        let Some(tens) = value.checked_mul(10) else {
            return None;
        };
        let Some(more) = tens.checked_add(u64::from(digit_value(*digit))) else {
            return None;
        };
        value = more;
    }
    Some(value)
}

/// The value of a digit. Bytes that are no digits have some value from 10.
fn digit_value(byte: u8) -> u8
    ensures value { result ≡ digit_value byte }
    ensures small { result ≤ 36 }
{
    match byte {
        b'0'..=b'9' => byte - b'0',
        b'A'..=b'Z' => byte - b'A' + 10,
        b'a'..=b'z' => byte - b'a' + 10,
        _ => 36,
    }
}

/// The number that C reads at the front of a text, and what stands after it.
#[tactic(auto, unfolding(crate::specs::c_number))]
pub(crate) fn c_number(text: &[u8]) -> Option<(u64, &[u8])>
    ensures value { GixDate.read_view result ≡ Spec.c_number text.now }
    ensures within { IfSome result (λ found. length found.1.now ≤ length text.now) }
{
    number_at_front(&text[white_len(text)..])
}

/// The number from its sign on.
fn number_at_front(text: &[u8]) -> Option<(u64, &[u8])>
    ensures value { GixDate.read_view result ≡ Spec.number_at_front text.now }
    ensures within { IfSome result (λ found. length found.1.now ≤ length text.now) }
{
    let digits = without_sign(text);
    if !begins_with_digit(digits) {
        return None;
    }
    let (digits, rest) = digits.split_at(digits_len(digits));
    Some((c_value(matches!(text, [b'-', ..]), digits), rest))
}

/// What 64 bits keep of digits, after a minus or not.
fn c_value(is_negated: bool, digits: &[u8]) -> u64
    ensures { result ≡ Spec.c_value is_negated (digits_value 10 digits.now) }
{
    match number(digits) {
        Some(n) if is_negated => n.wrapping_neg(),
        Some(n) => n,
        None => u64::MAX,
    }
}

/// A text without a sign at its front.
fn without_sign(text: &[u8]) -> &[u8]
    ensures value { result.now ≡ Spec.without_sign text.now }
    ensures within { length result.now ≤ length text.now }
{
    if begins_with_sign(text) {
        after_one(text)
    } else {
        text
    }
}
