//! The text of a time by a pattern of usual letters and of marks, without `jiff`.
ghost use Rattle.std.specs.Prelude.{◌≡◌, ◌+◌, ◌≤◌, ◌<◌, ◌++◌, [], length, IsTrue, IfSome};
ghost use Rattle.arrayvec.specs.ArrayString.{array_string_len};
ghost use Rattle.gix_date.specs as Spec;

use crate::clock::{
    Clock, letters, push_ascii, push_clock, push_date, push_hours, push_minutes, push_pair,
    push_spaced_day, push_year,
};
use crate::names::{day_name, month_name};
use crate::time::Time;
use crate::time::named::has_named_clock;
use arrayvec::ArrayString;

/// The text of a time by such a pattern: at most 120 bytes.
pub type PatternBuf = ArrayString<120>;

/// The most bytes that a letter shows, as `2022-08-18`.
const LETTER_ROOM: usize = 10;

/// Appends what a letter shows after its percent sign. `false` means only that it is no usual one.
#[tactic(auto, using(crate::proofs::Printing::Patterns::letters_go))]
#[inline(always)]
fn push_letter(out: &mut PatternBuf, letter: u8, t: Clock) -> bool
    requires { array_string_len out.old + 10 ≤ 120 }
    ensures { IsTrue result → Spec.ShowsLetter t letter out.old.bytes out.new.bytes }
{
    match letter {
        b'Y' => push_year(out, t),
        b'm' => push_pair(out, t.month()),
        b'd' => push_pair(out, t.day()),
        b'H' => push_pair(out, t.hour()),
        b'M' => push_pair(out, t.minute()),
        b'S' => push_pair(out, t.second()),
        b'F' => push_date(out, t),
        b'T' => push_clock(out, t),
        b'e' => push_spaced_day(out, t),
        b'a' => push_ascii(out, &letters(day_name(t.weekday()))),
        b'b' => push_ascii(out, &letters(month_name(t.month()))),
        b'z' => push_bare_offset(out, t),
        _ => return false,
    }
    true
}

/// Appends `+hhmm`.
#[inline(always)]
fn push_bare_offset(out: &mut PatternBuf, t: Clock)
    requires { array_string_len out.old + 5 ≤ 120 }
    ensures { out.new.bytes ≡ out.old.bytes ++ Spec.compact_offset_text t.offset }
{
    push_hours(out, t.offset());
    push_minutes(out, t.offset());
}

/// Appends what comes first in a pattern, a mark or a usual letter, and answers what is left. `None` says nothing.
#[inline(always)]
fn push_front<'a>(out: &mut PatternBuf, pattern: &'a [u8], t: Clock) -> Option<&'a [u8]>
    requires { 0 < length pattern.now }
    ensures { IfSome result (λ rest. Spec.ShowsFront t pattern.now rest.now out.old.bytes out.new.bytes) }
{
    if 120 - out.len() < LETTER_ROOM {
        return None;
    }
    let first = pattern[0];
    if first != b'%' {
        if first >= 128 {
            return None;
        }
        push_ascii(out, &[first]);
        return Some(&pattern[1..]);
    }
    if pattern.len() < 2 || !push_letter(out, pattern[1], t) {
        return None;
    }
    Some(&pattern[2..])
}

/// Appends what a pattern shows by a clock, if it is made of marks and of usual letters, and there is room.
#[inline(always)]
fn push_pattern(out: &mut PatternBuf, pattern: &[u8], t: Clock) -> bool
    requires { out.old.bytes ≡ [] }
    ensures { IsTrue result → Spec.IsShownByAll pattern.now t out.new.bytes }
{
    let mut rest = pattern;
    'fronts: while !rest.is_empty() {
        match push_front(out, rest, t) {
            Some(left) => rest = left,
            None => return false,
        }
    }
    true
}

/// Whether a pattern does not end with a directive that `jiff` alone shows, as zones do. So no clock is made in vain for these.
#[inline(always)]
fn ends_usually(pattern: &[u8]) -> bool {
    let len = pattern.len();
    if len < 3 {
        return true;
    }
    if pattern[len - 2] == b'%' {
        return is_usual(pattern[len - 1]);
    }
    pattern[len - 3] != b'%' || is_usual(pattern[len - 2])
}

fn is_usual(letter: u8) -> bool {
    matches!(
        letter,
        b'Y' | b'm' | b'd' | b'H' | b'M' | b'S' | b'F' | b'T' | b'e' | b'a' | b'b' | b'z'
    )
}

impl Time {
    /// Puts the text of [`Time::format_by_pattern`] into a buffer, without an allocator and without `jiff`.
    ///
    /// `true` where the pattern is made of ASCII and of `%Y`, `%m`, `%d`, `%e`, `%H`, `%M`, `%S`, `%F`, `%T`, `%a`, `%b` and `%z`, and
    /// [`Time::format_to_buf`] has a text of this time by a named format. `false` says nothing: the text may lack room, or be shown by
    /// `jiff` alone. Takes no memory.
    #[tactic(auto, using(crate::proofs::Printing::ShownTexts::named_text))]
    #[inline(never)]
    pub fn format_by_pattern_short(self, pattern: &str, out: &mut PatternBuf) -> bool
        ensures text { IsTrue result → Spec.IsPatternText self pattern.now out.new.bytes }
        ensures converts { IsTrue result → Spec.IsConvertible self }
    {
        out.clear();
        if !ends_usually(pattern.as_bytes()) || !has_named_clock(self) {
            return false;
        }
        push_pattern(out, pattern.as_bytes(), Clock::of(self))
    }
}
