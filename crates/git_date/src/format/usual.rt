//! What formats usually ask for, each appended at once: letters, and marks between them.
ghost use Rattle.std.specs.Prelude.{◌≡◌, ◌+◌, ◌≤◌, ◌<◌, ◌++◌, Some, true, false, decimal, IfSome};
ghost use Rattle.arrayvec.specs.ArrayString.{array_string_len};
ghost use Rattle.git_date.specs as Spec;

use crate::format::begun::push_alone;
use crate::format::chunks::push_offset;
use crate::format::shown::Shown;
use arrayvec::ArrayString;
use gix_date::clock::{
    Clock, push_clock, push_date, push_month, push_two_digits, push_weekday, push_year,
};
use gix_date::names::{day_name, month_name};

/// The greatest length of what is shown at once, `2009-08-30`.
pub(crate) const USUAL_ROOM: usize = 10;

/// The length of what `%c` shows, `Thu Aug 18 12:45:06 2022`.
const DATE_AND_CLOCK_LEN: usize = 24;

/// The number that a usual letter shows in two digits.
#[inline(always)]
#[tactic(auto, unfolding(crate::specs::number))]
fn pair_of(letter: u8, shown: &Shown) -> Option<u8>
    ensures value { IfSome result (λ n. Spec.letter_text (Spec.shown_of shown.now) letter ≡ Some (Spec.filled true 2 (decimal n))) }
    ensures small { IfSome result (λ n. n < 100) }
{
    match letter {
        b'm' => Some(shown.clock.month()),
        b'd' => Some(shown.clock.day()),
        b'H' => Some(shown.clock.hour()),
        b'M' => Some(shown.clock.minute()),
        b'S' => Some(shown.clock.second()),
        _ => None,
    }
}

/// Appends what a letter shows, a usual one at once. `false` says nothing: nothing is appended.
#[tactic(auto, using(crate::proofs::Formats::Short::appended, crate::proofs::Formats::Short::two_filled, crate::proofs::Formats::Short::year_shown, crate::proofs::Formats::Short::four_filled, crate::proofs::Formats::Usual::day_shown, crate::proofs::Formats::Usual::month_shown, crate::proofs::Formats::Usual::clock_is_shown, crate::proofs::Formats::Usual::date_shown), unfolding(crate::specs::number))]
#[inline(always)]
pub(crate) fn push_letter<const CAP: usize>(
    out: &mut ArrayString<CAP>,
    letter: u8,
    shown: &Shown,
) -> bool
    requires { array_string_len out.old + 10 ≤ CAP }
    ensures { Spec.PushesLetter (Spec.letter_text (Spec.shown_of shown.now) letter) out.old.bytes out.new.bytes result }
{
    if let Some(pair) = pair_of(letter, shown) {
        push_two_digits(out, pair);
        return true;
    }
    match letter {
        b'Y' if 1000 <= shown.clock.year() => {
            push_year(out, shown.clock);
            true
        }
        b'a' => {
            out.push_str(day_name(shown.clock.weekday()));
            true
        }
        b'b' => {
            out.push_str(month_name(shown.clock.month()));
            true
        }
        b'T' => {
            know_pairs(shown.clock);
            push_clock(out, shown.clock);
            true
        }
        b'F' if 1000 <= shown.clock.year() => {
            know_pairs(shown.clock);
            push_date(out, shown.clock);
            true
        }
        b'z' => {
            push_offset(out, shown.clock.offset());
            true
        }
        b'e' | b'c' => push_rarer(out, letter, shown),
        _ => push_alone(out, letter, shown),
    }
}

/// The same of `%e` and `%c`, which are rarer. By itself, so that it does not slow down the others.
#[tactic(auto, using(crate::proofs::Formats::Short::appended, crate::proofs::Formats::Usual::spaced_shown), unfolding(crate::specs::number))]
#[inline(never)]
fn push_rarer<const CAP: usize>(out: &mut ArrayString<CAP>, letter: u8, shown: &Shown) -> bool
    requires { array_string_len out.old + 10 ≤ CAP }
    ensures { Spec.PushesLetter (Spec.letter_text (Spec.shown_of shown.now) letter) out.old.bytes out.new.bytes result }
{
    match letter {
        b'e' => {
            push_spaced_day(out, shown.clock);
            true
        }
        b'c' if 1000 <= shown.clock.year() && CAP - out.len() >= DATE_AND_CLOCK_LEN => {
            know_pairs(shown.clock);
            push_date_and_clock(out, shown.clock);
            true
        }
        _ => push_alone(out, letter, shown),
    }
}

/// Appends the day of the month, after a space in place of a zero.
#[tactic(auto, using(crate::proofs::Formats::Usual::spaced_two))]
#[inline(always)]
fn push_spaced_day<const CAP: usize>(out: &mut ArrayString<CAP>, t: Clock)
    requires { array_string_len out.old + 2 ≤ CAP }
    ensures bytes { out.new.bytes ≡ out.old.bytes ++ Spec.filled false 2 (decimal t.date.day) }
    ensures len { array_string_len out.new ≡ array_string_len out.old + 2 }
{
    let day = t.day();
    if day < 10 {
        out.push(' ');
        out.push(char::from(b'0' + day));
    } else {
        push_two_digits(out, day);
    }
}

/// Appends `Www Mmm DD hh:mm:ss YYYY`, with such a day.
#[inline(never)]
fn push_date_and_clock<const CAP: usize>(out: &mut ArrayString<CAP>, t: Clock)
    requires { array_string_len out.old + DATE_AND_CLOCK_LEN ≤ CAP }
    ensures { out.new.bytes ≡ out.old.bytes ++ Spec.date_and_clock_text t }
{
    push_weekday(out, t);
    push_month(out, t);
    push_spaced_day(out, t);
    out.push(' ');
    push_clock(out, t);
    out.push(' ');
    push_year(out, t);
}

/// Does nothing, and says that a clock's year has four digits at most, and its other numbers two.
#[inline(always)]
fn know_pairs(t: Clock)
    ensures year { t.date.year ≤ 9999 }
    ensures date { (t.date.month < 100) × (t.date.day < 100) }
    ensures clock { (t.clock.hour < 100) × (t.clock.minute < 100) × (t.clock.second < 100) }
{
    let _date = (t.year(), t.month(), t.day());
    let _clock = (t.hour(), t.minute(), t.second());
}
