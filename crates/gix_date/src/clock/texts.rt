//! The texts of a clock by the named formats, each appended to a buffer of any capacity.
ghost use Rattle.std.specs.Prelude.{◌≡◌, ◌+◌, ◌≤◌, ◌∷◌, ◌++◌, []};
ghost use Rattle.arrayvec.specs.ArrayString.{array_string_len};
ghost use Rattle.gix_date.specs as Spec;

use crate::clock::Clock;
use crate::clock::pieces::{
    clock_bytes, letters, push_ascii, push_clock, push_colon_offset, push_date, push_day,
    push_month, push_offset, push_pair, push_weekday, push_year,
};
use crate::names::{day_name, month_name};
use arrayvec::ArrayString;

/// Appends ` hh:mm:ss +hhmm`.
#[tactic(auto, using(std::proofs::lemmas::Int::ints, crate::proofs::Printing::Appended::appended))]
#[inline(always)]
fn push_clock_and_offset<const CAP: usize>(text: &mut ArrayString<CAP>, t: Clock)
    requires { array_string_len text.old + 15 ≤ CAP }
    ensures bytes { text.new.bytes
        ≡ text.old.bytes ++ Spec.space ∷ Spec.clock_text t.clock ++ Spec.space ∷ Spec.compact_offset_text t.offset }
    ensures len { array_string_len text.new ≡ array_string_len text.old + 15 }
{
    let [a, b, c, d, e, f, g, h] = clock_bytes(t);
    push_ascii(text, &[b' ', a, b, c, d, e, f, g, h]);
    push_offset(text, t.offset());
}

/// Appends `YYYY-MM-DD hh:mm:ss +hhmm`.
#[inline(always)]
pub fn push_iso8601<const CAP: usize>(text: &mut ArrayString<CAP>, t: Clock)
    requires { array_string_len text.old + 25 ≤ CAP }
    ensures bytes { text.new.bytes ≡ text.old.bytes ++ Spec.iso8601_text t }
    ensures len { array_string_len text.new ≡ array_string_len text.old + 25 }
{
    push_date(text, t);
    push_clock_and_offset(text, t);
}

/// Appends `YYYY-MM-DDThh:mm:ss+hh:mm`.
#[inline(always)]
pub fn push_iso8601_strict<const CAP: usize>(text: &mut ArrayString<CAP>, t: Clock)
    requires { array_string_len text.old + 25 ≤ CAP }
    ensures bytes { text.new.bytes ≡ text.old.bytes ++ Spec.iso8601_strict_text t }
    ensures len { array_string_len text.new ≡ array_string_len text.old + 25 }
{
    push_date(text, t);
    text.push('T');
    push_clock(text, t);
    push_colon_offset(text, t);
}

/// Appends ` YYYY hh:mm:ss +hhmm`.
#[inline(always)]
fn push_from_year<const CAP: usize>(text: &mut ArrayString<CAP>, t: Clock)
    requires { array_string_len text.old + 20 ≤ CAP }
    ensures bytes { text.new.bytes ≡ text.old.bytes ++ Spec.space ∷ Spec.four_digits t.date.year ++ Spec.space ∷ Spec.clock_text t.clock
        ++ Spec.space ∷ Spec.compact_offset_text t.offset }
    ensures len { array_string_len text.new ≡ array_string_len text.old + 20 }
{
    text.push(' ');
    push_year(text, t);
    push_clock_and_offset(text, t);
}

/// Appends ` Mmm YYYY hh:mm:ss +hhmm`.
#[inline(always)]
fn push_from_month<const CAP: usize>(text: &mut ArrayString<CAP>, t: Clock)
    requires { array_string_len text.old + 24 ≤ CAP }
    ensures bytes { text.new.bytes ≡ text.old.bytes ++ Spec.space ∷ Spec.month_name t.date.month
        ++ Spec.space ∷ Spec.four_digits t.date.year
        ++ Spec.space ∷ Spec.clock_text t.clock ++ Spec.space ∷ Spec.compact_offset_text t.offset }
    ensures len { array_string_len text.new ≡ array_string_len text.old + 24 }
{
    let [a, b, c] = letters(month_name(t.month()));
    push_ascii(text, &[b' ', a, b, c]);
    push_from_year(text, t);
}

/// Appends `Www, `.
#[inline(always)]
fn push_rfc2822_name<const CAP: usize>(text: &mut ArrayString<CAP>, t: Clock)
    requires { array_string_len text.old + 5 ≤ CAP }
    ensures bytes { text.new.bytes ≡ text.old.bytes ++ (Spec.day_name t.weekday ++ Spec.comma ∷ Spec.space ∷ []) }
    ensures len { array_string_len text.new ≡ array_string_len text.old + 5 }
{
    let [a, b, c] = letters(day_name(t.weekday()));
    push_ascii(text, &[a, b, c, b',', b' ']);
}

/// Appends `Www, DD Mmm YYYY hh:mm:ss +hhmm`.
#[inline(always)]
pub fn push_rfc2822<const CAP: usize>(text: &mut ArrayString<CAP>, t: Clock)
    requires { array_string_len text.old + 31 ≤ CAP }
    ensures bytes { text.new.bytes ≡ text.old.bytes ++ Spec.rfc2822_text t }
    ensures len { array_string_len text.new ≡ array_string_len text.old + 31 }
{
    push_rfc2822_name(text, t);
    push_pair(text, t.day());
    push_from_month(text, t);
}

/// Appends `Www, D Mmm YYYY hh:mm:ss +hhmm`, as Git does.
#[inline(always)]
pub fn push_git_rfc2822<const CAP: usize>(text: &mut ArrayString<CAP>, t: Clock)
    requires { array_string_len text.old + 31 ≤ CAP }
    ensures bytes { text.new.bytes ≡ text.old.bytes ++ Spec.git_rfc2822_text t }
    ensures len { array_string_len text.new ≤ array_string_len text.old + 31 }
{
    push_rfc2822_name(text, t);
    push_day(text, t);
    push_from_month(text, t);
}

/// Appends `Www Mmm DD YYYY hh:mm:ss +hhmm`.
#[inline(always)]
pub fn push_gitoxide<const CAP: usize>(text: &mut ArrayString<CAP>, t: Clock)
    requires { array_string_len text.old + 30 ≤ CAP }
    ensures bytes { text.new.bytes ≡ text.old.bytes ++ Spec.gitoxide_text t }
    ensures len { array_string_len text.new ≡ array_string_len text.old + 30 }
{
    push_weekday(text, t);
    push_month(text, t);
    push_pair(text, t.day());
    push_from_year(text, t);
}

/// Appends `Www Mmm D hh:mm:ss YYYY`, Git's default date without its offset.
#[inline(always)]
pub fn push_bare_default<const CAP: usize>(text: &mut ArrayString<CAP>, t: Clock)
    requires { array_string_len text.old + 24 ≤ CAP }
    ensures bytes { text.new.bytes ≡ text.old.bytes ++ Spec.bare_default_text t }
    ensures len { array_string_len text.new ≤ array_string_len text.old + 24 }
{
    push_weekday(text, t);
    push_month(text, t);
    push_day(text, t);
    text.push(' ');
    push_clock(text, t);
    text.push(' ');
    push_year(text, t);
}

/// Appends `Www Mmm D hh:mm:ss YYYY +hhmm`.
#[tactic(auto, using(std::proofs::lemmas::Int::ints, crate::proofs::Printing::Appended::joined_so, crate::proofs::Printing::Appended::appended, crate::proofs::Printing::Appended::dates_joined))]
#[inline(always)]
pub fn push_default<const CAP: usize>(text: &mut ArrayString<CAP>, t: Clock)
    requires { array_string_len text.old + 30 ≤ CAP }
    ensures bytes { text.new.bytes ≡ text.old.bytes ++ Spec.default_text t }
    ensures len { array_string_len text.new ≤ array_string_len text.old + 30 }
{
    push_bare_default(text, t);
    push_offset(text, t.offset());
}
