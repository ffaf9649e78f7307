//! Identity lines, as they are written again.
ghost use Rattle.std.specs.Prelude.{◌≡◌, ◌+◌, ◌≤◌, ◌∷◌, ◌++◌, [], codes, length, option_map};
ghost use Rattle.std.specs.Str.{bytes_eq};
ghost use Rattle.arrayvec.specs.ArrayString.{array_string_len};
ghost use Rattle.gix_signature.specs as Spec;

use super::bytes::line_len;
use super::{GitTime, IdentRef};
use crate::parts::is_part;
use arrayvec::ArrayString;
use gix_date::clock::push_two_digits;

/// The most bytes of a time's text: those of the least seconds, a space, a sign and ten digits.
const MAX_TIME_LEN: usize = 32;

/// A time as a line has it, in a buffer of its own. It is ASCII.
pub type GitTimeText = ArrayString<MAX_TIME_LEN>;

impl GitTime {
    /// The time as a line has it: the seconds in decimal, a space, and a sign with at least four digits. `-0000` is told from
    /// `+0000` by [`GitTime::minus_zero`]. Takes no memory.
    #[tactic(auto, using(crate::proofs::TimeTexts::any_offset))]
    pub fn text(self) -> GitTimeText
        ensures { result.bytes ≡ Spec.git_time_text self }
    {
        let mut text = ArrayString::new();
        text.push_str(itoa::Buffer::new().format(self.seconds));
        text.push_str(" ");
        text.push_str(self.mark());
        push_offset_digits(&mut text, "", self.offset);
        text
    }

    /// The sign of the written offset.
    fn mark(self) -> &'static str
        ensures { result.now ≡ Spec.offset_mark self ∷ [] }
    {
        if self.offset < 0 || self.minus_zero && self.offset == 0 {
            "-"
        } else {
            "+"
        }
    }
}

/// Appends a number in two digits or more.
fn push_from_two<const CAP: usize>(text: &mut ArrayString<CAP>, n: u32)
    requires { array_string_len text.old + length (Spec.digits_from_two n) ≤ CAP }
    ensures bytes { text.new.bytes ≡ text.old.bytes ++ Spec.digits_from_two n }
    ensures len { array_string_len text.new ≡ array_string_len text.old + length (Spec.digits_from_two n) }
{
    if n < 100 {
        push_two_digits(text, n as u8);
    } else {
        text.push_str(itoa::Buffer::new().format(n));
    }
}

/// Appends the digits of an offset's decimal number, with a text between its hours and its minutes: `0060`, `51800`.
pub fn push_offset_digits<const CAP: usize>(text: &mut ArrayString<CAP>, mark: &str, offset: i32)
    requires { array_string_len text.old + length (Spec.offset_digits mark.now offset) ≤ CAP }
    ensures bytes { text.new.bytes ≡ text.old.bytes ++ Spec.offset_digits mark.now offset }
    ensures len { array_string_len text.new ≡ array_string_len text.old + length (Spec.offset_digits mark.now offset) }
{
    let size = offset.unsigned_abs();
    push_from_two(text, size / 100);
    text.push_str(mark);
    push_two_digits(text, (size % 100) as u8);
}

impl IdentRef<'_> {
    /// Whether the line at the front of a text is the one that [`crate::write_ident_as_is`] writes of this name, this email and the
    /// time of this date. Where it is not, that call refuses these parts or writes other bytes. `false` without a date.
    pub fn comes_back(self, text: &[u8]) -> bool
        ensures { result ≡ Spec.is_line_of (Spec.whole_line text.now) (Spec.ident_text_of self.entry) }
    {
        let Some(date) = self.date else {
            return false;
        };
        let time = date.git_time().text();
        is_part(self.name)
            && is_part(self.email)
            && is_line_of(
                &text[..line_len(text)],
                self.name,
                self.email,
                time.as_str().as_bytes(),
            )
    }
}

/// Whether a line is that of a name, an email and a time.
#[tactic(auto, using(crate::proofs::Idents::Fronts::is_whole, crate::proofs::Idents::Fronts::is_not))]
fn is_line_of(line: &[u8], name: &[u8], email: &[u8], time: &[u8]) -> bool
    ensures { result ≡ bytes_eq line.now (Spec.line_of (record { name = name.now; email = email.now; time = time.now })) }
{
    match time_after(line, name, email) {
        Some(rest) => rest == time,
        None => false,
    }
}

/// What stands after a name, ` <`, an email and `> `.
#[tactic(auto, using(crate::proofs::Idents::Fronts::cut_both, crate::proofs::Idents::Fronts::cut_none))]
fn time_after<'a>(line: &'a [u8], name: &[u8], email: &[u8]) -> Option<&'a [u8]>
    ensures { Spec.CutsFront ((name.now ++ codes " <") ++ (email.now ++ codes "> ")) line.now (option_map (λ r. r.now) result) }
{
    match after_both(line, name, b" <") {
        Some(rest) => after_both(rest, email, b"> "),
        None => None,
    }
}

/// What stands after two texts at the front of another.
#[tactic(auto, using(crate::proofs::Idents::Fronts::cut_both, crate::proofs::Idents::Fronts::cut_none))]
fn after_both<'a>(text: &'a [u8], first: &[u8], second: &[u8]) -> Option<&'a [u8]>
    ensures { Spec.CutsFront (first.now ++ second.now) text.now (option_map (λ r. r.now) result) }
{
    match after(text, first) {
        Some(rest) => after(rest, second),
        None => None,
    }
}

/// What stands after a text at the front of another.
#[tactic(auto, using(crate::proofs::Idents::Fronts::cut))]
pub(crate) fn after<'a>(text: &'a [u8], front: &[u8]) -> Option<&'a [u8]>
    ensures { Spec.CutsFront front.now text.now (option_map (λ r. r.now) result) }
{
    text.strip_prefix(front)
}
