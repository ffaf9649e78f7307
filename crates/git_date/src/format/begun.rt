//! What a percent sign begins, appended where there is room for it.
ghost use Rattle.std.specs.Prelude.{◌≡◌, ◌++◌, max, IsTrue, IsFalse};
ghost use Rattle.git_date.specs as Spec;

use crate::format::chunks::made_chunk;
use crate::format::directives::Directive;
use crate::format::flags::{Flags, is_flag};
use crate::format::pieces::{Made, made_by};
use crate::format::shown::Shown;
use crate::format::texts::{push_name, push_number};
use arrayvec::ArrayString;

/// Appends a text, if there is room for it. One byte, as between most letters, needs no call.
#[inline(always)]
pub(crate) fn push_text<const CAP: usize>(out: &mut ArrayString<CAP>, text: &str) -> bool
    ensures pushed { IsTrue result → out.new.bytes ≡ out.old.bytes ++ text.now }
    ensures kept { IsFalse result → out.new.bytes ≡ out.old.bytes }
{
    if CAP - out.len() < text.len() {
        return false;
    }
    if text.len() == 1 {
        out.push_str(&text[..1]);
    } else {
        out.push_str(text);
    }
    true
}

/// Appends what a percent sign begins, if there is room for it. By itself, since it takes a text of its own.
#[inline(never)]
fn push_made<const CAP: usize>(out: &mut ArrayString<CAP>, made: Made, shown: &Shown) -> bool
    ensures pushed { IsTrue result → out.new.bytes ≡ out.old.bytes ++ Spec.piece_text (Spec.shown_of shown.now) (Spec.Begun made) }
    ensures kept { IsFalse result → out.new.bytes ≡ out.old.bytes }
{
    push_text(out, made_chunk(made, shown).as_str())
}

/// The same, where names and numbers need no text of their own.
pub(crate) fn push_begun<const CAP: usize>(
    out: &mut ArrayString<CAP>,
    made: Made,
    shown: &Shown,
) -> bool
    ensures pushed { IsTrue result → out.new.bytes ≡ out.old.bytes ++ Spec.piece_text (Spec.shown_of shown.now) (Spec.Begun made) }
    ensures kept { IsFalse result → out.new.bytes ≡ out.old.bytes }
{
    let room = CAP - out.len();
    match made {
        Made::Directive(Directive::Name(name), flags) if room >= most_len(flags) => {
            push_name(out, name, flags, shown.clock);
            true
        }
        Made::Directive(Directive::Number(number), flags) if room >= most_len(flags) => {
            push_number(out, number, flags, shown.clock);
            true
        }
        _ => push_made(out, made, shown),
    }
}

/// The greatest length of a name or a number with these flags.
fn most_len(flags: Flags) -> usize
    ensures { result ≡ max 9 flags.width }
{
    usize::from(flags.width.max(9))
}

/// Appends what a letter shows that stands alone after its percent sign. `false` means only that it is no such letter, or that
/// there is no room: nothing is appended.
#[inline(never)]
#[tactic(auto, unfolding(crate::specs::number))]
pub(crate) fn push_alone<const CAP: usize>(
    out: &mut ArrayString<CAP>,
    letter: u8,
    shown: &Shown,
) -> bool
    ensures { Spec.PushesLetter (Spec.letter_text (Spec.shown_of shown.now) letter) out.old.bytes out.new.bytes result }
{
    if is_flag(letter) || letter.is_ascii_digit() {
        return false;
    }
    match made_by(0, &[], &[], letter) {
        Ok(made) => push_begun(out, made, shown),
        Err(_) => false,
    }
}
