//! What is shown of a clock alone, and of seconds and an offset.
ghost use Rattle.std.specs.Prelude.{◌≡◌, ◌<◌, ◌≤◌, [], true, unsigned_abs};
ghost use Rattle.arrayvec.specs.ArrayString.{array_string_len};
ghost use Rattle.git_date.specs as Spec;
ghost use Rattle.gix_date.specs as GixDate;

use crate::mode::DateKind;
use crate::show::DateText;
use arrayvec::ArrayString;
use gix_date::Time;
use gix_date::clock::{
    Clock, push_bare_default, push_date, push_git_rfc2822, push_iso8601, push_iso8601_strict,
    push_offset,
};

/// The offset by which Git marks that it is unknown, `-0001`.
const UNKNOWN_OFFSET: i32 = -60;

/// `Www Mmm D hh:mm:ss YYYY +hhmm`, without the offset if it is the zone's, or unknown.
fn push_git_default(text: &mut DateText, local: bool, t: Clock)
    requires { text.old.bytes ≡ [] }
    ensures { text.new.bytes ≡ Spec.git_default_text local t }
{
    push_bare_default(text, t);
    if !local && t.offset() != UNKNOWN_OFFSET {
        push_offset(text, t.offset());
    }
}

/// What is shown of a clock by a kind that shows nothing else.
#[inline(always)]
pub(crate) fn push_clock_text(text: &mut DateText, kind: DateKind, local: bool, t: Clock)
    requires kind { Spec.is_clock_kind kind ≡ true }
    requires empty { text.old.bytes ≡ [] }
    ensures { text.new.bytes ≡ Spec.clock_text kind local t }
{
    match kind {
        DateKind::Default => push_git_default(text, local, t),
        DateKind::Short => push_date(text, t),
        DateKind::Iso8601 => push_iso8601(text, t),
        DateKind::Iso8601Strict => push_iso8601_strict(text, t),
        DateKind::Rfc2822 => push_git_rfc2822(text, t),
        DateKind::Relative | DateKind::Human | DateKind::Unix | DateKind::Raw => unreachable!(),
    }
}

/// The seconds in decimal.
pub(crate) fn unix_text(seconds: i64) -> DateText
    ensures bytes { result.bytes ≡ GixDate.decimal_text seconds }
    ensures len { array_string_len result ≤ 20 }
{
    let mut text = ArrayString::new();
    text.push_str(itoa::Buffer::new().format(seconds));
    text
}

/// The header text of a time: the seconds in decimal, and ` +hhmm`.
#[tactic(auto, unfolding(gix_date::specs::header_text))]
pub(crate) fn raw_text(seconds: i64, offset: i32) -> DateText
    requires { unsigned_abs offset < GixDate.hundred_hours }
    ensures { result.bytes ≡ Spec.raw_text seconds offset }
{
    let Ok(header) = Time::new(seconds, offset).to_buf() else {
        unreachable!();
    };
    let mut text = ArrayString::new();
    text.push_str(header.as_str());
    text
}
