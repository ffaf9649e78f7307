//! The texts of directives.
ghost use Rattle.std.specs.Prelude.{◌≡◌, ◌+◌, ◌≤◌, ◌<◌, ◌++◌, length, max, true};
ghost use Rattle.std.specs.Char.{is_ascii};
ghost use Rattle.std.specs.List.{list_all};
ghost use Rattle.arrayvec.specs.ArrayString.{array_string_len};
ghost use Rattle.git_date.specs as Spec;

use crate::format::directives::{Composite, Directive, Name};
use crate::format::flags::{Flags, Pad, Part};
use crate::format::names::Case;
use crate::format::numbers::Number;
use arrayvec::ArrayString;
use gix_date::clock::Clock;

/// A name in its letter case: at most `Wednesday` or `September`.
type CasedName = ArrayString<9>;

/// A character of a composite.
#[derive(Clone, Copy)]
pub(crate) enum Mark {
    Space,
    Colon,
    Minus,
    Slash,
}

/// A piece of a composite.
#[derive(Clone, Copy)]
pub(crate) enum Inner {
    Name(Name),
    Number(Number),
    Mark(Mark),
}

const SPACE: Inner = Inner::Mark(Mark::Space);

const COLON: Inner = Inner::Mark(Mark::Colon);

const MINUS: Inner = Inner::Mark(Mark::Minus);

const SLASH: Inner = Inner::Mark(Mark::Slash);

const YEAR: Inner = Inner::Number(Number::Year);

const MONTH: Inner = Inner::Number(Number::Month);

const DAY: Inner = Inner::Number(Number::Day);

const HOUR: Inner = Inner::Number(Number::Hour);

const MINUTE: Inner = Inner::Number(Number::Minute);

const SECOND: Inner = Inner::Number(Number::Second);

const WEEKDAY: Inner = Inner::Name(Name::ShortDay);

const MONTH_NAME: Inner = Inner::Name(Name::ShortMonth);

const SPACED_DAY: Inner = Inner::Number(Number::SpacedDay);

const SHORT_YEAR: Inner = Inner::Number(Number::YearOfCentury);

const HALF_HOUR: Inner = Inner::Number(Number::HourOfHalf);

const HALF_DAY: Inner = Inner::Name(Name::HalfDay);

/// `%a %b %e %H:%M:%S %Y`
const DATE_AND_CLOCK: [Inner; 13] = [
    WEEKDAY, SPACE, MONTH_NAME, SPACE, SPACED_DAY, SPACE, HOUR, COLON, MINUTE, COLON, SECOND,
    SPACE, YEAR,
];

/// `%m/%d/%y`
const SLASHED_DATE: [Inner; 5] = [MONTH, SLASH, DAY, SLASH, SHORT_YEAR];

/// `%Y-%m-%d`
const ISO_DATE: [Inner; 5] = [YEAR, MINUS, MONTH, MINUS, DAY];

/// `%I:%M:%S %p`
const CLOCK_OF_HALF: [Inner; 7] = [HALF_HOUR, COLON, MINUTE, COLON, SECOND, SPACE, HALF_DAY];

/// `%H:%M`
const SHORT_CLOCK: [Inner; 3] = [HOUR, COLON, MINUTE];

/// `%H:%M:%S`
const CLOCK: [Inner; 5] = [HOUR, COLON, MINUTE, COLON, SECOND];

impl Mark {
    fn code(self) -> char
        ensures value { result ≡ Spec.mark_code self }
        ensures ascii { result < 128 }
    {
        match self {
            Mark::Space => ' ',
            Mark::Colon => ':',
            Mark::Minus => '-',
            Mark::Slash => '/',
        }
    }
}

impl Composite {
    /// Its pieces.
    fn inner(self) -> &'static [Inner]
        ensures value { result.now ≡ Spec.inner_of self }
        ensures few { length result.now ≤ 13 }
    {
        match self {
            Composite::DateAndClock => &DATE_AND_CLOCK,
            Composite::SlashedDate => &SLASHED_DATE,
            Composite::IsoDate => &ISO_DATE,
            Composite::ClockOfHalf => &CLOCK_OF_HALF,
            Composite::ShortClock => &SHORT_CLOCK,
            Composite::Clock => &CLOCK,
        }
    }
}

impl Number {
    /// The width to which it is filled.
    fn width(self, flags: Flags) -> u8
        ensures value { result ≡ Spec.number_width self flags }
        ensures most { result ≤ max 9 flags.width }
    {
        match flags.pad {
            Pad::Bare => flags.width,
            Pad::Unsaid | Pad::Spaces | Pad::Zeros => self.least().max(flags.width),
        }
    }

    /// Whether it is filled with zeros.
    fn fills_zeros(self, flags: Flags) -> bool
        ensures { result ≡ Spec.number_zeros self flags }
    {
        match flags.pad {
            Pad::Bare | Pad::Spaces => false,
            Pad::Zeros => true,
            Pad::Unsaid => !matches!(
                self,
                Number::SpacedDay | Number::SpacedHour | Number::SpacedHourOfHalf
            ),
        }
    }
}

/// Appends a text, with zeros or spaces before it up to a width.
fn push_filled<const CAP: usize>(part: &mut ArrayString<CAP>, zeros: bool, width: u8, text: &str)
    requires { array_string_len part.old + max width (length text.now) ≤ CAP }
    ensures bytes { part.new.bytes ≡ part.old.bytes ++ Spec.filled zeros width text.now }
    ensures len { array_string_len part.new ≡ array_string_len part.old + max width (length text.now) }
{
    let fill = if zeros { '0' } else { ' ' };
    'fills: for _done in 0..usize::from(width).saturating_sub(text.len()) {
        part.push(fill);
    }
    part.push_str(text);
}

/// Appends a number in decimal, filled.
pub(crate) fn push_number<const CAP: usize>(
    part: &mut ArrayString<CAP>,
    number: Number,
    flags: Flags,
    t: Clock,
)
    requires { array_string_len part.old + max 9 flags.width ≤ CAP }
    ensures bytes { part.new.bytes ≡ part.old.bytes ++ Spec.number_text number flags t }
    ensures len { array_string_len part.new ≤ array_string_len part.old + max 9 flags.width }
{
    let mut digits = itoa::Buffer::new();
    push_filled(
        part,
        number.fills_zeros(flags),
        number.width(flags),
        digits.format(number.value(t)),
    );
}

/// A name in a letter case.
fn cased(case: Case, name: &str) -> CasedName
    requires len { length name.now ≤ 9 }
    requires ascii { list_all is_ascii name.now ≡ true }
    ensures { result.bytes ≡ Spec.cased case name.now }
{
    let mut text = CasedName::new();
    'letters: for letter in name.as_bytes() {
        text.push(char::from(case.of_letter(*letter)));
    }
    text
}

/// Appends a name in its letter case, filled.
#[tactic(auto, using(crate::proofs::Formats::Names::name_ascii))]
pub(crate) fn push_name<const CAP: usize>(
    part: &mut ArrayString<CAP>,
    name: Name,
    flags: Flags,
    t: Clock,
)
    requires { array_string_len part.old + max 9 flags.width ≤ CAP }
    ensures bytes { part.new.bytes ≡ part.old.bytes ++ Spec.name_said name flags t }
    ensures len { array_string_len part.new ≤ array_string_len part.old + max 9 flags.width }
{
    let name = cased(name.case_of(flags), name.text(t));
    push_filled(part, flags.fills_zeros(), flags.width, name.as_str());
}

fn push_inner(part: &mut Part, inner: Inner, flags: Flags, t: Clock)
    requires { array_string_len part.old + max 9 flags.width ≤ 255 }
    ensures bytes { part.new.bytes ≡ part.old.bytes ++ Spec.inner_text flags t inner }
    ensures len { array_string_len part.new ≤ array_string_len part.old + max 9 flags.width }
{
    match inner {
        Inner::Name(name) => push_name(part, name, flags, t),
        Inner::Number(number) => push_number(part, number, flags, t),
        Inner::Mark(mark) => part.push(mark.code()),
    }
}

/// The pieces of a composite, one after the other.
fn inner_part(composite: Composite, flags: Flags, t: Clock) -> Part
    ensures bytes { result.bytes ≡ Spec.inner_texts (Spec.inner_flags flags) t (Spec.inner_of composite) }
    ensures len { array_string_len result ≤ 117 }
{
    let mut part = Part::new();
    'pieces: for inner in composite.inner() {
        push_inner(&mut part, *inner, flags.inner(), t);
    }
    part
}

/// Appends what a clock shows by a directive. There has to be room for the width, and for 117 bytes.
pub(crate) fn push_directive(part: &mut Part, directive: Directive, flags: Flags, t: Clock)
    requires { array_string_len part.old ≡ 0 }
    ensures { part.new.bytes ≡ part.old.bytes ++ Spec.directive_text directive flags t }
{
    match directive {
        Directive::Name(name) => push_name(part, name, flags, t),
        Directive::Number(number) => push_number(part, number, flags, t),
        Directive::Composite(composite) => {
            let inner = inner_part(composite, flags, t);
            push_filled(part, flags.fills_zeros(), flags.width, inner.as_str());
        }
    }
}
