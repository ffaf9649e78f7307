//! What the letters after a percent sign stand for.
ghost use Rattle.std.specs.Prelude.{◌≡◌};
ghost use Rattle.git_date.specs as Spec;

use crate::format::numbers::{Number, number_lettered};

/// A text that a clock shows by a name.
#[derive(Clone, Copy)]
pub(crate) enum Name {
    /// `Sun`
    ShortDay,
    /// `Sunday`
    LongDay,
    /// `Aug`
    ShortMonth,
    /// `August`
    LongMonth,
    /// `AM`, and from noon on `PM`
    HalfDay,
    /// `am`, and from noon on `pm`
    SmallHalfDay,
    LineFeed,
    Tab,
}

/// A text of several names and numbers.
#[derive(Clone, Copy)]
pub(crate) enum Composite {
    /// `Sun Aug 30 19:20:00 2009`
    DateAndClock,
    /// `08/30/09`
    SlashedDate,
    /// `2009-08-30`
    IsoDate,
    /// `07:20:00 PM`
    ClockOfHalf,
    /// `19:20`
    ShortClock,
    /// `19:20:00`
    Clock,
}

/// What takes flags and a width.
#[derive(Clone, Copy)]
pub(crate) enum Directive {
    Name(Name),
    Number(Number),
    Composite(Composite),
}

/// What takes neither: a percent sign, and what Git itself writes.
#[derive(Clone, Copy)]
pub(crate) enum Plain {
    Percent,
    Seconds,
    Offset,
    Abbreviation,
}

fn name_lettered(letter: u8) -> Option<Name>
    ensures { result ≡ Spec.name_lettered letter }
{
    match letter {
        b'a' => Some(Name::ShortDay),
        b'A' => Some(Name::LongDay),
        b'b' | b'h' => Some(Name::ShortMonth),
        b'B' => Some(Name::LongMonth),
        b'p' => Some(Name::HalfDay),
        b'P' => Some(Name::SmallHalfDay),
        b'n' => Some(Name::LineFeed),
        b't' => Some(Name::Tab),
        _ => None,
    }
}

fn composite_lettered(letter: u8) -> Option<Composite>
    ensures { result ≡ Spec.composite_lettered letter }
{
    match letter {
        b'c' => Some(Composite::DateAndClock),
        b'D' | b'x' => Some(Composite::SlashedDate),
        b'F' => Some(Composite::IsoDate),
        b'r' => Some(Composite::ClockOfHalf),
        b'R' => Some(Composite::ShortClock),
        b'T' | b'X' => Some(Composite::Clock),
        _ => None,
    }
}

/// What a letter stands for that takes no flags.
pub(crate) fn plain_lettered(letter: u8) -> Option<Plain>
    ensures { result ≡ Spec.plain_lettered letter }
{
    match letter {
        b'%' => Some(Plain::Percent),
        b's' => Some(Plain::Seconds),
        b'z' => Some(Plain::Offset),
        b'Z' => Some(Plain::Abbreviation),
        _ => None,
    }
}

/// What a letter stands for that takes flags.
pub(crate) fn directive_lettered(letter: u8) -> Option<Directive>
    ensures { result ≡ Spec.directive_lettered letter }
{
    if let Some(number) = number_lettered(letter) {
        return Some(Directive::Number(number));
    }
    if let Some(name) = name_lettered(letter) {
        return Some(Directive::Name(name));
    }
    Some(Directive::Composite(composite_lettered(letter)?))
}
