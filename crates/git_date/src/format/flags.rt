//! Flags and widths of directives.
ghost use Rattle.std.specs.Prelude.{◌≡◌};
ghost use Rattle.git_date.specs as Spec;

use arrayvec::ArrayString;

/// The greatest width.
pub(crate) const MAX_WIDTH: usize = 255;

/// The text of a directive.
pub(crate) type Part = ArrayString<MAX_WIDTH>;

/// What fills a number. The last such flag counts.
#[derive(Clone, Copy)]
pub(crate) enum Pad {
    /// No flag says it.
    Unsaid,
    /// `-`: nothing but spaces up to the width.
    Bare,
    /// `_`
    Spaces,
    /// `0`
    Zeros,
}

/// What stands between a percent sign and its letter.
#[derive(Clone, Copy)]
pub(crate) struct Flags {
    pub(crate) pad: Pad,
    /// `^`
    pub(crate) upper: bool,
    /// `#`
    pub(crate) swap: bool,
    pub(crate) width: u8,
}

/// Whether a byte is a flag.
pub(crate) fn is_flag(byte: u8) -> bool
    ensures { result ≡ Spec.is_flag byte }
{
    matches!(byte, b'_' | b'-' | b'0' | b'^' | b'#')
}

impl Pad {
    /// What fills after one flag more.
    fn after(self, mark: u8) -> Pad
        ensures { result ≡ Spec.pad_after self mark }
    {
        match mark {
            b'-' => Pad::Bare,
            b'_' => Pad::Spaces,
            b'0' => Pad::Zeros,
            _ => self,
        }
    }

    /// What the last flag says.
    fn of(marks: &[u8]) -> Pad
        ensures { result ≡ Spec.pad_of marks.now }
    {
        marks.iter().fold(Pad::Unsaid, |pad, mark| pad.after(*mark))
    }
}

impl Flags {
    /// The flags of these marks, with a width.
    pub(crate) fn of(marks: &[u8], width: u8) -> Flags
        ensures { result ≡ Spec.flags_of marks.now width }
    {
        Flags {
            pad: Pad::of(marks),
            upper: marks.contains(&b'^'),
            swap: marks.contains(&b'#'),
            width,
        }
    }

    /// Those of what a composite is made of: upper case alone.
    pub(crate) fn inner(self) -> Flags
        ensures { result ≡ Spec.inner_flags self }
    {
        Flags {
            pad: Pad::Unsaid,
            upper: self.upper,
            swap: false,
            width: 0,
        }
    }

    /// Whether names and composites are filled with zeros.
    pub(crate) fn fills_zeros(self) -> bool
        ensures { result ≡ Spec.fill_of self.pad }
    {
        matches!(self.pad, Pad::Zeros)
    }
}
