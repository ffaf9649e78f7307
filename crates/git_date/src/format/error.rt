//! Why a format shows nothing of a time.
ghost use Rattle.std.specs.Prelude.{◌≡◌};
ghost use Rattle.git_date.specs as Spec;

use std::io;
use thiserror::Error;

/// Why a call shows nothing by a format.
#[derive(Clone, Copy, Debug, PartialEq, Eq, Error)]
pub enum ShowError {
    /// The clock shows nothing, as for [`show_date`](crate::show_date); or `%s` is asked of a clock outside 1970 to 2099.
    #[error("the time has no such clock, or its seconds are of a year outside 1970 to 2099")]
    Range,
    /// Memory for the text is refused.
    #[error("no memory for the text")]
    Memory,
    /// The writer refused, after a proper prefix of the text.
    #[error("the text could not be written")]
    Write(io::ErrorKind),
}

/// Why a format is refused. A place is that of a percent sign, in bytes from the format's start.
#[derive(Clone, Copy, Debug, PartialEq, Eq, Error)]
pub enum FormatFault {
    /// Flags or a width stand before `s`, `z`, `Z` or `%`, where Git says another offset, or begins again.
    #[error("the directive at byte {0} takes no flags and no width")]
    FlagRefused(usize),
    /// The letter is none of those that all C libraries show alike, or the end cuts the directive off.
    #[error("the directive at byte {0} is unknown")]
    UnknownDirective(usize),
    /// The width is above 255.
    #[error("the width at byte {0} is above 255")]
    WidthTooLarge(usize),
}

impl FormatFault {
    /// The fault by its place in a format of so many bytes, where it has what is left from there on.
    pub(crate) fn placed(self, len: usize) -> FormatFault
        ensures { result ≡ Spec.placed len self }
    {
        match self {
            FormatFault::FlagRefused(left) => FormatFault::FlagRefused(len.saturating_sub(left)),
            FormatFault::UnknownDirective(left) => {
                FormatFault::UnknownDirective(len.saturating_sub(left))
            }
            FormatFault::WidthTooLarge(left) => {
                FormatFault::WidthTooLarge(len.saturating_sub(left))
            }
        }
    }
}
