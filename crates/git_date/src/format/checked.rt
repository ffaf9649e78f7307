//! Formats without fault.
ghost use Rattle.std.specs.Prelude.{◌≡◌, true};
ghost use Rattle.git_date.specs.Formats.Pieces.{is_format};

use crate::format::error::FormatFault;
use crate::format::walks::first_fault;

/// A format of [`show_by_format`](crate::show_by_format), checked once.
#[derive(Clone, Copy, Debug)]
pub struct DateFormat<'a> {
    pub(crate) text: &'a str,
    pub(crate) ghost whole: { is_format text.now ≡ true },
}

impl<'a> DateFormat<'a> {
    ghost use Rattle.std.specs.Result.{result_map_both};
    ghost use Rattle.git_date.specs.Formats.Format.{format_bytes};
    ghost use Rattle.git_date.specs.Formats.Pieces.{checked};

    /// Checks a format: the text after `format:` of `git log --date`.
    ///
    /// A directive is a percent sign, flags, a width and a letter: docs/GIT_DATES.md has what each shows. `%%`, `%s`, `%z` and
    /// `%Z` take no flags and no width, the others the flags `_ - 0 ^ #` and a width up to 255. All other text is shown as it
    /// is, and may be empty.
    ///
    /// The first fault is answered with the place of its percent sign ([`FormatFault`]). Takes no memory.
    #[tactic(auto, using(crate::proofs::Formats::Walks::checked_fault, crate::proofs::Formats::Walks::checked_whole))]
    pub fn new(text: &'a str) -> Result<DateFormat<'a>, FormatFault>
        ensures { result_map_both format_bytes (λ fault. fault) result ≡ checked text.now }
    {
        match first_fault(text) {
            Some(fault) => Err(fault),
            None => Ok(DateFormat { text }),
        }
    }

    /// The text of the format.
    pub fn as_str(&self) -> &'a str
        ensures { result.now ≡ format_bytes self.now }
    {
        self.text
    }
}
