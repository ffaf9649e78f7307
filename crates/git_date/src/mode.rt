//! The ways in which Git shows dates.
ghost use Rattle.std.specs.Prelude.{◌≡◌, map};
ghost use Rattle.git_date.specs as Spec;

use std::fmt;
use std::str::FromStr;
use thiserror::Error;

/// What of a date is shown. Examples of fixed forms show 1251660000 +0000.
#[derive(Clone, Copy, Debug, PartialEq, Eq)]
pub enum DateKind {
    /// How long ago it was: `2 hours ago`, `1 year, 2 months ago`, or `in the future`.
    Relative,
    /// `2009-08-30T19:20:00+00:00`
    Iso8601Strict,
    /// `2009-08-30 19:20:00 +0000`
    Iso8601,
    /// `Sun, 30 Aug 2009 19:20:00 +0000`
    Rfc2822,
    /// `2009-08-30`
    Short,
    /// `Sun Aug 30 19:20:00 2009 +0000`
    Default,
    /// As much as tells the date from now: `3 hours ago`, `Wed 17:20 +0200`, `Tue Aug 25 19:20`, `Jun 15 2016`.
    Human,
    /// `1251660000 +0000`
    Raw,
    /// `1251660000`
    Unix,
}

/// How a date is shown, as Git's option `--date` says it.
///
/// A mode is read from Git's own name by [`str::parse`], as `iso8601-strict-local` or `local`. It shows that name again,
/// in full (`default-local`).
#[derive(Clone, Copy, Debug, PartialEq, Eq)]
pub struct DateMode {
    /// What is shown.
    pub kind: DateKind,
    /// Whether the clock is that of the moment's zone. Else it is the time's own. By git-log's manual this has no effect on
    /// `relative` and `unix`.
    pub local: bool,
}

/// No name of a mode. Git's modes `auto:` and `format:` are not offered.
#[derive(Clone, Copy, Debug, PartialEq, Eq, Error)]
#[error("not a way to show a date; expected one such as \"iso8601-strict\" or \"human-local\"")]
pub struct UnknownMode;

/// Each name, its kind, and whether the clock is the zone's.
const MODES: [(&str, DateKind, bool); 25] = [
    ("relative", DateKind::Relative, false),
    ("iso8601-strict", DateKind::Iso8601Strict, false),
    ("iso-strict", DateKind::Iso8601Strict, false),
    ("iso8601", DateKind::Iso8601, false),
    ("iso", DateKind::Iso8601, false),
    ("rfc2822", DateKind::Rfc2822, false),
    ("rfc", DateKind::Rfc2822, false),
    ("short", DateKind::Short, false),
    ("default", DateKind::Default, false),
    ("human", DateKind::Human, false),
    ("raw", DateKind::Raw, false),
    ("unix", DateKind::Unix, false),
    ("relative-local", DateKind::Relative, true),
    ("iso8601-strict-local", DateKind::Iso8601Strict, true),
    ("iso-strict-local", DateKind::Iso8601Strict, true),
    ("iso8601-local", DateKind::Iso8601, true),
    ("iso-local", DateKind::Iso8601, true),
    ("rfc2822-local", DateKind::Rfc2822, true),
    ("rfc-local", DateKind::Rfc2822, true),
    ("short-local", DateKind::Short, true),
    ("default-local", DateKind::Default, true),
    ("human-local", DateKind::Human, true),
    ("raw-local", DateKind::Raw, true),
    ("unix-local", DateKind::Unix, true),
    ("local", DateKind::Default, true),
];

fn modes() -> &'static [(&'static str, DateKind, bool)]
    ensures { map Spec.mode_row result.now ≡ Spec.mode_rows }
{
    &MODES
}

/// The mode beside the first of these names that a text is.
#[tactic(auto, unfolding(crate::specs::mode_held))]
fn mode_in(text: &str, rows: &[(&str, DateKind, bool)]) -> Option<DateMode>
    ensures { result ≡ Spec.mode_held text.now rows.now }
{
    let row = rows.iter().find(|row| text == row.0)?;
    Some(DateMode {
        kind: row.1,
        local: row.2,
    })
}

#[tactic(auto, using(crate::proofs::Text::Tables::mode_is))]
fn mode_named(text: &str) -> Option<DateMode>
    ensures { result ≡ Spec.mode_named text.now }
{
    mode_in(text, modes())
}

impl DateKind {
    fn name(self) -> &'static str
        ensures { result.now ≡ Spec.kind_name self }
    {
        match self {
            DateKind::Relative => "relative",
            DateKind::Iso8601Strict => "iso8601-strict",
            DateKind::Iso8601 => "iso8601",
            DateKind::Rfc2822 => "rfc2822",
            DateKind::Short => "short",
            DateKind::Default => "default",
            DateKind::Human => "human",
            DateKind::Raw => "raw",
            DateKind::Unix => "unix",
        }
    }
}

impl FromStr for DateMode {
    type Err = UnknownMode;

    ghost from_str_gives = { Spec.NamesMode };

    /// The mode of this name, in Git's letter case.
    fn from_str(text: &str) -> Result<DateMode, UnknownMode> {
        mode_named(text).ok_or(UnknownMode)
    }
}

impl fmt::Display for DateMode {
    ghost use Rattle.std.specs.Prelude.{Some};

    ghost output = { λ mode. Some (Spec.mode_name mode) };

    fn fmt<W: fmt::Write>(&self, f: &mut fmt::Formatter<W>) -> fmt::Result {
        f.write_str(self.kind.name())?;
        f.write_str(if self.local { "-local" } else { "" })
    }
}
