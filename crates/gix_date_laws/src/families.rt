//! Laws of families: which texts they hold, and whose answer comes first.
ghost use Rattle.gix_date.specs as GixDate;

use gix_date::RawOffsets;

/// A formatted date is a sequence of pieces. Its family answers what the pieces say, and holds each text that is
/// written so.
#[tactic(auto, using(gix_date::proofs::Fields::Layouts::dates_spelled))]
pub fn spelled()
    ensures day { GixDate.Accepts GixDate.short_answer (GixDate.IsMeaning GixDate.short_layout GixDate.real_day_answer) }
    ensures rfc2822 { GixDate.Accepts GixDate.rfc2822_answer (GixDate.IsMeaning GixDate.rfc2822_layout GixDate.time_answer) }
    ensures iso8601 { GixDate.Accepts GixDate.iso8601_answer (GixDate.IsMeaning GixDate.iso8601_layout GixDate.time_answer) }
    ensures strict { GixDate.Accepts GixDate.iso8601_strict_answer (GixDate.IsMeaning GixDate.iso8601_strict_layout GixDate.time_answer) }
    ensures gitoxide { GixDate.Accepts GixDate.gitoxide_answer (GixDate.IsMeaning GixDate.gitoxide_layout GixDate.time_answer) }
    ensures default { GixDate.Accepts GixDate.default_answer (GixDate.IsMeaning GixDate.default_layout GixDate.time_answer) }
{}

/// Git's own forms hold exactly the texts that are a date, a gap and a rest, with white space around them. The rest is
/// cut into a clock and an offset (`IsCut`).
#[tactic(auto, using(crate::proofs::Git::Grammar::git_spelled))]
pub fn spelled_git()
    ensures { GixDate.Accepts GixDate.git_time GixDate.IsGitText }
{}

/// If ISO 8601 or its strict form and one of Git's own forms hold a text, they answer the same. So their order does not
/// matter.
#[tactic(auto, using(crate::proofs::Shared::Agreement::iso8601_git, crate::proofs::Shared::Agreement::strict_git))]
pub fn agree(text: &str, raw: RawOffsets)
    ensures iso8601 { GixDate.Agree (GixDate.allows raw) GixDate.Iso8601 GixDate.GitForm text.now }
    ensures strict { GixDate.Agree (GixDate.allows raw) GixDate.Iso8601Strict GixDate.GitForm text.now }
{}

/// The answer of a family that holds the text is the one that `parse_with` uses, by either rule. A relative text has to
/// be of no Git form. Only for a relative text does the result depend on the moment.
#[tactic(auto, using(crate::proofs::Shared::Agreement::comes_first))]
pub fn comes_first(text: &str, raw: RawOffsets)
    ensures { GixDate.ComesFirst (GixDate.allows raw) text.now }
{}

/// The first family that holds a text is also the first that holds it among the families of its row, by either rule. The
/// first bytes decide the row, or for a number the whole text, of seven (`row_families`): `@` at the front, a number, a day
/// with `-`, with `.` or with neither, a letter at the front, and all other texts.
#[tactic(auto, using(gix_date::proofs::Families::Shapes::is_in_its_row))]
pub fn dispatched_by_rows(text: &str, raw: RawOffsets)
    ensures { GixDate.IsInItsRow (GixDate.allows raw) text.now }
{}

/// The answer of the first family and the moment determine the result of a call that takes no memory.
#[tactic(auto, using(crate::proofs::Shared::Agreement::one_outcome))]
pub fn one_outcome()
    ensures { GixDate.HasOneOutcome }
{}
