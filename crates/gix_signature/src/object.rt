//! The lines of a commit's or tag's header that name somebody.
ghost use Rattle.std.specs.Prelude.{◌≡◌, ◌<◌, length, option_map, IfSome};
ghost use Rattle.gix_signature.specs as Spec;

use crate::ident::bytes::{after_one, place_of};

/// Whom a line of a header names.
#[derive(Debug, Clone, Copy, PartialEq, Eq)]
pub enum Role {
    /// Who wrote a commit.
    Author,
    /// Who made a commit.
    Committer,
    /// Who made a tag.
    Tagger,
}

impl Role {
    /// How a line of a header begins that names somebody so: the word, and a space.
    pub fn start(self) -> &'static [u8]
        ensures { result.now ≡ Spec.role_start self }
    {
        match self {
            Role::Author => b"author ",
            Role::Committer => b"committer ",
            Role::Tagger => b"tagger ",
        }
    }
}

/// The identity lines of an object's header in one role, which is one line in each that `git fsck` says nothing of.
#[derive(Debug, Clone, Copy)]
pub struct RoleLines<'a> {
    /// The first, which `git for-each-ref` shows.
    pub first: &'a [u8],
    /// The last, which the formats of `git log` show.
    pub last: &'a [u8],
}

/// Whom the header of a commit or tag names in a role, by the bytes of the object: what stands after the word and a space. `None` where
/// no line of the header begins so. The header ends before its first empty line. Takes no memory.
#[tactic(auto, using(crate::proofs::Headers::nothing_read, crate::proofs::Headers::line_more, crate::proofs::Headers::first_read, crate::proofs::Headers::last_read))]
pub fn named(contents: &[u8], role: Role) -> Option<RoleLines<'_>>
    ensures first { option_map (λ n. n.first.now) result ≡ Spec.first_named role contents.now }
    ensures last { option_map (λ n. n.last.now) result ≡ Spec.last_named role contents.now }
{
    let mut found = None;
    let mut left = contents;
    'lines: while let Some((line, rest)) = filled_line(left) {
        found = with_line(found, line, role);
        left = rest;
    }
    found
}

/// The lines so far with one more, if this names somebody in the role.
fn with_line<'a>(found: Option<RoleLines<'a>>, line: &'a [u8], role: Role) -> Option<RoleLines<'a>>
    ensures first { option_map (λ n. n.first.now) result ≡ Spec.first_with role (option_map (λ n. n.first.now) found.entry) line.now }
    ensures last { option_map (λ n. n.last.now) result ≡ Spec.last_with role (option_map (λ n. n.last.now) found.entry) line.now }
{
    let Some(text) = line.strip_prefix(role.start()) else {
        return found;
    };
    let first = match found {
        Some(named) => named.first,
        None => text,
    };
    Some(RoleLines { first, last: text })
}

/// The first line of a header and what stands after it, or `None` where the header ends.
#[tactic(auto, using(crate::proofs::Headers::header_ends, crate::proofs::Headers::header_goes_on))]
fn filled_line(text: &[u8]) -> Option<(&[u8], &[u8])>
    ensures lines { Spec.own_header text.now ≡ Spec.lines_from (option_map (λ cut. (cut.0.now, cut.1.now)) result) }
    ensures shorter { IfSome result (λ cut. length cut.1.now < length text.now) }
{
    let (line, rest) = text.split_at(place_of(text, b'\n'));
    if line.is_empty() {
        return None;
    }
    Some((line, after_one(rest)))
}
