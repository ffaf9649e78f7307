//! Identity lines judged, and what is told of them.
ghost use Rattle.std.specs.Prelude.{◌≡◌, ◌++◌, IfOk, OnOk};
ghost use Rattle.std.specs.List.{find};
ghost use Rattle.git_ident_tool.specs as Spec;
ghost use Rattle.gix_signature.specs as GixSignature;

use crate::header::Kind;
use gix_signature::{FsckId, Role, fsck_of};
use std::alloc::{AllocError, Global};

/// Which lines are told of.
#[derive(Debug, Clone, Copy, PartialEq, Eq)]
pub enum Telling {
    /// Those that `git fsck` says something of.
    Faults,
    /// All.
    All,
}

/// What a role is called.
fn role_name(role: Role) -> &'static [u8]
    ensures { result.now ≡ Spec.role_words role }
{
    match role {
        Role::Author => b"author",
        Role::Committer => b"committer",
        Role::Tagger => b"tagger",
    }
}

const COMMIT_ROLES: [Role; 2] = [Role::Author, Role::Committer];

const TAG_ROLES: [Role; 1] = [Role::Tagger];

/// The roles that the header of such an object has.
fn roles_of(kind: Kind) -> &'static [Role]
    ensures { result.now ≡ Spec.roles_of kind }
{
    match kind {
        Kind::Commit => &COMMIT_ROLES,
        Kind::Tag => &TAG_ROLES,
        Kind::Tree => &[],
        Kind::Blob => &[],
    }
}

/// The role of a line in the header of such an object.
pub(crate) fn role_in(kind: Kind, line: &[u8]) -> Option<Role>
    ensures { result ≡ Spec.role_in kind line.now }
{
    role_among(line, roles_of(kind))
}

/// The first of these roles that a line has.
fn role_among(line: &[u8], roles: &[Role]) -> Option<Role>
    ensures { result ≡ find (λ role. Spec.begins line.now (GixSignature.role_start role)) roles.now }
{
    roles
        .iter()
        .copied()
        .find(|role| line.starts_with(role.start()))
}

/// The message of `git fsck` on an identity line, if it has one.
pub(crate) fn fault_of(text: &[u8]) -> Option<FsckId>
    ensures { result ≡ Spec.fault_of text.now }
{
    match fsck_of(text) {
        Some(fault) => Some(fault.id),
        None => None,
    }
}

/// What such a message is called, or that there is none.
fn verdict_name(fault: Option<FsckId>) -> &'static [u8]
    ensures { result.now ≡ Spec.verdict_words fault }
{
    match fault {
        Some(id) => fsck_name(id),
        None => b"ok",
    }
}

/// What Git calls a message.
fn fsck_name(id: FsckId) -> &'static [u8]
    ensures { result.now ≡ Spec.fsck_words id }
{
    match id {
        FsckId::NulInHeader => b"nulInHeader",
        FsckId::MissingNameBeforeEmail => b"missingNameBeforeEmail",
        FsckId::BadName => b"badName",
        FsckId::MissingEmail => b"missingEmail",
        FsckId::MissingSpaceBeforeEmail => b"missingSpaceBeforeEmail",
        FsckId::BadEmail => b"badEmail",
        FsckId::MissingSpaceBeforeDate => b"missingSpaceBeforeDate",
        FsckId::ZeroPaddedDate => b"zeroPaddedDate",
        FsckId::BadDateOverflow => b"badDateOverflow",
        FsckId::BadDate => b"badDate",
        FsckId::BadTimezone => b"badTimezone",
    }
}

/// Whether a line with such a verdict is told of.
pub(crate) fn is_told(telling: Telling, fault: Option<FsckId>) -> bool
    ensures { result ≡ Spec.is_told telling fault }
{
    match telling {
        Telling::All => true,
        Telling::Faults => fault.is_some(),
    }
}

/// What is told of an identity line in an object.
pub(crate) fn object_reply(
    alloc: Global,
    id: &[u8],
    role: Role,
    fault: Option<FsckId>,
    text: &[u8],
) -> Result<Vec<u8>, AllocError>
    ensures { IfOk result (λ reply. reply.items ≡ Spec.object_told id.now role fault text.now) }
{
    let mut reply = Vec::new(alloc);
    reply.extend_from_slice(id)?;
    reply.extend_from_slice(b" ")?;
    reply.extend_from_slice(role_name(role))?;
    reply.extend_from_slice(b" ")?;
    push_verdict(&mut reply, fault, text)?;
    Ok(reply)
}

/// What is told of a line that stands in no object.
pub(crate) fn line_reply(
    alloc: Global,
    fault: Option<FsckId>,
    text: &[u8],
) -> Result<Vec<u8>, AllocError>
    ensures { IfOk result (λ reply. reply.items ≡ Spec.told fault text.now) }
{
    let mut reply = Vec::new(alloc);
    push_verdict(&mut reply, fault, text)?;
    Ok(reply)
}

/// Appends a verdict and the line that it is on.
fn push_verdict(reply: &mut Vec<u8>, fault: Option<FsckId>, text: &[u8]) -> Result<(), AllocError>
    ensures { OnOk result (reply.new.items ≡ reply.old.items ++ Spec.told fault text.now) }
{
    reply.extend_from_slice(verdict_name(fault))?;
    reply.extend_from_slice(b": ")?;
    reply.extend_from_slice(text)?;
    reply.extend_from_slice(b"\n")
}
