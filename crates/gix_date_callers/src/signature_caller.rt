//! What a crate that reads commits does with `gix_signature`.
ghost use Rattle.std.specs.Prelude.{◌≡◌, None, option_map};
ghost use Rattle.std.specs.Option.{option_map_or};
ghost use Rattle.gix_signature.specs.declared.object.Role.TheVariants.{Author};
ghost use Rattle.gix_signature.specs as GixSignature;

use gix_signature::{IdentRef, Role, named};

/// What Git shows of a commit's author, by the commit's bytes. `None` where the commit names none, or Git finds no identity.
pub fn commit_author(commit: &[u8]) -> Option<IdentRef<'_>>
    ensures { option_map GixSignature.ident_text_of result
        ≡ option_map_or GixSignature.ident_parts (GixSignature.last_named Author commit.now) None }
{
    IdentRef::from_bytes(named(commit, Role::Author)?.last)
}
