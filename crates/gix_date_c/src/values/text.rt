//! Bytes that have to be text.
ghost use Rattle.std.specs.Prelude.{◌≡◌, true, false, MatchResult};
ghost use Rattle.std.specs.Str.{is_utf8};
ghost use Rattle.gix_date_c.specs.declared.values.status.Status.TheVariants.{NotText};

use crate::values::status::Status;
use gix_date::bytes;

/// Bytes as text, where they are UTF-8.
#[tactic(auto, using(gix_date::proofs::Text::Texts::no_text, crate::proofs::Printed::texts))]
pub(crate) fn utf8_text(bytes: &[u8]) -> Result<&str, Status>
    ensures { MatchResult result (λ text. (text.now ≡ bytes.now) × (is_utf8 bytes.now ≡ true))
        (λ status. (status ≡ NotText) × (is_utf8 bytes.now ≡ false)) }
{
    bytes::text_of(bytes).ok_or(Status::NotText)
}
