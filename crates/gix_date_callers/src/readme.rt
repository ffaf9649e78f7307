//! The example of README.md, as it stands there.
#![tactic(auto, using(crate::proofs::Outcomes::raw_result))]

ghost use Rattle.std.specs.Prelude.{◌≡◌, ◌↔◌, true, Some, Ok, IsOkAnd};
ghost use Rattle.gix_date.specs.declared.time.Time.{Time as Read};
ghost use Rattle.gix_date.specs as GixDate;

use gix_date::parsing::TimeBuf;
use gix_date::{Error, RawOffsets, Time, laws, parse};
use std::alloc::Global;

/// A header's time, read and written again: the same text iff the header is canonical.
pub fn written_again(header: &str) -> Result<TimeBuf, Error>
    ensures { IsOkAnd result (λ buf. GixDate.text_in buf ≡ header.now) ↔ (GixDate.is_canonical_header header.now ≡ true) }
{
    laws::canonical(header);
    let time: Time = header.parse()?;
    time.to_buf()
}

/// A stored date such as `1660874655 +0800` needs no reference time.
pub fn stored_time(alloc: Global, date: &str) -> Result<Time, Error>
    ensures { (t : Read) → GixDate.raw_time date.now ≡ Some t → result ≡ Ok t }
{
    gix_date_laws::comes_first(date, RawOffsets::Quarter);
    parse(alloc, date, None)
}
