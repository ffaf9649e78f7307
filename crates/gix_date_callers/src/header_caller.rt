//! Callers of headers and signature lines: docs/CALLING.md and docs/SIGNATURES.md say what each is for.
ghost use Rattle.std.specs.Prelude.{◌≡◌, ◌≢◌, ◌<◌, ◌%◌, ℕ, List, true, false, unsigned_abs, Some, None, Ok, Err, IfSome, IfNone, IfErr};
ghost use Rattle.gix_date.specs.declared.error.Error.TheVariants.{InvalidTime};
ghost use Rattle.gix_date.specs.declared.time.Time.{Time as Read};
ghost use Rattle.gix_date_callers.specs as Spec;
ghost use Rattle.gix_date.specs as GixDate;
ghost use Rattle.gix_signature.specs as GixSignature;
ghost use Rattle.gix_signature.specs.declared.error.SignatureError.TheVariants.{BadPart};

use gix_date::device::Sink;
use gix_date::{Error, Time, laws, parse_header};
use gix_signature::{SignatureError, SignatureRef, laws as signature_laws, write_line};

/// Writes a header's time again, as Git writes it.
pub fn rewrite<W: Sink>(header: &str, out: &mut W) -> Result<(), Error>
    ensures none { GixDate.header_time header.now ≡ None → result ≡ Err InvalidTime }
    ensures some { (t : Read) → GixDate.header_time header.now ≡ Some t → GixDate.Writes t (W.known out.old) (W.known out.new) result }
{
    let time: Time = header.parse()?;
    time.write_to(out)
}

/// Writes a time as a header and reads it back: the same time.
pub fn kept_in_header(time: Time) -> Option<Time>
    requires short { unsigned_abs time.offset < GixDate.hundred_hours }
    requires whole { unsigned_abs time.offset % 60 ≡ 0 }
    ensures { result ≡ Some time }
{
    laws::written_is_read(time);
    let Ok(buf) = time.to_buf() else {
        return None;
    };
    parse_header(buf.as_str())
}

/// The time at which a commit's author wrote it, by the commit's line `author A U Thor <author@example.com> 1660874655
/// +0800`.
pub fn author_time(line: &str) -> Option<Time>
    ensures some { IfSome result (λ t. (p : GixSignature.Parts) × Spec.IsAuthored line.now p × (GixDate.header_time p.time ≡ Some t)) }
    ensures none { IfNone result ((p : GixSignature.Parts) → Spec.IsAuthored line.now p → GixDate.header_time p.time ≡ None) }
{
    let author = line.strip_prefix("author ")?;
    signature_laws::one_cut(author);
    SignatureRef::from_line(author)?.time_of()
}

/// Writes a signature line with another time, and answers whether the line was one: the name and the email stay.
pub fn redated<W: Sink>(line: &str, time: Time, out: &mut W) -> Result<bool, SignatureError>
    ensures no { result ≡ Ok false → GixSignature.HasNoCut line.now }
    ensures yes { result ≡ Ok true → (p : GixSignature.Parts) × GixSignature.IsCut line.now p × ((redated : List ℕ)
        × GixSignature.IsWritten p.name p.email time redated × GixDate.Takes (W.known out.old) (W.known out.new) redated) }
    ensures refuses { IfErr result (λ e. (p : GixSignature.Parts) × GixSignature.IsCut line.now p
        × GixSignature.WritesLine (GixSignature.line_due p.name p.email time) (W.known out.old) (W.known out.new) (Err e)) }
    ensures parts { result ≢ Err BadPart }
{
    let Some(signature) = SignatureRef::from_line(line) else {
        return Ok(false);
    };
    write_line(signature.name, signature.email, time, out)?;
    Ok(true)
}
