//! Times of commit headers.
ghost use Rattle.std.specs.Prelude.{◌≡◌};
ghost use Rattle.gix_date_c.specs as Spec;
ghost use Rattle.gix_date.specs as GixDate;

use crate::values::buffer::{store_bytes, store_text};
use crate::values::status::Status;
use crate::values::text::utf8_text;
use crate::values::time::{CTime, load_time, store_time};
use gix_date::bytes::text_of;
use gix_date::clock::usual_header_text;
use gix_date::time::any_header_text;
use gix_date::{Time, is_canonical_header, parse_header};
use streams::usual::is_usual_header;

/// The time of a commit header, read leniently.
#[unsafe(no_mangle)]
pub extern "C" fn gix_date_parse_header(text: &[u8], time: &mut CTime) -> u32
    ensures { Spec.StoresTime (Spec.header_answer text.now) time.old time.new result }
{
    store_time(header_time(text), time)
}

pub(crate) fn header_time(text: &[u8]) -> Result<Time, Status>
    ensures { result ≡ Spec.header_answer text.now }
{
    parse_header(utf8_text(text)?).ok_or(Status::InvalidTime)
}

/// The text of a time in a commit header. Nearly all have ten digits and six bytes more.
#[unsafe(no_mangle)]
pub extern "C" fn gix_date_write_header(time: &CTime, out: &mut [u8], len: &mut usize) -> u32
    ensures { Spec.outcome out.new len.new result ≡ Spec.outcome_of (Spec.header_text_answer (Spec.load_time time.now)) out.old }
{
    match usual_header_text(load_time(time)) {
        Some(text) => store_bytes(&text, out, len),
        None => write_any_header(time, out, len),
    }
}

/// The same of any time.
#[inline(never)]
fn write_any_header(time: &CTime, out: &mut [u8], len: &mut usize) -> u32
    ensures { Spec.outcome out.new len.new result ≡ Spec.outcome_of (Spec.header_text_answer (Spec.load_time time.now)) out.old }
{
    match &any_header_text(load_time(time)) {
        Some(text) => store_text(Ok(text.as_str()), out, len),
        None => store_text(Err(Status::OffsetTooWide), out, len),
    }
}

/// Whether a text comes back when it is read as a header and written.
#[unsafe(no_mangle)]
pub extern "C" fn gix_date_is_canonical_header(text: &[u8]) -> bool
    ensures { result ≡ GixDate.is_canonical_header text.now }
{
    is_canonical(text)
}

/// Whether bytes come back when they are read as a header and written. Of nearly all headers the first bytes say that.
#[inline(always)]
pub(crate) fn is_canonical(text: &[u8]) -> bool
    ensures { result ≡ GixDate.is_canonical_header text.now }
{
    is_usual_header(text) || comes_back(text)
}

#[tactic(auto, using(crate::proofs::Printed::no_header))]
fn comes_back(text: &[u8]) -> bool
    ensures { result ≡ GixDate.is_canonical_header text.now }
{
    match text_of(text) {
        Some(text) => is_canonical_header(text),
        None => false,
    }
}
