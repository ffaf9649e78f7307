//! How a line is read: as the call for one text reads it.
ghost use Rattle.std.specs.Prelude.{◌≡◌, Result};
ghost use Rattle.gix_date_c.specs as Spec;
ghost use Rattle.gix_signature.specs as GixSignature;

use crate::careful::{self, CCarefulOptions};
use crate::git::dates::{read_approximate, read_exact_now};
use crate::header::header_time;
use crate::parse;
use crate::signature::signature_of;
use crate::values::refusal::Refusal;
use crate::values::status::Status;
use crate::values::time::{CTime, time_for_c};
use gix_date::{Time, Zoned};

/// How each line of a block is read, and at which moment, if the call has one.
#[derive(Clone, Copy)]
pub(crate) enum LineReader<'z> {
    /// The number is that of no reader.
    NoSuch,
    Date {
        raw_offsets: u32,
        now: Option<Result<Zoned<'z>, Status>>,
    },
    Careful {
        options: CCarefulOptions,
        now: Option<Result<Zoned<'z>, Status>>,
    },
    Header,
    Signature,
    /// Git's exact reader.
    Exact {
        now: Result<Zoned<'z>, Status>,
    },
    /// Git's approximate reader.
    Approximate {
        now: Result<Zoned<'z>, Status>,
    },
}

/// The reader of a number, `enum gix_date_line_reader`.
pub(crate) fn line_reader<'z>(
    number: u32,
    options: &CCarefulOptions,
    now: Option<Result<Zoned<'z>, Status>>,
) -> LineReader<'z>
    ensures { result ≡ Spec.line_reader number options.now now.entry }
{
    match number {
        0 => LineReader::Date {
            raw_offsets: options.raw_offsets,
            now,
        },
        1 => LineReader::Careful {
            options: *options,
            now,
        },
        2 => LineReader::Header,
        3 => LineReader::Signature,
        _ => LineReader::NoSuch,
    }
}

impl LineReader<'_> {
    /// What a line says.
    #[inline(always)]
    pub(crate) fn read(&self, line: &[u8]) -> Result<CTime, Status>
        ensures { Spec.IsLineRead self.now line.now result }
    {
        match self {
            LineReader::NoSuch => Err(Status::NoSuchOption),
            LineReader::Date { raw_offsets, now } => for_c(read_date(line, *raw_offsets, *now)),
            LineReader::Careful { options, now } => without_place(read_carefully(
                line, options, *now,
            )),
            LineReader::Header => for_c(header_time(line)),
            LineReader::Signature => for_c(signed_time(line)),
            LineReader::Exact { now } => exact_time(line, *now),
            LineReader::Approximate { now } => approximate_time(line, *now),
        }
    }
}

/// What a line says as a date, at a moment or at none.
fn read_date(
    line: &[u8],
    raw_offsets: u32,
    now: Option<Result<Zoned<'_>, Status>>,
) -> Result<Time, Status>
    ensures { Spec.IsDate raw_offsets now.entry line.now result }
{
    match now {
        Some(now) => parse::parse_at(line, raw_offsets, now),
        None => parse::parse_text(line, raw_offsets, None),
    }
}

/// What a line says without guessing, at a moment or at none.
fn read_carefully(
    line: &[u8],
    options: &CCarefulOptions,
    now: Option<Result<Zoned<'_>, Status>>,
) -> Result<CTime, Refusal>
    ensures { Spec.IsCareful options.now now.entry line.now result }
{
    match now {
        Some(now) => careful::parse_at(line, options, now),
        None => careful::parse_text(line, options, None),
    }
}

/// The time of a signature line.
fn signed_time(line: &[u8]) -> Result<Time, Status>
    ensures { (cut : Result GixSignature.Parts Status) × Spec.IsCutAnswer line.now cut × (result ≡ Spec.time_of cut) }
{
    header_time(signature_of(line)?.time.as_bytes())
}

/// The time of one of Git's dates, read exactly.
fn exact_time(line: &[u8], now: Result<Zoned<'_>, Status>) -> Result<CTime, Status>
    ensures { Spec.IsExactLine (Spec.place_of now.entry) line.now result }
{
    let date = read_exact_now(line, now);
    date.map(|date| date.time).map_err(|refusal| refusal.status)
}

/// The time of one of Git's dates, read as people write it.
fn approximate_time(line: &[u8], now: Result<Zoned<'_>, Status>) -> Result<CTime, Status>
    ensures { Spec.IsApproximateLine now.entry line.now result }
{
    let date = read_approximate(line, now);
    date.map(|date| date.time).map_err(|refusal| refusal.status)
}

/// A time, as C has it.
pub(crate) fn for_c(answer: Result<Time, Status>) -> Result<CTime, Status>
    ensures { result ≡ Spec.for_c answer }
{
    answer.map(time_for_c)
}

/// What was read, without the place of a refusal.
fn without_place(answer: Result<CTime, Refusal>) -> Result<CTime, Status>
    ensures { result ≡ Spec.with_status answer }
{
    answer.map_err(|refusal| refusal.status)
}
