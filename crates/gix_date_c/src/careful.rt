//! Dates parsed without guessing.
ghost use Rattle.std.specs.Prelude.{◌≡◌, Some, None};
ghost use Rattle.std.specs.Result.{result_map_both};
ghost use Rattle.gix_date_c.specs as Spec;

use crate::moment::CInstant;
use crate::parse::{raw_rule, refusal_status};
use crate::values::refusal::Refusal;
use crate::values::status::Status;
use crate::values::store::store_read;
use crate::values::text::utf8_text;
use crate::values::time::{CTime, time_for_c};
use crate::zone::ShownZone;
use gix_date::{CarefulError, CarefulOptions, Texts, Time, WithoutOffset, Zoned, parse_carefully};

/// How a date is parsed carefully, each option by its number: `struct gix_date_careful_options`.
#[repr(C)]
#[derive(Clone, Copy)]
pub struct CCarefulOptions {
    pub raw_offsets: u32,
    pub without_offset: u32,
    pub texts: u32,
}

/// Parses a date carefully that is relative to no moment.
#[unsafe(no_mangle)]
pub extern "C" fn gix_date_parse_carefully(
    text: &[u8],
    options: &CCarefulOptions,
    time: &mut CTime,
    place: &mut usize,
) -> u32
    ensures { Spec.StoresRead (Spec.IsParsedCarefully options.now None text.now)
        (time.old, place.old) (time.new, place.new) result }
{
    store_read(parse_text(text, options, None), time, place)
}

/// Parses a date carefully, with a moment in a zone that C holds.
#[unsafe(no_mangle)]
pub extern "C" fn gix_date_parse_carefully_at(
    text: &[u8],
    options: &CCarefulOptions,
    now: &CInstant,
    zone: &ShownZone,
    time: &mut CTime,
    place: &mut usize,
) -> u32
    ensures { Spec.StoresRead (Spec.IsReadIn (λ now. Spec.IsParsedCarefully options.now (Some now))
        (Spec.IsShown zone.now) now.now text.now) (time.old, place.old) (time.new, place.new) result }
{
    let answer = parse_at(text, options, zone.moment(now));
    store_read(answer, time, place)
}

/// What a text says by the options of these numbers.
#[inline(always)]
pub(crate) fn parse_text(
    text: &[u8],
    numbers: &CCarefulOptions,
    now: Option<Zoned<'_>>,
) -> Result<CTime, Refusal>
    ensures { Spec.IsParsedCarefully numbers.now now.entry text.now result }
{
    let options = options_of(numbers).ok_or(Refusal::of(Status::NoSuchOption))?;
    let text = utf8_text(text).map_err(Refusal::of)?;
    for_c(parse_carefully(text, now, options))
}

/// What a text says at a moment, where there is one.
#[inline(always)]
pub(crate) fn parse_at(
    text: &[u8],
    numbers: &CCarefulOptions,
    now: Result<Zoned<'_>, Status>,
) -> Result<CTime, Refusal>
    ensures { Spec.IsReadAt (λ now. Spec.IsParsedCarefully numbers.now (Some now)) now.entry text.now result }
{
    parse_text(text, numbers, Some(now.map_err(Refusal::of)?))
}

/// The library's answer, as C is told it.
#[inline(always)]
fn for_c(answer: Result<Time, CarefulError>) -> Result<CTime, Refusal>
    ensures { result ≡ result_map_both Spec.time_for_c Spec.refusal_of answer }
{
    match answer {
        Ok(time) => Ok(time_for_c(time)),
        Err(CarefulError::Unclear(place)) => Err(Refusal::at(Status::Unclear, place)),
        Err(CarefulError::AfterYear9999) => Err(Refusal::of(Status::AfterYear9999)),
        Err(CarefulError::Refused(error)) => Err(Refusal::of(refusal_status(error))),
    }
}

fn options_of(numbers: &CCarefulOptions) -> Option<CarefulOptions>
    ensures { result ≡ Spec.options_of numbers.now }
{
    Some(CarefulOptions {
        raw: raw_rule(numbers.raw_offsets)?,
        without_offset: without_offset_of(numbers.without_offset)?,
        texts: texts_of(numbers.texts)?,
    })
}

fn without_offset_of(number: u32) -> Option<WithoutOffset>
    ensures { result ≡ Spec.without_offset_of number }
{
    match number {
        0 => Some(WithoutOffset::Utc),
        1 => Some(WithoutOffset::MomentsZone),
        _ => None,
    }
}

fn texts_of(number: u32) -> Option<Texts>
    ensures { result ≡ Spec.texts_of number }
{
    match number {
        0 => Some(Texts::Careful),
        1 => Some(Texts::All),
        _ => None,
    }
}
