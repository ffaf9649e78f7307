//! Three callers of `gix_date`, as docs/CALLING.md shows them.
ghost use Rattle.std.specs.Prelude.{◌≡◌, Some, Err, Ok, IfErr, drop, ℕ};
ghost use Rattle.gix_date.specs.declared.error.Error.TheVariants.{Conversion};
ghost use Rattle.gix_date.specs.declared.time.Time.{Time as Read};
ghost use Rattle.jiff.specs.declared.zoned.Zoned.{Zoned as Moment};
ghost use Rattle.gix_date.specs as GixDate;

use gix_date::time::format::ISO8601;
use gix_date::{CarefulError, CarefulOptions, Error, Time, WithoutOffset, parse, parse_carefully};
use jiff::Zoned;
use std::alloc::Global;

/// Parses a date that was typed at the moment `now`.
pub fn date_typed(alloc: Global, date: &str, now: Time) -> Result<Time, Error>
    ensures typed { GixDate.IsConvertible now → (moment : Moment) × GixDate.IsMoment now moment
        × GixDate.ParseOutcome (GixDate.first_family date.now) date.now (Some moment) result }
    ensures refuses { ¬ (GixDate.IsConvertible now) → result ≡ Err Conversion }
{
    let moment = now.to_zoned()?;
    parse(alloc, date, Some(moment))
}

/// Parses a date that a person typed, in the zone of `now`. The error is what was not understood: `min ago` of
/// `30 min ago`, or the whole text.
pub fn date_meant<'a>(date: &'a str, now: Zoned<'_>) -> Result<Time, &'a str>
    ensures time { (t : Read) → result ≡ Ok t
        → GixDate.CarefulOutcome (GixDate.careful_reading (GixDate.in_zone GixDate.default_options) date.now) (Some now.entry) (Ok t) }
    ensures rest { (place : ℕ) → GixDate.careful_reading (GixDate.in_zone GixDate.default_options) date.now ≡ GixDate.Unclear place
        → IfErr result (λ rest. rest.now ≡ drop place date.now) }
{
    let options = CarefulOptions {
        without_offset: WithoutOffset::MomentsZone,
        ..CarefulOptions::default()
    };
    match parse_carefully(date, Some(now), options) {
        Ok(time) => Ok(time),
        Err(CarefulError::Unclear(place)) => Err(&date[place..]),
        Err(CarefulError::AfterYear9999 | CarefulError::Refused(_)) => Err(date),
    }
}

/// Prints a time as `git log --date=iso` does.
pub fn iso_date(alloc: Global, time: Time) -> Result<String, Error>
    ensures { GixDate.HasFourDigitFields time → GixDate.PrintsText GixDate.iso8601_text time result }
{
    gix_date_laws::printed(time);
    time.format(alloc, ISO8601.into())
}
