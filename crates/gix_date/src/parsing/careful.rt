//! Dates for callers that must not guess: which texts are careful, and which zone a date without an offset has.
ghost use Rattle.std.specs.Prelude.{◌≡◌, ◌-ℤ◌, [], ◌∷◌, true, if◌then◌else◌, Some, None, IfOk, IfErr, IfSome, IsCharBoundary, List};
ghost use Rattle.std.specs.Prelude.{option_map, ℕ};
ghost use Rattle.jiff.specs.Words.{fixed_zone, IsOffsetSeconds};
ghost use Rattle.jiff_core.specs.Calendar.{weekday_number};
ghost use Rattle.gix_date.specs.declared.parsing.careful.Texts.TheVariants.{Careful, All};
ghost use Rattle.gix_date.specs as Spec;

use crate::error::{CarefulError, ParseError};
use crate::names::weekday_of_word;
use crate::parsing::Answer;
use crate::parsing::dates::{MIN_EPOCH, first_answer, outcome};
use crate::parsing::fronts::longest_front;
use crate::parsing::git::{GitDate, parse_git_date, parse_unzoned_git};
use crate::parsing::numbers::parse_int;
use crate::parsing::patterns::parse_unzoned_day;
use crate::parsing::raw::{RawOffsets, parse_raw};
use crate::parsing::relative::pairs::unclear_place;
use crate::parsing::relative::steps::to_instant;
use crate::parsing::relative::{Relative, time_of_moment};
use crate::time::{LAST_OF_YEAR_9999, SECONDS_PER_DAY, Time};
use jiff::tz::Offset;
use jiff::{Timestamp, Zoned};

/// What a date means in which no offset is written: a day alone, or one of Git's own forms such as `2024-01-05 10:00`.
#[derive(Debug, Clone, Copy, PartialEq, Eq)]
pub enum WithoutOffset {
    /// It is in UTC, as for [`parse`](crate::parse).
    Utc,
    /// It is in the moment's zone. In a fold that is the earlier instant, and in a gap it is moved later, as in `jiff`.
    MomentsZone,
}

/// Which texts are read.
#[derive(Debug, Clone, Copy, PartialEq, Eq)]
pub enum Texts {
    /// Those that say all that is read, and nothing else.
    ///
    /// Relative texts are `now`, `today`, `yesterday`, and counts with their units, then `ago`: `2 weeks and 3 days ago`,
    /// `1.day.ago`. A count is digits, or `one` to `ten`. A unit is `second`, `minute`, `hour`, `day`, `week`, `month` or
    /// `year`, perhaps with an `s`; no unit may be shortened. Between words may stand white space of ASCII, `,`, `.` and
    /// `_`, and `-` directly after a word. `and` may stand before a count that is not the first. Letters have any case.
    ///
    /// In one of Git's own forms only a fraction of the seconds and an offset may follow the clock. A day of the week has
    /// to be that of the date. Seconds, alone or before an offset, are from 100000000 to the end of the year 9999 by UTC,
    /// 253402300799, unless `@` is before them: other numbers may be dates, or milliseconds.
    Careful,
    /// All that [`parse`](crate::parse) reads: `30 min ago` is 30 seconds ago there, and `2024-01-05 10.30` is ten.
    All,
}

/// How [`parse_carefully`] reads. By default: raw offsets in quarters of an hour, dates without an offset in UTC, and careful
/// texts.
#[derive(Debug, Clone, Copy, PartialEq, Eq)]
pub struct CarefulOptions {
    /// Which offsets raw texts may have.
    pub raw: RawOffsets,
    /// What a date means in which no offset is written.
    pub without_offset: WithoutOffset,
    /// Which texts are read.
    pub texts: Texts,
}

impl Default for CarefulOptions {
    ghost is_default = { λ options. options ≡ Spec.default_options };

    fn default() -> CarefulOptions {
        CarefulOptions {
            raw: RawOffsets::Quarter,
            without_offset: WithoutOffset::Utc,
            texts: Texts::Careful,
        }
    }
}

/// What a text says by the options.
#[derive(Clone, Copy)]
pub(crate) enum Reading<'a> {
    /// A date of the moment's zone, by its time in UTC.
    Local(Time),
    /// A text that is not careful from this place on.
    Unclear(usize),
    /// A number of seconds that are after the year 9999.
    AfterYear9999,
    /// What the first family answers.
    First(Option<Answer<'a>>),
}

/// Reads a date as [`parse_with`](crate::parse_with) does, but refuses it unless each of its characters says something
/// that is used ([`Texts::Careful`]).
///
/// [`CarefulError::Unclear`] for a text that begins as a date or as a relative text and stops being one, or that
/// [`parse`](crate::parse) reads with a guess. It has the place, in bytes, of the first character that does not fit: the
/// end of the longest front that some form has, or the text's length if its end is missing. The text may be cut there.
///
/// [`CarefulError::AfterYear9999`] for a number of seconds above 253402300799, alone or before an offset, without `@`. It
/// may be milliseconds (`1704450600000`), or a date and a clock (`20240105103000`).
///
/// [`CarefulError::Refused`] has the refusals of [`parse_no_alloc`](crate::parse_no_alloc). Of these,
/// [`ParseError::UnknownFormat`] is for a text that begins as no form. [`ParseError::MissingNow`] is also for a date that
/// has to be in the moment's zone without a moment, and [`ParseError::Range`] if such a date has no instant there. Takes no
/// memory.
// Inlined, so that the moment is not copied for a call.
#[inline(always)]
pub fn parse_carefully(
    input: &str,
    now: Option<Zoned<'_>>,
    options: CarefulOptions,
) -> Result<Time, CarefulError>
    ensures outcome { Spec.CarefulOutcome (Spec.careful_reading options input.now) now.entry result }
    ensures boundary { IfErr result (Spec.IsPlaceIn input.now) }
    ensures offset_fits { IfOk result (λ t. IsOffsetSeconds t.offset) }
{
    match read(input, options) {
        Reading::Local(time) => local_time(time, now),
        Reading::Unclear(place) => Err(CarefulError::Unclear(place)),
        Reading::AfterYear9999 => Err(CarefulError::AfterYear9999),
        Reading::First(answer) => match outcome(answer, now) {
            Ok(time) => Ok(time),
            Err(refusal) => Err(CarefulError::Refused(refusal)),
        },
    }
}

/// What a text says by the options. Not inlined, so that its frame is not that of a caller with a moment.
#[tactic(auto, unfolding(crate::specs::careful_reading))]
#[inline(never)]
fn read(input: &str, options: CarefulOptions) -> Reading<'_>
    ensures reading { Spec.reading_of result ≡ Spec.careful_reading options input.now }
    ensures fits { Spec.IsReadingOf input.now result }
{
    match options.texts {
        Texts::Careful => read_clear(input, options),
        Texts::All => read_all(input, options),
    }
}

/// What any text says.
fn read_all(input: &str, options: CarefulOptions) -> Reading<'_>
    ensures reading { Spec.reading_of result ≡ Spec.reading_of_texts All options input.now }
    ensures fits { Spec.IsReadingOf input.now result }
{
    if let Some(time) = local_date(input, options.without_offset) {
        return Reading::Local(time);
    }
    Reading::First(first_answer(input, options.raw))
}

/// What a careful text says. Pairs and Git's own forms come first, so that each is read once; no other family has an
/// earlier answer for them.
#[tactic(auto, using(crate::proofs::Careful::Unzoned::day_instant))]
fn read_clear(input: &str, options: CarefulOptions) -> Reading<'_>
    ensures reading { Spec.reading_of result ≡ Spec.reading_of_texts Careful options input.now }
    ensures fits { Spec.IsReadingOf input.now result }
{
    let Some(pairs_end) = unclear_place(input) else {
        return Reading::First(Some(Answer::Relative(Relative::MinusPairs(input))));
    };
    if let Some(date) = parse_git_date(input) {
        return read_git(input, date, options.without_offset, pairs_end);
    }
    if let Some(time) = parse_unzoned_day(input) {
        return read_unzoned(time, options.without_offset);
    }
    read_date(
        input,
        first_answer(input, options.raw),
        options.raw,
        pairs_end,
    )
}

/// What a text in one of Git's own forms says.
#[tactic(auto, using(crate::proofs::Careful::Unzoned::git_instant))]
fn read_git(
    input: &str,
    date: GitDate,
    without_offset: WithoutOffset,
    pairs_end: usize,
) -> Reading<'_>
    requires unzoned { Spec.unzoned_git_time input.now ≡ (if date.has_offset then None else Some date.time) }
    requires whole { date.is_whole ≡ Spec.is_whole_git input.now }
    requires offset { IsOffsetSeconds date.time.offset }
    requires boundary { IsCharBoundary input.now pairs_end }
    ensures reading { Spec.reading_of result ≡ Spec.clear_or (Spec.is_whole_git input.now)
        (Spec.unzoned_or without_offset (Spec.unzoned_git_time input.now) (Spec.First (Some (Spec.Absolute date.time))))
        (Spec.longest_front input.now pairs_end) }
    ensures fits { Spec.IsReadingOf input.now result }
{
    if !date.is_whole {
        return Reading::Unclear(longest_front(input, pairs_end));
    }
    if date.has_offset {
        return Reading::First(Some(Answer::Absolute(date.time)));
    }
    read_unzoned(date.time, without_offset)
}

/// What a date without an offset says, by its time in UTC.
fn read_unzoned<'a>(time: Time, without_offset: WithoutOffset) -> Reading<'a>
    requires instant { Spec.is_instant time.seconds ≡ true }
    requires offset { IsOffsetSeconds time.offset }
    ensures reading { Spec.reading_of result ≡ Spec.unzoned_reading without_offset time }
    ensures fits { (text : List ℕ) → Spec.IsReadingOf text result }
{
    match without_offset {
        WithoutOffset::Utc => Reading::First(Some(Answer::Absolute(time))),
        WithoutOffset::MomentsZone => Reading::Local(time),
    }
}

/// What the first answer says of a text that is neither pairs nor in one of Git's own forms.
#[tactic(auto, using(crate::proofs::Text::AsciiCuts::empty_end))]
fn read_date<'a>(
    input: &'a str,
    answer: Option<Answer<'a>>,
    raw: RawOffsets,
    pairs_end: usize,
) -> Reading<'a>
    requires offset { IfSome answer Spec.HasJiffOffset }
    requires boundary { IsCharBoundary input.now pairs_end }
    ensures reading { Spec.reading_of result ≡ Spec.date_reading (Spec.allows raw) input.now (Spec.longest_front input.now pairs_end)
        (option_map Spec.answer_of answer.entry) }
    ensures fits { Spec.IsReadingOf input.now result }
{
    if !names_no_other_day(input, answer) {
        return Reading::Unclear(0);
    }
    if !is_in_years(input, answer, raw) {
        return Reading::AfterYear9999;
    }
    if is_clear_answer(input, answer, raw) {
        return Reading::First(answer);
    }
    let place = longest_front(input, pairs_end);
    if answer.is_none() && !has_word_before(input, place) {
        return Reading::First(None);
    }
    Reading::Unclear(place)
}

/// Whether a letter or digit of ASCII stands before this place.
#[tactic(auto, unfolding(crate::specs::has_word_before))]
fn has_word_before(input: &str, place: usize) -> bool
    requires { IsCharBoundary input.now place }
    ensures { result ≡ Spec.has_word_before input.now place }
{
    input[..place].bytes().any(|b| b.is_ascii_alphanumeric())
}

/// Whether a date that names a day of the week names its own.
fn names_no_other_day(input: &str, answer: Option<Answer<'_>>) -> bool
    ensures { result ≡ Spec.names_no_other_day input.now (option_map Spec.answer_of answer.entry) }
{
    match answer {
        Some(Answer::Absolute(time)) => names_its_day(input, time),
        _ => true,
    }
}

/// Whether an answer says all of its text but for a day of the week.
fn is_clear_answer(input: &str, answer: Option<Answer<'_>>, raw: RawOffsets) -> bool
    ensures { result ≡ Spec.is_clear_answer (Spec.allows raw) input.now (option_map Spec.answer_of answer.entry) }
{
    match answer {
        Some(Answer::Absolute(time)) => is_large_if_number(input, time, raw),
        Some(Answer::Relative(Relative::MinusPairs(_))) | None => false,
        _ => true,
    }
}

/// Whether an answer to a number of seconds is of the year 9999 at the latest.
fn is_in_years(input: &str, answer: Option<Answer<'_>>, raw: RawOffsets) -> bool
    ensures { result ≡ Spec.is_in_years (Spec.allows raw) input.now (option_map Spec.answer_of answer.entry) }
{
    match answer {
        Some(Answer::Absolute(time)) => is_in_years_if_number(input, time, raw),
        _ => true,
    }
}

/// Whether a text begins with no day of the week, or with that of the time's own clock.
#[tactic(auto, unfolding(crate::specs::names_its_day))]
fn names_its_day(input: &str, time: Time) -> bool
    ensures { result ≡ Spec.names_its_day input.now time }
{
    match first_day(input) {
        Some(day) => day == weekday_of(time),
        None => true,
    }
}

/// The day of the week, from 0 for Monday, that the first three letters name, in any letter case.
#[tactic(auto, unfolding(crate::specs::first_day, crate::specs::day_named))]
fn first_day(input: &str) -> Option<u8>
    ensures { result ≡ Spec.first_day input.now }
{
    match input.as_bytes() {
        [a, b, c, ..] => day_named(*a, *b, *c),
        _ => None,
    }
}

/// The day of the week, from 0 for Monday, that three letters name, in any letter case.
#[tactic(auto, using(crate::proofs::Fields::ThreeLetters::day_is_named), unfolding(crate::specs::day_named))]
fn day_named(a: u8, b: u8, c: u8) -> Option<u8>
    ensures { result ≡ Spec.day_named (a ∷ b ∷ c ∷ []) }
{
    weekday_of_word(&[a, b, c])
}

/// The day of the week by the time's own clock, from 0 for Monday.
fn weekday_of(time: Time) -> u8
    ensures { result ≡ weekday_number (Spec.local_day time) }
{
    let local = i128::from(time.seconds) + i128::from(time.offset);
    let day = local.div_euclid(i128::from(SECONDS_PER_DAY));
    (day + 3).rem_euclid(7) as u8
}

/// Whether a number has as many seconds as a bare epoch needs.
#[tactic(auto, unfolding(crate::specs::is_large_if_number))]
fn is_large_if_number(input: &str, time: Time, raw: RawOffsets) -> bool
    ensures { result ≡ Spec.is_large_if_number (Spec.allows raw) input.now time }
{
    time.seconds >= MIN_EPOCH || !is_number(input, raw)
}

/// Whether a number has seconds of the year 9999 at the latest.
#[tactic(auto, unfolding(crate::specs::is_in_years_if_number))]
fn is_in_years_if_number(input: &str, time: Time, raw: RawOffsets) -> bool
    ensures { result ≡ Spec.is_in_years_if_number (Spec.allows raw) input.now time }
{
    time.seconds <= LAST_OF_YEAR_9999 || !is_number(input, raw)
}

/// Whether a text is a number of seconds, alone or before an offset.
#[tactic(auto, unfolding(crate::specs::is_number))]
fn is_number(input: &str, raw: RawOffsets) -> bool
    ensures { result ≡ Spec.is_number (Spec.allows raw) input.now }
{
    parse_raw(input, raw).is_some() || parse_int(input).is_some()
}

/// The time in UTC of a date that is one of the moment's zone.
#[tactic(auto, using(crate::proofs::Careful::Unzoned::unzoned_has))]
fn local_date(input: &str, without_offset: WithoutOffset) -> Option<Time>
    ensures date { result ≡ Spec.local_date without_offset input.now }
    ensures instant { IfSome result (λ t. Spec.is_instant t.seconds ≡ true) }
{
    match without_offset {
        WithoutOffset::Utc => None,
        WithoutOffset::MomentsZone => parse_unzoned(input),
    }
}

/// The time in UTC of a date in which no offset is written.
#[tactic(auto, unfolding(crate::specs::unzoned_time))]
fn parse_unzoned(input: &str) -> Option<Time>
    ensures { result ≡ Spec.unzoned_time input.now }
{
    if let Some(time) = parse_unzoned_day(input) {
        return Some(time);
    }
    parse_unzoned_git(input)
}

/// What a date of the moment's zone results in, by its time in UTC.
fn local_time(time: Time, now: Option<Zoned<'_>>) -> Result<Time, CarefulError>
    requires { Spec.is_instant time.seconds ≡ true }
    ensures outcome { Spec.CarefulOutcome (Spec.Local time) now.entry result }
    ensures boundary { (text : List ℕ) → IfErr result (Spec.IsPlaceIn text) }
    ensures offset_fits { IfOk result (λ t. IsOffsetSeconds t.offset) }
{
    let Some(moment) = now else {
        return Err(CarefulError::Refused(ParseError::MissingNow));
    };
    time_in_zone(time, moment).ok_or(CarefulError::Refused(ParseError::Range))
}

/// The time at which the clock of the moment's zone shows what the clock of UTC shows at this time, with the zone's offset
/// there.
///
/// The zone chooses as for [`WithoutOffset::MomentsZone`]. `None` if it has no instant for that clock. Takes no memory.
fn time_in_zone(time: Time, moment: Zoned<'_>) -> Option<Time>
    requires { Spec.is_instant time.seconds ≡ true }
    ensures local { Spec.IsLocalIfAny (Spec.zone_of moment.entry) time result }
    ensures offset_fits { IfSome result (λ t. IsOffsetSeconds t.offset) }
{
    let Ok(instant) = Timestamp::from_second(time.seconds) else {
        return None;
    };
    let shown = Offset::UTC.to_datetime(instant);
    match to_instant(shown.date(), shown.time(), moment.time_zone()) {
        Some(local) => Some(time_of_moment(local)),
        None => None,
    }
}
