//! The reader: one token after the other, and what the whole text says.
ghost use Rattle.std.specs.Prelude.{◌≡◌, ◌≤◌, length, IfOk, IfSome, Some, None, true, false, pos};
ghost use Rattle.git_date.specs as Spec;
ghost use Rattle.gix_date.specs as GixDate;
ghost use Rattle.jiff.specs.Words.{plain_zone};

use crate::clocks::is_instant;
use crate::error::{DateError, Fault};
use crate::fast::{default, iso8601, iso8601_strict, local, offset, rfc2822};
use crate::fields::Fields;
use crate::fields::dates::{Now, exact_seconds};
use crate::fields::digits::{MIN_EPOCH, Stepped, digits_rule};
use crate::fields::offsets::{at_text, offset_rule};
use crate::tokens::words::{letters_rule, without_ending};
use crate::tokens::{Token, is_end, next_token, up_to_nul};
use crate::zones::{Asked, before_leap, found_offset};
use gix_date::{Time, Zoned, parse_ten_digits};
use jiff::Timestamp;
use jiff::tz::TimeZone;

/// How many bytes `1660797906 +0800` has.
const RAW_LEN: usize = 16;

/// The first second after the years that Git knows.
const FIRST_OF_YEAR_2100: u64 = 4_102_444_800;

/// What was read so far.
#[derive(Clone, Copy)]
pub(crate) struct Reading {
    fields: Fields,
    /// How many bytes are left from the first token on that no rule used.
    ignored: Option<usize>,
}

/// What a text says, before a zone is asked.
#[derive(Clone, Copy)]
pub(crate) struct Said {
    /// The seconds that a clock has counted since 1970-01-01 00:00:00, or those of the instant.
    pub(crate) seconds: i64,
    /// The minutes of the offset.
    pub(crate) offset: Option<i16>,
    /// Whether the seconds are those of the instant, so that the offset is not subtracted.
    pub(crate) epoch: bool,
    /// Whether the clock shows second 60.
    pub(crate) leap: bool,
    /// The place of the first word or number that no rule used, or else of a NUL.
    pub(crate) ignored: Option<usize>,
}

impl Reading {
    const NOTHING: Reading = Reading {
        fields: Fields::UNKNOWN,
        ignored: None,
    };

    /// These fields, of a text of which all is used.
    fn of(fields: Fields) -> Reading
        ensures { result ≡ record { fields = fields; ignored = None } }
    {
        Reading {
            fields,
            ignored: None,
        }
    }

    /// What is read after a step, before which so many bytes were left.
    fn read_on(self, left: usize, next: Option<Fields>) -> Reading
        ensures { result ≡ Spec.read_on self left next }
    {
        match next {
            Some(fields) => Reading { fields, ..self },
            None => Reading {
                ignored: self.ignored.or(Some(left)),
                ..self
            },
        }
    }
}

/// What a sign says. Only directly before digits Git reads an offset.
#[tactic(auto, unfolding(crate::specs::sign_rule))]
#[inline(always)]
fn sign_rule<'a>(fields: Fields, behind: bool, text: &'a [u8]) -> Stepped<'a>
    ensures value { Spec.step_view result ≡ Spec.sign_rule fields behind (Spec.tokens text.now) }
    ensures shorter { IfOk result (λ found. length found.1.now ≤ length text.now) }
{
    match next_token(text) {
        Some((Token::Digits(run), rest)) => {
            let (next, rest) = offset_rule(fields, behind, run, rest)?;
            Ok((next, without_ending(rest)))
        }
        _ => Ok((Some(fields), text)),
    }
}

/// What a token says, with what its rule takes of the text after it.
fn rule<'a>(now: Now, fields: Fields, token: Token<'_>, text: &'a [u8]) -> Stepped<'a>
    ensures value { Spec.step_view result ≡ Spec.rule now fields (Spec.token_of token.entry) (Spec.tokens text.now) }
    ensures shorter { IfOk result (λ found. length found.1.now ≤ length text.now) }
{
    match token {
        Token::Letters(run) => Ok((letters_rule(fields, run, text), text)),
        Token::Digits(run) => {
            let (next, rest) = digits_rule(now, fields, run, text)?;
            Ok((next, without_ending(rest)))
        }
        Token::Mark(b'+') => sign_rule(fields, false, text),
        Token::Mark(b'-') => sign_rule(fields, true, text),
        Token::Mark(_) => Ok((Some(fields), text)),
    }
}

/// What the tokens of a text say, one after the other.
fn reading_of(now: Now, text: &[u8]) -> Result<Reading, Fault>
    ensures { result ≡ Spec.reading_of now text.now }
{
    let mut reading = Reading::NOTHING;
    let mut rest = text;
    'tokens: while let Some((token, after)) = next_token(rest) {
        if is_end(token) {
            return Ok(reading);
        }
        let (next, later) = match rule(now, reading.fields, token, after) {
            Ok(step) => step,
            Err(fault) => return Err(fault),
        };
        reading = reading.read_on(rest.len(), next);
        rest = later;
    }
    Ok(reading)
}

/// The place in a text from which on so many bytes are left.
pub(crate) fn place_in(text: &[u8], left: usize) -> usize
    ensures { result ≡ Spec.place_in text.now left }
{
    text.len().saturating_sub(left)
}

pub(crate) fn error_of(text: &[u8], fault: Fault) -> DateError
    ensures { result ≡ Spec.error_of text.now fault }
{
    match fault {
        Fault::NumberTooLarge(left) => DateError::NumberTooLarge(place_in(text, left)),
        Fault::YearRefused(left) => DateError::YearRefused(place_in(text, left)),
        Fault::BackTooFar(left) => DateError::BackTooFar(place_in(text, left)),
        Fault::Range => DateError::Range,
    }
}

/// An instant by its seconds, with minutes of offset.
#[inline(always)]
fn said_at(seconds: i64, minutes: i16) -> Said
    ensures { result ≡ record { seconds = seconds; offset = Some minutes; epoch = true; leap = false; ignored = None } }
{
    Said {
        seconds,
        offset: Some(minutes),
        epoch: true,
        leap: false,
        ignored: None,
    }
}

/// What `@` and its seconds say.
#[tactic(auto, unfolding(crate::specs::at_said))]
fn at_said(seconds: u64, minutes: i16) -> Result<Said, DateError>
    ensures value { result ≡ Spec.at_said (seconds, minutes) }
    ensures instant { IfOk result Spec.SaidIsInstant }
{
    let seconds = i64::try_from(seconds).ok().ok_or(DateError::Range)?;
    if !is_instant(seconds) {
        return Err(DateError::Range);
    }
    Ok(said_at(seconds, minutes))
}

/// The seconds of ten digits, in the years that Git knows.
#[tactic(auto, using(crate::proofs::Exact::FastSeconds::ten_digits))]
#[inline(always)]
fn seconds(text: &[u8]) -> Option<u64>
    ensures { IfSome result (Spec.WritesSeconds text.now) }
{
    let n = parse_ten_digits(text)?;
    (MIN_EPOCH <= n && n < FIRST_OF_YEAR_2100).then_some(n)
}

/// The seconds and the minutes of offset of `1660797906 +0800`.
#[inline(always)]
fn raw(text: &[u8]) -> Option<(u64, i16)>
    ensures { IfSome result (Spec.WritesRaw text.now) }
{
    if text.len() != RAW_LEN || text[10] != b' ' {
        return None;
    }
    let seconds = seconds(&text[..10])?;
    let offset = offset(&text[11..])?;
    Some((seconds, offset))
}

/// The seconds of `1660797906`, alone or after `@`.
#[tactic(auto, using(crate::proofs::Exact::FastSeconds::at_alone_is, crate::proofs::Exact::FastSeconds::alone_is, crate::proofs::Exact::FastSeconds::alone_instant))]
#[inline(always)]
fn seconds_alone(text: &[u8]) -> Option<u64>
    ensures says { IfSome result (λ n. Spec.Says text.now (Spec.said_alone n)) }
    ensures instant { IfSome result (λ n. GixDate.is_instant (pos n) ≡ true) }
{
    match text {
        [at, rest @ ..] if *at == b'@' => seconds(rest),
        _ => seconds(text),
    }
}

/// What seconds say, whose offset the zone has.
#[tactic(auto, using(gix_date::proofs::Text::Ints::held, crate::proofs::Exact::FastSeconds::instant_fits))]
#[inline(always)]
fn said_alone(seconds: u64) -> Said
    requires { GixDate.is_instant (pos seconds) ≡ true }
    ensures { result ≡ Spec.said_alone seconds }
{
    Said {
        seconds: seconds as i64,
        offset: None,
        epoch: true,
        leap: false,
        ignored: None,
    }
}

/// What the fields say that were read. Without a year, a month or a clock Git reads no date.
#[tactic(auto, unfolding(crate::specs::fields_said))]
#[inline(always)]
fn fields_said(text: &[u8], read: Result<Reading, Fault>) -> Result<Said, DateError>
    ensures value { result ≡ Spec.fields_said text.now read }
    ensures instant { IfOk result Spec.SaidIsInstant }
{
    let reading = read.map_err(|fault| error_of(text, fault))?;
    let seconds = exact_seconds(reading.fields).ok_or(DateError::Unreadable)?;
    if !is_instant(seconds) {
        return Err(DateError::Range);
    }
    Ok(Said {
        seconds,
        offset: reading.fields.offset,
        epoch: reading.fields.epoch,
        leap: reading.fields.is_leap(),
        ignored: reading.ignored.map(|left| place_in(text, left)),
    })
}

/// Whether a text has fewer than three digits, and no colon.
fn has_few_digits(text: &[u8]) -> bool
    ensures { result ≡ Spec.has_few_digits text.now }
{
    !text.contains(&b':') && text.iter().filter(|b| b.is_ascii_digit()).count() < 3
}

/// Whether the third byte is a digit, as in most dates that are no words. This costs less than to count digits.
fn third_is_digit(text: &[u8]) -> bool {
    matches!(text, [_, _, third, ..] if third.is_ascii_digit())
}

/// What the tokens of a text say. Few digits say no clock, so that words are not read here.
#[tactic(auto, using(crate::proofs::Exact::FewDigits::digits_are_few))]
fn tokens_said(now: Timestamp, text: &[u8]) -> Result<Said, DateError>
    ensures value { result ≡ Spec.fields_said text.now (Spec.reading_of (Spec.now_at now.nanosecond) text.now) }
    ensures instant { IfOk result Spec.SaidIsInstant }
{
    if !third_is_digit(text) && has_few_digits(text) {
        return Err(DateError::Unreadable);
    }
    fields_said(text, reading_of(Now::of(now), text))
}

/// What a text without NUL says. The instant is asked only where its tokens are read.
#[tactic(auto, unfolding(crate::specs::string_said))]
fn string_said(now: Timestamp, text: &[u8]) -> Result<Said, DateError>
    ensures value { result ≡ Spec.string_said (Spec.now_at now.nanosecond) text.now }
    ensures instant { IfOk result Spec.SaidIsInstant }
{
    match at_text(text) {
        Some((seconds, minutes)) => at_said(seconds, minutes),
        None => tokens_said(now, text),
    }
}

/// What a text says, up to its first NUL.
#[tactic(auto, unfolding(crate::specs::said_by))]
pub(crate) fn said_by(now: Timestamp, text: &[u8]) -> Result<Said, DateError>
    ensures value { result ≡ Spec.said_by (Spec.now_at now.nanosecond) text.now }
    ensures instant { IfOk result Spec.SaidIsInstant }
{
    let (string, nul) = up_to_nul(text);
    let said = string_said(now, string)?;
    Ok(Said {
        ignored: said.ignored.or(nul),
        ..said
    })
}

/// What [`parse_date`] reads.
#[derive(Clone, Copy, Debug, PartialEq, Eq)]
pub struct ExactDate {
    /// The time: seconds since 1970-01-01 00:00:00 UTC, and the offset in seconds east of UTC, of whole minutes.
    pub time: Time,
    /// Whether the text names its offset, as `+0200`, `Z` or `EST`, so that each zone gives the same date. As in Git, `-0001` names
    /// none, but after `@` it does.
    pub has_offset: bool,
    /// The place, in bytes, of the first word, number or sign of an offset that no rule used, so that a program can say so; or
    /// else that of the first NUL, which ends the text.
    ///
    /// Not counted are other marks, the ending of a number as in `7th`, one `T` between digits, and, if no digit follows
    /// directly, `ago`, `at`, `on`, `of`, `the`, `and`. A day of the week is used then, though it is not compared. So is what
    /// another word overrules: of `2009-01-01 10:00 11:00 +0000` nothing is ignored.
    pub ignored: Option<usize>,
}

/// Reads a date as Git's exact reader does. A text without an offset has that of the moment's zone.
///
/// That is the offset by which Git, in the first date of a process, finds the local time in the zone: it goes from UTC's offset to
/// the one that the zone has there, until an offset shows the time. Of a time that the zone's clock skips it is the one that
/// leads into daylight saving time. The moment itself matters only to a date such as `7/4/2009` after a clock, which is refused if it is
/// more than ten days ahead.
///
/// The text is bytes, UTF-8 or not: each byte that is not ASCII is a mark, which is skipped. As in Git, whose dates are C strings,
/// a NUL ends the text: [`ExactDate::ignored`] tells of it, also where nothing follows. [`DateError`] says when a text is
/// refused. A place that the answer has is one where a character of the text begins. Takes no memory.
pub fn parse_date(text: &[u8], now: Zoned<'_>) -> Result<ExactDate, DateError>
    ensures date { Spec.DateOutcome now.entry text.now result }
    ensures places { Spec.HasPlacesIn text.now result }
{
    parse_date_at(text, now.timestamp(), now.time_zone())
}

/// [`parse_date`] at an instant in a zone. The zone is asked only for a text without an offset, so most texts cost less so.
#[tactic(auto, using(crate::proofs::Exact::Places::places))]
#[inline(always)]
pub fn parse_date_at(
    text: &[u8],
    now: Timestamp,
    zone: TimeZone<'_>,
) -> Result<ExactDate, DateError>
    ensures date { Spec.DateOutcomeAt now.nanosecond (plain_zone zone.entry) text.now result }
    ensures places { Spec.HasPlacesIn text.now result }
{
    match printed_date(text) {
        Some(date) => Ok(date),
        None => other_date(text, now, zone),
    }
}

/// The date of a text that is not as Git prints dates. Apart, so that those need no stack for it: not even a copy of the zone.
#[inline(never)]
fn other_date(text: &[u8], now: Timestamp, zone: TimeZone<'_>) -> Result<ExactDate, DateError>
    ensures { Spec.DateOutcomeAt now.nanosecond (plain_zone zone.entry) text.now result }
{
    match local_said(text) {
        Some(said) => date_said(said, &zone),
        None => date_by_tokens(text, now, &zone),
    }
}

/// What a text says, token by token. Apart, so that other dates need no stack for that.
#[inline(never)]
fn date_by_tokens(text: &[u8], now: Timestamp, zone: &TimeZone<'_>) -> Result<ExactDate, DateError>
    ensures { Spec.DateOutcomeAt now.nanosecond (plain_zone zone.now) text.now result }
{
    date_said(said_by(now, text), zone)
}

/// Whether a text has the length of `1660797906`, `2024-01-05`, `2024-01-05 10:00` or `2024-01-05 10:00:06`, and a digit or a date's
/// mark as its fifth byte, as few texts of people have.
#[inline(always)]
fn may_be_local(text: &[u8]) -> bool {
    matches!(text.len(), 10 | 11 | 16 | 19) && matches!(text[4], b'0'..=b'9' | b'-' | b'.' | b'/')
}

/// What seconds alone say, or a day and a clock. `None` means only that a text has another form.
#[tactic(auto, using(crate::proofs::Exact::SaidDates::seconds_tell, crate::proofs::Exact::SaidDates::fields_tell))]
#[inline(always)]
fn local_said(text: &[u8]) -> Option<Result<Said, DateError>>
    ensures says { IfSome result (Spec.Tells text.now) }
    ensures instant { IfSome result (λ said. IfOk said Spec.SaidIsInstant) }
{
    if !may_be_local(text) {
        return None;
    }
    if let Some(seconds) = seconds_alone(text) {
        return Some(Ok(said_alone(seconds)));
    }
    let fields = local(text)?;
    Some(fields_said(text, Ok(Reading::of(fields))))
}

/// The date of a text as Git prints it, the same at each moment and in each zone. `None` means only that a text has another form, or is
/// refused.
fn printed_date(text: &[u8]) -> Option<ExactDate>
    ensures { IfSome result (Spec.SaysDate text.now) }
{
    match text.len() {
        25 if text[10] == b'T' => fields_date(text, iso8601_strict(text)?),
        25 => fields_date(text, iso8601(text)?),
        29 => fields_date(text, default(text)?),
        30 | 31 if text[3] == b',' => fields_date(text, rfc2822(text)?),
        30 => fields_date(text, default(text)?),
        16 | 17 => raw_date(text),
        _ => None,
    }
}

/// The date of `1660797906 +0800`, alone or after `@`.
#[tactic(auto, using(gix_date::proofs::Text::Ints::held, crate::proofs::Exact::FastSeconds::at_text_is, crate::proofs::Exact::FastSeconds::raw_text_is))]
#[inline(always)]
fn raw_date(text: &[u8]) -> Option<ExactDate>
    ensures { IfSome result (Spec.SaysDate text.now) }
{
    let after = match text {
        [at, rest @ ..] if *at == b'@' => rest,
        _ => text,
    };
    let (seconds, minutes) = raw(after)?;
    said_date(text, said_at(seconds as i64, minutes))
}

/// The date of the fields that a text says, where they have an offset.
#[inline(always)]
fn fields_date(text: &[u8], fields: Fields) -> Option<ExactDate>
    requires { Spec.SaysFields text.now fields }
    ensures { IfSome result (Spec.SaysDate text.now) }
{
    match fields_said(text, Ok(Reading::of(fields))) {
        Ok(said) => said_date(text, said),
        Err(_) => None,
    }
}

/// The date of what a text says, where that has an offset.
#[tactic(auto, using(crate::proofs::Exact::SaidDates::said_is_date))]
#[inline(always)]
fn said_date(text: &[u8], said: Said) -> Option<ExactDate>
    requires says { Spec.Says text.now said }
    requires instant { Spec.SaidIsInstant said }
    ensures { IfSome result (Spec.SaysDate text.now) }
{
    let minutes = said.offset?;
    match date_at(said, i32::from(minutes)) {
        Ok(date) => Some(date),
        Err(_) => None,
    }
}

/// The date that a text says, in the zone if it says no offset.
#[inline(always)]
fn date_said(said: Result<Said, DateError>, zone: &TimeZone<'_>) -> Result<ExactDate, DateError>
    requires { IfOk said Spec.SaidIsInstant }
    ensures { result ≡ Spec.date_of (plain_zone zone.now) said }
{
    let said = said?;
    match said.offset {
        Some(minutes) => date_at(said, i32::from(minutes)),
        None => date_in_zone(said, zone),
    }
}

/// The seconds since 1970, at an offset in minutes. It does not affect those of an epoch, as git-fast-import's manual says.
fn instant_seconds(said: Said, minutes: i64) -> i64
    requires said { Spec.SaidIsInstant said }
    requires minutes { Spec.IsMinutes minutes }
    ensures { result ≡ Spec.instant_seconds said minutes }
{
    if said.epoch {
        said.seconds
    } else {
        said.seconds - 60 * minutes
    }
}

/// The date at an offset in minutes. For seconds below 0 Git prints 2^64 more, so they are refused.
#[tactic(auto, using(gix_date::proofs::Text::Ints::held, jiff_core::proofs::SignedLemmas::signed_arith), unfolding(crate::specs::date_at))]
fn date_at(said: Said, minutes: i32) -> Result<ExactDate, DateError>
    requires said { Spec.SaidIsInstant said }
    requires minutes { Spec.IsMinutes minutes }
    ensures { result ≡ Spec.date_at said minutes }
{
    let seconds = instant_seconds(said, i64::from(minutes));
    if 0 <= seconds {
        Ok(ExactDate {
            time: Time::new(seconds, 60 * minutes),
            has_offset: said.offset.is_some(),
            ignored: said.ignored,
        })
    } else {
        Err(DateError::Range)
    }
}

/// The date at the zone's offset where its clock shows these seconds. Git keeps whole minutes of an offset.
#[inline(always)]
fn date_in_zone(said: Said, zone: &TimeZone<'_>) -> Result<ExactDate, DateError>
    requires { Spec.SaidIsInstant said }
    ensures { result ≡ Spec.date_in said (Spec.said_in (Spec.states_of (plain_zone zone.now)) said) }
{
    let asked = Asked {
        clock: before_leap(said.leap, said.seconds),
        daylight: None,
    };
    let offset = found_offset(*zone, asked, 0).ok_or(DateError::Range)?;
    date_at(said, offset / 60)
}
