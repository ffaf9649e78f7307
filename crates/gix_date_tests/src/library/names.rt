//! Public names, each where it stands, and the traits that callers count on.
use crate::fakes::answers::{check, check_at, debug_has, debugs, shows};
use gix_date::names::{begins, day_name, is_name, weekday_of_word};
use gix_date::parsing::TimeBuf;
use gix_date::time::{CustomFormat, Format, format};
use gix_date::{
    CarefulError, CarefulOptions, Error, InputBytes, OffsetInSeconds, ParseError, RawOffsets,
    SecondsSinceUnixEpoch, Texts, Time, WithoutOffset, Zoned, parse, parse_carefully,
};
use gix_date_callers::more_callers::short_month;
use gix_date_tool::Mode;
use std::alloc::Global;

/// The two numbers of a time.
fn parts(time: Time) -> (SecondsSinceUnixEpoch, OffsetInSeconds) {
    (time.seconds, time.offset)
}

/// How long the text of the least time is, known without running.
const fn longest() -> usize {
    Time::MIN.size()
}

/// The text that was refused, if one was.
pub(crate) fn refused(alloc: Global, text: &str, now: Option<Zoned<'_>>) -> Option<InputBytes> {
    match parse(alloc, text, now) {
        Err(Error::UnknownFormat { input }) => Some(input),
        _ => None,
    }
}

/// Whether the text is refused, and comes back as it was.
pub(crate) fn comes_back(alloc: Global, text: &str, now: Option<Zoned<'_>>) -> bool {
    match refused(alloc, text, now) {
        Some(input) => input.as_bytes() == text.as_bytes(),
        None => false,
    }
}

#[test]
fn names_stand_at_the_root(rt: HostRuntime) {
    check(&rt, parts(Time::new(5, -60)) == (5, -60));
    check(&rt, longest() == 26);
    check(&rt, TimeBuf::default().as_str() == "");
    let moment = Time::new(5, -60).to_zoned().expect(&rt, "a moment");
    check(&rt, comes_back(rt.alloc(), "1:2", Some(moment)));
    let refusal = gix_date::parsing::parse_no_alloc("1:2", Some(moment), RawOffsets::Quarter);
    check(&rt, refusal == Err(ParseError::UnknownFormat));
}

#[test]
fn words_tell_months(rt: HostRuntime) {
    const MONTHS: [(&[u8], Option<&str>); 7] = [
        (b"august", Some("Aug")),
        (b"SEPT", Some("Sep")),
        (b"may", Some("May")),
        (b"Au", None),
        (b"mays", None),
        (b"augusta", None),
        (b"", None),
    ];
    for &(word, month) in &MONTHS {
        check_at(&rt, short_month(word) == month, &word);
    }
}

#[test]
fn words_tell_days(rt: HostRuntime) {
    const DAYS: [(&[u8], Option<u8>); 4] = [
        (b"Mondays", Some(0)),
        (b"tue", Some(1)),
        (b"SUNDAY", Some(6)),
        (b"frid!", None),
    ];
    for &(word, day) in &DAYS {
        check_at(&rt, weekday_of_word(word) == day, &word);
    }
    check(&rt, (day_name(0), day_name(6)) == ("Mon", "Sun"));
    check(&rt, is_name(b"NOON", b"noon") && !is_name(b"noo", b"noon"));
    check(
        &rt,
        begins(b"noo", b"NOON") && begins(b"", b"") && !begins(b"noons", b"noon"),
    );
}

/// Whether two values are the same, by a full equality.
pub(crate) fn same<T: Eq>(one: &T, other: &T) -> bool {
    one == other
}

#[test]
fn types_have_the_traits_that_callers_count_on(rt: HostRuntime) {
    check(
        &rt,
        same(&gix_date::time::Time::new(5, -60), &Time::new(5, -60)),
    );
    check(&rt, same(&Mode::Parse, &Mode::Parse));
    check(
        &rt,
        same(&Mode::Sign, &Mode::Sign) && !same(&Mode::Sign, &Mode::Parse),
    );
    check(&rt, !same(&RawOffsets::Quarter, &RawOffsets::WholeMinutes));
    check(&rt, same(&ParseError::Range, &ParseError::Range));
    check(&rt, !same(&ParseError::Range, &ParseError::MissingNow));
    let time = gix_date::time::Time::new(5, -60);
    let mut buf = TimeBuf::default();
    check(&rt, time.to_str(&mut buf).is_ok());
    let lent: &TimeBuf = &buf;
    let copied = *lent;
    check(&rt, copied.as_str() == "5 -0001");
}

/// A format of our own, known without running.
const fn of_a_log() -> CustomFormat {
    CustomFormat::new("%Y")
}

#[test]
fn formats_have_names(rt: HostRuntime) {
    const NAMED: [CustomFormat; 7] = [
        format::SHORT,
        format::RFC2822,
        format::GIT_RFC2822,
        format::ISO8601,
        format::ISO8601_STRICT,
        format::GITOXIDE,
        format::DEFAULT,
    ];
    for custom in &NAMED {
        check_at(&rt, debug_has(rt.alloc(), custom, "%Y"), &custom);
    }
    for other in [format::UNIX, format::RAW, Format::Custom(of_a_log())] {
        check(&rt, debug_has(rt.alloc(), &other, ""));
    }
}

#[test]
fn careful_options_and_refusals_are_as_told(rt: HostRuntime) {
    let options = CarefulOptions::default();
    check(&rt, options.raw == RawOffsets::Quarter);
    check(&rt, options.without_offset == WithoutOffset::Utc);
    check(&rt, options.texts == Texts::Careful);
    check(
        &rt,
        debugs(
            rt.alloc(),
            &options,
            "CarefulOptions { raw: Quarter, without_offset: Utc, texts: Careful }",
        ),
    );
    for &(text, refusal) in &[
        ("30 min ago", CarefulError::Unclear(3)),
        ("banana", CarefulError::Refused(ParseError::UnknownFormat)),
        ("1704450600000", CarefulError::AfterYear9999),
    ] {
        let answer = parse_carefully(text, None, CarefulOptions::default());
        check(&rt, answer == Err(refusal));
    }
}

#[test]
fn each_careful_refusal_says_what_is_wrong(rt: HostRuntime) {
    for &(refusal, text) in &[
        (
            CarefulError::Unclear(3),
            "not understood from byte 3 on; expected a date, or counts and whole units, then `ago`, such as \"2 weeks ago\"",
        ),
        (
            CarefulError::AfterYear9999,
            "a number of seconds after the year 9999; if milliseconds were meant, divide them by 1000, and if a date and a clock, \
         write them as \"2024-01-05 10:30:00\"; `@` before the number reads it as seconds",
        ),
    ] {
        check(&rt, shows(rt.alloc(), &refusal, text));
    }
    let text = format!(in rt.alloc(); "{}", ParseError::MissingNow).expect(&rt, "memory");
    check(
        &rt,
        shows(
            rt.alloc(),
            &CarefulError::Refused(ParseError::MissingNow),
            text.as_str(),
        ),
    );
}
