//! Dates as Git reads them: what the rows cannot say.
use crate::fakes::answers::{all_show, check, debugs};
use crate::library::names::same;
use git_date::{
    DateError, DateKind, DateMode, ExactDate, MACHINE_ZONE, TableError, ZONE_FOLDER, parse_offset,
    zone_file, zone_folder, zone_of_text, zone_table, zone_without_file,
};
use gix_date::{Time, Zoned};
use gix_date_callers::approximate_caller::{human, reference_time, since};
use gix_date_callers::git_date_caller::date_and_ignored;
use gix_date_callers::instant_caller::{committed, logged};
use gix_date_callers::mail_caller::mail_time;
use jiff::Timestamp;
use jiff::tz::{Offset, TimeZone};

/// The seconds of the moment of these tests.
const NOW: i64 = 1_251_660_000;

#[test]
fn each_refusal_says_what_is_wrong(rt: HostRuntime) {
    all_show(
        &rt,
        rt.alloc(),
        &[
            (
                DateError::Unreadable,
                "not a date with a time of day; expected one such as \"2005-04-07 22:13:13 +0200\"",
                "Unreadable",
            ),
            (
                DateError::NumberTooLarge(17),
                "the number at byte 17 is too large",
                "NumberTooLarge(17)",
            ),
            (
                DateError::BackTooFar(0),
                "the date at byte 0 leads back too far",
                "BackTooFar(0)",
            ),
            (
                DateError::YearRefused(4),
                "the year at byte 4 is refused; expected 1970 to 2099",
                "YearRefused(4)",
            ),
            (
                DateError::Range,
                "the date is before 1970 or leads to an instant that cannot be computed with",
                "Range",
            ),
        ],
    );
}

#[test]
fn dates_and_refusals_have_the_traits_that_callers_count_on(rt: HostRuntime) {
    let date = ExactDate {
        time: Time::new(1_112_904_793, 7200),
        has_offset: true,
        ignored: None,
    };
    let copied = date;
    check(&rt, same(&date, &copied));
    let other = ExactDate {
        ignored: Some(0),
        ..date
    };
    check(&rt, !same(&date, &other));
    check(
        &rt,
        debugs(
            rt.alloc(),
            &date,
            "ExactDate { time: Time { seconds: 1112904793, offset: 7200 }, has_offset: true, ignored: None }",
        ),
    );
    let refusal = DateError::YearRefused(4);
    let kept = refusal;
    check(&rt, same(&refusal, &kept));
    check(&rt, !same(&refusal, &DateError::YearRefused(5)));
}

/// The time of a date and what was ignored of it, or the refusal.
fn told<'a>(text: &'a str, now: Zoned<'_>) -> Result<(Time, Option<&'a str>), DateError> {
    match date_and_ignored(text, now) {
        Ok((date, ignored)) => Ok((date.time, ignored)),
        Err(refusal) => Err(refusal),
    }
}

#[test]
fn a_date_says_what_was_ignored(rt: HostRuntime) {
    let now = Time::new(NOW, 0).to_zoned().expect(&rt, "a moment");
    for &(text, seconds, offset, ignored) in &[
        ("2008-02-14 20:30:45 IST", 1_203_021_045, 0, Some("IST")),
        ("2008-02-14 20:30:45 EST", 1_203_039_045, -18_000, None),
        (
            "Thu, 14 Feb 2008 20:30:45 +0000\0 +0500",
            1_203_021_045,
            0,
            Some("\0 +0500"),
        ),
    ] {
        check(
            &rt,
            told(text, now) == Ok((Time::new(seconds, offset), ignored)),
        );
    }
    check(&rt, told("2008-02-14", now) == Err(DateError::Unreadable));
    for &(text, seconds, ignored) in &[
        ("yesterday\0 noon", 1_251_573_600, "\0 noon"),
        ("5 mins ago", 1_249_500_000, "mins ago"),
    ] {
        check(
            &rt,
            since(text, now) == Ok((Time::new(seconds, 0), Some(ignored))),
        );
    }
}

#[test]
fn a_mail_says_when_it_was_sent(rt: HostRuntime) {
    let now = Time::new(NOW, 0).to_zoned().expect(&rt, "a moment");
    let sent = mail_time("Date: Thu, 07 Apr 2005 22:13:13 +0200", now);
    check(&rt, sent == Some(Time::new(1_112_904_793, 7200)));
    check(
        &rt,
        mail_time("From: Thu, 07 Apr 2005 22:13:13 +0200", now) == None,
    );
    check(&rt, mail_time("Date: soon", now) == None);
}

#[test]
fn dates_of_people_are_read_and_shown_as_git_does(rt: HostRuntime) {
    let now = Time::new(NOW, 0).to_zoned().expect(&rt, "a moment");
    let noon = Time::new(1_251_460_800, 0);
    check(
        &rt,
        reference_time("last friday at noon", now) == Some(noon),
    );
    check(&rt, reference_time("banana", now) == None);
    let shown = human(Time::new(1_251_300_000, 7200), now);
    check(
        &rt,
        matches!(shown, Ok(text) if text.as_str() == "Wed 17:20 +0200"),
    );
    check(
        &rt,
        human(Time::new(-1, 0), now).err() == Some(DateError::Range),
    );
}

#[test]
fn a_date_is_read_by_an_instant_and_a_zone(rt: HostRuntime) {
    let now = Timestamp::from_second(NOW).expect(&rt, "an instant");
    let zone = Offset::from_seconds(-16_200)
        .expect(&rt, "an offset")
        .to_time_zone();
    for &(date, read) in &[
        (
            "2005-04-07 22:13:13",
            Ok(Time {
                seconds: 1_112_928_193,
                offset: -16_200,
            }),
        ),
        (
            "2005-04-07 22:13:13 +0200",
            Ok(Time {
                seconds: 1_112_904_793,
                offset: 7200,
            }),
        ),
        ("2005-04-07", Err(DateError::Unreadable)),
    ] {
        check(&rt, committed(date, now, zone) == read);
    }
}

#[test]
fn a_date_is_shown_by_an_instant_and_a_zone(rt: HostRuntime) {
    let now = Timestamp::from_second(NOW).expect(&rt, "an instant");
    let zone = Offset::from_seconds(-16_200)
        .expect(&rt, "an offset")
        .to_time_zone();
    let mode = DateMode {
        kind: DateKind::Iso8601,
        local: true,
    };
    let shown = logged(Time::new(1_112_904_793, 7200), mode, now, zone);
    check(
        &rt,
        matches!(shown, Some(text) if text.as_str() == "2005-04-07 15:43:13 -0430"),
    );
    check(&rt, logged(Time::new(-1, 0), mode, now, zone).is_none());
}

#[test]
fn the_offset_of_a_zone_has_hours_and_perhaps_minutes(rt: HostRuntime) {
    for &(text, offset) in &[
        ("+0200", 7200),
        ("-03:30", -12_600),
        ("+02", 7200),
        ("-0000", 0),
        ("+2559", 93_540),
    ] {
        check(&rt, parse_offset(text.as_bytes()) == Some(offset));
    }
    for text in &[
        "", "0200", "+2600", "+0260", "+2", "+02000", "+02:0", "+02-00", "UTC", " +0200",
    ] {
        check(&rt, parse_offset(text.as_bytes()) == None);
    }
}

/// The offset of a zone at so many seconds since 1970.
fn offset_at(zone: Option<TimeZone<'_>>, seconds: i64) -> Option<i32> {
    let instant = Timestamp::from_second(seconds).ok()?;
    Some(zone?.to_offset(instant).seconds())
}

/// The same at 2023-07-01 00:00 in UTC.
fn offset_in_july(zone: Option<TimeZone<'_>>) -> Option<i32> {
    offset_at(zone, 1_688_169_600)
}

#[test]
fn a_value_of_tz_names_a_file_unless_it_is_a_rule(rt: HostRuntime) {
    for name in &["Europe/Berlin", "/a/b", "CET-1CEST", "UTC", MACHINE_ZONE] {
        check(&rt, zone_file(name) == Some(*name));
    }
    check(&rt, zone_file(":Europe/Berlin") == Some("Europe/Berlin"));
    for tz in &["", ":", "UTC0", ":UTC0", "EST5EDT,M3.2.0,M11.1.0"] {
        check(&rt, zone_file(tz) == None);
    }
}

#[test]
fn a_name_stands_below_a_folder_and_a_path_by_itself(rt: HostRuntime) {
    check(&rt, zone_folder("Europe/Berlin", "") == ZONE_FOLDER);
    check(&rt, zone_folder("Europe/Berlin", "/z") == "/z");
    check(&rt, zone_folder("/a/b", "/z") == "");
}

#[test]
fn a_text_means_utc_or_a_rule(rt: HostRuntime) {
    for &(text, offset) in &[
        ("UTC", Some(0)),
        ("gmt", Some(0)),
        ("CET-1", Some(3600)),
        ("CET-1CEST", Some(7200)),
        ("EST5EDT,M3.2.0,M11.1.0", Some(-14_400)),
        ("", None),
        ("banana", None),
        ("+0200", None),
        ("CET-1CEST,M3.5.0", None),
        ("Europe/Berlin", None),
        (MACHINE_ZONE, None),
    ] {
        check(&rt, offset_in_july(zone_of_text(text)) == offset);
    }
}

#[test]
fn a_rule_without_dates_changes_on_those_of_the_united_states(rt: HostRuntime) {
    // By the C library. In Europe the clock went ahead on 26 March, and back on 29 October.
    for &(seconds, offset) in &[
        (1_678_000_000, 3600),
        (1_679_300_000, 7200),
        (1_698_600_000, 7200),
        (1_699_100_000, 7200),
        (1_699_200_000, 3600),
    ] {
        check(
            &rt,
            offset_at(zone_of_text("CET-1CEST"), seconds) == Some(offset),
        );
    }
}

#[test]
fn without_a_file_nothing_and_the_machines_zone_are_utc(rt: HostRuntime) {
    for &(tz, offset) in &[
        ("", Some(0)),
        (":", Some(0)),
        (MACHINE_ZONE, Some(0)),
        (":UTC", Some(0)),
        ("CET-1CEST", Some(7200)),
        (":EST5EDT", Some(-14_400)),
        ("Europe/Berlin", None),
    ] {
        check(&rt, offset_in_july(zone_without_file(tz)) == offset);
    }
}

/// The only header of a file of the first version, with so many leap seconds, and its kind of time.
fn first_version(leap_seconds: u8) -> [u8; 54] {
    let mut file = [0; 54];
    file[..4].copy_from_slice(b"TZif");
    file[31] = leap_seconds;
    file[39] = 1;
    file[43] = 4;
    file[50..].copy_from_slice(b"UTC\0");
    file
}

/// The same with one leap second.
fn with_a_leap_second() -> [u8; 62] {
    let mut file = [0; 62];
    file[..54].copy_from_slice(&first_version(1));
    file[54..].copy_from_slice(&[4, 178, 88, 0, 0, 0, 0, 1]);
    file
}

#[test]
fn a_file_that_counts_leap_seconds_says_no_zone(rt: HostRuntime) {
    let refused = zone_table(rt.alloc(), &with_a_leap_second()).err();
    check(&rt, matches!(refused, Some(TableError::CountsLeapSeconds)));
    check(&rt, zone_table(rt.alloc(), &first_version(0)).is_ok());
    for bytes in [b"".as_slice(), b"TZif", &first_version(1)] {
        let refused = zone_table(rt.alloc(), bytes).err();
        check(&rt, matches!(refused, Some(TableError::NotTzif)));
    }
}
