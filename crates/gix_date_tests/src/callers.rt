//! The callers in the documents, called as a program calls them.
use crate::fakes::Dribble;
use crate::fakes::answers::{Fault, check, fails, holds, reads};
use crate::fakes::machine::Machine;
use gix_date::device::Device;
use gix_date::parsing::TimeBuf;
use gix_date::time::format;
use gix_date::{Error, Time};
use gix_date_callers::caller::{date_meant, date_typed, iso_date};
use gix_date_callers::header_caller::{kept_in_header, rewrite};
use gix_date_callers::more_callers::{
    absolute_date, asks_for_a_moment, authored, authored_in_utc, commit_time, day_before,
    day_before_in_zone, doubled, header_bytes, is_older_than_two_weeks, kept_by_each, kept_in_date,
    log_date, log_text, read_canonical, resolved, shown, stored_date,
};
use gix_date_callers::readme::{stored_time, written_again};
use jiff::Timestamp;
use jiff::tz::TimeZone;
use std::io::ErrorKind;
use std::rt::{Clock, Env, Files};

#[test]
fn a_header_is_written_again(rt: HostRuntime) {
    check(
        &rt,
        holds(written_again("1660874655 +0800"), "1660874655 +0800"),
    );
    check(&rt, holds(written_again("12abc +0100"), "12 +0100"));
    check(&rt, fails(written_again("yesterday"), Fault::InvalidTime));
}

#[test]
fn a_stored_time_is_read(rt: HostRuntime) {
    let time = stored_time(rt.alloc(), "1660874655 +0800");
    check(&rt, time.ok() == Some(Time::new(1_660_874_655, 28_800)));
    check(
        &rt,
        fails(stored_time(rt.alloc(), "yesterday"), Fault::MissingNow),
    );
}

#[test]
fn callers_rewrite_and_write_headers(rt: HostRuntime) {
    let mut out = Device::new(Vec::new(rt.alloc()));
    check(&rt, rewrite(" 12abc \t+0100\n", &mut out).is_ok());
    check(
        &rt,
        fails(rewrite("yesterday", &mut out), Fault::InvalidTime),
    );
    check(
        &rt,
        fails(rewrite("0 +9999", &mut out), Fault::OffsetTooWide),
    );
    check(&rt, out.into_inner().as_slice() == b"12 +0100".as_slice());
    let mut full = Dribble::new(3);
    let cut = rewrite("12 +0100", &mut full);
    check(&rt, fails(cut, Fault::Write(ErrorKind::StorageFull)));
    let header = header_bytes(rt.alloc(), Time::new(1_660_874_655, 28_800)).expect(&rt, "a header");
    check(&rt, header.as_slice() == b"1660874655 +0800".as_slice());
    let wide = header_bytes(rt.alloc(), Time::new(0, 360_000));
    check(&rt, fails(wide, Fault::OffsetTooWide));
}

#[test]
fn callers_read_and_show_headers(rt: HostRuntime) {
    let canonical = read_canonical("1660874655 +0800");
    check(&rt, canonical == Some(Time::new(1_660_874_655, 28_800)));
    for text in &["0 -0000", "0 +0000 ", "yesterday"] {
        check(&rt, read_canonical(text) == None);
    }
    let least = Time::new(i64::MIN, -359_940);
    check(&rt, kept_in_header(least) == Some(least));
    let time = Time::new(0, -12_600);
    let buf = time.to_buf().expect(&rt, "a header");
    check(&rt, holds(doubled(&buf), "0 -0330"));
    check(&rt, reads(shown(rt.alloc(), time), "0 -0330"));
    check(&rt, shown(rt.alloc(), Time::new(0, 360_000)).is_err());
}

#[test]
fn callers_print_dates(rt: HostRuntime) {
    let logged = Time::new(1_659_933_906, 28_800);
    let beyond = Time::new(5, 93_600);
    let text = log_date(rt.alloc(), logged, format::DEFAULT);
    check(&rt, reads(text, "Mon Aug 8 12:45:06 2022 +0800"));
    check(
        &rt,
        reads(log_date(rt.alloc(), beyond, format::DEFAULT), "5"),
    );
    check(
        &rt,
        log_text(logged, format::DEFAULT).as_str() == "Mon Aug 8 12:45:06 2022 +0800",
    );
    check(&rt, log_text(beyond, format::DEFAULT).as_str() == "5");
    let iso = iso_date(rt.alloc(), Time::new(1_660_874_655, 28_800));
    check(&rt, reads(iso, "2022-08-19 10:04:15 +0800"));
    check(
        &rt,
        fails(iso_date(rt.alloc(), Time::MAX), Fault::Conversion),
    );
}

#[test]
fn callers_parse_dates(rt: HostRuntime) {
    let date = absolute_date(rt.alloc(), "2018-12-24");
    check(&rt, date.ok() == Some(Time::new(1_545_609_600, 0)));
    check(
        &rt,
        fails(absolute_date(rt.alloc(), "now"), Fault::MissingNow),
    );
    let typed = date_typed(rt.alloc(), "2 days ago", Time::new(1_698_400_800, 7200));
    check(&rt, typed.ok() == Some(Time::new(1_698_228_000, 7200)));
    check(
        &rt,
        fails(date_typed(rt.alloc(), "now", Time::MAX), Fault::Conversion),
    );
    let wide = Time::new(i64::MIN, -86_340);
    check(&rt, kept_in_date(rt.alloc(), wide).ok() == Some(wide));
    let stored = stored_date(rt.alloc(), "1660797906 +0007");
    check(&rt, stored.ok() == Some(Time::new(1_660_797_906, 420)));
    for text in &[
        "5 -0130",
        "1700000000",
        "banana",
        "2008-02-14 20:30:45.2 days ago",
    ] {
        check(&rt, !asks_for_a_moment(text));
    }
    check(&rt, asks_for_a_moment("2 days ago"));
}

#[test]
fn callers_say_what_was_not_understood(rt: HostRuntime) {
    let zone = TimeZone::posix("EST5EDT,M3.2.0,M11.1.0").expect(&rt, "a zone");
    let now = Timestamp::from_second(1_698_400_800)
        .expect(&rt, "an instant")
        .to_zoned(zone);
    for &(text, seconds, offset) in &[
        ("2024-01-05 10:00", 1_704_466_800, -18_000),
        ("2 hours ago", 1_698_393_600, -14_400),
    ] {
        check(&rt, date_meant(text, now) == Ok(Time::new(seconds, offset)));
    }
    for &(text, rest) in &[
        ("30 min ago", "min ago"),
        ("2 weeks", ""),
        ("banana", "banana"),
    ] {
        check(&rt, date_meant(text, now) == Err(rest));
    }
}

#[test]
fn a_commit_has_the_clock_and_the_zone(rt: HostRuntime) {
    let clock = Timestamp::from_second(1_660_874_655).expect(&rt, "an instant");
    check(&rt, authored_in_utc(clock) == Time::new(1_660_874_655, 0));
    let zone = TimeZone::posix("CST-8").expect(&rt, "a zone");
    check(
        &rt,
        authored(clock, Some(zone)) == Some(Time::new(1_660_874_655, 28_800)),
    );
}

/// What a date means on a machine, if it is understood there.
fn meant<R: Clock + Env + Files + AllocGlobal + Clone + Drop>(rt: &R, date: &str) -> Option<Time> {
    match resolved(rt, date) {
        Ok(Ok(time)) => Some(time),
        _ => None,
    }
}

#[test]
fn callers_ask_the_machine(rt: HostRuntime) {
    check(
        &rt,
        matches!(commit_time(&rt).ok(), Some(time) if time.seconds > 1_700_000_000),
    );
    check(&rt, meant(&rt, "@5 +0100") == Some(Time::new(5, 3600)));
    check(
        &rt,
        matches!(meant(&rt, "now"), Some(time) if time.seconds > 1_700_000_000),
    );
    check(
        &rt,
        matches!(resolved(&rt, "99999 years ago"), Ok(Err(Error::Range))),
    );
}

#[test]
fn callers_go_by_the_zone_of_the_machine(rt: HostRuntime) {
    let zone = "EST5EDT,M3.2.0,M11.1.0";
    for &(clock, seconds, offset, date, earlier) in &[
        (1_698_400_800, 1_698_400_800, -14_400, "now", 1_698_400_800),
        (
            1_701_000_000,
            1_701_000_000,
            -18_000,
            "1 month ago",
            1_698_318_000,
        ),
    ] {
        let machine = Machine::at(rt, clock, zone);
        check(
            &rt,
            commit_time(&machine).ok() == Some(Time::new(seconds, offset)),
        );
        check(
            &rt,
            meant(&machine, date) == Some(Time::new(earlier, -14_400)),
        );
    }
}

#[test]
fn times_are_kept_by_each_format_with_a_clock(rt: HostRuntime) {
    let now = Time::new(1_698_400_800, 0)
        .to_zoned()
        .expect(&rt, "a moment");
    let before = Time::new(-1, -86_340);
    let kept = kept_by_each(rt.alloc(), before, Some(now));
    check(&rt, kept.ok() == Some([Some(before); 6]));
    for &(seconds, offset) in &[(1_660_874_655, 28_800), (253_402_207_199, 0)] {
        let time = Time::new(seconds, offset);
        let kept = kept_by_each(rt.alloc(), time, None);
        check(&rt, kept.ok() == Some([Some(time); 6]));
    }
    let odd = kept_by_each(rt.alloc(), Time::new(0, -30), None);
    check(&rt, odd.ok() == Some([None; 6]));
}

#[test]
fn a_day_before_has_the_same_offset(rt: HostRuntime) {
    let day = day_before(rt.alloc(), Time::new(1_698_400_800, 90_000));
    check(&rt, day.ok() == Some(Time::new(1_698_314_400, 90_000)));
    let first = day_before(rt.alloc(), Time::new(-377_705_023_201, 0));
    check(&rt, fails(first, Fault::Range));
}

#[test]
fn a_header_is_older_than_two_weeks_by_seconds(rt: HostRuntime) {
    let now = Time::new(1_698_400_800, 7200);
    for &(header, older) in &[
        ("1697191199 +0200", Some(true)),
        ("1697191200 -0500", Some(false)),
        ("yesterday", None),
    ] {
        let answer = is_older_than_two_weeks(rt.alloc(), header, now);
        check(&rt, answer.ok() == Some(older));
    }
    let first = is_older_than_two_weeks(rt.alloc(), "0 +0000", Time::new(-377_705_023_201, 0));
    check(&rt, fails(first, Fault::Range));
}

#[test]
fn a_day_before_in_a_zone_is_so_many_seconds_before(rt: HostRuntime) {
    // The clock went ahead by an hour between.
    let zone = TimeZone::posix("EST5EDT,M3.2.0,M11.1.0").expect(&rt, "a zone");
    let moment = Timestamp::from_second(1_678_651_200)
        .expect(&rt, "an instant")
        .to_zoned(zone);
    let day = day_before_in_zone(rt.alloc(), moment);
    check(&rt, day.ok() == Some(Time::new(1_678_564_800, -18_000)));
}
