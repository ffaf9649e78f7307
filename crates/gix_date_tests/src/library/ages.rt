//! Ages and offsets as Git's own code has them.
use crate::fakes::answers::{check, reads};
use git_date::{
    Age, DateError, DateFormat, age_at, offset_from_decimal, offset_text, offset_to_decimal,
    text_by_format_in_zone,
};
use gix_date::Time;
use jiff::Timestamp;
use jiff::tz::Offset;

// What Git 2.39.5 shows by `--date=relative` at 2033-05-18 03:33:20 UTC: so many seconds before.
#[test]
fn an_age_has_the_unit_that_git_chooses(rt: HostRuntime) {
    let now = Timestamp::from_second(2_000_000_000).expect(&rt, "an instant");
    for &(before, age) in &[
        (0, Age::Seconds(0)),
        (89, Age::Seconds(89)),
        (90, Age::Minutes(2)),
        (5370, Age::Hours(2)),
        (127_770, Age::Days(2)),
        (1_164_570, Age::Weeks(2)),
        (6_002_970, Age::Months(2)),
        (31_490_970, Age::Years(1, 0)),
        (155_000_000, Age::Years(4, 11)),
    ] {
        let time = Time::new(2_000_000_000_i64.saturating_sub(before), -5400);
        check(&rt, age_at(time, now) == Ok(Some(age)));
    }
}

#[test]
fn an_age_is_of_a_time_from_1970_on(rt: HostRuntime) {
    let now = Timestamp::from_second(5).expect(&rt, "an instant");
    for &(seconds, offset, age) in &[
        (6, 0, Ok(None)),
        (i64::MAX, 0, Ok(None)),
        (5, 360_000, Ok(Some(Age::Seconds(0)))),
        (-1, 0, Err(DateError::Range)),
        (i64::MIN, 0, Err(DateError::Range)),
    ] {
        check(&rt, age_at(Time::new(seconds, offset), now) == age);
    }
    let before = Timestamp::from_second(-1).expect(&rt, "an instant");
    check(
        &rt,
        age_at(Time::new(0, 0), before) == Err(DateError::Range),
    );
}

// Hours of 3600 seconds and minutes of 60.
#[test]
fn offsets_are_said_by_decimals(rt: HostRuntime) {
    for &(decimal, offset) in &[
        (0, 0),
        (-1, -60),
        (530, 19_800),
        (-9959, -359_940),
        (59_652_314, 2_147_483_640),
    ] {
        check(
            &rt,
            offset_from_decimal(decimal) == offset && offset_to_decimal(offset) == decimal,
        );
    }
    for &(decimal, offset) in &[
        (99, 5940),
        (59_652_315, 2_147_483_647),
        (i32::MIN, -2_147_483_647),
    ] {
        check(&rt, offset_from_decimal(decimal) == offset);
    }
    for &(offset, decimal) in &[(3599, 59), (-5401, -130), (i32::MIN, -59_652_314)] {
        check(&rt, offset_to_decimal(offset) == decimal);
    }
}

// As Git writes them into commits.
#[test]
fn offsets_have_texts(rt: HostRuntime) {
    for &(offset, text) in &[
        (0, "+0000"),
        (19_800, "+0530"),
        (-5400, "-0130"),
        (1_864_800, "+51800"),
        (-59, "+0000"),
        (i32::MIN, "-59652314"),
    ] {
        check(&rt, offset_text(offset).as_str() == text);
    }
}

// What Git 2.39.5 shows by `format:` and `format-local:` where `TZ` is `UTC+4:30`.
#[test]
fn a_format_goes_by_the_time_or_the_zone(rt: HostRuntime) {
    let zone = Offset::from_seconds(-16_200)
        .expect(&rt, "an offset")
        .to_time_zone();
    let format = DateFormat::new("%Y-%m-%d %H:%M %z").expect(&rt, "a format");
    let time = Time::new(1_251_660_000, 7200);
    let own = text_by_format_in_zone(rt.alloc(), time, format, false, zone);
    check(&rt, reads(own, "2009-08-30 21:20 +0200"));
    let local = text_by_format_in_zone(rt.alloc(), time, format, true, zone);
    check(&rt, reads(local, "2009-08-30 14:50 -0430"));
    check(
        &rt,
        text_by_format_in_zone(rt.alloc(), Time::new(-1, 0), format, true, zone).is_err(),
    );
}
