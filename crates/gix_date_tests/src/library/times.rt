//! Times as values.
use crate::fakes::answers::{check, check_at, reads};
use gix_date::Time;
use serde::{DeserializeOwned, Serialize};
use std::alloc::Global;
use std::cmp::Ordering;
use std::hash::{BuildHasher, BuildHasherDefault, FoldHasher};

#[test]
fn times_have_an_order(rt: HostRuntime) {
    let rising = [(0, -3600), (0, 0), (0, 3600), (1, -3600)];
    for (i, (seconds, offset)) in rising.iter().enumerate() {
        for (k, (others, beside)) in rising.iter().enumerate() {
            let time = Time::new(*seconds, *offset);
            let other = Time::new(*others, *beside);
            check_at(&rt, time.cmp(&other) == i.cmp(&k), &(time, other));
            check_at(&rt, (time == other) == (i == k), &(time, other));
        }
    }
    check(&rt, Time::MIN.cmp(&Time::MAX) == Ordering::Less);
}

#[test]
fn equal_times_hash_alike(rt: HostRuntime) {
    let hashes: BuildHasherDefault<FoldHasher> = BuildHasherDefault::default();
    check(
        &rt,
        hashes.hash_one(Time::new(5, 60)) == hashes.hash_one(Time::new(5, 60)),
    );
}

#[test]
fn a_time_is_set_where_it_is_not_zero(rt: HostRuntime) {
    const ROWS: [(&str, i64, i32, bool); 4] = [
        ("seconds-and-offset-zero", 0, 0, false),
        ("offset-set", 0, 1, true),
        ("seconds-set", 1, 0, true),
        ("both-set", -1, -1, true),
    ];
    for &(row, seconds, offset, set) in &ROWS {
        check_at(&rt, Time::new(seconds, offset).is_set() == set, &row);
    }
    check(&rt, Time::default() == Time::new(0, 0));
    check(&rt, !Time::default().is_set());
}

#[test]
fn a_time_says_whether_its_texts_are_read_back(rt: HostRuntime) {
    // 1000-01-01 00:00:00 is -30610224000 at UTC, and 86340 seconds earlier at +23:59. 253402207200 is `jiff`'s last
    // second.
    const ROWS: [(&str, i64, i32, bool); 9] = [
        ("year-1000", -30_610_224_000, 0, true),
        ("year-999", -30_610_224_001, 0, false),
        ("year-1000-by-its-own-clock", -30_610_310_340, 86_340, true),
        ("year-999-by-its-own-clock", -30_610_224_000, -60, false),
        ("last-second", 253_402_207_200, 86_340, true),
        ("no-instant", 253_402_207_201, 0, false),
        ("offset-of-23:59", 0, -86_340, true),
        ("offset-of-a-day", 0, -86_400, false),
        ("offset-of-odd-seconds", 0, 30, false),
    ];
    for &(row, seconds, offset, round_trips) in &ROWS {
        check_at(
            &rt,
            Time::new(seconds, offset).round_trips() == round_trips,
            &row,
        );
    }
}

/// A value and what is read from what is written of it.
fn carried<T: Serialize + DeserializeOwned>(
    alloc: Global,
    value: &T,
) -> Result<T, serde_json::Error> {
    let text = serde_json::to_string(alloc, value)?;
    let read = serde_json::Value::from_str(alloc, text.as_str())?;
    serde_json::from_value(alloc, read)
}

#[test]
fn a_time_is_carried_by_json(rt: HostRuntime) {
    for time in [
        Time::MIN,
        Time::MAX,
        Time::default(),
        Time::new(1_660_874_655, 28_800),
    ] {
        check(&rt, carried(rt.alloc(), &time).ok() == Some(time));
    }
    let text = serde_json::to_string(rt.alloc(), &Time::new(1_660_874_655, 28_800));
    check(
        &rt,
        reads(text, "{\"seconds\":1660874655,\"offset\":28800}"),
    );
}
