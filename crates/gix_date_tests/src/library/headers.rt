//! Header texts, written to buffers and writers.
use crate::fakes::Pieces;
use crate::fakes::answers::{Fault, check, check_at, fails, holds, shows};
use crate::fakes::harness::written;
use gix_date::parsing::TimeBuf;
use gix_date::{HeaderKind, Time, header_kind};
use std::fmt::Write;

const EXTREMES: [(Time, &str); 2] = [
    (Time::MIN, "-9223372036854775808 -9959"),
    (Time::MAX, "9223372036854775807 +9959"),
];

/// Offsets that no header has.
const WIDE: [(&str, i32); 3] = [
    ("past-the-widest", 360_000),
    ("offset-too-wide", 362_340),
    ("least-offset", i32::MIN),
];

#[test]
fn times_are_written_and_shown(rt: HostRuntime) {
    for (time, text) in &EXTREMES {
        let (answer, bytes) = written(*time, Vec::new(rt.alloc()));
        check_at(&rt, answer.is_ok(), &text);
        check_at(&rt, bytes.as_slice() == text.as_bytes(), &text);
        check_at(&rt, time.size() == text.len(), &text);
        check(&rt, shows(rt.alloc(), time, text));
    }
}

#[test]
fn times_are_written_to_buffers(rt: HostRuntime) {
    let mut buf = TimeBuf::default();
    check(&rt, buf.as_str() == "");
    for (time, text) in &EXTREMES {
        check(&rt, time.to_str(&mut buf).ok() == Some(*text));
        check(&rt, buf.as_str() == *text);
        check(&rt, holds(buf.clone(), text));
        check(&rt, holds(time.to_buf(), text));
    }
}

#[test]
fn a_time_is_shown_in_one_piece_whatever_the_style(rt: HostRuntime) {
    let time = Time::new(5, -5400);
    let mut pieces = Pieces { count: 0 };
    check(&rt, write!(pieces, "{time}").is_ok());
    check(&rt, pieces.count == 1);
    check(
        &rt,
        shows(
            rt.alloc(),
            &format_args!("{time:>30}|{time:<30}|{time:030}|{time:.3}|{time:#}|{time:+}"),
            "5 -0130|5 -0130|5 -0130|5 -0130|5 -0130|5 -0130",
        ),
    );
}

#[test]
fn a_header_is_canonical_or_lenient(rt: HostRuntime) {
    for (text, kind) in [
        ("1660874655 +0800", HeaderKind::Canonical),
        ("0 -0000", HeaderKind::Lenient(Time::new(0, 0))),
        ("12abc +0100", HeaderKind::Lenient(Time::new(12, 3600))),
        ("yesterday", HeaderKind::NoHeader),
    ] {
        check_at(&rt, header_kind(text) == kind, &text);
    }
}

#[test]
fn a_wide_offset_is_refused(rt: HostRuntime) {
    for &(row, offset) in &WIDE {
        let time = Time::new(0, offset);
        let (answer, bytes) = written(time, Vec::new(rt.alloc()));
        check_at(&rt, fails(answer, Fault::OffsetTooWide), &row);
        check_at(&rt, bytes.is_empty(), &row);
        check_at(&rt, fails(time.to_buf(), Fault::OffsetTooWide), &row);
        check_at(&rt, format!(in rt.alloc(); "{time}").is_err(), &row);
    }
}

#[test]
fn a_wide_offset_empties_the_buffer(rt: HostRuntime) {
    let mut buf = TimeBuf::default();
    for &(row, offset) in &WIDE {
        check_at(
            &rt,
            Time::new(0, 0).to_str(&mut buf).ok() == Some("0 +0000"),
            &row,
        );
        let answer = Time::new(0, offset).to_str(&mut buf);
        check_at(&rt, fails(answer, Fault::OffsetTooWide), &row);
        check_at(&rt, buf.as_str() == "", &row);
    }
}
