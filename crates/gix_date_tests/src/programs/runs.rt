//! Runs over the lines of a stream, as readers give them piece by piece.
use crate::fakes::answers::{all_show, check, check_at, debugs};
use crate::fakes::harness::ran;
use crate::fakes::{Asking, Replied, Slow, Supply};
use crate::programs::failing::{RUNS, newlines};
use gix_date::Time;
use gix_date::device::Device;
use gix_date_tool::{Mode, ToolError, run};
use std::cell::Cell;
use std::io::ErrorKind;

#[test]
fn lines_are_answered_alike_by_pieces_of_any_length(rt: HostRuntime) {
    for &(mode, input, output) in &RUNS {
        for a_call in [1, 2, 7, 4096] {
            let reader = Supply::once(input, a_call, None);
            let (answer, _source, sink) = ran(rt.alloc(), mode, reader, Slow::roomy(rt.alloc()));
            check(&rt, answer.ok() == Some(newlines(output) as u64));
            check_at(&rt, sink.took(output), &(mode, a_call));
        }
    }
}

#[test]
fn dates_are_read_from_the_moment_that_is_handed_in(rt: HostRuntime) {
    let now = Some(Time::new(1_698_400_800, 90_000));
    let mut source = Device::new(Supply::once(b"now\n1 day ago\n@-1000\n", 99, None));
    let mut sink = Device::new(Slow::roomy(rt.alloc()));
    let answer = run(rt.alloc(), Mode::Parse, now, &mut source, &mut sink);
    check(&rt, matches!(answer, Ok(3)));
    check(
        &rt,
        sink.into_inner()
            .took(b"1698400800 +2500\n1698314400 +2500\n-1000 +0000\n"),
    );
}

#[test]
fn replies_are_written_before_more_is_read(rt: HostRuntime) {
    // The last row fills each piece of 16384 bytes.
    for &(lines, lines_a_call, calls) in &[(40, 1, 41), (41, 3, 15), (6144, 2048, 4)] {
        let replied = Cell::new(0);
        let mut source = Device::new(Asking::new(lines, lines_a_call, &replied));
        let mut sink = Device::new(Replied(&replied));
        let answer = run(rt.alloc(), Mode::Check, None, &mut source, &mut sink);
        check_at(&rt, matches!(answer, Ok(_)), &lines_a_call);
        check_at(&rt, replied.get() == lines, &lines_a_call);
        let source = source.into_inner();
        check_at(
            &rt,
            (source.calls, source.early) == (calls, 0),
            &lines_a_call,
        );
    }
}

#[test]
fn many_lines_are_written_in_few_calls(rt: HostRuntime) {
    let mut input = Vec::new(rt.alloc());
    for _ in 0..10_000 {
        input.extend_from_slice(b"0 +0000\n").expect(&rt, "memory");
    }
    let reader = Supply::once(input.as_slice(), 1 << 20, None);
    let (answer, _source, sink) = ran(rt.alloc(), Mode::Check, reader, Slow::roomy(rt.alloc()));
    check(&rt, answer.ok() == Some(10_000));
    check(&rt, sink.taken.len() == 100_000);
    check(&rt, sink.calls <= 10);
}

#[test]
fn modes_say_what_they_are(rt: HostRuntime) {
    const MODES: [(Mode, &str); 3] = [
        (Mode::Check, "Check"),
        (Mode::Parse, "Parse"),
        (Mode::Sign, "Sign"),
    ];
    for &(mode, form) in &MODES {
        check(&rt, debugs(rt.alloc(), &mode, form));
        for &(other, another) in &MODES {
            check_at(&rt, (mode == other) == (form == another), &(mode, other));
        }
    }
}

#[test]
fn faults_say_what_they_are(rt: HostRuntime) {
    all_show(
        &rt,
        rt.alloc(),
        &[
            (
                ToolError::Read(ErrorKind::BrokenPipe),
                "reading failed: broken pipe",
                "Read(BrokenPipe)",
            ),
            (
                ToolError::Write(ErrorKind::BrokenPipe),
                "writing failed: broken pipe",
                "Write(BrokenPipe)",
            ),
            (ToolError::Memory, "out of memory", "Memory"),
            (
                ToolError::LineTooLong,
                "a line has more than 65536 bytes",
                "LineTooLong",
            ),
        ],
    );
    let text = format!(in rt.alloc(); "{}", ToolError::TooManyLines).expect(&rt, "memory");
    check_at(
        &rt,
        text.starts_with("there are more than 1000000 lines"),
        &text,
    );
    check(
        &rt,
        debugs(rt.alloc(), &ToolError::TooManyLines, "TooManyLines"),
    );
}
