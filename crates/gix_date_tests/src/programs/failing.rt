//! Each write and each read failing in its turn, writes of every length, and a line without end.
use crate::fakes::answers::{Fault, check, check_at, fails};
use crate::fakes::harness::{ran, written};
use crate::fakes::{Slow, Supply, count_of};
use gix_date::Time;
use gix_date_tool::{Mode, ToolError};
use std::io::ErrorKind;

/// The longest header text, of 26 bytes.
const LEAST: &[u8] = b"-9223372036854775808 -9959";

/// A mode, lines in it, of which the last has no newline, and the replies to them.
pub(crate) const RUNS: [(Mode, &[u8], &[u8]); 3] = [
    (
        Mode::Check,
        b"0 +0000\n0 -0000\n+1 +0000",
        b"canonical\nread 0 0\nread 1 0\n",
    ),
    (
        Mode::Parse,
        b"0 +0000\nnow\n9999-12-31\n\xff\n@5",
        b"0 +0000\nerror missing-moment\nerror date-conversion\nnot text\n5 +0000\n",
    ),
    (
        Mode::Sign,
        b"A <a> 0\nA\n\xc3\xa9 <> 5 -0130",
        b"A <a> 0 +0000\nnone\n\xc3\xa9 <> 5 -0130\n",
    ),
];

/// Every mode.
const MODES: [Mode; 3] = [Mode::Check, Mode::Parse, Mode::Sign];

#[test]
fn the_longest_text_fails_at_each_of_its_writes(rt: HostRuntime) {
    for &(end, due) in &[
        (Some(ErrorKind::StorageFull), ErrorKind::StorageFull),
        (None, ErrorKind::WriteZero),
    ] {
        for taken in 0..26 {
            let writer = Slow::ending(rt.alloc(), 1, taken, end);
            let (answer, writer) = written(Time::MIN, writer);
            check_at(&rt, fails(answer, Fault::Write(due)), &taken);
            check_at(&rt, writer.took(&LEAST[..taken]), &taken);
            check_at(&rt, writer.calls == taken + 1, &taken);
        }
    }
}

#[test]
fn writes_of_every_length_take_the_whole_text(rt: HostRuntime) {
    for a_call in 1..=27 {
        let writer = Slow::new(rt.alloc(), a_call, 99, ErrorKind::Other);
        let (answer, writer) = written(Time::MIN, writer);
        check_at(&rt, answer.is_ok(), &a_call);
        check_at(&rt, writer.took(LEAST), &a_call);
        check_at(&rt, writer.calls == LEAST.len().div_ceil(a_call), &a_call);
    }
}

#[test]
fn a_run_fails_at_each_of_its_writes(rt: HostRuntime) {
    for &(mode, input, output) in &RUNS {
        for room in 0..output.len() {
            for a_call in [1, 4, 99] {
                let reader = Supply::once(input, 99, None);
                let writer = Slow::new(rt.alloc(), a_call, room, ErrorKind::StorageFull);
                let (answer, _source, sink) = ran(rt.alloc(), mode, reader, writer);
                check_at(
                    &rt,
                    matches!(answer, Err(ToolError::Write(ErrorKind::StorageFull))),
                    &(mode, room),
                );
                check_at(&rt, sink.took(&output[..room]), &(mode, room));
            }
        }
    }
}

#[test]
fn a_run_ends_at_a_write_of_no_byte(rt: HostRuntime) {
    for &(mode, input, output) in &RUNS {
        for taken in 0..output.len() {
            let reader = Supply::once(input, 99, None);
            let writer = Slow::ending(rt.alloc(), 1, taken, None);
            let (answer, _source, sink) = ran(rt.alloc(), mode, reader, writer);
            check_at(
                &rt,
                matches!(answer, Err(ToolError::Write(ErrorKind::WriteZero))),
                &(mode, taken),
            );
            check_at(&rt, sink.took(&output[..taken]), &(mode, taken));
            check_at(&rt, sink.calls == taken + 1, &(mode, taken));
        }
    }
}

#[test]
fn writes_of_every_length_take_all_replies(rt: HostRuntime) {
    for &(mode, input, output) in &RUNS {
        for a_call in 1..=output.len() {
            let reader = Supply::once(input, 99, None);
            let writer = Slow::new(rt.alloc(), a_call, 99, ErrorKind::Other);
            let (answer, _source, sink) = ran(rt.alloc(), mode, reader, writer);
            check_at(&rt, answer.is_ok(), &(mode, a_call));
            check_at(&rt, sink.took(output), &(mode, a_call));
        }
    }
}

/// Whether these are the first lines of a text, and so many.
pub(crate) fn are_first_lines(lines: &[u8], text: &[u8], count: usize) -> bool {
    text.starts_with(lines)
        && !lines.last().is_some_and(|b| *b != b'\n')
        && newlines(lines) == count
}

/// How many newlines stand in these bytes.
pub(crate) fn newlines(bytes: &[u8]) -> usize {
    count_of(b'\n', bytes)
}

#[test]
fn a_run_fails_at_each_of_its_reads(rt: HostRuntime) {
    for &(mode, input, output) in &RUNS {
        for given in 0..=input.len() {
            for &(a_call, kind) in &[
                (1, ErrorKind::ConnectionReset),
                (5, ErrorKind::Interrupted),
                (99, ErrorKind::TimedOut),
            ] {
                let reader = Supply::of(input, a_call, given, Some(kind));
                let writer = Slow::roomy(rt.alloc());
                let (answer, source, sink) = ran(rt.alloc(), mode, reader, writer);
                check_at(
                    &rt,
                    matches!(answer, Err(ToolError::Read(fault)) if fault == kind),
                    &(mode, given),
                );
                let due = newlines(&input[..given]);
                check_at(
                    &rt,
                    are_first_lines(sink.taken.as_slice(), output, due),
                    &(mode, given),
                );
                check(
                    &rt,
                    source.calls == given.div_ceil(a_call).saturating_add(1),
                );
            }
        }
    }
}

#[test]
fn a_line_without_end_ends_a_run_with_no_reply(rt: HostRuntime) {
    for mode in MODES {
        let reader = Supply::of(b"1", 1, 1 << 40, None);
        let (answer, source, sink) = ran(rt.alloc(), mode, reader, Slow::roomy(rt.alloc()));
        check_at(&rt, matches!(answer, Err(ToolError::LineTooLong)), &mode);
        check_at(&rt, sink.calls == 0, &mode);
        check_at(&rt, source.calls == 65_537, &mode);
    }
}
