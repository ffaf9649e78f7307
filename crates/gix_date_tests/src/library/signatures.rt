//! Signature lines, written to writers that count and fail.
use crate::fakes::answers::{all_show, check, check_at, debugs};
use crate::fakes::{Dribble, Slow, Small};
use gix_date::Time;
use gix_date::device::Device;
use gix_date_callers::header_caller::{author_time, redated};
use gix_signature::{SignatureError, SignatureRef, laws, write_line};
use std::io::{ErrorKind, Write};

/// How writing a line ends, and how often it calls its sink.
fn sent(name: &str, email: &str, time: Time) -> (Result<(), SignatureError>, usize) {
    let mut out = Dribble::new(99);
    let answer = write_line(name, email, time, &mut out);
    (answer, out.calls)
}

#[test]
fn parts_are_refused_before_the_offset_and_both_before_a_byte(rt: HostRuntime) {
    for &(name, email) in &[
        ("A<", "a"),
        ("A", "a>"),
        ("A\n", "a"),
        ("A", "\0"),
        ("A", "<a"),
        (">", "a"),
    ] {
        for offset in [360_000, 0] {
            let (answer, calls) = sent(name, email, Time::new(0, offset));
            check_at(
                &rt,
                matches!(answer, Err(SignatureError::BadPart)),
                &(name, email),
            );
            check_at(&rt, calls == 0, &(name, email));
        }
    }
    for offset in [360_000, -360_000, i32::MIN] {
        let (answer, calls) = sent("A", "a", Time::new(0, offset));
        check(&rt, matches!(answer, Err(SignatureError::OffsetTooWide)));
        check(&rt, calls == 0);
    }
}

/// The kind by which a writer fails a short line, if it does, and what became of the writer.
fn written_short<W: Write>(writer: W) -> (Option<ErrorKind>, W) {
    let mut out = Device::new(writer);
    let kind = match write_line("A", "a", Time::new(0, 0), &mut out) {
        Err(SignatureError::Write(kind)) => Some(kind),
        _ => None,
    };
    (kind, out.into_inner())
}

#[test]
fn a_writer_that_fails_has_taken_a_prefix_of_the_line(rt: HostRuntime) {
    let line = b"A <a> 0 +0000";
    for room in 0..line.len() {
        let writer = Slow::new(rt.alloc(), 2, room, ErrorKind::StorageFull);
        let (kind, writer) = written_short(writer);
        check_at(&rt, kind == Some(ErrorKind::StorageFull), &room);
        check_at(&rt, writer.took(&line[..room]), &room);
        check_at(&rt, writer.flushes == 0, &room);
    }
    let writer = Slow::new(rt.alloc(), 99, 3, ErrorKind::BrokenPipe);
    let (kind, writer) = written_short(writer);
    check(&rt, kind == Some(ErrorKind::BrokenPipe));
    check(&rt, writer.took(b"A <"));
}

#[test]
fn an_authors_time_is_that_of_the_line(rt: HostRuntime) {
    let line = "author A U Thor <author@example.com> 1660874655 +0800";
    check_at(
        &rt,
        author_time(line) == Some(Time::new(1_660_874_655, 28_800)),
        &line,
    );
    for line in &[
        "A U Thor <author@example.com> 1660874655 +0800",
        "author A U Thor",
        "author A <a> x",
    ] {
        check_at(&rt, author_time(line) == None, &line);
    }
}

const AUTHOR: &str = "A U Thor <author@example.com> 1660874655 +0800";

#[test]
fn a_line_with_another_time_has_its_name_and_mail(rt: HostRuntime) {
    let mut out = Device::new(Small::new());
    let answer = redated(AUTHOR, Time::new(5, -5400), &mut out);
    check(&rt, matches!(answer, Ok(true)));
    check(
        &rt,
        out.into_inner()
            .is(b"A U Thor <author@example.com> 5 -0130"),
    );
    let mut out = Dribble::new(99);
    check(
        &rt,
        matches!(redated("A <a>", Time::new(0, 0), &mut out), Ok(false)),
    );
    let wide = redated(AUTHOR, Time::new(0, 360_000), &mut out);
    check(&rt, matches!(wide, Err(SignatureError::OffsetTooWide)));
    check(&rt, out.calls == 0);
}

#[test]
fn each_fault_of_a_line_says_what_is_wrong(rt: HostRuntime) {
    all_show(
        &rt,
        rt.alloc(),
        &[
            (
                SignatureError::BadPart,
                "a name or email may not hold `<`, `>`, a newline or NUL",
                "BadPart",
            ),
            (
                SignatureError::OffsetTooWide,
                "an offset of 100 hours or more from UTC cannot be written",
                "OffsetTooWide",
            ),
            (
                SignatureError::Write(ErrorKind::BrokenPipe),
                "writing failed: broken pipe",
                "Write(BrokenPipe)",
            ),
        ],
    );
    let line = SignatureRef::from_line("A <a> 0 +0000");
    check(
        &rt,
        debugs(
            rt.alloc(),
            &line,
            "Some(SignatureRef { name: \"A\", email: \"a\", time: \"0 +0000\" })",
        ),
    );
}

#[test]
fn laws_of_lines_are_called_for_nothing_but_what_they_state() {
    laws::written_is_cut("A", "a", Time::new(0, 60));
}
