//! Command lines, and how the program ends over readers and writers that fail.
use crate::fakes::answers::{check, check_at, shows};
use crate::fakes::harness::{executed, words_of};
use crate::fakes::{KINDS, Slow, Supply};
use gix_date::Time;
use gix_date::device::Device;
use gix_date_tool::{Mode, Status, ToolError, command, show_usage};
use std::alloc::{AllocError, Global};
use std::io::ErrorKind;

/// What a command line asks for, if memory serves.
fn asked(alloc: Global, line: &[&str]) -> Option<Option<(Mode, Option<Time>)>> {
    let words = words_of(alloc, line).ok()?;
    command(alloc, words.as_slice()).ok()
}

#[test]
fn a_command_line_is_a_mode_and_perhaps_a_moment(rt: HostRuntime) {
    const ROWS: [(&[&str], Option<(Mode, Option<Time>)>); 7] = [
        (&["check"], Some((Mode::Check, None))),
        (&["sign"], Some((Mode::Sign, None))),
        (
            &["parse", "1698400800 -0130"],
            Some((
                Mode::Parse,
                Some(Time {
                    seconds: 1_698_400_800,
                    offset: -5400,
                }),
            )),
        ),
        (&["parse", "@-377705023202"], None),
        (&["parse", "now"], None),
        (&["--help"], None),
        (&[], None),
    ];
    for &(line, wanted) in &ROWS {
        check_at(&rt, asked(rt.alloc(), line) == Some(wanted), &line);
    }
}

/// How the program ends by these words over this reader, what it writes, and what it says.
fn ended(
    alloc: Global,
    line: &[&str],
    reader: Supply<'static>,
) -> Result<(Status, Supply<'static>, Slow, Slow), AllocError> {
    let words = words_of(alloc, line)?;
    Ok(executed(
        alloc,
        words.as_slice(),
        reader,
        Slow::roomy(alloc),
        Slow::roomy(alloc),
    ))
}

/// How `check` ends over a reader that fails at once and messages with so much room, and what it says.
fn ended_with(
    rt: &HostRuntime,
    kind: ErrorKind,
    room: usize,
) -> Result<(Status, Slow), AllocError> {
    let words = words_of(rt.alloc(), &["check"])?;
    let (ended, _source, _sink, said) = executed(
        rt.alloc(),
        words.as_slice(),
        Supply::of(b"0", 1, 0, Some(kind)),
        Slow::roomy(rt.alloc()),
        Slow::new(rt.alloc(), 1 << 10, room, ErrorKind::StorageFull),
    );
    Ok((ended, said))
}

#[test]
fn the_program_ends_with_status_1_on_a_fault(rt: HostRuntime) {
    let reader = Supply::once(b"0 +0000\n", 3, Some(ErrorKind::ConnectionReset));
    let (status, _source, sink, said) = ended(rt.alloc(), &["check"], reader).expect(&rt, "memory");
    check(&rt, status == Status::Failure);
    check(&rt, status.code() == 1);
    check(&rt, sink.took(b"canonical\n"));
    check(
        &rt,
        said.took(b"gix_date_tool: reading failed: connection reset\n"),
    );
    check(&rt, (said.calls, said.flushes) == (1, 0));
}

/// How the program ends with its usage line on this writer, what became of it, and what was said.
fn usage_on(alloc: Global, writer: Slow) -> (Status, Slow, Slow) {
    let mut out = Device::new(writer);
    let mut messages = Device::new(Slow::roomy(alloc));
    let status = show_usage(&mut out, &mut messages);
    (status, out.into_inner(), messages.into_inner())
}

#[test]
fn an_unwritten_usage_line_is_said(rt: HostRuntime) {
    let cut = Slow::new(rt.alloc(), 9, 5, ErrorKind::StorageFull);
    let (status, cut, said) = usage_on(rt.alloc(), cut);
    check(&rt, status == Status::Failure);
    check(&rt, cut.took(b"usage"));
    check(
        &rt,
        said.took(b"gix_date_tool: writing failed: no storage space\n"),
    );
    let (status, _whole, said) = usage_on(rt.alloc(), Slow::roomy(rt.alloc()));
    check(&rt, status == Status::Usage);
    check(&rt, said.took(b"gix_date_tool: a word is not UTF-8\n"));
}

/// What a message adds to the name of a fault.
fn added_to(kind: ErrorKind) -> &'static str {
    match kind {
        ErrorKind::Uncategorized => ", as of a closed stream",
        _ => "",
    }
}

#[test]
fn faults_of_a_reader_are_called_as_the_standard_library_has_them(rt: HostRuntime) {
    for kind in KINDS {
        let more = added_to(kind);
        let (ended, said) = ended_with(&rt, kind, 1 << 10).expect(&rt, "memory");
        let line = format!(in rt.alloc(); "gix_date_tool: reading failed: {kind}{more}\n").expect(
            &rt, "memory",
        );
        check_at(&rt, ended == Status::Failure, &kind);
        check_at(&rt, said.took(line.as_bytes()), &kind);
    }
}

#[test]
fn faults_of_a_writer_are_called_as_the_standard_library_has_them(rt: HostRuntime) {
    for kind in KINDS {
        let more = added_to(kind);
        let wanted = format!(in rt.alloc(); "writing failed: {kind}{more}").expect(&rt, "memory");
        check_at(
            &rt,
            shows(rt.alloc(), &ToolError::Write(kind), wanted.as_str()),
            &kind,
        );
    }
}

#[test]
fn messages_that_are_refused_change_no_status(rt: HostRuntime) {
    let line = b"gix_date_tool: reading failed: timed out\n".as_slice();
    for room in 0..line.len() {
        let (ended, said) = ended_with(&rt, ErrorKind::TimedOut, room).expect(&rt, "memory");
        check_at(&rt, ended == Status::Failure, &room);
        check_at(&rt, said.took(&line[..room]), &room);
    }
}

#[test]
fn a_refused_command_line_reads_nothing(rt: HostRuntime) {
    const LINES: [&[&str]; 3] = [&["parse", "x"], &["check", "x"], &["chekc"]];
    for &line in &LINES {
        let reader = Supply::once(b"0 +0000\n", 99, None);
        let (status, source, _sink, said) = ended(rt.alloc(), line, reader).expect(&rt, "memory");
        check_at(&rt, status == Status::Usage, &line);
        check_at(&rt, (source.calls, said.calls) == (0, 1), &line);
    }
}
