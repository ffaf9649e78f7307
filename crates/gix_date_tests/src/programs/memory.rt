//! Runs and calls where each request for memory is refused. What the calls of single texts ask for, `tests/memory` counts.
use crate::fakes::answers::{Fault, check, check_at, fails};
use crate::fakes::harness::{executed, ran, words_of};
use crate::fakes::{Hoarder, Small, Supply, take_all};
use crate::programs::failing::{RUNS, newlines};
use gix_date::{Time, parse};
use gix_date_tool::{Mode, Status, ToolError, command};
use std::alloc::Global;
use std::str;

/// Whether a run over this input writes this output and counts so many lines, or else is refused memory.
fn runs_so(alloc: Global, mode: Mode, input: &[u8], output: &[u8], lines: Option<u64>) -> bool {
    let (answer, _source, sink) = ran(alloc, mode, Supply::once(input, 99, None), Small::new());
    let ends_so = match (answer, lines) {
        (Ok(count), Some(lines)) => count == lines,
        (Err(ToolError::Memory), None) => true,
        _ => false,
    };
    ends_so && sink.is(output)
}

/// How a run over these pieces ends that takes all memory before it reads the last, and whether it writes this output.
fn hoarded(
    alloc: Global,
    mode: Mode,
    pieces: &[&[u8]],
    output: &[u8],
) -> (Result<u64, ToolError>, bool) {
    let reader = Hoarder::new(alloc, pieces);
    let (answer, source, sink) = ran(alloc, mode, reader, Small::new());
    let output_is_right = sink.is(output);
    drop(source);
    (answer, output_is_right)
}

/// How the program ends by these words over one line, which ends without a newline, and what it writes and says.
fn ended(alloc: Global, words: &[String]) -> (Status, Small, Small) {
    let reader = Supply::once(b"0 +0000", 99, None);
    let (status, _reader, sink, said) = executed(alloc, words, reader, Small::new(), Small::new());
    (status, sink, said)
}

#[test]
fn a_text_of_any_length_wants_memory_for_its_copy(rt: HostRuntime) {
    let mut texts = Vec::new(rt.alloc());
    for length in [1, 26, 27, 255, 256, 4095, 65_537, 1_000_000] {
        texts
            .push(vec![in rt.alloc(); b'x'; length].expect(&rt, "memory"))
            .expect(&rt, "memory");
    }
    let blocks = take_all(rt.alloc()).expect(&rt, "memory");
    let mut all_right = true;
    for bytes in texts.iter() {
        let text = str::from_utf8(bytes.as_slice()).unwrap_or("0");
        all_right = all_right && fails(parse(rt.alloc(), text, None), Fault::Memory);
    }
    drop(blocks);
    check_at(&rt, all_right, &"no-memory");
}

#[test]
fn a_growth_refused_ends_a_run(rt: HostRuntime) {
    let blocks = take_all(rt.alloc()).expect(&rt, "memory");
    let mut all_right = true;
    for mode in [Mode::Check, Mode::Parse, Mode::Sign] {
        all_right = all_right && runs_so(rt.alloc(), mode, b"A <a> 0 +0000", b"", None);
    }
    drop(blocks);
    check_at(&rt, all_right, &"no-memory");
}

#[test]
fn a_later_growth_refused_ends_a_run_after_its_replies(rt: HostRuntime) {
    // Memory is asked for a line that a read gives without its newline.
    let longer = b"100000000                                                       ".as_slice();
    let rows: [(Mode, &[u8], &[u8]); 3] = [
        (Mode::Check, b"0 +0000\n", b"canonical\n"),
        (Mode::Parse, b"0 +0000\n", b"0 +0000\n"),
        (Mode::Sign, b"A <a> 0\n", b"A <a> 0 +0000\n"),
    ];
    for &(mode, line, output) in &rows {
        let ended = hoarded(rt.alloc(), mode, &[line, longer], output);
        check_at(&rt, matches!(ended, (Err(ToolError::Memory), true)), &mode);
    }
}

#[test]
fn a_run_over_short_lines_takes_little_memory(rt: HostRuntime) {
    let spare: Vec<u8> = Vec::with_capacity(rt.alloc(), 65_536).expect(&rt, "memory");
    let blocks = take_all(rt.alloc()).expect(&rt, "memory");
    drop(spare);
    let mut all_right = true;
    for &(mode, input, output) in &RUNS {
        let lines = Some(newlines(output) as u64);
        all_right = all_right && runs_so(rt.alloc(), mode, input, output, lines);
    }
    drop(blocks);
    check_at(&rt, all_right, &"little-memory");
}

#[test]
fn a_moment_is_read_without_memory(rt: HostRuntime) {
    let words = words_of(rt.alloc(), &["parse", "x"]).expect(&rt, "memory");
    let dated = words_of(rt.alloc(), &["parse", "0 +0000"]).expect(&rt, "memory");
    let blocks = take_all(rt.alloc()).expect(&rt, "memory");
    let answer = command(rt.alloc(), words.as_slice()).ok();
    let due = command(rt.alloc(), dated.as_slice()).ok();
    drop(blocks);
    check(&rt, answer == Some(None));
    check(&rt, due == Some(Some((Mode::Parse, Some(Time::new(0, 0))))));
}

#[test]
fn a_wrong_moment_is_told_without_memory(rt: HostRuntime) {
    let words = words_of(rt.alloc(), &["parse", "x"]).expect(&rt, "memory");
    let blocks = take_all(rt.alloc()).expect(&rt, "memory");
    let (status, sink, said) = ended(rt.alloc(), words.as_slice());
    drop(blocks);
    let told = sink.is(b"usage: gix_date_tool MODE [NOW]\n")
        && said.is(
            b"gix_date_tool: NOW is in no known date format, or its offset is above 23:59; expected a date, \
              such as \"2022-08-18 12:45:06 +0800\" or \"1660874655 +0800\"\n",
        );
    check(&rt, status == Status::Usage);
    check_at(&rt, told, &"no-memory");
}

#[test]
fn a_run_refused_memory_ends_the_program_with_a_message(rt: HostRuntime) {
    let words = words_of(rt.alloc(), &["check"]).expect(&rt, "memory");
    let blocks = take_all(rt.alloc()).expect(&rt, "memory");
    let (status, sink, said) = ended(rt.alloc(), words.as_slice());
    let told = sink.is(b"") && said.is(b"gix_date_tool: out of memory\n");
    drop(blocks);
    check(&rt, status == Status::Failure);
    check_at(&rt, told, &"no-memory");
}

#[test]
fn a_run_in_parse_takes_memory_for_the_line_alone(rt: HostRuntime) {
    let pieces = [
        b"2008.02.14 20:30:45 -0500".as_slice(),
        b"\n20080214\n9999-12-31\nyesterday\nbanana\n\n1 +0007\n0 -0000\n\xff\n@5",
    ];
    let output =
        b"1203039045 -0500\nerror unknown-format\nerror date-conversion\nerror missing-moment\n\
          error unknown-format\nerror unknown-format\nerror unknown-format\n0 +0000\nnot text\n5 +0000\n";
    let ended = hoarded(rt.alloc(), Mode::Parse, &pieces, output);
    check_at(&rt, matches!(ended, (Ok(10), true)), &"no-memory");
}
