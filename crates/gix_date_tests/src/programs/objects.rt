//! Objects and lines judged over readers and writers that fail in mid-stream.
use crate::fakes::answers::check;
use crate::fakes::harness::words_of;
use crate::fakes::{Hoarder, Slow, Small, Supply, take_all};
use crate::programs::failing::are_first_lines;
use git_ident_tool::{Fault, Judge, StreamFault, Telling, execute, show_usage};
use gix_date::device::Device;
use gix_date_tool::{Status, ToolError};
use std::alloc::{AllocError, Global};
use std::io::{ErrorKind, Read, Write};

/// An input, what is told of it, and where the lines end that are told of.
#[derive(Clone, Copy)]
struct Run {
    has_objects: bool,
    input: &'static [u8],
    output: &'static [u8],
    ends: [usize; 3],
}

/// A commit, a blob and a tag as `git cat-file --batch` prints them, and the messages of Git 2.39.5's `git fsck`.
const OBJECTS: Run = Run {
    has_objects: true,
    input: b"c1 commit 62\ntree t\nauthor A <a> x\ncommitter C <c> 5 +0000\n\nauthor B <b> y\n\n\
        b1 blob 2\nA\n\nt1 tag 15\ntag t\ntagger A\n\n",
    output: b"c1 author badDate: A <a> x\nc1 committer ok: C <c> 5 +0000\nt1 tagger missingEmail: A\n",
    ends: [35, 59, 114],
};

/// Where the objects end, with their newlines.
const OBJECT_ENDS: [usize; 3] = [76, 89, 115];

/// The same lines without objects.
const LINES: Run = Run {
    has_objects: false,
    input: b"A <a> x\nC <c> 5 +0000\nA\n",
    output: b"badDate: A <a> x\nok: C <c> 5 +0000\nmissingEmail: A\n",
    ends: [8, 22, 24],
};

impl Run {
    /// How this ends over a reader and a writer, if all lines are told of, and what became of the two.
    fn over<R: Read, W: Write>(
        self,
        alloc: Global,
        reader: R,
        writer: W,
    ) -> (Result<bool, Fault>, R, W) {
        let judge = Judge {
            alloc,
            telling: Telling::All,
        };
        let mut source = Device::new(reader);
        let mut sink = Device::new(writer);
        let ended = if self.has_objects {
            judge.judge_objects(&mut source, &mut sink)
        } else {
            judge.judge_lines(&mut source, &mut sink)
        };
        (ended, source.into_inner(), sink.into_inner())
    }

    /// How many lines are told of, if so many bytes are given.
    fn told(self, given: usize) -> usize {
        let mut count = 0_usize;
        for end in &self.ends {
            if *end <= given {
                count = count.saturating_add(1);
            }
        }
        count
    }
}

#[test]
fn judging_fails_at_each_of_its_reads(rt: HostRuntime) {
    for &run in &[OBJECTS, LINES] {
        for given in 0..=run.input.len() {
            for &(a_call, kind) in &[
                (1, ErrorKind::ConnectionReset),
                (5, ErrorKind::Interrupted),
                (99, ErrorKind::TimedOut),
            ] {
                let reader = Supply::of(run.input, a_call, given, Some(kind));
                let (answer, source, sink) = run.over(rt.alloc(), reader, Slow::roomy(rt.alloc()));
                check(
                    &rt,
                    matches!(answer, Err(Fault::Tool(ToolError::Read(fault))) if fault == kind),
                );
                check(
                    &rt,
                    are_first_lines(sink.taken.as_slice(), run.output, run.told(given)),
                );
                check(
                    &rt,
                    source.calls == given.div_ceil(a_call).saturating_add(1),
                );
            }
        }
    }
}

#[test]
fn judging_fails_at_each_of_its_writes(rt: HostRuntime) {
    for &run in &[OBJECTS, LINES] {
        for &(a_read, end, due) in &[
            (1, Some(ErrorKind::StorageFull), ErrorKind::StorageFull),
            (99, None, ErrorKind::WriteZero),
        ] {
            for taken in 0..run.output.len() {
                let reader = Supply::once(run.input, a_read, None);
                let writer = Slow::ending(rt.alloc(), 1, taken, end);
                let (answer, source, sink) = run.over(rt.alloc(), reader, writer);
                check(
                    &rt,
                    matches!(answer, Err(Fault::Tool(ToolError::Write(kind))) if kind == due),
                );
                check(&rt, sink.took(&run.output[..taken]));
                check(&rt, sink.calls == taken + 1);
                check(&rt, a_read > 1 || run.ends.contains(&source.calls));
            }
        }
    }
}

#[test]
fn an_input_may_end_only_after_an_object(rt: HostRuntime) {
    for given in 0..=OBJECTS.input.len() {
        let reader = Supply::of(OBJECTS.input, 7, given, None);
        let (answer, _source, sink) = OBJECTS.over(rt.alloc(), reader, Slow::roomy(rt.alloc()));
        let is_whole = given == 0 || OBJECT_ENDS.contains(&given);
        check(
            &rt,
            match answer {
                Ok(clean) => is_whole && clean == (given == 0),
                Err(Fault::Stream(StreamFault::EarlyEnd)) => !is_whole,
                Err(_) => false,
            },
        );
        check(
            &rt,
            are_first_lines(sink.taken.as_slice(), OBJECTS.output, OBJECTS.told(given)),
        );
    }
}

#[test]
fn judging_that_is_refused_memory_ends(rt: HostRuntime) {
    let blocks = take_all(rt.alloc()).expect(&rt, "memory");
    let reader = Supply::once(LINES.input, 99, None);
    let (at_once, _source, none) = LINES.over(rt.alloc(), reader, Small::new());
    drop(blocks);
    check(&rt, matches!(at_once, Err(Fault::Tool(ToolError::Memory))));
    check(&rt, none.is(b""));
}

#[test]
fn judging_that_is_refused_memory_later_ends_after_its_replies(rt: HostRuntime) {
    let longer =
        b"A                                                                <a> x\n".as_slice();
    let pieces = [b"A <a> x\n".as_slice(), longer];
    let (later, source, sink) = LINES.over(
        rt.alloc(),
        Hoarder::new(rt.alloc(), &pieces),
        Small::new(),
    );
    drop(source);
    check(&rt, matches!(later, Err(Fault::Tool(ToolError::Memory))));
    check(&rt, sink.is(b"badDate: A <a> x\n"));
}

/// How the program ends by one word over a reader and a writer, and what it says where there is so much room.
fn ended(
    alloc: Global,
    reader: Supply<'_>,
    writer: Slow,
    room: usize,
) -> Result<(Status, Slow), AllocError> {
    let words = words_of(alloc, &["--all"])?;
    let mut source = Device::new(reader);
    let mut sink = Device::new(writer);
    let mut messages = Device::new(Slow::new(alloc, 1 << 10, room, ErrorKind::StorageFull));
    let status = execute(
        alloc,
        words.as_slice(),
        &mut source,
        &mut sink,
        &mut messages,
    );
    Ok((status, messages.into_inner()))
}

#[test]
fn the_judging_program_says_that_its_reader_failed(rt: HostRuntime) {
    let reset = Some(ErrorKind::ConnectionReset);
    let said = b"git_ident: reading failed: connection reset\n".as_slice();
    for room in 0..=said.len() {
        let reader = Supply::once(OBJECTS.input, 9, reset);
        let (status, messages) = ended(rt.alloc(), reader, Slow::roomy(rt.alloc()), room).expect(
            &rt, "memory",
        );
        check(&rt, status == Status::Failure);
        check(&rt, messages.took(&said[..room]));
    }
}

#[test]
fn the_judging_program_says_that_its_writer_failed(rt: HostRuntime) {
    const FAULTS: [(ErrorKind, &[u8]); 2] = [
        (
            ErrorKind::StorageFull,
            b"git_ident: writing failed: no storage space\n",
        ),
        (ErrorKind::BrokenPipe, b""),
    ];
    for &(kind, said) in &FAULTS {
        let reader = Supply::once(OBJECTS.input, 9, None);
        let (status, messages) = ended(
            rt.alloc(),
            reader,
            Slow::new(rt.alloc(), 1, 3, kind),
            99,
        ).expect(&rt, "memory");
        check(&rt, status == Status::Failure);
        check(&rt, messages.took(said));
    }
}

#[test]
fn wrong_words_judge_nothing(rt: HostRuntime) {
    let words = words_of(rt.alloc(), &["x"]).expect(&rt, "memory");
    let mut source = Device::new(Supply::once(OBJECTS.input, 9, None));
    let mut sink = Device::new(Slow::roomy(rt.alloc()));
    let mut messages = Device::new(Slow::roomy(rt.alloc()));
    let status = execute(
        rt.alloc(),
        words.as_slice(),
        &mut source,
        &mut sink,
        &mut messages,
    );
    check(
        &rt,
        (status, source.into_inner().calls, sink.into_inner().calls) == (Status::Usage, 0, 0),
    );
    check(
        &rt,
        messages.into_inner().took(
            b"git_ident: a word is no option\nusage: git_ident [--all] [--lines]\n",
        ),
    );
    let mut messages = Device::new(Slow::roomy(rt.alloc()));
    check(&rt, show_usage(&mut messages) == Status::Usage);
    check(
        &rt,
        messages.into_inner().took(
            b"git_ident: a word is not UTF-8\nusage: git_ident [--all] [--lines]\n",
        ),
    );
}
