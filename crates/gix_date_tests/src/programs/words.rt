//! The words of a command line as a system gives them, and texts that are sent in pieces.
use crate::fakes::answers::{check, check_at};
use crate::fakes::machine::Machine;
use crate::fakes::{Dribble, Slow, take_all};
use gix_date::device::{Device, Sink};
use std::io::ErrorKind;
use streams::{Outbox, words};

/// More than any first guess of a word's length.
const LONG: [u8; 5000] = [b'x'; 5000];

#[test]
fn the_words_come_after_the_programs_name(rt: HostRuntime) {
    const LENGTHS: [usize; 4] = [5, 0, 2, 5000];
    let machine = Machine::called(rt, &[b"tool", b"parse", b"", b"\xc3\xa9", &LONG]);
    let given = words(&machine).expect(&rt, "memory").expect(&rt, "words");
    check(&rt, given.len() == LENGTHS.len());
    for (word, length) in given.iter().zip(&LENGTHS) {
        check(&rt, word.len() == *length);
    }
    check(
        &rt,
        matches!(given.first(), Some(word) if word.as_str() == "parse"),
    );
}

#[test]
fn a_program_without_words_or_a_name_has_none(rt: HostRuntime) {
    const LINES: [&[&[u8]]; 2] = [&[b"tool"], &[]];
    for &line in &LINES {
        let machine = Machine::called(rt, line);
        let given = words(&machine).expect(&rt, "memory");
        check(&rt, matches!(&given, Some(none) if none.is_empty()));
    }
}

#[test]
fn words_that_are_no_text_or_find_no_memory_are_refused(rt: HostRuntime) {
    let wrong = Machine::called(rt, &[b"tool", b"parse", b"\xff"]);
    check(&rt, matches!(words(&wrong), Ok(None)));
    let right = Machine::called(rt, &[b"tool", b"parse"]);
    let blocks = take_all(rt.alloc()).expect(&rt, "memory");
    let refused = words(&right).is_err();
    drop(blocks);
    check_at(&rt, refused, &"no-memory");
    check(&rt, words(&right).is_ok());
}

#[test]
fn a_text_in_pieces_is_sent_at_once_or_in_part(rt: HostRuntime) {
    let pieces = ["1", "", " +00", "00\n"];
    let text = b"1 +0000\n".as_slice();
    for room in 0..=text.len() {
        let mut out = Device::new(Slow::new(rt.alloc(), 99, room, ErrorKind::StorageFull));
        let sent = send_pieces(&pieces, &mut out);
        let due = if room == text.len() {
            Ok(())
        } else {
            Err(ErrorKind::StorageFull)
        };
        check(&rt, sent == due);
        let inner = out.into_inner();
        check(&rt, inner.took(&text[..room]));
        check(&rt, inner.calls <= 2);
    }
    let mut none = Dribble::new(99);
    check(
        &rt,
        send_pieces(&[], &mut none) == Ok(()) && none.calls == 0,
    );
}

/// Puts a text into an outbox in pieces, and sends it.
fn send_pieces<W: Sink>(pieces: &[&str], out: &mut W) -> Result<(), ErrorKind> {
    let mut outbox = Outbox::new();
    outbox.push(pieces, out)?;
    outbox.send(out)
}
