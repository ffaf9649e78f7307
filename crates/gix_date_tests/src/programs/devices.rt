//! Devices over writers and readers that fail, and what is written to them.
use crate::fakes::answers::{Fault, check, check_at, debug_has, fails};
use crate::fakes::{Dribble, KINDS, Slow, Supply, count_of};
use gix_date::Time;
use gix_date::device::{Device, Sink, Source, put_all};
use std::alloc::Global;
use std::io::ErrorKind;

#[test]
fn a_device_makes_one_write_a_call(rt: HostRuntime) {
    const PIECES: [(&[u8], usize); 3] = [(b"abc", 2), (b"c", 1), (b"de", 2)];
    let mut device = Device::new(Slow::new(rt.alloc(), 2, 5, ErrorKind::StorageFull));
    for &(piece, count) in &PIECES {
        check(&rt, device.put(piece) == Ok(count));
    }
    let inner = device.into_inner();
    check(&rt, inner.took(b"abcde"));
    check(&rt, (inner.calls, inner.flushes) == (3, 0));
}

#[test]
fn a_device_makes_no_write_and_no_flush_after_a_fault(rt: HostRuntime) {
    for kind in KINDS {
        let mut device = Device::new(Slow::new(rt.alloc(), 1, 1, kind));
        check_at(&rt, device.put(b"ab") == Ok(1), &kind);
        for _ in 0..3 {
            check_at(&rt, device.put(b"b\n") == Err(kind), &kind);
        }
        let inner = device.into_inner();
        check_at(&rt, inner.took(b"a"), &kind);
        check_at(&rt, (inner.calls, inner.flushes) == (2, 0), &kind);
    }
}

#[test]
fn a_device_flushes_neither_at_a_newline_nor_after_a_long_piece(rt: HostRuntime) {
    let mut device = Device::new(Slow::new(rt.alloc(), 999, 9999, ErrorKind::Other));
    check(&rt, device.put(b"a\n") == Ok(2));
    check(&rt, device.put(b"\n") == Ok(1));
    check(&rt, device.put(&[b'x'; 100]) == Ok(100));
    let inner = device.into_inner();
    check(&rt, (inner.calls, inner.flushes) == (3, 0));
}

#[test]
fn a_device_writes_nothing_behind_what_it_reads(rt: HostRuntime) {
    let mut device = Device::new(Supply::once(b"abc", 9, None));
    let mut piece = [b'#'; 100];
    check(&rt, device.get(&mut piece) == Ok(3));
    check(&rt, piece.starts_with(b"abc"));
    check(&rt, count_of(b'#', &piece) == 97);
}

#[test]
fn a_write_of_no_byte_is_a_fault(rt: HostRuntime) {
    let mut device = Device::new(Slow::new(rt.alloc(), 0, 9, ErrorKind::Other));
    check(&rt, device.put(b"a") == Err(ErrorKind::WriteZero));
    check(&rt, device.put(b"a") == Err(ErrorKind::WriteZero));
    check(&rt, device.into_inner().calls == 1);
}

#[test]
fn an_interrupted_call_is_a_fault(rt: HostRuntime) {
    let mut writer = Device::new(Slow::new(rt.alloc(), 1, 0, ErrorKind::Interrupted));
    check(&rt, writer.put(b"a") == Err(ErrorKind::Interrupted));
    check(&rt, writer.into_inner().calls == 1);
    let mut reader = Device::new(Supply::of(b"x", 1, 0, Some(ErrorKind::Interrupted)));
    check(&rt, reader.get(&mut [0; 4]) == Err(ErrorKind::Interrupted));
    check(&rt, reader.into_inner().calls == 1);
}

#[test]
fn a_device_makes_no_read_after_a_fault_and_leaves_the_piece(rt: HostRuntime) {
    for kind in KINDS {
        let mut device = Device::new(Supply::of(b"x", 1, 0, Some(kind)));
        let mut piece = *b"abcd";
        for _ in 0..3 {
            check_at(&rt, device.get(&mut piece) == Err(kind), &kind);
            check_at(&rt, piece.as_slice() == b"abcd".as_slice(), &kind);
        }
        check_at(&rt, device.into_inner().calls == 1, &kind);
    }
}

#[test]
fn a_device_reads_until_the_first_fault(rt: HostRuntime) {
    let mut device = Device::new(Supply::of(b"x", 1, 2, Some(ErrorKind::UnexpectedEof)));
    let mut piece = [0; 4];
    check(&rt, device.get(&mut piece) == Ok(1));
    check(&rt, piece[0] == b'x');
    check(&rt, device.get(&mut piece) == Ok(1));
    piece = *b"abcd";
    for _ in 0..3 {
        check(&rt, device.get(&mut piece) == Err(ErrorKind::UnexpectedEof));
        check(&rt, piece.as_slice() == b"abcd".as_slice());
    }
    check(&rt, device.into_inner().calls == 3);
}

#[test]
fn a_device_makes_one_read_a_call_at_the_end_too(rt: HostRuntime) {
    let mut device = Device::new(Supply::once(b"ab", 9, None));
    let mut piece = [0; 4];
    for (count, calls) in [(2, 1), (0, 2), (0, 3)] {
        check(&rt, device.get(&mut piece) == Ok(count));
        let inner = device.into_inner();
        check(&rt, inner.calls == calls);
        device = Device::new(inner);
    }
}

#[test]
fn put_all_asks_a_sink_no_more_after_its_fault(rt: HostRuntime) {
    let mut out = Dribble::new(2);
    check(
        &rt,
        put_all(&mut out, b"abcde") == Err(ErrorKind::StorageFull),
    );
    check(&rt, out.calls == 3);
    let mut out = Dribble::new(25);
    let answer = Time::MIN.write_to(&mut out);
    check(&rt, fails(answer, Fault::Write(ErrorKind::StorageFull)));
    check(&rt, out.calls == 26);
}

#[test]
fn a_device_over_a_slice_reads_to_its_end(rt: HostRuntime) {
    let mut device = Device::new(b"abc".as_slice());
    let mut piece = [0; 2];
    check(&rt, device.get(&mut piece) == Ok(2));
    check(&rt, piece.as_slice() == b"ab".as_slice());
    check(&rt, device.get(&mut piece) == Ok(1));
    check(&rt, piece[0] == b'c');
    check(&rt, device.get(&mut piece) == Ok(0));
}

/// What becomes of a writer of so many bytes, of which it takes three a call, and the answer.
fn put_into(alloc: Global, room: usize, bytes: &[u8]) -> (Result<(), ErrorKind>, Slow) {
    let mut out = Device::new(Slow::new(alloc, 3, room, ErrorKind::Other));
    let answer = put_all(&mut out, bytes);
    (answer, out.into_inner())
}

#[test]
fn put_all_sends_all_or_answers_the_fault(rt: HostRuntime) {
    const ROWS: [(usize, &[u8], Result<(), ErrorKind>, &[u8]); 2] = [
        (9, b"abcdefgh", Ok(()), b"abcdefgh"),
        (7, b"abcdefgh", Err(ErrorKind::Other), b"abcdefg"),
    ];
    for &(room, bytes, due, taken) in &ROWS {
        let (answer, writer) = put_into(rt.alloc(), room, bytes);
        check(&rt, answer == due);
        check(&rt, writer.took(taken));
    }
    let (answer, never) = put_into(rt.alloc(), 0, b"");
    check(&rt, answer == Ok(()));
    check(&rt, never.calls == 0);
}

#[test]
fn a_device_has_a_debug_form(rt: HostRuntime) {
    check(&rt, debug_has(rt.alloc(), &Device::new(7), ""));
}
