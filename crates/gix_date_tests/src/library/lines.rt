//! The lines of bytes, and those at their front that have the usual form.
use crate::fakes::answers::check;
use streams::usual::{MAX_HEADER, canonical_line, unknown_line};
use streams::{first_line, split_line};

#[test]
fn a_line_ends_at_its_first_newline(rt: HostRuntime) {
    for place in 0..79 {
        let mut bytes = [b'x'; 80];
        bytes[place] = b'\n';
        bytes[79] = b'\n';
        for cut in [split_line(&bytes), first_line(&bytes)] {
            check(
                &rt,
                matches!(cut, Some((line, after)) if line.len() == place && place + after.len() == 79),
            );
        }
    }
}

#[test]
fn the_last_line_may_lack_its_newline(rt: HostRuntime) {
    for length in 1..=80 {
        let bytes = &[b'x'; 80][..length];
        check(&rt, split_line(bytes).is_none());
        check(
            &rt,
            matches!(first_line(bytes), Some((line, after)) if line.len() == length && after.is_empty()),
        );
    }
    check(&rt, split_line(b"").is_none() && first_line(b"").is_none());
}

// Git writes headers so. Only some of them are promised: of 1 to 16 digits, the first no zero, where 16 bytes are left.
#[test]
fn usual_headers_are_found(rt: HostRuntime) {
    const USUAL: [(&[u8], &[u8]); 5] = [
        (b"1660874655 +0800\n", b""),
        (b"1660874655 -0130\nx\n", b"x\n"),
        (b"1 +0000\n8 bytes.", b"8 bytes."),
        (b"9 -9959\n8 bytes.", b"8 bytes."),
        (b"1234567890123456 +9959\n\n", b"\n"),
    ];
    for &(bytes, rest) in &USUAL {
        check(&rt, canonical_line(bytes) == Some(rest));
        check(&rt, unknown_line(bytes).is_none());
    }
    let longest = b"1234567890123456 +9959\n".as_slice();
    check(
        &rt,
        matches!(split_line(longest), Some((line, _)) if line.len() == MAX_HEADER),
    );
}

#[test]
fn other_lines_are_not_found(rt: HostRuntime) {
    const OTHERS: [&[u8]; 10] = [
        b"",
        b"1 +0000\n7 bytes",
        b"1660874655 +0800",
        b"0 +0000\n8 bytes.",
        b"01660874655 +0800\n",
        b"12345678901234567 +0000\n",
        b"-1660874655 +0800\n",
        b"1660874655 +0860\n",
        b"1660874655 +0800\r\n",
        b"yesterday +0800\n",
    ];
    for bytes in &OTHERS {
        check(&rt, canonical_line(bytes).is_none());
        check(&rt, unknown_line(bytes).is_none());
    }
}

#[test]
fn headers_of_the_unknown_offset_are_found(rt: HostRuntime) {
    const UNKNOWN: [(&[u8], &str, &[u8]); 3] = [
        (b"1660874655 -0000\n", "1660874655", b""),
        (b"1 -0000\n8 bytes.", "1", b"8 bytes."),
        (b"1234567890123456 -0000\nx\n", "1234567890123456", b"x\n"),
    ];
    for &(bytes, text, rest) in &UNKNOWN {
        check(&rt, unknown_line(bytes) == Some((text, rest)));
        check(&rt, canonical_line(bytes).is_none());
    }
}
