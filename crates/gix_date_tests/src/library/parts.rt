//! The parts of identity lines: what Git leaves out of them, the numbers in them, and where they stand.
use crate::fakes::answers::check;
use gix_signature::{IdentPlaces, is_kept, number, trimmed};

// What `git var GIT_AUTHOR_IDENT` of Git 2.39.5 shows of the name `A?B`, for each byte but NUL.
#[test]
fn three_bytes_are_left_out_between_the_ends(rt: HostRuntime) {
    for byte in 1..=255_u8 {
        check(&rt, is_kept(byte) == !b"\n<>".contains(&byte));
    }
}

// What it shows of the name `?A?`.
#[test]
fn crud_is_cut_off_both_ends(rt: HostRuntime) {
    for byte in 1..=255_u8 {
        let part = [byte, b'A', byte];
        let due = if byte <= b' ' || b"\"',.:;<>\\".contains(&byte) {
            b"A".as_slice()
        } else {
            part.as_slice()
        };
        check(&rt, trimmed(part.as_slice()) == due);
    }
}

// What it shows of these mails.
#[test]
fn crud_between_the_ends_stays(rt: HostRuntime) {
    const PARTS: [(&[u8], &[u8]); 8] = [
        (b" .\"A, B;'", b"A, B"),
        (b"\\A\\B\\", b"A\\B"),
        (b"\"A \"B\" C\"", b"A \"B\" C"),
        (b"J\xf6rg\t", b"J\xf6rg"),
        (b"\x1fA\x7f", b"A\x7f"),
        (b"A", b"A"),
        (b" \t.,", b""),
        (b"", b""),
    ];
    for &(part, due) in &PARTS {
        check(&rt, trimmed(part) == due);
    }
}

// The largest is 2 to the power of 64 less 1.
#[test]
fn numbers_have_64_bits(rt: HostRuntime) {
    const NUMBERS: [(&[u8], Option<u64>); 9] = [
        (b"0", Some(0)),
        (b"00042", Some(42)),
        (b"1660874655", Some(1_660_874_655)),
        (b"9223372036854775808", Some(1 << 63)),
        (b"18446744073709551615", Some(u64::MAX)),
        (b"000018446744073709551615", Some(u64::MAX)),
        (b"18446744073709551616", None),
        (b"99999999999999999999999999999999999999999999", None),
        (b"", Some(0)),
    ];
    for &(digits, value) in &NUMBERS {
        check(&rt, number(digits) == value);
    }
}

// The places are Python's, by `index` of the part in the line.
#[test]
fn the_parts_of_a_line_stand_at_its_places(rt: HostRuntime) {
    for (text, email, rest, seconds, offset, end) in [
        (
            b"A U Thor <author@example.com> 1660874655 +0800".as_slice(),
            10,
            29,
            30,
            41,
            46,
        ),
        (b"A <a> 5 +0000\nB <b> 66 +0100", 3, 5, 6, 8, 13),
        (b"A <a> 5 +0000\0B <b> 66 +0100", 3, 5, 6, 8, 13),
        (b"J\xf6rg \t<j@e>  5  +0100", 7, 11, 13, 16, 21),
        (b"A <a> b> 5 +0000", 3, 5, 9, 11, 16),
        (b"<> 5 -0130", 1, 2, 3, 5, 10),
    ] {
        let due = IdentPlaces {
            email,
            rest,
            seconds,
            offset,
            end,
        };
        check(&rt, IdentPlaces::of(text) == due);
    }
}
