//! Bytes that are read as text.
use crate::fakes::answers::check_at;
use gix_date::bytes::text_of;

/// The text of the bytes, as bytes.
fn read(bytes: &[u8]) -> Option<&[u8]> {
    match text_of(bytes) {
        Some(text) => Some(text.as_bytes()),
        None => None,
    }
}

// The examples of RFC 3629, section 7, and the characters at the ends of the rows of its section 3.
#[test]
fn characters_of_several_bytes_are_text(rt: HostRuntime) {
    const TEXTS: [(&[u8], &str); 9] = [
        (b"\x41\xe2\x89\xa2\xce\x91\x2e", "A\u{2262}\u{391}."),
        (
            b"\xed\x95\x9c\xea\xb5\xad\xec\x96\xb4",
            "\u{d55c}\u{ad6d}\u{c5b4}",
        ),
        (
            b"\xe6\x97\xa5\xe6\x9c\xac\xe8\xaa\x9e",
            "\u{65e5}\u{672c}\u{8a9e}",
        ),
        (b"\xef\xbb\xbf\xf0\xa3\x8e\xb4", "\u{feff}\u{233b4}"),
        (b"\x7f\xc2\x80", "\u{7f}\u{80}"),
        (b"\xdf\xbf\xe0\xa0\x80", "\u{7ff}\u{800}"),
        (b"\xed\x9f\xbf\xee\x80\x80", "\u{d7ff}\u{e000}"),
        (b"\xef\xbf\xbf\xf0\x90\x80\x80", "\u{ffff}\u{10000}"),
        (b"\xf4\x8f\xbf\xbf", "\u{10ffff}"),
    ];
    for &(bytes, text) in &TEXTS {
        check_at(&rt, text_of(bytes) == Some(text), &text);
    }
}

// Each alone, and with ASCII on both sides. By RFC 3629, section 3: cut short, longer than need be, a surrogate, past
// U+10FFFF, or a byte that begins no character.
#[test]
fn other_bytes_are_no_text(rt: HostRuntime) {
    const WRONG: [&[u8]; 14] = [
        b"\x80",
        b"\xc3",
        b"\xe2\x82",
        b"\xf0\x9f\x98",
        b"\xc0\x80",
        b"\xc1\xbf",
        b"\xe0\x80\x80",
        b"\xf0\x80\x80\x80",
        b"\xed\xa0\x80",
        b"\xed\xbf\xbf",
        b"\xf4\x90\x80\x80",
        b"\xf5\x80\x80\x80",
        b"\xfe",
        b"\xff",
    ];
    for &wrong in &WRONG {
        check_at(&rt, text_of(wrong).is_none(), &wrong);
        let mut bytes = *b"1660874655 +0800 1660874655 +0800 1660874655 +0800";
        bytes[20..20 + wrong.len()].copy_from_slice(wrong);
        check_at(&rt, text_of(&bytes).is_none(), &wrong);
    }
}
