//! The faults of `gix_date`: the texts that they carry, and what they show.
use crate::fakes::answers::{all_show, check, check_at, debug_has, shows};
use crate::library::names::{comes_back, refused};
use gix_date::{Error, ParseError};
use std::alloc::{AllocError, Global};
use std::io::ErrorKind;
use std::process::Abort;
use std::str;

const NO_MOMENT: &str = "the date needs a moment, and none was given";

const NO_INSTANT: &str = "the date leads to an instant that cannot be computed with";

const UNKNOWN: &str =
    "no known date format; expected seconds since 1970, such as \"@0\" or \"1700000000\", seconds and an \
     offset, such as \"1660874655 +0800\", a date, such as \"2022-08-18 12:45:06 +0800\", or a relative one, such as \
     \"2 weeks ago\"";

const UNKNOWN_X: &str =
    "no known date format: \"x\"; expected seconds since 1970, such as \"@0\" or \"1700000000\", seconds and an \
     offset, such as \"1660874655 +0800\", a date, such as \"2022-08-18 12:45:06 +0800\", or a relative one, such as \
     \"2 weeks ago\"";

#[test]
fn a_refused_text_shows_as_itself(rt: HostRuntime) {
    let input = refused(rt.alloc(), "1:2 \u{e9}", None).expect(&rt, "a date");
    check(&rt, input.as_bytes() == b"1:2 \xc3\xa9".as_slice());
    check(&rt, shows(rt.alloc(), &input, "1:2 \u{e9}"));
    check(&rt, debug_has(rt.alloc(), &input, ""));
}

/// The two faults that carry this text.
fn carrying(alloc: Global, text: &str) -> Option<[Error; 2]> {
    let unknown = refused(alloc, text, None)?;
    let beyond = refused(alloc, text, None)?;
    Some([
        Error::UnknownFormat { input: unknown },
        Error::DateConversion { input: beyond },
    ])
}

/// A fault that carries a quotation with a newline.
fn is_quoted_in_one_line(rt: &impl Abort, alloc: Global, fault: &Error) -> Result<(), AllocError> {
    let text = format!(in alloc; "{fault}")?;
    check_at(rt, text.contains("\"1\\n \\\"2\\\"\""), &text);
    check_at(rt, !text.contains('\n'), &text);
    Ok(())
}

#[test]
fn a_refused_text_is_shown_quoted_in_one_line(rt: HostRuntime) {
    let faults = carrying(rt.alloc(), "1\n \"2\"").expect(&rt, "a date");
    for fault in &faults {
        is_quoted_in_one_line(&rt, rt.alloc(), fault).expect(&rt, "memory");
    }
}

#[test]
fn a_text_of_any_length_comes_back(rt: HostRuntime) {
    for length in [1, 26, 27, 255, 256, 4095, 65_537, 1_000_000] {
        let bytes = vec![in rt.alloc(); b'x'; length].expect(&rt, "memory");
        let text = str::from_utf8(bytes.as_slice()).unwrap_or("0");
        check_at(
            &rt,
            text.len() == length && comes_back(rt.alloc(), text, None),
            &length,
        );
    }
}

#[test]
fn each_fault_says_what_is_wrong(rt: HostRuntime) {
    all_show(
        &rt,
        rt.alloc(),
        &[
            (
                Error::InvalidTime,
                "not a time: expected seconds since 1970, perhaps an offset such as +0100, and no colon",
                "InvalidTime",
            ),
            (Error::MissingNow, NO_MOMENT, "MissingNow"),
            (
                Error::Conversion,
                "the time is too far from 1970, or its offset from UTC is beyond 25:59:59",
                "Conversion",
            ),
            (Error::Range, NO_INSTANT, "Range"),
            (
                Error::OffsetTooWide,
                "an offset of 100 hours or more from UTC cannot be written",
                "OffsetTooWide",
            ),
            (Error::Pattern, "the pattern cannot be printed", "Pattern"),
            (
                Error::Write(ErrorKind::BrokenPipe),
                "writing failed: broken pipe",
                "Write(BrokenPipe)",
            ),
            (Error::Memory, "out of memory", "Memory"),
        ],
    );
}

#[test]
fn a_refused_text_stands_in_its_fault(rt: HostRuntime) {
    let faults = carrying(rt.alloc(), "x").expect(&rt, "a date");
    check(&rt, shows(rt.alloc(), &faults[0], UNKNOWN_X));
    check(
        &rt,
        shows(
            rt.alloc(),
            &faults[1],
            "the date is beyond the last instant that can be computed with: \"x\"",
        ),
    );
}

#[test]
fn each_refusal_without_its_text_says_what_is_wrong(rt: HostRuntime) {
    all_show(
        &rt,
        rt.alloc(),
        &[
            (ParseError::UnknownFormat, UNKNOWN, "UnknownFormat"),
            (
                ParseError::DateConversion,
                "the date is beyond the last instant that can be computed with",
                "DateConversion",
            ),
            (ParseError::MissingNow, NO_MOMENT, "MissingNow"),
            (ParseError::Range, NO_INSTANT, "Range"),
        ],
    );
}
