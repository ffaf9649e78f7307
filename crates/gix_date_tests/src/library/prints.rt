//! Times printed by patterns of one's own, and where memory is refused.
use crate::fakes::answers::{Fault, check, check_at, fails, reads};
use crate::fakes::take_all;
use gix_date::Time;
use gix_date::time::format::{ISO8601, PatternBuf, RAW, UNIX};
use gix_date::time::{CustomFormat, Format};
use std::alloc::{AllocError, Global};

const ISO: Format = Format::Custom(ISO8601);

/// A pattern whose text has 139 bytes.
const LONG_PATTERN: &str = "%F %T %F %T %F %T %F %T %F %T %F %T %F %T";

#[test]
fn a_format_may_have_any_pattern(rt: HostRuntime) {
    let time = Time::new(0, 0);
    let day = Format::Custom(CustomFormat::new("%A %-d %B, %Z, %Q"));
    check(
        &rt,
        reads(time.format(rt.alloc(), day), "Thursday 1 January, UTC, UTC"),
    );
    for pattern in ["%!", "%", "%Y-%"] {
        let format = Format::Custom(CustomFormat::new(pattern));
        let refused = time.format(rt.alloc(), format);
        check_at(&rt, fails(refused, Fault::Pattern), &pattern);
        let seconds = time.format_or_unix(rt.alloc(), format);
        check_at(&rt, reads(seconds, "0"), &pattern);
    }
}

// What Git 2.39.5 prints. The bounds of four-digit years are Python's.
#[test]
fn named_formats_have_texts_by_value(rt: HostRuntime) {
    let time = Time::new(1_660_874_655, 28_800);
    check(
        &rt,
        matches!(time.format_to_buf(ISO), Some(buf) if buf.as_str() == "2022-08-19 10:04:15 +0800"),
    );
    check_at(&rt, time.format_by_pattern_to_buf("%Y").is_none(), &"year");
    let year = Format::Custom(CustomFormat::new("%Y"));
    check_at(&rt, time.format_to_buf(year).is_none(), &time);
    for &(seconds, offset, format) in &[
        (0, 360_000, RAW),
        (0, 93_600, ISO),
        (253_402_207_201, 0, ISO),
        (-30_610_224_001, 0, ISO),
        (0, 61, ISO),
    ] {
        let time = Time::new(seconds, offset);
        check_at(&rt, time.format_to_buf(format).is_none(), &time);
    }
}

// What `strftime` of glibc 2.36 shows.
#[test]
fn patterns_of_usual_letters_have_short_texts(rt: HostRuntime) {
    let time = Time::new(4_102_444_799, 49_500);
    let mut short = PatternBuf::new();
    for &(pattern, text) in &[
        ("%d.%m.%Y", "01.01.2100"),
        ("%F %T", "2100-01-01 13:44:59"),
        ("%a, %e %b %Y, %T %z", "Fri,  1 Jan 2100, 13:44:59 +1345"),
        ("", ""),
    ] {
        let shown = time.format_by_pattern_short(pattern, &mut short);
        check_at(&rt, shown && short.as_str() == text, &pattern);
    }
    for pattern in ["%A", "%", "%Y-%", "%-d", "\u{e9}", LONG_PATTERN] {
        let shown = time.format_by_pattern_short(pattern, &mut short);
        check_at(&rt, !shown, &pattern);
    }
    for &(seconds, offset) in &[
        (0, 93_600),
        (253_402_207_201, 0),
        (-30_610_224_001, 0),
        (0, 61),
    ] {
        let time = Time::new(seconds, offset);
        check_at(&rt, !time.format_by_pattern_short("%Y", &mut short), &time);
    }
}

#[test]
fn a_text_that_is_refused_memory_is_refused(rt: HostRuntime) {
    let time = Time::new(1_660_874_655, 28_800);
    let blocks = take_all(rt.alloc()).expect(&rt, "memory");
    let mut all_right = fails(time.format_by_pattern(rt.alloc(), "%Y"), Fault::Memory);
    for &format in &[UNIX, RAW, ISO] {
        all_right = all_right
            && fails(time.format(rt.alloc(), format), Fault::Memory)
            && fails(time.format_or_unix(rt.alloc(), format), Fault::Memory);
    }
    let beyond = fails(Time::MAX.format(rt.alloc(), ISO), Fault::Conversion);
    let wide = Time::new(0, 362_340).format(rt.alloc(), RAW);
    let wide = fails(wide, Fault::OffsetTooWide);
    drop(blocks);
    check_at(&rt, all_right, &"no-memory");
    check_at(&rt, beyond && wide, &"no-memory");
}

/// A piece of memory of each size.
fn pieces(alloc: Global, sizes: [usize; 2]) -> Result<Vec<Vec<u8>>, AllocError> {
    let mut pieces = Vec::new(alloc);
    for size in sizes {
        pieces.push(Vec::with_capacity(alloc, size)?)?;
    }
    Ok(pieces)
}

/// Whether a first text is refused memory, and whether a second is printed, where the pieces are left but for so many.
fn printed_beside(alloc: Global, kept: usize) -> Result<(bool, bool), AllocError> {
    let time = Time::new(1_660_874_655, 28_800);
    // Of 14 bytes both, for which `jiff` asks for twice as many at first: the second text has room in these, the first
    // has not.
    let long = CustomFormat::new("%A, %B, %A, %B");
    let short = CustomFormat::new("%A, %B, %a, %b");
    let mut room = pieces(alloc, [65_536, 28])?;
    let blocks = take_all(alloc)?;
    room.truncate(kept);
    let refused = fails(time.format(alloc, long.into()), Fault::Memory);
    let fits = time.format(alloc, short.into()).is_ok();
    drop(blocks);
    Ok((refused, fits))
}

#[test]
fn each_growth_of_a_text_may_be_refused(rt: HostRuntime) {
    for &(kept, refused, fits, row) in &[
        (2, true, false, "no-memory"),
        (1, true, true, "little-memory"),
        (0, false, true, "enough-memory"),
    ] {
        check_at(
            &rt,
            printed_beside(rt.alloc(), kept).ok() == Some((refused, fits)),
            &row,
        );
    }
}
