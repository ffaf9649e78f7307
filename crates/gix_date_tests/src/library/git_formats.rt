//! Dates by Git's formats: what the rows cannot say.
use crate::fakes::answers::{all_show, check, check_at, debugs, reads};
use crate::fakes::{Slow, take_all};
use git_date::{
    BriefText, DateFormat, FormatFault, ShortText, ShowError, show_by_format, text_by_format,
    text_by_format_brief, text_by_format_short,
};
use gix_date::device::Device;
use gix_date::{Time, Zoned};
use std::alloc::{AllocError, Global};
use std::io::{ErrorKind, Write};

/// Sunday, 2009-08-30 19:20:00 in UTC.
const TIME: Time = Time {
    seconds: 1_251_660_000,
    offset: 7200,
};

/// What Git 2.39.5 shows of it by this format.
const LONG: &str = "at %Y-%m-%d %H:%M:%S %z, %s: %c%%";

const LONG_TEXT: &[u8] = b"at 2009-08-30 21:20:00 +0200, 1251660000: Sun Aug 30 21:20:00 2009%";

#[test]
fn each_fault_of_a_format_says_what_is_wrong(rt: HostRuntime) {
    all_show(
        &rt,
        rt.alloc(),
        &[
            (
                FormatFault::FlagRefused(3),
                "the directive at byte 3 takes no flags and no width",
                "FlagRefused(3)",
            ),
            (
                FormatFault::UnknownDirective(0),
                "the directive at byte 0 is unknown",
                "UnknownDirective(0)",
            ),
            (
                FormatFault::WidthTooLarge(7),
                "the width at byte 7 is above 255",
                "WidthTooLarge(7)",
            ),
        ],
    );
    all_show(
        &rt,
        rt.alloc(),
        &[
            (
                ShowError::Range,
                "the time has no such clock, or its seconds are of a year outside 1970 to 2099",
                "Range",
            ),
            (ShowError::Memory, "no memory for the text", "Memory"),
            (
                ShowError::Write(ErrorKind::BrokenPipe),
                "the text could not be written",
                "Write(BrokenPipe)",
            ),
        ],
    );
}

#[test]
fn a_format_may_be_used_many_times(rt: HostRuntime) {
    let now = TIME.to_zoned().expect(&rt, "a moment");
    let format = DateFormat::new("%F %R").expect(&rt, "a format");
    let copied = format;
    check(&rt, format.as_str() == "%F %R");
    check(
        &rt,
        debugs(rt.alloc(), &copied, "DateFormat { text: \"%F %R\" }"),
    );
    let text = text_by_format(rt.alloc(), TIME, format, false, now);
    check(&rt, reads(text, "2009-08-30 21:20"));
    let text = text_by_format(rt.alloc(), Time::new(0, 0), copied, false, now);
    check(&rt, reads(text, "1970-01-01 00:00"));
}

#[test]
fn a_format_shows_short_texts_without_memory(rt: HostRuntime) {
    let now = TIME.to_zoned().expect(&rt, "a moment");
    let mut short = ShortText::new();
    check(
        &rt,
        text_by_format_short(TIME, LONG, false, now.time_zone(), &mut short),
    );
    check(&rt, short.as_str().as_bytes() == LONG_TEXT);
    check(
        &rt,
        text_by_format_short(Time::new(0, 0), "%F %R", true, now.time_zone(), &mut short),
    );
    check(&rt, short.as_str() == "1970-01-01 02:00");
    let mut brief = BriefText::new();
    check(&rt, text_by_format_brief(TIME, LONG, &mut brief));
    check(&rt, brief.as_str().as_bytes() == LONG_TEXT);
    check(
        &rt,
        text_by_format_brief(TIME, "%Y-%m-%d %H:%M:%S %z", &mut brief),
    );
    check(&rt, brief.as_str() == "2009-08-30 21:20:00 +0200");
}

#[test]
fn a_text_is_not_short_with_a_fault_or_without_room(rt: HostRuntime) {
    let zone = TIME.to_zoned().expect(&rt, "a moment").time_zone();
    let mut short = ShortText::new();
    let mut brief = BriefText::new();
    for &(seconds, offset, format) in &[
        (TIME.seconds, TIME.offset, "%5"),
        (TIME.seconds, TIME.offset, "%c%c%c%c%c%c%c%c%c%c%c"),
        (-1, 0, "%F"),
        (4_102_444_800, 0, "%F"),
        (1_251_660_000, 30, "%F"),
    ] {
        let time = Time::new(seconds, offset);
        check(
            &rt,
            !text_by_format_short(time, format, false, zone, &mut short),
        );
        check(&rt, !text_by_format_brief(time, format, &mut brief));
    }
    check(
        &rt,
        text_by_format_short(TIME, "%c%c%c%c%c%c", false, zone, &mut short),
    );
    check(&rt, !text_by_format_brief(TIME, "%c%c%c%c%c%c", &mut brief));
}

/// How showing a time ends over a writer, and what became of the writer.
fn shown_to<W: Write>(
    time: Time,
    format: DateFormat<'_>,
    now: Zoned<'_>,
    writer: W,
) -> (Result<(), ShowError>, W) {
    let mut out = Device::new(writer);
    let answer = show_by_format(time, format, false, now, &mut out);
    (answer, out.into_inner())
}

#[test]
fn a_clock_that_is_not_shown_writes_nothing(rt: HostRuntime) {
    let now = TIME.to_zoned().expect(&rt, "a moment");
    let format = DateFormat::new("seconds: %s").expect(&rt, "a format");
    for seconds in [-1, 4_102_444_800] {
        let time = Time::new(seconds, 0);
        let (answer, bytes) = shown_to(time, format, now, Vec::new(rt.alloc()));
        check(&rt, answer == Err(ShowError::Range));
        check(&rt, bytes.is_empty());
        let text = text_by_format(rt.alloc(), time, format, false, now);
        check(&rt, text.err() == Some(ShowError::Range));
    }
}

#[test]
fn a_shown_date_fails_at_each_of_its_writes(rt: HostRuntime) {
    let now = TIME.to_zoned().expect(&rt, "a moment");
    let format = DateFormat::new(LONG).expect(&rt, "a format");
    for a_call in [1, 3, 99] {
        for room in 0..=LONG_TEXT.len() {
            let due = if room < LONG_TEXT.len() {
                Err(ShowError::Write(ErrorKind::StorageFull))
            } else {
                Ok(())
            };
            let writer = Slow::new(rt.alloc(), a_call, room, ErrorKind::StorageFull);
            let (answer, writer) = shown_to(TIME, format, now, writer);
            check_at(&rt, answer == due, &(a_call, room));
            check_at(&rt, writer.took(&LONG_TEXT[..room]), &(a_call, room));
        }
    }
}

#[test]
fn a_shown_date_that_is_refused_memory_is_refused(rt: HostRuntime) {
    let now = TIME.to_zoned().expect(&rt, "a moment");
    let format = DateFormat::new("%Y").expect(&rt, "a format");
    let none = DateFormat::new("").expect(&rt, "a format");
    let blocks = take_all(rt.alloc()).expect(&rt, "memory");
    let refused = text_by_format(rt.alloc(), TIME, format, false, now).err();
    let range = text_by_format(rt.alloc(), Time::new(-1, 0), format, false, now).err();
    let is_empty = reads(text_by_format(rt.alloc(), TIME, none, false, now), "");
    drop(blocks);
    check_at(&rt, refused == Some(ShowError::Memory), &"no-memory");
    check_at(
        &rt,
        range == Some(ShowError::Range) && is_empty,
        &"no-memory",
    );
}

/// How the long text is made where no memory is left but a piece of so many bytes: whether it is refused, and whether it is right.
fn made_in(
    alloc: Global,
    size: usize,
    format: DateFormat<'_>,
    now: Zoned<'_>,
) -> Result<(bool, bool), AllocError> {
    let room: Vec<u8> = Vec::with_capacity(alloc, size)?;
    let blocks = take_all(alloc)?;
    drop(room);
    let made = match text_by_format(alloc, TIME, format, false, now) {
        Ok(text) => (false, text.as_bytes() == LONG_TEXT),
        Err(error) => (error == ShowError::Memory, false),
    };
    drop(blocks);
    Ok(made)
}

#[test]
fn a_shown_date_that_is_refused_a_growth_is_refused(rt: HostRuntime) {
    let now = TIME.to_zoned().expect(&rt, "a moment");
    let format = DateFormat::new(LONG).expect(&rt, "a format");
    let (mut all_right, mut some_refused, mut some_shown) = (true, false, false);
    // The text has 67 bytes.
    for size in [1, 16, 66, 4096] {
        let (refused, shown) = made_in(rt.alloc(), size, format, now).expect(&rt, "memory");
        all_right = all_right && refused != shown;
        some_refused = some_refused || refused;
        some_shown = some_shown || shown;
    }
    check_at(
        &rt,
        all_right && some_refused && some_shown,
        &"little-memory",
    );
}
