//! What clocks show, and their texts.
use crate::fakes::answers::check;
use arrayvec::ArrayString;
use gix_date::Time;
use gix_date::clock::{
    push_bare_default, push_day, push_default, push_git_rfc2822, push_gitoxide, push_iso8601,
    push_iso8601_strict, push_rfc2822,
};
use gix_date_callers::clock_caller::{day_and_clock, own_clock};

// What GNU's `date -u` shows of the seconds by the clock, with the day of the week less one.
#[test]
fn clocks_show_what_date_shows(rt: HostRuntime) {
    for &(seconds, offset, date, clock) in &[
        (1_660_769_106, 28_800, (2022, 8, 18, 3), (4, 45, 6)),
        (951_782_400, 0, (2000, 2, 29, 1), (0, 0, 0)),
        (253_402_207_200, 86_340, (9999, 12, 31, 4), (21, 59, 0)),
        (-30_610_137_660, -86_340, (1000, 1, 1, 2), (0, 0, 0)),
        (-1, 0, (1969, 12, 31, 2), (23, 59, 59)),
    ] {
        let shown = own_clock(Time::new(seconds, offset)).expect(&rt, "no clock");
        check(
            &rt,
            (shown.year(), shown.month(), shown.day(), shown.weekday()) == date,
        );
        check(&rt, (shown.hour(), shown.minute(), shown.second()) == clock);
        check(&rt, shown.offset() == offset);
        check(&rt, shown.with_offset(-60).offset() == -60);
    }
}

// What Git 2.39.5 shows by `--date`, but for the formats of gix-date alone.
#[test]
fn clocks_are_written_as_git_writes_them(rt: HostRuntime) {
    let clock = own_clock(Time::new(1_660_000_506, 28_800)).expect(&rt, "no clock");
    let mut text = ArrayString::<200>::new();
    push_iso8601(&mut text, clock);
    text.push(';');
    push_iso8601_strict(&mut text, clock);
    text.push(';');
    push_git_rfc2822(&mut text, clock);
    text.push(';');
    push_bare_default(&mut text, clock);
    text.push(';');
    push_day(&mut text, clock);
    check(
        &rt,
        text.as_str()
            == "2022-08-09 07:15:06 +0800;2022-08-09T07:15:06+08:00;Tue, 9 Aug 2022 07:15:06 +0800;Tue Aug 9 07:15:06 2022;9",
    );
    let mut others = ArrayString::<100>::new();
    push_default(&mut others, clock);
    others.push(';');
    push_rfc2822(&mut others, clock);
    others.push(';');
    push_gitoxide(&mut others, clock);
    check(
        &rt,
        others.as_str()
            == "Tue Aug 9 07:15:06 2022 +0800;Tue, 09 Aug 2022 07:15:06 +0800;Tue Aug 09 2022 07:15:06 +0800",
    );
}

#[test]
fn a_caller_writes_the_day_and_the_clock(rt: HostRuntime) {
    let shown = day_and_clock(Time::new(1_660_797_906, 28_800));
    check(
        &rt,
        matches!(shown, Some(text) if text.as_str() == "Thu 12:45:06"),
    );
    check(
        &rt,
        day_and_clock(Time::new(1_660_797_906, 28_801)).is_none(),
    );
}
