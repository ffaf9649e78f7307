//! Dates of identity lines as Git 2.39.5 shows them at 2009-08-30 19:20:00 UTC, and their refusals.
use crate::fakes::answers::all_show;
use git_date::OwnDateError;

#[test]
fn each_refusal_of_a_line_says_what_is_wrong(rt: HostRuntime) {
    all_show(
        &rt,
        rt.alloc(),
        &[
            (
                OwnDateError::Range,
                "the date is after the year 9999 or leads to an instant that cannot be computed with",
                "Range",
            ),
            (
                OwnDateError::BeforeEpoch,
                "the date is before 1970 by its own clock",
                "BeforeEpoch",
            ),
            (
                OwnDateError::OffsetTooWide,
                "the offset is more than 35791394 minutes",
                "OffsetTooWide",
            ),
        ],
    );
}
