//! Dates by Git's formats.
use crate::answer::Answer;
use crate::moments::moment_of;
use git_date::{DateFormat, FormatFault, ShowError, show_by_format, text_by_format};
use gix_date::device::Device;
use gix_date::{Time, Zoned};
use jiff::tz::TimeZoneDatabase;
use std::alloc::Global;

impl From<FormatFault> for Answer {
    fn from(fault: FormatFault) -> Answer {
        match fault {
            FormatFault::FlagRefused(place) => Answer::RefusedAt("FlagRefused", place),
            FormatFault::UnknownDirective(place) => Answer::RefusedAt("UnknownDirective", place),
            FormatFault::WidthTooLarge(place) => Answer::RefusedAt("WidthTooLarge", place),
        }
    }
}

impl From<ShowError> for Answer {
    fn from(error: ShowError) -> Answer {
        Answer::Refused(match error {
            ShowError::Range => "Range",
            ShowError::Memory => "Memory",
            ShowError::Write(_) => "Write",
        })
    }
}

/// What a format shows of a time, at the moment that a field says. `None` where it says none.
pub(crate) fn shown_by_format(
    alloc: Global,
    zones: &TimeZoneDatabase,
    format: &str,
    local: bool,
    moment: &str,
    time: Time,
) -> Option<Answer> {
    let now = match moment_of(zones, moment)? {
        Ok(now) => now?,
        Err(refusal) => return Some(Answer::Refused(refusal)),
    };
    Some(match DateFormat::new(format) {
        Ok(format) => by_each(alloc, format, local, now, time),
        Err(fault) => fault.into(),
    })
}

/// The text of a time, where both calls agree. A refusal writes nothing.
fn by_each(
    alloc: Global,
    format: DateFormat<'_>,
    local: bool,
    now: Zoned<'_>,
    time: Time,
) -> Answer {
    let mut out = Device::new(Vec::new(alloc));
    let written = show_by_format(time, format, local, now, &mut out);
    let bytes = out.into_inner();
    match text_by_format(alloc, time, format, local, now) {
        Ok(text) => {
            if written.is_ok() && text.as_bytes() == bytes.as_slice() {
                Answer::Text(text)
            } else {
                Answer::APART
            }
        }
        Err(error) => {
            if written == Err(error) && bytes.is_empty() {
                error.into()
            } else {
                Answer::APART
            }
        }
    }
}
