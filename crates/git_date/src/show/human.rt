//! Human dates: as much as tells a date from now.
ghost use Rattle.std.specs.Prelude.{◌≡◌, ◌+◌, ◌≤◌, ◌++◌};
ghost use Rattle.arrayvec.specs.ArrayString.{array_string_len};
ghost use Rattle.git_date.specs as Spec;

use crate::show::{DateText, MAX_DATE_LEN};
use arrayvec::ArrayString;
use gix_date::clock::{
    Clock, push_day, push_month, push_offset, push_two_digits, push_weekday, push_year,
};

/// How far a date is from today.
#[derive(Clone, Copy)]
pub(crate) enum Distance {
    OtherYear,
    SameDay,
    /// One to four days before, in the same month: by git-log's manual the day of the week says which of the last few days it is.
    FewDays,
    SameYear,
}

pub(crate) fn distance_of(t: Clock, today: Clock) -> Distance
    ensures { result ≡ Spec.distance_of t.date today.date }
{
    if t.year() != today.year() {
        Distance::OtherYear
    } else if t.month() == today.month() && t.day() == today.day() {
        Distance::SameDay
    } else if t.month() == today.month() && t.day() < today.day() && today.day() <= t.day() + 4 {
        Distance::FewDays
    } else {
        Distance::SameYear
    }
}

/// Appends `hh:mm`.
fn push_short_clock(text: &mut DateText, t: Clock)
    requires { array_string_len text.old + 5 ≤ MAX_DATE_LEN }
    ensures bytes { text.new.bytes ≡ text.old.bytes ++ Spec.short_clock_text t.clock }
    ensures len { array_string_len text.new ≡ array_string_len text.old + 5 }
{
    push_two_digits(text, t.hour());
    text.push(':');
    push_two_digits(text, t.minute());
}

/// `Mmm D YYYY`: for older dates git-log's manual omits hour and minute.
fn year_text(t: Clock) -> DateText
    ensures { result.bytes ≡ Spec.year_text t }
{
    let mut text = ArrayString::new();
    push_month(&mut text, t);
    push_day(&mut text, t);
    text.push(' ');
    push_year(&mut text, t);
    text
}

/// `Www hh:mm`, and the offset if today has another.
pub(crate) fn few_days_text(local: bool, t: Clock, today: Clock) -> DateText
    ensures bytes { result.bytes ≡ Spec.few_days_text local t today }
    ensures len { array_string_len result ≤ 15 }
{
    let mut text = ArrayString::new();
    push_weekday(&mut text, t);
    push_short_clock(&mut text, t);
    if !local && t.offset() != today.offset() {
        push_offset(&mut text, t.offset());
    }
    text
}

/// `Www Mmm D hh:mm`
fn day_and_clock_text(t: Clock) -> DateText
    ensures { result.bytes ≡ Spec.day_and_clock_text t }
{
    let mut text = ArrayString::new();
    push_weekday(&mut text, t);
    push_month(&mut text, t);
    push_day(&mut text, t);
    text.push(' ');
    push_short_clock(&mut text, t);
    text
}

/// What is shown of a clock by today's. Of the same day it is the age.
pub(crate) fn human_text(local: bool, t: Clock, today: Clock, age: DateText) -> DateText
    ensures { result.bytes ≡ Spec.human_text local t today age.bytes }
{
    match distance_of(t, today) {
        Distance::OtherYear => year_text(t),
        Distance::SameDay => age,
        Distance::FewDays => few_days_text(local, t, today),
        Distance::SameYear => day_and_clock_text(t),
    }
}
