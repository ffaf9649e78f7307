//! How long ago a time was.
ghost use Rattle.std.specs.Prelude.{◌≡◌, ◌+◌, ◌^◌, ◌≤◌, ◌<◌, ◌≤ℤ◌, ◌++◌, length, pos};
ghost use Rattle.arrayvec.specs.ArrayString.{array_string_len};
ghost use Rattle.git_date.specs as Spec;
ghost use Rattle.gix_date.specs as GixDate;

use crate::show::DateText;
use arrayvec::ArrayString;

/// How long ago a time was, in the unit that Git chooses for it.
#[derive(Clone, Copy, Debug, PartialEq, Eq)]
pub enum Age {
    /// At most 89.
    Seconds(u16),
    /// 2 to 89.
    Minutes(u16),
    /// 2 to 35.
    Hours(u16),
    /// 2 to 13.
    Days(u16),
    /// 2 to 10.
    Weeks(u16),
    /// 2 to 12.
    Months(u16),
    /// Years, and months beyond them.
    Years(u16, u16),
}

/// So many of a smaller unit in a larger one, rounded half up.
fn rounded(n: u64, length: u64) -> u64
    requires fits { n + length < 2 ^ 64 }
    requires some { 0 < length }
    ensures { result ≡ Spec.rounded n length }
{
    (n + length / 2) / length
}

/// An age of so many days, in days or a larger unit. A year has 365 days here, so 24 months have 730.
#[tactic(auto, unfolding(crate::specs::age_of_days))]
fn age_of_days(days: u64) -> Age
    requires { days < 10_000_000 }
    ensures { result ≡ Spec.age_of_days days }
{
    if days < 14 {
        Age::Days(days as u16)
    } else if days < 70 {
        Age::Weeks(rounded(days, 7) as u16)
    } else if days < 365 {
        Age::Months(rounded(days, 30) as u16)
    } else if days < 1825 {
        let months = rounded(24 * days, 730);
        Age::Years((months / 12) as u16, (months % 12) as u16)
    } else {
        Age::Years(((days + 183) / 365) as u16, 0)
    }
}

/// An age of so many seconds. After 89 seconds come 2 minutes: one minute, hour, day, week or month is never said alone.
#[tactic(auto, unfolding(crate::specs::age_of))]
fn age_of(seconds: u64) -> Age
    requires { seconds ≤ 253_402_207_200 }
    ensures { result ≡ Spec.age_of seconds }
{
    if seconds < 90 {
        return Age::Seconds(seconds as u16);
    }
    let minutes = rounded(seconds, 60);
    if minutes < 90 {
        return Age::Minutes(minutes as u16);
    }
    let hours = rounded(minutes, 60);
    if hours < 36 {
        return Age::Hours(hours as u16);
    }
    age_of_days(rounded(hours, 24))
}

/// Appends a count and its unit, as `1 day` or `2 days`.
fn push_counted(text: &mut DateText, count: u16, unit: &str)
    requires { array_string_len text.old + length unit.now + 7 ≤ 31 }
    ensures bytes { text.new.bytes ≡ text.old.bytes ++ Spec.counted count unit.now }
    ensures len { array_string_len text.new ≤ array_string_len text.old + length unit.now + 7 }
{
    text.push_str(itoa::Buffer::new().format(count));
    text.push(' ');
    text.push_str(unit);
    text.push_str(if count == 1 { "" } else { "s" });
}

/// Appends an age.
fn push_age(text: &mut DateText, age: Age)
    requires { array_string_len text.old + 25 ≤ 31 }
    ensures bytes { text.new.bytes ≡ text.old.bytes ++ Spec.age_text age }
    ensures len { array_string_len text.new ≤ array_string_len text.old + 25 }
{
    match age {
        Age::Seconds(count) => push_counted(text, count, "second"),
        Age::Minutes(count) => push_counted(text, count, "minute"),
        Age::Hours(count) => push_counted(text, count, "hour"),
        Age::Days(count) => push_counted(text, count, "day"),
        Age::Weeks(count) => push_counted(text, count, "week"),
        Age::Months(count) => push_counted(text, count, "month"),
        Age::Years(years, months) => {
            push_counted(text, years, "year");
            if months != 0 {
                text.push_str(", ");
                push_counted(text, months, "month");
            }
        }
    }
}

/// The age of a time at a moment. Both are in seconds since 1970.
#[tactic(auto, unfolding(crate::specs::age_between))]
pub(crate) fn age_between(now: i64, seconds: i64) -> Option<Age>
    requires now { now ≤ℤ GixDate.last_second }
    requires seconds { pos 0 ≤ℤ seconds }
    ensures { result ≡ Spec.age_between now seconds }
{
    if now < seconds {
        return None;
    }
    Some(age_of((now - seconds) as u64))
}

/// How long ago a time was, at a moment. Both are in seconds since 1970.
#[tactic(auto, unfolding(crate::specs::relative_text))]
pub(crate) fn relative_text(now: i64, seconds: i64) -> DateText
    requires now { now ≤ℤ GixDate.last_second }
    requires seconds { pos 0 ≤ℤ seconds }
    ensures { result.bytes ≡ Spec.relative_text now seconds }
{
    let mut text = ArrayString::new();
    match age_between(now, seconds) {
        Some(age) => {
            push_age(&mut text, age);
            text.push_str(" ago");
        }
        None => text.push_str("in the future"),
    }
    text
}
