//! The names of months and of days of the week.
//!
//! Dates show the first three letters of a name ([`month_name`], [`day_name`]) or the whole ([`whole_month_name`],
//! [`whole_day_name`]). A word tells a name by its first three letters or
//! more, in any letter case ([`month_of_word`], [`weekday_of_word`]). No call takes memory.
ghost use Rattle.std.specs.Prelude.{◌≡◌, ◌<◌, ◌≤◌, length, map, option_map, if◌then◌else◌, Some, None, IfSome};
ghost use Rattle.std.specs.List.{find};
ghost use Rattle.std.specs.Str.{bytes_eq};
ghost use Rattle.std.specs.Int.{IsInRange};
ghost use Rattle.gix_date.specs as Spec;

/// The name of a month in three letters, from 1 for January.
#[inline(always)]
pub fn month_name(month: u8) -> &'static str
    requires { IsInRange 1 12 month }
    ensures name { result.now ≡ Spec.month_name month }
    ensures len { length result.now ≡ 3 }
{
    match month {
        1 => "Jan",
        2 => "Feb",
        3 => "Mar",
        4 => "Apr",
        5 => "May",
        6 => "Jun",
        7 => "Jul",
        8 => "Aug",
        9 => "Sep",
        10 => "Oct",
        11 => "Nov",
        12 => "Dec",
        _ => unreachable!(),
    }
}

/// The name of a day of the week in three letters, from 0 for Monday.
#[inline(always)]
pub fn day_name(weekday: u8) -> &'static str
    requires { weekday < 7 }
    ensures name { result.now ≡ Spec.day_name weekday }
    ensures len { length result.now ≡ 3 }
{
    match weekday {
        0 => "Mon",
        1 => "Tue",
        2 => "Wed",
        3 => "Thu",
        4 => "Fri",
        5 => "Sat",
        6 => "Sun",
        _ => unreachable!(),
    }
}

/// The whole name of a day of the week, from 0 for Monday.
pub fn whole_day_name(weekday: u8) -> &'static str
    requires { weekday < 7 }
    ensures name { result.now ≡ Spec.whole_day_name weekday }
    ensures len { length result.now ≤ 9 }
{
    match weekday {
        0 => "Monday",
        1 => "Tuesday",
        2 => "Wednesday",
        3 => "Thursday",
        4 => "Friday",
        5 => "Saturday",
        6 => "Sunday",
        _ => unreachable!(),
    }
}

/// The whole name of a month, from 1 for January.
pub fn whole_month_name(month: u8) -> &'static str
    requires { IsInRange 1 12 month }
    ensures name { result.now ≡ Spec.whole_month_name month }
    ensures len { length result.now ≤ 9 }
{
    match month {
        1 => "January",
        2 => "February",
        3 => "March",
        4 => "April",
        5 => "May",
        6 => "June",
        7 => "July",
        8 => "August",
        9 => "September",
        10 => "October",
        11 => "November",
        12 => "December",
        _ => unreachable!(),
    }
}

/// The value beside the first of these names that a word is, in the same letter case.
#[tactic(auto, using(crate::proofs::Text::LongNames::value_is))]
pub fn value_named<T: Copy>(rows: &[(&str, T)], word: &str) -> Option<T>
    ensures { result ≡ Spec.value_named (map Spec.name_row rows.now) word.now }
{
    value_in(rows, word)
}

/// The same by the rows as they stand.
fn value_in<T: Copy>(rows: &[(&str, T)], word: &str) -> Option<T>
    ensures { result ≡ option_map (λ row. row.1) (find (λ row. bytes_eq word.now row.0.now) rows.now) }
{
    let row = rows.iter().find(|row| word == row.0)?;
    Some(row.1)
}

/// Whether a word is this name, in any letter case. Nearly all that are not differ in the first letter.
#[inline(always)]
pub fn is_name(word: &[u8], name: &[u8]) -> bool
    ensures { result ≡ Spec.is_name word.now name.now }
{
    match (word, name) {
        ([a, ..], [b, ..]) => a.eq_ignore_ascii_case(b) && word.eq_ignore_ascii_case(name),
        _ => word.eq_ignore_ascii_case(name),
    }
}

/// Whether a word is the front of a name, in any letter case.
#[inline(always)]
pub fn begins(word: &[u8], name: &[u8]) -> bool
    ensures { result ≡ Spec.begins word.now name.now }
{
    word.len() <= name.len() && is_name(word, &name[..word.len()])
}

/// So many, if letters begin the end of a name.
#[inline(always)]
fn if_begins(letters: &[u8], end: &[u8], n: u8) -> Option<u8>
    ensures { result ≡ (if Spec.begins letters.now end.now then Some n else None) }
{
    if begins(letters, end) { Some(n) } else { None }
}

/// The month whose name begins with three small letters, and goes on so.
#[inline(always)]
fn month_by(u: u8, v: u8, w: u8, end: &[u8]) -> Option<u8>
    ensures { result ≡ Spec.month_by u v w end.now }
{
    match (u, v, w) {
        (b'j', b'a', b'n') => if_begins(end, b"uary", 1),
        (b'f', b'e', b'b') => if_begins(end, b"ruary", 2),
        (b'm', b'a', b'r') => if_begins(end, b"ch", 3),
        (b'a', b'p', b'r') => if_begins(end, b"il", 4),
        (b'm', b'a', b'y') => if_begins(end, b"", 5),
        (b'j', b'u', b'n') => if_begins(end, b"e", 6),
        (b'j', b'u', b'l') => if_begins(end, b"y", 7),
        (b'a', b'u', b'g') => if_begins(end, b"ust", 8),
        (b's', b'e', b'p') => if_begins(end, b"tember", 9),
        (b'o', b'c', b't') => if_begins(end, b"ober", 10),
        (b'n', b'o', b'v') => if_begins(end, b"ember", 11),
        (b'd', b'e', b'c') => if_begins(end, b"ember", 12),
        _ => None,
    }
}

/// The month, from 1, that a word tells by the first three letters of its name or more, in any letter case: `Aug`, `august`, `AUGU`.
#[tactic(auto, using(crate::proofs::Text::LongNames::no_month, crate::proofs::Text::LongNames::month_found, crate::proofs::Text::LongNames::month_in_range))]
#[inline(always)]
pub fn month_of_word(word: &[u8]) -> Option<u8>
    ensures value { result ≡ Spec.month_of_word word.now }
    ensures small { IfSome result (λ month. IsInRange 1 12 month) }
{
    match word {
        [a, b, c, end @ ..] => month_by(
            a.to_ascii_lowercase(),
            b.to_ascii_lowercase(),
            c.to_ascii_lowercase(),
            end,
        ),
        _ => None,
    }
}

/// The day of the week whose name begins with three small letters, and goes on so.
#[inline(always)]
fn weekday_by(u: u8, v: u8, w: u8, end: &[u8]) -> Option<u8>
    ensures { result ≡ Spec.weekday_by u v w end.now }
{
    match (u, v, w) {
        (b'm', b'o', b'n') => if_begins(end, b"days", 0),
        (b't', b'u', b'e') => if_begins(end, b"sdays", 1),
        (b'w', b'e', b'd') => if_begins(end, b"nesdays", 2),
        (b't', b'h', b'u') => if_begins(end, b"rsdays", 3),
        (b'f', b'r', b'i') => if_begins(end, b"days", 4),
        (b's', b'a', b't') => if_begins(end, b"urdays", 5),
        (b's', b'u', b'n') => if_begins(end, b"days", 6),
        _ => None,
    }
}

/// The day of the week, from 0 for Monday, that a word tells by the first three letters of its name or more, in any letter case:
/// `Fri`, `friday`, and as Git's names end in `s`, `Fridays`.
#[tactic(auto, using(crate::proofs::Text::LongNames::no_weekday, crate::proofs::Text::LongNames::weekday_found, crate::proofs::Text::LongNames::weekday_in_range))]
#[inline(always)]
pub fn weekday_of_word(word: &[u8]) -> Option<u8>
    ensures value { result ≡ Spec.weekday_of_word word.now }
    ensures small { IfSome result (λ weekday. weekday < 7) }
{
    match word {
        [a, b, c, end @ ..] => weekday_by(
            a.to_ascii_lowercase(),
            b.to_ascii_lowercase(),
            c.to_ascii_lowercase(),
            end,
        ),
        _ => None,
    }
}
