//! Groups: two numbers or three, with the same mark between them.
ghost use Rattle.std.specs.Prelude.{◌≡◌, ◌≤◌, ◌<◌, length, IfSome};
ghost use Rattle.git_date.specs as Spec;

use crate::fields::Fields;
use crate::fields::dates::{Dated, Now, recent_date, year_date};
use crate::tokens::numbers::{is_too_large, narrow, number};
use crate::tokens::{Token, left_from, next_token};

/// A number, and how many bytes are left from it on.
#[derive(Clone, Copy)]
pub(crate) struct Number {
    pub(crate) value: u64,
    pub(crate) left: usize,
}

/// Two numbers or three, with the same mark between them.
#[derive(Clone, Copy)]
pub(crate) struct Group {
    mark: u8,
    first: u64,
    second: Number,
    third: Option<Number>,
}

/// The number of these digits, by the text after them.
fn number_at(run: &[u8], text: &[u8]) -> Number
    ensures { result ≡ Spec.number_at run.now (Spec.tokens text.now) }
{
    Number {
        value: number(run),
        left: left_from(run, text),
    }
}

/// A mark and the number after it.
#[tactic(auto, unfolding(crate::specs::marked_number))]
#[inline(always)]
fn marked_number(text: &[u8]) -> Option<((u8, Number), &[u8])>
    ensures value { Spec.read_view result ≡ Spec.marked_number (Spec.tokens text.now) }
    ensures shorter { IfSome result (λ found. length found.1.now < length text.now) }
{
    let Some((Token::Mark(mark), rest)) = next_token(text) else {
        return None;
    };
    let Some((Token::Digits(run), rest)) = next_token(rest) else {
        return None;
    };
    Some(((mark, number_at(run, rest)), rest))
}

/// The group that begins with a number, by the text after that.
#[tactic(auto, unfolding(crate::specs::group_of))]
pub(crate) fn group_of(first: u64, text: &[u8]) -> Option<(Group, &[u8])>
    ensures value { Spec.read_view result ≡ Spec.group_of first (Spec.tokens text.now) }
    ensures shorter { IfSome result (λ found. length found.1.now < length text.now) }
{
    let ((mark, second), rest) = marked_number(text)?;
    if !(mark == b':' || mark == b'.' || mark == b'/' || mark == b'-') {
        return None;
    }
    let two = Group {
        mark,
        first,
        second,
        third: None,
    };
    match marked_number(rest) {
        Some(((again, third), after)) if again == mark => Some((
            Group {
                third: Some(third),
                ..two
            },
            after,
        )),
        _ => Some((two, rest)),
    }
}

fn large_number(n: Number) -> Option<usize>
    ensures { result ≡ Spec.large_number n }
{
    is_too_large(n.value).then_some(n.left)
}

impl Group {
    /// The second number as Git's dates keep it, in 32 bits.
    fn second_of(self) -> u64
        ensures { result ≡ Spec.second_of self }
    {
        narrow(self.second.value)
    }

    /// The third number as Git's dates keep it, in 32 bits.
    fn third_of(self) -> Option<u64>
        ensures { result ≡ Spec.third_of self }
    {
        Some(narrow(self.third?.value))
    }

    /// How many bytes are left from the first number on that is too large: Git would cut it.
    pub(crate) fn large_in(self) -> Option<usize>
        ensures { result ≡ Spec.large_in self }
    {
        if let Some(left) = large_number(self.second) {
            return Some(left);
        }
        large_number(self.third?)
    }

    fn clock_group(self, fields: Fields) -> Dated
        ensures { result ≡ Spec.clock_group fields self }
    {
        let second = self.third.map_or(0, |third| third.value);
        fields
            .with_clock(self.first, self.second.value, second)
            .map_or(Dated::Refused, Dated::Taken)
    }

    /// Year, month, day (`YYYY.MM.DD` in git-commit's manual), or else year, day, month.
    fn year_first_group(self, fields: Fields) -> Dated
        ensures { result ≡ Spec.year_first_group fields self }
    {
        let second = self.second_of();
        let Some(third) = self.third_of() else {
            return Dated::Refused;
        };
        match year_date(fields, self.first, second, third) {
            Dated::Refused => year_date(fields, self.first, third, second),
            dated => dated,
        }
    }

    /// `MM/DD/YYYY` or `DD.MM.YYYY`, as in git-commit's manual, perhaps without a year. What is no such date, or is too far ahead,
    /// is read the other way round: in August `10/09/2009` is in September.
    #[tactic(auto, unfolding(crate::specs::day_month_group))]
    #[inline(always)]
    fn day_month_group(self, now: Now, fields: Fields) -> Dated
        ensures { result ≡ Spec.day_month_group now fields self }
    {
        let month_first = recent_date(now, fields, self.first, self.second_of(), self.third_of());
        let day_first = recent_date(now, fields, self.second_of(), self.first, self.third_of());
        let found = if self.mark == b'.' {
            day_first.or(month_first)
        } else {
            month_first.or(day_first)
        };
        found.map_or(Dated::Refused, Dated::Taken)
    }

    /// What a group says. A first number above 70 may be a year: 71 is 1971.
    #[tactic(auto, unfolding(crate::specs::group_rule))]
    pub(crate) fn rule(self, now: Now, fields: Fields) -> Dated
        ensures { result ≡ Spec.group_rule now fields self }
    {
        if self.mark == b':' {
            return self.clock_group(fields);
        }
        if self.first <= 70 {
            return self.day_month_group(now, fields);
        }
        match self.year_first_group(fields) {
            Dated::Refused => self.day_month_group(now, fields),
            dated => dated,
        }
    }

    /// What stands after a group, which led to these fields. In Git a fraction follows only a known date: before one `.5` is a day.
    pub(crate) fn after_group(self, next: Fields, text: &[u8]) -> &[u8]
        ensures value { Spec.tokens result.now ≡ Spec.after_group next self (Spec.tokens text.now) }
        ensures shorter { length result.now ≤ length text.now }
    {
        if self.mark == b':' && next.knows_date() {
            without_fraction(text)
        } else {
            text
        }
    }
}

/// What stands after a dot and digits, or else all. Fractions of a second are ignored, as git-commit's manual says.
#[tactic(auto, unfolding(crate::specs::without_fraction))]
pub(crate) fn without_fraction(text: &[u8]) -> &[u8]
    ensures value { Spec.tokens result.now ≡ Spec.without_fraction (Spec.tokens text.now) }
    ensures shorter { length result.now ≤ length text.now }
{
    let Some((Token::Mark(mark), rest)) = next_token(text) else {
        return text;
    };
    let Some((Token::Digits(_), rest)) = next_token(rest) else {
        return text;
    };
    if mark == b'.' { rest } else { text }
}
