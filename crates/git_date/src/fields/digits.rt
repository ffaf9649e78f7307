//! What digits say.
ghost use Rattle.std.specs.Prelude.{◌≡◌, ◌≤◌, length, IfOk, IfSome};
ghost use Rattle.git_date.specs as Spec;

use crate::clocks::utc_clock;
use crate::error::Fault;
use crate::fields::Fields;
use crate::fields::dates::{Dated, Now, year_date};
use crate::fields::groups::{group_of, without_fraction};
use crate::tokens::left_from;
use crate::tokens::numbers::{is_too_large, number};

/// What a rule makes of the text: the fields, or `None` if no rule used what stands first, and what is left to read.
pub(crate) type Stepped<'a> = Result<(Option<Fields>, &'a [u8]), Fault>;

/// The least number that may be seconds since 1970: eight digits may be a date.
pub(crate) const MIN_EPOCH: u64 = 100_000_000;

/// The fields of an epoch, by the clock of UTC. Its seconds are those of the instant: an offset after it does not change them.
fn epoch_rule<'a>(fields: Fields, n: u64, text: &'a [u8]) -> Stepped<'a>
    ensures value { Spec.step_view result ≡ Spec.epoch_rule fields n (Spec.tokens text.now) }
    ensures shorter { IfOk result (λ found. length found.1.now ≤ length text.now) }
{
    match utc_clock(n) {
        Some(shown) => Ok((
            Some(Fields {
                year: Some(shown.year()),
                month: Some(shown.month()),
                day: Some(shown.day()),
                hour: Some(shown.hour()),
                minute: Some(shown.minute()),
                second: Some(shown.second()),
                epoch: true,
                ..fields
            }),
            text,
        )),
        None => Err(Fault::Range),
    }
}

/// Eight digits are a date, which begins with its year, as in `20080214T203045`.
fn eight_digits<'a>(fields: Fields, n: u64, run: &[u8], text: &'a [u8]) -> Stepped<'a>
    requires { n ≡ Spec.number run.now }
    ensures value { Spec.step_view result ≡ Spec.eight_digits fields run.now (Spec.tokens text.now) }
    ensures shorter { IfOk result (λ found. length found.1.now ≤ length text.now) }
{
    match year_date(fields, n / 10_000, n / 100 % 100, n % 100) {
        Dated::Taken(next) => Ok((Some(next), text)),
        Dated::Refused => Ok((None, text)),
        Dated::YearRefused => Err(Fault::YearRefused(left_from(run, text))),
    }
}

/// Six digits are a clock, as in `20080214T203045.019`, and a fraction after it is taken.
fn six_digits<'a>(fields: Fields, n: u64, text: &'a [u8]) -> (Option<Fields>, &'a [u8])
    ensures value { Spec.rest_view result ≡ Spec.six_digits fields n (Spec.tokens text.now) }
    ensures shorter { length result.1.now ≤ length text.now }
{
    let found = fields.with_clock(n / 10_000, n / 100 % 100, n % 100);
    let rest = if found.is_some() {
        without_fraction(text)
    } else {
        text
    };
    (found, rest)
}

impl Fields {
    /// With what four digits say: first an offset, so that after `10:00` Git reads `1030` as one.
    #[tactic(auto, unfolding(crate::specs::four_digits))]
    fn four_digits(self, n: u64) -> Option<Fields>
        ensures { result ≡ Spec.four_digits self n }
    {
        if n <= 1400 && self.offset.is_none() {
            Some(Fields {
                offset: Some((60 * (n / 100) + n % 100) as i16),
                ..self
            })
        } else if 1900 < n && n <= 2099 {
            Some(Fields {
                year: Some(n as u16),
                ..self
            })
        } else {
            None
        }
    }

    /// The year that two digits say. In Git `1 Apr 05` has one, and `1 Apr 15` has none.
    fn two_digit_year(self, n: u64) -> Option<u16>
        ensures { result ≡ Spec.two_digit_year self n }
    {
        if self.year.is_some() {
            None
        } else if n < 10 && self.day.is_some() {
            Some(2000 + n as u16)
        } else if 70 <= n && n <= 99 {
            Some(1900 + n as u16)
        } else {
            None
        }
    }

    fn or_month(self, n: u64) -> Option<Fields>
        ensures { result ≡ Spec.or_month self n }
    {
        if 1 <= n && n <= 12 && self.month.is_none() {
            Some(Fields {
                month: Some(n as u8),
                ..self
            })
        } else {
            None
        }
    }

    /// With what one digit or two say.
    #[tactic(auto, unfolding(crate::specs::few_digits))]
    fn few_digits(self, width: usize, n: u64) -> Option<Fields>
        ensures { result ≡ Spec.few_digits self width n }
    {
        if 1 <= n && n <= 31 && self.day.is_none() {
            return Some(Fields {
                day: Some(n as u8),
                ..self
            });
        }
        let year = if width == 2 {
            self.two_digit_year(n)
        } else {
            None
        };
        match year {
            Some(year) => Some(Fields {
                year: Some(year),
                ..self
            }),
            None => self.or_month(n),
        }
    }
}

/// What digits say that are no group, by their width.
#[tactic(auto, unfolding(crate::specs::bare_digits))]
fn bare_digits<'a>(fields: Fields, n: u64, run: &[u8], text: &'a [u8]) -> Stepped<'a>
    requires { n ≡ Spec.number run.now }
    ensures value { Spec.step_view result ≡ Spec.bare_digits fields run.now (Spec.tokens text.now) }
    ensures shorter { IfOk result (λ found. length found.1.now ≤ length text.now) }
{
    match run.len() {
        8 => eight_digits(fields, n, run, text),
        6 => Ok(six_digits(fields, n, text)),
        4 => Ok((fields.four_digits(n), text)),
        1 | 2 => Ok((fields.few_digits(run.len(), n), text)),
        _ => Ok((None, text)),
    }
}

/// What the group says that begins with these digits, and what stands after it; `None` if there is none, or it is refused. A date
/// whose year Git refuses refuses the text here, since Git keeps its month and day.
#[tactic(auto, unfolding(crate::specs::group_said))]
#[inline(always)]
pub(crate) fn group_said<'a>(
    now: Now,
    fields: Fields,
    n: u64,
    run: &[u8],
    text: &'a [u8],
) -> Result<Option<(Fields, &'a [u8])>, Fault>
    requires { n ≡ Spec.number run.now }
    ensures value { Spec.said_view result ≡ Spec.group_said now fields run.now (Spec.tokens text.now) }
    ensures shorter { IfOk result (λ said. IfSome said (λ found. length found.1.now ≤ length text.now)) }
{
    let Some((group, rest)) = group_of(n, text) else {
        return Ok(None);
    };
    let next = match group.rule(now, fields) {
        Dated::Refused => return Ok(None),
        Dated::Taken(next) => Some(next),
        Dated::YearRefused => None,
    };
    if let Some(left) = group.large_in() {
        return Err(Fault::NumberTooLarge(left));
    }
    match next {
        Some(next) => Ok(Some((next, group.after_group(next, rest)))),
        None => Err(Fault::YearRefused(left_from(run, text))),
    }
}

/// What digits say. Git cuts numbers that 32 bits do not hold, but not an epoch.
#[tactic(auto, unfolding(crate::specs::digits_rule))]
#[inline(always)]
pub(crate) fn digits_rule<'a>(now: Now, fields: Fields, run: &[u8], text: &'a [u8]) -> Stepped<'a>
    ensures value { Spec.step_view result ≡ Spec.digits_rule now fields run.now (Spec.tokens text.now) }
    ensures shorter { IfOk result (λ found. length found.1.now ≤ length text.now) }
{
    let n = number(run);
    if MIN_EPOCH <= n && fields.knows_nothing() {
        return epoch_rule(fields, n, text);
    }
    if is_too_large(n) {
        return Err(Fault::NumberTooLarge(left_from(run, text)));
    }
    match group_said(now, fields, n, run, text)? {
        Some((next, rest)) => Ok((Some(next), rest)),
        None => bare_digits(fields, n, run, text),
    }
}
