//! One row: what its call answers, beside the answer that is due.
use crate::answer::Answer;
use crate::arguments::Arguments;
use crate::calls::answer_to;
use crate::escapes::unescaped;
use jiff::tz::TimeZoneDatabase;
use std::alloc::{AllocError, Global};

/// What became of a row.
#[derive(Drop)]
pub(crate) enum Outcome {
    /// Its call answers what is due.
    Agrees,
    /// An argument is no text, and its call takes none but text.
    LeftOut,
    /// Its call answers otherwise, or it is no row: what is wrong with it.
    Differs(String),
}

/// Runs a row.
pub(crate) fn outcome_of(
    alloc: Global,
    zones: &TimeZoneDatabase,
    row: &str,
) -> Result<Outcome, AllocError> {
    let Some((call, due)) = row.rsplit_once('\t') else {
        return malformed(alloc);
    };
    let mut fields = Vec::new(alloc);
    for field in call.split('\t') {
        match unescaped(alloc, field)? {
            Some(bytes) => fields.push(bytes)?,
            None => return malformed(alloc),
        }
    }
    let mut arguments = Arguments::new(fields.as_slice());
    let answer = answer_to(alloc, zones, &mut arguments);
    match answer {
        None if arguments.wants_text && due == "!NotText" => Ok(Outcome::LeftOut),
        Some(answer) if arguments.is_empty() => compared(alloc, &answer, due),
        _ => malformed(alloc),
    }
}

fn malformed(alloc: Global) -> Result<Outcome, AllocError> {
    Ok(Outcome::Differs(String::from_str(alloc, "no row")?))
}

/// Whether an answer is the one that a field says is due.
fn compared(alloc: Global, answer: &Answer, due: &str) -> Result<Outcome, AllocError> {
    let told = format!(in alloc; "{answer}")?;
    let is_due = match due.strip_prefix('!') {
        Some(name) => answer.is_refusal() && told.as_str() == name,
        None => match unescaped(alloc, due)? {
            Some(text) => match answer {
                Answer::Bytes(bytes) => bytes.as_slice() == text.as_slice(),
                _ => !answer.is_refusal() && told.as_bytes() == text.as_slice(),
            },
            None => return malformed(alloc),
        },
    };
    if is_due {
        return Ok(Outcome::Agrees);
    }
    let mark = if answer.is_refusal() { "!" } else { "" };
    Ok(Outcome::Differs(format!(in alloc; "it answers {mark}{told:?}")?))
}
