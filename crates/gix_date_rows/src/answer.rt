//! What a call answers.
use git_date::{DateError, OwnDateError};
use gix_date::{CarefulError, Error, ParseError, Time};
use gix_signature::{IdentFault, SignatureError};
use std::alloc::{AllocError, Global};
use std::fmt;

/// What a call answers.
#[derive(Drop)]
pub(crate) enum Answer {
    /// A time, shown as its seconds, a space and its offset in seconds.
    Time(Time),
    /// A time of a text that says nothing that is understood, shown so with ` ?` after it.
    Doubtful(Time),
    /// A word.
    Word(&'static str),
    /// A text.
    Text(String),
    /// Bytes that need not be a text.
    Bytes(Vec<u8>),
    /// A refusal, by its name.
    Refused(&'static str),
    /// A refusal, by its name, with its place.
    RefusedAt(&'static str, usize),
    /// The place of what was ignored, or `none`.
    Ignored(Option<usize>),
}

impl Answer {
    /// The answer where calls differ that have to agree. No row has this name.
    pub(crate) const APART: Answer = Answer::Refused("CallsDiffer");

    /// Whether it is a refusal.
    pub(crate) fn is_refusal(&self) -> bool {
        matches!(self, Answer::Refused(_) | Answer::RefusedAt(_, _))
    }

    /// Whether something is so.
    pub(crate) fn of_bool(is_so: bool) -> Answer {
        Answer::Word(if is_so { "yes" } else { "no" })
    }

    /// A copy of a text.
    pub(crate) fn copied(alloc: Global, text: &str) -> Answer {
        let copy: Result<String, AllocError> = String::from_str(alloc, text);
        copy.into()
    }

    /// A time, or a refusal of this name where there is none.
    pub(crate) fn of_time(time: Option<Time>, refusal: &'static str) -> Answer {
        match time {
            Some(time) => Answer::Time(time),
            None => Answer::Refused(refusal),
        }
    }
}

impl fmt::Display for Answer {
    fn fmt<W: fmt::Write>(&self, f: &mut fmt::Formatter<W>) -> fmt::Result {
        match self {
            Answer::Time(Time { seconds, offset }) => write!(f, "{seconds} {offset}"),
            Answer::Doubtful(Time { seconds, offset }) => write!(f, "{seconds} {offset} ?"),
            Answer::Word(word) => f.write_str(word),
            Answer::Text(text) => f.write_str(text.as_str()),
            Answer::Bytes(bytes) => write!(f, "{:?}", bytes.as_slice()),
            Answer::Refused(name) => f.write_str(name),
            Answer::RefusedAt(name, place) => write!(f, "{name} {place}"),
            Answer::Ignored(Some(place)) => write!(f, "{place}"),
            Answer::Ignored(None) => f.write_str("none"),
        }
    }
}

/// The variant of a fault.
pub(crate) fn name_of(fault: &Error) -> &'static str {
    match fault {
        Error::UnknownFormat { input: _ } => "UnknownFormat",
        Error::InvalidTime => "InvalidTime",
        Error::MissingNow => "MissingNow",
        Error::DateConversion { input: _ } => "DateConversion",
        Error::Conversion => "Conversion",
        Error::Range => "Range",
        Error::OffsetTooWide => "OffsetTooWide",
        Error::Pattern => "Pattern",
        Error::Write(_) => "Write",
        Error::Memory => "Memory",
    }
}

impl From<ParseError> for Answer {
    fn from(refusal: ParseError) -> Answer {
        Answer::Refused(match refusal {
            ParseError::UnknownFormat => "UnknownFormat",
            ParseError::DateConversion => "DateConversion",
            ParseError::MissingNow => "MissingNow",
            ParseError::Range => "Range",
        })
    }
}

impl From<Result<Time, ParseError>> for Answer {
    fn from(answer: Result<Time, ParseError>) -> Answer {
        match answer {
            Ok(time) => Answer::Time(time),
            Err(refusal) => refusal.into(),
        }
    }
}

impl From<Result<Time, CarefulError>> for Answer {
    fn from(answer: Result<Time, CarefulError>) -> Answer {
        match answer {
            Ok(time) => Answer::Time(time),
            Err(CarefulError::Unclear(place)) => Answer::RefusedAt("Unclear", place),
            Err(CarefulError::AfterYear9999) => Answer::Refused("AfterYear9999"),
            Err(CarefulError::Refused(refusal)) => refusal.into(),
        }
    }
}

impl From<DateError> for Answer {
    fn from(refusal: DateError) -> Answer {
        match refusal {
            DateError::Unreadable => Answer::Refused("Unreadable"),
            DateError::NumberTooLarge(place) => Answer::RefusedAt("NumberTooLarge", place),
            DateError::BackTooFar(place) => Answer::RefusedAt("BackTooFar", place),
            DateError::YearRefused(place) => Answer::RefusedAt("YearRefused", place),
            DateError::Range => Answer::Refused("Range"),
        }
    }
}

impl From<OwnDateError> for Answer {
    fn from(refusal: OwnDateError) -> Answer {
        Answer::Refused(match refusal {
            OwnDateError::Range => "Range",
            OwnDateError::BeforeEpoch => "BeforeEpoch",
            OwnDateError::OffsetTooWide => "OffsetTooWide",
        })
    }
}

impl From<Result<Time, Error>> for Answer {
    fn from(answer: Result<Time, Error>) -> Answer {
        match answer {
            Ok(time) => Answer::Time(time),
            Err(fault) => Answer::Refused(name_of(&fault)),
        }
    }
}

impl From<Result<String, Error>> for Answer {
    fn from(answer: Result<String, Error>) -> Answer {
        match answer {
            Ok(text) => Answer::Text(text),
            Err(fault) => Answer::Refused(name_of(&fault)),
        }
    }
}

impl From<SignatureError> for Answer {
    fn from(fault: SignatureError) -> Answer {
        Answer::Refused(match fault {
            SignatureError::BadPart => "BadPart",
            SignatureError::OffsetTooWide => "OffsetTooWide",
            SignatureError::Write(_) => "Write",
        })
    }
}

impl From<IdentFault> for Answer {
    fn from(fault: IdentFault) -> Answer {
        Answer::Refused(match fault {
            IdentFault::NulInPart => "NulInPart",
            IdentFault::EmptyName => "EmptyName",
            IdentFault::OnlyCrud => "OnlyCrud",
            IdentFault::BeforeEpoch => "BeforeEpoch",
            IdentFault::OffsetTooWide => "OffsetTooWide",
            IdentFault::Write(_) => "Write",
        })
    }
}

impl From<Result<String, AllocError>> for Answer {
    fn from(text: Result<String, AllocError>) -> Answer {
        match text {
            Ok(text) => Answer::Text(text),
            Err(AllocError) => Answer::Refused("Memory"),
        }
    }
}
