//! What calls for identity lines answer.
use crate::answer::Answer;
use gix_date::Time;
use gix_date::device::Device;
use gix_signature::{
    DateParts, FsckId, GitTime, IdentRef, fsck_of, write_ident, write_ident_as_is,
};
use std::alloc::{AllocError, Global};

const NO_IDENTITY: Answer = Answer::Refused("NoIdentity");

const NO_DATE: Answer = Answer::Refused("NoDate");

const NO_MEMORY: Answer = Answer::Refused("Memory");

/// Some pieces, one after the other.
fn joined(alloc: Global, pieces: &[&[u8]]) -> Answer {
    match pushed(alloc, pieces) {
        Ok(bytes) => Answer::Bytes(bytes),
        Err(AllocError) => NO_MEMORY,
    }
}

fn pushed(alloc: Global, pieces: &[&[u8]]) -> Result<Vec<u8>, AllocError> {
    let mut bytes = Vec::new(alloc);
    for piece in pieces {
        bytes.extend_from_slice(piece)?;
    }
    Ok(bytes)
}

/// The name, the email and the seconds that Git shows of a line.
pub(crate) fn shown_parts(alloc: Global, line: &[u8]) -> Answer {
    match IdentRef::from_bytes(line) {
        Some(IdentRef { name, email, date }) => {
            let seconds = date.map_or(b"".as_slice(), |date| date.seconds);
            joined(alloc, &[name, b"<", email, b">", seconds])
        }
        None => NO_IDENTITY,
    }
}

/// The name and the email that Git shows of a line.
pub(crate) fn shown_label(alloc: Global, line: &[u8]) -> Answer {
    match IdentRef::from_bytes(line) {
        Some(ident) => joined(alloc, &[ident.name, b" <", ident.email, b">"]),
        None => NO_IDENTITY,
    }
}

/// The date of a line, or why there is none.
fn date_of(line: &[u8]) -> Result<DateParts<'_>, Answer> {
    match IdentRef::from_bytes(line) {
        Some(ident) => ident.date.ok_or(NO_DATE),
        None => Err(NO_IDENTITY),
    }
}

/// The line that is written of what Git shows of it, if the same comes back.
pub(crate) fn written_again(alloc: Global, line: &[u8]) -> Answer {
    let Some(ident) = IdentRef::from_bytes(line) else {
        return NO_IDENTITY;
    };
    match ident.date {
        Some(date) if ident.comes_back(line) => {
            let mut out = Device::new(Vec::new(alloc));
            match write_ident_as_is(ident.name, ident.email, date.git_time(), &mut out) {
                Ok(()) => Answer::Bytes(out.into_inner()),
                Err(_fault) => NO_MEMORY,
            }
        }
        _ => Answer::Refused("NotBack"),
    }
}

/// The offset of a line, as it is written.
pub(crate) fn stored_offset(alloc: Global, line: &[u8]) -> Answer {
    match date_of(line) {
        Ok(date) => joined(alloc, &[date.offset]),
        Err(why) => why,
    }
}

/// The seconds and the offset of a line, as `--date=raw` shows them.
pub(crate) fn shown_time(alloc: Global, line: &[u8]) -> Answer {
    match date_of(line) {
        Ok(date) => {
            let GitTime {
                seconds,
                offset,
                ..
            } = date.git_time();
            let text: Result<String, AllocError> = format!(in alloc; "{seconds} {offset:+05}");
            text.into()
        }
        Err(why) => why,
    }
}

/// The time of a line.
pub(crate) fn time_of(line: &[u8]) -> Answer {
    match date_of(line) {
        Ok(date) => match date.git_time().to_time() {
            Ok(time) => Answer::Time(time),
            Err(fault) => fault.into(),
        },
        Err(why) => why,
    }
}

/// The ID of what `git fsck` says of a line.
pub(crate) fn fsck_word(line: &[u8]) -> Answer {
    Answer::Word(match fsck_of(line) {
        None => "none",
        Some(fault) => match fault.id {
            FsckId::NulInHeader => "nulInHeader",
            FsckId::MissingNameBeforeEmail => "missingNameBeforeEmail",
            FsckId::BadName => "badName",
            FsckId::MissingEmail => "missingEmail",
            FsckId::MissingSpaceBeforeEmail => "missingSpaceBeforeEmail",
            FsckId::BadEmail => "badEmail",
            FsckId::MissingSpaceBeforeDate => "missingSpaceBeforeDate",
            FsckId::ZeroPaddedDate => "zeroPaddedDate",
            FsckId::BadDateOverflow => "badDateOverflow",
            FsckId::BadDate => "badDate",
            FsckId::BadTimezone => "badTimezone",
        },
    })
}

/// The line that is written of these parts. Where they are refused, nothing may be written.
pub(crate) fn written_line(alloc: Global, name: &[u8], email: &[u8], time: Time) -> Answer {
    let mut out = Device::new(Vec::new(alloc));
    let written = write_ident(name, email, time, &mut out);
    let bytes = out.into_inner();
    match written {
        Ok(()) => Answer::Bytes(bytes),
        Err(fault) if bytes.is_empty() => fault.into(),
        Err(_fault) => Answer::APART,
    }
}
