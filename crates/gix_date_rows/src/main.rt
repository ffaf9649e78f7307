//! Runs rows of outside values, and tells those whose call answers otherwise.
//!
//! Its words are names of files. A file `NAME.tzif` is a zone, which the rows of later files name so. Each other file holds rows,
//! one a line: a call, its arguments and the answer that is due, cut by tabs. `calls` has the calls, and `escapes` says how a byte
//! is written that cannot stand in a field. A refusal is due where the last field is `!` and its name. A line that is empty or
//! begins with `#` is no row. Without words it makes one call that standard input asks for (`single`).
#![tactic(auto)]

mod answer;
mod approximate;
mod arguments;
mod calls;
mod escapes;
mod formats;
mod idents;
mod moments;
mod rows;
mod single;

use jiff::tz::TimeZoneDatabase;
use rows::{Outcome, outcome_of};
use single::make_call;
use std::env::FillError;
use std::process::ExitCode;
use std::rt::{Env, Files};
use std::{env, fs, io};

fn main(rt: HostRuntime) -> io::Result<ExitCode> {
    // A list of the words takes memory, which is for a single call alone.
    if matches!(rt.arg(1, &mut [0]), Err(FillError::NotPresent)) {
        return Ok(make_call(rt));
    }
    run_files(rt)
}

/// Runs the rows of the files that the words name.
fn run_files(rt: HostRuntime) -> io::Result<ExitCode> {
    let mut zones = TimeZoneDatabase::new(rt.alloc());
    let mut do_agree = true;
    for name in env::args(&rt)?.skip(1) {
        if name.as_str().ends_with(".tzif") {
            let file = fs::read(&rt, name.as_str())?;
            if zones.insert(name.as_str(), file.as_slice()).is_err() {
                return Err(io::Error::from(io::ErrorKind::InvalidData));
            }
        } else if !agrees(&rt, &zones, name.as_str())? {
            do_agree = false;
        }
    }
    Ok(ExitCode::from(u8::from(!do_agree)))
}

/// Whether all rows of a file agree. It tells those that differ, and how many there are.
fn agrees(
    rt: &(impl AllocGlobal + Files + Print),
    zones: &TimeZoneDatabase,
    name: &str,
) -> io::Result<bool> {
    let file = fs::read_to_string(rt, name)?;
    let (mut line_number, mut rows, mut differing, mut left_out) = (0u64, 0u64, 0u64, 0u64);
    for line in file.as_str().split('\n') {
        line_number = line_number.saturating_add(1);
        if line.is_empty() || line.starts_with('#') {
            continue;
        }
        rows = rows.saturating_add(1);
        match outcome_of(rt.alloc(), zones, line)? {
            Outcome::Agrees => {}
            Outcome::LeftOut => left_out = left_out.saturating_add(1),
            Outcome::Differs(why) => {
                differing = differing.saturating_add(1);
                println!(rt; "{name}:{line_number}: {why}: {line}")?;
            }
        }
    }
    println!(rt; "{name}: {rows} rows, {differing} differ")?;
    if left_out > 0 {
        println!(rt; "{name}: {left_out} left out: bytes that are no text")?;
    }
    Ok(differing == 0)
}
