//! The program: what it is asked for is done by `git_date_tool`, by the system's clock and files, over the standard streams.
#![tactic(auto)]

use git_date_tool::{execute, show_usage};
use gix_date::device::Device;
use std::alloc::AllocError;
use std::process::ExitCode;
use streams::{Status, words};

fn main(rt: HostRuntime) -> ExitCode {
    let mut reader = Device::new(rt.stdin());
    let mut writer = Device::new(rt.stdout());
    let mut messages = Device::new(rt.stderr());
    let status = match words(&rt) {
        Ok(Some(words)) => execute(
            &rt,
            words.as_slice(),
            &mut reader,
            &mut writer,
            &mut messages,
        ),
        Ok(None) => show_usage(&mut messages),
        // Nothing was read or written.
        Err(AllocError) => Status::Failure,
    };
    ExitCode::from(status.code())
}
