//! `git_date` on machines whose clock cannot be read, and whose files change between two looks.
use crate::fakes::answers::check;
use crate::fakes::harness::words_of;
use crate::fakes::machine::Machine;
use crate::fakes::{Slow, Supply};
use gix_date::device::Device;
use std::alloc::AllocError;
use streams::Status;

/// How `git_date` ends on a machine with these words, what it writes, and what it says.
fn dated(machine: &Machine, line: &[&str]) -> Result<(Status, Slow, Slow), AllocError> {
    let alloc = machine.alloc();
    let words = words_of(alloc, line)?;
    let mut source = Device::new(Supply::once(b"", 1, None));
    let mut sink = Device::new(Slow::roomy(alloc));
    let mut said = Device::new(Slow::roomy(alloc));
    let ended = git_date_tool::execute(
        machine,
        words.as_slice(),
        &mut source,
        &mut sink,
        &mut said,
    );
    Ok((ended, sink.into_inner(), said.into_inner()))
}

#[test]
fn a_clock_is_read_only_where_no_moment_is_given(rt: HostRuntime) {
    let machine = Machine {
        seconds: None,
        ..Machine::at(rt, 0, "UTC0")
    };
    let (ended, out, said) = dated(&machine, &["now"]).expect(&rt, "memory");
    check(&rt, ended == Status::Failure);
    check(&rt, out.took(b""));
    check(&rt, said.took(b"git_date: the clock cannot be read\n"));
    let (ended, out, said) = dated(&machine, &["--now", "@1251660000", "now"]).expect(
        &rt, "memory",
    );
    check(&rt, ended == Status::Success);
    check(&rt, out.took(b"1251660000 +0000\n"));
    check(&rt, said.took(b""));
}

#[test]
fn a_file_is_looked_at_again_once_it_is_open(rt: HostRuntime) {
    let machine = Machine {
        opened: Some("/dev/null"),
        ..Machine::at(rt, 0, "UTC0")
    };
    let (ended, out, said) = dated(&machine, &["--zone", "/etc/passwd", "now"]).expect(
        &rt, "memory",
    );
    check(&rt, ended == Status::Usage);
    check(&rt, out.took(b""));
    let wanted =
        b"git_date: '/etc/passwd' is no zone: it is a folder, a pipe or a device\n".as_slice();
    check(&rt, said.taken.as_slice().starts_with(wanted));
}
