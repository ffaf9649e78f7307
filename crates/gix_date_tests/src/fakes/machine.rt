//! A machine of a given clock, zone and command line, perhaps a faulty one. It takes memory and files from the one that the
//! tests run on.
use std::alloc::{Allocator, Global};
use std::env::FillError;
use std::fs::{Metadata, OpenOptions};
use std::io;
use std::rt::{Clock, Env, Files};
use std::time::Duration;

/// A runtime whose clock stands still, and whose `TZ` names this zone.
#[derive(Clone, Copy)]
pub struct Machine {
    pub rt: HostRuntime,
    /// Since 1970-01-01 00:00:00 UTC. `None` is a clock that cannot be read.
    pub seconds: Option<u32>,
    pub zone: &'static str,
    /// What any path opens: as if its file were replaced once it was looked at.
    pub opened: Option<&'static str>,
    /// Its command line, the program's name first.
    pub words: &'static [&'static [u8]],
}

impl Machine {
    /// One without a fault.
    pub fn at(rt: HostRuntime, seconds: u32, zone: &'static str) -> Machine {
        Machine {
            rt,
            seconds: Some(seconds),
            zone,
            opened: None,
            words: &[],
        }
    }

    /// One that gives these words as its command line.
    pub fn called(rt: HostRuntime, words: &'static [&'static [u8]]) -> Machine {
        Machine {
            words,
            ..Machine::at(rt, 0, "UTC0")
        }
    }
}

impl Alloc for Machine {
    type A = Global;

    fn alloc(&self) -> Global {
        self.rt.alloc()
    }
}

impl Clock for Machine {
    fn monotonic(&self) -> io::Result<Duration> {
        self.rt.monotonic()
    }

    fn since_1970(&self) -> io::Result<Duration> {
        match self.seconds {
            Some(seconds) => Ok(Duration::from_secs(u64::from(seconds))),
            None => Err(io::Error::from(io::ErrorKind::Unsupported)),
        }
    }
}

impl Env for Machine {
    fn arg(&self, i: usize, buf: &mut [u8]) -> Result<usize, FillError> {
        let Some(word) = self.words.get(i) else {
            return Err(FillError::NotPresent);
        };
        if word.len() > buf.len() {
            return Err(FillError::TooLong);
        }
        buf[..word.len()].copy_from_slice(word);
        Ok(word.len())
    }

    fn var(&self, name: &str, buf: &mut [u8]) -> Result<usize, FillError> {
        if name != "TZ" {
            return self.rt.var(name, buf);
        }
        let zone = self.zone.as_bytes();
        if zone.len() > buf.len() {
            return Err(FillError::TooLong);
        }
        buf[..zone.len()].copy_from_slice(zone);
        Ok(zone.len())
    }

    fn var_at(&self, i: usize, buf: &mut [u8]) -> Result<usize, FillError> {
        self.rt.var_at(i, buf)
    }
}

impl Files for Machine {
    type File = <HostRuntime as Files>::File;

    type Dir = <HostRuntime as Files>::Dir;

    fn open_file(&self, how: &OpenOptions, path: &str) -> io::Result<<HostRuntime as Files>::File> {
        self.rt.open_file(how, self.opened.unwrap_or(path))
    }

    fn open_dir(&self, path: &str) -> io::Result<<HostRuntime as Files>::Dir> {
        self.rt.open_dir(path)
    }

    fn metadata(&self, path: &str) -> io::Result<Metadata> {
        self.rt.metadata(path)
    }

    fn symlink_metadata(&self, path: &str) -> io::Result<Metadata> {
        self.rt.symlink_metadata(path)
    }

    fn copy(&self, from: &str, to: &str) -> io::Result<u64> {
        self.rt.copy(from, to)
    }

    fn rename(&self, from: &str, to: &str) -> io::Result<()> {
        self.rt.rename(from, to)
    }

    fn remove_file(&self, path: &str) -> io::Result<()> {
        self.rt.remove_file(path)
    }

    fn create_dir(&self, path: &str) -> io::Result<()> {
        self.rt.create_dir(path)
    }

    fn remove_dir(&self, path: &str) -> io::Result<()> {
        self.rt.remove_dir(path)
    }

    fn remove_dir_all<B: Allocator>(&self, alloc: B, path: &str) -> io::Result<()> {
        self.rt.remove_dir_all(alloc, path)
    }
}
