//! Writers and readers whose bytes and faults a contract can name.
ghost use Rattle.std.specs.Prelude.{◌≡◌, None, Some, ◌<◌, ◌≤◌, length, IfOk, IfErr, IfSome, OnOk, OnErr};
ghost use Rattle.std.specs.Io.KnownBytes.{WriteAppends, ReadConsumes};
ghost use Rattle.gix_date.specs.Devices.StreamState.{StreamState, Takes, TakesProperPrefix, refusal};
ghost use Rattle.gix_date.specs.Devices.Device.{inner_of, fault_of};

use std::io;
use std::io::{Read, Write};

/// A place that takes bytes. After a fault each call answers that fault.
pub trait Sink {
    // The bytes taken so far, if the sink reports them, and the fault of the last call, if it refused.
    ghost known: { Self → StreamState };

    /// Takes the first bytes of a piece, at least one, and answers how many. A refusal takes no byte, and each later call
    /// answers it again.
    ///
    /// The piece may not be empty.
    fn put(&mut self, piece: &[u8]) -> Result<usize, io::ErrorKind>
        requires { 0 < length piece.now }
        ensures count { IfOk result (λ n. (1 ≤ n) × (n ≤ length piece.now)) }
        ensures bytes { WriteAppends (known self.old).bytes (known self.new).bytes result piece.now }
        ensures fault { (known self.new).fault ≡ refusal result }
        ensures again { IfSome (known self.old).fault (λ kind. result ≡ Err kind) };
}

/// A place that gives bytes. After a fault each call answers that fault.
pub trait Source {
    // The bytes that are left, if the source reports them, and the fault of the last call, if it refused.
    ghost known: { Self → StreamState };

    /// Puts the next bytes at the front of a piece, and answers how many: 0 only at the end. A refusal gives no byte, and
    /// each later call answers it again.
    ///
    /// The piece may not be empty.
    fn get(&mut self, piece: &mut [u8]) -> Result<usize, io::ErrorKind>
        requires { 0 < length piece.old }
        ensures count { IfOk result (λ n. n ≤ length piece.new) }
        ensures bytes { ReadConsumes (known self.old).bytes (known self.new).bytes result piece.new }
        ensures fault { (known self.new).fault ≡ refusal result }
        ensures again { IfSome (known self.old).fault (λ kind. result ≡ Err kind) };
}

/// A writer of std as a [`Sink`], and a reader of std as a [`Source`].
///
/// Each call makes one `write` or `read`, and none after a fault. An interrupted call is a fault, and so is a `write`
/// that takes no byte (`WriteZero`). Only the writer itself may allocate, as a `Vec` that grows.
#[derive(Debug, Drop)]
pub struct Device<T> {
    inner: T,
    fault: Option<io::ErrorKind>,
}

impl<T> Device<T> {
    /// The device of this writer or reader, with no fault.
    pub fn new(inner: T) -> Device<T>
        ensures inner { inner_of result ≡ inner }
        ensures fault { fault_of result ≡ None }
    {
        Device { inner, fault: None }
    }

    /// The writer or reader inside.
    pub fn into_inner(self) -> T
        ensures { result ≡ inner_of self }
    {
        let Device { inner, fault: _ } = self;
        inner
    }
}

impl<T: Write> Sink for Device<T> {
    ghost known = { λ s. record { bytes = T.contents s.inner; fault = s.fault } };

    fn put(&mut self, piece: &[u8]) -> Result<usize, io::ErrorKind> {
        if let Some(kind) = self.fault {
            return Err(kind);
        }
        let answer = match self.inner.write(piece) {
            Ok(0) => Err(io::ErrorKind::WriteZero),
            Ok(n) => Ok(n),
            Err(e) => Err(e.kind()),
        };
        if let Err(kind) = answer {
            self.fault = Some(kind);
        }
        answer
    }
}

impl<T: Read> Source for Device<T> {
    ghost known = { λ s. record { bytes = T.remaining s.inner; fault = s.fault } };

    fn get(&mut self, piece: &mut [u8]) -> Result<usize, io::ErrorKind> {
        if let Some(kind) = self.fault {
            return Err(kind);
        }
        match self.inner.read(piece) {
            Ok(n) => Ok(n),
            Err(e) => {
                let kind = e.kind();
                self.fault = Some(kind);
                Err(kind)
            }
        }
    }
}

/// Puts the whole text into a sink, by as many calls of [`Sink::put`] as that takes.
///
/// If the sink refuses, it has taken a proper prefix of the text, and the answer is its fault. Takes no memory of its
/// own.
#[tactic(auto, using(crate::proofs::Text::KnownBytes::appends_take))]
pub fn put_all<W: Sink>(out: &mut W, text: &[u8]) -> Result<(), io::ErrorKind>
    ensures ok { OnOk result (Takes (W.known out.old) (W.known out.new) text.now) }
    ensures cut { OnErr result (TakesProperPrefix (W.known out.old) (W.known out.new) text.now) }
    ensures fault { IfErr result (λ kind. (W.known out.new).fault ≡ Some kind) }
{
    let mut done = 0;
    while done < text.len() {
        done += out.put(&text[done..])?;
    }
    Ok(())
}
