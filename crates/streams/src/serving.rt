//! What serves the lines of a reader, and why that ends.
ghost use Rattle.std.specs.Prelude.{◌≡◌, ◌∷◌, [], Ok, OnOk, List, ℕ};
ghost use Rattle.gix_date.specs as GixDate;
ghost use Rattle.streams.specs as Spec;

use crate::error::ToolError;
use gix_date::device::Sink;

/// The most lines that an input has, where a program has such a limit.
pub const MAX_LINES: u64 = 1_000_000;

/// Why serving ends before the end of the input.
#[derive(Debug, Drop)]
pub enum Stop {
    /// No more lines are read, and the server served those before: the reader refused, a limit applies, or memory for a line was refused.
    Reading(ToolError),
    /// The server refused with this fault.
    Serving(ToolError),
}

impl Stop {
    /// The fault, whoever has it.
    pub fn fault(self) -> ToolError
        ensures { result ≡ Spec.fault_of self }
    {
        match self {
            Stop::Reading(fault) => fault,
            Stop::Serving(fault) => fault,
        }
    }
}

/// Serves lines: it writes to a sink, and says beside that what it has to say.
pub trait Server {
    /// What serving some lines comes to.
    ghost serves: { Spec.Service Self → Spec.Service Self → List (List ℕ) → Spec.Answer → Type 0 };

    /// Nothing waits to be written.
    ghost is_settled: { Self → Type 0 };

    /// Serves a line, without its newline.
    fn serve<W: Sink, M: Sink>(
        &mut self,
        line: &[u8],
        out: &mut W,
        messages: &mut M,
    ) -> Result<(), ToolError>
        ensures { serves (Spec.service self.old (W.known out.old) (M.known messages.old))
            (Spec.service self.new (W.known out.new) (M.known messages.new)) (line.now ∷ []) result };

    /// Serves the first line of bytes where it is known by them, and gives what stands after its newline. Else, as here, nothing is done.
    fn serve_front<'b, W: Sink, M: Sink>(
        &mut self,
        _bytes: &'b [u8],
        _out: &mut W,
        _messages: &mut M,
    ) -> Result<Option<&'b [u8]>, ToolError>
        ensures { Spec.ServesFront serves (Spec.service self.old (W.known _out.old) (M.known _messages.old))
            (Spec.service self.new (W.known _out.new) (M.known _messages.new)) _bytes.now result }
    {
        Ok(None)
    }

    /// Writes what waits.
    fn settle<W: Sink>(&mut self, out: &mut W) -> Result<(), ToolError>
        ensures serves { (told : GixDate.StreamState) → serves (Spec.service self.old (W.known out.old) told)
            (Spec.service self.new (W.known out.new) told) [] result }
        ensures settled { OnOk result (is_settled self.new) };

    /// Serving no lines changes nothing.
    ghost stays: { Spec.Stays serves };

    /// Lines that were served, and then more lines, are lines that were served.
    ghost joins: { Spec.Joins serves };
}
