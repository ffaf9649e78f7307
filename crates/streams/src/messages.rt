//! What a program says beside its output.
ghost use Rattle.std.specs.Prelude.{◌≡◌};
ghost use Rattle.streams.specs as Spec;

use crate::error::ToolError;
use crate::program::Outbox;
use gix_date::device::Sink;
use std::io::ErrorKind;

/// Says a text, given in pieces, by one call where the sink takes so many bytes, so that lines of programs side by side
/// do not mix. What the sink refuses is not said. Apart, so that its outbox takes stack only where something is said.
#[inline(never)]
#[tactic(auto, using(crate::proofs::Reporting::sent_is_written))]
pub fn write_message<M: Sink>(pieces: &[&str], messages: &mut M)
    ensures { Spec.WritesMessage (Spec.change (M.known messages.old) (M.known messages.new)) (Spec.pieces_text pieces.now) }
{
    let mut text = Outbox::new();
    if let Ok(()) = text.push(pieces, messages) {
        let _unsaid = text.send(messages);
    }
}

/// Says in one line, after the name of the program, what fault a run has. That its reader wants no more, as `head`, is none that a user
/// has to read.
pub fn tell_fault<M: Sink>(program: &'static str, fault: &ToolError, messages: &mut M)
    ensures { Spec.Reports (Spec.change (M.known messages.old) (M.known messages.new)) (Spec.fault_message program.now fault.now) }
{
    if !is_closed_pipe(fault) {
        write_message(
            &[program, ": ", fault.text(), fault.cause(), "\n"],
            messages,
        );
    }
}

/// Whether the writer is a pipe that nothing reads any more.
fn is_closed_pipe(fault: &ToolError) -> bool
    ensures { result ≡ Spec.is_closed_pipe fault.now }
{
    matches!(fault, ToolError::Write(ErrorKind::BrokenPipe))
}
