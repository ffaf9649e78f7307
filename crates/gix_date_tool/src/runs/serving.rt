//! Lines replied to, each in turn.
ghost use Rattle.std.specs.Prelude.{◌≡◌, []};
ghost use Rattle.gix_date_tool.specs.declared.program.arguments.Mode.TheVariants.{Check};
ghost use Rattle.gix_date_tool.specs as Spec;
ghost use Rattle.streams.specs as Streams;

use crate::program::arguments::Mode;
use crate::runs::replies::{Query, push_reply};
use gix_date::device::Sink;
use std::io;
use streams::usual::{canonical_line, unknown_line};
use streams::{Outbox, Server, ToolError};

/// Replies to lines.
#[derive(Drop)]
pub(crate) struct Replying {
    /// What is asked of each line.
    pub(crate) query: Query,
    /// The replies that are unsent.
    pub(crate) outbox: Outbox,
}

impl Server for Replying {
    ghost serves = { Spec.RepliesTo };

    ghost is_settled = { λ s. Streams.waiting s.outbox ≡ [] };

    #[tactic(auto, unfolding(crate::specs::SendsReply))]
    fn serve<W: Sink, M: Sink>(
        &mut self,
        line: &[u8],
        out: &mut W,
        _messages: &mut M,
    ) -> Result<(), ToolError> {
        match push_reply(&self.query, line, &mut self.outbox, out) {
            Ok(()) => Ok(()),
            Err(kind) => Err(ToolError::Write(kind)),
        }
    }

    #[tactic(auto, unfolding(crate::specs::RepliesToFront))]
    fn serve_front<'b, W: Sink, M: Sink>(
        &mut self,
        bytes: &'b [u8],
        out: &mut W,
        messages: &mut M,
    ) -> Result<Option<&'b [u8]>, ToolError> {
        match self.query.mode {
            Mode::Check => self.check_front(bytes, out, messages),
            Mode::Parse => Ok(None),
            Mode::Sign => Ok(None),
        }
    }

    fn settle<W: Sink>(&mut self, out: &mut W) -> Result<(), ToolError> {
        match self.outbox.send(out) {
            Ok(()) => Ok(()),
            Err(kind) => Err(ToolError::Write(kind)),
        }
    }

    ghost stays = { Spec.no_lines };

    ghost joins = { Spec.more_lines };
}

impl Replying {
    /// Replies to the first line of bytes where it is a usual header, and gives what stands after its newline.
    #[tactic(auto, using(crate::proofs::Fronts::canonical_served, crate::proofs::Fronts::canonical_unserved, crate::proofs::Fronts::unknown_served, crate::proofs::Fronts::unknown_unserved, crate::proofs::Fronts::unknown_front))]
    fn check_front<'b, W: Sink, M: Sink>(
        &mut self,
        bytes: &'b [u8],
        out: &mut W,
        _messages: &mut M,
    ) -> Result<Option<&'b [u8]>, ToolError>
        requires { self.old.query.mode ≡ Check }
        ensures { Spec.RepliesToFront (Streams.service self.old (W.known out.old) (M.known _messages.old))
            (Streams.service self.new (W.known out.new) (M.known _messages.new)) bytes.now result }
    {
        if let Some(after) = canonical_line(bytes) {
            return match self.outbox.push_piece("canonical\n", out) {
                Ok(()) => Ok(Some(after)),
                Err(kind) => Err(ToolError::Write(kind)),
            };
        }
        let Some((seconds, after)) = unknown_line(bytes) else {
            return Ok(None);
        };
        match self.outbox.push(&["read ", seconds, " 0\n"], out) {
            Ok(()) => Ok(Some(after)),
            Err(kind) => Err(ToolError::Write(kind)),
        }
    }
}
