//! A run over the lines of a stream, each replied to in turn.
ghost use Rattle.std.specs.Option.{ForSome};
ghost use Rattle.gix_date_tool.specs as Spec;
ghost use Rattle.gix_date.specs as GixDate;
ghost use Rattle.streams.specs as Streams;

pub(crate) mod replies;
mod serving;
mod signed;

use crate::program::arguments::Mode;
use crate::runs::replies::Query;
use crate::runs::serving::Replying;
use gix_date::device::{Device, Sink, Source};
use gix_date::{Time, Zoned};
use std::alloc::Global;
use std::io;
use streams::{MAX_LINES, Outbox, ToolError, serve_lines};

/// Replies to each line of a reader by a line of output, and answers the number of lines.
///
/// Relative dates count from the moment, which `Time::to_zoned` has to convert.
///
/// Lines end at `\n`, and a last line without one counts where it has a byte. The replies to the lines of what was read
/// are written before more is read. Memory is taken for a line that no read gives whole, newline included, and for that
/// alone: over short lines 64 KiB are enough.
///
/// A run ends well only at the end of the input. [`ToolError::LineTooLong`] comes where one of the first 1000000 lines
/// has more than 65536 bytes, [`ToolError::TooManyLines`] where a byte stands after line 1000000, [`ToolError::Memory`]
/// where memory for a line that grows is refused, and [`ToolError::Read`] carries the reader's fault: then the
/// replies to all lines before were written, and nothing more. [`ToolError::Write`] carries the writer's fault, and
/// then a proper prefix of the replies that were due was written.
#[tactic(auto, using(crate::proofs::Serving::run_ended, crate::proofs::Serving::run_stopped))]
pub fn run<R: Source, W: Sink>(
    alloc: Global,
    mode: Mode,
    now: Option<Time>,
    reader: &mut R,
    writer: &mut W,
) -> Result<u64, ToolError>
    requires { ForSome now GixDate.IsConvertible }
    ensures { Spec.Runs mode now (Streams.change (R.known reader.old) (R.known reader.new))
        (Streams.change (W.known writer.old) (W.known writer.new)) result }
{
    let mut replying = Replying {
        query: Query {
            mode,
            now: moment_of(now),
        },
        outbox: Outbox::new(),
    };
    let mut silence = Device::new(io::sink());
    match serve_lines(
        alloc,
        MAX_LINES,
        &mut replying,
        reader,
        writer,
        &mut silence,
    ) {
        Ok(count) => Ok(count),
        Err(stop) => Err(stop.fault()),
    }
}

/// The moment of a time, in the zone that always has its offset.
fn moment_of(now: Option<Time>) -> Option<Zoned<'static>>
    requires { ForSome now GixDate.IsConvertible }
    ensures { Spec.IsMomentOf now result }
{
    match now {
        Some(time) => Some(time.to_zoned().unwrap()),
        None => None,
    }
}
