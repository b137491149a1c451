//! A driver that waits for its source and its sink: reads lines, has them answered, and writes the replies.

ghost use Rattle.std.specs.Prelude.{◌≡◌, ◌+◌, ◌≤◌, [], IfOk, vec_capacity};
ghost use Rattle.pn_lines.specs.Driving.{CanEnd, Flushes, HasEnded, polls_left, start_at};
ghost use Rattle.pn_lines.specs.Engines.{new_engine};
ghost use Rattle.pn_lines.specs.declared.finding.TheConstants.{MAX_PIECE_BYTES};

pub(crate) mod buffers;
mod reading;

use crate::driver::buffers::LineBuffers;
use crate::driver::reading::{answer_next, close};
use crate::engine::{Counts, LineEngine};
use crate::finding::PieceText;
use crate::handler::LineHandler;
use pn_line::{LineBuffer, Sink, Source};

/// Answers the lines of an input, at most this number of them, and its end, unless the handler is closed before. Replies are written
/// before it waits for more input.
pub fn answer_lines<
    G: Drop,
    T: PieceText,
    M: LineHandler<Pending = G, Text = T>,
    S: Source,
    W: Sink,
>(
    machine: &mut M,
    buffers: &mut LineBuffers,
    most: u64,
    input: &mut S,
    output: &mut W,
) -> Result<Counts, LinesFault>
    requires ready { M.ready }
    ensures ends { HasEnded M.handling most (start_at machine.old (S.left input.old) (W.contents output.old))
        (S.left input.new) (W.contents output.new) machine.new result }
    ensures can { CanEnd S.may_fail W.may_fail S.may_end (M.handling.closed machine.new) result }
    ensures few { IfOk result (λ counts. counts.lines ≤ most) }
    ensures out { Flushes result (W.is_flushed output.new) }
    ensures polls { S.polls input.new ≤ S.polls input.old + polls_left 0 most }
    ensures kept { M.keeps machine.old machine.new }
{
    buffers.clear();
    let mut engine = LineEngine::new(buffers.alloc, most);
    run(
        machine,
        &mut engine,
        &mut buffers.line,
        &mut buffers.replies,
        input,
        output,
    )
}

// Answers lines until it ends.
fn run<G: Drop, T: PieceText, M: LineHandler<Pending = G, Text = T>, S: Source, W: Sink>(
    machine: &mut M,
    engine: &mut LineEngine<G, T>,
    line: &mut LineBuffer,
    replies: &mut Vec<u8>,
    input: &mut S,
    output: &mut W,
) -> Result<Counts, LinesFault>
    requires ready { M.ready }
    requires new { engine.old ≡ new_engine engine.old.most }
    requires none { replies.old.items ≡ [] }
    requires capacity { MAX_PIECE_BYTES ≤ vec_capacity replies.old }
    ensures ends { HasEnded M.handling engine.old.most (start_at machine.old (S.left input.old) (W.contents output.old))
        (S.left input.new) (W.contents output.new) machine.new result }
    ensures can { CanEnd S.may_fail W.may_fail S.may_end (M.handling.closed machine.new) result }
    ensures few { IfOk result (λ counts. counts.lines ≤ engine.old.most) }
    ensures out { Flushes result (W.is_flushed output.new) }
    ensures polls { S.polls input.new ≤ S.polls input.old + polls_left 0 engine.old.most }
    ensures grows { vec_capacity replies.old ≤ vec_capacity replies.new }
    ensures kept { M.keeps machine.old machine.new }
{
    'lines: loop {
        if machine.is_closed() {
            return Err(close(&*machine, &*engine, replies, &*input, output));
        }
        match answer_next(machine, engine, line, replies, input, output) {
            Ok(None) => {}
            Ok(Some(counts)) => return Ok(counts),
            Err(fault) => return Err(fault),
        }
    }
}

/// Why the lines of an input were not answered to its end.
#[derive(Clone, Copy, Debug, PartialEq, Eq)]
pub enum LinesFault {
    /// The source failed. The replies to all whole lines were written.
    Read,
    /// The sink failed, or took no byte. A prefix of the replies was written.
    Write,
    /// There are more lines than may be answered. The replies to as many were written.
    TooManyLines,
    /// A line has no end. The replies to all lines before were written.
    EndlessLine,
    /// The handler answers no further line. The replies to all lines before were written.
    Closed,
}
