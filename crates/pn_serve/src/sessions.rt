//! Sessions: lines are answered by a reader of a live region.

ghost use Rattle.std.specs.Prelude.{◌≡◌, ◌+◌, ◌≤◌, IfOk, OnOk, IsErrOf};
ghost use Rattle.pn_scan.specs.Prelude.{Stays};
ghost use Rattle.pn_serve.specs.Lines.{EndsBy, Flushes, polls_of_input};
ghost use Rattle.pn_serve.specs.Session.Resuming.{KnowsNoLess};
ghost use Rattle.pn_serve.specs.Session.Lines.{AnswersLine, EndsLines, session_start};

pub(crate) mod counting_reader;
pub(crate) mod lookups;
pub(crate) mod pending_lookup;

use crate::machine::line_answers::{LineAnswer, LineOutcome, ReplyPieces, answered, is_no_line};
use crate::script::{MAX_LINES, answer_lines};
use crate::sessions::lookups::answer_line;
use crate::sessions::pending_lookup::PendingLookup;
use crate::{Counts, RunFault};
use pn_line::{Sink, Source};
use pn_lines::{EndedBy, LineBuffers, LineHandler};
use pn_live::LiveReader;
use pn_protocol::Reply;
use std::alloc::Global;

/// Answers each line of a session with one reply, before it waits for more input. Commands other than `read`, `get`,
/// `scan` and `copy` are refused as read-only.
///
/// `Memory` comes only before the first line. Out of memory later is a reply.
pub fn session<S: Source, W: Sink>(
    alloc: Global,
    reader: &mut LiveReader,
    input: &mut S,
    output: &mut W,
) -> Result<Counts, RunFault>
    ensures ends { EndsBy (AnswersLine Stays) (EndsLines Stays) (session_start reader.old (S.left input.old) (W.contents output.old))
        (S.left input.new) (W.contents output.new) reader.new result }
    ensures read { IsErrOf result RunFault.Read → S.may_fail }
    ensures write { IsErrOf result RunFault.Write → W.may_fail }
    ensures knows { KnowsNoLess reader.old reader.new }
    ensures few { IfOk result (λ counts. counts.lines ≤ MAX_LINES) }
    ensures out { Flushes result (W.is_flushed output.new) }
    ensures polls { S.polls input.new ≤ S.polls input.old + polls_of_input }
    ensures end { OnOk result S.may_end }
    ensures unread { IsErrOf result RunFault.Memory → S.polls input.new ≡ S.polls input.old }
{
    let Ok(mut buffers) = LineBuffers::new(alloc) else {
        return Err(RunFault::Memory);
    };
    answer_lines(&mut AloneReader::new(reader), &mut buffers, input, output)
}

/// A reader that a session has alone.
#[derive(Drop)]
pub(crate) struct AloneReader<'a> {
    reader: &'a mut LiveReader,
}

impl<'a> AloneReader<'a> {
    pub(crate) fn new(reader: &'a mut LiveReader) -> AloneReader<'a>
        ensures same_reference { result.reader.ghost_name ≡ reader.entry.ghost_name }
        ensures reader { result.reader.now ≡ reader.old }
    {
        AloneReader { reader }
    }
}

impl LineHandler for AloneReader<'_> {
    ghost use Rattle.std.specs.Prelude.{⊤};

    ghost ready = { ⊤ };

    ghost use Rattle.pn_serve.specs.Proofs.{alone_reads_steadily};
    ghost use Rattle.pn_serve.specs.Session.Resuming.{KeepsReader, alone_reads};

    ghost handling = { alone_reads };

    type Pending = PendingLookup;

    type Text = ReplyPieces;

    ghost use Rattle.pn_serve.specs.Session.Resuming.{pending_left};

    ghost left = { pending_left };

    ghost keeps = { KeepsReader };

    fn answer(&mut self, alloc: Global, line: &[u8], ended: EndedBy) -> LineAnswer {
        if is_no_line(line, ended) {
            return answered(LineOutcome::Done(Reply::Silent), 0);
        }
        answered(answer_line(alloc, self.reader, line), 1)
    }

    fn go_on(&mut self, alloc: Global, pending: PendingLookup, units: u32) -> LineAnswer {
        let (answer, used) = pending.go_on(alloc, self.reader, units);
        answered(answer, used)
    }

    ghost steady = { alone_reads_steadily };
}
