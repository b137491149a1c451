//! A control session: its lines are answered by its own reader, or by the writer between two rounds.

ghost use Rattle.std.specs.Prelude.{◌≡◌, ◌≢◌, Err, IsErrOf, MatchBool};
ghost use Rattle.pn_lines.specs.Driving.{start_at};
ghost use Rattle.pn_serve.specs.Control.Lines.{AnswersClient, ControlEnds, control_start, uncounted};
ghost use Rattle.pn_serve.specs.Lines.{Flushes};
ghost use Rattle.pn_serve.specs.Session.Resuming.{KnowsNoLess};

use crate::RunFault;
use crate::control::handler::ControlHandler;
use crate::control::mailboxes::ControlMailboxes;
use crate::control::stop::StopSaid;
use crate::script::MAX_LINES;
use pn_join::NoMemory;
use pn_line::{Sink, Source};
use pn_lines::{Counts, LineBuffers, LinesFault};
use pn_live::LiveReader;
use pn_protocol::{Stats, TabletStats};
use std::alloc::Global;
use std::sync::{Arc, Wait};
use std::thread::Threads;
use std::time::Clock;

/// Says what a server has done so far, and whether the client of a session is still there.
pub trait StatsSource {
    ghost use Rattle.std.specs.Prelude.{◌≡◌, IfOk};

    /// What it has done so far, with these counts of its tablets.
    fn stats(&self, alloc: Global, tablets: Vec<TabletStats>) -> Result<Stats, NoMemory>
        ensures { IfOk result (λ stats. stats.tablets ≡ tablets) };

    /// Whether the client has gone, so that nobody takes what it waits for.
    fn has_client_gone(&self) -> bool;
}

/// What a control session is answered by, beside its reader.
#[derive(Drop)]
pub struct ControlSession<C: Drop> {
    pub mailboxes: Arc<ControlMailboxes>,
    /// The number of its mailbox, from 0. No two sessions have the same at once.
    pub number: usize,
    pub stats: C,
    /// How many workers read the lines of a copy.
    pub workers: usize,
}

impl<C: StatsSource + Drop> ControlSession<C> {
    /// Answers each line of a client with one reply, before it waits for more input, and gives the reader back. It ends
    /// with the input; or once the server is asked to stop, whose reply is written before; or, without a reply to that
    /// line, once the writer takes no command any more. Out of memory is a reply.
    pub fn answer<R: Threads + Wait + Clock, S: Source, W: Sink>(
        &self,
        rt: &R,
        buffers: &mut LineBuffers,
        reader: LiveReader,
        input: &mut S,
        output: &mut W,
    ) -> (LiveReader, Result<(), RunFault>)
        ensures ends { AnswersClient (control_start reader (S.left input.old) (W.contents output.old))
            (S.left input.new) (W.contents output.new) result.0 result.1 }
        ensures read { IsErrOf result.1 RunFault.Read → S.may_fail }
        ensures write { IsErrOf result.1 RunFault.Write → W.may_fail }
        ensures memory { IsErrOf result.1 RunFault.Memory → ⊥ }
        ensures knows { KnowsNoLess reader result.0 }
        ensures out { Flushes result.1 (W.is_flushed output.new) }
    {
        let mut handler = ControlHandler::new(rt, self, reader);
        let ended = answer_lines(rt, &mut handler, buffers, input, output);
        let (reader, stop) = handler.end();
        if let Some(said) = stop {
            self.stop_server(rt, said, &ended, &*output);
        }
        (reader, ended)
    }

    // Asks the server to stop, once the reply to that was flushed.
    fn stop_server<R: Wait + Clock, W: Sink>(
        &self,
        rt: &R,
        said: StopSaid,
        ended: &Result<(), RunFault>,
        output: &W,
    )
        requires { Flushes ended.now (W.is_flushed output.now) }
    {
        self.mailboxes.stop(rt, said);
    }
}

// Answers all lines of a client, and the end of its input, unless the session is closed before. Once as many lines were answered
// as an input may have, it begins anew.
fn answer_lines<R: Threads + Wait + Clock, C: StatsSource + Drop, S: Source, W: Sink>(
    rt: &R,
    handler: &mut ControlHandler<'_, R, C>,
    buffers: &mut LineBuffers,
    input: &mut S,
    output: &mut W,
) -> Result<(), RunFault>
    ensures ends { ControlEnds (start_at handler.old (S.left input.old) (W.contents output.old)) (S.left input.new) (W.contents output.new) handler.new result }
    ensures read { IsErrOf result RunFault.Read → S.may_fail }
    ensures write { IsErrOf result RunFault.Write → W.may_fail }
    ensures memory { IsErrOf result RunFault.Memory → ⊥ }
    ensures knows { KnowsNoLess handler.old.reader handler.new.reader }
    ensures out { Flushes result (W.is_flushed output.new) }
{
    for _ in rt.forever() {
        let ended = pn_lines::answer_lines(handler, buffers, MAX_LINES, input, output);
        if !is_full(&ended) {
            return uncount(ended);
        }
    }
    unreachable!()
}

// Whether as many lines were answered as an input may have, and there is more.
fn is_full(ended: &Result<Counts, LinesFault>) -> bool
    ensures { MatchBool result (ended.now ≡ Err LinesFault.TooManyLines) (ended.now ≢ Err LinesFault.TooManyLines) }
{
    matches!(ended, Err(LinesFault::TooManyLines))
}

// What a session ends with. One that was closed has ended as it should.
fn uncount(ended: Result<Counts, LinesFault>) -> Result<(), RunFault>
    ensures { result ≡ uncounted ended }
{
    match ended {
        Ok(_) | Err(LinesFault::Closed) => Ok(()),
        Err(LinesFault::Read) => Err(RunFault::Read),
        Err(LinesFault::Write) => Err(RunFault::Write),
        Err(LinesFault::TooManyLines | LinesFault::EndlessLine) => Err(RunFault::TooManyTurns),
    }
}
