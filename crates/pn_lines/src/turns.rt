//! The driver that takes turns: it reads what is at hand, has lines answered, writes what is taken, and never waits.

ghost use Rattle.std.specs.Prelude.{◌≡◌, ◌⊎◌, [], IfNone, IfSome};
ghost use Rattle.pn_lines.specs.Engines.{is_pending as goes_on};
ghost use Rattle.pn_lines.specs.Turns.{new_turns, outcome_of as comes_to, Turned, at};

mod buffers;
mod input;
mod laws;
mod sending;
mod working;

use crate::engine::state::LinesEnd;
use crate::engine::{Counts, LineEngine};
use crate::finding::PieceText;
use crate::handler::RefusesLong;
use crate::turns::sending::{Sent, send};
use crate::turns::working::{Work, take_lines};
pub use buffers::{MAX_UNREAD, TurnBuffers};
pub use input::{Input, READ_SIZE, is_wait};
pub use laws::{Others, answer_in_turns};
use pn_line::Sink;
use std::alloc::Global;
use std::marker::Model;
pub use working::TURN_UNITS;

/// Whether more input may come.
#[derive(Clone, Copy, Debug, PartialEq, Eq)]
pub enum SourceState {
    /// More may come.
    Open,
    /// All has come.
    AtEnd,
    /// A read has failed.
    Failed,
}

/// Why a turn ended.
#[derive(Clone, Copy, Debug, PartialEq, Eq)]
pub enum Pause {
    /// Others are to have their turns: there may be more to do at once.
    Turn,
    /// No input is at hand.
    Input,
    /// The sink takes no more replies for now.
    Output,
}

/// Why the lines of an input are answered no further.
#[derive(Clone, Copy, Debug, PartialEq, Eq)]
pub enum TurnFault {
    /// A read has failed. The replies to all whole lines were written.
    Read,
    /// A write has failed.
    Write,
    /// There is no memory for input or replies that are to be kept.
    Memory,
}

/// What a turn came to.
#[derive(Clone, Copy, Debug, PartialEq, Eq)]
pub enum TurnOutcome {
    /// It goes on.
    Goes(Pause),
    /// All was answered that is to be, and all replies were written.
    Ended(LinesEnd),
    /// It has ended by a fault.
    Failed(TurnFault),
}

/// The lines of an input between two turns.
#[derive(Drop)]
pub struct LineTurns<G: Drop, T: PieceText> {
    alloc: Global,
    engine: LineEngine<G, T>,
    // Input that was read and is not taken.
    unread: Vec<u8>,
    // Replies that were not written.
    replies: Vec<u8>,
    source: SourceState,
}

impl<G: Drop, T: PieceText> Model for LineTurns<G, T> {
    ghost use Rattle.std.specs.Prelude.{◌≤◌, vec_len};
    ghost use Rattle.pn_lines.specs.declared.turns.buffers.TheConstants.{MAX_UNREAD};
    ghost use Rattle.pn_lines.specs.Turns.{TurnValue};

    ghost Value = { TurnValue G };

    ghost view = { λ turns. record { engine = turns.engine; unread = turns.unread.items; replies = turns.replies.items; source = turns.source } };

    ghost invariant = { λ turns. vec_len turns.unread ≤ MAX_UNREAD };
}

impl<G: Drop, T: PieceText> LineTurns<G, T> {
    /// The lines of an input of which nothing was read. At most this number of them is answered.
    pub fn new(alloc: Global, most: u64) -> LineTurns<G, T>
        ensures { result ≡ new_turns most }
    {
        LineTurns {
            alloc,
            engine: LineEngine::new(alloc, most),
            unread: Vec::new(alloc),
            replies: Vec::new(alloc),
            source: SourceState::Open,
        }
    }

    /// How many lines were taken, and how many were refused.
    pub fn counts(&self) -> Counts
        ensures { result ≡ self.now.engine.counts }
    {
        self.engine.counts()
    }

    /// The text of a reply of which some is still to be made.
    pub fn unmade(&self) -> Option<&T>
        ensures some { IfSome result (λ text. T.unmade text.now ≡ self.now.engine.left) }
        ensures none { IfNone result (self.now.engine.left ≡ []) }
    {
        self.engine.unmade()
    }

    /// Whether an answer is gone on with.
    pub fn is_pending(&self) -> bool
        ensures { result ≡ goes_on self.now.engine.stage }
    {
        self.engine.is_pending()
    }

    /// One turn: goes on where the last one stopped, with a bounded number of bytes that are read, taken, made and written, and a
    /// bounded number of units of work.
    ///
    /// Where the sink leaves replies nothing is read and no line is begun. An answer that was begun is gone on with, so that what
    /// waits for the sink is text.
    pub fn turn<M: RefusesLong<Pending = G, Text = T>, R: Input, W: Sink>(
        &mut self,
        buffers: &mut TurnBuffers,
        machine: &mut M,
        input: &mut R,
        output: &mut W,
    ) -> TurnOutcome
        requires ready { M.ready }
        ensures turns { Turned M.handling M.left (at (R.remaining input.old) (W.contents output.old) machine.old self.old)
            (at (R.remaining input.new) (W.contents output.new) machine.new self.new) result }
        ensures read_fault { self.new.source ≡ SourceState.Failed → (self.old.source ≡ SourceState.Failed) ⊎ R.has_failed input.new }
        ensures write_fault { result ≡ TurnOutcome.Failed TurnFault.Write → W.has_failed output.new }
        ensures kept { M.keeps machine.old machine.new }
    {
        match send(&mut self.replies, output) {
            Sent::All => self.work_and_send(buffers, machine, input, output),
            Sent::Waits => {
                self.engine.go_further(machine, TURN_UNITS);
                TurnOutcome::Goes(Pause::Output)
            }
            Sent::Fails => TurnOutcome::Failed(TurnFault::Write),
        }
    }

    // Works, and writes what is taken of the replies.
    fn work_and_send<M: RefusesLong<Pending = G, Text = T>, R: Input, W: Sink>(
        &mut self,
        buffers: &mut TurnBuffers,
        machine: &mut M,
        input: &mut R,
        output: &mut W,
    ) -> TurnOutcome
        requires ready { M.ready }
        requires none { self.old.replies ≡ [] }
        ensures turns { Turned M.handling M.left (at (R.remaining input.old) (W.contents output.old) machine.old self.old)
            (at (R.remaining input.new) (W.contents output.new) machine.new self.new) result }
        ensures read_fault { self.new.source ≡ SourceState.Failed → (self.old.source ≡ SourceState.Failed) ⊎ R.has_failed input.new }
        ensures write_fault { result ≡ TurnOutcome.Failed TurnFault.Write → W.has_failed output.new }
        ensures kept { M.keeps machine.old machine.new }
    {
        self.load(buffers);
        let worked = take_lines(&mut self.engine, &mut self.source, buffers, machine, input);
        let sent = buffers.send(output);
        self.store(buffers, outcome_of(worked, sent))
    }
}

// What a turn comes to, by its work and by how far the sink took its replies.
fn outcome_of(worked: Work, sent: Sent) -> TurnOutcome
    ensures { result ≡ comes_to worked sent }
{
    match sent {
        Sent::All => match worked {
            Work::Turn => TurnOutcome::Goes(Pause::Turn),
            Work::Input => TurnOutcome::Goes(Pause::Input),
            Work::Ended(end) => TurnOutcome::Ended(end),
            Work::Failed => TurnOutcome::Failed(TurnFault::Read),
        },
        Sent::Waits => TurnOutcome::Goes(Pause::Output),
        Sent::Fails => TurnOutcome::Failed(TurnFault::Write),
    }
}
