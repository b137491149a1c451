//! How an engine has lines answered.

ghost use Rattle.std.specs.Prelude.{◌≤◌, ◌<◌, ◌+◌, ◌⊎◌, ◌≡◌, [], ℕ, Bool, IsFalse, IsTrue, List, true};
ghost use Rattle.pn_line.specs.Prelude.{kept_bytes, so_far};
ghost use Rattle.pn_lines.specs.Driving.{IsAfter, SameLines};
ghost use Rattle.pn_lines.specs.Engines.{is_pending as goes_on, with_lines, Advances, pending_left};
ghost use Rattle.pn_lines.specs.Standing.{StandsStill, count_by, count_of, Asks, Refuses};
ghost use Rattle.pn_lines.specs.declared.engine.TheConstants.{MAX_STEP_UNITS};
ghost use Rattle.pn_lines.specs.declared.engine.state.Stage.TheVariants.{Pending};
ghost use Rattle.pn_lines.specs.declared.handler.EndedBy.{EndedBy};
ghost use Rattle.pn_lines.specs.declared.handler.TheConstants.{MAX_ANSWER_UNITS};

use crate::engine::LineEngine;
use crate::engine::state::Stage;
use crate::finding::PieceText;
use crate::handler::{Answered, EndedBy, LineHandler, LineOutcome, RefusesLong};
use pn_line::LineBuffer;

impl<G: Drop, T: PieceText> LineEngine<G, T> {
    /// Takes a line that was read to its end, and has it answered or begun.
    pub(crate) fn take_line<M: LineHandler<Pending = G, Text = T>>(
        &mut self,
        machine: &mut M,
        line: &LineBuffer,
        ended: EndedBy,
    )
        requires ready { M.ready }
        requires few { (self.old.counts.lines < self.old.most) ⊎ ((ended ≡ EndedBy.Input) × (line.now.count ≡ 0)) }
        ensures asks { (text : List ℕ) → line.now ≡ so_far text
            → Asks M.handling ended text machine.old machine.new (with_lines (count_of ended text) self.old) self.new }
        ensures after { IsAfter ended self.new.stage }
        ensures lines { self.new.counts.lines ≡ self.old.counts.lines + count_by ended line.now.count }
        ensures most { self.new.most ≡ self.old.most }
        ensures kept { M.keeps machine.old machine.new }
    {
        self.count_lines(lines_in(line, ended));
        self.ask(machine, line.bytes(), ended);
    }

    /// Has a line answered, or begun. How many units that took.
    pub(super) fn ask<M: LineHandler<Pending = G, Text = T>>(
        &mut self,
        machine: &mut M,
        line: &[u8],
        ended: EndedBy,
    ) -> u32
        requires ready { M.ready }
        ensures asks { (text : List ℕ) → line.now ≡ kept_bytes text → Asks M.handling ended text machine.old machine.new self.old self.new }
        ensures few { result ≤ MAX_ANSWER_UNITS }
        ensures after { IsAfter ended self.new.stage }
        ensures same { SameLines self.old self.new }
        ensures kept { M.keeps machine.old machine.new }
    {
        let Answered { answer, units } = machine.answer(self.alloc, line, ended);
        self.take_answer(answer, ended);
        units
    }

    /// Has a line answered that is too long.
    pub(super) fn refuse_long<M: RefusesLong<Pending = G, Text = T>>(
        &mut self,
        machine: &mut M,
        ended: EndedBy,
    )
        requires ready { M.ready }
        ensures refuses { Refuses M.handling ended machine.old machine.new self.old self.new }
        ensures after { IsAfter ended self.new.stage }
        ensures same { SameLines self.old self.new }
        ensures kept { M.keeps machine.old machine.new }
    {
        let reply = machine.refuse_long(ended);
        self.take_answer(LineOutcome::Done(reply), ended);
    }

    /// Goes on with an answer that was begun. False where none was.
    pub(crate) fn resume<M: LineHandler<Pending = G, Text = T>>(
        &mut self,
        machine: &mut M,
        units: u32,
    ) -> bool
        requires ready { M.ready }
        requires some { 0 < units }
        requires made { self.old.left ≡ [] }
        ensures stands { StandsStill M.handling machine.old self.old machine.new self.new }
        ensures nearer { IsTrue result → pending_left M.left self.new.stage < pending_left M.left self.old.stage }
        ensures none { IsFalse result → (self.new ≡ self.old) × (pending_left M.left self.old.stage ≡ 0) }
        ensures after { (ended : EndedBy) → IsAfter ended self.old.stage → IsAfter ended self.new.stage }
        ensures same { SameLines self.old self.new }
        ensures kept { M.keeps machine.old machine.new }
    {
        match self.take_stage() {
            Stage::Pending(pending, ended) => {
                self.look_on(machine, pending, ended, units);
                true
            }
            stage => {
                self.set_stage(stage);
                false
            }
        }
    }

    /// Goes on with an answer that was begun, if one was.
    pub(crate) fn go_further<M: LineHandler<Pending = G, Text = T>>(
        &mut self,
        machine: &mut M,
        units: u32,
    )
        requires ready { M.ready }
        requires some { 0 < units }
        ensures stands { StandsStill M.handling machine.old self.old machine.new self.new }
        ensures nearer { self.old.left ≡ [] → goes_on self.old.stage ≡ true
            → pending_left M.left self.new.stage < pending_left M.left self.old.stage }
        ensures lines { self.new.counts.lines ≡ self.old.counts.lines }
        ensures kept { M.keeps machine.old machine.new }
    {
        if self.has_text() {
            return;
        }
        self.resume(machine, units);
    }

    /// Goes on with an answer. How many units that took: at least one.
    pub(super) fn look_on<M: LineHandler<Pending = G, Text = T>>(
        &mut self,
        machine: &mut M,
        pending: G,
        ended: EndedBy,
        units: u32,
    ) -> u32
        requires ready { M.ready }
        requires some { 0 < units }
        requires made { self.old.left ≡ [] }
        ensures stands { StandsStill M.handling machine.old (record self.old { stage = Pending pending ended }) machine.new self.new }
        ensures advances { Advances M.left result 0 (record self.old { stage = Pending pending ended }) self.new }
        ensures nearer { pending_left M.left self.new.stage < M.left pending + 1 }
        ensures after { IsAfter ended self.new.stage }
        ensures same { SameLines self.old self.new }
        ensures some { 0 < result }
        ensures few { result ≤ units + MAX_STEP_UNITS }
        ensures kept { M.keeps machine.old machine.new }
    {
        let Answered {
            answer,
            units: used,
        } = machine.go_on(self.alloc, pending, units);
        self.take_answer(answer, ended);
        used.max(1)
    }
}

// How many lines a line counts for.
fn lines_in(line: &LineBuffer, ended: EndedBy) -> u64
    ensures { result ≡ count_by ended line.now.count }
{
    match ended {
        EndedBy::Input if line.is_empty() => 0,
        _ => 1,
    }
}
