//! The engine: takes lines of an input, has them answered, and gives replies.

ghost use Rattle.std.specs.Prelude.{◌≡◌, ◌≢◌, ◌+◌, ◌≤◌, ◌<◌, ◌↔◌, ◌++◌, IsTrue, [], List, ℕ, ◌*◌, Bool, drop, length, min, take};
ghost use Rattle.pn_lines.specs.Engines.{new_engine, Advances, Costs, NextIs, StepsTo, taken_by, units_by};
ghost use Rattle.pn_lines.specs.Giving.{Adds, Gives};
ghost use Rattle.pn_lines.specs.Standing.{StandsAfter};
ghost use Rattle.pn_lines.specs.declared.engine.TheConstants.{MAX_CALL_UNITS};

mod answering;
mod dropping;
mod reading;
pub(crate) mod state;

use crate::engine::reading::cost_of;
use crate::engine::state::{LinesEnd, Stage};
use crate::finding::{MAX_PIECE_BYTES, PieceText};
use crate::handler::{LineHandler, RefusesLong};
use std::alloc::Global;
use std::marker::Model;

/// How many bytes of lines or of replies one unit of work is.
const UNIT_BYTES: usize = 1_024;

/// How many bytes of replies a step makes, and less than a piece more.
const BLOCK_BYTES: usize = 65_536;

/// The most units that a call may be allowed.
pub const MAX_CALL_UNITS: u32 = 1_000_000_000;

/// How many more units than it is allowed a call may use.
pub const MAX_STEP_UNITS: u32 = 192;

/// How many lines were taken, and how many were refused.
#[derive(Clone, Copy, Debug, PartialEq, Eq)]
pub struct Counts {
    pub lines: u64,
    pub refused: u64,
}

/// What a call came to.
#[derive(Clone, Copy, Debug, PartialEq, Eq)]
pub struct Progress {
    /// How many bytes of the input were taken.
    pub taken: usize,
    /// How many units of work were used.
    pub units: u32,
    pub next: Next,
}

/// What an engine goes on with.
#[derive(Clone, Copy, Debug, PartialEq, Eq)]
pub enum Next {
    /// More input.
    Input,
    /// Room for replies.
    Room,
    /// Another turn.
    Turn,
    /// Nothing: all was given.
    End(LinesEnd),
}

/// What a step came to.
#[derive(Clone, Copy, Debug, PartialEq, Eq)]
enum Step {
    /// `taken` bytes of the input were taken, by `units` units of work.
    Went { taken: usize, units: u32 },
    /// Nothing was done.
    Waits(Next),
}

/// Answers the lines of an input. What is between two calls: how far it is, the text of a reply that is still to be made, and counts.
#[derive(Drop)]
pub struct LineEngine<G: Drop, T: PieceText> {
    alloc: Global,
    stage: Stage<G>,
    text: Option<T>,
    counts: Counts,
    // The most lines that it answers.
    most: u64,
}

impl<G: Drop, T: PieceText> Model for LineEngine<G, T> {
    ghost use Rattle.pn_lines.specs.Engines.{EngineValue, left_of};

    ghost Value = { EngineValue G };

    ghost view = { λ engine. record { stage = engine.stage; left = left_of T.unmade engine.text; counts = engine.counts; most = engine.most } };
}

impl<G: Drop, T: PieceText> LineEngine<G, T> {
    /// An engine that has taken nothing, and answers at most this number of lines.
    pub fn new(alloc: Global, most: u64) -> LineEngine<G, T>
        ensures { result ≡ new_engine most }
    {
        LineEngine {
            alloc,
            stage: Stage::Reading(0),
            text: None,
            counts: Counts {
                lines: 0,
                refused: 0,
            },
            most,
        }
    }

    /// How many lines were taken, and how many were refused.
    pub fn counts(&self) -> Counts
        ensures { result ≡ self.now.counts }
    {
        self.counts
    }
}

impl<G: Drop, T: PieceText> LineEngine<G, T> {
    /// Goes on for this number of units of work, and a few: takes lines that are at hand, has them answered, and gives their replies
    /// while there is room. Where the input is at its end, its last part is answered too.
    ///
    /// What is at hand and is not taken is to be given again, with what came after it.
    pub fn go_on<M: RefusesLong<Pending = G, Text = T>>(
        &mut self,
        machine: &mut M,
        bytes: &[u8],
        is_last: bool,
        replies: &mut Vec<u8>,
        units: u32,
    ) -> Progress
        requires ready { M.ready }
        requires few { units ≤ MAX_CALL_UNITS }
        ensures stands { StandsAfter M.handling bytes.now is_last machine.old self.old replies.old.items result.taken machine.new self.new replies.new.items }
        ensures within { result.taken ≤ length bytes.now }
        ensures adds { Adds replies.old replies.new }
        ensures costs { Costs units result.units result.taken replies.old replies.new }
        ensures advances { Advances M.left result.units result.taken self.old self.new }
        ensures next { NextIs result.next units result.units replies.new self.new (drop result.taken bytes.now) is_last }
        ensures lines { self.new.counts.lines ≤ self.old.counts.lines + min units result.units }
        ensures kept { M.keeps machine.old machine.new }
    {
        let mut taken = 0;
        let mut used = 0;
        'steps: while used < units {
            match self.step(machine, &bytes[taken..], is_last, replies, units - used) {
                Step::Went {
                    taken: more,
                    units: spent,
                } => {
                    taken += more;
                    used += spent;
                }
                Step::Waits(next) => {
                    return Progress {
                        taken,
                        units: used,
                        next,
                    };
                }
            }
        }
        Progress {
            taken,
            units: used,
            next: Next::Turn,
        }
    }

    // Makes text, takes a line, or goes on with an answer.
    fn step<M: RefusesLong<Pending = G, Text = T>>(
        &mut self,
        machine: &mut M,
        bytes: &[u8],
        is_last: bool,
        replies: &mut Vec<u8>,
        units: u32,
    ) -> Step
        requires ready { M.ready }
        requires some { 0 < units }
        ensures stands { StandsAfter M.handling bytes.now is_last machine.old self.old replies.old.items
            (taken_by result) machine.new self.new replies.new.items }
        ensures within { taken_by result ≤ length bytes.now }
        ensures adds { Adds replies.old replies.new }
        ensures costs { Costs units (units_by result) (taken_by result) replies.old replies.new }
        ensures advances { Advances M.left (units_by result) (taken_by result) self.old self.new }
        ensures next { StepsTo result replies.new self.new bytes.now is_last }
        ensures lines { self.new.counts.lines ≤ self.old.counts.lines + 1 }
        ensures kept { M.keeps machine.old machine.new }
    {
        if self.has_text() {
            return self.give(&*machine, replies);
        }
        match self.take_stage() {
            Stage::Reading(0) => self.read_line(machine, bytes, is_last),
            Stage::Reading(dropped) => self.drop_line(machine, dropped, bytes, is_last),
            Stage::Pending(pending, ended) => Step::Went {
                taken: 0,
                units: self.look_on(machine, pending, ended, units),
            },
            Stage::Ended(end) => {
                self.set_stage(Stage::Ended(end));
                Step::Waits(Next::End(end))
            }
        }
    }

    // Makes text of a reply, if there is room for a piece.
    fn give<M: LineHandler<Pending = G, Text = T>>(
        &mut self,
        _machine: &M,
        replies: &mut Vec<u8>,
    ) -> Step
        requires some { self.old.left ≢ [] }
        ensures gives { Gives self.old.left self.new.left replies.old replies.new }
        ensures others { self.new ≡ record self.old { left = self.new.left } }
        ensures none { taken_by result ≡ 0 }
        ensures costs { Costs 0 (units_by result) 0 replies.old replies.new }
        ensures advances { Advances M.left (units_by result) 0 self.old self.new }
        ensures next { (ahead : List ℕ) (last : Bool) → StepsTo result replies.new self.new ahead last }
    {
        if replies.capacity() - replies.len() < MAX_PIECE_BYTES {
            return Step::Waits(Next::Room);
        }
        let before = replies.len();
        self.make_text(replies);
        Step::Went {
            taken: 0,
            units: cost_of(replies.len() - before),
        }
    }
}
