//! How an engine takes lines.

ghost use Rattle.std.specs.Prelude.{◌≡◌, ◌⊎◌, ◌+◌, ◌*◌, ◌≤◌, ◌<◌, [], ℕ, Vec, length, true};
ghost use Rattle.std.specs.declared.alloc.Global.{Global};
ghost use Rattle.pn_line.specs.Line.{IsUnbroken};
ghost use Rattle.pn_line.specs.declared.line_buffer.TheConstants.{MAX_LINE_BYTES};
ghost use Rattle.pn_lines.specs.Engines.{dropping, StepsTo, taken_by, units_by};
ghost use Rattle.pn_lines.specs.Giving.{FindsLine, NewlineAt};
ghost use Rattle.pn_lines.specs.Standing.{count_of as counted, Takes};
ghost use Rattle.pn_lines.specs.declared.engine.state.Stage.TheVariants.{Reading};
ghost use Rattle.pn_lines.specs.declared.engine.TheConstants.{UNIT_BYTES};

use crate::engine::state::{LinesEnd, Stage};
use crate::engine::{LineEngine, Next, Step, UNIT_BYTES};
use crate::finding::{Found, PieceText, find_line};
use crate::handler::{EndedBy, LineHandler};
use pn_line::MAX_KEPT_BYTES;

impl<G: Drop, T: PieceText> LineEngine<G, T> {
    /// Takes the first line at hand, if it is whole, too long, or the last, unless no further line is answered.
    pub(super) fn read_line<M: LineHandler<Pending = G, Text = T>>(
        &mut self,
        machine: &mut M,
        bytes: &[u8],
        is_last: bool,
    ) -> Step
        requires ready { M.ready }
        requires reads { self.old.stage ≡ Reading 0 }
        requires made { self.old.left ≡ [] }
        ensures takes { Takes M.handling M.left bytes.now is_last machine.old machine.new (dropping 0 self.old) self.new (taken_by result) (units_by result) }
        ensures next { (replies : Vec ℕ Global) → StepsTo result replies self.new bytes.now is_last }
        ensures kept { M.keeps machine.old machine.new }
    {
        if machine.is_closed() {
            self.set_stage(Stage::Ended(LinesEnd::Closed));
            return Step::Went { taken: 0, units: 1 };
        }
        if self.is_full() && !bytes.is_empty() {
            self.set_stage(Stage::Ended(LinesEnd::TooManyLines));
            return Step::Went { taken: 0, units: 1 };
        }
        match find_line(bytes, is_last) {
            Found::Line(at) => self.ask_line(machine, bytes, is_last, at),
            Found::Last => self.ask_last(machine, bytes, is_last),
            Found::Long => self.begin_long(&*machine, bytes, is_last),
            Found::Part => Step::Waits(Next::Input),
        }
    }

    // Has the line of the first `at` bytes answered.
    fn ask_line<M: LineHandler<Pending = G, Text = T>>(
        &mut self,
        machine: &mut M,
        bytes: &[u8],
        is_last: bool,
        at: usize,
    ) -> Step
        requires ready { M.ready }
        requires made { self.old.left ≡ [] }
        requires ended { NewlineAt bytes.now at }
        requires short { at ≤ MAX_LINE_BYTES }
        requires few { self.old.counts.lines < self.old.most }
        ensures takes { Takes M.handling M.left bytes.now is_last machine.old machine.new (dropping 0 self.old) self.new (taken_by result) (units_by result) }
        ensures some { 0 < units_by result }
        ensures kept { M.keeps machine.old machine.new }
    {
        self.count_lines(1);
        let units = self.ask(machine, &bytes[..at], EndedBy::Newline);
        Step::Went {
            taken: at + 1,
            units: cost_of(at + 1) + units,
        }
    }

    // Has the last part answered.
    fn ask_last<M: LineHandler<Pending = G, Text = T>>(
        &mut self,
        machine: &mut M,
        bytes: &[u8],
        is_last: bool,
    ) -> Step
        requires ready { M.ready }
        requires made { self.old.left ≡ [] }
        requires last { is_last ≡ true }
        requires unbroken { IsUnbroken bytes.now }
        requires short { length bytes.now ≤ MAX_LINE_BYTES }
        requires few { (self.old.counts.lines < self.old.most) ⊎ (bytes.now ≡ []) }
        ensures takes { Takes M.handling M.left bytes.now is_last machine.old machine.new (dropping 0 self.old) self.new (taken_by result) (units_by result) }
        ensures some { 0 < units_by result }
        ensures kept { M.keeps machine.old machine.new }
    {
        self.count_lines(count_of(bytes));
        let units = self.ask(machine, bytes, EndedBy::Input);
        Step::Went {
            taken: bytes.len(),
            units: cost_of(bytes.len()) + units,
        }
    }

    // Drops the first bytes of a line that is too long.
    fn begin_long<M: LineHandler<Pending = G, Text = T>>(
        &mut self,
        _machine: &M,
        bytes: &[u8],
        is_last: bool,
    ) -> Step
        requires long { FindsLine bytes.now is_last Found.Long }
        requires few { self.old.counts.lines < self.old.most }
        ensures takes { Takes M.handling M.left bytes.now is_last _machine.now _machine.now (dropping 0 self.old) self.new (taken_by result) (units_by result) }
        ensures some { 0 < units_by result }
    {
        self.count_lines(1);
        self.set_stage(Stage::Reading(MAX_KEPT_BYTES));
        Step::Went {
            taken: MAX_KEPT_BYTES,
            units: cost_of(MAX_KEPT_BYTES),
        }
    }
}

// How many lines a last part counts for.
fn count_of(part: &[u8]) -> u64
    ensures { result ≡ counted EndedBy.Input part.now }
{
    if part.is_empty() {
        return 0;
    }
    1
}

/// How many units some bytes cost: at least one.
pub(super) fn cost_of(bytes: usize) -> u32
    requires { bytes ≤ 131072 }
    ensures enough { bytes < UNIT_BYTES * result }
    ensures few { result ≤ 129 }
    ensures least { UNIT_BYTES * result ≤ bytes + UNIT_BYTES }
{
    (bytes / UNIT_BYTES) as u32 + 1
}
