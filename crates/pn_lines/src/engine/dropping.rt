//! How an engine drops lines that are too long.

ghost use Rattle.std.specs.Prelude.{◌≡◌, ◌⊎◌, ◌+◌, ◌≤◌, ◌<◌, [], ℕ, Vec, take, length, max};
ghost use Rattle.std.specs.declared.alloc.Global.{Global};
ghost use Rattle.pn_line.specs.declared.line_buffer.TheConstants.{ENDLESS, MAX_KEPT_BYTES};
ghost use Rattle.pn_line.specs.Line.{IsUnbroken};
ghost use Rattle.pn_lines.specs.Engines.{dropping, StepsTo, taken_by, units_by};
ghost use Rattle.pn_lines.specs.Standing.{Takes};

use crate::engine::reading::cost_of;
use crate::engine::state::{LinesEnd, Stage};
use crate::engine::{LineEngine, Next, Step};
use crate::finding::{PieceText, find_newline};
use crate::handler::{EndedBy, LineHandler, RefusesLong};
use pn_line::{ENDLESS, MAX_KEPT_BYTES};

impl<G: Drop, T: PieceText> LineEngine<G, T> {
    /// Drops more of a line that is too long, and has it refused at its end.
    pub(super) fn drop_line<M: RefusesLong<Pending = G, Text = T>>(
        &mut self,
        machine: &mut M,
        dropped: usize,
        bytes: &[u8],
        is_last: bool,
    ) -> Step
        requires ready { M.ready }
        requires some { 0 < dropped }
        requires made { self.old.left ≡ [] }
        ensures takes { Takes M.handling M.left bytes.now is_last machine.old machine.new (dropping dropped self.old) self.new
            (taken_by result) (units_by result) }
        ensures next { (replies : Vec ℕ Global) → StepsTo result replies self.new bytes.now is_last }
        ensures kept { M.keeps machine.old machine.new }
    {
        let most = ENDLESS.saturating_sub(dropped).min(MAX_KEPT_BYTES);
        let window = &bytes[..bytes.len().min(most)];
        match find_newline(window) {
            Some(at) => {
                self.refuse_long(machine, EndedBy::Newline);
                Step::Went {
                    taken: at + 1,
                    units: cost_of(at + 1),
                }
            }
            None if !bytes.is_empty() => self.drop_more(
                &*machine,
                dropped,
                bytes,
                is_last,
                window.len(),
            ),
            None if is_last => {
                self.refuse_long(machine, EndedBy::Input);
                Step::Went { taken: 0, units: 1 }
            }
            None => {
                self.set_stage(Stage::Reading(dropped));
                Step::Waits(Next::Input)
            }
        }
    }

    // Drops this number of bytes, up to the most that a line may have.
    fn drop_more<M: LineHandler<Pending = G, Text = T>>(
        &mut self,
        _machine: &M,
        dropped: usize,
        bytes: &[u8],
        is_last: bool,
        count: usize,
    ) -> Step
        requires some { 0 < dropped }
        requires within { count ≤ length bytes.now }
        requires few { count ≤ MAX_KEPT_BYTES }
        requires short { dropped + count ≤ max dropped ENDLESS }
        requires any { (0 < count) ⊎ (ENDLESS ≤ dropped) }
        requires unbroken { IsUnbroken (take count bytes.now) }
        ensures takes { Takes M.handling M.left bytes.now is_last _machine.now _machine.now (dropping dropped self.old) self.new
            (taken_by result) (units_by result) }
        ensures some { 0 < units_by result }
    {
        if dropped + count < ENDLESS {
            self.set_stage(Stage::Reading(dropped + count));
        } else {
            self.set_stage(Stage::Ended(LinesEnd::EndlessLine));
        }
        Step::Went {
            taken: count,
            units: cost_of(count),
        }
    }
}
