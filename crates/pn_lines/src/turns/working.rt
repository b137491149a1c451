//! The work of a turn: lines are taken that are at hand, and more is read once where none is.

ghost use Rattle.std.specs.Prelude.{◌≡◌, ◌≤◌, ◌+◌, ◌*◌, ◌⊎◌, ℕ, List, Option, length};
ghost use Rattle.pn_lines.specs.Turns.{Works, held_in, is_last as last_at, next_work, Worked, WorkedIn, at};
ghost use Rattle.pn_lines.specs.declared.engine.TheConstants.{MAX_STEP_UNITS};
ghost use Rattle.pn_lines.specs.declared.turns.buffers.TheConstants.{MAX_UNREAD};

use crate::engine::state::LinesEnd;
use crate::engine::{LineEngine, Next};
use crate::finding::PieceText;
use crate::handler::RefusesLong;
use crate::turns::SourceState;
use crate::turns::buffers::{Came, TurnBuffers};
use crate::turns::input::Input;
use crate::turns::sending::drop_first;

/// How many units of work a turn is allowed.
pub const TURN_UNITS: u32 = 64;

/// What the work of a turn came to.
#[derive(Clone, Copy, Debug, PartialEq, Eq)]
pub(crate) enum Work {
    /// There may be more to do at once.
    Turn,
    /// No input is at hand.
    Input,
    /// All was answered that is to be.
    Ended(LinesEnd),
    /// A read has failed.
    Failed,
}

/// Takes lines that are at hand, and reads once where no whole line is.
pub(super) fn take_lines<G: Drop, T: PieceText, M: RefusesLong<Pending = G, Text = T>, R: Input>(
    engine: &mut LineEngine<G, T>,
    source: &mut SourceState,
    buffers: &mut TurnBuffers,
    machine: &mut M,
    input: &mut R,
) -> Work
    requires ready { M.ready }
    requires few { length buffers.old.input ≤ MAX_UNREAD }
    ensures works { (written : Option (List ℕ)) → WorkedIn M.handling M.left TURN_UNITS (TURN_UNITS + 2 * MAX_STEP_UNITS)
        (at (R.remaining input.old) written machine.old (held_in engine.old buffers.old source.old))
        (at (R.remaining input.new) written machine.new (held_in engine.new buffers.new source.new)) result }
    ensures few { length buffers.new.input ≤ MAX_UNREAD }
    ensures failed { source.new ≡ SourceState.Failed → (source.old ≡ SourceState.Failed) ⊎ R.has_failed input.new }
    ensures kept { M.keeps machine.old machine.new }
{
    let (first, units) = work_on(engine, *source, buffers, machine, TURN_UNITS);
    match first {
        Work::Input => {
            let rest = TURN_UNITS.saturating_sub(units);
            read_on(engine, source, buffers, machine, input, rest)
        }
        first => first,
    }
}

// Reads once where no whole line is at hand, and takes lines.
fn read_on<G: Drop, T: PieceText, M: RefusesLong<Pending = G, Text = T>, R: Input>(
    engine: &mut LineEngine<G, T>,
    source: &mut SourceState,
    buffers: &mut TurnBuffers,
    machine: &mut M,
    input: &mut R,
    units: u32,
) -> Work
    requires ready { M.ready }
    requires few { units ≤ TURN_UNITS }
    requires wants { Works (held_in engine.old buffers.old source.old) Work.Input }
    ensures works { (written : Option (List ℕ)) → WorkedIn M.handling M.left units (units + MAX_STEP_UNITS)
        (at (R.remaining input.old) written machine.old (held_in engine.old buffers.old source.old))
        (at (R.remaining input.new) written machine.new (held_in engine.new buffers.new source.new)) result }
    ensures few { length buffers.new.input ≤ MAX_UNREAD }
    ensures failed { source.new ≡ SourceState.Failed → R.has_failed input.new }
    ensures kept { M.keeps machine.old machine.new }
{
    match buffers.read_from(input) {
        Came::Input { is_all } => {
            let (worked, _) = work_on(engine, *source, buffers, machine, units);
            turn_unless(is_all, worked)
        }
        Came::End => {
            *source = SourceState::AtEnd;
            let (worked, _) = work_on(engine, *source, buffers, machine, units);
            worked
        }
        Came::Nothing => Work::Input,
        Came::Fault => {
            *source = SourceState::Failed;
            Work::Failed
        }
    }
}

// Where a read did not bring all that is at hand, there is more to do.
fn turn_unless(is_all: bool, worked: Work) -> Work
    ensures { (result ≡ worked) ⊎ (result ≡ Work.Turn) }
{
    match worked {
        Work::Input if !is_all => Work::Turn,
        worked => worked,
    }
}

// Takes lines that are at hand. How many units that took.
fn work_on<G: Drop, T: PieceText, M: RefusesLong<Pending = G, Text = T>>(
    engine: &mut LineEngine<G, T>,
    source: SourceState,
    buffers: &mut TurnBuffers,
    machine: &mut M,
    units: u32,
) -> (Work, u32)
    requires ready { M.ready }
    requires few { units ≤ TURN_UNITS }
    ensures works { (left written : Option (List ℕ)) → Worked M.handling M.left units result.1 0
        (at left written machine.old (held_in engine.old buffers.old source)) (at left written machine.new (held_in engine.new buffers.new source)) result.0 }
    ensures spent { result.1 ≤ units + MAX_STEP_UNITS }
    ensures less { length buffers.new.input ≤ length buffers.old.input }
    ensures kept { M.keeps machine.old machine.new }
{
    let last = is_last(source);
    let progress = engine.go_on(machine, &buffers.input, last, &mut buffers.replies, units);
    drop_first(&mut buffers.input, progress.taken);
    (work_at(progress.next, source), progress.units)
}

// Whether nothing comes after what came.
fn is_last(source: SourceState) -> bool
    ensures { result ≡ last_at source }
{
    match source {
        SourceState::AtEnd => true,
        SourceState::Open | SourceState::Failed => false,
    }
}

// What there is to do next.
fn work_at(next: Next, source: SourceState) -> Work
    ensures { result ≡ next_work next source }
{
    match next {
        Next::Input => match source {
            SourceState::Failed => Work::Failed,
            SourceState::Open | SourceState::AtEnd => Work::Input,
        },
        Next::Room | Next::Turn => Work::Turn,
        Next::End(end) => Work::Ended(end),
    }
}
