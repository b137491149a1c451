//! States that no reader has, which are changed before they are published.

ghost use Rattle.std.specs.Prelude.{◌≡◌, None, Ok, IfOk, IfErr, IfSome, OnOk, OnErr};
ghost use Rattle.pn_apply.specs.Applying.{IsJoinIn};
ghost use Rattle.pn_live.specs.Attempts.{TakesJoin, caught_up};
ghost use Rattle.pn_tablet.specs.Prelude.{HasPositions, Refuses, step, answer};
ghost use Rattle.pn_tablet.specs.Steps.{is_memory, tablet_after};

use pn_apply::Slot;
use pn_join::NoMemory;
use pn_tablet::{Change, OpFault, TabletOp, TabletState};
use std::marker::Model;

/// A state that no reader has. It may still lack the last join, which it takes before its next operation.
#[derive(Drop)]
pub struct StateDraft {
    state: TabletState,
    lacks: Option<TabletOp>,
}

impl Model for StateDraft {
    ghost use Rattle.std.specs.Prelude.{IfSome};
    ghost use Rattle.pn_live.specs.Attempts.{TakesJoin, caught_up};
    ghost use Rattle.pn_tablet.specs.Tablets.{TabletStateValue};

    ghost Value = { TabletStateValue };

    ghost use Rattle.pn_tablet.specs.Proofs.{tablet_code};

    ghost coded = { tablet_code };

    ghost view = { λ draft. caught_up draft.state draft.lacks };

    ghost invariant = { λ draft. IfSome draft.lacks (λ join. TakesJoin draft.state join) };
}

impl StateDraft {
    /// The draft of a state that lacks nothing.
    pub fn of(state: TabletState) -> StateDraft
        ensures { result ≡ state }
    {
        StateDraft { state, lacks: None }
    }

    /// The draft of what a join makes of a state.
    pub fn lacking(state: TabletState, join: TabletOp) -> StateDraft
        requires join { IsJoinIn state join }
        requires positions { HasPositions join }
        ensures { result ≡ tablet_after state join }
    {
        StateDraft {
            state,
            lacks: Some(join),
        }
    }

    /// The state.
    pub fn into_state(self) -> Result<TabletState, NoMemory>
        ensures { IfOk result (λ state. state ≡ self) }
    {
        let StateDraft { state, lacks } = self;
        match lacks {
            None => Ok(state),
            Some(join) => Ok(take_join(state, &join)?),
        }
    }
}

impl Slot for StateDraft {
    ghost tablet = { λ draft. draft };

    fn apply(&mut self, op: &TabletOp) -> Result<Vec<Change>, OpFault> {
        apply_to(&mut self.state, &mut self.lacks, op)
    }

    fn count_waiting(&self) -> usize {
        match &self.lacks {
            Some(TabletOp::Join { cells, .. }) => cells.len(),
            _ => 0,
        }
    }
}

// What a join makes of a state.
fn take_join(state: TabletState, join: &TabletOp) -> Result<TabletState, NoMemory>
    requires { TakesJoin state join.now }
    ensures { IfOk result (λ after. after ≡ tablet_after state join.now) }
{
    let mut state = state;
    match state.apply(join) {
        Ok(_changes) => Ok(state),
        Err(_) => Err(NoMemory),
    }
}

// Applies an operation to a state that may lack a join.
fn apply_to(
    state: &mut TabletState,
    lacks: &mut Option<TabletOp>,
    op: &TabletOp,
) -> Result<Vec<Change>, OpFault>
    requires takes { IfSome lacks.old (λ join. TakesJoin state.old join) }
    requires positions { HasPositions op.now }
    ensures ok { OnOk result (step (caught_up state.old lacks.old) op.now ≡ Ok (caught_up state.new lacks.new)) }
    ensures changes { IfOk result (λ list. list.items ≡ answer op.now (caught_up state.old lacks.old) (caught_up state.new lacks.new)) }
    ensures refused { IfErr result (λ fault. Refuses is_memory fault (step (caught_up state.old lacks.old) op.now)) }
    ensures err { OnErr result (caught_up state.new lacks.new ≡ caught_up state.old lacks.old) }
    ensures takes { IfSome lacks.new (λ join. TakesJoin state.new join) }
{
    match lacks.take() {
        None => state.apply(op),
        Some(join) => apply_both(state, lacks, join, op),
    }
}

// Applies a join that a state lacks, and an operation. Where memory runs out for the join, the state still lacks it.
fn apply_both(
    state: &mut TabletState,
    lacks: &mut Option<TabletOp>,
    join: TabletOp,
    op: &TabletOp,
) -> Result<Vec<Change>, OpFault>
    requires none { lacks.old ≡ None }
    requires takes { TakesJoin state.old join }
    requires positions { HasPositions op.now }
    ensures ok { OnOk result (step (tablet_after state.old join) op.now ≡ Ok (caught_up state.new lacks.new)) }
    ensures changes { IfOk result (λ list. list.items ≡ answer op.now (tablet_after state.old join) (caught_up state.new lacks.new)) }
    ensures refused { IfErr result (λ fault. Refuses is_memory fault (step (tablet_after state.old join) op.now)) }
    ensures err { OnErr result (caught_up state.new lacks.new ≡ tablet_after state.old join) }
    ensures takes { IfSome lacks.new (λ join. TakesJoin state.new join) }
{
    match state.apply(&join) {
        Ok(_changes) => state.apply(op),
        Err(_) => {
            let fault = state.refusal(op).unwrap_or(OpFault::Memory);
            *lacks = Some(join);
            Err(fault)
        }
    }
}
