//! Attempts to publish the next state of a live tablet.

ghost use Rattle.std.specs.Prelude.{◌≡◌, ◌++◌, ◌∷◌, [], take, length, IfOk};
ghost use Rattle.pn_live.specs.Attempts.{settled_of, tried_of, counter_of};
ghost use Rattle.left_right.specs.Sides.{view};
ghost use Rattle.pn_live.specs.Published.{state_in};

use crate::attempt::{AddAttempt, Settling, Trying};
use crate::live_tablet::{LiveTablet, StateDraft};
use crate::publication_order::{AttemptCounter, PairWriter, PublishPosition, open_book};
use crate::published_state::PublishedState;
use core::mem::{replace, replace_with};
use pn_join::{Dup, NoMemory};
use pn_tablet::{Range, TabletOp, TabletState};
use std::alloc::Global;
use std::snapshot::Snapshot;
use std::sync::Wait;

// Records that one operation more is tried.
pub(super) fn begin_attempt<R: Wait>(
    rt: &R,
    counter: &AttemptCounter<TabletOp>,
    mut latest: PublishPosition<TabletOp>,
    operation: &TabletOp,
) -> PublishPosition<TabletOp>
    requires counter { counter.now ≡ counter_of latest.seen.book }
    requires goes_on { take (length (settled_of latest.seen.log)) (tried_of latest.seen.log) ≡ settled_of latest.seen.log }
    ensures book { result.seen.book ≡ latest.seen.book }
    ensures settled { settled_of result.seen.log ≡ settled_of latest.seen.log }
    ensures tried { tried_of result.seen.log ≡ settled_of latest.seen.log ++ operation.now ∷ [] }
{
    let trying = Trying {
        latest: latest.again(),
        operation: Snapshot::of(operation),
    };
    latest.append::<Trying<TabletOp>, AddAttempt, R>(rt, counter, &trying);
    latest
}

// Records that what was tried is published.
pub(super) fn end_attempt<R: Wait>(
    rt: &R,
    counter: &AttemptCounter<TabletOp>,
    mut latest: PublishPosition<TabletOp>,
) -> PublishPosition<TabletOp>
    requires counter { counter.now ≡ counter_of latest.seen.book }
    requires goes_on { take (length (settled_of latest.seen.log)) (tried_of latest.seen.log) ≡ settled_of latest.seen.log }
    ensures book { result.seen.book ≡ latest.seen.book }
    ensures settled { settled_of result.seen.log ≡ tried_of latest.seen.log }
    ensures tried { tried_of result.seen.log ≡ tried_of latest.seen.log }
{
    let settling = Settling {
        latest: latest.again(),
    };
    latest.append::<Settling<TabletOp>, AddAttempt, R>(rt, counter, &settling);
    latest
}

impl LiveTablet {
    /// A draft of the next state. It waits for readers that still read the spare state.
    pub fn draft<R: Wait>(&mut self, rt: &R, alloc: Global) -> Result<StateDraft, NoMemory>
        ensures draft { IfOk result (λ draft. draft ≡ state_in self.old) }
        ensures kept { (state_in self.new ≡ state_in self.old) × (self.new.settled ≡ self.old.settled) }
    {
        let range = self.state().range().dup()?;
        match self.lacks.take() {
            Some(lacks) => {
                let PublishedState {
                    state,
                    position: _position,
                } = take_spare(rt, &mut self.writer, blank_state(alloc, range));
                Ok(StateDraft::lacking(state, lacks))
            }
            None => Ok(StateDraft::of(self.state().dup()?)),
        }
    }
}

// An empty state with a book of its own, to stand in for a spare state that was taken.
fn blank_state(alloc: Global, range: Range) -> PublishedState {
    let (_counter, position): (AttemptCounter<TabletOp>, PublishPosition<TabletOp>) = open_book();
    let state = TabletState::new(alloc, range);
    PublishedState { state, position }
}

// Takes the spare state out, and puts another one there.
fn take_spare<R: Wait>(rt: &R, writer: &mut PairWriter, other: PublishedState) -> PublishedState
    ensures spare { result ≡ writer.old.desk.spare.value }
    ensures shown { (writer.new.desk.shown.value ≡ writer.old.desk.shown.value) × (view writer.new.desk.place ≡ view writer.old.desk.place) }
{
    replace_with(&mut writer.desk, rt, |desk, rt| {
        let (open, mut spare) = desk.open(rt);
        let state = replace(&mut *spare, other);
        (open.shelve(spare), state)
    })
}
