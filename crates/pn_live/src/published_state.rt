//! What readers of a live tablet find.

ghost use Rattle.std.specs.Prelude.{◌≡◌, IfOk};
ghost use Rattle.pn_tablet.specs.Prelude.{state_of};
ghost use Rattle.pn_live.specs.Attempts.{tried_of};

use crate::publication_order::PublishPosition;
use left_right::Absorb;
use pn_join::{Dup, NoMemory};
use pn_tablet::{TabletOp, TabletState};
use std::alloc::AllocError;

/// A state of a tablet, with the attempt that published it: the state is that of the list which the attempt
/// tries.
#[derive(Drop)]
pub struct PublishedState {
    pub state: TabletState,
    pub position: PublishPosition<TabletOp>,
    ghost replayed: { state ≡ state_of state.range (tried_of position.seen.log) },
}

impl Dup for PublishedState {
    fn dup(&self) -> Result<PublishedState, NoMemory>
        ensures { IfOk result (λ copy. copy ≡ self.now) }
    {
        let state = self.state.dup()?;
        let position = self.position.again();
        Ok(PublishedState { state, position })
    }
}

/// The pair's own log of operations is not used, since the writer replaces whole states.
#[derive(Drop)]
pub struct NoOperation;

impl Absorb<NoOperation> for PublishedState {
    type State = ();

    ghost state = { λ shown. tt };

    ghost applied = { λ state operation. state };

    fn absorb_first(
        &mut self,
        _operation: &NoOperation,
        _other: &PublishedState,
    ) -> Result<(), AllocError> {
        Ok(())
    }
}
