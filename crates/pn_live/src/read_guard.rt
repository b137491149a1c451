//! Read guards: a reader inside a live tablet.

ghost use Rattle.std.specs.Prelude.{◌≡◌, ◌+◌, ◌<◌, Some, MatchResult, OnErr, take, length};
ghost use mathlib.Core.List.{IsPrefix};
ghost use Rattle.left_right.specs.Sides.{view};
ghost use Rattle.pn_region.specs.Prelude.{IsSound};
ghost use Rattle.pn_live.specs.Attempts.{settled_of};
ghost use Rattle.pn_live.specs.Orders.{list_of};

use crate::publication_order::{PublishOrder, PublishPosition};
use crate::published_state::PublishedState;
use crate::reader_handle::ReaderHandle;
use left_right::reader::Reading;
use pn_region::recall_soundness;
use pn_tablet::{TabletOp, TabletState};
use std::snapshot::Snapshot;

/// A reader with the state that it found. It is not `Drop`: end it by `leave`.
pub struct ReadGuard {
    reading: Reading<PublishedState, Option<PublishedState>, PublishOrder>,
    pub learnt: PublishPosition<TabletOp>,
    pub found: Snapshot<PublishedState>,
    ghost viewed: { view reading.place ≡ Some found.value },
    ghost held: { reading.part.value ≡ found.value },
    ghost book: { found.value.position.seen.book ≡ learnt.seen.book },
}

impl ReadGuard {
    ghost use Rattle.pn_live.specs.Published.{seen_by, range_of, found_by};

    /// Stays inside where the state found extends all that the reader learnt, as in every run.
    /// Leaves exactly where the reader learnt of more than one attempt after that state.
    pub fn stay(
        reading: Reading<PublishedState, Option<PublishedState>, PublishOrder>,
        found: Snapshot<PublishedState>,
        learnt: PublishPosition<TabletOp>,
        seen: Snapshot<PublishedState>,
    ) -> Result<ReadGuard, ReaderHandle>
        requires viewed { view reading.place ≡ Some found.value }
        requires held { reading.part.value ≡ found.value }
        requires book { found.value.position.seen.book ≡ learnt.seen.book }
        requires range { found.value.state.range ≡ seen.value.state.range }
        requires goes_on { take (length (list_of seen.value)) (list_of found.value) ≡ list_of seen.value }
        requires begins { IsPrefix (list_of seen.value) (list_of found.value) }
        ensures answer { MatchResult result
            (λ guard. IsPrefix (list_of seen.value) (list_of guard.found.value) × IsPrefix (settled_of learnt.seen.log) (list_of guard.found.value)
            × (guard.learnt ≡ learnt) × (guard.found.value.state.range ≡ seen.value.state.range))
            (λ handle. (seen_by handle ≡ list_of seen.value) × (handle.learnt ≡ learnt) × (range_of handle ≡ seen.value.state.range)) }
        ensures far { OnErr result (length found.value.position.seen.log + 1 < length learnt.seen.log) }
    {
        let shown = reading.get();
        let near = learnt.is_within(&shown.position);
        if near {
            return Ok(ReadGuard {
                reading,
                learnt,
                found,
            });
        }
        let reader = reading.leave();
        Err(ReaderHandle {
            reader,
            learnt,
            seen,
            found,
        })
    }

    /// The state that was found.
    pub fn state(&self) -> &TabletState
        ensures found { result.now ≡ found_by self.now }
        ensures sound { IsSound result.now }
    {
        let state = &self.reading.get().state;
        recall_soundness(state);
        state
    }

    /// The position of the attempt that published the state.
    pub fn position(&self) -> &PublishPosition<TabletOp>
        ensures { result.now ≡ self.now.found.value.position }
    {
        &self.reading.get().position
    }

    /// Leaves the tablet. The state found counts as seen.
    pub fn leave(self) -> ReaderHandle
        ensures seen { seen_by result ≡ list_of self.found.value }
        ensures learnt { result.learnt ≡ self.learnt }
        ensures range { range_of result ≡ self.found.value.state.range }
    {
        let ReadGuard {
            reading,
            learnt,
            found,
        } = self;
        let seen = Snapshot::of(reading.get());
        let reader = reading.leave();
        ReaderHandle {
            reader,
            learnt,
            seen,
            found,
        }
    }
}
