//! The writer's end of a live tablet.

ghost use Rattle.std.specs.Prelude.{◌≡◌, ◌++◌, ◌∷◌, [], ◌^◌, ◌<◌, Ok, IfOk, IfSome, Some, take, length};
ghost use Rattle.left_right.specs.Sides.{view};
ghost use Rattle.pn_tablet.specs.Prelude.{HasPositions, step, TabletStateValue, empty_tablet};
ghost use Rattle.pn_live.specs.Attempts.{settled_of, tried_of, counter_of, Lacks};
ghost use Rattle.pn_live.specs.Orders.{list_of, IsLater};
ghost use Rattle.pn_live.specs.Proofs.{draft_props};

mod attempts;
mod closing;
mod state_draft;

use crate::publication_order::{
    AttemptCounter, ExtendsSeen, PairWriter, PublishPosition, SharesView, open_book,
};
use crate::published_state::PublishedState;
use crate::reader_handle::ReaderHandle;
use attempts::{begin_attempt, end_attempt};
use core::mem::replace_with;
use left_right::writer::Writer;
use pn_join::{Dup, NoMemory};
use pn_tablet::{Range, TabletOp, TabletState};
pub use state_draft::StateDraft;
use std::alloc::Global;
use std::snapshot::Snapshot;
use std::sync::Wait;

/// A live tablet: the pair of states that readers read from, and the book of the attempts to publish.
pub struct LiveTablet {
    pub writer: PairWriter,
    counter: AttemptCounter<TabletOp>,
    // The position of the last attempt.
    latest: PublishPosition<TabletOp>,
    // The position when the last publication had ended.
    pub settled: PublishPosition<TabletOp>,
    // The join that the pair's spare state lacks. Without one that state is of no use.
    lacks: Option<TabletOp>,
    ghost counter_is: { counter ≡ counter_of latest.seen.book },
    ghost books: { (settled.seen.book ≡ latest.seen.book) × (writer.desk.shown.value.position.seen.book ≡ latest.seen.book) },
    ghost viewed: { view writer.desk.place ≡ Some writer.desk.shown.value },
    ghost lacking: { IfSome lacks (λ join. Lacks writer.desk.spare.value.state join writer.desk.shown.value.state) } by { Prim.hlevel draft_props },
    ghost lists: { (settled_of settled.seen.log ≡ settled_of latest.seen.log) × (list_of writer.desk.shown.value ≡ settled_of latest.seen.log) },
    ghost goes_on: { take (length (settled_of latest.seen.log)) (tried_of latest.seen.log) ≡ settled_of latest.seen.log },
}

// Readers find the next state from now on. It waits for readers that still read the spare state.
fn show<R: Wait>(rt: &R, writer: &mut PairWriter, next: PublishedState)
    requires { IsLater writer.old.desk.shown.value next }
    ensures shown { (writer.new.desk.shown.value ≡ next) × (view writer.new.desk.place ≡ Some next) }
    ensures spare { writer.new.desk.spare.value ≡ writer.old.desk.shown.value }
{
    replace_with(
        &mut writer.desk,
        rt,
        |desk, rt|
            requires { IsLater desk.shown.value next }
            ensures values { (result.0.shown.value ≡ next) × (result.0.spare.value ≡ desk.shown.value) }
            ensures place { view result.0.place ≡ Some next }
        {
            let (open, mut spare) = desk.open(rt);
            *spare = next;
            (open.show_as::<ExtendsSeen>(spare), ())
        },
    )
}

impl LiveTablet {
    ghost use Rattle.pn_live.specs.Published.{published_ops, state_in, seen_by, learnt_by, IsReaderOf};

    /// Opens an empty tablet of the range, with capacity for `readers` readers. It has no reader to wait for.
    pub fn open<R: Wait>(
        rt: &R,
        alloc: Global,
        range: Range,
        readers: usize,
    ) -> Result<LiveTablet, NoMemory>
        requires { (0 < readers) × (readers < 2 ^ 32) }
        ensures { IfOk result (λ tablet. (state_in tablet ≡ empty_tablet range) × (published_ops tablet ≡ [])) }
    {
        let (counter, latest) = open_book();
        let empty = first_state(TabletState::new(alloc, range), &latest);
        let writer = pair_of(rt, alloc, empty, readers)?;
        let settled = latest.again();
        Ok(LiveTablet {
            writer,
            counter,
            latest,
            settled,
            lacks: None,
        })
    }

    /// Publishes the state that the operation makes of this one. It waits for readers that still read the
    /// spare state.
    pub fn publish<R: Wait>(&mut self, rt: &R, next: TabletState, operation: TabletOp)
        requires positions { HasPositions operation }
        requires next { step (state_in self.old) operation ≡ Ok next }
        ensures state { state_in self.new ≡ next }
        ensures list { published_ops self.new ≡ published_ops self.old ++ operation ∷ [] }
        ensures book { self.new.settled.seen.book ≡ self.old.settled.seen.book }
    {
        replace_with(
            self,
            rt,
            |tablet, rt| (tablet.with_next(rt, next, operation), ()),
        )
    }

    fn with_next<R: Wait>(self, rt: &R, next: TabletState, operation: TabletOp) -> LiveTablet
        requires positions { HasPositions operation }
        requires next { step (state_in self) operation ≡ Ok next }
        ensures state { state_in result ≡ next }
        ensures list { published_ops result ≡ published_ops self ++ operation ∷ [] }
        ensures book { result.settled.seen.book ≡ self.settled.seen.book }
    {
        let LiveTablet {
            mut writer,
            counter,
            latest,
            settled: _settled,
            lacks: _lacks,
        } = self;
        let latest = begin_attempt(rt, &counter, latest, &operation);
        let position = latest.again();
        let shown = PublishedState {
            state: next,
            position,
        };
        show(rt, &mut writer, shown);
        let latest = end_attempt(rt, &counter, latest);
        let settled = latest.again();
        LiveTablet {
            writer,
            counter,
            latest,
            settled,
            lacks: join_of(operation),
        }
    }

    /// A new reader, which has seen and learnt what is published. `None` when there are as many as it has capacity for.
    pub fn new_reader(&mut self) -> Option<ReaderHandle>
        ensures reader { IfSome result (λ handle. IsReaderOf self.new handle) }
        ensures seen { IfSome result (λ handle. (seen_by handle ≡ published_ops self.old) × (learnt_by handle ≡ published_ops self.old)) }
        ensures kept { (state_in self.new ≡ state_in self.old) × (self.new.settled ≡ self.old.settled) }
    {
        let factory = self.writer.factory();
        let mut reader = factory.reader().ok()?;
        let note = self.writer.desk.tell::<SharesView>();
        reader.learn::<SharesView>(note);
        let learnt = self.settled.again();
        let shown = self.writer.published();
        let seen = Snapshot::of(shown);
        let found = Snapshot::of(shown);
        Some(ReaderHandle {
            reader,
            learnt,
            seen,
            found,
        })
    }

    /// The published state.
    pub fn state(&self) -> &TabletState
        ensures { result.now ≡ state_in self.now }
    {
        &self.writer.published().state
    }

    /// The position of what is published.
    pub fn position(&self) -> PublishPosition<TabletOp>
        ensures { result ≡ self.now.settled }
    {
        self.settled.again()
    }
}

// An empty tablet's state, to be shown at first.
fn first_state(state: TabletState, position: &PublishPosition<TabletOp>) -> PublishedState
    requires empty { state ≡ empty_tablet state.range }
    requires none { position.now.seen.log ≡ [] }
    ensures { (result.state ≡ state) × (result.position ≡ position.now) }
{
    let position = position.again();
    PublishedState { state, position }
}

// A pair that shows the state, with capacity for `readers` readers.
fn pair_of<R: Wait>(
    rt: &R,
    alloc: Global,
    shown: PublishedState,
    readers: usize,
) -> Result<PairWriter, NoMemory>
    requires { (0 < readers) × (readers < 2 ^ 32) }
    ensures { IfOk result (λ writer. (writer.desk.shown.value ≡ shown) × (view writer.desk.place ≡ Some shown)) }
{
    let first = shown.dup()?;
    let second = shown.dup()?;
    let mut writer: PairWriter = Writer::new(alloc, first, second, readers)?;
    // (the pair's rule knows a tablet once a state is published)
    show(rt, &mut writer, shown);
    Ok(writer)
}

// The join that the state before the operation lacks. Other operations leave a state of no use.
fn join_of(operation: TabletOp) -> Option<TabletOp>
    requires { HasPositions operation }
    ensures { (old new : TabletStateValue) → step old operation ≡ Ok new → IfSome result (λ join. Lacks old join new) }
{
    match operation {
        TabletOp::Join { cells, marks } => Some(TabletOp::Join { cells, marks }),
        _ => None,
    }
}
