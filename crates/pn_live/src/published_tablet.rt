//! A live tablet's published states.

ghost use Rattle.std.specs.Prelude.{◌≡◌, ◌≤◌, ◌<◌, ◌^◌, ◌++◌, ◌∷◌, [], length, Ok, IfOk, IfSome, IsTrue, IsOk, option_map};
ghost use Rattle.pn_tablet.specs.Prelude.{tablet_ends, HasPositions, step, need_shortfall};
ghost use Rattle.pn_live.specs.Readers.{IsOfTablet, KnowsPublished, new_reader_of};
ghost use Rattle.pn_live.specs.PublishedTablets.{IsNewTablet, state_at, with_op, note_of};
ghost use Rattle.pn_live.specs.LiveRegions.{too_old};

use crate::front::TabletNote;
use crate::live_tablet::{LiveTablet, StateDraft};
use crate::publication_order::PublicationOrder;
use crate::tablet_reader::TabletReader;
use pn_join::{Dup, Marks, NoMemory};
use pn_region::{AdoptFault, Covered};
use pn_tablet::{Layout, Range, TabletOp, TabletState};
use std::alloc::Global;
use std::marker::Model;
use std::sync::Wait;

/// A live tablet of a region. It is not `Drop`: end it by `close`.
pub struct PublishedTablet {
    live: LiveTablet,
}

impl Model for PublishedTablet {
    ghost use Rattle.std.specs.Prelude.{◌≡◌};
    ghost use Rattle.pn_tablet.specs.Prelude.{state_of};
    ghost use Rattle.pn_live.specs.PublishedTablets.{PublishedTabletValue};
    ghost use Rattle.pn_live.specs.Published.{published_ops, state_in};

    ghost Value = { PublishedTabletValue };

    ghost use Rattle.pn_live.specs.Proofs.{published_tablet_code};

    ghost coded = { published_tablet_code };

    ghost view = { λ tablet. record { book = tablet.live.settled.seen.book; range = (state_in tablet.live).range; list = published_ops tablet.live } };

    ghost invariant = { λ tablet. state_in tablet.live ≡ state_of (state_in tablet.live).range (published_ops tablet.live) };
}

impl PublishedTablet {
    /// An empty tablet of the layout's range of this number, with capacity for `readers` readers.
    pub fn open<R: Wait>(
        rt: &R,
        alloc: Global,
        layout: &Layout,
        number: usize,
        readers: usize,
    ) -> Result<PublishedTablet, NoMemory>
        requires number { number ≤ length layout.now }
        requires readers { (0 < readers) × (readers < 2 ^ 32) }
        ensures { IfOk result (λ tablet. IsNewTablet (tablet_ends layout.now number) tablet) }
    {
        let range = layout.range_of(number)?;
        let live = LiveTablet::open(rt, alloc, range, readers)?;
        Ok(PublishedTablet { live })
    }

    /// A draft of the next state. It waits for readers that still read the spare state.
    pub fn draft<R: Wait>(&mut self, rt: &R, alloc: Global) -> Result<StateDraft, NoMemory>
        ensures draft { IfOk result (λ draft. draft ≡ state_at self.old) }
        ensures same { self.new ≡ self.old }
    {
        self.live.draft(rt, alloc)
    }

    /// Publishes the state that the operation makes of this one, and adds the tablet to the order.
    pub fn publish<R: Wait>(
        &mut self,
        rt: &R,
        next: TabletState,
        operation: TabletOp,
        order: &mut PublicationOrder,
    )
        requires positions { HasPositions operation }
        requires next { step (state_at self.old) operation ≡ Ok next }
        ensures list { self.new ≡ with_op self.old operation }
        ensures order { order.new ≡ order.old ++ self.old.book ∷ [] }
    {
        self.live.publish(rt, next, operation);
        order.add(&self.live.position());
    }

    /// The state of what is published.
    pub fn state(&self) -> &TabletState
        ensures { result.now ≡ state_at self.now }
    {
        self.live.state()
    }

    /// A note of what is published.
    pub fn note(&self) -> TabletNote
        ensures { result ≡ note_of self.now }
    {
        TabletNote::of(self.live.position())
    }

    /// A new reader, which has seen and learnt what is published. `None` when there are as many as it has capacity for.
    pub fn new_reader(&mut self) -> Option<TabletReader>
        ensures reader { IfSome result (λ reader. reader ≡ new_reader_of self.old) }
        ensures same { self.new ≡ self.old }
    {
        let handle = self.live.new_reader()?;
        Some(TabletReader::of(handle))
    }

    /// Enters once more; true where it found the latest state, which extends all that the reader saw and
    /// learnt.
    pub fn was_all_seen(&self, reader: TabletReader) -> bool
        requires { IsOfTablet self.now reader }
        ensures { IsTrue result → KnowsPublished self.now reader }
    {
        let (_handle, is_last) = self.live.last_look(reader.into_handle());
        is_last
    }

    /// Takes the state out. It waits for readers that are reading.
    pub fn close<R: Wait>(self, rt: &R) -> TabletState
        ensures { result ≡ state_at self }
    {
        let PublishedTablet { live } = self;
        live.close(rt)
    }
}

impl Covered for PublishedTablet {
    ghost tablet = { state_at };

    fn cover(&self) -> &Marks {
        self.live.state().cover()
    }
}

impl PublishedTablet {
    /// The range of its keys.
    pub fn range(&self) -> &Range
        ensures { result.now ≡ self.now.range }
    {
        self.live.state().range()
    }

    /// The state that an operation makes of its own, which does not refuse it.
    pub fn after(&self, operation: &TabletOp) -> Result<TabletState, NoMemory>
        requires positions { HasPositions operation.now }
        requires taken { IsOk (step (state_at self.now) operation.now) }
        ensures { IfOk result (λ next. step (state_at self.now) operation.now ≡ Ok next) }
    {
        let mut state = self.live.state().dup()?;
        if state.apply(operation).is_err() {
            return Err(NoMemory);
        }
        Ok(state)
    }

    /// Why a copy with these marks is too old: the first stream at which they fall short of what the tablet
    /// needs.
    pub fn refusal(&self, marks: &Marks) -> Option<AdoptFault>
        ensures { result ≡ option_map too_old (need_shortfall (state_at self.now).status marks.now) }
    {
        let short = self.live.state().need_shortfall(marks)?;
        Some(AdoptFault::TooOld {
            stream: short.stream,
            has: short.has,
            needs: short.wanted,
        })
    }
}
