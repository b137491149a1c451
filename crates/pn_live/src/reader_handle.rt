//! Reader handles: a reader's end of a live tablet.

ghost use Rattle.std.specs.Prelude.{◌≡◌, Some, MatchResult, take, length};
ghost use mathlib.Core.List.{IsPrefix};
ghost use Rattle.left_right.specs.Sides.{view};
ghost use Rattle.pn_live.specs.Attempts.{settled_of};
ghost use Rattle.pn_live.specs.Orders.{list_of, IsLater};
ghost use Rattle.pn_live.specs.Readers.{longer_of};

use crate::publication_order::{ExtendsSeen, PairReader, PublishOrder, PublishPosition};
use crate::published_state::PublishedState;
use crate::read_guard::ReadGuard;
use left_right::reader::Reading;
use pn_tablet::TabletOp;
use std::snapshot::Snapshot;

/// A reader of one tablet, outside of it: the history that it learnt, the state answered last, and the state
/// entered last.
#[derive(Drop)]
pub struct ReaderHandle {
    pub reader: PairReader,
    pub learnt: PublishPosition<TabletOp>,
    pub seen: Snapshot<PublishedState>,
    pub found: Snapshot<PublishedState>,
    ghost viewed: { view reader.place ≡ Some found.value },
    ghost book: { found.value.position.seen.book ≡ learnt.seen.book },
    ghost range: { found.value.state.range ≡ seen.value.state.range },
    ghost goes_on: { take (length (list_of seen.value)) (list_of found.value) ≡ list_of seen.value },
}

// Enters, and finds a state that extends the one found before.
fn find(
    reader: PairReader,
    before: &Snapshot<PublishedState>,
) -> Result<
    (
        Reading<PublishedState, Option<PublishedState>, PublishOrder>,
        Snapshot<PublishedState>,
    ),
    PairReader,
>
    requires { view reader.place ≡ Some before.now.value }
    ensures { MatchResult result
        (λ found. IsLater before.now.value found.1.value × (view found.0.place ≡ Some found.1.value) × (found.0.part.value ≡ found.1.value))
        (λ back. view back.place ≡ view reader.place) }
{
    match reader.enter_as::<ExtendsSeen>() {
        Ok(reading) => {
            let now = Snapshot::of(reading.get());
            Ok((reading, now))
        }
        Err(reader) => Err(reader),
    }
}

impl ReaderHandle {
    ghost use Rattle.pn_live.specs.Published.{seen_by, learnt_by, range_of};

    /// Enters the tablet, and finds a state that extends all that this reader saw and learnt. The handle comes
    /// back as it was where the entry is refused.
    #[tactic(auto, using(crate::proofs::Prefixes::begins_later, crate::proofs::Prefixes::still_on))]
    pub fn enter(self) -> Result<ReadGuard, ReaderHandle>
        ensures answer { MatchResult result
            (λ guard. IsPrefix (seen_by self) (list_of guard.found.value) × IsPrefix (learnt_by self) (list_of guard.found.value)
            × (guard.learnt ≡ self.learnt) × (guard.found.value.state.range ≡ range_of self))
            (λ handle. (seen_by handle ≡ seen_by self) × (handle.learnt ≡ self.learnt) × (range_of handle ≡ range_of self)) }
    {
        let ReaderHandle {
            reader,
            learnt,
            seen,
            found,
        } = self;
        match find(reader, &found) {
            Ok((reading, now)) => ReadGuard::stay(reading, now, learnt, seen),
            Err(reader) => Err(ReaderHandle {
                reader,
                learnt,
                seen,
                found,
            }),
        }
    }

    /// Learns a position: the later one of both is kept.
    pub fn learn(&mut self, note: PublishPosition<TabletOp>)
        requires { note.seen.book ≡ self.old.learnt.seen.book }
        ensures longer { learnt_by self.new ≡ longer_of (learnt_by self.old) (settled_of note.seen.log) }
        ensures learnt { IsPrefix (learnt_by self.old) (learnt_by self.new) }
        ensures note { IsPrefix (settled_of note.seen.log) (learnt_by self.new) }
        ensures seen { self.new.seen ≡ self.old.seen }
        ensures book { self.new.learnt.seen.book ≡ self.old.learnt.seen.book }
    {
        let later = self.learnt.later(&note);
        self.learnt = later;
    }
}
