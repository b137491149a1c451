//! The parts of a tablet.

ghost use Rattle.std.specs.Prelude.{◌≡◌, IsTrue, IfOk};
ghost use Rattle.pn_record.specs.Prelude.{spell, table_of};
ghost use Rattle.pn_join.specs.Prelude.{Reaches, are_positions};
ghost use Rattle.pn_tablet.specs.Tablets.{counts_of, needed, lie_in};
ghost use Rattle.pn_tablet.specs.declared.state.Status.TheVariants.{Serving};

use super::{Status, TabletState};
use crate::counted_cells::CountedCells;
use crate::coverage::Coverage;
use crate::{Range, RecordCounts};
use pn_join::{Dup, Marks, NoMemory};
use pn_record::Records;
use std::alloc::Global;

impl TabletState {
    /// A tablet that serves with these cells, whose keys lie in the range, this cover, and this reach, which reaches the
    /// cover. All positions are from 1 to 10^15.
    pub fn of_parts(
        alloc: Global,
        range: Range,
        cells: Records,
        cover: Marks,
        reach: Marks,
    ) -> Result<TabletState, NoMemory>
        requires inside { IsTrue (lie_in range cells) }
        requires reached { Reaches reach cover }
        requires positions { IsTrue (are_positions cover) }
        requires reach_positions { IsTrue (are_positions reach) }
        ensures { IfOk result (λ tablet. tablet ≡ record { range = range; cells = cells; cover = cover; reach = reach; status = Serving }) }
    {
        cells.recall_table();
        let spare = reach.dup()?;
        Ok(TabletState {
            range,
            cells: CountedCells::of(cells),
            coverage: Coverage::of_parts(cover, reach),
            status: Status::Serving,
            spare: Some(spare),
            alloc,
        })
    }

    /// The range of its keys.
    pub fn range(&self) -> &Range
        ensures range { result.now ≡ self.now.range }
        ensures inside { IsTrue (lie_in self.now.range self.now.cells) }
    {
        &self.range
    }

    /// The cells of its records, by key.
    pub fn cells(&self) -> &Records
        ensures cells { result.now ≡ self.now.cells }
        ensures spelled { self.now.cells ≡ table_of (spell self.now.cells) }
    {
        self.cells.records()
    }

    /// How many records it has, and how many deleted ones it keeps. Both are kept, so no record is looked at.
    pub fn counts(&self) -> RecordCounts
        ensures { result ≡ counts_of self.now.cells }
    {
        self.cells.counts()
    }

    /// The positions up to which all cells took streams.
    pub fn cover(&self) -> &Marks
        ensures cover { result.now ≡ self.now.cover }
        ensures positions { IsTrue (are_positions self.now.cover) }
    {
        self.coverage.cover()
    }

    /// The positions up to which any cells took streams, nowhere less than the cover.
    pub fn reach(&self) -> &Marks
        ensures reach { result.now ≡ self.now.reach }
        ensures positions { IsTrue (are_positions self.now.reach) }
        ensures reached { Reaches self.now.reach self.now.cover }
    {
        self.coverage.reach()
    }

    /// Whether the tablet serves, or what it needs in order to.
    pub fn status(&self) -> &Status
        ensures status { result.now ≡ self.now.status }
        ensures positions { IsTrue (are_positions (needed self.now.status)) }
    {
        &self.status
    }
}
