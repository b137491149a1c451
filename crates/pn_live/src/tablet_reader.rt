//! Tablet readers: what a reader of a live region has of each tablet.

ghost use Rattle.std.specs.Prelude.{◌≡◌, ◌≤◌, max, MatchResult, Option, IfOk};
ghost use Rattle.pn_tablet.specs.Prelude.{TabletStateValue};
ghost use Rattle.pn_scan.specs.Paging.{spent_in};
ghost use Rattle.pn_scan.specs.Prelude.{rows_at, cell_at, part_at};
ghost use Rattle.pn_scan.specs.declared.walk.TheConstants.{MAX_PART_WORK};
ghost use Rattle.pn_live.specs.Lookups.{IsOneCopy, IsOneCount};
ghost use Rattle.pn_live.specs.Readers.{IsOneLook, left_by, Finds, Learns};
ghost use Rattle.pn_live.specs.Published.{seen_by, learnt_by, range_of, found_by};

use crate::front::TabletNote;
use crate::read_guard::ReadGuard;
use crate::reader_handle::ReaderHandle;
use core::mem::replace_with;
use pn_join::Marks;
use pn_record::{Cell, Key};
use pn_scan::{Budget, PartResult, Query, ScanFault, cell_of, part_of};
use pn_tablet::{CopyFault, RecordCounts, TabletCopy};
use std::marker::Model;

/// A reader of one tablet.
#[derive(Drop)]
pub struct TabletReader {
    handle: ReaderHandle,
}

impl Model for TabletReader {
    ghost use Rattle.pn_live.specs.Published.{seen_by, learnt_by, range_of};
    ghost use Rattle.pn_live.specs.Readers.{TabletReaderValue};

    ghost Value = { TabletReaderValue };

    ghost use Rattle.pn_live.specs.Proofs.{tablet_reader_code};

    ghost coded = { tablet_reader_code };

    ghost view = { λ reader. record {
      book = reader.handle.learnt.seen.book;
      range = range_of reader.handle;
      seen = seen_by reader.handle;
      learnt = learnt_by reader.handle;
    } };
}

impl TabletReader {
    /// A reader of the tablet of this handle.
    pub fn of(handle: ReaderHandle) -> TabletReader
        ensures book { result.book ≡ handle.learnt.seen.book }
        ensures range { result.range ≡ range_of handle }
        ensures seen { result.seen ≡ seen_by handle }
        ensures learnt { result.learnt ≡ learnt_by handle }
    {
        TabletReader { handle }
    }

    /// The handle that the reader looks by.
    pub fn into_handle(self) -> ReaderHandle
        ensures book { result.learnt.seen.book ≡ self.book }
        ensures range { range_of result ≡ self.range }
        ensures seen { seen_by result ≡ self.seen }
        ensures learnt { learnt_by result ≡ self.learnt }
    {
        let TabletReader { handle } = self;
        handle
    }

    /// Learns a note of its tablet.
    pub fn learn(&mut self, note: TabletNote)
        requires { note.book ≡ self.old.book }
        ensures { Learns self.old note self.new }
    {
        self.handle.learn(note.into_position());
    }

    // One entry into the tablet.
    fn enter(self) -> Result<ReadGuard, TabletReader>
        ensures { MatchResult result (λ guard. Finds self (found_by guard) (left_by guard)) (λ back. back ≡ self) }
    {
        match self.into_handle().enter() {
            Ok(guard) => Ok(guard),
            Err(handle) => Err(TabletReader::of(handle)),
        }
    }

    // Leaves the tablet.
    fn leave(guard: ReadGuard) -> TabletReader
        ensures { result ≡ left_by guard }
    {
        TabletReader::of(guard.leave())
    }

    /// The cell of a key in the state that one entry finds, as `cell_of`; `NoEntry` where the entry is refused.
    pub fn cell(&mut self, tablet: usize, key: &Key) -> Result<Option<Cell>, ScanFault>
        ensures { (found : Option TabletStateValue) × IsOneLook self.old self.new (λ cell. cell) result (cell_at key.now) tablet found }
    {
        replace_with(self, key, |reader, key| reader.look_up_cell(tablet, key))
    }

    fn look_up_cell(
        self,
        tablet: usize,
        key: &Key,
    ) -> (TabletReader, Result<Option<Cell>, ScanFault>)
        ensures { (found : Option TabletStateValue) × IsOneLook self result.0 (λ cell. cell) result.1 (cell_at key.now) tablet found }
    {
        match self.enter() {
            Ok(guard) => {
                let answer = cell_of(guard.state(), tablet, key);
                (TabletReader::leave(guard), answer)
            }
            Err(reader) => (reader, Err(ScanFault::NoEntry)),
        }
    }

    /// The first `room` rows that a query shows in the state that one entry finds, as `part_of`; `NoEntry` where
    /// the entry is refused. The entry does the budget's work at most, or looks at one content.
    pub fn part(&mut self, tablet: usize, query: &Query, room: usize, budget: Budget) -> PartResult
        ensures look { (found : Option TabletStateValue) × IsOneLook self.old self.new (part_at query.now) result (rows_at query.now room) tablet found }
        ensures few { IfOk result (λ part. spent_in (max budget.work MAX_PART_WORK) part ≤ max budget.work MAX_PART_WORK) }
    {
        replace_with(
            self,
            query,
            |reader, query| reader.look_up_part(tablet, query, room, budget),
        )
    }

    fn look_up_part(
        self,
        tablet: usize,
        query: &Query,
        room: usize,
        budget: Budget,
    ) -> (TabletReader, PartResult)
        ensures look { (found : Option TabletStateValue) × IsOneLook self result.0 (part_at query.now) result.1 (rows_at query.now room) tablet found }
        ensures few { IfOk result.1 (λ part. spent_in (max budget.work MAX_PART_WORK) part ≤ max budget.work MAX_PART_WORK) }
    {
        match self.enter() {
            Ok(guard) => {
                let answer = part_of(guard.state(), tablet, query, room, budget);
                (TabletReader::leave(guard), answer)
            }
            Err(reader) => (reader, Err(ScanFault::NoEntry)),
        }
    }

    /// A copy of the state that one entry finds, as that state gives it; `NoEntry` where the entry is refused.
    pub fn copy(&mut self, need: &Marks) -> Result<TabletCopy, CopyFault>
        ensures { (found : Option TabletStateValue) × IsOneCopy self.old need.now self.new result found }
    {
        replace_with(self, need, |reader, need| reader.copy_state(need))
    }

    fn copy_state(self, need: &Marks) -> (TabletReader, Result<TabletCopy, CopyFault>)
        ensures { (found : Option TabletStateValue) × IsOneCopy self need.now result.0 result.1 found }
    {
        match self.enter() {
            Ok(guard) => {
                let answer = guard.state().copy(need);
                (TabletReader::leave(guard), answer)
            }
            Err(reader) => (reader, Err(CopyFault::NoEntry)),
        }
    }
    /// The counts of the state that one entry finds; none where the entry is refused.
    pub fn counts(&mut self) -> Option<RecordCounts>
        ensures { (found : Option TabletStateValue) × IsOneCount self.old self.new result found }
    {
        replace_with(self, (), |reader, _| reader.count_state())
    }

    fn count_state(self) -> (TabletReader, Option<RecordCounts>)
        ensures { (found : Option TabletStateValue) × IsOneCount self result.0 result.1 found }
    {
        match self.enter() {
            Ok(guard) => {
                let counts = guard.state().counts();
                (TabletReader::leave(guard), Some(counts))
            }
            Err(reader) => (reader, None),
        }
    }
}
