//! Readers of a live region.

ghost use Rattle.std.specs.Prelude.{◌≡◌, ◌+◌, ◌≤◌, ◌<◌, List, map, max, Option, IsErrOf, length};
ghost use Rattle.pn_tablet.specs.Prelude.{tablet_of, TabletStateValue};
ghost use Rattle.pn_scan.specs.Prelude.{Look, first_page, IsRead, IsGet, IsScan};
ghost use Rattle.pn_scan.specs.declared.walk.TheConstants.{MAX_PART_WORK};
ghost use Rattle.pn_live.specs.Lookups.{IsCopied, IsCounted};
ghost use Rattle.pn_live.specs.Readers.{LooksLive, IsFrontFor, AreTabletReadersOf, tablets_of, AllLearn};

use crate::front::{Front, TabletNote};
use crate::tablet_reader::TabletReader;
use pn_join::Marks;
use pn_record::{Cell, Key, Version};
use pn_scan::{Budget, Page, PartResult, Query, ScanFault, View, get, page, read_at_least};
use pn_tablet::{CopyFault, Layout, RecordCounts, TabletCopy};
use std::alloc::Global;
use std::marker::Model;

/// A reader of a live region, for one thread at a time. None of its calls waits.
#[derive(Drop)]
pub struct LiveReader {
    layout: Layout,
    tablet_readers: Vec<TabletReader>,
    alloc: Global,
}

impl Model for LiveReader {
    ghost use Rattle.pn_live.specs.Readers.{LiveReaderValue, AreTabletReadersOf};

    ghost Value = { LiveReaderValue };

    ghost use Rattle.pn_live.specs.Proofs.{reader_code};

    ghost coded = { reader_code };

    ghost view = { λ reader. record { layout = reader.layout; tablet_readers = reader.tablet_readers.items } };

    ghost invariant = { λ reader. AreTabletReadersOf reader.layout reader.tablet_readers.items };
}

impl LiveReader {
    /// A reader of these tablets, one for each range of the layout. Its answers take memory of the allocator.
    pub(crate) fn of(alloc: Global, layout: Layout, tablet_readers: Vec<TabletReader>) -> LiveReader
        requires { AreTabletReadersOf layout tablet_readers.items }
        ensures layout { result.layout ≡ layout }
        ensures tablet_readers { result.tablet_readers ≡ tablet_readers.items }
    {
        LiveReader {
            layout,
            tablet_readers,
            alloc,
        }
    }

    /// The readers of the tablets, in the order of their numbers.
    pub(crate) fn into_tablet_readers(self) -> Vec<TabletReader>
        ensures tablet_readers { result.items ≡ self.tablet_readers }
        ensures ranges { AreTabletReadersOf self.layout self.tablet_readers }
    {
        let LiveReader {
            layout: _layout,
            tablet_readers,
            alloc: _alloc,
        } = self;
        tablet_readers
    }

    /// Learns a front of its live region: from then on it finds no less of any tablet.
    pub fn learn(&mut self, front: Front)
        requires { IsFrontFor self.old front }
        ensures learnt { AllLearn self.old.tablet_readers front self.new.tablet_readers }
        ensures same { tablets_of self.new ≡ tablets_of self.old }
    {
        learn_all(self.tablet_readers.as_mut_slice(), front.into_notes());
    }

    /// The cell of a key, or none, in the state of its tablet that one entry finds. A version asks for that version or a
    /// later one.
    ///
    /// `NoEntry`: the entry is refused. Else `Recovering`: the tablet is recovering. Else `Behind`: the record is
    /// absent or older than the version. `Memory` comes after the first two.
    pub fn read(&mut self, key: &Key, version: Option<Version>) -> Result<Option<Cell>, ScanFault>
        ensures read { (found : Option TabletStateValue) × IsRead LooksLive self.old.layout key.now version self.old self.new result
            (tablet_of self.old.layout key.now, found) }
        ensures same { tablets_of self.new ≡ tablets_of self.old }
    {
        read_at_least(self, key, version)
    }

    /// The cells of keys in order, repeats included; none where there is no record. Each key is read by an entry of its
    /// own, in that order.
    ///
    /// `NoEntry`: an entry is refused. `Recovering`: a key's tablet is recovering. The first key with either ends the
    /// call. `Memory` comes only where every key was read, and none had either.
    pub fn get(&mut self, keys: &[Key]) -> Result<Vec<Option<Cell>>, ScanFault>
        ensures get { (seen : List Look) × IsGet LooksLive self.old.layout keys.now self.old self.new (λ cells. cells.items) result seen
            × (IsErrOf result ScanFault.Memory → length seen ≡ length keys.now) }
        ensures same { tablets_of self.new ≡ tablets_of self.old }
    {
        let alloc = self.alloc;
        get(alloc, self, keys)
    }

    /// The first rows that a query shows, up to its limit, and the query for the rest, if any. Tablets that may have rows
    /// are entered in order, once each.
    ///
    /// `NoEntry`: an entry is refused. `Recovering`: a tablet is recovering. The first tablet with either ends the
    /// call. `Memory` comes only where a tablet was entered, and none had either.
    pub fn scan(&mut self, query: &Query) -> Result<Page, ScanFault>
        ensures scan { (seen : List Look) × IsScan LooksLive self.old.layout query.now self.old self.new (λ page. (page.rows.items, page.next)) result
            (first_page query.now) seen }
        ensures same { tablets_of self.new ≡ tablets_of self.old }
    {
        let alloc = self.alloc;
        page(alloc, self, query)
    }

    /// A copy of a tablet, whose number is below the layout's count, in the state that one entry finds: its range, its
    /// cover as the marks, and its cells.
    ///
    /// `NoEntry`: the entry is refused. Else `Recovering`: the tablet is recovering. Else `Behind`: its cover falls short
    /// of the need, first in the named stream. `Memory` comes after these.
    pub fn copy(&mut self, tablet: usize, need: &Marks) -> Result<TabletCopy, CopyFault>
        requires { tablet ≤ length self.old.layout }
        ensures copy { (found : Option TabletStateValue) × IsCopied self.old need.now self.new result (tablet, found) }
        ensures same { tablets_of self.new ≡ tablets_of self.old }
    {
        self.tablet_readers[tablet].copy(need)
    }

    /// How many records a tablet has, whose number is below the layout's count, and how many deleted ones it keeps, in
    /// the state that one entry finds. Both are kept counts. None: the entry is refused.
    pub fn counts(&mut self, tablet: usize) -> Option<RecordCounts>
        requires { tablet ≤ length self.old.layout }
        ensures counts { (found : Option TabletStateValue) × IsCounted self.old self.new result (tablet, found) }
        ensures same { tablets_of self.new ≡ tablets_of self.old }
    {
        self.tablet_readers[tablet].counts()
    }
}

// Each tablet reader learns the note of its tablet.
fn learn_all(tablet_readers: &mut [TabletReader], notes: Vec<TabletNote>)
    requires { map (λ note. note.book) notes.items ≡ map (λ reader. reader.book) tablet_readers.old }
    ensures { AllLearn tablet_readers.old notes.items tablet_readers.new }
{
    let mut number = 0;
    for note in notes {
        tablet_readers[number].learn(note);
        number += 1;
    }
}

/// Each look is one entry into one tablet.
impl View for LiveReader {
    ghost bounds = { λ reader. reader.layout };

    ghost most = { λ work. max work MAX_PART_WORK };

    ghost looks = { LooksLive };

    fn layout(&self) -> &Layout {
        &self.layout
    }

    fn part(&mut self, tablet: usize, query: &Query, room: usize, budget: Budget) -> PartResult {
        self.tablet_readers[tablet].part(tablet, query, room, budget)
    }

    fn cell(&mut self, key: &Key) -> Result<Option<Cell>, ScanFault> {
        let tablet = self.layout.tablet_of(key);
        self.tablet_readers[tablet].cell(tablet, key)
    }
}
