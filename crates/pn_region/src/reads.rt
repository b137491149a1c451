//! Reads of a region.

ghost use Rattle.std.specs.Prelude.{◌≡◌, ◌-◌, ◌^◌, Err, IsOk, IsErrOf};
ghost use Rattle.pn_json.specs.Prelude.{ShowsUnless};
ghost use Rattle.pn_scan.specs.Prelude.{AnswersAfter, cell_at};
ghost use Rattle.pn_scan.specs.declared.view.ScanFault.TheVariants.{Memory, NoEntry};
ghost use Rattle.pn_region.specs.Reads.{IsThere, BeginsToRead, look_for, read_in, get_in, page_in};

use crate::Region;
use pn_record::{Cell, Key, Version};
use pn_scan::{
    Budget, Page, PartResult, Query, ScanFault, View, cell_of, get, page, part_of, read_at_least,
};
use pn_tablet::Layout;

/// A view of the region's own tablets, which do not change while it lasts. It never answers `NoEntry`.
impl View for &Region {
    ghost bounds = { λ view. view.now.state.layout };

    ghost most = { λ work. 2 ^ 64 - 1 };

    ghost looks = { λ old look new. (new ≡ old) × IsThere old.now.state look };

    fn layout(&self) -> &Layout {
        Region::layout(self)
    }

    // The tablets stay, so no look is cut short.
    fn part(&mut self, tablet: usize, query: &Query, room: usize, budget: Budget) -> PartResult {
        let whole = Budget {
            alloc: budget.alloc,
            work: usize::MAX,
        };
        part_of(self.state(tablet), tablet, query, room, whole)
    }

    fn cell(&mut self, key: &Key) -> Result<Option<Cell>, ScanFault> {
        let tablet = Region::layout(self).tablet_of(key);
        cell_of(self.state(tablet), tablet, key)
    }
}

impl Region {
    /// The cell of a key, or none if there is no record. If a version is required, the record has it or a later
    /// one.
    ///
    /// `Recovering` comes exactly where the key's tablet is recovering; else `Behind` exactly where a version is
    /// required and the record is absent or older.
    ///
    /// `Memory` comes only where the tablet is not recovering, and `NoEntry` never.
    pub fn read(&self, key: &Key, version: Option<Version>) -> Result<Option<Cell>, ScanFault>
        ensures read { AnswersAfter (cell_at key.now (look_for self.now.state key.now)) result (read_in self.now.state key.now version) }
        ensures entered { result ≡ Err NoEntry → ⊥ }
    {
        let mut view = self;
        read_at_least(&mut view, key, version)
    }

    /// The cells of keys, in the order of the keys, repeats included; none if there is no record.
    ///
    /// `Recovering` comes exactly where the tablet of a key is recovering, and names the first. `Memory` comes only
    /// where none is, and `NoEntry` never.
    pub fn get(&self, keys: &[Key]) -> Result<Vec<Option<Cell>>, ScanFault>
        ensures get { ShowsUnless Memory (λ cells. cells.items) result (get_in self.now.state keys.now) }
        ensures memory { IsErrOf result ScanFault.Memory → IsOk (get_in self.now.state keys.now) }
        ensures entered { result ≡ Err NoEntry → ⊥ }
    {
        let mut view = self;
        get(self.alloc, &mut view, keys)
    }

    /// The first rows that a query shows, up to its limit, and the query for the rows after them exactly where
    /// there are more.
    ///
    /// `Recovering` names the first recovering tablet that may have rows of the page. `NoEntry` never comes.
    ///
    /// `Memory` comes only after the first tablet that may have rows was read.
    pub fn scan(&self, query: &Query) -> Result<Page, ScanFault>
        ensures page { ShowsUnless Memory (λ page. (page.rows.items, page.next)) result (page_in self.now.state query.now) }
        ensures memory { IsErrOf result ScanFault.Memory → BeginsToRead self.now.state query.now }
        ensures entered { result ≡ Err NoEntry → ⊥ }
    {
        let mut view = self;
        page(self.alloc, &mut view, query)
    }
}
