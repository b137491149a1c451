//! Views, through which tablets are read, the rows and pages that they give, and why a read was refused.

ghost use Rattle.std.specs.Prelude.{◌≡◌, ◌≤◌, ℕ, Option, length, IfOk};
ghost use Rattle.pn_scan.specs.declared.view.ScanFault.TheVariants.{Memory};
ghost use Rattle.pn_tablet.specs.Prelude.{Bounds, tablet_of, TabletStateValue};
ghost use Rattle.pn_scan.specs.Pages.{Look};
ghost use Rattle.pn_scan.specs.Paging.{spent_in, part_at};
ghost use Rattle.pn_scan.specs.Views.{LooksOnce, rows_at, cell_at};

use crate::{Query, TabletRows};
use pn_join::NoMemory;
use pn_record::{Cell, Key, Version};
use pn_tablet::Layout;
use std::alloc::Global;
use std::marker::Model;
use thiserror::Error;

/// Why a page, a get or a read was refused.
#[derive(Debug, Drop, Error)]
pub enum ScanFault {
    /// The tablet of this number is recovering.
    #[error("tablet {0} is recovering")]
    Recovering(usize),
    /// The record is absent or older than the required version. Only `read_at_least` returns it.
    #[error("behind")]
    Behind { has: Option<Version> },
    #[error("out of memory")]
    Memory,
    /// The view could not enter a tablet. A view of plain states always can.
    #[error("no entry")]
    NoEntry,
}

impl From<NoMemory> for ScanFault {
    ghost from_gives = { λ _ fault. fault ≡ Memory };

    fn from(_error: NoMemory) -> ScanFault {
        ScanFault::Memory
    }
}

/// A record of a page: its key and its whole cell.
#[derive(Debug, Drop)]
pub struct Row {
    pub key: Key,
    pub cell: Cell,
}

impl Model for Row {
    ghost use Rattle.std.specs.Prelude.{ℕ, List};
    ghost use Rattle.std.specs.Coded.{coded_ℕ, coded_list, coded×};
    ghost use Rattle.std.specs.FinMap as map;
    ghost use base.Stored.{coded_unit};
    ghost use Rattle.pn_record.specs.Prelude.{shown_code, CellValue};

    ghost Value = { List ℕ × CellValue };

    ghost coded = { coded× (coded_list coded_ℕ) (coded× (coded× coded_ℕ coded_ℕ) (map.code shown_code coded_unit)) };

    ghost view = { λ row. (row.key, row.cell) };
}

/// A page of rows in key order, and the query for the next page, if there is more.
#[derive(Debug, Drop)]
pub struct Page {
    pub rows: Vec<Row>,
    pub next: Option<Query>,
}

/// What a look into a tablet may use.
#[derive(Clone, Copy)]
pub struct Budget {
    /// The memory for what it finds.
    pub alloc: Global,
    /// How much work it does.
    pub work: usize,
}

/// What a look into a tablet has of its answer; or why none was made.
pub type PartResult = Result<TabletRows, ScanFault>;

/// A view of the tablets of a layout, each read at one moment of its own. Between two reads tablets and view may
/// change; the layout stays.
pub trait View {
    // The bounds of its layout.
    ghost bounds: { Self → Bounds };

    // How much work a look does at most, where it is to do this much.
    ghost most: { ℕ → ℕ };

    // One look into a tablet: the view before, the state that was found or none where refused, and the view after.
    ghost looks: { Self → Look → Self → Type 0 };

    /// The layout of the tablets.
    fn layout(&self) -> &Layout
        ensures { result.now ≡ bounds self.now };

    /// The first `room` rows that a query shows of a tablet, whose number is below the layout's count, and whether it
    /// shows more. A view of tablets that may change does the budget's work, or some more, and then takes the other records with it.
    ///
    /// `Recovering` exactly where the tablet recovers, `NoEntry` exactly where the entry was refused. After an error
    /// the view stays usable.
    fn part(&mut self, tablet: usize, query: &Query, room: usize, budget: Budget) -> PartResult
        requires { tablet ≤ length (bounds self.old) }
        ensures look { (found : Option TabletStateValue) × LooksOnce looks (bounds self.old) self.old self.new (part_at query.now) result
            (rows_at query.now room) (tablet, found) }
        ensures few { IfOk result (λ part. spent_in (most budget.work) part ≤ most budget.work) }
        ensures layout { bounds self.new ≡ bounds self.old };

    /// The cell of a key, if it has one, read in the key's own tablet. Errors are those of `part`.
    fn cell(&mut self, key: &Key) -> Result<Option<Cell>, ScanFault>
        ensures look { (found : Option TabletStateValue) × LooksOnce looks (bounds self.old) self.old self.new (λ cell. cell) result
            (cell_at key.now) (tablet_of (bounds self.old) key.now, found) }
        ensures layout { bounds self.new ≡ bounds self.old };
}
