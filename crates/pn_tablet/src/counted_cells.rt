//! The cells of a tablet, and how many of them are deleted.

ghost use Rattle.std.specs.Prelude.{◌≡◌, ◌+◌, ◌≤◌, [], ◌++◌, ℕ, List, count_by, IfOk, OnOk, OnErr, IsTrue};
ghost use Rattle.std.specs.FinMap.{find, is_sorted};
ghost use Rattle.pn_join.specs.Prelude.{AreChanges, optional_joined};
ghost use Rattle.pn_record.specs.Cells.{Holds};
ghost use Rattle.pn_record.specs.Prelude.{HasContents, bytes_cmp, cell_joined, spell};
ghost use Rattle.pn_tablet.specs.Tablets.{counts_of, deleted_in, is_deleted as deletes, was_deleted as deleted_before};

use crate::copy_text::recall_size;
use pn_join::{Dup, NoMemory, TableChange};
use pn_record::{Cell, CellState, Key, Records, join_records, join_with_changes};
use std::alloc::Global;
use std::marker::Model;

/// How many records a tablet has.
#[derive(Clone, Copy, Debug, PartialEq, Eq)]
pub struct RecordCounts {
    /// How many are there.
    pub records: usize,
    /// How many are deleted.
    pub deleted: usize,
}

/// Cells by key, and how many of them are deleted.
#[derive(Drop)]
pub(crate) struct CountedCells {
    cells: Records,
    deleted: usize,
}

impl Model for CountedCells {
    ghost use Rattle.std.specs.Prelude.{◌≡◌};
    ghost use Rattle.pn_record.specs.Cells.{Entries};
    ghost use Rattle.pn_tablet.specs.Tablets.{deleted_in};
    ghost use Rattle.pn_tablet.specs.Proofs.{entries_code};

    ghost Value = { Entries };

    ghost coded = { entries_code };

    ghost view = { λ counted. counted.cells };

    ghost invariant = { λ counted. counted.deleted ≡ deleted_in counted.cells };
}

impl CountedCells {
    /// No cells.
    pub fn new(alloc: Global) -> CountedCells
        ensures { result ≡ [] }
    {
        CountedCells {
            cells: Records::new(alloc),
            deleted: 0,
        }
    }

    /// These cells. Their deleted ones are counted.
    pub fn of(cells: Records) -> CountedCells
        ensures { result ≡ cells }
    {
        let deleted = count_deleted(&cells);
        CountedCells { cells, deleted }
    }

    /// The cells.
    pub fn records(&self) -> &Records
        ensures { result.now ≡ self.now }
    {
        &self.cells
    }

    /// How many records there are, and how many are deleted.
    pub fn counts(&self) -> RecordCounts
        ensures { result ≡ counts_of self.now }
    {
        RecordCounts {
            records: self.cells.len() - self.deleted,
            deleted: self.deleted,
        }
    }

    /// Joins other cells into these, and returns the keys whose cells changed, in key order. An error leaves them as
    /// they were.
    pub fn join_with_changes(
        &mut self,
        other: &Records,
    ) -> Result<Vec<TableChange<Key, Cell>>, NoMemory>
        ensures changes { IfOk result (λ changes. AreChanges bytes_cmp (λ cell. cell) cell_joined HasContents self.old other.now changes.items) }
        ensures spelled { OnOk result (Holds self.new (spell self.old ++ spell other.now)) }
        ensures joined { OnOk result ((key : List ℕ) → find bytes_cmp key self.new
            ≡ optional_joined cell_joined (find bytes_cmp key self.old) (find bytes_cmp key other.now)) }
        ensures rising { OnOk result (IsTrue (is_sorted bytes_cmp self.new) × IsTrue (is_sorted bytes_cmp other.now)) }
        ensures err { OnErr result (self.new ≡ self.old) }
    {
        self.cells.recall_table();
        other.recall_table();
        let table_changes = join_with_changes(&mut self.cells, other)?;
        let count = self.cells.len();
        let (come, gone) = count_moved(&table_changes);
        self.deleted = count_after(count, self.deleted, come, gone);
        Ok(table_changes)
    }

    /// Joins other cells into these, and counts all that are then deleted. An error leaves them as they were.
    pub fn join_and_count(&mut self, other: &Records) -> Result<(), NoMemory>
        ensures spelled { OnOk result (Holds self.new (spell self.old ++ spell other.now)) }
        ensures joined { OnOk result ((key : List ℕ) → find bytes_cmp key self.new
            ≡ optional_joined cell_joined (find bytes_cmp key self.old) (find bytes_cmp key other.now)) }
        ensures rising { OnOk result (IsTrue (is_sorted bytes_cmp self.new) × IsTrue (is_sorted bytes_cmp other.now)) }
        ensures err { OnErr result (self.new ≡ self.old) }
    {
        join_records(&mut self.cells, other)?;
        self.deleted = count_deleted(&self.cells);
        Ok(())
    }
}

// The count after a join, which is at most `most`.
fn count_after(most: usize, before: usize, come: usize, gone: usize) -> usize
    requires { (after : ℕ) × (after ≤ most) × (gone + after ≡ come + before) }
    ensures { gone + result ≡ come + before }
{
    if come < gone {
        before - (gone - come)
    } else {
        before + (come - gone)
    }
}

// How many changes bring a deleted cell, and how many take one away.
fn count_moved(table_changes: &[TableChange<Key, Cell>]) -> (usize, usize)
    ensures come { result.0 ≡ count_by (λ change. deletes change.after) table_changes.now }
    ensures gone { result.1 ≡ count_by (λ change. deleted_before change.before) table_changes.now }
{
    let mut come = 0;
    let mut gone = 0;
    for change in table_changes {
        if is_deleted(&change.after) {
            come += 1;
        }
        if was_deleted(&change.before) {
            gone += 1;
        }
    }
    (come, gone)
}

// How many of the cells are deleted.
fn count_deleted(cells: &Records) -> usize
    ensures { result ≡ deleted_in cells.now }
{
    recall_size(cells);
    let mut count = 0;
    for (_key, cell) in cells.iter() {
        if is_deleted(cell) {
            count += 1;
        }
    }
    count
}

fn is_deleted(cell: &Cell) -> bool
    ensures { result ≡ deletes cell.now }
{
    match cell.state() {
        CellState::Conflict => false,
        CellState::Deleted => true,
        CellState::One => false,
    }
}

fn was_deleted(cell: &Option<Cell>) -> bool
    ensures { result ≡ deleted_before cell.now }
{
    match cell {
        Some(cell) => is_deleted(cell),
        None => false,
    }
}

impl Dup for CountedCells {
    fn dup(&self) -> Result<CountedCells, NoMemory>
        ensures { IfOk result (λ copy. copy ≡ self.now) }
    {
        Ok(CountedCells {
            cells: self.cells.dup()?,
            deleted: self.deleted,
        })
    }
}
