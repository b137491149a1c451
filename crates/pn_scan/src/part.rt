//! Reads of one tablet.

ghost use Rattle.std.specs.Prelude.{◌≡◌, ◌≤◌, ℕ, [], drop, length, max, count_by, Some, IfOk, IsTrue};
ghost use Rattle.std.specs.FinMap.{is_sorted};
ghost use Rattle.std.specs.Option.{option_copied, option_map_or};
ghost use Rattle.std.specs.Ordering.{is_lt};
ghost use Rattle.pn_scan.specs.Pages.{refusal, unless};
ghost use Rattle.pn_scan.specs.Paging.{spent_in, part_at, walk_answer};
ghost use Rattle.pn_scan.specs.Views.{Answers, rows_at, cell_at};
ghost use Rattle.pn_scan.specs.Shown.{shown_rows};
ghost use Rattle.pn_record.specs.Prelude.{bytes_cmp};
ghost use Rattle.pn_scan.specs.declared.walk.TheConstants.{MAX_PART_WORK};

use crate::walk::{PartWalk, Place, WalkOutcome, walk_some};
use crate::{Budget, PartResult, Query, Row, ScanFault, TabletRows};
use pn_join::{Dup, NoMemory};
use pn_record::{Cell, Key, Records};
use pn_tablet::{Status, TabletState, is_before};

/// The first `room` rows that a query shows of a tablet, and whether it shows more. It copies keys and shares contents. It looks
/// for the budget's work, or at one content; where that is not enough it takes the other records by sharing them, and is to be resumed.
///
/// `Recovering`, with the number given, exactly where the tablet recovers.
pub fn part_of(
    state: &TabletState,
    tablet: usize,
    query: &Query,
    room: usize,
    budget: Budget,
) -> PartResult
    ensures answers { Answers (part_at query.now) result (rows_at query.now room (tablet, Some state.now)) }
    ensures few { IfOk result (λ part. spent_in (max budget.work MAX_PART_WORK) part ≤ max budget.work MAX_PART_WORK) }
{
    check_serving(state, tablet)?;
    Ok(begin_walk(state.cells(), query, room, budget)?)
}

// A walk from the first key that may be shown, found by a search, to the end of the range, one row past the room, or past the
// budget's work.
fn begin_walk(
    cells: &Records,
    query: &Query,
    room: usize,
    budget: Budget,
) -> Result<TabletRows, NoMemory>
    ensures same { IfOk result (λ part. part_at query.now part ≡ walk_answer query.now (record { rows = []; rest = cells.now; seen = 0; room = room })) }
    ensures few { IfOk result (λ part. spent_in (max budget.work MAX_PART_WORK) part ≤ max budget.work MAX_PART_WORK) }
{
    let mut rows = Vec::with_capacity(budget.alloc, room.min(cells.len()))?;
    let index = first_index(cells, query);
    prefetch_cells(cells, index, query, room.min(budget.work));
    let from = Place { index, seen: 0 };
    match walk_some(cells, from, query, room, budget.work, &mut rows)? {
        WalkOutcome::All(more, spent) => Ok(TabletRows::Done(rows, more, spent)),
        WalkOutcome::To(next) => take_rest(cells, next, query, rows, room),
    }
}

// Takes the records from a place on that may be shown, by sharing them.
fn take_rest(
    cells: &Records,
    next: Place,
    query: &Query,
    rows: Vec<Row>,
    room: usize,
) -> Result<TabletRows, NoMemory>
    requires index { next.index ≤ length cells.now }
    requires few { length rows.items ≤ room }
    ensures same { IfOk result (λ part. part_at query.now part ≡ walk_answer query.now (record {
      rows = rows.items;
      rest = drop next.index cells.now;
      seen = next.seen;
      room = room;
    })) }
    ensures rest { IfOk result (λ part. (most : ℕ) → spent_in most part ≡ most) }
{
    let end = end_of_range(cells, query).max(next.index);
    let rest = cells.slice(next.index, end)?;
    Ok(TabletRows::Rest(PartWalk::new(rest, next.seen, rows, room)))
}

// How many records are below the end of a query.
fn end_of_range(cells: &Records, query: &Query) -> usize
    ensures within { result ≤ length cells.now }
    ensures shown { shown_rows query.now (drop result cells.now) ≡ [] }
{
    cells.recall_order();
    match query.to() {
        Some(to) => cells.lower_bound(to),
        None => cells.len(),
    }
}

/// The cell of a key in a tablet, if it has one. It shares contents.
///
/// `Recovering`, with the number given, exactly where the tablet recovers.
pub fn cell_of(state: &TabletState, tablet: usize, key: &Key) -> Result<Option<Cell>, ScanFault>
    ensures { Answers (λ cell. cell) result (cell_at key.now (tablet, Some state.now)) }
{
    check_serving(state, tablet)?;
    match state.cells().get(key) {
        Some(cell) => Ok(Some(cell.dup()?)),
        None => Ok(None),
    }
}

fn check_serving(state: &TabletState, tablet: usize) -> Result<(), ScanFault>
    ensures { result ≡ unless (refusal (tablet, Some state.now)) tt }
{
    match state.status() {
        Status::Serving => Ok(()),
        Status::Recovering { .. } => Err(ScanFault::Recovering(tablet)),
    }
}

// Prefetches the counters that copies of the cells raise. No clause depends on it.
fn prefetch_cells(cells: &Records, index: usize, query: &Query, room: usize) {
    for (key, cell) in cells.iter_from(index).take(room) {
        if !is_before(query.to(), key) {
            return;
        }
        cell.prefetch();
    }
}

// An index before which no record is shown.
fn first_index(cells: &Records, query: &Query) -> usize
    requires { IsTrue (is_sorted bytes_cmp cells.now) }
    ensures { shown_rows query.now (drop result cells.now) ≡ shown_rows query.now cells.now }
{
    index_of(cells, query.from()).max(index_of(cells, query.after()))
}

/// The index of the first record that is not below the key, or 0 where there is no key.
pub(crate) fn index_of(cells: &Records, key: Option<&Key>) -> usize
    ensures index { result ≡ option_map_or (λ key. count_by (λ e. is_lt (bytes_cmp e.0 key)) cells.now) (option_copied key.entry) 0 }
{
    match key {
        Some(key) => cells.lower_bound(key),
        None => 0,
    }
}

/// The row of a record.
pub(crate) fn row_of(key: &Key, cell: &Cell) -> Result<Row, NoMemory>
    ensures { IfOk result (λ row. row ≡ (key.now, cell.now)) }
{
    Ok(Row {
        key: key.dup()?,
        cell: cell.dup()?,
    })
}
