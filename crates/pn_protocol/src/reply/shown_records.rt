//! The records that a reply shows.

ghost use Rattle.std.specs.Prelude.{◌≡◌, ◌-◌, ◌<◌, ◌^◌, ◌∷◌, [], length, map, min, option_map, zip, Some};
ghost use Rattle.std.specs.List.{slice_get};
ghost use Rattle.std.specs.Option.{option_copied};
ghost use Rattle.pn_protocol.specs.Reply.Making.{Found, end_of, found_in, found_weight as weighs, shown_weight};

use crate::reply::rows_text::prefetch_rows;
use pn_record::{Cell, Key};
use pn_scan::Row;
use pn_tablet::record_weight;

/// How many rows are prefetched before they are written: as many as fit the nearest cache with their texts.
const ROWS_AT_HAND: usize = 12;

/// The records that a reply shows.
#[derive(Drop)]
pub(crate) enum ShownRecords {
    /// The record of a key, or none.
    One(Key, Option<Cell>),
    /// The records of keys, in the order of the keys.
    Keys(Vec<Key>, Vec<Option<Cell>>),
    /// The rows of a page.
    Rows(Vec<Row>),
}

impl ShownRecords {
    /// The record of an index, if there are as many.
    pub(crate) fn record_at(&self, index: usize) -> Option<(&Key, Option<&Cell>)>
        ensures { option_map {U = Found} (λ found. (found.0.now, option_copied found.1)) result ≡ slice_get (found_in self.now) index }
    {
        match self {
            ShownRecords::One(key, cell) => only_at(key, cell, index),
            ShownRecords::Keys(keys, cells) => keyed_at(keys, cells, index),
            ShownRecords::Rows(rows) => row_at(rows, index),
        }
    }

    /// Recalls for the prover that the records can be counted.
    pub(crate) fn recall_count(&self)
        ensures { length (found_in self.now) < 2 ^ 64 }
    {
        match self {
            ShownRecords::One(..) => {}
            ShownRecords::Keys(keys, _) => {
                let _ = keys.len();
            }
            ShownRecords::Rows(rows) => {
                let _ = rows.len();
            }
        }
    }

    /// What the records weigh, as far as that has 64 bits.
    pub(crate) fn weight(&self) -> u64
        ensures { result ≡ shown_weight (found_in self.now) }
    {
        self.recall_count();
        let mut weight: u64 = 0;
        let mut index: usize = 0;
        'records: while let Some((key, cell)) = self.record_at(index) {
            weight = weight.saturating_add(found_weight(key, cell));
            index += 1;
        }
        weight
    }

    /// What comes after the records.
    pub(crate) fn end(&self) -> &'static str
        ensures { result.now ≡ end_of self.now }
    {
        match self {
            ShownRecords::One(..) => "}\n",
            ShownRecords::Keys(..) | ShownRecords::Rows(_) => "]}\n",
        }
    }

    /// Prefetches the rows of a page, some at a time. No clause depends on it.
    pub(crate) fn prefetch_from(&self, index: usize) {
        if let ShownRecords::Rows(rows) = self {
            if index % ROWS_AT_HAND == 0 && index < rows.len() {
                let end = rows.len().min(index.saturating_add(ROWS_AT_HAND));
                prefetch_rows(&rows[index..end]);
            }
        }
    }
}

// What the record of a key weighs, if there is one.
fn found_weight(key: &Key, cell: Option<&Cell>) -> u64
    ensures { result ≡ min (weighs (key.now, option_copied cell.entry)) (2 ^ 64 - 1) }
{
    match cell {
        Some(cell) => record_weight(key, cell),
        None => 0,
    }
}

// The only record, where the index is that of the first.
fn only_at<'a>(
    key: &'a Key,
    cell: &'a Option<Cell>,
    index: usize,
) -> Option<(&'a Key, Option<&'a Cell>)>
    ensures { option_map {U = Found} (λ found. (found.0.now, option_copied found.1)) result ≡ slice_get ((key.now, cell.now) ∷ []) index }
{
    if index > 0 {
        return None;
    }
    Some((key, cell.as_ref()))
}

// The key and the cell of an index, where there are both.
fn keyed_at<'a>(
    keys: &'a [Key],
    cells: &'a [Option<Cell>],
    index: usize,
) -> Option<(&'a Key, Option<&'a Cell>)>
    ensures { option_map {U = Found} (λ found. (found.0.now, option_copied found.1)) result ≡ slice_get (zip keys.now cells.now) index }
{
    let key = item_at(keys, index)?;
    let cell = item_at(cells, index)?;
    Some((key, cell.as_ref()))
}

// The key and the cell of the row of an index.
fn row_at(rows: &[Row], index: usize) -> Option<(&Key, Option<&Cell>)>
    ensures { option_map {U = Found} (λ found. (found.0.now, option_copied found.1)) result ≡ slice_get (map (λ row. (row.0, Some row.1)) rows.now) index }
{
    let row = item_at(rows, index)?;
    Some((&row.key, Some(&row.cell)))
}

fn item_at<T>(items: &[T], index: usize) -> Option<&T>
    ensures { option_map (λ item. item.now) result ≡ slice_get items.now index }
{
    items.get(index)
}
