//! Pages of the rows of a query, read tablet by tablet.

ghost use Rattle.std.specs.Prelude.{◌≡◌, ℕ, ◌+◌, ◌-◌, ◌<◌, ◌≤◌, ◌++◌, List, length, take, max, option_map, nat_lt, Some, None, IfOk, OnErr};
ghost use Rattle.std.specs.List.{range_with_len, last_or};
ghost use Rattle.std.specs.Option.{option_copied};
ghost use Rattle.pn_record.specs.Prelude.{Entries};
ghost use Rattle.pn_tablet.specs.Prelude.{tablet_ends};
ghost use Rattle.pn_scan.specs.Queries.{query_after};
ghost use Rattle.pn_scan.specs.Pages.{Look, candidates as all_candidates, first_tablet as named_tablet, begins_before as bound_before, first_page};
ghost use Rattle.pn_scan.specs.Views.{IsScan};

use crate::{Page, PageStep, PageWalk, Query, Row, ScanFault, View};
use pn_join::NoMemory;
use pn_record::Key;
use pn_tablet::Layout;
use std::alloc::Global;

/// The first rows of a query, at most its limit, and the query for the next page exactly where there is more.
///
/// Tablets are read in rising number until a row comes after the page. `Recovering` names the first that recovers,
/// even where the page is full.
///
/// `Memory` comes only after a look into the first candidate, which serves. After an error the view stays usable.
pub fn page<V: View>(alloc: Global, view: &mut V, query: &Query) -> Result<Page, ScanFault>
    ensures scan { (seen : List Look) × IsScan V.looks (V.bounds view.old) query.now view.old view.new (λ page. (page.rows.items, page.next)) result
        (first_page query.now) seen }
    ensures layout { V.bounds view.new ≡ V.bounds view.old }
{
    let mut walk = PageWalk::new(alloc, view.layout(), query);
    'steps: loop {
        let units = walk.most_units();
        let step = walk.go_on(alloc, view, query, units)?;
        match step {
            PageStep::Done(page) => return Ok(page),
            PageStep::Next(next) => {
                next.recall_steps();
                walk = next;
            }
        }
    }
}

/// The rows with the further ones after them.
pub(crate) fn put_after(mut rows: Vec<Row>, mut more: Vec<Row>) -> Result<Vec<Row>, NoMemory>
    ensures { IfOk result (λ all. all.items ≡ rows.items ++ more.items) }
{
    if rows.is_empty() {
        return Ok(more);
    }
    rows.append(&mut more)?;
    Ok(rows)
}

/// The candidates of a query, from the first number up to the second.
pub(crate) fn candidates(layout: &Layout, query: &Query) -> (usize, usize)
    ensures all { all_candidates layout.now query.now ≡ range_with_len result.0 (result.1 - result.0) }
    ensures within { result.1 ≤ length layout.now + 1 }
{
    let from = first_tablet(layout, query.from());
    let after = first_tablet(layout, query.after());
    (from.max(after), end_of(layout, query.to()))
}

fn first_tablet(layout: &Layout, key: Option<&Key>) -> usize
    ensures { result ≡ named_tablet layout.now (option_copied key.entry) }
{
    match key {
        Some(key) => layout.tablet_of(key),
        None => 0,
    }
}

// The number of the first tablet that does not begin before the end.
fn end_of(layout: &Layout, to: Option<&Key>) -> usize
    ensures within { result ≤ length layout.now + 1 }
    ensures exact { (t : ℕ) → t ≤ length layout.now → bound_before (tablet_ends layout.now t).0 (option_copied to.entry) ≡ nat_lt t result }
{
    let count = layout.count();
    let Some(to) = to else {
        return count;
    };
    let tablet = layout.tablet_of(to);
    if begins_before(layout.range(tablet).0, to) {
        tablet + 1
    } else {
        tablet
    }
}

fn begins_before(from: Option<&Key>, to: &Key) -> bool
    ensures { result ≡ bound_before (option_copied from.entry) (Some to.now) }
{
    match from {
        Some(from) => from < to,
        None => true,
    }
}

/// The page of rows, of which there may be one more than the limit.
pub(crate) fn page_of(alloc: Global, query: &Query, mut rows: Vec<Row>) -> Result<Page, NoMemory>
    ensures full { OnErr result (query.now.limit < length rows.items) }
    ensures page { IfOk result (λ page. (all : Entries) → rows.items ≡ take (query.now.limit + 1) all
        → (page.rows.items, page.next) ≡ first_page query.now all) }
{
    if rows.len() <= query.limit() {
        return Ok(Page { rows, next: None });
    }
    rows.pop();
    let next = next_query(alloc, query, &rows)?;
    Ok(Page { rows, next })
}

fn next_query(alloc: Global, query: &Query, rows: &[Row]) -> Result<Option<Query>, NoMemory>
    ensures { IfOk result (λ next. next ≡ option_map (λ row. query_after query.now row.0) (last_or None rows.now)) }
{
    match rows.last() {
        Some(row) => Ok(Some(query.continue_after(alloc, &row.key)?)),
        None => Ok(None),
    }
}
