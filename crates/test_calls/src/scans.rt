//! Cases of `pn_scan`: `query` is read and written again; `page`, `walk`, `get` and `read` look into a view.
//!
//! The view is `lost`, whose second tablet recovers, or `changing`, which finds other records at each read. In a query `~3~ab~` is
//! `ababab`.

ghost use Rattle.std.specs.Prelude.{◌≡◌, ◌≤◌, max, Option, IfOk, IfSome, IsTrue};
ghost use Rattle.std.specs.Option.{option_copied};
ghost use Rattle.pn_tablet.specs.Steps.{IsSpelled};
ghost use Rattle.pn_tablet.specs.Tablets.{TabletStateValue, lie_in};
ghost use Rattle.pn_scan.specs.Paging.{spent_in, part_at};
ghost use Rattle.pn_scan.specs.Views.{IsStateOf, IsFoundIn, Answers, rows_at, cell_at};
ghost use Rattle.pn_scan.specs.declared.walk.TheConstants.{MAX_PART_WORK};

mod looks;

use crate::scans::looks::{get_reply, page_reply, read_reply, walk_reply};
use pn_join::{Marks, NoMemory};
use pn_record::{Cell, Key, Records, add_image};
use pn_scan::{
    Budget, PartResult, Query, QueryFault, ScanFault, View, cell_of, part_of, query_value,
    read_query,
};
use pn_tablet::{Layout, OpFault, Range, TabletOp, TabletState};
use serde_json::Value;
use std::alloc::Global;
use std::mem;
use std::test::Fail;
use test_kit::{image, layout, spell_out};

/// The answer to a case.
pub(crate) fn answer(alloc: Global, line: &str) -> Result<String, Fail> {
    let (what, text) = line.split_once(' ').unwrap_or((line, ""));
    match what {
        "query" => query_reply(alloc, text),
        "faults" => faults(alloc),
        _ => look(alloc, what, text),
    }
}

// The query that is read from a text, as it is written again, or why it is none.
fn query_reply(alloc: Global, text: &str) -> Result<String, Fail> {
    let text = spell_out(alloc, text)?;
    match read_query(alloc, &Value::from_str(alloc, text.as_str())?) {
        Ok(query) => query_text(alloc, &query),
        Err(fault) => Ok(format!(in alloc; "{fault}")?),
    }
}

fn query_text(alloc: Global, query: &Query) -> Result<String, Fail> {
    Ok(query_value(alloc, query)?.to_string(alloc)?)
}

// What a look into a view finds.
fn look(alloc: Global, what: &str, line: &str) -> Result<String, Fail> {
    let (name, text) = line.split_once(' ').unwrap_or((line, ""));
    let mut view = view_of(alloc, name)?;
    match what {
        "page" => page_reply(alloc, &mut view, text),
        "get" => get_reply(alloc, &mut view, text),
        "walk" => walk_reply(alloc, &mut view, text),
        _ => read_reply(alloc, &mut view, text),
    }
}

// The texts of faults that no case meets.
fn faults(alloc: Global) -> Result<String, Fail> {
    let (memory, none) = (ScanFault::Memory, ScanFault::NoEntry);
    Ok(format!(in alloc; "{memory}, {none}, {}", QueryFault::Memory)?)
}

/// Each read finds the tablets that the read before did not find.
#[derive(Drop)]
pub(crate) struct TakesTurns {
    layout: Layout,
    tablets: Vec<TabletState>,
    others: Vec<TabletState>,
    /// For how many rows the last two parts were asked.
    pub(crate) rooms: [usize; 2],
}

impl TakesTurns {
    /// A view that finds the first list at its first read. An entry into what is no tablet of the layout is refused.
    pub(crate) fn new(
        layout: Layout,
        tablets: Vec<TabletState>,
        others: Vec<TabletState>,
    ) -> TakesTurns {
        TakesTurns {
            layout,
            tablets,
            others,
            rooms: [0; 2],
        }
    }

    fn state(&self, tablet: usize) -> Option<&TabletState>
        ensures { IfSome result (λ state. IsStateOf self.now.layout tablet state.now) }
    {
        let state = self.tablets.get(tablet)?;
        if is_of(&self.layout, tablet, state) {
            Some(state)
        } else {
            None
        }
    }

    fn part_now(&self, tablet: usize, query: &Query, room: usize, budget: Budget) -> PartResult
        ensures look { (found : Option TabletStateValue)
            × IsFoundIn self.now.layout (tablet, found)
            × Answers (part_at query.now) result (rows_at query.now room (tablet, found)) }
        ensures few { IfOk result (λ part. spent_in (max budget.work MAX_PART_WORK) part ≤ max budget.work MAX_PART_WORK) }
    {
        match self.state(tablet) {
            Some(state) => part_of(state, tablet, query, room, budget),
            None => Err(ScanFault::NoEntry),
        }
    }

    fn cell_now(&self, tablet: usize, key: &Key) -> Result<Option<Cell>, ScanFault>
        ensures { (found : Option TabletStateValue)
            × IsFoundIn self.now.layout (tablet, found)
            × Answers (λ cell. cell) result (cell_at key.now (tablet, found)) }
    {
        match self.state(tablet) {
            Some(state) => cell_of(state, tablet, key),
            None => Err(ScanFault::NoEntry),
        }
    }
}

// Whether the tablet is the one of this number.
fn is_of(layout: &Layout, tablet: usize, state: &TabletState) -> bool
    ensures { IsTrue result → IsStateOf layout.now tablet state.now }
{
    if tablet >= layout.count() {
        return false;
    }
    let (from, to) = layout.range(tablet);
    has_ends(state, from, to)
}

// Whether the tablet's range has these ends.
fn has_ends(state: &TabletState, from: Option<&Key>, to: Option<&Key>) -> bool
    ensures range { IsTrue result → state.now.range ≡ (option_copied from.entry, option_copied to.entry) }
    ensures inside { IsTrue (lie_in state.now.range state.now.cells) }
    ensures spelled { IsSpelled state.now.cells }
{
    let _ = state.cells();
    state.range().from() == from && state.range().to() == to
}

impl View for TakesTurns {
    ghost bounds = { λ view. view.layout };

    ghost most = { λ work. max work MAX_PART_WORK };

    // What a read finds is left open.
    ghost looks = { λ old look new. Unit {0} };

    fn layout(&self) -> &Layout {
        &self.layout
    }

    fn part(&mut self, tablet: usize, query: &Query, room: usize, budget: Budget) -> PartResult {
        self.rooms = [self.rooms[1], room];
        let part = self.part_now(tablet, query, room, budget);
        mem::swap(&mut self.tablets, &mut self.others);
        part
    }

    fn cell(&mut self, key: &Key) -> Result<Option<Cell>, ScanFault> {
        let cell = self.cell_now(self.layout.tablet_of(key), key);
        mem::swap(&mut self.tablets, &mut self.others);
        cell
    }
}

/// The view of this name, of two tablets of which the second begins at `m`.
pub(crate) fn view_of(alloc: Global, name: &str) -> Result<TakesTurns, Fail> {
    let layout = layout(alloc, "m").ok_or(NoMemory)?;
    let is_lost = name == "lost";
    let words = if is_lost { "a b c d e n" } else { "a n" };
    let later = if is_lost { words } else { "b o" };
    let first = tablets(alloc, &layout, words, is_lost)?;
    let second = tablets(alloc, &layout, later, is_lost)?;
    Ok(TakesTurns::new(layout, first, second))
}

// The tablets with a record at each of the keys, of which the last is lost or not.
fn tablets(
    alloc: Global,
    layout: &Layout,
    words: &str,
    is_lost: bool,
) -> Result<Vec<TabletState>, Fail> {
    let mut tablets = Vec::new(alloc);
    for number in 0..layout.count() {
        tablets.push(tablet(alloc, layout.range_of(number)?, words)?)?;
    }
    if is_lost {
        lose_last(&mut tablets)?;
    }
    Ok(tablets)
}

fn lose_last(tablets: &mut [TabletState]) -> Result<(), Fail> {
    if let Some(last) = tablets.last_mut() {
        last.apply(&TabletOp::Lose)?;
    }
    Ok(())
}

// A tablet with a record at each of the keys that lie in its range.
fn tablet(alloc: Global, range: Range, words: &str) -> Result<TabletState, Fail> {
    let cells = cells(alloc, &range, words).ok_or(NoMemory)?;
    let mut state = TabletState::new(alloc, range);
    join(alloc, &mut state, cells)?;
    Ok(state)
}

fn join(alloc: Global, state: &mut TabletState, cells: Records) -> Result<(), OpFault> {
    let marks = Marks::new(alloc);
    state.apply(&TabletOp::Join { cells, marks })?;
    Ok(())
}

fn cells(alloc: Global, range: &Range, words: &str) -> Option<Records> {
    let mut cells = Records::new(alloc);
    for word in words.split_whitespace() {
        add(alloc, &mut cells, range, word)?;
    }
    Some(cells)
}

fn add(alloc: Global, cells: &mut Records, range: &Range, word: &str) -> Option<()> {
    let image = image(alloc, word, 0)?;
    if range.contains(&image.key) {
        add_image(alloc, cells, image).ok()?;
    }
    Some(())
}
