//! Regions and their rounds.

ghost use Rattle.std.specs.Prelude.{◌≡◌, ◌+◌, ◌≤◌, ◌<◌, ◌^◌, length, slice_get, map, Some, Ok, IsTrue, IfOk, IfErr, OnOk, OnErr};
ghost use Rattle.std.specs.List.{flat_map};
ghost use Rattle.pn_join.specs.Prelude.{are_positions};
ghost use Rattle.pn_tablet.specs.Prelude.{Refuses, empty_tablet, changes};
ghost use Rattle.pn_apply.specs.Prelude.{AreJoinsIn, HavePositions, all_stepped, all_changes, AreOldOrStepped, IsSomeOld, joined_cells, ranges};
ghost use Rattle.pn_apply.specs.declared.reducing.TheConstants.{MAX_WORKERS};
ghost use Rattle.pn_scan.specs.Prelude.{IsStateOf};
ghost use Rattle.pn_region.specs.declared.marking.TheConstants.{MAX_STREAMS};
ghost use Rattle.pn_region.specs.Log.{new_logged, IsSince};
ghost use Rattle.pn_region.specs.Rounds.{is_memory, round, Leaves};
ghost use Rattle.pn_region.specs.Regions.{IsRegion, all_cells};

mod advance;
mod recovery;
mod relayout;
mod rounds;

use crate::{Log, RoundFault, Since, next_marks};
use pn_apply::{Gate, Share, apply_all, reduce};
use pn_join::{Dup, Marks, NoMemory};
use pn_tablet::{Change, Layout, TabletOp, TabletState};
pub use rounds::recall_soundness;
use std::alloc::Global;
use std::marker::Model;
use std::thread::Threads;

/// The tablets of a layout, the marks of the streams taken into all of them, and a log of changes.
#[derive(Drop)]
pub struct Region {
    layout: Layout,
    tablets: Vec<TabletState>,
    marks: Marks,
    log: Log,
    pub(crate) alloc: Global,
}

/// The outcome of a round.
#[derive(Clone, Copy, Debug, PartialEq, Eq)]
pub struct Round {
    /// How many records were changed, in all tablets together.
    pub changed: u64,
}

impl Model for Region {
    ghost use Rattle.pn_region.specs.Log.{LoggedRegion};
    ghost use Rattle.pn_region.specs.Proofs.{logged_code};
    ghost use Rattle.pn_region.specs.Regions.{IsLawfulRegion};

    ghost Value = { LoggedRegion };

    ghost coded = { logged_code };

    ghost view = { λ region. record { state = record { layout = region.layout; tablets = region.tablets.items; marks = region.marks }; log = region.log } };

    ghost invariant = { λ region. IsLawfulRegion (record { layout = region.layout; tablets = region.tablets.items; marks = region.marks }) };
}

impl Region {
    /// A region of empty tablets that serve, with an empty log. The allocator serves its later growth too.
    pub fn new(alloc: Global, layout: Layout) -> Result<Region, NoMemory>
        ensures { IfOk result (λ region. region ≡ new_logged layout) }
    {
        let tablets = empty_tablets(alloc, &layout)?;
        let log = Log::new(alloc)?;
        Ok(Region {
            layout,
            tablets,
            marks: Marks::new(alloc),
            log,
            alloc,
        })
    }

    /// How far streams were taken into every tablet.
    pub fn marks(&self) -> &Marks
        ensures marks { result.now ≡ self.now.state.marks }
        ensures few { length self.now.state.marks ≤ MAX_STREAMS }
        ensures positions { IsTrue (are_positions self.now.state.marks) }
    {
        &self.marks
    }

    /// The bounds between the tablets.
    pub fn layout(&self) -> &Layout
        ensures layout { result.now ≡ self.now.state.layout }
        ensures region { IsRegion self.now.state }
    {
        &self.layout
    }

    /// The tablet of this number, which is below the layout's count.
    pub fn tablet(&self, tablet: usize) -> &TabletState
        requires { tablet ≤ length self.now.state.layout }
        ensures { slice_get self.now.state.tablets tablet ≡ Some result.now }
    {
        self.state(tablet)
    }

    /// The tablet of this number, as that of its range.
    pub(crate) fn state(&self, tablet: usize) -> &TabletState
        requires { tablet ≤ length self.now.state.layout }
        ensures there { slice_get self.now.state.tablets tablet ≡ Some result.now }
        ensures of { IsStateOf self.now.state.layout tablet result.now }
    {
        &self.tablets[tablet]
    }

    /// The tablets, in the order of their numbers.
    pub(crate) fn states(&self) -> &[TabletState]
        ensures states { result.now ≡ self.now.state.tablets }
        ensures count { length self.now.state.tablets ≡ length self.now.state.layout + 1 }
    {
        &self.tablets
    }

    // Takes shares into the tablets and the marks, and returns the changes of each tablet. The log stays.
    fn take_round<R: Threads + Sync, G: Gate + Sync>(
        &mut self,
        rt: &R,
        shares: &[Share],
        workers: usize,
        gate: &G,
    ) -> Result<Vec<Vec<Change>>, RoundFault>
        requires workers { (1 ≤ workers) × (workers ≤ MAX_WORKERS) }
        ensures ok { OnOk result (round self.old.state shares.now ≡ Ok self.new.state) }
        ensures changes { IfOk result (λ lists. flat_map (λ list. list.items) lists.items ≡ changes (all_cells self.old.state) (all_cells self.new.state)) }
        ensures few { IfOk result (λ lists. length (flat_map (λ list. list.items) lists.items) < 2 ^ 64) }
        ensures refused { IfErr result (λ fault. Refuses is_memory fault (round self.old.state shares.now)) }
        ensures err { IfErr result (λ fault. Leaves fault self.old.state shares.now self.new.state) }
        ensures left { OnErr result (IsSomeOld self.old.state.tablets self.new.state.tablets) }
        ensures log { self.new.log ≡ self.old.log }
    {
        let marks = next_marks(&self.marks, shares)?;
        let operations = reduce(rt, self.alloc, shares, &self.layout, &marks, workers, gate)?;
        let tablets = self.tablets.as_mut_slice();
        let lists = take_joins(rt, self.alloc, tablets, &operations, workers, gate)?;
        self.marks = marks;
        Ok(lists)
    }

    /// The notices after the number, or `Missed` where the log does not keep all of them.
    pub fn notices_since(&self, number: u64) -> Result<Since, NoMemory>
        ensures { IfOk result (λ since. IsSince self.now.log number since) }
    {
        self.log.since(number)
    }
}

// An empty tablet for each range of the layout.
fn empty_tablets(alloc: Global, layout: &Layout) -> Result<Vec<TabletState>, NoMemory>
    ensures { IfOk result (λ tablets. tablets.items ≡ map empty_tablet (ranges layout.now)) }
{
    let mut tablets = Vec::with_capacity(alloc, layout.count())?;
    for tablet in 0..layout.count() {
        tablets.push_reserved(TabletState::new(alloc, layout.range_of(tablet)?));
    }
    Ok(tablets)
}

// Each tablet takes its join. Returns the changes of each, of which there are fewer than 2^64: at most as many as
// records are joined, which are counted first.
fn take_joins<R: Threads + Sync, G: Gate + Sync>(
    rt: &R,
    alloc: Global,
    tablets: &mut [TabletState],
    joins: &[TabletOp],
    workers: usize,
    gate: &G,
) -> Result<Vec<Vec<Change>>, NoMemory>
    requires joins { AreJoinsIn tablets.old joins.now }
    requires positions { HavePositions joins.now }
    requires workers { (1 ≤ workers) × (workers ≤ MAX_WORKERS) }
    requires some { 0 < length tablets.old }
    requires few { length (flat_map (λ list. list) (all_changes tablets.old joins.now)) ≤ length (flat_map joined_cells joins.now) }
    ensures ok { OnOk result (tablets.new ≡ all_stepped tablets.old joins.now) }
    ensures changes { IfOk result (λ lists. flat_map (λ list. list.items) lists.items ≡ flat_map (λ list. list) (all_changes tablets.old joins.now)) }
    ensures few { IfOk result (λ lists. length (flat_map (λ list. list.items) lists.items) < 2 ^ 64) }
    ensures err { OnErr result (AreOldOrStepped tablets.old joins.now tablets.new) }
    ensures left { OnErr result (IsSomeOld tablets.old tablets.new) }
{
    if !can_be_counted(joins) {
        return Err(NoMemory);
    }
    let lists = apply_all(rt, alloc, tablets, joins, workers, gate)?;
    Ok(lists)
}

// Whether the records of all joins can be counted, as any that memory holds can.
fn can_be_counted(joins: &[TabletOp]) -> bool
    ensures { IsTrue result → length (flat_map joined_cells joins.now) < 2 ^ 64 }
{
    let mut count = 0usize;
    for join in joins {
        let Some(more) = count.checked_add(joined_count(join)) else {
            return false;
        };
        count = more;
    }
    true
}

// How many records the operation joins.
fn joined_count(join: &TabletOp) -> usize
    ensures { result ≡ length (joined_cells join.now) }
{
    match join {
        TabletOp::Join { cells, .. } => cells.len(),
        _ => 0,
    }
}

// How many changes the lists have together.
fn count_changes(lists: &[Vec<Change>]) -> usize
    requires { length (flat_map (λ list. list.items) lists.now) < 2 ^ 64 }
    ensures { result ≡ length (flat_map (λ list. list.items) lists.now) }
{
    let mut count = 0;
    for list in lists {
        count += list.len();
    }
    count
}
