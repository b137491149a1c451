//! Changes the layout of a region of sixteen tablets, by the clock.

use crate::driver::{IN_BATCH, add_keys, next_rounds};
use crate::workload::Workload;
use pn_apply::Open;
use pn_join::Dup;
use pn_line::Source;
use pn_record::Key;
use pn_region::Region;
use pn_stream::{Delivery, StreamReader};
use pn_tablet::Layout;
use std::alloc::Global;
use std::rt::Clock;
use std::thread::Threads;
use std::time::Instant;

const TABLETS: usize = 16;

/// How often the layout is changed, by one key at each bound, between the first rounds and the last ones.
const CHANGES: usize = 100;

/// How many microseconds a region took to be built, and rounds before and after changes of its layout.
#[derive(Clone, Copy)]
pub struct LayoutTimes {
    built: u128,
    before: u128,
    after: u128,
    changes: Changes,
}

/// How many microseconds it took to change a layout and to change it back, and how many leaves there were before and
/// after many changes.
#[derive(Clone, Copy)]
struct Changes {
    there: u128,
    back: u128,
    leaves: usize,
    leaves_after: usize,
}

impl LayoutTimes {
    /// What it prints.
    pub fn text(&self, alloc: Global) -> Option<String> {
        let changes = self.changes;
        let mut text = String::new(alloc);
        writeln!(
            text,
            "{} {} {} microseconds",
            self.built, changes.there, changes.back
        )
        .ok()?;
        writeln!(text, "{} {} microseconds", self.before, self.after).ok()?;
        write!(text, "{} {} leaves", changes.leaves, changes.leaves_after).ok()?;
        Some(text)
    }
}

/// Measures a workload, where the stream has enough messages.
pub fn time_layouts<R: Clock + Threads + Sync, S: Source + Drop>(
    rt: &R,
    alloc: Global,
    mut stream: StreamReader<S>,
    workload: Workload,
) -> Option<LayoutTimes> {
    let first = next_rounds(
        alloc,
        &mut stream,
        workload.records.div_ceil(IN_BATCH),
        IN_BATCH,
    )?;
    let mut bench = LayoutBench::new(alloc, &first)?;
    bench.time(rt, &mut stream, first, workload)
}

/// A region of sixteen tablets, and the keys that it was built with.
#[derive(Drop)]
struct LayoutBench {
    region: Region,
    keys: Vec<Key>,
    alloc: Global,
}

impl LayoutBench {
    // An empty region, whose tablets are to have equal numbers of the rounds' keys.
    fn new(alloc: Global, rounds: &[Vec<Delivery>]) -> Option<LayoutBench> {
        let keys = sorted_keys(alloc, rounds)?;
        let layout = layout_from(alloc, &keys, keys.len() / TABLETS)?;
        let region = Region::new(alloc, layout).ok()?;
        Some(LayoutBench {
            region,
            keys,
            alloc,
        })
    }

    // How long the first rounds take, and the workload's rounds before and after changes.
    fn time<R: Clock + Threads + Sync, S: Source + Drop>(
        &mut self,
        rt: &R,
        stream: &mut StreamReader<S>,
        first: Vec<Vec<Delivery>>,
        workload: Workload,
    ) -> Option<LayoutTimes> {
        let built = time_rounds(rt, &mut self.region, first)?;
        let before = self.time_next(rt, stream, workload)?;
        let changes = self.time_changes(rt)?;
        let after = self.time_next(rt, stream, workload)?;
        Some(LayoutTimes {
            built,
            before,
            after,
            changes,
        })
    }

    // How long the next rounds of the workload take.
    fn time_next<R: Clock + Threads + Sync, S: Source + Drop>(
        &mut self,
        rt: &R,
        stream: &mut StreamReader<S>,
        workload: Workload,
    ) -> Option<u128> {
        let rounds = next_rounds(self.alloc, stream, workload.rounds, workload.in_round)?;
        time_rounds(rt, &mut self.region, rounds)
    }

    // Changes the layout by half a tablet and back, and then often.
    fn time_changes<R: Clock>(&mut self, rt: &R) -> Option<Changes> {
        let step = self.keys.len() / TABLETS;
        let leaves = leaves_of(&self.region)?;
        let (there, back) = self.time_both(rt, step)?;
        self.change_often(step)?;
        let leaves_after = leaves_of(&self.region)?;
        Some(Changes {
            there,
            back,
            leaves,
            leaves_after,
        })
    }

    // How long it takes to change the layout by half a step, and to change it back.
    fn time_both<R: Clock>(&mut self, rt: &R, step: usize) -> Option<(u128, u128)> {
        let there = self.time_change(rt, step / 2)?;
        let back = self.time_change(rt, step)?;
        Some((there, back))
    }

    // How long it takes to lay the tablets out from the key of this index on.
    fn time_change<R: Clock>(&mut self, rt: &R, first: usize) -> Option<u128> {
        let layout = layout_from(self.alloc, &self.keys, first)?;
        let start = Instant::now(rt).ok()?;
        lay_out(&mut self.region, layout)?;
        Some(start.elapsed(rt).ok()?.as_micros())
    }

    // Moves all bounds, each time by one key, and then back.
    fn change_often(&mut self, first: usize) -> Option<()> {
        for change in 1..CHANGES {
            self.change(first.saturating_sub(change))?;
        }
        self.change(first)
    }

    fn change(&mut self, first: usize) -> Option<()> {
        let layout = layout_from(self.alloc, &self.keys, first)?;
        lay_out(&mut self.region, layout)
    }
}

fn lay_out(region: &mut Region, layout: Layout) -> Option<()> {
    region.relayout(layout).ok()
}

// All keys of rounds, in order.
fn sorted_keys(alloc: Global, rounds: &[Vec<Delivery>]) -> Option<Vec<Key>> {
    let mut keys = Vec::new(alloc);
    for round in rounds {
        for delivery in round {
            add_keys(&mut keys, delivery)?;
        }
    }
    keys.sort().ok()?;
    Some(keys)
}

// Bounds at equal distances, from the key of this index on.
fn layout_from(alloc: Global, keys: &[Key], first: usize) -> Option<Layout> {
    let mut bounds = Vec::new(alloc);
    let mut index = first;
    for _ in 1..TABLETS {
        bounds.push(keys.get(index)?.dup().ok()?).ok()?;
        index = index.checked_add(keys.len() / TABLETS)?;
    }
    Layout::new(bounds).ok()
}

fn time_rounds<R: Clock + Threads + Sync>(
    rt: &R,
    region: &mut Region,
    mut rounds: Vec<Vec<Delivery>>,
) -> Option<u128> {
    let start = Instant::now(rt).ok()?;
    for _ in 0..rounds.len() {
        take(rt, region, rounds.pop()?)?;
    }
    Some(start.elapsed(rt).ok()?.as_micros())
}

fn take<R: Threads + Sync>(rt: &R, region: &mut Region, deliveries: Vec<Delivery>) -> Option<()> {
    region.round(rt, deliveries, 1, &Open).ok()?;
    Some(())
}

fn leaves_of(region: &Region) -> Option<usize> {
    let mut leaves: usize = 0;
    for tablet in 0..region.layout().count() {
        leaves = leaves.checked_add(region.tablet(tablet).cells().leaves().count())?;
    }
    Some(leaves)
}
