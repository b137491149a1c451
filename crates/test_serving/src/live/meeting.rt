//! Workers of a round that meet, in a plain region and in a live one: two, three and sixteen.

ghost use Rattle.std.specs.Prelude.{◌≤◌, IfSome};
ghost use Rattle.pn_apply.specs.declared.reducing.TheConstants.{MAX_WORKERS};

use crate::regions::{end, open_one};
use pn_apply::{Gate, MAX_WORKERS};
use pn_live::LiveRegion;
use pn_region::Region;
use pn_tablet::Layout;
use std::alloc::Global;
use std::sync::Wait;
use std::sync::atomic::{AtomicBool, AtomicU64, Ordering};
use std::thread;
use std::thread::Threads;
use test_kit::{deliveries, layout};

/// How often a worker looks whether the others have come.
const MAX_TURNS: u64 = 1_000_000;

/// Holds each worker up until all tablets were entered as often as its own.
#[derive(Drop)]
struct Meeting {
    entered: Vec<AtomicU64>,
    missed: AtomicBool,
}

impl Gate for Meeting {
    fn enter(&self, tablet: usize) {
        let Some(own) = self.entered.get(tablet) else {
            return;
        };
        let before = own.fetch_add(1, Ordering::SeqCst);
        for _ in 0..MAX_TURNS {
            if self.is_past(before) {
                return;
            }
            thread::yield_now();
        }
        self.missed.store(true, Ordering::SeqCst);
    }
}

impl Meeting {
    fn new(alloc: Global, tablets: usize) -> Option<Meeting> {
        let mut entered = Vec::with_capacity(alloc, tablets).ok()?;
        for _ in 0..tablets {
            entered.push(AtomicU64::new(0)).ok()?;
        }
        Some(Meeting {
            entered,
            missed: AtomicBool::new(false),
        })
    }

    // Whether each tablet was entered more often than this.
    fn is_past(&self, times: u64) -> bool {
        for count in &self.entered {
            if count.load(Ordering::SeqCst) <= times {
                return false;
            }
        }
        true
    }

    // Whether each tablet was entered twice.
    fn is_at_two(&self) -> bool {
        for count in &self.entered {
            if count.load(Ordering::SeqCst) != 2 {
                return false;
            }
        }
        true
    }

    // Whether the workers met in both steps of a round: where images are joined, and where tablets take them.
    fn met_twice(&self) -> bool {
        !self.missed.load(Ordering::SeqCst) && self.is_at_two()
    }
}

// Takes a round in a plain region, with a worker for each of these tablets. Answers how many records changed.
fn take<R: Threads + Sync>(
    rt: &R,
    alloc: Global,
    layout: Layout,
    words: &str,
    gate: &Meeting,
) -> Option<u64> {
    let workers = workers_of(&layout)?;
    let mut region = Region::new(alloc, layout).ok()?;
    let given = deliveries(alloc, 1, words, 0)?;
    let round = region.round(rt, given, workers, gate).ok()?;
    Some(round.changed)
}

// The same in a live region.
fn take_live<R: Threads + Wait + Sync>(
    rt: &R,
    alloc: Global,
    layout: Layout,
    words: &str,
    gate: &Meeting,
) -> Option<u64> {
    let workers = workers_of(&layout)?;
    let (mut live, _reader) = open_one(rt, alloc, layout)?;
    let changed = take_round(rt, alloc, &mut live, workers, words, gate);
    end(rt, alloc, live);
    changed
}

fn take_round<R: Threads + Wait + Sync>(
    rt: &R,
    alloc: Global,
    live: &mut LiveRegion,
    workers: usize,
    words: &str,
    gate: &Meeting,
) -> Option<u64>
    requires { (1 ≤ workers) × (workers ≤ MAX_WORKERS) }
{
    let given = deliveries(alloc, 1, words, 0)?;
    let (round, _front) = live.round(rt, given, workers, gate).ok()?;
    Some(round.changed)
}

// A worker for each tablet.
fn workers_of(layout: &Layout) -> Option<usize>
    ensures { IfSome result (λ workers. (1 ≤ workers) × (workers ≤ MAX_WORKERS)) }
{
    let workers = layout.count();
    if workers <= MAX_WORKERS {
        Some(workers)
    } else {
        None
    }
}

/// How many records a round changes where each tablet of these bounds has a worker, and whether they met.
pub(crate) fn meet<R: Threads + Sync>(rt: &R, alloc: Global, line: &str) -> Option<String> {
    let (bounds, words) = line.split_once('|')?;
    let layout = layout(alloc, bounds)?;
    let gate = Meeting::new(alloc, layout.count())?;
    let changed = take(rt, alloc, layout, words, &gate)?;
    format!(in alloc; "{changed} {}", gate.met_twice()).ok()
}

/// The same in a live region.
pub(crate) fn meet_live<R: Threads + Wait + Sync>(
    rt: &R,
    alloc: Global,
    line: &str,
) -> Option<String> {
    let (bounds, words) = line.split_once('|')?;
    let layout = layout(alloc, bounds)?;
    let gate = Meeting::new(alloc, layout.count())?;
    let changed = take_live(rt, alloc, layout, words, &gate)?;
    format!(in alloc; "{changed} {}", gate.met_twice()).ok()
}
