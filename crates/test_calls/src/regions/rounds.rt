//! Cases of rounds.

ghost use Rattle.std.specs.Prelude.{◌≤◌, IfSome};
ghost use Rattle.pn_apply.specs.declared.reducing.TheConstants.{MAX_WORKERS};

use crate::regions::push_keys;
use pn_apply::{Gate, MAX_WORKERS, Open, reduce, shares_of};
use pn_join::Marks;
use pn_region::Region;
use pn_stream::Delivery;
use pn_tablet::TabletOp;
use std::alloc::Global;
use std::sync::atomic::{AtomicU64, Ordering};
use std::thread::Threads;
use test_kit::{deliveries, layout};

#[derive(Drop)]
pub(crate) struct Counting {
    entered: [AtomicU64; 8],
}

impl Counting {
    pub(crate) fn new() -> Counting {
        Counting {
            entered: [
                AtomicU64::new(0),
                AtomicU64::new(0),
                AtomicU64::new(0),
                AtomicU64::new(0),
                AtomicU64::new(0),
                AtomicU64::new(0),
                AtomicU64::new(0),
                AtomicU64::new(0),
            ],
        }
    }

    /// Adds the count of each tablet.
    pub(crate) fn push_counts(&self, text: &mut String) -> Option<()> {
        for count in &self.entered {
            write!(text, " {}", count.load(Ordering::SeqCst)).ok()?;
        }
        Some(())
    }
}

impl Gate for Counting {
    fn enter(&self, tablet: usize) {
        self.entered[tablet % 8].fetch_add(1, Ordering::SeqCst);
    }
}

/// A new region of the tablets between these bounds.
pub(crate) fn region(alloc: Global, bounds: &str) -> Option<Region> {
    let layout = layout(alloc, bounds)?;
    match Region::new(alloc, layout) {
        Ok(region) => Some(region),
        Err(_) => None,
    }
}

/// Brings deliveries to a region, by one worker. How many records they change.
pub(crate) fn bring<R: Threads + Sync>(
    rt: &R,
    region: &mut Region,
    given: Vec<Delivery>,
) -> Option<u64> {
    Some(region.round(rt, given, 1, &Open).ok()?.changed)
}

/// A region of the tablets between these bounds that took a message of each of these keys.
pub(crate) fn filled<R: Threads + Sync>(
    rt: &R,
    alloc: Global,
    bounds: &str,
    keys: &str,
) -> Option<Region> {
    let mut region = region(alloc, bounds)?;
    bring(rt, &mut region, deliveries(alloc, 1, keys, 0)?)?;
    Some(region)
}

/// A key of each tablet, and the bounds between them.
pub(crate) const KEYS: &str = "a b c d e f g h";

pub(crate) const BOUNDS: &str = "b c d e f g h";

// A number of workers that a call takes.
fn workers_of(word: &str) -> Option<usize>
    ensures { IfSome result (λ workers. (1 ≤ workers) × (workers ≤ MAX_WORKERS)) }
{
    let workers = word.parse::<usize>().ok()?;
    if workers < 1 || workers > MAX_WORKERS {
        return None;
    }
    Some(workers)
}

/// The keys that are brought to each tablet, and the gate's counts.
pub(crate) fn reduce_keys<R: Threads + Sync>(rt: &R, alloc: Global, word: &str) -> Option<String> {
    let gate = Counting::new();
    let mut text = String::new(alloc);
    push_all_joined(&mut text, &operations(rt, alloc, word, &gate)?)?;
    gate.push_counts(&mut text)?;
    Some(text)
}

fn push_all_joined(text: &mut String, operations: &[TabletOp]) -> Option<()> {
    for operation in operations {
        push_joined(text, operation)?;
    }
    Some(())
}

fn operations<R: Threads + Sync>(
    rt: &R,
    alloc: Global,
    word: &str,
    gate: &Counting,
) -> Option<Vec<TabletOp>> {
    let workers = workers_of(word)?;
    let layout = layout(alloc, BOUNDS)?;
    let shares = shares_of(alloc, deliveries(alloc, 1, KEYS, 0)?).ok()?;
    let marks = Marks::new(alloc);
    reduce(rt, alloc, &shares, &layout, &marks, workers, gate).ok()
}

fn push_joined(text: &mut String, operation: &TabletOp) -> Option<()> {
    match operation {
        TabletOp::Join { cells, .. } => push_keys(text, cells),
        _ => text.push_str(";").ok(),
    }
}

/// How many records a round changes, and the gate's counts.
pub(crate) fn round<R: Threads + Sync>(rt: &R, alloc: Global, word: &str) -> Option<String> {
    let gate = Counting::new();
    let changed = changed_by(rt, alloc, word, &gate)?;
    let mut text = format!(in alloc; "{changed} changed").ok()?;
    gate.push_counts(&mut text)?;
    Some(text)
}

fn changed_by<R: Threads + Sync>(
    rt: &R,
    alloc: Global,
    word: &str,
    gate: &Counting,
) -> Option<u64> {
    let workers = workers_of(word)?;
    let mut region = region(alloc, BOUNDS)?;
    let given = deliveries(alloc, 1, KEYS, 0)?;
    Some(region.round(rt, given, workers, gate).ok()?.changed)
}
