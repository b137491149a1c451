//! Cases of `pn_live`: steps on a live region, also on one that starts from copies, workers that meet, readers beside a held round and beside
//! a writer, looks that rounds come into, and calls that run out of memory.

mod looking;
mod meeting;
mod memory;
mod race;
mod rows;
mod steps;

use crate::live::looking::{get_over_round, page_over_round};
use crate::live::meeting::{meet, meet_live};
use crate::live::memory::live_twice;
use crate::live::race::run_race;
use crate::live::rows::learn_fronts;
use crate::live::steps::{copy_of, take_and_end, take_steps};
use crate::regions::{end, find, open_one};
use pn_apply::Gate;
use pn_join::NoMemory;
use pn_live::{LiveReader, LiveRegion, StartFault};
use pn_record::Key;
use pn_tablet::{Layout, TabletCopy};
use std::alloc::Global;
use std::sync::Wait;
use std::sync::atomic::{AtomicBool, Ordering};
use std::test::Fail;
use std::thread;
use std::thread::{Threads, join_mut};
use test_kit::{deliveries, layout};

/// The answer to a case; an error where something of it is refused that is not to be.
pub(crate) fn answer_live<R: Threads + Wait + Sync>(
    rt: &R,
    alloc: Global,
    line: &str,
) -> Result<String, Fail> {
    let (word, rest) = line.split_once(' ').unwrap_or((line, ""));
    let answer = match word {
        "steps" => take_steps(rt, alloc, rest),
        "start" => start(rt, alloc, rest),
        "held" => hold_round(rt, alloc),
        "page" => page_over_round(rt, alloc),
        "get" => get_over_round(rt, alloc),
        "meet" => meet(rt, alloc, rest),
        "meet-live" => meet_live(rt, alloc, rest),
        "memory" => live_twice(rt, alloc),
        "race" => run_race(rt, alloc),
        _ => learn_fronts(rt, alloc),
    };
    Ok(answer.ok_or(NoMemory)?)
}

/// How often the worker looks whether the reader has answered.
const MAX_TURNS: u64 = 1_000_000;

// Holds the worker of tablet 1 up until a reader has answered.
#[derive(Drop)]
struct Held {
    answered: AtomicBool,
    missed: AtomicBool,
}

impl Gate for Held {
    fn enter(&self, tablet: usize) {
        if tablet != 1 {
            return;
        }
        for _ in 0..MAX_TURNS {
            if self.answered.load(Ordering::SeqCst) {
                return;
            }
            thread::yield_now();
        }
        self.missed.store(true, Ordering::SeqCst);
    }
}

// Whether a read while the round is held finds no record. The gate then lets the round go on.
fn read_once(reader: &mut LiveReader, key: &Key, gate: &Held) -> bool {
    let answer = reader.read(key, None);
    gate.answered.store(true, Ordering::SeqCst);
    matches!(answer, Ok(None))
}

// Takes a round of the key with one worker. Answers how many records changed.
fn take_round<R: Threads + Wait + Sync>(
    rt: &R,
    alloc: Global,
    live: &mut LiveRegion,
    gate: &Held,
) -> Option<u64> {
    let given = deliveries(alloc, 1, "n", 0)?;
    let (round, _front) = live.round(rt, given, 1, gate).ok()?;
    Some(round.changed)
}

// Whether a read found no record while the round was held, how many records it changed, and the number that a read finds after it.
fn serve<R: Threads + Wait + Sync>(
    rt: &R,
    alloc: Global,
    live: &mut LiveRegion,
    reader: &mut LiveReader,
    gate: &Held,
) -> Option<String> {
    let key = Key::of(alloc, "n").ok()?;
    let (was_none, changed) = join_mut(
        rt,
        &mut || read_once(reader, &key, gate),
        &mut || take_round(rt, alloc, live, gate),
    );
    let changed = changed?;
    let (version, _) = find(reader, &key).ok()??;
    format!(in alloc; "{was_none} {changed} {}", version.number).ok()
}

fn serve_held<R: Threads + Wait + Sync>(rt: &R, alloc: Global, gate: &Held) -> Option<String> {
    let layout = layout(alloc, "m")?;
    let (mut live, mut reader) = open_one(rt, alloc, layout)?;
    let answers = serve(rt, alloc, &mut live, &mut reader, gate);
    end(rt, alloc, live);
    answers
}

/// What a reader finds while a round is held and after it, and whether the worker waited for it in vain.
pub(crate) fn hold_round<R: Threads + Wait + Sync>(rt: &R, alloc: Global) -> Option<String> {
    let gate = Held {
        answered: AtomicBool::new(false),
        missed: AtomicBool::new(false),
    };
    let mut answers = serve_held(rt, alloc, &gate)?;
    write!(answers, ", missed: {}", gate.missed.load(Ordering::SeqCst)).ok()?;
    Some(answers)
}

/// What each step answers on a region that starts from copies, or why it does not start.
pub(crate) fn start<R: Threads + Wait + Sync>(rt: &R, alloc: Global, line: &str) -> Option<String> {
    let (given, steps) = line.split_once('|')?;
    let (bounds, copied) = given.split_once('/')?;
    let copies = copies_of(rt, alloc, copied)?;
    let layout = layout(alloc, bounds)?;
    match open_from(rt, alloc, layout, copies) {
        Ok((live, readers)) => take_started(rt, alloc, live, readers, bounds, steps),
        Err(fault) => format!(in alloc; "{fault}").ok(),
    }
}

// The copies of the first tablets between bounds, each of which took the messages of a list.
fn copies_of<R: Threads + Sync>(rt: &R, alloc: Global, copied: &str) -> Option<Vec<TabletCopy>> {
    let (bounds, lists) = copied.split_once('/')?;
    let mut copies = Vec::new(alloc);
    for (tablet, words) in lists.split('/').enumerate() {
        let copy = copy_of(rt, alloc, bounds, tablet, words)?;
        copies.push(copy).ok()?;
    }
    Some(copies)
}

fn open_from<R: Wait>(
    rt: &R,
    alloc: Global,
    layout: Layout,
    copies: Vec<TabletCopy>,
) -> Result<(LiveRegion, Vec<LiveReader>), StartFault> {
    LiveRegion::open_from(rt, alloc, layout, copies, 1)
}

// Takes the steps by the region's reader, and closes the region.
fn take_started<R: Threads + Wait + Sync>(
    rt: &R,
    alloc: Global,
    live: LiveRegion,
    readers: Vec<LiveReader>,
    bounds: &str,
    steps: &str,
) -> Option<String> {
    let mut readers = readers;
    let Some(reader) = readers.pop() else {
        end(rt, alloc, live);
        return None;
    };
    take_and_end(rt, alloc, live, reader, bounds, steps)
}
