//! Loads a region, reads it and brings rounds to it, by the clock.

use crate::workload::{Mode, READERS, Runner, Store, Workload, found_all, read_all, runners_of};
use pn_join::Dup;
use pn_line::Source;
use pn_live::{LiveReader, LiveRegion};
use pn_record::Key;
use pn_region::Region;
use pn_stream::{Delivery, StreamReader};
use pn_tablet::Layout;
use std::alloc::Global;
use std::rt::Clock;
use std::sync::Wait;
use std::thread::{Threads, join_mut};
use std::time::{Duration, Instant};

/// How many messages are read at a time.
pub const IN_BATCH: usize = 1_000;

/// How often the readers read every key while rounds are measured.
const PASSES: usize = 8;

/// How long it took to read each key once, and how long the rounds took.
#[derive(Drop)]
pub struct Times {
    pub reads: Duration,
    pub rounds: Duration,
}

impl Times {
    /// What it prints.
    pub fn text(&self, alloc: Global) -> Option<String> {
        let (reads, rounds) = (self.reads.as_micros(), self.rounds.as_micros());
        format!(in alloc; "{reads} {rounds} microseconds").ok()
    }
}

/// Measures a workload, where the stream has enough messages and each key is found.
pub fn time<R: Clock + Threads + Wait + Sync, S: Source + Drop>(
    rt: &R,
    alloc: Global,
    stream: StreamReader<S>,
    workload: Workload,
) -> Option<Times> {
    let (mut store, readers) = open_store(rt, alloc, workload.mode)?;
    let took = time_store(rt, alloc, &mut store, readers, stream, workload);
    store.close(rt, alloc).ok()?;
    took
}

// A region of one tablet, and the readers of a live one.
fn open_store<R: Wait>(rt: &R, alloc: Global, mode: Mode) -> Option<(Store, Vec<LiveReader>)> {
    let layout = Layout::new(Vec::new(alloc)).ok()?;
    if mode == Mode::Plain {
        let region = Region::new(alloc, layout).ok()?;
        return Some((Store::Plain(region), Vec::new(alloc)));
    }
    open_live(rt, alloc, layout)
}

fn open_live<R: Wait>(rt: &R, alloc: Global, layout: Layout) -> Option<(Store, Vec<LiveReader>)> {
    let (live, readers) = LiveRegion::open(rt, alloc, layout, READERS).ok()?;
    Some((Store::Live(live), readers))
}

fn time_store<R: Clock + Threads + Wait + Sync, S: Source + Drop>(
    rt: &R,
    alloc: Global,
    store: &mut Store,
    readers: Vec<LiveReader>,
    mut stream: StreamReader<S>,
    workload: Workload,
) -> Option<Times> {
    let keys = load(rt, alloc, store, &mut stream, workload.records)?;
    let mut runners = runners_of(alloc, readers, &keys)?;
    let reads = time_reads(rt, store, &mut runners, &keys)?;
    let rounds = time_last(rt, alloc, store, &mut runners, &mut stream, workload)?;
    if found_all(&runners) {
        Some(Times { reads, rounds })
    } else {
        None
    }
}

// How long the last rounds take.
fn time_last<R: Clock + Threads + Wait + Sync, S: Source + Drop>(
    rt: &R,
    alloc: Global,
    store: &mut Store,
    runners: &mut Vec<Runner>,
    stream: &mut StreamReader<S>,
    workload: Workload,
) -> Option<Duration> {
    let mut rounds = next_rounds(alloc, stream, workload.rounds, workload.in_round)?;
    time_mode(rt, store, runners, &mut rounds, workload.mode)
}

// How long the rounds take, with readers that read on or not.
fn time_mode<R: Clock + Threads + Wait + Sync>(
    rt: &R,
    store: &mut Store,
    runners: &mut Vec<Runner>,
    rounds: &mut Vec<Vec<Delivery>>,
    mode: Mode,
) -> Option<Duration> {
    if mode == Mode::Busy {
        // On four processors the writer then has one of its own.
        let _spare = runners.pop();
        time_busy(rt, store, runners, rounds)
    } else {
        time_rounds(rt, store, rounds)
    }
}

// Takes this many records, and answers their keys.
fn load<R: Threads + Wait + Sync, S: Source + Drop>(
    rt: &R,
    alloc: Global,
    store: &mut Store,
    stream: &mut StreamReader<S>,
    records: usize,
) -> Option<Vec<Key>> {
    let mut keys = Vec::new(alloc);
    for delivery in next_deliveries(alloc, stream, records)? {
        add_keys(&mut keys, &delivery)?;
        take_one(rt, alloc, store, delivery)?;
    }
    Some(keys)
}

/// Adds the keys of a delivery.
pub fn add_keys(keys: &mut Vec<Key>, delivery: &Delivery) -> Option<()> {
    for image in delivery.images() {
        keys.push(image.key.dup().ok()?).ok()?;
    }
    Some(())
}

// Takes a round of one delivery.
fn take_one<R: Threads + Wait + Sync>(
    rt: &R,
    alloc: Global,
    store: &mut Store,
    delivery: Delivery,
) -> Option<()> {
    let mut deliveries = Vec::with_capacity(alloc, 1).ok()?;
    deliveries.push(delivery).ok()?;
    store.take(rt, deliveries)
}

/// The next rounds, each of this many messages. The first is to be popped first.
pub fn next_rounds<S: Source + Drop>(
    alloc: Global,
    stream: &mut StreamReader<S>,
    count: usize,
    in_round: usize,
) -> Option<Vec<Vec<Delivery>>> {
    let mut rounds = Vec::new(alloc);
    for _ in 0..count {
        let round = next_deliveries(alloc, stream, in_round)?;
        rounds.push(round).ok()?;
    }
    rounds.reverse();
    Some(rounds)
}

// The next messages of a stream, in deliveries of equal size: their count is this one, or the next multiple of a batch.
fn next_deliveries<S: Source + Drop>(
    alloc: Global,
    stream: &mut StreamReader<S>,
    count: usize,
) -> Option<Vec<Delivery>> {
    let mut deliveries = Vec::new(alloc);
    let in_each = count.min(IN_BATCH).max(1);
    for _ in 0..count.div_ceil(IN_BATCH) {
        let delivery = stream.next_batch(in_each).ok()?;
        deliveries.push(delivery).ok()?;
    }
    Some(deliveries)
}

// How long the readers take to read each key once, or this thread where there are none.
fn time_reads<R: Clock + Threads + Sync>(
    rt: &R,
    store: &Store,
    runners: &mut [Runner],
    keys: &[Key],
) -> Option<Duration> {
    let start = Instant::now(rt).ok()?;
    match store {
        Store::Plain(region) => read_here(region, keys)?,
        Store::Live(_) => read_all(rt, runners),
    }
    start.elapsed(rt).ok()
}

// Reads each key once.
fn read_here(region: &Region, keys: &[Key]) -> Option<()> {
    for key in keys {
        let _cell = region.read(key, None).ok()?;
    }
    Some(())
}

fn time_rounds<R: Clock + Threads + Wait + Sync>(
    rt: &R,
    store: &mut Store,
    rounds: &mut Vec<Vec<Delivery>>,
) -> Option<Duration> {
    let start = Instant::now(rt).ok()?;
    for _ in 0..rounds.len() {
        store.take(rt, rounds.pop()?)?;
    }
    start.elapsed(rt).ok()
}

// How long the rounds take while the readers read on.
fn time_busy<R: Clock + Threads + Wait + Sync>(
    rt: &R,
    store: &mut Store,
    runners: &mut [Runner],
    rounds: &mut Vec<Vec<Delivery>>,
) -> Option<Duration> {
    let (_, took) = join_mut(
        rt,
        &mut || read_on(rt, runners),
        &mut || time_rounds(rt, store, rounds),
    );
    took
}

fn read_on<R: Threads + Sync>(rt: &R, runners: &mut [Runner]) {
    for _ in 0..PASSES {
        read_all(rt, runners);
    }
}
