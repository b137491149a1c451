//! A reader in a thread of its own, beside a writer that takes rounds, loses a tablet and adopts a copy. It learns no front.

use crate::regions::{end, find, open_one};
use pn_apply::Open;
use pn_join::Marks;
use pn_live::{LiveReader, LiveRegion};
use pn_record::Key;
use pn_scan::ScanFault;
use pn_tablet::TabletCopy;
use std::alloc::Global;
use std::sync::Wait;
use std::thread::{Threads, join_mut};
use test_kit::{deliveries, layout};

/// How often the reader reads, and how many rounds the writer takes before it looks up, twice.
const READS: u64 = 5_000;

const ROUNDS: u64 = 100;

/// What the writer does: rounds from a number on; and first the loss of the tablet, which adopts the copy between them.
#[derive(Drop)]
struct Work {
    alloc: Global,
    first: u64,
    copy: Option<TabletCopy>,
}

// Whether the versions that a reader finds never fall. The tablet may recover meanwhile.
fn read_on(reader: &mut LiveReader, key: &Key) -> bool {
    let mut last = 0;
    for pass in 0..READS {
        let number = match find(reader, key) {
            Ok(Some((version, 1))) => version.number,
            Ok(None) if last == 0 => 0,
            Err(ScanFault::Recovering(_)) => last,
            _ => return false,
        };
        if number < last {
            return false;
        }
        last = number;
    }
    true
}

// Takes rounds from a number on. Whether all were taken.
fn take_rounds<R: Threads + Wait + Sync>(
    rt: &R,
    alloc: Global,
    live: &mut LiveRegion,
    first: u64,
) -> bool {
    for number in first..first.saturating_add(ROUNDS) {
        if take_round(rt, alloc, live, number).is_none() {
            return false;
        }
    }
    true
}

// Takes the round of this number, which brings the key the version of it. Answers how many records changed.
fn take_round<R: Threads + Wait + Sync>(
    rt: &R,
    alloc: Global,
    live: &mut LiveRegion,
    number: u64,
) -> Option<u64> {
    let given = deliveries(alloc, number, "k", number)?;
    let (round, _front) = live.round(rt, given, 1, &Open).ok()?;
    Some(round.changed)
}

// Whether each call went well.
fn write<R: Threads + Wait + Sync>(rt: &R, live: &mut LiveRegion, work: &mut Work) -> bool {
    let (alloc, first) = (work.alloc, work.first);
    let went_well = match work.copy.take() {
        Some(copy) => recover(rt, alloc, live, first, copy),
        None => take_rounds(rt, alloc, live, first),
    };
    went_well && take_rounds(rt, alloc, live, first.saturating_add(ROUNDS))
}

fn recover<R: Threads + Wait + Sync>(
    rt: &R,
    alloc: Global,
    live: &mut LiveRegion,
    first: u64,
    copy: TabletCopy,
) -> bool {
    live.lose(rt, 0).is_ok() && take_rounds(rt, alloc, live, first) && live.adopt(rt, copy).is_ok()
}

// Whether the reader finds no fall and the writer is refused nothing, each in a thread of its own.
fn run_beside<R: Threads + Wait + Sync>(
    rt: &R,
    live: &mut LiveRegion,
    reader: &mut LiveReader,
    work: &mut Work,
    key: &Key,
) -> bool {
    let (reads, writes) = join_mut(
        rt,
        &mut || read_on(reader, key),
        &mut || write(rt, live, work),
    );
    reads && writes
}

// A race without a loss. Whether it went well.
fn race_rounds<R: Threads + Wait + Sync>(
    rt: &R,
    alloc: Global,
    live: &mut LiveRegion,
    reader: &mut LiveReader,
    key: &Key,
) -> bool {
    let mut rounds = Work {
        alloc,
        first: 1,
        copy: None,
    };
    run_beside(rt, live, reader, &mut rounds, key)
}

// A race with a loss, and an adoption of a copy from before. Whether it went well.
fn race_recovery<R: Threads + Wait + Sync>(
    rt: &R,
    alloc: Global,
    live: &mut LiveRegion,
    reader: &mut LiveReader,
    key: &Key,
) -> bool {
    let mut recovery = Work {
        alloc,
        first: 201,
        copy: reader.copy(0, &Marks::new(alloc)).ok(),
    };
    recovery.copy.is_some() && run_beside(rt, live, reader, &mut recovery, key)
}

// The number that the reader finds, where it finds one.
fn number(reader: &mut LiveReader, key: &Key) -> Option<u64> {
    let (version, _) = find(reader, key).ok()??;
    Some(version.number)
}

// Answers the number that the reader finds after both races and a last round.
fn race_twice<R: Threads + Wait + Sync>(
    rt: &R,
    alloc: Global,
    live: &mut LiveRegion,
    reader: &mut LiveReader,
) -> Option<u64> {
    let key = Key::of(alloc, "k").ok()?;
    let went_well = race_rounds(rt, alloc, live, reader, &key)
        && race_recovery(rt, alloc, live, reader, &key)
        && take_round(rt, alloc, live, 401).is_some();
    if went_well {
        number(reader, &key)
    } else {
        None
    }
}

/// The last number, where no version fell and no round was missed.
pub(crate) fn run_race<R: Threads + Wait + Sync>(rt: &R, alloc: Global) -> Option<String> {
    let layout = layout(alloc, "")?;
    let (mut live, mut reader) = open_one(rt, alloc, layout)?;
    let last = race_twice(rt, alloc, &mut live, &mut reader);
    end(rt, alloc, live);
    format!(in alloc; "{}", last?).ok()
}
