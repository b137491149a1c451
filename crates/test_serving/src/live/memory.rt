//! A live region that runs out of memory: a call that is refused goes well when it comes again.
//!
//! This case ends well as it is, and ends well too where one allocation of it is refused, whichever it is.

use crate::regions::{end, find, open_one};
use pn_apply::Open;
use pn_join::Marks;
use pn_live::{LiveReader, LiveRegion};
use pn_scan::{Query, View};
use pn_tablet::TabletCopy;
use std::alloc::Global;
use std::sync::Wait;
use std::thread::Threads;
use test_kit::{deliveries, keys, layout};

/// A key of each tablet, and the bounds between them.
const KEYS: &str = "a n z";

const BOUNDS: &str = "m t";

/// How a life of a live region ended.
#[derive(Clone, Copy)]
enum End {
    /// Each call went well, the first time or the second, and found what was brought.
    Well,
    /// There was no memory to open, or none to close.
    Again,
    /// A call was refused twice, or found something else.
    Badly,
}

// Takes the round of this number.
fn take<R: Threads + Wait + Sync>(
    rt: &R,
    alloc: Global,
    live: &mut LiveRegion,
    round: (u64, u64),
) -> bool {
    let (first, number) = round;
    match deliveries(alloc, first, KEYS, number) {
        Some(given) => live.round(rt, given, 2, &Open).is_ok(),
        None => false,
    }
}

fn is_read(alloc: Global, reader: &mut LiveReader, number: u64) -> bool {
    let keys = keys(alloc, KEYS).unwrap_or(Vec::new(alloc));
    for key in &keys {
        match find(reader, key) {
            Ok(Some((version, 1))) if version.number == number => {}
            _ => return false,
        }
    }
    keys.len() == 3
}

fn is_got(alloc: Global, reader: &mut LiveReader, number: u64) -> bool {
    let keys = keys(alloc, KEYS).unwrap_or(Vec::new(alloc));
    let Ok(cells) = reader.get(&keys) else {
        return false;
    };
    cells.iter().flatten().count() == 3
        && cells
            .iter()
            .flatten()
            .all(|cell| cell.version().number == number)
}

fn is_scanned(alloc: Global, reader: &mut LiveReader, number: u64) -> bool {
    let Some(query) = Query::new(None, None, None, Vec::new(alloc), 100) else {
        return false;
    };
    let Ok(page) = reader.scan(&query) else {
        return false;
    };
    page.rows.len() == 3
        && page
            .rows
            .iter()
            .all(|row| row.cell.version().number == number)
}

// Whether a reader finds the versions of this number, or where a call was refused by the next one.
fn is_found(alloc: Global, reader: &mut LiveReader, number: u64) -> bool {
    (is_read(alloc, reader, number) || is_read(alloc, reader, number))
        && (is_got(alloc, reader, number) || is_got(alloc, reader, number))
        && (is_scanned(alloc, reader, number) || is_scanned(alloc, reader, number))
}

// A copy of the last tablet, by the next call where one was refused.
fn copy(alloc: Global, reader: &mut LiveReader) -> Option<TabletCopy> {
    let last = reader.layout().count() - 1;
    match reader.copy(last, &Marks::new(alloc)) {
        Ok(copy) => Some(copy),
        Err(_) => reader.copy(last, &Marks::new(alloc)).ok(),
    }
}

// Takes a round, by the next call where one was refused, and finds what it brought.
fn serve<R: Threads + Wait + Sync>(
    rt: &R,
    alloc: Global,
    live: &mut LiveRegion,
    reader: &mut LiveReader,
    round: (u64, u64),
) -> bool {
    (take(rt, alloc, live, round) || take(rt, alloc, live, round))
        && is_found(alloc, reader, round.1)
}

// Loses the last tablet, by the next call where one was refused.
fn lose<R: Wait>(rt: &R, live: &mut LiveRegion) -> bool {
    let last = live.layout().count() - 1;
    live.lose(rt, last).is_ok() || live.lose(rt, last).is_ok()
}

// Loses the last tablet, and adopts a copy of it, or the other where that was refused.
fn recover<R: Wait>(
    rt: &R,
    live: &mut LiveRegion,
    copy: Option<TabletCopy>,
    other: Option<TabletCopy>,
) -> bool {
    lose(rt, live) && (adopt(rt, live, copy) || adopt(rt, live, other))
}

fn adopt<R: Wait>(rt: &R, live: &mut LiveRegion, copy: Option<TabletCopy>) -> bool {
    match copy {
        Some(copy) => live.adopt(rt, copy).is_ok(),
        None => false,
    }
}

// Advances the marks, by the next call where one was refused.
fn advance(live: &mut LiveRegion) -> bool {
    live.advance().is_ok() || live.advance().is_ok()
}

// A round, a loss, an adoption, marks that advance, and a round after them.
fn go_through<R: Threads + Wait + Sync>(
    rt: &R,
    alloc: Global,
    live: &mut LiveRegion,
    reader: &mut LiveReader,
) -> bool {
    if !serve(rt, alloc, live, reader, (1, 5)) {
        return false;
    }
    let (first, second) = (copy(alloc, reader), copy(alloc, reader));
    recover(rt, live, first, second) && advance(live) && serve(rt, alloc, live, reader, (4, 6))
}

fn begin<R: Wait>(rt: &R, alloc: Global) -> Option<(LiveRegion, LiveReader)> {
    open_one(rt, alloc, layout(alloc, BOUNDS)?)
}

// Opens a live region, lives, and closes.
fn life<R: Threads + Wait + Sync>(rt: &R, alloc: Global) -> End {
    let Some((mut live, mut reader)) = begin(rt, alloc) else {
        return End::Again;
    };
    let lived = go_through(rt, alloc, &mut live, &mut reader);
    match (lived, end(rt, alloc, live)) {
        (false, _) => End::Badly,
        (true, false) => End::Again,
        (true, true) => End::Well,
    }
}

/// How a life of a live region ended, or another one where there was no memory for it.
pub(crate) fn live_twice<R: Threads + Wait + Sync>(rt: &R, alloc: Global) -> Option<String> {
    let end = match life(rt, alloc) {
        End::Again => life(rt, alloc),
        end => end,
    };
    String::from_str(alloc, end_text(end)).ok()
}

fn end_text(end: End) -> &'static str {
    match end {
        End::Well => "well",
        End::Again => "again",
        End::Badly => "badly",
    }
}
