//! Steps on a live region and its reader, which learns no front: the worked rows of recovery, and tablets that adopt copies of different
//! covers, and marks that advance to what all have taken.
//!
//! `BOUNDS|STEP|STEP|..`: the reader has entered the tablets before each change, and finds it in each kind of call.

use crate::regions::{end, open_one};
use pn_apply::Open;
use pn_join::{Marks, Name, raise_at};
use pn_live::{LiveReader, LiveRegion};
use pn_record::Cell;
use pn_region::{Region, Since};
use pn_scan::{Page, Query, Row};
use pn_tablet::TabletCopy;
use std::alloc::Global;
use std::sync::Wait;
use std::thread::Threads;
use test_kit::{deliveries, keys, layout};

/// What each step answers, with bars after the answers.
pub(crate) fn take_steps<R: Threads + Wait + Sync>(
    rt: &R,
    alloc: Global,
    line: &str,
) -> Option<String> {
    let (bounds, steps) = line.split_once('|')?;
    let layout = layout(alloc, bounds)?;
    let (live, reader) = open_one(rt, alloc, layout)?;
    take_and_end(rt, alloc, live, reader, bounds, steps)
}

/// What each step answers, with bars after the answers, on a region and its reader. Copies are adopted between the bounds.
pub(crate) fn take_and_end<R: Threads + Wait + Sync>(
    rt: &R,
    alloc: Global,
    live: LiveRegion,
    reader: LiveReader,
    bounds: &str,
    steps: &str,
) -> Option<String> {
    let (mut live, mut reader) = (live, reader);
    let told = take_all(rt, alloc, &mut live, &mut reader, bounds, steps);
    if end(rt, alloc, live) { told } else { None }
}

fn take_all<R: Threads + Wait + Sync>(
    rt: &R,
    alloc: Global,
    live: &mut LiveRegion,
    reader: &mut LiveReader,
    bounds: &str,
    steps: &str,
) -> Option<String> {
    let mut told = String::new(alloc);
    for step in steps.split('|') {
        let answer = take_one(rt, alloc, live, reader, bounds, step)?;
        push_answer(&mut told, answer.as_str())?;
    }
    Some(told)
}

fn push_answer(told: &mut String, answer: &str) -> Option<()> {
    told.push_str(answer.trim_end()).ok()?;
    told.push_str("|").ok()
}

fn take_one<R: Threads + Wait + Sync>(
    rt: &R,
    alloc: Global,
    live: &mut LiveRegion,
    reader: &mut LiveReader,
    bounds: &str,
    step: &str,
) -> Option<String> {
    let (word, rest) = step.split_once(' ').unwrap_or((step, ""));
    match word {
        "take" => take(rt, alloc, live, rest),
        "adopt" => adopt(rt, alloc, live, bounds, rest),
        "counts" => counts(alloc, reader),
        "get" => get(alloc, reader, rest),
        "scan" => scan(alloc, reader),
        "copy" => copy(alloc, reader, rest),
        _ => take_short(rt, alloc, live, word, rest),
    }
}

// The steps of a region alone.
fn take_short<R: Wait>(
    rt: &R,
    alloc: Global,
    live: &mut LiveRegion,
    word: &str,
    rest: &str,
) -> Option<String> {
    match word {
        "lose" => lose(rt, alloc, live),
        "advance" => advance(alloc, live),
        "notices" => notices(alloc, live, rest),
        "last" => number_text(alloc, live.last_number()),
        "mark" => position_text(alloc, live.marks()),
        "common" => common(alloc, live),
        _ => format!(in alloc; "{} records", live.tablet(0).cells().len()).ok(),
    }
}

fn number_text(alloc: Global, number: u64) -> Option<String> {
    format!(in alloc; "{number}").ok()
}

fn position_text(alloc: Global, marks: &Marks) -> Option<String> {
    let name = Name::read(b"east").ok()?;
    number_text(alloc, marks.position(&name))
}

// What all tablets have taken.
fn common(alloc: Global, live: &LiveRegion) -> Option<String> {
    let marks = live.common_marks().ok()?;
    position_text(alloc, &marks)
}

fn advance(alloc: Global, live: &mut LiveRegion) -> Option<String> {
    live.advance().ok()?;
    String::from_str(alloc, "advanced").ok()
}

fn lose<R: Wait>(rt: &R, alloc: Global, live: &mut LiveRegion) -> Option<String> {
    live.lose(rt, 0).ok()?;
    String::from_str(alloc, "lost").ok()
}

fn counts(alloc: Global, reader: &mut LiveReader) -> Option<String> {
    let counts = reader.counts(0)?;
    format!(in alloc; "{}, {} deleted", counts.records, counts.deleted).ok()
}

// Takes a round from a position on.
fn take<R: Threads + Wait + Sync>(
    rt: &R,
    alloc: Global,
    live: &mut LiveRegion,
    rest: &str,
) -> Option<String> {
    let (first, words) = rest.split_once(' ')?;
    let given = deliveries(alloc, first.parse::<u64>().ok()?, words, 0)?;
    match live.round(rt, given, 1, &Open) {
        Ok((round, _front)) => format!(in alloc; "{} changed", round.changed).ok(),
        Err(fault) => format!(in alloc; "{fault}").ok(),
    }
}

// Adopts a copy of the tablet of a region with the same bounds that took these messages.
fn adopt<R: Threads + Wait + Sync>(
    rt: &R,
    alloc: Global,
    live: &mut LiveRegion,
    bounds: &str,
    rest: &str,
) -> Option<String> {
    let (tablet, words) = rest.split_once(' ')?;
    let tablet = tablet.parse::<usize>().ok()?;
    let copy = copy_of(rt, alloc, bounds, tablet, words)?;
    let tablet = live.tablet_for(&copy.range)?;
    match live.adopt(rt, copy) {
        Ok(_front) => format!(in alloc; "adopted {tablet}").ok(),
        Err(fault) => format!(in alloc; "{fault}").ok(),
    }
}

/// A copy of the tablet of a region between these bounds that took these messages.
pub(crate) fn copy_of<R: Threads + Sync>(
    rt: &R,
    alloc: Global,
    bounds: &str,
    tablet: usize,
    words: &str,
) -> Option<TabletCopy> {
    let layout = layout(alloc, bounds)?;
    let mut region = Region::new(alloc, layout).ok()?;
    if !is_taken(rt, alloc, &mut region, words) || tablet >= region.layout().count() {
        return None;
    }
    region.copy(tablet, &Marks::new(alloc)).ok()
}

fn is_taken<R: Threads + Sync>(rt: &R, alloc: Global, region: &mut Region, words: &str) -> bool {
    match deliveries(alloc, 1, words, 0) {
        Some(given) => region.round(rt, given, 1, &Open).is_ok(),
        None => false,
    }
}

fn notices(alloc: Global, live: &LiveRegion, number: &str) -> Option<String> {
    let number = number.parse::<u64>().ok()?;
    match live.notices_since(number).ok()? {
        Since::Notices { next, list } => {
            format!(in alloc; "{} notices, next {next}", list.len()).ok()
        }
        Since::Missed { next } => format!(in alloc; "missed, next {next}").ok(),
    }
}

// The number of each key's version.
fn get(alloc: Global, reader: &mut LiveReader, words: &str) -> Option<String> {
    let keys = keys(alloc, words)?;
    match reader.get(&keys) {
        Ok(cells) => cells_text(alloc, &cells),
        Err(fault) => format!(in alloc; "{fault}").ok(),
    }
}

fn cells_text(alloc: Global, cells: &[Option<Cell>]) -> Option<String> {
    let mut text = String::new(alloc);
    for cell in cells {
        add_cell(&mut text, cell)?;
    }
    Some(text)
}

fn add_cell(text: &mut String, cell: &Option<Cell>) -> Option<()> {
    match cell {
        Some(cell) => write!(text, "{} ", cell.version().number).ok(),
        None => text.push_str("none ").ok(),
    }
}

fn scan(alloc: Global, reader: &mut LiveReader) -> Option<String> {
    let query = Query::new(None, None, None, Vec::new(alloc), 100)?;
    match reader.scan(&query) {
        Ok(page) => page_text(alloc, &page),
        Err(fault) => format!(in alloc; "{fault}").ok(),
    }
}

// The keys of a page, with the numbers of their versions.
fn page_text(alloc: Global, page: &Page) -> Option<String> {
    let mut text = String::new(alloc);
    for row in &page.rows {
        add_row(&mut text, row)?;
    }
    Some(text)
}

fn add_row(text: &mut String, row: &Row) -> Option<()> {
    write!(text, "{}{} ", row.key.as_str(), row.cell.version().number).ok()
}

// How many records and marks a copy has that is to reach a position.
fn copy(alloc: Global, reader: &mut LiveReader, position: &str) -> Option<String> {
    let need = need(alloc, position.parse::<u64>().ok()?)?;
    match reader.copy(0, &need) {
        Ok(copy) => copy_text(alloc, &copy),
        Err(fault) => format!(in alloc; "{fault}").ok(),
    }
}

fn copy_text(alloc: Global, copy: &TabletCopy) -> Option<String> {
    format!(in alloc; "{} records, {} mark", copy.cells.len(), copy.marks.len()).ok()
}

fn need(alloc: Global, position: u64) -> Option<Marks> {
    let name = Name::read(b"east").ok()?;
    let mut need = Marks::new(alloc);
    raise_at(&mut need, name, position).ok()?;
    Some(need)
}
