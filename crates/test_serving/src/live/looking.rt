//! A page and a get that are resumed while rounds change the tablets: a look shows its tablet as its entry found it.

use crate::regions::{end, open_one};
use pn_apply::Open;
use pn_live::{GetWalk, LiveReader, LiveRegion};
use pn_record::{Cell, Value};
use pn_scan::{Condition, Page, PageStep, PageWalk, Query, View};
use std::alloc::Global;
use std::sync::Wait;
use std::thread::Threads;
use test_kit::{deliveries, keys, layout};

/// How many records the tablet has: more than one entry looks at.
const RECORDS: u64 = 1_500;

/// In how many steps a page is found at most.
const STEPS: u32 = 100;

// Keys in order, of which the last has version 7.
fn words(alloc: Global) -> Option<String> {
    let mut words = String::new(alloc);
    for number in 0..RECORDS {
        write!(words, "k{} ", 10_000 + number).ok()?;
    }
    words.push_str("last@7").ok()?;
    Some(words)
}

// Takes a round of these words.
fn take<R: Threads + Wait + Sync>(
    rt: &R,
    alloc: Global,
    live: &mut LiveRegion,
    first: u64,
    words: &str,
) -> bool {
    match deliveries(alloc, first, words, 5) {
        Some(given) => live.round(rt, given, 1, &Open).is_ok(),
        None => false,
    }
}

// A query of the records whose field is this text.
fn query_of(alloc: Global, text: &str) -> Option<Query> {
    let condition = condition_of(alloc, text)?;
    let mut conditions = Vec::new(alloc);
    conditions.push(condition).ok()?;
    Query::new(None, None, None, conditions, 10)
}

fn condition_of(alloc: Global, text: &str) -> Option<Condition> {
    let field = String::from_str(alloc, "v").ok()?;
    let text = String::from_str(alloc, text).ok()?;
    let value = Value::Text(text);
    Some(Condition::Eq { field, value })
}

// A walk whose first step has not come to the page.
fn begin_page(alloc: Global, reader: &mut LiveReader, query: &Query) -> Option<PageWalk> {
    let walk = PageWalk::new(alloc, reader.layout(), query);
    match walk.go_on(alloc, reader, query, 1).ok()? {
        PageStep::Done(_page) => None,
        PageStep::Next(walk) => Some(walk),
    }
}

// The page that a walk comes to.
fn end_page(
    alloc: Global,
    reader: &mut LiveReader,
    query: &Query,
    begun: PageWalk,
) -> Option<Page> {
    let mut walk = begun;
    for _ in 0..STEPS {
        match walk.go_on(alloc, reader, query, 100).ok()? {
            PageStep::Done(page) => return Some(page),
            PageStep::Next(next) => walk = next,
        }
    }
    None
}

// The page that is found where a round comes after the entry.
fn page_beside<R: Threads + Wait + Sync>(
    rt: &R,
    alloc: Global,
    live: &mut LiveRegion,
    reader: &mut LiveReader,
    query: &Query,
) -> Option<Page> {
    let walk = begin_page(alloc, reader, query)?;
    if walk.units() == 0 || !take(rt, alloc, live, RECORDS + 2, "last@8") {
        return None;
    }
    end_page(alloc, reader, query, walk)
}

// Adds the numbers of the versions of a page's rows.
fn push_numbers(text: &mut String, page: &Page) -> Option<()> {
    for row in &page.rows {
        write!(text, " {}", row.cell.version().number).ok()?;
    }
    Some(())
}

fn show<R: Threads + Wait + Sync>(
    rt: &R,
    alloc: Global,
    live: &mut LiveRegion,
    reader: &mut LiveReader,
) -> Option<String> {
    if !take_words(rt, alloc, live) {
        return None;
    }
    let mut shown = String::new(alloc);
    push_shown(rt, &mut shown, live, reader)?;
    Some(shown)
}

fn push_shown<R: Threads + Wait + Sync>(
    rt: &R,
    shown: &mut String,
    live: &mut LiveRegion,
    reader: &mut LiveReader,
) -> Option<()> {
    shown.push_str("found").ok()?;
    push_beside(rt, shown, live, reader)?;
    shown.push_str(", then").ok()?;
    push_now(shown, reader, "7")?;
    shown.push_str(", later").ok()?;
    push_now(shown, reader, "8")
}

// Takes a round of all records.
fn take_words<R: Threads + Wait + Sync>(rt: &R, alloc: Global, live: &mut LiveRegion) -> bool {
    match words(alloc) {
        Some(words) => take(rt, alloc, live, 1, words.as_str()),
        None => false,
    }
}

fn push_beside<R: Threads + Wait + Sync>(
    rt: &R,
    text: &mut String,
    live: &mut LiveRegion,
    reader: &mut LiveReader,
) -> Option<()> {
    let alloc = *text.allocator();
    let query = query_of(alloc, "7")?;
    let page = page_beside(rt, alloc, live, reader, &query)?;
    push_numbers(text, &page)
}

fn push_now(text: &mut String, reader: &mut LiveReader, field: &str) -> Option<()> {
    let query = query_of(*text.allocator(), field)?;
    let page = scan(reader, &query)?;
    push_numbers(text, &page)
}

fn scan(reader: &mut LiveReader, query: &Query) -> Option<Page> {
    reader.scan(query).ok()
}

/// What a page shows that a round comes into after its entry, what the same page shows then, and what one of the round shows.
pub(crate) fn page_over_round<R: Threads + Wait + Sync>(rt: &R, alloc: Global) -> Option<String> {
    let layout = layout(alloc, "")?;
    let (mut live, mut reader) = open_one(rt, alloc, layout)?;
    let shown = show(rt, alloc, &mut live, &mut reader);
    end(rt, alloc, live);
    shown
}

// Reads one key before a round, and the others after it.
fn get_beside<R: Threads + Wait + Sync>(
    rt: &R,
    alloc: Global,
    live: &mut LiveRegion,
    reader: &mut LiveReader,
) -> Option<String> {
    if !take(rt, alloc, live, 1, "a n") {
        return None;
    }
    let walk = begin_get(alloc, reader)?;
    let left = walk.left();
    if !take(rt, alloc, live, 3, "a@6 n@6 z@6") {
        return None;
    }
    let (count, numbers) = end_get(alloc, reader, walk)?;
    format!(in alloc; "{left} of {count} left, then{numbers}").ok()
}

// A get of three keys that has read one.
fn begin_get(alloc: Global, reader: &mut LiveReader) -> Option<GetWalk> {
    let walk = GetWalk::new(alloc, keys(alloc, "n a z")?);
    walk.go_on(reader, 1).ok()
}

// How many keys a get has, and the numbers of the versions that it gets by one step more.
fn end_get(alloc: Global, reader: &mut LiveReader, begun: GetWalk) -> Option<(usize, String)> {
    let walk = begun.go_on(reader, 5).ok()?;
    if walk.left() > 0 {
        return None;
    }
    let (keys, cells) = walk.end().ok()?;
    let numbers = numbers_of(alloc, &cells)?;
    Some((keys.len(), numbers))
}

// The numbers of the versions of cells; none where a key has no record.
fn numbers_of(alloc: Global, cells: &[Option<Cell>]) -> Option<String> {
    let mut text = String::new(alloc);
    for cell in cells {
        let cell = cell.as_ref()?;
        write!(text, " {}", cell.version().number).ok()?;
    }
    Some(text)
}

/// How many keys a get has left when a round comes, and the numbers of the versions that it gets.
pub(crate) fn get_over_round<R: Threads + Wait + Sync>(rt: &R, alloc: Global) -> Option<String> {
    let layout = layout(alloc, "m")?;
    let (mut live, mut reader) = open_one(rt, alloc, layout)?;
    let got = get_beside(rt, alloc, &mut live, &mut reader);
    end(rt, alloc, live);
    got
}
