//! What looks into a view find, in words.

use crate::scans::TakesTurns;
use pn_join::NoMemory;
use pn_record::{Cell, Key, Version};
use pn_scan::{
    Page, PageStep, PageWalk, Query, ScanFault, View, get, page, read_at_least, read_query,
};
use serde_json::Value;
use std::alloc::Global;
use std::test::Fail;
use test_kit::keys;

/// In how many steps a page is found at most.
const STEPS: u32 = 100;

/// The keys of a page, the one after which there is more, and for how many rows both tablets were asked; or why there is no page.
pub(crate) fn page_reply(
    alloc: Global,
    view: &mut TakesTurns,
    asked: &str,
) -> Result<String, Fail> {
    let query = query_of(alloc, asked)?;
    let text = page_text(alloc, view, &query)?;
    let [first, second] = view.rooms;
    Ok(format!(in alloc; "{text}, rooms {first} {second}")?)
}

fn page_text(alloc: Global, view: &mut TakesTurns, query: &Query) -> Result<String, Fail> {
    match find_page(alloc, view, query) {
        Ok(page) => keys_text(alloc, &page),
        Err(fault) => fault_text(alloc, &fault),
    }
}

fn find_page(alloc: Global, view: &mut TakesTurns, query: &Query) -> Result<Page, ScanFault> {
    page(alloc, view, query)
}

fn fault_text(alloc: Global, fault: &ScanFault) -> Result<String, Fail> {
    Ok(format!(in alloc; "{fault}")?)
}

/// The keys of a page that is resumed unit by unit after a first look, and in how many steps it was found; or why
/// there is no page.
pub(crate) fn walk_reply(
    alloc: Global,
    view: &mut TakesTurns,
    asked: &str,
) -> Result<String, Fail> {
    let query = query_of(alloc, asked)?;
    let walk = begin_walk(alloc, view, &query);
    walked_text(alloc, view, &query, walk)
}

// The page that a walk finds, and in how many steps.
fn walked_text(
    alloc: Global,
    view: &mut TakesTurns,
    query: &Query,
    begun: PageWalk,
) -> Result<String, Fail> {
    let mut walk = begun;
    for step in 1..STEPS {
        match step_on(alloc, view, query, walk) {
            Ok(PageStep::Done(page)) => return steps_text(alloc, &page, step),
            Ok(PageStep::Next(next)) => walk = next,
            Err(fault) => return stopped_text(alloc, &fault, step),
        }
    }
    Ok(String::new(alloc))
}

fn stopped_text(alloc: Global, fault: &ScanFault, steps: u32) -> Result<String, Fail> {
    Ok(format!(in alloc; "{fault} after {steps} steps")?)
}

fn begin_walk(alloc: Global, view: &TakesTurns, query: &Query) -> PageWalk {
    PageWalk::new(alloc, view.layout(), query)
}

fn step_on(
    alloc: Global,
    view: &mut TakesTurns,
    query: &Query,
    walk: PageWalk,
) -> Result<PageStep, ScanFault> {
    walk.go_on(alloc, view, query, 1)
}

fn steps_text(alloc: Global, page: &Page, steps: u32) -> Result<String, Fail> {
    let text = keys_text(alloc, page)?;
    Ok(format!(in alloc; "{text} in {steps} steps")?)
}

fn query_of(alloc: Global, text: &str) -> Result<Query, Fail> {
    Ok(read_query(alloc, &Value::from_str(alloc, text)?)?)
}

fn keys_text(alloc: Global, page: &Page) -> Result<String, Fail> {
    let mut text = String::new(alloc);
    for row in &page.rows {
        text.push_str(row.key.as_str())?;
    }
    if let Some(next) = &page.next {
        push_after(&mut text, next)?;
    }
    Ok(text)
}

fn push_after(text: &mut String, next: &Query) -> Result<(), Fail> {
    match next.after() {
        Some(key) => Ok(write!(text, " then {}", key.as_str())?),
        None => Ok(()),
    }
}

/// Which of the keys have a record, or why there is no answer.
pub(crate) fn get_reply(alloc: Global, view: &mut TakesTurns, words: &str) -> Result<String, Fail> {
    let keys = keys(alloc, words).ok_or(NoMemory)?;
    match get_cells(alloc, view, &keys) {
        Ok(cells) => cells_text(alloc, &cells),
        Err(fault) => fault_text(alloc, &fault),
    }
}

fn get_cells(
    alloc: Global,
    view: &mut TakesTurns,
    keys: &[Key],
) -> Result<Vec<Option<Cell>>, ScanFault> {
    get(alloc, view, keys)
}

fn cells_text(alloc: Global, cells: &[Option<Cell>]) -> Result<String, Fail> {
    let mut text = String::new(alloc);
    for cell in cells {
        text.push_str(if cell.is_some() { "+" } else { "-" })?;
    }
    Ok(text)
}

/// Whether a key has a record whose version has this number or a greater one, or why there is no answer.
pub(crate) fn read_reply(
    alloc: Global,
    view: &mut TakesTurns,
    asked: &str,
) -> Result<String, Fail> {
    let (key, number) = asked.split_once(' ').unwrap_or((asked, "0"));
    let number = number.parse::<u64>()?;
    let key = Key::of(alloc, key)?;
    match is_found(view, &key, number) {
        Ok(is_found) => Ok(format!(in alloc; "{is_found}")?),
        Err(fault) => fault_text(alloc, &fault),
    }
}

fn is_found(view: &mut TakesTurns, key: &Key, number: u64) -> Result<bool, ScanFault> {
    let cell = read_at_least(view, key, Version::new(1, number))?;
    Ok(cell.is_some())
}
