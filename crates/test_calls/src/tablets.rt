//! Cases of `pn_tablet`: `layout`, `copy`, `cut` (by copies), `parts` (of a copy) and `faults`, damaged copies by `prefixes` and
//! `crossed`, and copies that 1 to 9 `workers` read.
//!
//! A newline of a copy is written `|`, and `~3~ab~` is `ababab`.

mod copies;

use crate::tablets::copies::{copy, crossed, cut, faults, layout, prefixes, read_by_workers};
use pn_join::{Marks, NoMemory};
use pn_record::{Key, Records};
use pn_tablet::{Range, TabletCopy, TabletOp, TabletState, cells_within, read_copy, write_copy};
use std::alloc::Global;
use std::test::Fail;
use std::thread::Threads;
use test_kit::newlines;

/// The answer to a case.
pub(crate) fn answer<R: Threads>(rt: &R, alloc: Global, line: &str) -> Result<String, Fail> {
    let (what, text) = line.split_once(' ').unwrap_or((line, ""));
    match what {
        "layout" => layout(alloc, text),
        "copy" => copy(alloc, text),
        "cut" => cut(alloc, text),
        "prefixes" => prefixes(alloc, text),
        "crossed" => crossed(alloc, text),
        "parts" => parts(alloc, text),
        "workers" => read_by_workers(rt, alloc, text),
        _ => faults(alloc),
    }
}

/// Of a key and a copy: the keys of the copy from this one on; what a tablet of the copy's parts answers that took no stream into all of them; and
/// whether it gives the copy once it took them.
pub(crate) fn parts(alloc: Global, words: &str) -> Result<String, Fail> {
    let (from, bars) = words.split_once(' ').unwrap_or((words, ""));
    let copy = newlines(alloc, bars)?;
    let mut text = keys_from(alloc, from, copy.as_str())?;
    push_copies(alloc, &mut text, copy.as_str())?;
    Ok(text)
}

// The keys of a copy from one on.
fn keys_from(alloc: Global, from: &str, copy: &str) -> Result<String, Fail> {
    let cells = read_copy(alloc, copy.as_bytes())?.cells;
    keys_text(alloc, &cells_within(&range_from(alloc, from)?, &cells)?)
}

fn range_from(alloc: Global, from: &str) -> Result<Range, Fail> {
    Ok(Range::new(Some(Key::of(alloc, from)?), None).ok_or(NoMemory)?)
}

fn keys_text(alloc: Global, cells: &Records) -> Result<String, Fail> {
    let mut text = String::new(alloc);
    for (key, _cell) in cells.iter() {
        text.push_str(key.as_str())?;
    }
    Ok(text)
}

// Adds what the tablet answers before it took the streams, and whether it gives the copy then.
fn push_copies(alloc: Global, text: &mut String, copy: &str) -> Result<(), Fail> {
    let mut tablet = tablet_of(alloc, copy)?;
    push_copied(alloc, text, &mut tablet, copy)
}

fn push_copied(
    alloc: Global,
    text: &mut String,
    tablet: &mut TabletState,
    copy: &str,
) -> Result<(), Fail> {
    write!(text, "; {}", copied(alloc, tablet)?)?;
    take_marks(alloc, tablet, copy)?;
    let is_kept = copied(alloc, tablet)?.as_str() == copy;
    Ok(write!(text, "; kept: {is_kept}")?)
}

// A tablet of the parts of a text's copy.
fn tablet_of(alloc: Global, copy: &str) -> Result<TabletState, Fail> {
    let copy = read_copy(alloc, copy.as_bytes())?;
    Ok(tablet_of_copy(alloc, copy)?)
}

// A tablet of a copy's parts that took no stream into all of them.
fn tablet_of_copy(alloc: Global, copy: TabletCopy) -> Result<TabletState, NoMemory> {
    let TabletCopy {
        range,
        marks,
        cells,
    } = copy;
    TabletState::of_parts(alloc, range, cells, Marks::new(alloc), marks)
}

// Has a tablet take a copy's streams.
fn take_marks(alloc: Global, tablet: &mut TabletState, copy: &str) -> Result<(), Fail> {
    let marks = read_copy(alloc, copy.as_bytes())?.marks;
    let cells = Records::new(alloc);
    tablet.apply(&TabletOp::Join { cells, marks })?;
    Ok(())
}

// The text of the tablet's copy, or why it gives none.
fn copied(alloc: Global, tablet: &TabletState) -> Result<String, Fail> {
    match tablet.copy(&Marks::new(alloc)) {
        Ok(copy) => Ok(write_copy(alloc, &copy)?),
        Err(fault) => Ok(format!(in alloc; "{fault}")?),
    }
}
