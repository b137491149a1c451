//! Cases of copies, and of layouts and cuts, by workers too.

use CopyTextFault::{BadLine, NotRising, Truncated};
use pn_join::{Name, NoMemory, StreamName};
use pn_record::Key;
use pn_tablet::{
    CopyCount, CopyFault, CopyStep, CopyText, CopyTextFault, CutFault, Layout, LayoutFault,
    OpFault, TabletCopy, layout_of_copies, read_copy, read_copy_by, write_copy,
};
use std::alloc::{AllocError, Global};
use std::fmt::Display;
use std::test::Fail;
use std::thread::Threads;
use test_kit::{ReplyRuns, keys, newlines, spelled_lines};

/// Whether the text is a copy that is written as it was read, or its fault.
pub(crate) fn copy(alloc: Global, bars: &str) -> Result<String, Fail> {
    let text = spelled_lines(alloc, bars)?;
    match read_copy(alloc, text.as_bytes()) {
        Ok(copy) => kept_and_made(alloc, copy, text.as_str()),
        Err(fault) => Ok(format!(in alloc; "{fault}")?),
    }
}

// Whether a copy is written as the text that it was read from, and whether its lines make the same.
fn kept_and_made(alloc: Global, copy: TabletCopy, text: &str) -> Result<String, Fail> {
    let whole = write_copy(alloc, &copy)?;
    let is_kept = whole.as_str() == text;
    let is_made = made(alloc, copy)?.as_slice() == whole.as_bytes();
    Ok(format!(in alloc; "a copy, kept: {is_kept}, made: {is_made}")?)
}

// The text of a copy, made a line at a time.
fn made(alloc: Global, copy: TabletCopy) -> Result<Vec<u8>, NoMemory> {
    let mut text = Vec::new(alloc);
    if let Some(mut lines) = counted(copy)? {
        for _ in 0..lines.line_count() {
            text.reserve(60_000)?;
            lines.append_line(&mut text);
        }
    }
    Ok(text)
}

// A copy whose lines are counted a record at a time; none where it has more than 1,000 records.
fn counted(copy: TabletCopy) -> Result<Option<CopyText>, NoMemory> {
    let mut count = CopyCount::new(copy);
    for _ in 0..1_000 {
        match count.go_on(1)? {
            CopyStep::Done(lines) => return Ok(Some(lines)),
            CopyStep::Next(next) => count = next,
        }
    }
    Ok(None)
}

fn fault_of(alloc: Global, text: &[u8]) -> Option<CopyTextFault> {
    read_copy(alloc, text).err()
}

/// How many proper prefixes a text has, and how many of them are truncated.
pub(crate) fn prefixes(alloc: Global, bars: &str) -> Result<String, Fail> {
    let text = newlines(alloc, bars)?;
    let bytes = text.as_bytes();
    let mut truncated = 0u64;
    for len in 0..bytes.len() {
        if fault_of(alloc, &bytes[..len]) == Some(Truncated) {
            truncated = truncated.saturating_add(1);
        }
    }
    Ok(format!(in alloc; "{truncated} of {}", bytes.len())?)
}

// `-` is a bad line, `=` another copy, `k` a key that the next line's does not rise above, `t` a truncated text.
fn mark(fault: Option<CopyTextFault>, line: u64) -> char {
    match fault {
        None => '=',
        Some(BadLine(number)) if number == line => '-',
        Some(NotRising(number)) if number == line.saturating_add(1) => 'k',
        Some(Truncated) => 't',
        Some(_) => '?',
    }
}

/// A mark for each byte: what an `x` for it makes of the text.
pub(crate) fn crossed(alloc: Global, bars: &str) -> Result<String, Fail> {
    let mut text = newlines(alloc, bars)?.into_bytes();
    let mut marks = String::new(alloc);
    push_marks(alloc, &mut marks, &mut text)?;
    Ok(marks)
}

fn push_marks(alloc: Global, marks: &mut String, text: &mut [u8]) -> Result<(), Fail> {
    let mut line = 1u64;
    for index in 0..text.len() {
        let Some(was) = text.get(index).copied() else {
            break;
        };
        replace(text, index, b'x');
        marks.push(mark(fault_of(alloc, text), line))?;
        replace(text, index, was);
        if was == b'\n' {
            line = line.saturating_add(1);
        }
    }
    Ok(())
}

fn replace(text: &mut [u8], index: usize, by: u8) {
    if let Some(byte) = text.get_mut(index) {
        *byte = by;
    }
}

pub(crate) fn faults(alloc: Global) -> Result<String, Fail> {
    let east = Name::read(b"east")?;
    let mut text = String::new(alloc);
    push_faults(&mut text, east)?;
    Ok(text)
}

fn push_faults(text: &mut String, east: StreamName) -> Result<(), Fail> {
    write!(text, "{}", too_old(east))?;
    push(text, &behind(east))?;
    push(text, &LayoutFault::TooMany)?;
    push(text, &OpFault::WrongRange)?;
    push(text, &OpFault::Memory)?;
    push(text, &CopyFault::Recovering)?;
    push(text, &CopyFault::NoEntry)?;
    push(text, &CopyFault::Memory)?;
    push(text, &CopyTextFault::Memory)
}

fn push<T: Display>(text: &mut String, fault: &T) -> Result<(), Fail> {
    Ok(write!(text, "; {fault}")?)
}

fn too_old(stream: StreamName) -> OpFault {
    OpFault::TooOld {
        stream,
        has: 4,
        needs: 5,
    }
}

fn behind(stream: StreamName) -> CopyFault {
    CopyFault::Behind {
        stream,
        has: 5,
        wanted: 6,
    }
}

fn end_text(end: Option<&Key>) -> &str {
    match end {
        Some(key) => key.as_str(),
        None => "",
    }
}

/// The ends of each tablet of the layout with these bounds, or why there is none.
pub(crate) fn layout(alloc: Global, bounds: &str) -> Result<String, Fail> {
    match Layout::new(keys(alloc, bounds).ok_or(NoMemory)?) {
        Ok(layout) => ends(alloc, &layout),
        Err(fault) => Ok(format!(in alloc; "{fault}")?),
    }
}

/// The ends of each tablet of a layout.
pub(crate) fn ends(alloc: Global, layout: &Layout) -> Result<String, Fail> {
    let mut text = String::new(alloc);
    for tablet in 0..layout.count() {
        let (from, to) = layout.range(tablet);
        write!(text, "({} to {})", end_text(from), end_text(to))?;
    }
    Ok(text)
}

/// The ends of each tablet of the layout of copies, which stand one after another with spaces between, or why there is none.
pub(crate) fn cut(alloc: Global, texts: &str) -> Result<String, Fail> {
    let mut copies = copies_of(alloc, texts)?;
    match layout_of_copies(alloc, &mut copies) {
        Ok(layout) => ends(alloc, &layout),
        Err(fault) => Ok(fault_text(alloc, &fault)?),
    }
}

// The copies, without what is none.
fn copies_of(alloc: Global, texts: &str) -> Result<Vec<TabletCopy>, AllocError> {
    let mut copies = Vec::new(alloc);
    for text in texts.split(' ') {
        add_copy(alloc, &mut copies, text)?;
    }
    Ok(copies)
}

fn add_copy(alloc: Global, copies: &mut Vec<TabletCopy>, bars: &str) -> Result<(), AllocError> {
    let text = newlines(alloc, bars)?;
    match read_copy(alloc, text.as_bytes()) {
        Ok(copy) => Ok(copies.push(copy)?),
        Err(_) => Ok(()),
    }
}

fn fault_text(alloc: Global, fault: &CutFault) -> Result<String, AllocError> {
    match fault {
        CutFault::TooMany => String::from_str(alloc, "more than 64"),
        CutFault::NoCopy(key) => format!(in alloc; "none has {}", key_text(key)),
        CutFault::TwoCopies(key) => format!(in alloc; "two have {}", key_text(key)),
        CutFault::Memory => String::from_str(alloc, "memory"),
    }
}

fn key_text(key: &Option<Key>) -> &str {
    match key {
        Some(key) => key.as_str(),
        None => "the first",
    }
}

/// The most workers that are tried.
const MOST_WORKERS: usize = 9;

/// For each number of workers, whether the text is a copy that is written as it was read, or its fault.
pub(crate) fn read_by_workers<R: Threads>(
    rt: &R,
    alloc: Global,
    bars: &str,
) -> Result<String, Fail> {
    let text = spelled_lines(alloc, bars)?;
    let mut runs = ReplyRuns::new(alloc);
    for workers in 1..=MOST_WORKERS {
        let reply = read(rt, alloc, text.as_bytes(), workers)?;
        runs.push(reply)?;
    }
    runs.text()
}

fn read<R: Threads>(rt: &R, alloc: Global, text: &[u8], workers: usize) -> Result<String, Fail> {
    match read_copy_by(rt, alloc, text, workers) {
        Ok(copy) => kept_text(alloc, &copy, text),
        Err(fault) => Ok(format!(in alloc; "{fault}")?),
    }
}

fn kept_text(alloc: Global, copy: &TabletCopy, text: &[u8]) -> Result<String, Fail> {
    let is_kept = write_copy(alloc, copy)?.as_bytes() == text;
    Ok(format!(in alloc; "a copy, kept: {is_kept}")?)
}
