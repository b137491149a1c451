//! Regions that start from texts of copies.

ghost use Rattle.std.specs.Prelude.{◌≤◌, IfOk};
ghost use Rattle.pn_live.specs.Prelude.{tablets_in};
ghost use Rattle.pn_live.specs.declared.region.opening.TheConstants.{MAX_READERS};
ghost use Rattle.pn_serve.specs.Server.Events.{AllRead};

use pn_join::{Marks, Name, NoMemory};
use pn_line::{EndlessSource, InMemory};
use pn_live::LiveRegion;
use pn_serve::{CopiesFault, CopiesReader, OpenedRegion, close_region, open_copies};
use pn_tablet::TabletCopy;
use std::alloc::{AllocError, Global};
use std::sync::Wait;
use std::test::Fail;
use std::thread::Threads;
use test_kit::spelled_lines;

/// How many times a reader is asked at most.
const TURNS: usize = 100;

/// What a region that starts has, whose copies this number of workers read from a text in which a bar is a newline; or why it does not.
pub(crate) fn start<R: Threads + Wait + Sync>(
    rt: &R,
    alloc: Global,
    line: &str,
) -> Result<String, Fail> {
    let (workers, text) = parse_case(alloc, line)?;
    if workers < 1 {
        return Err(Fail::new("no worker"));
    }
    Ok(start_by(rt, alloc, workers, text.as_bytes())?)
}

/// The fault of a text that repeats these lines without end.
pub(crate) fn start_endless<R: Threads + Sync>(
    rt: &R,
    alloc: Global,
    line: &str,
) -> Result<String, Fail> {
    let (workers, text) = parse_case(alloc, line)?;
    let text = text.as_bytes();
    if workers < 1 || text.len() < 1 {
        return Err(Fail::new("no worker, or no line"));
    }
    let mut reader = CopiesReader::new(alloc, EndlessSource::new(text), workers)?;
    match reader.read_some(rt, alloc) {
        Ok(is_read) => Ok(format!(in alloc; "read: {is_read}")?),
        Err(fault) => Ok(format!(in alloc; "{fault}")?),
    }
}

// A number of workers and a text.
fn parse_case(alloc: Global, line: &str) -> Result<(usize, String), Fail> {
    let (workers, bars) = line.split_once(' ').ok_or(NoMemory)?;
    let workers = workers.parse::<usize>()?;
    Ok((workers, spelled_lines(alloc, bars)?))
}

fn start_by<R: Threads + Wait + Sync>(
    rt: &R,
    alloc: Global,
    workers: usize,
    text: &[u8],
) -> Result<String, AllocError>
    requires { 1 ≤ workers }
{
    match open_text(rt, alloc, workers, text, 2) {
        Ok(opened) => show(rt, alloc, opened),
        Err(fault) => format!(in alloc; "{fault}"),
    }
}

/// A region with this many readers that starts from a text of copies.
pub(crate) fn open_text<R: Threads + Wait + Sync>(
    rt: &R,
    alloc: Global,
    workers: usize,
    text: &[u8],
    readers: usize,
) -> Result<OpenedRegion, CopiesFault>
    requires workers { 1 ≤ workers }
    requires readers { (1 ≤ readers) × (readers ≤ MAX_READERS) }
    ensures { IfOk result (λ opened. AllRead (tablets_in opened.live) opened.readers.items) }
{
    let copies = read_copies(rt, alloc, workers, text)?;
    open_copies(rt, alloc, copies, readers)
}

fn read_copies<R: Threads + Sync>(
    rt: &R,
    alloc: Global,
    workers: usize,
    text: &[u8],
) -> Result<Vec<TabletCopy>, CopiesFault>
    requires { 1 ≤ workers }
{
    let mut reader = CopiesReader::new(alloc, InMemory::new(text), workers)?;
    read_all(rt, alloc, &mut reader)?;
    Ok(reader.into_copies())
}

fn read_all<R: Threads + Sync>(
    rt: &R,
    alloc: Global,
    reader: &mut CopiesReader<InMemory<'_>>,
) -> Result<(), CopiesFault> {
    for _ in 0..TURNS {
        if !reader.read_some(rt, alloc)? {
            break;
        }
    }
    Ok(())
}

// What a region has, which is closed.
fn show<R: Wait>(rt: &R, alloc: Global, opened: OpenedRegion) -> Result<String, AllocError>
    requires { AllRead (tablets_in opened.live) opened.readers.items }
{
    let OpenedRegion { live, readers } = opened;
    let count = readers.len();
    let shown = region_text(alloc, &live, count);
    let is_closed = close_region(rt, live, readers).is_ok();
    let mut text = shown?;
    write!(text, ", closed: {is_closed}")?;
    Ok(text)
}

// How many tablets and readers it has, and its marks.
fn region_text(alloc: Global, live: &LiveRegion, readers: usize) -> Result<String, AllocError> {
    let tablets = live.layout().count();
    let east = position(live.marks(), b"east");
    let west = position(live.marks(), b"west");
    format!(in alloc; "{tablets} tablets, {readers} readers, east {east}, west {west}")
}

fn position(marks: &Marks, name: &[u8]) -> u64 {
    match Name::read(name) {
        Ok(name) => marks.position(&name),
        Err(_) => 0,
    }
}
