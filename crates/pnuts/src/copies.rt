//! A region that starts from copies.

ghost use Rattle.pn_serve.specs.declared.server.session_threads.TheConstants.{MAX_SESSIONS};
ghost use Rattle.pn_serve.specs.Server.Events.{AllRead};
ghost use Rattle.pn_live.specs.Prelude.{tablets_in};
ghost use Rattle.std.specs.Prelude.{◌≤◌, vec_len, IfOk, IfSome};

use crate::failures::{fail, fail_at};
use pn_arguments::Service;
use pn_join::{Dup, Marks, Name};
use pn_serve::{
    CopiesFault, CopiesReader, MAX_CONTROLS, OpenedRegion, Settings, StreamPath, close_region,
    open_copies, recut_copies,
};
use pn_tablet::{Layout, MAX_BOUNDS, TabletCopy};
use std::alloc::Global;
use std::fs::File;
use std::io::BufReader;
use std::process::ExitCode;
use std::rt::Files;
use std::sync::Wait;
use std::thread::Threads;
use std::time::{Clock, Duration, Instant};

/// How many bytes of copies are read at a time.
const READ_SIZE: usize = 1_048_576;

/// Opens a live region that starts from the copies that are named, if some are, or prints why not. It prints which streams of
/// the copies are not read.
pub(crate) fn start_from_copies<R>(
    rt: &R,
    settings: &Settings,
    service: &Service,
    streams: &[(Name, StreamPath)],
) -> Result<Option<OpenedRegion>, ExitCode>
where
    R: AllocGlobal + Files<File = File> + Eprint + Threads + Wait + Sync + Clock,
    requires { (1 ≤ service.now.sessions) × (service.now.sessions ≤ MAX_SESSIONS) }
    ensures own { IfOk result (λ opened. IfSome opened (λ region. AllRead (tablets_in region.live) region.readers.items)) }
    ensures readers { IfOk result (λ opened. IfSome opened (λ region. service.now.sessions ≤ vec_len region.readers)) }
{
    let Some(path) = &service.copies else {
        return Ok(None);
    };
    let source = open_file(rt, path.as_str())?;
    match open_from(rt, settings, service, source) {
        Ok(opened) => {
            print_unread(rt, opened.live.marks(), streams);
            Ok(Some(opened))
        }
        Err(fault) => Err(refuse_copies(rt, &fault)),
    }
}

// Opens the file of copies, or prints why not.
fn open_file<R>(rt: &R, path: &str) -> Result<BufReader<File>, ExitCode>
where
    R: AllocGlobal + Files<File = File> + Eprint,
{
    let file = match File::open(rt, path) {
        Ok(file) => file,
        Err(error) => return Err(fail_at(rt, "copies", path, &error, true)),
    };
    match BufReader::with_capacity(rt.alloc(), READ_SIZE, file) {
        Ok(source) => Ok(source),
        Err(_) => Err(fail(rt, "memory")),
    }
}

fn refuse_copies(rt: &impl Eprint, fault: &CopiesFault) -> ExitCode {
    let _ = eprintln!(rt; "pnuts: copies: {fault}");
    ExitCode::FAILURE
}

// Prints which streams have marks and are not read.
fn print_unread(rt: &impl Eprint, marks: &Marks, streams: &[(Name, StreamPath)]) {
    for at in 0..marks.len() {
        let Some((name, _)) = marks.entry_at(at) else {
            return;
        };
        if !is_read(name.as_str(), streams) {
            let _ = eprintln!(rt; "pnuts: copies: stream {} is not read", name.as_str());
        }
    }
}

// Whether a stream of this name is read.
fn is_read(name: &str, streams: &[(Name, StreamPath)]) -> bool {
    for (stream, _path) in streams {
        if stream.as_str() == name {
            return true;
        }
    }
    false
}

// Opens a live region that starts from the copies of a file.
fn open_from<R>(
    rt: &R,
    settings: &Settings,
    service: &Service,
    source: BufReader<File>,
) -> Result<OpenedRegion, CopiesFault>
where
    R: AllocGlobal + Eprint + Threads + Wait + Sync + Clock,
    requires { (1 ≤ service.now.sessions) × (service.now.sessions ≤ MAX_SESSIONS) }
    ensures own { IfOk result (λ region. AllRead (tablets_in region.live) region.readers.items) }
    ensures readers { IfOk result (λ region. service.now.sessions ≤ vec_len region.readers) }
{
    let copies = read_copies(rt, settings.workers(), service.is_progress_told, source)?;
    let copies = in_bounds(rt.alloc(), settings.layout(), copies)?;
    let controls = if service.control.is_some() {
        MAX_CONTROLS
    } else {
        0
    };
    open_copies(rt, rt.alloc(), copies, service.sessions + controls)
}

// The copies, or where bounds are given those of the tablets between them.
fn in_bounds(
    alloc: Global,
    layout: &Layout,
    copies: Vec<TabletCopy>,
) -> Result<Vec<TabletCopy>, CopiesFault> {
    if layout.count() > 1 {
        recut_copies(alloc, copies, layout.dup()?)
    } else {
        Ok(copies)
    }
}

// The copies of a file. It says how many were read, once a second.
fn read_copies<R>(
    rt: &R,
    workers: usize,
    is_printed: bool,
    source: BufReader<File>,
) -> Result<Vec<TabletCopy>, CopiesFault>
where
    R: AllocGlobal + Eprint + Threads + Sync + Clock,
    requires { 1 ≤ workers }
{
    let mut reader = CopiesReader::new(rt.alloc(), source, workers)?;
    read_all(rt, is_printed, &mut reader)?;
    Ok(reader.into_copies())
}

fn read_all<R>(
    rt: &R,
    is_printed: bool,
    reader: &mut CopiesReader<BufReader<File>>,
) -> Result<(), CopiesFault>
where
    R: AllocGlobal + Eprint + Threads + Sync + Clock,
{
    let mut printed = Instant::now(rt).ok();
    for _ in 0..=MAX_BOUNDS + 1 {
        if !reader.read_some(rt, rt.alloc())? {
            return Ok(());
        }
        if is_printed && has_passed(rt, &printed) {
            print_count(rt, reader.count());
            printed = Instant::now(rt).ok();
        }
    }
    Ok(())
}

fn print_count(rt: &impl Eprint, count: usize) {
    let _ = eprintln!(rt; "pnuts: copies: {count} tablets");
}

// Whether a second has passed.
fn has_passed(rt: &impl Clock, since: &Option<Instant>) -> bool {
    match since {
        Some(then) => match then.elapsed(rt) {
            Ok(passed) => passed >= Duration::from_secs(1),
            Err(_) => false,
        },
        None => false,
    }
}

/// Ends a region that is not served, if one is open, and answers the status.
pub(crate) fn close_copies(
    rt: &impl Wait,
    opened: Option<OpenedRegion>,
    status: ExitCode,
) -> ExitCode
    requires { IfSome opened (λ region. AllRead (tablets_in region.live) region.readers.items) }
{
    if let Some(OpenedRegion { live, readers }) = opened {
        let _ = close_region(rt, live, readers);
    }
    status
}
