//! One script over readers and writers, of which each fails at another call.

use crate::settings_of;
use pn_line::{FailingSink, FailingSource, Sink, Source};
use pn_serve::{Counts, RunFault, run};
use std::alloc::{AllocError, Global};
use std::io;
use std::io::Write;
use std::thread::Threads;

/// How many bytes a writer takes at a time.
const PIECE: usize = 7;

/// The greatest number of a call that fails.
const MAX_CALLS: usize = 100;

/// Answers a script over readers that fail at their first poll, their second and so on, and then over such writers, until no call
/// fails. Writes for each reader how it ended, how many bytes were written, and whether these begin the replies.
pub(crate) fn answer_failing(
    rt: &(impl AllocGlobal + Print + Threads + Sync),
    head: &[u8],
    script: &[u8],
) -> io::Result<()> {
    let mut whole = FailingSink::new(rt.alloc(), PIECE, 0);
    run_over(rt, head, &mut FailingSource::new(script, 0), &mut whole);
    for poll in 1..MAX_CALLS {
        let mut sink = FailingSink::new(rt.alloc(), PIECE, 0);
        let ended = run_over(rt, head, &mut FailingSource::new(script, poll), &mut sink);
        let is_prefix = whole.contents().starts_with(sink.contents());
        write_end(rt, ended, sink.contents().len(), is_prefix)?;
        if let Some(Ok(_)) = ended {
            break;
        }
    }
    fail_writers(rt, head, script, whole.contents())
}

// Writes how it ended by a writer that fails at no call, and whether all that failed took the first bytes of the replies.
fn fail_writers(
    rt: &(impl AllocGlobal + Print + Threads + Sync),
    head: &[u8],
    script: &[u8],
    whole: &[u8],
) -> io::Result<()> {
    let mut is_prefix = true;
    for call in 1..MAX_CALLS {
        let mut sink = FailingSink::new(rt.alloc(), PIECE, call);
        let ended = run_over(rt, head, &mut FailingSource::new(script, 0), &mut sink);
        is_prefix = is_prefix && whole.starts_with(sink.contents());
        let Some(Err(RunFault::Write)) = ended else {
            return write_end(rt, ended, sink.contents().len(), is_prefix);
        };
    }
    Ok(())
}

// How a script of these settings ends.
fn run_over<R: AllocGlobal + Threads + Sync, S: Source, W: Sink>(
    rt: &R,
    head: &[u8],
    input: &mut S,
    output: &mut W,
) -> Option<Result<Counts, RunFault>> {
    let settings = settings_of(rt.alloc(), head)?;
    Some(run(rt, rt.alloc(), input, output, settings))
}

fn write_end(
    rt: &(impl AllocGlobal + Print),
    ended: Option<Result<Counts, RunFault>>,
    count: usize,
    is_prefix: bool,
) -> io::Result<()> {
    let text = end_text(rt.alloc(), ended)?;
    let line = format!(in rt.alloc(); "{text}, {count} bytes: {is_prefix}\n")?;
    io::writer(rt).write_all(line.as_bytes())
}

fn end_text(alloc: Global, ended: Option<Result<Counts, RunFault>>) -> Result<String, AllocError> {
    match ended {
        None => format!(in alloc; "the head has no settings"),
        Some(Err(fault)) => format!(in alloc; "{fault}"),
        Some(Ok(counts)) => {
            format!(in alloc; "{} lines, {} refused", counts.lines, counts.refused)
        }
    }
}
