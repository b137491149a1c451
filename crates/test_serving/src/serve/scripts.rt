//! Replies of a script, in as few writes as there are blocks of them.

use crate::reading::settings;
use pn_line::{InMemory, Sink, Source};
use pn_serve::{Counts, RunFault, run};
use std::alloc::Global;
use std::test::Fail;
use std::thread::Threads;
use test_kit::PiecewiseWriter;

/// How many bytes the replies to some empty lines have, and in how many writes they go out.
pub(crate) fn blocks<R: Threads + Sync>(
    rt: &R,
    alloc: Global,
    lines: &str,
) -> Result<String, Fail> {
    let count = lines.parse::<usize>()?;
    let script = vec![in alloc; b'\n'; count]?;
    run_in_blocks(rt, alloc, &script)
}

// Runs a script by a writer that takes much at a time.
fn run_in_blocks<R: Threads + Sync>(rt: &R, alloc: Global, script: &[u8]) -> Result<String, Fail> {
    let mut input = InMemory::new(script);
    let mut output = PiecewiseWriter::new(alloc, 1_000_000);
    let ended = run_script(rt, alloc, &mut input, &mut output);
    writes_text(alloc, ended, &output)
}

fn writes_text(
    alloc: Global,
    ended: Result<Counts, RunFault>,
    output: &PiecewiseWriter,
) -> Result<String, Fail> {
    ended?;
    Ok(format!(in alloc; "{} bytes in {} writes", output.taken.len(), output.writes)?)
}

// Runs a script over a region of one tablet, by one worker.
fn run_script<R: Threads + Sync, S: Source, W: Sink>(
    rt: &R,
    alloc: Global,
    input: &mut S,
    output: &mut W,
) -> Result<Counts, RunFault> {
    match settings(alloc) {
        Some(settings) => run(rt, alloc, input, output, settings),
        None => Err(RunFault::Memory),
    }
}
