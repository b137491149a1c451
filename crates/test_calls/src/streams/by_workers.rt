//! A stream whose lines several threads read.

ghost use Rattle.std.specs.Prelude.{◌≤◌};
ghost use Rattle.pn_stream.specs.declared.reader.TheConstants.{MAX_MESSAGES};

use crate::streams::Case;
use pn_line::{InMemory, Source};
use pn_stream::{Delivery, ReaderMemory, StreamFault, StreamReader};
use std::alloc::Global;
use std::test::Fail;
use std::thread::Threads;
use test_kit::ReplyRuns;

/// The most workers that are tried.
const MOST_WORKERS: usize = 9;

// Memory that is asked for again at once.
#[derive(Drop)]
struct AskedAgain {
    alloc: Global,
}

impl ReaderMemory for AskedAgain {
    ghost may_give_up = { Unit {0} };

    fn alloc(&self) -> Global {
        self.alloc
    }

    fn wait(&self) -> bool {
        true
    }

    fn give_up(&self) {}
}

/// Adds what readers give of a stream in memory, for each number of workers: how many images, and how many of these have the
/// key of their position.
pub(crate) fn push_workers<R: Threads>(
    rt: &R,
    alloc: Global,
    case: &Case,
    runs: &mut ReplyRuns,
) -> Result<(), Fail> {
    for workers in 1..=MOST_WORKERS {
        push_run(rt, alloc, case, runs, workers)?;
    }
    Ok(())
}

fn push_run<R: Threads>(
    rt: &R,
    alloc: Global,
    case: &Case,
    runs: &mut ReplyRuns,
    workers: usize,
) -> Result<(), Fail> {
    let mut text = String::new(alloc);
    push_read(rt, &mut text, case, workers)?;
    runs.push(text)
}

fn push_read<R: Threads>(
    rt: &R,
    text: &mut String,
    case: &Case,
    workers: usize,
) -> Result<(), Fail> {
    let mut reader = case.reader(*text.allocator(), InMemory::new(case.text.as_bytes()));
    push_all(rt, text, case, &mut reader, workers)
}

// Adds what all calls give, and where the reader is then.
fn push_all<R: Threads, S: Source + Drop>(
    rt: &R,
    text: &mut String,
    case: &Case,
    reader: &mut StreamReader<S>,
    workers: usize,
) -> Result<(), Fail> {
    for _ in 0..case.calls {
        push_answer(rt, text, case, reader, workers)?;
    }
    Ok(write!(text, "at {}", reader.position())?)
}

// Adds what one call gives.
fn push_answer<R: Threads, S: Source + Drop>(
    rt: &R,
    text: &mut String,
    case: &Case,
    reader: &mut StreamReader<S>,
    workers: usize,
) -> Result<(), Fail> {
    let memory = AskedAgain {
        alloc: *text.allocator(),
    };
    push_given(text, &next_by(rt, &memory, reader, workers, case.most()))
}

fn push_given(text: &mut String, given: &Result<Delivery, StreamFault>) -> Result<(), Fail> {
    match given {
        Ok(delivery) => push_counts(text, delivery),
        Err(fault) => Ok(write!(text, "{fault}; ")?),
    }
}

// What one call gives.
fn next_by<R: Threads, S: Source + Drop>(
    rt: &R,
    memory: &AskedAgain,
    reader: &mut StreamReader<S>,
    workers: usize,
    most: usize,
) -> Result<Delivery, StreamFault>
    requires some { 1 ≤ most }
    requires few { most ≤ MAX_MESSAGES }
{
    reader.next_ready_by(rt, memory, workers, most)
}

// How many images have the key of their position.
fn count_in_place(alloc: Global, delivery: &Delivery) -> Result<usize, Fail> {
    let mut in_place = 0_usize;
    let mut at = delivery.first();
    for image in delivery.images() {
        if image.key.as_str() == format!(in alloc; "k{at}")?.as_str() {
            in_place = in_place.saturating_add(1);
        }
        at = at.saturating_add(1);
    }
    Ok(in_place)
}

fn push_counts(text: &mut String, delivery: &Delivery) -> Result<(), Fail> {
    let in_place = count_in_place(*text.allocator(), delivery)?;
    write!(
        text,
        "{} {}: {in_place} of {}; ",
        delivery.stream().as_str(),
        delivery.first(),
        delivery.images().len()
    )?;
    Ok(())
}
