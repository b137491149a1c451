//! What readers give of a stream that comes in many ways, in words.

ghost use Rattle.std.specs.Prelude.{◌≤◌};
ghost use Rattle.pn_stream.specs.declared.reader.TheConstants.{MAX_MESSAGES};

use crate::streams::{Case, Pipe, PipeBuffer};
use pn_line::Source;
use pn_record::Image;
use pn_stream::{Delivery, NoWait, ResumeFault, StreamFault, StreamReader};
use std::alloc::Global;
use std::test::Fail;
use test_kit::{PiecewiseReader, ReplyRuns};

fn push_delivery(text: &mut String, delivery: &Delivery) -> Result<(), Fail> {
    write!(text, "{} {}:", delivery.stream().as_str(), delivery.first())?;
    push_keys(text, delivery.images())?;
    Ok(text.push_str("; ")?)
}

fn push_keys(text: &mut String, images: &[Image]) -> Result<(), Fail> {
    for image in images {
        text.push_str(image.key.as_str())?;
    }
    Ok(())
}

// What one call gives.
fn next<S: Source + Drop>(
    reader: &mut StreamReader<S>,
    is_ready: bool,
    most: usize,
) -> Result<Delivery, StreamFault>
    requires some { 1 ≤ most }
    requires few { most ≤ MAX_MESSAGES }
{
    if is_ready {
        reader.next_ready(most)
    } else {
        reader.next_batch(most)
    }
}

// Adds what one call gives.
fn push_answer<S: Source + Drop>(
    text: &mut String,
    case: &Case,
    reader: &mut StreamReader<S>,
) -> Result<(), Fail> {
    push_given(text, &next(reader, case.is_ready, case.most()))
}

fn push_given(text: &mut String, given: &Result<Delivery, StreamFault>) -> Result<(), Fail> {
    match given {
        Ok(delivery) => push_delivery(text, delivery),
        Err(fault) => Ok(write!(text, "{fault}; ")?),
    }
}

/// Adds what the call for a publisher's first message gives.
pub(crate) fn push_first<S: Source + Drop>(
    text: &mut String,
    reader: &mut StreamReader<S>,
) -> Result<(), Fail> {
    push_begun(text, &resume(*text.allocator(), reader))
}

// What the call for a publisher's first message gives.
fn resume<S: Source + Drop>(
    alloc: Global,
    reader: &mut StreamReader<S>,
) -> Result<Option<Delivery>, ResumeFault> {
    reader.resume(&NoWait::new(alloc))
}

fn push_begun(
    text: &mut String,
    given: &Result<Option<Delivery>, ResumeFault>,
) -> Result<(), Fail> {
    match given {
        Ok(Some(delivery)) => push_delivery(text, delivery),
        Ok(None) => Ok(text.push_str("none; ")?),
        Err(fault) => Ok(write!(text, "{fault}; ")?),
    }
}

// Adds what the call for a publisher's first message gives, where the case begins with one.
fn push_resumed<S: Source + Drop>(
    text: &mut String,
    case: &Case,
    reader: &mut StreamReader<S>,
) -> Result<(), Fail> {
    if case.is_resumed {
        push_first(text, reader)
    } else {
        Ok(())
    }
}

// Adds what the calls give that follow the first one.
fn push_answers<S: Source + Drop>(
    text: &mut String,
    case: &Case,
    reader: &mut StreamReader<S>,
) -> Result<(), Fail> {
    for _ in 0..case.calls {
        push_answer(text, case, reader)?;
    }
    Ok(())
}

// Adds what all calls give, and where the reader is then.
fn push_all<S: Source + Drop>(
    text: &mut String,
    case: &Case,
    reader: &mut StreamReader<S>,
) -> Result<(), Fail> {
    push_resumed(text, case, reader)?;
    push_answers(text, case, reader)?;
    Ok(write!(text, "at {}", reader.position())?)
}

/// Adds what all calls give of a stream from a source, and where the reader is then.
pub(crate) fn push_read<S: Source + Drop>(
    text: &mut String,
    case: &Case,
    source: S,
) -> Result<(), Fail> {
    let mut reader = case.reader(*text.allocator(), source);
    push_all(text, case, &mut reader)
}

/// Adds what readers give of a stream that comes in pieces, for pieces of each size.
pub(crate) fn push_sizes(alloc: Global, case: &Case, runs: &mut ReplyRuns) -> Result<(), Fail> {
    for size in 1..=case.text.len() {
        push_pieces(alloc, case, runs, size, 0)?;
    }
    Ok(())
}

/// Adds what readers give of a stream in pieces of 30 bytes, of whose first 16 looks one fails, each in turn. A message takes
/// three looks.
pub(crate) fn push_looks(alloc: Global, case: &Case, runs: &mut ReplyRuns) -> Result<(), Fail> {
    for look in 1..17 {
        push_pieces(alloc, case, runs, 30, look)?;
    }
    Ok(())
}

// Adds what a reader gives of a stream in pieces of a size, of whose looks one fails.
fn push_pieces(
    alloc: Global,
    case: &Case,
    runs: &mut ReplyRuns,
    size: usize,
    fails_at: usize,
) -> Result<(), Fail> {
    let pieces = PiecewiseReader::failing(case.text.as_bytes(), size, fails_at);
    let mut text = String::new(alloc);
    push_read(&mut text, case, pieces)?;
    runs.push(text)
}

/// Adds what readers give of a stream that is cut in two, at each byte in turn. The first call comes before the second part is
/// written.
pub(crate) fn push_cuts(alloc: Global, case: &Case, runs: &mut ReplyRuns) -> Result<(), Fail> {
    let text = case.text.as_bytes();
    for cut in 0..=text.len() {
        let (first, second) = text.split_at(cut);
        push_cut(alloc, case, runs, first, second)?;
    }
    Ok(())
}

fn push_cut(
    alloc: Global,
    case: &Case,
    runs: &mut ReplyRuns,
    first: &[u8],
    second: &[u8],
) -> Result<(), Fail> {
    let mut text = String::new(alloc);
    push_parts(&mut text, case, first, second)?;
    runs.push(text)
}

fn push_parts(text: &mut String, case: &Case, first: &[u8], second: &[u8]) -> Result<(), Fail> {
    let buffer = PipeBuffer::new(first);
    let mut reader = case.reader(*text.allocator(), new_pipe(&buffer, false));
    push_halves(text, case, &mut reader, &buffer, second)
}

// Adds what two calls give, of which the second comes after the rest is written.
fn push_halves<'a>(
    text: &mut String,
    case: &Case,
    reader: &mut StreamReader<Pipe<'_, 'a>>,
    buffer: &PipeBuffer<'a>,
    second: &'a [u8],
) -> Result<(), Fail> {
    push_resumed(text, case, reader)?;
    push_answer(text, case, reader)?;
    buffer.set(second);
    push_answer(text, case, reader)
}

fn new_pipe<'c, 'a>(buffer: &'c PipeBuffer<'a>, waits: bool) -> Pipe<'c, 'a> {
    Pipe {
        buffer,
        shown: &[],
        waits,
    }
}

/// Adds what a reader gives of a stream that comes a line at a time, each written after the call that gave the one before.
pub(crate) fn push_by_lines(text: &mut String, case: &Case) -> Result<(), Fail> {
    let buffer = PipeBuffer::new(&[]);
    let mut reader = case.reader(*text.allocator(), new_pipe(&buffer, true));
    push_lines(text, case, &mut reader, &buffer)
}

// Adds what each call gives, before which the next line is written.
fn push_lines<'a>(
    text: &mut String,
    case: &'a Case,
    reader: &mut StreamReader<Pipe<'_, 'a>>,
    buffer: &PipeBuffer<'a>,
) -> Result<(), Fail> {
    let mut rest = case.text.as_bytes();
    for _ in 0..case.calls {
        let (line, later) = rest.split_at(rest.len().min(78));
        buffer.set(line);
        push_answer(text, case, reader)?;
        rest = later;
    }
    Ok(())
}
