//! A connection's turns, and the buffers that they use: each call where it succeeds.

use crate::stay::opening::Echo;
use crate::stay::served::UNREAD;
use crate::stay::{TURNS, read_pieces, read_takes, show};
use pn_join::{Name, NoMemory};
use pn_line::{Discard, InMemory, LineBuffer, LineEnd, Sink, Source, read_line};
use pn_lines::{LineTurns, Pause, TurnBuffers, TurnOutcome};
use pn_serve::{MAX_LINES, PendingLookup, ReplyPieces};
use pn_stay::{
    Counters, CountingSource, FakeSink, FakeSource, InputBuffer, InputCounters, MemoryMeter,
    StreamCounters,
};
use std::alloc::Global;
use std::sync::Arc;
use std::test::Fail;
use test_kit::newlines;

/// How each turn of a connection paused, what its socket took, and how many lines were answered.
pub(crate) fn take_turns(alloc: Global, line: &str) -> Result<String, Fail> {
    let (takes, text) = line.split_once(' ').unwrap_or(("", ""));
    let pieces = read_pieces(alloc, text)?;
    let takes = read_takes(alloc, takes)?;
    let mut output = FakeSink::new(alloc, &takes);
    let (pauses, lines) = give_turns(alloc, &pieces, &mut output)?;
    turns_text(alloc, pauses.as_str(), output.bytes(), lines)
}

fn turns_text(alloc: Global, pauses: &str, taken: &[u8], lines: u64) -> Result<String, Fail> {
    let taken = show(alloc, taken)?;
    Ok(format!(in alloc; "{pauses} {taken} of {lines} lines")?)
}

/// How each turn of a connection paused whose socket takes all, and how many lines were answered.
pub(crate) fn keep_input(alloc: Global, text: &str) -> Result<String, Fail> {
    let pieces = read_pieces(alloc, text)?;
    let (pauses, lines) = give_turns(alloc, &pieces, &mut Discard)?;
    Ok(format!(in alloc; "{pauses} of {lines} lines")?)
}

// Gives a connection turns until it ends: how each paused, and how many lines were answered.
fn give_turns<W: Sink>(
    alloc: Global,
    pieces: &[Vec<u8>],
    output: &mut W,
) -> Result<(String, u64), Fail> {
    let mut pauses = String::new(alloc);
    let lines = push_turns(alloc, &mut pauses, pieces, output)?;
    Ok((pauses, lines))
}

// Adds how each turn of a new connection paused. How many lines were answered.
fn push_turns<W: Sink>(
    alloc: Global,
    pauses: &mut String,
    pieces: &[Vec<u8>],
    output: &mut W,
) -> Result<u64, Fail> {
    let mut buffers = TurnBuffers::new(alloc)?;
    push_and_count(alloc, pauses, &mut buffers, pieces, output)
}

fn push_and_count<W: Sink>(
    alloc: Global,
    pauses: &mut String,
    buffers: &mut TurnBuffers,
    pieces: &[Vec<u8>],
    output: &mut W,
) -> Result<u64, Fail> {
    let mut lines = LineTurns::new(alloc, MAX_LINES);
    let mut input = FakeSource::new(pieces);
    push_pauses(pauses, &mut lines, buffers, &mut input, output)?;
    Ok(lines.counts().lines)
}

fn push_pauses<W: Sink>(
    pauses: &mut String,
    lines: &mut LineTurns<PendingLookup, ReplyPieces>,
    buffers: &mut TurnBuffers,
    input: &mut FakeSource<'_>,
    output: &mut W,
) -> Result<(), Fail> {
    for _ in 0..TURNS {
        match lines.turn(buffers, &mut Echo, input, output) {
            TurnOutcome::Goes(pause) => pauses.push(sign(pause))?,
            TurnOutcome::Ended(_) | TurnOutcome::Failed(_) => break,
        }
    }
    Ok(())
}

fn sign(pause: Pause) -> char {
    match pause {
        Pause::Turn => 't',
        Pause::Input => 'i',
        Pause::Output => 'o',
    }
}

/// What an input buffer holds after each of two reads.
pub(crate) fn read_input(alloc: Global, text: &str) -> Result<String, Fail> {
    let pieces = read_pieces(alloc, text)?;
    let mut buffer = InputBuffer::new(alloc)?;
    let mut shown = String::new(alloc);
    push_both(alloc, &mut shown, &pieces, &mut buffer)?;
    Ok(shown)
}

fn push_both(
    alloc: Global,
    shown: &mut String,
    pieces: &[Vec<u8>],
    buffer: &mut InputBuffer,
) -> Result<(), Fail> {
    let mut input = FakeSource::new(pieces);
    push_read(alloc, shown, &mut input, buffer)?;
    shown.push_str(", ")?;
    push_read(alloc, shown, &mut input, buffer)
}

// Adds what an input buffer holds after a read, and what the read answered.
fn push_read(
    alloc: Global,
    shown: &mut String,
    input: &mut FakeSource<'_>,
    buffer: &mut InputBuffer,
) -> Result<(), Fail> {
    let read = buffer.read_from(input)?;
    let held = show(alloc, buffer.bytes())?;
    Ok(write!(shown, "{held} {read}")?)
}

/// The lines and bytes that were counted of a source, under the name of a stream.
pub(crate) fn count_input(alloc: Global, text: &str) -> Result<String, Fail> {
    let text = newlines(alloc, text)?;
    count_bytes(alloc, text.as_bytes())
}

fn count_bytes(alloc: Global, text: &[u8]) -> Result<String, Fail> {
    let input = Arc::new(alloc, InputCounters::new())?;
    let counted = Arc::try_clone(&input)?;
    let counters = new_counters(alloc, input).ok_or(NoMemory)?;
    let more = read_lines(alloc, text, counted)?;
    counted_text(alloc, &counters, more)
}

fn counted_text(alloc: Global, counters: &Counters, more: bool) -> Result<String, Fail> {
    let Some(stream) = counters.streams.first() else {
        return Ok(String::new(alloc));
    };
    let (lines, bytes) = (stream.input.lines.get(), stream.input.bytes.get());
    Ok(format!(in alloc; "{} {lines} {bytes} {more}", stream.name.as_str())?)
}

// Reads the lines of a text, which are counted. Whether there is more.
fn read_lines(alloc: Global, text: &[u8], counted: Arc<InputCounters>) -> Result<bool, Fail> {
    let mut source = CountingSource::new(InMemory::new(text), Some(counted));
    let mut line = LineBuffer::new(alloc)?;
    for _ in 0..TURNS {
        if read_line(&mut line, &mut source)? == LineEnd::EndOfInput {
            break;
        }
    }
    Ok(source.has_more()?)
}

fn new_counters(alloc: Global, input: Arc<InputCounters>) -> Option<Counters> {
    let name = Name::read(b"east").ok()?;
    let mut streams = Vec::with_capacity(alloc, 1).ok()?;
    streams
        .push(StreamCounters {
            name,
            input,
            taken: None,
            sent: None,
            status: None,
            size: None,
        })
        .ok()?;
    Counters::new(alloc, streams, MemoryMeter::new(), UNREAD).ok()
}
