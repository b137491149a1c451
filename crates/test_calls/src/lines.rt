//! Cases of `pn_lines`, of a handler whose replies are letters.
//!
//! `pieces SIZE UNITS TEXT` shows the replies to an input that comes in pieces, by calls of a number of units of work. `driver LINES POLL CALL TEXT`
//! shows those of a driver that answers a number of lines at most, and how it ends; a poll of its source and a call of its sink fail, unless 0.
//!
//! A newline of a text is written `|`, and `~3~ab~` is `ababab`.

mod spelling;

use crate::lines::spelling::{Letters, Spelling};
use crate::words::{next_count, next_number};
use pn_line::{FailingSink, FailingSource};
use pn_lines::{
    LineBuffers, LineEngine, LinesFault, MAX_CALL_UNITS, MAX_PIECE_BYTES, Next, answer_lines,
};
use std::alloc::{AllocError, Global};
use std::test::Fail;
use test_kit::{bars, spelled_lines};

/// The answer to a case.
pub(crate) fn answer(alloc: Global, line: &str) -> Result<String, Fail> {
    let (what, words) = line.split_once(' ').unwrap_or((line, ""));
    match what {
        "pieces" => in_pieces(alloc, words),
        _ => driver(alloc, words),
    }
}

fn in_pieces(alloc: Global, words: &str) -> Result<String, Fail> {
    let mut words = words;
    let size = next_count(&mut words)?;
    let units = u32::try_from(next_number(&mut words)?)?;
    let text = spelled_lines(alloc, words)?;
    replies_to(alloc, &mut Pieces::new(text.as_bytes(), size), units)
}

// The replies to an input that comes in pieces.
fn replies_to(alloc: Global, pieces: &mut Pieces<'_>, units: u32) -> Result<String, Fail> {
    let mut room = Vec::with_capacity(alloc, MAX_PIECE_BYTES + 2)?;
    let mut replies = Vec::new(alloc);
    push_replies(alloc, pieces, units, &mut room, &mut replies)?;
    bars(alloc, &replies)
}

fn driver(alloc: Global, words: &str) -> Result<String, Fail> {
    let mut words = words;
    let most = next_number(&mut words)?;
    let poll = next_count(&mut words)?;
    let call = next_count(&mut words)?;
    let text = spelled_lines(alloc, words)?;
    drive(
        alloc,
        most,
        &mut FailingSource::new(text.as_bytes(), poll),
        call,
    )
}

// The replies of a driver that waits, by a sink that takes few bytes at once.
fn drive(
    alloc: Global,
    most: u64,
    source: &mut FailingSource<'_>,
    call: usize,
) -> Result<String, Fail> {
    let mut sink = FailingSink::new(alloc, 3, call);
    let ended = answer_all(&mut LineBuffers::new(alloc)?, most, source, &mut sink);
    end_text(alloc, sink.contents(), ended)
}

// How many lines were answered, or why not all were.
fn answer_all(
    buffers: &mut LineBuffers,
    most: u64,
    source: &mut FailingSource<'_>,
    sink: &mut FailingSink,
) -> Result<u64, LinesFault> {
    let mut machine = Spelling { is_over: false };
    match answer_lines(&mut machine, buffers, most, source, sink) {
        Ok(counts) => Ok(counts.lines),
        Err(fault) => Err(fault),
    }
}

fn end_text(alloc: Global, written: &[u8], ended: Result<u64, LinesFault>) -> Result<String, Fail> {
    let mut text = bars(alloc, written)?;
    match ended {
        Ok(lines) => write!(text, " {lines} lines")?,
        Err(fault) => write!(text, " {fault:?}")?,
    }
    Ok(text)
}

/// The most calls of an engine.
const MAX_CALLS: u32 = 100_000;

/// An input, what is at hand of it, and how many bytes come next.
#[derive(Drop)]
pub(crate) struct Pieces<'a> {
    input: &'a [u8],
    from: usize,
    to: usize,
    size: usize,
}

impl<'a> Pieces<'a> {
    /// An input of which nothing came yet.
    pub(crate) fn new(input: &'a [u8], size: usize) -> Pieces<'a> {
        Pieces {
            input,
            from: 0,
            to: 0,
            size,
        }
    }

    // What is at hand.
    fn at_hand(&self) -> &'a [u8] {
        if self.from > self.to || self.to > self.input.len() {
            return self.input;
        }
        &self.input[self.from..self.to]
    }

    // Whether no more comes.
    fn is_last(&self) -> bool {
        self.to == self.input.len()
    }

    // Another piece comes.
    fn grow(&mut self) {
        self.to = self.to.saturating_add(self.size).min(self.input.len());
    }

    // The first bytes at hand were taken.
    fn take(&mut self, count: usize) {
        self.from = self.from.saturating_add(count).min(self.to);
    }
}

/// Adds the replies to an input, by calls of this number of units of work, each of which has the room for replies.
pub(crate) fn push_replies(
    alloc: Global,
    pieces: &mut Pieces<'_>,
    units: u32,
    room: &mut Vec<u8>,
    replies: &mut Vec<u8>,
) -> Result<(), AllocError> {
    let mut engine = LineEngine::new(alloc, 100);
    push_all(&mut engine, pieces, units, room, replies)
}

fn push_all(
    engine: &mut LineEngine<usize, Letters>,
    pieces: &mut Pieces<'_>,
    units: u32,
    room: &mut Vec<u8>,
    replies: &mut Vec<u8>,
) -> Result<(), AllocError> {
    let mut machine = Spelling { is_over: false };
    for _ in 0..MAX_CALLS {
        match next(engine, &mut machine, pieces, units, room) {
            Next::Input => pieces.grow(),
            Next::Room => drain(room, replies)?,
            Next::Turn => {}
            Next::End(_) => return drain(room, replies),
        }
    }
    drain(room, replies)
}

// What a call asks for.
fn next(
    engine: &mut LineEngine<usize, Letters>,
    machine: &mut Spelling,
    pieces: &mut Pieces<'_>,
    units: u32,
    room: &mut Vec<u8>,
) -> Next {
    let progress = engine.go_on(
        machine,
        pieces.at_hand(),
        pieces.is_last(),
        room,
        units.min(MAX_CALL_UNITS),
    );
    pieces.take(progress.taken);
    progress.next
}

// Moves the replies out of their room.
fn drain(room: &mut Vec<u8>, replies: &mut Vec<u8>) -> Result<(), AllocError> {
    replies.extend_from_slice(room)?;
    room.clear();
    Ok(())
}
