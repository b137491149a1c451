//! Cases of `pn_stream`.
//!
//! `message` reads one line. `whole`, `pieces`, `cuts`, `looks`, `lines` and `publishers` name ways in which a stream comes to its
//! reader; with `workers`, 1 to 9 threads read its lines.
//!
//! After these come `batch`, `ready` or `resume` (the first message, then as `ready`), the position, the calls, the most messages of a
//! call, the first and the last message, and further text.

ghost use Rattle.std.specs.Prelude.{◌≤◌};
ghost use Rattle.pn_stream.specs.declared.reader.TheConstants.{MAX_MESSAGES};

mod by_workers;
mod reading;

use crate::streams::by_workers::push_workers;
use crate::streams::reading::{
    push_by_lines, push_cuts, push_first, push_looks, push_read, push_sizes,
};
use crate::words::{next_count, next_number, next_word};
use pn_join::{LAST_POSITION, StreamName};
use pn_line::{InMemory, Source};
use pn_record::{Image, ImageFault};
use pn_stream::{MAX_MESSAGES, StreamFault, StreamReader, read_message};
use std::alloc::Global;
use std::cell::Cell;
use std::io;
use std::io::{BufRead, ErrorKind, Read};
use std::test::Fail;
use std::thread::Threads;
use test_kit::{ReplyRuns, spelled_lines};

/// The answer to a case.
pub(crate) fn answer<R: Threads>(rt: &R, alloc: Global, line: &str) -> Result<String, Fail> {
    let (what, text) = line.split_once(' ').unwrap_or((line, ""));
    match what {
        "message" => message(alloc, text),
        "memory" => Ok(format!(in alloc; "{}", StreamFault::Memory)?),
        _ => read_stream(rt, alloc, what, &Case::read(alloc, text)?),
    }
}

// The position and the key of the message that a line is, or why it is none.
fn message(alloc: Global, line: &str) -> Result<String, Fail> {
    match read_line(alloc, line) {
        Ok((at, image)) => message_text(alloc, at, &image),
        Err(fault) => Ok(format!(in alloc; "{fault}")?),
    }
}

fn read_line(alloc: Global, line: &str) -> Result<(u64, Image), ImageFault> {
    read_message(alloc, line.as_bytes())
}

fn message_text(alloc: Global, at: u64, image: &Image) -> Result<String, Fail> {
    Ok(format!(in alloc; "{at} {}", image.key.as_str())?)
}

// What readers give of the stream, which comes in the way that is named.
fn read_stream<R: Threads>(rt: &R, alloc: Global, how: &str, case: &Case) -> Result<String, Fail> {
    match how {
        "pieces" | "cuts" | "looks" | "workers" => read_often(rt, alloc, how, case),
        _ => read_once(alloc, how, case),
    }
}

fn read_once(alloc: Global, how: &str, case: &Case) -> Result<String, Fail> {
    let mut text = String::new(alloc);
    push_once(&mut text, how, case)?;
    Ok(text)
}

fn push_once(text: &mut String, how: &str, case: &Case) -> Result<(), Fail> {
    match how {
        "whole" => push_read(text, case, InMemory::new(case.text.as_bytes())),
        "publishers" => push_writers(text, case),
        _ => push_by_lines(text, case),
    }
}

fn read_often<R: Threads>(rt: &R, alloc: Global, how: &str, case: &Case) -> Result<String, Fail> {
    let mut runs = ReplyRuns::new(alloc);
    push_often(rt, alloc, how, case, &mut runs)?;
    runs.text()
}

fn push_often<R: Threads>(
    rt: &R,
    alloc: Global,
    how: &str,
    case: &Case,
    runs: &mut ReplyRuns,
) -> Result<(), Fail> {
    match how {
        "pieces" => push_sizes(alloc, case, runs),
        "cuts" => push_cuts(alloc, case, runs),
        "looks" => push_looks(alloc, case, runs),
        _ => push_workers(rt, alloc, case, runs),
    }
}

/// What was written into a pipe that did not show it yet.
pub(crate) type PipeBuffer<'a> = Cell<&'a [u8]>;

/// Shows what was written since the last look. Where that is nothing, it fails if a program would wait, or ends.
#[derive(Drop)]
pub(crate) struct Pipe<'c, 'a> {
    pub(crate) buffer: &'c PipeBuffer<'a>,
    pub(crate) shown: &'a [u8],
    pub(crate) waits: bool,
}

impl Read for Pipe<'_, '_> {
    fn read(&mut self, _buf: &mut [u8]) -> io::Result<usize> {
        Err(io::Error::from(ErrorKind::Unsupported))
    }
}

impl BufRead for Pipe<'_, '_> {
    fn fill_buf(&mut self) -> io::Result<&[u8]> {
        if self.shown.is_empty() {
            self.shown = self.buffer.replace(&[]);
        }
        if self.waits && self.shown.is_empty() {
            return Err(io::Error::from(ErrorKind::WouldBlock));
        }
        Ok(self.shown)
    }

    fn consume(&mut self, amount: usize) {
        self.shown = &self.shown[amount.min(self.shown.len())..];
    }
}

/// Adds what readers give, each of which gives its source to the next one after the first message.
pub(crate) fn push_writers(text: &mut String, case: &Case) -> Result<(), Fail> {
    let alloc = *text.allocator();
    let mut reader = case.reader(alloc, InMemory::new(case.text.as_bytes()));
    for _ in 0..case.calls {
        push_first(text, &mut reader)?;
        reader = next_reader(alloc, reader);
    }
    Ok(())
}

// A reader that goes on where another one is, from its source.
fn next_reader<S: Source + Drop>(alloc: Global, reader: StreamReader<S>) -> StreamReader<S> {
    let (name, position) = (*reader.name(), reader.position());
    StreamReader::new(alloc, name, position, reader.into_source())
}

/// A stream's text, after which position it is read, whether that begins with the first message of a publisher, and by how
/// many calls of which kind.
#[derive(Drop)]
pub(crate) struct Case {
    pub(crate) is_resumed: bool,
    pub(crate) is_ready: bool,
    pub(crate) calls: u64,
    pub(crate) text: String,
    name: StreamName,
    after: u64,
    most: usize,
}

impl Case {
    /// Reads the words of a case.
    pub(crate) fn read(alloc: Global, line: &str) -> Result<Case, Fail> {
        let mut words = line;
        let kind = next_word(&mut words);
        let after = next_number(&mut words)?;
        let calls = next_number(&mut words)?;
        let most = next_count(&mut words)?;
        let name = StreamName::read(b"east")?;
        let text = stream(alloc, words)?;
        Ok(Case {
            is_resumed: kind == "resume",
            is_ready: kind != "batch",
            calls,
            text,
            name,
            after,
            most,
        })
    }

    /// The most messages of a call.
    pub(crate) fn most(&self) -> usize
        ensures some { 1 ≤ result }
        ensures few { result ≤ MAX_MESSAGES }
    {
        self.most.max(1).min(MAX_MESSAGES)
    }

    /// A reader that begins after the position.
    pub(crate) fn reader<S: Source + Drop>(&self, alloc: Global, source: S) -> StreamReader<S> {
        StreamReader::new(alloc, self.name, self.after.min(LAST_POSITION), source)
    }
}

// Messages from one position to another, and further text.
fn stream(alloc: Global, words: &str) -> Result<String, Fail> {
    let mut words = words;
    let first = next_number(&mut words)?;
    let last = next_number(&mut words)?;
    let mut text = String::new(alloc);
    push_messages(&mut text, first, last)?;
    text.push_str(spelled_lines(alloc, words)?.as_str())?;
    Ok(text)
}

fn push_messages(text: &mut String, first: u64, last: u64) -> Result<(), Fail> {
    for at in first..=last {
        push_message(text, at)?;
    }
    Ok(())
}

// A message of one digit has 78 bytes.
fn push_message(text: &mut String, at: u64) -> Result<(), Fail> {
    write!(
        text,
        "{{\"at\":{at},\"image\":{{\"fields\":{{\"v\":\"x\"}},\"key\":\"k{at}\",\"master\":\"w\",\"version\":[1,0]}}}}\n"
    )?;
    Ok(())
}
