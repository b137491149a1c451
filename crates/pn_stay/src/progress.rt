//! Tells how far a server is: a line a second on standard error, while something changes.

use crate::counters::{Counters, StreamCounters};
use libc::{STDERR_FILENO, isatty};
use std::alloc::{AllocError, Global};
use std::sync::Wait;
use std::time::{Clock, Duration};
use std::{io, thread};

/// How many signs a bar has.
const BAR: u64 = 20;

/// What begins a line on a terminal: it takes the place of the one before, and is cut at the margin.
const OVER: &str = "\r\x1b[?7l";

/// What ends a line on a terminal.
const CUT: &str = "\x1b[K\x1b[?7h";

/// What takes a line on a terminal away.
const AWAY: &str = "\r\x1b[K";

// What the counters show at one moment.
#[derive(Drop)]
struct Totals {
    positions: Vec<u64>,
    rounds: u64,
    connections: u64,
    lines: u64,
}

impl Totals {
    fn new(alloc: Global) -> Totals {
        Totals {
            positions: Vec::new(alloc),
            rounds: 0,
            connections: 0,
            lines: 0,
        }
    }

    fn read(alloc: Global, counters: &Counters) -> Result<Totals, AllocError> {
        let mut positions = Vec::with_capacity(alloc, counters.streams.len())?;
        for stream in counters.streams.iter() {
            positions.push(position_of(stream))?;
        }
        Ok(Totals {
            positions,
            rounds: counters.rounds.get(),
            connections: counters.connections.open.get(),
            lines: counters.clients.lines.get(),
        })
    }

    // The position of a stream, or 0 where nothing of it was read.
    fn position(&self, at: usize) -> u64 {
        match self.positions.get(at) {
            Some(position) => *position,
            None => 0,
        }
    }

    fn differs_from(&self, before: &Totals) -> bool {
        for at in 0..self.positions.len() {
            if self.position(at) != before.position(at) {
                return true;
            }
        }
        self.rounds != before.rounds
            || self.connections != before.connections
            || self.lines != before.lines
    }
}

// The last position that was taken, or how many lines were read, where a stream has no other.
fn position_of(stream: &StreamCounters) -> u64 {
    match &stream.taken {
        Some(taken) => taken.get(),
        None => stream.input.lines.get(),
    }
}

/// Whether standard error is a terminal.
pub fn is_terminal() -> bool {
    isatty(STDERR_FILENO) == 1
}

/// What goes to standard error before another line than one of progress.
pub fn message_prefix(is_progress_told: bool) -> &'static str {
    if is_progress_told && is_terminal() {
        AWAY
    } else {
        ""
    }
}

/// Tells for as long as the program runs.
pub fn print_progress<R: Wait + Clock + Eprint>(rt: &R, alloc: Global, counters: &Counters) {
    let is_terminal = is_terminal();
    let mut printed = Totals::new(alloc);
    for _ in rt.forever() {
        thread::sleep(rt, Duration::from_secs(1));
        if let Ok(now) = Totals::read(alloc, counters) {
            if now.differs_from(&printed) {
                let _ = print_totals(rt, alloc, counters, (&printed, &now), is_terminal);
                printed = now;
            }
        }
    }
}

// Prints the totals, and how many messages of each stream came since those of a second before.
fn print_totals<R: Eprint>(
    rt: &R,
    alloc: Global,
    counters: &Counters,
    totals: (&Totals, &Totals),
    is_terminal: bool,
) -> io::Result<()> {
    let (before, now) = totals;
    let mut text = format_streams(alloc, counters, before, now, is_terminal)?;
    let bytes = counters.memory.bytes();
    text.push_str(format!(in alloc;
        "{} rounds, {} connections, {} lines, {bytes} bytes",
        now.rounds, now.connections, now.lines
    )?
    .as_str())?;
    if is_terminal {
        eprint!(rt; "{OVER}pnuts: {text}{CUT}")
    } else {
        eprintln!(rt; "pnuts: {text}")
    }
}

fn format_streams(
    alloc: Global,
    counters: &Counters,
    before: &Totals,
    now: &Totals,
    is_terminal: bool,
) -> Result<String, AllocError> {
    let mut text = String::new(alloc);
    for (at, stream) in counters.streams.iter().enumerate() {
        let position = now.position(at);
        let more = position.saturating_sub(before.position(at));
        text.push_str(stream.name.as_str())?;
        if is_terminal {
            push_bar(&mut text, alloc, stream)?;
        }
        text.push_str(format!(in alloc; " {position} ({more}/s), ")?.as_str())?;
    }
    Ok(text)
}

// A bar of a file whose size is known.
fn push_bar(text: &mut String, alloc: Global, stream: &StreamCounters) -> Result<(), AllocError> {
    let Some(size) = stream.size else {
        return Ok(());
    };
    let taken = stream.input.bytes.get().min(size);
    let full = scale(BAR, taken, size);
    text.push_str(" [")?;
    for at in 0..BAR {
        text.push(if at < full { '#' } else { '-' })?;
    }
    text.push_str(format!(in alloc; "] {}%", scale(100, taken, size))?.as_str())
}

// How much of `whole` is in proportion to `done` of `all`.
fn scale(whole: u64, done: u64, all: u64) -> u64 {
    match whole.saturating_mul(done).checked_div(all) {
        Some(part) => part,
        None => whole,
    }
}
