//! Lines for standard error. A thread of its own writes them, so that nobody else waits for who reads them.

ghost use Rattle.std.specs.Prelude.{◌≡◌, ◌<◌, ◌≤◌, ◌↔◌, ◌++◌, ◌∷◌, [], length, IfOk, IsTrue};
ghost use Rattle.pn_stay.specs.Servers.{one_more};

use crate::counters::Counters;
use pn_serve::Counter;
use std::alloc::{AllocError, Global};
use std::marker::Model;
use std::mem;
use std::sync::{Arc, Condvar, CondvarTimeouts, Mutex, Wait};
use std::time::{Clock, Duration};

/// How many lines wait at most.
pub const MAX_WAITING: usize = 1_024;

/// Lines that wait to be written to standard error.
#[derive(Drop)]
pub struct Messages {
    waiting: Mutex<WaitingLines>,
    left: Condvar,
}

impl Messages {
    /// No line waits.
    pub fn new(alloc: Global) -> Result<Messages, AllocError> {
        let waiting = WaitingLines::new(alloc)?;
        Ok(Messages {
            waiting: Mutex::new(waiting),
            left: Condvar::new(),
        })
    }

    /// Leaves a line to be written. One for which there is no memory is dropped.
    pub fn leave<R: Wait>(&self, rt: &R, line: Result<String, AllocError>) {
        let mut waiting = self.waiting.lock(rt);
        match line {
            Ok(line) => waiting.add(line),
            Err(_) => waiting.drop_one(),
        }
        self.left.notify_one();
    }

    /// Waits until a line was left, for a second at most, and exchanges those that wait for others.
    pub fn exchange<R: Wait + Clock>(&self, rt: &R, others: &mut WaitingLines) {
        let guard = self.waiting.lock(rt);
        let most = Duration::from_secs(1);
        let (mut waiting, _) = self
            .left
            .wait_timeout_while(rt, guard, most, |waiting| waiting.is_empty());
        mem::swap(&mut *waiting, others);
    }
}

/// Lines in their order. One that does not fit is dropped, and counted.
#[derive(Drop)]
pub struct WaitingLines {
    lines: Vec<String>,
    dropped: u64,
}

impl Model for WaitingLines {
    ghost use Rattle.std.specs.Prelude.{◌≤◌, vec_len, vec_capacity};
    ghost use Rattle.pn_stay.specs.Servers.{Waiting};
    ghost use Rattle.pn_stay.specs.declared.messages.TheConstants.{MAX_WAITING};

    ghost Value = { Waiting };

    ghost view = { λ waiting. (waiting.lines.items, waiting.dropped) };

    ghost invariant = { λ waiting. (vec_len waiting.lines ≤ MAX_WAITING) × (MAX_WAITING ≤ vec_capacity waiting.lines) };
}

impl WaitingLines {
    /// No lines, and the memory for the most that wait.
    pub fn new(alloc: Global) -> Result<WaitingLines, AllocError>
        ensures { IfOk result (λ waiting. waiting ≡ ([], 0)) }
    {
        let lines = Vec::with_capacity(alloc, MAX_WAITING)?;
        Ok(WaitingLines { lines, dropped: 0 })
    }

    pub fn lines(&self) -> &[String]
        ensures { result.now ≡ self.now.0 }
    {
        &self.lines
    }

    /// How many lines were dropped.
    pub fn dropped(&self) -> u64
        ensures { result ≡ self.now.1 }
    {
        self.dropped
    }

    /// Whether there is no line, and none was dropped.
    pub fn is_empty(&self) -> bool
        ensures { IsTrue result ↔ (self.now ≡ ([], 0)) }
    {
        self.lines.is_empty() && self.dropped == 0
    }

    /// Adds a line, or drops it where it does not fit.
    pub fn add(&mut self, line: String)
        ensures added { length self.old.0 < MAX_WAITING → self.new ≡ (self.old.0 ++ line ∷ [], self.old.1) }
        ensures dropped { MAX_WAITING ≤ length self.old.0 → self.new ≡ (self.old.0, one_more self.old.1) }
    {
        if self.lines.len() < MAX_WAITING {
            self.lines.push_reserved(line);
        } else {
            self.drop_one();
        }
    }

    /// Counts a line that is dropped.
    pub fn drop_one(&mut self)
        ensures { self.new ≡ (self.old.0, one_more self.old.1) }
    {
        self.dropped = self.dropped.saturating_add(1);
    }

    pub fn clear(&mut self)
        ensures { self.new ≡ ([], 0) }
    {
        self.lines.clear();
        self.dropped = 0;
    }
}

/// Who waits for memory. Each counter is zero where nobody does.
#[derive(Drop)]
pub struct Shortages {
    rounds: Arc<Counter>,
    streams: Arc<Counter>,
}

impl Shortages {
    /// Those that these counters count.
    pub fn of(counters: &Counters) -> Result<Shortages, AllocError> {
        let rounds = Arc::try_clone(&counters.shortage)?;
        let streams = Arc::try_clone(&counters.waiting)?;
        Ok(Shortages { rounds, streams })
    }
}

/// Writes lines to standard error, also where rounds or streams begin to wait for memory, and where they go on.
#[derive(Drop)]
pub struct MessagePrinter {
    messages: Arc<Messages>,
    shortages: Shortages,
    // What it exchanges for lines that wait.
    lines: WaitingLines,
    // What goes before each line.
    prefix: &'static str,
}

impl MessagePrinter {
    /// Has the memory that it needs.
    pub fn new(
        alloc: Global,
        messages: Arc<Messages>,
        shortages: Shortages,
        prefix: &'static str,
    ) -> Result<MessagePrinter, AllocError> {
        let lines = WaitingLines::new(alloc)?;
        Ok(MessagePrinter {
            messages,
            shortages,
            lines,
            prefix,
        })
    }

    /// Writes the lines that are left, for as long as the program runs.
    pub fn run<R: Wait + Clock + Eprint>(self, rt: &R) {
        let MessagePrinter {
            messages,
            shortages,
            lines,
            prefix,
        } = self;
        let mut lines = lines;
        let (mut rounds_wait, mut streams_wait) = (false, false);
        for _ in rt.forever() {
            messages.exchange(rt, &mut lines);
            print_lines(rt, &lines, prefix);
            lines.clear();
            rounds_wait = print_shortage(rt, &shortages.rounds, rounds_wait, prefix, "round");
            streams_wait = print_shortage(rt, &shortages.streams, streams_wait, prefix, "stream");
        }
    }
}

// Prints where one of these begins to wait for memory, or none waits any more. Answers whether one waits.
fn print_shortage<R: Eprint>(
    rt: &R,
    shortage: &Counter,
    was_short: bool,
    prefix: &str,
    what: &str,
) -> bool {
    let is_short = shortage.get() > 0;
    if is_short && !was_short {
        let _ = eprintln!(rt; "{prefix}pnuts: out of memory: a {what} waits");
    }
    if was_short && !is_short {
        let _ = eprintln!(rt; "{prefix}pnuts: {what}s go on");
    }
    is_short
}

fn print_lines<R: Eprint>(rt: &R, waiting: &WaitingLines, prefix: &str) {
    for line in waiting.lines().iter() {
        let _ = eprintln!(rt; "{prefix}pnuts: {line}");
    }
    if waiting.dropped() > 0 {
        let _ = eprintln!(rt; "{prefix}pnuts: {} lines were dropped", waiting.dropped());
    }
}
