//! Clocks of lines and of quarters of a second.

ghost use Rattle.std.specs.Prelude.{◌≡◌, ◌*◌, ◌≤◌, ◌↔◌, ◌||◌, None, false, IfOk, IsTrue, OnErr};
ghost use Rattle.std.specs.Duration.{as_nanos};
ghost use Rattle.pn_stay.specs.declared.quarter_clock.TheConstants.{QUARTER};

use pn_serve::TimeCounters;
use std::io;
use std::time::{Clock, Duration, Instant};

/// How many lines of a connection were timed, and since when the last one is at hand, where it goes on.
#[derive(Drop)]
pub(crate) struct LineClock {
    timed: u64,
    since: Option<Instant>,
}

impl LineClock {
    /// The clock of a connection of which no line was taken.
    pub(crate) fn new() -> LineClock {
        LineClock {
            timed: 0,
            since: None,
        }
    }

    /// A turn is over, up to which `lines` lines were taken. The last may go on; the others have their replies. What was
    /// taken in the turn was at hand then.
    pub(crate) fn end_turn<R: Clock>(
        &mut self,
        rt: &R,
        at_hand: &Option<Instant>,
        lines: u64,
        is_pending: bool,
        times: &TimeCounters,
    ) {
        let began = match self.since {
            Some(since) => Some(since),
            None => *at_hand,
        };
        let done = lines.saturating_sub(u64::from(is_pending));
        if self.timed < done {
            times.add_since(rt, &began, done.saturating_sub(self.timed));
            self.timed = done;
        }
        self.since = if is_pending { began } else { None };
    }
}

/// How many milliseconds a quarter of a second has.
pub(crate) const QUARTER: u64 = 250;

/// After how many milliseconds the clock is looked at again while it runs.
const PAUSE: u64 = 50;

/// Whether quarters are counted, and when the one began that is not over.
#[derive(Drop)]
pub(crate) struct QuarterClock {
    pub(crate) is_running: bool,
    began: Option<Instant>,
}

impl QuarterClock {
    /// A clock that stands.
    pub(crate) fn new() -> QuarterClock {
        QuarterClock {
            is_running: false,
            began: None,
        }
    }

    /// It runs from now on, if `waits`.
    pub(crate) fn run_if(&mut self, waits: bool)
        ensures { self.new.is_running ≡ (self.old.is_running || waits) }
    {
        self.is_running |= waits;
    }

    /// It stands, until it runs again.
    pub(crate) fn stand(&mut self)
        ensures { self.new.is_running ≡ false }
    {
        self.is_running = false;
    }

    /// How long a wait for events may take. None: any time.
    pub(crate) fn timeout(&self) -> Option<Duration>
        ensures { self.now.is_running ≡ false → result ≡ None }
    {
        if !self.is_running {
            return None;
        }
        Some(Duration::from_millis(PAUSE))
    }

    /// Whether a quarter is over since it began, or since the last that was. Where the clock fails none is.
    pub(crate) fn is_over<R: Clock>(&mut self, rt: &R) -> bool
        ensures stands { self.old.is_running ≡ false → result ≡ false }
        ensures running { self.new.is_running ≡ self.old.is_running }
    {
        if !self.is_running {
            self.began = None;
            return false;
        }
        let is_over = match &self.began {
            Some(began) => is_quarter(began.elapsed(rt)),
            None => false,
        };
        if is_over || self.began.is_none() {
            self.began = Instant::now(rt).ok();
        }
        is_over
    }
}

// Whether a quarter of a second has passed. Where the clock fails it has not.
fn is_quarter(elapsed: io::Result<Duration>) -> bool
    ensures told { IfOk elapsed (λ elapsed. IsTrue result ↔ (QUARTER * 1_000_000 ≤ as_nanos elapsed)) }
    ensures unknown { OnErr elapsed (result ≡ false) }
{
    match elapsed {
        Ok(elapsed) => elapsed >= Duration::from_millis(QUARTER),
        Err(_) => false,
    }
}
