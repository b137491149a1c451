//! Tells control sessions that the log of the live region has grown.

ghost use Rattle.std.specs.Prelude.{◌≡◌, ◌==◌, ◌&&◌, not};

use std::sync::{Condvar, CondvarTimeouts, Mutex, Wait};
use std::time::{Clock, Duration};

/// The last number of the log, and who waits for another.
#[derive(Drop)]
pub(crate) struct LogWatch {
    state: Mutex<WatchState>,
    changed: Condvar,
}

#[derive(Drop)]
struct WatchState {
    last: u64,
    is_closed: bool,
}

impl LogWatch {
    /// The watch of an empty log.
    pub(crate) fn new() -> LogWatch {
        LogWatch {
            state: Mutex::new(WatchState {
                last: 0,
                is_closed: false,
            }),
            changed: Condvar::new(),
        }
    }

    /// Notes the last number. Where it is another one, those who wait are woken.
    pub(crate) fn note<R: Wait>(&self, rt: &R, last: u64) {
        if self.state.lock(rt).note(last) {
            self.changed.notify_all();
        }
    }

    /// Waits for `seconds` at most while the last number is `number`. Answers whether it is another one.
    pub(crate) fn wait_past<R: Wait + Clock>(&self, rt: &R, number: u64, seconds: u64) -> bool {
        let most = Duration::from_secs(seconds);
        let guard = self.state.lock(rt);
        let (_state, waited) = self
            .changed
            .wait_timeout_while(rt, guard, most, |state| state.is_at(number));
        !waited.timed_out()
    }

    /// From now on nobody waits.
    pub(crate) fn close<R: Wait>(&self, rt: &R) {
        self.state.lock(rt).is_closed = true;
        self.changed.notify_all();
    }
}

impl WatchState {
    // Whether the number was another one.
    fn note(&mut self, last: u64) -> bool
        ensures noted { self.new ≡ record self.old { last = last } }
        ensures other { result ≡ not (self.old.last == last) }
    {
        let is_other = self.last != last;
        self.last = last;
        is_other
    }

    // Whether one who asks for what came after this number waits.
    fn is_at(&self, number: u64) -> bool
        ensures { result ≡ (self.now.last == number && not self.now.is_closed) }
    {
        self.last == number && !self.is_closed
    }
}
