//! By when the server is to have stopped, and that a line said so.

ghost use Rattle.std.specs.Prelude.{◌≡◌, ◌+◌, ◌*◌, ◌^◌, ◌-◌, ◌<◌, ◌≤◌, Ok, Some, IsSomeAnd, min, MatchBool, MatchOption};
ghost use Rattle.pn_protocol.specs.Prelude.{control_at};
ghost use Rattle.pn_protocol.specs.Command.Controls.{stop};
ghost use Rattle.pn_serve.specs.Control.Commands.{IsSaid};

use std::sync::{Mutex, Wait};

/// Shows that a line of a control session said `stop`, and within how many seconds.
#[derive(Clone, Copy)]
pub struct StopSaid {
    pub(crate) seconds: u64,
    ghost said: { IsSaid seconds },
}

impl StopSaid {
    /// That of a line.
    pub(crate) fn by(line: &[u8], seconds: u64) -> StopSaid
        requires { control_at line.now ≡ Ok (stop seconds) }
        ensures { result.seconds ≡ seconds }
    {
        StopSaid { seconds }
    }
}

/// A stop, and the time by which the server is to have ended, in milliseconds since it began.
#[derive(Clone, Copy)]
pub(crate) struct StopTime {
    time: u64,
    pub(crate) said: StopSaid,
}

impl StopTime {
    /// The time `said.seconds` after `now`.
    pub(crate) fn after(now: u64, said: StopSaid) -> StopTime
        ensures time { result.time ≡ min (now + said.seconds * 1000) (2 ^ 64 - 1) }
        ensures said { result.said ≡ said }
    {
        let time = now.saturating_add(said.seconds.saturating_mul(1_000));
        StopTime { time, said }
    }

    /// Whether the time has come.
    pub(crate) fn has_come(self, now: u64) -> bool
        ensures { MatchBool result (self.time ≤ now) (now < self.time) }
    {
        self.time <= now
    }

    // The earlier one.
    fn earlier(self, other: StopTime) -> StopTime
        ensures { result.time ≡ min self.time other.time }
    {
        if self.time <= other.time {
            return self;
        }
        other
    }
}

/// The stop that control sessions ask for, once one has.
#[derive(Drop)]
pub(crate) struct StopRequest(Mutex<Option<StopTime>>);

impl StopRequest {
    /// No session has asked for a stop.
    pub(crate) fn new() -> StopRequest {
        StopRequest(Mutex::new(None))
    }

    /// Asks for a stop. The one of the earliest time holds.
    pub(crate) fn ask<R: Wait>(&self, rt: &R, stop: StopTime) {
        let mut asked = self.0.lock(rt);
        keep_earliest(&mut *asked, stop);
    }

    /// The stop of the earliest time.
    pub(crate) fn asked<R: Wait>(&self, rt: &R) -> Option<StopTime> {
        *self.0.lock(rt)
    }
}

// Keeps the earlier one.
fn keep_earliest(asked: &mut Option<StopTime>, stop: StopTime)
    ensures { MatchOption asked.old (asked.new ≡ Some stop) (λ earliest. IsSomeAnd asked.new (λ kept. kept.time ≡ min earliest.time stop.time)) }
{
    *asked = match *asked {
        Some(earliest) => Some(earliest.earlier(stop)),
        None => Some(stop),
    };
}
