//! Lines that are written once a minute at most.

ghost use Rattle.std.specs.Prelude.{◌≡◌, ◌*◌, ◌<◌, ◌↔◌, false, IfOk, IsTrue, OnErr};
ghost use Rattle.std.specs.Duration.{as_nanos};
ghost use Rattle.pn_stay.specs.declared.seldom.TheConstants.{PAUSE};

use std::io;
use std::time::{Clock, Duration, Instant};

/// How many seconds lie between two lines at least.
const PAUSE: u64 = 60;

/// When a line was written last that is written seldom.
#[derive(Drop)]
pub(crate) struct Seldom {
    last: Option<Instant>,
}

impl Seldom {
    /// The line was never written.
    pub(crate) fn new() -> Seldom {
        Seldom { last: None }
    }

    /// Whether the line is due again. Then it is taken to be written now.
    pub(crate) fn is_due<R: Clock>(&mut self, rt: &R) -> bool {
        if let Some(last) = self.last {
            if is_recent(last.elapsed(rt)) {
                return false;
            }
        }
        self.last = Instant::now(rt).ok();
        true
    }
}

// Whether less than the pause has passed. Where the clock fails, it has not.
fn is_recent(elapsed: io::Result<Duration>) -> bool
    ensures told { IfOk elapsed (λ elapsed. IsTrue result ↔ (as_nanos elapsed < PAUSE * 1_000_000_000)) }
    ensures unknown { OnErr elapsed (result ≡ false) }
{
    match elapsed {
        Ok(elapsed) => elapsed < Duration::from_secs(PAUSE),
        Err(_) => false,
    }
}
