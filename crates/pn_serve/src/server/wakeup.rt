//! The wakeup of the thread that takes the reports and commands which others leave.

ghost use Rattle.std.specs.Prelude.{◌≡◌, true, false};

use std::sync::{Condvar, CondvarTimeouts, Mutex, Wait};
use std::time::{Clock, Duration};

/// Shows that the thread waited until it was notified, or for a time.
#[derive(Drop)]
pub(crate) struct Waited(());

/// Many threads notify it; one thread waits until it is notified.
#[derive(Drop)]
pub(crate) struct Wakeup {
    is_notified: Mutex<bool>,
    notified: Condvar,
}

impl Wakeup {
    /// A wakeup that was not notified.
    pub(crate) fn new() -> Wakeup {
        Wakeup {
            is_notified: Mutex::new(false),
            notified: Condvar::new(),
        }
    }

    /// Ends the wait of the thread that waits, or its next one.
    pub(crate) fn notify<R: Wait>(&self, rt: &R) {
        *self.is_notified.lock(rt) = true;
        self.notified.notify_one();
    }

    /// Waits until it is notified, or was notified since the last call.
    pub(crate) fn wait<R: Wait>(&self, rt: &R) -> Waited {
        let guard = self.is_notified.lock(rt);
        let mut is_notified = self
            .notified
            .wait_while(rt, guard, |is_notified| !*is_notified);
        take_notice(&mut *is_notified)
    }

    /// Waits as `wait` does, but for `most` at most.
    pub(crate) fn wait_at_most<R: Wait + Clock>(&self, rt: &R, most: Duration) -> Waited {
        let guard = self.is_notified.lock(rt);
        let (mut is_notified, _) = self
            .notified
            .wait_timeout_while(rt, guard, most, |is_notified| !*is_notified);
        *is_notified = false;
        Waited(())
    }
}

// Takes the notice that has come.
fn take_notice(is_notified: &mut bool) -> Waited
    requires { is_notified.old ≡ true }
    ensures { is_notified.new ≡ false }
{
    *is_notified = false;
    Waited(())
}
