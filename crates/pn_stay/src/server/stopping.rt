//! How a server that stays is stopped.

ghost use Rattle.std.specs.Prelude.{◌≡◌};
ghost use Rattle.pn_live.specs.Prelude.{tablets_in};
ghost use Rattle.pn_serve.specs.Server.Events.{RunsCommands};

use crate::counters::{Counters, StreamCounters};
use crate::listener::Listener;
use crate::server::control_client::ControlClient;
use crate::socket_mailbox::{SocketMailbox, are_silent, have_ended};
use pn_live::LiveRegion;
use pn_serve::{ControlMailboxes, ControlsClosed, StopAsked, take_commands_for};
use std::alloc::Global;
use std::sync::{Arc, Wait};
use std::thread;
use std::time::{Clock, Duration, Instant};

/// How many milliseconds the writer waits for a command before it looks at the threads again.
const STEP: u64 = 10;

/// For how many milliseconds at most a stop goes on until each publisher of a stream was sent the position that was taken.
const TELLING: u64 = 200;

/// For how many milliseconds control sessions may end also where no time is left.
const CLOSING: u64 = 1_000;

/// For how many milliseconds at most a thread that answers is waited for, once it is to answer nothing more. It is silent after the
/// turn that it gives.
const CUTTING: u64 = 10_000;

/// How many milliseconds a wait for such threads takes.
const CUT_STEP: u64 = 1;

/// What a stop needs of a server: its listening sockets, the mailboxes and clients of its threads, and its counters.
#[derive(Drop)]
pub(super) struct Stopping {
    pub(super) listener: Listener,
    pub(super) control: Option<Listener>,
    pub(super) mailboxes: Arc<Vec<Arc<SocketMailbox>>>,
    pub(super) clients: Vec<Arc<ControlClient>>,
    pub(super) counters: Arc<Counters>,
}

// A stage of a stop: connections end in the first, control sessions in the last.
#[derive(Clone, Copy)]
struct Stage {
    is_last: bool,
    // Since when it lasts, where the clock says it.
    began: Option<Instant>,
}

impl Stage {
    // A stage that begins.
    fn new<R: Clock>(rt: &R, is_last: bool) -> Stage {
        Stage {
            is_last,
            began: Instant::now(rt).ok(),
        }
    }
}

impl Stopping {
    /// Accepts no connection from now on. Waits until the lines that have come are answered and each publisher was sent the position
    /// that was taken, or the time is over, and ends control sessions then. What they ask for is done meanwhile.
    pub(super) fn run<R: Wait + Clock>(
        &self,
        rt: &R,
        alloc: Global,
        live: &mut LiveRegion,
        controls: &ControlMailboxes,
        asked: StopAsked,
    ) -> ControlsClosed
        ensures runs { RunsCommands live.old live.new }
        ensures same { tablets_in live.new ≡ tablets_in live.old }
    {
        self.end_connections(rt);
        self.await_ends(rt, alloc, live, controls, &asked);
        controls.close(rt, asked)
    }

    // The threads learn of the stop first. Otherwise the one that accepts would take the end of its socket for a fault.
    fn end_connections<R: Wait>(&self, rt: &R) {
        for mailbox in self.mailboxes.iter() {
            let _ = mailbox.wake_to_stop(rt);
        }
        self.listener.stop();
    }

    // Does what control sessions ask for, until connections have ended, and then control sessions, or the time is over.
    fn await_ends<R: Wait + Clock>(
        &self,
        rt: &R,
        alloc: Global,
        live: &mut LiveRegion,
        controls: &ControlMailboxes,
        asked: &StopAsked,
    )
        ensures runs { RunsCommands live.old live.new }
        ensures same { tablets_in live.new ≡ tablets_in live.old }
    {
        let mut stage = Stage::new(rt, false);
        for _ in rt.forever() {
            if self.end_stage(rt, controls, &mut stage) {
                return;
            }
            take_commands_for(
                rt,
                alloc,
                live,
                controls,
                asked,
                Duration::from_millis(STEP),
            );
        }
        unreachable!()
    }

    // Ends control sessions where the first stage is over. Whether the last is.
    fn end_stage<R: Wait + Clock>(
        &self,
        rt: &R,
        controls: &ControlMailboxes,
        stage: &mut Stage,
    ) -> bool {
        if !self.is_over(rt, controls, stage) {
            return false;
        }
        if stage.is_last {
            return true;
        }
        self.end_controls(rt);
        *stage = Stage::new(rt, true);
        self.is_over(rt, controls, stage)
    }

    // Whether a stage is over: those that it waits for have ended, or have had their time.
    fn is_over<R: Wait + Clock>(&self, rt: &R, controls: &ControlMailboxes, stage: &Stage) -> bool {
        if stage.is_last {
            have_clients_ended(rt, &self.clients)
                || (controls.is_stop_over(rt) && has_passed(rt, &stage.began, CLOSING))
        } else {
            controls.is_stop_over(rt) || self.have_connections_ended(rt, &stage.began)
        }
    }

    // Whether all threads that answer connections have ended, and each publisher was sent the position that was taken, or has had its
    // time for that.
    fn have_connections_ended<R: Wait + Clock>(&self, rt: &R, began: &Option<Instant>) -> bool {
        have_ended(rt, &self.mailboxes) && (self.are_told(rt) || has_passed(rt, began, TELLING))
    }

    // Whether each publisher was sent the position that was taken of its stream.
    fn are_told<R: Wait>(&self, rt: &R) -> bool {
        for stream in self.counters.streams.iter() {
            if is_behind(rt, stream) {
                return false;
            }
        }
        true
    }

    // The threads learn of the stop first here, too: one whose `accept` fails then ends.
    fn end_controls<R: Wait>(&self, rt: &R) {
        for client in &self.clients {
            client.stop(rt);
        }
        if let Some(control) = &self.control {
            control.stop();
        }
    }

    /// From now on nothing is answered.
    pub(super) fn cut<R: Wait + Clock>(&self, rt: &R) {
        for client in &self.clients {
            client.cut(rt);
        }
        for mailbox in self.mailboxes.iter() {
            let _ = mailbox.wake_to_cut(rt);
        }
        for _ in 0..CUTTING / CUT_STEP {
            if are_silent(rt, &self.mailboxes) {
                return;
            }
            thread::sleep(rt, Duration::from_millis(CUT_STEP));
        }
    }
}

// Whether the publisher of a stream was not yet sent the position that was taken.
fn is_behind<R: Wait>(rt: &R, stream: &StreamCounters) -> bool {
    match (&stream.taken, &stream.sent, &stream.status) {
        (Some(taken), Some(sent), Some(status)) => sent.get() < taken.get() && status.is_open(rt),
        _ => false,
    }
}

// Whether `millis` milliseconds have passed since `then`. Where the clock fails they have.
fn has_passed<R: Clock>(rt: &R, then: &Option<Instant>, millis: u64) -> bool {
    let Some(then) = then else { return true };
    match then.elapsed(rt) {
        Ok(elapsed) => elapsed >= Duration::from_millis(millis),
        Err(_) => true,
    }
}

// Whether all threads that answer control sessions have ended.
fn have_clients_ended<R: Wait>(rt: &R, clients: &[Arc<ControlClient>]) -> bool {
    for client in clients {
        if !client.has_ended(rt) {
            return false;
        }
    }
    true
}
