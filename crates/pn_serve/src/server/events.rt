//! What the writer of a live region does one after another: rounds of what streams report, and commands of control
//! sessions.

ghost use Rattle.std.specs.Prelude.{◌≡◌, ◌≢◌, ◌≤◌, ℕ, List, [], Option, map, None, IsTrue, IsFalse};
ghost use Rattle.pn_apply.specs.declared.reducing.TheConstants.{MAX_WORKERS};
ghost use Rattle.pn_join.specs.Prelude.{Reaches};
ghost use Rattle.pn_live.specs.LiveRegions.{core};
ghost use Rattle.pn_live.specs.Prelude.{tablets_in};
ghost use Rattle.pn_region.specs.Prelude.{IsRegion};
ghost use Rattle.pn_serve.specs.Server.Events.{RunsCommands, RunsEvents, ToldAll, RunsRounds};
ghost use Rattle.pn_serve.specs.Server.Rounds.{RoundInputValue};
ghost use Rattle.pn_serve.specs.Server.Publishers.{IsSent};
ghost use Rattle.pn_serve.specs.declared.server.mailboxes.AtFault.{AtFault};

use crate::ServeFault;
use crate::control::mailboxes::{ControlMailboxes, StopAsked};
use crate::server::mailboxes::{ReportSeen, StreamMailbox, StreamMailboxes};
use crate::server::publishers::{AnyPublishers, Sending};
use crate::server::rounds::{RoundInput, take_round};
use crate::server::times::{begin_time, end_time};
use crate::server::wakeup::Waited;
use pn_live::LiveRegion;
use std::alloc::Global;
use std::sync::{Arc, Wait};
use std::thread::Threads;
use std::time::{Clock, Duration};

/// How reading ends.
#[derive(Drop)]
pub enum ReadingEnd {
    /// All streams have ended, and what they gave was taken.
    StreamsEnded,
    /// A control session asked the server to stop.
    Stopped(StopAsked),
}

/// Runs rounds, and does commands between them where there are mailboxes for some, until all streams have ended, or a stop
/// is asked for, or to the first fault. Where memory ran out and that is waited for, a round is tried again after a second.
pub(crate) fn run_rounds<R: Threads + Wait + Clock + Sync, M: Sending>(
    rt: &R,
    alloc: Global,
    live: &mut LiveRegion,
    workers: usize,
    mailboxes: &mut StreamMailboxes<M>,
    controls: &Option<Arc<ControlMailboxes>>,
) -> Result<ReadingEnd, ServeFault>
    requires workers { (1 ≤ workers) × (workers ≤ MAX_WORKERS) }
    ensures alone { controls.now ≡ None → RunsRounds (IsSent M.known M.sends) mailboxes.old.at_fault (map (λ stream. stream.name) mailboxes.old.streams.items)
        live.old live.new result }
    ensures runs { RunsEvents (IsSent M.known M.sends) mailboxes.old.at_fault (map (λ stream. stream.name) mailboxes.old.streams.items)
        live.old live.new result }
    ensures same { tablets_in live.new ≡ tablets_in live.old }
{
    let mut waiting = None;
    let mut is_short = false;
    for _ in rt.forever() {
        if has_ended(mailboxes, &waiting) {
            return Ok(ReadingEnd::StreamsEnded);
        }
        if let Some(asked) = find_stop(rt, controls) {
            return Ok(ReadingEnd::Stopped(asked));
        }
        let _ = await_work(rt, mailboxes, is_short);
        obey_all(rt, alloc, live, controls, &mailboxes.streams);
        if waiting.is_none() && !mailboxes.has_report(rt) {
            continue;
        }
        let began = begin_time(rt, &mailboxes.times);
        let is_taken = take_round(rt, alloc, live, workers, mailboxes, &mut waiting)?;
        end_time(rt, &mailboxes.times, &began, is_taken);
        is_short = !is_taken;
        mailboxes.show_shortage(is_short);
        note_log(rt, live, controls);
    }
    unreachable!()
}

// Whether all streams have ended, and no input waits.
fn has_ended<M: Sending>(mailboxes: &StreamMailboxes<M>, waiting: &Option<RoundInput>) -> bool
    ensures ended { IsTrue result → (waiting.now ≡ None) × (mailboxes.now.streams.items ≡ []) }
    ensures more { IsFalse result → waiting.now ≡ None → mailboxes.now.streams.items ≢ [] }
{
    waiting.is_none() && mailboxes.streams.is_empty()
}

// Why the thread goes on: it has seen a report, or has waited.
#[derive(Drop)]
enum Awaited {
    Report(ReportSeen),
    Wait(Waited),
}

// Waits for a report or a command, unless there is a report; where memory is short, waits for a second at most.
fn await_work<R: Wait + Clock, M: Sending>(
    rt: &R,
    mailboxes: &StreamMailboxes<M>,
    is_short: bool,
) -> Awaited {
    if is_short {
        return Awaited::Wait(mailboxes.wait_for_memory(rt));
    }
    match mailboxes.find_report(rt) {
        Some(report) => Awaited::Report(report),
        None => Awaited::Wait(mailboxes.wait(rt)),
    }
}

// Shows that a stop was asked for, once a control session has done so.
fn find_stop<R: Wait>(rt: &R, controls: &Option<Arc<ControlMailboxes>>) -> Option<StopAsked>
    ensures { controls.now ≡ None → result ≡ None }
{
    match controls {
        Some(controls) => controls.show_stop(rt),
        None => None,
    }
}

// Does the commands that control sessions have left, and shows these streams' mailboxes how far each takes the marks.
fn obey_all<R: Wait, M: Sending>(
    rt: &R,
    alloc: Global,
    live: &mut LiveRegion,
    controls: &Option<Arc<ControlMailboxes>>,
    streams: &[StreamMailbox<M>],
)
    ensures alone { controls.now ≡ None → live.new ≡ live.old }
    ensures rise { Reaches live.new.marks live.old.marks }
    ensures told { (at_fault : AtFault) (names : List (List ℕ)) (waiting : Option RoundInputValue) → ToldAll at_fault names waiting live.old live.new }
    ensures same { tablets_in live.new ≡ tablets_in live.old }
{
    recall_region(live);
    match controls {
        Some(controls) => controls.obey_all(rt, alloc, live, streams),
        None => {}
    }
}

// A live region is a region.
fn recall_region(live: &LiveRegion)
    ensures { IsRegion (core live.now) }
{
    let _layout = live.layout();
}

// Notes the last number of the log where control sessions may wait for it.
fn note_log<R: Wait>(rt: &R, live: &LiveRegion, controls: &Option<Arc<ControlMailboxes>>) {
    if let Some(controls) = controls {
        controls.note_log(rt, live);
    }
}

/// Does what control sessions ask for, until one asks the server to stop.
pub fn take_commands<R: Wait>(
    rt: &R,
    alloc: Global,
    live: &mut LiveRegion,
    controls: &ControlMailboxes,
) -> StopAsked
    ensures runs { RunsCommands live.old live.new }
    ensures same { tablets_in live.new ≡ tablets_in live.old }
{
    controls.note_log(rt, live);
    for _ in rt.forever() {
        controls.obey_all::<R, AnyPublishers>(rt, alloc, live, &[]);
        if let Some(asked) = controls.show_stop(rt) {
            return asked;
        }
        let _ = controls.wakeup.wait(rt);
    }
    unreachable!()
}

/// Waits for what control sessions ask for, for `most` at most, and does it, after a stop was asked for.
pub fn take_commands_for<R: Wait + Clock>(
    rt: &R,
    alloc: Global,
    live: &mut LiveRegion,
    controls: &ControlMailboxes,
    _asked: &StopAsked,
    most: Duration,
)
    ensures runs { RunsCommands live.old live.new }
    ensures same { tablets_in live.new ≡ tablets_in live.old }
{
    let _ = controls.wakeup.wait_at_most(rt, most);
    controls.obey_all::<R, AnyPublishers>(rt, alloc, live, &[]);
}
