//! Reads streams into a live region while sessions are answered from it.

ghost use Rattle.std.specs.Prelude.{◌≡◌, ◌≢◌, ◌≤◌, map, vec_len, All, Ok, Err, IfOk, IfErr, OnOk, IsErrOf, IsTrue, IsFalse, MatchResult};
ghost use Rattle.std.specs.List.{AllByRecursion};
ghost use Rattle.std.specs.Io.KnownBytes.{Appends, Keeps};
ghost use Rattle.pn_apply.specs.declared.reducing.TheConstants.{MAX_WORKERS};
ghost use Rattle.pn_line.specs.Prelude.{AppendsPrefix};
ghost use Rattle.pn_live.specs.Readers.{AllKnowPublished};
ghost use Rattle.pn_live.specs.LiveRegions.{core};
ghost use Rattle.pn_live.specs.Prelude.{IsNewLive, tablets_in};
ghost use Rattle.pn_live.specs.declared.region.opening.TheConstants.{MAX_READERS};
ghost use Rattle.pn_serve.specs.declared.server.session_threads.TheConstants.{MAX_SESSIONS};
ghost use Rattle.pn_serve.specs.Server.Reports.{NamesOne, names_of};
ghost use Rattle.pn_serve.specs.Server.Publishers.{AreHonestPublishers, IsOfPublisher, IsSent, IsTakenWhole};
ghost use Rattle.pn_serve.specs.Server.Events.{RunsRounds, AllRead};
ghost use Rattle.pn_serve.specs.Server.Served.{EndsReading, EndsServing, EndsServingNew};
ghost use Rattle.pn_stream.specs.Brokers.{IsHonest};
ghost use Rattle.pn_stream.specs.Prelude.{BrokerRecord};
ghost use Rattle.pn_protocol.specs.Prelude.{served_line};

mod ending_line;
mod events;
mod fault_log;
mod held_report;
pub(crate) mod mailboxes;
mod messages;
mod publisher_input;
pub(crate) mod publishers;
mod reporting;
mod reports;
mod rounds;
mod session_threads;
mod shown_mark;
mod stream_threads;
mod streams;
mod times;
mod tries;
pub(crate) mod wakeup;

use crate::Settings;
use crate::server::ending_line::write_ending;
use crate::server::events::run_rounds;
use crate::server::mailboxes::StreamMailboxes;
use crate::server::publisher_input::workers_of_each;
use crate::server::session_threads::{StartedSessions, start_sessions};
use crate::server::stream_threads::{StartedStreams, StreamThread, join_streams, start_streams};
pub use events::{ReadingEnd, take_commands, take_commands_for};
pub use fault_log::{FaultLog, ServeFault, StreamFailure};
use pn_join::{Marks, NoMemory};
use pn_line::{Sink, Source};
use pn_live::{LiveReader, LiveRegion};
use pn_region::Region;
use pn_stream::StreamReader;
use pn_tablet::Layout;
pub use publishers::{
    AnyPublishers, NextPublisher, Origin, PublisherEnd, Sending, Stream, StreamPath,
};
pub use session_threads::{
    Acceptor, ComesBack, MAX_CONTROLS, MAX_SESSIONS, SESSION_CAPACITY, SessionThread, join_sessions,
};
pub use shown_mark::ShownMark;
use std::alloc::Global;
use std::sync::Wait;
use std::thread::Threads;
use std::time::Clock;
pub use streams::{Watchers, read_streams};
pub use times::{Counter, TimeCounters};

/// A live region and its readers. It is not `Drop`: end it by `close_region`.
pub struct OpenedRegion {
    pub live: LiveRegion,
    pub readers: Vec<LiveReader>,
}

/// Serves as [`serve_opened`] does, over a new live region, with 1 to 16 sessions. Where none can be opened it ends with
/// `Start`.
pub fn serve<R, L, S, W, M>(
    rt: &R,
    alloc: Global,
    listener: &L,
    settings: Settings,
    sessions: usize,
    streams: Vec<StreamReader<S>>,
    out: &mut W,
) -> Result<(), ServeFault>
where
    R: Threads + Wait + Clock + Sync + Copy + Send + 'static,
    L: Acceptor + Drop + Send + 'static,
    S: Source + Drop + Send + 'static,
    W: Sink,
    M: Sending + Send + 'static,
    requires sessions { (1 ≤ sessions) × (sessions ≤ MAX_SESSIONS) }
    requires sent { M.known → All (IsOfPublisher M.sends S.left) streams.items }
    ensures ends { EndsServingNew (IsSent M.known M.sends) S.left settings.layout streams.items result }
    ensures honest { (broker : BrokerRecord) → M.known → AreHonestPublishers broker M.sends
        → EndsServingNew (IsHonest broker) S.left settings.layout streams.items result }
    ensures served { OnOk result (Appends (W.contents out.old) (W.contents out.new) (served_line sessions)) }
    ensures silent { IfErr result (λ fault. fault ≢ ServeFault.Write → Keeps (W.contents out.old) (W.contents out.new)) }
    ensures part { IsErrOf result ServeFault.Write → AppendsPrefix (W.contents out.old) (W.contents out.new) (served_line sessions) }
    ensures write { IsErrOf result ServeFault.Write → W.may_fail }
    ensures flushed { OnOk result (W.is_flushed out.new) }
{
    let (layout, workers) = settings.into_parts();
    match open_region(rt, alloc, layout, sessions) {
        Ok(opened) => serve_opened::<R, L, S, W, M>(
            rt, alloc, listener, opened, workers, streams, out,
        ),
        Err(fault) => Err(fault),
    }
}

/// Reads streams into a live region that is open, at most 1,000 messages of each a round, while it answers one session with
/// each of its readers. Then it closes the region, and writes `served N`.
///
/// After a fault of a stream or a round, the sessions are still served. A session's fault ends that session alone.
/// Faults come in the order of `ServeFault`.
pub fn serve_opened<R, L, S, W, M>(
    rt: &R,
    alloc: Global,
    listener: &L,
    opened: OpenedRegion,
    workers: usize,
    streams: Vec<StreamReader<S>>,
    out: &mut W,
) -> Result<(), ServeFault>
where
    M: Sending + Send + 'static,
    W: Sink,
    S: Source + Drop + Send + 'static,
    L: Acceptor + Drop + Send + 'static,
    R: Threads + Wait + Clock + Sync + Copy + Send + 'static,
    requires workers { (1 ≤ workers) × (workers ≤ MAX_WORKERS) }
    requires own { AllRead (tablets_in opened.live) opened.readers.items }
    requires sent { M.known → All (IsOfPublisher M.sends S.left) streams.items }
    ensures ends { EndsServing (IsSent M.known M.sends) S.left opened.live streams.items result }
    ensures honest { (broker : BrokerRecord) → M.known → AreHonestPublishers broker M.sends
        → EndsServing (IsHonest broker) S.left opened.live streams.items result }
    ensures served { OnOk result (Appends (W.contents out.old) (W.contents out.new) (served_line (vec_len opened.readers))) }
    ensures silent { IfErr result (λ fault. fault ≢ ServeFault.Write → Keeps (W.contents out.old) (W.contents out.new)) }
    ensures part { IsErrOf result ServeFault.Write → AppendsPrefix (W.contents out.old) (W.contents out.new) (served_line (vec_len opened.readers)) }
    ensures write { IsErrOf result ServeFault.Write → W.may_fail }
    ensures flushed { OnOk result (W.is_flushed out.new) }
{
    let mut region = opened;
    let read = serve_streams::<R, L, S, M>(rt, alloc, listener, &mut region, workers, streams);
    let OpenedRegion { live, readers } = region;
    let count = readers.len();
    let closed = close_region(rt, live, readers);
    let served = conclude(read, closed, count);
    write_ending(served, out)
}

/// Opens a live region with this many readers.
pub fn open_region<R: Wait>(
    rt: &R,
    alloc: Global,
    layout: Layout,
    readers: usize,
) -> Result<OpenedRegion, ServeFault>
    requires { (1 ≤ readers) × (readers ≤ MAX_READERS) }
    ensures is_new { IfOk result (λ opened. IsNewLive layout opened.live) }
    ensures own { IfOk result (λ opened. AllRead (tablets_in opened.live) opened.readers.items) }
    ensures count { IfOk result (λ opened. vec_len opened.readers ≡ readers) }
    ensures fault { IfErr result (λ fault. fault ≡ ServeFault.Start) }
{
    match LiveRegion::open(rt, alloc, layout, readers) {
        Ok((live, readers)) => Ok(OpenedRegion { live, readers }),
        Err(_) => Err(ServeFault::Start),
    }
}

/// Closes a live region, whose readers came back: answers the region of all that was published. No reader saw or learnt
/// more.
pub fn close_region<R: Wait>(
    rt: &R,
    live: LiveRegion,
    readers: Vec<LiveReader>,
) -> Result<Region, NoMemory>
    requires { AllRead (tablets_in live) readers.items }
    ensures state { IfOk result (λ region. region.state ≡ core live) }
    ensures log { IfOk result (λ region. region.log ≡ live.log) }
    ensures readers { IfOk result (λ _. AllByRecursion (λ reader. AllKnowPublished live.tablets reader.tablet_readers) readers.items) }
{
    live.close(rt, readers)
}

// How many readers came back, unless there is a fault. An earlier one outranks out of memory while closing.
fn conclude(
    served: Result<(), ServeFault>,
    closed: Result<Region, NoMemory>,
    count: usize,
) -> Result<usize, ServeFault>
    ensures served { IfErr served (λ fault. result ≡ Err fault) }
    ensures closed { OnOk served (MatchResult closed (λ _. result ≡ Ok count) (λ _. result ≡ Err ServeFault.Close)) }
{
    match (served, closed) {
        (Err(fault), _) => Err(fault),
        (Ok(()), Err(_)) => Err(ServeFault::Close),
        (Ok(()), Ok(_)) => Ok(count),
    }
}

// Reads the streams while the sessions are served, and takes the readers back from the sessions.
fn serve_streams<R, L, S, M>(
    rt: &R,
    alloc: Global,
    listener: &L,
    region: &mut OpenedRegion,
    workers: usize,
    streams: Vec<StreamReader<S>>,
) -> Result<(), ServeFault>
where
    R: Threads + Wait + Clock + Sync + Copy + Send + 'static,
    L: Acceptor + Drop + Send + 'static,
    S: Source + Drop + Send + 'static,
    M: Sending + Send + 'static,
    requires workers { (1 ≤ workers) × (workers ≤ MAX_WORKERS) }
    requires own { AllRead (tablets_in region.old.live) region.old.readers.items }
    requires sent { M.known → All (IsOfPublisher M.sends S.left) streams.items }
    ensures own { AllRead (tablets_in region.new.live) region.new.readers.items }
    ensures all { OnOk result (vec_len region.new.readers ≡ vec_len region.old.readers) }
    ensures ends { EndsReading (IsSent M.known M.sends) S.left streams.items region.old.live region.new.live result }
{
    let (rounds, faults) = (listener.round_counter(), listener.fault_log());
    let own = workers_of_each(workers, streams.len());
    let started = start_streams::<R, S, M>(rt, alloc, streams, own, rounds, faults)?;
    let StartedStreams { mailboxes, threads } = started;
    let mut mailboxes = mailboxes;
    let StartedSessions {
        running,
        is_refused,
    } = start_sessions(rt, alloc, listener, &region.live, &mut region.readers);
    let read = run_unless_refused(
        rt,
        alloc,
        &mut region.live,
        workers,
        &mut mailboxes,
        is_refused,
    );
    mailboxes.close(rt);
    join_sessions(rt, &region.live, running, &mut region.readers);
    join_after_rounds(rt, read, threads, region.live.marks())
}

// Runs the rounds, unless a session was refused.
fn run_unless_refused<R: Threads + Wait + Clock + Sync, M: Sending>(
    rt: &R,
    alloc: Global,
    live: &mut LiveRegion,
    workers: usize,
    mailboxes: &mut StreamMailboxes<M>,
    is_refused: bool,
) -> Result<(), ServeFault>
    requires workers { (1 ≤ workers) × (workers ≤ MAX_WORKERS) }
    ensures refused { IsTrue is_refused → (result ≡ Err ServeFault.Start) × (live.new ≡ live.old) }
    ensures reads { IsFalse is_refused → RunsRounds (IsSent M.known M.sends) mailboxes.old.at_fault
        (map (λ stream. stream.name) mailboxes.old.streams.items) live.old live.new result }
    ensures same { tablets_in live.new ≡ tablets_in live.old }
{
    if is_refused {
        return Err(ServeFault::Start);
    }
    run_rounds(rt, alloc, live, workers, mailboxes, &None)?;
    Ok(())
}

// Waits for the threads of streams, unless the rounds have a fault, which outranks that of a stream.
fn join_after_rounds<R: Threads, S: Source + Drop>(
    rt: &R,
    read: Result<(), ServeFault>,
    threads: Vec<StreamThread<S>>,
    marks: &Marks,
) -> Result<(), ServeFault>
    ensures first { IfErr read (λ fault. result ≡ Err fault) }
    ensures taken { OnOk read (OnOk result (All (IsTakenWhole S.left marks.now) (map (λ thread. thread.promise.0.value) threads.items))) }
    ensures named { OnOk read (IfErr result (NamesOne (names_of (map (λ thread. thread.promise.0.value) threads.items)))) }
{
    match read {
        Ok(()) => join_streams(rt, threads, marks),
        Err(fault) => Err(fault),
    }
}
