//! Reads streams of one publisher each, each in its own thread, which leaves reports in its mailbox.

ghost use Rattle.std.specs.Prelude.{◌≡◌, ◌≤◌, ◌∷◌, [], ◌++◌, map, All, IfOk, IfErr, IsErr, OnOk, OnErr, MatchResult};
ghost use Rattle.pn_join.specs.Prelude.{position_of};
ghost use Rattle.pn_serve.specs.Server.Reports.{NamesOne, names_of};
ghost use Rattle.pn_serve.specs.Server.Publishers.{IsOfPublisher, EndsStream, IsTakenWhole};
ghost use Rattle.pn_serve.specs.declared.server.mailboxes.AtFault.TheVariants.{Stop};

use crate::ServeFault;
use crate::server::fault_log::{FaultLog, OnePublisher};
use crate::server::mailboxes::{AtFault, StreamMailboxes};
use crate::server::publisher_input::PublisherInput;
use crate::server::publishers::Sending;
use crate::server::reporting::{StreamEnd, report_stream};
use crate::server::reports::{HasReporter, Reporter};
use crate::server::times::Counter;
use crate::server::wakeup::Wakeup;
use crate::shared::share;
use pn_join::{Marks, StreamName};
use pn_line::Source;
use pn_stream::StreamReader;
use std::alloc::{AllocError, Global};
use std::snapshot::Snapshot;
use std::sync::{Arc, Wait};
use std::thread;
use std::thread::{Promise, PromisedHandle, Threads};
use std::time::Clock;

/// Promises that `Ok` means the whole stream was read. An error is the stream's name.
#[derive(Drop)]
pub(crate) struct SaysWhetherWhole<S: Source + Drop>(Snapshot<StreamReader<S>>);

impl<S: Source + Drop> Promise<Result<StreamEnd, StreamName>> for SaysWhetherWhole<S> {
    ghost use Rattle.pn_serve.specs.Server.Publishers.{EndsStream};

    ghost kept_by = { λ promise ended. EndsStream S.left promise.0.value ended };
}

/// The thread of a stream, which says in the end whether all of it was read.
pub(crate) type StreamThread<S> = PromisedHandle<
    Result<StreamEnd, StreamName>,
    SaysWhetherWhole<S>,
>;

/// Streams that are being read: their mailboxes and threads.
#[derive(Drop)]
pub(crate) struct StartedStreams<S: Source + Drop, M: Sending> {
    pub(crate) mailboxes: StreamMailboxes<M>,
    pub(crate) threads: Vec<StreamThread<S>>,
}

impl<S: Source + Drop, M: Sending> StartedStreams<S, M> {
    // No streams, with capacity for this many.
    fn new(
        alloc: Global,
        streams: usize,
        rounds: Option<Arc<Counter>>,
    ) -> Result<StartedStreams<S, M>, AllocError>
        ensures threads { IfOk result (λ started. started.threads.items ≡ []) }
        ensures mailboxes { IfOk result (λ started. started.mailboxes.streams.items ≡ []) }
        ensures at_fault { IfOk result (λ started. started.mailboxes.at_fault ≡ Stop) }
    {
        Ok(StartedStreams {
            mailboxes: StreamMailboxes::new(
                alloc,
                streams,
                AtFault::Stop,
                rounds,
                Arc::new(alloc, Wakeup::new())?,
            )?,
            threads: Vec::with_capacity(alloc, streams)?,
        })
    }
}

/// Starts to read streams, each in its own thread, which shares the lines that are at hand among these workers. A refused
/// thread, or out of memory, ends the reading.
pub(crate) fn start_streams<R, S, M>(
    rt: &R,
    alloc: Global,
    streams: Vec<StreamReader<S>>,
    workers: usize,
    rounds: Option<Arc<Counter>>,
    faults: Option<Arc<FaultLog>>,
) -> Result<StartedStreams<S, M>, ServeFault>
where
    R: Threads + Wait + Clock + Copy + Send + 'static,
    S: Source + Drop + Send + 'static,
    M: Sending + Send + 'static,
    requires sent { M.known → All (IsOfPublisher M.sends S.left) streams.items }
    ensures fault { IfErr result (λ fault. fault ≡ ServeFault.Start) }
    ensures threads { IfOk result (λ started. map (λ thread. thread.promise.0.value) started.threads.items ≡ streams.items) }
    ensures names { IfOk result (λ started. map (λ stream. stream.name) started.mailboxes.streams.items ≡ names_of streams.items) }
    ensures at_fault { IfOk result (λ started. started.mailboxes.at_fault ≡ Stop) }
{
    let Ok(mut started) = StartedStreams::new(alloc, streams.len(), rounds) else {
        return Err(ServeFault::Start);
    };
    for stream in streams {
        if let Err(_) = start_stream::<R, S, M>(rt, alloc, &mut started, stream, workers, &faults) {
            started.mailboxes.close(rt);
            return Err(ServeFault::Start);
        }
    }
    Ok(started)
}

fn start_stream<R, S, M>(
    rt: &R,
    alloc: Global,
    started: &mut StartedStreams<S, M>,
    stream: StreamReader<S>,
    workers: usize,
    faults: &Option<Arc<FaultLog>>,
) -> Result<(), AllocError>
where
    R: Threads + Wait + Clock + Copy + Send + 'static,
    S: Source + Drop + Send + 'static,
    M: Sending + Send + 'static,
    requires sent { M.known → IsOfPublisher M.sends S.left stream }
    ensures threads { OnOk result (map (λ thread. thread.promise.0.value) started.new.threads.items
        ≡ map (λ thread. thread.promise.0.value) started.old.threads.items ++ stream ∷ []) }
    ensures names { OnOk result (map (λ stream. stream.name) started.new.mailboxes.streams.items
        ≡ map (λ stream. stream.name) started.old.mailboxes.streams.items ++ stream.name ∷ []) }
    ensures at_fault { OnOk result (started.new.mailboxes.at_fault ≡ started.old.mailboxes.at_fault) }
{
    let name = *stream.name();
    let reporter = started.mailboxes.add(alloc, name, None)?;
    let origin = OnePublisher {
        rt: *rt,
        name,
        faults: share(faults)?,
    };
    let thread = spawn_reporting::<R, S, Reporter<M>, M>(
        rt, alloc, stream, workers, origin, reporter,
    )?;
    started.threads.push(thread)?;
    Ok(())
}

// Starts the thread that reports a stream.
fn spawn_reporting<R, S, P, M>(
    rt: &R,
    alloc: Global,
    stream: StreamReader<S>,
    workers: usize,
    origin: OnePublisher<R>,
    reporter: P,
) -> Result<StreamThread<S>, AllocError>
where
    R: Threads + Wait + Clock + Copy + Send + 'static,
    S: Source + Drop + Send + 'static,
    P: HasReporter<M> + Drop + Send + 'static,
    M: Sending + Send + 'static,
    requires sent { M.known → IsOfPublisher M.sends S.left stream }
    ensures { IfOk result (λ thread. thread.promise.0.value ≡ stream) }
{
    let host = *rt;
    let promise = SaysWhetherWhole(Snapshot::of(&stream));
    let thread = thread::spawn_with(
        rt,
        promise,
        move ||
            requires sent { M.known → IsOfPublisher M.sends S.left stream }
        { report_to_end::<R, S, M>(&host, alloc, stream, workers, origin, reporter.reporter()) },
    )?;
    Ok(thread)
}

// Reports a stream to its end, or until the mailbox is closed. The error is the stream's name.
fn report_to_end<R: Threads + Wait + Clock + Copy, S: Source + Drop, M: Sending>(
    rt: &R,
    alloc: Global,
    stream: StreamReader<S>,
    workers: usize,
    origin: OnePublisher<R>,
    reporter: &Reporter<M>,
) -> Result<StreamEnd, StreamName>
    requires sent { M.known → IsOfPublisher M.sends S.left stream }
    ensures { EndsStream S.left stream result }
{
    report_stream::<R, S, OnePublisher<R>, M>(
        rt,
        alloc,
        PublisherInput::of(stream, workers),
        origin,
        reporter,
    )
}

/// Waits for the threads of streams. The error is the first stream that was not read to its end, or that the marks fall
/// short of.
pub(crate) fn join_streams<R: Threads, S: Source + Drop>(
    rt: &R,
    threads: Vec<StreamThread<S>>,
    marks: &Marks,
) -> Result<(), ServeFault>
    ensures taken { OnOk result (All (IsTakenWhole S.left marks.now) (map (λ thread. thread.promise.0.value) threads.items)) }
    ensures named { IfErr result (NamesOne (names_of (map (λ thread. thread.promise.0.value) threads.items))) }
{
    for thread in threads {
        check_whole(thread.join(rt), marks)?;
    }
    Ok(())
}

// Checks that a stream was read to its end, and that the marks reach its last message.
fn check_whole(ended: Result<StreamEnd, StreamName>, marks: &Marks) -> Result<(), ServeFault>
    ensures taken { OnOk result (IfOk ended (λ end. end.last ≤ position_of marks.now end.name)) }
    ensures whole { OnErr ended (IsErr result) }
    ensures named { IfErr result (λ fault. MatchResult ended (λ end. fault ≡ ServeFault.Stream end.name) (λ name. fault ≡ ServeFault.Stream name)) }
{
    match ended {
        Ok(end) => check_reached(end, marks),
        Err(name) => Err(ServeFault::Stream(name)),
    }
}

// Checks that the marks reach the last message of a stream.
fn check_reached(end: StreamEnd, marks: &Marks) -> Result<(), ServeFault>
    ensures taken { OnOk result (end.last ≤ position_of marks.now end.name) }
    ensures named { IfErr result (λ fault. fault ≡ ServeFault.Stream end.name) }
{
    if marks.position(&end.name) < end.last {
        return Err(ServeFault::Stream(end.name));
    }
    Ok(())
}
