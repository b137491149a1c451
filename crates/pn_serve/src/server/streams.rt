//! Streams that are read from one publisher after another into a live region, each in its own thread.

ghost use Rattle.std.specs.Prelude.{◌≡◌, [], ◌∷◌, ◌++◌, ◌≤◌, map, None, IfErr, IfOk, IfSome, OnOk};
ghost use Rattle.pn_apply.specs.declared.reducing.TheConstants.{MAX_WORKERS};
ghost use Rattle.pn_live.specs.Prelude.{tablets_in};
ghost use Rattle.pn_serve.specs.Server.Events.{ReadsBesides, ReadsStreams};
ghost use Rattle.pn_serve.specs.Server.Publishers.{AreHonestPublishers, IsOfPublisher, IsSent};
ghost use Rattle.pn_serve.specs.declared.server.mailboxes.AtFault.TheVariants.{GoOn};
ghost use Rattle.pn_stream.specs.Brokers.{IsHonest};
ghost use Rattle.pn_stream.specs.Prelude.{BrokerRecord};

use crate::ServeFault;
use crate::control::mailboxes::ControlMailboxes;
use crate::server::events::{ReadingEnd, run_rounds};
use crate::server::mailboxes::{AtFault, StreamMailboxes};
use crate::server::publisher_input::{PublisherInput, workers_of_each};
use crate::server::publishers::{Origin, Sending, Stream};
use crate::server::reporting::{next_input, report_stream};
use crate::server::reports::{Report, Reporter};
use crate::server::shown_mark::MarkSeen;
use crate::server::times::{Counter, TimeCounters};
use crate::server::wakeup::Wakeup;
use crate::shared::share;
use pn_join::{Marks, StreamName};
use pn_line::Source;
use pn_live::LiveRegion;
use std::alloc::{AllocError, Global};
use std::sync::{Arc, Wait};
use std::thread;
use std::thread::Threads;
use std::time::Clock;

/// Who looks at the rounds, and who asks for something between them.
#[derive(Drop)]
pub struct Watchers {
    /// Counts the rounds, where somebody looks at them.
    pub rounds: Option<Arc<Counter>>,
    /// Counts how long they take, where somebody looks at that.
    pub times: Option<Arc<TimeCounters>>,
    /// 1 while a round waits for memory, otherwise 0, where somebody looks at that.
    pub shortage: Option<Arc<Counter>>,
    /// Counts the streams that wait for memory, where somebody looks at that.
    pub waiting: Option<Arc<Counter>>,
    /// The mailboxes of control sessions, where there may be some.
    pub controls: Option<Arc<ControlMailboxes>>,
}

/// Reads streams into a live region, each after its mark, until all have ended or a control session asks the server to stop: at
/// most 1,000 messages of each a round. Between two rounds it does what control sessions ask for. A stream's fault ends that
/// stream alone. Where memory runs out, a round or a stream's message waits, and is tried again after a second. The fault is
/// `Start`, or `Round` where there are too many streams, after which no stream is read. All that is taken was read of what
/// publishers may send, where that is known, and is honest if they are.
pub fn read_streams<R, S, O, M>(
    rt: &R,
    alloc: Global,
    live: &mut LiveRegion,
    workers: usize,
    streams: Vec<Stream<O>>,
    watchers: &Watchers,
) -> Result<ReadingEnd, ServeFault>
where
    R: Threads + Wait + Clock + Sync + Copy + Send + 'static,
    M: Sending + Send + 'static,
    O: Origin<S, M> + Drop + Send + 'static,
    S: Source + Drop + Send + 'static,
    requires workers { (1 ≤ workers) × (workers ≤ MAX_WORKERS) }
    ensures alone { watchers.now.controls ≡ None → ReadsStreams (IsSent M.known M.sends) (map (λ stream. stream.name) streams.items) live.old live.new result }
    ensures reads { ReadsBesides (IsSent M.known M.sends) (map (λ stream. stream.name) streams.items) live.old live.new result }
    ensures honest { (broker : BrokerRecord) → M.known → AreHonestPublishers broker M.sends
        → ReadsBesides (IsHonest broker) (map (λ stream. stream.name) streams.items) live.old live.new result }
    ensures honest_alone { watchers.now.controls ≡ None → (broker : BrokerRecord) → M.known → AreHonestPublishers broker M.sends
        → ReadsStreams (IsHonest broker) (map (λ stream. stream.name) streams.items) live.old live.new result }
    ensures same { tablets_in live.new ≡ tablets_in live.old }
{
    let own = workers_of_each(workers, streams.len());
    let mut mailboxes = start_threads::<R, S, O, M>(
        rt,
        alloc,
        live.marks(),
        streams,
        own,
        watchers,
    )?;
    let read = run_rounds(rt, alloc, live, workers, &mut mailboxes, &watchers.controls);
    mailboxes.close(rt);
    read
}

// Starts to read streams after their marks, each in its own thread, which shares the lines that are at hand among
// these workers. A refused thread, or out of memory, ends the reading.
fn start_threads<R, S, O, M>(
    rt: &R,
    alloc: Global,
    marks: &Marks,
    streams: Vec<Stream<O>>,
    workers: usize,
    watchers: &Watchers,
) -> Result<StreamMailboxes<M>, ServeFault>
where
    R: Threads + Wait + Clock + Copy + Send + 'static,
    S: Source + Drop + Send + 'static,
    O: Origin<S, M> + Drop + Send + 'static,
    M: Sending + Send + 'static,
    ensures names { IfOk result (λ mailboxes. map (λ stream. stream.name) mailboxes.streams.items ≡ map (λ stream. stream.name) streams.items) }
    ensures at_fault { IfOk result (λ mailboxes. mailboxes.at_fault ≡ GoOn) }
    ensures fault { IfErr result (λ fault. fault ≡ ServeFault.Start) }
{
    let Ok(mut mailboxes) = new_mailboxes(alloc, streams.len(), watchers) else {
        return Err(ServeFault::Start);
    };
    for stream in streams {
        if let Err(_) = start_thread::<R, S, O, M>(
            rt,
            alloc,
            marks,
            &mut mailboxes,
            stream,
            workers,
        ) {
            mailboxes.close(rt);
            return Err(ServeFault::Start);
        }
    }
    mailboxes.show(marks);
    Ok(mailboxes)
}

// No mailbox, with capacity for those of this many streams. Reports and commands wake the same thread.
fn new_mailboxes<M: Sending>(
    alloc: Global,
    streams: usize,
    watchers: &Watchers,
) -> Result<StreamMailboxes<M>, AllocError>
    ensures at_fault { IfOk result (λ mailboxes. mailboxes.at_fault ≡ GoOn) }
    ensures none { IfOk result (λ mailboxes. mailboxes.streams.items ≡ []) }
{
    let wakeup = match &watchers.controls {
        Some(controls) => Arc::try_clone(&controls.wakeup)?,
        None => Arc::new(alloc, Wakeup::new())?,
    };
    let rounds = share(&watchers.rounds)?;
    let mut mailboxes = StreamMailboxes::new(alloc, streams, AtFault::GoOn, rounds, wakeup)?;
    mailboxes.times = share(&watchers.times)?;
    mailboxes.shortage = share(&watchers.shortage)?;
    mailboxes.waiting = share(&watchers.waiting)?;
    Ok(mailboxes)
}

fn start_thread<R, S, O, M>(
    rt: &R,
    alloc: Global,
    marks: &Marks,
    mailboxes: &mut StreamMailboxes<M>,
    stream: Stream<O>,
    workers: usize,
) -> Result<(), AllocError>
where
    R: Threads + Wait + Clock + Copy + Send + 'static,
    S: Source + Drop + Send + 'static,
    O: Origin<S, M> + Drop + Send + 'static,
    M: Sending + Send + 'static,
    ensures names { OnOk result (map (λ stream. stream.name) mailboxes.new.streams.items
        ≡ map (λ stream. stream.name) mailboxes.old.streams.items ++ stream.name ∷ []) }
    ensures at_fault { OnOk result (mailboxes.new.at_fault ≡ mailboxes.old.at_fault) }
{
    let Stream {
        name,
        origin,
        taken,
    } = stream;
    let after = MarkSeen::of(marks, &name);
    let reporter = mailboxes.add(alloc, name, taken)?;
    let host = *rt;
    thread::spawn(rt, move || {
        report_publishers::<R, S, O, M>(&host, alloc, after, workers, origin, &reporter)
    })?;
    Ok(())
}

// Reports a stream from its first publisher on. All up to its mark was taken before.
fn report_publishers<R, S, O, M>(
    rt: &R,
    alloc: Global,
    after: MarkSeen,
    workers: usize,
    origin: O,
    reporter: &Reporter<M>,
)
where
    R: Threads + Wait + Clock,
    S: Source + Drop,
    O: Origin<S, M> + Drop,
    M: Sending,
{
    let mut origin = origin;
    match first_input::<S, O, M>(alloc, reporter.name, after, workers, &mut origin) {
        Some(input) => {
            let _ = report_stream::<R, S, O, M>(rt, alloc, input, origin, reporter);
        }
        None => {
            let _ = reporter.leave(rt, Report::End(reporter.name));
        }
    }
}

// The input of a stream's first publisher, which begins after its mark or later. None where the stream has ended.
fn first_input<S: Source + Drop, O: Origin<S, M>, M: Sending>(
    alloc: Global,
    name: StreamName,
    after: MarkSeen,
    workers: usize,
    origin: &mut O,
) -> Option<PublisherInput<S>>
    ensures last { IfSome result (λ first. after.position ≤ first.last) }
    ensures sent { IfSome result (λ first. M.known → IsOfPublisher M.sends S.left first.reader) }
{
    next_input::<S, O, M>(alloc, name, after.position, workers, origin)
}
