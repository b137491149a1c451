//! A server that stays: threads answer its connections while its live region reads streams.

ghost use Rattle.std.specs.Prelude.{◌≡◌, ◌+◌, ◌≤◌, false, map, is_some, vec_len, vec_capacity, All, IfOk, OnOk};
ghost use Rattle.pn_live.specs.Prelude.{tablets_in, tablets_of, IsNewLive};
ghost use Rattle.pn_stream.specs.Brokers.{IsHonest};
ghost use Rattle.pn_stream.specs.Prelude.{BrokerRecord};
ghost use Rattle.pn_serve.specs.declared.server.session_threads.TheConstants.{MAX_SESSIONS};
ghost use Rattle.pn_live.specs.declared.region.opening.TheConstants.{MAX_READERS};
ghost use Rattle.pn_serve.specs.Server.Events.{ReadsBesides, ReadsStreams, AllRead};
ghost use Rattle.pn_serve.specs.Server.Publishers.{AreHonestPublishers, IsSent};

mod accepting;
mod control_client;
mod control_threads;
pub(crate) mod ending;
pub(crate) mod starting;
mod stopping;
mod threads;

use crate::acceptor::SocketAcceptor;
use crate::counters::Counters;
use crate::listener::Listener;
use crate::server::control_threads::start_controls;
use crate::server::starting::ServerSizes;
use crate::server::stopping::Stopping;
use crate::server::threads::start_answering;
use pn_line::Source;
use pn_live::{LiveReader, LiveRegion};
use pn_serve::{
    MAX_CONTROLS, OpenedRegion, Origin, ReadingEnd, Sending, ServeFault, SessionThread, Settings,
    Stream, Watchers, open_region, read_streams,
};
use pn_tablet::Layout;
use std::alloc::{AllocError, Global};
use std::io;
use std::io::ErrorKind;
use std::marker::Model;
use std::net::Net;
use std::sync::{Arc, Wait};
use std::thread::Threads;
use std::time::Clock;

/// A live region and the threads that answer connections from it.
pub struct StayingServer {
    live: LiveRegion,
    workers: usize,
    running: Vec<SessionThread>,
    // A list with the memory for the readers that come back.
    readers: Vec<LiveReader>,
    watchers: Watchers,
    stopping: Stopping,
}

impl Model for StayingServer {
    ghost use Rattle.std.specs.Prelude.{◌≡◌, ◌+◌, ◌≤◌, is_some, vec_len, vec_capacity, All};
    ghost use Rattle.pn_apply.specs.declared.reducing.TheConstants.{MAX_WORKERS};
    ghost use Rattle.pn_live.specs.Prelude.{tablets_in, tablets_of};
    ghost use Rattle.pn_serve.specs.Server.Events.{AllRead};
    ghost use Rattle.pn_stay.specs.Servers.{ServerValue, server_code};

    ghost Value = { ServerValue };

    ghost coded = { server_code };

    ghost view = { λ server. record { live = server.live; threads = vec_len server.running; controlled = is_some server.watchers.controls } };

    ghost invariant = { λ server. (1 ≤ server.workers) × (server.workers ≤ MAX_WORKERS)
        × All (λ session. tablets_of session.promise.0.value ≡ tablets_in server.live) server.running.items
        × AllRead (tablets_in server.live) server.readers.items
        × (vec_len server.running + vec_len server.readers ≤ vec_capacity server.readers) };
}

impl StayingServer {
    /// Opens a new live region, and begins to accept connections, of which at most `connections` are open at once. 1 to 16
    /// threads answer them, and threads of their own answer control sessions.
    pub fn start<R>(
        rt: &R,
        alloc: Global,
        acceptor: SocketAcceptor,
        settings: Settings,
        threads: usize,
        connections: usize,
    ) -> io::Result<StayingServer>
    where
        R: Threads + Wait + Net + Clock + Sync + Copy + Send + Drop + 'static,
        requires { (1 ≤ threads) × (threads ≤ MAX_SESSIONS) }
        ensures is_new { IfOk result (λ server. IsNewLive settings.layout server.live) }
        ensures threads { IfOk result (λ server. server.threads ≡ threads) }
        ensures controlled { IfOk result (λ server. server.controlled ≡ is_some acceptor.control) }
    {
        let (layout, workers) = settings.into_parts();
        let controls = if acceptor.control.is_some() {
            MAX_CONTROLS
        } else {
            0
        };
        let opened = open_for(rt, alloc, layout, threads + controls)?;
        let sizes = ServerSizes {
            threads,
            connections,
            workers,
        };
        StayingServer::start_from(rt, alloc, acceptor, opened, sizes)
    }

    /// Reads streams until all have ended, or the server is asked to stop. Connections are answered meanwhile, and after a
    /// fault too.
    pub fn read_streams<R, S, O, M>(
        &mut self,
        rt: &R,
        alloc: Global,
        streams: Vec<Stream<O>>,
    ) -> Result<ReadingEnd, ServeFault>
    where
        R: Threads + Wait + Clock + Sync + Copy + Send + 'static,
        S: Source + Drop + Send + 'static,
        O: Origin<S, M> + Drop + Send + 'static,
        M: Sending + Send + 'static,
        ensures alone { self.old.controlled ≡ false → ReadsStreams (IsSent M.known M.sends) (map (λ stream. stream.name) streams.items)
            self.old.live self.new.live result }
        ensures reads { ReadsBesides (IsSent M.known M.sends) (map (λ stream. stream.name) streams.items) self.old.live self.new.live result }
        ensures honest { (broker : BrokerRecord) → M.known → AreHonestPublishers broker M.sends
            → ReadsBesides (IsHonest broker) (map (λ stream. stream.name) streams.items) self.old.live self.new.live result }
        ensures honest_alone { self.old.controlled ≡ false → (broker : BrokerRecord) → M.known → AreHonestPublishers broker M.sends
            → ReadsStreams (IsHonest broker) (map (λ stream. stream.name) streams.items) self.old.live self.new.live result }
        ensures threads { self.new.threads ≡ self.old.threads }
        ensures controlled { self.new.controlled ≡ self.old.controlled }
    {
        let watchers = &self.watchers;
        let read = read_streams(rt, alloc, &mut self.live, self.workers, streams, watchers);
        read
    }
}

// What a server has started.
#[derive(Drop)]
struct Started {
    running: Vec<SessionThread>,
    watchers: Watchers,
    stopping: Stopping,
}

// Starts the threads that answer connections and control sessions, and one that accepts connections.
fn start_threads<R>(
    rt: &R,
    alloc: Global,
    acceptor: SocketAcceptor,
    sizes: ServerSizes,
    live: &LiveRegion,
    readers: &mut Vec<LiveReader>,
) -> io::Result<Started>
where
    R: Threads + Wait + Net + Clock + Copy + Send + Drop + 'static,
    requires readers { AllRead (tablets_in live.now) readers.old.items }
    requires threads { sizes.threads ≤ vec_len readers.old }
    ensures running { IfOk result (λ started. All (λ session. tablets_of session.promise.0.value ≡ tablets_in live.now) started.running.items) }
    ensures readers { AllRead (tablets_in live.now) readers.new.items }
    ensures capacity { IfOk result (λ started. vec_len started.running + vec_len readers.new ≤ vec_capacity readers.new) }
    ensures all { IfOk result (λ started. vec_len started.running ≡ sizes.threads) }
    ensures controlled { IfOk result (λ started. is_some started.watchers.controls ≡ is_some acceptor.control) }
{
    let mut acceptor = acceptor;
    let beside = take_beside(alloc, live, readers, sizes.threads)?;
    let kept = keep_handles(&acceptor)?;
    let control = acceptor.control.take();
    let controls = start_controls(rt, alloc, control, &kept.counters, beside, sizes.workers)?;
    let answering = start_answering(rt, alloc, acceptor, sizes.connections, live, readers)?;
    let mut watchers = kept.watchers;
    watchers.controls = controls.mailboxes;
    Ok(Started {
        running: answering.running,
        watchers,
        stopping: Stopping {
            listener: kept.listener,
            control: controls.listener,
            mailboxes: answering.mailboxes,
            clients: controls.clients,
            counters: kept.counters,
        },
    })
}

// What a server keeps of its acceptor.
#[derive(Drop)]
struct KeptHandles {
    watchers: Watchers,
    listener: Listener,
    counters: Arc<Counters>,
}

fn keep_handles(acceptor: &SocketAcceptor) -> io::Result<KeptHandles> {
    let watchers = watch_rounds(&acceptor.counters)?;
    let listener = acceptor.listener.try_clone()?;
    let counters = Arc::try_clone(&acceptor.counters)?;
    Ok(KeptHandles {
        watchers,
        listener,
        counters,
    })
}

// Those who look at the rounds. No control session is among them so far.
fn watch_rounds(counters: &Counters) -> Result<Watchers, AllocError> {
    let rounds = Arc::try_clone(&counters.rounds)?;
    let times = Arc::try_clone(&counters.round_times)?;
    let shortage = Arc::try_clone(&counters.shortage)?;
    let waiting = Arc::try_clone(&counters.waiting)?;
    Ok(Watchers {
        rounds: Some(rounds),
        times: Some(times),
        shortage: Some(shortage),
        waiting: Some(waiting),
        controls: None,
    })
}

// Takes out the readers that are left over once each of the threads has one.
fn take_beside(
    alloc: Global,
    live: &LiveRegion,
    readers: &mut Vec<LiveReader>,
    threads: usize,
) -> Result<Vec<LiveReader>, AllocError>
    requires readers { AllRead (tablets_in live.now) readers.old.items }
    requires threads { threads ≤ vec_len readers.old }
    ensures readers { AllRead (tablets_in live.now) readers.new.items }
    ensures left { OnOk result (vec_len readers.new ≡ threads) }
{
    let mut beside = Vec::new(alloc);
    while readers.len() > threads {
        if let Some(reader) = readers.pop() {
            beside.push(reader)?;
        }
    }
    Ok(beside)
}

// Opens a live region with a reader for each thread.
fn open_for<R: Wait>(
    rt: &R,
    alloc: Global,
    layout: Layout,
    threads: usize,
) -> io::Result<OpenedRegion>
    requires { (1 ≤ threads) × (threads ≤ MAX_READERS) }
    ensures is_new { IfOk result (λ opened. IsNewLive layout opened.live) }
    ensures own { IfOk result (λ opened. AllRead (tablets_in opened.live) opened.readers.items) }
    ensures count { IfOk result (λ opened. vec_len opened.readers ≡ threads) }
{
    match open_region(rt, alloc, layout, threads) {
        Ok(opened) => Ok(opened),
        Err(_) => Err(io::Error::from(ErrorKind::OutOfMemory)),
    }
}
