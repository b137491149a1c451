//! The threads of a server that stays that answer connections.

ghost use Rattle.std.specs.Prelude.{◌≡◌, ◌+◌, ◌≤◌, vec_len, vec_capacity, All, IfOk};
ghost use Rattle.pn_live.specs.Prelude.{tablets_in, tablets_of};
ghost use Rattle.pn_serve.specs.Server.Events.{AllRead};
ghost use Rattle.pn_serve.specs.Session.Resuming.{KnowsNoLess};

use crate::acceptor::SocketAcceptor;
use crate::bounded_reader::BoundedReader;
use crate::counters::Counters;
use crate::event_loop::{EventLoop, MAILBOX};
use crate::server::accepting::{Shared, begin_accepting, start_accepting};
use crate::socket_mailbox::{Closed, SocketMailbox};
use mio::{Poll, Waker};
use pn_live::{LiveReader, LiveRegion};
use pn_serve::{ComesBack, SessionThread};
use std::alloc::Global;
use std::net::Net;
use std::snapshot::Snapshot;
use std::sync::{Arc, Wait};
use std::thread::Threads;
use std::time::Clock;
use std::{io, thread};

/// The threads that answer connections, and their mailboxes.
#[derive(Drop)]
pub(super) struct Answering {
    pub(super) running: Vec<SessionThread>,
    pub(super) mailboxes: Arc<Vec<Arc<SocketMailbox>>>,
}

/// Starts a thread for each reader, and one that accepts connections, of which at most `connections` are open at once.
pub(super) fn start_answering<R>(
    rt: &R,
    alloc: Global,
    acceptor: SocketAcceptor,
    connections: usize,
    live: &LiveRegion,
    readers: &mut Vec<LiveReader>,
) -> io::Result<Answering>
where
    R: Threads + Wait + Net + Clock + Copy + Send + 'static,
    requires { AllRead (tablets_in live.now) readers.old.items }
    ensures running { IfOk result (λ answering. All (λ session. tablets_of session.promise.0.value ≡ tablets_in live.now) answering.running.items) }
    ensures readers { AllRead (tablets_in live.now) readers.new.items }
    ensures capacity { IfOk result (λ answering. vec_len answering.running + vec_len readers.new ≤ vec_capacity readers.new) }
    ensures all { IfOk result (λ answering. vec_len answering.running ≡ vec_len readers.old) }
{
    let accepting = begin_accepting(alloc, acceptor, connections)?;
    let mut mailboxes = Vec::new(alloc);
    let running = start_threads(rt, &accepting.shared, &mut mailboxes, live, readers)?;
    let mailboxes = start_accepting(rt, accepting, mailboxes)?;
    Ok(Answering { running, mailboxes })
}

// Starts a thread for each reader, until one is refused. Its reader is dropped.
fn start_threads<R>(
    rt: &R,
    shared: &Shared,
    mailboxes: &mut Vec<Arc<SocketMailbox>>,
    live: &LiveRegion,
    readers: &mut Vec<LiveReader>,
) -> io::Result<Vec<SessionThread>>
where
    R: Threads + Wait + Net + Clock + Copy + Send + 'static,
    requires { AllRead (tablets_in live.now) readers.old.items }
    ensures running { IfOk result (λ running. All (λ session. tablets_of session.promise.0.value ≡ tablets_in live.now) running.items) }
    ensures readers { AllRead (tablets_in live.now) readers.new.items }
    ensures capacity { IfOk result (λ running. vec_len running + vec_len readers.new ≤ vec_capacity readers.new) }
    ensures all { IfOk result (λ running. vec_len running ≡ vec_len readers.old) }
{
    let mut running = Vec::with_capacity(shared.alloc, readers.len())?;
    while let Some(reader) = readers.pop() {
        let session = start_thread(rt, shared, mailboxes, reader)?;
        running.push_reserved(session);
    }
    Ok(running)
}

// Starts the thread of a reader, and adds its mailbox.
fn start_thread<R>(
    rt: &R,
    shared: &Shared,
    mailboxes: &mut Vec<Arc<SocketMailbox>>,
    reader: LiveReader,
) -> io::Result<SessionThread>
where
    R: Threads + Wait + Net + Clock + Copy + Send + 'static,
    ensures { IfOk result (λ session. tablets_of session.promise.0.value ≡ tablets_of reader) }
{
    let poll = Poll::new(rt)?;
    let mailbox = new_mailbox(shared, &poll)?;
    mailboxes.push(Arc::try_clone(&mailbox)?)?;
    let counters = Arc::try_clone(&shared.counters)?;
    let promise = ComesBack(Snapshot::of(&reader));
    let body = LoopThread {
        alloc: shared.alloc,
        poll,
        idle: shared.idle,
        counters,
        mailbox,
        reader,
    };
    spawn_thread(rt, promise, body)
}

// A mailbox that wakes who waits at the poll.
fn new_mailbox(shared: &Shared, poll: &Poll) -> io::Result<Arc<SocketMailbox>> {
    let waker = Waker::new(poll.registry(), MAILBOX)?;
    let limit = Arc::try_clone(&shared.limit)?;
    Ok(Arc::new(shared.alloc, SocketMailbox::new(shared.alloc, waker, limit))?)
}

// What the thread of an event loop begins with.
#[derive(Drop)]
struct LoopThread {
    alloc: Global,
    poll: Poll,
    idle: Option<u32>,
    counters: Arc<Counters>,
    mailbox: Arc<SocketMailbox>,
    reader: LiveReader,
}

// What the thread of an event loop ends with: its reader, once its mailbox takes no sockets any more.
#[derive(Drop)]
struct EndedThread {
    reader: LiveReader,
    _mailbox: Closed,
}

/// What goes to a thread. Its type is a parameter where the thread starts, so that its bound says that it may.
trait ThreadBody {
    ghost use Rattle.pn_live.specs.Prelude.{LiveReaderValue};
    ghost use Rattle.pn_serve.specs.Session.Resuming.{KnowsNoLess};

    // The reader that it begins with.
    ghost reader: { Self → LiveReaderValue };

    // Answers connections, and gives the reader back.
    fn answer_all<R: Wait + Clock>(self, rt: &R) -> EndedThread
        ensures { KnowsNoLess (reader self) result.reader };
}

impl ThreadBody for LoopThread {
    ghost reader = { λ body. body.reader };

    fn answer_all<R: Wait + Clock>(self, rt: &R) -> EndedThread {
        answer_all(rt, self)
    }
}

fn spawn_thread<R, B>(rt: &R, promise: ComesBack, body: B) -> io::Result<SessionThread>
where
    R: Threads + Wait + Clock + Copy + Send + 'static,
    B: ThreadBody + Drop + Send + 'static,
    requires { B.reader body ≡ promise.0.value }
    ensures { IfOk result (λ running. running.promise ≡ promise) }
{
    let host = *rt;
    Ok(thread::spawn_with(rt, promise, move || { body.answer_all(&host).reader })?)
}

// Answers connections until the system's wait fails, and closes the mailbox.
fn answer_all<R: Wait + Clock>(rt: &R, body: LoopThread) -> EndedThread
    ensures { KnowsNoLess body.reader result.reader }
{
    let LoopThread {
        alloc,
        poll,
        idle,
        counters,
        mailbox,
        reader,
    } = body;
    let mut reader = BoundedReader::new(reader);
    let _ = run(
        rt,
        EventLoop::new(alloc, poll, idle, counters),
        &mailbox,
        &mut reader,
    );
    EndedThread {
        reader: reader.into_reader(),
        _mailbox: mailbox.close(rt),
    }
}

fn run<R: Wait + Clock>(
    rt: &R,
    begun: io::Result<EventLoop>,
    mailbox: &SocketMailbox,
    reader: &mut BoundedReader,
) -> io::Result<()>
    ensures { KnowsNoLess reader.old reader.new }
{
    let mut events = begun?;
    let ended = events.run(rt, mailbox, reader);
    mailbox.note_silence(rt);
    events.close(rt, mailbox);
    ended
}
