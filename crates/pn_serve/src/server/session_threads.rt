//! The threads of sessions, and how many there may be.

ghost use Rattle.std.specs.Prelude.{◌≡◌, ◌+◌, ◌≤◌, [], vec_len, vec_capacity, All, IfOk, IsFalse};
ghost use Rattle.pn_live.specs.Prelude.{tablets_in, tablets_of};
ghost use Rattle.pn_serve.specs.Server.Events.{AllRead};
ghost use Rattle.pn_serve.specs.Session.Resuming.{KnowsNoLess};

use crate::server::fault_log::FaultLog;
use crate::server::times::Counter;
use crate::session;
use pn_live::{LiveReader, LiveRegion};
use std::alloc::Global;
use std::io::BufReader;
use std::net::TcpListener;
use std::snapshot::Snapshot;
use std::sync::Arc;
use std::thread::{Promise, PromisedHandle, Threads};
use std::{io, thread};

/// The most sessions that are served at once.
pub const MAX_SESSIONS: usize = 16;

/// The most control sessions at once.
pub const MAX_CONTROLS: usize = 16;

/// How many bytes of a session are read at a time.
pub const SESSION_CAPACITY: usize = 65_536;

/// Where the clients of sessions come from.
pub trait Acceptor: Drop {
    ghost use Rattle.pn_serve.specs.Session.Resuming.{KnowsNoLess};

    /// Another handle of the same acceptor, for another thread.
    fn try_clone(&self) -> io::Result<Self>;

    /// Waits for a client, and answers its lines from a reader.
    fn answer_client(&self, alloc: Global, reader: &mut LiveReader) -> io::Result<()>
        ensures { KnowsNoLess reader.old reader.new };

    /// The counter of rounds, where somebody looks at it.
    fn round_counter(&self) -> Option<Arc<Counter>>;

    /// Where faults of streams are noted, where somebody asks for them.
    fn fault_log(&self) -> Option<Arc<FaultLog>>;
}

/// Promises that the reader comes back: it reads the same tablets, and knows no less.
#[derive(Drop)]
pub struct ComesBack(pub Snapshot<LiveReader>);

impl Promise<LiveReader> for ComesBack {
    ghost use Rattle.pn_serve.specs.Session.Resuming.{KnowsNoLess};

    ghost kept_by = { λ promise reader. KnowsNoLess promise.0.value reader };
}

/// The thread of a session, which gives its reader back.
pub type SessionThread = PromisedHandle<LiveReader, ComesBack>;

/// The sessions that run, and whether one was refused.
#[derive(Drop)]
pub(crate) struct StartedSessions {
    pub(crate) running: Vec<SessionThread>,
    pub(crate) is_refused: bool,
}

/// Starts a thread for each reader, until a thread is refused, whose reader is dropped.
pub(crate) fn start_sessions<R: Threads, L: Acceptor + Drop + Send + 'static>(
    rt: &R,
    alloc: Global,
    listener: &L,
    live: &LiveRegion,
    readers: &mut Vec<LiveReader>,
) -> StartedSessions
    requires { AllRead (tablets_in live.now) readers.old.items }
    ensures running { All (λ session. tablets_of session.promise.0.value ≡ tablets_in live.now) result.running.items }
    ensures readers { AllRead (tablets_in live.now) readers.new.items }
    ensures all { IsFalse result.is_refused → (vec_len result.running ≡ vec_len readers.old) × (readers.new.items ≡ []) }
    ensures capacity { vec_len result.running + vec_len readers.new ≤ vec_capacity readers.new }
{
    let Ok(mut running) = Vec::with_capacity(alloc, readers.len()) else {
        return StartedSessions {
            running: Vec::new(alloc),
            is_refused: true,
        };
    };
    while let Some(reader) = readers.pop() {
        let Ok(session) = start_session(rt, alloc, listener, reader) else {
            return StartedSessions {
                running,
                is_refused: true,
            };
        };
        running.push_reserved(session);
    }
    StartedSessions {
        running,
        is_refused: false,
    }
}

fn start_session<R: Threads, L: Acceptor + Drop + Send + 'static>(
    rt: &R,
    alloc: Global,
    listener: &L,
    reader: LiveReader,
) -> io::Result<SessionThread>
    ensures { IfOk result (λ session. tablets_of session.promise.0.value ≡ tablets_of reader) }
{
    let listener = listener.try_clone()?;
    let promise = ComesBack(Snapshot::of(&reader));
    Ok(thread::spawn_with(rt, promise, move || {
        serve_client(alloc, listener, reader)
    })?)
}

// Answers one client, and gives the reader back.
fn serve_client<L: Acceptor + Drop>(alloc: Global, listener: L, reader: LiveReader) -> LiveReader
    ensures { KnowsNoLess reader result }
{
    let mut reader = reader;
    let _ = listener.answer_client(alloc, &mut reader);
    reader
}

impl Acceptor for TcpListener {
    fn try_clone(&self) -> io::Result<TcpListener> {
        TcpListener::try_clone(self)
    }

    fn answer_client(&self, alloc: Global, reader: &mut LiveReader) -> io::Result<()> {
        let (stream, _) = self.accept()?;
        stream.set_nodelay(true)?;
        let mut input = BufReader::with_capacity(alloc, SESSION_CAPACITY, &stream)?;
        let _ = session(alloc, reader, &mut input, &mut &stream);
        Ok(())
    }

    fn round_counter(&self) -> Option<Arc<Counter>> {
        None
    }

    fn fault_log(&self) -> Option<Arc<FaultLog>> {
        None
    }
}

/// Waits for the sessions, and takes their readers back.
pub fn join_sessions<R: Threads>(
    rt: &R,
    live: &LiveRegion,
    running: Vec<SessionThread>,
    readers: &mut Vec<LiveReader>,
)
    requires running { All (λ session. tablets_of session.promise.0.value ≡ tablets_in live.now) running.items }
    requires readers { AllRead (tablets_in live.now) readers.old.items }
    requires capacity { vec_len running + vec_len readers.old ≤ vec_capacity readers.old }
    ensures readers { AllRead (tablets_in live.now) readers.new.items }
    ensures all { vec_len readers.new ≡ vec_len readers.old + vec_len running }
{
    let mut running = running;
    while let Some(session) = running.pop() {
        readers.push_reserved(join_session(rt, session));
    }
}

// Waits for a session, and takes its reader back.
fn join_session<R: Threads>(rt: &R, session: SessionThread) -> LiveReader
    ensures knows { KnowsNoLess session.promise.0.value result }
    ensures same { tablets_of result ≡ tablets_of session.promise.0.value }
{
    session.join(rt)
}
