//! The threads that answer control sessions: each takes one client of the control socket after another.

ghost use Rattle.std.specs.Prelude.{◌≡◌, IfOk, is_some};

use crate::counters::Counters;
use crate::current_stats::CurrentStats;
use crate::listener::Listener;
use crate::server::control_client::{ControlBuffers, ControlClient, HeldInput};
use crate::socket::{Socket, TrackedSocket};
use pn_live::LiveReader;
use pn_serve::{ControlMailboxes, ControlSession, MAX_CONTROLS};
use std::alloc::Global;
use std::sync::{Arc, Wait};
use std::thread::Threads;
use std::time::{Clock, Duration, Instant};
use std::{io, thread};

/// For how many seconds a control client may write nothing, or take nothing, before its session ends.
const PATIENCE: u64 = 300;

/// For how many milliseconds nobody is accepted after the system refused a socket.
const RETRY: u64 = 10;

/// What is started for control sessions.
#[derive(Drop)]
pub(super) struct Controls {
    /// Their socket, and the mailboxes in which they leave commands, if there is a control socket.
    pub(super) listener: Option<Listener>,
    pub(super) mailboxes: Option<Arc<ControlMailboxes>>,
    pub(super) clients: Vec<Arc<ControlClient>>,
}

/// Starts a thread for each reader, if there is a control socket. This number of workers reads the lines of a copy.
pub(super) fn start_controls<R>(
    rt: &R,
    alloc: Global,
    listener: Option<Listener>,
    counters: &Arc<Counters>,
    readers: Vec<LiveReader>,
    workers: usize,
) -> io::Result<Controls>
where
    R: Threads + Wait + Clock + Copy + Send + Drop + 'static,
    ensures { IfOk result (λ controls. is_some controls.mailboxes ≡ is_some listener) }
{
    let Some(listener) = listener else {
        return Ok(Controls {
            listener: None,
            mailboxes: None,
            clients: Vec::new(alloc),
        });
    };
    let mailboxes = ControlMailboxes::new(rt, alloc, MAX_CONTROLS)?;
    let mailboxes = Arc::new(alloc, mailboxes)?;
    let counters = Arc::try_clone(counters)?;
    let setting = ControlSetting {
        alloc,
        listener,
        mailboxes,
        counters,
        started: Instant::now(rt).ok(),
        workers,
    };
    let clients = start_threads(rt, &setting, readers)?;
    Ok(Controls {
        listener: Some(setting.listener),
        mailboxes: Some(setting.mailboxes),
        clients,
    })
}

// What control threads share: their socket, their mailboxes, what was counted, since when, and how many workers read a
// copy.
#[derive(Drop)]
struct ControlSetting {
    alloc: Global,
    listener: Listener,
    mailboxes: Arc<ControlMailboxes>,
    counters: Arc<Counters>,
    started: Option<Instant>,
    workers: usize,
}

impl ControlSetting {
    fn try_clone(&self) -> io::Result<ControlSetting> {
        let listener = self.listener.try_clone()?;
        let mailboxes = Arc::try_clone(&self.mailboxes)?;
        let counters = Arc::try_clone(&self.counters)?;
        Ok(ControlSetting {
            alloc: self.alloc,
            listener,
            mailboxes,
            counters,
            started: self.started,
            workers: self.workers,
        })
    }
}

fn start_threads<R>(
    rt: &R,
    setting: &ControlSetting,
    readers: Vec<LiveReader>,
) -> io::Result<Vec<Arc<ControlClient>>>
where
    R: Threads + Wait + Clock + Copy + Send + Drop + 'static,
{
    let mut clients = Vec::with_capacity(setting.alloc, readers.len())?;
    for reader in readers {
        let client = Arc::new(setting.alloc, ControlClient::new())?;
        start_thread(rt, setting, clients.len(), &client, reader)?;
        clients.push(client)?;
    }
    Ok(clients)
}

// Starts the thread of a reader, and of the clients that it answers.
fn start_thread<R>(
    rt: &R,
    setting: &ControlSetting,
    number: usize,
    client: &Arc<ControlClient>,
    reader: LiveReader,
) -> io::Result<()>
where
    R: Threads + Wait + Clock + Copy + Send + Drop + 'static,
{
    let thread = new_thread(setting, number, client)?;
    let host = *rt;
    thread::spawn(rt, move || answer_clients(&host, &thread, reader))?;
    Ok(())
}

fn new_thread(
    setting: &ControlSetting,
    number: usize,
    client: &Arc<ControlClient>,
) -> io::Result<ControlThread> {
    let setting = setting.try_clone()?;
    let client = Arc::try_clone(client)?;
    Ok(ControlThread {
        setting,
        number,
        client,
    })
}

// What a control thread begins with, beside its reader.
#[derive(Drop)]
struct ControlThread {
    setting: ControlSetting,
    number: usize,
    client: Arc<ControlClient>,
}

// Answers one client after another, until the server is to stop and nobody is accepted any more.
fn answer_clients<R>(rt: &R, thread: &ControlThread, reader: LiveReader)
where
    R: Threads + Wait + Clock + Drop,
{
    let Some(buffers) = make_buffers(rt, thread) else {
        thread.client.note_end(rt);
        return;
    };
    let mut parts = (buffers, reader);
    for _ in rt.forever() {
        match accept(&thread.setting.listener) {
            Ok(socket) => {
                thread.client.begin(rt, socket.number());
                parts = answer(rt, thread, parts, &socket);
                thread.client.end(rt);
            }
            Err(_) if thread.client.is_stopping(rt) => {
                thread.client.note_end(rt);
                return;
            }
            Err(_) => thread::sleep(rt, Duration::from_millis(RETRY)),
        }
    }
}

// Makes the buffers of a thread, once there is memory for them. None where it is to end before.
fn make_buffers<R: Wait + Clock>(rt: &R, thread: &ControlThread) -> Option<ControlBuffers> {
    for _ in rt.forever() {
        match ControlBuffers::new(thread.setting.alloc) {
            Ok(buffers) => return Some(buffers),
            Err(_) if thread.client.is_stopping(rt) => return None,
            Err(_) => thread::sleep(rt, Duration::from_millis(RETRY)),
        }
    }
    unreachable!()
}

// Waits for a client. No read and no write of its socket waits longer than `PATIENCE`.
fn accept(listener: &Listener) -> io::Result<Socket> {
    let socket = listener.accept()?;
    socket.set_timeout(Duration::from_secs(PATIENCE))?;
    Ok(socket)
}

// Answers a client to its end. It allocates nothing of its own, so that it answers also where memory is short.
fn answer<R>(
    rt: &R,
    thread: &ControlThread,
    parts: (ControlBuffers, LiveReader),
    socket: &Socket,
) -> (ControlBuffers, LiveReader)
where
    R: Threads + Wait + Clock + Drop,
{
    let (buffers, reader) = parts;
    let setting = &thread.setting;
    let Ok(mailboxes) = Arc::try_clone(&setting.mailboxes) else {
        return (buffers, reader);
    };
    let session = ControlSession {
        mailboxes,
        number: thread.number,
        stats: CurrentStats {
            rt,
            counters: &setting.counters,
            started: &setting.started,
            client: socket,
        },
        workers: setting.workers,
    };
    let ControlBuffers { lines, input } = buffers;
    let mut lines = lines;
    let mut input = HeldInput::new(input, TrackedSocket::new(socket));
    let mut output = TrackedSocket::new(socket);
    let (reader, _) = session.answer(rt, &mut lines, reader, &mut input, &mut output);
    let input = input.into_buffer();
    (ControlBuffers { lines, input }, reader)
}
