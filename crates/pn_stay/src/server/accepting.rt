//! The thread that accepts connections of a server that stays, and one that notes each quarter of a second.

use crate::acceptor::{AcceptNotes, SocketAcceptor, accept_all, wake_each_quarter};
use crate::counters::Counters;
use crate::descriptors::ConnectionLimit;
use crate::listener::Listener;
use crate::messages::Messages;
use crate::socket_mailbox::SocketMailbox;
use std::alloc::Global;
use std::sync::{Arc, Wait};
use std::thread::Threads;
use std::time::Clock;
use std::{io, thread};

/// What the threads share.
#[derive(Drop)]
pub(super) struct Shared {
    pub(super) alloc: Global,
    pub(super) limit: Arc<ConnectionLimit>,
    pub(super) idle: Option<u32>,
    pub(super) counters: Arc<Counters>,
}

/// What clients are accepted from.
#[derive(Drop)]
pub(super) struct Accepting {
    pub(super) shared: Shared,
    listener: Listener,
    messages: Option<Arc<Messages>>,
}

/// What an acceptor accepts clients from, at most `connections` of which are open at once.
pub(super) fn begin_accepting(
    alloc: Global,
    acceptor: SocketAcceptor,
    connections: usize,
) -> io::Result<Accepting> {
    let SocketAcceptor {
        listener,
        idle,
        counters,
        messages,
        ..
    } = acceptor;
    let limit = Arc::new(alloc, ConnectionLimit::new(connections))?;
    Ok(Accepting {
        shared: Shared {
            alloc,
            limit,
            idle,
            counters,
        },
        listener,
        messages,
    })
}

/// Starts the thread that accepts connections for the threads of these mailboxes.
pub(super) fn start_accepting<R>(
    rt: &R,
    accepting: Accepting,
    mailboxes: Vec<Arc<SocketMailbox>>,
) -> io::Result<Arc<Vec<Arc<SocketMailbox>>>>
where
    R: Threads + Wait + Clock + Copy + Send + 'static,
{
    let mailboxes = Arc::new(accepting.shared.alloc, mailboxes)?;
    prepare_threads(rt, accepting, &mailboxes)?;
    Ok(mailboxes)
}

// Gives the threads handles of what they share.
fn prepare_threads<R>(
    rt: &R,
    accepting: Accepting,
    mailboxes: &Arc<Vec<Arc<SocketMailbox>>>,
) -> io::Result<()>
where
    R: Threads + Wait + Clock + Copy + Send + 'static,
{
    let Accepting {
        shared,
        listener,
        messages,
    } = accepting;
    let counters = Arc::try_clone(&shared.counters)?;
    let mailboxes = Arc::try_clone(mailboxes)?;
    let notes = AcceptNotes::new(shared.alloc, counters, messages);
    spawn_threads(rt, shared, listener, mailboxes, notes)
}

// Starts the thread that accepts connections, and where clients may not be idle for long the one that notes each quarter.
fn spawn_threads<R>(
    rt: &R,
    shared: Shared,
    listener: Listener,
    mailboxes: Arc<Vec<Arc<SocketMailbox>>>,
    notes: AcceptNotes,
) -> io::Result<()>
where
    R: Threads + Wait + Clock + Copy + Send + 'static,
{
    start_quarters(rt, &shared, &mailboxes)?;
    let thread = AcceptThread {
        listener,
        limit: shared.limit,
        mailboxes,
        notes,
    };
    let host = *rt;
    thread::spawn(rt, move || accept_by(&host, thread))?;
    Ok(())
}

// What the thread that accepts connections begins with.
#[derive(Drop)]
struct AcceptThread {
    listener: Listener,
    limit: Arc<ConnectionLimit>,
    mailboxes: Arc<Vec<Arc<SocketMailbox>>>,
    notes: AcceptNotes,
}

fn accept_by<R: Wait + Clock>(rt: &R, thread: AcceptThread) {
    let AcceptThread {
        listener,
        limit,
        mailboxes,
        notes,
    } = thread;
    accept_all(rt, &listener, &limit, &mailboxes, notes);
}

// Starts the thread that notes each quarter of a second, where clients may not be idle for long.
fn start_quarters<R>(
    rt: &R,
    shared: &Shared,
    mailboxes: &Arc<Vec<Arc<SocketMailbox>>>,
) -> io::Result<()>
where
    R: Threads + Wait + Clock + Copy + Send + 'static,
{
    if shared.idle.is_some() {
        let woken = Arc::try_clone(mailboxes)?;
        let host = *rt;
        thread::spawn(rt, move || wake_each_quarter(&host, &woken))?;
    }
    Ok(())
}
