//! Accepts clients: one for each session of a server that ends with them, or all for the threads of one that stays.

ghost use Rattle.pn_serve.specs.Session.Resuming.{KnowsNoLess};

use crate::counters::{Counters, CountingSource};
use crate::descriptors::{ConnectionLimit, Place};
use crate::listener::Listener;
use crate::messages::Messages;
use crate::quarter_clock::QUARTER;
use crate::reasons::describe_error;
use crate::seldom::Seldom;
use crate::socket::{Socket, TrackedSocket};
use crate::socket_mailbox::{Refusal, SocketMailbox, have_ended};
use pn_live::LiveReader;
use pn_serve::{Acceptor, Counter, FaultLog, SESSION_CAPACITY, session, share};
use std::alloc::{AllocError, Global};
use std::io::BufReader;
use std::sync::{Arc, Wait};
use std::time::{Clock, Duration};
use std::{io, thread};

/// For how many milliseconds nobody is accepted after the system refused a socket, as where no descriptor is left.
const RETRY: u64 = 10;

/// The message where as many connections are open as may be.
const LIMIT_TEXT: &str = "cannot accept: all connections are open";

/// A listening socket, for how many seconds its clients may be idle, and where they are counted.
#[derive(Drop)]
pub struct SocketAcceptor {
    pub listener: Listener,
    /// The socket of control sessions, if there is one.
    pub control: Option<Listener>,
    pub idle: Option<u32>,
    pub counters: Arc<Counters>,
    /// Where faults of streams are noted, if somebody looks at them.
    pub faults: Option<Arc<FaultLog>>,
    /// Where a server that stays leaves the message that it accepts nobody for now.
    pub messages: Option<Arc<Messages>>,
}

impl SocketAcceptor {
    fn accept(&self) -> io::Result<Socket> {
        let socket = self.listener.accept()?;
        if let Some(idle) = self.idle {
            socket.set_timeout(Duration::from_secs(idle as u64))?;
        }
        Ok(socket)
    }

    // Answers the lines of a client.
    fn answer(&self, alloc: Global, reader: &mut LiveReader, socket: &Socket) -> io::Result<()>
        ensures { KnowsNoLess reader.old reader.new }
    {
        let input = BufReader::with_capacity(alloc, SESSION_CAPACITY, TrackedSocket::new(socket))?;
        let counters = Arc::try_clone(&self.counters.clients)?;
        let mut input = CountingSource::new(input, Some(counters));
        let _ = session(alloc, reader, &mut input, &mut TrackedSocket::new(socket));
        Ok(())
    }
}

impl Acceptor for SocketAcceptor {
    fn try_clone(&self) -> io::Result<SocketAcceptor> {
        let listener = self.listener.try_clone()?;
        let counters = Arc::try_clone(&self.counters)?;
        let faults = share(&self.faults)?;
        let messages = share(&self.messages)?;
        Ok(SocketAcceptor {
            listener,
            control: None,
            idle: self.idle,
            counters,
            faults,
            messages,
        })
    }

    fn answer_client(&self, alloc: Global, reader: &mut LiveReader) -> io::Result<()> {
        let socket = self.accept()?;
        self.counters.connections.begin();
        let answered = self.answer(alloc, reader, &socket);
        self.counters.connections.end();
        answered
    }

    fn round_counter(&self) -> Option<Arc<Counter>> {
        match Arc::try_clone(&self.counters.rounds) {
            Ok(rounds) => Some(rounds),
            Err(_) => None,
        }
    }

    fn fault_log(&self) -> Option<Arc<FaultLog>> {
        share(&self.faults).unwrap_or(None)
    }
}

/// Counts what the system refuses, and leaves messages that nobody is accepted for now, once a minute at most.
#[derive(Drop)]
pub(crate) struct AcceptNotes {
    alloc: Global,
    counters: Arc<Counters>,
    messages: Option<Arc<Messages>>,
    refusals: Seldom,
    limits: Seldom,
}

impl AcceptNotes {
    /// No message was left so far.
    pub(crate) fn new(
        alloc: Global,
        counters: Arc<Counters>,
        messages: Option<Arc<Messages>>,
    ) -> AcceptNotes {
        AcceptNotes {
            alloc,
            counters,
            messages,
            refusals: Seldom::new(),
            limits: Seldom::new(),
        }
    }

    // Counts that the system refuses a socket, and leaves a message.
    fn leave_refusal<R: Wait + Clock>(&mut self, rt: &R, error: &io::Error) {
        self.counters.connections.refused.add(1);
        if let Some(messages) = &self.messages {
            if self.refusals.is_due(rt) {
                messages.leave(rt, refusal_text(self.alloc, error));
            }
        }
    }

    // Leaves a message that as many connections are open as may be.
    fn leave_limit<R: Wait + Clock>(&mut self, rt: &R) {
        if let Some(messages) = &self.messages {
            if self.limits.is_due(rt) {
                messages.leave(rt, String::from_str(self.alloc, LIMIT_TEXT));
            }
        }
    }
}

fn refusal_text(alloc: Global, error: &io::Error) -> Result<String, AllocError> {
    let reason = describe_error(alloc, error)?;
    format!(in alloc; "cannot accept: {reason}")
}

/// Accepts sockets for as long as the program runs, each once the limit allows one more. They go in turn to the mailboxes
/// whose threads have not ended.
pub(crate) fn accept_all<R: Wait + Clock>(
    rt: &R,
    listener: &Listener,
    limit: &ConnectionLimit,
    mailboxes: &[Arc<SocketMailbox>],
    notes: AcceptNotes,
) {
    let mut notes = notes;
    for _ in rt.forever() {
        for mailbox in mailboxes.iter() {
            if mailbox.has_ended(rt) && !have_ended(rt, mailboxes) {
                continue;
            }
            if limit.is_reached(rt) {
                notes.leave_limit(rt);
            }
            if let Some(error) = accept_into(rt, listener, limit, mailbox) {
                if mailbox.is_stopping(rt) {
                    return;
                }
                notes.leave_refusal(rt, &error);
                thread::sleep(rt, Duration::from_millis(RETRY));
            }
        }
    }
}

// Accepts a socket for a mailbox, once the limit has a place for it. Where that fails the place is free again.
fn accept_into<R: Wait>(
    rt: &R,
    listener: &Listener,
    limit: &ConnectionLimit,
    mailbox: &SocketMailbox,
) -> Option<io::Error> {
    match accept_at(rt, listener, mailbox, limit.acquire(rt)) {
        Ok(()) => None,
        Err(refusal) => {
            let Refusal { error, place } = refusal;
            match place {
                Some(place) => limit.release(rt, place),
                None => {}
            }
            Some(error)
        }
    }
}

fn accept_at<R: Wait>(
    rt: &R,
    listener: &Listener,
    mailbox: &SocketMailbox,
    place: Place,
) -> Result<(), Refusal> {
    match accept_nonblocking(listener) {
        Ok(socket) => mailbox.put(rt, socket, place),
        Err(error) => Err(Refusal {
            error,
            place: Some(place),
        }),
    }
}

fn accept_nonblocking(listener: &Listener) -> io::Result<Socket> {
    let socket = listener.accept()?;
    socket.set_nonblocking()?;
    Ok(socket)
}

/// Notes each quarter of a second in the mailboxes, for as long as the program runs.
pub(crate) fn wake_each_quarter<R: Wait + Clock>(rt: &R, mailboxes: &[Arc<SocketMailbox>]) {
    for _ in rt.forever() {
        thread::sleep(rt, Duration::from_millis(QUARTER));
        for mailbox in mailboxes.iter() {
            let _ = mailbox.wake_for_quarter(rt);
        }
    }
}
