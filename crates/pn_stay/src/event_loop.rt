//! The event loop of a session thread: its connections have their turns one after another.

ghost use Rattle.std.specs.Prelude.{◌≡◌, ◌+◌, ℕ, None, OnErr, OnOk, vec_len};
ghost use Rattle.pn_serve.specs.Session.Resuming.{KnowsNoLess};
ghost use Rattle.pn_stay.specs.Loops.{ending_at, idle_at, unread_at};
ghost use Rattle.slab.specs.Slab.{slab_len, Updates};

mod unread;
mod waiting;

use crate::bounded_reader::BoundedReader;
use crate::connection::Connection;
use crate::counters::{Counters, Kept};
use crate::lingering::LingeringSockets;
use crate::quarter_clock::QuarterClock;
use crate::socket::Socket;
use crate::socket_mailbox::SocketMailbox;
use mio::{Events, Poll, Token};
use pn_lines::{Pause, TurnBuffers};
use pn_protocol::LineCounts;
use slab::Slab;
use std::alloc::Global;
use std::sync::{Arc, Wait};
use std::time::{Clock, Duration, Instant};
use std::{io, mem};

/// How many events one wait gives at most.
const EVENTS: usize = 1_024;

/// How many quarters a second has.
const QUARTERS: u32 = 4;

/// No line was taken.
const NO_LINES: LineCounts = LineCounts {
    answered: 0,
    refused: 0,
};

/// What a connection counts for that is gone.
const NOTHING: Kept = Kept {
    bytes: 0,
    wanted: 0,
};

/// The token of the mailbox.
pub(crate) const MAILBOX: Token = Token(usize::MAX);

/// The connections of a session thread.
#[derive(Drop)]
pub(crate) struct EventLoop {
    alloc: Global,
    poll: Poll,
    events: Events,
    buffers: TurnBuffers,
    // The lines that were taken since they were added to the counters.
    counted: LineCounts,
    connections: Slab<Connection>,
    // For how many quarters of a second a client may be idle.
    idle: Option<u32>,
    counters: Arc<Counters>,
    // The keys of connections that are to have a turn, each once. A key may have passed to another connection since.
    ready: Vec<usize>,
    // An empty list, which has the memory for the keys of the next round.
    spare: Vec<usize>,
    // The sockets of connections that a stop has ended, or that had as many lines as may be.
    lingering: LingeringSockets,
    // It runs while replies wait for clients, or lines for room.
    quarters: QuarterClock,
    // The number of the next line that waits for room, and whether one may wait.
    number: u64,
    has_waiting: bool,
    // When the lines were at hand that are taken now, where the clock says it.
    at_hand: Option<Instant>,
}

impl EventLoop {
    /// A loop with no connection. Clients may be idle for `idle` seconds.
    pub(crate) fn new(
        alloc: Global,
        poll: Poll,
        idle: Option<u32>,
        counters: Arc<Counters>,
    ) -> io::Result<EventLoop> {
        let buffers = TurnBuffers::new(alloc)?;
        let events = Events::with_capacity(alloc, EVENTS)?;
        Ok(EventLoop {
            alloc,
            poll,
            events,
            buffers,
            counted: NO_LINES,
            connections: Slab::new(alloc),
            idle: match idle {
                Some(seconds) => Some(seconds.saturating_mul(QUARTERS)),
                None => None,
            },
            counters,
            ready: Vec::new(alloc),
            spare: Vec::new(alloc),
            lingering: LingeringSockets::new(alloc),
            quarters: QuarterClock::new(),
            number: 1,
            has_waiting: false,
            at_hand: None,
        })
    }

    /// Answers connections until the mailbox is closed and the last has ended, or it is to answer nothing more. An error is one of the
    /// system's wait.
    #[tactic(auto, using(pn_serve::proofs::Knowing::knows_on))]
    pub(crate) fn run<R: Wait + Clock>(
        &mut self,
        rt: &R,
        mailbox: &SocketMailbox,
        reader: &mut BoundedReader,
    ) -> io::Result<()>
        ensures knows { KnowsNoLess reader.old reader.new }
    {
        'rounds: for _ in rt.forever() {
            if self.wait()? {
                self.add_accepted(rt, mailbox);
                self.end_idle(rt, mailbox);
                self.end_inputs(rt, mailbox);
            }
            self.end_unread(rt, mailbox);
            self.take_turns(rt, mailbox, reader);
            self.let_waiting_in();
            self.lingering.close_ended(rt);
            if mailbox.is_cut(rt) || self.is_over(rt, mailbox) {
                return Ok(());
            }
        }
        unreachable!()
    }

    fn is_over<R: Wait>(&self, rt: &R, mailbox: &SocketMailbox) -> bool {
        self.connections.is_empty() && mailbox.is_over(rt)
    }

    // Waits for events, unless connections are ready. Whether the mailbox has something.
    fn wait(&mut self) -> io::Result<bool> {
        let timeout = if self.ready.is_empty() {
            self.timeout()
        } else {
            Some(Duration::ZERO)
        };
        self.poll.poll(&mut self.events, timeout)?;
        let mut has_mail = false;
        for event in self.events.iter() {
            if event.token() == MAILBOX {
                has_mail = true;
            } else {
                let key = usize::from(event.token());
                if let Some(connection) = self.connections.get_mut(key) {
                    connection.note_event(event);
                }
                make_ready(&mut self.connections, &mut self.ready, key);
            }
        }
        Ok(has_mail)
    }

    // Adds the sockets that were accepted.
    fn add_accepted<R: Wait>(&mut self, rt: &R, mailbox: &SocketMailbox) {
        for _ in 0..self.add_all(mailbox.take(rt)) {
            self.counters.connections.refused.add(1);
            mailbox.release(rt);
        }
    }

    // Adds sockets. Answers how many could not be registered: they are dropped.
    fn add_all(&mut self, sockets: Vec<Socket>) -> usize
        ensures { slab_len self.new.connections + result ≡ slab_len self.old.connections + vec_len sockets }
    {
        let mut refused = 0;
        'sockets: for socket in sockets {
            if self.add(socket).is_err() {
                refused += 1;
            }
        }
        refused
    }

    fn add(&mut self, socket: Socket) -> io::Result<()>
        ensures added { OnOk result (slab_len self.new.connections ≡ slab_len self.old.connections + 1) }
        ensures refused { OnErr result (slab_len self.new.connections ≡ slab_len self.old.connections) }
    {
        self.connections.reserve(1)?;
        self.ready
            .reserve(self.connections.len().saturating_add(1))?;
        self.spare
            .reserve(self.connections.len().saturating_add(1))?;
        let key = self.connections.vacant_key();
        socket.register(self.poll.registry(), Token(key))?;
        let mut connection = Connection::new(self.alloc, socket);
        connection.is_ready = self.ready.push(key).is_ok();
        let _ = self.connections.insert_reserved(connection);
        self.counters.connections.begin();
        Ok(())
    }

    // Drops the connection of a key.
    fn remove<R: Wait>(&mut self, rt: &R, mailbox: &SocketMailbox, key: usize)
        ensures { Updates self.old.connections self.new.connections key None }
    {
        if let Some(connection) = self.connections.try_remove(key) {
            self.counters.connections.end();
            self.counters.unread.replace(connection.kept(), NOTHING);
            if connection.lingers || mailbox.is_stopping(rt) {
                self.lingering.add(connection.into_socket());
            }
            mailbox.release(rt);
        }
    }

    /// Ends the connections that are left where the wait has failed, and closes the sockets of those that a stop has ended.
    pub(crate) fn close<R: Wait + Clock>(&mut self, rt: &R, mailbox: &SocketMailbox) {
        for key in 0..self.connections.capacity() {
            self.remove(rt, mailbox, key);
        }
        self.lingering.close(rt);
    }

    // Gives each connection that is ready one turn, while the thread is to answer.
    fn take_turns<R: Wait + Clock>(
        &mut self,
        rt: &R,
        mailbox: &SocketMailbox,
        reader: &mut BoundedReader,
    )
        ensures knows { KnowsNoLess reader.old reader.new }
    {
        self.at_hand = Instant::now(rt).ok();
        let spare = mem::replace(&mut self.spare, Vec::new(self.alloc));
        let mut ready = mem::replace(&mut self.ready, spare);
        for key in ready.iter() {
            if mailbox.is_cut(rt) {
                continue;
            }
            match self.give_turn(rt, *key, reader) {
                Some(Pause::Turn) => make_ready(&mut self.connections, &mut self.ready, *key),
                Some(Pause::Input | Pause::Output) => {}
                None => self.remove(rt, mailbox, *key),
            }
        }
        ready.clear();
        self.spare = ready;
        let counts = mem::replace(&mut self.counted, NO_LINES);
        self.counters.clients.lines.add(counts.answered);
        self.counters.refused.add(counts.refused);
        self.counters.kinds.add(reader.take_kinds());
    }

    // One turn of the connection of a key. Where it is gone, nothing is at hand.
    fn give_turn<R: Clock>(
        &mut self,
        rt: &R,
        key: usize,
        reader: &mut BoundedReader,
    ) -> Option<Pause>
        ensures knows { KnowsNoLess reader.old reader.new }
    {
        match self.connections.get_mut(key) {
            Some(connection) => {
                let before = connection.kept();
                reader.begin_turn(connection.room_in(&self.counters.unread));
                let next = connection.turn(&mut self.buffers, reader, &mut self.counted);
                connection.count_times(rt, &self.at_hand, &self.counters.line_times);
                self.note_kept(key, before);
                next
            }
            None => Some(Pause::Input),
        }
    }
}

// Puts a connection among those that are ready, where there is memory for its key.
fn make_ready(connections: &mut Slab<Connection>, ready: &mut Vec<usize>, key: usize)
    ensures idle { (other : ℕ) → idle_at connections.new other ≡ idle_at connections.old other }
    ensures ending { (other : ℕ) → ending_at connections.new other ≡ ending_at connections.old other }
    ensures unread { (other : ℕ) → unread_at connections.new other ≡ unread_at connections.old other }
{
    if let Some(connection) = connections.get_mut(key) {
        if !connection.is_ready {
            connection.is_ready = ready.push(key).is_ok();
        }
    }
}
