//! Connections of an event loop that wait, are idle or end.

ghost use Rattle.std.specs.Prelude.{◌≡◌, ◌≢◌, ◌↔◌, ℕ, IsTrue};
ghost use Rattle.pn_stay.specs.Loops.{idle_at, quarter_later, EndsQuarter, IsIdleFor, ending_at, IsEnding};

use crate::connection::Connection;
use crate::counters::Kept;
use crate::event_loop::{EventLoop, make_ready};
use crate::socket_mailbox::SocketMailbox;
use slab::Slab;
use std::sync::Wait;

impl EventLoop {
    /// Counts what the connection of a key keeps after a turn, and what its line waits for, in place of `before`.
    pub(super) fn note_kept(&mut self, key: usize, before: Kept) {
        let Some(connection) = self.connections.get_mut(key) else {
            return;
        };
        let after = connection.kept();
        self.counters.unread.replace(before, after);
        let waits = after.wanted > 0;
        self.quarters.run_if(waits || connection.unread.is_some());
        if waits {
            connection.room = connection.room.numbered(self.number);
            self.number = self.number.saturating_add(1);
            self.has_waiting = true;
        }
    }

    /// Lets in lines that wait for room, in the order in which they were put off, while there is room for the next.
    pub(super) fn let_waiting_in(&mut self) {
        if !self.has_waiting {
            return;
        }
        for _ in 0..self.connections.capacity() {
            let first = first_waiting(&self.connections);
            self.has_waiting = first.is_some();
            match first {
                Some(key) if self.let_in(key) => {}
                _ => break,
            }
        }
        self.quarters.run_if(self.has_waiting);
    }

    // Lets in the line of a key, if there is room for it. Whether there was.
    fn let_in(&mut self, key: usize) -> bool {
        let Some(connection) = self.connections.get_mut(key) else {
            return false;
        };
        let before = connection.kept();
        if !self.counters.unread.has_room(before.wanted) {
            return false;
        }
        connection.let_in();
        self.counters.unread.replace(before, connection.kept());
        make_ready(&mut self.connections, &mut self.ready, key);
        true
    }
}

// The key of the line that was put off first of those that wait for room, and whose clients have taken all replies before.
fn first_waiting(connections: &Slab<Connection>) -> Option<usize> {
    let mut first = None;
    'clients: for key in 0..connections.capacity() {
        first = earlier_of(connections, first, key);
    }
    first
}

// Of two keys that of the line that was put off earlier.
fn earlier_of(connections: &Slab<Connection>, first: Option<usize>, key: usize) -> Option<usize> {
    match (
        number_of(connections, first),
        number_of(connections, Some(key)),
    ) {
        (None, Some(_)) => Some(key),
        (Some(one), Some(other)) if other < one => Some(key),
        _ => first,
    }
}

// The number of the line of a key that waits for room, if there is one.
fn number_of(connections: &Slab<Connection>, key: Option<usize>) -> Option<u64> {
    connections.get(key?)?.waits()
}

impl EventLoop {
    /// Four times a second ends the connections whose clients are idle for too long.
    pub(super) fn end_idle<R: Wait>(&mut self, rt: &R, mailbox: &SocketMailbox) {
        let Some(idle) = self.idle else { return };
        if mailbox.take_quarter(rt) {
            self.end_quarter(rt, mailbox, idle);
        }
    }

    // A quarter of a second is over for each connection.
    fn end_quarter<R: Wait>(&mut self, rt: &R, mailbox: &SocketMailbox, idle: u32)
        ensures { (key : ℕ) → EndsQuarter idle (idle_at self.old.connections key) (idle_at self.new.connections key) }
    {
        'quarters: for key in 0..self.connections.capacity() {
            self.end_quarter_at(rt, mailbox, key, idle);
        }
    }

    // A quarter of a second is over for the connection of a key, which ends where its client is idle for too long.
    fn end_quarter_at<R: Wait>(&mut self, rt: &R, mailbox: &SocketMailbox, key: usize, idle: u32)
        ensures here { EndsQuarter idle (idle_at self.old.connections key) (idle_at self.new.connections key) }
        ensures others { (other : ℕ) → other ≢ key → idle_at self.new.connections other ≡ idle_at self.old.connections other }
    {
        if age(&mut self.connections, key, idle) {
            self.counters.connections.idle.add(1);
            self.remove(rt, mailbox, key);
        }
    }
}

// Makes the connection of a key a quarter of a second older. Whether its client is idle for too long.
fn age(connections: &mut Slab<Connection>, key: usize, idle: u32) -> bool
    ensures over { IsTrue result ↔ IsIdleFor idle (idle_at connections.new key) }
    ensures here { idle_at connections.new key ≡ quarter_later (idle_at connections.old key) }
    ensures others { (other : ℕ) → other ≢ key → idle_at connections.new other ≡ idle_at connections.old other }
{
    let Some(connection) = connections.get_mut(key) else {
        return false;
    };
    connection.idle.end_quarter();
    connection.idle.is_over(idle)
}

impl EventLoop {
    /// Once the thread is to end, the input of each client ends after what has come of it.
    pub(super) fn end_inputs<R: Wait>(&mut self, rt: &R, mailbox: &SocketMailbox) {
        if mailbox.is_stopping(rt) {
            self.end_all_inputs();
        }
    }

    // The input of each client ends after what has come of it.
    fn end_all_inputs(&mut self)
        ensures { (key : ℕ) → IsEnding (ending_at self.new.connections key) }
    {
        'inputs: for key in 0..self.connections.capacity() {
            self.end_input_at(key);
        }
    }

    // The input of the client of a key, if it has one, ends after what has come of it. It is to have a turn for that.
    fn end_input_at(&mut self, key: usize)
        ensures here { IsEnding (ending_at self.new.connections key) }
        ensures others { (other : ℕ) → other ≢ key → ending_at self.new.connections other ≡ ending_at self.old.connections other }
    {
        if let Some(connection) = self.connections.get_mut(key) {
            connection.end_input();
        }
        make_ready(&mut self.connections, &mut self.ready, key);
    }
}
