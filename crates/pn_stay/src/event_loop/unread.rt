//! How an event loop ends clients that take nothing of what waits for them.

ghost use Rattle.std.specs.Prelude.{◌≡◌, ◌≢◌, ◌⊎◌, ◌≤◌, ℕ, None, false, max, true};
ghost use Rattle.std.specs.Option.{option_map};
ghost use Rattle.pn_stay.specs.Unread.{EndsAt, EndsDeaf, EndsLongest, aged, is_deaf as deaf, quiet_in};
ghost use Rattle.pn_stay.specs.Loops.{quiet_at, unread_at};
ghost use Rattle.slab.specs.Slab.{Updates};

use crate::connection::Connection;
use crate::event_loop::{EventLoop, make_ready};
use crate::socket_mailbox::SocketMailbox;
use crate::unread::{DEAF_QUARTERS, QUIET_QUARTERS, is_ended};
use slab::Slab;
use std::sync::Wait;
use std::time::{Clock, Duration};

impl EventLoop {
    /// How long a wait for events may take. None: any time.
    pub(super) fn timeout(&self) -> Option<Duration> {
        match self.quarters.timeout() {
            Some(timeout) => Some(timeout),
            None => self.lingering.timeout(),
        }
    }

    /// While replies wait for clients, each quarter of a second: ends those that took no byte for half a minute, and, where the limit
    /// is passed, those that took none for longest.
    pub(super) fn end_unread<R: Wait + Clock>(&mut self, rt: &R, mailbox: &SocketMailbox) {
        if self.quarters.is_over(rt) {
            self.quarters.stand();
            self.end_deaf(rt, mailbox);
            self.end_past(rt, mailbox);
        }
    }

    // A quarter of a second is over for each client that replies wait for. Those that took no byte for half a minute are ended.
    fn end_deaf<R: Wait>(&mut self, rt: &R, mailbox: &SocketMailbox)
        ensures { (key : ℕ) → EndsDeaf (unread_at self.old.connections key) (unread_at self.new.connections key) }
    {
        'clients: for key in 0..self.connections.capacity() {
            self.end_deaf_at(rt, mailbox, key);
        }
    }

    // A quarter of a second is over for the client of a key, if replies wait for it.
    fn end_deaf_at<R: Wait>(&mut self, rt: &R, mailbox: &SocketMailbox, key: usize)
        ensures here { EndsDeaf (unread_at self.old.connections key) (unread_at self.new.connections key) }
        ensures others { (other : ℕ) → other ≢ key → unread_at self.new.connections other ≡ unread_at self.old.connections other }
    {
        match age_at(&mut self.connections, key) {
            Some(is_deaf) => self.end_or_try(rt, mailbox, key, is_deaf),
            None => {}
        }
    }

    // Ends a client that is deaf. Another has a turn.
    fn end_or_try<R: Wait>(&mut self, rt: &R, mailbox: &SocketMailbox, key: usize, is_deaf: bool)
        ensures deaf { is_deaf ≡ true → unread_at self.new.connections key ≡ None }
        ensures hears { is_deaf ≡ false → unread_at self.new.connections key ≡ unread_at self.old.connections key }
        ensures others { (other : ℕ) → other ≢ key → unread_at self.new.connections other ≡ unread_at self.old.connections other }
    {
        if is_deaf {
            self.end_client(rt, mailbox, key);
            return;
        }
        self.try_again(key);
    }

    // A client that replies wait for has a turn: it may have taken too little for the system to report it.
    fn try_again(&mut self, key: usize)
        ensures { (other : ℕ) → unread_at self.new.connections other ≡ unread_at self.old.connections other }
    {
        self.quarters.run_if(true);
        make_ready(&mut self.connections, &mut self.ready, key);
    }

    // Ends a client for what it has not taken.
    fn end_client<R: Wait>(&mut self, rt: &R, mailbox: &SocketMailbox, key: usize)
        ensures { Updates self.old.connections self.new.connections key None }
    {
        self.counters.unread.ended.add(1);
        self.remove(rt, mailbox, key);
    }

    // Where the limit is passed, ends clients that took no byte for longest, until it is not, or the others took one within a second.
    fn end_past<R: Wait>(&mut self, rt: &R, mailbox: &SocketMailbox)
        ensures { EndsLongest (unread_at self.old.connections) (unread_at self.new.connections) }
    {
        let mut goes_on = true;
        'rounds: for _round in 0..DEAF_QUARTERS {
            goes_on = self.end_next(rt, mailbox, goes_on);
        }
    }

    // Where the limit is passed, ends clients that took no byte for longest. Whether there may be more to end.
    fn end_next<R: Wait>(&mut self, rt: &R, mailbox: &SocketMailbox, goes_on: bool) -> bool
        ensures { EndsLongest (unread_at self.old.connections) (unread_at self.new.connections) }
    {
        if !goes_on || !self.counters.unread.is_past() {
            return false;
        }
        let longest = longest_quiet(&self.connections);
        if longest < QUIET_QUARTERS {
            return false;
        }
        self.end_longest(rt, mailbox, longest);
        true
    }

    // Ends clients that took no byte for `longest` quarters, until the limit is not passed.
    fn end_longest<R: Wait>(&mut self, rt: &R, mailbox: &SocketMailbox, longest: u32)
        ensures { (key : ℕ) → EndsAt longest (unread_at self.old.connections key) (unread_at self.new.connections key) }
    {
        'clients: for key in 0..self.connections.capacity() {
            self.end_longest_at(rt, mailbox, key, longest);
        }
    }

    // Ends the client of a key, if it took no byte for longest and the limit is passed.
    fn end_longest_at<R: Wait>(&mut self, rt: &R, mailbox: &SocketMailbox, key: usize, longest: u32)
        ensures here { EndsAt longest (unread_at self.old.connections key) (unread_at self.new.connections key) }
        ensures others { (other : ℕ) → other ≢ key → unread_at self.new.connections other ≡ unread_at self.old.connections other }
    {
        let quarters = quiet_of_client(&self.connections, key);
        if is_ended(quarters, longest, self.counters.unread.is_past()) {
            self.end_client(rt, mailbox, key);
            return;
        }
    }
}

// A quarter of a second is over for the client of a key, if replies wait for it. Whether it took no byte for half a minute.
fn age_at(connections: &mut Slab<Connection>, key: usize) -> Option<bool>
    ensures deaf { result ≡ option_map deaf (unread_at connections.new key) }
    ensures here { unread_at connections.new key ≡ option_map aged (unread_at connections.old key) }
    ensures others { (other : ℕ) → other ≢ key → unread_at connections.new other ≡ unread_at connections.old other }
{
    match connections.get_mut(key) {
        Some(connection) => connection.age_unread(),
        None => None,
    }
}

// For how many quarters a client took no byte that took none for longest, of those whose replies keep records.
fn longest_quiet(connections: &Slab<Connection>) -> u32
    ensures most { (key : ℕ) → quiet_at connections.now key ≤ result }
    ensures some { (result ≡ 0) ⊎ ((key : ℕ) × (quiet_at connections.now key ≡ result)) }
{
    let mut longest = 0;
    'clients: for key in 0..connections.capacity() {
        longest = longer_of(longest, quiet_of_client(connections, key));
    }
    longest
}

fn longer_of(one: u32, other: u32) -> u32
    ensures { result ≡ max one other }
{
    if one < other {
        return other;
    }
    one
}

// For how many quarters the client of a key took no byte, if there is one whose reply keeps records.
fn quiet_of_client(connections: &Slab<Connection>, key: usize) -> u32
    ensures { result ≡ quiet_at connections.now key }
{
    match connections.get(key) {
        Some(connection) => quiet_of(connection),
        None => 0,
    }
}

fn quiet_of(connection: &Connection) -> u32
    ensures { result ≡ quiet_in connection.now.unread }
{
    match &connection.unread {
        Some(unread) => unread.quiet_quarters(),
        None => 0,
    }
}
