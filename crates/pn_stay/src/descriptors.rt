//! Descriptors, and how many connections they leave.

ghost use Rattle.std.specs.Prelude.{◌≡◌, ◌+◌, ◌-◌, ◌^◌, min, ◌*◌, ◌<◌, if◌then◌else◌};
ghost use Rattle.pn_serve.specs.declared.server.session_threads.TheConstants.{MAX_CONTROLS};
ghost use Rattle.pn_stay.specs.declared.descriptors.TheConstants.{CLIENTS, CONTROL, CONTROL_SESSION, FILE, LISTENED, PROCESS, SPARE, THREAD};

use libc::types::rlimit;
use libc::{RLIMIT_NOFILE, getrlimit};
use pn_serve::MAX_CONTROLS;
use std::sync::{Condvar, Mutex, Wait};

/// How many connections may still be opened. Where none may, a thread that is to open one waits.
#[derive(Drop)]
pub(crate) struct ConnectionLimit {
    free: Mutex<usize>,
    released: Condvar,
}

/// A place among the connections that may be open. It is no value that may be dropped: its limit gets it back, or a mailbox
/// gets it with a socket, and releases it once that connection has ended.
pub(crate) struct Place(());

impl ConnectionLimit {
    /// A limit of `most` connections.
    pub(crate) fn new(most: usize) -> ConnectionLimit {
        ConnectionLimit {
            free: Mutex::new(most),
            released: Condvar::new(),
        }
    }

    /// Whether no more may be opened for now.
    pub(crate) fn is_reached<R: Wait>(&self, rt: &R) -> bool {
        *self.free.lock(rt) == 0
    }

    /// The place of a connection, once one more may be opened.
    pub(crate) fn acquire<R: Wait>(&self, rt: &R) -> Place {
        let guard = self.free.lock(rt);
        let mut free = self.released.wait_while(rt, guard, |free| *free == 0);
        take_one(&mut *free);
        Place(())
    }

    /// The place of no connection is free again.
    pub(crate) fn release<R: Wait>(&self, rt: &R, place: Place) {
        place.hand_over();
        self.release_ended(rt);
    }

    /// A connection whose place was handed over has ended.
    pub(crate) fn release_ended<R: Wait>(&self, rt: &R) {
        let mut free = self.free.lock(rt);
        give_back(&mut *free);
        self.released.notify_one();
    }
}

impl Place {
    /// Whoever has its connection releases it from now on.
    pub(crate) fn hand_over(self) {
        let Place(()) = self;
    }
}

fn take_one(free: &mut usize)
    ensures { free.new ≡ free.old - 1 }
{
    *free = free.saturating_sub(1);
}

fn give_back(free: &mut usize)
    ensures { free.new ≡ min (free.old + 1) (2 ^ 64 - 1) }
{
    *free = free.saturating_add(1);
}

/// Those of the process: standard input, output and error, and where the system says how much memory it has.
const PROCESS: u64 = 4;

/// The listening socket of clients, its second handle, and its lock.
const CLIENTS: u64 = 3;

/// The poll of a thread, and what wakes it.
const THREAD: u64 = 2;

/// The listening socket of control sessions, and its lock.
const CONTROL: u64 = 2;

/// A handle of that socket, and the socket of a client.
const CONTROL_SESSION: u64 = 2;

/// The socket of a stream, its lock, and the socket of a publisher.
const LISTENED: u64 = 3;

/// A FIFO and its poll, or a file.
const FILE: u64 = 2;

/// What is open for a moment, as a socket or a FIFO that is made again, and those that the process began with.
const SPARE: u64 = 8;

/// What a server that stays has, at most.
#[derive(Clone, Copy)]
pub struct DescriptorUses {
    pub connections: u32,
    pub threads: u32,
    pub has_control: bool,
    /// The streams from sockets, and the others.
    pub listened: u32,
    pub files: u32,
}

/// How many descriptors a server needs that has these.
pub fn count_descriptors(uses: &DescriptorUses) -> u64
    ensures { result ≡ PROCESS + CLIENTS + SPARE + (if uses.now.has_control then CONTROL + CONTROL_SESSION * MAX_CONTROLS else 0)
        + uses.now.connections + THREAD * uses.now.threads + LISTENED * uses.now.listened + FILE * uses.now.files }
{
    let control = if uses.has_control {
        CONTROL + CONTROL_SESSION * MAX_CONTROLS as u64
    } else {
        0
    };
    PROCESS
        + CLIENTS
        + SPARE
        + control
        + uses.connections as u64
        + THREAD * uses.threads as u64
        + LISTENED * uses.listened as u64
        + FILE * uses.files as u64
}

/// How many descriptors the system allows this process, where it says that.
pub fn allowed_descriptors() -> Option<u64> {
    let mut limit = rlimit {
        rlim_cur: 0,
        rlim_max: 0,
    };
    if getrlimit(RLIMIT_NOFILE, &mut limit) == 0 {
        Some(limit.rlim_cur)
    } else {
        None
    }
}
