//! Sockets of connections that a stop has ended, or that had as many lines as may be. What their clients go on writing is read
//! and dropped: if it were left unread, the system would throw away replies that clients have not taken so far.

ghost use Rattle.std.specs.Prelude.{◌≡◌, ◌≢◌, ◌≤◌, ◌*◌, ◌↔◌, None, Ok, Some, false, true, IfErr, IfOk, IsTrue, OnErr};
ghost use Rattle.std.specs.Duration.{as_nanos};
ghost use Rattle.std.specs.IoError.{error_kind};
ghost use Rattle.pn_stay.specs.declared.lingering.TheConstants.{SECONDS};

use crate::socket::Socket;
use pn_lines::is_wait;
use std::alloc::Global;
use std::io::ErrorKind;
use std::time::{Clock, Duration, Instant};
use std::{io, mem, thread};

/// How many milliseconds a wait for clients takes.
const STEP: u64 = 10;

/// At most how many waits the end takes: a second.
const STEPS: u32 = 100;

/// After how many milliseconds at most the clients are looked at again, while others are served.
const PAUSE: u64 = 100;

/// For how many seconds at most a client is waited for.
const SECONDS: u64 = 5;

/// How often a socket is read at most between two waits.
const READS: u32 = 64;

/// How many bytes are read at a time.
const READ_SIZE: usize = 4_096;

/// Sockets that are still to be closed.
#[derive(Drop)]
pub(crate) struct LingeringSockets {
    alloc: Global,
    sockets: Vec<LingeringSocket>,
}

/// A socket whose output has ended, and since when it is looked at.
#[derive(Drop)]
struct LingeringSocket {
    socket: Socket,
    since: Option<Instant>,
}

impl LingeringSockets {
    /// No socket so far.
    pub(crate) fn new(alloc: Global) -> LingeringSockets {
        LingeringSockets {
            alloc,
            sockets: Vec::new(alloc),
        }
    }

    /// Ends the output to a client, and keeps its socket. Where there is no memory for that the socket is closed.
    pub(crate) fn add(&mut self, socket: Socket) {
        socket.end_output();
        let since = None;
        let _ = self.sockets.push(LingeringSocket { socket, since });
    }

    /// How long a wait for events may take. None: any time.
    pub(crate) fn timeout(&self) -> Option<Duration> {
        if self.sockets.is_empty() {
            return None;
        }
        Some(Duration::from_millis(PAUSE))
    }

    /// Waits for a second at most until all clients have closed their sockets, and closes them.
    pub(crate) fn close<R: Clock>(&mut self, rt: &R) {
        for _ in 0..STEPS {
            self.close_ended(rt);
            if self.sockets.is_empty() {
                return;
            }
            thread::sleep(rt, Duration::from_millis(STEP));
        }
    }

    /// Closes the sockets whose clients have closed theirs, or were waited for long enough.
    pub(crate) fn close_ended<R: Clock>(&mut self, rt: &R) {
        let sockets = mem::replace(&mut self.sockets, Vec::new(self.alloc));
        for socket in sockets {
            let mut socket = socket;
            if !drop_input(&socket.socket) && !socket.is_over(rt) {
                let _ = self.sockets.push(socket);
            }
        }
    }
}

impl LingeringSocket {
    // Whether its client was waited for long enough since it was looked at first. So it was where the clock fails.
    fn is_over<R: Clock>(&mut self, rt: &R) -> bool {
        match self.since {
            Some(since) => is_long(since.elapsed(rt)),
            None => {
                self.since = Instant::now(rt).ok();
                self.since.is_none()
            }
        }
    }
}

// Whether a client was waited for long enough.
fn is_long(elapsed: io::Result<Duration>) -> bool
    ensures told { IfOk elapsed (λ elapsed. IsTrue result ↔ (SECONDS * 1_000_000_000 ≤ as_nanos elapsed)) }
    ensures unknown { OnErr elapsed (result ≡ true) }
{
    match elapsed {
        Ok(elapsed) => elapsed >= Duration::from_secs(SECONDS),
        Err(_) => true,
    }
}

// Reads and drops what a client has written. Whether it writes nothing more.
fn drop_input(socket: &Socket) -> bool {
    let mut bytes = [0u8; READ_SIZE];
    for _ in 0..READS {
        if let Some(is_over) = ends_input(&socket.read_some(&mut bytes)) {
            return is_over;
        }
    }
    false
}

// Whether a read says that nothing more comes. None: there may be more at hand.
fn ends_input(read: &io::Result<usize>) -> Option<bool>
    ensures end { read.now ≡ Ok 0 → result ≡ Some true }
    ensures more { IfOk read.now (λ count. count ≢ 0 → result ≡ None) }
    ensures waits { IfErr read.now (λ error. error_kind error ≡ ErrorKind.WouldBlock → result ≡ Some false) }
    ensures fault { IfErr read.now (λ error. error_kind error ≢ ErrorKind.WouldBlock → result ≡ Some true) }
{
    match read {
        Ok(0) => Some(true),
        Ok(_) => None,
        Err(error) => Some(!is_wait(error)),
    }
}
