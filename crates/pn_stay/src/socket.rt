//! The sockets of clients, over TCP or at a path.

ghost use Rattle.std.specs.Prelude.{◌≡◌, ◌≢◌, ◌⊎◌, false, true, Ok, IfErr, OnOk};
ghost use Rattle.std.specs.Io.{ReadsAtMost, WritesAtMost};
ghost use Rattle.std.specs.IoError.{error_kind};
ghost use Rattle.pn_stay.specs.Loops.{NotesFailure};

use crate::interrupts::is_interrupted;
use libc::net::{POLLHUP, SHUT_RD, SHUT_RDWR, poll, shutdown};
use libc::types::pollfd;
use mio::unix::SourceFd;
use mio::{Interest, Registry, Token};
use pn_line::{Sink, WriteFault};
use pn_lines::is_wait;
use std::io;
use std::io::{ErrorKind, Read, Write};
use std::net::{Shutdown, TcpStream};
use std::os::fd::{AsRawFd, RawFd};
use std::os::unix::net::UnixStream;
use std::time::Duration;

/// The socket of a client.
#[derive(Drop)]
pub(crate) enum Socket {
    Tcp(TcpStream),
    Unix(UnixStream),
}

impl Socket {
    /// From now on reads and writes answer in place of waiting.
    pub(crate) fn set_nonblocking(&self) -> io::Result<()> {
        match self {
            Socket::Tcp(stream) => stream.set_nonblocking(true),
            Socket::Unix(stream) => stream.set_nonblocking(true),
        }
    }

    /// From now on reads and writes wait for the client no longer than this.
    pub(crate) fn set_timeout(&self, most: Duration) -> io::Result<()> {
        match self {
            Socket::Tcp(stream) => {
                stream.set_read_timeout(Some(most))?;
                stream.set_write_timeout(Some(most))
            }
            Socket::Unix(stream) => {
                stream.set_read_timeout(Some(most))?;
                stream.set_write_timeout(Some(most))
            }
        }
    }

    /// The client's input ends after what has come of it. A read that waits for more ends, too.
    pub(crate) fn end_input(&self) {
        self.shut(Shutdown::Read);
    }

    /// The output to the client ends after what was written.
    pub(crate) fn end_output(&self) {
        self.shut(Shutdown::Write);
    }

    // A socket that the client has closed is left as it is.
    fn shut(&self, how: Shutdown) {
        let _ = match self {
            Socket::Tcp(stream) => stream.shutdown(how),
            Socket::Unix(stream) => stream.shutdown(how),
        };
    }

    /// Whether the client has closed its socket, so that it takes nothing more.
    pub(crate) fn has_gone(&self) -> bool {
        let mut looks = [pollfd {
            fd: self.number(),
            events: 0,
            revents: 0,
        }];
        poll(&mut looks, 0) > 0 && looks[0].revents & POLLHUP != 0
    }

    /// The number of its descriptor.
    pub(crate) fn number(&self) -> RawFd {
        match self {
            Socket::Tcp(stream) => stream.as_raw_fd(),
            Socket::Unix(stream) => stream.as_raw_fd(),
        }
    }

    /// From now on a poll reports when it can be read or written.
    pub(crate) fn register(&self, registry: &Registry, token: Token) -> io::Result<()> {
        registry.register(
            &mut SourceFd(&self.number()),
            token,
            Interest::READABLE | Interest::WRITABLE,
        )
    }

    /// Reads what is at hand. Where a signal interrupts it, it is asked again, and its time begins anew.
    pub(crate) fn read_some(&self, buf: &mut [u8]) -> io::Result<usize>
        ensures { ReadsAtMost result buf.new }
    {
        for _ in 0..u64::MAX {
            let count = self.read_once(buf);
            if !is_interrupted(&count) {
                return count;
            }
        }
        self.read_once(buf)
    }

    fn read_once(&self, buf: &mut [u8]) -> io::Result<usize>
        ensures { ReadsAtMost result buf.new }
    {
        match self {
            Socket::Tcp(stream) => (&*stream).read(buf),
            Socket::Unix(stream) => (&*stream).read(buf),
        }
    }

    // As `read_some` reads.
    fn write_some(&self, buf: &[u8]) -> io::Result<usize>
        ensures { WritesAtMost result buf.now }
    {
        for _ in 0..u64::MAX {
            let count = self.write_once(buf);
            if !is_interrupted(&count) {
                return count;
            }
        }
        self.write_once(buf)
    }

    fn write_once(&self, buf: &[u8]) -> io::Result<usize>
        ensures { WritesAtMost result buf.now }
    {
        match self {
            Socket::Tcp(stream) => (&*stream).write(buf),
            Socket::Unix(stream) => (&*stream).write(buf),
        }
    }
}

/// As `end_input`, for a socket that is open by its number.
pub(crate) fn end_input_of(socket: RawFd) {
    let _ = shutdown(socket, SHUT_RD);
}

/// Ends the input and the output of a socket that is open by its number.
pub(crate) fn end_both_of(socket: RawFd) {
    let _ = shutdown(socket, SHUT_RDWR);
}

/// A socket that is read or written, whether anything went over it, and whether a call of it has failed.
#[derive(Drop)]
pub(crate) struct TrackedSocket<'a> {
    socket: &'a Socket,
    has_moved: bool,
    has_failed: bool,
    // Whether its input ends where a read would wait.
    is_ending: bool,
}

impl<'a> TrackedSocket<'a> {
    /// A socket over which nothing went so far.
    pub(crate) fn new(socket: &'a Socket) -> TrackedSocket<'a>
        ensures failed { result.has_failed ≡ false }
    {
        TrackedSocket {
            socket,
            has_moved: false,
            has_failed: false,
            is_ending: false,
        }
    }

    /// From now on its input is at its end where a read would wait for more, if `is_ending`.
    pub(crate) fn end_input_if(&mut self, is_ending: bool) {
        self.is_ending = is_ending;
    }

    /// Whether anything went over it.
    pub(crate) fn has_moved(&self) -> bool
        ensures { result ≡ self.now.has_moved }
    {
        let TrackedSocket { has_moved, .. } = self;
        *has_moved
    }

    // Answers what a read or a write answered, and notes whether it succeeded, so that bytes went over the socket, or its end; or
    // whether it failed.
    fn note(&mut self, moved: io::Result<usize>) -> io::Result<usize>
        ensures same { result ≡ moved }
        ensures noted { OnOk moved (self.new.has_moved ≡ true) }
        ensures failed { NotesFailure self.old.has_failed moved self.new.has_failed }
    {
        if moved.is_ok() {
            self.has_moved = true;
        }
        self.has_failed = has_failed_after(self.has_failed, &moved);
        moved
    }
}

impl Read for TrackedSocket<'_> {
    fn read(&mut self, buf: &mut [u8]) -> io::Result<usize> {
        let mut count = self.socket.read_some(buf);
        if self.is_ending {
            count = end_in_place_of_wait(count);
        }
        self.note(count)
    }
}

// The end of an input in place of a wait for more.
fn end_in_place_of_wait(read: io::Result<usize>) -> io::Result<usize>
    ensures end { IfErr read (λ error. error_kind error ≡ ErrorKind.WouldBlock → result ≡ Ok 0) }
    ensures fault { IfErr read (λ error. error_kind error ≢ ErrorKind.WouldBlock → result ≡ read) }
    ensures ok { OnOk read (result ≡ read) }
    ensures either { (result ≡ Ok 0) ⊎ (result ≡ read) }
{
    let waits = match &read {
        Ok(_) => false,
        Err(error) => is_wait(error),
    };
    if waits { Ok(0) } else { read }
}

impl Sink for TrackedSocket<'_> {
    ghost use Rattle.std.specs.Prelude.{None};

    ghost contents = { λ _. None };

    ghost may_fail = { Unit {0} };

    ghost is_flushed = { λ _. Unit {0} };

    ghost has_failed = { λ socket. socket.has_failed ≡ true };

    fn write_some(&mut self, bytes: &[u8]) -> Result<usize, WriteFault> {
        let count = self.socket.write_some(bytes);
        match self.note(count) {
            Ok(0) if !bytes.is_empty() => {
                self.has_failed = true;
                Err(WriteFault::TookNothing)
            }
            Ok(count) => Ok(count),
            Err(error) => Err(WriteFault::Failed(error)),
        }
    }

    fn flush(&mut self) -> Result<(), WriteFault> {
        Ok(())
    }
}

/// Whether a call has failed after one that answered so: it gave an error that is no wait, or one had failed before.
pub(crate) fn has_failed_after(has_failed: bool, moved: &io::Result<usize>) -> bool
    ensures { NotesFailure has_failed moved.now result }
{
    match moved {
        Ok(_) => has_failed,
        Err(error) => has_failed || !is_wait(error),
    }
}
