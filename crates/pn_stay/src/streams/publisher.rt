//! The socket of a stream's publisher. While it is read, the publisher is sent the positions that rounds have taken.

ghost use Rattle.std.specs.Prelude.{◌≡◌, ◌≢◌, ◌*◌, ◌≤◌, ◌↔◌, ◌⊎◌, max, true, Ok, Err, IfOk, IsTrue, OnErr};
ghost use Rattle.pn_stay.specs.Remarks.{GoesOn};
ghost use Rattle.std.specs.Duration.{as_nanos};
ghost use Rattle.std.specs.IoError.{error_kind};

use crate::interrupts::is_interrupted;
use crate::reasons::{format_after, format_refusal, format_taken};
use crate::streams::listener::{LOOK, StreamListener};
use pn_serve::{Counter, ShownMark};
use pn_stream::ResumeFault;
use std::alloc::{AllocError, Global};
use std::fs::{File, Files};
use std::io::{ErrorKind, Read, Write};
use std::net::Net;
use std::os::unix::net::UnixStream;
use std::sync::{Arc, Wait};
use std::time::{Clock, Duration, Instant};
use std::{io, thread};

/// How many milliseconds lie at least between two lines that send a publisher a position.
const PAUSE: u64 = 100;

/// For how many milliseconds a write waits for a publisher that takes nothing.
const PATIENCE: u64 = 1;

/// How often it is looked at the end of a publisher whether rounds have taken what it wrote, and how many milliseconds apart.
const LAST_LOOKS: u32 = 100;

const LAST_PAUSE: u64 = 10;

/// The positions up to which a stream was handed to rounds and was taken by them, and the last one that its publisher was sent.
#[derive(Drop)]
pub(crate) struct StreamPositions {
    pub(crate) handed: Arc<Counter>,
    pub(crate) taken: Arc<ShownMark>,
    pub(crate) sent: Arc<Counter>,
}

impl StreamPositions {
    /// The positions of a stream of which nothing was handed to rounds.
    pub(crate) fn new(alloc: Global) -> Result<StreamPositions, AllocError> {
        let handed = Arc::new(alloc, Counter::new())?;
        let taken = Arc::new(alloc, ShownMark::new())?;
        let sent = Arc::new(alloc, Counter::new())?;
        Ok(StreamPositions {
            handed,
            taken,
            sent,
        })
    }

    /// Another handle of the same positions.
    pub(crate) fn try_clone(&self) -> Result<StreamPositions, AllocError> {
        let handed = Arc::try_clone(&self.handed)?;
        let taken = Arc::try_clone(&self.taken)?;
        let sent = Arc::try_clone(&self.sent)?;
        Ok(StreamPositions {
            handed,
            taken,
            sent,
        })
    }
}

/// The socket of a publisher.
#[derive(Drop)]
pub struct PublisherSocket<R> {
    rt: R,
    alloc: Global,
    stream: UnixStream,
    positions: StreamPositions,
    // When the publisher was sent a position last.
    sent_at: Option<Instant>,
    // Where further publishers come, and when that was looked at last.
    listener: Arc<StreamListener>,
    looked_at: Option<Instant>,
    // Whether a read ends after a tenth of a second.
    is_timed: bool,
    // Whether the publisher takes lines: none follows one of which it took a part.
    takes_lines: bool,
}

impl<R: Clock + Drop> PublisherSocket<R> {
    /// Sends a publisher the position after which the stream goes on: the greater of what was handed to rounds and the region's
    /// mark. Answers it too. Further publishers come to the listener.
    pub(crate) fn begin(
        rt: R,
        alloc: Global,
        stream: UnixStream,
        positions: StreamPositions,
        handed: u64,
        listener: Arc<StreamListener>,
    ) -> io::Result<(PublisherSocket<R>, u64)>
        ensures goes_on { IfOk result (λ begun. GoesOn handed begun.1) }
        ensures later { IfOk result (λ begun. handed ≤ begun.1) }
    {
        limit_waits(&stream)?;
        let taken = positions.taken.get();
        let after = position_after(handed, taken);
        positions.sent.set(after);
        let mut socket = PublisherSocket {
            rt,
            alloc,
            stream,
            positions,
            sent_at: None,
            listener,
            looked_at: None,
            is_timed: false,
            takes_lines: true,
        };
        let _ = socket.send(format_after(alloc, handed, taken));
        Ok((socket, after))
    }

    /// Sends the publisher the position that was taken, unless it was sent.
    pub(crate) fn send_taken(&mut self) {
        let taken = self.positions.taken.get();
        if taken > self.positions.sent.get() {
            self.sent_at = Instant::now(&self.rt).ok();
            if self.send(format_taken(self.alloc, taken)) {
                self.positions.sent.set(taken);
            }
        }
    }

    /// Sends the publisher why its input is no longer read.
    pub(crate) fn send_fault(&mut self, fault: &ResumeFault, position: u64) {
        let _ = self.send(format_refusal(self.alloc, fault, position));
    }

    /// Sends the publisher in a last line why it is not taken.
    pub(crate) fn send_last(&mut self, line: &[u8]) {
        let _ = self.send_line(line);
        self.takes_lines = false;
    }

    // Writes a line, if there is memory for it.
    fn send(&mut self, line: Result<String, AllocError>) -> bool {
        match line {
            Ok(line) => self.send_line(line.as_bytes()),
            Err(_) => false,
        }
    }

    // Writes a line, which is dropped where the publisher does not take it at once. Whether it was taken whole.
    fn send_line(&mut self, line: &[u8]) -> bool {
        if !self.takes_lines {
            return false;
        }
        match self.write_some(line) {
            Ok(count) => self.takes_lines = count == line.len(),
            Err(error) => {
                self.takes_lines = passes(&error);
                return false;
            }
        }
        self.takes_lines
    }

    // Writes what the publisher takes at once. Where a signal interrupts it, it is asked again.
    fn write_some(&self, bytes: &[u8]) -> io::Result<usize> {
        for _ in 0..u64::MAX {
            let count = (&self.stream).write(bytes);
            if !is_interrupted(&count) {
                return count;
            }
        }
        (&self.stream).write(bytes)
    }

    // Sends the position that was taken, ten times a second at most.
    fn send_in_time(&mut self) {
        if self.positions.taken.get() > self.positions.sent.get()
            && is_over(&self.rt, &self.sent_at, PAUSE)
        {
            self.send_taken();
        }
    }

    // Whether rounds have not taken all that was handed to them, or the publisher was not sent what they took.
    fn is_behind(&self) -> bool {
        let sent = self.positions.sent.get();
        sent < self.positions.handed.get() || sent < self.positions.taken.get()
    }

    // A read ends after a tenth of a second where there may be a position to send then, and else once it is time to look.
    fn set_timeout(&mut self) {
        let is_timed = self.takes_lines && self.is_behind();
        if is_timed == self.is_timed {
            return;
        }
        let most = Duration::from_millis(if is_timed { PAUSE } else { LOOK });
        if self.stream.set_read_timeout(Some(most)).is_ok() {
            self.is_timed = is_timed;
        }
    }
}

impl<R: Wait + Clock + Drop> PublisherSocket<R> {
    /// Waits until rounds have taken what was handed to them, for a second at most.
    pub(crate) fn await_taken(&self) {
        for _ in 0..LAST_LOOKS {
            if self.positions.handed.get() <= self.positions.taken.get() {
                return;
            }
            thread::sleep(&self.rt, Duration::from_millis(LAST_PAUSE));
        }
    }
}

impl<R: Files<File = File> + Net + Wait + Clock + Drop> PublisherSocket<R> {
    // Looks whether further publishers find the socket.
    fn look_in_time(&mut self) {
        if is_over(&self.rt, &self.looked_at, LOOK) {
            self.listener.look(&self.rt);
            self.looked_at = Instant::now(&self.rt).ok();
        }
    }
}

/// The position after which a publisher begins, where messages up to `handed` were handed to rounds and up to `taken` were taken.
pub(crate) fn position_after(handed: u64, taken: u64) -> u64
    ensures { result ≡ max handed taken }
{
    handed.max(taken)
}

// From now on the calls of a publisher's socket wait, but not for long.
fn limit_waits(stream: &UnixStream) -> io::Result<()> {
    stream.set_write_timeout(Some(Duration::from_millis(PATIENCE)))?;
    stream.set_read_timeout(Some(Duration::from_millis(LOOK)))
}

// Whether `pause` milliseconds are over since then.
fn is_over<R: Clock>(rt: &R, then: &Option<Instant>, pause: u64) -> bool {
    match then {
        Some(then) => has_passed(then.elapsed(rt), pause),
        None => true,
    }
}

// Whether `pause` milliseconds have passed. Where the clock fails, they have.
fn has_passed(elapsed: io::Result<Duration>, pause: u64) -> bool
    ensures sent { IfOk elapsed (λ elapsed. IsTrue result ↔ (pause * 1_000_000 ≤ as_nanos elapsed)) }
    ensures unknown { OnErr elapsed (result ≡ true) }
{
    match elapsed {
        Ok(elapsed) => elapsed >= Duration::from_millis(pause),
        Err(_) => true,
    }
}

impl<R: Files<File = File> + Net + Wait + Clock + Drop> Read for PublisherSocket<R> {
    fn read(&mut self, buf: &mut [u8]) -> io::Result<usize> {
        for _ in 0..u64::MAX {
            self.send_in_time();
            self.look_in_time();
            self.set_timeout();
            match (&self.stream).read(buf) {
                Ok(count) => return Ok(count),
                Err(error) if passes(&error) => {}
                Err(error) => return end_or_fault(error),
            }
        }
        Ok(0)
    }
}

// Whether an error says that the call is to be made again: it would have waited, or a signal interrupted it.
fn passes(error: &io::Error) -> bool
    ensures { IsTrue result ↔ ((error_kind error.now ≡ ErrorKind.WouldBlock) ⊎ (error_kind error.now ≡ ErrorKind.Interrupted)) }
{
    match error.kind() {
        ErrorKind::WouldBlock | ErrorKind::Interrupted => true,
        _ => false,
    }
}

// A publisher that went while lines for it were left is at its end.
fn end_or_fault(error: io::Error) -> io::Result<usize>
    ensures end { error_kind error ≡ ErrorKind.ConnectionReset → result ≡ Ok 0 }
    ensures fault { error_kind error ≢ ErrorKind.ConnectionReset → result ≡ Err error }
{
    match error.kind() {
        ErrorKind::ConnectionReset => Ok(0),
        _ => Err(error),
    }
}
