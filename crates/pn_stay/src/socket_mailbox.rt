//! The mailbox of a session thread: sockets that were accepted for it.

ghost use Rattle.std.specs.Prelude.{◌≡◌, ◌+◌, false, true, OnErr, OnOk, vec_len};

use crate::descriptors::{ConnectionLimit, Place};
use crate::socket::Socket;
use mio::Waker;
use std::alloc::Global;
use std::sync::{Arc, Mutex, Wait};
use std::{io, mem};

/// Sockets that wait for a session thread, and its waker.
#[derive(Drop)]
pub(crate) struct SocketMailbox {
    alloc: Global,
    state: Mutex<MailboxState>,
    waker: Waker,
    limit: Arc<ConnectionLimit>,
}

#[derive(Drop)]
struct MailboxState {
    sockets: Vec<Socket>,
    is_quarter_over: bool,
    // Whether the thread is to end once the lines that have come are answered.
    is_stopping: bool,
    // Whether the thread is to answer nothing more.
    is_cut: bool,
    is_closed: bool,
    // Whether the thread answers nothing more.
    is_silent: bool,
    // Whether the thread has ended.
    has_ended: bool,
}

/// Shows that a mailbox was closed.
#[derive(Drop)]
pub(crate) struct Closed(());

/// Why a mailbox has no socket, with the place of its connection; or, with none, why its thread was not woken.
pub(crate) struct Refusal {
    pub(crate) error: io::Error,
    pub(crate) place: Option<Place>,
}

impl MailboxState {
    fn put(&mut self, socket: Socket) -> io::Result<()>
        ensures put { OnOk result (vec_len self.new.sockets ≡ vec_len self.old.sockets + 1) }
        ensures refused { OnErr result (vec_len self.new.sockets ≡ vec_len self.old.sockets) }
    {
        if self.is_closed {
            return Err(io::Error::from(io::ErrorKind::NotConnected));
        }
        self.sockets.push(socket)?;
        Ok(())
    }

    // Whether a quarter of a second is over since the last call.
    fn take_quarter(&mut self) -> bool
        ensures over { result ≡ self.old.is_quarter_over }
        ensures taken { self.new.is_quarter_over ≡ false }
    {
        mem::replace(&mut self.is_quarter_over, false)
    }

    // From now on it takes no socket.
    fn stop(&mut self)
        ensures closed { self.new.is_closed ≡ true }
        ensures cut { self.new.is_cut ≡ self.old.is_cut }
    {
        self.is_stopping = true;
        let _ = self.close();
    }

    // As `stop`, but the thread is to answer nothing more.
    fn cut(&mut self)
        ensures closed { self.new.is_closed ≡ true }
        ensures cut { self.new.is_cut ≡ true }
    {
        self.is_cut = true;
        self.stop();
    }

    // The thread has ended, and it takes no socket.
    fn end(&mut self) -> Closed
        ensures closed { self.new.is_closed ≡ true }
        ensures silent { self.new.is_silent ≡ true }
    {
        self.has_ended = true;
        self.is_silent = true;
        self.close()
    }

    fn close(&mut self) -> Closed
        ensures { self.new ≡ record self.old { is_closed = true } }
    {
        self.is_closed = true;
        Closed(())
    }
}

impl SocketMailbox {
    /// An empty mailbox.
    pub(crate) fn new(alloc: Global, waker: Waker, limit: Arc<ConnectionLimit>) -> SocketMailbox {
        SocketMailbox {
            alloc,
            state: Mutex::new(MailboxState {
                sockets: Vec::new(alloc),
                is_quarter_over: false,
                is_stopping: false,
                is_cut: false,
                is_closed: false,
                is_silent: false,
                has_ended: false,
            }),
            waker,
            limit,
        }
    }

    /// Puts a socket in with the place of its connection, and wakes the thread. A socket that it refuses is dropped.
    pub(crate) fn put<R: Wait>(&self, rt: &R, socket: Socket, place: Place) -> Result<(), Refusal> {
        let put = self.state.lock(rt).put(socket);
        if let Err(error) = put {
            let place = Some(place);
            return Err(Refusal { error, place });
        }
        place.hand_over();
        match self.waker.wake() {
            Ok(()) => Ok(()),
            Err(error) => Err(Refusal { error, place: None }),
        }
    }

    /// Takes all sockets.
    pub(crate) fn take<R: Wait>(&self, rt: &R) -> Vec<Socket> {
        mem::replace(&mut self.state.lock(rt).sockets, Vec::new(self.alloc))
    }

    /// Says that a quarter of a second is over, and wakes the thread.
    pub(crate) fn wake_for_quarter<R: Wait>(&self, rt: &R) -> io::Result<()> {
        self.state.lock(rt).is_quarter_over = true;
        self.waker.wake()
    }

    /// Says that the thread is to end once the lines that have come are answered, and wakes it.
    pub(crate) fn wake_to_stop<R: Wait>(&self, rt: &R) -> io::Result<()> {
        self.state.lock(rt).stop();
        self.waker.wake()
    }

    /// Says that the thread is to answer nothing more, and wakes it.
    pub(crate) fn wake_to_cut<R: Wait>(&self, rt: &R) -> io::Result<()> {
        self.state.lock(rt).cut();
        self.waker.wake()
    }

    /// Whether the thread is to answer nothing more.
    pub(crate) fn is_cut<R: Wait>(&self, rt: &R) -> bool {
        self.state.lock(rt).is_cut
    }

    /// The thread answers nothing more.
    pub(crate) fn note_silence<R: Wait>(&self, rt: &R) {
        self.state.lock(rt).is_silent = true;
    }

    /// Whether the thread answers nothing more.
    pub(crate) fn is_silent<R: Wait>(&self, rt: &R) -> bool {
        self.state.lock(rt).is_silent
    }

    /// Whether the thread is to end.
    pub(crate) fn is_stopping<R: Wait>(&self, rt: &R) -> bool {
        self.state.lock(rt).is_stopping
    }

    /// Whether the thread has ended.
    pub(crate) fn has_ended<R: Wait>(&self, rt: &R) -> bool {
        self.state.lock(rt).has_ended
    }

    /// Whether a quarter of a second is over since the last call.
    pub(crate) fn take_quarter<R: Wait>(&self, rt: &R) -> bool {
        self.state.lock(rt).take_quarter()
    }

    /// The thread has ended: from now on it takes no socket. Those that it did not take are closed.
    pub(crate) fn close<R: Wait>(&self, rt: &R) -> Closed {
        let closed = self.state.lock(rt).end();
        for socket in self.take(rt) {
            drop(socket);
            self.release(rt);
        }
        closed
    }

    /// Whether it takes no socket any more, and all were taken from it.
    pub(crate) fn is_over<R: Wait>(&self, rt: &R) -> bool {
        let state = self.state.lock(rt);
        state.is_closed && state.sockets.is_empty()
    }

    /// A connection has ended.
    pub(crate) fn release<R: Wait>(&self, rt: &R) {
        self.limit.release_ended(rt);
    }
}

/// Whether the threads of all mailboxes have ended.
pub(crate) fn have_ended<R: Wait>(rt: &R, mailboxes: &[Arc<SocketMailbox>]) -> bool {
    for mailbox in mailboxes.iter() {
        if !mailbox.has_ended(rt) {
            return false;
        }
    }
    true
}

/// Whether the threads of all mailboxes answer nothing more.
pub(crate) fn are_silent<R: Wait>(rt: &R, mailboxes: &[Arc<SocketMailbox>]) -> bool {
    for mailbox in mailboxes.iter() {
        if !mailbox.is_silent(rt) {
            return false;
        }
    }
    true
}
