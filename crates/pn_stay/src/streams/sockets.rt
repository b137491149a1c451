//! Streams from a socket: one publisher after another.

ghost use Rattle.std.specs.Prelude.{◌≡◌, ◌≤◌, true, IfOk, IfSome};
ghost use Rattle.pn_stay.specs.Remarks.{GoesOn};

use crate::seldom::Seldom;
use crate::streams::input::{
    SOCKET_READ_SIZE, SocketInput, StreamInput, StreamSource, open_source,
};
use crate::streams::listener::StreamListener;
use crate::streams::message_input::MessageInput;
use crate::streams::notes::{OpenStream, StreamNotes};
use crate::streams::origin::{Admitted, BrokerListener, StreamIdentity};
use crate::streams::publisher::PublisherSocket;
use crate::streams::remarks::format_other_stream;
use crate::streams::turns::Turns;
use pn_line::Source;
use pn_serve::{NextPublisher, PublisherEnd, share};
use std::fs::{File, Files};
use std::net::Net;
use std::os::unix::net::UnixStream;
use std::sync::{Arc, Wait};
use std::time::{Clock, Duration};
use std::{io, thread};

/// For how many milliseconds nobody is accepted after the system refused a socket, as where no descriptor is left.
const RETRY: u64 = 100;

// A publisher that was accepted, and the position after which it begins.
#[derive(Drop)]
struct Accepted<R: Drop> {
    input: SocketInput<R>,
    after: u64,
}

/// The publishers of a socket.
#[derive(Drop)]
pub(crate) struct SocketPublishers {
    listener: Arc<StreamListener>,
    path: String,
    pub(crate) turns: Turns,
    identity: StreamIdentity,
    // When the system refused a socket, and when a publisher of another stream came.
    refusals: Seldom,
    others: Seldom,
}

impl SocketPublishers {
    /// The publishers that come to the socket at a path.
    pub(crate) fn new(listener: Arc<StreamListener>, path: String) -> SocketPublishers {
        SocketPublishers {
            listener,
            path,
            turns: Turns::new(),
            identity: StreamIdentity::new(),
            refusals: Seldom::new(),
            others: Seldom::new(),
        }
    }

    /// Waits for the next publisher that writes anything. It is sent the position after which it begins: the greater of `last`
    /// and the region's mark.
    pub(crate) fn next_publisher<R>(
        &mut self,
        notes: &StreamNotes<R>,
        last: u64,
    ) -> (NextPublisher<StreamSource<R>>, OpenStream)
    where
        R: Files<File = File> + Net + Wait + Clock + Copy + Drop,
        ensures { last ≤ result.0.after }
    {
        for _ in notes.rt.forever() {
            self.listener.look(&notes.rt);
            match self.accept(notes, last) {
                Ok(Some(accepted)) => {
                    let open = notes.open();
                    if let Some(next) = self.greet(notes, accepted) {
                        return (next, open);
                    }
                    notes.end(open);
                }
                Ok(None) => self.turns.look(notes),
                Err(error) => self.note_refusal(notes, &error),
            }
        }
        unreachable!()
    }

    // Waits for what a publisher says first, and for its first bytes. None where it goes, or is refused.
    fn greet<R>(
        &mut self,
        notes: &StreamNotes<R>,
        accepted: Accepted<R>,
    ) -> Option<NextPublisher<StreamSource<R>>>
    where
        R: Files<File = File> + Net + Wait + Clock + Copy + Drop,
        ensures { IfSome result (λ next. next.after ≡ accepted.after) }
    {
        let Accepted { input, after } = accepted;
        let mut input = input;
        let said = input.take_stream().ok()?;
        match self.identity.admit(said) {
            Ok(admitted) => {
                self.note_identity(notes);
                let source = self.open(notes, input, admitted)?;
                Some(NextPublisher { source, after })
            }
            Err(got) => {
                self.refuse(notes, &mut input, got.as_str());
                None
            }
        }
    }

    // What an admitted publisher is read from, once it writes anything.
    fn open<R>(
        &mut self,
        notes: &StreamNotes<R>,
        input: SocketInput<R>,
        _admitted: Admitted,
    ) -> Option<StreamSource<R>>
    where
        R: Files<File = File> + Net + Wait + Clock + Copy + Drop,
    {
        let input = StreamInput::Socket(input);
        match open_source(
            notes.messenger.alloc,
            input,
            SOCKET_READ_SIZE,
            &notes.counters,
        ) {
            Ok(source) => {
                let mut source = source;
                if !source.has_more().unwrap_or(false) {
                    return None;
                }
                self.turns.begin(notes);
                Some(source)
            }
            Err(error) => {
                self.note_refusal(notes, &error);
                None
            }
        }
    }

    // Notes whose stream it is.
    fn note_identity<R: Wait + Drop>(&self, notes: &StreamNotes<R>) {
        if let Some(stream) = &self.identity.kept {
            let _ = notes.note_stream(stream.as_str());
        }
    }

    // Sends a publisher of another stream which one the region has. Standard error has it once a minute at most.
    fn refuse<R>(&mut self, notes: &StreamNotes<R>, input: &mut SocketInput<R>, got: &str)
    where
        R: Files<File = File> + Net + Wait + Clock + Copy + Drop,
    {
        let has = match &self.identity.kept {
            Some(has) => has.as_str(),
            None => "",
        };
        if let Ok(line) = format_other_stream(notes.messenger.alloc, has, got) {
            input.input_mut().send_last(&line);
            if self.others.is_due(&notes.rt) {
                notes.leave_refused(&line);
            }
        }
    }

    // Waits for a publisher, but not for long.
    fn accept<R>(&self, notes: &StreamNotes<R>, last: u64) -> io::Result<Option<Accepted<R>>>
    where
        R: Files<File = File> + Net + Wait + Clock + Copy + Drop,
        ensures goes_on { IfOk result (λ accepted. IfSome accepted (λ accepted. GoesOn last accepted.after)) }
        ensures later { IfOk result (λ accepted. IfSome accepted (λ accepted. last ≤ accepted.after)) }
    {
        match self.listener.accept(&notes.rt)? {
            Some(stream) => Ok(Some(self.begin(notes, stream, last)?)),
            None => Ok(None),
        }
    }

    fn begin<R>(
        &self,
        notes: &StreamNotes<R>,
        stream: UnixStream,
        last: u64,
    ) -> io::Result<Accepted<R>>
    where
        R: Files<File = File> + Net + Wait + Clock + Copy + Drop,
        ensures goes_on { IfOk result (λ accepted. GoesOn last accepted.after) }
        ensures later { IfOk result (λ accepted. last ≤ accepted.after) }
    {
        let status = share(&notes.status)?;
        let positions = notes.positions.try_clone()?;
        let listener = Arc::try_clone(&self.listener)?;
        let alloc = notes.messenger.alloc;
        let begun = PublisherSocket::begin(notes.rt, alloc, stream, positions, last, listener)?;
        let (socket, after) = begun;
        let broker = BrokerListener::new(notes.rt, status);
        let input = MessageInput::new(alloc, socket, broker)?;
        Ok(Accepted { input, after })
    }

    fn note_refusal<R>(&mut self, notes: &StreamNotes<R>, error: &io::Error)
    where
        R: Wait + Clock + Drop,
    {
        if self.refusals.is_due(&notes.rt) {
            notes.leave_error("accept", self.path.as_str(), error);
        }
        thread::sleep(&notes.rt, Duration::from_millis(RETRY));
    }
}

/// Sends a publisher how its input ended, and closes its socket. What was handed to rounds is waited for, but not for long.
pub(crate) fn end_socket<R>(source: StreamSource<R>, end: &PublisherEnd)
where
    R: Files<File = File> + Net + Wait + Clock + Drop,
{
    if let Some(socket) = socket_of(source) {
        let mut socket = socket;
        socket.await_taken();
        socket.send_taken();
        if let PublisherEnd::Fault {
            fault,
            position,
            ..
        } = end
        {
            socket.send_fault(fault, *position);
        }
    }
}

/// Sends a publisher what was taken of its input, which is read no more, and closes its socket.
pub(crate) fn stop_socket<R>(source: StreamSource<R>)
where
    R: Files<File = File> + Net + Wait + Clock + Drop,
{
    if let Some(socket) = socket_of(source) {
        let mut socket = socket;
        socket.send_taken();
    }
}

// The socket of a publisher that is read from one.
fn socket_of<R>(source: StreamSource<R>) -> Option<PublisherSocket<R>>
where
    R: Files<File = File> + Net + Wait + Clock + Drop,
{
    let (reader, _) = source.into_parts();
    match reader.into_inner() {
        StreamInput::Socket(input) => Some(input.into_input()),
        StreamInput::File(_) => None,
    }
}
