//! Streams from a FIFO: its descriptor is kept, and read on once another publisher writes.

ghost use Rattle.std.specs.Prelude.{◌≡◌, ◌↔◌, Some, IsFalse};
ghost use Rattle.pn_serve.specs.declared.server.publishers.PublisherEnd.TheVariants.{End};

use crate::seldom::Seldom;
use crate::socket_file::FileIdentity;
use crate::streams::fifo_poll::{AtHand, FifoPoll, look_at, open_fifo};
use crate::streams::input::{
    FILE_READ_SIZE, StreamInput, StreamSource, drop_read, drop_some, open_source,
};
use crate::streams::notes::{OpenStream, StreamNotes};
use crate::streams::turns::Turns;
use pn_line::Source;
use pn_serve::PublisherEnd;
use std::fs::{File, Files};
use std::net::Net;
use std::os::fd::{AsRawFd, RawFd};
use std::sync::Wait;
use std::time::{Clock, Duration};
use std::{fs, io, thread};

/// How many milliseconds lie between two tries of what the system refused.
const RETRY: u64 = 500;

/// The publishers of a FIFO.
#[derive(Drop)]
pub(crate) struct FifoPublishers<R: Drop> {
    path: String,
    poll: FifoPoll,
    // What the last publisher was read from, and whether it wrote what is at fault.
    last: Option<StreamSource<R>>,
    is_faulty: bool,
    // The descriptor of the FIFO that is open, and which file it is.
    opened: Option<(RawFd, FileIdentity)>,
    pub(crate) turns: Turns,
    refusals: Seldom,
}

impl<R> FifoPublishers<R>
where
    R: Files<File = File> + Net + Wait + Clock + Copy + Drop,
{
    /// The publishers of the FIFO at a path, which is not opened so far.
    pub(crate) fn new(path: String, poll: FifoPoll) -> FifoPublishers<R> {
        FifoPublishers {
            path,
            poll,
            last: None,
            is_faulty: false,
            opened: None,
            turns: Turns::new(),
            refusals: Seldom::new(),
        }
    }

    /// Waits for the next publisher that writes anything.
    pub(crate) fn next_publisher(
        &mut self,
        notes: &StreamNotes<R>,
    ) -> (StreamSource<R>, OpenStream) {
        for _ in notes.rt.forever() {
            let source = match self.last.take() {
                Some(source) if self.is_faulty => drop_read(source),
                Some(source) => source,
                None => self.open(notes),
            };
            if let Some(source) = self.wait_for_next(notes, source) {
                self.turns.begin(notes);
                return (source, notes.open());
            }
        }
        unreachable!()
    }

    /// Keeps what a publisher was read from.
    pub(crate) fn end_publisher(&mut self, source: StreamSource<R>, end: &PublisherEnd)
        ensures faulty { IsFalse self.new.is_faulty ↔ (end.now ≡ End) }
        ensures kept { self.new.last ≡ Some source }
    {
        self.is_faulty = matches!(end, PublisherEnd::Fault { .. });
        self.last = Some(source);
    }

    // Opens the FIFO. It is tried again where the system refuses it.
    fn open(&mut self, notes: &StreamNotes<R>) -> StreamSource<R> {
        let is_again = self.opened.is_some();
        for _ in notes.rt.forever() {
            match self.try_open(notes) {
                Ok(source) => {
                    if is_again {
                        notes.leave_path("is opened again at", self.path.as_str());
                    }
                    return source;
                }
                Err(error) => {
                    self.leave_refusal(notes, "open", &error);
                    thread::sleep(&notes.rt, Duration::from_millis(RETRY));
                }
            }
        }
        unreachable!()
    }

    fn try_open(&mut self, notes: &StreamNotes<R>) -> io::Result<StreamSource<R>> {
        let file = open_fifo(&notes.rt, self.path.as_str(), &self.poll)?;
        let identity = FileIdentity::of(&file.metadata()?);
        self.opened = Some((file.as_raw_fd(), identity));
        let input = StreamInput::File(file);
        open_source(
            notes.messenger.alloc,
            input,
            FILE_READ_SIZE,
            &notes.counters,
        )
    }

    // Waits until another publisher has written. What is left of one that wrote a fault is dropped. None: the path leads to another
    // FIFO, and the one that is open has no publisher.
    fn wait_for_next(
        &mut self,
        notes: &StreamNotes<R>,
        source: StreamSource<R>,
    ) -> Option<StreamSource<R>> {
        let mut source = source;
        for _ in notes.rt.forever() {
            match self.look() {
                AtHand::Bytes if self.is_faulty => {
                    let (rest, is_dropped) = drop_some(source);
                    source = rest;
                    if !is_dropped {
                        self.wait(notes);
                    }
                }
                AtHand::Bytes => {
                    if source.has_more().unwrap_or(false) {
                        return Some(source);
                    }
                    self.wait(notes);
                }
                AtHand::Publisher => {
                    if self.is_replaced(notes) {
                        self.leave_waiting(notes);
                    }
                    self.wait(notes);
                }
                AtHand::Nobody => {
                    self.is_faulty = false;
                    if self.is_replaced(notes) {
                        return None;
                    }
                    self.wait(notes);
                }
            }
        }
        unreachable!()
    }

    // What is at hand of the FIFO that is open.
    fn look(&self) -> AtHand {
        match self.opened {
            Some((number, _)) => look_at(number),
            None => AtHand::Nobody,
        }
    }

    // Whether the path leads to another FIFO than the one that is open. Where it leads to none, that is printed.
    fn is_replaced(&mut self, notes: &StreamNotes<R>) -> bool {
        let Some((_, identity)) = self.opened else {
            return true;
        };
        match fs::metadata(&notes.rt, self.path.as_str()) {
            Ok(found) => FileIdentity::of(&found) != identity,
            Err(error) => {
                self.leave_refusal(notes, "open", &error);
                false
            }
        }
    }

    // Waits until something happened at the FIFO, but not for long.
    fn wait(&mut self, notes: &StreamNotes<R>) {
        self.turns.look(notes);
        if let Err(error) = self.poll.wait() {
            self.leave_refusal(notes, "wait for", &error);
            thread::sleep(&notes.rt, Duration::from_millis(RETRY));
        }
    }

    // Leaves a message that a publisher of the FIFO that was at the path is waited for.
    fn leave_waiting(&mut self, notes: &StreamNotes<R>) {
        if self.refusals.is_due(&notes.rt) {
            notes.leave_path(
                "waits for a writer of the FIFO that was at",
                self.path.as_str(),
            );
        }
    }

    fn leave_refusal(&mut self, notes: &StreamNotes<R>, verb: &str, error: &io::Error) {
        if self.refusals.is_due(&notes.rt) {
            notes.leave_error(verb, self.path.as_str(), error);
        }
    }
}
