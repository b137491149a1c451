//! Where a stream comes from: its identity and its broker.

ghost use Rattle.std.specs.Prelude.{◌≡◌, None, Some, false, option_map, string_bytes, IfErr, IsTrue, OnOk, ◌≤◌};
ghost use Rattle.pn_stay.specs.Remarks.{is_taken, kept_after};

use crate::streams::fifo::FifoPublishers;
use crate::streams::input::StreamSource;
use crate::streams::message_input::NewestListener;
use crate::streams::notes::StreamNotes;
use crate::streams::publisher::{StreamPositions, position_after};
use crate::streams::sockets::{SocketPublishers, end_socket, stop_socket};
use crate::streams::status::StreamStatus;
use pn_join::StreamName;
use pn_serve::{AnyPublishers, NextPublisher, Origin, PublisherEnd};
use std::fs::{File, Files};
use std::net::Net;
use std::sync::{Arc, Wait};
use std::thread;
use std::time::{Clock, Duration};

/// That a publisher is taken. Only `admit` makes one.
#[derive(Drop)]
pub(crate) struct Admitted(());

/// Whose stream a region takes, if a publisher has said it.
#[derive(Drop)]
pub(crate) struct StreamIdentity {
    pub(crate) kept: Option<String>,
}

impl StreamIdentity {
    /// No publisher has said it.
    pub(crate) fn new() -> StreamIdentity
        ensures { result.kept ≡ None }
    {
        StreamIdentity { kept: None }
    }

    /// Takes a publisher that says this, if anything, or answers what it says where that is another stream.
    pub(crate) fn admit(&mut self, said: Option<String>) -> Result<Admitted, String>
        ensures kept { option_map string_bytes self.new.kept ≡ kept_after (option_map string_bytes self.old.kept) (option_map string_bytes said) }
        ensures ok { OnOk result (IsTrue (is_taken (option_map string_bytes self.old.kept) (option_map string_bytes said))) }
        ensures err { IfErr result (λ got. (said ≡ Some got) × (is_taken (option_map string_bytes self.old.kept) (option_map string_bytes said) ≡ false)) }
    {
        let Some(said) = said else {
            return Ok(Admitted(()));
        };
        match &self.kept {
            None => {
                self.kept = Some(said);
                Ok(Admitted(()))
            }
            Some(has) if has.as_str() == said.as_str() => Ok(Admitted(())),
            Some(_) => Err(said),
        }
    }
}

/// For how many milliseconds a line waits that memory ran out for.
const RETRY: u64 = 1_000;

/// The status of a stream, if somebody looks at it.
#[derive(Drop)]
pub struct BrokerListener<R: Drop> {
    rt: R,
    status: Option<Arc<StreamStatus>>,
}

impl<R: Drop> BrokerListener<R> {
    /// Leaves it in this status.
    pub(crate) fn new(rt: R, status: Option<Arc<StreamStatus>>) -> BrokerListener<R> {
        BrokerListener { rt, status }
    }
}

impl<R: Wait + Clock + Drop> NewestListener for BrokerListener<R> {
    fn hear_newest(&self, newest: u64) {
        if let Some(status) = &self.status {
            status.note_newest(&self.rt, newest);
        }
    }

    fn await_memory(&self) {
        thread::sleep(&self.rt, Duration::from_millis(RETRY));
    }
}

/// Where the publishers of a stream come from.
#[derive(Drop)]
pub struct StreamOrigin<R: Drop> {
    pub(crate) notes: StreamNotes<R>,
    pub(crate) publishers: Publishers<R>,
}

/// The publishers of a stream.
#[derive(Drop)]
pub(crate) enum Publishers<R: Drop> {
    /// A file, which is read once.
    File(Option<StreamSource<R>>),
    Fifo(FifoPublishers<R>),
    Socket(SocketPublishers),
}

impl<R> Origin<StreamSource<R>, AnyPublishers> for StreamOrigin<R>
where
    R: Files<File = File> + Net + Wait + Clock + Copy + Drop,
{
    ghost may_go_on = { Unit {0} };

    ghost begins_after = { λ _ _. Unit {0} };

    fn next_publisher(
        &mut self,
        _name: &StreamName,
        last: u64,
    ) -> Option<NextPublisher<StreamSource<R>>> {
        let (next, open) = match &mut self.publishers {
            Publishers::File(source) => {
                let source = source.take()?;
                (
                    begin_after(&self.notes.positions, last, source),
                    self.notes.open(),
                )
            }
            Publishers::Fifo(publishers) => {
                let (source, open) = publishers.next_publisher(&self.notes);
                (begin_after(&self.notes.positions, last, source), open)
            }
            Publishers::Socket(publishers) => publishers.next_publisher(&self.notes, last),
        };
        self.notes.keep_open(open);
        Some(next)
    }

    fn note_handed(&mut self, last: u64) {
        self.notes.note_handed(last);
    }

    fn end_publisher(&mut self, source: StreamSource<R>, end: &PublisherEnd, _last: u64) {
        let how = self.notes.note_end(self.notes.reopen(), end);
        match &mut self.publishers {
            Publishers::File(_) => self.notes.leave(how),
            Publishers::Fifo(publishers) => {
                publishers.turns.end(&self.notes, how);
                publishers.end_publisher(source, end);
            }
            Publishers::Socket(publishers) => {
                publishers.turns.end(&self.notes, how);
                end_socket(source, end);
            }
        }
    }

    fn stop_publisher(&mut self, source: StreamSource<R>) {
        stop_socket(source);
        self.notes.end(self.notes.reopen());
    }
}

// The publisher that is read from this, which begins now.
fn begin_after<S: Drop>(positions: &StreamPositions, last: u64, source: S) -> NextPublisher<S>
    ensures source { result.source ≡ source }
    ensures later { last ≤ result.after }
{
    let after = position_after(last, positions.taken.get());
    NextPublisher { source, after }
}
