//! What a stream's thread notes of it: messages for standard error, and its status.

use crate::counters::InputCounters;
use crate::messages::Messages;
use crate::reasons::{describe_error, describe_fault, format_failure};
use crate::streams::publisher::StreamPositions;
use crate::streams::status::StreamStatus;
use pn_join::Name;
use pn_protocol::{StreamFaultStats, StreamState};
use pn_serve::PublisherEnd;
use pn_stream::ResumeFault;
use std::alloc::{AllocError, Global};
use std::io;
use std::sync::{Arc, Wait};
use std::time::Clock;

/// That a stream is shown as open. Nobody can drop it: an end of the publisher takes it.
pub(crate) struct OpenStream(());

/// The name of a stream, and where messages about it go.
#[derive(Drop)]
pub(crate) struct StreamMessenger {
    pub(crate) alloc: Global,
    pub(crate) name: Name,
    pub(crate) messages: Arc<Messages>,
}

impl StreamMessenger {
    /// Another handle of the same messages.
    pub(crate) fn try_clone(&self) -> Result<StreamMessenger, AllocError> {
        let messages = Arc::try_clone(&self.messages)?;
        Ok(StreamMessenger {
            alloc: self.alloc,
            name: self.name,
            messages,
        })
    }

    // The message of how the stream is, as `stream east ended`.
    fn format(&self, how: &str) -> Result<String, AllocError> {
        format!(in self.alloc; "stream {} {how}", self.name.as_str())
    }

    /// Leaves a message of a publisher that is not taken, as `stream east refused a writer: {"error":..}`.
    fn leave_refused<R: Wait>(&self, rt: &R, line: &[u8]) {
        if let Ok(line) = str::from_utf8(line) {
            let reason = line.trim_end();
            let name = self.name.as_str();
            let text = format!(in self.alloc; "stream {name} refused a writer: {reason}");
            self.messages.leave(rt, text);
        }
    }

    /// Leaves a message of what became of a path, as `stream east listens again at ./east`.
    pub(crate) fn leave_path<R: Wait>(&self, rt: &R, how: &str, path: &str) {
        let text = format!(in self.alloc; "stream {} {how} {path}", self.name.as_str());
        self.messages.leave(rt, text);
    }

    /// Leaves a message of what the system refuses for now, as `cannot open east: ./east: Permission denied`.
    pub(crate) fn leave_error<R: Wait>(&self, rt: &R, verb: &str, path: &str, error: &io::Error) {
        let text = self.format_error(verb, path, error);
        self.messages.leave(rt, text);
    }

    fn format_error(
        &self,
        verb: &str,
        path: &str,
        error: &io::Error,
    ) -> Result<String, AllocError> {
        let reason = describe_error(self.alloc, error)?;
        format!(in self.alloc; "cannot {verb} {}: {path}: {reason}", self.name.as_str())
    }
}

/// Where messages about a stream, its counts and its status go.
#[derive(Drop)]
pub(crate) struct StreamNotes<R> {
    pub(crate) rt: R,
    pub(crate) messenger: StreamMessenger,
    /// The counters of what is read, and the status of the stream, if somebody looks at them.
    pub(crate) counters: Option<Arc<InputCounters>>,
    pub(crate) status: Option<Arc<StreamStatus>>,
    pub(crate) positions: StreamPositions,
}

impl<R: Wait + Clock + Drop> StreamNotes<R> {
    /// Notes that messages up to this position were handed to rounds.
    pub(crate) fn note_handed(&self, last: u64) {
        self.positions.handed.set(last);
        if let Some(status) = &self.status {
            status.note_message(&self.rt);
        }
    }
}

impl<R: Wait + Drop> StreamNotes<R> {
    // Notes whether a publisher is there, if somebody looks at that.
    fn set_state(&self, state: StreamState) {
        if let Some(status) = &self.status {
            status.set_state(&self.rt, state);
        }
    }

    /// Notes that a publisher has come.
    pub(crate) fn open(&self) -> OpenStream {
        self.set_state(StreamState::Open);
        OpenStream(())
    }

    /// The stream is open until `reopen`, while its publisher is read elsewhere.
    pub(crate) fn keep_open(&self, open: OpenStream) {
        let OpenStream(_) = open;
    }

    /// Takes up again that the stream is open, now that its publisher is read no more.
    pub(crate) fn reopen(&self) -> OpenStream {
        OpenStream(())
    }

    /// Notes that a publisher has gone, about which nothing is printed.
    pub(crate) fn end(&self, open: OpenStream) {
        let OpenStream(_) = open;
        self.set_state(StreamState::Ended);
    }

    /// Notes how a publisher's input ended. Answers the message that tells it.
    pub(crate) fn note_end(
        &self,
        open: OpenStream,
        end: &PublisherEnd,
    ) -> Result<String, AllocError> {
        match end {
            PublisherEnd::End => {
                self.end(open);
                self.messenger.format("ended")
            }
            PublisherEnd::Fault {
                fault,
                position,
                line,
            } => {
                let OpenStream(_) = open;
                self.note_fault(fault, *line);
                let StreamMessenger { alloc, name, .. } = &self.messenger;
                format_failure(*alloc, name, fault, *position, *line)
            }
        }
    }

    // Notes a fault, if somebody looks at that. Its reason is empty where there is no memory for it.
    fn note_fault(&self, fault: &ResumeFault, line: u64) {
        if let Some(status) = &self.status {
            let alloc = self.messenger.alloc;
            let reason = describe_fault(alloc, fault).unwrap_or(String::new(alloc));
            status.note_fault(&self.rt, StreamFaultStats { line, reason });
        }
    }

    /// Notes whose stream it is, if somebody looks at that.
    pub(crate) fn note_stream(&self, stream: &str) -> Result<(), AllocError> {
        if let Some(status) = &self.status {
            let stream = String::from_str(self.messenger.alloc, stream)?;
            status.note_stream(&self.rt, stream);
        }
        Ok(())
    }

    /// Leaves a message that a publisher is refused, whose line says why.
    pub(crate) fn leave_refused(&self, line: &[u8]) {
        self.messenger.leave_refused(&self.rt, line);
    }

    /// Leaves a message that another publisher has begun.
    pub(crate) fn begin_again(&self) {
        self.leave(self.messenger.format("begins again"));
    }

    /// Leaves a message.
    pub(crate) fn leave(&self, message: Result<String, AllocError>) {
        self.messenger.messages.leave(&self.rt, message);
    }

    /// Leaves a message of what became of a path.
    pub(crate) fn leave_path(&self, how: &str, path: &str) {
        self.messenger.leave_path(&self.rt, how, path);
    }

    /// Leaves a message of what the system refuses for now.
    pub(crate) fn leave_error(&self, verb: &str, path: &str, error: &io::Error) {
        self.messenger.leave_error(&self.rt, verb, path, error);
    }
}
