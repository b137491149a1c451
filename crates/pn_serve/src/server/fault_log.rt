//! Why streams were not served to their end, and the log of their faults.

use crate::server::publishers::{NextPublisher, Origin, PublisherEnd, Sending};
use pn_join::{Name, StreamName};
use pn_line::Source;
use std::alloc::{AllocError, Global};
use std::mem;
use std::sync::{Arc, Mutex, Wait};
use thiserror::Error;

/// Why streams were not served to their end.
#[derive(Debug, Drop, Error)]
pub enum ServeFault {
    /// The live region was not opened, or a thread was refused. Sessions that had started were served.
    #[error("cannot start")]
    Start,
    /// The stream of this name has a fault, or was not taken to its end. The sessions were served.
    #[error("stream {name} failed", name = .0.as_str())]
    Stream(Name),
    /// A round was refused. The sessions were served.
    #[error("round failed")]
    Round,
    /// Out of memory while closing the live region. The sessions were served.
    #[error("close failed")]
    Close,
    /// The writer failed or took no byte.
    #[error("write")]
    Write,
}

/// A stream that failed, and how its input ended.
#[derive(Clone, Copy, Debug)]
pub struct StreamFailure {
    pub name: StreamName,
    pub end: PublisherEnd,
}

/// Collects the faults of streams, which are printed when the program ends.
#[derive(Drop)]
pub struct FaultLog {
    alloc: Global,
    failures: Mutex<Vec<StreamFailure>>,
}

impl FaultLog {
    /// A log with the memory for one fault of each of this many streams.
    pub fn new(alloc: Global, streams: usize) -> Result<FaultLog, AllocError> {
        Ok(FaultLog {
            alloc,
            failures: Mutex::new(Vec::with_capacity(alloc, streams)?),
        })
    }

    /// The faults that were noted since the last call, in the order of their times.
    pub fn take<R: Wait>(&self, rt: &R) -> Vec<StreamFailure> {
        mem::replace(&mut *self.failures.lock(rt), Vec::new(self.alloc))
    }

    // Notes a fault. One that finds no memory is left out.
    fn note<R: Wait>(&self, rt: &R, failure: StreamFailure) {
        let _ = self.failures.lock(rt).push(failure);
    }
}

/// The origin of a stream whose one publisher is being read. Its fault is noted where somebody asks for faults.
#[derive(Drop)]
pub(crate) struct OnePublisher<R: Wait + Copy> {
    pub(crate) rt: R,
    pub(crate) name: StreamName,
    pub(crate) faults: Option<Arc<FaultLog>>,
}

impl<R: Wait + Copy, S: Source + Drop, M: Sending> Origin<S, M> for OnePublisher<R> {
    ghost may_go_on = { ⊥ };

    ghost begins_after = { λ _ _. ⊥ };

    fn next_publisher(&mut self, _name: &StreamName, _last: u64) -> Option<NextPublisher<S>> {
        None
    }

    fn note_handed(&mut self, _last: u64) {}

    fn end_publisher(&mut self, _source: S, end: &PublisherEnd, _last: u64) {
        if let (PublisherEnd::Fault { .. }, Some(log)) = (end, &self.faults) {
            log.note(
                &self.rt,
                StreamFailure {
                    name: self.name,
                    end: *end,
                },
            );
        }
    }

    fn stop_publisher(&mut self, _source: S) {}
}
