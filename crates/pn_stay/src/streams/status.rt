//! The status of a stream: its state, when its last message came, and its last fault.

ghost use Rattle.std.specs.Prelude.{◌≡◌, None, Some, option_map, string_bytes, IfOk};

use pn_protocol::{StreamFaultStats, StreamState};
use std::alloc::{AllocError, Global};
use std::sync::{Mutex, Wait};
use std::time::{Clock, Instant};

/// The status of a stream. The stream's thread notes it, and others read it at any time.
#[derive(Drop)]
pub struct StreamStatus {
    path: String,
    now: Mutex<StatusNow>,
}

// What was noted last.
#[derive(Drop)]
struct StatusNow {
    state: StreamState,
    // When the last message came.
    came: Option<Instant>,
    fault: Option<StreamFaultStats>,
    // Whose stream it is, if a publisher said so.
    stream: Option<String>,
    // The broker's newest position, as a publisher said it last, and when that was.
    newest: Option<u64>,
    heard: Option<Instant>,
}

/// The status of a stream at one moment.
#[derive(Drop)]
pub(crate) struct StatusThen {
    pub(crate) path: String,
    pub(crate) state: StreamState,
    pub(crate) came: Option<Instant>,
    pub(crate) fault: Option<StreamFaultStats>,
    pub(crate) stream: Option<String>,
    pub(crate) newest: Option<u64>,
    pub(crate) heard: Option<Instant>,
}

impl StreamStatus {
    /// The status of a stream whose publishers come to a path, before the first one.
    pub(crate) fn new(path: String) -> StreamStatus {
        StreamStatus {
            path,
            now: Mutex::new(StatusNow::new()),
        }
    }

    /// Notes that a publisher has come, or has gone.
    pub(crate) fn set_state<R: Wait>(&self, rt: &R, state: StreamState) {
        self.now.lock(rt).state = state;
    }

    /// Notes that a message has come.
    pub(crate) fn note_message<R: Wait + Clock>(&self, rt: &R) {
        let now = Instant::now(rt).ok();
        self.now.lock(rt).came = now;
    }

    /// Notes a publisher's fault.
    pub(crate) fn note_fault<R: Wait>(&self, rt: &R, fault: StreamFaultStats) {
        self.now.lock(rt).fail(fault);
    }

    /// Notes whose stream it is.
    pub(crate) fn note_stream<R: Wait>(&self, rt: &R, stream: String) {
        self.now.lock(rt).stream = Some(stream);
    }

    /// Notes the broker's newest position, which a publisher says now.
    pub(crate) fn note_newest<R: Wait + Clock>(&self, rt: &R, newest: u64) {
        let heard = Instant::now(rt).ok();
        let mut now = self.now.lock(rt);
        now.newest = Some(newest);
        now.heard = heard;
    }

    /// Whether a publisher is read.
    pub(crate) fn is_open<R: Wait>(&self, rt: &R) -> bool {
        self.now.lock(rt).state == StreamState::Open
    }

    /// What was noted so far.
    pub(crate) fn read<R: Wait>(&self, rt: &R, alloc: Global) -> Result<StatusThen, AllocError> {
        let path = String::from_str(alloc, self.path.as_str())?;
        let now = self.now.lock(rt);
        let fault = copy_last(alloc, &now.fault)?;
        let stream = copy_text(alloc, &now.stream)?;
        Ok(StatusThen {
            path,
            state: now.state,
            came: now.came,
            fault,
            stream,
            newest: now.newest,
            heard: now.heard,
        })
    }
}

impl StatusNow {
    // No publisher has come.
    fn new() -> StatusNow
        ensures state { result.state ≡ StreamState.Waiting }
        ensures came { result.came ≡ None }
        ensures fault { result.fault ≡ None }
        ensures stream { result.stream ≡ None }
        ensures newest { result.newest ≡ None }
        ensures heard { result.heard ≡ None }
    {
        StatusNow {
            state: StreamState::Waiting,
            came: None,
            fault: None,
            stream: None,
            newest: None,
            heard: None,
        }
    }

    // The publisher is no longer read.
    fn fail(&mut self, fault: StreamFaultStats)
        ensures state { self.new.state ≡ StreamState.Failed }
        ensures fault { self.new.fault ≡ Some fault }
        ensures came { self.new.came ≡ self.old.came }
        ensures stream { self.new.stream ≡ self.old.stream }
        ensures newest { self.new.newest ≡ self.old.newest }
        ensures heard { self.new.heard ≡ self.old.heard }
    {
        self.state = StreamState::Failed;
        self.fault = Some(fault);
    }
}

// A copy of a text, if there is one.
fn copy_text(alloc: Global, text: &Option<String>) -> Result<Option<String>, AllocError>
    ensures { IfOk result (λ copy. option_map string_bytes copy ≡ option_map string_bytes text.now) }
{
    match text {
        Some(text) => Ok(Some(String::from_str(alloc, text.as_str())?)),
        None => Ok(None),
    }
}

// A copy of the last fault, if there was one.
fn copy_last(
    alloc: Global,
    last: &Option<StreamFaultStats>,
) -> Result<Option<StreamFaultStats>, AllocError> {
    match last {
        Some(fault) => Ok(Some(copy_fault(alloc, fault)?)),
        None => Ok(None),
    }
}

fn copy_fault(alloc: Global, fault: &StreamFaultStats) -> Result<StreamFaultStats, AllocError>
    ensures line { IfOk result (λ copy. copy.line ≡ fault.now.line) }
    ensures reason { IfOk result (λ copy. string_bytes copy.reason ≡ string_bytes fault.now.reason) }
{
    let reason = String::from_str(alloc, fault.reason.as_str())?;
    Ok(StreamFaultStats {
        line: fault.line,
        reason,
    })
}
