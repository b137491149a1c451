//! What a server has done so far, counted for whoever looks at it meanwhile.

ghost use Rattle.std.specs.Prelude.{◌≡◌};

use crate::line_counters::KindCounters;
use crate::memory::MemoryMeter;
use crate::room::{has_room, is_past, room_beside};
use crate::streams::status::StreamStatus;
use pn_join::Name;
use pn_line::{LineBuffer, Piece, Source};
use pn_serve::{Counter, ShownMark, TimeCounters};
use std::alloc::{AllocError, Global};
use std::io;
use std::sync::Arc;

/// How many lines were read, and how many bytes.
#[derive(Drop)]
pub struct InputCounters {
    pub lines: Counter,
    pub bytes: Counter,
}

impl InputCounters {
    /// Counters that are zero.
    pub fn new() -> InputCounters {
        InputCounters {
            lines: Counter::new(),
            bytes: Counter::new(),
        }
    }

    // Counts a piece, which made a line longer from `before` to `after` bytes.
    fn add(&self, before: usize, after: usize, piece: Piece) {
        self.bytes.add(after.saturating_sub(before) as u64);
        if let Piece::Ended { .. } = piece {
            self.bytes.add(1);
            self.lines.add(1);
        }
    }
}

/// How much of a stream was read, and how it goes.
#[derive(Drop)]
pub struct StreamCounters {
    pub name: Name,
    pub input: Arc<InputCounters>,
    /// The position up to which rounds have taken the stream, where they note that.
    pub taken: Option<Arc<ShownMark>>,
    /// The position that its publisher was sent last, if its publishers are sent positions.
    pub sent: Option<Arc<Counter>>,
    /// The status of the stream, where it is noted.
    pub status: Option<Arc<StreamStatus>>,
    /// How many bytes the stream's file has, if it is one that ends.
    pub size: Option<u64>,
}

/// The connections of clients.
#[derive(Drop)]
pub struct ConnectionCounters {
    pub open: Counter,
    pub accepted: Counter,
    /// How many ended because their clients were idle.
    pub idle: Counter,
    /// How often the system refused a socket, or memory for one.
    pub refused: Counter,
}

impl ConnectionCounters {
    fn new() -> ConnectionCounters {
        ConnectionCounters {
            open: Counter::new(),
            accepted: Counter::new(),
            idle: Counter::new(),
            refused: Counter::new(),
        }
    }

    /// Counts a connection that was accepted.
    pub(crate) fn begin(&self) {
        self.open.add(1);
        self.accepted.add(1);
    }

    /// Counts the end of a connection.
    pub(crate) fn end(&self) {
        self.open.subtract(1);
    }
}

/// How many bytes of records the reply of a connection keeps, and how many its line waits for.
#[derive(Clone, Copy, Debug, PartialEq, Eq)]
pub(crate) struct Kept {
    pub(crate) bytes: u64,
    pub(crate) wanted: u64,
}

/// What is counted of replies that clients have not taken.
#[derive(Drop)]
pub struct UnreadCounters {
    /// How many bytes the records have that these replies keep.
    pub bytes: Counter,
    /// How many bytes of records lines wait for that were put off.
    pub(crate) wanted: Counter,
    /// How many clients were ended that took nothing.
    pub ended: Counter,
    /// How many bytes there may be before clients are ended that take nothing for a second.
    pub limit: u64,
}

impl UnreadCounters {
    fn new(limit: u64) -> UnreadCounters {
        UnreadCounters {
            bytes: Counter::new(),
            wanted: Counter::new(),
            ended: Counter::new(),
            limit,
        }
    }

    /// What a connection counts for has changed.
    pub(crate) fn replace(&self, before: Kept, after: Kept) {
        replace_in(&self.bytes, before.bytes, after.bytes);
        replace_in(&self.wanted, before.wanted, after.wanted);
    }

    /// Whether more bytes are kept and waited for than the limit allows.
    pub(crate) fn is_past(&self) -> bool {
        is_past(self.bytes.get(), self.wanted.get(), self.limit)
    }

    /// How much room there is for a reply of a connection that keeps `own` bytes.
    pub(crate) fn room_beside(&self, own: u64) -> u64 {
        let others = self.bytes.get().saturating_sub(own);
        room_beside(others, self.wanted.get(), self.limit)
    }

    /// Whether there is room for a line that waits for `bytes`.
    pub(crate) fn has_room(&self, bytes: u64) -> bool {
        has_room(bytes, self.bytes.get(), self.limit)
    }
}

// Most turns change nothing, and touch no counter.
fn replace_in(counter: &Counter, before: u64, after: u64) {
    if before != after {
        counter.add(after);
        counter.subtract(before);
    }
}

/// What a server counts.
#[derive(Drop)]
pub struct Counters {
    pub rounds: Arc<Counter>,
    /// 1 while a round waits for memory, otherwise 0.
    pub shortage: Arc<Counter>,
    /// How many streams wait for memory.
    pub waiting: Arc<Counter>,
    /// What was read from all clients, and how many of their lines were refused.
    pub clients: Arc<InputCounters>,
    pub refused: Counter,
    /// Their lines by what they ask for.
    pub(crate) kinds: KindCounters,
    /// How long these took, and how long rounds.
    pub line_times: TimeCounters,
    pub round_times: Arc<TimeCounters>,
    pub connections: ConnectionCounters,
    pub unread: UnreadCounters,
    pub streams: Vec<StreamCounters>,
    pub memory: MemoryMeter,
}

impl Counters {
    /// The counters of a server that has done nothing so far. Unread replies may keep `unread` bytes of records.
    pub fn new(
        alloc: Global,
        streams: Vec<StreamCounters>,
        memory: MemoryMeter,
        unread: u64,
    ) -> Result<Counters, AllocError> {
        let rounds = Arc::new(alloc, Counter::new())?;
        let round_times = Arc::new(alloc, TimeCounters::new(alloc)?)?;
        let shortage = Arc::new(alloc, Counter::new())?;
        let waiting = Arc::new(alloc, Counter::new())?;
        let clients = Arc::new(alloc, InputCounters::new())?;
        let line_times = TimeCounters::new(alloc)?;
        Ok(Counters {
            rounds,
            shortage,
            waiting,
            clients,
            refused: Counter::new(),
            kinds: KindCounters::new(),
            line_times,
            round_times,
            connections: ConnectionCounters::new(),
            unread: UnreadCounters::new(unread),
            streams,
            memory,
        })
    }
}

/// A source, and the counters of what is read from it, where somebody looks at them.
#[derive(Drop)]
pub struct CountingSource<S: Drop> {
    source: S,
    counters: Option<Arc<InputCounters>>,
}

impl<S: Source + Drop> CountingSource<S> {
    /// Counts what is read from a source from now on.
    pub fn new(source: S, counters: Option<Arc<InputCounters>>) -> CountingSource<S>
        ensures { S.left result.source ≡ S.left source }
    {
        CountingSource { source, counters }
    }

    /// The source, and its counters.
    pub fn into_parts(self) -> (S, Option<Arc<InputCounters>>)
        ensures { S.left result.0 ≡ S.left self.source }
    {
        (self.source, self.counters)
    }
}

impl<S: Source + Drop> Source for CountingSource<S> {
    ghost left = { λ counting. S.left counting.source };

    ghost may_fail = { S.may_fail };

    ghost may_end = { S.may_end };

    ghost polls = { λ counting. S.polls counting.source };

    fn take_some(&mut self, line: &mut LineBuffer) -> io::Result<Piece> {
        let before = line.len();
        let piece = self.source.take_some(line)?;
        if let Some(counters) = &self.counters {
            counters.add(before, line.len(), piece);
        }
        Ok(piece)
    }

    fn has_more(&mut self) -> io::Result<bool> {
        self.source.has_more()
    }
}
