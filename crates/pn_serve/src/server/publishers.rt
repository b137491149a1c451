//! The publishers of streams, where they are read, and what they may send.

use crate::server::shown_mark::ShownMark;
use pn_join::StreamName;
use pn_line::Source;
use pn_stream::ResumeFault;
use std::sync::Arc;

/// What the publishers of streams may send, where that is known.
pub trait Sending {
    ghost use Rattle.std.specs.Prelude.{ℕ, List};

    // What the sources of publishers have left is known, as that of bytes in memory.
    ghost known: { Type 0 };

    // A publisher of the stream of this name may send this text.
    ghost sends: { List ℕ → List ℕ → Type 0 };
}

/// Publishers of which nothing is known, such as those that come by a socket.
#[derive(Drop)]
pub struct AnyPublishers;

impl Sending for AnyPublishers {
    ghost known = { ⊥ };

    ghost sends = { λ _ _. ⊥ };
}

/// Where a stream is read.
#[derive(Debug, Drop)]
pub enum StreamPath {
    /// From the file of a path.
    File(String),
    /// With `--stay`, on a Unix socket that is listened on, of a path of 1 to 107 bytes.
    Listen(String),
}

/// How a publisher's input ended.
#[derive(Clone, Copy, Debug, PartialEq, Eq)]
pub enum PublisherEnd {
    /// No whole line is left of it.
    End,
    /// Its line of this number, from 1, is not the message that was due: the one at the position, or for the first
    /// line of a publisher one before it.
    Fault {
        fault: ResumeFault,
        position: u64,
        line: u64,
    },
}

/// A publisher of a stream: what it is read from, and the position after which it begins. The region has all messages up to there,
/// or they were handed to rounds.
#[derive(Drop)]
pub struct NextPublisher<S: Drop> {
    pub source: S,
    pub after: u64,
}

/// Where the publishers of a stream come from, of whose texts this is known.
pub trait Origin<S: Source + Drop, M: Sending> {
    ghost use Rattle.std.specs.Prelude.{ℕ, ◌≤◌, IfSome, IsSome};
    ghost use Rattle.pn_serve.specs.Server.Publishers.{MaySend};

    // False for a stream that has no further publisher.
    ghost may_go_on: { Type 0 };

    // The publisher that is read from this begins after this position.
    ghost begins_after: { S → ℕ → Type 0 };

    /// Waits for the next publisher of the stream of this name, of which all messages up to `last` were handed to rounds. None
    /// where the stream has ended. It is called for the first publisher, too.
    fn next_publisher(&mut self, name: &StreamName, last: u64) -> Option<NextPublisher<S>>
        ensures goes_on { IsSome result → may_go_on }
        ensures begins { IfSome result (λ next. begins_after next.source next.after) }
        ensures sent { IfSome result (λ next. M.known → MaySend M.sends name.now (S.left next.source)) }
        ensures later { IfSome result (λ next. last ≤ next.after) };

    /// Notes that all messages up to `last` were handed to rounds.
    fn note_handed(&mut self, last: u64);

    /// Notes how a publisher's input ended, and takes back what it was read from.
    fn end_publisher(&mut self, source: S, end: &PublisherEnd, last: u64);

    /// Takes back what a publisher was read from before its end: no round takes anything more of the stream.
    fn stop_publisher(&mut self, source: S);
}

/// A stream that is read from one publisher after another.
#[derive(Drop)]
pub struct Stream<O: Drop> {
    pub name: StreamName,
    pub origin: O,
    /// Set to the region's mark of the stream, at first and after each round.
    pub taken: Option<Arc<ShownMark>>,
}
