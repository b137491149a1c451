//! A reader over bytes in memory, a reader that fails, and a writer that fails.

ghost use Rattle.std.specs.Prelude.{◌≡◌, Some, ◌≢◌, ◌-◌, ◌<◌, ◌≤◌, ◌↔◌, [], true, false, Ok, IfOk, IfSome, IsErr, OnOk, OnErr, length, max, min, take};
ghost use Rattle.std.specs.Io.KnownBytes.{Appends, Keeps};
ghost use Rattle.pn_line.specs.Line.{TakesPiece};

use crate::line_buffer::{ENDLESS, LineBuffer, Piece, take_piece};
use crate::sink::{Sink, WriteFault};
use crate::source::Source;
use std::alloc::Global;
use std::io;
use std::marker::Model;

/// The bytes in memory that are still to be read.
#[derive(Debug, Drop)]
pub struct InMemory<'a> {
    rest: &'a [u8],
}

impl<'a> Model for InMemory<'a> {
    ghost use Rattle.std.specs.Prelude.{ℕ, List};

    ghost Value = { List ℕ };

    ghost view = { λ source. source.rest.now };
}

impl<'a> InMemory<'a> {
    /// A source with all of these bytes left.
    pub fn new(bytes: &'a [u8]) -> InMemory<'a>
        ensures { result ≡ bytes.now }
    {
        InMemory { rest: bytes }
    }
}

impl Source for InMemory<'_> {
    ghost left = { λ source. Some source };

    ghost may_fail = { ⊥ };

    ghost may_end = { Unit {0} };

    ghost polls = { λ _. 0 };

    fn take_some(&mut self, line: &mut LineBuffer) -> io::Result<Piece> {
        let (count, piece) = take_piece(line, self.rest);
        self.rest = &self.rest[count..];
        Ok(piece)
    }

    fn has_more(&mut self) -> io::Result<bool> {
        Ok(!self.rest.is_empty())
    }
}

/// Calls that are counted down to the one that fails.
#[derive(Debug, Drop)]
struct Countdown {
    fails_at: usize,
}

impl Countdown {
    // Counts one call down. It fails where the count is 1.
    fn call(&mut self) -> io::Result<()>
        ensures fails { IsErr result ↔ (self.old.fails_at ≡ 1) }
        ensures counted { self.new.fails_at ≡ self.old.fails_at - 1 }
    {
        let fails = self.fails_at == 1;
        self.fails_at = self.fails_at.saturating_sub(1);
        if fails {
            return Err(io::Error::from(io::ErrorKind::TimedOut));
        }
        Ok(())
    }
}

/// Bytes in memory as a source of lines, of which one poll fails. Later polls succeed.
#[derive(Debug, Drop)]
pub struct FailingSource<'a> {
    bytes: InMemory<'a>,
    polls: Countdown,
}

impl<'a> Model for FailingSource<'a> {
    ghost use Rattle.pn_line.specs.Sent.{FailingSourceValue};

    ghost Value = { FailingSourceValue };

    ghost view = { λ source. record { left = source.bytes; fails_at = source.polls.fails_at } };
}

impl<'a> FailingSource<'a> {
    /// A source with all of these bytes left. Poll number `fails_at` fails, counted from 1; 0 means none.
    pub fn new(bytes: &'a [u8], fails_at: usize) -> FailingSource<'a>
        ensures left { result.left ≡ bytes.now }
        ensures fails_at { result.fails_at ≡ fails_at }
    {
        FailingSource {
            bytes: InMemory::new(bytes),
            polls: Countdown { fails_at },
        }
    }
}

impl Source for FailingSource<'_> {
    ghost left = { λ source. Some source.left };

    ghost may_fail = { Unit {0} };

    ghost may_end = { Unit {0} };

    ghost polls = { λ _. 0 };

    /// Fails at the chosen poll, and at no other.
    fn take_some(&mut self, line: &mut LineBuffer) -> io::Result<Piece>
        requires { line.old.count < ENDLESS }
        ensures takes { IfOk result
            (λ piece. TakesPiece piece line.old line.new (Some self.old.left) (Some self.new.left)) }
        ensures fault { OnErr result (Unit {0}) }
        ensures kept { OnErr result (Keeps (Some self.old.left) (Some self.new.left)) }
        ensures line_kept { OnErr result (line.new ≡ line.old) }
        ensures polls { 0 ≤ 1 }
        ensures fails { IsErr result ↔ (self.old.fails_at ≡ 1) }
        ensures counted { self.new.fails_at ≡ self.old.fails_at - 1 }
    {
        self.polls.call()?;
        self.bytes.take_some(line)
    }

    /// Counts as a poll, and fails if it is the chosen one.
    fn has_more(&mut self) -> io::Result<bool>
        ensures more { result ≡ Ok true → IfSome (Some self.old.left) (λ rest. rest ≢ []) }
        ensures end { result ≡ Ok false → IfSome (Some self.old.left) (λ rest. rest ≡ []) }
        ensures fault { OnErr result (Unit {0}) }
        ensures kept { Keeps (Some self.old.left) (Some self.new.left) }
        ensures polls { 0 ≤ 1 }
        ensures fails { IsErr result ↔ (self.old.fails_at ≡ 1) }
        ensures counted { self.new.fails_at ≡ self.old.fails_at - 1 }
    {
        self.polls.call()?;
        self.bytes.has_more()
    }
}

/// A sink that keeps the bytes it takes, a few at a time. One call fails, a write or a hand-on; later calls
/// succeed.
#[derive(Debug, Drop)]
pub struct FailingSink {
    contents: Vec<u8>,
    flushed: usize,
    most: usize,
    calls: Countdown,
}

impl Model for FailingSink {
    ghost use Rattle.pn_line.specs.Sent.{FailingSinkValue};

    ghost Value = { FailingSinkValue };

    ghost view = { λ sink. record { contents = sink.contents.items; flushed = sink.flushed; most = sink.most; fails_at = sink.calls.fails_at } };
}

impl FailingSink {
    /// An empty sink. A write takes at least one byte and at most `most`. Call number `fails_at` fails, counted
    /// from 1; 0 means none.
    pub fn new(alloc: Global, most: usize, fails_at: usize) -> FailingSink
        ensures contents { result.contents ≡ [] }
        ensures flushed { result.flushed ≡ 0 }
        ensures most { result.most ≡ most }
        ensures fails_at { result.fails_at ≡ fails_at }
    {
        FailingSink {
            contents: Vec::new(alloc),
            flushed: 0,
            most,
            calls: Countdown { fails_at },
        }
    }

    /// The bytes that it took.
    pub fn contents(&self) -> &[u8]
        ensures { result.now ≡ self.now.contents }
    {
        &self.contents
    }

    /// How many of these bytes were flushed.
    pub fn flushed(&self) -> usize
        ensures { result ≡ self.now.flushed }
    {
        self.flushed
    }
}

impl Sink for FailingSink {
    ghost contents = { λ sink. Some sink.contents };

    ghost may_fail = { Unit {0} };

    ghost is_flushed = { λ sink. sink.flushed ≡ length sink.contents };

    ghost has_failed = { λ _. Unit {0} };

    /// Takes up to `most` bytes. Fails if it is the chosen call, or out of memory.
    fn write_some(&mut self, bytes: &[u8]) -> Result<usize, WriteFault>
        ensures within { IfOk result (λ count. count ≤ length bytes.now) }
        ensures some { IfOk result (λ count. 0 < length bytes.now → 0 < count) }
        ensures written { IfOk result
            (λ count. Appends (Some self.old.contents) (Some self.new.contents) (take count bytes.now)) }
        ensures kept { OnErr result (Keeps (Some self.old.contents) (Some self.new.contents)) }
        ensures takes { IfOk result (λ count. count ≡ min (length bytes.now) (max self.old.most 1)) }
        ensures fails { self.old.fails_at ≡ 1 → IsErr result }
        ensures counted { self.new.fails_at ≡ self.old.fails_at - 1 }
        ensures most { self.new.most ≡ self.old.most }
        ensures flushed { self.new.flushed ≡ self.old.flushed }
    {
        self.calls.call().map_err(WriteFault::Failed)?;
        let count = bytes.len().min(self.most.max(1));
        match self.contents.extend_from_slice(&bytes[..count]) {
            Ok(()) => Ok(count),
            Err(error) => Err(WriteFault::Failed(io::Error::from(error))),
        }
    }

    /// Fails if it is the chosen call, and only then.
    fn flush(&mut self) -> Result<(), WriteFault>
        ensures all { OnOk result (self.new.flushed ≡ length self.new.contents) }
        ensures kept { Keeps (Some self.old.contents) (Some self.new.contents) }
        ensures fails { IsErr result ↔ (self.old.fails_at ≡ 1) }
        ensures counted { self.new.fails_at ≡ self.old.fails_at - 1 }
        ensures most { self.new.most ≡ self.old.most }
    {
        self.calls.call().map_err(WriteFault::Failed)?;
        self.flushed = self.contents.len();
        Ok(())
    }
}
