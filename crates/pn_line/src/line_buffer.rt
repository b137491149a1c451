//! A line while it is read, and the pieces that it comes in.

ghost use Rattle.std.specs.Prelude.{◌≡◌, ◌≢◌, ◌<◌, ◌≤◌, Some, length, take, drop, ◌+◌, ◌↔◌, [], IfOk, IsTrue};
ghost use Rattle.pn_line.specs.Line.{Splits, newline_after, HasMore, so_far, with_bytes};

use memchr::memchr;
use std::alloc::{AllocError, Global};
use std::marker::Model;

/// What one poll of a source's bytes gave of a line.
#[derive(Clone, Copy, Debug, PartialEq, Eq)]
pub enum Piece {
    /// Bytes of the line, whose end was not met.
    Part,
    /// The rest of the line, and its newline.
    Ended {
        /// Whether another newline was seen after it. The next poll sees it again.
        more: bool,
    },
    /// No byte: the source is at its end.
    NoMore,
}

/// Appends the bytes up to the newline to the line. Returns how many bytes that used, the newline included.
pub(crate) fn take_piece(line: &mut LineBuffer, shown: &[u8]) -> (usize, Piece)
    requires { line.old.count < ENDLESS }
    ensures within { result.0 ≤ length shown.now }
    ensures splits { Splits line.old line.new (take result.0 shown.now) (newline_after result.1) }
    ensures part { result.1 ≡ Piece.Part → line.old.count < line.new.count }
    ensures below { result.1 ≢ Piece.Part → line.new.count < ENDLESS }
    ensures none { result.1 ≡ Piece.NoMore → length shown.now ≡ 0 }
    ensures more { HasMore result.1 (Some (drop result.0 shown.now)) }
{
    if shown.is_empty() {
        return (0, Piece::NoMore);
    }
    let most = ENDLESS - line.len();
    let window = &shown[..shown.len().min(most)];
    let Some(at) = memchr(b'\n', window) else {
        line.append(window);
        return (window.len(), Piece::Part);
    };
    line.append(&window[..at]);
    let more = memchr(b'\n', &shown[at + 1..]).is_some();
    (at + 1, Piece::Ended { more })
}

/// How many bytes a line may have without its newline.
pub const MAX_LINE_BYTES: usize = 65_536;

/// How many bytes of a line are kept: one more than it may have, so that a longer line shows.
pub const MAX_KEPT_BYTES: usize = MAX_LINE_BYTES + 1;

/// A line that has not ended after this many bytes has no end.
pub const ENDLESS: usize = 1_000_000_000;

/// A line so far: its first bytes, at most `MAX_KEPT_BYTES`, and its length. Memory is allocated when it is made,
/// and never again.
#[derive(Debug, Drop)]
pub struct LineBuffer {
    kept: Vec<u8>,
    count: usize,
}

impl Model for LineBuffer {
    ghost use Rattle.std.specs.Prelude.{◌≡◌, vec_len, vec_capacity, min, ◌≤◌};
    ghost use Rattle.pn_line.specs.declared.line_buffer.TheConstants.{MAX_KEPT_BYTES, ENDLESS};
    ghost use Rattle.pn_line.specs.Line.{LineBufferValue};

    ghost Value = { LineBufferValue };

    ghost view = { λ line. record { bytes = line.kept.items; count = line.count } };

    ghost invariant = { λ line. (vec_len line.kept ≡ min line.count MAX_KEPT_BYTES)
        × (MAX_KEPT_BYTES ≤ vec_capacity line.kept) × (line.count ≤ ENDLESS) };
}

impl LineBuffer {
    /// A line that has no byte yet.
    pub fn new(alloc: Global) -> Result<LineBuffer, AllocError>
        ensures { IfOk result (λ line. line ≡ so_far []) }
    {
        Ok(LineBuffer {
            kept: Vec::with_capacity(alloc, MAX_KEPT_BYTES)?,
            count: 0,
        })
    }

    /// Begins a new, empty line.
    pub fn start(&mut self)
        ensures { self.new ≡ so_far [] }
    {
        self.kept.clear();
        self.count = 0;
    }

    /// The first bytes of the line, all of them where it is not too long.
    pub fn bytes(&self) -> &[u8]
        ensures { result.now ≡ self.now.bytes }
    {
        &self.kept
    }

    /// How many bytes the line has, those that are not kept included.
    pub fn len(&self) -> usize
        ensures count { result ≡ self.now.count }
        ensures bounded { result ≤ ENDLESS }
    {
        self.count
    }

    /// Whether the line has no byte yet.
    pub fn is_empty(&self) -> bool
        ensures { IsTrue result ↔ (self.now.count ≡ 0) }
    {
        self.count == 0
    }

    /// Whether the line has more bytes than a line may have.
    pub fn is_too_long(&self) -> bool
        ensures { IsTrue result ↔ (MAX_LINE_BYTES < self.now.count) }
    {
        self.count > MAX_LINE_BYTES
    }

    /// Appends bytes to the line. Those that are not kept are counted.
    pub(crate) fn append(&mut self, bytes: &[u8])
        requires { self.old.count + length bytes.now ≤ ENDLESS }
        ensures { self.new ≡ with_bytes self.old bytes.now }
    {
        let free = MAX_KEPT_BYTES - self.kept.len();
        let more = &bytes[..bytes.len().min(free)];
        self.kept.extend_from_slice(more).unwrap();
        self.count += bytes.len();
    }
}
