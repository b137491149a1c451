//! The first line at hand, and a piece of a text.

ghost use Rattle.std.specs.Prelude.{◌≡◌, ◌≢◌, ◌+◌, ◌<◌, ◌≤◌, ◌↔◌, ℕ, List, [], length, vec_capacity, vec_len, IsTrue, IfNone, IfSome};
ghost use Rattle.pn_lines.specs.Giving.{Gives, FindsLine, NewlineAt};
ghost use Rattle.pn_line.specs.declared.line_buffer.TheConstants.{MAX_LINE_BYTES};
ghost use Rattle.pn_line.specs.Line.{IsUnbroken};

use memchr::memchr;
use pn_line::MAX_KEPT_BYTES;

/// The most bytes of a piece.
pub const MAX_PIECE_BYTES: usize = 65_536;

/// A text that is made in pieces.
pub trait PieceText: Drop {
    // The bytes that are still to be made.
    ghost unmade: { Self → List ℕ };

    /// Whether all is made.
    fn is_made(&self) -> bool
        ensures { IsTrue result ↔ (unmade self.now ≡ []) };

    /// Makes a piece after what a buffer holds. It asks nothing of memory.
    fn write_piece(&mut self, out: &mut Vec<u8>)
        requires room { vec_len out.old + MAX_PIECE_BYTES ≤ vec_capacity out.old }
        ensures gives { Gives (unmade self.old) (unmade self.new) out.old out.new }
        ensures few { vec_len out.new ≤ vec_len out.old + MAX_PIECE_BYTES }
        ensures some { unmade self.old ≢ [] → length (unmade self.new) < length (unmade self.old) };
}

/// The first line at hand.
#[derive(Clone, Copy, Debug, PartialEq, Eq)]
pub(crate) enum Found {
    /// It has this number of bytes, and a newline.
    Line(usize),
    /// It is too long.
    Long,
    /// It has no newline, and is the last.
    Last,
    /// It has no newline so far.
    Part,
}

/// Finds the first line. The bytes may be the last.
pub(crate) fn find_line(bytes: &[u8], is_last: bool) -> Found
    ensures { FindsLine bytes.now is_last result }
{
    if bytes.len() < MAX_KEPT_BYTES {
        return find_short(bytes, is_last);
    }
    match find_newline(&bytes[..MAX_KEPT_BYTES]) {
        Some(at) => Found::Line(at),
        None => Found::Long,
    }
}

// Finds the first line where there are no more bytes than it may have.
fn find_short(bytes: &[u8], is_last: bool) -> Found
    requires { length bytes.now ≤ MAX_LINE_BYTES }
    ensures { FindsLine bytes.now is_last result }
{
    match find_newline(bytes) {
        Some(at) => Found::Line(at),
        None if is_last => Found::Last,
        None => Found::Part,
    }
}

/// Finds the first newline.
pub(crate) fn find_newline(bytes: &[u8]) -> Option<usize>
    ensures some { IfSome result (NewlineAt bytes.now) }
    ensures none { IfNone result (IsUnbroken bytes.now) }
{
    memchr(b'\n', bytes)
}
