//! Reads one line from a source, up to and with its newline.
ghost use Rattle.std.specs.Prelude.{◌≡◌, ◌+◌, ◌<◌, ◌≤◌, [], Ok, IfOk, OnErr};
ghost use Rattle.pn_line.specs.Line.{Takes, ReadsTo, ReadsUpTo};

use crate::line_buffer::{ENDLESS, LineBuffer, Piece};
use crate::source::Source;
use std::io;

/// How reading a line came to its end.
#[derive(Clone, Copy, Debug, PartialEq, Eq)]
pub enum LineEnd {
    /// At the line's newline, which was taken and is part of no line.
    Newline {
        /// Whether another newline was seen after it. If not, reading the next line may wait for input.
        more: bool,
    },
    /// At the end of the input. The line may go on if more input comes.
    EndOfInput,
    /// After `ENDLESS` bytes with no newline among them.
    Endless,
}

/// Appends to the line until its newline was taken, the source is at its end, or the line has `ENDLESS`
/// bytes. Allocates nothing.
///
/// Each byte takes at most one poll of the source, and the end of the line one more.
///
/// After an error of the reader, `Interrupted` too, the line keeps what was read, and a later call goes on with it.
pub fn read_line<S: Source>(line: &mut LineBuffer, source: &mut S) -> io::Result<LineEnd>
    ensures reads { IfOk result (λ end. ReadsUpTo end line.old line.new (S.left source.old) (S.left source.new)) }
    ensures end_comes { result ≡ Ok LineEnd.EndOfInput → S.may_end }
    ensures grows { line.old.count ≤ line.new.count }
    ensures polls { S.polls source.new + line.old.count ≤ S.polls source.old + line.new.count + 1 }
    ensures fault { OnErr result S.may_fail }
    ensures kept { OnErr result
        (Takes line.old line.new (S.left source.old) (S.left source.new) []) }
{
    'pieces: while line.len() < ENDLESS {
        match source.take_some(line)? {
            Piece::Part => {}
            Piece::Ended { more } => return Ok(LineEnd::Newline { more }),
            Piece::NoMore => return Ok(LineEnd::EndOfInput),
        }
    }
    Ok(LineEnd::Endless)
}

/// How reading a line that may not be too long came to its end.
#[derive(Clone, Copy, Debug, PartialEq, Eq)]
pub enum BoundedEnd {
    /// At the line's newline, which was taken and is part of no line.
    Newline {
        /// Whether another newline was seen after it. If not, reading the next line may wait for input.
        more: bool,
    },
    /// At the end of the input, before a newline. The line may go on if more input comes.
    EndOfInput,
    /// More than `MAX_LINE_BYTES` bytes came, with no newline among them.
    TooLong,
}

/// Appends to the line until its newline was taken, the source is at its end, or the line is too long.
/// Allocates nothing.
///
/// After an error of the reader, `Interrupted` too, the line keeps what was read, and a later call goes on with it.
pub fn read_bounded_line<S: Source>(line: &mut LineBuffer, source: &mut S) -> io::Result<BoundedEnd>
    ensures takes { IfOk result (λ end. ReadsTo end line.old line.new (S.left source.old) (S.left source.new)) }
    ensures fault { OnErr result S.may_fail }
    ensures kept { OnErr result
        (Takes line.old line.new (S.left source.old) (S.left source.new) []) }
{
    'pieces: while !line.is_too_long() {
        match source.take_some(line)? {
            Piece::Part => {}
            Piece::Ended { more } => {
                if line.is_too_long() {
                    return Ok(BoundedEnd::TooLong);
                }
                return Ok(BoundedEnd::Newline { more });
            }
            Piece::NoMore => {
                if line.is_too_long() {
                    return Ok(BoundedEnd::TooLong);
                }
                return Ok(BoundedEnd::EndOfInput);
            }
        }
    }
    Ok(BoundedEnd::TooLong)
}
