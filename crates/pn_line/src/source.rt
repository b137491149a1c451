//! Where lines are read from: any buffered reader, or bytes in memory, whose reads never fail.
ghost use Rattle.std.specs.Prelude.{◌≡◌, ◌≢◌, ◌+◌, ◌<◌, ◌≤◌, ℕ, List, [], true, false, IfOk, OnErr, IfSome, Option};
ghost use Rattle.std.specs.Io.KnownBytes.{Keeps};
ghost use Rattle.pn_line.specs.Line.{TakesPiece};

use crate::line_buffer::{ENDLESS, LineBuffer, Piece, take_piece};
use std::io;
use std::io::BufRead;

/// A source of lines.
pub trait Source {
    // The bytes that are left, where the type shows them.
    ghost left: { Self → Option (List ℕ) };

    // False for a type whose reads never fail.
    ghost may_fail: { Type 0 };

    // False for a type that is never at its end.
    ghost may_end: { Type 0 };

    // How many polls of its bytes were made, where the type counts them.
    ghost polls: { Self → ℕ };

    /// Looks at some of the bytes that are left, waiting for them if need be, and moves those of the line
    /// into it.
    ///
    /// An error of the reader takes nothing, so that the call can be repeated.
    fn take_some(&mut self, line: &mut LineBuffer) -> io::Result<Piece>
        requires { line.old.count < ENDLESS }
        ensures takes { IfOk result (λ piece. TakesPiece piece line.old line.new (left self.old) (left self.new)) }
        ensures end_comes { result ≡ Ok Piece.NoMore → may_end }
        ensures polls { polls self.new ≤ polls self.old + 1 }
        ensures fault { OnErr result may_fail }
        ensures kept { OnErr result (Keeps (left self.old) (left self.new)) }
        ensures line_kept { OnErr result (line.new ≡ line.old) };

    /// Whether bytes are left, waiting for them if need be. It takes none of them.
    fn has_more(&mut self) -> io::Result<bool>
        ensures more { result ≡ Ok true → IfSome (left self.old) (λ rest. rest ≢ []) }
        ensures end { result ≡ Ok false → IfSome (left self.old) (λ rest. rest ≡ []) }
        ensures end_comes { result ≡ Ok false → may_end }
        ensures polls { polls self.new ≤ polls self.old + 1 }
        ensures fault { OnErr result may_fail }
        ensures kept { Keeps (left self.old) (left self.new) };
}

impl<R: BufRead> Source for R {
    ghost left = { λ reader. R.remaining reader };

    ghost may_fail = { Unit {0} };

    ghost may_end = { Unit {0} };

    ghost polls = { λ _. 0 };

    fn take_some(&mut self, line: &mut LineBuffer) -> io::Result<Piece> {
        let shown = self.fill_buf()?;
        let (count, piece) = take_piece(line, shown);
        self.consume(count);
        Ok(piece)
    }

    fn has_more(&mut self) -> io::Result<bool> {
        Ok(!self.fill_buf()?.is_empty())
    }
}
