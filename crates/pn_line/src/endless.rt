//! A source that never ends, and whose polls are counted.
ghost use Rattle.std.specs.Prelude.{◌≡◌, ◌≢◌, ◌+◌, ◌-◌, ◌<◌, ◌≤◌, ◌^◌, true, false, List, ℕ, [], Ok, None, IfOk, IfSome, OnErr, length, min};
ghost use Rattle.std.specs.Io.KnownBytes.{Keeps};
ghost use Rattle.pn_line.specs.Line.{TakesPiece};

use crate::line_buffer::{ENDLESS, LineBuffer, Piece, take_piece};
use crate::source::Source;
use std::io;
use std::marker::Model;

/// A text that is read again and again, and so has no end. Its polls are counted, up to the greatest number.
#[derive(Debug, Drop)]
pub struct EndlessSource<'a> {
    text: &'a [u8],
    rest: &'a [u8],
    polls: u128,
}

impl<'a> Model for EndlessSource<'a> {
    ghost use Rattle.std.specs.Prelude.{ℕ, ◌<◌, length};

    ghost Value = { ℕ };

    ghost view = { λ source. source.polls };

    ghost invariant = { λ source. (0 < length source.text.now) × (0 < length source.rest.now) };
}

impl<'a> EndlessSource<'a> {
    /// A source of this text without end, that nobody has polled yet.
    pub fn new(text: &'a [u8]) -> EndlessSource<'a>
        requires { 0 < length text.now }
        ensures { result ≡ 0 }
    {
        EndlessSource {
            text,
            rest: text,
            polls: 0,
        }
    }

    fn count_look(&mut self)
        ensures { self.new ≡ min (self.old + 1) (2 ^ 128 - 1) }
    {
        self.polls = self.polls.saturating_add(1);
    }
}

impl Source for EndlessSource<'_> {
    ghost left = { λ _. None };

    ghost may_fail = { ⊥ };

    ghost may_end = { ⊥ };

    ghost polls = { λ source. source };

    /// Counts as a poll, and never fails or ends.
    fn take_some(&mut self, line: &mut LineBuffer) -> io::Result<Piece>
        requires { line.old.count < ENDLESS }
        ensures takes { IfOk result (λ piece. TakesPiece piece line.old line.new None None) }
        ensures end_comes { result ≡ Ok Piece.NoMore → ⊥ }
        ensures polls { self.new ≤ self.old + 1 }
        ensures fault { OnErr result ⊥ }
        ensures kept { OnErr result (Keeps None None) }
        ensures line_kept { OnErr result (line.new ≡ line.old) }
        ensures counted { self.new ≡ min (self.old + 1) (2 ^ 128 - 1) }
    {
        self.count_look();
        let (count, piece) = take_piece(line, self.rest);
        self.rest = &self.rest[count..];
        if self.rest.is_empty() {
            self.rest = self.text;
        }
        Ok(piece)
    }

    /// Counts as a poll, and always shows more.
    fn has_more(&mut self) -> io::Result<bool>
        ensures more { result ≡ Ok true → IfSome {T = List ℕ} None (λ rest. rest ≢ []) }
        ensures end { result ≡ Ok false → IfSome {T = List ℕ} None (λ rest. rest ≡ []) }
        ensures end_comes { result ≡ Ok false → ⊥ }
        ensures polls { self.new ≤ self.old + 1 }
        ensures fault { OnErr result ⊥ }
        ensures kept { Keeps None None }
        ensures counted { self.new ≡ min (self.old + 1) (2 ^ 128 - 1) }
    {
        self.count_look();
        Ok(true)
    }
}
