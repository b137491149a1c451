//! A source and a sink that answer from lists, so that a law can speak of every list of answers.

ghost use Rattle.std.specs.Prelude.{◌≡◌, ◌↔◌, ◌++◌, [], ◌∷◌, drop, length, map, min, take, IfErr, IfOk, OnErr, OnOk};
ghost use Rattle.std.specs.IoError.{error_kind};
ghost use Rattle.std.specs.declared.io.ErrorKind.TheVariants.{WouldBlock as would_block};
ghost use Rattle.pn_line.specs.Prelude.{WouldBlock};
ghost use Rattle.pn_stay.specs.Fakes.{first_piece, pieces_after, taken_by, IsPaused, TakesNone};

use pn_line::{Sink, WriteFault};
use std::alloc::Global;
use std::io;
use std::io::Read;
use std::marker::Model;

/// A source of bytes that come in pieces. A call that meets an empty piece gives nothing: a wait.
#[derive(Drop)]
pub struct FakeSource<'a> {
    current: &'a [u8],
    later: &'a [Vec<u8>],
}

impl<'a> Model for FakeSource<'a> {
    ghost use Rattle.std.specs.Prelude.{ℕ, List, map};
    ghost use Rattle.pn_stay.specs.Fakes.{with_later};

    ghost Value = { List (List ℕ) };

    ghost view = { λ source. with_later source.current.now (map (λ piece. piece.items) source.later.now) };
}

impl<'a> FakeSource<'a> {
    /// A source of these pieces.
    pub fn new(pieces: &'a [Vec<u8>]) -> FakeSource<'a>
        ensures { result ≡ map (λ piece. piece.items) pieces.now }
    {
        FakeSource {
            current: &[],
            later: pieces,
        }
    }

    // Reads bytes of the first piece, as many as there is room for, and none of those after it. An empty piece is a wait.
    fn read_piece(&mut self, buf: &mut [u8]) -> io::Result<usize>
        ensures count { IfOk result (λ count. count ≡ min (length (first_piece self.old)) (length buf.old)) }
        ensures copied { IfOk result (λ count. buf.new ≡ take count (first_piece self.old) ++ drop count buf.old) }
        ensures left { IfOk result (λ count. self.new ≡ pieces_after count self.old) }
        ensures comes { OnOk result (IsPaused self.old → ⊥) }
        ensures waits { IfErr result (λ error. (error_kind error ≡ would_block) × (self.old ≡ [] ∷ self.new)) }
    {
        if !self.current.is_empty() {
            return self.current.read(buf);
        }
        let Some((piece, later)) = self.later.split_first() else {
            return Ok(0);
        };
        self.later = later;
        self.current = piece;
        if piece.is_empty() {
            return Err(io::Error::from(io::ErrorKind::WouldBlock));
        }
        self.current.read(buf)
    }
}

impl Read for FakeSource<'_> {
    ghost use Rattle.std.specs.Prelude.{Some};
    ghost use Rattle.pn_stay.specs.Fakes.{bytes_of};

    ghost remaining = { λ source. Some (bytes_of source) };

    fn read(&mut self, buf: &mut [u8]) -> io::Result<usize> {
        self.read_piece(buf)
    }
}

/// A sink of which each call takes at most as many bytes as its list says. A call that takes none is a wait.
#[derive(Drop)]
pub struct FakeSink<'a> {
    bytes: Vec<u8>,
    counts: &'a [usize],
}

impl<'a> Model for FakeSink<'a> {
    ghost use Rattle.pn_stay.specs.Fakes.{FakeSinkValue};

    ghost Value = { FakeSinkValue };

    ghost view = { λ sink. record { bytes = sink.bytes.items; counts = sink.counts.now } };
}

impl<'a> FakeSink<'a> {
    /// An empty sink. After the last count it takes all.
    pub fn new(alloc: Global, counts: &'a [usize]) -> FakeSink<'a>
        ensures { result ≡ record { bytes = []; counts = counts.now } }
    {
        FakeSink {
            bytes: Vec::new(alloc),
            counts,
        }
    }

    /// The bytes that it took.
    pub fn bytes(&self) -> &[u8]
        ensures { result.now ≡ self.now.bytes }
    {
        &self.bytes
    }

    /// The bytes that it took.
    pub fn into_bytes(self) -> Vec<u8>
        ensures { result.items ≡ self.entry.bytes }
    {
        self.bytes
    }

    // Takes as many of the bytes as the first count says, at most. It waits exactly where that is 0.
    fn take_some(&mut self, bytes: &[u8]) -> Result<usize, WriteFault>
        ensures counts { self.new.counts ≡ drop 1 self.old.counts }
        ensures count { IfOk result (λ count. count ≡ taken_by self.old.counts (length bytes.now)) }
        ensures taken { IfOk result (λ count. self.new.bytes ≡ self.old.bytes ++ take count bytes.now) }
        ensures takes { OnOk result (TakesNone self.old.counts → ⊥) }
        ensures waits { IfErr result (λ fault. WouldBlock fault ↔ TakesNone self.old.counts) }
        ensures kept { OnErr result (self.new.bytes ≡ self.old.bytes) }
    {
        let Some((count, counts)) = self.counts.split_first() else {
            return self.append(bytes);
        };
        self.counts = counts;
        if *count == 0 {
            let error = io::Error::from(io::ErrorKind::WouldBlock);
            return Err(WriteFault::Failed(error));
        }
        self.append(&bytes[..bytes.len().min(*count)])
    }

    // Takes all of the bytes, where there is memory for them.
    fn append(&mut self, bytes: &[u8]) -> Result<usize, WriteFault>
        ensures all { IfOk result (λ count. (count ≡ length bytes.now) × (self.new ≡ record self.old { bytes = self.old.bytes ++ bytes.now })) }
        ensures err { IfErr result (λ fault. (self.new ≡ self.old) × (WouldBlock fault → ⊥)) }
    {
        match self.bytes.extend_from_slice(bytes) {
            Ok(()) => Ok(bytes.len()),
            Err(error) => Err(WriteFault::Failed(io::Error::from(error))),
        }
    }
}

impl Sink for FakeSink<'_> {
    ghost use Rattle.std.specs.Prelude.{Some};

    ghost contents = { λ sink. Some sink.bytes };

    ghost may_fail = { Unit {0} };

    ghost is_flushed = { λ _. Unit {0} };

    ghost has_failed = { λ _. Unit {0} };

    fn write_some(&mut self, bytes: &[u8]) -> Result<usize, WriteFault> {
        self.take_some(bytes)
    }

    fn flush(&mut self) -> Result<(), WriteFault> {
        Ok(())
    }
}
