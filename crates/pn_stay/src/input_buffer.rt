//! The input buffer of a connection, which is polled.

ghost use Rattle.std.specs.Prelude.{◌≡◌, false, true, ◌≢◌, ◌⊎◌, ◌≤◌, ◌↔◌, [], length, take, IfErr, IfOk, IsTrue, OnErr};
ghost use Rattle.std.specs.Io.KnownBytes.{Consumes, IsAtEnd, Keeps};
ghost use Rattle.std.specs.IoError.{error_kind};
ghost use Rattle.pn_line.specs.Line.{newline_after};
ghost use Rattle.pn_lines.specs.declared.turns.input.TheConstants.{READ_SIZE};

use crate::socket::has_failed_after;
use pn_line::{InMemory, LineBuffer, MAX_LINE_BYTES, Piece, Source};
use pn_lines::{Input, READ_SIZE};
use std::alloc::{AllocError, Global};
use std::io;
use std::io::{ErrorKind, Read};
use std::marker::Model;

/// An input, whether a poll reports what comes later, and whether a read has failed.
#[derive(Drop)]
pub(crate) struct PolledInput<R: Drop> {
    input: R,
    is_reported: bool,
    has_failed: bool,
}

impl<R: Read + Drop> PolledInput<R> {
    /// The same input. Whether the poll reports what comes later, and the end: one that it has reported with the last bytes is
    /// not reported again.
    pub(crate) fn new(input: R, is_reported: bool) -> PolledInput<R>
        ensures input { R.remaining result.input ≡ R.remaining input }
        ensures failed { result.has_failed ≡ false }
    {
        PolledInput {
            input,
            is_reported,
            has_failed: false,
        }
    }
}

impl<R: Read + Drop> Input for PolledInput<R> {
    ghost remaining = { λ polled. R.remaining polled.input };

    ghost has_failed = { λ polled. polled.has_failed ≡ true };

    fn read_some(&mut self, buf: &mut [u8]) -> io::Result<usize> {
        let read = self.input.read(buf);
        self.has_failed = has_failed_after(self.has_failed, &read);
        read
    }

    fn is_polled(&self) -> bool {
        self.is_reported
    }
}

/// How many bytes fit into it.
pub const INPUT_CAPACITY: usize = MAX_LINE_BYTES - 1;

/// Input that was read and is not answered yet. Its memory is allocated when it is made, and never again.
#[derive(Drop)]
pub struct InputBuffer {
    // What a read fills. The input that is held goes from the start to the end.
    bytes: Vec<u8>,
    start: usize,
    end: usize,
}

impl Model for InputBuffer {
    ghost use Rattle.std.specs.Prelude.{◌≡◌, ◌≤◌, ℕ, List, vec_len, drop, take};
    ghost use Rattle.pn_stay.specs.declared.input_buffer.TheConstants.{INPUT_CAPACITY};

    ghost Value = { List ℕ };

    ghost view = { λ buffer. drop buffer.start (take buffer.end buffer.bytes.items) };

    ghost invariant = { λ buffer. (buffer.start ≤ buffer.end) × (buffer.end ≤ INPUT_CAPACITY) × (vec_len buffer.bytes ≡ INPUT_CAPACITY) };
}

impl InputBuffer {
    /// A buffer with no input.
    pub fn new(alloc: Global) -> Result<InputBuffer, AllocError>
        ensures { IfOk result (λ buffer. buffer ≡ []) }
    {
        let mut bytes = Vec::new(alloc);
        bytes.resize(INPUT_CAPACITY, 0)?;
        Ok(InputBuffer {
            bytes,
            start: 0,
            end: 0,
        })
    }

    /// The input that it holds.
    pub fn bytes(&self) -> &[u8]
        ensures held { result.now ≡ self.now }
        ensures bounded { length result.now ≤ INPUT_CAPACITY }
    {
        &self.bytes[self.start..self.end]
    }

    /// Whether it holds no input.
    pub fn is_empty(&self) -> bool
        ensures { IsTrue result ↔ (self.now ≡ []) }
    {
        self.start == self.end
    }

    /// Holds this input, and no other.
    pub fn fill(&mut self, bytes: &[u8])
        requires { length bytes.now ≤ INPUT_CAPACITY }
        ensures { self.new ≡ bytes.now }
    {
        copy_to_front(&mut self.bytes, bytes);
        self.start = 0;
        self.end = bytes.len();
    }

    /// Reads once, in place of the input that it holds. False at the end of the input.
    pub fn read_from<R: Input>(&mut self, input: &mut R) -> io::Result<bool>
        ensures came { IfOk result (λ _. Consumes (R.remaining input.old) (R.remaining input.new) self.new) }
        ensures more { IfOk result (λ more. more ≡ true → self.new ≢ []) }
        ensures end { IfOk result (λ more. more ≡ false → (self.new ≡ []) × IsAtEnd (R.remaining input.new)) }
        ensures kept { OnErr result (Keeps (R.remaining input.old) (R.remaining input.new)) }
        ensures none { OnErr result (self.new ≡ []) }
        ensures few { length self.new ≤ READ_SIZE }
        ensures failed { IfErr result (λ error. (error_kind error ≡ ErrorKind.WouldBlock) ⊎ R.has_failed input.new) }
    {
        self.start = 0;
        self.end = 0;
        self.end = read_piece(input, &mut self.bytes)?;
        Ok(self.end > 0)
    }
}

// Reads once to the front of the bytes. How many came, none at the end of the input.
fn read_piece<R: Input>(input: &mut R, bytes: &mut [u8]) -> io::Result<usize>
    requires size { READ_SIZE ≤ length bytes.old }
    ensures came { IfOk result (λ count. Consumes (R.remaining input.old) (R.remaining input.new) (take count bytes.new)) }
    ensures end { IfOk result (λ count. count ≡ 0 → IsAtEnd (R.remaining input.new)) }
    ensures kept { OnErr result (Keeps (R.remaining input.old) (R.remaining input.new)) }
    ensures few { IfOk result (λ count. count ≤ READ_SIZE) }
    ensures size { length bytes.new ≡ length bytes.old }
    ensures failed { IfErr result (λ error. (error_kind error ≡ ErrorKind.WouldBlock) ⊎ R.has_failed input.new) }
{
    let count = input.read_some(&mut bytes[..READ_SIZE])?;
    Ok(count)
}

// Writes bytes over the first of others.
fn copy_to_front(others: &mut [u8], bytes: &[u8])
    requires { length bytes.now ≤ length others.old }
    ensures front { take (length bytes.now) others.new ≡ bytes.now }
    ensures size { length others.new ≡ length others.old }
{
    others[..bytes.len()].copy_from_slice(bytes);
}

impl Source for InputBuffer {
    ghost use Rattle.std.specs.Prelude.{Some};

    ghost left = { λ buffer. Some buffer };

    ghost may_fail = { ⊥ };

    ghost may_end = { Unit {0} };

    ghost polls = { λ _. 0 };

    fn take_some(&mut self, line: &mut LineBuffer) -> io::Result<Piece> {
        let before = line.len();
        let mut shown = InMemory::new(self.bytes());
        let piece = shown.take_some(line)?;
        self.start += line.len() - before + newlines(piece);
        Ok(piece)
    }

    fn has_more(&mut self) -> io::Result<bool> {
        Ok(!self.bytes().is_empty())
    }
}

// How many newlines a piece ends with.
fn newlines(piece: Piece) -> usize
    ensures { result ≡ length (newline_after piece) }
{
    match piece {
        Piece::Ended { .. } => 1,
        Piece::Part | Piece::NoMore => 0,
    }
}
