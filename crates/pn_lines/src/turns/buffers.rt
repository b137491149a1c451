//! The buffers of a thread, which take one turn after another, of one input and of others.

ghost use Rattle.std.specs.Prelude.{◌≡◌, ◌≢◌, ◌⊎◌, ◌≤◌, [], IfOk, length};
ghost use Rattle.std.specs.IoError.{error_kind};
ghost use Rattle.pn_line.specs.declared.line_buffer.TheConstants.{MAX_LINE_BYTES};
ghost use Rattle.pn_lines.specs.Turns.{Comes, TakesFirst};
ghost use Rattle.pn_lines.specs.declared.turns.buffers.TheConstants.{MAX_UNREAD};

use crate::turns::input::{Input, READ_SIZE, is_wait};
use crate::turns::sending::{Sent, send};
use pn_line::{MAX_LINE_BYTES, Sink};
use std::alloc::{AllocError, Global};
use std::io;
use std::io::ErrorKind;
use std::marker::Model;

/// How many bytes of input are kept at most: a part of a line, and what one read brings.
pub const MAX_UNREAD: usize = MAX_LINE_BYTES + READ_SIZE;

/// How many bytes of replies may wait: a block, and a piece.
const REPLY_CAPACITY: usize = 131_072;

/// The buffers of a thread. Their memory is allocated when they are made, and never again.
#[derive(Drop)]
pub struct TurnBuffers {
    // What a read fills.
    read: Vec<u8>,
    // Input that is at hand.
    pub(super) input: Vec<u8>,
    // Replies that are to be written.
    pub(super) replies: Vec<u8>,
}

impl Model for TurnBuffers {
    ghost use Rattle.std.specs.Prelude.{◌≡◌, ◌≤◌, vec_len, vec_capacity};
    ghost use Rattle.pn_lines.specs.declared.finding.TheConstants.{MAX_PIECE_BYTES};
    ghost use Rattle.pn_lines.specs.declared.turns.buffers.TheConstants.{MAX_UNREAD};
    ghost use Rattle.pn_lines.specs.declared.turns.input.TheConstants.{READ_SIZE};
    ghost use Rattle.pn_lines.specs.Turns.{BufferValue};

    ghost Value = { BufferValue };

    ghost view = { λ buffers. record { input = buffers.input.items; replies = buffers.replies.items } };

    ghost invariant = { λ buffers. (vec_len buffers.read ≡ READ_SIZE) × (MAX_UNREAD ≤ vec_capacity buffers.input)
        × (MAX_PIECE_BYTES ≤ vec_capacity buffers.replies) };
}

/// What came of a read.
#[derive(Clone, Copy, Debug, PartialEq, Eq)]
pub(crate) enum Came {
    /// Some input, and whether that is all that is at hand.
    Input { is_all: bool },
    /// Nothing, so far.
    Nothing,
    /// The end of the input.
    End,
    /// A fault of the reader.
    Fault,
}

impl TurnBuffers {
    /// Empty buffers.
    pub fn new(alloc: Global) -> Result<TurnBuffers, AllocError>
        ensures { IfOk result (λ buffers. buffers ≡ record { input = []; replies = [] }) }
    {
        let mut read = Vec::new(alloc);
        read.resize(READ_SIZE, 0)?;
        Ok(TurnBuffers {
            read,
            input: Vec::with_capacity(alloc, MAX_UNREAD)?,
            replies: Vec::with_capacity(alloc, REPLY_CAPACITY)?,
        })
    }

    /// This input is at hand, and no reply is to be written.
    pub(super) fn load(&mut self, unread: &[u8])
        requires { length unread.now ≤ MAX_UNREAD }
        ensures { self.new ≡ record { input = unread.now; replies = [] } }
    {
        self.replies.clear();
        self.input.clear();
        self.input.extend_from_slice(unread).unwrap();
    }

    /// Writes what is taken of the replies.
    pub(super) fn send<W: Sink>(&mut self, output: &mut W) -> Sent
        ensures takes { TakesFirst (W.contents output.old) (W.contents output.new) self.old.replies self.new.replies }
        ensures input { self.new.input ≡ self.old.input }
        ensures all { result ≡ Sent.All → self.new.replies ≡ [] }
        ensures some { result ≡ Sent.Waits → self.new.replies ≢ [] }
        ensures fault { result ≡ Sent.Fails → W.has_failed output.new }
    {
        send(&mut self.replies, output)
    }

    /// Reads once, after the input that is at hand.
    pub(super) fn read_from<R: Input>(&mut self, input: &mut R) -> Came
        requires { length self.old.input ≤ MAX_LINE_BYTES }
        ensures comes { Comes (R.remaining input.old) (R.remaining input.new) self.old.input self.new.input result }
        ensures replies { self.new.replies ≡ self.old.replies }
        ensures failed { result ≡ Came.Fault → R.has_failed input.new }
    {
        match input.read_some(&mut self.read) {
            Ok(0) => Came::End,
            Ok(count) => {
                self.input.extend_from_slice(&self.read[..count]).unwrap();
                Came::Input {
                    is_all: count < READ_SIZE && input.is_polled(),
                }
            }
            Err(error) => came_of(&error),
        }
    }
}

// A source that would block has nothing at hand. Another error of it is a fault.
fn came_of(error: &io::Error) -> Came
    ensures either { (result ≡ Came.Nothing) ⊎ (result ≡ Came.Fault) }
    ensures fault { result ≡ Came.Fault → error_kind error.now ≢ ErrorKind.WouldBlock }
{
    if is_wait(error) {
        return Came::Nothing;
    }
    Came::Fault
}
