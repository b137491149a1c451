//! What is sent in a turn, and what is kept until the next.

ghost use Rattle.std.specs.Prelude.{◌≡◌, ◌≢◌, ◌≤◌, ◌⊎◌, [], IfOk, OnErr, OnOk, length, ◌+◌, drop, take, vec_len, vec_capacity, MatchBool};
ghost use Rattle.std.specs.Io.KnownBytes.{Appends};
ghost use Rattle.pn_lines.specs.Turns.{IsStored, held_in, TakesFirst};
ghost use Rattle.pn_lines.specs.declared.turns.buffers.TheConstants.{MAX_UNREAD};
ghost use Rattle.pn_line.specs.Prelude.{WouldBlock};

use crate::finding::PieceText;
use crate::turns::buffers::TurnBuffers;
use crate::turns::input::is_wait;
use crate::turns::{LineTurns, TurnFault, TurnOutcome};
use pn_line::{Sink, WriteFault};
use std::alloc::{AllocError, Global};

impl<G: Drop, T: PieceText> LineTurns<G, T> {
    /// Has its input in the buffers. It keeps none, and no replies.
    pub(super) fn load(&mut self, buffers: &mut TurnBuffers)
        requires { self.old.replies ≡ [] }
        ensures held { held_in self.new.engine buffers.new self.new.source ≡ self.old }
        ensures none { self.new ≡ record self.old { unread = [] } }
        ensures few { length buffers.new.input ≤ MAX_UNREAD }
    {
        buffers.load(&self.unread);
        self.unread = Vec::new(self.alloc);
        self.replies = Vec::new(self.alloc);
    }

    /// Keeps what is in the buffers where it goes on.
    pub(super) fn store(&mut self, buffers: &TurnBuffers, outcome: TurnOutcome) -> TurnOutcome
        requires { length buffers.now.input ≤ MAX_UNREAD }
        ensures { IsStored outcome result (held_in self.old.engine buffers.now self.old.source) self.new }
    {
        match outcome {
            TurnOutcome::Goes(pause) => {
                if self.keep(buffers).is_err() {
                    return TurnOutcome::Failed(TurnFault::Memory);
                }
                TurnOutcome::Goes(pause)
            }
            outcome => outcome,
        }
    }

    // Keeps what is in the buffers.
    fn keep(&mut self, buffers: &TurnBuffers) -> Result<(), AllocError>
        requires { length buffers.now.input ≤ MAX_UNREAD }
        ensures ok { OnOk result (self.new ≡ held_in self.old.engine buffers.now self.old.source) }
        ensures err { OnErr result ((self.new.engine ≡ self.old.engine) × (self.new.source ≡ self.old.source)
            × ((buffers.now.input ≢ []) ⊎ (buffers.now.replies ≢ []))) }
    {
        self.unread = copy_of(self.alloc, &buffers.input)?;
        self.replies = copy_of(self.alloc, &buffers.replies)?;
        Ok(())
    }
}

// Some bytes in memory of their size.
fn copy_of(alloc: Global, bytes: &[u8]) -> Result<Vec<u8>, AllocError>
    ensures ok { IfOk result (λ copy. copy.items ≡ bytes.now) }
    ensures err { OnErr result (bytes.now ≢ []) }
{
    if bytes.is_empty() {
        return Ok(Vec::new(alloc));
    }
    Vec::from_slice(alloc, bytes)
}

/// How far a sink took replies.
#[derive(Clone, Copy, Debug, PartialEq, Eq)]
pub(crate) enum Sent {
    /// All.
    All,
    /// It takes no more for now.
    Waits,
    /// It failed.
    Fails,
}

/// Writes what is taken, and drops it.
pub(super) fn send<W: Sink>(replies: &mut Vec<u8>, output: &mut W) -> Sent
    ensures takes { TakesFirst (W.contents output.old) (W.contents output.new) replies.old.items replies.new.items }
    ensures all { result ≡ Sent.All → replies.new.items ≡ [] }
    ensures some { result ≡ Sent.Waits → replies.new.items ≢ [] }
    ensures fault { result ≡ Sent.Fails → W.has_failed output.new }
    ensures capacity { vec_capacity replies.new ≡ vec_capacity replies.old }
{
    let (count, sent) = write_some_of(&*replies, output);
    drop_first(replies, count);
    sent
}

// Writes what is taken. How many bytes that is.
fn write_some_of<W: Sink>(bytes: &[u8], output: &mut W) -> (usize, Sent)
    ensures written { Appends (W.contents output.old) (W.contents output.new) (take result.0 bytes.now) }
    ensures within { result.0 ≤ length bytes.now }
    ensures all { result.1 ≡ Sent.All → result.0 ≡ length bytes.now }
    ensures some { result.1 ≡ Sent.Waits → result.0 ≢ length bytes.now }
    ensures fault { result.1 ≡ Sent.Fails → W.has_failed output.new }
{
    let mut count = 0;
    'writes: while count < bytes.len() {
        match output.write_some(&bytes[count..]) {
            Ok(more) => count += more,
            Err(fault) => return (count, after(&fault)),
        }
    }
    (count, Sent::All)
}

// A sink that would block takes no more for now.
fn after(fault: &WriteFault) -> Sent
    ensures waits { result ≡ Sent.Waits → WouldBlock fault.now }
    ensures fails { result ≡ Sent.Fails → ¬ (WouldBlock fault.now) }
    ensures some { result ≢ Sent.All }
{
    match fault {
        WriteFault::Failed(error) => {
            if is_wait(error) {
                return Sent::Waits;
            }
            Sent::Fails
        }
        WriteFault::TookNothing => Sent::Fails,
    }
}

/// Drops the first bytes. The others move to the front, in the same memory.
pub(super) fn drop_first(bytes: &mut Vec<u8>, count: usize)
    requires { count ≤ vec_len bytes.old }
    ensures items { bytes.new.items ≡ drop count bytes.old.items }
    ensures len { vec_len bytes.new + count ≡ vec_len bytes.old }
    ensures capacity { vec_capacity bytes.new ≡ vec_capacity bytes.old }
{
    let left = bytes.len() - count;
    bytes.copy_within(count.., 0);
    bytes.truncate(left);
}
