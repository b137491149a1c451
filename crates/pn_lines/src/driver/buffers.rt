//! The buffers of a driver, and how they are settled.

ghost use Rattle.std.specs.Prelude.{◌≡◌, [], ◌+◌, ◌≤◌, IfErr, OnErr, OnOk, vec_capacity, vec_len};
ghost use Rattle.std.specs.Io.KnownBytes.{Appends};
ghost use Rattle.pn_line.specs.Prelude.{so_far, AppendsPrefix, Sends};
ghost use Rattle.pn_lines.specs.Driving.{Fails, IsAfter, SameLines, Writes};
ghost use Rattle.pn_lines.specs.Engines.{pending_left};
ghost use Rattle.pn_lines.specs.declared.handler.EndedBy.{EndedBy};
ghost use Rattle.pn_lines.specs.declared.finding.TheConstants.{MAX_PIECE_BYTES};

use crate::driver::LinesFault;
use crate::engine::{LineEngine, MAX_CALL_UNITS};
use crate::finding::{MAX_PIECE_BYTES, PieceText};
use crate::handler::LineHandler;
use pn_line::{LineBuffer, Sink, write_all_of};
use std::alloc::{AllocError, Global};
use std::marker::Model;

/// How many bytes of replies may wait: a block, and a piece.
const REPLY_CAPACITY: usize = 131_072;

/// The line that is read, and the replies that wait. Their memory is allocated once.
#[derive(Drop)]
pub struct LineBuffers {
    pub(super) alloc: Global,
    pub(super) line: LineBuffer,
    pub(super) replies: Vec<u8>,
}

impl Model for LineBuffers {
    ghost use Rattle.std.specs.Prelude.{◌≤◌, ℕ, List, vec_capacity};
    ghost use Rattle.pn_lines.specs.declared.finding.TheConstants.{MAX_PIECE_BYTES};

    ghost Value = { List ℕ };

    ghost view = { λ buffers. buffers.replies.items };

    ghost invariant = { λ buffers. MAX_PIECE_BYTES ≤ vec_capacity buffers.replies };
}

impl LineBuffers {
    /// Buffers in which nothing waits.
    pub fn new(alloc: Global) -> Result<LineBuffers, AllocError> {
        Ok(LineBuffers {
            alloc,
            line: LineBuffer::new(alloc)?,
            replies: Vec::with_capacity(alloc, REPLY_CAPACITY)?,
        })
    }

    /// Nothing waits any more.
    pub(super) fn clear(&mut self)
        ensures { self.new ≡ [] }
    {
        self.replies.clear();
    }
}

/// Goes on with an answer until it is there, and makes its text. Where there is no room, it writes.
pub(super) fn settle<G: Drop, T: PieceText, M: LineHandler<Pending = G, Text = T>, W: Sink>(
    machine: &mut M,
    engine: &mut LineEngine<G, T>,
    replies: &mut Vec<u8>,
    output: &mut W,
) -> Result<(), LinesFault>
    requires ready { M.ready }
    requires capacity { MAX_PIECE_BYTES ≤ vec_capacity replies.old }
    ensures ok { OnOk result (Writes M.handling (W.contents output.old) (W.contents output.new) replies.old.items replies.new.items
        machine.old machine.new engine.old engine.new) }
    ensures made { OnOk result ((engine.new.left ≡ []) × (pending_left M.left engine.new.stage ≡ 0)) }
    ensures err { OnErr result (Fails M.handling (W.contents output.old) (W.contents output.new) replies.old.items
        machine.old machine.new engine.old engine.new) }
    ensures fault { IfErr result (λ fault. (fault ≡ LinesFault.Write) × W.may_fail) }
    ensures after { (ended : EndedBy) → IsAfter ended engine.old.stage → IsAfter ended engine.new.stage }
    ensures same { SameLines engine.old engine.new }
    ensures grows { vec_capacity replies.old ≤ vec_capacity replies.new }
    ensures kept { M.keeps machine.old machine.new }
{
    'answers: loop {
        write_text(&*machine, engine, replies, output)?;
        if !engine.resume(machine, MAX_CALL_UNITS) {
            return Ok(());
        }
    }
}

// Makes the text of a reply, and writes where there is no room.
fn write_text<G: Drop, T: PieceText, M: LineHandler<Pending = G, Text = T>, W: Sink>(
    _machine: &M,
    engine: &mut LineEngine<G, T>,
    replies: &mut Vec<u8>,
    output: &mut W,
) -> Result<(), LinesFault>
    requires capacity { MAX_PIECE_BYTES ≤ vec_capacity replies.old }
    ensures ok { OnOk result (Writes M.handling (W.contents output.old) (W.contents output.new) replies.old.items replies.new.items
        _machine.now _machine.now engine.old engine.new) }
    ensures made { OnOk result (engine.new.left ≡ []) }
    ensures err { OnErr result (Fails M.handling (W.contents output.old) (W.contents output.new) replies.old.items
        _machine.now _machine.now engine.old engine.new) }
    ensures fault { IfErr result (λ fault. (fault ≡ LinesFault.Write) × W.may_fail) }
    ensures others { engine.new ≡ record engine.old { left = engine.new.left } }
    ensures grows { vec_capacity replies.old ≤ vec_capacity replies.new }
{
    'pieces: while engine.has_text() {
        make_room(replies, output)?;
        engine.make_text(replies);
    }
    Ok(())
}

// Writes what waits where there is no room for a piece.
fn make_room<W: Sink>(replies: &mut Vec<u8>, output: &mut W) -> Result<(), LinesFault>
    requires capacity { MAX_PIECE_BYTES ≤ vec_capacity replies.old }
    ensures ok { OnOk result (Sends (W.contents output.old) (W.contents output.new) replies.old.items replies.new.items []) }
    ensures room { OnOk result (vec_len replies.new + MAX_PIECE_BYTES ≤ vec_capacity replies.new) }
    ensures err { OnErr result (AppendsPrefix (W.contents output.old) (W.contents output.new) replies.old.items) }
    ensures fault { IfErr result (λ fault. (fault ≡ LinesFault.Write) × W.may_fail) }
    ensures grows { vec_capacity replies.old ≤ vec_capacity replies.new }
{
    if replies.capacity() - replies.len() < MAX_PIECE_BYTES {
        return write_out(replies, output);
    }
    Ok(())
}

/// Writes what waits.
pub(super) fn write_out<W: Sink>(replies: &mut Vec<u8>, output: &mut W) -> Result<(), LinesFault>
    ensures ok { OnOk result (Appends (W.contents output.old) (W.contents output.new) replies.old.items) }
    ensures none { replies.new.items ≡ [] }
    ensures capacity { vec_capacity replies.new ≡ vec_capacity replies.old }
    ensures err { OnErr result (AppendsPrefix (W.contents output.old) (W.contents output.new) replies.old.items) }
    ensures fault { IfErr result (λ fault. (fault ≡ LinesFault.Write) × W.may_fail) }
{
    let written = write_all_of(output, replies);
    replies.clear();
    match written {
        Ok(()) => Ok(()),
        Err(_) => Err(LinesFault::Write),
    }
}
