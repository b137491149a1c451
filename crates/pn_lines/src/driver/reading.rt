//! How a driver reads lines, and ends.

ghost use Rattle.std.specs.Prelude.{◌≡◌, ◌≢◌, ◌+◌, ◌≤◌, ◌<◌, ◌⊎◌, [], ℕ, Bool, List, false, true, Err, None, Option, IfErr, IfOk, OnErr, OnOk, OnSome};
ghost use Rattle.std.specs.Prelude.{vec_capacity};
ghost use Rattle.std.specs.Io.KnownBytes.{Appends, IsAtEnd};
ghost use Rattle.pn_line.specs.Line.{HasNext, newline_taken, Takes};
ghost use Rattle.pn_line.specs.Prelude.{AppendsPrefix, HasShown, so_far};
ghost use Rattle.pn_line.specs.declared.line_buffer.TheConstants.{ENDLESS};
ghost use Rattle.pn_lines.specs.Driving.{CanGo, EndsFlushed, Goes, GoesOn, Reads, Stops, polls_after, polls_unless, CanEnd, Flushes, HasEnded, Start};
ghost use Rattle.pn_lines.specs.Driving.{polls_left};
ghost use Rattle.pn_lines.specs.Engines.{stage_after};
ghost use Rattle.pn_lines.specs.Standing.{IsOver, count_by, newline_of};
ghost use Rattle.pn_lines.specs.declared.engine.state.Stage.TheVariants.{Reading};
ghost use Rattle.pn_lines.specs.declared.finding.TheConstants.{MAX_PIECE_BYTES};

use crate::driver::LinesFault;
use crate::driver::buffers::{settle, write_out};
use crate::engine::{Counts, LineEngine};
use crate::finding::PieceText;
use crate::handler::{EndedBy, LineHandler};
use pn_line::{LineBuffer, LineEnd, Sink, Source, read_line};

/// Reads a line, unless as many were answered as may be.
pub(super) fn next_line<G: Drop, T: PieceText, S: Source>(
    engine: &LineEngine<G, T>,
    line: &mut LineBuffer,
    input: &mut S,
) -> Result<LineEnd, LinesFault>
    ensures takes { IfOk result (λ end. Takes (so_far []) line.new (S.left input.old) (S.left input.new) (newline_taken end)) }
    ensures stops { IfOk result (λ end. Stops end engine.now.counts.lines engine.now.most (S.left input.old) line.new) }
    ensures below { IfOk result (λ end. end ≢ LineEnd.Endless → line.new.count < ENDLESS) }
    ensures end { IfOk result (λ end. end ≡ LineEnd.EndOfInput → S.may_end × OnSome (S.left input.old) (IsAtEnd (S.left input.new))) }
    ensures more { IfOk result (λ end. OnSome (S.left input.old) (HasNext end (S.left input.new))) }
    ensures fault { IfErr result (λ fault. (fault ≡ LinesFault.Read) × S.may_fail) }
    ensures kept { OnErr result (Takes (so_far []) line.new (S.left input.old) (S.left input.new) []) }
    ensures polls { S.polls input.new + polls_unless result engine.now ≤ S.polls input.old + polls_left engine.now.counts.lines engine.now.most }
{
    line.start();
    if engine.is_full() {
        return match input.has_more() {
            Ok(false) => Ok(LineEnd::EndOfInput),
            Ok(true) => Ok(LineEnd::Endless),
            Err(_) => Err(LinesFault::Read),
        };
    }
    match read_line(line, input) {
        Ok(end) => Ok(end),
        Err(_) => {
            recall_ends(&*line);
            Err(LinesFault::Read)
        }
    }
}

// No more bytes of a line are read than one without end has.
fn recall_ends(line: &LineBuffer)
    ensures { line.now.count ≤ ENDLESS }
{
    let _count = line.len();
}

/// Writes what waits, and hands it on.
pub(super) fn hand_out<W: Sink>(replies: &mut Vec<u8>, output: &mut W) -> Result<(), LinesFault>
    ensures ok { OnOk result (Appends (W.contents output.old) (W.contents output.new) replies.old.items) }
    ensures out { OnOk result (W.is_flushed output.new) }
    ensures none { replies.new.items ≡ [] }
    ensures capacity { vec_capacity replies.new ≡ vec_capacity replies.old }
    ensures err { OnErr result (AppendsPrefix (W.contents output.old) (W.contents output.new) replies.old.items) }
    ensures fault { IfErr result (λ fault. (fault ≡ LinesFault.Write) × W.may_fail) }
{
    write_out(replies, output)?;
    match output.flush() {
        Ok(()) => Ok(()),
        Err(_) => Err(LinesFault::Write),
    }
}

/// Answers a line that was read, and finishes its answer.
pub(super) fn answer_line<G: Drop, T: PieceText, M: LineHandler<Pending = G, Text = T>, W: Sink>(
    machine: &mut M,
    engine: &mut LineEngine<G, T>,
    line: &LineBuffer,
    ended: EndedBy,
    replies: &mut Vec<u8>,
    output: &mut W,
) -> Result<(), LinesFault>
    requires ready { M.ready }
    requires few { (engine.old.counts.lines < engine.old.most) ⊎ ((ended ≡ EndedBy.Input) × (line.now.count ≡ 0)) }
    requires reads { engine.old.stage ≡ Reading 0 }
    requires made { engine.old.left ≡ [] }
    requires short { line.now.count < ENDLESS }
    requires capacity { MAX_PIECE_BYTES ≤ vec_capacity replies.old }
    ensures ok { OnOk result ((start : Start M) (left leaves : Option (List ℕ)) (last : Bool) → Takes (so_far []) line.now left leaves (newline_of ended)
        → IsOver ended [] last → (last ≡ true → OnSome left (IsAtEnd leaves))
        → Reads M.handling start left (W.contents output.old) replies.old.items false machine.old engine.old
        → Reads M.handling start leaves (W.contents output.new) replies.new.items last machine.new engine.new) }
    ensures settled { OnOk result ((engine.new.left ≡ []) × (engine.new.stage ≡ stage_after ended)) }
    ensures err { OnErr result ((start : Start M) (left leaves : Option (List ℕ)) (last : Bool) → Takes (so_far []) line.now left leaves (newline_of ended)
        → IsOver ended [] last → (last ≡ true → OnSome left (IsAtEnd leaves))
        → Reads M.handling start left (W.contents output.old) replies.old.items false machine.old engine.old
        → HasEnded M.handling engine.old.most start leaves (W.contents output.new) machine.new (Err LinesFault.Write)) }
    ensures fault { IfErr result (λ fault. (fault ≡ LinesFault.Write) × W.may_fail) }
    ensures lines { OnOk result (engine.new.counts.lines ≡ engine.old.counts.lines + count_by ended line.now.count) }
    ensures most { engine.new.most ≡ engine.old.most }
    ensures grows { vec_capacity replies.old ≤ vec_capacity replies.new }
    ensures kept { M.keeps machine.old machine.new }
{
    engine.take_line(machine, line, ended);
    settle(machine, engine, replies, output)
}

/// Ends between two lines, once what waits is written. How it ended.
pub(super) fn close<
    G: Drop,
    T: PieceText,
    M: LineHandler<Pending = G, Text = T>,
    S: Source,
    W: Sink,
>(
    _machine: &M,
    _engine: &LineEngine<G, T>,
    replies: &mut Vec<u8>,
    _input: &S,
    output: &mut W,
) -> LinesFault
    requires closed { M.handling.closed _machine.now }
    requires reads { _engine.now.stage ≡ Reading 0 }
    requires made { _engine.now.left ≡ [] }
    ensures ends { (start : Start M) → Reads M.handling start (S.left _input.now) (W.contents output.old) replies.old.items false _machine.now _engine.now
        → HasEnded M.handling _engine.now.most start (S.left _input.now) (W.contents output.new) _machine.now (Err result) }
    ensures can { CanEnd ⊥ W.may_fail ⊥ (M.handling.closed _machine.now) (Err result) }
    ensures out { Flushes (Err result) (W.is_flushed output.new) }
    ensures capacity { vec_capacity replies.new ≡ vec_capacity replies.old }
{
    match hand_out(replies, output) {
        Ok(()) => LinesFault::Closed,
        Err(fault) => fault,
    }
}

// Why no line was read: as many were answered as may be, or this one has no end.
fn limit_of<G: Drop, T: PieceText>(engine: &LineEngine<G, T>) -> LinesFault
    ensures full { engine.now.most ≤ engine.now.counts.lines → result ≡ LinesFault.TooManyLines }
    ensures endless { engine.now.counts.lines < engine.now.most → result ≡ LinesFault.EndlessLine }
{
    if engine.is_full() {
        return LinesFault::TooManyLines;
    }
    LinesFault::EndlessLine
}

/// Reads a line and answers it. What was counted where the input is at its end. Where it goes on, the source has shown more, or no reply
/// waits.
pub(super) fn answer_next<
    G: Drop,
    T: PieceText,
    M: LineHandler<Pending = G, Text = T>,
    S: Source,
    W: Sink,
>(
    machine: &mut M,
    engine: &mut LineEngine<G, T>,
    line: &mut LineBuffer,
    replies: &mut Vec<u8>,
    input: &mut S,
    output: &mut W,
) -> Result<Option<Counts>, LinesFault>
    requires ready { M.ready }
    requires reads { engine.old.stage ≡ Reading 0 }
    requires made { engine.old.left ≡ [] }
    requires capacity { MAX_PIECE_BYTES ≤ vec_capacity replies.old }
    requires few { engine.old.counts.lines ≤ engine.old.most }
    ensures ends { (start : Start M) → Reads M.handling start (S.left input.old) (W.contents output.old) replies.old.items false machine.old engine.old
        → Goes M.handling engine.old.most start (S.left input.new) (W.contents output.new) replies.new.items machine.new engine.new result }
    ensures more { IfOk result (λ ended. ended ≡ None → GoesOn engine.old engine.new) }
    ensures can { CanGo S.may_fail W.may_fail S.may_end engine.old.most result }
    ensures out { EndsFlushed result (W.is_flushed output.new) }
    ensures waits { IfOk result (λ ended. ended ≡ None → OnSome (S.left input.old) (HasShown true (S.left input.new))
        ⊎ ((replies.new.items ≡ []) × W.is_flushed output.new)) }
    ensures polls { S.polls input.new + polls_after engine.new result ≤ S.polls input.old + polls_left engine.old.counts.lines engine.old.most }
    ensures grows { vec_capacity replies.old ≤ vec_capacity replies.new }
    ensures kept { M.keeps machine.old machine.new }
{
    match next_line(&*engine, line, input) {
        Ok(LineEnd::Newline { more }) => {
            answer_line(machine, engine, &*line, EndedBy::Newline, replies, output)?;
            if !more {
                hand_out(replies, output)?;
            }
            Ok(None)
        }
        Ok(LineEnd::EndOfInput) => {
            answer_line(machine, engine, &*line, EndedBy::Input, replies, output)?;
            hand_out(replies, output)?;
            Ok(Some(engine.counts()))
        }
        Ok(LineEnd::Endless) => {
            hand_out(replies, output)?;
            Err(limit_of(&*engine))
        }
        Err(fault) => {
            hand_out(replies, output)?;
            Err(fault)
        }
    }
}
