//! The state of an engine, and its stage.

ghost use Rattle.std.specs.Prelude.{◌≡◌, ◌≢◌, ◌+◌, ◌≤◌, ◌<◌, ◌↔◌, ◌-◌, ◌^◌, IfNone, IfSome, IsFalse, IsTrue, [], length, max, min, vec_len, vec_capacity};
ghost use Rattle.pn_lines.specs.Answers.{answer_of};
ghost use Rattle.pn_lines.specs.Engines.{after_answer, dropping, is_pending as goes_on, stage_after as next_stage, with_lines};
ghost use Rattle.pn_lines.specs.Giving.{Gives};
ghost use Rattle.pn_lines.specs.declared.engine.TheConstants.{BLOCK_BYTES};
ghost use Rattle.pn_lines.specs.Handling.{one_if};
ghost use Rattle.pn_lines.specs.declared.engine.state.Stage.TheVariants.{Reading};
ghost use Rattle.pn_lines.specs.declared.finding.TheConstants.{MAX_PIECE_BYTES};

use crate::engine::{BLOCK_BYTES, LineEngine};
use crate::finding::{MAX_PIECE_BYTES, PieceText};
use crate::handler::{EndedBy, LineOutcome, LineReply};
use std::mem;

/// What is done next, once no text is left to be made.
#[derive(Drop)]
pub(crate) enum Stage<G> {
    /// Lines are taken. Of a line that is too long, this number of bytes was dropped.
    Reading(usize),
    /// An answer is gone on with, to a line that ended so.
    Pending(G, EndedBy),
    /// No more is taken.
    Ended(LinesEnd),
}

/// How the lines of an input ended.
#[derive(Clone, Copy, Debug, PartialEq, Eq)]
pub enum LinesEnd {
    /// With the input. All lines were answered.
    Input,
    /// With the handler, which answers no further line. All lines before were answered.
    Closed,
    /// There are more lines than may be answered. As many were.
    TooManyLines,
    /// A line has no end. All lines before were answered.
    EndlessLine,
}

impl<G: Drop, T: PieceText> LineEngine<G, T> {
    /// What is done next. The engine then reads, and keeps nothing of a reply whose text is made.
    pub(super) fn take_stage(&mut self) -> Stage<G>
        requires made { self.old.left ≡ [] }
        ensures stage { result ≡ self.old.stage }
        ensures reads { self.new ≡ dropping 0 self.old }
    {
        self.text = None;
        mem::replace(&mut self.stage, Stage::Reading(0))
    }

    /// What is done next is this.
    pub(super) fn set_stage(&mut self, stage: Stage<G>)
        ensures { self.new ≡ record self.old { stage = stage } }
    {
        self.stage = stage;
    }

    /// So many lines more were taken.
    pub(super) fn count_lines(&mut self, lines: u64)
        requires { self.old.counts.lines + lines ≤ max self.old.most self.old.counts.lines }
        ensures { self.new ≡ with_lines lines self.old }
    {
        let _most = self.most;
        self.counts.lines += lines;
    }

    /// Whether as many lines were taken as may be.
    pub(crate) fn is_full(&self) -> bool
        ensures { IsTrue result ↔ (self.now.most ≤ self.now.counts.lines) }
    {
        self.counts.lines >= self.most
    }

    /// Takes the answer to a line.
    pub(super) fn take_answer(&mut self, answer: LineOutcome<G, T>, ended: EndedBy)
        ensures { self.new ≡ after_answer (answer_of T.unmade answer) ended self.old }
    {
        match answer {
            LineOutcome::Done(reply) => self.take_reply(reply, ended),
            LineOutcome::Pending(pending) => self.stage = Stage::Pending(pending, ended),
        }
    }

    // Takes the reply to a line.
    fn take_reply(&mut self, reply: LineReply<T>, ended: EndedBy)
        ensures { self.new ≡ after_answer (answer_of T.unmade (LineOutcome.Done reply)) ended self.old }
    {
        self.counts.refused = count_if(self.counts.refused, reply.is_refusal);
        self.text = Some(reply.text);
        self.stage = stage_after(ended);
    }

    /// The text of a reply of which some is still to be made.
    pub(crate) fn unmade(&self) -> Option<&T>
        ensures some { IfSome result (λ text. T.unmade text.now ≡ self.now.left) }
        ensures none { IfNone result (self.now.left ≡ []) }
    {
        match &self.text {
            Some(text) => Some(text),
            None => None,
        }
    }

    /// Whether an answer is gone on with.
    pub(crate) fn is_pending(&self) -> bool
        ensures { result ≡ goes_on self.now.stage }
    {
        match &self.stage {
            Stage::Pending(_, _) => true,
            Stage::Reading(_) | Stage::Ended(_) => false,
        }
    }

    /// Whether text of a reply is still to be made.
    pub(crate) fn has_text(&self) -> bool
        ensures some { IsTrue result → self.now.left ≢ [] }
        ensures none { IsFalse result → self.now.left ≡ [] }
    {
        match &self.text {
            Some(text) => !text.is_made(),
            None => false,
        }
    }

    /// Makes text while there is room for a piece, of a block and less than a piece at most.
    pub(crate) fn make_text(&mut self, replies: &mut Vec<u8>)
        ensures gives { Gives self.old.left self.new.left replies.old replies.new }
        ensures others { self.new ≡ record self.old { left = self.new.left } }
        ensures few { vec_len replies.new < vec_len replies.old + BLOCK_BYTES + MAX_PIECE_BYTES }
        ensures some { vec_len replies.old + MAX_PIECE_BYTES ≤ vec_capacity replies.old → self.old.left ≢ []
            → length self.new.left < length self.old.left }
    {
        let Some(text) = &mut self.text else { return };
        fill(text, replies);
    }
}

// One more where this is so, as far as that has 64 bits.
fn count_if(count: u64, is_so: bool) -> u64
    ensures { result ≡ min (count + one_if is_so) (2 ^ 64 - 1) }
{
    if is_so {
        return count.saturating_add(1);
    }
    count
}

// What is done after a reply.
fn stage_after<G>(ended: EndedBy) -> Stage<G>
    ensures { result ≡ next_stage ended }
{
    match ended {
        EndedBy::Newline => Stage::Reading(0),
        EndedBy::Input => Stage::Ended(LinesEnd::Input),
    }
}

// Makes text while there is room for a piece, of a block and less than a piece at most.
fn fill<T: PieceText>(text: &mut T, replies: &mut Vec<u8>)
    ensures gives { Gives (T.unmade text.old) (T.unmade text.new) replies.old replies.new }
    ensures few { vec_len replies.new < vec_len replies.old + BLOCK_BYTES + MAX_PIECE_BYTES }
    ensures some { vec_len replies.old + MAX_PIECE_BYTES ≤ vec_capacity replies.old → T.unmade text.old ≢ []
        → length (T.unmade text.new) < length (T.unmade text.old) }
{
    let before = replies.len();
    'pieces: while !text.is_made() {
        if replies.capacity() - replies.len() < MAX_PIECE_BYTES {
            return;
        }
        if replies.len() - before >= BLOCK_BYTES {
            return;
        }
        text.write_piece(replies);
    }
}
