//! A session's reader that counts lines by their kinds.

ghost use Rattle.std.specs.Prelude.{◌≡◌, ◌≤◌, ℕ, List};
ghost use Rattle.pn_serve.specs.Session.Lines.{counted, one_line_less, one_line_more, taken_back, AnswersLine};
ghost use Rattle.pn_line.specs.Prelude.{kept_bytes};
ghost use Rattle.pn_lines.specs.Answers.{AnswersBy, answer_left as engine_left, answer_of};
ghost use Rattle.pn_lines.specs.declared.handler.TheConstants.{MAX_ANSWER_UNITS};
ghost use Rattle.pn_serve.specs.Session.Resuming.{AnswersWith, answer_left, reads_lines, KnowsNoLess, LooksFor, pending_left, most_left};
ghost use Rattle.pn_serve.specs.Lines.{pieces_left};

use crate::machine::line_answers::{
    LineAnswer, LineOutcome, ReplyPieces, answered, is_no_line, is_refusal, line_reply,
};
use crate::sessions::lookups::answer_with_kind;
use crate::sessions::pending_lookup::PendingLookup;
use pn_lines::{EndedBy, LineHandler, LineReply, RefusesLong};
use pn_live::LiveReader;
use pn_protocol::{LineCounts, LineKind, LineKinds, Refusal, Reply};
use std::alloc::Global;
use std::marker::Model;
use std::mem;

/// No line was answered.
const NO_LINE: LineCounts = LineCounts {
    answered: 0,
    refused: 0,
};

/// No line of any kind was answered.
pub(crate) const NO_LINES: LineKinds = LineKinds {
    copy: NO_LINE,
    get: NO_LINE,
    other: NO_LINE,
    read: NO_LINE,
    scan: NO_LINE,
};

/// Counts a line of a kind.
pub(super) fn count_line(kinds: &mut LineKinds, kind: LineKind, is_refused: bool)
    ensures { kinds.new ≡ counted kind is_refused kinds.old }
{
    match kind {
        LineKind::Copy => count_one(&mut kinds.copy, is_refused),
        LineKind::Get => count_one(&mut kinds.get, is_refused),
        LineKind::Other => count_one(&mut kinds.other, is_refused),
        LineKind::Read => count_one(&mut kinds.read, is_refused),
        LineKind::Scan => count_one(&mut kinds.scan, is_refused),
    }
}

/// A line of a kind that was answered counts no longer.
pub(super) fn take_line_back(kinds: &mut LineKinds, kind: LineKind)
    ensures { kinds.new ≡ taken_back kind kinds.old }
{
    match kind {
        LineKind::Copy => take_one_back(&mut kinds.copy),
        LineKind::Get => take_one_back(&mut kinds.get),
        LineKind::Other => take_one_back(&mut kinds.other),
        LineKind::Read => take_one_back(&mut kinds.read),
        LineKind::Scan => take_one_back(&mut kinds.scan),
    }
}

fn take_one_back(counts: &mut LineCounts)
    ensures { counts.new ≡ one_line_less counts.old }
{
    counts.answered = counts.answered.saturating_sub(1);
}

fn count_one(counts: &mut LineCounts, is_refused: bool)
    ensures { counts.new ≡ one_line_more is_refused counts.old }
{
    counts.answered = counts.answered.saturating_add(1);
    if is_refused {
        counts.refused = counts.refused.saturating_add(1);
    }
}

/// A reader, and the lines that it answered since they were asked for last.
#[derive(Drop)]
pub struct CountingReader {
    reader: LiveReader,
    kinds: LineKinds,
}

impl Model for CountingReader {
    ghost use Rattle.pn_live.specs.Proofs.{reader_code};
    ghost use Rattle.pn_live.specs.Readers.{LiveReaderValue};

    ghost Value = { LiveReaderValue };

    ghost coded = { reader_code };

    ghost view = { λ counting. counting.reader };
}

impl CountingReader {
    /// A reader that has answered no line.
    pub fn new(reader: LiveReader) -> CountingReader
        ensures { result ≡ reader }
    {
        CountingReader {
            reader,
            kinds: NO_LINES,
        }
    }

    /// The reader.
    pub fn into_reader(self) -> LiveReader
        ensures { result ≡ self }
    {
        let CountingReader {
            reader,
            kinds: _kinds,
        } = self;
        reader
    }

    /// How many lines of each kind it answered since this was asked last.
    pub fn take_kinds(&mut self) -> LineKinds
        ensures { self.new ≡ self.old }
    {
        mem::replace(&mut self.kinds, NO_LINES)
    }

    /// A line of a kind that was answered is to be asked again: it counts no longer.
    pub fn take_back(&mut self, kind: LineKind)
        ensures { self.new ≡ self.old }
    {
        take_line_back(&mut self.kinds, kind);
    }

    /// Answers a line, or begins to. How much is left of it then is bounded.
    pub fn begin_line(&mut self, alloc: Global, line: &[u8], ended: EndedBy) -> LineAnswer
        ensures answers { (text : List ℕ) → line.now ≡ kept_bytes text
            → AnswersBy (reads_lines KnowsNoLess) self.old ended text self.new (answer_of pieces_left result.answer) }
        ensures bounded { engine_left pending_left (answer_of pieces_left result.answer) ≤ most_left }
        ensures few { result.units ≤ MAX_ANSWER_UNITS }
        ensures kept { KnowsNoLess self.old self.new }
    {
        if is_no_line(line, ended) {
            return answered(LineOutcome::Done(Reply::Silent), 0);
        }
        answered(self.answer_line(alloc, line), 1)
    }

    // Answers a line, or begins to look for the reply.
    fn answer_line(&mut self, alloc: Global, line: &[u8]) -> LineOutcome
        ensures answers { AnswersWith (AnswersLine KnowsNoLess) (LooksFor KnowsNoLess) self.old line.now self.new result }
        ensures bounded { answer_left result ≤ most_left }
    {
        let (kind, answer) = answer_with_kind(alloc, &mut self.reader, line);
        self.count(kind, answer)
    }

    // Counts a line of a kind, once it has its reply.
    fn count(&mut self, kind: LineKind, answer: LineOutcome) -> LineOutcome
        ensures same { result ≡ answer }
        ensures kept { self.new ≡ self.old }
    {
        if let LineOutcome::Done(reply) = &answer {
            count_line(&mut self.kinds, kind, is_refusal(reply));
        }
        answer
    }
}

impl LineHandler for CountingReader {
    ghost use Rattle.pn_serve.specs.Proofs.{knows_steadily, reads_steadily};
    ghost use Rattle.pn_serve.specs.Session.Resuming.{reads_lines};
    ghost use Rattle.pn_serve.specs.Session.Resuming.{KnowsNoLess};
    ghost use Rattle.pn_serve.specs.Session.Resuming.{pending_left};
    ghost use Rattle.std.specs.Prelude.{⊤};

    type Pending = PendingLookup;

    type Text = ReplyPieces;

    ghost ready = { ⊤ };

    // Several connections share it: between two looks of one the others look.
    ghost handling = { reads_lines KnowsNoLess };

    ghost left = { pending_left };

    ghost keeps = { KnowsNoLess };

    fn answer(&mut self, alloc: Global, line: &[u8], ended: EndedBy) -> LineAnswer {
        self.begin_line(alloc, line, ended)
    }

    fn go_on(&mut self, alloc: Global, pending: PendingLookup, units: u32) -> LineAnswer {
        let kind = pending.kind();
        let (answer, used) = pending.go_on(alloc, &mut self.reader, units);
        answered(self.count(kind, answer), used)
    }

    ghost steady = { reads_steadily KnowsNoLess knows_steadily };
}

impl RefusesLong for CountingReader {
    fn refuse_long(&mut self, _ended: EndedBy) -> LineReply<ReplyPieces> {
        count_line(&mut self.kinds, LineKind::Other, true);
        line_reply(Reply::Refused(Refusal::TooLong))
    }
}
