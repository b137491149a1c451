//! The reader of an event loop, whose replies keep no more records than there is room for.

ghost use Rattle.std.specs.Prelude.{◌≡◌, ◌<◌, ◌≤◌, max, true, None, IfSome};
ghost use Rattle.pn_lines.specs.Answers.{answer_left as engine_left, answer_of};
ghost use Rattle.pn_lines.specs.declared.handler.TheConstants.{MAX_ANSWER_UNITS};
ghost use Rattle.pn_serve.specs.Lines.{pieces_left};
ghost use Rattle.pn_serve.specs.Session.Resuming.{KnowsNoLess};
ghost use Rattle.pn_stay.specs.Looks.{AsksAgain, LooksFor, LooksOn, Settles, look_left, under};

use crate::room::{ANY_ROOM, fits};
use pn_lines::{Answered, EndedBy, LineHandler, LineOutcome, LineReply, RefusesLong};
use pn_live::LiveReader;
use pn_protocol::{LineKind, LineKinds};
use pn_serve::{CountingReader, PendingLookup, ReplyPieces};
use std::alloc::Global;
use std::marker::Model;

/// How often a line is asked at most whether there is room, before it is answered without.
const MAX_WAITS: u64 = u64::MAX;

/// A line that was asked, and what ended it.
#[derive(Drop)]
pub(crate) struct AskedLine {
    bytes: Vec<u8>,
    ended: EndedBy,
}

/// A look for the reply to a line.
#[derive(Drop)]
pub(crate) enum BoundedLookup {
    /// It goes on. With its line it may be put off.
    Under(PendingLookup, Option<AskedLine>),
    /// Its reply kept `weight` bytes, for which there was no room. The line is asked again once there is, or after `waits` waits.
    PutOff {
        line: AskedLine,
        weight: u64,
        waits: u64,
    },
}

/// A reader, how many bytes of records a reply may keep, and how many a line waits for.
#[derive(Drop)]
pub(crate) struct BoundedReader {
    reader: CountingReader,
    room: u64,
    wanted: Option<u64>,
}

impl Model for BoundedReader {
    ghost use Rattle.pn_live.specs.Proofs.{reader_code};
    ghost use Rattle.pn_live.specs.Readers.{LiveReaderValue};

    ghost Value = { LiveReaderValue };

    ghost coded = { reader_code };

    ghost view = { λ bounded. bounded.reader };
}

impl BoundedReader {
    /// A reader that has answered no line.
    pub(crate) fn new(reader: LiveReader) -> BoundedReader
        ensures { result ≡ reader }
    {
        BoundedReader {
            reader: CountingReader::new(reader),
            room: ANY_ROOM,
            wanted: None,
        }
    }

    /// The reader.
    pub(crate) fn into_reader(self) -> LiveReader
        ensures { result ≡ self }
    {
        let BoundedReader { reader, .. } = self;
        reader.into_reader()
    }

    /// How many lines of each kind it answered since this was asked last.
    pub(crate) fn take_kinds(&mut self) -> LineKinds
        ensures { self.new ≡ self.old }
    {
        self.reader.take_kinds()
    }

    /// A turn begins, whose reply may keep this number of bytes of records.
    pub(crate) fn begin_turn(&mut self, room: u64)
        ensures { self.new ≡ self.old }
    {
        self.room = room;
        self.wanted = None;
    }

    /// For how many bytes of records a line waits since this turn, if one does.
    pub(crate) fn wanted(&self) -> Option<u64> {
        self.wanted
    }

    // Goes on with a look. Where there is no room for what its reply keeps, and its line is there, that is put off.
    fn look_on(
        &mut self,
        alloc: Global,
        pending: PendingLookup,
        line: Option<AskedLine>,
        units: u32,
    ) -> Answered<BoundedLookup, ReplyPieces>
        ensures looks { LooksOn self.old self.new pending line (answer_of pieces_left result.answer) }
        ensures nearer { 0 < units → engine_left look_left (answer_of pieces_left result.answer) ≤ look_left (BoundedLookup.Under pending line) }
        ensures few { result.units ≤ max units MAX_ANSWER_UNITS }
        ensures kept { KnowsNoLess self.old self.new }
    {
        let kind = pending.kind();
        let Answered {
            answer,
            units: used,
        } = self.reader.go_on(alloc, pending, units);
        match answer {
            LineOutcome::Pending(pending) => Answered {
                answer: LineOutcome::Pending(BoundedLookup::Under(pending, line)),
                units: used,
            },
            LineOutcome::Done(reply) => Answered {
                answer: self.settle(kind, reply, line),
                units: used.max(units),
            },
        }
    }

    // The reply, or its line that is put off.
    fn settle(
        &mut self,
        kind: LineKind,
        reply: LineReply<ReplyPieces>,
        line: Option<AskedLine>,
    ) -> LineOutcome<BoundedLookup, ReplyPieces>
        ensures settles { Settles reply line result }
        ensures kept { self.new ≡ self.old }
    {
        let weight = self.weight_of(&reply);
        if fits(weight, self.room) {
            return LineOutcome::Done(reply);
        }
        match line {
            Some(line) => {
                self.reader.take_back(kind);
                self.wanted = Some(weight);
                LineOutcome::Pending(BoundedLookup::PutOff {
                    line,
                    weight,
                    waits: MAX_WAITS,
                })
            }
            None => LineOutcome::Done(reply),
        }
    }

    // How many bytes of records a reply keeps. It is not looked over where there is room for any.
    fn weight_of(&self, reply: &LineReply<ReplyPieces>) -> u64 {
        if self.room == ANY_ROOM {
            return 0;
        }
        reply.text.0.weight()
    }

    // Whether a line that was put off waits on.
    fn must_wait(&self, weight: u64, waits: u64) -> bool
        ensures { result ≡ true → 0 < waits }
    {
        waits > 0 && !fits(weight, self.room)
    }

    // Asks a line again that was put off, if there is room for its reply.
    fn ask_again(
        &mut self,
        alloc: Global,
        line: AskedLine,
        weight: u64,
        waits: u64,
        units: u32,
    ) -> Answered<BoundedLookup, ReplyPieces>
        ensures asks { AsksAgain self.old self.new line waits (answer_of pieces_left result.answer) }
        ensures nearer { engine_left look_left (answer_of pieces_left result.answer) ≤ look_left (BoundedLookup.PutOff line weight waits) }
        ensures few { result.units ≤ max units MAX_ANSWER_UNITS }
        ensures kept { KnowsNoLess self.old self.new }
    {
        if self.must_wait(weight, waits) {
            self.wanted = Some(weight);
            let waits = waits - 1;
            return Answered {
                answer: LineOutcome::Pending(BoundedLookup::PutOff {
                    line,
                    weight,
                    waits,
                }),
                units,
            };
        }
        let Answered { answer, units } = self.reader.begin_line(alloc, &line.bytes, line.ended);
        Answered {
            answer: looked_under(answer),
            units,
        }
    }
}

// A look that is not put off.
fn looked_under(
    answer: LineOutcome<PendingLookup, ReplyPieces>,
) -> LineOutcome<BoundedLookup, ReplyPieces>
    ensures { result ≡ under None answer }
{
    match answer {
        LineOutcome::Pending(pending) => LineOutcome::Pending(BoundedLookup::Under(pending, None)),
        LineOutcome::Done(reply) => LineOutcome::Done(reply),
    }
}

// A look that may be put off where there is memory for its line.
fn looked_for(
    alloc: Global,
    answer: LineOutcome<PendingLookup, ReplyPieces>,
    line: &[u8],
    ended: EndedBy,
) -> LineOutcome<BoundedLookup, ReplyPieces>
    ensures { LooksFor line.now ended answer result }
{
    match answer {
        LineOutcome::Pending(pending) => {
            LineOutcome::Pending(BoundedLookup::Under(pending, asked_line(alloc, line, ended)))
        }
        LineOutcome::Done(reply) => LineOutcome::Done(reply),
    }
}

// A line that was asked, if there is memory for it.
fn asked_line(alloc: Global, line: &[u8], ended: EndedBy) -> Option<AskedLine>
    ensures { IfSome result (λ asked. (asked.bytes.items ≡ line.now) × (asked.ended ≡ ended)) }
{
    match Vec::from_slice(alloc, line) {
        Ok(bytes) => Some(AskedLine { bytes, ended }),
        Err(_) => None,
    }
}

impl LineHandler for BoundedReader {
    ghost use Rattle.pn_serve.specs.Session.Resuming.{KnowsNoLess};
    ghost use Rattle.pn_stay.specs.Looks.{bounded_reads, look_left};
    ghost use Rattle.pn_stay.specs.Proofs.{reads_steadily};
    ghost use Rattle.std.specs.Prelude.{⊤};

    type Pending = BoundedLookup;

    type Text = ReplyPieces;

    ghost ready = { ⊤ };

    ghost handling = { bounded_reads };

    ghost left = { look_left };

    ghost keeps = { KnowsNoLess };

    fn answer(
        &mut self,
        alloc: Global,
        line: &[u8],
        ended: EndedBy,
    ) -> Answered<BoundedLookup, ReplyPieces> {
        let Answered { answer, units } = self.reader.begin_line(alloc, line, ended);
        Answered {
            answer: looked_for(alloc, answer, line, ended),
            units,
        }
    }

    fn go_on(
        &mut self,
        alloc: Global,
        pending: BoundedLookup,
        units: u32,
    ) -> Answered<BoundedLookup, ReplyPieces> {
        match pending {
            BoundedLookup::Under(pending, line) => self.look_on(alloc, pending, line, units),
            BoundedLookup::PutOff {
                line,
                weight,
                waits,
            } => self.ask_again(alloc, line, weight, waits, units),
        }
    }

    ghost steady = { reads_steadily };
}

impl RefusesLong for BoundedReader {
    fn refuse_long(&mut self, ended: EndedBy) -> LineReply<ReplyPieces> {
        self.reader.refuse_long(ended)
    }
}
