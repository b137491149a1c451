//! The handler of a control session's lines.

ghost use Rattle.std.specs.Prelude.{◌≡◌, ℕ, List, option_map};
ghost use Rattle.pn_line.specs.Prelude.{kept_bytes};
ghost use Rattle.pn_serve.specs.Control.Lines.{AnswersControl, EndsControl, after_step, at_rest, is_closed, reply_of};
ghost use Rattle.pn_serve.specs.Lines.{by_end};
ghost use Rattle.pn_serve.specs.Session.Resuming.{KnowsNoLess};

use crate::control::session::{ControlSession, StatsSource};
use crate::control::steps::ControlStep;
use crate::control::stop::StopSaid;
use crate::machine::adoption::{AnnouncedText, GatherOutcome};
use crate::machine::line_answers::{LineAnswer, LineOutcome, ReplyPieces, answered};
use crate::sessions::pending_lookup::PendingLookup;
use pn_lines::{EndedBy, LineHandler};
use pn_live::LiveReader;
use pn_protocol::Reply;
use std::alloc::Global;
use std::marker::Model;
use std::sync::Wait;
use std::thread::Threads;
use std::time::Clock;

/// A control session, its reader, and how far it is.
#[derive(Drop)]
pub(crate) struct ControlHandler<'a, R, C: Drop> {
    rt: &'a R,
    session: &'a ControlSession<C>,
    reader: LiveReader,
    // The lines that are still to come. None: the next line is a command.
    announced: Option<AnnouncedText>,
    // That the server is to end, once the client has asked for that.
    stop: Option<StopSaid>,
    // Whether the writer takes no command any more.
    is_over: bool,
}

impl<'a, R, C: Drop> Model for ControlHandler<'a, R, C> {
    ghost use Rattle.std.specs.Prelude.{option_map};
    ghost use Rattle.pn_serve.specs.Control.Lines.{ControlState};
    ghost use Rattle.pn_serve.specs.Machine.Outcomes.{mode_of};

    ghost Value = { ControlState };

    ghost use Rattle.pn_serve.specs.Proofs.{control_code};

    ghost coded = { control_code };

    ghost view = { λ session. record {
      reader = session.reader;
      mode = mode_of session.announced;
      stop = option_map (λ said. said.seconds) session.stop;
      over = session.is_over;
    } };
}

impl<'a, R, C: Drop> ControlHandler<'a, R, C> {
    /// A session that waits for a command.
    pub(crate) fn new(
        rt: &'a R,
        session: &'a ControlSession<C>,
        reader: LiveReader,
    ) -> ControlHandler<'a, R, C>
        ensures { result ≡ at_rest reader }
    {
        ControlHandler {
            rt,
            session,
            reader,
            announced: None,
            stop: None,
            is_over: false,
        }
    }

    // Whether no further line is answered: the server is to stop, or the writer takes no command any more.
    fn has_closed(&self) -> bool
        ensures { result ≡ is_closed self.now }
    {
        self.stop.is_some() || self.is_over
    }

    /// Gives the reader back, and that the server is to end, if the client has asked for that.
    pub(crate) fn end(self) -> (LiveReader, Option<StopSaid>)
        ensures reader { result.0 ≡ self.entry.reader }
        ensures stop { option_map (λ said. said.seconds) result.1 ≡ self.entry.stop }
    {
        let ControlHandler {
            rt: _rt,
            session: _session,
            reader,
            announced: _announced,
            stop,
            is_over: _is_over,
        } = self;
        (reader, stop)
    }

    // Notes what a line came to. Answers its reply.
    fn note(&mut self, alloc: Global, step: ControlStep) -> Reply
        requires { self.old ≡ at_rest self.old.reader }
        ensures state { self.new ≡ after_step self.old.reader step }
        ensures reply { result ≡ reply_of step }
    {
        match step {
            ControlStep::Replies(reply) => reply,
            ControlStep::Announces(lines) => {
                self.announced = Some(AnnouncedText::new(alloc, lines));
                Reply::Silent
            }
            ControlStep::Stops(said) => {
                self.stop = Some(said);
                Reply::Stopping(said.seconds)
            }
            ControlStep::Ends => {
                self.is_over = true;
                Reply::Silent
            }
        }
    }
}

impl<'a, R: Threads + Wait + Clock, C: StatsSource + Drop> ControlHandler<'a, R, C> {
    // Answers a line, or the end of the input, by its first bytes.
    fn reply_to(&mut self, alloc: Global, line: &[u8], ended: EndedBy) -> Reply
        ensures answers { (text : List ℕ) → line.now ≡ kept_bytes text → by_end AnswersControl EndsControl self.old ended text self.new result }
        ensures knows { KnowsNoLess self.old.reader self.new.reader }
    {
        match ended {
            EndedBy::Newline => self.answer_line(alloc, line),
            EndedBy::Input => self.answer_end(alloc, line),
        }
    }

    // Answers a line with its newline, by its first bytes.
    fn answer_line(&mut self, alloc: Global, line: &[u8]) -> Reply
        ensures answers { (text : List ℕ) → line.now ≡ kept_bytes text → AnswersControl self.old text self.new result }
        ensures knows { KnowsNoLess self.old.reader self.new.reader }
    {
        if self.has_closed() {
            return Reply::Silent;
        }
        match self.announced.take() {
            None => {
                let reader = &mut self.reader;
                let step = self.session.step(self.rt, alloc, reader, line);
                self.note(alloc, step)
            }
            Some(announced) => match announced.gather(line) {
                GatherOutcome::More(announced) => {
                    self.announced = Some(announced);
                    Reply::Silent
                }
                GatherOutcome::Text(text) => {
                    let step = self.session.adopt(self.rt, alloc, text);
                    self.note(alloc, step)
                }
            },
        }
    }

    // Answers the end of the input, after a part of a line, by its first bytes.
    fn answer_end(&mut self, alloc: Global, part: &[u8]) -> Reply
        ensures ends { (text : List ℕ) → part.now ≡ kept_bytes text → EndsControl self.old text self.new result }
        ensures knows { KnowsNoLess self.old.reader self.new.reader }
    {
        if self.has_closed() {
            return Reply::Silent;
        }
        match self.announced.take() {
            Some(announced) => {
                let text = announced.end(part);
                let step = self.session.adopt(self.rt, alloc, text);
                self.note(alloc, step)
            }
            None if part.is_empty() => Reply::Silent,
            None => {
                let reader = &mut self.reader;
                let step = self.session.last_step(self.rt, alloc, reader, part);
                self.note(alloc, step)
            }
        }
    }
}

impl<'a, R: Threads + Wait + Clock, C: StatsSource + Drop> LineHandler
    for ControlHandler<'a, R, C> {
    ghost use Rattle.pn_serve.specs.Control.Lines.{HasClosed, controls};
    ghost use Rattle.pn_serve.specs.Control.Lines.{AnswersControl, EndsControl, KeepsKnowing};
    ghost use Rattle.pn_serve.specs.Lines.{Replies};
    ghost use Rattle.pn_serve.specs.Proofs.{alone_steadily, controls_know};
    ghost use Rattle.pn_serve.specs.Session.Resuming.{pending_left};
    ghost use Rattle.std.specs.Prelude.{⊤};

    ghost ready = { ⊤ };

    ghost handling = { controls };

    ghost left = { pending_left };

    ghost keeps = { KeepsKnowing };

    type Pending = PendingLookup;

    type Text = ReplyPieces;

    fn answer(&mut self, alloc: Global, line: &[u8], ended: EndedBy) -> LineAnswer {
        answered(LineOutcome::Done(self.reply_to(alloc, line, ended)), 1)
    }

    // No line is resumed.
    fn go_on(&mut self, _alloc: Global, _pending: PendingLookup, _units: u32) -> LineAnswer {
        answered(LineOutcome::Done(Reply::Silent), 0)
    }

    fn is_closed(&self) -> bool {
        self.has_closed()
    }

    ghost steady = { alone_steadily (Replies AnswersControl EndsControl) HasClosed KeepsKnowing controls_know };
}
