//! The handler of a script's lines.

ghost use Rattle.std.specs.Prelude.{◌≡◌, ℕ, List, IfOk};
ghost use Rattle.pn_line.specs.Prelude.{kept_bytes};
ghost use Rattle.pn_region.specs.Prelude.{new_region};
ghost use Rattle.pn_serve.specs.Lines.{by_end};
ghost use Rattle.pn_serve.specs.Machine.Turns.{Answers, Concludes};
ghost use Rattle.pn_serve.specs.Machine.Outcomes.{new_machine};
ghost use Rattle.std.specs.Thread.{IsSync};

use crate::Settings;
use crate::machine::adoption::AnnouncedText;
use crate::machine::line_answers::{LineAnswer, LineOutcome, ReplyPieces, answered};
use crate::machine::{Json, answer_end, answer_line};
use crate::sessions::pending_lookup::PendingLookup;
use pn_join::NoMemory;
use pn_lines::{EndedBy, LineHandler};
use pn_protocol::Reply;
use pn_region::Region;
use std::alloc::Global;
use std::marker::Model;
use std::thread::Threads;

/// A region, the workers of its rounds, and the announced lines.
#[derive(Drop)]
pub(crate) struct ScriptHandler<'a, R> {
    rt: &'a R,
    region: Region,
    workers: usize,
    // The lines that are still to come. None: the next line is a command.
    announced: Option<AnnouncedText>,
}

impl<'a, R> Model for ScriptHandler<'a, R> {
    ghost use Rattle.std.specs.Prelude.{◌≤◌};
    ghost use Rattle.pn_apply.specs.declared.reducing.TheConstants.{MAX_WORKERS};
    ghost use Rattle.pn_serve.specs.Machine.Outcomes.{with_mode};
    ghost use Rattle.pn_serve.specs.Machine.Outcomes.{Machine};

    ghost Value = { Machine };

    ghost use Rattle.pn_serve.specs.Proofs.{machine_code};

    ghost coded = { machine_code };

    ghost view = { λ scripted. with_mode scripted.announced scripted.region };

    ghost invariant = { λ scripted. (1 ≤ scripted.workers) × (scripted.workers ≤ MAX_WORKERS) };
}

impl<'a, R: Threads + Sync> ScriptHandler<'a, R> {
    /// A new region that waits for a command.
    pub(crate) fn new(
        rt: &'a R,
        alloc: Global,
        settings: Settings,
    ) -> Result<ScriptHandler<'a, R>, NoMemory>
        ensures { IfOk result (λ scripted. scripted ≡ new_machine (new_region settings.layout)) }
    {
        let Settings { layout, workers } = settings;
        Ok(ScriptHandler {
            rt,
            region: Region::new(alloc, layout)?,
            workers,
            announced: None,
        })
    }

    /// The region, with its log.
    pub(crate) fn into_region(self) -> Region
        ensures state { result.state ≡ self.entry.region }
        ensures log { result.log ≡ self.entry.log }
    {
        let ScriptHandler {
            rt: _rt,
            region,
            workers: _workers,
            announced: _announced,
        } = self;
        region
    }

    // Answers a line, or the end of the input, by its first bytes.
    fn reply_to(&mut self, alloc: Global, line: &[u8], ended: EndedBy) -> Reply
        requires ready { IsSync R.row }
        ensures { (text : List ℕ) → line.now ≡ kept_bytes text → by_end Answers Concludes self.old ended text self.new result }
    {
        match ended {
            EndedBy::Newline => self.answer_line(alloc, line),
            EndedBy::Input => self.answer_end(alloc, line),
        }
    }

    // Answers a line with its newline, by its first bytes.
    fn answer_line(&mut self, alloc: Global, line: &[u8]) -> Reply
        requires ready { IsSync R.row }
        ensures { (text : List ℕ) → line.now ≡ kept_bytes text → Answers self.old text self.new result }
    {
        let waiting = self.announced.take();
        let region = &mut self.region;
        let (reply, announced) = answer_line::<R, Json>(
            self.rt,
            alloc,
            region,
            self.workers,
            waiting,
            line,
        );
        self.announced = announced;
        reply
    }

    // Answers the end of the input, after a part of a line, by its first bytes.
    fn answer_end(&mut self, alloc: Global, part: &[u8]) -> Reply
        requires ready { IsSync R.row }
        ensures { (text : List ℕ) → part.now ≡ kept_bytes text → Concludes self.old text self.new result }
    {
        let announced = self.announced.take();
        let region = &mut self.region;
        answer_end::<R, Json>(self.rt, alloc, region, self.workers, announced, part)
    }
}

impl<'a, R: Threads + Sync> LineHandler for ScriptHandler<'a, R> {
    ghost use Rattle.pn_scan.specs.Prelude.{Stays};
    ghost use Rattle.pn_lines.specs.Handling.{by};
    ghost use Rattle.pn_serve.specs.Lines.{Replies};
    ghost use Rattle.pn_serve.specs.Machine.Turns.{Answers, Concludes};
    ghost use Rattle.pn_serve.specs.Proofs.{alone_steadily, forgets_steadily};
    ghost use Rattle.pn_serve.specs.Session.Resuming.{pending_left};
    ghost use Rattle.std.specs.Thread.{IsSync};

    type Pending = PendingLookup;

    type Text = ReplyPieces;

    // Threads can share the runtime.
    ghost ready = { IsSync R.row };

    ghost handling = { by Stays (Replies Answers Concludes) (λ _ _ _ _ _. ⊥) (λ _. ⊥) };

    ghost left = { pending_left };

    ghost keeps = { λ _ _. Unit {0} };

    fn answer(&mut self, alloc: Global, line: &[u8], ended: EndedBy) -> LineAnswer {
        answered(LineOutcome::Done(self.reply_to(alloc, line, ended)), 1)
    }

    // No line is resumed.
    fn go_on(&mut self, _alloc: Global, _pending: PendingLookup, _units: u32) -> LineAnswer {
        answered(LineOutcome::Done(Reply::Silent), 0)
    }

    ghost steady = { alone_steadily (Replies Answers Concludes) (λ _. ⊥) (λ _ _. Unit {0}) forgets_steadily };
}
