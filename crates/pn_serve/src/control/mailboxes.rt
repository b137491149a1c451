//! The mailboxes in which control sessions leave commands, and in which the writer leaves its answers.

ghost use Rattle.std.specs.Prelude.{◌≡◌, ℕ, List, Option, length, IfOk, IfSome};
ghost use Rattle.pn_live.specs.Prelude.{tablets_in};
ghost use Rattle.pn_serve.specs.Control.Commands.{IsGiven, question_of, answer_of};
ghost use Rattle.pn_serve.specs.Server.Events.{ToldAll};
ghost use Rattle.pn_serve.specs.Server.Rounds.{RoundInputValue};
ghost use Rattle.pn_serve.specs.declared.server.mailboxes.AtFault.{AtFault};

use crate::control::answers::{GivenAnswer, Question, give_answer};
use crate::control::commands::{WriterAnswer, WriterCommand};
use crate::control::held_command::HeldCommand;
use crate::control::log_watch::LogWatch;
use crate::control::stop::{StopRequest, StopSaid, StopTime};
use crate::server::mailboxes::{StreamMailbox, show_marks};
use crate::server::publishers::Sending;
use crate::server::wakeup::Wakeup;
use pn_live::LiveRegion;
use std::alloc::{AllocError, Global};
use std::sync::{Arc, Condvar, Mutex, Wait};
use std::time::{Clock, Instant};

/// Shows that a line asked for a stop, and that commands are still taken.
#[derive(Drop)]
pub struct StopAsked(StopSaid);

/// Shows that no command is taken any more, since a line asked for a stop.
#[derive(Drop)]
pub struct ControlsClosed(StopSaid);

/// What control sessions and the writer share: a mailbox for each session, and what wakes the writer.
#[derive(Drop)]
pub struct ControlMailboxes {
    mailboxes: Vec<ControlMailbox>,
    pub(crate) wakeup: Arc<Wakeup>,
    log: LogWatch,
    stop: StopRequest,
    // When it was made, if the clock said so.
    began: Option<Instant>,
}

/// Where a control session leaves its command, and where the writer leaves the answer.
#[derive(Drop)]
struct ControlMailbox {
    // The number of its session.
    number: usize,
    held: Mutex<HeldCommand>,
    answered: Condvar,
}

impl ControlMailboxes {
    /// Empty mailboxes of this many sessions.
    pub fn new<R: Clock>(
        rt: &R,
        alloc: Global,
        sessions: usize,
    ) -> Result<ControlMailboxes, AllocError> {
        Ok(ControlMailboxes {
            mailboxes: new_mailboxes(alloc, sessions)?,
            wakeup: Arc::new(alloc, Wakeup::new())?,
            log: LogWatch::new(),
            stop: StopRequest::new(),
            began: Instant::now(rt).ok(),
        })
    }

    /// Asks the writer, and waits for its answer. None where it takes no command any more.
    pub(crate) fn ask<R: Wait>(
        &self,
        rt: &R,
        session: usize,
        command: WriterCommand,
    ) -> Option<WriterAnswer>
        ensures { IfSome result (λ answer. IsGiven (question_of command) (answer_of answer)) }
    {
        let mailbox = self.mailbox_of(session)?;
        let question = Question::of(&command);
        if !mailbox.put(rt, session, command) {
            return None;
        }
        self.wakeup.notify(rt);
        mailbox.wait(rt)?.to(question)
    }

    // The mailbox of the session of this number.
    fn mailbox_of(&self, session: usize) -> Option<&ControlMailbox>
        ensures { IfSome result (λ mailbox. mailbox.now.number ≡ session) }
    {
        for mailbox in self.mailboxes.iter() {
            if mailbox.number == session {
                return Some(mailbox);
            }
        }
        None
    }

    /// Waits for `seconds` at most while the last number of the log is `number`. Answers whether it is another one.
    pub(crate) fn wait_past<R: Wait + Clock>(&self, rt: &R, number: u64, seconds: u64) -> bool {
        self.log.wait_past(rt, number, seconds)
    }

    /// Asks the server to stop within the seconds from now on that a line said.
    pub(crate) fn stop<R: Wait + Clock>(&self, rt: &R, said: StopSaid) {
        self.stop.ask(rt, StopTime::after(self.now(rt), said));
        self.log.close(rt);
        self.wakeup.notify(rt);
    }

    /// Shows that a stop was asked for, once a session has done so.
    pub(crate) fn show_stop<R: Wait>(&self, rt: &R) -> Option<StopAsked> {
        match self.stop.asked(rt) {
            Some(stop) => Some(StopAsked(stop.said)),
            None => None,
        }
    }

    /// Whether the server was to have stopped by now.
    pub fn is_stop_over<R: Wait + Clock>(&self, rt: &R) -> bool {
        match self.stop.asked(rt) {
            Some(stop) => stop.has_come(self.now(rt)),
            None => false,
        }
    }

    // How many milliseconds have passed since it was made. Where the clock fails no time is left.
    fn now<R: Clock>(&self, rt: &R) -> u64 {
        let Some(began) = self.began else {
            return u64::MAX;
        };
        match began.elapsed(rt) {
            Ok(passed) => u64::try_from(passed.as_millis()).unwrap_or(u64::MAX),
            Err(_) => u64::MAX,
        }
    }

    /// Does one command of each session that asks, and notes the log. The marks of these streams are shown before a session is
    /// answered, so that a publisher that comes after the reply begins after them.
    pub(crate) fn obey_all<R: Wait, M: Sending>(
        &self,
        rt: &R,
        alloc: Global,
        live: &mut LiveRegion,
        streams: &[StreamMailbox<M>],
    )
        ensures told { (at_fault : AtFault) (names : List (List ℕ)) (waiting : Option RoundInputValue) → ToldAll at_fault names waiting live.old live.new }
        ensures same { tablets_in live.new ≡ tablets_in live.old }
    {
        for mailbox in self.mailboxes.iter() {
            let Some(command) = mailbox.take(rt) else {
                continue;
            };
            let answer = give_answer(rt, alloc, live, command);
            show_marks(streams, live.marks());
            mailbox.answer(rt, answer);
            self.note_log(rt, live);
        }
    }

    /// Notes the last number of the log.
    pub(crate) fn note_log<R: Wait>(&self, rt: &R, live: &LiveRegion) {
        self.log.note(rt, live.last_number());
    }

    /// From now on no command is taken.
    pub fn close<R: Wait>(&self, rt: &R, asked: StopAsked) -> ControlsClosed {
        for mailbox in self.mailboxes.iter() {
            mailbox.close(rt);
        }
        ControlsClosed(asked.0)
    }
}

// Empty mailboxes of this many sessions.
fn new_mailboxes(alloc: Global, sessions: usize) -> Result<Vec<ControlMailbox>, AllocError>
    ensures { IfOk result (λ mailboxes. length mailboxes.items ≡ sessions) }
{
    let mut mailboxes = Vec::with_capacity(alloc, sessions)?;
    for number in 0..sessions {
        mailboxes.push(ControlMailbox::new(number))?;
    }
    Ok(mailboxes)
}

impl ControlMailbox {
    fn new(number: usize) -> ControlMailbox
        ensures { result.number ≡ number }
    {
        ControlMailbox {
            number,
            held: Mutex::new(HeldCommand::Nothing),
            answered: Condvar::new(),
        }
    }

    // Puts a command of its session into the empty mailbox. False if it is not empty, or closed.
    fn put<R: Wait>(&self, rt: &R, session: usize, command: WriterCommand) -> bool
        requires { self.now.number ≡ session }
    {
        self.held.lock(rt).put(command)
    }

    // Waits for the answer.
    fn wait<R: Wait>(&self, rt: &R) -> Option<GivenAnswer> {
        let guard = self.held.lock(rt);
        let mut held = self
            .answered
            .wait_while(rt, guard, |held| held.is_unanswered());
        held.take_answer()
    }

    // Takes the command, if there is one.
    fn take<R: Wait>(&self, rt: &R) -> Option<WriterCommand> {
        self.held.lock(rt).take()
    }

    // Leaves the answer to the command that was taken.
    fn answer<R: Wait>(&self, rt: &R, answer: GivenAnswer) {
        self.held.lock(rt).answer(answer);
        self.answered.notify_one();
    }

    fn close<R: Wait>(&self, rt: &R) {
        self.held.lock(rt).close();
        self.answered.notify_one();
    }
}
