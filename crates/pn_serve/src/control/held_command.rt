//! What the mailbox of a control session holds.

ghost use Rattle.std.specs.Prelude.{◌≡◌, ◌≢◌, false, MatchBool, MatchOption};
ghost use Rattle.pn_serve.specs.Control.Held.{is_unanswered};
ghost use Rattle.pn_serve.specs.declared.control.held_command.HeldCommand.TheVariants.{Nothing, Asked, Taken, Answered, Closed};

use crate::control::answers::GivenAnswer;
use crate::control::commands::WriterCommand;
use std::mem;

/// What the mailbox of a control session holds.
#[derive(Drop)]
pub(crate) enum HeldCommand {
    Nothing,
    /// A command, until the writer takes it.
    Asked(WriterCommand),
    /// Nothing: the writer does the command.
    Taken,
    /// The answer, until the session takes it.
    Answered(GivenAnswer),
    /// Nothing: from now on no command is taken.
    Closed,
}

impl HeldCommand {
    /// Whether the session waits for the answer.
    pub(crate) fn is_unanswered(&self) -> bool
        ensures { result ≡ is_unanswered self.now }
    {
        matches!(self, HeldCommand::Asked(_) | HeldCommand::Taken)
    }

    /// Puts a command into an empty mailbox. False if it is not empty.
    pub(crate) fn put(&mut self, command: WriterCommand) -> bool
        ensures { MatchBool result ((self.old ≡ Nothing) × (self.new ≡ Asked command)) ((self.old ≢ Nothing) × (self.new ≡ self.old)) }
    {
        if !matches!(self, HeldCommand::Nothing) {
            return false;
        }
        *self = HeldCommand::Asked(command);
        true
    }

    /// Takes the command, if there is one.
    pub(crate) fn take(&mut self) -> Option<WriterCommand>
        ensures { MatchOption result (self.new ≡ self.old) (λ command. (self.old ≡ Asked command) × (self.new ≡ Taken)) }
    {
        match mem::replace(self, HeldCommand::Taken) {
            HeldCommand::Asked(command) => Some(command),
            other => {
                *self = other;
                None
            }
        }
    }

    /// Leaves the answer to the command that was taken. Elsewhere it is dropped.
    pub(crate) fn answer(&mut self, answer: GivenAnswer)
        ensures answered { self.old ≡ Taken → self.new ≡ Answered answer }
        ensures dropped { self.old ≢ Taken → self.new ≡ self.old }
    {
        if let HeldCommand::Taken = self {
            *self = HeldCommand::Answered(answer);
        }
    }

    /// Takes the answer that was waited for, if there is one.
    pub(crate) fn take_answer(&mut self) -> Option<GivenAnswer>
        requires { is_unanswered self.old ≡ false }
        ensures { MatchOption result (self.new ≡ self.old) (λ answer. (self.old ≡ Answered answer) × (self.new ≡ Nothing)) }
    {
        match mem::replace(self, HeldCommand::Nothing) {
            HeldCommand::Answered(answer) => Some(answer),
            other => {
                *self = other;
                None
            }
        }
    }

    /// From now on no command is taken.
    pub(crate) fn close(&mut self)
        ensures { self.new ≡ Closed }
    {
        *self = HeldCommand::Closed;
    }
}
