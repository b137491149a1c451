//! Answers of the writer, each with what it answers.

ghost use Rattle.std.specs.Prelude.{◌≡◌, IfSome};
ghost use Rattle.pn_live.specs.Prelude.{tablets_in};
ghost use Rattle.pn_serve.specs.Control.Commands.{IsGiven, question_of, ObeysLive, answer_of};

use crate::control::commands::{WriterAnswer, WriterCommand, obey};
use pn_live::LiveRegion;
use std::alloc::Global;
use std::sync::Wait;

/// What a command asks the writer for. Of an adoption the copy is left out.
#[derive(Clone, Copy, PartialEq, Eq)]
pub(crate) enum Question {
    Adopt,
    Advance,
    Lose { tablet: u64 },
    Marks,
    Notices { since: u64 },
    Tablets,
}

/// An answer of the writer, and what it answers.
#[derive(Drop)]
pub(crate) struct GivenAnswer {
    pub(crate) question: Question,
    pub(crate) answer: WriterAnswer,
    ghost given: { IsGiven question (answer_of answer) },
}

impl Question {
    /// What a command asks for.
    pub(crate) fn of(command: &WriterCommand) -> Question
        ensures { result ≡ question_of command.now }
    {
        match command {
            WriterCommand::Adopt(_) => Question::Adopt,
            WriterCommand::Advance => Question::Advance,
            WriterCommand::Lose { tablet } => Question::Lose { tablet: *tablet },
            WriterCommand::Marks => Question::Marks,
            WriterCommand::Notices { since } => Question::Notices { since: *since },
            WriterCommand::Tablets => Question::Tablets,
        }
    }
}

impl GivenAnswer {
    /// The answer, if it is one to this question.
    pub(crate) fn to(self, question: Question) -> Option<WriterAnswer>
        ensures { IfSome result (λ answer. IsGiven question (answer_of answer)) }
    {
        if self.question != question {
            return None;
        }
        Some(self.answer)
    }
}

/// Does what the writer is asked for.
pub(crate) fn give_answer<R: Wait>(
    rt: &R,
    alloc: Global,
    live: &mut LiveRegion,
    command: WriterCommand,
) -> GivenAnswer
    ensures obeys { ObeysLive live.old command live.new (answer_of result.answer) }
    ensures same { tablets_in live.new ≡ tablets_in live.old }
{
    let question = Question::of(&command);
    let answer = obey(rt, alloc, live, command);
    GivenAnswer { question, answer }
}
