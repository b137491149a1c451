//! What answers lines.

ghost use Rattle.std.specs.Prelude.{◌≡◌, ◌<◌, ◌≤◌, ℕ, List, max, length, IsTrue};
ghost use Rattle.pn_line.specs.Prelude.{kept_bytes};
ghost use Rattle.pn_line.specs.declared.line_buffer.TheConstants.{MAX_LINE_BYTES};
ghost use Rattle.pn_lines.specs.Answers.{AnswersBy, answer_left, answer_of, done, reply_of};
ghost use Rattle.pn_lines.specs.Handling.{IsPreorder};

use crate::finding::PieceText;
use std::alloc::Global;

/// The most units of work that an answer at once takes.
pub const MAX_ANSWER_UNITS: u32 = 64;

/// What ended a line.
#[derive(Clone, Copy, Debug, PartialEq, Eq)]
pub enum EndedBy {
    /// Its newline.
    Newline,
    /// The end of the input. Then the line may be empty.
    Input,
}

/// The reply to a line.
#[derive(Drop)]
pub struct LineReply<T> {
    pub text: T,
    pub is_refusal: bool,
}

/// What a handler has of the answer to a line.
#[derive(Drop)]
pub enum LineOutcome<G, T> {
    /// The reply.
    Done(LineReply<T>),
    /// What is to be gone on with.
    Pending(G),
}

/// An answer, and how many units of work it took.
#[derive(Drop)]
pub struct Answered<G, T> {
    pub answer: LineOutcome<G, T>,
    pub units: u32,
}

/// Answers lines one after another.
pub trait LineHandler {
    ghost use Rattle.pn_lines.specs.Handling.{GivesUp, Handling};

    /// What it goes on with.
    type Pending: Drop;

    /// The text of a reply.
    type Text: PieceText;

    // What must hold of its type parameters.
    ghost ready: { Type 0 };

    // How it answers and begins lines, what may become of it in between, and when it answers no further line.
    ghost handling: { Handling Self Self.Pending };

    // How much is left of what is gone on with.
    ghost left: { Self.Pending → ℕ };

    // What is never lost of it.
    ghost keeps: { Self → Self → Type 0 };

    /// Whether it answers no further line. It is asked before each line is read.
    fn is_closed(&self) -> bool
        ensures { IsTrue result → handling.closed self.now }
    {
        false
    }

    /// Answers a line, or begins to. If it is too long, these are its first bytes.
    fn answer(
        &mut self,
        alloc: Global,
        line: &[u8],
        ended: EndedBy,
    ) -> Answered<Self::Pending, Self::Text>
        requires ready { ready }
        ensures answers { (text : List ℕ) → line.now ≡ kept_bytes text
            → AnswersBy handling self.old ended text self.new (answer_of Self.Text.unmade result.answer) }
        ensures few { result.units ≤ MAX_ANSWER_UNITS }
        ensures kept { keeps self.old self.new };

    /// Goes on with an answer for this number of units, or for few.
    fn go_on(
        &mut self,
        alloc: Global,
        pending: Self::Pending,
        units: u32,
    ) -> Answered<Self::Pending, Self::Text>
        requires ready { ready }
        ensures answers { (was between : Self) (ended : EndedBy) (line : List ℕ) → handling.goes was ended line between pending
            → handling.moves between self.old → AnswersBy handling was ended line self.new (answer_of Self.Text.unmade result.answer) }
        ensures nearer { 0 < units → answer_left left (answer_of Self.Text.unmade result.answer) ≤ left pending }
        ensures few { result.units ≤ max units MAX_ANSWER_UNITS }
        ensures kept { keeps self.old self.new };

    // What may become of it twice may become of it once, and nothing too; so it is with what is kept. An answer may be given up.
    ghost steady: { IsPreorder handling.moves × IsPreorder keeps × GivesUp handling };
}

/// Answers lines, and refuses those that are too long, of which it sees no byte.
pub trait RefusesLong: LineHandler {
    /// Answers a line that is too long.
    fn refuse_long(&mut self, ended: EndedBy) -> LineReply<Self::Text>
        requires ready { Self.ready }
        ensures answers { (line : List ℕ) → MAX_LINE_BYTES < length line
            → Self.handling.answers self.old ended line self.new (reply_of Self.Text.unmade result) }
        ensures kept { Self.keeps self.old self.new };
}
