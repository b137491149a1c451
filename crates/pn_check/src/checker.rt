//! The handler that checks lines.

ghost use Rattle.std.specs.Prelude.{◌≡◌, ◌≢◌, ℕ, List, [], option_map, drop, MatchBool, false};
ghost use Rattle.pn_line.specs.Prelude.{kept_bytes};
ghost use Rattle.pn_lines.specs.Answers.{answer_of, done};
ghost use Rattle.pn_check.specs.Checking.{Checks, TellsNext, replied_of};

use crate::told::tell_line;
use pn_json::append_bytes;
use pn_lines::{
    Answered, EndedBy, LineHandler, LineOutcome, LineReply, MAX_PIECE_BYTES, PieceText,
};
use std::alloc::Global;

/// How many lines came, and whether memory has run out.
#[derive(Drop)]
pub(crate) struct Checker {
    lines: u64,
    is_spent: bool,
}

/// What is printed of a line, of which a part is made.
#[derive(Drop)]
pub(crate) struct ToldText {
    text: Vec<u8>,
    made: usize,
}

impl PieceText for ToldText {
    ghost use Rattle.std.specs.Prelude.{drop};

    ghost unmade = { λ told. drop told.made told.text.items };

    fn is_made(&self) -> bool {
        self.text.len() <= self.made
    }

    fn write_piece(&mut self, out: &mut Vec<u8>) {
        if self.text.len() <= self.made {
            return;
        }
        let end = self.made + (self.text.len() - self.made).min(MAX_PIECE_BYTES);
        append_bytes(out, &self.text[self.made..end]);
        self.made = end;
    }
}

impl Checker {
    /// A checker to which no line came.
    pub(crate) fn new() -> Checker
        ensures lines { result.lines ≡ 0 }
        ensures goes { result.is_spent ≡ false }
    {
        Checker {
            lines: 0,
            is_spent: false,
        }
    }

    /// Whether memory has run out.
    pub(crate) fn is_spent(&self) -> bool
        ensures { result ≡ self.now.is_spent }
    {
        self.is_spent
    }

    // What is printed of a line, by its first bytes, if no region takes it.
    fn check(&mut self, alloc: Global, line: &[u8], ended: EndedBy) -> Option<Vec<u8>>
        ensures { (text : List ℕ) → line.now ≡ kept_bytes text
            → Checks self.old ended text self.new (replied_of (option_map (λ told. told.items) result)) }
    {
        if self.is_spent {
            return None;
        }
        self.check_next(alloc, line, ended)
    }

    // The same, where memory has not run out.
    fn check_next(&mut self, alloc: Global, line: &[u8], ended: EndedBy) -> Option<Vec<u8>>
        requires { self.old.is_spent ≡ false }
        ensures { (text : List ℕ) → line.now ≡ kept_bytes text
            → Checks self.old ended text self.new (replied_of (option_map (λ told. told.items) result)) }
    {
        if is_no_line(line, ended) {
            return None;
        }
        self.tell_next(alloc, line)
    }

    // What is printed of the next line, if no region takes it.
    fn tell_next(&mut self, alloc: Global, line: &[u8]) -> Option<Vec<u8>>
        ensures { TellsNext self.old line.now self.new (option_map (λ told. told.items) result) }
    {
        self.lines = self.lines.saturating_add(1);
        match tell_line(alloc, line, self.lines) {
            Ok(told) => told,
            Err(_) => {
                self.is_spent = true;
                None
            }
        }
    }
}

impl LineHandler for Checker {
    ghost use Rattle.std.specs.Prelude.{⊤};
    ghost use Rattle.pn_check.specs.Checking.{checks};
    ghost use Rattle.pn_check.specs.Proofs.{checks_steadily};

    type Pending = ();

    type Text = ToldText;

    ghost ready = { ⊤ };

    ghost handling = { checks };

    ghost left = { λ _. 0 };

    ghost keeps = { λ _ _. Unit {0} };

    fn is_closed(&self) -> bool {
        self.is_spent
    }

    fn answer(&mut self, alloc: Global, line: &[u8], ended: EndedBy) -> Answered<(), ToldText> {
        answered(alloc, self.check(alloc, line, ended))
    }

    // No line is gone on with.
    fn go_on(&mut self, alloc: Global, _pending: (), _units: u32) -> Answered<(), ToldText> {
        answered(alloc, None)
    }

    ghost steady = { checks_steadily };
}

// What is printed of a line as its reply, if something is.
fn answered(alloc: Global, told: Option<Vec<u8>>) -> Answered<(), ToldText>
    ensures answer { answer_of (λ told. drop told.made told.text.items) result.answer ≡ done (replied_of (option_map (λ text. text.items) told)) }
    ensures units { result.units ≡ 1 }
{
    Answered {
        answer: LineOutcome::Done(reply_of(alloc, told)),
        units: 1,
    }
}

fn reply_of(alloc: Global, told: Option<Vec<u8>>) -> LineReply<ToldText>
    ensures text { drop result.text.made result.text.text.items ≡ (replied_of (option_map (λ text. text.items) told)).text }
    ensures refusal { result.is_refusal ≡ (replied_of (option_map (λ text. text.items) told)).refused }
{
    let is_refusal = told.is_some();
    LineReply {
        text: ToldText {
            text: told.unwrap_or(Vec::new(alloc)),
            made: 0,
        },
        is_refusal,
    }
}

// Whether an input ended after a newline, or was empty.
fn is_no_line(line: &[u8], ended: EndedBy) -> bool
    ensures { MatchBool result ((ended ≡ EndedBy.Input) × (line.now ≡ [])) (ended ≡ EndedBy.Input → line.now ≢ []) }
{
    match ended {
        EndedBy::Newline => false,
        EndedBy::Input => line.is_empty(),
    }
}
