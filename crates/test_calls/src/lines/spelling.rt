//! A handler whose replies are letters.

use pn_line::MAX_LINE_BYTES;
use pn_lines::{Answered, EndedBy, LineHandler, LineOutcome, LineReply, PieceText, RefusesLong};
use std::alloc::Global;

/// A letter, repeated.
#[derive(Drop)]
pub(crate) struct Letters {
    letter: u8,
    count: usize,
}

impl PieceText for Letters {
    ghost use Rattle.std.specs.Prelude.{replicate};

    ghost unmade = { λ letters. replicate letters.count letters.letter };

    fn is_made(&self) -> bool {
        self.count == 0
    }

    fn write_piece(&mut self, out: &mut Vec<u8>) {
        if self.count > 0 {
            out.push(self.letter).unwrap();
            self.count -= 1;
        }
    }
}

/// Answers a line by its first letter, once for each byte and once more. What begins with a plus goes on for its length, and what begins
/// with an exclamation mark is the last line.
#[derive(Drop)]
pub(crate) struct Spelling {
    pub(crate) is_over: bool,
}

impl LineHandler for Spelling {
    ghost use Rattle.std.specs.Prelude.{⊤, [], false};

    type Pending = usize;

    type Text = Letters;

    ghost ready = { ⊤ };

    ghost handling = { record { moves = λ _ _. ⊤; answers = λ _ _ _ _ _. ⊤; goes = λ _ _ _ _ _. ⊤; closed = λ _. ⊤ } };

    ghost left = { λ pending. pending };

    ghost keeps = { λ _ _. ⊤ };

    fn is_closed(&self) -> bool {
        self.is_over
    }

    fn answer(&mut self, _alloc: Global, line: &[u8], ended: EndedBy) -> Answered<usize, Letters> {
        if line.len() > MAX_LINE_BYTES {
            return Answered {
                answer: LineOutcome::Done(self.refuse_long(ended)),
                units: 1,
            };
        }
        self.is_over = line.first() == Some(&b'!');
        if line.first() == Some(&b'+') {
            return Answered {
                answer: LineOutcome::Pending(line.len()),
                units: 1,
            };
        }
        Answered {
            answer: LineOutcome::Done(spell(line, ended)),
            units: 1,
        }
    }

    fn go_on(&mut self, _alloc: Global, pending: usize, units: u32) -> Answered<usize, Letters> {
        if pending > 0 && units > 0 {
            return Answered {
                answer: LineOutcome::Pending(pending - 1),
                units: 1,
            };
        }
        Answered {
            answer: LineOutcome::Done(spell(b"+", EndedBy::Newline)),
            units: 1,
        }
    }

    ghost steady = { (
      record { stays = λ _. tt; goes_on = λ _ _ _ _ _. tt },
      record { stays = λ _. tt; goes_on = λ _ _ _ _ _. tt },
      λ was between now ended line pending begun moved.
          (record { text = []; refused = false }, record { between = was; moved = tt; answered = tt }),
    ) };
}

impl RefusesLong for Spelling {
    fn refuse_long(&mut self, ended: EndedBy) -> LineReply<Letters> {
        spell(b"?", ended)
    }
}

fn spell(line: &[u8], ended: EndedBy) -> LineReply<Letters> {
    let letter = match line.first() {
        Some(letter) => *letter,
        None if ended == EndedBy::Input => b'.',
        None => b'-',
    };
    LineReply {
        text: Letters {
            letter,
            count: line.len().saturating_add(1),
        },
        is_refusal: letter == b'?',
    }
}
