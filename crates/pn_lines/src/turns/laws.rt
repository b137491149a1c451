//! What a whole input comes to, however it comes and its replies are taken, and whatever others do in between.

ghost use Rattle.std.specs.Prelude.{◌≡◌, None, Ok, Some, IfSome, false};
ghost use Rattle.pn_lines.specs.Driving.{HasEnded, start_at};
ghost use Rattle.pn_lines.specs.Turns.{new_turns, Finishes};

use crate::engine::state::LinesEnd;
use crate::finding::PieceText;
use crate::handler::{LineHandler, RefusesLong};
use crate::turns::buffers::TurnBuffers;
use crate::turns::input::Input;
use crate::turns::{LineTurns, TurnOutcome};
use pn_line::Sink;

/// Who has the handler of a connection between two of its turns, such as the other connections of an event loop.
pub trait Others<M: LineHandler> {
    // False where they let a connection have turns until it ends.
    ghost may_give_up: { Type 0 };

    /// They have their turns. False where the connection is to have no more.
    fn have_turns(&mut self, machine: &mut M) -> bool
        requires ready { M.ready }
        ensures moves { M.handling.moves machine.old machine.new }
        ensures gives_up { result ≡ false → may_give_up };

    /// They give the connection up, after 2^64 - 1 turns.
    fn give_up(&mut self)
        ensures { may_give_up };
}

/// Answers the lines of an input in turns, between which others have the handler, until it ends or they give it up. It ends as the
/// driver ends that waits. None only where they gave it up.
pub fn answer_in_turns<
    G: Drop,
    T: PieceText,
    M: RefusesLong<Pending = G, Text = T>,
    R: Input,
    W: Sink,
    O: Others<M>,
>(
    lines: &mut LineTurns<G, T>,
    buffers: &mut TurnBuffers,
    machine: &mut M,
    input: &mut R,
    output: &mut W,
    others: &mut O,
) -> Option<TurnOutcome>
    requires ready { M.ready }
    requires new { lines.old ≡ new_turns lines.old.engine.most }
    ensures finishes { IfSome result (λ outcome. Finishes M.handling
        (start_at machine.old (R.remaining input.old) (W.contents output.old)) (R.remaining input.new)
        (W.contents output.new) machine.new lines.new.engine outcome) }
    ensures ends { result ≡ Some (TurnOutcome.Ended LinesEnd.Input)
        → HasEnded M.handling lines.new.engine.most (start_at machine.old (R.remaining input.old) (W.contents output.old))
        (R.remaining input.new) (W.contents output.new) machine.new (Ok lines.new.engine.counts) }
    ensures gives_up { result ≡ None → O.may_give_up }
{
    'turns: for _turn in 0..u64::MAX {
        match lines.turn(buffers, machine, input, output) {
            TurnOutcome::Goes(_) => {
                if !others.have_turns(machine) {
                    return None;
                }
            }
            outcome => return Some(outcome),
        }
    }
    others.give_up();
    None
}
