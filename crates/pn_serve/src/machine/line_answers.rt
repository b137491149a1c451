//! Answers to lines, as the engine for lines takes them.

ghost use Rattle.std.specs.Prelude.{◌≡◌, ◌≢◌, [], MatchBool};
ghost use Rattle.pn_lines.specs.Answers.{answer_of, reply_of};
ghost use Rattle.pn_protocol.specs.Prelude.{is_refusal as refuses};
ghost use Rattle.pn_serve.specs.Lines.{given_by, pieces_left, replied_of};

use crate::sessions::pending_lookup::PendingLookup;
use pn_lines::{Answered, EndedBy, LineReply, PieceText};
use pn_protocol::{Reply, ReplyText};

/// What there is of the answer to a line.
#[derive(Drop)]
pub(crate) enum LineOutcome {
    /// The reply.
    Done(Reply),
    /// A look that is to be resumed.
    Pending(PendingLookup),
}

/// The answer to a line, as the engine for lines takes it.
pub type LineAnswer = Answered<PendingLookup, ReplyPieces>;

/// The text of a reply, of which some is made.
#[derive(Drop)]
pub struct ReplyPieces(pub ReplyText);

impl PieceText for ReplyPieces {
    ghost use Rattle.pn_serve.specs.Lines.{pieces_left};

    ghost unmade = { pieces_left };

    fn is_made(&self) -> bool {
        self.0.is_made()
    }

    fn write_piece(&mut self, out: &mut Vec<u8>) {
        if self.0.is_made() {
            return;
        }
        self.0.write_piece(out);
    }
}

/// An answer that took this number of units of work.
pub(crate) fn answered(answer: LineOutcome, units: u32) -> LineAnswer
    ensures answer { answer_of pieces_left result.answer ≡ given_by answer }
    ensures units { result.units ≡ units }
{
    let answer = match answer {
        LineOutcome::Done(reply) => pn_lines::LineOutcome::Done(line_reply(reply)),
        LineOutcome::Pending(pending) => pn_lines::LineOutcome::Pending(pending),
    };
    Answered { answer, units }
}

/// The reply to a line.
pub(crate) fn line_reply(reply: Reply) -> LineReply<ReplyPieces>
    ensures { reply_of pieces_left result ≡ replied_of reply }
{
    let is_refusal = is_refusal(&reply);
    LineReply {
        text: ReplyPieces(ReplyText::new(reply)),
        is_refusal,
    }
}

/// Whether a reply is a refusal.
pub(crate) fn is_refusal(reply: &Reply) -> bool
    ensures { result ≡ refuses reply.now }
{
    match reply {
        Reply::Refused(_) => true,
        Reply::NotTaken(_) => true,
        _ => false,
    }
}

/// Whether an input ended after a newline, or was empty.
pub(crate) fn is_no_line(line: &[u8], ended: EndedBy) -> bool
    ensures { MatchBool result ((ended ≡ EndedBy.Input) × (line.now ≡ [])) (ended ≡ EndedBy.Input → line.now ≢ []) }
{
    match ended {
        EndedBy::Newline => false,
        EndedBy::Input => line.is_empty(),
    }
}
