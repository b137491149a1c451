//! Answers lines: bytes in, bytes out. It owns no source and no sink, and waits for nothing.
//!
//! What returns no `Result` allocates nothing.
#![tactic(auto)]

mod driver;
mod engine;
mod finding;
mod handler;
mod turns;

pub use driver::buffers::LineBuffers;
pub use driver::{LinesFault, answer_lines};
pub use engine::state::LinesEnd;
pub use engine::{Counts, LineEngine, MAX_CALL_UNITS, MAX_STEP_UNITS, Next, Progress};
pub use finding::{MAX_PIECE_BYTES, PieceText};
pub use handler::{
    Answered, EndedBy, LineHandler, LineOutcome, LineReply, MAX_ANSWER_UNITS, RefusesLong,
};
pub use turns::{
    Input, LineTurns, MAX_UNREAD, Others, Pause, READ_SIZE, SourceState, TURN_UNITS, TurnBuffers,
    TurnFault, TurnOutcome, answer_in_turns, is_wait,
};
