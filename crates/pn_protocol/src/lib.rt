//! The protocol: reads lines as commands, and writes what was found or done as replies.
#![tactic(auto)]

mod command;
mod refusal;
mod reply;

pub use command::Command;
pub use command::control::{ControlCommand, a_control_line_is_one_command, control_of};
pub use command::parse::{a_line_is_one_command, command_of, lookup_of};
pub use command::word::{LineKind, kind_and_lookup_of};
pub use refusal::{MemberName, Refusal};
pub use reply::answers::{answer_copy, answer_get, answer_read, answer_scan, answer_text};
pub use reply::line_stats::{
    LineCounts, LineKinds, LineStats, TimeBucket, TimeCounts, TimeStats, UnreadStats,
};
pub use reply::refusals::{CommandFault, refuse};
pub use reply::scan::notices_reply;
pub use reply::short::{NumberName, ShortReply, number_reply, refusal_reply, served_reply};
pub use reply::stats::{
    ConnectionStats, Stats, StreamFaultStats, StreamState, StreamStats, TabletStats, stats_reply,
};
pub use reply::tablets::{ShownTablets, marks_reply, tablets_reply};
pub use reply::text::{MAX_PIECE_BYTES, ReplyText};
pub use reply::{PageReply, Reply};
