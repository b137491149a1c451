//! Control sessions: commands that the writer of a live region does between two rounds.

pub(crate) mod answers;
pub(crate) mod commands;
pub(crate) mod handler;
mod held_command;
pub(crate) mod log_watch;
pub(crate) mod mailboxes;
pub(crate) mod session;
pub(crate) mod steps;
pub(crate) mod stop;
