//! Streams: where their publishers come from, and the messages and counts of how they go.

pub(crate) mod fifo;
pub(crate) mod fifo_poll;
pub(crate) mod input;
pub(crate) mod listener;
pub(crate) mod message_input;
pub(crate) mod notes;
pub(crate) mod opening;
pub(crate) mod origin;
pub(crate) mod publisher;
pub(crate) mod remarks;
pub(crate) mod sockets;
pub(crate) mod status;
pub(crate) mod turns;
