//! Connections that are answered as sessions are, in turns, while their sockets give and take what they do.
#![tactic(auto)]

mod acceptor;
mod bounded_reader;
mod connection;
mod counters;
mod current_stats;
mod descriptors;
mod event_loop;
mod fakes;
mod input_buffer;
mod interrupts;
mod laws;
mod line_counters;
mod lingering;
mod listener;
mod memory;
mod messages;
mod progress;
mod quarter_clock;
mod reasons;
mod room;
mod seldom;
mod server;
mod socket;
mod socket_file;
mod socket_mailbox;
mod streams;
mod unread;

pub use acceptor::SocketAcceptor;
pub use connection::IdleTimeout;
pub use counters::{
    ConnectionCounters, Counters, CountingSource, InputCounters, StreamCounters, UnreadCounters,
};
pub use descriptors::{DescriptorUses, allowed_descriptors, count_descriptors};
pub use fakes::{FakeSink, FakeSource};
pub use input_buffer::{INPUT_CAPACITY, InputBuffer};
pub use laws::{AnsweredInTurns, a_server_has_what_it_took, every_way_of_coming_and_going};
pub use listener::Listener;
pub use memory::MemoryMeter;
pub use messages::{MAX_WAITING, MessagePrinter, Messages, Shortages, WaitingLines};
pub use progress::{message_prefix, print_progress};
pub use reasons::{describe_error, format_after, format_failure, format_refusal, format_taken};
pub use server::StayingServer;
pub use server::ending::ServerEnd;
pub use server::starting::ServerSizes;
pub use socket_file::{ListenFault, OWNER_ALONE, SocketFile, format_lock, remove_sockets};
pub use streams::input::{
    FileSource, OpenedFiles, SocketInput, StreamInput, StreamOpenFault, StreamSource, open_files,
};
pub use streams::listener::StreamListener;
pub use streams::message_input::{MessageInput, NewestListener};
pub use streams::opening::{OpenedStreams, StreamSetting, open_origins};
pub use streams::origin::{BrokerListener, StreamOrigin};
pub use streams::publisher::PublisherSocket;
pub use streams::remarks::{
    MAX_IDENTITY_BYTES, RemarkFault, format_other_stream, read_newest, read_stream,
};
pub use streams::status::StreamStatus;
