//! The reply to `stats`: what a server has done so far.

ghost use Rattle.std.specs.Prelude.{◌≡◌, codes, IfOk, OnOk};
ghost use Rattle.pn_json.specs.Prelude.{line_of, member_tokens, Appends, value_tokens};
ghost use Rattle.pn_protocol.specs.Reply.Stats.{connections_data, fault_line, fault_reason};
ghost use Rattle.pn_protocol.specs.Reply.Stats.{number_or_null, state_word as word_of_state, stats_data, text_or_null};

use crate::reply::line_stats::{LineStats, TimeStats, UnreadStats};
use crate::reply::scan::{Shown, shown_line, write_array};
use json::Writer;
use pn_join::{NoMemory, StreamName};
use pn_json::{write_null_member, write_number_member, write_text_member};
use std::alloc::Global;

/// What a server has done so far.
#[derive(Drop)]
pub struct Stats {
    /// How many bytes of memory the process has.
    pub bytes: u64,
    pub connections: ConnectionStats,
    pub lines: LineStats,
    pub rounds: u64,
    pub streams: Vec<StreamStats>,
    /// The tablets, in their order.
    pub tablets: Vec<TabletStats>,
    /// How long lines and rounds took.
    pub times: TimeStats,
    pub unread: UnreadStats,
    /// For how many seconds the server runs.
    pub uptime: u64,
    pub version: &'static str,
}

/// The connections of clients.
#[derive(Clone, Copy, Debug)]
pub struct ConnectionStats {
    /// How many were accepted, and how many are open.
    pub accepted: u64,
    pub open: u64,
    /// How many were ended since nothing came for too long.
    pub idle: u64,
    /// How many were refused since there was no room.
    pub refused: u64,
}

/// The records of a tablet.
#[derive(Clone, Copy, Debug, PartialEq, Eq)]
pub struct TabletStats {
    /// How many it has.
    pub records: u64,
    /// How many deleted ones it keeps.
    pub deleted: u64,
}

/// What was read of a stream.
#[derive(Drop)]
pub struct StreamStats {
    pub name: StreamName,
    /// Where its publishers come.
    pub path: String,
    /// Up to which position rounds have taken it.
    pub position: u64,
    /// How many lines and bytes were read.
    pub messages: u64,
    pub bytes: u64,
    pub state: StreamState,
    /// How many seconds ago the last message came, if one came.
    pub since: Option<u64>,
    /// The last fault of a publisher, if there was one.
    pub fault: Option<StreamFaultStats>,
    /// Whose stream it is, if a publisher said so.
    pub stream: Option<String>,
    /// The broker's newest position and how many seconds ago a publisher told it, if one did.
    pub newest: Option<u64>,
    pub heard: Option<u64>,
}

/// The fault of a publisher: in which of its lines, from 1, and what it is.
#[derive(Drop)]
pub struct StreamFaultStats {
    pub line: u64,
    pub reason: String,
}

/// How a stream goes.
#[derive(Clone, Copy, Debug, PartialEq, Eq)]
pub enum StreamState {
    /// No publisher has come so far.
    Waiting,
    /// A publisher is read.
    Open,
    /// The last publisher has gone.
    Ended,
    /// The last publisher was read no further, since it had a fault.
    Failed,
}

/// The reply to `stats`.
pub fn stats_reply(alloc: Global, stats: &Stats) -> Result<Vec<u8>, NoMemory>
    ensures { IfOk result (λ text. text.items ≡ line_of (stats_data stats.now)) }
{
    shown_line(alloc, stats)
}

impl Shown for Stats {
    ghost use Rattle.pn_protocol.specs.Reply.Stats.{stats_data};

    ghost value = { λ stats. stats_data stats };

    #[tactic(auto, unfolding(crate::specs::Reply::Stats::stats_data))]
    fn write(&self, writer: &mut Writer) -> Result<(), NoMemory> {
        writer.begin_object()?;
        write_number_member(writer, "bytes", self.bytes)?;
        writer.key("connections")?;
        self.connections.write(writer)?;
        writer.key("lines")?;
        self.lines.write(writer)?;
        write_number_member(writer, "rounds", self.rounds)?;
        writer.key("streams")?;
        write_array(writer, &self.streams)?;
        writer.key("tablets")?;
        write_array(writer, &self.tablets)?;
        writer.key("times")?;
        self.times.write(writer)?;
        writer.key("unread")?;
        self.unread.write(writer)?;
        write_number_member(writer, "uptime", self.uptime)?;
        write_text_member(writer, "version", self.version)?;
        writer.end_object()?;
        Ok(())
    }
}

impl ConnectionStats {
    #[tactic(auto, unfolding(crate::specs::Reply::Stats::connections_data))]
    fn write(&self, writer: &mut Writer) -> Result<(), NoMemory>
        ensures { OnOk result (Appends writer.old writer.new (value_tokens (connections_data self.now))) }
    {
        writer.begin_object()?;
        write_number_member(writer, "accepted", self.accepted)?;
        write_number_member(writer, "idle", self.idle)?;
        write_number_member(writer, "open", self.open)?;
        write_number_member(writer, "refused", self.refused)?;
        writer.end_object()?;
        Ok(())
    }
}

impl Shown for TabletStats {
    ghost use Rattle.pn_protocol.specs.Reply.Stats.{tablet_data};

    ghost value = { λ tablet. tablet_data tablet };

    #[tactic(auto, unfolding(crate::specs::Reply::Stats::tablet_data))]
    fn write(&self, writer: &mut Writer) -> Result<(), NoMemory> {
        writer.begin_object()?;
        write_number_member(writer, "deleted", self.deleted)?;
        write_number_member(writer, "records", self.records)?;
        writer.end_object()?;
        Ok(())
    }
}

impl Shown for StreamStats {
    ghost use Rattle.pn_protocol.specs.Reply.Stats.{stream_data};

    ghost value = { λ stream. stream_data stream };

    #[tactic(auto, unfolding(crate::specs::Reply::Stats::stream_data))]
    fn write(&self, writer: &mut Writer) -> Result<(), NoMemory> {
        writer.begin_object()?;
        write_number_member(writer, "bytes", self.bytes)?;
        write_number_or_null(writer, "heard", self.heard)?;
        write_fault_line(writer, &self.fault)?;
        write_number_member(writer, "messages", self.messages)?;
        write_text_member(writer, "name", self.name.as_str())?;
        write_number_or_null(writer, "newest", self.newest)?;
        write_text_member(writer, "path", self.path.as_str())?;
        write_number_member(writer, "position", self.position)?;
        write_fault_reason(writer, &self.fault)?;
        write_number_or_null(writer, "since", self.since)?;
        write_text_member(writer, "state", state_word(self.state))?;
        write_identity(writer, &self.stream)?;
        writer.end_object()?;
        Ok(())
    }
}

// The line of the last fault, or null.
fn write_fault_line(writer: &mut Writer, fault: &Option<StreamFaultStats>) -> Result<(), NoMemory>
    ensures { OnOk result (Appends writer.old writer.new (member_tokens (codes "line") (fault_line fault.now))) }
{
    match fault {
        Some(fault) => write_number_member(writer, "line", fault.line),
        None => write_null_member(writer, "line"),
    }
}

// What the last fault is, or null.
fn write_fault_reason(writer: &mut Writer, fault: &Option<StreamFaultStats>) -> Result<(), NoMemory>
    ensures { OnOk result (Appends writer.old writer.new (member_tokens (codes "reason") (fault_reason fault.now))) }
{
    match fault {
        Some(fault) => write_text_member(writer, "reason", fault.reason.as_str()),
        None => write_null_member(writer, "reason"),
    }
}

// A member that is a number, or null where there is none.
fn write_number_or_null(writer: &mut Writer, name: &str, value: Option<u64>) -> Result<(), NoMemory>
    ensures { OnOk result (Appends writer.old writer.new (member_tokens name.now (number_or_null value))) }
{
    match value {
        Some(value) => write_number_member(writer, name, value),
        None => write_null_member(writer, name),
    }
}

// Whose stream it is, or null.
fn write_identity(writer: &mut Writer, stream: &Option<String>) -> Result<(), NoMemory>
    ensures { OnOk result (Appends writer.old writer.new (member_tokens (codes "stream") (text_or_null stream.now))) }
{
    match stream {
        Some(stream) => write_text_member(writer, "stream", stream.as_str()),
        None => write_null_member(writer, "stream"),
    }
}

fn state_word(state: StreamState) -> &'static str
    ensures { result.now ≡ word_of_state state }
{
    match state {
        StreamState::Waiting => "waiting",
        StreamState::Open => "open",
        StreamState::Ended => "ended",
        StreamState::Failed => "failed",
    }
}
