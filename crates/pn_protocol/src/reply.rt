//! Replies.

ghost use Rattle.pn_protocol.specs.Reply.Texts.{IsShortFor};

pub(crate) mod answers;
pub(crate) mod line_stats;
pub(crate) mod refusals;
pub(crate) mod rows_text;
pub(crate) mod scan;
pub(crate) mod short;
pub(crate) mod shown_records;
pub(crate) mod stats;
pub(crate) mod tablets;
pub(crate) mod text;

use crate::Refusal;
use pn_record::{Cell, Key};
use pn_scan::Row;
use pn_tablet::CopyText;

/// The reply to one line.
#[derive(Drop)]
pub enum Reply {
    /// The number of the tablet that took a copy.
    Adopted(u64),
    /// The number of records that a round changed.
    Changed(u64),
    /// A copy, after the number of its lines.
    Copy(CopyText),
    /// The number of the tablet that was lost.
    Lost(u64),
    /// The number of tablets in a new layout.
    Relaid(u64),
    /// After how many seconds at most the server ends.
    Stopping(u64),
    /// No reply: announced lines are still to come, or the input is at its end.
    Silent,
    /// A page of rows.
    Page(PageReply),
    /// The record of a key, or none.
    Record {
        key: Key,
        cell: Option<Cell>,
    },
    /// The records of keys, in the order of the keys.
    Records {
        keys: Vec<Key>,
        cells: Vec<Option<Cell>>,
    },
    /// A reply's text.
    Text(Vec<u8>),
    /// The line was refused.
    Refused(Refusal),
    /// Why the command was not run.
    NotTaken(Vec<u8>),
}

/// A page of rows, and what its text begins with: the query for the rest.
#[derive(Drop)]
pub struct PageReply {
    pub head: Vec<u8>,
    pub rows: Vec<Row>,
}

impl Reply {
    /// The reply where there is no memory to keep a long one: that refusal in place of what shows records or a long text.
    pub fn or_memory(self) -> Reply
        ensures { IsShortFor self result }
    {
        match self {
            Reply::Copy(_)
            | Reply::Page(_)
            | Reply::Record { .. }
            | Reply::Records { .. }
            | Reply::Text(_) => Reply::Refused(Refusal::Memory),
            reply => reply,
        }
    }
}
