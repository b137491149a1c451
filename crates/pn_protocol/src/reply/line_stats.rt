//! The counts and times of lines in the reply to `stats`.

ghost use Rattle.std.specs.Prelude.{OnOk};
ghost use Rattle.pn_json.specs.Prelude.{Appends, value_tokens};
ghost use Rattle.pn_protocol.specs.Reply.Stats.{line_counts_data, line_kinds_data, lines_data, time_counts_data, times_data, unread_data};

use crate::reply::scan::{Shown, write_array};
use json::Writer;
use pn_join::NoMemory;
use pn_json::write_number_member;

/// The lines of clients.
#[derive(Clone, Copy, Debug)]
pub struct LineStats {
    pub all: LineCounts,
    pub kinds: LineKinds,
}

/// How many lines were answered, and how many of these answers are refusals.
#[derive(Clone, Copy, Debug, PartialEq, Eq)]
pub struct LineCounts {
    pub answered: u64,
    pub refused: u64,
}

/// Lines by what they ask for. Those that ask for nothing that sessions have, and those that are no command, are the
/// others.
#[derive(Clone, Copy, Debug, PartialEq, Eq)]
pub struct LineKinds {
    pub copy: LineCounts,
    pub get: LineCounts,
    pub other: LineCounts,
    pub read: LineCounts,
    pub scan: LineCounts,
}

impl LineStats {
    /// Writes the counts of lines as members of a reply.
    #[tactic(auto, unfolding(crate::specs::Reply::Stats::lines_data))]
    pub(crate) fn write(&self, writer: &mut Writer) -> Result<(), NoMemory>
        ensures { OnOk result (Appends writer.old writer.new (value_tokens (lines_data self.now))) }
    {
        writer.begin_object()?;
        write_number_member(writer, "answered", self.all.answered)?;
        writer.key("kinds")?;
        self.kinds.write(writer)?;
        write_number_member(writer, "refused", self.all.refused)?;
        writer.end_object()?;
        Ok(())
    }
}

impl LineKinds {
    #[tactic(auto, unfolding(crate::specs::Reply::Stats::line_kinds_data))]
    fn write(&self, writer: &mut Writer) -> Result<(), NoMemory>
        ensures { OnOk result (Appends writer.old writer.new (value_tokens (line_kinds_data self.now))) }
    {
        writer.begin_object()?;
        writer.key("copy")?;
        self.copy.write(writer)?;
        writer.key("get")?;
        self.get.write(writer)?;
        writer.key("other")?;
        self.other.write(writer)?;
        writer.key("read")?;
        self.read.write(writer)?;
        writer.key("scan")?;
        self.scan.write(writer)?;
        writer.end_object()?;
        Ok(())
    }
}

impl LineCounts {
    #[tactic(auto, unfolding(crate::specs::Reply::Stats::line_counts_data))]
    fn write(&self, writer: &mut Writer) -> Result<(), NoMemory>
        ensures { OnOk result (Appends writer.old writer.new (value_tokens (line_counts_data self.now))) }
    {
        writer.begin_object()?;
        write_number_member(writer, "answered", self.answered)?;
        write_number_member(writer, "refused", self.refused)?;
        writer.end_object()?;
        Ok(())
    }
}

/// How long lines took, and how long rounds.
#[derive(Drop)]
pub struct TimeStats {
    pub lines: TimeCounts,
    pub rounds: TimeCounts,
}

/// How many took how long.
#[derive(Drop)]
pub struct TimeCounts {
    /// Those that took little time, by their times, from the shortest on.
    pub buckets: Vec<TimeBucket>,
    /// How many there were, and how many microseconds they took together.
    pub count: u64,
    pub total: u64,
}

/// How many took at most a number of microseconds, but more than those of the bucket before.
#[derive(Clone, Copy, Debug, PartialEq, Eq)]
pub struct TimeBucket {
    pub count: u64,
    pub most: u64,
}

impl TimeStats {
    /// Writes the times as members of a reply.
    #[tactic(auto, unfolding(crate::specs::Reply::Stats::times_data))]
    pub(crate) fn write(&self, writer: &mut Writer) -> Result<(), NoMemory>
        ensures { OnOk result (Appends writer.old writer.new (value_tokens (times_data self.now))) }
    {
        writer.begin_object()?;
        writer.key("lines")?;
        self.lines.write(writer)?;
        writer.key("rounds")?;
        self.rounds.write(writer)?;
        writer.end_object()?;
        Ok(())
    }
}

impl TimeCounts {
    #[tactic(auto, unfolding(crate::specs::Reply::Stats::time_counts_data))]
    fn write(&self, writer: &mut Writer) -> Result<(), NoMemory>
        ensures { OnOk result (Appends writer.old writer.new (value_tokens (time_counts_data self.now))) }
    {
        writer.begin_object()?;
        writer.key("buckets")?;
        write_array(writer, &self.buckets)?;
        write_number_member(writer, "count", self.count)?;
        write_number_member(writer, "total", self.total)?;
        writer.end_object()?;
        Ok(())
    }
}

impl Shown for TimeBucket {
    ghost use Rattle.pn_protocol.specs.Reply.Stats.{time_bucket_data};

    ghost value = { λ bucket. time_bucket_data bucket };

    #[tactic(auto, unfolding(crate::specs::Reply::Stats::time_bucket_data))]
    fn write(&self, writer: &mut Writer) -> Result<(), NoMemory> {
        writer.begin_object()?;
        write_number_member(writer, "count", self.count)?;
        write_number_member(writer, "most", self.most)?;
        writer.end_object()?;
        Ok(())
    }
}

/// The records that unread replies keep.
#[derive(Clone, Copy, Debug)]
pub struct UnreadStats {
    /// How many bytes these records have.
    pub bytes: u64,
    /// How many clients were ended that took nothing.
    pub ended: u64,
    /// How many bytes there may be before clients are ended that take nothing for a second.
    pub limit: u64,
}

impl UnreadStats {
    #[tactic(auto, unfolding(crate::specs::Reply::Stats::unread_data))]
    pub(crate) fn write(&self, writer: &mut Writer) -> Result<(), NoMemory>
        ensures { OnOk result (Appends writer.old writer.new (value_tokens (unread_data self.now))) }
    {
        writer.begin_object()?;
        write_number_member(writer, "bytes", self.bytes)?;
        write_number_member(writer, "ended", self.ended)?;
        write_number_member(writer, "limit", self.limit)?;
        writer.end_object()?;
        Ok(())
    }
}
