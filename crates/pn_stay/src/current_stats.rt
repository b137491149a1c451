//! The counts that a control session shows: what a server has done so far.

ghost use Rattle.std.specs.Prelude.{◌≡◌};

use crate::counters::{Counters, StreamCounters};
use crate::socket::Socket;
use crate::streams::status::StreamStatus;
use pn_join::NoMemory;
use pn_protocol::{
    ConnectionStats, LineCounts, LineStats, Stats, StreamStats, TabletStats, TimeStats, UnreadStats,
};
use pn_serve::{StatsSource, VERSION};
use std::alloc::{AllocError, Global};
use std::sync::Wait;
use std::time::{Clock, Instant};

/// The counters of a server, when the server began, and the client that asks for them.
#[derive(Drop)]
pub(crate) struct CurrentStats<'a, R> {
    pub(crate) rt: &'a R,
    pub(crate) counters: &'a Counters,
    pub(crate) started: &'a Option<Instant>,
    pub(crate) client: &'a Socket,
}

impl<R: Wait + Clock> StatsSource for CurrentStats<'_, R> {
    fn stats(&self, alloc: Global, tablets: Vec<TabletStats>) -> Result<Stats, NoMemory> {
        let streams = stats_of_streams(self.rt, alloc, &self.counters.streams)?;
        let times = stats_of_times(alloc, self.counters)?;
        Ok(self.collect(tablets, streams, times))
    }

    fn has_client_gone(&self) -> bool {
        self.client.has_gone()
    }
}

impl<R: Clock> CurrentStats<'_, R> {
    // Collects all counts, with these of tablets, streams and times.
    fn collect(
        &self,
        tablets: Vec<TabletStats>,
        streams: Vec<StreamStats>,
        times: TimeStats,
    ) -> Stats
        ensures { result.tablets ≡ tablets }
    {
        let counters = self.counters;
        Stats {
            bytes: counters.memory.bytes(),
            connections: ConnectionStats {
                accepted: counters.connections.accepted.get(),
                open: counters.connections.open.get(),
                idle: counters.connections.idle.get(),
                refused: counters.connections.refused.get(),
            },
            lines: LineStats {
                all: LineCounts {
                    answered: counters.clients.lines.get(),
                    refused: counters.refused.get(),
                },
                kinds: counters.kinds.lines(),
            },
            rounds: counters.rounds.get(),
            streams,
            tablets,
            times,
            unread: UnreadStats {
                bytes: counters.unread.bytes.get(),
                ended: counters.unread.ended.get(),
                limit: counters.unread.limit,
            },
            uptime: seconds_since(self.rt, self.started).unwrap_or(0),
            version: VERSION,
        }
    }
}

// How long lines and rounds took.
fn stats_of_times(alloc: Global, counters: &Counters) -> Result<TimeStats, NoMemory> {
    let lines = counters.line_times.counts(alloc)?;
    let rounds = counters.round_times.counts(alloc)?;
    Ok(TimeStats { lines, rounds })
}

fn stats_of_streams<R: Wait + Clock>(
    rt: &R,
    alloc: Global,
    streams: &[StreamCounters],
) -> Result<Vec<StreamStats>, NoMemory> {
    let mut stats = Vec::with_capacity(alloc, streams.len())?;
    for stream in streams {
        if let Some(status) = &stream.status {
            stats.push(stats_of(rt, alloc, stream, status)?)?;
        }
    }
    Ok(stats)
}

fn stats_of<R: Wait + Clock>(
    rt: &R,
    alloc: Global,
    stream: &StreamCounters,
    status: &StreamStatus,
) -> Result<StreamStats, AllocError> {
    let status = status.read(rt, alloc)?;
    Ok(StreamStats {
        name: stream.name,
        path: status.path,
        position: match &stream.taken {
            Some(taken) => taken.get(),
            None => 0,
        },
        messages: stream.input.lines.get(),
        bytes: stream.input.bytes.get(),
        state: status.state,
        since: seconds_since(rt, &status.came),
        fault: status.fault,
        stream: status.stream,
        newest: status.newest,
        heard: seconds_since(rt, &status.heard),
    })
}

// How many whole seconds have passed since then, where the clock says it.
fn seconds_since<R: Clock>(rt: &R, then: &Option<Instant>) -> Option<u64> {
    match then {
        Some(then) => Some(then.elapsed(rt).ok()?.as_secs()),
        None => None,
    }
}
