//! Lines of a control session, which a writer answers beside it until they are over.

use crate::reading::{Script, push_message, read_all, stream_of};
use pn_join::{Name, NoMemory};
use pn_line::InMemory;
use pn_lines::LineBuffers;
use pn_live::{LiveReader, LiveRegion};
use pn_protocol::{
    ConnectionStats, LineCounts, LineKinds, LineStats, Stats, StreamFaultStats, StreamState,
    StreamStats, TabletStats, TimeBucket, TimeCounts, TimeStats, UnreadStats,
};
use pn_serve::{
    ControlMailboxes, ControlSession, OpenedRegion, StatsSource, Stream, close_region, open_region,
    take_commands,
};
use std::alloc::{AllocError, Global};
use std::sync::{Arc, Wait};
use std::test::Fail;
use std::thread;
use std::thread::Threads;
use std::time::Clock;
use test_kit::{bars, layout, spelled_lines};

/// How many workers read the lines of a copy.
const WORKERS: usize = 4;

/// The line that stops the writer.
const STOP: &[u8] = b"{\"do\":\"stop\",\"seconds\":0}\n";

/// Says what a server may have done.
#[derive(Drop)]
struct SomeStats;

impl StatsSource for SomeStats {
    fn stats(&self, alloc: Global, tablets: Vec<TabletStats>) -> Result<Stats, NoMemory> {
        let streams = two_streams(alloc)?;
        Ok(Stats {
            bytes: 1,
            connections: connections(),
            lines: LineStats {
                all: lines(6, 7),
                kinds: kinds(),
            },
            rounds: 8,
            streams,
            tablets,
            times: times(alloc)?,
            unread: unread(),
            uptime: 9,
            version: "0",
        })
    }

    fn has_client_gone(&self) -> bool {
        false
    }
}

fn connections() -> ConnectionStats {
    ConnectionStats {
        accepted: 2,
        idle: 3,
        open: 4,
        refused: 5,
    }
}

fn times(alloc: Global) -> Result<TimeStats, NoMemory> {
    let mut buckets = Vec::with_capacity(alloc, 2)?;
    buckets.push(TimeBucket {
        count: 23,
        most: 24,
    })?;
    buckets.push(TimeBucket {
        count: 25,
        most: 26,
    })?;
    Ok(TimeStats {
        lines: TimeCounts {
            buckets,
            count: 27,
            total: 28,
        },
        rounds: TimeCounts {
            buckets: Vec::new(alloc),
            count: 29,
            total: 30,
        },
    })
}

fn unread() -> UnreadStats {
    UnreadStats {
        bytes: 20,
        ended: 21,
        limit: 22,
    }
}

fn kinds() -> LineKinds {
    LineKinds {
        copy: lines(10, 11),
        get: lines(12, 13),
        other: lines(14, 15),
        read: lines(16, 17),
        scan: lines(18, 19),
    }
}

fn lines(answered: u64, refused: u64) -> LineCounts {
    LineCounts { answered, refused }
}

fn two_streams(alloc: Global) -> Result<Vec<StreamStats>, NoMemory> {
    let failed = failed_stream(alloc)?;
    let new = new_stream(alloc)?;
    let mut streams = Vec::with_capacity(alloc, 2)?;
    streams.push(failed)?;
    streams.push(new)?;
    Ok(streams)
}

// A stream whose last publisher had a fault.
fn failed_stream(alloc: Global) -> Result<StreamStats, NoMemory> {
    let name = Name::read(b"east").ok().ok_or(NoMemory)?;
    let path = String::from_str(alloc, "./east")?;
    let reason = String::from_str(alloc, "not JSON")?;
    let stream = String::from_str(alloc, "kafka east")?;
    Ok(StreamStats {
        name,
        path,
        position: 10,
        messages: 11,
        bytes: 12,
        state: StreamState::Failed,
        since: Some(13),
        fault: Some(StreamFaultStats { line: 14, reason }),
        stream: Some(stream),
        newest: Some(20),
        heard: Some(21),
    })
}

// A stream to which no publisher has come.
fn new_stream(alloc: Global) -> Result<StreamStats, NoMemory> {
    let name = Name::read(b"west").ok().ok_or(NoMemory)?;
    let path = String::from_str(alloc, "./west")?;
    Ok(StreamStats {
        name,
        path,
        position: 0,
        messages: 0,
        bytes: 0,
        state: StreamState::Waiting,
        since: None,
        fault: None,
        stream: None,
        newest: None,
        heard: None,
    })
}

/// The replies of a control session over a region of two tablets that has taken this many messages. A bar is a newline, and
/// `~3~ab~` is `ababab`.
pub(crate) fn answer_control<R>(rt: &R, alloc: Global, line: &str) -> Result<String, Fail>
where
    R: Threads + Wait + Clock + Sync + Copy + Send + Drop + 'static,
{
    let (count, text) = line.split_once(' ').ok_or(NoMemory)?;
    let count = count.parse::<u64>()?;
    let lines = spelled_lines(alloc, text)?;
    let written = answer_after(rt, alloc, count, lines).ok_or(NoMemory)?;
    bars(alloc, &written)
}

// Answers the lines over a region that has taken this many messages.
fn answer_after<R>(rt: &R, alloc: Global, count: u64, lines: String) -> Option<Vec<u8>>
where
    R: Threads + Wait + Clock + Sync + Copy + Send + Drop + 'static,
{
    let streams = streams_of(rt, alloc, count)?;
    let layout = layout(alloc, "h")?;
    let OpenedRegion {
        mut live,
        mut readers,
    } = open_region(rt, alloc, layout, 1).ok()?;
    let is_read = read_all(rt, alloc, &mut live, streams, None);
    let told = answer_by(rt, alloc, &mut live, readers.pop(), lines);
    let is_closed = close_region(rt, live, Vec::new(alloc)).is_ok();
    if is_read && is_closed { told } else { None }
}

// Answers the lines by a reader, if there is one.
fn answer_by<R>(
    rt: &R,
    alloc: Global,
    live: &mut LiveRegion,
    reader: Option<LiveReader>,
    lines: String,
) -> Option<Vec<u8>>
where
    R: Threads + Wait + Clock + Sync + Copy + Send + Drop + 'static,
{
    let reader = reader?;
    let session = new_session(rt, alloc)?;
    answer_beside(rt, alloc, live, (session, reader, lines))
}

fn new_session<R: Clock>(rt: &R, alloc: Global) -> Option<ControlSession<SomeStats>> {
    let mailboxes = ControlMailboxes::new(rt, alloc, 1).ok()?;
    let mailboxes = Arc::new(alloc, mailboxes).ok()?;
    Some(ControlSession {
        mailboxes,
        number: 0,
        stats: SomeStats,
        workers: WORKERS,
    })
}

// Has the lines answered in a thread, and does what they ask for. None where there is no thread.
fn answer_beside<R>(
    rt: &R,
    alloc: Global,
    live: &mut LiveRegion,
    asked: (ControlSession<SomeStats>, LiveReader, String),
) -> Option<Vec<u8>>
where
    R: Threads + Wait + Clock + Sync + Copy + Send + Drop + 'static,
{
    let (session, reader, lines) = asked;
    let mailboxes = Arc::try_clone(&session.mailboxes).ok()?;
    let host = *rt;
    let thread = thread::spawn(rt, move || answer(&host, alloc, &session, reader, lines)).ok()?;
    let asked = take_commands(rt, alloc, live, &mailboxes);
    let _closed = mailboxes.close(rt, asked);
    Some(thread.join(rt))
}

// Answers the lines, and has the writer stop.
fn answer<R: Threads + Wait + Clock>(
    rt: &R,
    alloc: Global,
    session: &ControlSession<SomeStats>,
    reader: LiveReader,
    lines: String,
) -> Vec<u8> {
    let mut written = Vec::new(alloc);
    let mut input = InMemory::new(lines.as_bytes());
    if let Ok(mut buffers) = LineBuffers::new(alloc) {
        let (reader, _) = session.answer(rt, &mut buffers, reader, &mut input, &mut written);
        let mut stop = InMemory::new(STOP);
        let _ = session.answer(rt, &mut buffers, reader, &mut stop, &mut Vec::new(alloc));
    }
    written
}

// One stream of this many messages, of a key each; no stream where there is no message.
fn streams_of<R: Wait + Clock + Copy>(
    rt: &R,
    alloc: Global,
    count: u64,
) -> Option<Vec<Stream<Script<R>>>> {
    let mut streams = Vec::new(alloc);
    if count > 0 {
        let text = messages(alloc, count).ok()?;
        let stream = stream_of(rt, alloc, b"east", text, 0)?;
        streams.push(stream).ok()?;
    }
    Some(streams)
}

fn messages(alloc: Global, count: u64) -> Result<String, AllocError> {
    let mut text = String::new(alloc);
    for position in 1..=count {
        let key = format!(in alloc; "k{position}")?;
        push_message(&mut text, position, key.as_str(), position)?;
    }
    Ok(text)
}
