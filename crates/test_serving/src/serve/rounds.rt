//! Streams of many messages that are read in few rounds.

use crate::reading::{Script, push_message, read_into_region, stream_of};
use pn_join::NoMemory;
use pn_serve::{Counter, Stream};
use std::alloc::{AllocError, Global};
use std::sync::{Arc, Wait};
use std::test::Fail;
use std::thread::Threads;
use std::time::Clock;

/// How many messages each of two streams has. With 1,000 a report, each reports five times, the last time its end.
const MESSAGES: u64 = 3_000;

const MAX_ROUNDS: u64 = 10;

/// How many milliseconds it takes to find that a stream has no next publisher.
const DELAY: u64 = 200;

fn messages(alloc: Global) -> Result<String, AllocError> {
    let mut text = String::new(alloc);
    for position in 1..=MESSAGES {
        push_message(&mut text, position, "k", 0)?;
    }
    Ok(text)
}

fn add_stream<R: Wait + Clock + Copy>(
    rt: &R,
    alloc: Global,
    streams: &mut Vec<Stream<Script<R>>>,
    name: &[u8],
) -> Option<()> {
    let text = messages(alloc).ok()?;
    let stream = stream_of(rt, alloc, name, text, DELAY)?;
    streams.push(stream).ok()
}

fn two_streams<R: Wait + Clock + Copy>(rt: &R, alloc: Global) -> Option<Vec<Stream<Script<R>>>> {
    let mut streams = Vec::new(alloc);
    add_stream(rt, alloc, &mut streams, b"east")?;
    add_stream(rt, alloc, &mut streams, b"west")?;
    Some(streams)
}

/// Whether two streams were read to their ends, and in few rounds: no round is run for nothing, and each takes all messages at hand.
pub(crate) fn few_rounds<R>(rt: &R, alloc: Global) -> Result<String, Fail>
where
    R: Threads + Wait + Clock + Sync + Copy + Send + Drop + 'static,
{
    let rounds = Arc::new(alloc, Counter::new())?;
    let is_read = read_both(rt, alloc, &rounds).ok_or(NoMemory)?;
    let is_few = is_read && rounds.get() <= MAX_ROUNDS;
    Ok(format!(in alloc; "read, in few rounds: {is_few}")?)
}

// Whether both streams were read to their ends, in rounds that are counted.
fn read_both<R>(rt: &R, alloc: Global, rounds: &Arc<Counter>) -> Option<bool>
where
    R: Threads + Wait + Clock + Sync + Copy + Send + Drop + 'static,
{
    let counter = Arc::try_clone(rounds).ok()?;
    let streams = two_streams(rt, alloc)?;
    let (is_read, _region) = read_into_region(rt, alloc, streams, Some(counter))?;
    Some(is_read)
}
