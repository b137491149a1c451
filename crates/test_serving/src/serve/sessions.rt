//! Lines that a session answers by a reader of a live region.

ghost use Rattle.std.specs.Prelude.{◌≡◌, All};
ghost use Rattle.pn_live.specs.LiveRegions.{IsReaderIn, tablets_in};
ghost use Rattle.pn_live.specs.Readers.{tablets_of};

use crate::regions::{close, hand_back, open, take_out};
use pn_apply::Open;
use pn_join::{Name, NoMemory};
use pn_line::{InMemory, Sink, Source};
use pn_live::{LiveReader, LiveRegion};
use pn_record::{Image, read_image};
use pn_serve::{Counts, RunFault, session};
use pn_stream::Delivery;
use std::alloc::Global;
use std::sync::Wait;
use std::test::Fail;
use std::thread::Threads;
use test_kit::{bars, layout, newlines};

// One delivery of the image that the first line is.
fn delivery_of(alloc: Global, lines: &str) -> Option<Vec<Delivery>> {
    let images = alone(alloc, image_of(alloc, lines)?)?;
    let name = Name::read(b"east").ok()?;
    alone(alloc, Delivery::new(name, 1, images)?)
}

fn image_of(alloc: Global, lines: &str) -> Option<Image> {
    let (line, _rest) = lines.split_once('\n').unwrap_or((lines, ""));
    read_image(alloc, line.as_bytes()).ok()
}

// A list of one item.
fn alone<T: Drop>(alloc: Global, item: T) -> Option<Vec<T>> {
    let mut items = Vec::new(alloc);
    items.push(item).ok()?;
    Some(items)
}

// How many records the round of the first line changes.
fn count_changed<R: Threads + Wait + Sync>(
    rt: &R,
    alloc: Global,
    live: &mut LiveRegion,
    lines: &str,
) -> Option<u64>
    ensures { tablets_in live.new ≡ tablets_in live.old }
{
    let given = delivery_of(alloc, lines)?;
    let (round, _front) = live.round(rt, given, 1, &Open).ok()?;
    Some(round.changed)
}

// Answers the lines by a reader of a live region.
fn replies(
    alloc: Global,
    live: &LiveRegion,
    readers: &mut Vec<LiveReader>,
    lines: &str,
    written: &mut Vec<u8>,
) -> Option<Counts>
    requires { All (IsReaderIn live.now) readers.old.items }
    ensures { All (IsReaderIn live.now) readers.new.items }
{
    let mut reader = take_out(live, readers)?;
    let mut input = InMemory::new(lines.as_bytes());
    let ended = answer_by(alloc, &mut reader, &mut input, written);
    hand_back(live, readers, reader);
    ended.ok()
}

// Answers a session by a reader.
fn answer_by<S: Source, W: Sink>(
    alloc: Global,
    reader: &mut LiveReader,
    input: &mut S,
    output: &mut W,
) -> Result<Counts, RunFault>
    ensures { tablets_of reader.new ≡ tablets_of reader.old }
{
    session(alloc, reader, input, output)
}

/// The replies of a session, and how many lines it refused. The first line is an image, which was taken before, and no line to the session.
pub(crate) fn answer_session<R: Threads + Wait + Sync>(
    rt: &R,
    alloc: Global,
    text: &str,
) -> Result<String, Fail> {
    let lines = newlines(alloc, text)?;
    let mut written = Vec::new(alloc);
    let (changed, counts) = answer_lines(rt, alloc, lines.as_str(), &mut written).ok_or(NoMemory)?;
    session_text(alloc, changed, counts, &written)
}

fn session_text(
    alloc: Global,
    changed: u64,
    counts: Counts,
    written: &[u8],
) -> Result<String, Fail> {
    let replies = bars(alloc, written)?;
    let (lines, refused) = (counts.lines, counts.refused);
    Ok(format!(in alloc; "{changed} changed, {lines} lines, {refused} refused: {replies}")?)
}

// How many records the first line changes, and how many lines are answered.
fn answer_lines<R: Threads + Wait + Sync>(
    rt: &R,
    alloc: Global,
    lines: &str,
    written: &mut Vec<u8>,
) -> Option<(u64, Counts)> {
    let layout = layout(alloc, "")?;
    let (mut live, mut readers) = open(rt, alloc, layout, 1).ok()?;
    let changed = count_changed(rt, alloc, &mut live, lines);
    let counts = replies(alloc, &live, &mut readers, lines, written);
    close(rt, live, readers).ok()?;
    Some((changed?, counts?))
}
