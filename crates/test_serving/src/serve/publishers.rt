//! Streams whose publishers are those of a line, one after another.
//!
//! `AFTER WRITER/WRITER/..` is a stream that was taken up to a position by the copy from which its region starts, and its publishers.
//! A publisher is words: a number is the message at that position, a number and `-` the first half of its line, any other word a line that is no message.

ghost use Rattle.std.specs.Prelude.{IfSome};
ghost use Rattle.pn_live.specs.Prelude.{tablets_in};
ghost use Rattle.pn_serve.specs.Server.Events.{AllRead};

use crate::reading::{Script, push_message, read_into_opened};
use crate::serve::copies::open_text;
use pn_join::{Name, NoMemory};
use pn_line::InMemory;
use pn_record::Key;
use pn_region::Region;
use pn_serve::{OpenedRegion, ShownMark, Stream};
use std::alloc::{AllocError, Global};
use std::sync::{Arc, Mutex, Wait};
use std::test::Fail;
use std::thread::Threads;
use std::time::Clock;

/// The one stream that is read, the notes of its publishers, and how far it was taken.
#[derive(Drop)]
struct Noted<R: Wait + Clock + Copy> {
    streams: Vec<Stream<Script<R>>>,
    told: Arc<Mutex<String>>,
    taken: Arc<ShownMark>,
}

/// How the stream of a line was read, how far it was taken, and the version of its record.
pub(crate) fn read_publishers<R>(rt: &R, alloc: Global, line: &str) -> Result<String, Fail>
where
    R: Threads + Wait + Clock + Sync + Copy + Send + Drop + 'static,
{
    let (after, publishers) = line.split_once(' ').ok_or(NoMemory)?;
    let after = after.parse::<u64>()?;
    let publishers = inputs(alloc, publishers)?;
    Ok(read_after(rt, alloc, after, publishers).ok_or(NoMemory)?)
}

fn read_after<R>(
    rt: &R,
    alloc: Global,
    after: u64,
    publishers: Vec<InMemory<'static>>,
) -> Option<String>
where
    R: Threads + Wait + Clock + Sync + Copy + Send + Drop + 'static,
{
    let Noted {
        streams,
        told,
        taken,
    } = new_noted(rt, alloc, publishers)?;
    let (is_read, region) = read_noted(rt, alloc, after, streams)?;
    add_end(rt, alloc, &told, is_read, taken.get(), &region)
}

fn read_noted<R>(
    rt: &R,
    alloc: Global,
    after: u64,
    streams: Vec<Stream<Script<R>>>,
) -> Option<(bool, Region)>
where
    R: Threads + Wait + Clock + Sync + Copy + Send + Drop + 'static,
{
    let opened = open_after(rt, alloc, after)?;
    read_into_opened(rt, alloc, opened, streams, None)
}

// A region that starts from a copy without records, which took a stream up to a position.
fn open_after<R: Threads + Wait + Sync>(rt: &R, alloc: Global, after: u64) -> Option<OpenedRegion>
    ensures { IfSome result (λ opened. AllRead (tablets_in opened.live) opened.readers.items) }
{
    let text = copy_after(alloc, after).ok()?;
    open_text(rt, alloc, 1, text.as_bytes(), 1).ok()
}

fn copy_after(alloc: Global, after: u64) -> Result<String, AllocError> {
    let mut text = String::from_str(alloc, "{\"copy\":1,\"from\":null,\"to\":null}\n")?;
    if after > 0 {
        write!(
            text,
            "{{\"at\":{after},\"stream\":\"east\"}}\n{{\"end\":1}}\n"
        )?;
    } else {
        text.push_str("{\"end\":0}\n")?;
    }
    Ok(text)
}

fn new_noted<R: Wait + Clock + Copy>(
    rt: &R,
    alloc: Global,
    publishers: Vec<InMemory<'static>>,
) -> Option<Noted<R>> {
    let taken = Arc::new(alloc, ShownMark::new()).ok()?;
    let stream = new_stream(rt, alloc, publishers, &taken)?;
    let told = stream.origin.notes().ok()?;
    let streams = alone(alloc, stream)?;
    Some(Noted {
        streams,
        told,
        taken,
    })
}

fn alone<R: Wait + Clock + Copy>(
    alloc: Global,
    stream: Stream<Script<R>>,
) -> Option<Vec<Stream<Script<R>>>> {
    let mut streams = Vec::with_capacity(alloc, 1).ok()?;
    streams.push(stream).ok()?;
    Some(streams)
}

fn new_stream<R: Wait + Clock + Copy>(
    rt: &R,
    alloc: Global,
    publishers: Vec<InMemory<'static>>,
    taken: &Arc<ShownMark>,
) -> Option<Stream<Script<R>>> {
    let name = Name::read(b"east").ok()?;
    let taken = Arc::try_clone(taken).ok()?;
    let origin = Script::new(rt, alloc, publishers, 0).ok()?;
    Some(Stream {
        name,
        origin,
        taken: Some(taken),
    })
}

fn add_end<R: Wait>(
    rt: &R,
    alloc: Global,
    told: &Mutex<String>,
    is_read: bool,
    taken: u64,
    region: &Region,
) -> Option<String> {
    let ended = if is_read { "ended" } else { "failed" };
    let mark = mark_of(region)?;
    let number = number_in(alloc, region)?;
    let mut text = copy_notes(rt, alloc, told)?;
    write!(
        text,
        ", {ended}, taken {taken}, mark {mark}, version {number}"
    )
    .ok()?;
    Some(text)
}

fn copy_notes<R: Wait>(rt: &R, alloc: Global, told: &Mutex<String>) -> Option<String> {
    String::from_str(alloc, told.lock(rt).as_str()).ok()
}

fn mark_of(region: &Region) -> Option<u64> {
    let name = Name::read(b"east").ok()?;
    Some(region.marks().position(&name))
}

// The number of the version of the record, or 0 where there is none.
fn number_in(alloc: Global, region: &Region) -> Option<u64> {
    let key = Key::of(alloc, "k").ok()?;
    match region.read(&key, None) {
        Ok(Some(cell)) => Some(cell.version().number),
        Ok(None) => Some(0),
        Err(_) => None,
    }
}

// The last publisher's input first.
fn inputs(alloc: Global, publishers: &str) -> Result<Vec<InMemory<'static>>, AllocError> {
    let mut inputs = Vec::new(alloc);
    for publisher in publishers.split('/') {
        let text = text_of(alloc, publisher)?;
        inputs.push(InMemory::new(text.into_bytes().leak()))?;
    }
    inputs.reverse();
    Ok(inputs)
}

fn text_of(alloc: Global, publisher: &str) -> Result<String, AllocError> {
    let mut text = String::new(alloc);
    for word in publisher.split_whitespace() {
        push_line(&mut text, word)?;
    }
    Ok(text)
}

fn push_line(text: &mut String, word: &str) -> Result<(), AllocError> {
    let digits = word.trim_end_matches('-');
    match digits.parse::<u64>() {
        Ok(at) if digits.len() < word.len() => write!(text, "{{\"at\":{at},\"image\":{{\"fie"),
        Ok(at) => push_message(text, at, "k", at),
        Err(_) => writeln!(text, "{word}"),
    }
}
