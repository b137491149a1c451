//! Streams that are read into a live region, from one publisher after another, and the settings of regions that serve.

ghost use Rattle.std.specs.Prelude.{◌≡◌, IfSome};
ghost use Rattle.pn_live.specs.LiveRegions.{tablets_in};
ghost use Rattle.pn_serve.specs.Server.Events.{AllRead};

use pn_join::{Name, StreamName};
use pn_line::InMemory;
use pn_live::LiveRegion;
use pn_region::Region;
use pn_serve::{
    AnyPublishers, Counter, NextPublisher, OpenedRegion, Origin, PublisherEnd, Settings, Stream,
    Watchers, close_region, open_region, read_streams,
};
use pn_stream::StreamReader;
use std::alloc::{AllocError, Global};
use std::sync::{Arc, Mutex, Wait};
use std::thread;
use std::thread::Threads;
use std::time::{Clock, Duration};
use test_kit::layout;

const FIRST: &str =
    "{\"at\":1,\"image\":{\"fields\":{\"v\":\"x\"},\"key\":\"k\",\"master\":\"w\",\"version\":[1,0]}}\n";

/// The message at position 1. Functions that take it from here know nothing of its bytes, which the prover would look at.
pub(crate) fn first_message() -> &'static str {
    FIRST
}

/// Gives one publisher after another, and notes each call.
#[derive(Drop)]
pub(crate) struct Script<R: Wait + Clock + Copy> {
    rt: R,
    alloc: Global,
    // The last one comes first.
    publishers: Vec<InMemory<'static>>,
    told: Arc<Mutex<String>>,
    // How many milliseconds it takes to find that there is no next publisher.
    delay: u64,
}

impl<R: Wait + Clock + Copy> Script<R> {
    /// A script of these publishers, of which the last one comes first.
    pub(crate) fn new(
        rt: &R,
        alloc: Global,
        publishers: Vec<InMemory<'static>>,
        delay: u64,
    ) -> Result<Script<R>, AllocError> {
        let told = Arc::new(alloc, Mutex::new(String::new(alloc)))?;
        Ok(Script {
            rt: *rt,
            alloc,
            publishers,
            told,
            delay,
        })
    }

    /// Where its calls are noted.
    pub(crate) fn notes(&self) -> Result<Arc<Mutex<String>>, AllocError> {
        Arc::try_clone(&self.told)
    }

    fn note(&self, event: Result<String, AllocError>) {
        if let Ok(event) = event {
            let _ = self.told.lock(&self.rt).push_str(event.as_str());
        }
    }
}

impl<R: Wait + Clock + Copy> Origin<InMemory<'static>, AnyPublishers> for Script<R> {
    ghost may_go_on = { Unit {0} };

    ghost begins_after = { λ _ _. Unit {0} };

    fn next_publisher(
        &mut self,
        _name: &StreamName,
        last: u64,
    ) -> Option<NextPublisher<InMemory<'static>>> {
        self.note(format!(in self.alloc; "from {last}"));
        if self.publishers.is_empty() {
            thread::sleep(&self.rt, Duration::from_millis(self.delay));
        }
        let source = self.publishers.pop()?;
        Some(NextPublisher {
            source,
            after: last,
        })
    }

    fn note_handed(&mut self, last: u64) {
        self.note(format!(in self.alloc; ", {last}"));
    }

    fn end_publisher(&mut self, _source: InMemory<'static>, end: &PublisherEnd, last: u64) {
        self.note(match end {
            PublisherEnd::End => format!(in self.alloc; ", end at {last}; "),
            PublisherEnd::Fault {
                fault,
                position,
                line,
            } => format!(in self.alloc; ", {fault} (at {position}, line {line}); "),
        });
    }

    fn stop_publisher(&mut self, _source: InMemory<'static>) {}
}

/// A stream of one publisher.
pub(crate) fn stream_of<R: Wait + Clock + Copy>(
    rt: &R,
    alloc: Global,
    name: &[u8],
    text: String,
    delay: u64,
) -> Option<Stream<Script<R>>> {
    let name = Name::read(name).ok()?;
    let publishers = one_publisher(alloc, text)?;
    let origin = Script::new(rt, alloc, publishers, delay).ok()?;
    Some(Stream {
        name,
        origin,
        taken: None,
    })
}

fn one_publisher(alloc: Global, text: String) -> Option<Vec<InMemory<'static>>> {
    let text: &'static [u8] = text.into_bytes().leak();
    let mut publishers = Vec::with_capacity(alloc, 1).ok()?;
    publishers.push(InMemory::new(text)).ok()?;
    Some(publishers)
}

/// The reader of one stream of these messages.
pub(crate) fn readers_of(
    alloc: Global,
    messages: &'static str,
) -> Option<Vec<StreamReader<InMemory<'static>>>> {
    let name = Name::read(b"east").ok()?;
    let mut readers = Vec::with_capacity(alloc, 1).ok()?;
    let reader = StreamReader::new(alloc, name, 0, InMemory::new(messages.as_bytes()));
    readers.push(reader).ok()?;
    Some(readers)
}

/// One tablet for all keys, and one worker.
pub(crate) fn settings(alloc: Global) -> Option<Settings> {
    let layout = layout(alloc, "")?;
    Settings::new(layout, 1)
}

/// Opens a new region of one tablet, with one reader.
pub(crate) fn open_new<R: Wait>(rt: &R, alloc: Global) -> Option<OpenedRegion>
    ensures { IfSome result (λ opened. AllRead (tablets_in opened.live) opened.readers.items) }
{
    let layout = layout(alloc, "")?;
    open_region(rt, alloc, layout, 1).ok()
}

/// Adds a message at a position: an image of a key, of the version of a number.
pub(crate) fn push_message(
    text: &mut String,
    position: u64,
    key: &str,
    number: u64,
) -> Result<(), AllocError> {
    writeln!(
        text,
        "{{\"at\":{position},\"image\":{{\"fields\":{{\"v\":\"x\"}},\"key\":\"{key}\",\"master\":\"w\",\"version\":[1,{number}]}}}}"
    )
}

/// Reads streams, without control sessions. Whether they were read to their ends.
pub(crate) fn read_all<R>(
    rt: &R,
    alloc: Global,
    live: &mut LiveRegion,
    streams: Vec<Stream<Script<R>>>,
    rounds: Option<Arc<Counter>>,
) -> bool
where
    R: Threads + Wait + Clock + Sync + Copy + Send + Drop + 'static,
    ensures { tablets_in live.new ≡ tablets_in live.old }
{
    let watchers = Watchers {
        rounds,
        times: None,
        shortage: None,
        waiting: None,
        controls: None,
    };
    read_streams(rt, alloc, live, 1, streams, &watchers).is_ok()
}

/// Reads streams into a new region of one tablet. Whether they were read to their ends, and the region that is closed then.
pub(crate) fn read_into_region<R>(
    rt: &R,
    alloc: Global,
    streams: Vec<Stream<Script<R>>>,
    rounds: Option<Arc<Counter>>,
) -> Option<(bool, Region)>
where
    R: Threads + Wait + Clock + Sync + Copy + Send + Drop + 'static,
{
    let opened = open_new(rt, alloc)?;
    read_into_opened(rt, alloc, opened, streams, rounds)
}

/// Reads streams into a live region. Whether they were read to their ends, and the region that is closed then.
pub(crate) fn read_into_opened<R>(
    rt: &R,
    alloc: Global,
    opened: OpenedRegion,
    streams: Vec<Stream<Script<R>>>,
    rounds: Option<Arc<Counter>>,
) -> Option<(bool, Region)>
where
    R: Threads + Wait + Clock + Sync + Copy + Send + Drop + 'static,
    requires { AllRead (tablets_in opened.live) opened.readers.items }
{
    let OpenedRegion { live, readers } = opened;
    let mut live = live;
    let is_read = read_all(rt, alloc, &mut live, streams, rounds);
    let region = close_region(rt, live, readers).ok()?;
    Some((is_read, region))
}
