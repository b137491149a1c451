//! Streams in memory, served over loopback to a client in a thread of its own.

use crate::reading::{first_message, readers_of, settings};
use crate::serve::copies::open_text;
use pn_join::NoMemory;
use pn_live::LiveReader;
use pn_serve::{
    Acceptor, AnyPublishers, Counter, FaultLog, PublisherEnd, ServeFault, serve, serve_opened,
};
use std::alloc::{AllocError, Global};
use std::io::BufReader;
use std::net::{Net, SocketAddr, TcpListener, TcpStream};
use std::sync::{Arc, Wait};
use std::test::Fail;
use std::thread::Threads;
use std::time::Clock;
use std::{io, thread};
use test_kit::{Answer, ask, bars};

/// The message at position 2.
const SECOND: &str =
    "{\"at\":2,\"image\":{\"fields\":{\"v\":\"x\"},\"key\":\"k\",\"master\":\"w\",\"version\":[1,0]}}\n";

/// A copy without records that took the first message.
const COPY: &str =
    "{\"copy\":1,\"from\":null,\"to\":null}\n{\"at\":1,\"stream\":\"east\"}\n{\"end\":1}\n";

/// How often a client asks at most until its record is there, and how often after it.
const MAX_TURNS: u64 = 100_000;

const TURNS_AFTER: u64 = 1_000;

/// How serving ended, and what was written.
pub(crate) type Served = (Result<(), ServeFault>, Vec<u8>);

/// What a client has read.
#[derive(Clone, Copy, Debug)]
enum Told {
    /// The record, and it stayed there.
    Row,
    /// In each reply that there is no record.
    NoRow,
    /// Anything else.
    Other,
}

/// A listener, and the faults of streams.
#[derive(Drop)]
struct Logged {
    listener: TcpListener,
    faults: Arc<FaultLog>,
}

impl Acceptor for Logged {
    fn try_clone(&self) -> io::Result<Logged> {
        let listener = TcpListener::try_clone(&self.listener)?;
        let faults = Arc::try_clone(&self.faults)?;
        Ok(Logged { listener, faults })
    }

    fn answer_client(&self, alloc: Global, reader: &mut LiveReader) -> io::Result<()> {
        self.listener.answer_client(alloc, reader)
    }

    fn round_counter(&self) -> Option<Arc<Counter>> {
        None
    }

    fn fault_log(&self) -> Option<Arc<FaultLog>> {
        Arc::try_clone(&self.faults).ok()
    }
}

// Asks for the record until it is there, at most this often, and then some times more.
fn talk<R: Net<Listener = TcpListener, Stream = TcpStream>>(
    rt: &R,
    alloc: Global,
    at: SocketAddr,
    most: u64,
) -> io::Result<Told> {
    let stream = TcpStream::connect(rt, at)?;
    let mut sender = &stream;
    let mut replies = BufReader::new(alloc, &stream)?;
    ask_on(alloc, &mut sender, &mut replies, most)
}

fn ask_on(
    alloc: Global,
    sender: &mut &TcpStream,
    replies: &mut BufReader<&TcpStream>,
    most: u64,
) -> io::Result<Told> {
    for _ in 0..most {
        match ask(alloc, sender, replies)? {
            Answer::Row => return stays(alloc, sender, replies),
            Answer::NoRow => {}
            Answer::Other => return Ok(Told::Other),
        }
    }
    Ok(Told::NoRow)
}

fn stays(
    alloc: Global,
    sender: &mut &TcpStream,
    replies: &mut BufReader<&TcpStream>,
) -> io::Result<Told> {
    for _ in 0..TURNS_AFTER {
        if ask(alloc, sender, replies)? != Answer::Row {
            return Ok(Told::Other);
        }
    }
    Ok(Told::Row)
}

/// Serves one session over a stream whose first message is at a position, in a new region or in one that starts from a copy: what the
/// client has read, what was written, and how serving ended.
pub(crate) fn serve_stream<R>(rt: &R, alloc: Global, how: &str) -> Result<String, Fail>
where
    R: Net<Listener = TcpListener, Stream = TcpStream>
        + Threads
        + Wait
        + Clock
        + Sync
        + Copy
        + Send
        + 'static,
{
    let logged = listen(rt, alloc)?;
    let faults = Arc::try_clone(&logged.faults)?;
    let mut text = serve_client(rt, alloc, logged, how)?;
    add_faults(rt, &mut text, &faults)?;
    Ok(text)
}

// Serves one session to a client in a thread of its own.
fn serve_client<R>(rt: &R, alloc: Global, logged: Logged, how: &str) -> Result<String, Fail>
where
    R: Net<Listener = TcpListener, Stream = TcpStream>
        + Threads
        + Wait
        + Clock
        + Sync
        + Copy
        + Send
        + 'static,
{
    let at = logged.listener.local_addr()?;
    let theirs = *rt;
    let most = if how == "2" { TURNS_AFTER } else { MAX_TURNS };
    let client = thread::spawn(rt, move || talk(&theirs, alloc, at, most))?;
    let served = serve_one(rt, alloc, &logged, how);
    // A client that was not accepted ends, too.
    drop(logged);
    let told = client.join(rt)?;
    told_and_served(alloc, told, served)
}

fn told_and_served(alloc: Global, told: Told, served: Option<Served>) -> Result<String, Fail> {
    let served = outcome(alloc, served)?;
    Ok(format!(in alloc; "{told:?}, {served}")?)
}

fn listen<R: Net<Listener = TcpListener, Stream = TcpStream>>(
    rt: &R,
    alloc: Global,
) -> io::Result<Logged> {
    let listener = TcpListener::bind(rt, "127.0.0.1:0")?;
    let log = FaultLog::new(alloc, 1)?;
    let faults = Arc::new(alloc, log)?;
    Ok(Logged { listener, faults })
}

// Serves one session.
fn serve_one<R>(rt: &R, alloc: Global, listener: &Logged, how: &str) -> Option<Served>
where
    R: Threads + Wait + Clock + Sync + Copy + Send + 'static,
{
    let mut written = Vec::new(alloc);
    let ended = match how {
        "1" => serve_new(rt, alloc, listener, first_message(), &mut written),
        "2" => serve_new(rt, alloc, listener, second_message(), &mut written),
        _ => serve_copy(rt, alloc, listener, &mut written),
    };
    Some((ended?, written))
}

/// What was written, and the fault if there is one.
pub(crate) fn outcome(alloc: Global, served: Option<Served>) -> Result<String, Fail> {
    let (ended, written) = served.ok_or(NoMemory)?;
    let mut text = bars(alloc, &written)?;
    if let Err(fault) = ended {
        write!(text, "{fault}")?;
    }
    Ok(text)
}

// Serves over a stream of these messages, in a new region.
fn serve_new<R>(
    rt: &R,
    alloc: Global,
    listener: &Logged,
    messages: &'static str,
    written: &mut Vec<u8>,
) -> Option<Result<(), ServeFault>>
where
    R: Threads + Wait + Clock + Sync + Copy + Send + 'static,
{
    let settings = settings(alloc)?;
    let streams = readers_of(alloc, messages)?;
    Some(serve::<_, _, _, _, AnyPublishers>(rt, alloc, listener, settings, 1, streams, written))
}

fn second_message() -> &'static str {
    SECOND
}

fn first_copy() -> &'static [u8] {
    COPY.as_bytes()
}

// Serves over a stream of the first message, in a region that starts from a copy that took it.
fn serve_copy<R>(
    rt: &R,
    alloc: Global,
    listener: &Logged,
    written: &mut Vec<u8>,
) -> Option<Result<(), ServeFault>>
where
    R: Threads + Wait + Clock + Sync + Copy + Send + 'static,
{
    let streams = readers_of(alloc, first_message())?;
    let opened = open_text(rt, alloc, 1, first_copy(), 1).ok()?;
    Some(serve_opened::<_, _, _, _, AnyPublishers>(
        rt, alloc, listener, opened, 1, streams, written,
    ))
}

fn add_faults<R: Wait>(rt: &R, text: &mut String, faults: &FaultLog) -> Result<(), AllocError> {
    for failure in faults.take(rt) {
        add_fault(text, &failure.end)?;
    }
    Ok(())
}

fn add_fault(text: &mut String, end: &PublisherEnd) -> Result<(), AllocError> {
    match end {
        PublisherEnd::End => Ok(()),
        PublisherEnd::Fault {
            fault,
            position,
            line,
        } => write!(text, ": {fault} (at {position}, line {line})"),
    }
}
