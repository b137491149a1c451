//! What a client reads at a port or at a path.

use std::alloc::Global;
use std::io::{BufRead, BufReader, Write};
use std::net::{Net, SocketAddr, TcpListener, TcpStream};
use std::os::unix::net;
use std::os::unix::net::UnixStream;
use std::test::Fail;
use std::thread::Threads;
use std::time::{Clock, Duration};
use std::{io, thread};
use test_kit::{Answer, ask};

/// How often a client asks at most until its record is there.
const MAX_TURNS: u64 = 100_000;

/// What is asked very often.
const QUESTION: &[u8] = b"{\"do\":\"read\",\"key\":\"k\"}\n";

/// How often the same is asked: the replies are more than a socket takes.
const FLOOD: u32 = 20_000;

/// For how many milliseconds nothing is read meanwhile.
const LATE: u64 = 300;

/// Where a server is.
#[derive(Clone, Copy, Drop)]
pub(crate) enum At {
    Port(SocketAddr),
    Path(&'static str),
}

/// What a client has read.
#[derive(Clone, Copy, Debug)]
pub(crate) enum Told {
    /// The record.
    Row,
    /// The record, and then the end for a client that is idle.
    RowAndEnd,
    /// In each reply that there is no record.
    NoRow,
    /// Anything else.
    Other,
}

/// Asks for the record until it is there. A client that stays then waits for its end.
pub(crate) fn talk<R>(rt: &R, alloc: Global, at: At, stays: bool) -> io::Result<Told>
where
    R: Net<Listener = TcpListener, Stream = TcpStream>,
{
    match at {
        At::Port(at) => talk_at_port(rt, alloc, at, stays),
        At::Path(path) => talk_at_path(rt, alloc, path, stays),
    }
}

fn talk_at_port<R>(rt: &R, alloc: Global, at: SocketAddr, stays: bool) -> io::Result<Told>
where
    R: Net<Listener = TcpListener, Stream = TcpStream>,
{
    let mut stream = TcpStream::connect(rt, at)?;
    let other = stream.try_clone()?;
    let mut replies = BufReader::new(alloc, other)?;
    ask_all(alloc, &mut stream, &mut replies, stays)
}

fn talk_at_path<R: Net>(rt: &R, alloc: Global, path: &str, stays: bool) -> io::Result<Told> {
    let mut stream = connect(rt, path)?;
    let other = stream.try_clone()?;
    let mut replies = BufReader::new(alloc, other)?;
    ask_all(alloc, &mut stream, &mut replies, stays)
}

/// A client of the socket at a path.
pub(crate) fn connect<R: Net>(rt: &R, path: &str) -> io::Result<UnixStream> {
    let at = net::SocketAddr::from_pathname(path)?;
    rt.connect_unix(&at)
}

fn ask_all<O: Write, I: BufRead>(
    alloc: Global,
    sender: &mut O,
    replies: &mut I,
    stays: bool,
) -> io::Result<Told> {
    for _ in 0..MAX_TURNS {
        match ask(alloc, sender, replies)? {
            Answer::Row if stays => return wait_for_end(alloc, replies),
            Answer::Row => return Ok(Told::Row),
            Answer::NoRow => {}
            Answer::Other => return Ok(Told::Other),
        }
    }
    Ok(Told::NoRow)
}

// Waits for what comes unasked, which is to be the end.
fn wait_for_end<I: BufRead>(alloc: Global, replies: &mut I) -> io::Result<Told> {
    let mut rest = String::new(alloc);
    if replies.read_line(&mut rest)? == 0 {
        Ok(Told::RowAndEnd)
    } else {
        Ok(Told::Other)
    }
}

/// Asks very often at once, and reads later: how many replies are the first one, of how many.
pub(crate) fn flood<R: Net + Threads + Clock>(
    rt: &R,
    alloc: Global,
    path: &str,
) -> Result<String, Fail> {
    let stream = connect(rt, path)?;
    let other = stream.try_clone()?;
    let mut replies = BufReader::new(alloc, other)?;
    let same = count_beside(rt, alloc, stream, &mut replies)?;
    Ok(format!(in alloc; "{same} of {FLOOD}")?)
}

// Asks in a thread of its own, and reads later.
fn count_beside<R: Threads + Clock>(
    rt: &R,
    alloc: Global,
    stream: UnixStream,
    replies: &mut BufReader<UnixStream>,
) -> io::Result<u32> {
    let sender = thread::spawn(rt, move || ask_often(stream))?;
    thread::sleep(rt, Duration::from_millis(LATE));
    let same = count_same(alloc, replies)?;
    sender.join(rt)?;
    Ok(same)
}

fn question() -> &'static [u8] {
    QUESTION
}

fn ask_often(stream: UnixStream) -> io::Result<()> {
    let mut stream = stream;
    for _ in 0..FLOOD {
        stream.write_all(question())?;
    }
    Ok(())
}

fn count_same<I: BufRead>(alloc: Global, replies: &mut I) -> io::Result<u32> {
    let mut first = String::new(alloc);
    replies.read_line(&mut first)?;
    let mut same = 1u32;
    for _ in 1..FLOOD {
        let mut next = String::new(alloc);
        replies.read_line(&mut next)?;
        if next == first {
            same = same.saturating_add(1);
        }
    }
    Ok(same)
}
