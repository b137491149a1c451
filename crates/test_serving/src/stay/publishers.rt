//! Publishers of a stream, one after another: at a socket, and at a FIFO. And lines for standard error.

use crate::reading::push_message;
use crate::stay::opening::{Opened, open};
use crate::stay::publisher_reading::{read_publisher, read_two};
use crate::stay::show;
use crate::stay::talks::connect;
use pn_join::NoMemory;
use pn_serve::{Stream, StreamPath};
use pn_stay::{Messages, StreamOrigin, WaitingLines, remove_sockets};
use std::alloc::{AllocError, Global};
use std::fs::{File, Files, OpenOptions};
use std::io::{BufRead, BufReader, Read, Write};
use std::net::Net;
use std::os::fd::AsRawFd;
use std::os::unix::net::UnixStream;
use std::sync::Wait;
use std::test::Fail;
use std::thread::Threads;
use std::time::Clock;
use std::{io, thread};

/// The path of a stream's socket.
const STREAM_PATH: &str = "stream-of-test";

/// How many lines are left for standard error.
const LINES: u32 = 1_030;

fn message(alloc: Global, position: u64) -> Result<String, AllocError> {
    let mut text = String::new(alloc);
    push_message(&mut text, position, "k", 0)?;
    Ok(text)
}

// What was left for standard error, with bars between the lines.
fn show_messages<R: Wait + Clock>(
    rt: &R,
    alloc: Global,
    messages: &Messages,
) -> Result<String, Fail> {
    let mut waiting = WaitingLines::new(alloc)?;
    messages.exchange(rt, &mut waiting);
    let mut text = String::new(alloc);
    for line in waiting.lines().iter() {
        text.push_str(line.as_str())?;
        text.push_str("|")?;
    }
    Ok(text)
}

/// What the publishers of a stream read, where they can, the messages about them, and up to which position the stream was read.
pub(crate) fn read_opened<R>(rt: &R, alloc: Global, how: &str) -> Result<String, Fail>
where
    R: Files<File = File> + Net + Threads + Wait + Clock + Copy + Drop,
{
    if how == "socket" {
        read_socket(rt, alloc)
    } else {
        read_fifo(rt, alloc)
    }
}

// Two publishers at a socket. The first leaves out two messages of the stream, and the second begins too late.
fn read_socket<R>(rt: &R, alloc: Global) -> Result<String, Fail>
where
    R: Files<File = File> + Net + Threads + Wait + Clock + Copy + Drop,
{
    let path = StreamPath::Listen(String::from_str(alloc, STREAM_PATH)?);
    let mut opened = open(rt, alloc, path).ok_or(NoMemory)?;
    read_at_socket(rt, alloc, &mut opened)
}

fn read_at_socket<R>(rt: &R, alloc: Global, opened: &mut Opened<R>) -> Result<String, Fail>
where
    R: Files<File = File> + Net + Threads + Wait + Clock + Copy + Drop,
{
    let (told, last) = read_beside(rt, alloc, &mut opened.stream)?;
    remove_sockets(rt, &opened.sockets);
    read_text(rt, alloc, told.as_str(), &opened.messages, last)
}

// What was read, the messages about it, and up to which position.
fn read_text<R: Wait + Clock>(
    rt: &R,
    alloc: Global,
    told: &str,
    messages: &Messages,
    last: u64,
) -> Result<String, Fail> {
    let said = show_messages(rt, alloc, messages)?;
    Ok(format!(in alloc; "{told} {said} {last}")?)
}

// Reads both publishers while they write: what they have read, and up to which position the stream was read.
fn read_beside<R>(
    rt: &R,
    alloc: Global,
    stream: &mut Stream<StreamOrigin<R>>,
) -> Result<(String, u64), Fail>
where
    R: Files<File = File> + Net + Threads + Wait + Clock + Copy + Drop,
{
    let publishers = connect_twice(rt)?;
    let client = thread::spawn(rt, move || write_twice(alloc, publishers))?;
    let last = read_two(alloc, stream).ok_or(NoMemory)?;
    let told = client.join(rt)?;
    let told = show(alloc, told.as_bytes())?;
    Ok((told, last))
}

fn connect_twice<R: Net>(rt: &R) -> io::Result<(UnixStream, UnixStream)> {
    let first = connect(rt, STREAM_PATH)?;
    let second = connect(rt, STREAM_PATH)?;
    Ok((first, second))
}

// Two publishers: what both have read.
fn write_twice(alloc: Global, publishers: (UnixStream, UnixStream)) -> io::Result<String> {
    let mut told = String::new(alloc);
    write_both(alloc, publishers, &mut told)?;
    Ok(told)
}

fn write_both(
    alloc: Global,
    publishers: (UnixStream, UnixStream),
    told: &mut String,
) -> io::Result<()> {
    let (first, second) = publishers;
    write_once(alloc, first, told, (1, 5))?;
    write_once(alloc, second, told, (9, 9))
}

// Writes a message, and another one once something has come back.
fn write_once(
    alloc: Global,
    stream: UnixStream,
    told: &mut String,
    positions: (u64, u64),
) -> io::Result<()> {
    write_by(alloc, &stream, told, lines_of(alloc, &stream), positions)
}

// What comes back to a publisher.
fn lines_of(alloc: Global, stream: &UnixStream) -> io::Result<BufReader<UnixStream>> {
    let other = stream.try_clone()?;
    BufReader::new(alloc, other)
}

fn write_by(
    alloc: Global,
    stream: &UnixStream,
    told: &mut String,
    lines: io::Result<BufReader<UnixStream>>,
    positions: (u64, u64),
) -> io::Result<()> {
    let mut lines = lines?;
    write_between(alloc, stream, told, &mut lines, positions)
}

fn write_between(
    alloc: Global,
    stream: &UnixStream,
    told: &mut String,
    lines: &mut BufReader<UnixStream>,
    positions: (u64, u64),
) -> io::Result<()> {
    lines.read_line(told)?;
    send(alloc, stream, positions.0)?;
    lines.read_line(told)?;
    // (the socket may have been closed after the reason was read)
    let _ = send(alloc, stream, positions.1);
    let _ = lines.read_line(told);
    Ok(())
}

// Writes the message at a position.
fn send(alloc: Global, stream: &UnixStream, position: u64) -> io::Result<()> {
    let line = message(alloc, position)?;
    let mut stream = stream;
    stream.write_all(line.as_bytes())
}

// Two publishers of a FIFO, of which the first leaves half a line.
fn read_fifo<R>(rt: &R, alloc: Global) -> Result<String, Fail>
where
    R: Files<File = File> + Net + Wait + Clock + Copy + Drop,
{
    let (reader, publisher) = io::pipe(rt)?;
    let path = format!(in alloc; "/proc/self/fd/{}", reader.as_raw_fd())?;
    read_path(rt, alloc, path.as_str(), publisher)
}

fn read_path<R, W>(rt: &R, alloc: Global, path: &str, publisher: W) -> Result<String, Fail>
where
    R: Files<File = File> + Net + Wait + Clock + Copy + Drop,
    W: Write + Drop,
{
    let mut opened = open_file(rt, alloc, path).ok_or(NoMemory)?;
    let last = read_both(rt, alloc, &mut opened.stream, path, publisher)?;
    said_text(rt, alloc, &opened.messages, last)
}

fn open_file<R>(rt: &R, alloc: Global, path: &str) -> Option<Opened<R>>
where
    R: Files<File = File> + Net + Wait + Clock + Copy + Drop,
{
    let path = String::from_str(alloc, path).ok()?;
    open(rt, alloc, StreamPath::File(path))
}

fn said_text<R: Wait + Clock>(
    rt: &R,
    alloc: Global,
    messages: &Messages,
    last: u64,
) -> Result<String, Fail> {
    let said = show_messages(rt, alloc, messages)?;
    Ok(format!(in alloc; "{said} {last}")?)
}

fn read_both<R, W>(
    rt: &R,
    alloc: Global,
    stream: &mut Stream<StreamOrigin<R>>,
    path: &str,
    publisher: W,
) -> Result<u64, Fail>
where
    R: Files<File = File> + Net + Wait + Clock + Copy + Drop,
    W: Write + Drop,
{
    write_half(alloc, publisher)?;
    let last = read_publisher(alloc, stream, 0).ok_or(NoMemory)?;
    write_again(rt, alloc, path)?;
    Ok(read_publisher(alloc, stream, last).ok_or(NoMemory)?)
}

fn write_half<W: Write + Drop>(alloc: Global, publisher: W) -> io::Result<()> {
    let mut publisher = publisher;
    let whole = message(alloc, 1)?;
    publisher.write_all(whole.as_bytes())?;
    publisher.write_all(b"{\"at\":2,")
}

fn write_again<R: Files<File = File>>(rt: &R, alloc: Global, path: &str) -> io::Result<()> {
    let mut text = message(alloc, 1)?;
    push_message(&mut text, 2, "k", 0)?;
    let mut publisher = OpenOptions::new().write(true).open(rt, path)?;
    publisher.write_all(text.as_bytes())
}

/// How many lines wait of very many that were left, how many were dropped, and whether the first one waits.
pub(crate) fn leave_many<R: Wait + Clock>(rt: &R, alloc: Global) -> Result<String, Fail> {
    let messages = Messages::new(alloc)?;
    for number in 0..LINES {
        messages.leave(rt, format!(in alloc; "{number}"));
    }
    let mut waiting = WaitingLines::new(alloc)?;
    messages.exchange(rt, &mut waiting);
    let count = waiting.lines().len();
    let is_first = match waiting.lines().first() {
        Some(line) => line.as_str() == "0",
        None => false,
    };
    Ok(format!(in alloc; "{count} {} {is_first}", waiting.dropped())?)
}
