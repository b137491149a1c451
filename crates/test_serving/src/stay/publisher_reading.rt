//! Publishers of a stream, read to their ends one after another.

use pn_join::{LAST_POSITION, Marks, raise_at};
use pn_line::Source;
use pn_serve::{NextPublisher, Origin, PublisherEnd, Stream};
use pn_stay::{StreamOrigin, StreamSource};
use pn_stream::{Delivery, NoWait, ResumeFault, StreamFault, StreamReader};
use std::alloc::Global;
use std::fs::{File, Files};
use std::net::Net;
use std::sync::Wait;
use std::time::Clock;

/// How many messages a call reads at most.
const MOST: usize = 10;

/// The mark that a command makes.
const RAISED_MARK: u64 = 7;

/// How many calls read a publisher at most.
const CALLS: u32 = 100;

/// Reads the next two publishers of a stream to their ends. Between them the stream's mark rises, as a command may raise it.
pub(super) fn read_two<R>(alloc: Global, stream: &mut Stream<StreamOrigin<R>>) -> Option<u64>
where
    R: Files<File = File> + Net + Wait + Clock + Copy + Drop,
{
    let last = read_publisher(alloc, stream, 0)?;
    show_mark(alloc, stream, RAISED_MARK)?;
    read_publisher(alloc, stream, last)
}

// Shows that the stream's mark has come to a position.
fn show_mark<R>(alloc: Global, stream: &Stream<StreamOrigin<R>>, position: u64) -> Option<()>
where
    R: Files<File = File> + Net + Wait + Clock + Copy + Drop,
{
    let mut marks = Marks::new(alloc);
    raise_at(&mut marks, stream.name, position).ok()?;
    if let Some(taken) = &stream.taken {
        taken.show(&marks, &stream.name);
    }
    Some(())
}

/// Reads the next publisher of a stream to its end, and answers up to which position the stream was read.
pub(super) fn read_publisher<R>(
    alloc: Global,
    stream: &mut Stream<StreamOrigin<R>>,
    last: u64,
) -> Option<u64>
where
    R: Files<File = File> + Net + Wait + Clock + Copy + Drop,
{
    let NextPublisher { source, after } = stream.origin.next_publisher(&stream.name, last)?;
    let after = after.min(LAST_POSITION);
    let mut reader = StreamReader::new(alloc, stream.name, after, source);
    let end = read_to_end(alloc, stream, &mut reader)?;
    let last = after.max(reader.position());
    stream
        .origin
        .end_publisher(reader.into_source(), &end, last);
    Some(last)
}

fn read_to_end<R>(
    alloc: Global,
    stream: &mut Stream<StreamOrigin<R>>,
    reader: &mut StreamReader<StreamSource<R>>,
) -> Option<PublisherEnd>
where
    R: Files<File = File> + Net + Wait + Clock + Copy + Drop,
{
    match has_begun(alloc, reader) {
        Ok(true) => {
            note(alloc, stream, reader.position())?;
            read_rest(alloc, stream, reader)
        }
        Ok(false) => Some(PublisherEnd::End),
        Err(fault) => Some(end_of(fault, reader.position(), 1)),
    }
}

// Reads the first message. Whether there was one.
fn has_begun<S: Source + Drop>(
    alloc: Global,
    reader: &mut StreamReader<S>,
) -> Result<bool, ResumeFault> {
    is_first(&reader.resume(&NoWait::new(alloc)))
}

fn is_first(given: &Result<Option<Delivery>, ResumeFault>) -> Result<bool, ResumeFault> {
    match given {
        Ok(first) => Ok(first.is_some()),
        Err(fault) => Err(*fault),
    }
}

fn read_rest<R>(
    alloc: Global,
    stream: &mut Stream<StreamOrigin<R>>,
    reader: &mut StreamReader<StreamSource<R>>,
) -> Option<PublisherEnd>
where
    R: Files<File = File> + Net + Wait + Clock + Copy + Drop,
{
    for line in 2..CALLS {
        let more = has_read(reader);
        if !matches!(more, Ok(true)) {
            return Some(end_of_rest(more, reader.position(), line as u64));
        }
        note(alloc, stream, reader.position())?;
    }
    Some(PublisherEnd::End)
}

// Reads what is there. Whether there was a message.
fn has_read<S: Source + Drop>(reader: &mut StreamReader<S>) -> Result<bool, StreamFault> {
    has_messages(&reader.next_ready(MOST))
}

fn has_messages(given: &Result<Delivery, StreamFault>) -> Result<bool, StreamFault> {
    match given {
        Ok(delivery) => Ok(!delivery.images().is_empty()),
        Err(fault) => Err(*fault),
    }
}

fn end_of_rest(more: Result<bool, StreamFault>, last: u64, line: u64) -> PublisherEnd {
    match more {
        Ok(_) => PublisherEnd::End,
        Err(fault) => end_of(ResumeFault::Stream(fault), last, line),
    }
}

fn end_of(fault: ResumeFault, last: u64, line: u64) -> PublisherEnd {
    PublisherEnd::Fault {
        fault,
        position: last.saturating_add(1),
        line,
    }
}

// Notes that all up to a position was handed to rounds and taken.
fn note<R>(alloc: Global, stream: &mut Stream<StreamOrigin<R>>, position: u64) -> Option<()>
where
    R: Files<File = File> + Net + Wait + Clock + Copy + Drop,
{
    stream.origin.note_handed(position);
    show_mark(alloc, stream, position)
}
