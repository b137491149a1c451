//! What streams are read from, and how files are opened, each of which is read once.

ghost use Rattle.std.specs.Io.{ReadsAtMost};
ghost use Rattle.std.specs.Prelude.{◌≡◌, [], ◌∷◌, ◌++◌, map, All, IfOk, OnOk};

use crate::counters::{CountingSource, InputCounters, StreamCounters};
use crate::interrupts::is_interrupted;
use crate::streams::message_input::{MessageInput, READ_SIZE};
use crate::streams::origin::BrokerListener;
use crate::streams::publisher::PublisherSocket;
use pn_join::Name;
use pn_serve::{StreamPath, share};
use pn_stream::StreamReader;
use std::alloc::{AllocError, AllocFailed, Global};
use std::fs::{File, Files};
use std::io;
use std::io::{BufRead, BufReader, Read};
use std::net::Net;
use std::sync::{Arc, Wait};
use std::time::Clock;

/// How many bytes of a file are read at a time.
pub(crate) const FILE_READ_SIZE: usize = 1_048_576;

/// How many bytes of a socket are read at a time.
pub(crate) const SOCKET_READ_SIZE: usize = READ_SIZE;

/// The socket of a publisher, without what the publisher says of its stream.
pub type SocketInput<R> = MessageInput<PublisherSocket<R>, BrokerListener<R>>;

/// What a stream's publisher is read from.
#[derive(Drop)]
pub enum StreamInput<R: Drop> {
    /// A file, or a FIFO.
    File(File),
    /// The socket of a publisher.
    Socket(SocketInput<R>),
}

/// A publisher's input, of which is counted what is read.
pub type StreamSource<R> = CountingSource<BufReader<StreamInput<R>>>;

impl<R: Files<File = File> + Net + Wait + Clock + Drop> Read for StreamInput<R> {
    fn read(&mut self, buf: &mut [u8]) -> io::Result<usize> {
        match self {
            StreamInput::File(file) => read_file(file, buf),
            StreamInput::Socket(input) => input.read(buf),
        }
    }
}

// Reads a file, again where a signal interrupts it.
fn read_file(file: &File, buf: &mut [u8]) -> io::Result<usize>
    ensures { ReadsAtMost result buf.new }
{
    for _ in 0..u64::MAX {
        let count = (&*file).read(buf);
        if !is_interrupted(&count) {
            return count;
        }
    }
    (&*file).read(buf)
}

/// Begins to read an input, `size` bytes at a time.
pub(crate) fn open_source<I: Read + Drop>(
    alloc: Global,
    input: I,
    size: usize,
    counters: &Option<Arc<InputCounters>>,
) -> io::Result<CountingSource<BufReader<I>>> {
    let reader = BufReader::with_capacity(alloc, size, input)?;
    Ok(CountingSource::new(reader, share(counters)?))
}

/// Drops the bytes that were read and are not taken.
pub(crate) fn drop_read<R>(source: StreamSource<R>) -> StreamSource<R>
where
    R: Files<File = File> + Net + Wait + Clock + Drop,
{
    let (mut reader, counters) = source.into_parts();
    let count = reader.buffer().len();
    reader.consume(count);
    CountingSource::new(reader, counters)
}

/// Drops some of the bytes that are at hand. Whether there were any.
pub(crate) fn drop_some<R>(source: StreamSource<R>) -> (StreamSource<R>, bool)
where
    R: Files<File = File> + Net + Wait + Clock + Drop,
{
    let (mut reader, counters) = source.into_parts();
    let count = match reader.fill_buf() {
        Ok(bytes) => bytes.len(),
        Err(_) => 0,
    };
    reader.consume(count);
    (CountingSource::new(reader, counters), count > 0)
}

/// What a stream that is a file is read from.
pub type FileSource = CountingSource<BufReader<File>>;

/// Streams that are files.
#[derive(Drop)]
pub struct OpenedFiles {
    pub readers: Vec<StreamReader<FileSource>>,
    /// The counters of the streams that are counted.
    pub counters: Vec<StreamCounters>,
}

/// Why the streams were not opened.
#[derive(Drop)]
pub enum StreamOpenFault {
    /// The system refuses the path of the stream of this name.
    Path {
        name: Name,
        path: String,
        error: io::Error,
    },
    Memory,
}

impl StreamOpenFault {
    /// The system refuses a path.
    pub(crate) fn of(name: Name, path: String, error: io::Error) -> StreamOpenFault {
        StreamOpenFault::Path { name, path, error }
    }
}

impl From<AllocError> for StreamOpenFault {
    fn from(_fault: AllocError) -> StreamOpenFault {
        StreamOpenFault::Memory
    }
}

impl<T: Drop> From<AllocFailed<T>> for StreamOpenFault {
    fn from(_fault: AllocFailed<T>) -> StreamOpenFault {
        StreamOpenFault::Memory
    }
}

/// Opens the files of streams in their order.
pub fn open_files<R: Files<File = File>>(
    rt: &R,
    alloc: Global,
    streams: Vec<(Name, StreamPath)>,
    is_counted: bool,
) -> Result<OpenedFiles, StreamOpenFault>
    ensures names { IfOk result (λ opened. map (λ reader. reader.name) opened.readers.items ≡ map (λ stream. stream.0) streams.items) }
    ensures first { IfOk result (λ opened. All (λ reader. reader.position ≡ 0) opened.readers.items) }
{
    let readers = Vec::with_capacity(alloc, streams.len())?;
    let mut opened = OpenedFiles {
        readers,
        counters: Vec::new(alloc),
    };
    for (name, path) in streams {
        let counters = new_counters(alloc, is_counted)?;
        open_file(rt, alloc, &mut opened, (name, path), counters)?;
    }
    Ok(opened)
}

fn open_file<R: Files<File = File>>(
    rt: &R,
    alloc: Global,
    opened: &mut OpenedFiles,
    stream: (Name, StreamPath),
    counters: Option<Arc<InputCounters>>,
) -> Result<(), StreamOpenFault>
    requires { All (λ reader. reader.position ≡ 0) opened.old.readers.items }
    ensures first { OnOk result (All (λ reader. reader.position ≡ 0) opened.new.readers.items) }
    ensures names { OnOk result (map (λ reader. reader.name) opened.new.readers.items ≡ map (λ reader. reader.name) opened.old.readers.items ++ stream.0 ∷ []) }
{
    let (name, path) = stream;
    let path = match path {
        StreamPath::File(path) | StreamPath::Listen(path) => path,
    };
    let file = match File::open(rt, path.as_str()) {
        Ok(file) => file,
        Err(error) => return Err(StreamOpenFault::of(name, path, error)),
    };
    let size = read_size(&file);
    let Ok(source) = open_source(alloc, file, FILE_READ_SIZE, &counters) else {
        return Err(StreamOpenFault::Memory);
    };
    if let Some(input) = counters {
        opened.counters.push(StreamCounters {
            name,
            input,
            taken: None,
            sent: None,
            status: None,
            size,
        })?;
    }
    opened
        .readers
        .push(StreamReader::new(alloc, name, 0, source))?;
    Ok(())
}

/// How many bytes a file has, where it ends.
pub(crate) fn read_size(file: &File) -> Option<u64> {
    match file.metadata() {
        Ok(metadata) if metadata.is_file() => Some(metadata.len()),
        _ => None,
    }
}

/// New counters, where somebody is to look at them.
pub(crate) fn new_counters(
    alloc: Global,
    is_counted: bool,
) -> Result<Option<Arc<InputCounters>>, AllocError> {
    if is_counted {
        Ok(Some(Arc::new(alloc, InputCounters::new())?))
    } else {
        Ok(None)
    }
}
