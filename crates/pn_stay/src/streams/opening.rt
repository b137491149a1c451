//! Opens the streams of a server that stays: files that are read once, FIFOs and sockets.

ghost use Rattle.std.specs.Prelude.{◌≡◌, [], ◌∷◌, ◌++◌, map, IfOk, OnOk};

use crate::counters::StreamCounters;
use crate::messages::Messages;
use crate::socket_file::{ListenFault, SocketFile, format_lock, remove_sockets};
use crate::streams::fifo::FifoPublishers;
use crate::streams::fifo_poll::FifoPoll;
use crate::streams::input::{
    FILE_READ_SIZE, StreamInput, StreamOpenFault, new_counters, open_source, read_size,
};
use crate::streams::listener::StreamListener;
use crate::streams::notes::{StreamMessenger, StreamNotes};
use crate::streams::origin::{Publishers, StreamOrigin};
use crate::streams::publisher::StreamPositions;
use crate::streams::sockets::SocketPublishers;
use crate::streams::status::StreamStatus;
use pn_join::Name;
use pn_serve::{Counter, ShownMark, Stream, StreamPath, share};
use std::alloc::{AllocError, Global};
use std::fs::{File, Files};
use std::net::Net;
use std::os::unix::fs::FileTypeExt;
use std::sync::{Arc, Wait};
use std::time::Clock;
use std::{fs, io};

/// The streams of a server that stays.
#[derive(Drop)]
pub struct OpenedStreams<R: Drop> {
    pub streams: Vec<Stream<StreamOrigin<R>>>,
    /// The counters of the streams that are counted.
    pub counters: Vec<StreamCounters>,
    /// The files of the sockets at which publishers come.
    pub sockets: Vec<Arc<SocketFile>>,
}

// The publishers of a stream, and how many bytes its file has, where it ends.
type OpenedPublishers<R> = Result<(Publishers<R>, Option<u64>), StreamOpenFault>;

/// Where messages about streams go, whether what is read of them is counted, and the permissions of their sockets.
#[derive(Drop)]
pub struct StreamSetting<R> {
    pub rt: R,
    pub alloc: Global,
    pub messages: Arc<Messages>,
    pub is_counted: bool,
    pub socket_mode: u32,
}

/// Opens streams in their order, and waits for no publisher. After a fault the sockets are removed.
pub fn open_origins<R>(
    setting: &StreamSetting<R>,
    streams: Vec<(Name, StreamPath)>,
) -> Result<OpenedStreams<R>, StreamOpenFault>
where
    R: Files<File = File> + Net + Wait + Clock + Copy + Drop,
    ensures names { IfOk result (λ opened. map (λ stream. stream.name) opened.streams.items ≡ map (λ stream. stream.0) streams.items) }
{
    let room = Vec::with_capacity(setting.alloc, streams.len())?;
    let mut opened = OpenedStreams {
        streams: room,
        counters: Vec::new(setting.alloc),
        sockets: Vec::new(setting.alloc),
    };
    for (name, path) in streams {
        if let Err(fault) = open_origin(setting, &mut opened, name, path) {
            remove_sockets(&setting.rt, &opened.sockets);
            return Err(fault);
        }
    }
    Ok(opened)
}

fn open_origin<R>(
    setting: &StreamSetting<R>,
    opened: &mut OpenedStreams<R>,
    name: Name,
    path: StreamPath,
) -> Result<(), StreamOpenFault>
where
    R: Files<File = File> + Net + Wait + Clock + Copy + Drop,
    ensures names { OnOk result (map (λ stream. stream.name) opened.new.streams.items ≡ map (λ stream. stream.name) opened.old.streams.items ++ name ∷ []) }
{
    let notes = new_notes(setting, name, &path)?;
    let (publishers, size) = open_publishers(setting, &notes, path, &mut opened.sockets)?;
    add_origin(opened, name, StreamOrigin { notes, publishers }, size)
}

// Adds a stream and its counters.
fn add_origin<R>(
    opened: &mut OpenedStreams<R>,
    name: Name,
    origin: StreamOrigin<R>,
    size: Option<u64>,
) -> Result<(), StreamOpenFault>
where
    R: Files<File = File> + Net + Wait + Clock + Copy + Drop,
    ensures names { OnOk result (map (λ stream. stream.name) opened.new.streams.items ≡ map (λ stream. stream.name) opened.old.streams.items ++ name ∷ []) }
{
    let taken = Some(add_counters(&mut opened.counters, &origin, size)?);
    opened.streams.push(Stream {
        name,
        origin,
        taken,
    })?;
    Ok(())
}

// Adds the counters of a stream that is counted. Answers the position up to which rounds have taken it.
fn add_counters<R: Drop>(
    counters: &mut Vec<StreamCounters>,
    origin: &StreamOrigin<R>,
    size: Option<u64>,
) -> Result<Arc<ShownMark>, AllocError> {
    let notes = &origin.notes;
    if let Some(input) = share(&notes.counters)? {
        let sent = share_sent(notes, &origin.publishers)?;
        let taken = Some(Arc::try_clone(&notes.positions.taken)?);
        let status = share(&notes.status)?;
        counters.push(StreamCounters {
            name: notes.messenger.name,
            input,
            taken,
            sent,
            status,
            size,
        })?;
    }
    Arc::try_clone(&notes.positions.taken)
}

// Shares the position that a publisher was sent last, where publishers are sent positions.
fn share_sent<R: Drop>(
    notes: &StreamNotes<R>,
    publishers: &Publishers<R>,
) -> Result<Option<Arc<Counter>>, AllocError> {
    match publishers {
        Publishers::Socket(_) => Ok(Some(Arc::try_clone(&notes.positions.sent)?)),
        Publishers::File(_) | Publishers::Fifo(_) => Ok(None),
    }
}

fn new_notes<R: Copy>(
    setting: &StreamSetting<R>,
    name: Name,
    path: &StreamPath,
) -> Result<StreamNotes<R>, AllocError> {
    let alloc = setting.alloc;
    let messages = Arc::try_clone(&setting.messages)?;
    let counters = new_counters(alloc, setting.is_counted)?;
    let status = new_status(alloc, path, setting.is_counted)?;
    let positions = StreamPositions::new(alloc)?;
    Ok(StreamNotes {
        rt: setting.rt,
        messenger: StreamMessenger {
            alloc,
            name,
            messages,
        },
        counters,
        status,
        positions,
    })
}

// The status of a stream, if somebody is to look at it.
fn new_status(
    alloc: Global,
    path: &StreamPath,
    is_counted: bool,
) -> Result<Option<Arc<StreamStatus>>, AllocError> {
    if !is_counted {
        return Ok(None);
    }
    let path = match path {
        StreamPath::File(path) | StreamPath::Listen(path) => path,
    };
    let status = StreamStatus::new(String::from_str(alloc, path.as_str())?);
    Ok(Some(Arc::new(alloc, status)?))
}

// The publishers that come to a path, and how many bytes its file has, where it ends. A socket's file is added.
fn open_publishers<R>(
    setting: &StreamSetting<R>,
    notes: &StreamNotes<R>,
    path: StreamPath,
    sockets: &mut Vec<Arc<SocketFile>>,
) -> OpenedPublishers<R>
where
    R: Files<File = File> + Net + Wait + Clock + Copy + Drop,
{
    match path {
        StreamPath::Listen(path) => {
            let publishers = listen(notes, path, setting.socket_mode, sockets)?;
            Ok((publishers, None))
        }
        StreamPath::File(path) => match is_fifo(&notes.rt, path.as_str()) {
            Ok(true) => open_fifo(notes, path),
            Ok(false) => open_file(notes, path),
            Err(error) => Err(StreamOpenFault::of(notes.messenger.name, path, error)),
        },
    }
}

fn listen<R>(
    notes: &StreamNotes<R>,
    path: String,
    permissions: u32,
    sockets: &mut Vec<Arc<SocketFile>>,
) -> Result<Publishers<R>, StreamOpenFault>
where
    R: Files<File = File> + Net + Wait + Clock + Copy + Drop,
{
    let messenger = notes.messenger.try_clone()?;
    let alloc = messenger.alloc;
    sockets.reserve(1)?;
    match StreamListener::bind(&notes.rt, alloc, path.as_str(), permissions, messenger) {
        Ok(listener) => {
            sockets.push(listener.share_file()?)?;
            let listener = Arc::new(alloc, listener)?;
            Ok(Publishers::Socket(SocketPublishers::new(listener, path)))
        }
        Err(fault) => Err(refuse_socket(notes, path, fault)?),
    }
}

// Why the socket of a stream is refused. A lock is named by its own path.
fn refuse_socket<R>(
    notes: &StreamNotes<R>,
    path: String,
    fault: ListenFault,
) -> Result<StreamOpenFault, AllocError> {
    let name = notes.messenger.name;
    match fault {
        ListenFault::Path(error) => Ok(StreamOpenFault::of(name, path, error)),
        ListenFault::Lock(error) => {
            let lock = format_lock(notes.messenger.alloc, path.as_str())?;
            Ok(StreamOpenFault::of(name, lock, error))
        }
    }
}

fn is_fifo<R: Files>(rt: &R, path: &str) -> io::Result<bool> {
    Ok(fs::metadata(rt, path)?.file_type().is_fifo())
}

fn open_fifo<R>(notes: &StreamNotes<R>, path: String) -> OpenedPublishers<R>
where
    R: Files<File = File> + Net + Wait + Clock + Copy + Drop,
{
    match FifoPoll::new(&notes.rt, notes.messenger.alloc) {
        Ok(poll) => Ok((Publishers::Fifo(FifoPublishers::new(path, poll)), None)),
        Err(error) => Err(StreamOpenFault::of(notes.messenger.name, path, error)),
    }
}

fn open_file<R>(notes: &StreamNotes<R>, path: String) -> OpenedPublishers<R>
where
    R: Files<File = File> + Net + Wait + Clock + Copy + Drop,
{
    match File::open(&notes.rt, path.as_str()) {
        Ok(file) => {
            let size = read_size(&file);
            let input = StreamInput::File(file);
            match open_source(
                notes.messenger.alloc,
                input,
                FILE_READ_SIZE,
                &notes.counters,
            ) {
                Ok(source) => Ok((Publishers::File(Some(source)), size)),
                Err(_) => Err(StreamOpenFault::Memory),
            }
        }
        Err(error) => Err(StreamOpenFault::of(notes.messenger.name, path, error)),
    }
}
