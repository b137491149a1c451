//! What a server reads, and where it listens.

use crate::addresses::{Listeners, listen};
use crate::failures::{fail_serving, is_explained, refuse_streams};
use pn_arguments::Service;
use pn_join::Name;
use pn_serve::{FaultLog, ServeFault, Stream, StreamPath, share};
use pn_stay::{
    Counters, FileSource, MemoryMeter, Messages, SocketAcceptor, SocketFile, StreamCounters,
    StreamOpenFault, StreamOrigin, StreamSetting, open_files, open_origins, remove_sockets,
};
use pn_stream::StreamReader;
use std::alloc::{AllocError, Global};
use std::fs::File;
use std::net::{Net, TcpListener, TcpStream};
use std::process::ExitCode;
use std::rt::Files;
use std::sync::{Arc, Wait};
use std::time::Clock;

/// The streams of a server.
#[derive(Drop)]
pub(crate) enum Streams<R: Drop> {
    /// Files, which are read to their ends.
    Files(Vec<StreamReader<FileSource>>),
    /// The streams of a server that stays, and how many of its connections may be open.
    Staying(Vec<Stream<StreamOrigin<R>>>, u32),
}

/// The counters of a server, where faults and messages of its streams go, and the files of its sockets.
#[derive(Drop)]
pub(crate) struct Notes {
    pub(crate) counters: Arc<Counters>,
    /// Where the faults of streams are noted, if somebody looks at them.
    pub(crate) faults: Option<Arc<FaultLog>>,
    /// Where messages about the streams of a server that stays go.
    pub(crate) messages: Option<Arc<Messages>>,
    pub(crate) sockets: Vec<Arc<SocketFile>>,
}

/// Opens the streams that the words ask for, or prints why not.
pub(crate) fn open_streams<R>(
    rt: &R,
    service: &Service,
    streams: Vec<(Name, StreamPath)>,
) -> Result<(Streams<R>, Notes), ExitCode>
where
    R: AllocGlobal + Files<File = File> + Net + Eprint + Wait + Clock + Copy + Drop,
{
    let opened = match service.stay {
        Some(connections) => open_to_stay(rt, service, connections, streams),
        None => open_to_end(rt, service, streams),
    };
    match opened {
        Ok(opened) => Ok(opened),
        Err(fault) => Err(refuse_streams(rt, fault, is_explained(service))),
    }
}

fn open_to_end<R>(
    rt: &R,
    service: &Service,
    streams: Vec<(Name, StreamPath)>,
) -> Result<(Streams<R>, Notes), StreamOpenFault>
where
    R: AllocGlobal + Files<File = File> + Drop,
{
    let alloc = rt.alloc();
    let faults = new_fault_log(alloc, service, streams.len())?;
    let opened = open_files(rt, alloc, streams, service.is_progress_told)?;
    let counters = new_counters(rt, service, opened.counters)?;
    let notes = Notes {
        counters,
        faults,
        messages: None,
        sockets: Vec::new(alloc),
    };
    Ok((Streams::Files(opened.readers), notes))
}

fn open_to_stay<R>(
    rt: &R,
    service: &Service,
    connections: u32,
    streams: Vec<(Name, StreamPath)>,
) -> Result<(Streams<R>, Notes), StreamOpenFault>
where
    R: AllocGlobal + Files<File = File> + Net + Wait + Clock + Copy + Drop,
{
    let alloc = rt.alloc();
    let messages = new_messages(alloc)?;
    let theirs = Arc::try_clone(&messages)?;
    let setting = StreamSetting {
        rt: *rt,
        alloc,
        messages: theirs,
        is_counted: service.is_progress_told || service.control.is_some(),
        socket_mode: service.socket_mode,
    };
    let opened = open_origins(&setting, streams)?;
    let counters = match new_counters(rt, service, opened.counters) {
        Ok(counters) => counters,
        Err(_) => {
            remove_sockets(rt, &opened.sockets);
            return Err(StreamOpenFault::Memory);
        }
    };
    let notes = Notes {
        counters,
        faults: None,
        messages: Some(messages),
        sockets: opened.sockets,
    };
    Ok((Streams::Staying(opened.streams, connections), notes))
}

fn new_messages(alloc: Global) -> Result<Arc<Messages>, AllocError> {
    let messages = Messages::new(alloc)?;
    Ok(Arc::new(alloc, messages)?)
}

fn new_counters<R>(
    rt: &R,
    service: &Service,
    streams: Vec<StreamCounters>,
) -> Result<Arc<Counters>, AllocError>
where
    R: AllocGlobal + Files<File = File>,
{
    let memory = MemoryMeter::open(rt);
    let counters = Counters::new(rt.alloc(), streams, memory, service.unread as u64)?;
    Ok(Arc::new(rt.alloc(), counters)?)
}

fn new_fault_log(
    alloc: Global,
    service: &Service,
    streams: usize,
) -> Result<Option<Arc<FaultLog>>, AllocError> {
    if !service.is_progress_told {
        return Ok(None);
    }
    let log = FaultLog::new(alloc, streams)?;
    Ok(Some(Arc::new(alloc, log)?))
}

/// Listens, and answers what accepts clients. Else it prints why not, and removes the files of all sockets.
pub(crate) fn open_acceptor<R>(
    rt: &R,
    service: &Service,
    notes: &mut Notes,
) -> Result<SocketAcceptor, ExitCode>
where
    R: AllocGlobal
        + Wait
        + Print
        + Eprint
        + Files<File = File>
        + Net<Listener = TcpListener, Stream = TcpStream>,
{
    let listeners = match listen(rt, service, &mut notes.sockets) {
        Ok(listeners) => listeners,
        Err(status) => {
            remove_sockets(rt, &notes.sockets);
            return Err(status);
        }
    };
    match new_acceptor(listeners, service, notes) {
        Ok(acceptor) => Ok(acceptor),
        Err(_) => Err(refuse_start(rt, service, &notes.sockets)),
    }
}

fn new_acceptor(
    listeners: Listeners,
    service: &Service,
    notes: &Notes,
) -> Result<SocketAcceptor, AllocError> {
    let Listeners { clients, control } = listeners;
    let counters = Arc::try_clone(&notes.counters)?;
    let faults = share(&notes.faults)?;
    let messages = share(&notes.messages)?;
    Ok(SocketAcceptor {
        listener: clients,
        control,
        idle: service.idle,
        counters,
        faults,
        messages,
    })
}

/// Prints that the program cannot start, and removes the files of its sockets.
pub(crate) fn refuse_start(
    rt: &(impl Files + Wait + Eprint),
    service: &Service,
    sockets: &[Arc<SocketFile>],
) -> ExitCode {
    remove_sockets(rt, sockets);
    fail_serving(rt, ServeFault::Start, is_explained(service))
}
