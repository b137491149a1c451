//! Servers: one that ends with its sessions, and one that stays.

ghost use Rattle.std.specs.Prelude.{◌≤◌, IfSome, vec_len};
ghost use Rattle.pn_live.specs.Prelude.{tablets_in};
ghost use Rattle.pn_serve.specs.declared.server.session_threads.TheConstants.{MAX_SESSIONS};
ghost use Rattle.pn_serve.specs.Server.Events.{AllRead};

use crate::failures::{fail, fail_noted, fail_serving, fail_with};
use pn_arguments::Service;
use pn_serve::{
    AnyPublishers, OpenedRegion, ReadingEnd, ServeFault, Settings, serve, serve_opened,
};
use pn_stay::{
    FileSource, ServerEnd, ServerSizes, SocketAcceptor, SocketFile, StayingServer, message_prefix,
    remove_sockets,
};
use pn_stream::StreamReader;
use std::fs::File;
use std::io::ErrorKind;
use std::net::Net;
use std::process::ExitCode;
use std::rt::Files;
use std::sync::{Arc, Wait};
use std::thread::Threads;
use std::time::Clock;
use std::{io, mem};

/// Serves streams to the end of its sessions, from the region that is open or else from a new one.
pub(crate) fn serve_streams<R>(
    rt: &R,
    settings: Settings,
    opened: Option<OpenedRegion>,
    service: &Service,
    acceptor: &SocketAcceptor,
    readers: Vec<StreamReader<FileSource>>,
) -> ExitCode
where
    R: AllocGlobal
        + Sync
        + Copy
        + Send
        + 'static
        + Threads
        + Wait
        + Clock
        + Files<File = File>
        + Print
        + Eprint,
    requires sessions { (1 ≤ service.now.sessions) × (service.now.sessions ≤ MAX_SESSIONS) }
    requires own { IfSome opened (λ region. AllRead (tablets_in region.live) region.readers.items) }
{
    let mut out = io::writer(rt);
    let served = match opened {
        None => serve::<_, _, _, _, AnyPublishers>(
            rt,
            rt.alloc(),
            acceptor,
            settings,
            service.sessions,
            readers,
            &mut out,
        ),
        Some(opened) => serve_opened::<_, _, _, _, AnyPublishers>(
            rt,
            rt.alloc(),
            acceptor,
            opened,
            settings.workers(),
            readers,
            &mut out,
        ),
    };
    let _ = eprint!(rt; "{}", message_prefix(service.is_progress_told));
    match served {
        Ok(()) => ExitCode::SUCCESS,
        Err(fault) => fail_noted(rt, fault, &acceptor.faults),
    }
}

/// Begins to answer connections: from the region that is open, or else from a new one.
pub(crate) fn start_server<R>(
    rt: &R,
    settings: Settings,
    opened: Option<OpenedRegion>,
    service: &Service,
    acceptor: SocketAcceptor,
    connections: usize,
) -> io::Result<StayingServer>
where
    R: AllocGlobal + Threads + Wait + Net + Clock + Sync + Copy + Send + Drop + 'static,
    requires sessions { (1 ≤ service.now.sessions) × (service.now.sessions ≤ MAX_SESSIONS) }
    requires own { IfSome opened (λ region. AllRead (tablets_in region.live) region.readers.items) }
    requires readers { IfSome opened (λ region. service.now.sessions ≤ vec_len region.readers) }
{
    let threads = service.sessions;
    let Some(opened) = opened else {
        return StayingServer::start(rt, rt.alloc(), acceptor, settings, threads, connections);
    };
    let sizes = ServerSizes {
        threads,
        connections,
        workers: settings.workers(),
    };
    StayingServer::start_from(rt, rt.alloc(), acceptor, opened, sizes)
}

/// Prints why it does not stay, and removes the files of its sockets.
pub(crate) fn fail_to_stay(
    rt: &(impl AllocGlobal + Files + Wait + Eprint),
    sockets: &[Arc<SocketFile>],
    error: &io::Error,
) -> ExitCode {
    remove_sockets(rt, sockets);
    match error.kind() {
        ErrorKind::OutOfMemory | ErrorKind::WouldBlock => fail_serving(rt, ServeFault::Start, true),
        _ => fail_with(rt, "cannot start", error, true),
    }
}

/// Prints a fault of the reading. Where the thread of a stream was refused the program ends. Otherwise it answers until it is
/// stopped, or until a signal ends it.
pub(crate) fn answer_on<R: AllocGlobal + Threads + Wait + Clock + Eprint + Files>(
    rt: &R,
    service: &Service,
    sockets: &[Arc<SocketFile>],
    server: StayingServer,
    read: Result<ReadingEnd, ServeFault>,
) -> ExitCode {
    if let Err(ServeFault::Start) = &read {
        mem::forget(server.leave(rt));
        remove_sockets(rt, sockets);
        return fail_serving(rt, ServeFault::Start, true);
    }
    if let Err(fault) = read {
        let _ = fail_serving(rt, fault, true);
    }
    let ServerEnd { stop, region } = server.wait(rt, rt.alloc());
    mem::forget(region);
    remove_sockets(rt, sockets);
    if stop.is_none() {
        return fail(rt, "cannot serve");
    }
    let _ = eprint!(rt; "{}", message_prefix(service.is_progress_told));
    ExitCode::SUCCESS
}
