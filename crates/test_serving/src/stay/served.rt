//! A stream in memory, served at a port and at a path: by sessions that end, and by a server that stays.

use crate::reading::{Script, first_message, readers_of, settings, stream_of};
use crate::serve::loopback::{Served, outcome};
use crate::stay::talks::{At, Told, flood, talk};
use pn_serve::{AnyPublishers, Counter, Stream, serve};
use pn_stay::{Counters, Listener, MemoryMeter, OWNER_ALONE, SocketAcceptor, StayingServer};
use std::alloc::{AllocError, Global};
use std::fs::{File, Files};
use std::net::{IpAddr, Ipv4Addr, Net, TcpListener, TcpStream};
use std::os::unix::fs::PermissionsExt;
use std::sync::{Arc, Wait};
use std::test::Fail;
use std::thread::Threads;
use std::time::{Clock, Duration};
use std::{fs, io, thread};

/// The name of a socket's file.
const PATH: &str = "socket-of-test";

/// The file that is locked while somebody listens there.
const LOCK: &str = "socket-of-test.lock";

/// How many bytes of records unread replies may keep.
pub(crate) const UNREAD: u64 = 64_000_000;

/// The permissions of a socket that a group may use, too.
const GROUP: u32 = 0o660;

/// All permissions.
const ALL: u32 = 0o777;

/// For how many milliseconds at most it waits for a server to have read its stream.
const PATIENCE: u32 = 10_000;

// Listens at a port, or at the path, and says where.
fn listen<R>(rt: &R, alloc: Global, at: &str) -> io::Result<(Listener, At)>
where
    R: Files<File = File> + Net<Listener = TcpListener, Stream = TcpStream> + Wait,
{
    if at == "path" {
        let (listener, _file) = Listener::bind_path(rt, alloc, PATH, OWNER_ALONE)?;
        return Ok((listener, At::Path(PATH)));
    }
    let listener = Listener::bind_port(rt, IpAddr::V4(Ipv4Addr::LOCALHOST), 0)?;
    let at = place_of(&listener)?;
    Ok((listener, at))
}

fn place_of(listener: &Listener) -> io::Result<At> {
    match listener {
        Listener::Tcp(listener) => Ok(At::Port(listener.local_addr()?)),
        Listener::Unix(_) => Ok(At::Path(PATH)),
    }
}

fn remove_socket<R: Files>(rt: &R, at: &str) -> io::Result<()> {
    if at == "path" {
        fs::remove_file(rt, PATH)?;
        fs::remove_file(rt, LOCK)?;
    }
    Ok(())
}

/// Accepts clients at a socket, and control sessions at another one if there is one.
pub(crate) fn new_acceptor(
    alloc: Global,
    listener: Listener,
    control: Option<Listener>,
    idle: Option<u32>,
) -> Result<SocketAcceptor, AllocError> {
    let counters = Counters::new(alloc, Vec::new(alloc), MemoryMeter::new(), UNREAD)?;
    let counters = Arc::new(alloc, counters)?;
    Ok(SocketAcceptor {
        control,
        listener,
        idle,
        counters,
        faults: None,
        messages: None,
    })
}

/// Serves one session: what its client has read, what was written, whether rounds and lines were counted, and how many
/// clients are left.
pub(crate) fn serve_session<R>(rt: &R, alloc: Global, at: &str) -> Result<String, Fail>
where
    R: Files<File = File>
        + Net<Listener = TcpListener, Stream = TcpStream>
        + Threads
        + Wait
        + Clock
        + Sync
        + Copy
        + Send
        + 'static,
{
    let (listener, to) = listen(rt, alloc, at)?;
    let acceptor = new_acceptor(alloc, listener, None, Some(60))?;
    let text = serve_client(rt, alloc, &acceptor, to)?;
    remove_socket(rt, at)?;
    Ok(text)
}

// Serves one session to a client in a thread of its own.
fn serve_client<R>(rt: &R, alloc: Global, acceptor: &SocketAcceptor, to: At) -> Result<String, Fail>
where
    R: Net<Listener = TcpListener, Stream = TcpStream>
        + Threads
        + Wait
        + Clock
        + Sync
        + Copy
        + Send
        + 'static,
{
    let theirs = *rt;
    let client = thread::spawn(rt, move || talk(&theirs, alloc, to, false))?;
    let served = serve_one(rt, alloc, acceptor);
    let told = client.join(rt)?;
    told_and_served(alloc, told, served, &acceptor.counters)
}

fn told_and_served(
    alloc: Global,
    told: Told,
    served: Option<Served>,
    counters: &Counters,
) -> Result<String, Fail> {
    let served = outcome(alloc, served)?;
    let is_counted = counters.rounds.get() > 0 && counters.clients.lines.get() > 0;
    let open = counters.connections.open.get();
    Ok(format!(in alloc; "{told:?}, {served}, {is_counted}, {open}")?)
}

// Serves one session.
fn serve_one<R>(rt: &R, alloc: Global, acceptor: &SocketAcceptor) -> Option<Served>
where
    R: Threads + Wait + Clock + Sync + Copy + Send + 'static,
{
    let settings = settings(alloc)?;
    let readers = readers_of(alloc, first_message())?;
    let mut written = Vec::new(alloc);
    let ended = serve::<_, _, _, _, AnyPublishers>(
        rt,
        alloc,
        acceptor,
        settings,
        1,
        readers,
        &mut written,
    );
    Some((ended, written))
}

/// Answers a client of a server that stays, until it is idle for too long: what it has read, and whether the server has read
/// all streams to their ends.
pub(crate) fn stay_until_idle<R>(rt: &R, alloc: Global, at: &str) -> Result<String, Fail>
where
    R: Files<File = File>
        + Net<Listener = TcpListener, Stream = TcpStream>
        + Threads
        + Wait
        + Clock
        + Sync
        + Copy
        + Send
        + Drop
        + 'static,
{
    let (listener, to) = listen(rt, alloc, at)?;
    let ended = start(rt, alloc, listener)?;
    let told = talk(rt, alloc, to, true)?;
    remove_socket(rt, at)?;
    idle_text(alloc, told, wait_for(rt, &ended))
}

fn idle_text(alloc: Global, told: Told, is_read: bool) -> Result<String, Fail> {
    let read = if is_read { "all read" } else { "still reading" };
    Ok(format!(in alloc; "{told:?}, {read}")?)
}

// Starts a server that stays, which counts its end of reading.
fn start<R>(rt: &R, alloc: Global, listener: Listener) -> io::Result<Arc<Counter>>
where
    R: Files<File = File>
        + Net<Listener = TcpListener, Stream = TcpStream>
        + Threads
        + Wait
        + Clock
        + Sync
        + Copy
        + Send
        + Drop
        + 'static,
{
    let ended = Arc::new(alloc, Counter::new())?;
    let theirs = Arc::try_clone(&ended)?;
    let host = *rt;
    thread::spawn(rt, move || stay(&host, alloc, listener, &theirs))?;
    Ok(ended)
}

/// How many replies are whole that a server sends to a client which asks very often, and reads late.
pub(crate) fn answer_flood<R>(rt: &R, alloc: Global) -> Result<String, Fail>
where
    R: Files<File = File>
        + Net<Listener = TcpListener, Stream = TcpStream>
        + Threads
        + Wait
        + Clock
        + Sync
        + Copy
        + Send
        + Drop
        + 'static,
{
    let (listener, to) = listen(rt, alloc, "path")?;
    drop(start(rt, alloc, listener)?);
    talk(rt, alloc, to, false)?;
    let flooded = flood(rt, alloc, PATH)?;
    remove_socket(rt, "path")?;
    Ok(flooded)
}

// Whether a number is greater than zero, now or within ten seconds.
fn wait_for<R: Clock>(rt: &R, number: &Counter) -> bool {
    for _ in 0..PATIENCE {
        if number.get() > 0 {
            return true;
        }
        thread::sleep(rt, Duration::from_millis(1));
    }
    false
}

// A server that stays. None where it does not begin; else it ends only with the program. It counts its end of reading.
fn stay<R>(rt: &R, alloc: Global, listener: Listener, ended: &Counter) -> Option<()>
where
    R: Threads + Wait + Net + Clock + Sync + Copy + Send + Drop + 'static,
{
    let streams = one_stream(rt, alloc)?;
    let mut server = start_server(rt, alloc, listener)?;
    let read = server.read_streams(rt, alloc, streams).is_ok();
    ended.add(1);
    let _ = server.wait(rt, alloc);
    read.then_some(())
}

fn start_server<R>(rt: &R, alloc: Global, listener: Listener) -> Option<StayingServer>
where
    R: Threads + Wait + Net + Clock + Sync + Copy + Send + Drop + 'static,
{
    let settings = settings(alloc)?;
    let acceptor = new_acceptor(alloc, listener, None, Some(2)).ok()?;
    StayingServer::start(rt, alloc, acceptor, settings, 2, 16).ok()
}

fn one_stream<R: Wait + Clock + Copy>(rt: &R, alloc: Global) -> Option<Vec<Stream<Script<R>>>> {
    let text = String::from_str(alloc, first_message()).ok()?;
    let stream = stream_of(rt, alloc, b"east", text, 0)?;
    let mut streams = Vec::with_capacity(alloc, 1).ok()?;
    streams.push(stream).ok()?;
    Some(streams)
}

/// Listens at a path where nobody listens any more, and not where somebody does; and the permissions of its file.
pub(crate) fn listen_twice<R: Files<File = File> + Net + Wait>(
    rt: &R,
    alloc: Global,
) -> Result<String, Fail> {
    let (beside, shared) = listen_beside(rt, alloc)?;
    let later = can_listen(rt, alloc);
    let owned = mode_of(rt)?;
    remove_socket(rt, "path")?;
    Ok(format!(in alloc; "{beside} {later} {shared} {owned}")?)
}

// Whether somebody else can listen where somebody does, and the permissions of the file.
fn listen_beside<R: Files<File = File> + Net + Wait>(
    rt: &R,
    alloc: Global,
) -> io::Result<(bool, u32)> {
    let _first = Listener::bind_path(rt, alloc, PATH, GROUP)?;
    let beside = can_listen(rt, alloc);
    Ok((beside, mode_of(rt)?))
}

fn can_listen<R: Files<File = File> + Net + Wait>(rt: &R, alloc: Global) -> bool {
    Listener::bind_path(rt, alloc, PATH, OWNER_ALONE).is_ok()
}

fn mode_of<R: Files>(rt: &R) -> io::Result<u32> {
    let metadata = fs::metadata(rt, PATH)?;
    Ok(metadata.permissions().mode() & ALL)
}
