//! A server that stays, with a control socket and no stream, until a control session stops it.

use crate::reading::{Script, settings};
use crate::stay::served::new_acceptor;
use crate::stay::talks::connect;
use pn_join::NoMemory;
use pn_serve::Stream;
use pn_stay::{Listener, OWNER_ALONE, SocketAcceptor, StayingServer};
use std::alloc::Global;
use std::fs::{File, Files};
use std::io::{BufRead, BufReader, Read, Write};
use std::net::{Net, TcpListener, TcpStream};
use std::os::unix::net::UnixStream;
use std::sync::Wait;
use std::test::Fail;
use std::thread::Threads;
use std::time::Clock;
use std::{fs, io, thread};

/// Where clients and control sessions come.
const CLIENTS: &str = "clients-of-stopped";

const CONTROL: &str = "control-of-stopped";

/// How often it is asked at most whether the lines of a client were counted.
const MAX_TURNS: u32 = 100_000;

/// A socket, and what comes of it.
#[derive(Drop)]
struct Talk {
    stream: UnixStream,
    lines: BufReader<UnixStream>,
}

impl Talk {
    fn begin<R: Net>(rt: &R, alloc: Global, path: &str) -> io::Result<Talk> {
        let stream = connect(rt, path)?;
        let other = stream.try_clone()?;
        let lines = BufReader::new(alloc, other)?;
        Ok(Talk { stream, lines })
    }

    fn write(&mut self, text: &str) -> io::Result<()> {
        self.stream.write_all(text.as_bytes())
    }

    // Adds the next line that comes.
    fn read(&mut self, told: &mut String) -> io::Result<()> {
        self.lines.read_line(told)?;
        Ok(())
    }

    // Adds all that comes up to the end.
    fn read_to_end(&mut self, told: &mut String) -> io::Result<()> {
        self.lines.read_to_string(told)?;
        Ok(())
    }
}

/// What a client and a control session read of a server until it is stopped; whether it ended, and whether a further client is
/// accepted.
pub(crate) fn stop_server<R>(rt: &R, alloc: Global) -> Result<String, Fail>
where
    R: Files<File = File>
        + Net<Listener = TcpListener, Stream = TcpStream>
        + Threads
        + Wait
        + Clock
        + Sync
        + Copy
        + Send
        + Drop
        + 'static,
{
    let acceptor = listen(rt, alloc)?;
    let host = *rt;
    let asking = thread::spawn(rt, move || ask_and_stop(&host, alloc))?;
    let ended = serve_until_stopped(rt, alloc, acceptor);
    let told = asking.join(rt)?;
    stopped_text(rt, alloc, told.as_str(), ended)
}

// What was read; whether all streams were read, whether the server was stopped, and whether a further client is accepted.
fn stopped_text<R: Files + Net>(
    rt: &R,
    alloc: Global,
    told: &str,
    ended: Option<(bool, bool)>,
) -> Result<String, Fail> {
    let (read, is_stopped) = ended.ok_or(NoMemory)?;
    let is_accepted = Talk::begin(rt, alloc, CLIENTS).is_ok();
    remove_files(rt, alloc)?;
    Ok(format!(in alloc; "{told}{read} {is_stopped} {is_accepted}")?)
}

fn remove_files<R: Files>(rt: &R, alloc: Global) -> io::Result<()> {
    for path in [CLIENTS, CONTROL] {
        fs::remove_file(rt, path)?;
        fs::remove_file(rt, format!(in alloc; "{path}.lock")?.as_str())?;
    }
    Ok(())
}

fn listen<R: Files<File = File> + Net + Wait>(rt: &R, alloc: Global) -> io::Result<SocketAcceptor> {
    let (clients, _) = Listener::bind_path(rt, alloc, CLIENTS, OWNER_ALONE)?;
    let (control, _) = Listener::bind_path(rt, alloc, CONTROL, OWNER_ALONE)?;
    Ok(new_acceptor(alloc, clients, Some(control), None)?)
}

// Whether all streams were read, and whether the server was stopped.
fn serve_until_stopped<R>(rt: &R, alloc: Global, acceptor: SocketAcceptor) -> Option<(bool, bool)>
where
    R: Threads + Wait + Net + Clock + Sync + Copy + Send + Drop + 'static,
{
    let settings = settings(alloc)?;
    let streams: Vec<Stream<Script<R>>> = Vec::new(alloc);
    let mut server = StayingServer::start(rt, alloc, acceptor, settings, 2, 16).ok()?;
    let read = server.read_streams(rt, alloc, streams).is_ok();
    Some((read, server.wait(rt, alloc).stop.is_some()))
}

// Asks, and stops the server, also where a reply is missing. A bar is a newline.
fn ask_and_stop<R: Net>(rt: &R, alloc: Global) -> io::Result<String> {
    let mut told = String::new(alloc);
    let asked = ask_all(rt, alloc, &mut told);
    if asked.is_err() {
        Talk::begin(rt, alloc, CONTROL)?.write("{\"do\":\"stop\",\"seconds\":0}\n")?;
    }
    asked?;
    Ok(told.replace(alloc, '\n', "|")?)
}

fn ask_all<R: Net>(rt: &R, alloc: Global, told: &mut String) -> io::Result<()> {
    let mut client = Talk::begin(rt, alloc, CLIENTS)?;
    ask_by(rt, alloc, told, &mut client)
}

fn ask_by<R: Net>(rt: &R, alloc: Global, told: &mut String, client: &mut Talk) -> io::Result<()> {
    client.write("{\"do\":\"read\",\"key\":\"none\"}\n{\"do\":\"none\"}\n")?;
    client.read(told)?;
    client.read(told)?;
    ask_beside(rt, alloc, told, client)?;
    client.read_to_end(told)
}

fn ask_beside<R: Net>(
    rt: &R,
    alloc: Global,
    told: &mut String,
    client: &mut Talk,
) -> io::Result<()> {
    let mut control = Talk::begin(rt, alloc, CONTROL)?;
    push_asked(alloc, told, client, &mut control)
}

// Adds what `stats` says, and what comes after a stop.
fn push_asked(
    alloc: Global,
    told: &mut String,
    client: &mut Talk,
    control: &mut Talk,
) -> io::Result<()> {
    push_asked_stats(alloc, told, control)?;
    client.write("{\"do\":\"read\",\"key\":\"none\"}\n")?;
    control.write("{\"do\":\"stop\",\"seconds\":30}\n{\"do\":\"marks\"}\n")?;
    control.read_to_end(told)
}

fn push_asked_stats(alloc: Global, told: &mut String, control: &mut Talk) -> io::Result<()> {
    let stats = ask_for_stats(alloc, control)?;
    push_stats(told, stats.as_str())
}

// The reply to `stats` once the client's two lines were counted.
fn ask_for_stats(alloc: Global, control: &mut Talk) -> io::Result<String> {
    for _ in 0..MAX_TURNS {
        let mut stats = String::new(alloc);
        control.write("{\"do\":\"stats\"}\n")?;
        control.read(&mut stats)?;
        if stats.as_str().contains("\"answered\":2") {
            return Ok(stats);
        }
    }
    Ok(String::new(alloc))
}

// Adds what `stats` says of connections, without what is a matter of time.
fn push_stats(told: &mut String, stats: &str) -> io::Result<()> {
    for part in stats.split(",\"") {
        if !is_timed(part) {
            told.push_str(part)?;
            told.push_str(" ")?;
        }
    }
    told.push_str("\n")?;
    Ok(())
}

// Whether a member of `stats` is a matter of time.
fn is_timed(member: &str) -> bool {
    member.starts_with("since")
        || member.starts_with("uptime")
        || member.starts_with("rounds")
        || member.starts_with("{\"bytes")
        || is_of_times(member)
}

// Whether a member is one of `times`, or stands in them.
fn is_of_times(member: &str) -> bool {
    member.starts_with("times")
        || member.starts_with("most")
        || member.starts_with("count")
        || member.starts_with("total")
}
