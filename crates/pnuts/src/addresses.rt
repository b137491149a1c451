//! Where the program listens.

use crate::failures::{fail, fail_to_listen, is_explained};
use pn_arguments::{Address, Service};
use pn_stay::{ListenFault, Listener, OWNER_ALONE, SocketFile};
use std::fs::File;
use std::io;
use std::net::{Net, SocketAddr, TcpListener, TcpStream};
use std::process::ExitCode;
use std::rt::Files;
use std::sync::{Arc, Wait};

/// How many sockets at paths it listens on at most, beside those of streams.
const SOCKETS: usize = 2;

/// What is listened on.
#[derive(Drop)]
pub(crate) struct Listeners {
    pub(crate) clients: Listener,
    /// The socket of control sessions, if there is one.
    pub(crate) control: Option<Listener>,
}

/// Listens for control sessions, then for clients, and prints where clients are. Else it prints why not. The files of its
/// sockets are added.
pub(crate) fn listen<R>(
    rt: &R,
    service: &Service,
    files: &mut Vec<Arc<SocketFile>>,
) -> Result<Listeners, ExitCode>
where
    R: AllocGlobal
        + Files<File = File>
        + Print
        + Eprint
        + Net<Listener = TcpListener, Stream = TcpStream>
        + Wait,
{
    if files.reserve(SOCKETS).is_err() {
        return Err(fail(rt, "memory"));
    }
    let control = listen_for_control(rt, service, files)?;
    let clients = listen_for_clients(rt, service, files)?;
    if print_address(rt, &service.address).is_err() {
        return Err(fail(rt, "write"));
    }
    Ok(Listeners { clients, control })
}

// Listens for control sessions, where there may be some.
fn listen_for_control<R>(
    rt: &R,
    service: &Service,
    files: &mut Vec<Arc<SocketFile>>,
) -> Result<Option<Listener>, ExitCode>
where
    R: AllocGlobal + Files<File = File> + Net + Wait + Eprint,
{
    let Some(path) = &service.control else {
        return Ok(None);
    };
    match bind_path(rt, path.as_str(), OWNER_ALONE, files) {
        Ok(listener) => Ok(Some(listener)),
        Err(fault) => Err(fail_to_listen(rt, path.as_str(), &fault, true)),
    }
}

fn listen_for_clients<R>(
    rt: &R,
    service: &Service,
    files: &mut Vec<Arc<SocketFile>>,
) -> Result<Listener, ExitCode>
where
    R: AllocGlobal
        + Eprint
        + Wait
        + Files<File = File>
        + Net<Listener = TcpListener, Stream = TcpStream>,
{
    let is_explained = is_explained(service);
    match &service.address {
        Address::Port(host, port) => match Listener::bind_port(rt, *host, *port) {
            Ok(listener) => Ok(listener),
            Err(error) => Err(refuse_port(
                rt,
                SocketAddr::from((*host, *port)),
                error,
                is_explained,
            )),
        },
        Address::Path(path) => match bind_path(rt, path.as_str(), service.socket_mode, files) {
            Ok(listener) => Ok(listener),
            Err(fault) => Err(fail_to_listen(rt, path.as_str(), &fault, is_explained)),
        },
    }
}

// Listens at a path, and adds the file of the socket.
fn bind_path<R>(
    rt: &R,
    path: &str,
    permissions: u32,
    files: &mut Vec<Arc<SocketFile>>,
) -> Result<Listener, ListenFault>
where
    R: AllocGlobal + Files<File = File> + Net + Wait,
{
    let (listener, file) = Listener::bind_path(rt, rt.alloc(), path, permissions)?;
    files.push(file)?;
    Ok(listener)
}

fn refuse_port(
    rt: &(impl AllocGlobal + Eprint),
    address: SocketAddr,
    error: io::Error,
    is_explained: bool,
) -> ExitCode {
    match format!(in rt.alloc(); "{address}") {
        Ok(text) => fail_to_listen(rt, text.as_str(), &ListenFault::Path(error), is_explained),
        Err(_) => fail(rt, "cannot listen"),
    }
}

fn print_address(rt: &impl Print, address: &Address) -> io::Result<()> {
    match address {
        Address::Port(host, port) => {
            println!(rt; "listening on {}", SocketAddr::from((*host, *port)))
        }
        Address::Path(path) => println!(rt; "listening on {path}"),
    }
}
