//! Listening sockets, at a port or at a path.

use crate::socket::Socket;
use crate::socket_file::{ListenFault, SocketFile};
use libc::net::{SHUT_RD, SO_KEEPALIVE, SOL_SOCKET, setsockopt, shutdown};
use std::alloc::Global;
use std::fs::{File, Files};
use std::io;
use std::net::{IpAddr, Net, SocketAddr, TcpListener, TcpStream};
use std::os::fd::AsRawFd;
use std::os::unix::net::UnixListener;
use std::sync::{Arc, Wait};

/// How many bytes an option of a socket has that is on or off.
const SWITCH_SIZE: usize = 4;

/// A socket that is listened on.
#[derive(Drop)]
pub enum Listener {
    Tcp(TcpListener),
    Unix(UnixListener),
}

impl Listener {
    /// Listens at a port of an address.
    pub fn bind_port<R: Net<Listener = TcpListener, Stream = TcpStream>>(
        rt: &R,
        address: IpAddr,
        port: u16,
    ) -> io::Result<Listener> {
        Ok(Listener::Tcp(TcpListener::bind(rt, SocketAddr::from((address, port)))?))
    }

    /// Listens at a path, whose file has these permissions. A socket there is replaced where nobody listens on it. Nobody else
    /// listens there for as long as the file is kept.
    pub fn bind_path<R: Files<File = File> + Net + Wait>(
        rt: &R,
        alloc: Global,
        path: &str,
        permissions: u32,
    ) -> Result<(Listener, Arc<SocketFile>), ListenFault> {
        let (file, listener) = SocketFile::bind(rt, alloc, path, permissions)?;
        Ok((Listener::Unix(listener), file))
    }

    /// Another handle of the same socket.
    pub(crate) fn try_clone(&self) -> io::Result<Listener> {
        match self {
            Listener::Tcp(listener) => Ok(Listener::Tcp(listener.try_clone()?)),
            Listener::Unix(listener) => Ok(Listener::Unix(listener.try_clone()?)),
        }
    }

    /// From now on nobody is accepted, and an `accept` that waits for a client fails.
    pub(crate) fn stop(&self) {
        let _ = shutdown(
            match self {
                Listener::Tcp(listener) => listener.as_raw_fd(),
                Listener::Unix(listener) => listener.as_raw_fd(),
            },
            SHUT_RD,
        );
    }

    /// Waits for a client, also where signals interrupt that.
    pub(crate) fn accept(&self) -> io::Result<Socket> {
        match self {
            Listener::Tcp(listener) => {
                let (stream, _) = listener.accept()?;
                stream.set_nodelay(true)?;
                keep_alive(&stream);
                Ok(Socket::Tcp(stream))
            }
            Listener::Unix(listener) => {
                let (stream, _) = listener.accept()?;
                Ok(Socket::Unix(stream))
            }
        }
    }
}

// From now on the system asks a client that is silent for long whether it is still there, and ends the connection where it is
// not. A system that does not is no reason to refuse the client.
fn keep_alive(stream: &TcpStream) {
    let mut on = [0u8; 16];
    on[..SWITCH_SIZE].copy_from_slice(&1i32.to_ne_bytes());
    let number = stream.as_raw_fd();
    let _ = unsafe { setsockopt(number, SOL_SOCKET, SO_KEEPALIVE, &on, SWITCH_SIZE as u32) };
}
