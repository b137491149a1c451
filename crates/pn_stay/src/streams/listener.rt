//! The socket at which a stream's publishers come.

use crate::seldom::Seldom;
use crate::socket_file::{ListenFault, SocketFile};
use crate::streams::notes::StreamMessenger;
use libc::net::{SO_RCVTIMEO, SOL_SOCKET, setsockopt};
use pn_lines::is_wait;
use std::alloc::{AllocError, Global};
use std::fs::{File, Files};
use std::io;
use std::net::Net;
use std::os::fd::AsRawFd;
use std::os::unix::net::{UnixListener, UnixStream};
use std::sync::{Arc, Mutex, Wait};
use std::time::Clock;

/// How many milliseconds at most pass until the path of a socket or FIFO is looked at again.
pub(crate) const LOOK: u64 = 500;

/// The socket of a stream. One of its publishers is read at a time, and the others wait. Where its file is removed or replaced, it
/// is made again.
#[derive(Drop)]
pub struct StreamListener {
    file: Arc<SocketFile>,
    messenger: StreamMessenger,
    now: Mutex<ListeningNow>,
}

// What is listened on, and when it was said last that the path is refused.
#[derive(Drop)]
struct ListeningNow {
    listener: UnixListener,
    refusals: Seldom,
}

impl StreamListener {
    /// Listens at a path, whose file has these permissions. A socket there is replaced where nobody listens on it.
    pub(crate) fn bind<R: Files<File = File> + Net + Wait>(
        rt: &R,
        alloc: Global,
        path: &str,
        permissions: u32,
        messenger: StreamMessenger,
    ) -> Result<StreamListener, ListenFault> {
        let (file, listener) = SocketFile::bind(rt, alloc, path, permissions)?;
        limit_wait(&listener);
        Ok(StreamListener {
            file,
            messenger,
            now: Mutex::new(ListeningNow {
                listener,
                refusals: Seldom::new(),
            }),
        })
    }

    /// Another handle of its file.
    pub(crate) fn share_file(&self) -> Result<Arc<SocketFile>, AllocError> {
        Arc::try_clone(&self.file)
    }

    /// Waits for a publisher, but not for long. None: none has come.
    pub(crate) fn accept<R: Wait>(&self, rt: &R) -> io::Result<Option<UnixStream>> {
        let now = self.now.lock(rt);
        match now.listener.accept() {
            Ok((stream, _)) => Ok(Some(stream)),
            Err(error) if is_wait(&error) => Ok(None),
            Err(error) => Err(error),
        }
    }

    /// Makes its file again where it is no longer at its path, and tells so. It tells where that is refused, once a minute at
    /// most.
    pub(crate) fn look<R: Files + Net + Wait + Clock>(&self, rt: &R) {
        let mut now = self.now.lock(rt);
        match self.file.make_again(rt) {
            Ok(None) => {}
            Ok(Some(listener)) => {
                limit_wait(&listener);
                now.listener = listener;
                self.messenger
                    .leave_path(rt, "listens again at", self.file.path());
            }
            Err(error) => {
                if now.refusals.is_due(rt) {
                    self.messenger
                        .leave_error(rt, "listen for", self.file.path(), &error);
                }
            }
        }
    }
}

// From now on an `accept` ends without a publisher once it has waited for long enough.
fn limit_wait(listener: &UnixListener) {
    let mut time = [0u8; 16];
    time[8..].copy_from_slice(&(LOOK * 1_000).to_ne_bytes());
    let number = listener.as_raw_fd();
    let _ = unsafe { setsockopt(number, SOL_SOCKET, SO_RCVTIMEO, &time, 16) };
}
