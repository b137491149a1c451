//! FIFOs that are opened, looked at and waited for without waiting for a publisher.

ghost use Rattle.std.specs.Prelude.{◌≡◌, false, true};

use crate::streams::listener::LOOK;
use libc::net::{POLLHUP, POLLIN, poll};
use libc::types::pollfd;
use mio::unix::SourceFd;
use mio::{Events, Interest, Poll, Token};
use std::alloc::Global;
use std::fs::{File, Files, OpenOptions};
use std::io;
use std::io::ErrorKind;
use std::net::Net;
use std::os::fd::{AsRawFd, RawFd};
use std::os::unix::fs::FileTypeExt;
use std::time::Duration;

/// How many events one wait gives at most.
const EVENTS: usize = 1;

/// Reports when a FIFO was written, or its publishers went.
#[derive(Drop)]
pub(crate) struct FifoPoll {
    poll: Poll,
    events: Events,
}

impl FifoPoll {
    /// A poll of no FIFO.
    pub(crate) fn new<R: Net>(rt: &R, alloc: Global) -> io::Result<FifoPoll> {
        let poll = Poll::new(rt)?;
        let events = Events::with_capacity(alloc, EVENTS)?;
        Ok(FifoPoll { poll, events })
    }

    fn add(&self, fifo: &File) -> io::Result<()> {
        let number = fifo.as_raw_fd();
        self.poll
            .registry()
            .register(&mut SourceFd(&number), Token(0), Interest::READABLE)
    }

    /// Waits for a report since the last one, but not for long. A signal ends the wait.
    pub(crate) fn wait(&mut self) -> io::Result<()> {
        let most = Some(Duration::from_millis(LOOK));
        self.poll.poll(&mut self.events, most)
    }
}

/// What is at hand of a FIFO.
pub(crate) enum AtHand {
    /// Bytes that were written.
    Bytes,
    /// A publisher that has written nothing since.
    Publisher,
    Nobody,
}

/// What is at hand of the FIFO of a descriptor.
pub(crate) fn look_at(number: RawFd) -> AtHand {
    let mut looks = [pollfd {
        fd: number,
        events: POLLIN,
        revents: 0,
    }];
    poll(&mut looks, 0);
    name_reports(
        looks[0].revents & POLLIN != 0,
        looks[0].revents & POLLHUP != 0,
    )
}

// What is at hand where the system reports that there are bytes, or that all publishers have gone.
fn name_reports(has_bytes: bool, is_left: bool) -> AtHand
    ensures bytes { has_bytes ≡ true → result ≡ AtHand.Bytes }
    ensures publisher { has_bytes ≡ false → is_left ≡ false → result ≡ AtHand.Publisher }
    ensures nobody { has_bytes ≡ false → is_left ≡ true → result ≡ AtHand.Nobody }
{
    match (has_bytes, is_left) {
        (true, _) => AtHand::Bytes,
        (false, false) => AtHand::Publisher,
        (false, true) => AtHand::Nobody,
    }
}

/// Opens the FIFO at a path to be read, and adds it to a poll. It waits for no publisher, unless the FIFO may only be read.
pub(crate) fn open_fifo<R: Files<File = File>>(
    rt: &R,
    path: &str,
    poll: &FifoPoll,
) -> io::Result<File> {
    if !rt.metadata(path)?.file_type().is_fifo() {
        return Err(io::Error::new(ErrorKind::InvalidInput, "it is no FIFO"));
    }
    // A FIFO that is open for writing, too, has a publisher.
    let _writer = OpenOptions::new().read(true).write(true).open(rt, path);
    let file = File::open(rt, path)?;
    poll.add(&file)?;
    Ok(file)
}
