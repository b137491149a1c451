//! Servers over a live region that is open.

ghost use Rattle.std.specs.Prelude.{◌≡◌, ◌≤◌, vec_len, is_some, IfOk};
ghost use Rattle.pn_apply.specs.declared.reducing.TheConstants.{MAX_WORKERS};
ghost use Rattle.pn_live.specs.Prelude.{tablets_in};
ghost use Rattle.pn_serve.specs.Server.Events.{AllRead};

use super::{StayingServer, start_threads};
use crate::acceptor::SocketAcceptor;
use pn_serve::{OpenedRegion, close_region};
use std::alloc::Global;
use std::io;
use std::net::Net;
use std::sync::Wait;
use std::thread::Threads;
use std::time::Clock;

/// How many threads answer connections, how many connections may be open at once, and how many workers a round or an
/// adoption has.
#[derive(Clone, Copy)]
pub struct ServerSizes {
    pub threads: usize,
    pub connections: usize,
    pub workers: usize,
}

impl StayingServer {
    /// As `start`, over a live region that is open. It has a reader for each thread, and one for each control session.
    pub fn start_from<R>(
        rt: &R,
        alloc: Global,
        acceptor: SocketAcceptor,
        opened: OpenedRegion,
        sizes: ServerSizes,
    ) -> io::Result<StayingServer>
    where
        R: Threads + Wait + Net + Clock + Sync + Copy + Send + Drop + 'static,
        requires own { AllRead (tablets_in opened.live) opened.readers.items }
        requires threads { sizes.threads ≤ vec_len opened.readers }
        requires workers { (1 ≤ sizes.workers) × (sizes.workers ≤ MAX_WORKERS) }
        ensures live { IfOk result (λ server. server.live ≡ opened.live) }
        ensures threads { IfOk result (λ server. server.threads ≡ sizes.threads) }
        ensures controlled { IfOk result (λ server. server.controlled ≡ is_some acceptor.control) }
    {
        let OpenedRegion { live, readers } = opened;
        let mut readers = readers;
        match start_threads(rt, alloc, acceptor, sizes, &live, &mut readers) {
            Ok(started) => Ok(StayingServer {
                live,
                workers: sizes.workers,
                running: started.running,
                readers,
                watchers: started.watchers,
                stopping: started.stopping,
            }),
            Err(error) => {
                let _ = close_region(rt, live, readers);
                Err(error)
            }
        }
    }
}
