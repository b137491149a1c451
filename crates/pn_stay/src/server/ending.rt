//! How a server that stays ends.

ghost use Rattle.std.specs.Prelude.{◌≡◌, false, is_some};
ghost use Rattle.pn_live.specs.Prelude.{tablets_in};
ghost use Rattle.pn_serve.specs.Server.Events.{RunsCommands};
ghost use Rattle.pn_stay.specs.Servers.{Leaves, LeavesAfter};

use super::StayingServer;
use crate::server::stopping::Stopping;
use pn_join::NoMemory;
use pn_live::LiveRegion;
use pn_region::Region;
use pn_serve::{ControlMailboxes, ControlsClosed, close_region, join_sessions, take_commands};
use std::alloc::Global;
use std::sync::Wait;
use std::thread::Threads;
use std::time::Clock;

/// How a server that stays ends.
#[derive(Drop)]
pub struct ServerEnd {
    /// Shows that a line asked for a stop. None: the threads that answered connections have ended.
    pub stop: Option<ControlsClosed>,
    /// The region of all that was published.
    pub region: Result<Region, NoMemory>,
}

impl StayingServer {
    /// Does what control sessions ask for until one asks the server to stop, and stops it. Without a control socket it waits
    /// for the threads that answer connections.
    pub fn wait<R: Threads + Wait + Clock>(self, rt: &R, alloc: Global) -> ServerEnd
        ensures stop { is_some result.stop ≡ self.controlled }
        ensures alone { self.controlled ≡ false → Leaves self.live result.region }
        ensures region { LeavesAfter self.live result.region }
    {
        let mut server = self;
        match server.obey_to_end(rt, alloc) {
            Some(closed) => ServerEnd {
                stop: Some(closed),
                region: server.leave(rt),
            },
            None => ServerEnd {
                stop: None,
                region: server.join(rt),
            },
        }
    }

    // Does what control sessions ask for until one asks the server to stop, and stops it. None without a control socket.
    fn obey_to_end<R: Wait + Clock>(&mut self, rt: &R, alloc: Global) -> Option<ControlsClosed>
        ensures stop { is_some result ≡ self.old.controlled }
        ensures alone { self.old.controlled ≡ false → self.new.live ≡ self.old.live }
        ensures told { RunsCommands self.old.live self.new.live }
    {
        match &self.watchers.controls {
            Some(controls) => {
                let stopping = &self.stopping;
                Some(obey_until_stopped(rt, alloc, &mut self.live, controls, stopping))
            }
            None => None,
        }
    }

    /// Answers nothing any more, and closes the region. The threads are left to the end of the program.
    pub fn leave<R: Wait + Clock>(self, rt: &R) -> Result<Region, NoMemory>
        ensures { Leaves self.live result }
    {
        let StayingServer {
            live,
            workers: _,
            running: _,
            readers,
            watchers: _,
            stopping,
        } = self;
        stopping.cut(rt);
        close_region(rt, live, readers)
    }

    // Waits for the threads, which end where the system's wait for sockets fails, and closes the region.
    fn join<R: Threads + Wait>(self, rt: &R) -> Result<Region, NoMemory>
        ensures { Leaves self.live result }
    {
        let StayingServer {
            live,
            workers: _,
            running,
            readers,
            watchers: _,
            stopping: _,
        } = self;
        let mut readers = readers;
        join_sessions(rt, &live, running, &mut readers);
        close_region(rt, live, readers)
    }
}

// Does what control sessions ask for until one asks the server to stop, and stops it.
fn obey_until_stopped<R: Wait + Clock>(
    rt: &R,
    alloc: Global,
    live: &mut LiveRegion,
    controls: &ControlMailboxes,
    stopping: &Stopping,
) -> ControlsClosed
    ensures runs { RunsCommands live.old live.new }
    ensures same { tablets_in live.new ≡ tablets_in live.old }
{
    let asked = take_commands(rt, alloc, live, controls);
    stopping.run(rt, alloc, live, controls, asked)
}
