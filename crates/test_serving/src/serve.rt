//! Cases of `pn_serve`.
//!
//! `plan` and `says` read words; `blocks` counts the writes of replies; `session` and `serve` answer sessions, `kinds` counts lines of
//! one, and `control` answers a control session; `start` opens a region from copies, and `endless` names the fault of a text of copies
//! without end; `read` reads streams, and `publishers` one whose publishers come one after another. A bar is a newline.

mod control;
mod copies;
mod kinds;
pub(crate) mod loopback;
mod plans;
mod publishers;
mod rounds;
mod scripts;
mod sessions;

use control::answer_control;
use copies::{start, start_endless};
use kinds::count_kinds;
use loopback::serve_stream;
use plans::{plan_reply, says};
use publishers::read_publishers;
use rounds::few_rounds;
use scripts::blocks;
use sessions::answer_session;
use std::alloc::Global;
use std::net::{Net, TcpListener, TcpStream};
use std::sync::Wait;
use std::test::Fail;
use std::thread::Threads;
use std::time::Clock;

/// The answer to a case.
pub(crate) fn answer_serve<R>(rt: &R, alloc: Global, line: &str) -> Result<String, Fail>
where
    R: Net<Listener = TcpListener, Stream = TcpStream>
        + Threads
        + Wait
        + Clock
        + Sync
        + Copy
        + Send
        + Drop
        + 'static,
{
    let (word, rest) = line.split_once(' ').unwrap_or((line, ""));
    match word {
        "plan" => plan_reply(alloc, rest),
        "says" => says(alloc, rest),
        "blocks" => blocks(rt, alloc, rest),
        "session" => answer_session(rt, alloc, rest),
        "control" => answer_control(rt, alloc, rest),
        "kinds" => count_kinds(rt, alloc, rest),
        "serve" => serve_stream(rt, alloc, rest),
        "start" => start(rt, alloc, rest),
        "endless" => start_endless(rt, alloc, rest),
        "read" => few_rounds(rt, alloc),
        _ => read_publishers(rt, alloc, rest),
    }
}
