//! Cases of `pn_live`, `pn_serve` and `pn_stay`, a line each, of what the stored scripts of `test_rows` cannot say; `stdout` has what must be
//! answered. The first word says of which crate a case is.
#![tactic(auto)]

mod live;
mod reading;
mod regions;
mod serve;
mod stay;

use live::answer_live;
use serve::answer_serve;
use stay::answer_stay;
use std::alloc::Global;
use std::fs::{File, Files};
use std::net::{Net, TcpListener, TcpStream};
use std::sync::Wait;
use std::test::Fail;
use std::thread::Threads;
use std::time::Clock;
use test_kit::answer_lines;

fn main(rt: HostRuntime) -> Result<(), Fail> {
    answer_lines(&rt, |line| answer(&rt, rt.alloc(), line))
}

fn answer<R>(rt: &R, alloc: Global, line: &str) -> Result<String, Fail>
where
    R: Files<File = File>
        + Net<Listener = TcpListener, Stream = TcpStream>
        + Threads
        + Wait
        + Clock
        + Sync
        + Copy
        + Send
        + Drop
        + 'static,
{
    let (crate_word, rest) = line.split_once(' ').unwrap_or((line, ""));
    match crate_word {
        "live" => answer_live(rt, alloc, rest),
        "serve" => answer_serve(rt, alloc, rest),
        _ => answer_stay(rt, alloc, rest),
    }
}
