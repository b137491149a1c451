//! Measures a live region beside a plain one, by the clock: reads of many records by four threads, and rounds into them.
//!
//! `pn_bench MODE RECORDS IN_ROUND ROUNDS` reads the messages of a stream. MODE is `plain`, `live`, or `busy` for
//! a live region that is read during its rounds too.
//!
//! It says on standard error how many microseconds reading each key once took, and the rounds.
//!
//! With `relayout` for MODE it builds a plain region of sixteen tablets and changes its layout, with ROUNDS rounds before and
//! after that. It says the microseconds of building, of a change, the change back, and the rounds, and the leaves.
#![tactic(auto)]

mod driver;
mod layouts;
mod workload;

use crate::driver::time;
use crate::layouts::time_layouts;
use crate::workload::{Mode, Workload};
use pn_join::Name;
use pn_line::Source;
use pn_stream::StreamReader;
use std::alloc::Global;
use std::io::BufReader;
use std::rt::Clock;
use std::sync::Wait;
use std::thread::Threads;
use std::{env, io};

/// How many bytes of input are read at a time.
const INPUT_CAPACITY: usize = 65_536;

fn main(rt: HostRuntime) -> io::Result<()> {
    let Some(workload) = Workload::read(env::args(&rt)?) else {
        return println!(rt; "no workload");
    };
    let input = BufReader::with_capacity(rt.alloc(), INPUT_CAPACITY, rt.reader())?;
    let Some(told) = measure(&rt, rt.alloc(), input, workload) else {
        return println!(rt; "no time");
    };
    eprintln!(rt; "{}", told.as_str())?;
    println!(rt; "{} records, {} rounds", workload.records, workload.rounds)
}

// What a workload prints, where the stream has enough messages.
fn measure<R: Clock + Threads + Wait + Sync, S: Source + Drop>(
    rt: &R,
    alloc: Global,
    input: S,
    workload: Workload,
) -> Option<String> {
    let stream = StreamReader::new(alloc, Name::read(b"east").ok()?, 0, input);
    if workload.mode == Mode::Relayout {
        return time_layouts(rt, alloc, stream, workload)?.text(alloc);
    }
    time(rt, alloc, stream, workload)?.text(alloc)
}
