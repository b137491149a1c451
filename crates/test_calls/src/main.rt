//! Cases of the crates from `pn_line` to `pn_region`: a line names the crate and what is tried, and `stdout` has what must be answered.
//!
//! One program has them all, since to read the libraries below costs more than to prove most cases.
#![tactic(auto)]

mod checks;
mod joins;
mod lines;
mod records;
mod regions;
mod scans;
mod streams;
mod tablets;
mod words;
mod writes;

use std::alloc::Global;
use std::test::Fail;
use std::thread::Threads;
use test_kit::answer_lines;

fn main(rt: HostRuntime) -> Result<(), Fail> {
    answer_lines(&rt, |line| answer(&rt, rt.alloc(), line))
}

fn answer<R: Threads + Sync>(rt: &R, alloc: Global, line: &str) -> Result<String, Fail> {
    let (name, case) = line.split_once(' ').unwrap_or((line, ""));
    match name {
        "pn_line" => writes::answer(alloc),
        "pn_lines" => lines::answer(alloc, case),
        "pn_check" => checks::answer(alloc, case),
        "pn_join" => joins::answer(alloc, case),
        "pn_record" => records::answer(alloc, case),
        "pn_stream" => streams::answer(rt, alloc, case),
        "pn_tablet" => tablets::answer(rt, alloc, case),
        "pn_scan" => scans::answer(alloc, case),
        _ => regions::answer(rt, alloc, case),
    }
}
