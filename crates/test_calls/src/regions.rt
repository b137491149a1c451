//! Cases of `pn_apply` and `pn_region`, of what the stored scripts of `test_rows` cannot say.
//!
//! `reduce` and `round` work eight tablets by some workers, and show how often the gate was entered with each; `relayout` shows
//! the keys of tablets of other bounds, `advance` the marks of three tablets that adopted copies, `log` the last number of a
//! log, and `faults` fault texts.

mod advancing;
mod rounds;

use crate::regions::advancing::advance;
use crate::regions::rounds::{BOUNDS, KEYS, filled, reduce_keys, round};
use pn_join::{Name, NoMemory, StreamName};
use pn_record::Records;
use pn_region::{AdoptFault, AdvanceFault, Log, Region, RelayoutFault, RoundFault};
use std::alloc::Global;
use std::fmt::Display;
use std::test::Fail;
use std::thread::Threads;
use test_kit::layout;

/// The answer to a case.
pub(crate) fn answer<R: Threads + Sync>(rt: &R, alloc: Global, line: &str) -> Result<String, Fail> {
    let (what, how) = line.split_once(' ').unwrap_or((line, ""));
    match what {
        "faults" => faults(alloc),
        _ => Ok(case(rt, alloc, what, how).ok_or(NoMemory)?),
    }
}

fn case<R: Threads + Sync>(rt: &R, alloc: Global, what: &str, how: &str) -> Option<String> {
    match what {
        "reduce" => reduce_keys(rt, alloc, how),
        "relayout" => keys_after_relayout(rt, alloc, how),
        "advance" => advance(rt, alloc, how),
        "log" => last_number(alloc, how),
        _ => round(rt, alloc, how),
    }
}

fn faults(alloc: Global) -> Result<String, Fail> {
    let east = Name::read(b"east")?;
    let mut text = String::new(alloc);
    push_faults(&mut text, east)?;
    Ok(text)
}

fn push_faults(text: &mut String, east: StreamName) -> Result<(), Fail> {
    write!(text, "{}", gap(east))?;
    push(text, &RoundFault::TooManyStreams)?;
    push(text, &RoundFault::Memory)?;
    push(text, &too_old(east))?;
    push(text, &AdoptFault::WrongRange)?;
    push(text, &AdoptFault::Memory)?;
    push(text, &RelayoutFault::Memory)?;
    push(text, &AdvanceFault::Memory)
}

fn push<T: Display>(text: &mut String, fault: &T) -> Result<(), Fail> {
    Ok(write!(text, "; {fault}")?)
}

fn gap(stream: StreamName) -> RoundFault {
    RoundFault::Gap {
        stream,
        wanted: 6,
        got: 9,
    }
}

fn too_old(stream: StreamName) -> AdoptFault {
    AdoptFault::TooOld {
        stream,
        has: 4,
        needs: 5,
    }
}

/// The keys of each tablet of these bounds, and why they are not changed back where one was lost.
pub(crate) fn keys_after_relayout<R: Threads + Sync>(
    rt: &R,
    alloc: Global,
    bounds: &str,
) -> Option<String> {
    let mut region = filled(rt, alloc, BOUNDS, KEYS)?;
    region.relayout(layout(alloc, bounds)?).ok()?;
    let mut text = keys_of(alloc, &region)?;
    region.lose(0);
    push_refusal(alloc, &mut text, &mut region)?;
    Some(text)
}

// Adds why the tablets are not changed back.
fn push_refusal(alloc: Global, text: &mut String, region: &mut Region) -> Option<()> {
    let fault = region.relayout(layout(alloc, BOUNDS)?).err()?;
    write!(text, " {fault}").ok()
}

fn keys_of(alloc: Global, region: &Region) -> Option<String> {
    let mut text = String::new(alloc);
    for tablet in 0..region.layout().count() {
        push_keys(&mut text, region.tablet(tablet).cells())?;
    }
    Some(text)
}

/// Adds the keys of records.
pub(crate) fn push_keys(text: &mut String, records: &Records) -> Option<()> {
    for (key, _cell) in records.iter() {
        text.push_str(key.as_str()).ok()?;
    }
    text.push_str(";").ok()
}

/// The last number of a log after this number of breaks.
pub(crate) fn last_number(alloc: Global, breaks: &str) -> Option<String> {
    let mut log = Log::new(alloc).ok()?;
    for _ in 0..breaks.parse::<usize>().ok()? {
        log.cut();
    }
    format!(in alloc; "{}", log.last_number()).ok()
}
