//! Scripts, each answered over a region of its own.
//!
//! A head begins each: `## NAME WORKERS BOUND ..`, with the number of workers and the bounds of the tablets.
//!
//! The head comes out again, and then the replies. `stdout` has what they must be. Where the name begins with `failing`, the script
//! is answered over readers and writers that fail, and what comes out is how it ended.
#![tactic(auto)]

mod failing;

use crate::failing::answer_failing;
use pn_line::{InMemory, LineBuffer, LineEnd, read_line};
use pn_record::Key;
use pn_serve::{Settings, run};
use pn_tablet::Layout;
use std::alloc::Global;
use std::io::{BufReader, Write};
use std::thread::Threads;
use std::{io, str};

/// How many bytes of input are read at a time.
const INPUT_ROOM: usize = 65_536;

fn main(rt: HostRuntime) -> io::Result<()> {
    let mut input = BufReader::with_capacity(rt.alloc(), INPUT_ROOM, rt.reader())?;
    let mut line = LineBuffer::new(rt.alloc())?;
    let mut head = Vec::new(rt.alloc());
    let mut script = Vec::new(rt.alloc());
    for _ in 0..u64::MAX {
        line.start();
        let end = read_line(&mut line, &mut input)?;
        if line.bytes().starts_with(b"## ") {
            answer(&rt, &head, &script)?;
            script.clear();
            head.clear();
            head.extend_from_slice(line.bytes())?;
            continue;
        }
        script.extend_from_slice(line.bytes())?;
        let LineEnd::Newline { .. } = end else {
            break;
        };
        script.push(b'\n')?;
    }
    answer(&rt, &head, &script)
}

// Writes the head, and then the replies to the script.
fn answer(
    rt: &(impl AllocGlobal + Print + Threads + Sync),
    head: &[u8],
    script: &[u8],
) -> io::Result<()> {
    if head.is_empty() {
        return Ok(());
    }
    let mut output = io::writer(rt);
    output.write_all(head)?;
    output.write_all(b"\n")?;
    if head.starts_with(b"## failing") {
        return answer_failing(rt, head, script);
    }
    let Some(settings) = settings_of(rt.alloc(), head) else {
        return output.write_all(b"the head has no settings\n");
    };
    let mut input = InMemory::new(script);
    match run(rt, rt.alloc(), &mut input, &mut output, settings) {
        Ok(_) => Ok(()),
        Err(_) => output.write_all(b"the run had a fault\n"),
    }
}

// The words of a head after its name: the number of workers, and the bounds.
pub(crate) fn settings_of(alloc: Global, head: &[u8]) -> Option<Settings> {
    let mut words = str::from_utf8(head).ok()?.split(' ').skip(2);
    let workers = words.next()?.parse::<usize>().ok()?;
    let mut bounds = Vec::new(alloc);
    for word in words {
        bounds.push(Key::of(alloc, word).ok()?).ok()?;
    }
    Settings::new(Layout::new(bounds).ok()?, workers)
}
