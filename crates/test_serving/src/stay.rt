//! Cases of `pn_stay`. The first word says what is called; else it is what each call of a sink takes, and pieces of input follow.
//!
//! A bar is a newline, a plus ends a piece, and an empty piece or a 0 is a wait.

mod clients;
mod opening;
mod publisher_reading;
mod publishers;
mod served;
mod stopped;
mod talks;

use clients::{count_input, keep_input, read_input, take_turns};
use opening::Echo;
use pn_lines::{LinesEnd, Others, TurnOutcome};
use pn_stay::every_way_of_coming_and_going;
use publishers::{leave_many, read_opened};
use served::{answer_flood, listen_twice, serve_session, stay_until_idle};
use std::alloc::Global;
use std::fs::{File, Files};
use std::net::{Net, TcpListener, TcpStream};
use std::sync::Wait;
use std::test::Fail;
use std::thread::Threads;
use std::time::Clock;
use stopped::stop_server;
use test_kit::{bars, newlines, spell_out};

/// How many turns a connection has at most.
pub(crate) const TURNS: u32 = 100_000;

/// How many bytes of replies are shown; of more, how many they are.
const SHOWN: usize = 80;

/// The answer to a case.
pub(crate) fn answer_stay<R>(rt: &R, alloc: Global, line: &str) -> Result<String, Fail>
where
    R: Files<File = File>
        + Net<Listener = TcpListener, Stream = TcpStream>
        + Threads
        + Wait
        + Clock
        + Sync
        + Copy
        + Send
        + Drop
        + 'static,
{
    let line = spell_out(alloc, line)?;
    let (word, rest) = line.as_str().split_once(' ').unwrap_or((line.as_str(), ""));
    match word {
        "turns" => take_turns(alloc, rest),
        "keeps" => keep_input(alloc, rest),
        "input" => read_input(alloc, rest),
        "counted" => count_input(alloc, rest),
        "listens" => listen_twice(rt, alloc),
        "serves" => serve_session(rt, alloc, rest),
        "stays" => stay_until_idle(rt, alloc, rest),
        "flood" => answer_flood(rt, alloc),
        "stops" => stop_server(rt, alloc),
        "publishers" => read_opened(rt, alloc, rest),
        "messages" => leave_many(rt, alloc),
        _ => come_and_go(alloc, word, rest),
    }
}

// Others that let a connection have this number of turns.
#[derive(Drop)]
struct TurnsLeft(u32);

impl Others<Echo> for TurnsLeft {
    ghost use Rattle.std.specs.Prelude.{⊤};

    ghost may_give_up = { ⊤ };

    fn have_turns(&mut self, _machine: &mut Echo) -> bool {
        self.0 = self.0.saturating_sub(1);
        self.0 > 0
    }

    fn give_up(&mut self) {}
}

fn come_and_go(alloc: Global, takes: &str, text: &str) -> Result<String, Fail> {
    let pieces = read_pieces(alloc, text)?;
    let takes = read_takes(alloc, takes)?;
    let mut others = TurnsLeft(TURNS);
    let answered = every_way_of_coming_and_going(alloc, &mut Echo, &pieces, &takes, &mut others)?;
    let mut text = show(alloc, &answered.taken)?;
    match answered.ended {
        Some(TurnOutcome::Ended(LinesEnd::Input)) => write!(text, " of {} lines", answered.lines),
        Some(_) => text.push_str(" and a fault"),
        None => text.push_str(" so far"),
    }?;
    Ok(text)
}

pub(crate) fn read_pieces(alloc: Global, text: &str) -> Result<Vec<Vec<u8>>, Fail> {
    let text = newlines(alloc, text)?;
    let mut pieces = Vec::new(alloc);
    for part in text.as_str().split('+') {
        let piece = Vec::from_slice(alloc, part.as_bytes())?;
        pieces.push(piece)?;
    }
    Ok(pieces)
}

pub(crate) fn read_takes(alloc: Global, text: &str) -> Result<Vec<usize>, Fail> {
    let mut takes = Vec::new(alloc);
    for part in text.split(',') {
        let take = part.parse::<usize>()?;
        takes.push(take)?;
    }
    Ok(takes)
}

// Replies, with bars for their newlines, or their length.
pub(crate) fn show(alloc: Global, taken: &[u8]) -> Result<String, Fail> {
    if taken.len() > SHOWN {
        return Ok(format!(in alloc; "{} bytes", taken.len())?);
    }
    bars(alloc, taken)
}
