//! What is measured: a region that takes rounds, and readers of it.

use pn_apply::Open;
use pn_join::{Dup, NoMemory};
use pn_live::{LiveReader, LiveRegion};
use pn_record::Key;
use pn_region::Region;
use pn_stream::Delivery;
use std::alloc::Global;
use std::env::Args;
use std::sync::Wait;
use std::thread::{Threads, for_each_mut};

/// What takes rounds, by one worker.
pub enum Store {
    Plain(Region),
    Live(LiveRegion),
}

impl Store {
    /// Takes a round.
    pub fn take<R: Threads + Wait + Sync>(
        &mut self,
        rt: &R,
        deliveries: Vec<Delivery>,
    ) -> Option<()> {
        match self {
            Store::Plain(region) => {
                region.round(rt, deliveries, 1, &Open).ok()?;
            }
            Store::Live(live) => {
                let _front = live.round(rt, deliveries, 1, &Open).ok()?;
            }
        }
        Some(())
    }

    /// Ends the region.
    pub fn close<R: Wait>(self, rt: &R, alloc: Global) -> Result<(), NoMemory> {
        let _region = match self {
            Store::Plain(region) => region,
            Store::Live(live) => live.close(rt, Vec::new(alloc))?,
        };
        Ok(())
    }
}

/// How many readers there are.
pub const READERS: usize = 4;

/// A reader, the keys that it reads, and whether it found all of them so far.
#[derive(Drop)]
pub struct Runner {
    reader: LiveReader,
    keys: Vec<Key>,
    found_all: bool,
}

impl Runner {
    fn new(alloc: Global, reader: LiveReader, keys: &[Key]) -> Option<Runner> {
        let mut own = Vec::with_capacity(alloc, keys.len()).ok()?;
        for key in keys {
            own.push(key.dup().ok()?).ok()?;
        }
        Some(Runner {
            reader,
            keys: own,
            found_all: true,
        })
    }

    // Reads each key once.
    fn read(&mut self) {
        for key in &self.keys {
            let is_found = matches!(self.reader.read(key, None), Ok(Some(_)));
            self.found_all = self.found_all && is_found;
        }
    }
}

/// Gives each reader all of the keys.
pub fn runners_of(alloc: Global, readers: Vec<LiveReader>, keys: &[Key]) -> Option<Vec<Runner>> {
    let mut runners = Vec::new(alloc);
    for reader in readers {
        runners.push(Runner::new(alloc, reader, keys)?).ok()?;
    }
    Some(runners)
}

/// Has each read all of its keys once.
pub fn read_all<R: Threads + Sync>(rt: &R, runners: &mut [Runner]) {
    for_each_mut(rt, runners, READERS, &|_, runner| runner.read());
}

/// Whether each found all of its keys so far.
pub fn found_all(runners: &[Runner]) -> bool {
    runners.iter().all(|runner| runner.found_all)
}

/// Which region takes the rounds, and who reads it meanwhile.
#[derive(Clone, Copy, PartialEq, Eq)]
pub enum Mode {
    /// A plain region, which nobody reads.
    Plain,
    /// A live region, which nobody reads.
    Live,
    /// A live region, which three threads read.
    Busy,
    /// A plain region, whose layout changes.
    Relayout,
}

impl Mode {
    fn read(word: &str) -> Option<Mode> {
        match word {
            "plain" => Some(Mode::Plain),
            "live" => Some(Mode::Live),
            "busy" => Some(Mode::Busy),
            "relayout" => Some(Mode::Relayout),
            _ => None,
        }
    }
}

/// How many records there are at first, and how many rounds of how many new keys come then.
#[derive(Clone, Copy)]
pub struct Workload {
    pub mode: Mode,
    pub records: usize,
    pub in_round: usize,
    pub rounds: usize,
}

impl Workload {
    /// The workload of the program's arguments.
    pub fn read(mut words: Args<Global>) -> Option<Workload> {
        let mode = Mode::read(words.nth(1)?.as_str())?;
        let records = number_of(&mut words)?;
        let in_round = number_of(&mut words)?;
        let rounds = number_of(&mut words)?;
        Some(Workload {
            mode,
            records,
            in_round,
            rounds,
        })
    }
}

fn number_of(words: &mut Args<Global>) -> Option<usize> {
    words.next()?.as_str().parse::<usize>().ok()
}
