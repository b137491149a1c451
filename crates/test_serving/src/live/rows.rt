//! Readers in threads of their own that learn fronts: the worked row of live reads, and fronts learnt beside the next round.

ghost use Rattle.std.specs.Prelude.{◌≡◌, All, IfSome};
ghost use Rattle.std.specs.Option.{ForSome};
ghost use Rattle.pn_live.specs.LiveRegions.{IsReaderIn, tablets_in};
ghost use Rattle.pn_live.specs.Readers.{AreNotesOf, IsFrontFor, tablets_of};

use crate::regions::{close, find, hand_back, open, take_out};
use pn_apply::Open;
use pn_live::{Front, LiveReader, LiveRegion, MAX_READERS};
use pn_record::{Key, Version};
use pn_region::Region;
use pn_scan::ScanFault;
use std::alloc::Global;
use std::sync::Wait;
use std::thread::{Threads, join_mut};
use test_kit::{deliveries, layout};

/// The number of the last round.
const LAST: u64 = 50;

// A reader, and a front that it is to learn, where there is one.
#[derive(Drop)]
struct Learner {
    reader: LiveReader,
    front: Option<Front>,
    ghost fits: { ForSome front (IsFrontFor reader) },
}

impl Learner {
    // Learns its front, and finds the number of the key's version, or 0 where there is none.
    fn look(&mut self, key: &Key) -> Option<u64>
        ensures { tablets_of self.new.reader ≡ tablets_of self.old.reader }
    {
        if let Some(front) = self.front.take() {
            self.reader.learn(front);
        }
        match find(&mut self.reader, key) {
            Ok(Some((version, 1))) => Some(version.number),
            Ok(None) => Some(0),
            _ => None,
        }
    }
}

// Whether the reader gets the key at the last version, and, at a later one, the refusal that names the last.
fn is_behind(reader: &mut LiveReader, key: &Key) -> bool
    ensures { tablets_of reader.new ≡ tablets_of reader.old }
{
    let is_there = matches!(reader.read(key, Version::new(1, LAST)), Ok(Some(_)));
    let later = reader.read(key, Version::new(1, LAST + 1));
    is_there && matches!(later, Err(ScanFault::Behind { has: Some(has) }) if has.number == LAST)
}

// Takes the round of this number, which brings the key the version of it. Answers its front.
fn take_round<R: Threads + Wait + Sync>(
    rt: &R,
    alloc: Global,
    live: &mut LiveRegion,
    number: u64,
) -> Option<Front>
    ensures front { IfSome result (AreNotesOf (tablets_in live.old)) }
    ensures same { tablets_in live.new ≡ tablets_in live.old }
{
    let given = deliveries(alloc, number, "k", number)?;
    let (_round, front) = live.round(rt, given, 1, &Open).ok()?;
    Some(front)
}

// Learns the front of the round before, and looks, while the round of this number is taken. Whether it found no less.
fn learn_beside<R: Threads + Wait + Sync>(
    rt: &R,
    alloc: Global,
    live: &mut LiveRegion,
    learner: &mut Learner,
    key: &Key,
    number: u64,
) -> bool
    requires { tablets_of learner.old.reader ≡ tablets_in live.old }
    ensures same { tablets_in live.new ≡ tablets_in live.old }
    ensures reader { tablets_of learner.new.reader ≡ tablets_in live.new }
{
    let (seen, front) = join_mut(
        rt,
        &mut || learner.look(key),
        &mut || take_round(rt, alloc, live, number),
    );
    let (Some(seen), Some(front)) = (seen, front) else {
        return false;
    };
    learner.front = Some(front);
    seen.saturating_add(1) >= number
}

// Takes rounds, each while the reader learns the front before it. Whether each front was found, and the last one.
fn rounds_beside<R: Threads + Wait + Sync>(
    rt: &R,
    alloc: Global,
    live: &mut LiveRegion,
    learner: &mut Learner,
) -> bool
    requires { tablets_of learner.old.reader ≡ tablets_in live.old }
    ensures same { tablets_in live.new ≡ tablets_in live.old }
    ensures reader { tablets_of learner.new.reader ≡ tablets_in live.new }
{
    let Ok(key) = Key::of(alloc, "k") else {
        return false;
    };
    for number in 1..=LAST {
        if !learn_beside(rt, alloc, live, learner, &key, number) {
            return false;
        }
    }
    learner.look(&key) == Some(LAST) && is_behind(&mut learner.reader, &key)
}

// Takes one of these readers for it.
fn take_learner<R: Threads + Wait + Sync>(
    rt: &R,
    alloc: Global,
    live: &mut LiveRegion,
    readers: &mut Vec<LiveReader>,
) -> bool
    requires { All (IsReaderIn live.old) readers.old.items }
    ensures { All (IsReaderIn live.new) readers.new.items }
{
    let Some(reader) = take_out(live, readers) else {
        return false;
    };
    let mut learner = Learner {
        reader,
        front: None,
    };
    let went_well = rounds_beside(rt, alloc, live, &mut learner);
    hand_back(live, readers, learner.reader);
    went_well
}

fn number_in(alloc: Global, region: &Region) -> Option<u64> {
    let cell = region.read(&Key::of(alloc, "k").ok()?, None).ok()??;
    Some(cell.version().number)
}

fn open_region<R: Wait>(rt: &R, alloc: Global) -> Option<(LiveRegion, Vec<LiveReader>)>
    ensures { IfSome result (λ opened. All (IsReaderIn opened.0) opened.1.items) }
{
    open(rt, alloc, layout(alloc, "")?, MAX_READERS).ok()
}

// The number of the key's version in the region that is closed at the end, with all its readers, and laid out anew.
fn run_learner<R: Threads + Wait + Sync>(rt: &R, alloc: Global) -> Option<u64> {
    let (mut live, mut readers) = open_region(rt, alloc)?;
    let went_well = take_learner(rt, alloc, &mut live, &mut readers);
    let mut region = close(rt, live, readers).ok()?;
    region.relayout(layout(alloc, "m")?).ok()?;
    if went_well {
        number_in(alloc, &region)
    } else {
        None
    }
}

/// The number of the last round, where each front was found while the next round was published.
pub(crate) fn learn_fronts<R: Threads + Wait + Sync>(rt: &R, alloc: Global) -> Option<String> {
    let number = run_learner(rt, alloc)?;
    format!(in alloc; "{number}").ok()
}
