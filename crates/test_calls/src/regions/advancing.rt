//! Tablets that adopted copies, and marks that advance to what all of them have taken.

ghost use Rattle.std.specs.Prelude.{◌≤◌, length, IsTrue};

use crate::regions::rounds::{KEYS, bring, filled, region};
use pn_apply::Open;
use pn_join::{Marks, Name};
use pn_region::Region;
use pn_stream::Delivery;
use pn_tablet::TabletCopy;
use std::alloc::Global;
use std::thread::Threads;
use test_kit::{deliveries, image};

// The bounds of three tablets.
const BOUNDS: &str = "c f";

/// What comes of an advance past copies that took these numbers of messages, or `many` streams.
pub(crate) fn advance<R: Threads + Sync>(rt: &R, alloc: Global, counts: &str) -> Option<String> {
    match counts {
        "many" => advance_many(rt, alloc),
        _ => advance_few(rt, alloc, counts),
    }
}

// Adopts into each tablet a copy that took this number of messages, and advances. The mark, the round that begins past
// the next message, and the one that begins at it.
fn advance_few<R: Threads + Sync>(rt: &R, alloc: Global, counts: &str) -> Option<String> {
    let mut region = region(alloc, BOUNDS)?;
    adopt_few(rt, alloc, &mut region, counts)?;
    go_on(rt, alloc, &mut region)
}

fn adopt_few<R: Threads + Sync>(
    rt: &R,
    alloc: Global,
    region: &mut Region,
    counts: &str,
) -> Option<()> {
    for (tablet, count) in counts.split(' ').enumerate() {
        adopt(alloc, region, tablet, &filled_by(rt, alloc, count)?)?;
    }
    region.advance().ok()
}

// A region that took this number of messages.
fn filled_by<R: Threads + Sync>(rt: &R, alloc: Global, count: &str) -> Option<Region> {
    let count = count.parse::<usize>().ok()?;
    let keys = words_between(alloc, KEYS, 0, count)?;
    filled(rt, alloc, BOUNDS, keys.as_str())
}

// Has a region adopt the copy that another gives of a tablet.
fn adopt(alloc: Global, region: &mut Region, tablet: usize, source: &Region) -> Option<()> {
    if !has_tablet(source, tablet) {
        return None;
    }
    let copy = copy_of(alloc, source, tablet)?;
    region.adopt(copy).ok()?;
    Some(())
}

// Whether a region has a tablet of this number.
fn has_tablet(region: &Region, tablet: usize) -> bool
    ensures { IsTrue result → tablet ≤ length region.now.state.layout }
{
    tablet < region.layout().count()
}

fn copy_of(alloc: Global, source: &Region, tablet: usize) -> Option<TabletCopy>
    requires { tablet ≤ length source.now.state.layout }
{
    source.copy(tablet, &Marks::new(alloc)).ok()
}

// The mark of a region, a refused round past it, how many records the next messages change, and how many there are.
fn go_on<R: Threads + Sync>(rt: &R, alloc: Global, region: &mut Region) -> Option<String> {
    let mark = mark_of(region)?;
    let gap = gap_past(rt, alloc, region, mark)?;
    let changed = bring(rt, region, messages_after(alloc, mark)?)?;
    let records = count_records(region)?;
    format!(in alloc; "{mark}; {gap}; {changed} changed; {records} records").ok()
}

fn messages_after(alloc: Global, mark: u64) -> Option<Vec<Delivery>> {
    let (from, first) = (usize::try_from(mark).ok()?, mark.checked_add(1)?);
    let words = words_between(alloc, KEYS, from, 8)?;
    deliveries(alloc, first, words.as_str(), 0)
}

fn mark_of(region: &Region) -> Option<u64> {
    Some(region.marks().position(&Name::read(b"east").ok()?))
}

// Why a round is refused that begins past the message after the mark.
fn gap_past<R: Threads + Sync>(
    rt: &R,
    alloc: Global,
    region: &mut Region,
    mark: u64,
) -> Option<String> {
    let late = deliveries(alloc, mark.checked_add(2)?, "a", 0)?;
    let fault = region.round(rt, late, 1, &Open).err()?;
    format!(in alloc; "{fault}").ok()
}

fn count_records(region: &Region) -> Option<usize> {
    let mut records = 0usize;
    for tablet in 0..region.layout().count() {
        records = records.checked_add(region.tablet(tablet).cells().len())?;
    }
    Some(records)
}

// The words from one index to before another.
fn words_between(alloc: Global, words: &str, from: usize, to: usize) -> Option<String> {
    let mut some = String::new(alloc);
    for (index, word) in words.split(' ').enumerate() {
        if from <= index && index < to {
            push_word(&mut some, word)?;
        }
    }
    Some(some)
}

fn push_word(words: &mut String, word: &str) -> Option<()> {
    words.push_str(word).ok()?;
    words.push_str(" ").ok()
}

// Why marks do not advance where the one tablet adopted copies of 17 streams.
fn advance_many<R: Threads + Sync>(rt: &R, alloc: Global) -> Option<String> {
    let mut region = region(alloc, "")?;
    adopt_many(rt, alloc, &mut region)?;
    refused_advance(alloc, &mut region)
}

// Why marks do not advance, and how many there are.
fn refused_advance(alloc: Global, region: &mut Region) -> Option<String> {
    let fault = region.advance().err()?;
    format!(in alloc; "{fault}; {} marks", region.marks().len()).ok()
}

fn adopt_many<R: Threads + Sync>(rt: &R, alloc: Global, region: &mut Region) -> Option<()> {
    adopt(alloc, region, 0, &filled(rt, alloc, "", KEYS)?)?;
    adopt(alloc, region, 0, &filled_by_many(rt, alloc)?)
}

// A region that took a message of each of 16 streams.
fn filled_by_many<R: Threads + Sync>(rt: &R, alloc: Global) -> Option<Region> {
    let mut region = region(alloc, "")?;
    bring(rt, &mut region, many_streams(alloc)?)?;
    Some(region)
}

// A delivery of each of 16 streams.
fn many_streams(alloc: Global) -> Option<Vec<Delivery>> {
    let mut given = Vec::new(alloc);
    for letter in b"abcdefghijklmnop" {
        given.push(first_of(alloc, *letter)?).ok()?;
    }
    Some(given)
}

// The first message of a stream.
fn first_of(alloc: Global, stream: u8) -> Option<Delivery> {
    let mut images = Vec::new(alloc);
    images.push(image(alloc, "a", 0)?).ok()?;
    Delivery::new(Name::read(&[stream]).ok()?, 1, images)
}
