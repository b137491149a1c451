//! How a live region ends.

ghost use Rattle.std.specs.Prelude.{◌≡◌, map, IfOk, IsTrue};
ghost use Rattle.std.specs.List.{AllByRecursion};
ghost use Rattle.pn_live.specs.Readers.{AllKnowPublished, AreOfTablets, ReadsFrom};
ghost use Rattle.pn_live.specs.LiveRegions.{core, IsReaderIn};
ghost use Rattle.pn_live.specs.PublishedTablets.{state_at};

use super::LiveRegion;
use crate::published_tablet::PublishedTablet;
use crate::reader::LiveReader;
use crate::tablet_reader::TabletReader;
use pn_join::NoMemory;
use pn_region::Region;
use pn_tablet::TabletState;
use std::alloc::Global;
use std::sync::Wait;

impl LiveRegion {
    /// Ends the live region, given its readers back: answers the region of all that was published. No reader saw or
    /// learnt more. It waits for readers that are reading.
    ///
    /// After an error the region is gone.
    pub fn close<R: Wait>(self, rt: &R, readers: Vec<LiveReader>) -> Result<Region, NoMemory>
        requires { AllByRecursion (IsReaderIn self) readers.items }
        ensures state { IfOk result (λ region. region.state ≡ core self) }
        ensures log { IfOk result (λ region. region.log ≡ self.log) }
        ensures readers { IfOk result (λ _. AllByRecursion (λ reader. AllKnowPublished self.tablets reader.tablet_readers) readers.items) }
    {
        let LiveRegion {
            layout,
            tablets,
            marks,
            log,
            order: _order,
            alloc,
        } = self;
        let all_seen = was_all_seen(&tablets, readers);
        let states = take_states(rt, alloc, tablets)?;
        if !all_seen {
            return Err(NoMemory);
        }
        Ok(Region::of_parts(alloc, layout, states, marks, log))
    }
}

// Enters each tablet once more with each reader; true where all found the latest state.
fn was_all_seen(tablets: &[PublishedTablet], readers: Vec<LiveReader>) -> bool
    requires { AllByRecursion (ReadsFrom tablets.now) readers.items }
    ensures { IsTrue result → AllByRecursion (λ reader. AllKnowPublished tablets.now reader.tablet_readers) readers.items }
{
    for reader in readers {
        if !was_seen(tablets, reader.into_tablet_readers()) {
            return false;
        }
    }
    true
}

// Enters each tablet once more with one reader; true where it found the latest state in all.
fn was_seen(tablets: &[PublishedTablet], tablet_readers: Vec<TabletReader>) -> bool
    requires { AreOfTablets tablets.now tablet_readers.items }
    ensures { IsTrue result → AllKnowPublished tablets.now tablet_readers.items }
{
    let mut number = 0;
    for reader in tablet_readers {
        if !tablets[number].was_all_seen(reader) {
            return false;
        }
        number += 1;
    }
    true
}

// Ends the tablets, and answers their states. They all end, also when memory runs out.
fn take_states<R: Wait>(
    rt: &R,
    alloc: Global,
    tablets: Vec<PublishedTablet>,
) -> Result<Vec<TabletState>, NoMemory>
    ensures { IfOk result (λ states. states.items ≡ map state_at tablets.items) }
{
    let Ok(mut states) = Vec::with_capacity(alloc, tablets.len()) else {
        close_tablets(rt, tablets);
        return Err(NoMemory);
    };
    let mut rest = tablets.into_iter();
    while let Some(tablet) = rest.next() {
        states.push_reserved(tablet.close(rt));
    }
    rest.destroy_empty();
    Ok(states)
}

/// Ends live tablets whose states are not needed.
pub(super) fn close_tablets<R: Wait>(rt: &R, tablets: Vec<PublishedTablet>) {
    let mut rest = tablets.into_iter();
    while let Some(tablet) = rest.next() {
        tablet.close(rt);
    }
    rest.destroy_empty();
}
