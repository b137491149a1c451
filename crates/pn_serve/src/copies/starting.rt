//! Live regions that start from copies, and copies that are recut.

ghost use Rattle.std.specs.Prelude.{IfOk, IfErr, OnOk, ◌≡◌, ◌≢◌, ◌≤◌, [], map, length, slice_get, Ok, IsSomeAnd};
ghost use Rattle.pn_tablet.specs.Prelude.{Refuses, copy_of};
ghost use Rattle.pn_tablet.specs.Steps.{is_memory};
ghost use Rattle.pn_region.specs.Events.{AllLeadTo, IsAdoption, start_events};
ghost use Rattle.pn_region.specs.Prelude.{after_adoption, new_region};
ghost use Rattle.pn_live.specs.LiveRegions.{StopsAt, StopsStart};
ghost use Rattle.pn_region.specs.Reads.{AllServe};
ghost use Rattle.pn_serve.specs.Copies.{AreGiven, AreRecut, GivesNone, IsShortAt, StopsGiving, StopsRecut};
ghost use Rattle.pn_serve.specs.declared.copies.fault.CopiesFault.TheVariants.{Memory as no_memory};

use crate::CopiesFault;
use crate::copies::fault::start_fault;
use pn_join::Marks;
use pn_live::{OpenFault, StartFault};
use pn_region::{AdoptFault, Region, RelayoutFault};
use pn_tablet::{CopyFault, Layout, TabletCopy, layout_of_copies};
use std::alloc::Global;

/// A region of this layout that adopted each of the copies in turn, and then took as marks what all tablets have.
pub(crate) fn start_region(
    alloc: Global,
    layout: Layout,
    copies: Vec<TabletCopy>,
) -> Result<Region, StartFault>
    ensures starts { IfOk result (λ region. AllLeadTo (start_events copies.items) (new_region layout) region.state) }
    ensures refused { IfErr result (StopsStart copies.items (new_region layout)) }
{
    let mut region = match Region::new(alloc, layout) {
        Ok(region) => region,
        Err(_) => return Err(StartFault::Open(OpenFault::Memory)),
    };
    adopt_each(&mut region, copies)?;
    Ok(region)
}

// Adopts each of the copies, and then takes as marks what all tablets have.
fn adopt_each(region: &mut Region, copies: Vec<TabletCopy>) -> Result<(), StartFault>
    ensures ok { OnOk result (AllLeadTo (start_events copies.items) region.old.state region.new.state) }
    ensures refused { IfErr result (StopsAt copies.items region.old.state) }
{
    for copy in copies {
        match adopt_one(region, copy) {
            Ok(()) => {}
            Err(fault) => return Err(StartFault::Adopt(fault)),
        }
    }
    match region.advance() {
        Ok(()) => Ok(()),
        Err(fault) => Err(StartFault::Advance(fault)),
    }
}

fn adopt_one(region: &mut Region, copy: TabletCopy) -> Result<(), AdoptFault>
    ensures ok { OnOk result (IsAdoption copy region.old.state region.new.state) }
    ensures refused { IfErr result (λ fault. Refuses is_memory fault (after_adoption region.old.state copy)) }
{
    let _ = &copy.range;
    match region.adopt(copy) {
        Ok(_tablet) => Ok(()),
        Err(fault) => Err(fault),
    }
}

/// Copies of the tablets of a layout, in their order: those that a region gives which starts from the copies and then changes its
/// layout. Contents are shared.
///
/// `NoCopy`, `TwoCopies` and `TooManyStreams` as from `open_copies`. Then `Unequal` with the first tablet in which copies of
/// different marks would be joined.
pub fn recut_copies(
    alloc: Global,
    copies: Vec<TabletCopy>,
    layout: Layout,
) -> Result<Vec<TabletCopy>, CopiesFault>
    ensures recut { IfOk result (λ recut. AreRecut copies.items layout recut.items) }
    ensures faults { IfErr result (StopsRecut copies.items layout) }
{
    let mut copies = copies;
    let own = layout_of_copies(alloc, &mut copies)?;
    own.recall_order();
    match start_region(alloc, own, copies) {
        Ok(region) => copies_in(alloc, region, layout),
        Err(fault) => Err(start_fault(fault)),
    }
}

// The copies of all tablets of a region that serves, once it is in this layout.
fn copies_in(alloc: Global, region: Region, layout: Layout) -> Result<Vec<TabletCopy>, CopiesFault>
    requires { AllServe region.state }
    ensures given { IfOk result (λ copies. AreGiven region.state layout copies.items) }
    ensures fault { IfErr result (λ fault. fault ≢ no_memory → GivesNone region.state layout fault) }
{
    let mut region = region;
    match region.relayout(layout) {
        Ok(()) => copies_of(alloc, &region),
        Err(RelayoutFault::Memory) => Err(CopiesFault::Memory),
        Err(RelayoutFault::StillRecovering(_)) => unreachable!(),
    }
}

// The copies of all tablets of a region that serves.
fn copies_of(alloc: Global, region: &Region) -> Result<Vec<TabletCopy>, CopiesFault>
    requires { AllServe region.now.state }
    ensures given { IfOk result (λ copies. map (λ tablet. copy_of tablet []) region.now.state.tablets ≡ map Ok copies.items) }
    ensures fault { IfErr result (λ fault. fault ≢ no_memory → StopsGiving region.now.state.tablets fault) }
{
    let count = region.layout().count();
    let mut copies = Vec::with_capacity(alloc, count)?;
    for tablet in 0..count {
        copies.push_reserved(copy_of_tablet(alloc, region, tablet)?);
    }
    Ok(copies)
}

// A copy of a tablet of a region that serves.
fn copy_of_tablet(alloc: Global, region: &Region, tablet: usize) -> Result<TabletCopy, CopiesFault>
    requires within { tablet ≤ length region.now.state.layout }
    ensures given { IfOk result (λ copy. IsSomeAnd (slice_get region.now.state.tablets tablet) (λ state. copy_of state [] ≡ Ok copy)) }
    ensures fault { IfErr result (λ fault. fault ≢ no_memory
        → IsSomeAnd (slice_get region.now.state.tablets tablet) (λ state. IsShortAt tablet (copy_of state []) fault)) }
{
    match region.copy(tablet, &Marks::new(alloc)) {
        Ok(copy) => Ok(copy),
        Err(CopyFault::Memory) => Err(CopiesFault::Memory),
        Err(fault) => Err(CopiesFault::Unequal(tablet, fault)),
    }
}
