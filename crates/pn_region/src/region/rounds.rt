//! Rounds of a region, and its parts.

ghost use Rattle.std.specs.Prelude.{◌≡◌, ◌≤◌, length, IsTrue, List, Ok, IsOk, IfOk, IfErr, OnOk, OnErr};
ghost use Rattle.std.specs.List.{AllByRecursion};
ghost use Rattle.pn_join.specs.Prelude.{are_positions};
ghost use Rattle.pn_tablet.specs.Prelude.{IsLayout, Refuses};
ghost use Rattle.pn_apply.specs.Prelude.{ranges, IsSomeOld};
ghost use Rattle.pn_region.specs.declared.marking.TheConstants.{MAX_STREAMS};
ghost use Rattle.pn_region.specs.Regions.{ArePartsOf, IsSound};
ghost use Rattle.pn_apply.specs.declared.reducing.TheConstants.{MAX_WORKERS};
ghost use Rattle.pn_region.specs.Log.{with_notices, refused_log};
ghost use Rattle.pn_region.specs.Rounds.{is_memory, round, changed_count, Leaves};
ghost use Rattle.pn_stream.specs.Prelude.{DeliveryValue};

use crate::region::{Region, Round, count_changes};
use crate::{Log, RoundFault, check_marks};
use pn_apply::{Gate, shares_of};
use pn_join::Marks;
use pn_stream::Delivery;
use pn_tablet::{Layout, TabletState};
use std::alloc::Global;
use std::marker::Sync;
use std::thread::Threads;

impl Region {
    /// The region of these parts. There is one tablet for each range of the layout, in order, whose cover
    /// reaches the marks.
    ///
    /// The marks name at most 16 streams, at positions of 1 to 10^15.
    pub fn of_parts(
        alloc: Global,
        layout: Layout,
        tablets: Vec<TabletState>,
        marks: Marks,
        log: Log,
    ) -> Region
        requires tablets { ArePartsOf marks (ranges layout) tablets.items }
        requires few { length marks ≤ MAX_STREAMS }
        requires positions { IsTrue (are_positions marks) }
        ensures layout { result.state.layout ≡ layout }
        ensures tablets { result.state.tablets ≡ tablets.items }
        ensures marks { result.state.marks ≡ marks }
        ensures log { result.log ≡ log }
    {
        recall_all(&layout, &tablets);
        Region {
            layout,
            tablets,
            marks,
            log,
            alloc,
        }
    }
}

// Recalls for the prover that a layout is lawful and tablets are sound.
fn recall_all(layout: &Layout, tablets: &[TabletState])
    ensures lawful { IsLayout layout.now }
    ensures sound { AllByRecursion IsSound tablets.now }
{
    layout.recall_order();
    for tablet in tablets {
        recall_soundness(tablet);
    }
}

/// Recalls for the prover that a tablet is sound: its keys lie in its range, its cells are those of images, and its
/// reach reaches its cover.
pub fn recall_soundness(tablet: &TabletState)
    ensures { IsSound tablet.now }
{
    let _ = tablet.range();
    let _ = tablet.cells();
    let _ = tablet.reach();
}

impl Region {
    /// Takes deliveries, in order, by 1 to 16 workers, each of which enters the gate before each of its tablets.
    ///
    /// `Gap` names the first delivery that begins past its stream's next position; else `TooManyStreams` comes. Both
    /// change nothing. After `Memory` some tablets have taken their parts, and the log has a break.
    pub fn round<R: Threads + Sync, G: Gate + Sync>(
        &mut self,
        rt: &R,
        deliveries: Vec<Delivery>,
        workers: usize,
        gate: &G,
    ) -> Result<Round, RoundFault>
        requires workers { (1 ≤ workers) × (workers ≤ MAX_WORKERS) }
        ensures ok { OnOk result (round self.old.state deliveries.items ≡ Ok self.new.state) }
        ensures changed { IfOk result (λ done. done.changed ≡ changed_count self.old.state self.new.state) }
        ensures noted { OnOk result (self.new.log ≡ with_notices self.old.log self.old.state self.new.state) }
        ensures refused { IfErr result (λ fault. Refuses is_memory fault (round self.old.state deliveries.items)) }
        ensures err { IfErr result (λ fault. Leaves fault self.old.state deliveries.items self.new.state) }
        ensures left { OnErr result (IsSomeOld self.old.state.tablets self.new.state.tablets) }
        ensures broken { IfErr result (λ fault. self.new.log ≡ refused_log self.old.log fault) }
    {
        self.check(&deliveries)?;
        let Ok(shares) = shares_of(self.alloc(), deliveries) else {
            self.break_off();
            return Err(RoundFault::Memory);
        };
        match self.take_round(rt, &shares, workers, gate) {
            Ok(lists) => {
                let changed = count_changes(&lists) as u64;
                self.log.add(lists);
                Ok(Round { changed })
            }
            Err(RoundFault::Memory) => {
                self.log.cut();
                Err(RoundFault::Memory)
            }
            Err(fault) => Err(fault),
        }
    }

    // The fault of the deliveries' positions, if there is one. It takes no memory.
    fn check(&self, deliveries: &[Delivery]) -> Result<(), RoundFault>
        ensures ok { OnOk result (IsOk (round self.now.state deliveries.now)) }
        ensures refused { IfErr result (λ fault. Refuses is_memory fault (round self.now.state deliveries.now)) }
        ensures err { IfErr result (λ fault. Leaves fault self.now.state deliveries.now self.now.state) }
        ensures broken { IfErr result (λ fault. self.now.log ≡ refused_log self.now.log fault) }
        ensures left { IsSomeOld self.now.state.tablets self.now.state.tablets }
    {
        check_marks(&self.marks, deliveries)
    }

    // Where rounds take memory.
    fn alloc(&self) -> Global {
        self.alloc
    }

    // Breaks the log off, where memory ran out before a round. The tablets stay.
    fn break_off(&mut self)
        ensures broken { self.new.log ≡ refused_log self.old.log RoundFault.Memory }
        ensures same { self.new.state ≡ self.old.state }
        ensures err { (deliveries : List DeliveryValue) → Leaves RoundFault.Memory self.old.state deliveries self.new.state }
    {
        self.log.cut();
    }
}
