//! Rounds of a live region.

ghost use Rattle.std.specs.Prelude.{◌≡◌, ◌≤◌, ◌++◌, [], length, map, vec_capacity, Ok, IfOk, IfErr, OnErr, OnOk, IsTrue};
ghost use Rattle.std.specs.List.{flat_map};
ghost use Rattle.pn_join.specs.Prelude.{are_positions};
ghost use Rattle.pn_tablet.specs.Prelude.{changes, Refuses};
ghost use Rattle.pn_apply.specs.Prelude.{AreJoinsIn, HavePositions, all_stepped, all_changes};
ghost use Rattle.pn_apply.specs.declared.reducing.TheConstants.{MAX_WORKERS};
ghost use Rattle.pn_region.specs.declared.marking.TheConstants.{MAX_STREAMS};
ghost use Rattle.pn_region.specs.Prelude.{with_notices, refused_log, is_memory, new_marks, AreRegionMarks, IsRegion, all_cells, joins, round, changed_count};
ghost use Rattle.pn_live.specs.LiveRegions.{core, tablets_after_round, tablets_in};
ghost use Rattle.pn_live.specs.PublishedTablets.{books_of, notes_of, state_at, with_ops};
ghost use Rattle.pn_live.specs.Readers.{AreNotesOf};

use super::LiveRegion;
use super::planning::{RoundPlan, plan_round};
use crate::front::{Front, TabletNote};
use crate::publication_order::PublicationOrder;
use crate::published_tablet::PublishedTablet;
use pn_apply::{Gate, Share, reduce, shares_of};
use pn_join::Marks;
use pn_region::{Round, RoundFault, check_marks, next_marks};
use pn_stream::Delivery;
use pn_tablet::{Change, TabletOp, TabletState};
use std::sync::Wait;
use std::thread::Threads;

impl LiveRegion {
    /// Takes deliveries as a region's round does: workers make the next states, this thread publishes them, each tablet
    /// once, in the order of the tablets. Answers the front. It waits for readers of states before last.
    ///
    /// Faults, marks and log are those of a region's round. A fault publishes nothing; after `Memory` the log alone has
    /// changed.
    pub fn round<R: Threads + Wait + Sync, G: Gate + Sync>(
        &mut self,
        rt: &R,
        deliveries: Vec<Delivery>,
        workers: usize,
        gate: &G,
    ) -> Result<(Round, Front), RoundFault>
        requires workers { (1 ≤ workers) × (workers ≤ MAX_WORKERS) }
        ensures ok { OnOk result (round (core self.old) deliveries.items ≡ Ok (core self.new)) }
        ensures published { OnOk result (self.new.tablets ≡ tablets_after_round self.old deliveries.items self.new.marks) }
        ensures order { OnOk result (self.new.order ≡ self.old.order ++ books_of self.old.tablets) }
        ensures front { IfOk result (λ done. (done.1 ≡ notes_of self.new.tablets) × AreNotesOf (tablets_in self.old) done.1) }
        ensures changed { IfOk result (λ done. done.0.changed ≡ changed_count (core self.old) (core self.new)) }
        ensures noted { OnOk result (self.new.log ≡ with_notices self.old.log (core self.old) (core self.new)) }
        ensures refused { IfErr result (λ fault. Refuses is_memory fault (round (core self.old) deliveries.items)) }
        ensures kept { IfErr result (λ fault. self.new ≡ record self.old { log = refused_log self.old.log fault }) }
        ensures same { tablets_in self.new ≡ tablets_in self.old }
    {
        match self.shares_for(deliveries) {
            Ok(shares) => self.join_shares(rt, &shares, workers, gate),
            Err(fault) => Err(self.refuse(fault)),
        }
    }

    // What deliveries bring, if marks and memory allow it. Nothing is begun.
    fn shares_for(&self, deliveries: Vec<Delivery>) -> Result<Vec<Share>, RoundFault>
        ensures shares { IfOk result (λ shares. shares.items ≡ deliveries.items) }
        ensures refused { IfErr result (λ fault. Refuses is_memory fault (round (core self.now) deliveries.items)) }
        ensures region { IsRegion (core self.now) }
    {
        check_marks(&self.marks, &deliveries)?;
        Ok(shares_of(self.alloc, deliveries)?)
    }

    // Breaks the log off, where memory ran out. The tablets stay.
    fn refuse(&mut self, fault: RoundFault) -> RoundFault
        ensures fault { result ≡ fault }
        ensures kept { self.new ≡ record self.old { log = refused_log self.old.log fault } }
    {
        match fault {
            RoundFault::Memory => {
                self.log.cut();
                RoundFault::Memory
            }
            fault => fault,
        }
    }

    /// Takes what deliveries bring, as `round` takes deliveries. After `Memory` the same shares can be taken again.
    pub fn join_shares<R: Threads + Wait + Sync, G: Gate + Sync>(
        &mut self,
        rt: &R,
        shares: &[Share],
        workers: usize,
        gate: &G,
    ) -> Result<(Round, Front), RoundFault>
        requires workers { (1 ≤ workers) × (workers ≤ MAX_WORKERS) }
        ensures ok { OnOk result (round (core self.old) shares.now ≡ Ok (core self.new)) }
        ensures published { OnOk result (self.new.tablets ≡ tablets_after_round self.old shares.now self.new.marks) }
        ensures order { OnOk result (self.new.order ≡ self.old.order ++ books_of self.old.tablets) }
        ensures front { IfOk result (λ done. (done.1 ≡ notes_of self.new.tablets) × AreNotesOf (tablets_in self.old) done.1) }
        ensures changed { IfOk result (λ done. done.0.changed ≡ changed_count (core self.old) (core self.new)) }
        ensures noted { OnOk result (self.new.log ≡ with_notices self.old.log (core self.old) (core self.new)) }
        ensures refused { IfErr result (λ fault. Refuses is_memory fault (round (core self.old) shares.now)) }
        ensures kept { IfErr result (λ fault. self.new ≡ record self.old { log = refused_log self.old.log fault }) }
        ensures same { tablets_in self.new ≡ tablets_in self.old }
    {
        match self.take_round(rt, shares, workers, gate) {
            Ok(taken) => {
                let (lists, done, front) = taken;
                self.log.add(lists);
                Ok((done, front))
            }
            Err(RoundFault::Memory) => {
                self.log.cut();
                Err(RoundFault::Memory)
            }
            Err(fault) => Err(fault),
        }
    }

    // Takes shares, and leaves the log. Answers what changed in each tablet, too.
    fn take_round<R: Threads + Wait + Sync, G: Gate + Sync>(
        &mut self,
        rt: &R,
        shares: &[Share],
        workers: usize,
        gate: &G,
    ) -> Result<(Vec<Vec<Change>>, Round, Front), RoundFault>
        requires workers { (1 ≤ workers) × (workers ≤ MAX_WORKERS) }
        ensures ok { OnOk result (round (core self.old) shares.now ≡ Ok (core self.new)) }
        ensures published { OnOk result (self.new.tablets ≡ tablets_after_round self.old shares.now self.new.marks) }
        ensures order { OnOk result (self.new.order ≡ self.old.order ++ books_of self.old.tablets) }
        ensures front { IfOk result (λ taken. (taken.2 ≡ notes_of self.new.tablets) × AreNotesOf (tablets_in self.old) taken.2) }
        ensures changes { IfOk result (λ taken. (flat_map (λ list. list.items) taken.0.items ≡ changes (all_cells (core self.old)) (all_cells (core self.new)))
            × (taken.1.changed ≡ length (flat_map (λ list. list.items) taken.0.items))) }
        ensures refused { IfErr result (λ fault. Refuses is_memory fault (round (core self.old) shares.now)) }
        ensures kept { OnErr result (self.new ≡ self.old) }
        ensures log { self.new.log ≡ self.old.log }
        ensures same { tablets_in self.new ≡ tablets_in self.old }
    {
        let ready = self.prepare(rt, shares, workers, gate)?;
        let (marks, operations, plan) = ready;
        let RoundPlan {
            nexts,
            lists,
            changed,
            notes,
        } = plan;
        let tablets = self.tablets.as_mut_slice();
        publish_tablets(rt, tablets, nexts, operations, &mut self.order);
        self.marks = marks;
        let front = front_of(notes, &self.tablets);
        Ok((lists, Round { changed }, front))
    }

    // Makes the new marks, what the shares bring to each tablet, and what that makes of the tablets. Nothing is
    // published yet.
    fn prepare<R: Threads + Wait + Sync, G: Gate + Sync>(
        &mut self,
        rt: &R,
        shares: &[Share],
        workers: usize,
        gate: &G,
    ) -> Result<(Marks, Vec<TabletOp>, RoundPlan), RoundFault>
        requires workers { (1 ≤ workers) × (workers ≤ MAX_WORKERS) }
        ensures marks { IfOk result (λ ready. (new_marks self.old.marks shares.now ≡ Ok ready.0) × AreRegionMarks ready.0) }
        ensures joins { IfOk result (λ ready. AreJoinsIn (map state_at self.old.tablets) ready.1.items × HavePositions ready.1.items) }
        ensures operations { IfOk result (λ ready. ready.1.items ≡ joins (core self.old) shares.now ready.0) }
        ensures nexts { IfOk result (λ ready. ready.2.nexts.items ≡ all_stepped (map state_at self.old.tablets) ready.1.items) }
        ensures changes { IfOk result (λ ready.
            (flat_map (λ list. list.items) ready.2.lists.items ≡ flat_map (λ list. list) (all_changes (map state_at self.old.tablets) ready.1.items))
            × (ready.2.changed ≡ length (flat_map (λ list. list.items) ready.2.lists.items))) }
        ensures notes { IfOk result (λ ready. (ready.2.notes.items ≡ []) × (vec_capacity ready.2.notes ≡ length self.old.tablets)) }
        ensures is_region { IsRegion (core self.old) }
        ensures same { self.new ≡ self.old }
        ensures refused { IfErr result (λ fault. Refuses is_memory fault (round (core self.old) shares.now)) }
    {
        let marks = marks_after(&self.marks, shares)?;
        let operations = reduce(rt, self.alloc, shares, &self.layout, &marks, workers, gate)?;
        let plan = plan_round(
            rt,
            self.alloc,
            self.tablets.as_mut_slice(),
            &operations,
            workers,
            gate,
        )?;
        Ok((marks, operations, plan))
    }
}

// The marks after what the shares bring.
fn marks_after(marks: &Marks, shares: &[Share]) -> Result<Marks, RoundFault>
    requires { IsTrue (are_positions marks.now) }
    ensures ok { IfOk result (λ next. new_marks marks.now shares.now ≡ Ok next) }
    ensures refused { IfErr result (λ fault. Refuses is_memory fault (new_marks marks.now shares.now)) }
    ensures positions { IfOk result (λ next. IsTrue (are_positions next)) }
    ensures few { IfOk result (λ next. length next ≤ MAX_STREAMS) }
{
    next_marks(marks, shares)
}

// Publishes the next state of each tablet, in the order of the tablets.
fn publish_tablets<R: Wait>(
    rt: &R,
    tablets: &mut [PublishedTablet],
    nexts: Vec<TabletState>,
    operations: Vec<TabletOp>,
    order: &mut PublicationOrder,
)
    requires joins { AreJoinsIn (map state_at tablets.old) operations.items }
    requires positions { HavePositions operations.items }
    requires nexts { nexts.items ≡ all_stepped (map state_at tablets.old) operations.items }
    ensures tablets { tablets.new ≡ with_ops tablets.old operations.items }
    ensures order { order.new ≡ order.old ++ books_of tablets.old }
{
    let mut number = 0;
    for (next, operation) in nexts.into_iter().zip(operations) {
        tablets[number].publish(rt, next, operation, order);
        number += 1;
    }
}

/// The front of the tablets. `notes` is empty, and has capacity for all.
pub(super) fn front_of(mut notes: Vec<TabletNote>, tablets: &[PublishedTablet]) -> Front
    requires none { notes.items ≡ [] }
    requires capacity { vec_capacity notes ≡ length tablets.now }
    ensures { result ≡ notes_of tablets.now }
{
    for tablet in tablets {
        notes.push_reserved(tablet.note());
    }
    Front::of(notes)
}
