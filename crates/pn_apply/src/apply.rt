//! Operations applied, each to the slot of its own tablet, behind a gate that a worker enters.

ghost use Rattle.std.specs.Prelude.{◌≡◌, Ok, IfOk, IfErr, OnOk, OnErr, ◌≤◌, ◌<◌, length, map};
ghost use Rattle.pn_tablet.specs.Prelude.{TabletStateValue, HasPositions, Refuses, step, answer, tablet_after};
ghost use Rattle.pn_tablet.specs.Steps.{is_memory};
ghost use Rattle.pn_apply.specs.Applying.{IsJoinIn, AreJoinsIn, HavePositions, all_stepped, all_changes, AreOldOrStepped, IsSomeOld, operation_at};
ghost use Rattle.pn_apply.specs.declared.reducing.TheConstants.{MAX_WORKERS};

use crate::working::{TabletWork, Task, work_all};
use pn_join::NoMemory;
use pn_tablet::{Change, OpFault, TabletOp, TabletState};
use std::alloc::Global;
use std::marker::{Send, Sync};
use std::thread::Threads;

/// Entered with each tablet's number, by the thread that works the tablet.
pub trait Gate {
    /// Returns once the worker may begin the tablet.
    fn enter(&self, tablet: usize);

    /// Whether no worker waits here for another. Only then do workers without enough images get no thread.
    fn is_open(&self) -> bool {
        false
    }
}

/// The gate that holds nobody up.
pub struct Open;

impl Gate for Open {
    /// Returns at once.
    fn enter(&self, _tablet: usize) {}

    /// Always true.
    fn is_open(&self) -> bool {
        true
    }
}

/// Leave to work the tablet of this number, which only entering the gate gives.
#[derive(Drop)]
pub(crate) struct GatePass {
    pub(crate) tablet: usize,
    _sealed: (),
}

/// Enters the gate with a tablet's number.
pub(crate) fn enter<G: Gate>(gate: &G, tablet: usize) -> GatePass
    ensures { result.tablet ≡ tablet }
{
    gate.enter(tablet);
    GatePass {
        tablet,
        _sealed: (),
    }
}

/// Takes operations as a tablet's state does.
pub trait Slot {
    /// The state of the slot's tablet.
    ghost tablet: { Self → TabletStateValue };

    /// Takes one operation, whose positions are 1 to 10^15, as [`TabletState::apply`] does, but may also run out
    /// of memory in a loss.
    ///
    /// An error leaves the slot's tablet as it was.
    fn apply(&mut self, op: &TabletOp) -> Result<Vec<Change>, OpFault>
        requires positions { HasPositions op.now }
        ensures ok { OnOk result (step (tablet self.old) op.now ≡ Ok (tablet self.new)) }
        ensures changes { IfOk result (λ list. list.items ≡ answer op.now (tablet self.old) (tablet self.new)) }
        ensures refused { IfErr result (λ fault. Refuses is_memory fault (step (tablet self.old) op.now)) }
        ensures err { OnErr result (tablet self.new ≡ tablet self.old) };

    /// How many images it takes beside those of its next operation.
    fn count_waiting(&self) -> usize {
        0
    }
}

impl Slot for TabletState {
    ghost tablet = { λ state. state };

    fn apply(&mut self, op: &TabletOp) -> Result<Vec<Change>, OpFault> {
        TabletState::apply(self, op)
    }
}

/// Applies each operation to the slot at its index, by 1 to 16 workers, and returns the changes of each, in the
/// order of the tablets.
///
/// Each operation is a join in its slot's range, with positions of 1 to 10^15.
///
/// A worker enters the gate before each of its tablets.
///
/// After an error each slot is as it was or has taken its operation, and at least one is as it was.
pub fn apply_all<R: Threads + Sync, S: Slot + Send, G: Gate + Sync>(
    rt: &R,
    alloc: Global,
    slots: &mut [S],
    operations: &[TabletOp],
    workers: usize,
    gate: &G,
) -> Result<Vec<Vec<Change>>, NoMemory>
    requires joins { AreJoinsIn (map S.tablet slots.old) operations.now }
    requires positions { HavePositions operations.now }
    requires workers { (1 ≤ workers) × (workers ≤ MAX_WORKERS) }
    ensures ok { OnOk result (map S.tablet slots.new ≡ all_stepped (map S.tablet slots.old) operations.now) }
    ensures changes { IfOk result (λ lists. map (λ list. list.items) lists.items
        ≡ all_changes (map S.tablet slots.old) operations.now) }
    ensures err { OnErr result (AreOldOrStepped (map S.tablet slots.old) operations.now (map S.tablet slots.new)) }
    ensures left { OnErr result (IsSomeOld (map S.tablet slots.old) (map S.tablet slots.new)) }
{
    let work = Applying { operations };
    let task = Task {
        alloc,
        work: &work,
        gate,
    };
    work_all(rt, &task, workers, slots)
}

// The operations of a round, each for the tablet at its index.
#[derive(Drop)]
struct Applying<'a> {
    operations: &'a [TabletOp],
}

impl<S: Slot> TabletWork<S, Vec<Change>> for Applying<'_> {
    ghost fits = { λ work n slot. (n < length work.operations.now)
        × IsJoinIn (S.tablet slot) (operation_at work.operations.now n) × HasPositions (operation_at work.operations.now n) };

    ghost turns = { λ work n old new. S.tablet new ≡ tablet_after (S.tablet old) (operation_at work.operations.now n) };

    ghost makes = { λ work n old list. list.items
        ≡ answer (operation_at work.operations.now n) (S.tablet old) (tablet_after (S.tablet old) (operation_at work.operations.now n)) };

    ghost kept = { λ work old new. S.tablet new ≡ S.tablet old };

    // A key's images count as one.
    fn count_images(&self, tablet: usize, slot: &S) -> usize {
        let waiting = slot.count_waiting();
        match self.operations.get(tablet) {
            Some(TabletOp::Join { cells, .. }) => cells.len().saturating_add(waiting),
            _ => waiting,
        }
    }

    fn work(
        &self,
        entered: GatePass,
        _alloc: Global,
        slot: &mut S,
    ) -> Result<Vec<Change>, NoMemory> {
        apply_join(slot, &self.operations[entered.tablet])
    }
}

// Applies a join that lies in the slot's range: only memory can fail.
fn apply_join<S: Slot>(slot: &mut S, operation: &TabletOp) -> Result<Vec<Change>, NoMemory>
    requires join { IsJoinIn (S.tablet slot.old) operation.now }
    requires positions { HasPositions operation.now }
    ensures ok { OnOk result (S.tablet slot.new ≡ tablet_after (S.tablet slot.old) operation.now) }
    ensures changes { IfOk result (λ list. list.items
        ≡ answer operation.now (S.tablet slot.old) (tablet_after (S.tablet slot.old) operation.now)) }
    ensures err { OnErr result (S.tablet slot.new ≡ S.tablet slot.old) }
{
    match slot.apply(operation) {
        Ok(changes) => Ok(changes),
        Err(OpFault::Memory) => Err(NoMemory),
        Err(_) => unreachable!(),
    }
}
