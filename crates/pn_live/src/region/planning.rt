//! What a round is to publish: the next state of each tablet, made by workers.

ghost use Rattle.std.specs.Prelude.{◌≡◌, ◌≤◌, [], length, map, vec_capacity, IfOk, IfSome};
ghost use Rattle.std.specs.List.{flat_map};
ghost use Rattle.pn_apply.specs.Prelude.{AreJoinsIn, HavePositions, all_stepped, all_changes};
ghost use Rattle.pn_apply.specs.declared.reducing.TheConstants.{MAX_WORKERS};
ghost use Rattle.pn_live.specs.PublishedTablets.{state_at};

use crate::front::TabletNote;
use crate::live_tablet::StateDraft;
use crate::published_tablet::PublishedTablet;
use pn_apply::{Gate, apply_all};
use pn_join::NoMemory;
use pn_tablet::{Change, TabletOp, TabletState};
use std::alloc::Global;
use std::sync::Wait;
use std::thread::Threads;

/// The next states with what changed in each, how many records changed, and a list with capacity for the notes of a front.
#[derive(Drop)]
pub(super) struct RoundPlan {
    pub(super) nexts: Vec<TabletState>,
    pub(super) lists: Vec<Vec<Change>>,
    pub(super) changed: u64,
    pub(super) notes: Vec<TabletNote>,
}

/// Makes what the operations make of the tablets. Publishing it takes no memory.
pub(super) fn plan_round<R: Threads + Wait + Sync, G: Gate + Sync>(
    rt: &R,
    alloc: Global,
    tablets: &mut [PublishedTablet],
    operations: &[TabletOp],
    workers: usize,
    gate: &G,
) -> Result<RoundPlan, NoMemory>
    requires joins { AreJoinsIn (map state_at tablets.old) operations.now }
    requires positions { HavePositions operations.now }
    requires workers { (1 ≤ workers) × (workers ≤ MAX_WORKERS) }
    ensures nexts { IfOk result (λ plan. plan.nexts.items ≡ all_stepped (map state_at tablets.old) operations.now) }
    ensures changes { IfOk result (λ plan.
        flat_map (λ list. list.items) plan.lists.items ≡ flat_map (λ list. list) (all_changes (map state_at tablets.old) operations.now)) }
    ensures changed { IfOk result (λ plan. plan.changed ≡ length (flat_map (λ list. list.items) plan.lists.items)) }
    ensures same { tablets.new ≡ tablets.old }
    ensures notes { IfOk result (λ plan. (plan.notes.items ≡ []) × (vec_capacity plan.notes ≡ length tablets.old)) }
{
    let mut drafts = take_drafts(rt, alloc, tablets)?;
    let slots = drafts.as_mut_slice();
    let lists = apply_all(rt, alloc, slots, operations, workers, gate)?;
    let Some(changed) = count_changes(&lists) else {
        return Err(NoMemory);
    };
    let notes = Vec::with_capacity(alloc, tablets.len())?;
    let nexts = states_of(alloc, drafts)?;
    Ok(RoundPlan {
        nexts,
        lists,
        changed,
        notes,
    })
}

// Takes a draft of each tablet's next state.
fn take_drafts<R: Wait>(
    rt: &R,
    alloc: Global,
    tablets: &mut [PublishedTablet],
) -> Result<Vec<StateDraft>, NoMemory>
    ensures drafts { IfOk result (λ drafts. drafts.items ≡ map state_at tablets.old) }
    ensures same { tablets.new ≡ tablets.old }
{
    let mut drafts = Vec::with_capacity(alloc, tablets.len())?;
    for number in 0..tablets.len() {
        drafts.push_reserved(tablets[number].draft(rt, alloc)?);
    }
    Ok(drafts)
}

// The states of the drafts.
fn states_of(alloc: Global, drafts: Vec<StateDraft>) -> Result<Vec<TabletState>, NoMemory>
    ensures { IfOk result (λ states. states.items ≡ drafts.items) }
{
    let mut states = Vec::with_capacity(alloc, drafts.len())?;
    for draft in drafts {
        states.push_reserved(draft.into_state()?);
    }
    Ok(states)
}

// How many changes the lists have together. `None` past 64 bits, where memory would not hold them.
fn count_changes(lists: &[Vec<Change>]) -> Option<u64>
    ensures { IfSome result (λ count. count ≡ length (flat_map (λ list. list.items) lists.now)) }
{
    let mut count = 0u64;
    for list in lists {
        count = count.checked_add(list.len() as u64)?;
    }
    Some(count)
}
