//! Leaves that are open: all memory is there to put contents into them, so that this cannot fail.

ghost use Rattle.std.specs.Prelude.{◌≡◌, ◌+◌, ◌-◌, ◌*◌, ◌^◌, ◌<◌, ◌≤◌, [], ◌++◌, length, vec_len, vec_capacity, IfOk};
ghost use Rattle.std.specs.Option.{option_to_list};
ghost use Rattle.pn_join.specs.Edits.{AreEditsWithin, AreFor, put_edit, put_in_turn};
ghost use Rattle.pn_join.specs.Nodes.{leaf_of};
ghost use Rattle.pn_join.specs.Openings.{IsOpening, IsOpeningFor};
ghost use Rattle.pn_join.specs.PutAt.{from_start, IsAmong};

use crate::table::edit::{Edit, from_start, pop_from};
use crate::table::leaf_join::{MAX_LEAF_ENTRIES, halve_if_long};
use crate::table::node::Opening;
use crate::{Dup, NoMemory};
use std::alloc::Global;
use std::marker::Model;

/// A leaf with the capacity for edits, of which most leaves get one.
#[derive(Drop)]
pub struct OpenLeaf<K, C> {
    entries: Vec<(K, C)>,
    // Has the capacity for half of the entries if they may become too many for one leaf.
    back: Vec<(K, C)>,
    // The index of the first entry among all.
    start: usize,
    // The edits, the last first.
    first: Option<Edit<K, C>>,
    more: Vec<Edit<K, C>>,
}

impl<K, C> Model for OpenLeaf<K, C> {
    ghost use Rattle.std.specs.Prelude.{◌≡◌, ◌+◌, ◌*◌, ◌<◌, ◌≤◌, ◌++◌, [], List, length, vec_capacity};
    ghost use Rattle.std.specs.List.{AllByRecursion};
    ghost use Rattle.std.specs.Option.{option_to_list};

    ghost Value = { List (K × C) × List (K × C) };

    ghost use Rattle.pn_join.specs.Edits.{put_in_turn, AreFor};
    ghost use Rattle.pn_join.specs.declared.table.leaf_join.TheConstants.{MAX_LEAF_ENTRIES};

    // The entries as they are, and as they are once the edits are put.
    ghost view = { λ leaf. (leaf.entries.items, put_in_turn leaf.start leaf.entries.items (option_to_list leaf.first ++ leaf.more.items)) };

    ghost invariant = { λ leaf. (leaf.back.items ≡ [])
        × AreFor leaf.start (length leaf.entries.items) (option_to_list leaf.first ++ leaf.more.items)
        × (0 < length leaf.entries.items)
        × (length leaf.entries.items + length (option_to_list leaf.first ++ leaf.more.items) ≤ vec_capacity leaf.entries)
        × (length leaf.entries.items + length (option_to_list leaf.first ++ leaf.more.items) ≤ 2 * MAX_LEAF_ENTRIES)
        × (MAX_LEAF_ENTRIES < length leaf.entries.items + length (option_to_list leaf.first ++ leaf.more.items) → length leaf.entries.items + length
        (option_to_list leaf.first ++ leaf.more.items) ≤ 2 * vec_capacity leaf.back) };
}

/// Takes the edits from index `start` on off the end, and makes the leaf ready for them.
pub fn open_leaf<K: Ord + Dup, C: Dup>(
    entries: Vec<(K, C)>,
    edits: &mut Vec<Edit<K, C>>,
    start: usize,
) -> Opening<Vec<(K, C)>, OpenLeaf<K, C>>
    requires some { 0 < length entries.items }
    requires edits { AreEditsWithin (start + length entries.items) edits.old.items }
    ensures { IsOpening (λ l. leaf_of l.items) (λ o. leaf_of o.0) (λ o. o.1) start (leaf_of entries.items) edits.old.items edits.new.items result }
{
    let first = pop_from(edits, start);
    let mut more = Vec::new(*entries.allocator());
    while let Some(edit) = pop_from(edits, start) {
        let Ok(()) = more.push(edit) else {
            return Opening::NoMemory(entries);
        };
    }
    open_with(entries, start, first, more)
}

/// Makes the leaf ready for these edits.
fn open_with<K: Ord + Dup, C: Dup>(
    mut entries: Vec<(K, C)>,
    start: usize,
    first: Option<Edit<K, C>>,
    more: Vec<Edit<K, C>>,
) -> Opening<Vec<(K, C)>, OpenLeaf<K, C>>
    requires some { 0 < length entries.items }
    requires edits { AreFor start (length entries.items) (option_to_list first ++ more.items) }
    ensures { IsOpeningFor (λ l. leaf_of l.items) (λ o. leaf_of o.0) (λ o. o.1) start (leaf_of entries.items) (option_to_list first ++ more.items) result }
{
    let edits = count_edits(&first, &more);
    let most = entries.len().saturating_add(edits);
    if most > 2 * MAX_LEAF_ENTRIES {
        return Opening::Full(entries);
    }
    let Ok(back) = room_for_half(*entries.allocator(), most) else {
        return Opening::NoMemory(entries);
    };
    let Ok(()) = entries.reserve(edits) else {
        return Opening::NoMemory(entries);
    };
    Opening::Open(OpenLeaf {
        entries,
        back,
        start,
        first,
        more,
    })
}

/// How many edits there are. Where the largest number is returned there may be more.
fn count_edits<K, C>(first: &Option<Edit<K, C>>, more: &[Edit<K, C>]) -> usize
    ensures { result < 2 ^ 64 - 1 → result ≡ length (option_to_list first.now ++ more.now) }
{
    match first {
        Some(_) => more.len().saturating_add(1),
        None => more.len(),
    }
}

/// A vector without entries, with the capacity for half of so many if they are too many for one leaf.
fn room_for_half<T>(alloc: Global, most: usize) -> Result<Vec<T>, NoMemory>
    ensures empty { IfOk result (λ back. back.items ≡ []) }
    ensures capacity { IfOk result (λ back. MAX_LEAF_ENTRIES < most → most ≤ 2 * vec_capacity back) }
{
    if most <= MAX_LEAF_ENTRIES {
        return Ok(Vec::new(alloc));
    }
    Ok(Vec::with_capacity(alloc, most - most / 2)?)
}

impl<K: Ord + Dup, C: Dup> OpenLeaf<K, C> {
    /// The entries with all contents put, in two parts if they are too many for one leaf.
    pub fn finish(self) -> (Vec<(K, C)>, Vec<(K, C)>)
        ensures put { result.0.items ++ result.1.items ≡ self.1 }
        ensures some { 0 < length result.0.items }
        ensures sizes { (length result.0.items ≤ MAX_LEAF_ENTRIES) × (length result.1.items ≤ MAX_LEAF_ENTRIES) }
    {
        let OpenLeaf {
            mut entries,
            mut back,
            start,
            first,
            more,
        } = self;
        put_if_some(&mut entries, start, first);
        for edit in more {
            put_change(&mut entries, start, edit);
        }
        halve_if_long(&mut entries, &mut back);
        (entries, back)
    }

    /// The entries as they were.
    pub fn cancel(self) -> Vec<(K, C)>
        ensures { result.items ≡ self.0 }
    {
        self.entries
    }
}

/// Puts the content of an edit, if there is one, among entries that have the capacity for it.
fn put_if_some<K: Ord + Dup, C: Dup>(
    entries: &mut Vec<(K, C)>,
    start: usize,
    edit: Option<Edit<K, C>>,
)
    requires among { AreFor start (length entries.old.items) (option_to_list edit) }
    requires capacity { vec_len entries.old + length (option_to_list edit) ≤ vec_capacity entries.old }
    ensures entries { entries.new.items ≡ put_in_turn start entries.old.items (option_to_list edit) }
    ensures capacity { vec_capacity entries.old ≤ vec_capacity entries.new }
    ensures more { (vec_len entries.old ≤ vec_len entries.new) × (vec_len entries.new ≤ vec_len entries.old + length (option_to_list edit)) }
{
    match edit {
        Some(edit) => put_change(entries, start, edit),
        None => (),
    }
}

/// Puts the content of an edit among entries that have the capacity for it.
fn put_change<K: Ord + Dup, C: Dup>(entries: &mut Vec<(K, C)>, start: usize, edit: Edit<K, C>)
    requires among { IsAmong (length entries.old.items) (from_start start edit.index) }
    requires capacity { vec_len entries.old < vec_capacity entries.old }
    ensures entries { entries.new.items ≡ put_edit start entries.old.items edit }
    ensures capacity { vec_capacity entries.old ≤ vec_capacity entries.new }
    ensures more { (vec_len entries.old ≤ vec_len entries.new) × (vec_len entries.new ≤ vec_len entries.old + 1) }
{
    match from_start(&edit.index, start) {
        Ok(index) => entries[index].1 = edit.change.after,
        Err(index) => entries
            .insert(index, (edit.change.key, edit.change.after))
            .unwrap(),
    }
}
