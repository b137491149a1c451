//! Leaves: short vectors of entries.

ghost use Rattle.std.specs.Prelude.{◌≡◌, ◌<◌, ◌≤◌, [], ◌++◌, length, reverse, option_map, unwrap_or, slice_get, IsTrue, IfOk, IfSome};
ghost use Rattle.std.specs.Option.{option_copied};
ghost use Rattle.std.specs.FinMap.{find, is_sorted};
ghost use Rattle.pn_join.specs.Indices.{index_of};
ghost use Rattle.pn_join.specs.Leaves.{ends_below};
ghost use Rattle.pn_join.specs.Nodes.{leaf_of};

use crate::table::counts::Sizes;
use crate::table::edit::Edit;
use crate::table::leaf_join::{
    MAX_LEAF_ENTRIES, binary_search, halve_if_long, join_one, move_from,
};
use crate::table::node::{Node, Opening};
use crate::table::open_leaf::{OpenLeaf, open_leaf};
use crate::{Dup, Join, NoMemory};
use std::alloc::Global;
use std::mem;

/// Leaves with fewer entries are copied rather than shared.
const FEWEST_SHARED: usize = 16;

impl<K: Ord + Dup, C: Join> Node<K, C> for Vec<(K, C)> {
    ghost use Rattle.std.specs.Prelude.{length, ◌+◌, ◌≤◌};
    ghost use Rattle.pn_join.specs.Leaves.{all_entries};
    ghost use Rattle.pn_join.specs.Nodes.{leaf_of};
    ghost use Rattle.pn_join.specs.declared.table.leaf_join.TheConstants.{MAX_LEAF_ENTRIES};

    type Open = OpenLeaf<K, C>;

    ghost leaves = { λ leaf. leaf_of leaf.items };

    ghost was = { λ opened. leaf_of opened.0 };

    ghost becomes = { λ opened. opened.1 };

    ghost has_room = { λ leaf other. length (all_entries leaf) + length (all_entries other) ≤ MAX_LEAF_ENTRIES };

    fn none(alloc: Global) -> Self {
        Vec::new(alloc)
    }

    fn is_short(&self) -> bool {
        self.len() < FEWEST_SHARED
    }

    fn copy(&self) -> Result<Self, NoMemory> {
        let capacity = if self.is_short() { 0 } else { MAX_LEAF_ENTRIES };
        copy_entries(*self.allocator(), capacity, self)
    }

    fn sizes(&self) -> Sizes {
        let entries = self.len();
        Sizes {
            entries,
            leaves: entries.min(1),
        }
    }

    fn last_key(&self) -> Option<&K> {
        let (last, _) = self.last()?;
        Some(last)
    }

    fn find(&self, key: &K) -> (Result<usize, usize>, Option<&C>) {
        find_in(self, key)
    }

    fn entries_from(&self, index: usize) -> &[(K, C)] {
        self.get(index..).unwrap_or_default()
    }

    fn leaf(&self, index: usize) -> Option<&[(K, C)]> {
        if index > 0 || self.is_empty() {
            return None;
        }
        Some(self)
    }

    fn slice(&self, from: usize, to: usize) -> Result<Self, NoMemory> {
        copy_entries(*self.allocator(), 0, &self[from..to])
    }

    fn of_next(alloc: Global, left: &mut Vec<(K, C)>) -> Result<Self, NoMemory> {
        take_leaf(alloc, left)
    }

    fn has_room_for(&self, other: &Self) -> bool {
        self.len().saturating_add(other.len()) <= MAX_LEAF_ENTRIES
    }

    fn append(&mut self, mut other: Self) -> Result<(), NoMemory> {
        Ok(Vec::append(self, &mut other)?)
    }

    fn join_at(
        &mut self,
        index: Result<usize, usize>,
        key: K,
        content: C,
    ) -> Result<Option<Self>, NoMemory> {
        let capacity = if self.len() < MAX_LEAF_ENTRIES {
            0
        } else {
            MAX_LEAF_ENTRIES / 2 + 1
        };
        let mut back = Vec::with_capacity(*self.allocator(), capacity)?;
        join_one(self, index, key, content)?;
        halve_if_long(self, &mut back);
        Ok(if_some(back))
    }

    fn open(self, edits: &mut Vec<Edit<K, C>>, start: usize) -> Opening<Self, OpenLeaf<K, C>> {
        open_leaf(self, edits, start)
    }

    fn finish(opened: OpenLeaf<K, C>) -> (Self, Option<Self>) {
        let (front, back) = opened.finish();
        (front, if_some(back))
    }

    fn cancel(opened: OpenLeaf<K, C>) -> Self {
        opened.cancel()
    }
}

/// The index of a key in a leaf, and the content at the key.
fn find_in<'l, K: Ord, C>(entries: &'l [(K, C)], key: &K) -> (Result<usize, usize>, Option<&'l C>)
    requires { IsTrue (is_sorted K.cmp entries.now) }
    ensures index { result.0 ≡ index_of K.cmp key.now entries.now }
    ensures found { option_copied result.1 ≡ find K.cmp key.now entries.now }
{
    let index = binary_search(entries, key);
    match index {
        Ok(place) => (index, content_of(entries, place)),
        Err(_) => (index, None),
    }
}

/// The content of an entry.
fn content_of<K, C>(entries: &[(K, C)], index: usize) -> Option<&C>
    ensures { option_copied result ≡ option_map (λ e. e.1) (slice_get entries.now index) }
{
    let (_, content) = entries.get(index)?;
    Some(content)
}

/// Whether the last key is less than this one.
pub fn is_last_below<K: Ord, C>(entries: &[(K, C)], key: &K) -> bool
    ensures { result ≡ ends_below K.cmp key.now entries.now }
{
    match entries.last() {
        Some((last, _)) => last.cmp(key).is_lt(),
        None => false,
    }
}

/// The leaf, if it has entries.
fn if_some<T: Drop>(leaf: Vec<T>) -> Option<Vec<T>>
    ensures leaf { unwrap_or (option_map (λ l. leaf_of l.items) result) [] ≡ leaf_of leaf.items }
    ensures some { IfSome result (λ l. 0 < length l.items) }
{
    if leaf.is_empty() {
        return None;
    }
    Some(leaf)
}

/// Copies the entries into a vector of at least this capacity.
pub fn copy_entries<K: Dup, C: Dup>(
    alloc: Global,
    capacity: usize,
    entries: &[(K, C)],
) -> Result<Vec<(K, C)>, NoMemory>
    ensures { IfOk result (λ copy. copy.items ≡ entries.now) }
{
    prefetch(entries);
    let mut copy = Vec::with_capacity(alloc, capacity.max(entries.len()))?;
    for (key, content) in entries {
        copy.push_reserved((key.dup()?, content.dup()?));
    }
    Ok(copy)
}

/// Brings what copies of the entries will need into the cache.
fn prefetch<K: Dup, C: Dup>(entries: &[(K, C)]) {
    for (key, content) in entries {
        key.prefetch();
        content.prefetch();
    }
}

/// Takes the next entries of those that are left, of which the next is the last: as many as a leaf may have.
fn take_leaf<T>(alloc: Global, left: &mut Vec<T>) -> Result<Vec<T>, NoMemory>
    ensures parted { IfOk result (λ leaf. leaf.items ++ reverse left.new.items ≡ reverse left.old.items) }
    ensures some { IfOk result (λ leaf. 0 < length left.old.items → 0 < length leaf.items) }
    ensures size { IfOk result (λ leaf. length leaf.items ≤ MAX_LEAF_ENTRIES) }
{
    if left.len() <= MAX_LEAF_ENTRIES {
        let mut all = mem::replace(left, Vec::new(alloc));
        all.reverse();
        return Ok(all);
    }
    let rest = left.len() - MAX_LEAF_ENTRIES;
    let mut leaf = Vec::with_capacity(alloc, MAX_LEAF_ENTRIES)?;
    move_from(left, rest, &mut leaf);
    Ok(leaf)
}
