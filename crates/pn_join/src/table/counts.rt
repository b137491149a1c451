//! How many entries and leaves there are in a row of nodes, up to the end of each.

ghost use Rattle.std.specs.Prelude.{◌≡◌, ◌-◌, ◌<◌, ◌≤◌, leb, min, length, vec_len, vec_capacity, IfOk};
ghost use Rattle.std.specs.List.{prefix_len};
ghost use Rattle.std.specs.List.Sorted.{IsNonDecreasingBy};
ghost use Rattle.pn_join.specs.Counts.{entry_ends, leaf_ends, end_before, moved_from, CanMove};

use crate::NoMemory;
use std::alloc::Global;

/// For how many nodes a copy of a row has room at least: small rows grow by one or two while they are changed.
pub const COPY_CAPACITY: usize = 4;

/// How many entries and leaves.
#[derive(Clone, Copy)]
pub struct Sizes {
    pub entries: usize,
    pub leaves: usize,
}

/// How many there are before a node.
pub fn start_of(ends: &[Sizes], index: usize) -> Sizes
    requires { index ≤ length ends.now }
    ensures entries { result.entries ≡ end_before index (entry_ends ends.now) }
    ensures leaves { result.leaves ≡ end_before index (leaf_ends ends.now) }
{
    if index == 0 {
        return Sizes {
            entries: 0,
            leaves: 0,
        };
    }
    ends[index - 1]
}

/// The node with the entry at an index.
pub fn node_of_entry(ends: &[Sizes], index: usize) -> usize
    requires { IsNonDecreasingBy (λ end. end.entries) ends.now }
    ensures { result ≡ prefix_len (λ end. leb end index) (entry_ends ends.now) }
{
    ends.partition_point(|end| end.entries <= index)
}

/// The node that an entry with this index comes into, which is the last if it comes after all others, and how many entries
/// come before the node.
pub fn node_for_entry(ends: &[Sizes], index: usize) -> (usize, usize)
    requires some { 0 < length ends.now }
    requires rise { IsNonDecreasingBy (λ end. end.entries) ends.now }
    ensures node { result.0 ≡ min (prefix_len (λ end. leb end index) (entry_ends ends.now)) (length ends.now - 1) }
    ensures start { result.1 ≡ end_before result.0 (entry_ends ends.now) }
{
    let last = ends.len() - 1;
    let node = node_of_entry(ends, index).min(last);
    (node, start_of(ends, node).entries)
}

/// The node with the leaf at an index.
pub fn node_of_leaf(ends: &[Sizes], index: usize) -> usize
    requires { IsNonDecreasingBy (λ end. end.leaves) ends.now }
    ensures { result ≡ prefix_len (λ end. leb end index) (leaf_ends ends.now) }
{
    ends.partition_point(|end| end.leaves <= index)
}

/// Moves the ends from a node's on, where that was at `was` and is now at `is`.
pub fn move_ends(ends: &mut Vec<Sizes>, from: usize, was: Sizes, is: Sizes)
    requires entries { CanMove from was.entries is.entries (entry_ends ends.old.items) }
    requires leaves { CanMove from was.leaves is.leaves (leaf_ends ends.old.items) }
    ensures entries { entry_ends ends.new.items ≡ moved_from from was.entries is.entries (entry_ends ends.old.items) }
    ensures leaves { leaf_ends ends.new.items ≡ moved_from from was.leaves is.leaves (leaf_ends ends.old.items) }
    ensures len { vec_len ends.new ≡ vec_len ends.old }
    ensures capacity { vec_capacity ends.new ≡ vec_capacity ends.old }
{
    if was.entries == is.entries && was.leaves == is.leaves {
        return;
    }
    let mut index = from;
    while index < ends.len() {
        let end = ends[index];
        ends[index] = Sizes {
            entries: end.entries - was.entries + is.entries,
            leaves: end.leaves - was.leaves + is.leaves,
        };
        index += 1;
    }
}

/// A copy of the ends.
pub fn copy_ends(alloc: Global, ends: &[Sizes]) -> Result<Vec<Sizes>, NoMemory>
    ensures { IfOk result (λ copy. copy.items ≡ ends.now) }
{
    let mut copy = Vec::with_capacity(alloc, ends.len().max(COPY_CAPACITY))?;
    for end in ends {
        copy.push_reserved(*end);
    }
    Ok(copy)
}
