//! Adds a slice of another row after all entries. Whole nodes are shared.

ghost use Rattle.std.specs.Prelude.{◌≡◌, ◌+◌, ◌<◌, ◌≤◌, ◌++◌, length, slice_range, IfOk, OnOk};
ghost use Rattle.std.specs.List.{AllByRecursion};
ghost use Rattle.pn_join.specs.NodeLeaves.{entries_in};
ghost use Rattle.pn_join.specs.Leaves.{all_entries, IsLeaf, IsLeafList};
ghost use Rattle.pn_join.specs.Nodes.{node_of};
ghost use Rattle.pn_join.specs.Tables.{IsTable};

use super::Row;
use crate::table::node::{Node, NodeRef};
use crate::{Dup, Join, NoMemory};
use std::alloc::Global;

impl<K: Ord + Dup, C: Join, T: Node<K, C>> Row<K, C, T> {
    /// Adds the other's entries from index `from` to before index `to` after all others.
    pub fn push_slice(&mut self, other: &Self, from: usize, to: usize) -> Result<(), NoMemory>
        requires order { from ≤ to }
        requires within { to ≤ length (entries_in other.now) }
        requires table { IsTable K.cmp C.valid (entries_in self.old ++ slice_range (entries_in other.now) from to) }
        ensures { OnOk result (entries_in self.new ≡ entries_in self.old ++ slice_range (entries_in other.now) from to) }
    {
        if from == to {
            return Ok(());
        }
        let first = other.part(from, to)?;
        let taken = from + first.node().sizes().entries;
        self.push_or_append(first)?;
        self.push_parts(other, taken, to)
    }

    /// Adds the same entries, each node's part as a node of its own.
    fn push_parts(&mut self, other: &Self, from: usize, to: usize) -> Result<(), NoMemory>
        requires order { from ≤ to }
        requires within { to ≤ length (entries_in other.now) }
        requires table { IsTable K.cmp C.valid (entries_in self.old ++ slice_range (entries_in other.now) from to) }
        ensures { OnOk result (entries_in self.new ≡ entries_in self.old ++ slice_range (entries_in other.now) from to) }
    {
        let mut taken = from;
        while taken < to {
            let node = other.part(taken, to)?;
            taken += node.node().sizes().entries;
            self.push(node)?;
        }
        Ok(())
    }

    /// A node of the entries from index `from` on, up to the end of their node or to before index `to`.
    fn part(&self, from: usize, to: usize) -> Result<NodeRef<T>, NoMemory>
        requires some { from < to }
        requires within { to ≤ length (entries_in self.now) }
        ensures some { IfOk result (λ node. 0 < length (T.leaves (node_of node))) }
        ensures leaf_list { IfOk result (λ node. IsLeafList K.cmp C.valid (T.leaves (node_of node))) }
        ensures within { IfOk result (λ node. from + length (all_entries (T.leaves (node_of node))) ≤ to) }
        ensures first { IfOk result (λ node. slice_range (entries_in self.now) from to
            ≡ all_entries (T.leaves (node_of node)) ++ slice_range (entries_in self.now) (from + length (all_entries (T.leaves (node_of node)))) to) }
    {
        let index = self.node_at(from);
        let start = self.start(index).entries;
        let node = &self.children[index];
        share_part(self.alloc(), node, from - start, to - start)
    }
}

/// A node of the entries from index `from` to before index `to` or to the end. A whole node is shared.
fn share_part<K: Ord + Dup, C: Join, T: Node<K, C>>(
    alloc: Global,
    node: &NodeRef<T>,
    from: usize,
    to: usize,
) -> Result<NodeRef<T>, NoMemory>
    requires leaf_list { IsLeafList K.cmp C.valid (T.leaves (node_of node.now)) }
    requires order { from ≤ to }
    requires within { from ≤ length (all_entries (T.leaves (node_of node.now))) }
    ensures part { IfOk result (λ part. all_entries (T.leaves (node_of part)) ≡ slice_range (all_entries (T.leaves (node_of node.now))) from to) }
    ensures sizes { IfOk result (λ part. AllByRecursion (λ leaf. IsLeaf leaf) (T.leaves (node_of part))) }
{
    let whole = node.node();
    let len = whole.sizes().entries;
    let end = to.min(len);
    if from == 0 && end == len {
        return T::share(node);
    }
    let part = whole.slice(from, end)?;
    Ok(part.seal(alloc))
}
