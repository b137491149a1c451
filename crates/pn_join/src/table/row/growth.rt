//! Nodes that are added after all others, and taken off again.

ghost use Rattle.std.specs.Prelude.{◌≡◌, ◌^◌, ◌<◌, ◌≤◌, ◌∷◌, [], ◌++◌, length, get_or, take, drop, option_map, unwrap_or, IfOk, IfSome, OnOk, OnErr};
ghost use Rattle.std.specs.List.{AllByRecursion};
ghost use Rattle.std.specs.Option.{option_to_list};
ghost use Rattle.pn_join.specs.NodeLeaves.{entries_in, AreNodes};
ghost use Rattle.pn_join.specs.Counts.{AreCounts};
ghost use Rattle.pn_join.specs.Leaves.{all_entries, IsLeaf, IsLeafList};
ghost use Rattle.pn_join.specs.Nodes.{each_child, node_of};
ghost use Rattle.pn_join.specs.Tables.{IsTable};

use super::{MAX_CHILDREN, Row};
use crate::table::counts::Sizes;
use crate::table::node::{Node, NodeRef};
use crate::{Dup, Join, NoMemory};
use std::alloc::Global;
use std::marker::PhantomData;

impl<K: Ord + Dup, C: Join, T: Node<K, C>> Row<K, C, T> {
    /// Adds a node after all others. An error leaves the row as it was.
    pub fn push(&mut self, child: NodeRef<T>) -> Result<(), NoMemory>
        requires table { IsTable K.cmp C.valid (entries_in self.old ++ all_entries (T.leaves (node_of child))) }
        requires some { 0 < length (T.leaves (node_of child)) }
        requires sizes { AllByRecursion (λ leaf. IsLeaf leaf) (T.leaves (node_of child)) }
        ensures ok { OnOk result (self.new ≡ self.old ++ T.leaves (node_of child) ∷ []) }
        ensures err { OnErr result (self.new ≡ self.old) }
    {
        let all = self.all_sizes();
        let more = child.node().sizes();
        let Some(entries) = all.entries.checked_add(more.entries) else {
            return Err(NoMemory);
        };
        let Some(leaves) = all.leaves.checked_add(more.leaves) else {
            return Err(NoMemory);
        };
        self.children.reserve(1)?;
        self.ends.reserve(1)?;
        self.children.push_reserved(child);
        self.ends.push_reserved(Sizes { entries, leaves });
        add_hint(&mut self.hints, &self.children);
        Ok(())
    }

    /// Takes off the last node.
    fn pop(&mut self) -> Option<NodeRef<T>>
        ensures last { self.old ≡ self.new ++ option_to_list (option_map (λ child. T.leaves (node_of child)) result) }
        ensures row { AreNodes K.cmp C.valid self.old }
    {
        let _ = self.ends.pop();
        let last = self.children.pop();
        self.hints.truncate(self.children.len().saturating_sub(1));
        last
    }

    /// Adds the entries of a node after all others: to the last node if that has room, otherwise as one more.
    pub(super) fn push_or_append(&mut self, child: NodeRef<T>) -> Result<(), NoMemory>
        requires table { IsTable K.cmp C.valid (entries_in self.old ++ all_entries (T.leaves (node_of child))) }
        requires some { 0 < length (T.leaves (node_of child)) }
        requires sizes { AllByRecursion (λ leaf. IsLeaf leaf) (T.leaves (node_of child)) }
        ensures { OnOk result (entries_in self.new ≡ entries_in self.old ++ all_entries (T.leaves (node_of child))) }
    {
        match self.pop() {
            Some(last) => self.push_both(last, child),
            None => self.push(child),
        }
    }

    /// Adds the entries of two nodes after all others, as one node if the first has room.
    fn push_both(&mut self, mut first: NodeRef<T>, mut second: NodeRef<T>) -> Result<(), NoMemory>
        requires table { IsTable K.cmp C.valid (entries_in self.old ++ (all_entries (T.leaves (node_of first)) ++ all_entries (T.leaves (node_of second)))) }
        requires some { (0 < length (T.leaves (node_of first))) × (0 < length (T.leaves (node_of second))) }
        requires sizes { AllByRecursion (λ leaf. IsLeaf leaf) (T.leaves (node_of first)) × AllByRecursion (λ leaf. IsLeaf leaf) (T.leaves (node_of second)) }
        ensures { OnOk result (entries_in self.new ≡ entries_in self.old ++ (all_entries (T.leaves (node_of first)) ++ all_entries (T.leaves
            (node_of second)))) }
    {
        if !first.node().has_room_for(second.node()) {
            self.push(first)?;
            return self.push(second);
        }
        let alloc = self.alloc();
        let mut both = T::take(&mut first, alloc)?;
        both.append(T::take(&mut second, alloc)?)?;
        self.push(both.seal(alloc))
    }

    /// Takes off the second half of the nodes if there are too many and there is memory. No leaf changes.
    pub(super) fn split_if_long(&mut self) -> Option<Self>
        ensures whole { self.old ≡ self.new ++ unwrap_or result [] }
        ensures some { (0 < length self.old) → 0 < length self.new }
        ensures back { IfSome result (λ back. 0 < length back) }
    {
        let count = self.children.len();
        if count <= MAX_CHILDREN {
            return None;
        }
        self.split(count / 2).ok()
    }

    /// Takes off the nodes from an index on. An error leaves them.
    fn split(&mut self, index: usize) -> Result<Self, NoMemory>
        requires { index ≤ length self.old }
        ensures ok { IfOk result (λ back. (self.new ≡ take index self.old) × (back ≡ drop index self.old)) }
        ensures err { OnErr result (self.new ≡ self.old) }
    {
        let ends = ends_of(self.alloc(), &self.children[index..])?;
        let known = index.min(self.hints.len());
        let hints = self.hints.split_off(known)?;
        let children = self.children.split_off(index)?;
        self.hints.truncate(index.saturating_sub(1));
        self.ends.truncate(index);
        Ok(Row {
            children,
            ends,
            hints,
            contents: PhantomData,
        })
    }
}

/// Adds the last key of the node before the last to the hints, if there is memory for it.
fn add_hint<K: Ord + Dup, C: Join, T: Node<K, C>>(hints: &mut Vec<K>, children: &[NodeRef<T>])
    requires { AreNodes K.cmp C.valid (each_child T.leaves children.now) }
{
    let known = hints.len();
    if children.len().saturating_sub(known) == 2 {
        insert_hint(hints, children, known);
    }
}

/// Adds the last key of a node to the hints, if there is memory for it.
pub fn insert_hint<K: Ord + Dup, C: Join, T: Node<K, C>>(
    hints: &mut Vec<K>,
    children: &[NodeRef<T>],
    index: usize,
)
    requires { IsLeafList K.cmp C.valid (get_or (each_child T.leaves children.now) index []) }
{
    if index > hints.len() {
        return;
    }
    if let Some(Ok(key)) = copy_last_key(children, index) {
        let _ = hints.insert(index, key);
    }
}

/// A copy of the last key of a node. `None` past the last.
fn copy_last_key<K: Ord + Dup, C: Join, T: Node<K, C>>(
    children: &[NodeRef<T>],
    index: usize,
) -> Option<Result<K, NoMemory>>
    requires { IsLeafList K.cmp C.valid (get_or (each_child T.leaves children.now) index []) }
{
    let last = children.get(index)?.node().last_key()?;
    Some(last.dup())
}

/// The counts up to the end of each node.
fn ends_of<K: Ord + Dup, C: Join, T: Node<K, C>>(
    alloc: Global,
    children: &[NodeRef<T>],
) -> Result<Vec<Sizes>, NoMemory>
    requires leaf_lists { AllByRecursion (λ node. IsLeafList K.cmp C.valid node) (each_child T.leaves children.now) }
    requires fits { (length (entries_in (each_child T.leaves children.now)) < 2 ^ 64) × (length (all_entries (each_child T.leaves children.now)) < 2 ^ 64) }
    ensures { IfOk result (λ ends. AreCounts (each_child T.leaves children.now) ends.items) }
{
    let mut ends = Vec::with_capacity(alloc, children.len())?;
    let mut entries = 0_usize;
    let mut leaves = 0_usize;
    for child in children {
        let more = child.node().sizes();
        entries += more.entries;
        leaves += more.leaves;
        ends.push_reserved(Sizes { entries, leaves });
    }
    Ok(ends)
}
