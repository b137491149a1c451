//! Rows of nodes, where a search looks into one node.
//!
//! A table is a row of rows of leaves. Copies of a table share whole nodes, each by one count, so a copy or a slice of a million
//! entries takes some 300 counts. A change of a shared row copies it, and then the node that changes.
//!
//! Each node has at least one leaf. A row that gets more than `MAX_CHILDREN` nodes is divided, if there is memory, and its second half
//! goes to the row above; the uppermost is not divided. A search takes a logarithm of the nodes of each row on its way; a join
//! changes the counts of the nodes after its own.

ghost use Rattle.std.specs.Prelude.{◌≡◌, ◌^◌, ◌<◌, ◌≤◌, leb, [], ◌++◌, length, take, drop, ◌+◌, ◌↔◌, option_map, slice_get, IsTrue, IfOk, IfSome};
ghost use Rattle.std.specs.List.{prefix_len};
ghost use Rattle.pn_join.specs.NodeLeaves.{in_nodes, entries_in, AreNodes};
ghost use Rattle.pn_join.specs.Leaves.{all_entries, counts_after, IsLeafList};
ghost use Rattle.pn_join.specs.Nodes.{each_child};

mod as_node;
mod building;
mod growth;
mod joins;
mod opening;
mod search;
mod slices;

use crate::table::counts::{
    COPY_CAPACITY, Sizes, copy_ends, node_of_entry, node_of_leaf, start_of,
};
use crate::table::node::{Node, NodeRef};
use crate::{Dup, Join, NoMemory};
pub use opening::{OpenRow, Taken};
use std::alloc::Global;
use std::marker::{Model, PhantomData};

/// A row with more nodes is divided in two.
pub const MAX_CHILDREN: usize = 128;

/// Rows with fewer nodes are copied rather than shared: a small table takes no memory for a count.
const FEWEST_SHARED: usize = 8;

/// Nodes in key order, each with at least one leaf.
#[derive(Drop)]
pub struct Row<K: Ord + Dup, C: Join, T: Node<K, C>> {
    children: Vec<NodeRef<T>>,
    // How many entries and leaves there are up to the end of each.
    ends: Vec<Sizes>,
    // The last keys of all but the last, where a search looks first. They are hints: a wrong or missing one only costs time.
    hints: Vec<K>,
    contents: PhantomData<C>,
}

impl<K: Ord + Dup, C: Join, T: Node<K, C>> Model for Row<K, C, T> {
    ghost use Rattle.std.specs.Prelude.{List};

    ghost Value = { List (List (List (K × C))) };

    ghost use Rattle.pn_join.specs.NodeLeaves.{AreNodes};
    ghost use Rattle.pn_join.specs.Counts.{AreCounts};
    ghost use Rattle.pn_join.specs.Nodes.{each_child};

    ghost view = { λ row. each_child T.leaves row.children.items };

    ghost invariant = { λ row. AreNodes K.cmp C.valid (each_child T.leaves row.children.items)
        × AreCounts (each_child T.leaves row.children.items) row.ends.items };
}

impl<K: Ord + Dup, C: Join, T: Node<K, C>> Row<K, C, T> {
    /// No nodes. Those to come take memory from `alloc`.
    pub fn new(alloc: Global) -> Self
        ensures { result ≡ [] }
    {
        Row {
            children: Vec::new(alloc),
            ends: Vec::new(alloc),
            hints: Vec::new(alloc),
            contents: PhantomData,
        }
    }

    /// Where the nodes take memory.
    pub fn alloc(&self) -> Global {
        *self.children.allocator()
    }

    /// Whether there are no nodes.
    pub fn is_empty(&self) -> bool
        ensures { IsTrue result ↔ (length self.now ≡ 0) }
    {
        self.children.is_empty()
    }

    /// Recalls for the prover that these are the nodes of a table.
    pub fn recall_row(&self)
        ensures { AreNodes K.cmp C.valid self.now }
    {
        let _ = self.children.len();
    }

    /// How many entries and leaves there are.
    pub fn all_sizes(&self) -> Sizes
        ensures entries { result.entries ≡ length (entries_in self.now) }
        ensures leaves { result.leaves ≡ length (all_entries self.now) }
        ensures row { AreNodes K.cmp C.valid self.now }
    {
        self.start(self.children.len())
    }

    /// How many entries and leaves come before a node.
    fn start(&self, index: usize) -> Sizes
        requires { index ≤ length self.now }
        ensures entries { result.entries ≡ length (all_entries (take index (in_nodes self.now))) }
        ensures leaves { result.leaves ≡ length (all_entries (take index self.now)) }
        ensures fits { (length (entries_in self.now) < 2 ^ 64) × (length (all_entries self.now) < 2 ^ 64) }
        ensures row { AreNodes K.cmp C.valid self.now }
    {
        start_of(&self.ends, index)
    }

    /// The node with the entry at an index.
    fn node_at(&self, index: usize) -> usize
        ensures node { result ≡ prefix_len (λ end. leb end index) (counts_after 0 (in_nodes self.now)) }
        ensures within { result ≤ length self.now }
        ensures row { AreNodes K.cmp C.valid self.now }
    {
        node_of_entry(&self.ends, index)
    }

    /// The node with the leaf at an index.
    fn node_of_leaf(&self, index: usize) -> usize
        ensures node { result ≡ prefix_len (λ end. leb end index) (counts_after 0 self.now) }
        ensures within { result ≤ length self.now }
        ensures row { AreNodes K.cmp C.valid self.now }
    {
        node_of_leaf(&self.ends, index)
    }

    /// The node at an index, of which no more is said. `None` past the last.
    fn any_child(&self, index: usize) -> Option<&T>
        ensures node { option_map (λ node. T.leaves node.now) result ≡ slice_get self.now index }
        ensures row { AreNodes K.cmp C.valid self.now }
    {
        let child = self.children.get(index)?;
        Some(child.node())
    }

    /// The node at an index. `None` past the last.
    fn child(&self, index: usize) -> Option<&T>
        ensures node { option_map (λ node. T.leaves node.now) result ≡ slice_get self.now index }
        ensures leaf_list { IfSome result (λ node. IsLeafList K.cmp C.valid (T.leaves node.now)) }
        ensures row { AreNodes K.cmp C.valid self.now }
    {
        let child = self.any_child(index)?;
        Some(child)
    }

    /// The entries from an index on that lie in one leaf.
    pub fn rest_of_leaf(&self, index: usize) -> &[(K, C)]
        ensures first { drop index (entries_in self.now) ≡ result.now ++ drop (index + length result.now) (entries_in self.now) }
        ensures some { index < length (entries_in self.now) → 0 < length result.now }
        ensures fits { length (entries_in self.now) < 2 ^ 64 }
    {
        let node = self.node_at(index);
        let start = self.start(node).entries;
        match self.child(node) {
            Some(node) => node.entries_from(index.saturating_sub(start)),
            None => &[],
        }
    }

    /// The entries of the leaf at an index. `None` past the last.
    fn leaf_at(&self, index: usize) -> Option<&[(K, C)]>
        ensures { option_map (λ leaf. leaf.now) result ≡ slice_get (all_entries self.now) index }
    {
        let node = self.node_of_leaf(index);
        let start = self.start(node).leaves;
        match self.child(node) {
            Some(node) => node.leaf(index.saturating_sub(start)),
            None => None,
        }
    }

    /// An equal row. Nodes are shared where possible.
    fn share_all(&self) -> Result<Self, NoMemory>
        ensures { IfOk result (λ copy. copy ≡ self.now) }
    {
        let alloc = self.alloc();
        Ok(Row {
            children: share_children(alloc, &self.children)?,
            ends: copy_ends(alloc, &self.ends)?,
            hints: copy_keys(alloc, &self.hints)?,
            contents: PhantomData,
        })
    }
}

/// The same nodes, shared where possible.
fn share_children<K: Ord + Dup, C: Join, T: Node<K, C>>(
    alloc: Global,
    children: &[NodeRef<T>],
) -> Result<Vec<NodeRef<T>>, NoMemory>
    ensures { IfOk result (λ copy. each_child T.leaves copy.items ≡ each_child T.leaves children.now) }
{
    let mut copy = Vec::with_capacity(alloc, children.len().max(COPY_CAPACITY))?;
    for child in children {
        copy.push_reserved(T::share(child)?);
    }
    Ok(copy)
}

/// Copies of the keys.
fn copy_keys<K: Dup>(alloc: Global, keys: &[K]) -> Result<Vec<K>, NoMemory> {
    let mut copies = Vec::with_capacity(alloc, keys.len())?;
    for key in keys {
        copies.push(key.dup()?)?;
    }
    Ok(copies)
}
