//! Nodes of a table: leaves, and rows of nodes.

ghost use Rattle.std.specs.Prelude.{◌≡◌, ◌^◌, ◌+◌, ◌<◌, ◌≤◌, [], ◌++◌, List, Result, Option, length, reverse, drop, option_map};
ghost use Rattle.std.specs.Prelude.{slice_get, slice_range, IsTrue, IfOk, OnOk, OnErr};
ghost use Rattle.std.specs.List.{AllByRecursion};
ghost use Rattle.std.specs.Option.{option_copied};
ghost use Rattle.std.specs.FinMap.{find};
ghost use Rattle.pn_join.specs.Edits.{AreEditsWithin};
ghost use Rattle.pn_join.specs.Indices.{index_of};
ghost use Rattle.pn_join.specs.Leaves.{all_entries, last_of, IsLeaf, IsLeafList};
ghost use Rattle.pn_join.specs.Nodes.{both, node_of, AreParts};
ghost use Rattle.pn_join.specs.Openings.{IsOpening};
ghost use Rattle.pn_join.specs.PutAt.{IsJoinedAt, MayPutAt};
ghost use Rattle.pn_join.specs.PutInLeaves.{ChangesOneLeaf};
ghost use Rattle.pn_join.specs.Tables.{IsTable};

use crate::table::counts::Sizes;
use crate::table::edit::Edit;
use crate::{Dup, Join, NoMemory};
use std::alloc::Global;
use std::mem;
use std::sync::Arc;

/// A node, which copies of a table may share. A shared one is never changed.
#[derive(Drop)]
pub enum NodeRef<T> {
    Own(T),
    Shared(Arc<T>),
}

impl<T> NodeRef<T> {
    /// The node.
    pub fn node(&self) -> &T
        ensures { result.now ≡ node_of self.now }
    {
        match self {
            NodeRef::Own(node) => node,
            NodeRef::Shared(node) => node,
        }
    }
}

/// A node that is open for edits, or the node where they don't fit, or where memory ran out.
#[derive(Drop)]
pub enum Opening<T, O> {
    Open(O),
    Full(T),
    NoMemory(T),
}

/// A part of a table: a leaf, or a row of nodes. It has leaves of 1 to 64 entries each, whose keys rise from leaf to leaf.
pub trait Node<K: Ord + Dup, C: Join>: Sized + Drop {
    /// The node while it is open: it has all memory that its edits need, so that putting their contents cannot fail.
    type Open: Drop;

    ghost leaves: { Self → List (List (K × C)) };

    // the leaves before it was opened, and its entries with all contents put
    ghost was: { Self.Open → List (List (K × C)) };

    ghost becomes: { Self.Open → List (K × C) };

    // the entries of a node with the second leaves may be added to one with the first
    ghost has_room: { List (List (K × C)) → List (List (K × C)) → Type 0 };

    /// A node without entries.
    fn none(alloc: Global) -> Self
        ensures { leaves result ≡ [] };

    /// Whether it is copied rather than shared: copying is as fast, and takes no memory for a count.
    fn is_short(&self) -> bool;

    /// An equal node. Its children are shared where possible.
    fn copy(&self) -> Result<Self, NoMemory>
        ensures { IfOk result (λ copy. leaves copy ≡ leaves self.now) };

    /// How many entries and leaves it has.
    fn sizes(&self) -> Sizes
        requires { IsLeafList K.cmp C.valid (leaves self.now) }
        ensures entries { result.entries ≡ length (all_entries (leaves self.now)) }
        ensures leaves { result.leaves ≡ length (leaves self.now) };

    /// Its last key.
    fn last_key(&self) -> Option<&K>
        requires { IsLeafList K.cmp C.valid (leaves self.now) }
        ensures { option_copied result ≡ option_map (λ e. e.0) (last_of (all_entries (leaves self.now))) };

    /// The index of a key among the entries, and the content at the key.
    fn find(&self, key: &K) -> (Result<usize, usize>, Option<&C>)
        requires { IsLeafList K.cmp C.valid (leaves self.now) }
        ensures index { result.0 ≡ index_of K.cmp key.now (all_entries (leaves self.now)) }
        ensures found { option_copied result.1 ≡ find K.cmp key.now (all_entries (leaves self.now)) };

    /// The entries from an index on that lie in one leaf.
    fn entries_from(&self, index: usize) -> &[(K, C)]
        requires { IsLeafList K.cmp C.valid (leaves self.now) }
        ensures first { drop index (all_entries (leaves self.now)) ≡ result.now ++ drop (index + length result.now) (all_entries (leaves self.now)) }
        ensures some { index < length (all_entries (leaves self.now)) → 0 < length result.now };

    /// The entries of the leaf at an index. `None` past the last.
    fn leaf(&self, index: usize) -> Option<&[(K, C)]>
        requires { IsLeafList K.cmp C.valid (leaves self.now) }
        ensures { option_map (λ leaf. leaf.now) result ≡ slice_get (leaves self.now) index };

    /// A node of the entries from index `from` to before index `to`. Whole leaves are shared.
    fn slice(&self, from: usize, to: usize) -> Result<Self, NoMemory>
        requires leaf_list { IsLeafList K.cmp C.valid (leaves self.now) }
        requires order { from ≤ to }
        requires within { to ≤ length (all_entries (leaves self.now)) }
        ensures part { IfOk result (λ part. all_entries (leaves part) ≡ slice_range (all_entries (leaves self.now)) from to) }
        ensures sizes { IfOk result (λ part. AllByRecursion (λ leaf. IsLeaf leaf) (leaves part)) };

    /// A node of the next entries of those that are left, of which the next is the last: as many as it takes.
    fn of_next(alloc: Global, left: &mut Vec<(K, C)>) -> Result<Self, NoMemory>
        requires { IsTable K.cmp C.valid (reverse left.old.items) }
        ensures parted { IfOk result (λ node. all_entries (leaves node) ++ reverse left.new.items ≡ reverse left.old.items) }
        ensures some { IfOk result (λ node. 0 < length left.old.items → 0 < length (leaves node)) }
        ensures sizes { IfOk result (λ node. AllByRecursion (λ leaf. IsLeaf leaf) (leaves node)) };

    /// Whether the other's entries may be added to this node.
    fn has_room_for(&self, other: &Self) -> bool
        ensures { IsTrue result → has_room (leaves self.now) (leaves other.now) };

    /// Adds the other's entries after all others.
    fn append(&mut self, other: Self) -> Result<(), NoMemory>
        requires room { has_room (leaves self.old) (leaves other) }
        requires some { 0 < length (leaves self.old) }
        requires sizes { AllByRecursion (λ leaf. IsLeaf leaf) (leaves self.old) × AllByRecursion (λ leaf. IsLeaf leaf) (leaves other) }
        requires table { IsTable K.cmp C.valid (all_entries (leaves self.old) ++ all_entries (leaves other)) }
        ensures both { OnOk result (all_entries (leaves self.new) ≡ all_entries (leaves self.old) ++ all_entries (leaves other)) }
        ensures sizes { OnOk result (AllByRecursion (λ leaf. IsLeaf leaf) (leaves self.new)) };

    /// Joins a content into that at the key, which has this index. One leaf is changed or cut in two. Returns what no
    /// longer fits, if anything. An error leaves the node as it was.
    fn join_at(
        &mut self,
        index: Result<usize, usize>,
        key: K,
        content: C,
    ) -> Result<Option<Self>, NoMemory>
        requires valid { C.valid content }
        requires node { IsLeafList K.cmp C.valid (leaves self.old) × (0 < length (leaves self.old)) }
        requires place { MayPutAt K.cmp C.valid index key (all_entries (leaves self.old)) }
        ensures ok { IfOk result (λ back. IsJoinedAt C.meaning C.joined C.valid index key content
            (all_entries (leaves self.old)) (all_entries (both (leaves self.new) (option_map leaves back)))) }
        ensures one { IfOk result (λ back. ChangesOneLeaf (leaves self.old) (both (leaves self.new) (option_map leaves back))) }
        ensures parts { IfOk result (λ back. AreParts (leaves self.new) (option_map leaves back)) }
        ensures err { OnErr result (leaves self.new ≡ leaves self.old) };

    /// Takes the edits from index `start` on off the end, and makes the node ready for them, where `start` is the index of its
    /// first entry.
    fn open(self, edits: &mut Vec<Edit<K, C>>, start: usize) -> Opening<Self, Self::Open>
        requires node { IsLeafList K.cmp C.valid (leaves self) × (0 < length (leaves self)) }
        requires edits { AreEditsWithin (start + length (all_entries (leaves self))) edits.old.items }
        ensures { IsOpening leaves was becomes start (leaves self) edits.old.items edits.new.items result };

    /// The node with all contents put, and what no longer fits, if anything.
    fn finish(opened: Self::Open) -> (Self, Option<Self>)
        requires table { IsTable K.cmp C.valid (becomes opened) }
        requires fits { length (becomes opened) < 2 ^ 64 }
        ensures put { all_entries (both (leaves result.0) (option_map leaves result.1)) ≡ becomes opened }
        ensures parts { AreParts (leaves result.0) (option_map leaves result.1) };

    /// The node as it was.
    fn cancel(opened: Self::Open) -> Self
        ensures { leaves result ≡ was opened };

    /// Makes it shareable, unless it is short or memory runs out.
    final fn seal(self, alloc: Global) -> NodeRef<Self>
        ensures { node_of result ≡ self }
    {
        if self.is_short() {
            return NodeRef::Own(self);
        }
        match Arc::new(alloc, self) {
            Ok(shared) => NodeRef::Shared(shared),
            Err(refused) => NodeRef::Own(refused.value),
        }
    }

    /// The same node, shared if possible.
    final fn share(node: &NodeRef<Self>) -> Result<NodeRef<Self>, NoMemory>
        ensures { IfOk result (λ copy. leaves (node_of copy) ≡ leaves (node_of node.now)) }
    {
        match node {
            NodeRef::Own(node) => Ok(NodeRef::Own(node.copy()?)),
            NodeRef::Shared(node) => Ok(NodeRef::Shared(Arc::try_clone(node)?)),
        }
    }

    /// Takes the node out. A shared one is copied; an error leaves it in.
    final fn take(node: &mut NodeRef<Self>, alloc: Global) -> Result<Self, NoMemory>
        ensures ok { IfOk result (λ taken. leaves taken ≡ leaves (node_of node.old)) }
        ensures err { OnErr result (node_of node.new ≡ node_of node.old) }
    {
        match mem::replace(node, NodeRef::Own(Self::none(alloc))) {
            NodeRef::Own(own) => Ok(own),
            NodeRef::Shared(shared) => match Arc::try_unwrap(shared) {
                Ok(own) => Ok(own),
                Err(shared) => {
                    let copy = shared.copy();
                    *node = NodeRef::Shared(shared);
                    copy
                }
            },
        }
    }
}
