//! Joins one entry into one node of a row.

ghost use Rattle.std.specs.Prelude.{◌≡◌, ◌+◌, ◌^◌, ◌<◌, ◌≤◌, [], ◌++◌, length, get_or, take, option_map, unwrap_or, vec_len, vec_capacity, IfOk, OnOk, OnErr};
ghost use Rattle.std.specs.Option.{option_to_list};
ghost use Rattle.pn_join.specs.NodeLeaves.{in_nodes, entries_in, AreNodes};
ghost use Rattle.pn_join.specs.Counts.{AreRecounted, CanRecount};
ghost use Rattle.pn_join.specs.Leaves.{all_entries, IsLeafList};
ghost use Rattle.pn_join.specs.Nodes.{each_child};
ghost use Rattle.pn_join.specs.PutAt.{from_start, place, IsAmong, IsJoinedAt, MayPutAt};
ghost use Rattle.pn_join.specs.PutInLeaves.{ChangesOneLeaf};
ghost use Rattle.pn_join.specs.Rows.{IsJoinedIn, inserted_at};

use super::Row;
use super::growth::insert_hint;
use crate::table::counts::{Sizes, move_ends, start_of};
use crate::table::edit::{from_start, place_of};
use crate::table::node::{Node, NodeRef};
use crate::{Dup, Join, NoMemory};
use std::alloc::Global;

impl<K: Ord + Dup, C: Join, T: Node<K, C>> Row<K, C, T> {
    /// Joins a content into that at the key, which has this index. One leaf is changed or cut in two. An error leaves all
    /// leaves as they were.
    pub fn join_in_row(
        &mut self,
        index: Result<usize, usize>,
        key: K,
        content: C,
    ) -> Result<(), NoMemory>
        requires valid { C.valid content }
        requires some { 0 < length self.old }
        requires place { MayPutAt K.cmp C.valid index key (entries_in self.old) }
        ensures ok { OnOk result (IsJoinedAt C.meaning C.joined C.valid index key content (entries_in self.old) (entries_in self.new)) }
        ensures one { OnOk result (ChangesOneLeaf (all_entries self.old) (all_entries self.new)) }
        ensures some { 0 < length self.new }
        ensures err { OnErr result (self.new ≡ self.old) }
    {
        let alloc = self.alloc();
        if self.all_sizes().entries == usize::MAX {
            return Err(NoMemory);
        }
        let node = self.node_for(&index);
        let index = from_start(&index, self.start(node).entries);
        self.children.reserve(1)?;
        self.ends.reserve(1)?;
        let back = join_in_child(alloc, &mut self.children, node, index, key, content)?;
        let is_split = back.is_some();
        count_anew(alloc, &mut self.children, &mut self.ends, node, back);
        if is_split {
            insert_hint(&mut self.hints, &self.children, node);
        }
        Ok(())
    }

    /// The node that an entry with this index comes into: the last, if it comes after all others.
    fn node_for(&self, index: &Result<usize, usize>) -> usize
        requires some { 0 < length self.now }
        requires among { IsAmong (length (entries_in self.now)) index.now }
        ensures within { result < length self.now }
        ensures from { length (all_entries (take result (in_nodes self.now))) ≤ place index.now }
        ensures among { IsAmong (length (get_or (in_nodes self.now) result [])) (from_start (length (all_entries (take result
            (in_nodes self.now)))) index.now) }
    {
        let last = self.children.len() - 1;
        self.node_at(place_of(index)).min(last)
    }
}

/// Joins a content into that at the key, which has this index in one of the nodes. Returns what no longer fits.
fn join_in_child<K: Ord + Dup, C: Join, T: Node<K, C>>(
    alloc: Global,
    children: &mut Vec<NodeRef<T>>,
    node: usize,
    index: Result<usize, usize>,
    key: K,
    content: C,
) -> Result<Option<T>, NoMemory>
    requires valid { C.valid content }
    requires row { AreNodes K.cmp C.valid (each_child T.leaves children.old.items) }
    requires within { node < length children.old.items }
    requires place { MayPutAt K.cmp C.valid index key (all_entries (get_or (each_child T.leaves children.old.items) node [])) }
    ensures ok { IfOk result (λ back. IsJoinedIn C.meaning C.joined C.valid node index key content (option_map T.leaves back)
        (each_child T.leaves children.old.items) (each_child T.leaves children.new.items)) }
    ensures err { OnErr result (each_child T.leaves children.new.items ≡ each_child T.leaves children.old.items) }
    ensures len { vec_len children.new ≡ vec_len children.old }
    ensures capacity { vec_capacity children.new ≡ vec_capacity children.old }
{
    let mut own = T::take(&mut children[node], alloc)?;
    let joined = own.join_at(index, key, content);
    children[node] = own.seal(alloc);
    joined
}

/// Adds what no longer fitted into a node after it, if anything, and counts both.
pub fn count_anew<K: Ord + Dup, C: Join, T: Node<K, C>>(
    alloc: Global,
    children: &mut Vec<NodeRef<T>>,
    ends: &mut Vec<Sizes>,
    node: usize,
    back: Option<T>,
)
    requires within { (node < length children.old.items) × (node < length ends.old.items) }
    requires capacity { (vec_len children.old < vec_capacity children.old) × (vec_len ends.old < vec_capacity ends.old) }
    requires leaf_lists { IsLeafList K.cmp C.valid (get_or (each_child T.leaves children.old.items) node []) × IsLeafList K.cmp C.valid (unwrap_or
        (option_map T.leaves back) []) }
    requires counts { CanRecount node (get_or (each_child T.leaves children.old.items) node []) (option_map T.leaves back) ends.old.items }
    ensures nodes { each_child T.leaves children.new.items ≡ inserted_at (node + 1) (option_to_list (option_map T.leaves back))
        (each_child T.leaves children.old.items) }
    ensures counts { AreRecounted node (get_or (each_child T.leaves children.old.items) node []) (option_map T.leaves back) ends.old.items ends.new.items }
    ensures len { (vec_len children.new ≤ vec_len children.old + 1) × (vec_len ends.new ≤ vec_len ends.old + 1)
        × (vec_len children.old ≤ vec_len children.new) }
    ensures capacity { (vec_capacity children.old ≤ vec_capacity children.new) × (vec_capacity ends.old ≤ vec_capacity ends.new) }
{
    let start = start_of(ends, node);
    let was = ends[node];
    let front = sum(start, children[node].node().sizes());
    let Some(back) = back else {
        move_ends(ends, node, was, front);
        return;
    };
    move_ends(ends, node, was, sum(front, back.sizes()));
    ends.insert(node, front).unwrap();
    children.insert(node + 1, back.seal(alloc)).unwrap();
}

/// The sum of both.
fn sum(one: Sizes, other: Sizes) -> Sizes
    requires { (one.entries + other.entries < 2 ^ 64) × (one.leaves + other.leaves < 2 ^ 64) }
    ensures { (result.entries ≡ one.entries + other.entries) × (result.leaves ≡ one.leaves + other.leaves) }
{
    Sizes {
        entries: one.entries + other.entries,
        leaves: one.leaves + other.leaves,
    }
}
