//! Rows that are open: all memory is there to put contents into their nodes, so that this cannot fail.

ghost use Rattle.std.specs.Prelude.{◌≡◌, ◌+◌, ◌^◌, ◌<◌, ◌≤◌, false, [], length, get_or, vec_len, vec_capacity, IsTrue, IfOk, OnErr};
ghost use Rattle.pn_join.specs.NodeLeaves.{in_nodes, entries_in, AreNodes};
ghost use Rattle.pn_join.specs.Counts.{AreCounts};
ghost use Rattle.pn_join.specs.Edits.{AreEditsWithin};
ghost use Rattle.pn_join.specs.Leaves.{all_entries, IsLeafList};
ghost use Rattle.pn_join.specs.Nodes.{each_child};
ghost use Rattle.pn_join.specs.Openings.{AreOpened, IsOpening};
ghost use Rattle.pn_join.specs.Rows.{filled, AreTaken, GoDown, IsFinished, IsTaken, MayFinish, StayTaken};
ghost use Rattle.pn_join.specs.Tables.{IsTable};

use super::Row;
use super::growth::insert_hint;
use super::joins::count_anew;
use crate::table::counts::{Sizes, node_for_entry};
use crate::table::edit::{Edit, last_place};
use crate::table::node::{Node, NodeRef, Opening};
use crate::{Dup, Join, NoMemory};
use std::marker::{Model, PhantomData};

/// A node that was taken out of a row to be opened, and its index.
#[derive(Drop)]
pub struct Taken<O> {
    pub index: usize,
    pub node: O,
}

/// A row whose nodes are open where edits come into them.
#[derive(Drop)]
pub struct OpenRow<K: Ord + Dup, C: Join, T: Node<K, C>> {
    // Without the nodes that are taken out, each of which has an empty one in its place.
    children: Vec<NodeRef<T>>,
    ends: Vec<Sizes>,
    hints: Vec<K>,
    // The last comes first.
    taken: Vec<Taken<T::Open>>,
    contents: PhantomData<C>,
}

impl<K: Ord + Dup, C: Join, T: Node<K, C>> Model for OpenRow<K, C, T> {
    ghost use Rattle.std.specs.Prelude.{List, length, ◌+◌, ◌<◌, ◌≤◌, vec_len, vec_capacity};

    ghost Value = { List (List (List (K × C))) × List (K × C) };

    ghost use Rattle.pn_join.specs.NodeLeaves.{in_nodes, AreNodes};
    ghost use Rattle.pn_join.specs.Counts.{AreCounts};
    ghost use Rattle.pn_join.specs.Leaves.{all_entries};
    ghost use Rattle.pn_join.specs.Nodes.{each_child};
    ghost use Rattle.pn_join.specs.Rows.{filled, GoDown, NoneShrinks};

    // The nodes as they were, and all entries once the edits are put.
    ghost view = { λ row. (
      filled T.was row.taken.items (each_child T.leaves row.children.items),
      all_entries (filled T.becomes row.taken.items (in_nodes (each_child T.leaves row.children.items))),
    ) };

    ghost invariant = { λ row. AreNodes K.cmp C.valid (filled T.was row.taken.items (each_child T.leaves row.children.items))
        × AreCounts (filled T.was row.taken.items (each_child T.leaves row.children.items)) row.ends.items
        × GoDown (length row.children.items) row.taken.items
        × NoneShrinks T.was T.becomes row.taken.items
        × (length row.children.items + length row.taken.items ≤ vec_capacity row.children)
        × (length row.ends.items + length row.taken.items ≤ vec_capacity row.ends)
        × (0 < length row.children.items) };
}

impl<K: Ord + Dup, C: Join, T: Node<K, C>> Row<K, C, T> {
    /// Opens the nodes that edits from index `start` on come into, where `start` is the index of the row's first entry.
    pub fn open_row(
        self,
        edits: &mut Vec<Edit<K, C>>,
        start: usize,
    ) -> Opening<Self, OpenRow<K, C, T>>
        requires some { 0 < length self }
        requires edits { AreEditsWithin (start + length (entries_in self)) edits.old.items }
        ensures { IsOpening (λ row. all_entries row) (λ opened. all_entries opened.0) (λ opened. opened.1) start
            (all_entries self) edits.old.items edits.new.items result }
    {
        let Row {
            mut children,
            mut ends,
            hints,
            contents,
        } = self;
        let mut taken = Vec::new(*children.allocator());
        let is_open = open_children(&mut children, &mut ends, &mut taken, edits, start);
        let row = OpenRow {
            children,
            ends,
            hints,
            taken,
            contents,
        };
        match is_open {
            Ok(true) => Opening::Open(row),
            Ok(false) => Opening::Full(row.cancel()),
            Err(NoMemory) => Opening::NoMemory(row.cancel()),
        }
    }
}

impl<K: Ord + Dup, C: Join, T: Node<K, C>> OpenRow<K, C, T> {
    /// The row with all contents put.
    pub fn finish_row(self) -> Row<K, C, T>
        requires table { IsTable K.cmp C.valid self.1 }
        requires fits { length self.1 < 2 ^ 64 }
        ensures put { entries_in result ≡ self.1 }
        ensures some { 0 < length result }
    {
        let OpenRow {
            mut children,
            mut ends,
            mut hints,
            taken,
            contents,
        } = self;
        for one in taken {
            let node = one.index;
            if finish_child(&mut children, &mut ends, one) {
                insert_hint(&mut hints, &children, node);
            }
        }
        Row {
            children,
            ends,
            hints,
            contents,
        }
    }

    /// The row as it was.
    pub fn cancel(self) -> Row<K, C, T>
        ensures { result ≡ self.0 }
    {
        let OpenRow {
            mut children,
            ends,
            hints,
            taken,
            contents,
        } = self;
        restore(&mut children, taken);
        Row {
            children,
            ends,
            hints,
            contents,
        }
    }
}

/// Opens the nodes that the edits from index `start` on come into, last first. Returns whether all edits fit.
fn open_children<K: Ord + Dup, C: Join, T: Node<K, C>>(
    children: &mut Vec<NodeRef<T>>,
    ends: &mut Vec<Sizes>,
    taken: &mut Vec<Taken<T::Open>>,
    edits: &mut Vec<Edit<K, C>>,
    start: usize,
) -> Result<bool, NoMemory>
    requires row { AreNodes K.cmp C.valid (each_child T.leaves children.old.items) × (0 < length children.old.items) }
    requires counts { AreCounts (each_child T.leaves children.old.items) ends.old.items }
    requires none { taken.old.items ≡ [] }
    requires edits { AreEditsWithin (start + length (entries_in (each_child T.leaves children.old.items))) edits.old.items }
    ensures same { AreTaken T.was T.becomes (each_child T.leaves children.old.items) (each_child T.leaves children.new.items) taken.new.items }
    ensures done { IfOk result (λ done. IsTrue done → AreOpened start (entries_in (each_child T.leaves children.old.items)) edits.old.items edits.new.items
        (all_entries (filled T.becomes taken.new.items (in_nodes (each_child T.leaves children.new.items))))) }
    ensures ends { ends.new.items ≡ ends.old.items }
    ensures capacity { (vec_len children.new + vec_len taken.new ≤ vec_capacity children.new) × (vec_len ends.new + vec_len taken.new ≤ vec_capacity ends.new) }
{
    while let Some(index) = last_place(edits, start) {
        let (node, before) = node_for_entry(ends, index - start);
        children.reserve(taken.len() + 1)?;
        ends.reserve(taken.len() + 1)?;
        if !open_child(children, taken, edits, node, start + before)? {
            return Ok(false);
        }
    }
    Ok(true)
}

/// Takes a node out and opens it, if its edits fit.
fn open_child<K: Ord + Dup, C: Join, T: Node<K, C>>(
    children: &mut Vec<NodeRef<T>>,
    taken: &mut Vec<Taken<T::Open>>,
    edits: &mut Vec<Edit<K, C>>,
    index: usize,
    start: usize,
) -> Result<bool, NoMemory>
    requires within { index < length children.old.items }
    requires node { IsLeafList K.cmp C.valid (get_or (each_child T.leaves children.old.items) index []) × (0 < length (get_or
        (each_child T.leaves children.old.items) index [])) }
    requires edits { AreEditsWithin (start + length (all_entries (get_or (each_child T.leaves children.old.items) index []))) edits.old.items }
    ensures taken { IfOk result (λ done. IsTrue done → IsTaken T.was T.becomes index start edits.old.items edits.new.items
        (each_child T.leaves children.old.items) (each_child T.leaves children.new.items) taken.old.items taken.new.items) }
    ensures full { IfOk result (λ done. done ≡ false → StayTaken (each_child T.leaves children.old.items)
        (each_child T.leaves children.new.items) taken.old.items taken.new.items) }
    ensures err { OnErr result (StayTaken (each_child T.leaves children.old.items) (each_child T.leaves children.new.items) taken.old.items taken.new.items) }
    ensures len { (vec_len children.new ≡ vec_len children.old) × (vec_len taken.new ≤ vec_len taken.old + 1) }
    ensures capacity { vec_capacity children.new ≡ vec_capacity children.old }
{
    let alloc = *children.allocator();
    taken.reserve(1)?;
    let node = T::take(&mut children[index], alloc)?;
    match node.open(edits, start) {
        Opening::Open(node) => {
            taken.push_reserved(Taken { index, node });
            Ok(true)
        }
        Opening::Full(node) => {
            children[index] = node.seal(alloc);
            Ok(false)
        }
        Opening::NoMemory(node) => {
            children[index] = node.seal(alloc);
            Err(NoMemory)
        }
    }
}

/// Puts a node back with all contents put. Returns whether more came after it than there was room for.
fn finish_child<K: Ord + Dup, C: Join, T: Node<K, C>>(
    children: &mut Vec<NodeRef<T>>,
    ends: &mut Vec<Sizes>,
    one: Taken<T::Open>,
) -> bool
    requires within { (one.index < length children.old.items) × (one.index < length ends.old.items) }
    requires capacity { (vec_len children.old < vec_capacity children.old) × (vec_len ends.old < vec_capacity ends.old) }
    requires table { IsTable K.cmp C.valid (T.becomes one.node) × (length (T.becomes one.node) < 2 ^ 64) }
    requires counts { MayFinish one.index (T.becomes one.node) ends.old.items }
    ensures finished { IsFinished one.index (T.becomes one.node) (each_child T.leaves children.old.items)
        (each_child T.leaves children.new.items) ends.old.items ends.new.items }
    ensures len { (vec_len children.new ≤ vec_len children.old + 1) × (vec_len ends.new ≤ vec_len ends.old + 1)
        × (vec_len children.old ≤ vec_len children.new) }
    ensures capacity { (vec_capacity children.old ≤ vec_capacity children.new) × (vec_capacity ends.old ≤ vec_capacity ends.new) }
{
    let alloc = *children.allocator();
    let (front, back) = T::finish(one.node);
    let is_split = back.is_some();
    children[one.index] = front.seal(alloc);
    count_anew(alloc, children, ends, one.index, back);
    is_split
}

/// Puts the nodes back as they were.
fn restore<K: Ord + Dup, C: Join, T: Node<K, C>>(
    children: &mut Vec<NodeRef<T>>,
    mut taken: Vec<Taken<T::Open>>,
)
    requires { GoDown (length children.old.items) taken.items }
    ensures nodes { each_child T.leaves children.new.items ≡ filled T.was taken.items (each_child T.leaves children.old.items) }
    ensures len { vec_len children.new ≡ vec_len children.old }
{
    let alloc = *children.allocator();
    while let Some(one) = taken.pop() {
        children[one.index] = T::cancel(one.node).seal(alloc);
    }
}
