//! Lists of leaves: the entries of a table, one leaf after another, in rows of rows.

ghost use Rattle.std.specs.Prelude.{◌≡◌, ◌≤◌, false, [], ◌∷◌, ◌++◌, length, drop, option_map, slice_get, slice_range, IsTrue, IfOk, IfSome, OnOk, OnErr};
ghost use Rattle.std.specs.FinMap.{find};
ghost use Rattle.std.specs.Option.{option_copied};
ghost use Rattle.pn_join.specs.Indices.{index_of};
ghost use Rattle.pn_join.specs.Leaves.{all_entries, IsLeafList};
ghost use Rattle.pn_join.specs.PutInLeaves.{IsPutOf, ChangesOneLeaf};
ghost use Rattle.pn_join.specs.TableChanges.{AreChanges};
ghost use Rattle.pn_join.specs.Tables.{contents_at, key_by_key, IsTable};

use crate::table::bulk_join::{BulkJoin, edits_from, put_edits};
use crate::table::edit::take_changes;
use crate::table::entries::Entries;
use crate::table::node::Node;
use crate::table::row::Row;
use crate::{Dup, Join, NoMemory};
use std::alloc::Global;
use std::marker::Model;

/// The capacity that a table's first leaf begins with, in entries.
const FIRST_CAPACITY: usize = 4;

/// A row of rows of leaves. Larger tables would have one more row round these.
pub type Root<K, C> = Row<K, C, Row<K, C, Vec<(K, C)>>>;

/// The leaves of a table, in key order: 1 to 64 entries each, whose keys rise from leaf to leaf.
#[derive(Drop)]
pub struct LeafList<K: Ord + Dup, C: Join> {
    root: Root<K, C>,
}

impl<K: Ord + Dup, C: Join> Model for LeafList<K, C> {
    ghost use Rattle.std.specs.Prelude.{List};

    ghost Value = { List (List (K × C)) };

    ghost use Rattle.pn_join.specs.Leaves.{all_entries};

    ghost view = { λ leaf_list. all_entries leaf_list.root };
}

impl<K: Ord + Dup, C: Join> LeafList<K, C> {
    /// No leaves. Those to come take memory from `alloc`.
    pub fn new(alloc: Global) -> Self
        ensures { result ≡ [] }
    {
        LeafList {
            root: Row::new(alloc),
        }
    }

    /// The leaves of these entries.
    pub(crate) fn of_sorted(alloc: Global, entries: Vec<(K, C)>) -> Result<Self, NoMemory>
        requires { IsTable K.cmp C.valid entries.items }
        ensures { IfOk result (λ leaves. all_entries leaves ≡ entries.items) }
    {
        Ok(LeafList {
            root: Row::of_sorted(alloc, entries)?,
        })
    }

    /// Where the leaves take memory.
    pub(crate) fn alloc(&self) -> Global {
        self.root.alloc()
    }

    /// How many entries there are.
    pub(crate) fn len(&self) -> usize
        ensures count { result ≡ length (all_entries self.now) }
        ensures leaf_list { IsLeafList K.cmp C.valid self.now }
    {
        self.root.all_sizes().entries
    }

    /// How many leaves there are.
    pub fn count(&self) -> usize
        ensures count { result ≡ length self.now }
        ensures leaf_list { IsLeafList K.cmp C.valid self.now }
    {
        self.root.all_sizes().leaves
    }

    /// Recalls for the prover that these are the leaves of a table.
    pub(crate) fn recall_leaf_list(&self)
        ensures { IsLeafList K.cmp C.valid self.now }
    {
        self.root.recall_row();
    }

    /// The entries of the leaf at an index. `None` past the last.
    pub fn leaf(&self, index: usize) -> Option<&[(K, C)]>
        ensures leaf { option_map (λ leaf. leaf.now) result ≡ slice_get self.now index }
        ensures leaf_list { IsLeafList K.cmp C.valid self.now }
    {
        self.recall_leaf_list();
        self.root.leaf(index)
    }

    /// The content at a key.
    pub(crate) fn get(&self, key: &K) -> Option<&C>
        ensures found { option_copied result ≡ find K.cmp key.now (all_entries self.now) }
        ensures is_valid { IfSome result (λ content. C.valid content.now) }
    {
        self.root.find_key(key).1
    }

    /// The index of a key among all entries.
    pub(crate) fn binary_search(&self, key: &K) -> Result<usize, usize>
        ensures index { result ≡ index_of K.cmp key.now (all_entries self.now) }
        ensures leaf_list { IsLeafList K.cmp C.valid self.now }
    {
        self.root.find_key(key).0
    }

    /// The entry at an index among all entries.
    pub(crate) fn entry_at(&self, index: usize) -> Option<&(K, C)>
        ensures entry { option_map (λ e. e.now) result ≡ slice_get (all_entries self.now) index }
        ensures leaf_list { IsLeafList K.cmp C.valid self.now }
    {
        self.recall_leaf_list();
        self.root.rest_of_leaf(index).first()
    }

    /// All entries.
    pub(crate) fn iter(&self) -> Entries<'_, K, C>
        ensures all { result ≡ all_entries self.now }
        ensures leaf_list { IsLeafList K.cmp C.valid self.now }
    {
        self.iter_from(0)
    }

    /// The entries from an index on.
    pub(crate) fn iter_from(&self, index: usize) -> Entries<'_, K, C>
        ensures rest { result ≡ drop index (all_entries self.now) }
        ensures leaf_list { IsLeafList K.cmp C.valid self.now }
    {
        self.recall_leaf_list();
        Entries::new(&self.root, index)
    }

    /// An equal list. Nodes are shared where possible.
    pub(crate) fn share(&self) -> Result<Self, NoMemory>
        ensures { IfOk result (λ copy. copy ≡ self.now) }
    {
        Ok(LeafList {
            root: self.root.copy()?,
        })
    }

    /// Joins a content into that at the key. One leaf is changed or cut in two, or the first is made; all others
    /// stay. An error leaves the list as it was.
    pub fn join_entry(&mut self, key: K, content: C) -> Result<(), NoMemory>
        requires { C.valid content }
        ensures ok { OnOk result (IsPutOf K.cmp C.meaning C.joined C.valid key content
            (all_entries self.old) (all_entries self.new)) }
        ensures one { OnOk result (ChangesOneLeaf self.old self.new) }
        ensures err { OnErr result (self.new ≡ self.old) }
        ensures leaf_list { IsLeafList K.cmp C.valid self.old × IsLeafList K.cmp C.valid self.new }
    {
        self.recall_leaf_list();
        if self.root.is_empty() {
            let pushed = self.push_first(key, content);
            self.recall_leaf_list();
            return pushed;
        }
        let (index, _) = self.root.find_key(&key);
        let joined = self.root.join_in_row(index, key, content);
        self.recall_leaf_list();
        joined
    }

    /// Makes the first leaf, of one entry. An error leaves none.
    fn push_first(&mut self, key: K, content: C) -> Result<(), NoMemory>
        requires valid { C.valid content }
        requires none { self.old ≡ [] }
        ensures ok { OnOk result (self.new ≡ ((key, content) ∷ []) ∷ []) }
        ensures err { OnErr result (self.new ≡ self.old) }
    {
        let alloc = self.alloc();
        let mut entries = Vec::with_capacity(alloc, FIRST_CAPACITY)?;
        entries.push_reserved((key, content));
        let root = Row::of_sorted(alloc, entries)?;
        root.recall_row();
        self.root = root;
        Ok(())
    }

    /// Adds the other's entries from index `from` to before index `to` after all others.
    pub(crate) fn push_slice(
        &mut self,
        other: &Self,
        from: usize,
        to: usize,
    ) -> Result<(), NoMemory>
        requires order { from ≤ to }
        requires within { to ≤ length (all_entries other.now) }
        requires table { IsTable K.cmp C.valid (all_entries self.old ++ slice_range (all_entries other.now) from to) }
        ensures { OnOk result (all_entries self.new ≡ all_entries self.old ++ slice_range (all_entries other.now) from to) }
    {
        self.root.push_slice(&other.root, from, to)
    }

    /// Joins all entries of the other and returns true. If they don't fit where each full leaf is cut in two, no entry
    /// changes, and it returns false.
    pub(crate) fn join_all(&mut self, other: &Self) -> Result<bool, NoMemory>
        ensures done { IfOk result (λ done. IsTrue done → contents_at K.cmp C.meaning (all_entries self.new)
            ≡ key_by_key C.joined (contents_at K.cmp C.meaning (all_entries self.old)) (contents_at K.cmp C.meaning (all_entries other.now))) }
        ensures undone { IfOk result (λ done. done ≡ false → all_entries self.new ≡ all_entries self.old) }
        ensures err { OnErr result (all_entries self.new ≡ all_entries self.old) }
        ensures leaf_list { IsLeafList K.cmp C.valid self.new }
    {
        self.recall_leaf_list();
        other.recall_leaf_list();
        let edits = edits_from(&self.root, &other.root)?;
        let done = put_edits(&mut self.root, edits)?;
        Ok(done)
    }

    /// Does the same, and returns what the other's entries change.
    pub(crate) fn join_with_changes(&mut self, other: &Self) -> Result<BulkJoin<K, C>, NoMemory>
        ensures changes { IfOk result (λ told. AreChanges K.cmp C.meaning C.joined C.valid (all_entries self.old) (all_entries other.now) told.changes.items) }
        ensures done { IfOk result (λ told. IsTrue told.is_done → contents_at K.cmp C.meaning (all_entries self.new)
            ≡ key_by_key C.joined (contents_at K.cmp C.meaning (all_entries self.old)) (contents_at K.cmp C.meaning (all_entries other.now))) }
        ensures undone { IfOk result (λ told. told.is_done ≡ false → all_entries self.new ≡ all_entries self.old) }
        ensures err { OnErr result (all_entries self.new ≡ all_entries self.old) }
        ensures leaf_list { IsLeafList K.cmp C.valid self.new }
    {
        self.recall_leaf_list();
        other.recall_leaf_list();
        let mut edits = edits_from(&self.root, &other.root)?;
        let changes = take_changes(self.alloc(), &mut edits)?;
        let is_done = put_edits(&mut self.root, edits)?;
        Ok(BulkJoin { changes, is_done })
    }
}
