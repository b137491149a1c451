//! Tables: finite maps in key order that join key by key.

ghost use Rattle.std.specs.Prelude.{◌≡◌, ◌^◌, ◌<◌, ◌≤◌, ◌∷◌, [], ◌++◌, List, length, map};
ghost use Rattle.std.specs.Prelude.{option_map, slice_get, slice_range, drop, count_by, IsTrue, IfOk, IfSome, OnOk, OnErr};
ghost use Rattle.std.specs.Option.{option_copied};
ghost use Rattle.std.specs.Ordering.{is_lt};
ghost use Rattle.std.specs.FinMap.{find, put, is_sorted};
ghost use Rattle.pn_join.specs.Tables.{contents_at, key_by_key, IsTable};
ghost use Rattle.pn_join.specs.Leaves.{all_entries, AreLeavesOf};
ghost use Rattle.pn_join.specs.PutInLeaves.{ChangesOneLeaf};
ghost use Rattle.pn_join.specs.TableChanges.{AreChanges};

mod bulk_join;
mod change;
mod counts;
mod edit;
mod entries;
mod leaf;
mod leaf_join;
mod leaf_list;
mod node;
mod open_leaf;
mod rising;
mod row;

use crate::{Dup, Join, NoMemory};
pub use change::{TableChange, dup_optional};
pub use entries::Entries;
pub use leaf::copy_entries;
pub use leaf_list::LeafList;
pub use rising::join_last;
use std::alloc::Global;
use std::marker::Model;

/// A finite map whose keys are kept in rising order, each once.
///
/// The entries are held in leaves of 1 to 64 entries each.
#[derive(Drop)]
pub struct Table<K: Ord + Dup, C: Join> {
    leaf_list: LeafList<K, C>,
}

impl<K: Ord + Dup, C: Join> Model for Table<K, C> {
    ghost use Rattle.std.specs.Prelude.{List};
    ghost use Rattle.pn_join.specs.Leaves.{all_entries};

    ghost Value = { List (K × C) };

    ghost view = { λ table. all_entries table.leaf_list };
}

impl<K: Ord + Dup, C: Join> Table<K, C> {
    /// An empty table that grows with this allocator.
    pub fn new(alloc: Global) -> Self
        ensures { result ≡ [] }
    {
        Table {
            leaf_list: LeafList::new(alloc),
        }
    }

    /// The table of these entries. It is built whole, so it costs less than joining one by one.
    pub fn of_sorted(alloc: Global, entries: Vec<(K, C)>) -> Result<Self, NoMemory>
        requires { IsTable K.cmp C.valid entries.items }
        ensures { IfOk result (λ table. table ≡ entries.items) }
    {
        Ok(Table {
            leaf_list: LeafList::of_sorted(alloc, entries)?,
        })
    }

    /// How many keys there are.
    pub fn len(&self) -> usize
        ensures count { result ≡ length self.now }
        ensures rising { IsTrue (is_sorted K.cmp self.now) }
    {
        self.leaf_list.len()
    }

    /// The content at a key, if the key is present.
    pub fn get(&self, key: &K) -> Option<&C>
        ensures found { option_copied result ≡ find K.cmp key.now self.now }
        ensures is_valid { IfSome result (λ content. C.valid content.now) }
    {
        self.leaf_list.get(key)
    }

    /// The entry at an index in key order. `None` past the end.
    pub fn entry_at(&self, index: usize) -> Option<(&K, &C)>
        ensures entry { option_map (λ e. (e.0.now, e.1.now)) result ≡ slice_get self.now index }
        ensures is_valid { IfSome result (λ e. C.valid e.1.now) }
    {
        let (key, content) = self.leaf_list.entry_at(index)?;
        Some((key, content))
    }

    /// The leaves in which the entries are held. One after another they are the entries.
    pub fn leaves(&self) -> &LeafList<K, C>
        ensures { AreLeavesOf self.now result.now }
    {
        self.leaf_list.recall_leaf_list();
        &self.leaf_list
    }

    /// The entries of a leaf. `None` past the last leaf.
    pub fn leaf(&self, index: usize) -> Option<&[(K, C)]>
        ensures { (leaves : List (List (K × C)))
            × AreLeavesOf self.now leaves × (option_map (λ leaf. leaf.now) result ≡ slice_get leaves index) }
    {
        self.leaves().leaf(index)
    }

    /// All entries in key order, as keys and contents.
    pub fn iter(&self) -> Entries<'_, K, C>
        ensures all { result ≡ self.now }
        ensures table { IsTable K.cmp C.valid self.now }
    {
        self.leaf_list.iter()
    }

    /// The entries from an index on, in key order.
    pub fn iter_from(&self, index: usize) -> Entries<'_, K, C>
        ensures rest { result ≡ drop index self.now }
        ensures table { IsTable K.cmp C.valid self.now }
    {
        self.leaf_list.iter_from(index)
    }

    /// How many keys are less than this one.
    pub fn lower_bound(&self, key: &K) -> usize
        ensures { result ≡ count_by (λ e. is_lt (K.cmp e.0 key.now)) self.now }
    {
        match self.leaf_list.binary_search(key) {
            Ok(index) => index,
            Err(index) => index,
        }
    }

    /// Recalls for the prover that the entries are a table.
    pub fn recall_table(&self)
        ensures { IsTable K.cmp C.valid self.now }
    {
        self.leaf_list.recall_leaf_list();
    }

    /// Recalls for the prover that the keys rise.
    pub fn recall_order(&self)
        ensures { IsTrue (is_sorted K.cmp self.now) }
    {
        self.recall_table();
    }

    /// Recalls for the prover that the entries can be counted.
    pub(crate) fn recall_len(&self)
        ensures { length self.now < 2 ^ 64 }
    {
        let _ = self.len();
    }

    /// The allocator of the leaves.
    pub(crate) fn alloc(&self) -> Global {
        self.leaf_list.alloc()
    }

    /// The entries from index `from` to before index `to`. Whole leaves are shared.
    pub fn slice(&self, from: usize, to: usize) -> Result<Self, NoMemory>
        requires order { from ≤ to }
        requires within { to ≤ length self.now }
        ensures { IfOk result (λ part. part ≡ slice_range self.now from to) }
    {
        self.recall_table();
        Table::new(self.alloc()).followed_by(self, from, to)
    }

    /// This table with the other's entries from index `from` to before index `to` after its own. Whole leaves are
    /// shared.
    pub fn followed_by(mut self, other: &Self, from: usize, to: usize) -> Result<Self, NoMemory>
        requires order { from ≤ to }
        requires within { to ≤ length other.now }
        requires rising { IsTrue (is_sorted K.cmp (self ++ slice_range other.now from to)) }
        ensures { IfOk result (λ both. both ≡ self ++ slice_range other.now from to) }
    {
        self.recall_table();
        other.recall_table();
        self.leaf_list.push_slice(&other.leaf_list, from, to)?;
        Ok(self)
    }

    /// Joins a content into that at the key. An equal key that is present stays. An error leaves the table
    /// as it was.
    ///
    /// One leaf is changed or cut in two, or the first is made; all others stay as they were.
    ///
    /// Every content that code can make is `valid`.
    pub fn join_entry(&mut self, key: K, content: C) -> Result<(), NoMemory>
        requires { C.valid content }
        ensures ok { OnOk result (contents_at K.cmp C.meaning self.new
            ≡ key_by_key C.joined (contents_at K.cmp C.meaning self.old)
            (contents_at K.cmp C.meaning ((key, content) ∷ []))) }
        ensures keys { OnOk result (map (λ e. e.0) self.new
            ≡ map (λ e. e.0) (put K.cmp key content self.old)) }
        ensures err { OnErr result (self.new ≡ self.old) }
        ensures table { IsTable K.cmp C.valid self.new }
        ensures leaves { OnOk result ((before after : List (List (K × C)))
            × AreLeavesOf self.old before × AreLeavesOf self.new after × ChangesOneLeaf before after) }
    {
        self.leaf_list.join_entry(key, content)
    }

    /// Joins the other table into this one. Returns exactly the keys whose contents now mean something else, in
    /// key order. An error leaves the table as it was.
    pub fn join_with_changes(&mut self, other: &Self) -> Result<Vec<TableChange<K, C>>, NoMemory>
        ensures ok { OnOk result (contents_at K.cmp C.meaning self.new
            ≡ key_by_key C.joined (contents_at K.cmp C.meaning self.old) (contents_at K.cmp C.meaning other.now)) }
        ensures changes { IfOk result (λ changes. AreChanges K.cmp C.meaning C.joined C.valid self.old other.now changes.items) }
        ensures err { OnErr result (self.new ≡ self.old) }
        ensures tables { IsTable K.cmp C.valid self.old × IsTable K.cmp C.valid other.now × IsTable K.cmp C.valid self.new }
    {
        self.recall_table();
        other.recall_table();
        let told = self.leaf_list.join_with_changes(&other.leaf_list)?;
        if told.is_done {
            return Ok(told.changes);
        }
        *self = self.join_with(other)?;
        Ok(told.changes)
    }
}

impl<K: Ord + Dup, C: Join> Dup for Table<K, C> {
    fn dup(&self) -> Result<Self, NoMemory> {
        Ok(Table {
            leaf_list: self.leaf_list.share()?,
        })
    }
}

impl<K: Ord + Dup, C: Join> Join for Table<K, C> {
    ghost use Rattle.std.specs.Prelude.{Option};
    ghost use Rattle.pn_join.specs.Tables.{contents_at, key_by_key, IsTable};
    ghost use Rattle.pn_join.specs.Proofs.TableLaws.{key_by_key-laws};

    ghost Meaning = { K → Option C.Meaning };

    ghost meaning = { contents_at K.cmp C.meaning };

    ghost joined = { key_by_key C.joined };

    ghost valid = { IsTable K.cmp C.valid };

    ghost laws = { key_by_key-laws C.laws };

    fn join_from(&mut self, other: &Self) -> Result<(), NoMemory> {
        self.recall_table();
        other.recall_table();
        // An empty table shares the leaves of the other: it needs no edits.
        if self.len() == 0 {
            *self = self.join_with(other)?;
            return Ok(());
        }
        if !self.leaf_list.join_all(&other.leaf_list)? {
            *self = self.join_with(other)?;
        }
        Ok(())
    }

    fn changed_by(&self, other: &Self) -> Result<Option<Self>, NoMemory> {
        let mut joined = self.dup()?;
        let changes = joined.join_with_changes(other)?;
        if changes.is_empty() {
            return Ok(None);
        }
        Ok(Some(joined))
    }
}

impl<K: Ord + Dup, C: Join> Table<K, C> {
    /// The join of both. Leaves that get no key of the other are shared.
    fn join_with(&self, other: &Self) -> Result<Self, NoMemory>
        ensures { IfOk result (λ joined. (contents_at K.cmp C.meaning joined
            ≡ key_by_key C.joined (contents_at K.cmp C.meaning self.now)
            (contents_at K.cmp C.meaning other.now)) × IsTable K.cmp C.valid joined) }
    {
        self.recall_table();
        other.recall_table();
        if self.len() == 0 {
            return other.dup();
        }
        let mut joined = self.dup()?;
        for (key, content) in other.iter() {
            joined.join_entry(key.dup()?, content.dup()?)?;
        }
        Ok(joined)
    }
}
