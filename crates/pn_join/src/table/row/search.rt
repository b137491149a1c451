//! Searches for a key: for its node, and within it.

ghost use Rattle.std.specs.Prelude.{◌≡◌, ◌+◌, ◌-◌, ◌<◌, ◌≤◌, true, false, [], Err, get_or, length, take, IsTrue};
ghost use Rattle.std.specs.FinMap.{find};
ghost use Rattle.std.specs.Option.{option_copied, option_map_or};
ghost use Rattle.std.specs.Ordering.{is_lt};
ghost use Rattle.pn_join.specs.NodeLeaves.{in_nodes, entries_in, AreNodes};
ghost use Rattle.pn_join.specs.Indices.{index_of};
ghost use Rattle.pn_join.specs.Leaves.{all_entries, ends_below, leaf_for};
ghost use Rattle.pn_join.specs.PutAt.{moved_by, place};

use super::Row;
use crate::table::edit::moved_by;
use crate::table::node::Node;
use crate::{Dup, Join};

impl<K: Ord + Dup, C: Join, T: Node<K, C>> Row<K, C, T> {
    /// The index of a key among all entries, and the content at the key.
    pub fn find_key(&self, key: &K) -> (Result<usize, usize>, Option<&C>)
        ensures index { result.0 ≡ index_of K.cmp key.now (entries_in self.now) }
        ensures found { option_copied result.1 ≡ find K.cmp key.now (entries_in self.now) }
        ensures row { AreNodes K.cmp C.valid self.now }
    {
        let guess = self.guess(key);
        let (index, content) = self.find_in(guess, key);
        if self.belongs(guess, key, &index) {
            return self.found_at(guess, index, content);
        }
        let node = self.search_node(key);
        let (index, content) = self.find_in(node, key);
        self.found_at(node, index, content)
    }

    /// What was found in a node, with the index among all entries.
    fn found_at<'r>(
        &self,
        node: usize,
        index: Result<usize, usize>,
        content: Option<&'r C>,
    ) -> (Result<usize, usize>, Option<&'r C>)
        requires node { node ≤ length self.now }
        requires place { place index ≤ length (get_or (in_nodes self.now) node []) }
        ensures index { result.0 ≡ moved_by (length (all_entries (take node (in_nodes self.now)))) index }
        ensures content { option_copied result.1 ≡ option_copied content.entry }
    {
        (moved_by(index, self.start(node).entries), content)
    }

    /// The index of a key in a node, and the content at the key.
    fn find_in(&self, node: usize, key: &K) -> (Result<usize, usize>, Option<&C>)
        ensures index { result.0 ≡ index_of K.cmp key.now (get_or (in_nodes self.now) node []) }
        ensures found { option_copied result.1 ≡ find K.cmp key.now (get_or (in_nodes self.now) node []) }
        ensures row { AreNodes K.cmp C.valid self.now }
    {
        match self.child(node) {
            Some(node) => node.find(key),
            None => (Err(0), None),
        }
    }

    /// The node that a key probably belongs into, by the hints.
    fn guess(&self, key: &K) -> usize {
        self.hints.partition_point(|last| last.cmp(key).is_lt())
    }

    /// The index of the node that a key belongs into, without the hints.
    fn search_node(&self, key: &K) -> usize
        ensures node { result ≡ leaf_for K.cmp key.now (in_nodes self.now) }
        ensures row { AreNodes K.cmp C.valid self.now }
    {
        let mut low = 0_usize;
        let mut high = self.children.len().saturating_sub(1);
        while low < high {
            let middle = low + (high - low) / 2;
            if self.ends_below(middle, key) {
                low = middle + 1;
            } else {
                high = middle;
            }
        }
        low
    }

    /// Whether a key surely belongs into this node, where it has this index. It does if it is there, or between two
    /// entries: other nodes are looked at only where it would be put at an end.
    fn belongs(&self, node: usize, key: &K, index: &Result<usize, usize>) -> bool
        requires index { index.now ≡ index_of K.cmp key.now (get_or (in_nodes self.now) node []) }
        ensures node { IsTrue result → node ≡ leaf_for K.cmp key.now (in_nodes self.now) }
        ensures row { AreNodes K.cmp C.valid self.now }
    {
        if node >= self.children.len() {
            return false;
        }
        match index {
            Ok(_) => true,
            Err(place) => self.is_gap_for(node, key, *place),
        }
    }

    /// Whether a key that would be put at a place in this node surely belongs there.
    fn is_gap_for(&self, node: usize, key: &K, place: usize) -> bool
        requires node { node < length self.now }
        requires place { Err place ≡ index_of K.cmp key.now (get_or (in_nodes self.now) node []) }
        ensures { IsTrue result → node ≡ leaf_for K.cmp key.now (in_nodes self.now) }
    {
        self.recall_row();
        if self.is_before_end(node, place) {
            return self.previous_ends_below(node, key, place);
        }
        false
    }

    /// Whether the node before this one ends below the key, or this is the first. It does if the key would be put after
    /// another of this one.
    fn previous_ends_below(&self, node: usize, key: &K, place: usize) -> bool
        requires { Err place ≡ index_of K.cmp key.now (get_or (in_nodes self.now) node []) }
        ensures { IsTrue result → 0 < node → ends_below K.cmp key.now (get_or (in_nodes self.now) (node - 1) []) ≡ true }
    {
        self.recall_row();
        if node == 0 {
            return true;
        }
        if place > 0 {
            return true;
        }
        self.ends_below(node - 1, key)
    }

    /// Whether a place lies before the end of a node, or the node is the last.
    fn is_before_end(&self, node: usize, place: usize) -> bool
        requires { node < length self.now }
        ensures { IsTrue result → node + 1 < length self.now → place < length (get_or (in_nodes self.now) node []) }
    {
        let count = self.children.len();
        if count - node == 1 {
            return true;
        }
        place < self.start(node + 1).entries - self.start(node).entries
    }

    /// Whether the last key of a node is less than this one. That of none is not.
    fn ends_below(&self, node: usize, key: &K) -> bool
        ensures { result ≡ ends_below K.cmp key.now (get_or (in_nodes self.now) node []) }
    {
        match self.child(node) {
            Some(node) => is_less(node.last_key(), key),
            None => false,
        }
    }
}

/// Whether the one key, if there is one, is less than the other.
fn is_less<K: Ord>(one: Option<&K>, key: &K) -> bool
    ensures { result ≡ option_map_or (λ k. is_lt (K.cmp k key.now)) (option_copied one.entry) false }
{
    match one {
        Some(one) => one.cmp(key).is_lt(),
        None => false,
    }
}
