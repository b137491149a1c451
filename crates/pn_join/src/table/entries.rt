//! The iterator over the entries of a table, in key order.

ghost use Rattle.std.specs.Prelude.{◌≡◌, length, drop};
ghost use Rattle.std.specs.Iterator.{at_most};
ghost use Rattle.std.specs.Map.Iter.{TakesFirst, deref_pair};
ghost use Rattle.pn_join.specs.NodeLeaves.{entries_in};

use crate::table::leaf_list::Root;
use crate::{Dup, Join};
use std::iter::FusedIterator;
use std::marker::Model;
use std::slice;

/// The entries of a table that are left, in key order.
#[derive(Drop)]
pub struct Entries<'t, K: Ord + Dup, C: Join> {
    left: slice::Iter<'t, (K, C)>,
    root: &'t Root<K, C>,
    // How many entries come before those that follow `left`.
    next: usize,
}

impl<'t, K: Ord + Dup, C: Join> Model for Entries<'t, K, C> {
    ghost use Rattle.std.specs.Prelude.{List, ◌++◌, drop};
    ghost use Rattle.std.specs.Slice.Iter.{iter_rest};

    ghost Value = { List (K × C) };

    ghost use Rattle.pn_join.specs.NodeLeaves.{entries_in};

    ghost view = { λ entries. iter_rest entries.left ++ drop entries.next (entries_in entries.root.now) };
}

impl<'t, K: Ord + Dup, C: Join> Entries<'t, K, C> {
    /// The entries from an index on.
    pub(crate) fn new(root: &'t Root<K, C>, index: usize) -> Self
        ensures { result ≡ drop index (entries_in root.now) }
    {
        Entries {
            left: [].iter(),
            root,
            next: index,
        }
    }
}

impl<'t, K: Ord + Dup, C: Join> Iterator for Entries<'t, K, C> {
    type Item = (&'t K, &'t C);

    ghost next_gives = { TakesFirst deref_pair };

    ghost remaining = { λ left. at_most (length left) };

    fn next(&mut self) -> Option<(&'t K, &'t C)> {
        loop {
            if let Some((key, content)) = self.left.next() {
                return Some((key, content));
            }
            let more = self.root.rest_of_leaf(self.next);
            if more.is_empty() {
                return None;
            }
            self.next += more.len();
            self.left = more.iter();
        }
    }
}

impl<'t, K: Ord + Dup, C: Join> FusedIterator for Entries<'t, K, C> {}
