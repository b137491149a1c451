//! A row as a node of a row above it.

use super::{FEWEST_SHARED, MAX_CHILDREN, OpenRow, Row};
use crate::table::counts::Sizes;
use crate::table::edit::Edit;
use crate::table::node::{Node, Opening};
use crate::{Dup, Join, NoMemory};
use std::alloc::Global;

impl<K: Ord + Dup, C: Join, T: Node<K, C>> Node<K, C> for Row<K, C, T> {
    ghost use Rattle.pn_join.specs.Leaves.{all_entries};

    type Open = OpenRow<K, C, T>;

    ghost leaves = { λ row. all_entries row };

    ghost was = { λ opened. all_entries opened.0 };

    ghost becomes = { λ opened. opened.1 };

    ghost has_room = { λ row other. Unit {0} };

    fn none(alloc: Global) -> Self {
        Row::new(alloc)
    }

    fn is_short(&self) -> bool {
        self.children.len() < FEWEST_SHARED
    }

    fn copy(&self) -> Result<Self, NoMemory> {
        self.share_all()
    }

    fn sizes(&self) -> Sizes {
        self.all_sizes()
    }

    fn last_key(&self) -> Option<&K> {
        self.recall_row();
        let last = self.children.len().saturating_sub(1);
        match self.child(last) {
            Some(node) => node.last_key(),
            None => None,
        }
    }

    fn find(&self, key: &K) -> (Result<usize, usize>, Option<&C>) {
        self.find_key(key)
    }

    fn entries_from(&self, index: usize) -> &[(K, C)] {
        self.rest_of_leaf(index)
    }

    fn leaf(&self, index: usize) -> Option<&[(K, C)]> {
        self.leaf_at(index)
    }

    fn slice(&self, from: usize, to: usize) -> Result<Self, NoMemory> {
        let mut part = Row::new(self.alloc());
        part.push_slice(self, from, to)?;
        part.recall_row();
        Ok(part)
    }

    fn of_next(alloc: Global, left: &mut Vec<(K, C)>) -> Result<Self, NoMemory> {
        let row = Row::of_next_entries(alloc, left)?;
        row.recall_row();
        Ok(row)
    }

    fn has_room_for(&self, other: &Self) -> bool {
        self.children.len().saturating_add(other.children.len()) <= MAX_CHILDREN
    }

    fn append(&mut self, other: Self) -> Result<(), NoMemory> {
        let len = other.all_sizes().entries;
        self.push_slice(&other, 0, len)?;
        self.recall_row();
        Ok(())
    }

    fn join_at(
        &mut self,
        index: Result<usize, usize>,
        key: K,
        content: C,
    ) -> Result<Option<Self>, NoMemory> {
        self.recall_row();
        self.join_in_row(index, key, content)?;
        self.recall_row();
        Ok(self.split_if_long())
    }

    fn open(self, edits: &mut Vec<Edit<K, C>>, start: usize) -> Opening<Self, OpenRow<K, C, T>> {
        self.open_row(edits, start)
    }

    fn finish(opened: OpenRow<K, C, T>) -> (Self, Option<Self>) {
        let mut row = opened.finish_row();
        row.recall_row();
        let back = row.split_if_long();
        (row, back)
    }

    fn cancel(opened: OpenRow<K, C, T>) -> Self {
        opened.cancel()
    }
}
