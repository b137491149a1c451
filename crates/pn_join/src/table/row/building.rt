//! Rows that are built whole, of entries in key order.

ghost use Rattle.std.specs.Prelude.{◌≡◌, ◌+◌, ◌<◌, ◌++◌, length, reverse, IfOk, OnOk};
ghost use Rattle.pn_join.specs.NodeLeaves.{entries_in};
ghost use Rattle.pn_join.specs.Tables.{IsTable};

use super::{MAX_CHILDREN, Row};
use crate::table::node::Node;
use crate::{Dup, Join, NoMemory};
use std::alloc::Global;

impl<K: Ord + Dup, C: Join, T: Node<K, C>> Row<K, C, T> {
    /// The row of these entries, each node with as many as it takes but the last.
    pub fn of_sorted(alloc: Global, entries: Vec<(K, C)>) -> Result<Self, NoMemory>
        requires { IsTable K.cmp C.valid entries.items }
        ensures { IfOk result (λ row. entries_in row ≡ entries.items) }
    {
        let mut left = entries;
        left.reverse();
        let mut row = Row::new(alloc);
        while !left.is_empty() {
            row.push_next(&mut left)?;
        }
        Ok(row)
    }

    /// A row of the next entries of those that are left, of which the next is the last: as many as a row takes.
    pub(super) fn of_next_entries(alloc: Global, left: &mut Vec<(K, C)>) -> Result<Self, NoMemory>
        requires { IsTable K.cmp C.valid (reverse left.old.items) }
        ensures parted { IfOk result (λ row. entries_in row ++ reverse left.new.items ≡ reverse left.old.items) }
        ensures some { IfOk result (λ row. 0 < length left.old.items → 0 < length row) }
    {
        let mut row = Row::new(alloc);
        while row.children.len() < MAX_CHILDREN {
            if left.is_empty() {
                return Ok(row);
            }
            row.push_next(left)?;
        }
        Ok(row)
    }

    /// Adds a node of the next entries after all others.
    fn push_next(&mut self, left: &mut Vec<(K, C)>) -> Result<(), NoMemory>
        requires table { IsTable K.cmp C.valid (entries_in self.old ++ reverse left.old.items) }
        requires some { 0 < length left.old.items }
        ensures parted { OnOk result (entries_in self.new ++ reverse left.new.items ≡ entries_in self.old ++ reverse left.old.items) }
        ensures len { OnOk result (length self.new ≡ length self.old + 1) }
        ensures fewer { OnOk result (length left.new.items < length left.old.items) }
    {
        let alloc = self.alloc();
        let node = T::of_next(alloc, left)?;
        self.push(node.seal(alloc))
    }
}
