//! The changes that a join makes to the cells of keys.

ghost use Rattle.std.specs.Prelude.{◌≡◌, ◌≤◌, [], length, map, vec_capacity, IfOk};
ghost use Rattle.pn_tablet.specs.Steps.{reported_change, version_at};

use pn_join::{NoMemory, TableChange};
use pn_record::{Cell, Key, Version};
use std::alloc::Global;

/// A key whose cell changed, with its versions before and after; none before where the key is new.
#[derive(Debug, Drop)]
pub struct Change {
    pub key: Key,
    pub before: Option<Version>,
    pub after: Version,
}

/// An empty list that takes `count` changes without growing.
pub fn reserve_changes(alloc: Global, count: usize) -> Result<Vec<Change>, NoMemory>
    ensures { IfOk result (λ changes. (changes.items ≡ []) × (count ≤ vec_capacity changes)) }
{
    Ok(Vec::with_capacity(alloc, count)?)
}

/// Adds the changes that a join reports, to an empty list.
pub fn add_changes(changes: &mut Vec<Change>, table_changes: Vec<TableChange<Key, Cell>>)
    requires none { changes.old.items ≡ [] }
    requires capacity { length table_changes.items ≤ vec_capacity changes.old }
    ensures { changes.new.items ≡ map reported_change table_changes.items }
{
    for change in table_changes {
        changes.push_reserved(change_of(change));
    }
}

fn change_of(table_changes: TableChange<Key, Cell>) -> Change
    ensures { result ≡ reported_change table_changes }
{
    let TableChange { key, before, after } = table_changes;
    Change {
        key,
        before: version_of(&before),
        after: after.version(),
    }
}

fn version_of(cell: &Option<Cell>) -> Option<Version>
    ensures { result ≡ version_at cell.now }
{
    match cell {
        Some(cell) => Some(cell.version()),
        None => None,
    }
}
