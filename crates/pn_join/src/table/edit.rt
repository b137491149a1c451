//! Edits: what entries of another table change, and where.

ghost use Rattle.std.specs.Prelude.{◌≡◌, ◌+◌, ◌^◌, ◌<◌, ◌≤◌, ◌++◌, None, Some, option_map, IfOk, IfSome, OnOk};
ghost use Rattle.std.specs.Option.{option_to_list};
ghost use Rattle.pn_join.specs.Edits.{changes_in, put_of, puts_in, StopsBefore};
ghost use Rattle.pn_join.specs.Leaves.{last_of};
ghost use Rattle.pn_join.specs.PutAt.{from_start, moved_by, place};

use crate::table::change::TableChange;
use crate::{Dup, NoMemory};
use std::alloc::Global;

/// A change, and the index of its key among the entries.
#[derive(Drop)]
pub struct Edit<K, C> {
    pub index: Result<usize, usize>,
    pub change: TableChange<K, C>,
}

impl<K: Dup, C: Dup> Edit<K, C> {
    /// The change. The content before is moved out of the edit, which puts the same without it.
    fn take_change(&mut self) -> Result<TableChange<K, C>, NoMemory>
        ensures change { IfOk result (λ change. change ≡ self.old.change) }
        ensures same { OnOk result (put_of self.new ≡ put_of self.old) }
    {
        let key = self.change.key.dup()?;
        let after = self.change.after.dup()?;
        let before = self.change.before.take();
        Ok(TableChange { key, before, after })
    }
}

/// The changes of the edits. The contents before are moved out of the edits, which put the same without them.
pub fn take_changes<K: Dup, C: Dup>(
    alloc: Global,
    edits: &mut Vec<Edit<K, C>>,
) -> Result<Vec<TableChange<K, C>>, NoMemory>
    ensures changes { IfOk result (λ changes. changes.items ≡ changes_in edits.old.items) }
    ensures same { OnOk result (puts_in edits.new.items ≡ puts_in edits.old.items) }
{
    let mut changes = Vec::with_capacity(alloc, edits.len())?;
    for index in 0..edits.len() {
        changes.push_reserved(edits[index].take_change()?);
    }
    Ok(changes)
}

/// Adds an edit, if there is one, after all others.
pub fn add_optional<K: Drop, C: Drop>(
    edits: &mut Vec<Edit<K, C>>,
    edit: Option<Edit<K, C>>,
) -> Result<(), NoMemory>
    ensures { OnOk result (edits.new.items ≡ edits.old.items ++ option_to_list edit) }
{
    match edit {
        Some(edit) => Ok(edits.push(edit)?),
        None => Ok(()),
    }
}

/// Takes the last edit off if it does not come before an index.
pub fn pop_from<K, C>(edits: &mut Vec<Edit<K, C>>, start: usize) -> Option<Edit<K, C>>
    ensures parted { edits.old.items ≡ edits.new.items ++ option_to_list result }
    ensures from { IfSome result (λ edit. start ≤ place edit.index) }
    ensures stops { result ≡ None → StopsBefore start edits.new.items }
{
    let last = edits.last()?;
    if place_of(&last.index) < start {
        return None;
    }
    edits.pop()
}

/// How many entries come before an index, where those before the last edit may be left out.
pub fn last_place<K, C>(edits: &[Edit<K, C>], start: usize) -> Option<usize>
    ensures some { IfSome result (λ index. (start ≤ index) × (option_map (λ edit. place edit.index) (last_of edits.now) ≡ Some index)) }
    ensures stops { result ≡ None → StopsBefore start edits.now }
    ensures fits { IfSome result (λ index. index < 2 ^ 64) }
{
    let last = edits.last()?;
    let index = place_of(&last.index);
    if index < start {
        return None;
    }
    Some(index)
}

/// How many entries come before an index, whether it is that of an entry or of a gap.
pub fn place_of(index: &Result<usize, usize>) -> usize
    ensures { result ≡ place index.now }
{
    match index {
        Ok(index) => *index,
        Err(index) => *index,
    }
}

/// The index, counted from a later start.
pub fn from_start(index: &Result<usize, usize>, start: usize) -> Result<usize, usize>
    ensures { result ≡ from_start start index.now }
{
    match index {
        Ok(index) => Ok(index.saturating_sub(start)),
        Err(index) => Err(index.saturating_sub(start)),
    }
}

/// The index, counted from an earlier start.
pub fn moved_by(index: Result<usize, usize>, start: usize) -> Result<usize, usize>
    requires { start + place index < 2 ^ 64 }
    ensures { result ≡ moved_by start index }
{
    match index {
        Ok(index) => Ok(start + index),
        Err(index) => Err(start + index),
    }
}
