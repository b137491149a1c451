//! Joins all entries of another table at once, if no leaf gets too many.

ghost use Rattle.std.specs.Prelude.{◌≡◌, ◌≢◌, false, Some, None, option_map, IsTrue, IfOk, IfSome, OnErr};
ghost use Rattle.std.specs.Option.{option_copied};
ghost use Rattle.pn_join.specs.NodeLeaves.{entries_in, AreNodes};
ghost use Rattle.pn_join.specs.Edits.{changes_in, AreIndexed, RiseByKey};
ghost use Rattle.pn_join.specs.Indices.{index_of};
ghost use Rattle.pn_join.specs.TableChanges.{AreChanges, AreValid, Changes, puts};
ghost use Rattle.pn_join.specs.Tables.{optional_joined};

use crate::table::change::{TableChange, dup_optional};
use crate::table::edit::{Edit, add_optional};
use crate::table::entries::Entries;
use crate::table::leaf_list::Root;
use crate::table::node::Opening;
use crate::table::row::Row;
use crate::{Dup, Join, NoMemory};
use std::mem;

/// What the entries of another table change, and whether they are joined.
#[derive(Drop)]
pub struct BulkJoin<K, C> {
    pub changes: Vec<TableChange<K, C>>,
    pub is_done: bool,
}

/// What the entries of the other change.
pub fn edits_from<K: Ord + Dup, C: Join>(
    root: &Root<K, C>,
    other: &Root<K, C>,
) -> Result<Vec<Edit<K, C>>, NoMemory>
    ensures changes { IfOk result (λ edits. AreChanges K.cmp C.meaning C.joined C.valid (entries_in root.now) (entries_in other.now)
        (changes_in edits.items)) }
    ensures indexed { IfOk result (λ edits. AreIndexed K.cmp (entries_in root.now) edits.items) }
{
    other.recall_row();
    let mut edits = Vec::new(root.alloc());
    for (key, content) in Entries::new(other, 0) {
        let edit = edit_for(root, key, content)?;
        add_optional(&mut edits, edit)?;
    }
    Ok(edits)
}

/// What an entry of the other changes.
fn edit_for<K: Ord + Dup, C: Join>(
    root: &Root<K, C>,
    key: &K,
    content: &C,
) -> Result<Option<Edit<K, C>>, NoMemory>
    requires { C.valid content.now }
    ensures changes { IfOk result (λ edit. Changes K.cmp C.meaning C.joined C.valid (entries_in root.now) (key.now, content.now)
        (option_map (λ e. e.change) edit)) }
    ensures indexed { IfOk result (λ edit. IfSome edit (λ e. e.index ≡ index_of K.cmp e.change.key (entries_in root.now))) }
{
    let (index, before) = root.find_key(key);
    let Some(after) = join_contents(before, content)? else {
        return Ok(None);
    };
    let change = TableChange {
        key: key.dup()?,
        before: dup_optional(before)?,
        after,
    };
    Ok(Some(Edit { index, change }))
}

/// The join of both contents, or `None` if it means what `had` means.
fn join_contents<C: Join>(had: Option<&C>, content: &C) -> Result<Option<C>, NoMemory>
    requires { C.valid content.now }
    ensures some { IfOk result (λ value. IfSome value (λ v. (Some (C.meaning v)
        ≡ optional_joined C.joined (option_map C.meaning (option_copied had.entry)) (Some (C.meaning content.now))) × C.valid v)) }
    ensures none { IfOk result (λ value. value ≡ None → optional_joined C.joined (option_map C.meaning (option_copied had.entry)) (Some (C.meaning content.now))
        ≡ option_map C.meaning (option_copied had.entry)) }
    ensures differs { IfOk result (λ value. IfSome value (λ v. Some (C.meaning v) ≢ option_map C.meaning (option_copied had.entry))) }
{
    match had {
        Some(had) => had.changed_by(content),
        None => Ok(Some(content.dup()?)),
    }
}

/// Puts all new contents at their keys, and returns true. If they don't fit where each full leaf is cut in two, no entry
/// changes, and it returns false.
pub fn put_edits<K: Ord + Dup, C: Join>(
    root: &mut Root<K, C>,
    edits: Vec<Edit<K, C>>,
) -> Result<bool, NoMemory>
    requires indexed { AreIndexed K.cmp (entries_in root.old) edits.items }
    requires rising { RiseByKey K.cmp edits.items }
    requires valid { AreValid C.valid (changes_in edits.items) }
    ensures done { IfOk result (λ done. IsTrue done → entries_in root.new ≡ puts K.cmp (entries_in root.old) (changes_in edits.items)) }
    ensures undone { IfOk result (λ done. done ≡ false → entries_in root.new ≡ entries_in root.old) }
    ensures err { OnErr result (entries_in root.new ≡ entries_in root.old) }
    ensures row { AreNodes K.cmp C.valid root.new }
{
    root.recall_row();
    if root.is_empty() {
        return Ok(edits.is_empty());
    }
    let Some(_most) = root.all_sizes().entries.checked_add(edits.len()) else {
        return Err(NoMemory);
    };
    let mut left = edits;
    let none = Row::new(root.alloc());
    match mem::replace(root, none).open_row(&mut left, 0) {
        Opening::Open(open) => {
            *root = open.finish_row();
            root.recall_row();
            Ok(true)
        }
        Opening::Full(same) => {
            *root = same;
            root.recall_row();
            Ok(false)
        }
        Opening::NoMemory(same) => {
            *root = same;
            root.recall_row();
            Err(NoMemory)
        }
    }
}
