//! Images, and the records that they are of.

ghost use Rattle.std.specs.Prelude.{◌≡◌, ◌≢◌, ℕ, Some, IsTrue, ◌∷◌, [], ◌++◌, List, IfOk, OnOk, OnErr};
ghost use Rattle.std.specs.FinMap.{find, is_sorted};
ghost use Rattle.std.specs.List.{AllByRecursion};
ghost use Rattle.pn_record.specs.declared.records.Image.{Image};
ghost use Rattle.pn_record.specs.Cells.{Holds, spell, adds};
ghost use Rattle.pn_record.specs.Sets.{bytes_cmp, cell_joined, HasContents};
ghost use Rattle.pn_join.specs.Prelude.{AreChanges, optional_joined};

use crate::{Cell, Content, Key, Version};
use pn_join::{Join, NoMemory, Table, TableChange};
use std::alloc::Global;

/// A full image of a record, as one update left it.
#[derive(Debug, Drop)]
pub struct Image {
    pub key: Key,
    pub version: Version,
    pub content: Content,
}

/// The cells of records, by their keys.
pub type Records = Table<Key, Cell>;

/// Adds an image. An error leaves the records as they were.
pub fn add_image(alloc: Global, records: &mut Records, image: Image) -> Result<(), NoMemory>
    ensures ok { OnOk result ((taken : List Image) → Holds records.old taken → Holds records.new (taken ++ image ∷ [])) }
    ensures rising { OnOk result (IsTrue (is_sorted bytes_cmp records.new)) }
    ensures err { OnErr result (records.new ≡ records.old) }
{
    let Image {
        key,
        version,
        content,
    } = image;
    let cell = Cell::of(alloc, version, content)?;
    records.join_entry(key, cell)
}

/// Joins other records into these, which then hold the images of both. An error leaves them as they were.
pub fn join_records(records: &mut Records, other: &Records) -> Result<(), NoMemory>
    ensures lists { OnOk result ((taken more : List Image) → Holds records.old taken → Holds other.now more → Holds records.new (taken ++ more)) }
    ensures spelled { OnOk result (Holds records.new (spell records.old ++ spell other.now)) }
    ensures added { OnOk result ((more : List Image) → Holds other.now more → records.new ≡ adds records.old more) }
    ensures joined { OnOk result ((key : List ℕ) → find bytes_cmp key records.new
        ≡ optional_joined cell_joined (find bytes_cmp key records.old) (find bytes_cmp key other.now)) }
    ensures rising { IsTrue (is_sorted bytes_cmp records.new) × IsTrue (is_sorted bytes_cmp other.now) }
    ensures err { OnErr result (records.new ≡ records.old) }
{
    records.join_from(other)
}

/// Joins other records into these, and returns the keys whose cells changed, in key order. An error leaves them as
/// they were.
pub fn join_with_changes(
    records: &mut Records,
    other: &Records,
) -> Result<Vec<TableChange<Key, Cell>>, NoMemory>
    ensures changes { IfOk result (λ changes. AreChanges bytes_cmp (λ cell. cell) cell_joined HasContents records.old other.now changes.items) }
    ensures differ { IfOk result (λ changes. AllByRecursion (λ change. change.before ≢ Some change.after) changes.items) }
    ensures spelled { OnOk result (Holds records.new (spell records.old ++ spell other.now)) }
    ensures joined { OnOk result ((key : List ℕ) → find bytes_cmp key records.new
        ≡ optional_joined cell_joined (find bytes_cmp key records.old) (find bytes_cmp key other.now)) }
    ensures rising { OnOk result (IsTrue (is_sorted bytes_cmp records.new) × IsTrue (is_sorted bytes_cmp other.now)) }
    ensures err { OnErr result (records.new ≡ records.old) }
{
    records.join_with_changes(other)
}
