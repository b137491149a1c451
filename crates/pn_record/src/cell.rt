//! The cell of a key, and what holds one.

ghost use Rattle.std.specs.Prelude.{◌≡◌, ◌≢◌, ◌↔◌, ◌∷◌, [], ◌<◌, length, unwrap_or, IsTrue, IfOk, IfSome, OnOk, OnErr, IfErr};
ghost use Rattle.std.specs.FinMap.{keys};
ghost use Rattle.std.specs.List.{list_all};
ghost use Rattle.pn_record.specs.Sets.{CellValue, set_of, union, cell_joined, HasContents, state_of, is_deletion as deletes};
ghost use Rattle.pn_record.specs.Laws.{cell_joined-laws};

use crate::held_contents::{HeldContents, merge_contents};
use crate::{Body, Content, Version};
use pn_join::{Dup, Join, NoMemory};
use std::alloc::Global;
use std::cmp::Ordering;
use std::marker::Model;
use std::sync::Arc;

/// The greatest version seen of a record, with all contents that came with it, in content order. If there are
/// several, all are shown. Copies share their contents.
#[derive(Debug, Drop)]
pub struct Cell {
    version: Version,
    contents: Arc<HeldContents>,
    alloc: Global,
}

/// Whether a record is there, deleted, or in conflict, by all contents of its cell.
#[derive(Clone, Copy, Debug, PartialEq, Eq)]
pub enum CellState {
    /// One content, which has fields.
    One,
    /// All contents are deletions.
    Deleted,
    /// Several contents, of which at least one has fields.
    Conflict,
}

impl Model for Cell {
    ghost use Rattle.std.specs.Prelude.{ℕ};
    ghost use Rattle.std.specs.Coded.{coded_ℕ, coded×};
    ghost use Rattle.std.specs.FinMap as map;
    ghost use base.Stored.{coded_unit};
    ghost use Rattle.pn_record.specs.Showing.{shown_code};
    ghost use Rattle.pn_record.specs.Showing.{held_contents};
    ghost use Rattle.pn_record.specs.Sets.{CellValue, set_of, IsContents};

    ghost Value = { CellValue };

    ghost coded = { coded× (coded× coded_ℕ coded_ℕ) (map.code shown_code coded_unit) };

    ghost view = { λ cell. (cell.version, set_of (held_contents cell.contents.value)) };

    ghost invariant = { λ cell. IsContents (held_contents cell.contents.value) };
}

impl Cell {
    /// The cell of one image.
    pub fn of(alloc: Global, version: Version, content: Content) -> Result<Cell, NoMemory>
        ensures { IfOk result (λ cell. (cell ≡ (version, set_of (content ∷ []))) × HasContents cell) }
    {
        Ok(Cell {
            version,
            contents: Arc::new(alloc, HeldContents::One(content))?,
            alloc,
        })
    }

    /// The version of its contents.
    pub fn version(&self) -> Version
        ensures version { result ≡ self.now.0 }
        ensures some { HasContents self.now }
    {
        self.version
    }

    /// Its contents in content order, each once. There is at least one.
    pub fn contents(&self) -> &[Content]
        ensures contents { result.now ≡ keys self.now.1 }
        ensures some { 0 < length result.now }
    {
        self.contents.as_slice()
    }

    /// Whether the record is there, deleted, or in conflict.
    pub fn state(&self) -> CellState
        ensures { result ≡ state_of self.now }
    {
        let contents = self.contents();
        if are_deletions(contents) {
            CellState::Deleted
        } else if contents.len() == 1 {
            CellState::One
        } else {
            CellState::Conflict
        }
    }
}

fn are_same(contents: &[Content], others: &[Content]) -> bool
    ensures { IsTrue result ↔ (contents.now ≡ others.now) }
{
    contents == others
}

fn are_deletions(contents: &[Content]) -> bool
    ensures { result ≡ list_all deletes contents.now }
{
    contents.iter().all(|content| is_deletion(content))
}

fn is_deletion(content: &Content) -> bool
    ensures { result ≡ deletes content.now }
{
    matches!(content.body, Body::Deleted)
}

impl Dup for Cell {
    /// A cell that shares the contents.
    fn dup(&self) -> Result<Cell, NoMemory>
        ensures { IfOk result (λ copy. copy ≡ self.now) }
    {
        Ok(Cell {
            version: self.version,
            contents: Arc::try_clone(&self.contents)?,
            alloc: self.alloc,
        })
    }

    // An atomic read is not optimised away, although its result is unused.
    fn prefetch(&self) {
        Arc::strong_count(&self.contents);
    }
}

impl Join for Cell {
    ghost Meaning = { CellValue };

    ghost meaning = { λ cell. cell };

    ghost joined = { cell_joined };

    ghost valid = { HasContents };

    ghost laws = { cell_joined-laws };

    /// Keeps the cell of the greater version, or at equal versions the contents of both.
    fn join_from(&mut self, other: &Cell) -> Result<(), NoMemory>
        ensures ok { OnOk result (self.new ≡ cell_joined self.old other.now) }
        ensures err { OnErr result (self.new ≡ self.old) }
        ensures are_valid { HasContents self.old × HasContents other.now × HasContents self.new }
    {
        match self.version().cmp(&other.version()) {
            Ordering::Less => *self = other.dup()?,
            Ordering::Equal => self.add_contents(other)?,
            Ordering::Greater => {}
        }
        Ok(())
    }

    /// `None` if the other is older, or brings no new content.
    fn changed_by(&self, other: &Cell) -> Result<Option<Cell>, NoMemory>
        ensures joined { IfOk result (λ cell. unwrap_or cell self.now ≡ cell_joined self.now other.now) }
        ensures differs { IfOk result (λ cell. IfSome cell (λ c. c ≢ self.now)) }
        ensures are_valid { IfOk result (λ cell. HasContents self.now × HasContents other.now × HasContents (unwrap_or cell self.now)) }
    {
        let order = self.version().cmp(&other.version());
        match order {
            Ordering::Less => Ok(Some(other.dup()?)),
            Ordering::Equal => Ok(self.with_contents_of(other)?),
            Ordering::Greater => Ok(None),
        }
    }
}

impl Cell {
    // This cell with the contents of another of the same version added. `None` if that adds none.
    fn with_contents_of(&self, other: &Cell) -> Result<Option<Cell>, NoMemory>
        ensures gathered { IfOk result (λ cell. unwrap_or cell self.now ≡ (self.now.0, union self.now.1 other.now.1)) }
        ensures differs { IfOk result (λ cell. IfSome cell (λ c. c ≢ self.now)) }
        ensures some { IfOk result (λ cell. HasContents self.now × HasContents other.now × HasContents (unwrap_or cell self.now)) }
    {
        if are_same(self.contents(), other.contents()) {
            return Ok(None);
        }
        let mut both = self.dup()?;
        both.add_contents(other)?;
        Ok(self.unless_same(both))
    }

    // The other cell, of the same version. `None` if its contents are the same.
    fn unless_same(&self, other: Cell) -> Option<Cell>
        requires version { other.0 ≡ self.now.0 }
        requires some { HasContents other }
        ensures cell { unwrap_or result self.now ≡ other }
        ensures differs { IfSome result (λ cell. cell ≢ self.now) }
        ensures some { HasContents (unwrap_or result self.now) }
    {
        if are_same(self.contents(), other.contents()) {
            return None;
        }
        Some(other)
    }

    // Adds the contents of another cell of the same version.
    fn add_contents(&mut self, other: &Cell) -> Result<(), NoMemory>
        ensures ok { OnOk result (self.new ≡ (self.old.0, union self.old.1 other.now.1)) }
        ensures err { OnErr result (self.new ≡ self.old) }
        ensures some { HasContents self.old × HasContents other.now × HasContents self.new }
    {
        if !are_same(self.contents(), other.contents()) {
            let contents = merge_contents(
                self.alloc,
                self.contents.as_slice(),
                other.contents.as_slice(),
            )?;
            self.contents = Arc::new(self.alloc, HeldContents::Many(contents))?;
        }
        Ok(())
    }
}

impl Cell {
    /// The cell of one image. Where memory runs out, the content is given back.
    pub fn holding(alloc: Global, version: Version, content: Content) -> Result<Cell, Content>
        ensures ok { IfOk result (λ cell. (cell ≡ (version, set_of (content ∷ []))) × HasContents cell) }
        ensures err { IfErr result (λ back. back ≡ content) }
    {
        match Arc::new(alloc, HeldContents::One(content)) {
            Ok(contents) => Ok(Cell {
                version,
                contents,
                alloc,
            }),
            Err(refused) => match refused.value {
                HeldContents::One(content) => Err(content),
                HeldContents::Many(_) => unreachable!(),
            },
        }
    }
}
