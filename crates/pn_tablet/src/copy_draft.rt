//! A copy while its text is read.

ghost use Rattle.std.specs.Prelude.{◌≡◌, ◌≤◌, true, IsTrue, OnOk};
ghost use Rattle.std.specs.List.{list_all};
ghost use Rattle.std.specs.Option.{option_copied, option_map_or};
ghost use Rattle.std.specs.Ordering.{is_lt};
ghost use Rattle.pn_join.specs.Prelude.{is_position, name_cmp};
ghost use Rattle.pn_record.specs.Prelude.{spell, table_of};
ghost use Rattle.pn_tablet.specs.CopyTexts.{is_memory, comes_after};
ghost use Rattle.pn_tablet.specs.CopyReading.{with_mark, with_image, finish};
ghost use Rattle.pn_tablet.specs.Copies.{empty_draft, with_last};
ghost use Rattle.pn_tablet.specs.Steps.{Answers};

use crate::{CopyTextFault, Range, TabletCopy};
use pn_join::{Marks, NoMemory, StreamName, raise_at};
use pn_record::{Image, Records, add_image};
use std::alloc::Global;
use std::cmp::Ordering;
use std::marker::Model;

/// What was read of a copy so far. The last image stays beside the cells until the next one is compared with it.
#[derive(Drop)]
pub(crate) struct CopyDraft {
    range: Range,
    marks: Marks,
    cells: Records,
    last: Option<Image>,
    alloc: Global,
}

impl Model for CopyDraft {
    ghost use Rattle.pn_tablet.specs.Copies.{DraftValue, IsDraft, with_last};
    ghost use Rattle.pn_tablet.specs.Proofs.{draft_code};

    ghost Value = { DraftValue };

    ghost coded = { draft_code };

    ghost view = { λ d. record { range = d.range; marks = d.marks; cells = with_last d.cells d.last; last = d.last } };

    ghost invariant = { λ d. IsDraft d.range d.marks d.cells d.last };
}

impl CopyDraft {
    /// A copy of which only the head was read.
    pub(crate) fn new(alloc: Global, range: Range) -> CopyDraft
        ensures { result ≡ empty_draft range }
    {
        CopyDraft {
            range,
            marks: Marks::new(alloc),
            cells: Records::new(alloc),
            last: None,
            alloc,
        }
    }

    /// Adds the mark of line `number`, whose position is from 1 to 10^15.
    pub(crate) fn with_mark(
        mut self,
        number: u64,
        name: StreamName,
        position: u64,
    ) -> Result<CopyDraft, CopyTextFault>
        requires { IsTrue (is_position position) }
        ensures { Answers is_memory result (with_mark number self (name, position)) }
    {
        if self.last.is_some() {
            return Err(CopyTextFault::BadLine(number));
        }
        if !is_after_all(&self.marks, &name) {
            return Err(CopyTextFault::NotRising(number));
        }
        raise_at(&mut self.marks, name, position)?;
        Ok(self)
    }

    /// Adds the image of line `number`.
    pub(crate) fn with_image(
        mut self,
        number: u64,
        image: Image,
    ) -> Result<CopyDraft, CopyTextFault>
        ensures { Answers is_memory result (with_image number self image) }
    {
        if !self.range.contains(&image.key) {
            return Err(CopyTextFault::OutsideRange(number));
        }
        if !is_next(self.last.as_ref(), &image) {
            return Err(CopyTextFault::NotRising(number));
        }
        settle(self.alloc, &mut self.cells, self.last.take())?;
        self.last = Some(image);
        Ok(self)
    }

    /// The whole copy, where line `number` is its end with the right count and nothing follows it.
    pub(crate) fn finish(
        mut self,
        number: u64,
        count: u64,
        is_over: bool,
    ) -> Result<TabletCopy, CopyTextFault>
        requires { 2 ≤ number }
        ensures { Answers is_memory result (finish number self count is_over) }
    {
        if count != number - 2 || !is_over {
            return Err(CopyTextFault::BadEnd);
        }
        settle(self.alloc, &mut self.cells, self.last.take())?;
        Ok(TabletCopy {
            range: self.range,
            marks: self.marks,
            cells: self.cells,
        })
    }
}

// Whether the name comes after those of all marks.
fn is_after_all(marks: &Marks, name: &StreamName) -> bool
    ensures { result ≡ list_all (λ other. is_lt (name_cmp other.0 name.now)) marks.now }
{
    marks.lower_bound(name) == marks.len()
}

// Whether the image comes after the last one, if there is one.
fn is_next(last: Option<&Image>, image: &Image) -> bool
    ensures { result ≡ option_map_or (λ other. comes_after other image.now) (option_copied last.entry) true }
{
    match last {
        None => true,
        Some(last) => match last.key.cmp(&image.key) {
            Ordering::Less => true,
            Ordering::Equal => last.version.cmp(&image.version).is_eq()
                && last.content.cmp(&image.content).is_lt(),
            Ordering::Greater => false,
        },
    }
}

// Joins the last image into the cells, if there is one.
fn settle(alloc: Global, cells: &mut Records, last: Option<Image>) -> Result<(), NoMemory>
    requires { cells.old ≡ table_of (spell cells.old) }
    ensures { OnOk result (cells.new ≡ with_last cells.old last) }
{
    match last {
        Some(image) => add_image(alloc, cells, image),
        None => Ok(()),
    }
}
