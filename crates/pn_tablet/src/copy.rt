//! Copies of a tablet, and their forms.

ghost use Rattle.std.specs.Prelude.{◌≡◌};
ghost use Rattle.std.specs.FinMap.{keys};
ghost use Rattle.std.specs.List.{list_any};
ghost use Rattle.pn_record.specs.Prelude.{holds_number as content_holds_number, spell};
ghost use Rattle.pn_tablet.specs.CopyTexts.{form_at, form_number, form_of as written_form, may_hold};
ghost use Rattle.pn_tablet.specs.Copies.{copy_of, copy_shortfall, is_memory};
ghost use Rattle.pn_tablet.specs.Steps.{Answers};

use crate::fault::{Shortfall, first_shortfall};
use crate::{CopyFault, Range, Status, TabletState};
use pn_join::{Dup, Marks};
use pn_record::{Cell, Image, Records};
use std::marker::Model;

/// What the contents of a copy may hold.
#[derive(Clone, Copy, Debug, PartialEq, Eq)]
pub(crate) enum Form {
    /// Form 1: texts alone.
    Texts,
    /// Form 2: texts and numbers.
    Numbers,
}

impl Form {
    /// The form of a number, if it has one.
    pub(crate) fn of(number: u64) -> Option<Form>
        ensures { result ≡ form_at number }
    {
        match number {
            1 => Some(Form::Texts),
            2 => Some(Form::Numbers),
            _ => None,
        }
    }

    /// Its number, which the head of a copy names.
    pub(crate) fn number(self) -> u64
        ensures { result ≡ form_number self }
    {
        match self {
            Form::Texts => 1,
            Form::Numbers => 2,
        }
    }

    /// Whether an image may stand in a copy of the form.
    pub(crate) fn may_hold(self, image: &Image) -> bool
        ensures { result ≡ may_hold self image.now }
    {
        match self {
            Form::Texts => !image.content.holds_number(),
            Form::Numbers => true,
        }
    }
}

/// The form in which cells are written: 2 only where a content holds a number.
pub(crate) fn form_of(cells: &Records) -> Form
    ensures { result ≡ written_form (spell cells.now) }
{
    for (_key, cell) in cells.iter() {
        if holds_number(cell) {
            return Form::Numbers;
        }
    }
    Form::Texts
}

/// Whether a content of a cell holds a number.
pub(crate) fn holds_number(cell: &Cell) -> bool
    ensures { result ≡ list_any content_holds_number (keys cell.now.1) }
{
    cell.contents().iter().any(|content| content.holds_number())
}

/// A copy of a tablet: its range, the positions that it reached in streams, from 1 to 10^15, and its cells, whose
/// keys lie in the range.
#[derive(Drop)]
pub struct TabletCopy {
    pub range: Range,
    pub marks: Marks,
    pub cells: Records,
}

impl Model for TabletCopy {
    ghost use Rattle.pn_tablet.specs.Copies.{TabletCopyValue, IsCopy};

    ghost Value = { TabletCopyValue };

    ghost use Rattle.pn_tablet.specs.Proofs.{copy_code};

    ghost coded = { copy_code };

    ghost view = { λ copy. record { range = copy.range; marks = copy.marks; cells = copy.cells } };

    ghost invariant = { λ copy. IsCopy copy.range copy.marks copy.cells };
}

impl TabletState {
    /// A copy of a tablet that serves and whose cover reaches the need and the tablet's own reach. It copies keys and
    /// shares contents.
    ///
    /// `Recovering` exactly where the tablet recovers; otherwise `Behind`, with the first stream that falls short,
    /// exactly where the cover does not reach the need; otherwise so where it does not reach the tablet's reach.
    pub fn copy(&self, need: &Marks) -> Result<TabletCopy, CopyFault>
        ensures exact { Answers is_memory result (copy_of self.now need.now) }
    {
        if let Status::Recovering { .. } = self.status() {
            return Err(CopyFault::Recovering);
        }
        if let Some(short) = self.copy_shortfall(need) {
            return Err(CopyFault::Behind {
                stream: short.stream,
                has: short.has,
                wanted: short.wanted,
            });
        }
        Ok(TabletCopy {
            range: self.range().dup()?,
            marks: self.cover().dup()?,
            cells: self.cells().dup()?,
        })
    }

    // The first stream at which the cover falls short of the need, or else of the tablet's reach.
    fn copy_shortfall(&self, need: &Marks) -> Option<Shortfall>
        ensures { result ≡ copy_shortfall self.now need.now }
    {
        match first_shortfall(self.cover(), need) {
            Some(short) => Some(short),
            None => first_shortfall(self.cover(), self.reach()),
        }
    }
}
