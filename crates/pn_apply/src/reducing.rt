//! The join that shares bring to each tablet.

ghost use Rattle.std.specs.Prelude.{◌≡◌, ◌++◌, ◌≤◌, List, length, map, IsTrue, IfOk, OnOk, ⊤};
ghost use Rattle.std.specs.FinMap.{is_sorted};
ghost use Rattle.pn_join.specs.Prelude.{are_positions};
ghost use Rattle.pn_record.specs.Cells.{Holds};
ghost use Rattle.pn_record.specs.declared.records.Image.{Image};
ghost use Rattle.pn_record.specs.Sets.{bytes_cmp};
ghost use Rattle.pn_record.specs.Prelude.{table_of};
ghost use Rattle.pn_tablet.specs.declared.state.TabletOp.TheVariants.{Join};
ghost use Rattle.pn_apply.specs.declared.reducing.TheConstants.{MAX_WORKERS};
ghost use Rattle.pn_apply.specs.Reducing.{all_images, images_in, joins_of, ranges};

use crate::apply::GatePass;
use crate::working::{TabletWork, Task, work_all};
use crate::{Batch, Gate, Share};
use pn_join::{Dup, Marks, NoMemory};
use pn_record::{Records, join_records};
use pn_tablet::{Layout, Range, TabletOp, cells_within};
use std::alloc::Global;
use std::marker::Sync;
use std::thread::Threads;

/// The most workers of a call.
pub const MAX_WORKERS: usize = 16;

/// The join that the shares bring to each tablet, in the order of the tablets: the cells of all images in its range,
/// with the marks. Contents are shared. A share that is not finished is out of memory.
///
/// The marks' positions are 1 to 10^15.
///
/// There are 1 to 16 workers, whose number does not change the answer. A worker enters the gate before each
/// of its tablets.
pub fn reduce<R: Threads + Sync, G: Gate + Sync>(
    rt: &R,
    alloc: Global,
    shares: &[Share],
    layout: &Layout,
    marks: &Marks,
    workers: usize,
    gate: &G,
) -> Result<Vec<TabletOp>, NoMemory>
    requires positions { IsTrue (are_positions marks.now) }
    requires workers { (1 ≤ workers) × (workers ≤ MAX_WORKERS) }
    ensures { IfOk result (λ operations. operations.items ≡ joins_of layout.now marks.now (all_images shares.now)) }
{
    let mut ranges = ranges_of(alloc, layout)?;
    let work = Cutting {
        shares,
        tablets: ranges.len(),
    };
    let task = Task {
        alloc,
        work: &work,
        gate,
    };
    let cells = work_all(rt, &task, workers, ranges.as_mut_slice())?;
    joins(alloc, cells, marks)
}

// The ranges of the tablets.
fn ranges_of(alloc: Global, layout: &Layout) -> Result<Vec<Range>, NoMemory>
    ensures { IfOk result (λ found. found.items ≡ ranges layout.now) }
{
    let mut found = Vec::with_capacity(alloc, layout.count())?;
    for tablet in 0..layout.count() {
        found.push_reserved(layout.range_of(tablet)?);
    }
    Ok(found)
}

// A join of each tablet's cells, with the marks.
fn joins(alloc: Global, cells: Vec<Records>, marks: &Marks) -> Result<Vec<TabletOp>, NoMemory>
    ensures { IfOk result (λ operations. operations.items ≡ map (λ own. Join own marks.now) cells.items) }
{
    let mut operations = Vec::with_capacity(alloc, cells.len())?;
    for own in cells {
        operations.push_reserved(TabletOp::Join {
            cells: own,
            marks: marks.dup()?,
        });
    }
    Ok(operations)
}

// The cells of shares, cut into the ranges of tablets.
#[derive(Drop)]
struct Cutting<'a> {
    shares: &'a [Share],
    tablets: usize,
}

impl TabletWork<Range, Records> for Cutting<'_> {
    ghost fits = { λ work n range. ⊤ };

    ghost turns = { λ work n old new. ⊤ };

    ghost makes = { λ work n range cells. cells ≡ table_of (images_in range (all_images work.shares.now)) };

    ghost kept = { λ work old new. ⊤ };

    // An equal part of all, as cells are counted only when they are cut.
    fn count_images(&self, _tablet: usize, _range: &Range) -> usize {
        count_images(self.shares).div_ceil(self.tablets.max(1))
    }

    fn work(
        &self,
        _entered: GatePass,
        alloc: Global,
        range: &mut Range,
    ) -> Result<Records, NoMemory> {
        cells_in(alloc, self.shares, range)
    }
}

// How many images the shares have.
fn count_images(shares: &[Share]) -> usize {
    let mut count = 0_usize;
    for share in shares {
        count = count.saturating_add(share.count());
    }
    count
}

// The cells of the shares' images in a range.
fn cells_in(alloc: Global, shares: &[Share], range: &Range) -> Result<Records, NoMemory>
    ensures { IfOk result (λ cells. cells ≡ table_of (images_in range.now (all_images shares.now))) }
{
    let mut cells = Records::new(alloc);
    for share in shares {
        join_part(&mut cells, share, range)?;
    }
    Ok(cells)
}

// Joins the cells of a share's images in a range.
fn join_part(cells: &mut Records, share: &Share, range: &Range) -> Result<(), NoMemory>
    ensures held { OnOk result ((taken : List Image) → Holds cells.old taken → Holds cells.new (taken ++ images_in range.now share.now.images)) }
    ensures rising { OnOk result (IsTrue (is_sorted bytes_cmp cells.new)) }
{
    let Some(whole) = share.cells() else {
        return Err(NoMemory);
    };
    let part = cells_within(range, whole)?;
    join_records(cells, &part)
}
