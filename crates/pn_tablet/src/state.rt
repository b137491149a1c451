//! The state of a tablet, and the operations on it.

ghost use Rattle.std.specs.Prelude.{◌≡◌, Ok, Err, IsOk, IsTrue, IfOk, IfErr, OnOk, OnErr, MatchOption};
ghost use Rattle.pn_join.specs.Prelude.{raised_marks, are_positions};
ghost use Rattle.pn_tablet.specs.Steps.{HasPositions, Refuses, step, recovering_tablet, is_memory, answer, changes};
ghost use Rattle.pn_tablet.specs.Tablets.{empty_tablet, need_shortfall as shortfall_of_need};
ghost use Rattle.pn_tablet.specs.declared.state.TabletOp.TheVariants.{Join, Lose, Adopt};

mod parts;

use crate::change::{add_changes, reserve_changes};
use crate::counted_cells::CountedCells;
use crate::coverage::Coverage;
use crate::fault::{Shortfall, first_shortfall};
use crate::range::lie_in;
use crate::{Change, OpFault, Range, TabletCopy};
use pn_join::{Dup, Marks, NoMemory};
use pn_record::Records;
use std::alloc::Global;
use std::marker::Model;

/// Whether a tablet serves, or waits for a copy that reaches what it needs.
#[derive(Drop)]
pub enum Status {
    Serving,
    Recovering { need: Marks },
}

/// One event of a tablet.
#[derive(Drop)]
pub enum TabletOp {
    /// Cells are joined into the tablet's, and the marks raise its cover and its reach, even while it recovers.
    Join { cells: Records, marks: Marks },
    /// The tablet loses its records. It then recovers, and needs a copy that reaches its reach.
    Lose,
    /// A copy of the tablet is joined in, and the tablet serves again.
    Adopt(TabletCopy),
}

/// A tablet: a range of keys, the cells of its records, the positions up to which it took streams, and whether it
/// serves.
#[derive(Drop)]
pub struct TabletState {
    range: Range,
    cells: CountedCells,
    coverage: Coverage,
    status: Status,
    spare: Option<Marks>,
    alloc: Global,
}

impl Model for TabletState {
    ghost use Rattle.pn_tablet.specs.Tablets.{TabletStateValue};

    ghost Value = { TabletStateValue };

    ghost use Rattle.pn_tablet.specs.Proofs.{tablet_code};

    ghost coded = { tablet_code };

    ghost use Rattle.pn_tablet.specs.Tablets.{IsTablet};

    ghost view = { λ state. record {
      range = state.range;
      cells = state.cells;
      cover = state.coverage.cover;
      reach = state.coverage.reach;
      status = state.status;
    } };

    ghost invariant = { λ state. IsTablet state.range state.cells state.coverage.reach state.status state.spare };
}

impl TabletState {
    /// An empty tablet that serves. Later operations take memory from `alloc`.
    pub fn new(alloc: Global, range: Range) -> TabletState
        ensures { result ≡ empty_tablet range }
    {
        TabletState {
            range,
            cells: CountedCells::new(alloc),
            coverage: Coverage::new(alloc),
            status: Status::Serving,
            spare: Some(Marks::new(alloc)),
            alloc,
        }
    }

    /// Takes one operation, with positions from 1 to 10^15, and returns the keys whose cells a join changed. A loss
    /// takes no memory and is never refused.
    ///
    /// `WrongRange` exactly where a key of a join lies outside the range or a copy has another range.
    ///
    /// Otherwise `TooOld` exactly where the tablet recovers and the copy does not reach the need. An error changes
    /// nothing.
    pub fn apply(&mut self, op: &TabletOp) -> Result<Vec<Change>, OpFault>
        requires positions { HasPositions op.now }
        ensures ok { OnOk result (step self.old op.now ≡ Ok self.new) }
        ensures changes { IfOk result (λ list. list.items ≡ answer op.now self.old self.new) }
        ensures refused { IfErr result (λ fault. Refuses is_memory fault (step self.old op.now)) }
        ensures err { OnErr result (self.new ≡ self.old) }
        ensures lose { op.now ≡ Lose → IsOk result }
    {
        match op {
            TabletOp::Join { cells, marks } => self.join(cells, marks),
            TabletOp::Lose => {
                self.lose();
                Ok(Vec::new(self.alloc))
            }
            TabletOp::Adopt(copy) => {
                self.adopt(copy)?;
                Ok(Vec::new(self.alloc))
            }
        }
    }
}

impl TabletState {
    fn join(&mut self, cells: &Records, marks: &Marks) -> Result<Vec<Change>, OpFault>
        requires { IsTrue (are_positions marks.now) }
        ensures ok { OnOk result (step self.old (Join cells.now marks.now) ≡ Ok self.new) }
        ensures changes { IfOk result (λ list. list.items ≡ changes self.old.cells self.new.cells) }
        ensures refused { IfErr result (λ fault. Refuses is_memory fault (step self.old (Join cells.now marks.now))) }
        ensures err { OnErr result (self.new ≡ self.old) }
    {
        if !lie_in(&self.range, cells) {
            return Err(OpFault::WrongRange);
        }
        let mut changes = reserve_changes(self.alloc, cells.len())?;
        let (coverage, spare) = raise_coverage(&self.coverage, marks)?;
        let table_changes = self.cells.join_with_changes(cells)?;
        add_changes(&mut changes, table_changes);
        self.coverage = coverage;
        self.spare = Some(spare);
        Ok(changes)
    }

    fn lose(&mut self)
        ensures { self.new ≡ recovering_tablet self.old }
    {
        self.coverage.recall_positions();
        self.cells = CountedCells::new(self.alloc);
        if let Some(need) = self.spare.take() {
            self.status = Status::Recovering { need };
        }
    }

    #[tactic(auto, using(crate::proofs::JoinLaws::refused_step))]
    fn adopt(&mut self, copy: &TabletCopy) -> Result<(), OpFault>
        ensures ok { OnOk result (step self.old (Adopt copy.now) ≡ Ok self.new) }
        ensures refused { IfErr result (λ fault. Refuses is_memory fault (step self.old (Adopt copy.now))) }
        ensures err { OnErr result (self.new ≡ self.old) }
    {
        if let Some(fault) = self.copy_refusal(copy) {
            return Err(fault);
        }
        let (coverage, spare) = raise_coverage(&self.coverage, &copy.marks)?;
        self.cells.join_and_count(&copy.cells)?;
        self.coverage = coverage;
        self.spare = Some(spare);
        self.status = Status::Serving;
        Ok(())
    }

    /// Why the tablet would refuse an operation, if it would. It takes no memory.
    pub fn refusal(&self, op: &TabletOp) -> Option<OpFault>
        ensures { MatchOption result (IsOk (step self.now op.now)) (λ fault. step self.now op.now ≡ Err fault) }
    {
        match op {
            TabletOp::Join { cells, .. } if lie_in(&self.range, cells) => None,
            TabletOp::Join { .. } => Some(OpFault::WrongRange),
            TabletOp::Lose => None,
            TabletOp::Adopt(copy) => self.copy_refusal(copy),
        }
    }

    fn copy_refusal(&self, copy: &TabletCopy) -> Option<OpFault>
        ensures { MatchOption result (IsOk (step self.now (Adopt copy.now))) (λ fault. step self.now (Adopt copy.now) ≡ Err fault) }
    {
        if self.range != copy.range {
            return Some(OpFault::WrongRange);
        }
        let short = self.need_shortfall(&copy.marks)?;
        Some(OpFault::TooOld {
            stream: short.stream,
            has: short.has,
            needs: short.wanted,
        })
    }

    /// The first stream, in byte order, at which the marks fall short of what the tablet needs; none while it serves.
    pub fn need_shortfall(&self, marks: &Marks) -> Option<Shortfall>
        ensures { result ≡ shortfall_of_need self.now.status marks.now }
    {
        match &self.status {
            Status::Serving => None,
            Status::Recovering { need } => first_shortfall(marks, need),
        }
    }
}

// The coverage raised by the marks, and a copy of its reach, which a later loss takes as the need.
fn raise_coverage(coverage: &Coverage, marks: &Marks) -> Result<(Coverage, Marks), NoMemory>
    requires { IsTrue (are_positions marks.now) }
    ensures { IfOk result (λ both. (both.0.cover ≡ raised_marks coverage.now.cover marks.now)
        × ((both.0.reach ≡ raised_marks coverage.now.reach marks.now) × (both.1 ≡ both.0.reach))) }
{
    let higher = coverage.with_marks(marks)?;
    let spare = higher.reach().dup()?;
    Ok((higher, spare))
}

impl Dup for TabletState {
    /// Copies the keys, and shares the contents.
    fn dup(&self) -> Result<TabletState, NoMemory>
        ensures { IfOk result (λ copy. copy ≡ self.now) }
    {
        Ok(TabletState {
            range: self.range.dup()?,
            cells: self.cells.dup()?,
            coverage: self.coverage.dup()?,
            status: self.status.dup()?,
            spare: Some(self.coverage.reach().dup()?),
            alloc: self.alloc,
        })
    }
}

impl Dup for Status {
    fn dup(&self) -> Result<Status, NoMemory>
        ensures { IfOk result (λ copy. copy ≡ self.now) }
    {
        match self {
            Status::Serving => Ok(Status::Serving),
            Status::Recovering { need } => Ok(Status::Recovering { need: need.dup()? }),
        }
    }
}
