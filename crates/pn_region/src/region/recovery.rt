//! Losses, adoptions and copies of a region's tablets.

ghost use Rattle.std.specs.Prelude.{◌≡◌, ◌≤◌, length, slice_get, Ok, Err, IfOk, IfErr, OnOk, OnErr, IsSomeAnd};
ghost use Rattle.std.specs.List.{position};
ghost use Rattle.pn_tablet.specs.Copies.{is_memory as is_no_copy_memory};
ghost use Rattle.pn_tablet.specs.Prelude.{copy_of, Answers, Refuses, same_range};
ghost use Rattle.pn_tablet.specs.Steps.{is_memory};
ghost use Rattle.pn_tablet.specs.declared.fault.CopyFault.TheVariants.{NoEntry};
ghost use Rattle.pn_region.specs.Log.{with_break};
ghost use Rattle.pn_region.specs.Recovery.{after_loss, after_adoption};

use super::Region;
use crate::AdoptFault;
use pn_join::Marks;
use pn_tablet::{CopyFault, Range, TabletCopy, TabletOp};

impl Region {
    /// Loses the records of a tablet, whose number is below the layout's count. The tablet then recovers: it
    /// needs a copy that reaches its reach.
    ///
    /// Cover, reach and marks stay, and the log has a break.
    pub fn lose(&mut self, tablet: usize)
        requires { tablet ≤ length self.old.state.layout }
        ensures state { self.new.state ≡ after_loss self.old.state tablet }
        ensures log { self.new.log ≡ with_break self.old.log }
    {
        let _ = self.tablets[tablet].apply(&TabletOp::Lose);
        self.log.cut();
    }

    /// Joins the copy into the tablet of its range, which then serves, and returns the tablet's number. The marks
    /// stay, and the log has a break.
    ///
    /// `WrongRange` comes exactly where no tablet has the copy's range, and else `TooOld` exactly where the
    /// tablet is recovering and the copy does not reach what it needs.
    ///
    /// An error leaves the region as it was.
    pub fn adopt(&mut self, copy: TabletCopy) -> Result<usize, AdoptFault>
        ensures ok { IfOk result (λ tablet. after_adoption self.old.state copy ≡ Ok (tablet, self.new.state)) }
        ensures log { OnOk result (self.new.log ≡ with_break self.old.log) }
        ensures refused { IfErr result (λ fault. Refuses is_memory fault (after_adoption self.old.state copy)) }
        ensures err { OnErr result (self.new ≡ self.old) }
    {
        let Some(tablet) = self.tablet_for(&copy.range) else {
            return Err(AdoptFault::WrongRange);
        };
        self.tablets[tablet].apply(&TabletOp::Adopt(copy))?;
        self.log.cut();
        Ok(tablet)
    }

    /// A copy of a tablet, whose number is below the layout's count: its range, its cover as the marks, and its
    /// cells. Keys are copied, contents are shared.
    ///
    /// `Recovering` comes exactly where the tablet is recovering; else `Behind` exactly where its cover does not
    /// reach the need or its reach, with the first stream that falls short. `NoEntry` never comes.
    pub fn copy(&self, tablet: usize, need: &Marks) -> Result<TabletCopy, CopyFault>
        requires { tablet ≤ length self.now.state.layout }
        ensures exact { IsSomeAnd (slice_get self.now.state.tablets tablet) (λ state. Answers is_no_copy_memory result (copy_of state need.now)) }
        ensures entered { result ≡ Err NoEntry → ⊥ }
    {
        self.state(tablet).copy(need)
    }

    // The number of the tablet that has the range.
    fn tablet_for(&self, range: &Range) -> Option<usize>
        ensures { result ≡ position (λ tablet. same_range tablet.range range.now) self.now.state.tablets }
    {
        self.tablets
            .iter()
            .position(|tablet| tablet.range() == range)
    }
}
