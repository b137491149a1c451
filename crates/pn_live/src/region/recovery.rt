//! Losses and adoptions of live tablets, and notices.

ghost use Rattle.std.specs.Prelude.{◌≡◌, ◌≤◌, length, slice_get, Ok, IfOk, IfErr, OnOk, OnErr, IsSomeAnd};
ghost use Rattle.std.specs.List.{position};
ghost use Rattle.pn_tablet.specs.Prelude.{HasPositions, Refuses, step, same_range};
ghost use Rattle.pn_tablet.specs.Steps.{is_memory};
ghost use Rattle.pn_tablet.specs.declared.state.TabletOp.TheVariants.{Lose};
ghost use Rattle.pn_region.specs.Prelude.{after_loss, after_op, after_adoption, IsRegion, IsSince};
ghost use Rattle.pn_live.specs.LiveRegions.{core, tablets_in, after_op_at, Adopts};
ghost use Rattle.pn_live.specs.PublishedTablets.{state_at, notes_of};
ghost use Rattle.pn_live.specs.Readers.{AreNotesOf};

use super::LiveRegion;
use super::rounds::front_of;
use crate::front::Front;
use crate::publication_order::PublicationOrder;
use pn_join::NoMemory;
use pn_region::{AdoptFault, Since};
use pn_tablet::{Range, TabletCopy, TabletOp, TabletState};
use std::sync::Wait;

impl LiveRegion {
    /// A tablet, whose number is below the layout's count, loses its records, as in a region's loss. Answers the
    /// front. It waits for readers of the state before last.
    ///
    /// An error changes nothing: nothing is published, and the log has no break.
    pub fn lose<R: Wait>(&mut self, rt: &R, tablet: usize) -> Result<Front, NoMemory>
        requires { tablet ≤ length self.old.layout }
        ensures ok { OnOk result (self.new ≡ after_op_at self.old tablet Lose) }
        ensures state { OnOk result (core self.new ≡ after_loss (core self.old) tablet) }
        ensures front { IfOk result (λ front. front ≡ notes_of self.new.tablets) }
        ensures err { OnErr result (self.new ≡ self.old) }
        ensures fits { IfOk result (λ front. AreNotesOf (tablets_in self.old) front) }
        ensures same { tablets_in self.new ≡ tablets_in self.old }
    {
        let next = self.tablets[tablet].after(&TabletOp::Lose)?;
        self.publish_one(rt, tablet, next, TabletOp::Lose)
    }

    /// The tablet whose range is the copy's takes the copy, as in a region's adoption. Answers the front.
    /// It waits for readers of the state before last.
    ///
    /// `WrongRange` and `TooOld` come exactly where a region's adoption is refused so, and `Memory` only elsewhere.
    /// An error changes nothing: nothing is published, and the log has no break.
    pub fn adopt<R: Wait>(&mut self, rt: &R, copy: TabletCopy) -> Result<Front, AdoptFault>
        ensures ok { OnOk result (Adopts copy self.old self.new) }
        ensures front { IfOk result (λ front. front ≡ notes_of self.new.tablets) }
        ensures refused { IfErr result (λ fault. Refuses is_memory fault (after_adoption (core self.old) copy)) }
        ensures err { OnErr result (self.new ≡ self.old) }
        ensures fits { IfOk result (λ front. AreNotesOf (tablets_in self.old) front) }
        ensures same { tablets_in self.new ≡ tablets_in self.old }
    {
        let Some(number) = self.tablet_for(&copy.range) else {
            return Err(AdoptFault::WrongRange);
        };
        let tablet = &self.tablets[number];
        if let Some(fault) = tablet.refusal(&copy.marks) {
            return Err(fault);
        }
        let adoption = TabletOp::Adopt(copy);
        let Ok(next) = tablet.after(&adoption) else {
            return Err(AdoptFault::Memory);
        };
        let Ok(front) = self.publish_one(rt, number, next, adoption) else {
            return Err(AdoptFault::Memory);
        };
        Ok(front)
    }

    /// The notices after the number, where the log still has all of them.
    pub fn notices_since(&self, number: u64) -> Result<Since, NoMemory>
        ensures { IfOk result (λ since. IsSince self.now.log number since) }
    {
        self.log.since(number)
    }

    /// The number of the tablet that has the range.
    pub fn tablet_for(&self, range: &Range) -> Option<usize>
        ensures { result ≡ position (λ tablet. same_range tablet.range range.now) self.now.tablets }
    {
        self.tablets
            .iter()
            .position(|tablet| tablet.range() == range)
    }

    // Publishes the state that an operation makes of one tablet. The log has a break.
    fn publish_one<R: Wait>(
        &mut self,
        rt: &R,
        number: usize,
        next: TabletState,
        operation: TabletOp,
    ) -> Result<Front, NoMemory>
        requires positions { HasPositions operation }
        requires next { IsSomeAnd (slice_get self.old.tablets number) (λ tablet. step (state_at tablet) operation ≡ Ok next) }
        requires region { IsRegion (after_op (core self.old) number operation) }
        ensures ok { OnOk result (self.new ≡ after_op_at self.old number operation) }
        ensures state { OnOk result (core self.new ≡ after_op (core self.old) number operation) }
        ensures front { IfOk result (λ front. front ≡ notes_of self.new.tablets) }
        ensures err { OnErr result (self.new ≡ self.old) }
        ensures fits { IfOk result (λ front. AreNotesOf (tablets_in self.old) front) }
        ensures same { tablets_in self.new ≡ tablets_in self.old }
    {
        let notes = Vec::with_capacity(self.alloc, self.tablets.len())?;
        let mut order = PublicationOrder::new();
        self.tablets[number].publish(rt, next, operation, &mut order);
        self.log.cut();
        Ok(front_of(notes, &self.tablets))
    }
}
