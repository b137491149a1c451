//! Live regions that start from copies.

ghost use Rattle.std.specs.Prelude.{◌≡◌, ◌≤◌, length, IfOk, IfErr, OnOk};
ghost use Rattle.std.specs.List.{AllByRecursion};
ghost use Rattle.pn_tablet.specs.Prelude.{Refuses};
ghost use Rattle.pn_tablet.specs.Steps.{is_memory};
ghost use Rattle.pn_region.specs.Events.{adoption, start_events};
ghost use Rattle.pn_region.specs.Prelude.{after_adoption};
ghost use Rattle.pn_region.specs.Regions.{new_region};
ghost use Rattle.pn_live.specs.declared.region.opening.TheConstants.{MAX_READERS};
ghost use Rattle.pn_live.specs.LiveRegions.{AllLeadLive, LeadsLive, core, tablets_in, StartsLive, StopsStart};
ghost use Rattle.pn_live.specs.Readers.{IsNewReader};

use super::LiveRegion;
use crate::fault::StartFault;
use crate::reader::LiveReader;
use pn_region::AdoptFault;
use pn_tablet::{Layout, TabletCopy};
use std::alloc::Global;
use std::sync::Wait;

impl LiveRegion {
    /// Opens a live region, with 1 to 32 readers, which adopts each of the copies in turn. Then it takes as marks what
    /// all tablets have. The readers see nothing before that.
    ///
    /// `Open` as from `open`. Then `Adopt` with the refusal of the first copy that a region refuses, or else `Advance`,
    /// exactly where these are refused so; `Memory` only at a copy, or an advance, that is not. After an error nothing
    /// is open.
    pub fn open_from<R: Wait>(
        rt: &R,
        alloc: Global,
        layout: Layout,
        copies: Vec<TabletCopy>,
        readers: usize,
    ) -> Result<(LiveRegion, Vec<LiveReader>), StartFault>
        requires { (1 ≤ readers) × (readers ≤ MAX_READERS) }
        ensures starts { IfOk result (λ opened. StartsLive copies.items layout opened.0) }
        ensures refused { IfErr result (StopsStart copies.items (new_region layout)) }
        ensures count { IfOk result (λ opened. length opened.1.items ≡ readers) }
        ensures readers { IfOk result (λ opened. AllByRecursion (IsNewReader (tablets_in opened.0)) opened.1.items) }
    {
        let (live, readers) = match LiveRegion::open(rt, alloc, layout, readers) {
            Ok(opened) => opened,
            Err(fault) => return Err(StartFault::Open(fault)),
        };
        let mut live = live;
        match live.start_from(rt, copies) {
            Ok(()) => Ok((live, readers)),
            Err(fault) => {
                let _ = live.close(rt, readers);
                Err(fault)
            }
        }
    }

    // Adopts each of the copies, and then takes as marks what all tablets have.
    fn start_from<R: Wait>(&mut self, rt: &R, copies: Vec<TabletCopy>) -> Result<(), StartFault>
        ensures ok { OnOk result (AllLeadLive (start_events copies.items) self.old self.new) }
        ensures refused { IfErr result (StopsStart copies.items (core self.old)) }
        ensures same { tablets_in self.new ≡ tablets_in self.old }
    {
        for copy in copies {
            match self.adopt_one(rt, copy) {
                Ok(()) => {}
                Err(fault) => return Err(StartFault::Adopt(fault)),
            }
        }
        match self.advance() {
            Ok(()) => Ok(()),
            Err(fault) => Err(StartFault::Advance(fault)),
        }
    }

    // Adopts one copy.
    fn adopt_one<R: Wait>(&mut self, rt: &R, copy: TabletCopy) -> Result<(), AdoptFault>
        ensures ok { OnOk result (LeadsLive (adoption copy) self.old self.new) }
        ensures refused { IfErr result (λ fault. Refuses is_memory fault (after_adoption (core self.old) copy)) }
        ensures same { tablets_in self.new ≡ tablets_in self.old }
    {
        let _ = &copy.range;
        match self.adopt(rt, copy) {
            Ok(_front) => Ok(()),
            Err(fault) => Err(fault),
        }
    }
}
