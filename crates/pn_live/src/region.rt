//! Live regions.

ghost use Rattle.std.specs.Prelude.{◌≡◌, ◌≤◌, length, slice_get, Some, IsTrue, Ok, IfOk, IfErr, OnOk, OnErr};
ghost use Rattle.pn_join.specs.Prelude.{are_positions};
ghost use Rattle.pn_live.specs.LiveRegions.{core, tablets_in, Advances};
ghost use Rattle.pn_region.specs.declared.marking.TheConstants.{MAX_STREAMS};
ghost use Rattle.pn_region.specs.Log.{last_of};
ghost use Rattle.pn_region.specs.Prelude.{IsRegion};
ghost use Rattle.pn_tablet.specs.Prelude.{Refuses};
ghost use Rattle.pn_region.specs.Recovery.{after_advance, is_no_advance as is_memory, with_marks};

mod closing;
mod opening;
mod planning;
mod recovery;
mod rounds;
mod starting;

use crate::publication_order::PublicationOrder;
use crate::published_tablet::PublishedTablet;
pub use crate::region::opening::MAX_READERS;
use pn_join::Marks;
use pn_region::{AdvanceFault, Log, common_marks};
use pn_tablet::{Layout, TabletState};
use std::alloc::Global;
use std::marker::Model;

/// The live tablets of a layout, how far streams were taken into all of them, and a log of what changed. It is not
/// `Drop`: end it by `close`.
pub struct LiveRegion {
    layout: Layout,
    tablets: Vec<PublishedTablet>,
    marks: Marks,
    log: Log,
    order: PublicationOrder,
    alloc: Global,
}

impl Model for LiveRegion {
    ghost use Rattle.pn_region.specs.Prelude.{IsLawfulRegion};
    ghost use Rattle.pn_live.specs.LiveRegions.{LiveRegionValue, core};

    ghost Value = { LiveRegionValue };

    ghost use Rattle.pn_live.specs.Proofs.{live_code};

    ghost coded = { live_code };

    ghost view = { λ live. record { layout = live.layout; tablets = live.tablets.items; marks = live.marks; log = live.log; order = live.order } };

    ghost invariant = { λ live. IsLawfulRegion (core (record {
      layout = live.layout;
      tablets = live.tablets.items;
      marks = live.marks;
      log = live.log;
      order = live.order;
    })) };
}

impl LiveRegion {
    /// How far streams were taken into every tablet.
    pub fn marks(&self) -> &Marks
        ensures marks { result.now ≡ self.now.marks }
        ensures few { length self.now.marks ≤ MAX_STREAMS }
        ensures positions { IsTrue (are_positions self.now.marks) }
    {
        &self.marks
    }

    /// The tablet of this number, which is below the layout's count.
    pub fn tablet(&self, number: usize) -> &TabletState
        requires { number ≤ length self.now.layout }
        ensures { slice_get (core self.now).tablets number ≡ Some result.now }
    {
        self.tablets[number].state()
    }

    /// The number of the last entry of the log, at most the greatest that an entry has.
    pub fn last_number(&self) -> u64
        ensures { result ≡ last_of self.now.log }
    {
        self.log.last_number()
    }

    /// How the keys are divided into tablets.
    pub fn layout(&self) -> &Layout
        ensures layout { result.now ≡ self.now.layout }
        ensures region { IsRegion (core self.now) }
    {
        &self.layout
    }
}

impl LiveRegion {
    /// What all tablets have taken: the marks that `advance` takes.
    ///
    /// `TooManyStreams` comes exactly where `advance` is refused so, and `Memory` only elsewhere.
    pub fn common_marks(&self) -> Result<Marks, AdvanceFault>
        ensures ok { IfOk result (λ marks. after_advance (core self.now) ≡ Ok (with_marks (core self.now) marks)) }
        ensures refused { IfErr result (λ fault. Refuses is_memory fault (after_advance (core self.now))) }
    {
        Ok(common_marks(self.alloc, &self.tablets)?)
    }

    /// Takes what all tablets have taken as marks, as a region's advance does. Nothing is published, and the log stays.
    ///
    /// `TooManyStreams` comes exactly where a region's advance is refused so, and `Memory` only elsewhere. An error
    /// changes nothing.
    pub fn advance(&mut self) -> Result<(), AdvanceFault>
        ensures ok { OnOk result (Advances self.old self.new) }
        ensures refused { IfErr result (λ fault. Refuses is_memory fault (after_advance (core self.old))) }
        ensures err { OnErr result (self.new ≡ self.old) }
        ensures same { tablets_in self.new ≡ tablets_in self.old }
    {
        self.marks = common_marks(self.alloc, &self.tablets)?;
        Ok(())
    }
}
