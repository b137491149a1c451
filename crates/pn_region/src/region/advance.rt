//! Marks of a region that advance to what all its tablets have taken.

ghost use Rattle.std.specs.Prelude.{◌≡◌, Ok, IfErr, OnOk, OnErr};
ghost use Rattle.pn_tablet.specs.Prelude.{Refuses};
ghost use Rattle.pn_region.specs.Recovery.{after_advance, is_no_advance as is_memory};

use super::Region;
use crate::{AdvanceFault, common_marks};

impl Region {
    /// Takes what all tablets have taken as marks: per stream the least of their covers, which no mark is above.
    /// Streams then go on from there. Tablets and log stay.
    ///
    /// `TooManyStreams` comes exactly where all tablets have taken more than 16 streams, and `Memory` only elsewhere.
    /// An error leaves the region as it was.
    pub fn advance(&mut self) -> Result<(), AdvanceFault>
        ensures ok { OnOk result (after_advance self.old.state ≡ Ok self.new.state) }
        ensures log { self.new.log ≡ self.old.log }
        ensures refused { IfErr result (λ fault. Refuses is_memory fault (after_advance self.old.state)) }
        ensures err { OnErr result (self.new ≡ self.old) }
    {
        self.marks = common_marks(self.alloc, &self.tablets)?;
        Ok(())
    }
}
