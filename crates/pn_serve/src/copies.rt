//! A region that starts from a text of copies.

ghost use Rattle.std.specs.Prelude.{◌≡◌, ◌≤◌, vec_len, IfErr, IfOk};
ghost use Rattle.pn_live.specs.Prelude.{tablets_in};
ghost use Rattle.pn_live.specs.declared.region.opening.TheConstants.{MAX_READERS};
ghost use Rattle.pn_serve.specs.Copies.{StartsOrdered, StopsOpen};
ghost use Rattle.pn_serve.specs.Server.Events.{AllRead};

mod fault;
mod reading;
mod starting;
mod texts;

use crate::copies::fault::start_fault;
use crate::server::OpenedRegion;
pub use fault::CopiesFault;
use pn_live::LiveRegion;
use pn_tablet::{TabletCopy, layout_of_copies};
pub use reading::CopiesReader;
pub use starting::recut_copies;
use std::alloc::Global;
use std::sync::Wait;

/// Opens a live region, with 1 to 32 readers, that starts from copies.
///
/// `NoCopy` and `TwoCopies` with the first key that is not in exactly one; then `TooManyStreams` above 16.
pub fn open_copies<R: Wait>(
    rt: &R,
    alloc: Global,
    copies: Vec<TabletCopy>,
    readers: usize,
) -> Result<OpenedRegion, CopiesFault>
    requires readers { (1 ≤ readers) × (readers ≤ MAX_READERS) }
    ensures starts { IfOk result (λ opened. StartsOrdered copies.items opened.live) }
    ensures faults { IfErr result (StopsOpen copies.items) }
    ensures own { IfOk result (λ opened. AllRead (tablets_in opened.live) opened.readers.items) }
    ensures count { IfOk result (λ opened. vec_len opened.readers ≡ readers) }
{
    let mut copies = copies;
    let layout = layout_of_copies(alloc, &mut copies)?;
    layout.recall_order();
    match LiveRegion::open_from(rt, alloc, layout, copies, readers) {
        Ok((live, readers)) => Ok(OpenedRegion { live, readers }),
        Err(fault) => Err(start_fault(fault)),
    }
}
