//! How a live region is opened.

ghost use Rattle.std.specs.Prelude.{◌≡◌, ◌≤◌, ◌<◌, ◌^◌, [], length, vec_capacity, IfOk, IfErr, map};
ghost use Rattle.std.specs.List.{AllByRecursion};
ghost use Rattle.pn_live.specs.declared.region.opening.TheConstants.{MAX_READERS};
ghost use Rattle.pn_live.specs.LiveRegions.{tablets_in, IsNewLive};
ghost use Rattle.pn_live.specs.PublishedTablets.{AreNewTablets};
ghost use Rattle.pn_live.specs.Readers.{new_reader_of, IsNewReader};
ghost use Rattle.pn_live.specs.declared.fault.OpenFault.TheVariants.{NoReader as no_reader};
ghost use Rattle.pn_apply.specs.Prelude.{ranges};

use super::LiveRegion;
use super::closing::close_tablets;
use crate::fault::OpenFault;
use crate::publication_order::PublicationOrder;
use crate::published_tablet::PublishedTablet;
use crate::reader::LiveReader;
use crate::tablet_reader::TabletReader;
use pn_join::{Dup, Marks, NoMemory};
use pn_region::Log;
use pn_tablet::Layout;
use std::alloc::Global;
use std::sync::Wait;

/// The most readers of a live region.
pub const MAX_READERS: usize = 32;

impl LiveRegion {
    /// Opens a live region of empty tablets that serve, with 1 to 32 readers. It has the right to wait, and no
    /// reader to wait for.
    ///
    /// `NoReader`: a tablet gave fewer readers than were asked for.
    pub fn open<R: Wait>(
        rt: &R,
        alloc: Global,
        layout: Layout,
        readers: usize,
    ) -> Result<(LiveRegion, Vec<LiveReader>), OpenFault>
        requires { (1 ≤ readers) × (readers ≤ MAX_READERS) }
        ensures region { IfOk result (λ opened. IsNewLive layout opened.0) }
        ensures count { IfOk result (λ opened. length opened.1.items ≡ readers) }
        ensures readers { IfOk result (λ opened. AllByRecursion (IsNewReader (tablets_in opened.0)) opened.1.items) }
    {
        let log = Log::new(alloc)?;
        let mut tablets = open_tablets(rt, alloc, &layout, readers)?;
        match readers_of(alloc, &layout, tablets.as_mut_slice(), readers) {
            Ok(readers) => {
                let live = LiveRegion {
                    layout,
                    tablets,
                    marks: Marks::new(alloc),
                    log,
                    order: PublicationOrder::new(),
                    alloc,
                };
                Ok((live, readers))
            }
            Err(fault) => {
                close_tablets(rt, tablets);
                Err(fault)
            }
        }
    }
}

// An empty live tablet for each range of the layout.
fn open_tablets<R: Wait>(
    rt: &R,
    alloc: Global,
    layout: &Layout,
    readers: usize,
) -> Result<Vec<PublishedTablet>, NoMemory>
    requires { (0 < readers) × (readers < 2 ^ 32) }
    ensures { IfOk result (λ tablets. AreNewTablets (ranges layout.now) tablets.items) }
{
    let mut tablets = Vec::with_capacity(alloc, layout.count())?;
    for number in 0..layout.count() {
        match PublishedTablet::open(rt, alloc, layout, number, readers) {
            Ok(tablet) => tablets.push_reserved(tablet),
            Err(fault) => {
                close_tablets(rt, tablets);
                return Err(fault);
            }
        }
    }
    Ok(tablets)
}

// Makes readers of all tablets, `count` of them.
fn readers_of(
    alloc: Global,
    layout: &Layout,
    tablets: &mut [PublishedTablet],
    count: usize,
) -> Result<Vec<LiveReader>, OpenFault>
    requires { map (λ tablet. tablet.range) tablets.old ≡ ranges layout.now }
    ensures readers { IfOk result (λ readers. AllByRecursion (λ reader. (reader.layout ≡ layout.now)
        × (reader.tablet_readers ≡ map new_reader_of tablets.old)) readers.items) }
    ensures count { IfOk result (λ readers. length readers.items ≡ count) }
    ensures same { tablets.new ≡ tablets.old }
{
    let mut readers = Vec::with_capacity(alloc, count)?;
    for _ in 0..count {
        let layout = layout.dup()?;
        let empty = Vec::with_capacity(alloc, tablets.len())?;
        let tablet_readers = tablet_readers_of(empty, tablets)?;
        readers.push_reserved(LiveReader::of(alloc, layout, tablet_readers));
    }
    Ok(readers)
}

// A new reader of each tablet, put into `tablet_readers`, which is empty and has capacity for all. It takes no memory.
fn tablet_readers_of(
    mut tablet_readers: Vec<TabletReader>,
    tablets: &mut [PublishedTablet],
) -> Result<Vec<TabletReader>, OpenFault>
    requires none { tablet_readers.items ≡ [] }
    requires capacity { vec_capacity tablet_readers ≡ length tablets.old }
    ensures tablet_readers { IfOk result (λ tablet_readers. tablet_readers.items ≡ map new_reader_of tablets.old) }
    ensures no_reader { IfErr result (λ fault. fault ≡ no_reader) }
    ensures same { tablets.new ≡ tablets.old }
{
    for number in 0..tablets.len() {
        let Some(reader) = tablets[number].new_reader() else {
            return Err(OpenFault::NoReader);
        };
        tablet_readers.push_reserved(reader);
    }
    Ok(tablet_readers)
}
