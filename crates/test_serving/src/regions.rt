//! What the cases are given: live regions, their readers, and what a reader finds.

ghost use Rattle.std.specs.Prelude.{◌≡◌, ◌≤◌, All, IfOk, IfSome};
ghost use Rattle.pn_live.specs.declared.region.opening.TheConstants.{MAX_READERS};
ghost use Rattle.pn_live.specs.LiveRegions.{IsReaderIn};
ghost use Rattle.pn_live.specs.Readers.{tablets_of};

use pn_join::NoMemory;
use pn_live::{LiveReader, LiveRegion, OpenFault};
use pn_record::{Key, Version};
use pn_region::Region;
use pn_scan::ScanFault;
use pn_tablet::Layout;
use std::alloc::Global;
use std::sync::Wait;

/// Opens a live region, whose readers read its tablets.
pub(crate) fn open<R: Wait>(
    rt: &R,
    alloc: Global,
    layout: Layout,
    readers: usize,
) -> Result<(LiveRegion, Vec<LiveReader>), OpenFault>
    requires { (1 ≤ readers) × (readers ≤ MAX_READERS) }
    ensures { IfOk result (λ opened. All (IsReaderIn opened.0) opened.1.items) }
{
    LiveRegion::open(rt, alloc, layout, readers)
}

/// Closes a live region, whose readers are handed back.
pub(crate) fn close<R: Wait>(
    rt: &R,
    live: LiveRegion,
    readers: Vec<LiveReader>,
) -> Result<Region, NoMemory>
    requires { All (IsReaderIn live) readers.items }
{
    live.close(rt, readers)
}

/// Opens a live region with one reader; none where that is refused.
pub(crate) fn open_one<R: Wait>(
    rt: &R,
    alloc: Global,
    layout: Layout,
) -> Option<(LiveRegion, LiveReader)>
    ensures { IfSome result (λ opened. IsReaderIn opened.0 opened.1) }
{
    let (live, mut readers) = open(rt, alloc, layout, 1).ok()?;
    let Some(reader) = take_out(&live, &mut readers) else {
        end(rt, alloc, live);
        return None;
    };
    Some((live, reader))
}

/// Closes a live region whose readers are not looked at. Whether it closed.
pub(crate) fn end<R: Wait>(rt: &R, alloc: Global, live: LiveRegion) -> bool {
    close(rt, live, Vec::new(alloc)).is_ok()
}

/// The version in which a reader finds a key, and how many contents it has; none where there is no record.
pub(crate) fn find(
    reader: &mut LiveReader,
    key: &Key,
) -> Result<Option<(Version, usize)>, ScanFault>
    ensures { tablets_of reader.new ≡ tablets_of reader.old }
{
    match reader.read(key, None)? {
        Some(cell) => Ok(Some((cell.version(), cell.contents().len()))),
        None => Ok(None),
    }
}

/// Takes one of a region's readers.
pub(crate) fn take_out(live: &LiveRegion, readers: &mut Vec<LiveReader>) -> Option<LiveReader>
    requires { All (IsReaderIn live.now) readers.old.items }
    ensures reader { IfSome result (IsReaderIn live.now) }
    ensures readers { All (IsReaderIn live.now) readers.new.items }
{
    readers.pop()
}

/// Hands a reader of a region back to the others.
pub(crate) fn hand_back(live: &LiveRegion, readers: &mut Vec<LiveReader>, reader: LiveReader)
    requires reader { IsReaderIn live.now reader }
    requires readers { All (IsReaderIn live.now) readers.old.items }
    ensures { All (IsReaderIn live.now) readers.new.items }
{
    let _ = readers.push(reader);
}
