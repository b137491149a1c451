//! The marks that all tablets have taken.

ghost use Rattle.std.specs.Prelude.{◌≡◌, ◌-◌, ◌^◌, ◌≤◌, ◌<◌, min, nat_lt, length, map, Ok, IfOk, IfErr, IsTrue, unwrap_or, option_map};
ghost use Rattle.std.specs.List.{list_all};
ghost use Rattle.pn_join.specs.Marks.{least_marks};
ghost use Rattle.pn_join.specs.Prelude.{are_positions, position_of};
ghost use Rattle.pn_tablet.specs.Prelude.{TabletStateValue, Refuses};
ghost use Rattle.pn_region.specs.Recovery.{common_marks as the_common_marks, is_no_advance as is_memory, least_cover};
ghost use Rattle.pn_region.specs.declared.marking.TheConstants.{MAX_STREAMS};

use crate::{AdvanceFault, MAX_STREAMS};
use pn_join::{Dup, Marks, NoMemory, StreamName};
use pn_tablet::TabletState;
use std::alloc::Global;

/// A tablet that says how far it took streams.
pub trait Covered {
    /// The state of the tablet.
    ghost tablet: { Self → TabletStateValue };

    /// The positions up to which the tablet took streams.
    fn cover(&self) -> &Marks
        ensures cover { result.now ≡ (tablet self.now).cover }
        ensures positions { IsTrue (are_positions (tablet self.now).cover) };
}

impl Covered for TabletState {
    ghost tablet = { λ state. state };

    fn cover(&self) -> &Marks {
        TabletState::cover(self)
    }
}

/// The marks that all tablets have taken: per stream the least of their covers. Their positions are 1 to 10^15.
///
/// `TooManyStreams` comes exactly where these are of more than 16 streams, and `Memory` only elsewhere.
pub fn common_marks<T: Covered>(alloc: Global, tablets: &[T]) -> Result<Marks, AdvanceFault>
    ensures ok { IfOk result (λ marks. the_common_marks (map T.tablet tablets.now) ≡ Ok marks) }
    ensures refused { IfErr result (λ fault. Refuses is_memory fault (the_common_marks (map T.tablet tablets.now))) }
    ensures few { IfOk result (λ marks. length marks ≤ MAX_STREAMS) }
    ensures positions { IfOk result (λ marks. IsTrue (are_positions marks)) }
{
    if count_common(tablets) > MAX_STREAMS {
        return Err(AdvanceFault::TooManyStreams);
    }
    Ok(least_of(alloc, tablets)?)
}

// How many streams all tablets have taken, as far as a number goes.
fn count_common<T: Covered>(tablets: &[T]) -> usize
    ensures { result ≡ min (length (least_cover (map T.tablet tablets.now))) (2 ^ 64 - 1) }
{
    let Some(first) = tablets.first() else {
        return 0;
    };
    let mut count = 0usize;
    for (name, _position) in first.cover().iter() {
        let is_common = usize::from(have_all(tablets, name));
        count = count.saturating_add(is_common);
    }
    count
}

// Whether all tablets have taken the stream.
fn have_all<T: Covered>(tablets: &[T], name: &StreamName) -> bool
    ensures { result ≡ list_all (λ tablet. nat_lt 0 (position_of (T.tablet tablet).cover name.now)) tablets.now }
{
    tablets
        .iter()
        .all(|tablet| tablet.cover().position(name) > 0)
}

// Per stream the least of the tablets' covers.
fn least_of<T: Covered>(alloc: Global, tablets: &[T]) -> Result<Marks, NoMemory>
    ensures least { IfOk result (λ least. least ≡ least_cover (map T.tablet tablets.now)) }
    ensures positions { IfOk result (λ least. IsTrue (are_positions least)) }
{
    let mut least: Option<Marks> = None;
    for tablet in tablets {
        least = Some(least_with(least, tablet.cover())?);
    }
    match least {
        Some(least) => Ok(least),
        None => Ok(Marks::new(alloc)),
    }
}

/// The lesser of both positions at each name, or the marks where there are no others.
pub(crate) fn least_with(least: Option<Marks>, marks: &Marks) -> Result<Marks, NoMemory>
    ensures { IfOk result (λ both. both ≡ unwrap_or (option_map (λ own. least_marks own marks.now) least) marks.now) }
{
    match least {
        Some(least) => least.least(marks),
        None => marks.dup(),
    }
}
