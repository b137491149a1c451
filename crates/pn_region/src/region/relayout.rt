//! Changes of a region's layout.

ghost use Rattle.std.specs.Prelude.{◌≡◌, ◌++◌, map, filter, Ok, IsTrue, IfOk, IfErr, OnOk, OnErr};
ghost use Rattle.std.specs.FinMap.{is_sorted};
ghost use Rattle.std.specs.List.{flat_map};
ghost use Rattle.pn_join.specs.Prelude.{Reaches, are_positions, raised_marks};
ghost use Rattle.pn_record.specs.Prelude.{bytes_cmp};
ghost use Rattle.pn_tablet.specs.Prelude.{in_range, lie_in, meet, Refuses};
ghost use Rattle.pn_apply.specs.Prelude.{ranges};
ghost use Rattle.pn_region.specs.Recovery.{after_relayout, made_of, parts_of, least_cover, greatest_reach, first_recovering as first_that_recovers};
ghost use Rattle.pn_region.specs.Recovery.{is_recovering, is_memory};

use super::Region;
use crate::RelayoutFault;
use crate::advancing::least_with;
use pn_join::{Marks, NoMemory, raise};
use pn_record::Records;
use pn_tablet::{Layout, Range, Status, TabletState, cells_within};
use std::alloc::Global;

impl Region {
    /// Changes the layout. Each new tablet has the records of its range. Its parts are the old tablets whose ranges
    /// have a key in common with it.
    ///
    /// Per stream its cover is the least of theirs, and its reach the greatest. Marks and log stay.
    ///
    /// `StillRecovering` comes exactly where a tablet is recovering, and names the first. An error leaves the region
    /// as it was.
    pub fn relayout(&mut self, layout: Layout) -> Result<(), RelayoutFault>
        ensures ok { OnOk result (after_relayout self.old.state layout ≡ Ok self.new.state) }
        ensures log { self.new.log ≡ self.old.log }
        ensures refused { IfErr result (λ fault. Refuses is_memory fault (after_relayout self.old.state layout)) }
        ensures err { OnErr result (self.new ≡ self.old) }
    {
        if let Some(tablet) = first_recovering(&self.tablets) {
            return Err(RelayoutFault::StillRecovering(tablet));
        }
        let tablets = build_tablets(self.alloc, &self.tablets, &layout)?;
        self.layout = layout;
        self.tablets = tablets;
        Ok(())
    }
}

// The number of the first tablet that is recovering.
fn first_recovering(tablets: &[TabletState]) -> Option<usize>
    ensures { result ≡ first_that_recovers tablets.now }
{
    tablets.iter().position(|tablet| recovers(tablet))
}

fn recovers(tablet: &TabletState) -> bool
    ensures { result ≡ is_recovering tablet.now.status }
{
    match tablet.status() {
        Status::Recovering { .. } => true,
        Status::Serving => false,
    }
}

// Builds a tablet for each range of the layout of the old ones.
fn build_tablets(
    alloc: Global,
    tablets: &[TabletState],
    layout: &Layout,
) -> Result<Vec<TabletState>, NoMemory>
    requires { IsTrue (is_sorted bytes_cmp (flat_map (λ tablet. tablet.cells) tablets.now)) }
    ensures { IfOk result (λ made. made.items ≡ map (made_of tablets.now) (ranges layout.now)) }
{
    let mut made = Vec::with_capacity(alloc, layout.count())?;
    for tablet in 0..layout.count() {
        made.push_reserved(build_tablet(alloc, tablets, layout.range_of(tablet)?)?);
    }
    Ok(made)
}

// Builds the tablet that serves the range with the records of the old ones.
fn build_tablet(
    alloc: Global,
    tablets: &[TabletState],
    range: Range,
) -> Result<TabletState, NoMemory>
    requires { IsTrue (is_sorted bytes_cmp (flat_map (λ tablet. tablet.cells) tablets.now)) }
    ensures { IfOk result (λ tablet. tablet ≡ made_of tablets.now range) }
{
    let cells = cells_in(alloc, tablets, &range)?;
    let cover = cover_of(alloc, tablets, &range)?;
    let reach = reach_of(alloc, tablets, &range)?;
    TabletState::of_parts(alloc, range, cells, cover, reach)
}

// The cells of all tablets whose keys lie in the range.
fn cells_in(alloc: Global, tablets: &[TabletState], range: &Range) -> Result<Records, NoMemory>
    requires { IsTrue (is_sorted bytes_cmp (flat_map (λ tablet. tablet.cells) tablets.now)) }
    ensures { IfOk result (λ cells. cells ≡ filter (λ entry. in_range range.now entry.0) (flat_map (λ tablet. tablet.cells) tablets.now)) }
{
    let mut cells = Records::new(alloc);
    for tablet in tablets {
        if is_part(tablet, range) {
            cells = with_cells(cells, tablet, range)?;
        }
    }
    Ok(cells)
}

fn is_part(tablet: &TabletState, range: &Range) -> bool
    ensures part { result ≡ meet tablet.now.range range.now }
    ensures inside { IsTrue (lie_in tablet.now.range tablet.now.cells) }
{
    tablet.range().meets(range)
}

// The cells, and after them those of the tablet in the range.
#[tactic(auto, using(crate::proofs::Pieces::whole_slice))]
fn with_cells(cells: Records, tablet: &TabletState, range: &Range) -> Result<Records, NoMemory>
    requires { IsTrue (is_sorted bytes_cmp (cells ++ filter (λ entry. in_range range.now entry.0) tablet.now.cells)) }
    ensures { IfOk result (λ both. both ≡ cells ++ filter (λ entry. in_range range.now entry.0) tablet.now.cells) }
{
    let more = cells_within(range, tablet.cells())?;
    let both = cells.followed_by(&more, 0, more.len())?;
    Ok(both)
}

// The least of the covers of the range's parts, per stream.
fn cover_of(alloc: Global, tablets: &[TabletState], range: &Range) -> Result<Marks, NoMemory>
    ensures cover { IfOk result (λ cover. cover ≡ least_cover (parts_of tablets.now range.now)) }
    ensures positions { IfOk result (λ cover. IsTrue (are_positions cover)) }
{
    let mut least: Option<Marks> = None;
    for tablet in tablets {
        if is_part(tablet, range) {
            least = Some(least_with(least, tablet.cover())?);
        }
    }
    match least {
        Some(least) => Ok(least),
        None => Ok(Marks::new(alloc)),
    }
}

// The greatest of the reaches of the range's parts, per stream. It reaches their least cover.
fn reach_of(alloc: Global, tablets: &[TabletState], range: &Range) -> Result<Marks, NoMemory>
    ensures reach { IfOk result (λ reach. reach ≡ greatest_reach (parts_of tablets.now range.now)) }
    ensures positions { IfOk result (λ reach. IsTrue (are_positions reach)) }
    ensures reached { IfOk result (λ reach. Reaches reach (least_cover (parts_of tablets.now range.now))) }
{
    let mut reach = Marks::new(alloc);
    for tablet in tablets {
        if is_part(tablet, range) {
            raise_to(&mut reach, tablet)?;
        }
    }
    Ok(reach)
}

// Raises the reach to the tablet's, where it is less.
fn raise_to(reach: &mut Marks, tablet: &TabletState) -> Result<(), NoMemory>
    ensures ok { OnOk result (reach.new ≡ raised_marks reach.old tablet.now.reach) }
    ensures positions { IsTrue (are_positions tablet.now.reach) }
    ensures reached { Reaches tablet.now.reach tablet.now.cover }
{
    raise(reach, tablet.reach())
}
