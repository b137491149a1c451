//! The laws of losses, adoptions and sequences of events, as contracts. A call does nothing.

ghost use Rattle.std.specs.Prelude.{◌≡◌, ℕ, List, [], ◌++◌, fold, slice_get, Ok, Option, Some};
ghost use Rattle.std.specs.FinMap.{find};
ghost use Rattle.pn_join.specs.Prelude.{Positions, Reaches};
ghost use Rattle.pn_record.specs.declared.records.Image.{Image};
ghost use Rattle.pn_record.specs.Prelude.{SameImages, table_of, NotOlder, bytes_cmp, CellValue};
ghost use Rattle.pn_stream.specs.Prelude.{BrokerRecord, DeliveryValue};
ghost use Rattle.pn_tablet.specs.Prelude.{TabletCopyValue, copy_of, AreJoins, Bounds, IsLayout, tablet_of, recovering_tablet, step, tablet_after};
ghost use Rattle.pn_tablet.specs.Prelude.{TabletStateValue};
ghost use Rattle.pn_tablet.specs.declared.state.TabletOp.{TabletOp};
ghost use Rattle.pn_tablet.specs.declared.state.TabletOp.TheVariants.{Adopt};
ghost use Rattle.pn_tablet.specs.declared.state.Status.TheVariants.{Serving};
ghost use Rattle.pn_region.specs.Events.{RegionEvent, LeadsTo, AllLeadTo, IsHonestEvent, AreHonestEvents, IsHonestCopy, all_taken, all_left, CoversTell};
ghost use Rattle.pn_region.specs.Events.{HoldTaken, AreRounds, LoseNothing, KeepsLayout, KeepLayout};
ghost use Rattle.pn_region.specs.Laws.{IsFaithful, AreFaithful, AreIn};
ghost use Rattle.pn_region.specs.Reads.{HoldsStill, AllServe, ServesAt};
ghost use Rattle.pn_region.specs.Regions.{RegionValue, IsRegion, new_region, all_cells, AllRise};
ghost use Rattle.pn_region.specs.Rounds.{round, IsHalfTaken};

/// Every event leaves a region: one tablet for each range, whose cover reaches the marks, and whose reach the cover.
pub fn events_leave_a_region()
    ensures event { (event : RegionEvent) (old new : RegionValue) → IsRegion old → LeadsTo event old new → IsRegion new }
    ensures events { (events : List RegionEvent) (old new : RegionValue) → IsRegion old → AllLeadTo events old new → IsRegion new }
{}

/// Honest events keep tablets faithful, and a faithful tablet gives honest copies.
pub fn honest_events_keep_tablets_faithful()
    ensures event { (broker : BrokerRecord) (event : RegionEvent) (old new : RegionValue) → IsRegion old
        → AreFaithful broker old.tablets → IsHonestEvent broker event → LeadsTo event old new → AreFaithful broker new.tablets }
    ensures events { (broker : BrokerRecord) (events : List RegionEvent) (old new : RegionValue) → IsRegion old
        → AreFaithful broker old.tablets → AreHonestEvents broker events → AllLeadTo events old new
        → AreFaithful broker new.tablets }
    ensures given { (broker : BrokerRecord) (region : RegionValue) (tablet : ℕ) (state : TabletStateValue) (need : Positions) (copy : TabletCopyValue)
        → AreFaithful broker region.tablets → slice_get region.tablets tablet ≡ Some state
        → copy_of state need ≡ Ok copy → IsHonestCopy broker copy }
{}

/// No event but a change of layout lowers the cover or the reach of a tablet, nor does a sequence of such events.
///
/// No event lowers the reach of a key's tablet, which after a change of layout may be another one.
pub fn covers_never_fall()
    ensures event { (event : RegionEvent) (old new : RegionValue) (tablet : ℕ) (before after : TabletStateValue)
        → IsRegion old → KeepsLayout event → LeadsTo event old new
        → slice_get old.tablets tablet ≡ Some before → slice_get new.tablets tablet ≡ Some after
        → Reaches after.cover before.cover × Reaches after.reach before.reach }
    ensures events { (events : List RegionEvent) (old new : RegionValue) (tablet : ℕ) (before after : TabletStateValue)
        → IsRegion old → KeepLayout events → AllLeadTo events old new
        → slice_get old.tablets tablet ≡ Some before → slice_get new.tablets tablet ≡ Some after
        → Reaches after.cover before.cover × Reaches after.reach before.reach }
    ensures reaches { (events : List RegionEvent) (old new : RegionValue) (key : List ℕ) (before after : TabletStateValue)
        → IsRegion old → AllLeadTo events old new
        → slice_get old.tablets (tablet_of old.layout key) ≡ Some before
        → slice_get new.tablets (tablet_of new.layout key) ≡ Some after
        → Reaches after.reach before.reach }
{}

/// Where the tablet of a key serves after an event, it still holds the record that the key's tablet held before.
///
/// After honest events, so it does where it serves before and after them, whatever came between.
pub fn what_is_served_never_goes_back()
    ensures event { (event : RegionEvent) (old new : RegionValue) (key : List ℕ) (before after : TabletStateValue)
        → IsRegion old → LeadsTo event old new
        → slice_get old.tablets (tablet_of old.layout key) ≡ Some before
        → slice_get new.tablets (tablet_of new.layout key) ≡ Some after → after.status ≡ Serving
        → HoldsStill (find bytes_cmp key before.cells) (find bytes_cmp key after.cells) }
    ensures events { (broker : BrokerRecord) (events : List RegionEvent) (old new : RegionValue) (key : List ℕ) (before after : TabletStateValue)
        → IsRegion old → AreFaithful broker old.tablets → AreHonestEvents broker events → AllLeadTo events old new
        → slice_get old.tablets (tablet_of old.layout key) ≡ Some before
        → slice_get new.tablets (tablet_of new.layout key) ≡ Some after
        → before.status ≡ Serving → after.status ≡ Serving
        → HoldsStill (find bytes_cmp key before.cells) (find bytes_cmp key after.cells) }
{}

/// After an event, or honest events, a region still holds the record of a key whose tablet serves before and
/// after.
///
/// A record that is still held exists, and not at an older version.
pub fn records_served_never_go_back()
    ensures event { (event : RegionEvent) (old new : RegionValue) (key : List ℕ) → IsRegion old → LeadsTo event old new
        → ServesAt old key → ServesAt new key
        → HoldsStill (find bytes_cmp key (all_cells old)) (find bytes_cmp key (all_cells new)) }
    ensures events { (broker : BrokerRecord) (events : List RegionEvent) (old new : RegionValue) (key : List ℕ) → IsRegion old
        → AreFaithful broker old.tablets → AreHonestEvents broker events → AllLeadTo events old new
        → ServesAt old key → ServesAt new key
        → HoldsStill (find bytes_cmp key (all_cells old)) (find bytes_cmp key (all_cells new)) }
    ensures versions { (was now : Option CellValue) → HoldsStill was now → NotOlder was now }
{}

/// A recovery leaves no trace: the tablet ends in the same state as one that is not lost, and takes the same joins
/// and the same honest copy.
pub fn a_recovery_leaves_no_trace()
    ensures { (broker : BrokerRecord) (tablet after : TabletStateValue) (joins : List TabletOp) (copy : TabletCopyValue) → AreJoins joins
        → IsFaithful broker tablet → tablet.status ≡ Serving → IsHonestCopy broker copy
        → step (fold tablet_after (recovering_tablet tablet) joins) (Adopt copy) ≡ Ok after
        → step (fold tablet_after tablet joins) (Adopt copy) ≡ Ok after }
{}

/// Such a tablet still holds each record it held before the loss: at a greater version, or at the same one with
/// all its contents.
///
/// The cells of faithful serving tablets of one range depend on their covers alone, where these reach their reaches.
pub fn a_recovery_brings_all_back()
    ensures whole { (broker : BrokerRecord) (tablet after : TabletStateValue) (joins : List TabletOp) (copy : TabletCopyValue) → AreJoins joins
        → IsFaithful broker tablet → tablet.status ≡ Serving → IsHonestCopy broker copy
        → step (fold tablet_after (recovering_tablet tablet) joins) (Adopt copy) ≡ Ok after
        → (key : List ℕ) → HoldsStill (find bytes_cmp key tablet.cells) (find bytes_cmp key after.cells) }
    ensures covers { (broker : BrokerRecord) (tablet other : TabletStateValue) → IsFaithful broker tablet → IsFaithful broker other
        → tablet.status ≡ Serving → other.status ≡ Serving → tablet.range ≡ other.range
        → Reaches tablet.cover tablet.reach → Reaches other.cover other.reach
        → Reaches tablet.cover other.cover → Reaches other.cover tablet.cover → tablet.cells ≡ other.cells }
{}

/// Honest events take the images of their rounds, and those of each copy up to its marks.
///
/// In its range, each tablet's reach then has come to all of these, and its cover to no others but those of rounds that
/// ran out of memory.
pub fn covers_tell_what_events_took()
    ensures new { (broker : BrokerRecord) (bounds : Bounds) → CoversTell broker [] [] (new_region bounds).tablets }
    ensures events { (broker : BrokerRecord) (events : List RegionEvent) (old new : RegionValue) (taken left : List Image)
        → IsRegion old → AreHonestEvents broker events → AllLeadTo events old new → CoversTell broker taken left old.tablets
        → CoversTell broker (taken ++ all_taken broker events) (left ++ all_left events) new.tablets }
{}

/// After honest events of a new region, its cells are exactly those of the images taken, if all tablets serve
/// and rounds that ran out of memory were retried.
///
/// Without losses and adoptions, events need not be honest.
///
/// A tablet that recovers lacks only what it needs of what was taken in its range.
pub fn events_leave_what_they_took()
    ensures honest { (broker : BrokerRecord) (bounds : Bounds) (events : List RegionEvent) (region : RegionValue)
        → IsLayout bounds → AllLeadTo events (new_region bounds) region → AreHonestEvents broker events → AllServe region
        → AreIn (all_left events) (all_taken broker events) → all_cells region ≡ table_of (all_taken broker events) }
    ensures rounds { (broker : BrokerRecord) (bounds : Bounds) (events : List RegionEvent) (region : RegionValue)
        → IsLayout bounds → AllLeadTo events (new_region bounds) region → LoseNothing events
        → AreIn (all_left events) (all_taken broker events) → all_cells region ≡ table_of (all_taken broker events) }
    ensures new { (broker : BrokerRecord) (bounds : Bounds) → HoldTaken broker [] [] (new_region bounds).tablets }
    ensures events { (broker : BrokerRecord) (events : List RegionEvent) (old new : RegionValue) (taken left : List Image)
        → IsRegion old → AreHonestEvents broker events → AllLeadTo events old new
        → CoversTell broker taken left old.tablets → HoldTaken broker taken left old.tablets
        → HoldTaken broker (taken ++ all_taken broker events) (left ++ all_left events) new.tablets }
{}

/// Two such regions whose events took the same images have the same records, whatever their layouts and events. By
/// `regions_of_the_same_cells_answer_alike` they then answer alike.
pub fn the_same_images_leave_the_same_records()
    ensures { (broker : BrokerRecord) (bounds others : Bounds) (events more : List RegionEvent) (one other : RegionValue)
        → IsLayout bounds → AllLeadTo events (new_region bounds) one → AreHonestEvents broker events → AllServe one
        → AreIn (all_left events) (all_taken broker events)
        → IsLayout others → AllLeadTo more (new_region others) other → AreHonestEvents broker more → AllServe other
        → AreIn (all_left more) (all_taken broker more)
        → SameImages (all_taken broker events) (all_taken broker more) → all_cells one ≡ all_cells other }
{}

/// A round that ran out of memory may be repeated, with only rounds in between.
///
/// Where it is accepted then, it leaves the tablets and marks of a run without the failure.
pub fn a_repeated_round_makes_up_for_a_failed_one()
    ensures makes_up { (start failed later end : RegionValue) (deliveries : List DeliveryValue) (events : List RegionEvent)
        → AllRise start → IsHalfTaken start deliveries failed → AreRounds events → AllLeadTo events failed later
        → round later deliveries ≡ Ok end
        → (other : RegionValue) × AllLeadTo events start other × (round other deliveries ≡ Ok end) }
    ensures new { (bounds : Bounds) → AllRise (new_region bounds) }
    ensures kept { (event : RegionEvent) (old new : RegionValue) → AllRise old → LeadsTo event old new → AllRise new }
{}
