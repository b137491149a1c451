//! The laws of regions, as contracts of functions that do nothing.

ghost use Rattle.std.specs.Prelude.{◌≡◌, ℕ, ◌≤◌, ◌<◌, List, [], ◌++◌, length, Contains, Ok, Err, Some, IsSome, IsTrue, slice_get};
ghost use Rattle.std.specs.FinMap.{find, is_sorted};
ghost use Rattle.std.specs.List.{AllByRecursion};
ghost use Rattle.pn_join.specs.Prelude.{Positions, Reaches, name_cmp, position_of};
ghost use Rattle.pn_record.specs.declared.records.Image.{Image};
ghost use Rattle.pn_record.specs.Prelude.{bytes_cmp, table_of, NotOlder};
ghost use Rattle.pn_stream.specs.Prelude.{BrokerRecord, AreHonest, up_to, DeliveryValue};
ghost use Rattle.pn_tablet.specs.Prelude.{Bounds, IsLayout, tablet_of, TabletCopyValue, copy_of, IsSpelled, recovering_tablet, step, TabletStateValue};
ghost use Rattle.pn_tablet.specs.declared.state.TabletOp.TheVariants.{Adopt};
ghost use Rattle.pn_tablet.specs.declared.state.Status.TheVariants.{Serving};
ghost use Rattle.pn_apply.specs.Prelude.{all_images, images_in};
ghost use Rattle.pn_region.specs.Laws.{IsFaithful, AreFaithful, AreIn, HasImages, HasBetween, HasNoGap, HasPosition, IsGap, stream_count};
ghost use Rattle.pn_region.specs.Events.{IsHonestCopy, RegionEvent, AllLeadTo, AreHonestEvents, StartsFrom, AreAccepted, AreHonestCopies, start_events};
ghost use Rattle.pn_region.specs.Events.{all_left, all_taken};
ghost use Rattle.pn_region.specs.declared.marking.TheConstants.{MAX_STREAMS};
ghost use Rattle.pn_region.specs.Rounds.{last_position, new_marks, after_joins, IsHalfTaken};
ghost use Rattle.pn_region.specs.Regions.{RegionValue, IsRegion, new_region, all_cells, NoneAhead};
ghost use Rattle.pn_region.specs.Recovery.{after_relayout, after_advance};
ghost use Rattle.pn_region.specs.Reads.{AllServe};
ghost use Rattle.pn_region.specs.declared.fault.RoundFault.TheVariants.{Gap, TooManyStreams, Memory};

/// A new region is a region, and has the cells of no image.
pub fn a_new_region_has_taken_nothing()
    ensures regions { (bounds : Bounds) → IsLayout bounds → IsRegion (new_region bounds) }
    ensures images { (bounds : Bounds) → HasImages (new_region bounds) [] }
    ensures between { (bounds : Bounds) → HasBetween [] [] (new_region bounds) }
{}

/// Every round leaves a region, also one that runs out of memory.
pub fn a_round_leaves_a_region()
    ensures taken { (region : RegionValue) (deliveries : List DeliveryValue) (marks : Positions)
        → IsRegion region → IsRegion (after_joins region deliveries marks) }
    ensures half_taken { (old new : RegionValue) (deliveries : List DeliveryValue)
        → IsRegion old → IsHalfTaken old deliveries new → IsRegion new }
{}

/// A round adds its images to those taken before. One that runs out of memory may have added them in some
/// tablets.
pub fn a_round_takes_its_images()
    ensures images { (region : RegionValue) (deliveries : List DeliveryValue) (marks : Positions) (taken : List Image)
        → IsRegion region → HasImages region taken
        → HasImages (after_joins region deliveries marks) (taken ++ all_images deliveries) }
    ensures surely { (region : RegionValue) (deliveries : List DeliveryValue) (marks : Positions) (sure maybe : List Image)
        → IsRegion region → HasBetween sure maybe region
        → HasBetween (sure ++ all_images deliveries) maybe (after_joins region deliveries marks) }
    ensures perhaps { (old new : RegionValue) (deliveries : List DeliveryValue) (sure maybe : List Image)
        → IsRegion old → HasBetween sure maybe old → IsHalfTaken old deliveries new
        → HasBetween sure (maybe ++ all_images deliveries) new }
{}

/// The cells of all tablets, one after another, are in key order, each key once, also after a round that ran out
/// of memory.
///
/// They are those of the images that spell them.
pub fn all_cells_are_in_key_order()
    ensures rising { (region : RegionValue) → IsRegion region → IsTrue (is_sorted bytes_cmp (all_cells region)) }
    ensures spelled { (region : RegionValue) → IsRegion region → IsSpelled (all_cells region) }
{}

/// The cells of all tablets, one after another, are those of all images taken, once each image that may have
/// been taken surely was.
pub fn all_cells_are_those_of_the_images_taken()
    ensures images { (region : RegionValue) (images : List Image)
        → IsLayout region.layout → HasImages region images → all_cells region ≡ table_of images }
    ensures surely { (region : RegionValue) (sure maybe : List Image)
        → IsLayout region.layout → HasBetween sure maybe region → AreIn maybe sure
        → all_cells region ≡ table_of sure }
{}

/// No round removes a record or leaves it at an older version, not even one that runs out of memory.
pub fn a_round_never_goes_back()
    ensures taken { (region : RegionValue) (deliveries : List DeliveryValue) (marks : Positions)
        → IsRegion region → (key : List ℕ)
        → NotOlder (find bytes_cmp key (all_cells region)) (find bytes_cmp key (all_cells (after_joins region deliveries marks))) }
    ensures half_taken { (old new : RegionValue) (deliveries : List DeliveryValue)
        → IsRegion old → IsHalfTaken old deliveries new → (key : List ℕ)
        → NotOlder (find bytes_cmp key (all_cells old)) (find bytes_cmp key (all_cells new)) }
{}

/// A key's tablet exists, and has the cell at the key that all tablets together have.
pub fn the_tablet_of_a_key_has_its_cell()
    ensures there { (region : RegionValue) (key : List ℕ)
        → IsRegion region → IsSome (slice_get region.tablets (tablet_of region.layout key)) }
    ensures cell { (region : RegionValue) (key : List ℕ) (tablet : TabletStateValue)
        → IsRegion region → slice_get region.tablets (tablet_of region.layout key) ≡ Some tablet
        → find bytes_cmp key tablet.cells ≡ find bytes_cmp key (all_cells region) }
{}

/// Each position that new marks go past is in one of the deliveries.
pub fn no_position_is_skipped()
    ensures { (marks next : Positions) (deliveries : List DeliveryValue) (name : List ℕ) (position : ℕ)
        → new_marks marks deliveries ≡ Ok next
        → position_of marks name < position → position ≤ position_of next name
        → HasPosition deliveries name position }
{}

/// New marks are nowhere below the old ones, nor below the last position of a delivery with images.
pub fn marks_take_the_greatest()
    ensures before { (marks next : Positions) (deliveries : List DeliveryValue)
        → new_marks marks deliveries ≡ Ok next → Reaches next marks }
    ensures delivered { (marks next : Positions) (deliveries : List DeliveryValue) (delivery : DeliveryValue)
        → new_marks marks deliveries ≡ Ok next → Contains deliveries delivery → 0 < length delivery.images
        → last_position delivery ≤ position_of next delivery.stream }
{}

/// `Gap` comes exactly where a delivery begins past a position of its stream that was not taken before. It names
/// the first such delivery and the first missing position.
pub fn a_gap_is_a_missing_position()
    ensures none { (marks next : Positions) (deliveries : List DeliveryValue)
        → new_marks marks deliveries ≡ Ok next → HasNoGap marks deliveries }
    ensures too_many { (marks : Positions) (deliveries : List DeliveryValue)
        → new_marks marks deliveries ≡ Err TooManyStreams → HasNoGap marks deliveries }
    ensures gap { (marks : Positions) (deliveries : List DeliveryValue) (stream : List ℕ) (wanted got : ℕ)
        → new_marks marks deliveries ≡ Err (Gap stream wanted got) → IsGap marks deliveries stream wanted got }
{}

/// New marks name the streams of the marks and of the deliveries with images, at most 16. `TooManyStreams` comes
/// where there are more. Besides it only `Gap` comes.
///
/// The names of the marks rise.
pub fn new_marks_name_at_most_16_streams()
    ensures few { (marks next : Positions) (deliveries : List DeliveryValue)
        → IsTrue (is_sorted name_cmp marks) → new_marks marks deliveries ≡ Ok next
        → (length next ≡ stream_count marks deliveries) × (stream_count marks deliveries ≤ MAX_STREAMS) }
    ensures too_many { (marks : Positions) (deliveries : List DeliveryValue)
        → IsTrue (is_sorted name_cmp marks) → new_marks marks deliveries ≡ Err TooManyStreams
        → MAX_STREAMS < stream_count marks deliveries }
    ensures nothing_else { (marks : Positions) (deliveries : List DeliveryValue)
        → new_marks marks deliveries ≡ Err Memory → ⊥ }
{}

/// A new region's tablets are faithful to any broker. A round of honest deliveries keeps tablets faithful, also
/// if it runs out of memory.
pub fn honest_rounds_keep_tablets_faithful()
    ensures new { (broker : BrokerRecord) (bounds : Bounds) → AreFaithful broker (new_region bounds).tablets }
    ensures taken { (broker : BrokerRecord) (region : RegionValue) (deliveries : List DeliveryValue) (marks : Positions)
        → IsRegion region → AreFaithful broker region.tablets → AreHonest broker deliveries
        → new_marks region.marks deliveries ≡ Ok marks
        → AreFaithful broker (after_joins region deliveries marks).tablets }
    ensures half_taken { (broker : BrokerRecord) (old new : RegionValue) (deliveries : List DeliveryValue)
        → IsRegion old → AreFaithful broker old.tablets → AreHonest broker deliveries
        → IsHalfTaken old deliveries new → AreFaithful broker new.tablets }
{}

/// A region that takes rounds of honest deliveries has exactly the images up to its marks. A new one has none.
pub fn marks_tell_what_was_taken()
    ensures new { (broker : BrokerRecord) (bounds : Bounds)
        → HasImages (new_region bounds) (up_to broker (new_region bounds).marks) }
    ensures taken { (broker : BrokerRecord) (region : RegionValue) (deliveries : List DeliveryValue) (marks : Positions)
        → IsRegion region → HasImages region (up_to broker region.marks) → AreHonest broker deliveries
        → new_marks region.marks deliveries ≡ Ok marks
        → HasImages (after_joins region deliveries marks) (up_to broker marks) }
{}

/// A lost tablet is faithful, and adopting an honest copy keeps a tablet faithful.
///
/// A faithful tablet that serves, and whose cover is its reach, has the cells of all images in its range up to there.
/// The copies that a faithful tablet gives are honest.
pub fn honest_copies_keep_tablets_faithful()
    ensures lost { (broker : BrokerRecord) (tablet : TabletStateValue) → Reaches tablet.reach tablet.cover → IsFaithful broker (recovering_tablet tablet) }
    ensures adopted { (broker : BrokerRecord) (tablet after : TabletStateValue) (copy : TabletCopyValue)
        → IsFaithful broker tablet → IsHonestCopy broker copy → step tablet (Adopt copy) ≡ Ok after
        → IsFaithful broker after }
    ensures serving { (broker : BrokerRecord) (tablet : TabletStateValue)
        → IsFaithful broker tablet → tablet.status ≡ Serving → Reaches tablet.cover tablet.reach
        → tablet.cells ≡ table_of (images_in tablet.range (up_to broker tablet.cover)) }
    ensures given { (broker : BrokerRecord) (tablet : TabletStateValue) (need : Positions) (copy : TabletCopyValue)
        → IsFaithful broker tablet → copy_of tablet need ≡ Ok copy → IsHonestCopy broker copy }
{}

/// A change of layout leaves the records of all tablets together as they were. All tablets serve before and after it.
pub fn a_change_of_layout_keeps_all_records()
    ensures cells { (old new : RegionValue) (bounds : Bounds) → IsRegion old → IsLayout bounds → after_relayout old bounds ≡ Ok new
        → all_cells new ≡ all_cells old }
    ensures served { (old new : RegionValue) (bounds : Bounds) → after_relayout old bounds ≡ Ok new → AllServe old }
    ensures serve { (old new : RegionValue) (bounds : Bounds) → after_relayout old bounds ≡ Ok new → AllServe new }
{}

/// Marks that advance become the least of all covers, per stream. None falls, and all else stays.
pub fn marks_advance_to_the_least_of_all_covers()
    ensures covered { (old new : RegionValue) → after_advance old ≡ Ok new
        → AllByRecursion (λ tablet. Reaches tablet.cover new.marks) old.tablets }
    ensures least { (old new : RegionValue) (marks : Positions) → IsRegion old → after_advance old ≡ Ok new
        → AllByRecursion (λ tablet. Reaches tablet.cover marks) old.tablets → Reaches new.marks marks }
    ensures before { (old new : RegionValue) → IsRegion old → after_advance old ≡ Ok new → Reaches new.marks old.marks }
    ensures rest { (old new : RegionValue) → after_advance old ≡ Ok new → (new.layout ≡ old.layout) × (new.tablets ≡ old.tablets) }
{}

/// After honest events, where all tablets serve and none took a stream past the marks, a region has exactly the images up
/// to its marks. So it does not matter whether it took a stream from message 1, or copies and then the stream from its
/// marks on: two such regions with the same marks have the same records.
///
/// A new region is such a one, and rounds keep it so.
pub fn an_advanced_region_has_what_its_marks_tell()
    ensures images { (broker : BrokerRecord) (bounds : Bounds) (events : List RegionEvent) (region : RegionValue)
        → IsLayout bounds → AllLeadTo events (new_region bounds) region → AreHonestEvents broker events → AllServe region → NoneAhead region
        → HasImages region (up_to broker region.marks) }
    ensures alike { (broker : BrokerRecord) (bounds others : Bounds) (events more : List RegionEvent) (one other : RegionValue)
        → IsLayout bounds → AllLeadTo events (new_region bounds) one → AreHonestEvents broker events → AllServe one → NoneAhead one
        → IsLayout others → AllLeadTo more (new_region others) other → AreHonestEvents broker more → AllServe other → NoneAhead other
        → Reaches one.marks other.marks → Reaches other.marks one.marks → all_cells one ≡ all_cells other }
    ensures new { (bounds : Bounds) → NoneAhead (new_region bounds) }
    ensures taken { (region : RegionValue) (deliveries : List DeliveryValue) (marks : Positions)
        → IsRegion region → NoneAhead region → new_marks region.marks deliveries ≡ Ok marks → NoneAhead (after_joins region deliveries marks) }
{}

/// A region that starts from copies serves all its keys. Then and after all events, every cover reaches its marks.
///
/// It is faithful where the copies are honest, and stays so through honest events.
pub fn a_region_that_starts_from_honest_copies_is_faithful()
    ensures serves { (copies : List TabletCopyValue) (bounds : Bounds) (started : RegionValue) → StartsFrom copies bounds started → AllServe started }
    ensures covers { (copies : List TabletCopyValue) (bounds : Bounds) (events : List RegionEvent) (started region : RegionValue)
        → StartsFrom copies bounds started → AllLeadTo events started region
        → IsRegion region × AllByRecursion (λ tablet. Reaches tablet.cover region.marks) region.tablets }
    ensures faithful { (broker : BrokerRecord) (copies : List TabletCopyValue) (bounds : Bounds) (events : List RegionEvent) (started region : RegionValue)
        → StartsFrom copies bounds started → AreHonestCopies broker copies → AllLeadTo events started region → AreHonestEvents broker events
        → AreFaithful broker region.tablets }
{}

/// Where no copy was further than the marks, a region that started from honest copies, and then took honest deliveries from
/// its marks on, has exactly the images up to its marks.
///
/// So it has the records of every region with these marks that took all streams from message 1.
pub fn a_start_from_copies_is_as_good_as_whole_streams()
    ensures ahead { (copies : List TabletCopyValue) (bounds : Bounds) (started : RegionValue)
        → StartsFrom copies bounds started → AllByRecursion (λ copy. Reaches started.marks copy.marks) copies → NoneAhead started }
    ensures images { (broker : BrokerRecord) (copies : List TabletCopyValue) (bounds : Bounds) (events : List RegionEvent) (started region : RegionValue)
        → StartsFrom copies bounds started → AreHonestCopies broker copies → NoneAhead started
        → AreAccepted events → AllLeadTo events started region → AreHonestEvents broker events
        → HasImages region (up_to broker region.marks) }
    ensures alike { (broker : BrokerRecord) (copies : List TabletCopyValue) (bounds others : Bounds)
        (events more : List RegionEvent) (started region other : RegionValue)
        → StartsFrom copies bounds started → AreHonestCopies broker copies → NoneAhead started
        → AreAccepted events → AllLeadTo events started region → AreHonestEvents broker events
        → IsLayout others → AreAccepted more → AllLeadTo more (new_region others) other → AreHonestEvents broker more
        → Reaches region.marks other.marks → Reaches other.marks region.marks → all_cells region ≡ all_cells other }
{}

/// Whatever honest events follow, it has exactly what the copies and the events brought, if all tablets serve and rounds
/// that ran out of memory were retried.
pub fn a_region_that_starts_from_copies_has_what_it_took()
    ensures { (broker : BrokerRecord) (copies : List TabletCopyValue) (bounds : Bounds) (events : List RegionEvent) (started region : RegionValue)
        → StartsFrom copies bounds started → AreHonestCopies broker copies → AllLeadTo events started region → AreHonestEvents broker events → AllServe region
        → AreIn (all_left (start_events copies ++ events)) (all_taken broker (start_events copies ++ events))
        → all_cells region ≡ table_of (all_taken broker (start_events copies ++ events)) }
{}
