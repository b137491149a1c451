//! The laws of live regions, as contracts of functions that do nothing.

ghost use Rattle.std.specs.Prelude.{◌≡◌, ◌+◌, ◌++◌, ◌∷◌, ℕ, List, length, IsTrue, Contains, Ok, ◌⊎◌, map};
ghost use Rattle.std.specs.FinMap.{find};
ghost use Rattle.pn_join.specs.Prelude.{Positions};
ghost use Rattle.pn_record.specs.Prelude.{Entries, bytes_cmp, table_of};
ghost use Rattle.pn_tablet.specs.Prelude.{IsSpelled, Ends, in_range, state_of, TabletStateValue, lie_in, TabletCopyValue, IsCopy, Bounds, IsLayout};
ghost use Rattle.pn_tablet.specs.declared.state.TabletOp.{TabletOp};
ghost use Rattle.pn_tablet.specs.declared.state.TabletOp.TheVariants.{Join, Lose};
ghost use Rattle.pn_region.specs.Prelude.{HoldsStill, IsHonestCopy, new_marks, IsRegion, round, AreHonestEvents, new_region, all_cells};
ghost use Rattle.pn_apply.specs.Prelude.{join_in, all_images, ranges};
ghost use Rattle.pn_record.specs.declared.records.Image.{Image};
ghost use Rattle.pn_scan.specs.Prelude.{Look, Looks};
ghost use Rattle.pn_live.specs.Laws.{AreNoLosses, HasImage, HasNoLossAfter, AllKnowMore};
ghost use Rattle.pn_live.specs.PublishedTablets.{PublishedTabletValue, TabletNoteValue, note_of, with_op, AreNewTablets, IsHonestList, AreHonestTablets};
ghost use Rattle.pn_live.specs.Readers.{LiveReaderValue, LooksLive, TabletReaderValue, Finds, Learns, AllLearn, KnowsMore};
ghost use Rattle.pn_stream.specs.Prelude.{BrokerRecord, AreHonest, DeliveryValue};
ghost use Rattle.pn_tablet.specs.declared.state.Status.TheVariants.{Serving};
ghost use Rattle.pn_live.specs.LiveRegions.{LiveRegionValue, core, tablets_after_round, IsNewLive, after_op_at, Adopts, Advances, AllLeadLive, StartsLive};
ghost use Rattle.pn_live.specs.LiveRegions.{StopsAt};
ghost use Rattle.pn_region.specs.Events.{RegionEvent, AllLeadTo, all_taken, AreRounds, StartsFrom};
ghost use Rattle.pn_region.specs.Log.{LoggedRegion};
ghost use Rattle.pn_region.specs.Reads.{AllServe};
ghost use Rattle.pn_tablet.specs.declared.fault.OpFault.TheVariants.{Memory as no_memory};
ghost use Rattle.pn_region.specs.declared.fault.AdvanceFault.TheVariants.{TooManyStreams, Memory as no_memory_to_advance};
ghost use Rattle.pn_live.specs.declared.fault.StartFault.{StartFault};
ghost use Rattle.pn_live.specs.declared.fault.StartFault.TheVariants.{Adopt, Advance};

/// Without a loss, later states keep every record, at the same or a newer version. At the same version it keeps all
/// its contents.
pub fn nothing_goes_back()
    ensures { (range : Ends) (list more : List TabletOp) → AreNoLosses more
        → (key : List ℕ) → HoldsStill (find bytes_cmp key (state_of range list).cells) (find bytes_cmp key (state_of range (list ++ more)).cells) }
{}

/// Without a later loss, the records of a join stay, at the same or a newer version.
pub fn what_was_joined_is_there()
    ensures { (range : Ends) (before more : List TabletOp) (cells : Entries) (marks : Positions)
        → IsSpelled cells → IsTrue (lie_in range cells) → AreNoLosses more
        → (key : List ℕ) → HoldsStill (find bytes_cmp key cells) (find bytes_cmp key (state_of range (before ++ Join cells marks ∷ more)).cells) }
{}

/// A reader's history only grows.
pub fn nothing_is_forgotten()
    ensures looks { (old new : LiveReaderValue) (look : Look) → LooksLive old look new → AllKnowMore old.tablet_readers new.tablet_readers }
    ensures many { (seen : List Look) (old new : LiveReaderValue) → Looks LooksLive old seen new → AllKnowMore old.tablet_readers new.tablet_readers }
    ensures fronts { (olds news : List TabletReaderValue) (front : List TabletNoteValue) → AllLearn olds front news → AllKnowMore olds news }
    ensures itself { (readers : List TabletReaderValue) → AllKnowMore readers readers }
    ensures on { (first then last : List TabletReaderValue) → AllKnowMore first then → AllKnowMore then last → AllKnowMore first last }
{}

/// Without a loss between them, a reader's second answer shows no older record than its first, nor fewer contents of a
/// version.
pub fn answers_never_go_back()
    ensures { (first seen later last : TabletReaderValue) (was now : TabletStateValue) → Finds first was seen → KnowsMore seen later → Finds later now last
        → HasNoLossAfter (length seen.seen) last
        → (key : List ℕ) → HoldsStill (find bytes_cmp key was.cells) (find bytes_cmp key now.cells) }
{}

/// Without a later loss, a reader that learnt the front of a round finds each of its images, or a newer version.
pub fn a_learnt_front_is_not_missed()
    ensures { (tablet : PublishedTabletValue) (marks : Positions) (images : List Image) (reader learnt later last : TabletReaderValue) (now : TabletStateValue)
        → reader.range ≡ tablet.range → Learns reader (note_of (with_op tablet (join_in marks images tablet.range))) learnt
        → KnowsMore learnt later → Finds later now last → HasNoLossAfter (length tablet.list + 1) last
        → (image : Image) → Contains images image → IsTrue (in_range tablet.range image.key) → HasImage image (find bytes_cmp image.key now.cells) }
{}

/// Honest deliveries and copies keep what is published honest, through rounds, losses and adoptions, and where marks
/// advance. What is refused publishes nothing.
pub fn honest_calls_keep_lists_honest()
    ensures opened { (broker : BrokerRecord) (ranges : List Ends) (tablets : List PublishedTabletValue) → AreNewTablets ranges tablets
        → AreHonestTablets broker tablets }
    ensures round { (broker : BrokerRecord) (old new : LiveRegionValue) (deliveries : List DeliveryValue) → IsRegion (core old)
        → AreHonestTablets broker old.tablets → AreHonest broker deliveries
        → round (core old) deliveries ≡ Ok (core new) → new.tablets ≡ tablets_after_round old deliveries new.marks → AreHonestTablets broker new.tablets }
    ensures loss { (broker : BrokerRecord) (old new : LiveRegionValue) (tablet : ℕ) → IsRegion (core old) → AreHonestTablets broker old.tablets
        → new ≡ after_op_at old tablet Lose → AreHonestTablets broker new.tablets }
    ensures adoption { (broker : BrokerRecord) (old new : LiveRegionValue) (copy : TabletCopyValue) → IsRegion (core old) → AreHonestTablets broker old.tablets
        → IsCopy copy.range copy.marks copy.cells → IsHonestCopy broker copy → Adopts copy old new → AreHonestTablets broker new.tablets }
    ensures advance { (broker : BrokerRecord) (old new : LiveRegionValue) → AreHonestTablets broker old.tablets → Advances old new
        → AreHonestTablets broker new.tablets }
{}

/// Of an honest tablet that serves at both, a reader's second answer shows no older record than its first, nor fewer
/// contents of a version, whatever losses lie between.
pub fn answers_never_go_back_across_losses()
    ensures { (broker : BrokerRecord) (first seen later last : TabletReaderValue) (was now : TabletStateValue) → Finds first was seen
        → KnowsMore seen later → Finds later now last
        → IsHonestList broker last.range last.seen → was.status ≡ Serving → now.status ≡ Serving
        → (key : List ℕ) → HoldsStill (find bytes_cmp key was.cells) (find bytes_cmp key now.cells) }
{}

/// Of an honest tablet that serves, a reader that learnt the front of an honest round finds each of its images, or a
/// newer version, whatever losses follow.
pub fn a_learnt_front_is_not_missed_across_losses()
    ensures { (broker : BrokerRecord) (tablet : PublishedTabletValue) (old marks : Positions) (deliveries : List DeliveryValue)
        (reader learnt later last : TabletReaderValue) (now : TabletStateValue)
        → AreHonest broker deliveries → new_marks old deliveries ≡ Ok marks
        → reader.range ≡ tablet.range → Learns reader (note_of (with_op tablet (join_in marks (all_images deliveries) tablet.range))) learnt
        → KnowsMore learnt later → Finds later now last → IsHonestList broker last.range last.seen → now.status ≡ Serving
        → (image : Image) → Contains (all_images deliveries) image → IsTrue (in_range tablet.range image.key)
        → HasImage image (find bytes_cmp image.key now.cells) }
{}

/// A live region opens as a new region, and its calls do to it what events do to a region.
pub fn calls_are_events()
    ensures opened { (bounds : Bounds) (live : LiveRegionValue) → IsNewLive bounds live → core live ≡ new_region bounds }
    ensures calls { (events : List RegionEvent) (old new : LiveRegionValue) → AllLeadLive events old new → AllLeadTo events (core old) (core new) }
{}

/// The region that `close` gives after honest calls has exactly the cells of the images taken, if all its tablets serve.
///
/// Rounds alone need not be honest.
pub fn a_closed_region_has_what_was_taken()
    ensures honest { (broker : BrokerRecord) (bounds : Bounds) (events : List RegionEvent) (opened live : LiveRegionValue) (closed : LoggedRegion)
        → IsLayout bounds → IsNewLive bounds opened → AllLeadLive events opened live → closed.state ≡ core live
        → AreHonestEvents broker events → AllServe closed.state → all_cells closed.state ≡ table_of (all_taken broker events) }
    ensures rounds { (broker : BrokerRecord) (bounds : Bounds) (events : List RegionEvent) (opened live : LiveRegionValue) (closed : LoggedRegion)
        → IsLayout bounds → IsNewLive bounds opened → AllLeadLive events opened live → closed.state ≡ core live
        → AreRounds events → all_cells closed.state ≡ table_of (all_taken broker events) }
{}

/// A live region that starts from copies, those of its tablets in order, is a region that starts from them.
pub fn a_live_region_starts_as_a_region()
    ensures { (copies : List TabletCopyValue) (bounds : Bounds) (live : LiveRegionValue) → IsLayout bounds → map (λ copy. copy.range) copies ≡ ranges bounds
        → StartsLive copies bounds live → StartsFrom copies bounds (core live) }
{}

/// Once such a region is open, no copy is refused: only where memory runs out, or what all tablets have is of more than 16
/// streams, does it not start.
pub fn the_copies_of_all_tablets_are_adopted()
    ensures { (copies : List TabletCopyValue) (bounds : Bounds) (fault : StartFault) → map (λ copy. copy.range) copies ≡ ranges bounds
        → StopsAt copies (new_region bounds) fault
        → (fault ≡ Adopt no_memory) ⊎ ((fault ≡ Advance no_memory_to_advance) ⊎ (fault ≡ Advance TooManyStreams)) }
{}
