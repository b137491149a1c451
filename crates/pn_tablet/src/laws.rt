//! The laws of tablets, of copies and of cuts, as contracts of functions that do nothing.

ghost use Rattle.std.specs.Prelude.{◌≡◌, ◌≤◌, ℕ, List, Ok, fold, length, Contains, IsTrue, ◌≢◌, ◌<◌, ◌↔◌, ◌∷◌, ◌++◌, All, Err, Option};
ghost use Rattle.std.specs.FinMap.{find};
ghost use Rattle.std.specs.List.{AllByRecursion};
ghost use Rattle.pn_join.specs.Prelude.{Positions, Reaches, raised_marks};
ghost use Rattle.pn_record.specs.declared.records.Image.{Image};
ghost use Rattle.pn_record.specs.Prelude.{bytes_cmp, Entries, table_of, NotOlder};
ghost use Rattle.pn_tablet.specs.Copies.{TabletCopyValue};
ghost use Rattle.pn_tablet.specs.Steps.{IsSpelled, Rise, AreJoins, Grows, step, tablet_after};
ghost use Rattle.pn_tablet.specs.Layouts.{Bounds, IsLayout, tablet_of, tablet_ends, in_range, Ends, are_ends, CutAllKeys, CutBelow, BeginInOrder, IsNoEmpty};
ghost use Rattle.pn_tablet.specs.Layouts.{all_ends, begin_of, count_having, layout_with};
ghost use Rattle.pn_tablet.specs.Tablets.{TabletStateValue};
ghost use Rattle.pn_tablet.specs.declared.state.TabletOp.{TabletOp};
ghost use Rattle.pn_tablet.specs.declared.state.TabletOp.TheVariants.{Join, Lose, Adopt};
ghost use Rattle.pn_tablet.specs.declared.state.Status.TheVariants.{Serving};
ghost use Rattle.pn_line.specs.Prelude.{IsUnbroken, text_of};
ghost use Rattle.pn_tablet.specs.CopyTexts.{IsCutOff, HasBadLine, LeavesRange, HasFall, HasBadEnd, IsCopyText};
ghost use Rattle.pn_tablet.specs.CopyReading.{copy_at};
ghost use Rattle.pn_tablet.specs.declared.fault.CopyTextFault.TheVariants.{Truncated, BadLine, OutsideRange, NotRising, BadEnd, Memory};
ghost use Rattle.pn_tablet.specs.declared.layout.CutFault.TheVariants.{NoCopy, TwoCopies};

/// No operation lowers the cover or the reach.
pub fn cover_never_falls()
    ensures cover { (tablet : TabletStateValue) (op : TabletOp) → Reaches (tablet_after tablet op).cover tablet.cover }
    ensures reach { (tablet : TabletStateValue) (op : TabletOp) → Reaches (tablet_after tablet op).reach tablet.reach }
{}

/// Only a loss removes a record or leaves it at an older version, and after a loss the tablet does not serve.
pub fn nothing_but_a_loss_goes_back()
    ensures kept { (tablet : TabletStateValue) (op : TabletOp) → IsSpelled tablet.cells → (op ≡ Lose → ⊥)
        → (key : List ℕ) → NotOlder (find bytes_cmp key tablet.cells) (find bytes_cmp key (tablet_after tablet op).cells) }
    ensures served { (tablet : TabletStateValue) (op : TabletOp) → IsSpelled tablet.cells → (tablet_after tablet op).status ≡ Serving
        → (key : List ℕ) → NotOlder (find bytes_cmp key tablet.cells) (find bytes_cmp key (tablet_after tablet op).cells) }
{}

/// Two joins give one tablet in either order, even where one is refused.
pub fn joins_commute()
    ensures { (tablet : TabletStateValue) (cells others : Entries) (marks positions : Positions)
        → Rise tablet.cover → Rise tablet.reach → Rise marks → Rise positions
        → tablet_after (tablet_after tablet (Join cells marks)) (Join others positions)
        ≡ tablet_after (tablet_after tablet (Join others positions)) (Join cells marks) }
{}

/// A repeated join changes nothing. With later marks, it leaves what it alone would have left.
pub fn joins_repeat_without_effect()
    ensures later { (tablet : TabletStateValue) (cells : Entries) (marks later : Positions) → Rise tablet.cover → Rise tablet.reach
        → raised_marks marks later ≡ later
        → tablet_after (tablet_after tablet (Join cells marks)) (Join cells later) ≡ tablet_after tablet (Join cells later) }
    ensures same { (tablet : TabletStateValue) (cells : Entries) (marks : Positions) → Rise tablet.cover → Rise tablet.reach → Rise marks
        → tablet_after (tablet_after tablet (Join cells marks)) (Join cells marks) ≡ tablet_after tablet (Join cells marks) }
{}

/// After a loss, joins, and the adoption of a copy, every record is back, at its version before the loss or a later one.
pub fn an_adoption_brings_back_what_was_lost()
    ensures { (upto : Positions → List Image) → Grows upto
        → (tablet after : TabletStateValue) (joins : List TabletOp) (copy : TabletCopyValue) → AreJoins joins
        → Rise tablet.reach → Rise copy.marks
        → (images : List Image) → tablet.cells ≡ table_of images → ((image : Image) → Contains images image → Contains (upto tablet.reach) image)
        → copy.cells ≡ table_of (upto copy.marks)
        → step (fold tablet_after (tablet_after tablet Lose) joins) (Adopt copy) ≡ Ok after
        → (key : List ℕ) → NotOlder (find bytes_cmp key tablet.cells) (find bytes_cmp key after.cells) }
{}

/// Each key is in the range of exactly the tablet that `tablet_of` names.
pub fn each_key_is_in_one_tablet()
    ensures there { (bounds : Bounds) (key : List ℕ) → IsLayout bounds → IsTrue (in_range (tablet_ends bounds (tablet_of bounds key)) key) }
    ensures within { (bounds : Bounds) (key : List ℕ) → tablet_of bounds key ≤ length bounds }
    ensures nowhere_else { (bounds : Bounds) (key : List ℕ) (tablet : ℕ) → IsLayout bounds → tablet ≤ length bounds
        → IsTrue (in_range (tablet_ends bounds tablet) key) → tablet ≡ tablet_of bounds key }
{}

/// A text is read as a copy exactly where it spells it.
pub fn a_copy_is_read_where_it_is_spelled()
    ensures { (text : List ℕ) (copy : TabletCopyValue) → IsCopyText text copy ↔ (copy_at text ≡ Ok copy) }
{}

/// Any other text has the fault of the first line with which it no longer begins a copy, or is truncated.
pub fn a_fault_is_that_of_the_first_faulty_line()
    ensures truncated { (text : List ℕ) → (copy_at text ≡ Err Truncated) ↔ IsCutOff text }
    ensures bad_line { (text : List ℕ) (n : ℕ) → (copy_at text ≡ Err (BadLine n)) ↔ HasBadLine text n }
    ensures outside_range { (text : List ℕ) (n : ℕ) → (copy_at text ≡ Err (OutsideRange n)) ↔ LeavesRange text n }
    ensures not_rising { (text : List ℕ) (n : ℕ) → (copy_at text ≡ Err (NotRising n)) ↔ HasFall text n }
    ensures bad_end { (text : List ℕ) → (copy_at text ≡ Err BadEnd) ↔ HasBadEnd text }
    ensures no_other { (text : List ℕ) → copy_at text ≢ Err Memory }
{}

/// No text spells two copies.
pub fn a_text_spells_one_copy()
    ensures { (text : List ℕ) (one other : TabletCopyValue) → IsCopyText text one → IsCopyText text other → one ≡ other }
{}

/// A copy's text without its end is read as truncated, and spells no copy.
pub fn no_part_of_a_copy_is_a_copy()
    ensures truncated { (front back : List ℕ) (copy : TabletCopyValue) → IsCopyText (front ++ back) copy → 0 < length back
        → copy_at front ≡ Err Truncated }
    ensures no_copy { (front back : List ℕ) (copy other : TabletCopyValue) → IsCopyText (front ++ back) copy → 0 < length back
        → ¬ IsCopyText front other }
{}

/// All spellings of a copy have the same number of lines. Without a line, or with a line twice, a spelling no longer
/// spells the copy.
pub fn spellings_of_a_copy_have_as_many_lines()
    ensures count { (one other : List (List ℕ)) (copy : TabletCopyValue) → All IsUnbroken one → All IsUnbroken other
        → IsCopyText (text_of one) copy → IsCopyText (text_of other) copy → length one ≡ length other }
    ensures dropped { (before after : List (List ℕ)) (line : List ℕ) (copy : TabletCopyValue) → All IsUnbroken (before ++ line ∷ after)
        → IsCopyText (text_of (before ++ line ∷ after)) copy → ¬ IsCopyText (text_of (before ++ after)) copy }
    ensures doubled { (before after : List (List ℕ)) (line : List ℕ) (copy : TabletCopyValue) → All IsUnbroken (before ++ line ∷ after)
        → IsCopyText (text_of (before ++ line ∷ after)) copy → ¬ IsCopyText (text_of (before ++ line ∷ line ∷ after)) copy }
{}

/// With any two of its lines exchanged, a copy's text spells no copy.
pub fn no_exchanged_lines_are_a_copy()
    ensures { (before between after : List (List ℕ)) (one other : List ℕ) (copy another : TabletCopyValue)
        → All IsUnbroken (before ++ one ∷ (between ++ other ∷ after)) → IsCopyText (text_of (before ++ one ∷ (between ++ other ∷ after))) copy
        → ¬ IsCopyText (text_of (before ++ other ∷ (between ++ one ∷ after))) another }
{}

/// Ranges that are taken as a layout are those of its tablets, in order. So each key is in exactly one of them.
pub fn ranges_that_cut_all_keys_are_a_layout()
    ensures layout { (ranges : List Ends) (bounds : Bounds) → AllByRecursion (λ range. IsTrue (are_ends range)) ranges → layout_with ranges ≡ Ok bounds
        → IsLayout bounds × (all_ends bounds ≡ ranges) }
    ensures keys { (ranges : List Ends) (bounds : Bounds) → AllByRecursion (λ range. IsTrue (are_ends range)) ranges → layout_with ranges ≡ Ok bounds
        → CutAllKeys ranges }
{}

/// Where ranges, put into the order of their beginnings, are no layout, the key in the fault is in none of them, or in two,
/// and each key below it in exactly one.
pub fn the_first_key_that_is_not_in_one_range_is_named()
    ensures no_copy { (ranges : List Ends) (end : Option (List ℕ)) → AllByRecursion (λ range. IsTrue (are_ends range)) ranges
        → AllByRecursion (λ range. IsNoEmpty range.0 × IsNoEmpty range.1) ranges → BeginInOrder ranges → layout_with ranges ≡ Err (NoCopy end)
        → (count_having ranges (begin_of end) ≡ 0) × CutBelow (begin_of end) ranges }
    ensures two_copies { (ranges : List Ends) (end : Option (List ℕ)) → AllByRecursion (λ range. IsTrue (are_ends range)) ranges
        → AllByRecursion (λ range. IsNoEmpty range.0 × IsNoEmpty range.1) ranges → BeginInOrder ranges → layout_with ranges ≡ Err (TwoCopies end)
        → (2 ≤ count_having ranges (begin_of end)) × CutBelow (begin_of end) ranges }
{}
