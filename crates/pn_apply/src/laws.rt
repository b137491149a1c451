//! The laws of the joins that deliveries bring to tablets, as contracts. A call does nothing.

ghost use Rattle.std.specs.Prelude.{◌≡◌, List, ◌++◌, map, IsTrue};
ghost use Rattle.std.specs.List.{flat_map};
ghost use Rattle.pn_join.specs.Prelude.{Positions, are_positions};
ghost use Rattle.pn_record.specs.declared.records.Image.{Image};
ghost use Rattle.pn_record.specs.Prelude.{spell, table_of, SameImages, adds};
ghost use Rattle.pn_stream.specs.Prelude.{DeliveryValue};
ghost use Rattle.pn_tablet.specs.Prelude.{Bounds, IsLayout, Ends, TabletStateValue};
ghost use Rattle.pn_apply.specs.Applying.{AreJoinsIn, HavePositions};
ghost use Rattle.pn_apply.specs.Reducing.{all_images, images_in, ranges, joins_of, joined_cells};

/// The cells of the tablets of any layout, one after another, are those of all images.
pub fn cutting_loses_nothing()
    ensures cells { (bounds : Bounds) (images : List Image) → IsLayout bounds
        → flat_map (λ range. table_of (images_in range images)) (ranges bounds) ≡ table_of images }
    ensures operations { (bounds : Bounds) (marks : Positions) (images : List Image) → IsLayout bounds
        → flat_map joined_cells (joins_of bounds marks images) ≡ table_of images }
{}

/// Cells of images in a range, joined with those of more images there, are the cells of both lists there.
pub fn a_range_joins_the_images_in_it()
    ensures { (range : Ends) (images more : List Image)
        → adds (table_of (images_in range images)) (spell (table_of (images_in range more)))
        ≡ table_of (images_in range (images ++ more)) }
{}

/// Deliveries of the same images bring the same joins, whatever their order, repeats and cuts.
pub fn the_same_images_bring_the_same()
    ensures { (bounds : Bounds) (marks : Positions) (deliveries others : List DeliveryValue)
        → SameImages (all_images deliveries) (all_images others)
        → joins_of bounds marks (all_images deliveries) ≡ joins_of bounds marks (all_images others) }
{}

/// The joins that images bring to the tablets of a layout lie in their ranges, and have lawful positions if the
/// marks have.
pub fn joins_lie_in_their_ranges()
    ensures joins { (bounds : Bounds) (marks : Positions) (images : List Image) (tablets : List TabletStateValue)
        → map (λ tablet. tablet.range) tablets ≡ ranges bounds → AreJoinsIn tablets (joins_of bounds marks images) }
    ensures positions { (bounds : Bounds) (marks : Positions) (images : List Image)
        → IsTrue (are_positions marks) → HavePositions (joins_of bounds marks images) }
{}
