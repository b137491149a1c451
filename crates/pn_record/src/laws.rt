//! The laws of cells and of image lines, as contracts of functions that do nothing.

ghost use Rattle.std.specs.Prelude.{◌≡◌, ◌≤◌, ℕ, false, List, [], ◌++◌, length, MatchOption, IsTrue, IsUtf8};
ghost use Rattle.std.specs.Ordering.{is_gt};
ghost use Rattle.std.specs.FinMap.{is_sorted};
ghost use Rattle.pn_join.specs.Prelude.{JoinLaws, optional_joined};
ghost use Rattle.pn_record.specs.declared.records.Image.{Image};
ghost use Rattle.pn_record.specs.Sets.{bytes_cmp, version_cmp, CellValue, cell_joined};
ghost use Rattle.json.specs.Json.{Json};
ghost use Rattle.json.specs.Lex.{tokens};
ghost use Rattle.pn_record.specs.Reading.{IsImageLine, value_at, image_at};
ghost use Rattle.pn_record.specs.Limits.{max_line_bytes};
ghost use Rattle.pn_record.specs.Reordered.{Spells, IsReordered};
ghost use Rattle.pn_record.specs.Cells.{Holds, IsTop, SameImages, cells, top};

/// The top version is the version of one of the images, and none has a greater one.
pub fn top_is_greatest()
    ensures { (images : List Image) → MatchOption (top images) (images ≡ []) (λ version. IsTop version images) }
{}

/// A key's cell in two lists appended is the join of its cells in each.
pub fn cells_of_both_lists()
    ensures { (images more : List Image) (key : List ℕ)
        → cells (images ++ more) key ≡ optional_joined cell_joined (cells images key) (cells more key) }
{}

/// Lists of the same images, in any order and any number, have the same cells.
pub fn cells_of_the_same_images()
    ensures { (images others : List Image) → SameImages images others → (key : List ℕ) → cells images key ≡ cells others key }
{}

/// Two tables that hold the same images are equal.
pub fn tables_of_the_same_images()
    ensures { (table other : List (List ℕ × CellValue)) (images others : List Image)
        → IsTrue (is_sorted bytes_cmp table) → IsTrue (is_sorted bytes_cmp other)
        → Holds table images → Holds other others → SameImages images others → table ≡ other }
{}

/// A join leaves no cell at an older version.
pub fn joining_never_goes_back()
    ensures { (cell other : CellValue) → is_gt (version_cmp cell.0 (cell_joined cell other).0) ≡ false }
{}

/// No line is two different images.
pub fn a_line_is_one_image()
    ensures { (line : List ℕ) (one other : Image) → IsImageLine line one → IsImageLine line other → one ≡ other }
{}

/// Lines of equal values are the same image.
pub fn the_value_decides()
    ensures { (one other : List ℕ) → value_at one ≡ value_at other → image_at one ≡ image_at other }
{}

/// White space between tokens makes no difference, if the lines are not too long.
pub fn white_space_changes_nothing()
    ensures { (one other : List ℕ) → length one ≤ max_line_bytes → length other ≤ max_line_bytes → IsUtf8 one → IsUtf8 other
        → tokens one ≡ tokens other → image_at one ≡ image_at other }
{}

/// The order of members makes no difference, neither of the image's nor of its fields'.
pub fn the_order_of_members_changes_nothing()
    ensures { (one other : List ℕ) (value moved : Json) → Spells one value → Spells other moved
        → IsReordered value moved → image_at one ≡ image_at other }
{}
