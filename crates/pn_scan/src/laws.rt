//! The laws of pages and of queries, as contracts of functions that do nothing.

ghost use Rattle.std.specs.Prelude.{◌≡◌, ℕ, ◌<◌, ◌++◌, List, Option, None, Some, IsTrue, ◌↔◌, false, [], codes, Ok, Err};
ghost use Rattle.std.specs.FinMap.{is_sorted};
ghost use Rattle.std.specs.List.{AllByRecursion, flat_map, list_all};
ghost use Rattle.pn_record.specs.Prelude.{bytes_cmp};
ghost use Rattle.pn_tablet.specs.Prelude.{Bounds, IsLayout};
ghost use Rattle.pn_scan.specs.Queries.{QueryValue, ConditionValue, is_query, operand_fits};
ghost use Rattle.pn_scan.specs.Shown.{is_after};
ghost use Rattle.pn_scan.specs.Pages.{Look, cells_in, rows_in, PageValue, first_refusal, page_of};
ghost use Rattle.pn_scan.specs.Views.{IsPageOf, IsSomePage, ArePages, left_by, rows_of, rows_left};
ghost use Rattle.serde_json.specs.Data.{Data, Members, number, object, unsigned};
ghost use Rattle.serde_json.specs.Find.{get_member};
ghost use Rattle.pn_json.specs.Prelude.{only_named};
ghost use Rattle.pn_scan.specs.QueryReading.{conditions_at, conditions_data, query_data, query_members, shape_in, query_in, IsGiven};
ghost use Rattle.pn_tablet.specs.Layouts.{key_data};
ghost use Rattle.pn_scan.specs.declared.query.TheConstants.{USUAL_PAGE};
ghost use Rattle.pn_scan.specs.declared.query_json.QueryFault.TheVariants.{BadShape, OutOfRange};

/// While tablets stay, the rows of successive pages and of the last continuation are all shown rows, each once. Where no
/// tablet recovers, the pages come to an end.
pub fn pages_together_are_the_shown_rows()
    ensures walked { (bounds : Bounds) (looks : List Look) (query : QueryValue) (pages : List PageValue) → 0 < query.limit
        → IsTrue (is_sorted bytes_cmp (flat_map (λ look. cells_in look.1) looks)) → ArePages (IsPageOf bounds looks) (Some query) pages
        → rows_of pages ++ rows_left looks (left_by (Some query) pages) ≡ rows_in query looks }
    ensures ends { (bounds : Bounds) (looks : List Look) (query : QueryValue) → 0 < query.limit
        → IsTrue (is_sorted bytes_cmp (flat_map (λ look. cells_in look.1) looks)) → first_refusal looks ≡ None
        → (pages : List PageValue) × ArePages (IsPageOf bounds looks) (Some query) pages × (left_by (Some query) pages ≡ None) }
{}

/// Keys strictly rise within a page and from page to page, whatever changes in between, so no row is repeated. All are
/// above the key that the first query excludes.
pub fn keys_rise_from_page_to_page()
    ensures rise { (bounds : Bounds) (query : QueryValue) (pages : List PageValue) → IsLayout bounds → 0 < query.limit
        → ArePages (IsSomePage bounds) (Some query) pages → IsTrue (is_sorted bytes_cmp (rows_of pages)) }
    ensures after { (bounds : Bounds) (query : QueryValue) (pages : List PageValue) → IsLayout bounds → 0 < query.limit
        → ArePages (IsSomePage bounds) (Some query) pages → AllByRecursion (λ row. IsTrue (is_after query.after row.0)) (rows_of pages) }
{}

/// Where no tablet recovers, a page depends on the cells of all tablets together, and not on the layout.
pub fn a_page_depends_on_the_cells_alone()
    ensures { (bounds others : Bounds) (looks more : List Look) (query : QueryValue) → first_refusal looks ≡ None → first_refusal more ≡ None
        → flat_map (λ look. cells_in look.1) looks ≡ flat_map (λ look. cells_in look.1) more → page_of bounds query looks ≡ page_of others query more }
{}

/// A value has the shape of a query exactly where it is an object of its members, each given or, if usual, absent, and
/// all numbers of its conditions have 64 bits.
pub fn a_query_is_an_object_of_its_members()
    ensures { (value : Data) (query : QueryValue) → (shape_in value ≡ Ok query) ↔ ((members : Members) × (value ≡ object members)
        × IsTrue (only_named query_members members)
        × IsGiven (get_member (codes "after") members) (key_data query.after) (query.after ≡ None)
        × IsGiven (get_member (codes "from") members) (key_data query.from) (query.from ≡ None)
        × IsGiven (get_member (codes "limit") members) (number (unsigned query.limit)) (query.limit ≡ USUAL_PAGE)
        × IsGiven (get_member (codes "to") members) (key_data query.to) (query.to ≡ None)
        × IsGiven (get_member (codes "where") members) (conditions_data query.conditions) (query.conditions ≡ [])
        × IsTrue (list_all operand_fits query.conditions)) }
{}

/// A value is read as conditions exactly where it is their JSON, and all their numbers have 64 bits.
pub fn conditions_are_read_of_their_json()
    ensures { (value : Data) (conditions : List ConditionValue) → (conditions_at value ≡ Ok conditions)
        ↔ ((value ≡ conditions_data conditions) × IsTrue (list_all operand_fits conditions)) }
{}

/// The JSON that is written of a query is read as the query.
pub fn what_is_written_is_read_again()
    ensures { (query : QueryValue) → IsTrue (is_query query) → query_in (query_data query) ≡ Ok query }
{}

/// A value has a bad shape exactly where it has the shape of no query, within the limits or not.
pub fn a_bad_shape_is_that_of_no_query()
    ensures { (value : Data) → query_in value ≡ Err BadShape ↔ ¬ ((query : QueryValue) × (shape_in value ≡ Ok query)) }
{}

/// A value is out of range exactly where it has the shape of a query that breaks a limit.
pub fn out_of_range_is_a_query_that_breaks_a_limit()
    ensures { (value : Data) → query_in value ≡ Err OutOfRange ↔ ((query : QueryValue) × (shape_in value ≡ Ok query) × (is_query query ≡ false)) }
{}
