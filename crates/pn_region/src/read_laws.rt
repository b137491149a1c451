//! The laws of reads and of notices, as contracts of functions that do nothing.

ghost use Rattle.std.specs.Prelude.{◌≡◌, ◌≢◌, ℕ, ◌<◌, List, map, Option, Some, None, Ok, Err, IsTrue, ◌+◌, ◌≤◌, ◌∷◌, ◌++◌, length, drop, Contains};
ghost use Rattle.std.specs.List.{AllByRecursion};
ghost use Rattle.std.specs.FinMap.{find, is_sorted};
ghost use Rattle.pn_join.specs.Prelude.{Positions};
ghost use Rattle.pn_record.specs.Prelude.{Entries, bytes_cmp, Stamp};
ghost use Rattle.pn_stream.specs.Prelude.{DeliveryValue};
ghost use Rattle.pn_tablet.specs.Prelude.{Bounds};
ghost use Rattle.pn_scan.specs.Prelude.{QueryValue, shown_rows, PageValue, first_page, unless_behind, left_by, rows_of};
ghost use Rattle.pn_scan.specs.Shown.{is_after};
ghost use Rattle.pn_scan.specs.Views.{ArePages};
ghost use Rattle.pn_scan.specs.declared.view.ScanFault.TheVariants.{NoEntry};
ghost use Rattle.pn_region.specs.Reads.{IsAnswered, IsAnsweredOf, read_in, get_in, page_in, AllServe, ArePagesOf};
ghost use Rattle.pn_region.specs.Regions.{RegionValue, IsRegion, new_region, all_cells};
ghost use Rattle.pn_region.specs.Rounds.{after_joins, IsHalfTaken};
ghost use Rattle.pn_tablet.specs.declared.change.Change.{Change};
ghost use Rattle.pn_region.specs.declared.notices.Entry.{Entry};
ghost use Rattle.pn_region.specs.declared.notices.Entry.TheVariants.{Break};
ghost use Rattle.pn_region.specs.declared.notices.TheConstants.{MAX_NOTICES, LAST_NUMBER};
ghost use Rattle.pn_region.specs.Log.{entries_of, changes_after, notices_from, last_of};

/// No read of a region answers `NoEntry`.
pub fn no_entry_is_refused()
    ensures read { (region : RegionValue) (key : List ℕ) (wanted : Option Stamp)
        → IsRegion region → read_in region key wanted ≢ Err NoEntry }
    ensures get { (region : RegionValue) (keys : List (List ℕ)) → IsRegion region → get_in region keys ≢ Err NoEntry }
    ensures page { (region : RegionValue) (query : QueryValue) → IsRegion region → page_in region query ≢ Err NoEntry }
{}

/// The tablets of a new region serve, and rounds leave serving tablets serving, also if they run out of memory.
pub fn rounds_leave_tablets_serving()
    ensures new { (bounds : Bounds) → AllServe (new_region bounds) }
    ensures taken { (region : RegionValue) (deliveries : List DeliveryValue) (marks : Positions)
        → AllServe region → AllServe (after_joins region deliveries marks) }
    ensures half_taken { (old new : RegionValue) (deliveries : List DeliveryValue)
        → AllServe old → IsHalfTaken old deliveries new → AllServe new }
{}

/// Where every tablet serves, answers depend only on the cells of all tablets together.
///
/// A read is the key's cell, unless it is `Behind`. A get has the keys' cells. A page has the first rows shown.
pub fn reads_depend_on_the_cells_alone()
    ensures read { (region : RegionValue) (key : List ℕ) (wanted : Option Stamp) → IsRegion region → AllServe region
        → read_in region key wanted ≡ unless_behind wanted (find bytes_cmp key (all_cells region)) }
    ensures get { (region : RegionValue) (keys : List (List ℕ)) → IsRegion region → AllServe region
        → get_in region keys ≡ Ok (map (λ key. find bytes_cmp key (all_cells region)) keys) }
    ensures page { (region : RegionValue) (query : QueryValue) → IsRegion region → AllServe region
        → page_in region query ≡ Ok (first_page query (shown_rows query (all_cells region))) }
{}

/// Two regions with the same cells, whose tablets all serve, answer every read, get and query alike, whatever
/// their layouts.
pub fn regions_of_the_same_cells_answer_alike()
    ensures read { (one other : RegionValue) (key : List ℕ) (wanted : Option Stamp) → IsRegion one → IsRegion other
        → AllServe one → AllServe other → all_cells one ≡ all_cells other
        → read_in one key wanted ≡ read_in other key wanted }
    ensures get { (one other : RegionValue) (keys : List (List ℕ)) → IsRegion one → IsRegion other
        → AllServe one → AllServe other → all_cells one ≡ all_cells other → get_in one keys ≡ get_in other keys }
    ensures page { (one other : RegionValue) (query : QueryValue) → IsRegion one → IsRegion other
        → AllServe one → AllServe other → all_cells one ≡ all_cells other → page_in one query ≡ page_in other query }
{}

/// The pages of an unchanged region, each continuing the one before, have together the rows that its cells show.
/// Each row comes once.
///
/// The same holds of pages between which the cells stay the same.
///
/// Where every tablet serves, such a walk comes to its end.
pub fn pages_together_are_the_shown_rows()
    ensures walked { (region : RegionValue) (query : QueryValue) (pages : List PageValue) → IsRegion region → 0 < query.limit
        → ArePagesOf region (Some query) pages → left_by (Some query) pages ≡ None
        → rows_of pages ≡ shown_rows query (all_cells region) }
    ensures ends { (region : RegionValue) (query : QueryValue) → IsRegion region → AllServe region → 0 < query.limit
        → (pages : List PageValue) × ArePagesOf region (Some query) pages × (left_by (Some query) pages ≡ None) }
    ensures same_cells { (cells : Entries) (query : QueryValue) (pages : List PageValue) → 0 < query.limit
        → ArePages (IsAnsweredOf cells) (Some query) pages → left_by (Some query) pages ≡ None
        → rows_of pages ≡ shown_rows query cells }
{}

/// Keys strictly rise within a page and from page to page, whatever happens to the region in between.
/// All are above the key that the first query excludes.
pub fn keys_rise_from_page_to_page()
    ensures rise { (query : QueryValue) (pages : List PageValue) → 0 < query.limit
        → ArePages IsAnswered (Some query) pages → IsTrue (is_sorted bytes_cmp (rows_of pages)) }
    ensures after { (query : QueryValue) (pages : List PageValue) → 0 < query.limit
        → ArePages IsAnswered (Some query) pages → AllByRecursion (λ row. IsTrue (is_after query.after row.0)) (rows_of pages) }
{}

/// `since(n)` returns exactly the changes numbered after n, up to the last number. They are at most 1,024.
pub fn since_returns_the_changes_after_a_number()
    ensures entries { (entries : List Entry) (n : ℕ) (changes : List Change)
        → changes_after entries n ≡ Some changes → drop n entries ≡ entries_of changes }
    ensures last { (entries : List Entry) (n : ℕ) (changes : List Change)
        → changes_after entries n ≡ Some changes → last_of entries ≡ n + length changes }
    ensures few { (entries : List Entry) (n : ℕ) (changes : List Change)
        → changes_after entries n ≡ Some changes → length changes ≤ MAX_NOTICES }
{}

/// `since` with the last number of an earlier answer goes on where that answer ended: both answers together are the
/// changes after the first number, numbered without a gap.
pub fn answers_leave_nothing_out_and_repeat_nothing()
    ensures entries { (entries more : List Entry) (n : ℕ) (first second : List Change)
        → changes_after entries n ≡ Some first → changes_after (entries ++ more) (last_of entries) ≡ Some second
        → drop n (entries ++ more) ≡ entries_of (first ++ second) }
    ensures numbers { (n : ℕ) (first second : List Change)
        → notices_from n (first ++ second) ≡ notices_from n first ++ notices_from (n + length first) second }
{}

/// A number before a break gets no answer. If a known, recent number gets no answer, a break follows it; recent
/// means that at most 1,024 numbers follow.
pub fn a_break_is_missed()
    ensures below { (before after : List Entry) (n : ℕ) (changes : List Change)
        → changes_after (before ++ Break ∷ after) n ≡ Some changes → length before < n }
    ensures broken { (entries : List Entry) (n : ℕ)
        → changes_after entries n ≡ None → n ≤ length entries → length entries ≤ n + MAX_NOTICES → length entries ≤ LAST_NUMBER
        → Contains (drop n entries) Break }
{}

/// Once there are more entries than numbers, no number gets an answer, and the last number stays.
pub fn past_the_last_number_there_are_no_answers()
    ensures { (entries : List Entry) (n : ℕ) → LAST_NUMBER < length entries
        → (changes_after entries n ≡ None) × (last_of entries ≡ LAST_NUMBER) }
{}
