//! The laws of marks, as contracts of functions that do nothing.

ghost use Rattle.std.specs.Prelude.{◌≡◌, ℕ, max, min, List, IsTrue};
ghost use Rattle.std.specs.FinMap.{is_sorted};
ghost use Rattle.pn_join.specs.Marks.{Positions, are_positions, name_cmp, position_of, least_marks, raised_marks};

/// Raised marks have the greater of both positions at each name.
pub fn raised_positions_are_the_greater()
    ensures { (marks others : Positions) (name : List ℕ)
        → position_of (raised_marks marks others) name ≡ max (position_of marks name) (position_of others name) }
{}

/// Raising marks is commutative, associative and idempotent. Names still rise, and positions stay within 1 to
/// `LAST_POSITION`.
pub fn raising_is_a_join()
    ensures commutes { (a b : Positions) → IsTrue (is_sorted name_cmp a) → IsTrue (is_sorted name_cmp b) → raised_marks a b ≡ raised_marks b a }
    ensures associates { (a b c : Positions) → IsTrue (is_sorted name_cmp a) → raised_marks (raised_marks a b) c ≡ raised_marks a (raised_marks b c) }
    ensures repeats { (a : Positions) → IsTrue (is_sorted name_cmp a) → raised_marks a a ≡ a }
    ensures rising { (a b : Positions) → IsTrue (is_sorted name_cmp a) → IsTrue (is_sorted name_cmp (raised_marks a b)) }
    ensures positions { (a b : Positions) → IsTrue (are_positions a) → IsTrue (are_positions b) → IsTrue (are_positions (raised_marks a b)) }
{}

/// The least of two marks has the lesser of both positions at each name.
pub fn least_positions_are_the_lesser()
    ensures { (marks others : Positions) (name : List ℕ)
        → position_of (least_marks marks others) name ≡ min (position_of marks name) (position_of others name) }
{}

/// Where the names of marks rise, so do those of their least with any others. Positions stay within 1 to
/// `LAST_POSITION`.
pub fn least_marks_stay_in_order()
    ensures rising { (a b : Positions) → IsTrue (is_sorted name_cmp a) → IsTrue (is_sorted name_cmp (least_marks a b)) }
    ensures positions { (a b : Positions) → IsTrue (are_positions a) → IsTrue (are_positions (least_marks a b)) }
{}
