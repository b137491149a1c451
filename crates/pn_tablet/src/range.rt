//! Ranges of keys, and which keys are inside.

ghost use Rattle.std.specs.Prelude.{◌≡◌, ◌&&◌, ◌↔◌, IsTrue, IsSome, IfSome, IfOk, OnOk, option_map, not, filter, count_by};
ghost use Rattle.std.specs.Option.{option_copied, option_eq};
ghost use Rattle.std.specs.Str.{bytes_eq};
ghost use Rattle.std.specs.Ordering.{eq_of_both, on};
ghost use Rattle.std.specs.Cmp.{partial_equiv_from_equiv};
ghost use Rattle.std.specs.Cmp.Rules.{comparing};
ghost use Rattle.std.proofs.Common.{rules};
ghost use Rattle.std.specs.List.{list_all};
ghost use Rattle.pn_json.specs.Prelude.{Appends, member_tokens, seen_text};
ghost use Rattle.pn_tablet.specs.Layouts.{is_from, is_before, in_range, are_ends, is_end, key_data, meet};
ghost use Rattle.pn_tablet.specs.Tablets.{lie_in as all_lie_in};

use json::Writer;
use pn_join::{Dup, NoMemory, dup_optional};
use pn_json::{write_null_member, write_text_member};
use pn_record::{Key, Records};
use std::alloc::Global;
use std::marker::Model;

/// The keys from `from`, inclusive, to `to`, exclusive. Without an end it is open there; of two ends the first is
/// less.
#[derive(Debug, Drop)]
pub struct Range {
    from: Option<Key>,
    to: Option<Key>,
}

impl Model for Range {
    ghost use Rattle.std.specs.Prelude.{IsTrue};
    ghost use Rattle.pn_tablet.specs.Layouts.{Ends, are_ends};

    ghost Value = { Ends };

    ghost view = { λ range. (range.from, range.to) };

    ghost invariant = { λ range. IsTrue (are_ends (range.from, range.to)) };
}

impl Range {
    /// None where there are two ends and the first is not less.
    pub fn new(from: Option<Key>, to: Option<Key>) -> Option<Range>
        ensures made { IfSome result (λ range. range ≡ (from, to)) }
        ensures exactly { IsSome result ↔ IsTrue (are_ends (from, to)) }
    {
        if let Some(first) = &from {
            if !is_before(to.as_ref(), first) {
                return None;
            }
        }
        Some(Range { from, to })
    }

    /// The range of copies of these ends, which are in order.
    pub(crate) fn from_ends(from: Option<&Key>, to: Option<&Key>) -> Result<Range, NoMemory>
        requires { IsTrue (are_ends (option_copied from, option_copied to)) }
        ensures { IfOk result (λ range. range ≡ (option_copied from.entry, option_copied to.entry)) }
    {
        Ok(Range {
            from: dup_optional(from)?,
            to: dup_optional(to)?,
        })
    }

    /// Whether an end may be made of the text, if there is one.
    pub fn is_end(text: Option<&str>) -> bool
        ensures { result ≡ is_end (seen_text text.entry) }
    {
        match text {
            None => true,
            Some(text) => Key::fits(text),
        }
    }

    /// The end of a text, if there is one.
    pub fn end_of(alloc: Global, text: Option<&str>) -> Result<Option<Key>, NoMemory>
        requires { IsTrue (is_end (seen_text text)) }
        ensures { IfOk result (λ key. key ≡ seen_text text.entry) }
    {
        match text {
            None => Ok(None),
            Some(text) => Ok(Some(Key::of_fitting(alloc, text)?)),
        }
    }

    /// The least key of the range; none where it is open.
    pub fn from(&self) -> Option<&Key>
        ensures from { option_copied result ≡ self.now.0 }
        ensures order { IsTrue (are_ends self.now) }
    {
        self.from.as_ref()
    }

    /// The least key past the range; none where it is open.
    pub fn to(&self) -> Option<&Key>
        ensures to { option_copied result ≡ self.now.1 }
        ensures order { IsTrue (are_ends self.now) }
    {
        self.to.as_ref()
    }

    /// Whether the key is in the range.
    pub fn contains(&self, key: &Key) -> bool
        ensures { result ≡ in_range self.now key.now }
    {
        is_from(self.from(), key) && is_before(self.to(), key)
    }

    /// Whether each range begins before the other ends.
    pub fn meets(&self, other: &Range) -> bool
        ensures { result ≡ meet self.now other.now }
    {
        are_ends(self.from(), other.to()) && are_ends(other.from(), self.to())
    }
}

fn is_from(from: Option<&Key>, key: &Key) -> bool
    ensures { result ≡ is_from (option_copied from.entry) key.now }
{
    match from {
        None => true,
        Some(from) => key >= from,
    }
}

/// Whether the key is below the end, if there is one.
pub fn is_before(to: Option<&Key>, key: &Key) -> bool
    ensures { result ≡ is_before (option_copied to.entry) key.now }
{
    match to {
        None => true,
        Some(to) => key < to,
    }
}

fn are_ends(from: Option<&Key>, to: Option<&Key>) -> bool
    ensures { result ≡ are_ends (option_copied from.entry, option_copied to.entry) }
{
    match from {
        None => true,
        Some(from) => is_before(to, from),
    }
}

/// Writes a member that is an end: its key, or null where there is none.
pub fn write_end_member(writer: &mut Writer, name: &str, end: Option<&Key>) -> Result<(), NoMemory>
    ensures value { OnOk result (Appends writer.old writer.new (member_tokens name.now (key_data (option_copied end.entry)))) }
    ensures limits { OnOk result (IsTrue (is_end (option_copied end.entry))) }
{
    match end {
        None => write_null_member(writer, name),
        Some(key) => write_text_member(writer, name, key.as_str()),
    }
}

impl PartialEq for Range {
    ghost eq = { eq_of_both (on (λ ends. ends.0) (option_eq bytes_eq)) (on (λ ends. ends.1) (option_eq bytes_eq)) };

    ghost laws = { partial_equiv_from_equiv (Prim.search (comparing, rules)) };

    /// Whether both have the same ends.
    fn eq(&self, other: &Range) -> bool
        ensures compared { result ≡ (option_eq bytes_eq self.now.0 other.now.0 && option_eq bytes_eq self.now.1 other.now.1) }
        ensures same { IsTrue result ↔ (self.now ≡ other.now) }
    {
        self.from == other.from && self.to == other.to
    }
}

impl Eq for Range {
    ghost laws = { Prim.search (comparing, rules) };
}

impl Dup for Range {
    fn dup(&self) -> Result<Range, NoMemory>
        ensures { IfOk result (λ copy. copy ≡ self.now) }
    {
        Range::from_ends(self.from(), self.to())
    }
}

/// Whether all keys lie in the range, found by a search for its ends among them.
pub fn lie_in(range: &Range, cells: &Records) -> bool
    ensures { result ≡ all_lie_in range.now cells.now }
{
    begin_at(range.from(), cells) && end_before(range.to(), cells)
}

fn begin_at(from: Option<&Key>, cells: &Records) -> bool
    ensures { result ≡ list_all (λ entry. is_from (option_copied from.entry) entry.0) cells.now }
{
    match from {
        Some(from) => cells.lower_bound(from) == 0,
        None => true,
    }
}

fn end_before(to: Option<&Key>, cells: &Records) -> bool
    ensures { result ≡ list_all (λ entry. is_before (option_copied to.entry) entry.0) cells.now }
{
    match to {
        Some(to) => cells.lower_bound(to) == cells.len(),
        None => true,
    }
}

/// The cells whose keys lie in the range, found by a search for its ends. Whole leaves of cells are shared.
pub fn cells_within(range: &Range, cells: &Records) -> Result<Records, NoMemory>
    ensures { IfOk result (λ part. part ≡ filter (λ entry. in_range range.now entry.0) cells.now) }
{
    cells.recall_order();
    let from = count_below(range.from(), cells);
    let to = count_before(range.to(), cells);
    cells.slice(from, to)
}

// How many keys lie below the lower end of a range.
fn count_below(from: Option<&Key>, cells: &Records) -> usize
    ensures { result ≡ count_by (λ entry. not (is_from (option_copied from.entry) entry.0)) cells.now }
{
    match from {
        Some(from) => cells.lower_bound(from),
        None => 0,
    }
}

// How many keys lie before the upper end of a range.
fn count_before(to: Option<&Key>, cells: &Records) -> usize
    ensures { result ≡ count_by (λ entry. is_before (option_copied to.entry) entry.0) cells.now }
{
    match to {
        Some(to) => cells.lower_bound(to),
        None => cells.len(),
    }
}
