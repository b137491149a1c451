//! Layouts: how all keys are divided into tablets, by copies too, whose ranges cut all keys.

ghost use Rattle.std.specs.Prelude.{◌≡◌, ◌≤◌, ◌+◌, IsTrue, IfOk, length, not, ◌∷◌, ◌++◌, [], map, None, OnOk};
ghost use Rattle.std.specs.Option.{option_copied, option_cmp};
ghost use Rattle.std.specs.List.{AllByRecursion};
ghost use Rattle.std.specs.List.Sorted.{IsPermutation, IsSortedByKey};
ghost use Rattle.pn_tablet.specs.Layouts.{IsLayout, first_fall, layout_of, tablet_of, tablet_ends, are_ends, all_ends, begins_at, begins_of, ends_open};
ghost use Rattle.pn_tablet.specs.Layouts.{follow_from, layout_with};
ghost use Rattle.pn_json.specs.Prelude.{IsUnless};
ghost use Rattle.pn_record.specs.Prelude.{bytes_cmp};
ghost use Rattle.pn_tablet.specs.declared.layout.CutFault.TheVariants.{Memory as no_memory};

use crate::{Range, TabletCopy};
use pn_join::{Dup, NoMemory, dup_optional};
use pn_record::Key;
use std::alloc::Global;
use std::cmp::Ordering;
use std::marker::Model;
use thiserror::Error;

/// The most bounds of a layout.
pub const MAX_BOUNDS: usize = 63;

/// Bounds that divide all keys into 1 to 64 tablets, each from the bound before it, inclusive, to the one after it,
/// exclusive.
///
/// A first bound of U+0000, the least key, leaves the first tablet empty.
#[derive(Debug, Drop)]
pub struct Layout {
    bounds: Vec<Key>,
}

/// Why bounds were not taken as a layout.
#[derive(Clone, Copy, Debug, PartialEq, Eq, Error)]
pub enum LayoutFault {
    #[error("a layout has at most 63 bounds")]
    TooMany,
    /// The index of the first bound that is not greater than the one before it.
    #[error("bound {0} is not greater than the one before it")]
    NotRising(usize),
}

impl Model for Layout {
    ghost use Rattle.pn_tablet.specs.Layouts.{Bounds, IsLayout};

    ghost Value = { Bounds };

    ghost view = { λ layout. layout.bounds.items };

    ghost invariant = { λ layout. IsLayout layout.bounds.items };
}

impl Layout {
    /// `TooMany` above 63 bounds; otherwise `NotRising` with the index, from 0, of the first bound that is not
    /// greater than the one before it.
    pub fn new(bounds: Vec<Key>) -> Result<Layout, LayoutFault>
        ensures { result ≡ layout_of bounds.items }
    {
        if bounds.len() > MAX_BOUNDS {
            return Err(LayoutFault::TooMany);
        }
        match first_fall(&bounds) {
            Some(index) => Err(LayoutFault::NotRising(index)),
            None => Ok(Layout { bounds }),
        }
    }

    /// The number of tablets: one more than bounds.
    pub fn count(&self) -> usize
        ensures count { result ≡ length self.now + 1 }
        ensures lawful { IsLayout self.now }
    {
        self.bounds.len() + 1
    }

    /// Recalls for the prover that the bounds are at most 63, and rise.
    pub fn recall_order(&self)
        ensures { IsLayout self.now }
    {
        let _ = &self.bounds;
    }

    /// The tablet of the key: the number of bounds that are not greater.
    pub fn tablet_of(&self, key: &Key) -> usize
        ensures tablet { result ≡ tablet_of self.now key.now }
        ensures within { result ≤ length self.now }
    {
        self.bounds.partition_point(|bound| bound <= key)
    }

    /// The ends of a tablet below the count: the bounds before and after it; none where it is open.
    pub fn range(&self, tablet: usize) -> (Option<&Key>, Option<&Key>)
        requires { tablet ≤ length self.now }
        ensures ends { (option_copied result.0, option_copied result.1) ≡ tablet_ends self.now tablet }
        ensures order { IsTrue (are_ends (tablet_ends self.now tablet)) }
    {
        let from = match tablet.checked_sub(1) {
            Some(before) => self.bounds.get(before),
            None => None,
        };
        (from, self.bounds.get(tablet))
    }

    /// The range of a tablet below the count, with keys of its own.
    pub fn range_of(&self, tablet: usize) -> Result<Range, NoMemory>
        requires { tablet ≤ length self.now }
        ensures { IfOk result (λ range. range ≡ tablet_ends self.now tablet) }
    {
        let (from, to) = self.range(tablet);
        Range::from_ends(from, to)
    }
}

fn first_fall(bounds: &[Key]) -> Option<usize>
    ensures { result ≡ first_fall bounds.now }
{
    for index in 1..bounds.len() {
        if bounds[index - 1] >= bounds[index] {
            return Some(index);
        }
    }
    None
}

impl Dup for Layout {
    fn dup(&self) -> Result<Layout, NoMemory>
        ensures { IfOk result (λ copy. copy ≡ self.now) }
    {
        let mut bounds = Vec::with_capacity(*self.bounds.allocator(), self.bounds.len())?;
        for bound in &self.bounds {
            bounds.push_reserved(bound.dup()?);
        }
        Ok(Layout { bounds })
    }
}

/// Why copies are those of no layout. A key is none where it is before all others.
#[derive(Debug, Drop)]
pub enum CutFault {
    /// There are more than 64.
    TooMany,
    /// The first key that is in no range or in two is in none.
    NoCopy(Option<Key>),
    /// It is in two.
    TwoCopies(Option<Key>),
    Memory,
}

impl From<NoMemory> for CutFault {
    ghost from_gives = { λ _ fault. fault ≡ no_memory };

    fn from(_error: NoMemory) -> CutFault {
        CutFault::Memory
    }
}

/// The layout whose tablets have the ranges of these copies, which it puts into the order of their tablets.
///
/// `TooMany` above 64; otherwise `NoCopy` or `TwoCopies` with the first key that is not in exactly one range.
pub fn layout_of_copies(alloc: Global, copies: &mut Vec<TabletCopy>) -> Result<Layout, CutFault>
    ensures same { IsPermutation copies.old.items copies.new.items }
    ensures order { IsSortedByKey (λ copy. copy.range.0) (option_cmp bytes_cmp) copies.new.items }
    ensures exact { IsUnless CutFault.Memory result (layout_with (map (λ copy. copy.range) copies.new.items)) }
    ensures ranges { IfOk result (λ layout. all_ends layout ≡ map (λ copy. copy.range) copies.new.items) }
{
    copies.sort_unstable_by(|one, other| compare_begins(one.range.from(), other.range.from()));
    layout_in_order(alloc, copies)
}

// A range that is open below begins before all others.
fn compare_begins(one: Option<&Key>, other: Option<&Key>) -> Ordering
    ensures { result ≡ option_cmp bytes_cmp (option_copied one.entry) (option_copied other.entry) }
{
    match (one, other) {
        (None, None) => Ordering::Equal,
        (None, Some(_)) => Ordering::Less,
        (Some(_), None) => Ordering::Greater,
        (Some(one), Some(other)) => one.cmp(other),
    }
}

// The layout of copies in the order in which their ranges begin.
#[tactic(auto, unfolding(crate::specs::Layouts::layout_with))]
fn layout_in_order(alloc: Global, copies: &[TabletCopy]) -> Result<Layout, CutFault>
    ensures exact { IsUnless CutFault.Memory result (layout_with (map (λ copy. copy.range) copies.now)) }
    ensures ranges { IfOk result (λ layout. all_ends layout ≡ map (λ copy. copy.range) copies.now) }
{
    if copies.len() > MAX_BOUNDS + 1 {
        return Err(CutFault::TooMany);
    }
    follow(copies)?;
    match Layout::new(begins_of(alloc, copies)?) {
        Ok(layout) => Ok(layout),
        Err(_) => unreachable!(),
    }
}

// Whether the ranges follow one another from the first key to the last.
#[tactic(auto, unfolding(crate::specs::Layouts::follow_from))]
fn follow(copies: &[TabletCopy]) -> Result<(), CutFault>
    ensures exact { IsUnless CutFault.Memory result (follow_from None (map (λ copy. copy.range) copies.now)) }
    ensures order { OnOk result (AllByRecursion (λ range. IsTrue (are_ends range)) (map (λ copy. copy.range) copies.now)) }
{
    let mut from = None;
    let mut rest = copies;
    'copies: while let Some((copy, later)) = rest.split_first() {
        begin_at(from, copy.range.from())?;
        let Some(to) = copy.range.to() else {
            return end_open(later);
        };
        from = Some(to);
        rest = later;
    }
    Err(CutFault::NoCopy(dup_optional(from)?))
}

// Whether a range begins where those before it end.
fn begin_at(from: Option<&Key>, begin: Option<&Key>) -> Result<(), CutFault>
    ensures { IsUnless CutFault.Memory result (begins_at (option_copied from.entry) (option_copied begin.entry)) }
{
    match compare_begins(from, begin) {
        Ordering::Less => Err(CutFault::NoCopy(dup_optional(from)?)),
        Ordering::Equal => Ok(()),
        Ordering::Greater => Err(CutFault::TwoCopies(dup_optional(begin)?)),
    }
}

// Whether no copy is left past one that is open above.
fn end_open(copies: &[TabletCopy]) -> Result<(), CutFault>
    ensures { IsUnless CutFault.Memory result (ends_open (map (λ copy. copy.range) copies.now)) }
{
    match copies.first() {
        None => Ok(()),
        Some(copy) => Err(CutFault::TwoCopies(dup_optional(copy.range.from())?)),
    }
}

// The keys at which the ranges begin.
fn begins_of(alloc: Global, copies: &[TabletCopy]) -> Result<Vec<Key>, NoMemory>
    ensures { IfOk result (λ bounds. bounds.items ≡ begins_of (map (λ copy. copy.range) copies.now)) }
{
    let mut bounds = Vec::with_capacity(alloc, copies.len())?;
    for copy in copies {
        add_begin(&mut bounds, copy.range.from())?;
    }
    Ok(bounds)
}

// Adds where a range begins, unless it is open there.
fn add_begin(bounds: &mut Vec<Key>, begin: Option<&Key>) -> Result<(), NoMemory>
    ensures { OnOk result (bounds.new.items ≡ bounds.old.items ++ begins_of ((option_copied begin.entry, None) ∷ [])) }
{
    if let Some(begin) = begin {
        bounds.push(begin.dup()?)?;
    }
    Ok(())
}
