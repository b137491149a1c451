//! Marks: the last position taken of each stream, by the stream's name.

ghost use Rattle.std.specs.Prelude.{◌≡◌, ℕ, max, ◌∷◌, [], ◌++◌, IsTrue, ◌↔◌, IfOk, IsOk, OnOk, OnErr};
ghost use Rattle.std.specs.List.{list_any};
ghost use Rattle.std.specs.FinMap.{is_sorted};
ghost use Rattle.std.specs.Option.{option_to_list};
ghost use Rattle.std.proofs.Common.{arith};
ghost use Rattle.pn_join.specs.Marks.{name_cmp, position_of, Reaches, falls_short, shortfall, raised_marks, least_marks, if_position};

mod name;

use crate::{Dup, Join, NoMemory, Table};
pub use name::{BadName, MAX_NAME_BYTES, Name, StreamName};
use std::marker::Model;

/// The last position that a stream can have.
pub const LAST_POSITION: u64 = 1_000_000_000_000_000;

/// A position that only rises: the join of two is the greater one.
#[derive(Clone, Copy, Debug, PartialEq, Eq, PartialOrd, Ord)]
pub struct Highest(pub u64);

impl Model for Highest {
    ghost use Rattle.std.specs.Prelude.{ℕ};

    ghost Value = { ℕ };

    ghost view = { λ highest. highest.0 };

    ghost inverse = { λ position. record { 0 = position } };
}

impl Dup for Highest {
    /// Always succeeds.
    fn dup(&self) -> Result<Highest, NoMemory>
        ensures equal { IfOk result (λ copy. copy ≡ self.now) }
        ensures always { IsOk result }
    {
        Ok(*self)
    }
}

impl Join for Highest {
    ghost Meaning = { ℕ };

    ghost meaning = { λ highest. highest };

    ghost joined = { max };

    ghost laws = { record {
      commutes = λ a b. Prim.omega arith;
      associates = λ a b c. Prim.omega arith;
      repeats = λ a. Prim.omega arith;
    } };

    /// Becomes the greater of the two. It always succeeds.
    fn join_from(&mut self, other: &Highest) -> Result<(), NoMemory>
        ensures ok { OnOk result (self.new ≡ max self.old other.now) }
        ensures err { OnErr result (self.new ≡ self.old) }
        ensures always { IsOk result }
    {
        self.0 = self.0.max(other.0);
        Ok(())
    }

    /// The other, if it is greater.
    fn changed_by(&self, other: &Highest) -> Result<Option<Highest>, NoMemory> {
        if other.0 <= self.0 {
            return Ok(None);
        }
        Ok(Some(*other))
    }
}

/// The last position taken of each stream. An absent name counts as 0.
pub type Marks = Table<StreamName, Highest>;

impl Table<StreamName, Highest> {
    /// Whether no position of `need` is greater.
    pub fn reaches(&self, need: &Marks) -> bool
        ensures { IsTrue result ↔ Reaches self.now need.now }
    {
        !self.falls_short_of(need)
    }

    /// The index in `need` of the first name, in byte order, at which these marks have a lesser position.
    pub fn shortfall(&self, need: &Marks) -> Option<usize>
        ensures { result ≡ shortfall self.now need.now }
    {
        need.recall_len();
        need.iter()
            .position(|(name, position)| self.position(name) < position.0)
    }

    fn falls_short_of(&self, need: &Marks) -> bool
        ensures short { result ≡ list_any (falls_short self.now) need.now }
        ensures rising { IsTrue (is_sorted name_cmp need.now) }
    {
        need.recall_order();
        need.iter()
            .any(|(name, position)| self.position(name) < position.0)
    }

    /// The position at a name, 0 if it is absent.
    pub fn position(&self, name: &StreamName) -> u64
        ensures { result ≡ position_of self.now name.now }
    {
        match self.get(name) {
            Some(highest) => highest.0,
            None => 0,
        }
    }

    /// The lesser of both positions at each name. A name that one of both lacks is left out.
    pub fn least(&self, others: &Marks) -> Result<Marks, NoMemory>
        ensures { IfOk result (λ both. both ≡ least_marks self.now others.now) }
    {
        self.recall_order();
        let mut both = Marks::new(self.alloc());
        for (name, _position) in self.iter() {
            let position = self.position(name).min(others.position(name));
            add_last(&mut both, name, position)?;
        }
        Ok(both)
    }
}

/// Raises the marks to the greater position at each name of either. An error leaves them as they were.
pub fn raise(marks: &mut Marks, others: &Marks) -> Result<(), NoMemory>
    ensures ok { OnOk result (marks.new ≡ raised_marks marks.old others.now) }
    ensures err { OnErr result (marks.new ≡ marks.old) }
    ensures rising { IsTrue (is_sorted name_cmp marks.new) × IsTrue (is_sorted name_cmp others.now) }
{
    marks.join_from(others)
}

/// Raises the position at one name. An error leaves the marks as they were.
pub fn raise_at(marks: &mut Marks, name: StreamName, position: u64) -> Result<(), NoMemory>
    ensures ok { OnOk result (marks.new ≡ raised_marks marks.old ((name, position) ∷ [])) }
    ensures err { OnErr result (marks.new ≡ marks.old) }
{
    marks.recall_order();
    marks.join_entry(name, Highest(position))
}

/// Adds a mark after all others, unless its position is 0.
fn add_last(marks: &mut Marks, name: &StreamName, position: u64) -> Result<(), NoMemory>
    requires { IsTrue (is_sorted name_cmp (marks.old ++ option_to_list (if_position name.now position))) }
    ensures { OnOk result (marks.new ≡ marks.old ++ option_to_list (if_position name.now position)) }
{
    if position == 0 {
        return Ok(());
    }
    raise_at(marks, *name, position)
}
