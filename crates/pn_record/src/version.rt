//! Versions of records, their limits, and the order of contents.

ghost use Rattle.std.specs.Prelude.{◌≡◌, ◌≤◌, ◌^◌, IsTrue, ◌↔◌, IsSome, IfSome, map};
ghost use Rattle.std.specs.Ordering.{as_partial_cmp, eq_by_cmp, on};
ghost use Rattle.std.specs.Cmp.{eq_by_cmp_equiv, partial_equiv_from_equiv, partial_order_from_own_ties};
ghost use Rattle.std.specs.Cmp.Rules.{comparing};
ghost use Rattle.std.specs.Cmp.Lexicographic.{slice_cmp};
ghost use Rattle.std.proofs.Common.{rules};
ghost use Rattle.pn_record.specs.Limits.{is_version};
ghost use Rattle.pn_record.specs.Sets.{value_cmp, field_cmp, body_cmp, content_cmp};
ghost use Rattle.pn_record.specs.Showing.{shown_value, shown_field, shown_body};
ghost use Rattle.pn_record.specs.Laws.{content_cmp_total, shown_cmp_total};

use crate::{Body, Content, Value};
use std::cmp::Ordering;
use std::marker::Model;

/// The greatest generation and the greatest number of a version.
pub const MAX_VERSION_NUMBER: u64 = 1_000_000_000_000_000;

/// The longest key, in bytes.
pub const MAX_KEY_BYTES: usize = 256;

/// The most fields of a record.
pub const MAX_FIELDS: usize = 64;

/// The longest name of a field, in bytes.
pub const MAX_FIELD_NAME_BYTES: usize = 64;

/// The longest text of a field, in bytes.
pub const MAX_TEXT_BYTES: usize = 4_096;

/// What a number counts among the bytes of all fields.
pub const NUMBER_BYTES: usize = 20;

/// The most bytes that the names and values of all fields count together.
pub const MAX_FIELD_BYTES: usize = 8_192;

/// The most bytes of a key that is held in place.
pub const MAX_SHORT_BYTES: usize = 31;

/// Which image of a record this is: its generation, counted per insert, and its number within that. Versions
/// are ordered by generation, and then by number.
#[derive(Clone, Copy, Debug, PartialEq, Eq, PartialOrd, Ord)]
pub struct Version {
    /// From 1 to 10^15.
    pub generation: u64,
    /// From 0 to 10^15.
    pub number: u64,
}

impl Model for Version {
    ghost use Rattle.std.specs.Prelude.{ℕ, IsTrue};
    ghost use Rattle.pn_record.specs.Limits.{is_version};

    ghost Value = { ℕ × ℕ };

    ghost view = { λ version. (version.generation, version.number) };

    ghost invariant = { λ version. IsTrue (is_version (version.generation, version.number)) };

    ghost inverse = { λ value. record { generation = value.0; number = value.1 } };
}

impl Version {
    /// `None` if the generation is not from 1 to 10^15, or the number is above 10^15.
    pub fn new(generation: u64, number: u64) -> Option<Version>
        ensures made { IfSome result (λ version. version ≡ (generation, number)) }
        ensures exactly { IsSome result ↔ IsTrue (is_version (generation, number)) }
    {
        if generation == 0 || generation > MAX_VERSION_NUMBER || number > MAX_VERSION_NUMBER {
            return None;
        }
        Some(Version { generation, number })
    }
}

fn compare_bodies(body: &Body, other: &Body) -> Ordering
    ensures { result ≡ body_cmp (shown_body body.now) (shown_body other.now) }
{
    match (body, other) {
        (Body::Deleted, Body::Deleted) => Ordering::Equal,
        (Body::Deleted, Body::Fields(_)) => Ordering::Less,
        (Body::Fields(_), Body::Deleted) => Ordering::Greater,
        (Body::Fields(fields), Body::Fields(others)) => compare_fields(fields, others),
    }
}

fn compare_fields(fields: &[(String, Value)], others: &[(String, Value)]) -> Ordering
    ensures { result ≡ slice_cmp field_cmp (map shown_field fields.now) (map shown_field others.now) }
{
    fields.cmp(others)
}

impl PartialEq for Value {
    ghost eq = { eq_by_cmp (on shown_value value_cmp) };

    ghost laws = { partial_equiv_from_equiv (eq_by_cmp_equiv shown_cmp_total) };

    fn eq(&self, other: &Value) -> bool {
        self.cmp(other).is_eq()
    }
}

impl Eq for Value {
    ghost laws = { eq_by_cmp_equiv shown_cmp_total };
}

impl PartialOrd for Value {
    ghost partial_cmp = { as_partial_cmp (on shown_value value_cmp) };

    ghost laws = { partial_order_from_own_ties (Prim.search (comparing, rules, shown_cmp_total)) (Prim.search (comparing, rules)) };

    fn partial_cmp(&self, other: &Value) -> Option<Ordering> {
        Some(self.cmp(other))
    }
}

impl Ord for Value {
    ghost cmp = { on shown_value value_cmp };

    ghost total = { shown_cmp_total };

    ghost matches_partial_cmp = { Prim.search (comparing, rules) };

    ghost matches_eq = { Prim.search (comparing, rules) };

    fn cmp(&self, other: &Value) -> Ordering {
        match (self, other) {
            (Value::Number(number), Value::Number(other)) => number.cmp(other),
            (Value::Number(_), Value::Text(_)) => Ordering::Less,
            (Value::Text(_), Value::Number(_)) => Ordering::Greater,
            (Value::Text(text), Value::Text(other)) => text.cmp(other),
        }
    }
}

impl PartialEq for Content {
    ghost eq = { eq_by_cmp content_cmp };

    ghost laws = { partial_equiv_from_equiv (eq_by_cmp_equiv content_cmp_total) };

    fn eq(&self, other: &Content) -> bool {
        self.cmp(other).is_eq()
    }
}

impl Eq for Content {
    ghost laws = { eq_by_cmp_equiv content_cmp_total };
}

impl PartialOrd for Content {
    ghost partial_cmp = { as_partial_cmp content_cmp };

    ghost laws = { partial_order_from_own_ties (Prim.search (comparing, rules, content_cmp_total)) (Prim.search (comparing, rules)) };

    fn partial_cmp(&self, other: &Content) -> Option<Ordering> {
        Some(self.cmp(other))
    }
}

impl Ord for Content {
    ghost cmp = { content_cmp };

    ghost total = { content_cmp_total };

    ghost matches_partial_cmp = { Prim.search (comparing, rules) };

    ghost matches_eq = { Prim.search (comparing, rules) };

    fn cmp(&self, other: &Content) -> Ordering {
        compare_bodies(&self.body, &other.body).then(self.master.cmp(&other.master))
    }
}
