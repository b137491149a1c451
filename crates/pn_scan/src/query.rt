//! Queries: which records of a table are asked for, and how many, first of the right shape, then within their limits.

ghost use Rattle.std.specs.Prelude.{◌≡◌, Some, map, ◌↔◌, IsTrue, IsSome, IfSome, IfOk, option_map, IfErr};
ghost use Rattle.std.specs.Option.{option_copied};
ghost use Rattle.pn_scan.specs.Queries.{query_fits, is_limit as in_limit, shown_condition, query_after, is_limit, is_query};
ghost use Rattle.serde_json.specs.View.{view};
ghost use Rattle.pn_json.specs.Prelude.{seen, Shows, seen_text};
ghost use Rattle.pn_scan.specs.QueryReading.{key_of as key_spelled, key_in, limit_in, shape_in};

use crate::condition::{are_conditions, copy_conditions};
use crate::unchecked_conditions::{UncheckedConditions, conditions_of};
use crate::{Condition, QueryFault};
use pn_join::{Dup, NoMemory, dup_optional};
use pn_json::{check_names, whole_number_of};
use pn_record::Key;
use pn_tablet::Range;
use serde_json::Value;
use std::alloc::Global;
use std::marker::Model;

/// The most rows of a page.
pub const MAX_PAGE_ROWS: usize = 1_000;

/// The most conditions of a query.
pub const MAX_CONDITIONS: usize = 16;

/// A query of the records with keys at least `from`, below `to` and above `after` that meet at most 16 conditions, in
/// pages of 1 to 1,000 rows.
#[derive(Debug, Drop)]
pub struct Query {
    pub(crate) from: Option<Key>,
    pub(crate) to: Option<Key>,
    pub(crate) after: Option<Key>,
    pub(crate) conditions: Vec<Condition>,
    pub(crate) limit: usize,
}

impl Model for Query {
    ghost use Rattle.std.specs.Prelude.{map, IsTrue};
    ghost use Rattle.pn_scan.specs.Queries.{QueryValue, query_fits, shown_condition};

    ghost Value = { QueryValue };

    ghost view = { λ q. record { from = q.from; to = q.to; after = q.after; conditions = map shown_condition q.conditions.items; limit = q.limit } };

    ghost invariant = { λ q. IsTrue (query_fits (map shown_condition q.conditions.items) q.limit) };
}

impl Query {
    /// None above 16 conditions, where one breaks its limits, or where `limit` is not from 1 to 1,000. A field has 1
    /// to 64 bytes, a text at most 4,096.
    pub fn new(
        from: Option<Key>,
        to: Option<Key>,
        after: Option<Key>,
        conditions: Vec<Condition>,
        limit: usize,
    ) -> Option<Query>
        ensures made { IfSome result
            (λ query. query ≡ record { from = from; to = to; after = after; conditions = map shown_condition conditions.items; limit = limit }) }
        ensures exactly { IsSome result ↔ IsTrue (query_fits (map shown_condition conditions.items) limit) }
    {
        if !is_limit(limit) || conditions.len() > MAX_CONDITIONS || !are_conditions(&conditions) {
            return None;
        }
        Some(Query {
            from,
            to,
            after,
            conditions,
            limit,
        })
    }

    /// The least key that may be shown; none where open.
    pub fn from(&self) -> Option<&Key>
        ensures { option_copied result ≡ self.now.from }
    {
        self.from.as_ref()
    }

    /// The key that all shown keys are below; none where open.
    pub fn to(&self) -> Option<&Key>
        ensures { option_copied result ≡ self.now.to }
    {
        self.to.as_ref()
    }

    /// The key that all shown keys are above, if there is one.
    pub fn after(&self) -> Option<&Key>
        ensures { option_copied result ≡ self.now.after }
    {
        self.after.as_ref()
    }

    /// The conditions, all of which a shown record meets.
    pub fn conditions(&self) -> &[Condition]
        ensures { map shown_condition result.now ≡ self.now.conditions }
    {
        &self.conditions
    }

    /// The most rows of a page, from 1 to 1,000.
    pub fn limit(&self) -> usize
        ensures limit { result ≡ self.now.limit }
        ensures fits { IsTrue (query_fits self.now.conditions self.now.limit) }
    {
        self.limit
    }

    /// The query for the records after the key.
    pub fn continue_after(&self, alloc: Global, last: &Key) -> Result<Query, NoMemory>
        ensures { IfOk result (λ query. query ≡ query_after self.now last.now) }
    {
        Ok(Query {
            from: dup_optional(self.from())?,
            to: dup_optional(self.to())?,
            after: Some(last.dup()?),
            conditions: copy_conditions(alloc, &self.conditions)?,
            limit: self.limit,
        })
    }
}

/// Whether a page may have this number of rows at most.
pub(crate) fn is_limit(limit: usize) -> bool
    ensures { result ≡ in_limit limit }
{
    1 <= limit && limit <= MAX_PAGE_ROWS
}

/// The most rows of a page where a query names no limit.
const USUAL_PAGE: u64 = 100;

/// The members of a query, whose limits are not checked yet.
#[derive(Drop)]
pub(crate) struct UncheckedQuery<'v> {
    after: Option<&'v str>,
    from: Option<&'v str>,
    limit: u64,
    to: Option<&'v str>,
    conditions: UncheckedConditions<'v>,
}

impl<'v> Model for UncheckedQuery<'v> {
    ghost use Rattle.pn_scan.specs.Queries.{QueryValue};
    ghost use Rattle.pn_json.specs.Prelude.{seen_text};

    ghost Value = { QueryValue };

    ghost view = { λ q. record { from = seen_text q.from; to = seen_text q.to; after = seen_text q.after; conditions = q.conditions; limit = q.limit } };
}

/// The query that a value has the shape of.
#[tactic(auto, unfolding(crate::specs::QueryReading::shape_in))]
pub(crate) fn unchecked_query(
    alloc: Global,
    value: &Value,
) -> Result<UncheckedQuery<'_>, QueryFault>
    ensures exact { result ≡ shape_in (view value.now) }
    ensures faults { IfErr result (λ fault. fault ≡ QueryFault.BadShape) }
{
    let members = value.as_object().ok_or(QueryFault::BadShape)?;
    let after = key_in(value.get("after"))?;
    let from = key_in(value.get("from"))?;
    let limit = limit_in(value.get("limit"))?;
    let to = key_in(value.get("to"))?;
    let conditions = conditions_of(alloc, value.get("where"))?;
    let names = ["after", "from", "limit", "to", "where"];
    check_names(members, &names, QueryFault::BadShape)?;
    Ok(UncheckedQuery {
        after,
        from,
        limit,
        to,
        conditions,
    })
}

fn key_in(value: Option<&Value>) -> Result<Option<&str>, QueryFault>
    ensures { Shows seen_text result (key_in (seen value.entry)) }
{
    match value {
        None => Ok(None),
        Some(value) => key_at(value),
    }
}

fn key_at(value: &Value) -> Result<Option<&str>, QueryFault>
    ensures { Shows seen_text result (key_spelled (view value.now)) }
{
    match value {
        Value::Null => Ok(None),
        Value::String(text) => Ok(Some(text.as_str())),
        _ => Err(QueryFault::BadShape),
    }
}

fn limit_in(value: Option<&Value>) -> Result<u64, QueryFault>
    ensures { result ≡ limit_in (seen value.entry) }
{
    match value {
        None => Ok(USUAL_PAGE),
        Some(_) => whole_number_of(value, QueryFault::BadShape),
    }
}

impl UncheckedQuery<'_> {
    /// Whether no limit is broken.
    pub(crate) fn fits(&self) -> bool
        ensures { result ≡ is_query self.now }
    {
        Range::is_end(self.after)
            && Range::is_end(self.from)
            && Range::is_end(self.to)
            && is_page(self.limit)
            && self.conditions.fit()
    }

    /// The query, with its keys copied.
    pub(crate) fn query(self, alloc: Global) -> Result<Query, NoMemory>
        requires { IsTrue (is_query self) }
        ensures { IfOk result (λ query. query ≡ self.entry) }
    {
        Ok(Query {
            from: Range::end_of(alloc, self.from)?,
            to: Range::end_of(alloc, self.to)?,
            after: Range::end_of(alloc, self.after)?,
            conditions: self.conditions.conditions()?,
            limit: self.limit as usize,
        })
    }
}

fn is_page(limit: u64) -> bool
    ensures { result ≡ is_limit limit }
{
    1 <= limit && limit <= MAX_PAGE_ROWS as u64
}
