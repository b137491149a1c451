//! The conditions of a query, parsed once and made on the way. Memory is asked for only where they keep the limits.

ghost use Rattle.std.specs.Prelude.{◌≡◌, false, map, IfOk, IfErr, IfSome, MatchOption, IsTrue, [], ◌∷◌, ◌++◌, ◌&&◌, nat_le, length, option_map, None};
ghost use Rattle.std.specs.List.{list_all};
ghost use Rattle.serde_json.specs.View.{view, items_view};
ghost use Rattle.pn_json.specs.Prelude.{seen, each_in};
ghost use Rattle.pn_record.specs.Prelude.{shown_ref};
ghost use Rattle.pn_scan.specs.Queries.{shown_condition, is_condition};
ghost use Rattle.pn_scan.specs.QueryReading.{condition_in, lone_in, comparing_in, conditions_in, conditions_at as conditions_spelled, condition_at};
ghost use Rattle.pn_scan.specs.QueryReading.{lone_condition as lone_of, comparing_condition as comparing_of, AreParsed, are_conditions};

use crate::condition::ConditionRef;
use crate::{Condition, MAX_CONDITIONS, QueryFault};
use pn_join::NoMemory;
use pn_json::items_of;
use pn_record::{ValueRef, value_of};
use serde_json::Value;
use std::alloc::Global;
use std::marker::Model;

/// Values that are all conditions, and the conditions made of them.
#[derive(Drop)]
pub(crate) struct UncheckedConditions<'v> {
    values: &'v [Value],
    fit: bool,
    // None where they break a limit, or memory ran out.
    made: Option<Vec<Condition>>,
}

impl<'v> Model for UncheckedConditions<'v> {
    ghost use Rattle.std.specs.Prelude.{List, option_map};
    ghost use Rattle.pn_scan.specs.Queries.{ConditionValue};
    ghost use Rattle.pn_scan.specs.QueryReading.{AreParsed, conditions_among};

    ghost Value = { List ConditionValue };

    ghost view = { λ c. conditions_among c.values.now };

    ghost invariant = { λ c. AreParsed c.values.now c.fit (option_map (λ made. made.items) c.made) };
}

/// The conditions of a query's `where`; none where it is absent.
pub(crate) fn conditions_of(
    alloc: Global,
    value: Option<&Value>,
) -> Result<UncheckedConditions<'_>, QueryFault>
    ensures exact { result ≡ conditions_in (seen value.entry) }
    ensures faults { IfErr result (λ fault. fault ≡ QueryFault.BadShape) }
{
    match value {
        None => conditions_among(alloc, &[]),
        Some(value) => conditions_at(alloc, value),
    }
}

fn conditions_at(alloc: Global, value: &Value) -> Result<UncheckedConditions<'_>, QueryFault>
    ensures exact { result ≡ conditions_spelled (view value.now) }
    ensures faults { IfErr result (λ fault. fault ≡ QueryFault.BadShape) }
{
    let values = items_of(Some(value), QueryFault::BadShape)?;
    conditions_among(alloc, values)
}

fn conditions_among(alloc: Global, values: &[Value]) -> Result<UncheckedConditions<'_>, QueryFault>
    ensures exact { result ≡ each_in condition_at (items_view values.now) }
    ensures faults { IfErr result (λ fault. fault ≡ QueryFault.BadShape) }
{
    let Some((fit, made)) = parse_conditions(alloc, values) else {
        return Err(QueryFault::BadShape);
    };
    Ok(UncheckedConditions { values, fit, made })
}

// Whether all conditions keep the limits, and the conditions. None where a value is no condition.
fn parse_conditions(alloc: Global, values: &[Value]) -> Option<(bool, Option<Vec<Condition>>)>
    ensures parsed { IfSome result (λ seen. AreParsed values.now seen.0 (option_map (λ made. made.items) seen.1)) }
    ensures none { result ≡ None → are_conditions values.now ≡ false }
{
    let mut fit = values.len() <= MAX_CONDITIONS;
    let mut made = Vec::with_capacity(alloc, values.len().min(MAX_CONDITIONS)).ok();
    for value in values {
        let Some(condition) = condition_of(value) else {
            return None;
        };
        let next = with_condition(alloc, fit, made, &condition);
        fit = next.0;
        made = next.1;
    }
    Some((fit, made))
}

// Whether all conditions keep the limits, with one more, and the conditions.
fn with_condition(
    alloc: Global,
    fit: bool,
    made: Option<Vec<Condition>>,
    condition: &ConditionRef<'_>,
) -> (bool, Option<Vec<Condition>>)
    ensures fit { result.0 ≡ (fit && is_condition condition.now) }
    ensures made { IfSome result.1 (λ all. MatchOption made ⊥ (λ some.
        map shown_condition all.items ≡ map shown_condition some.items ++ condition.now ∷ [])) }
{
    if !fit || !condition.fits() {
        return (false, None);
    }
    (true, push_copy(alloc, made, condition))
}

// The conditions with one more. None where memory ran out, now or before.
fn push_copy(
    alloc: Global,
    made: Option<Vec<Condition>>,
    condition: &ConditionRef<'_>,
) -> Option<Vec<Condition>>
    ensures { IfSome result (λ all. MatchOption made ⊥ (λ some.
        map shown_condition all.items ≡ map shown_condition some.items ++ condition.now ∷ [])) }
{
    let mut conditions = made?;
    conditions.push(condition.to_condition(alloc).ok()?).ok()?;
    Some(conditions)
}

impl UncheckedConditions<'_> {
    /// Whether they are at most 16, each on a field of 1 to 64 bytes and with a number or a text of at most 4,096.
    pub(crate) fn fit(&self) -> bool
        ensures { result ≡ (nat_le (length self.now) MAX_CONDITIONS && list_all is_condition self.now) }
    {
        self.fit
    }

    /// The conditions that were made of the values.
    pub(crate) fn conditions(self) -> Result<Vec<Condition>, NoMemory>
        requires { IsTrue (nat_le (length self) MAX_CONDITIONS && list_all is_condition self) }
        ensures { IfOk result (λ conditions. map shown_condition conditions.items ≡ self.entry) }
    {
        self.made.ok_or(NoMemory)
    }
}

// The condition that a value is, if it has the shape of one.
fn condition_of(value: &Value) -> Option<ConditionRef<'_>>
    ensures { result ≡ condition_in (view value.now) }
{
    let parts = value.as_array()?;
    lone_condition(parts).or(comparing_condition(parts))
}

fn lone_condition(parts: &[Value]) -> Option<ConditionRef<'_>>
    ensures { result ≡ lone_in (items_view parts.now) }
{
    let [word, field] = parts else {
        return None;
    };
    lone(word.as_str()?, field.as_str()?)
}

fn comparing_condition(parts: &[Value]) -> Option<ConditionRef<'_>>
    ensures { result ≡ comparing_in (items_view parts.now) }
{
    let [word, field, value] = parts else {
        return None;
    };
    comparing(word.as_str()?, field.as_str()?, value_of(value)?)
}

fn lone<'v>(word: &str, field: &'v str) -> Option<ConditionRef<'v>>
    ensures { result ≡ lone_of word.now field.now }
{
    match word {
        "has" => Some(ConditionRef {
            condition: Condition::Has { field },
        }),
        _ => None,
    }
}

fn comparing<'v>(word: &str, field: &'v str, value: ValueRef<'v>) -> Option<ConditionRef<'v>>
    ensures { result ≡ comparing_of word.now field.now (shown_ref value.entry) }
{
    let condition = match (word, value) {
        ("eq", value) => Condition::Eq { field, value },
        ("lt", value) => Condition::Lt { field, value },
        ("gt", value) => Condition::Gt { field, value },
        ("prefix", ValueRef::Text(value)) => Condition::Prefix { field, value },
        _ => return None,
    };
    Some(ConditionRef { condition })
}
