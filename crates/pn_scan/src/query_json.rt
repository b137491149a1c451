//! Queries read from JSON, and written as it.

ghost use Rattle.std.specs.Prelude.{◌≡◌, IsOk, IsErrOf, map, Ok, IfOk, OnOk, IsTrue};
ghost use Rattle.std.specs.Option.{option_copied};
ghost use Rattle.serde_json.specs.View.{view, members_view};
ghost use Rattle.pn_json.specs.Prelude.{IsUnless, Appends, value_tokens};
ghost use Rattle.pn_scan.specs.QueryReading.{query_in, condition_data, conditions_data, query_data, operand_tokens};
ghost use Rattle.pn_scan.specs.declared.query_json.QueryFault.TheVariants.{Memory};
ghost use Rattle.serde_json.specs.Data.{put};
ghost use Rattle.pn_scan.specs.Queries.{is_query, shown_condition};
ghost use Rattle.pn_tablet.specs.Layouts.{is_end, key_data};

use crate::query::unchecked_query;
use crate::{Condition, Query};
use json::Writer;
use pn_join::NoMemory;
use pn_json::write_number_member;
use pn_record::{Key, ValueRef, write_field_value};
use pn_tablet::write_end_member;
use serde_json::{Map, Value, json};
use std::alloc::Global;
use thiserror::Error;

/// Why a value is no query.
#[derive(Clone, Copy, Debug, PartialEq, Eq, Error)]
pub enum QueryFault {
    /// The value is no object, or has an unknown member or one of a wrong kind.
    #[error("bad shape")]
    BadShape,
    /// Every member has the right kind, and one breaks a limit.
    #[error("out of range")]
    OutOfRange,
    #[error("out of memory")]
    Memory,
}

impl From<NoMemory> for QueryFault {
    ghost from_gives = { λ _ fault. fault ≡ Memory };

    fn from(_error: NoMemory) -> QueryFault {
        QueryFault::Memory
    }
}

/// The query of an object with any of the members `after`, `from` and `to`, each null or a key, `limit`, 100 where
/// absent, and `where`, empty where absent.
///
/// `BadShape` where the value is no such object; otherwise `OutOfRange` where a limit is broken; otherwise `Memory`.
#[tactic(auto, unfolding(crate::specs::QueryReading::query_in))]
pub fn read_query(alloc: Global, value: &Value) -> Result<Query, QueryFault>
    ensures exact { IsUnless QueryFault.Memory result (query_in (view value.now)) }
    ensures memory { IsErrOf result QueryFault.Memory → IsOk (query_in (view value.now)) }
{
    let query = unchecked_query(alloc, value)?;
    if !query.fits() {
        return Err(QueryFault::OutOfRange);
    }
    Ok(query.query(alloc)?)
}

/// The query as JSON, with all five members. It is read as an equal query.
pub fn query_value(alloc: Global, query: &Query) -> Result<Value, NoMemory>
    ensures value { IfOk result (λ value. view value ≡ query_data query.now) }
    ensures reads_back { IfOk result (λ value. query_in (view value) ≡ Ok query.now) }
{
    let value = members_value(alloc, query)?;
    Ok(value)
}

fn members_value(alloc: Global, query: &Query) -> Result<Value, NoMemory>
    ensures value { IfOk result (λ value. view value ≡ query_data query.now) }
    ensures limits { OnOk result (IsTrue (is_query query.now)) }
{
    let mut members = Map::new(alloc);
    put_key(&mut members, alloc, "after", query.after())?;
    put_key(&mut members, alloc, "from", query.from())?;
    serde_json::put(&mut members, alloc, "limit", Value::from(query.limit()))?;
    put_key(&mut members, alloc, "to", query.to())?;
    let conditions = conditions_value(alloc, query.conditions())?;
    serde_json::put(&mut members, alloc, "where", conditions)?;
    Ok(Value::Object(members))
}

fn put_key(
    members: &mut Map<String, Value>,
    alloc: Global,
    name: &str,
    key: Option<&Key>,
) -> Result<(), NoMemory>
    ensures put { OnOk result (members_view members.new.entries
        ≡ put name.now (key_data (option_copied key.entry)) (members_view members.old.entries)) }
    ensures limits { OnOk result (IsTrue (is_end (option_copied key.entry))) }
{
    let value = key_value(alloc, key)?;
    serde_json::put(members, alloc, name, value)?;
    Ok(())
}

fn key_value(alloc: Global, key: Option<&Key>) -> Result<Value, NoMemory>
    ensures value { IfOk result (λ value. view value ≡ key_data (option_copied key.entry)) }
    ensures limits { OnOk result (IsTrue (is_end (option_copied key.entry))) }
{
    match key {
        None => Ok(Value::Null),
        Some(key) => Ok(Value::try_from_str(alloc, key.as_str())?),
    }
}

fn conditions_value(alloc: Global, conditions: &[Condition]) -> Result<Value, NoMemory>
    ensures { IfOk result (λ value. view value ≡ conditions_data (map shown_condition conditions.now)) }
{
    let mut values = Vec::with_capacity(alloc, conditions.len())?;
    for condition in conditions {
        values.push(condition_value(alloc, condition)?)?;
    }
    Ok(Value::Array(values))
}

fn condition_value(alloc: Global, condition: &Condition) -> Result<Value, NoMemory>
    ensures { IfOk result (λ value. view value ≡ condition_data (shown_condition condition.now)) }
{
    let (word, field, value) = condition.as_ref().parts();
    match value {
        None => Ok(json!(in alloc; [word, field])?),
        Some(ValueRef::Number(number)) => Ok(json!(in alloc; [word, field, number])?),
        Some(ValueRef::Text(text)) => Ok(json!(in alloc; [word, field, text])?),
    }
}

/// Writes a query, with all five members.
pub fn write_query(writer: &mut Writer, query: &Query) -> Result<(), NoMemory>
    ensures { OnOk result (Appends writer.old writer.new (value_tokens (query_data query.now))) }
{
    writer.begin_object()?;
    write_end_member(writer, "after", query.after())?;
    write_end_member(writer, "from", query.from())?;
    write_number_member(writer, "limit", query.limit() as u64)?;
    write_end_member(writer, "to", query.to())?;
    writer.key("where")?;
    write_conditions(writer, query.conditions())?;
    writer.end_object()?;
    Ok(())
}

fn write_conditions(writer: &mut Writer, conditions: &[Condition]) -> Result<(), NoMemory>
    ensures { OnOk result (Appends writer.old writer.new
        (value_tokens (conditions_data (map shown_condition conditions.now)))) }
{
    writer.begin_array()?;
    for condition in conditions {
        write_condition(writer, condition)?;
    }
    writer.end_array()?;
    Ok(())
}

fn write_condition(writer: &mut Writer, condition: &Condition) -> Result<(), NoMemory>
    ensures { OnOk result (Appends writer.old writer.new (value_tokens (condition_data (shown_condition condition.now)))) }
{
    let (word, field, value) = condition.as_ref().parts();
    writer.begin_array()?;
    writer.string(word)?;
    writer.string(field)?;
    write_operand(writer, value)?;
    writer.end_array()?;
    Ok(())
}

fn write_operand(writer: &mut Writer, value: Option<ValueRef<'_>>) -> Result<(), NoMemory>
    ensures { OnOk result (Appends writer.old writer.new (operand_tokens value.entry)) }
{
    if let Some(value) = value {
        write_field_value(writer, value)?;
    }
    Ok(())
}
