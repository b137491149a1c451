//! Conditions on the fields of records.

ghost use Rattle.std.specs.Prelude.{◌≡◌, map, option_map, IfOk};
ghost use Rattle.std.specs.List.{list_all};
ghost use Rattle.pn_record.specs.Prelude.{shown_ref};
ghost use Rattle.pn_scan.specs.Queries.{is_condition, shown_condition};
ghost use Rattle.pn_scan.specs.QueryReading.{condition_data, parts_data};

use pn_join::NoMemory;
use pn_record::{Value, ValueRef, is_field};
use std::alloc::Global;
use std::marker::Model;

/// A condition on one field of a record. A record without the field does not meet it. Texts are compared by their
/// bytes, numbers by value, and a text with a number never.
#[derive(Debug, Drop)]
pub enum Condition<T = String, V = Value> {
    /// The record has the field.
    Has { field: T },
    /// The field's value is this one.
    Eq { field: T, value: V },
    /// The field's value is less than this one.
    Lt { field: T, value: V },
    /// The field's value is greater than this one.
    Gt { field: T, value: V },
    /// The field's value is a text that begins with this one.
    Prefix { field: T, value: T },
}

/// A condition whose texts are borrowed.
#[derive(Drop)]
pub(crate) struct ConditionRef<'v> {
    pub(crate) condition: Condition<&'v str, ValueRef<'v>>,
}

impl<'v> Model for ConditionRef<'v> {
    ghost use Rattle.pn_scan.specs.Queries.{ConditionValue, shown_condition_ref};

    ghost Value = { ConditionValue };

    ghost view = { λ c. shown_condition_ref c.condition };
}

impl Condition {
    /// The condition, borrowed.
    pub(crate) fn as_ref(&self) -> ConditionRef<'_>
        ensures { result ≡ shown_condition self.now }
    {
        let condition = match self {
            Condition::Has { field } => Condition::Has {
                field: field.as_str(),
            },
            Condition::Eq { field, value } => Condition::Eq {
                field: field.as_str(),
                value: value.as_ref(),
            },
            Condition::Lt { field, value } => Condition::Lt {
                field: field.as_str(),
                value: value.as_ref(),
            },
            Condition::Gt { field, value } => Condition::Gt {
                field: field.as_str(),
                value: value.as_ref(),
            },
            Condition::Prefix { field, value } => Condition::Prefix {
                field: field.as_str(),
                value: value.as_str(),
            },
        };
        ConditionRef { condition }
    }
}

impl<'v> ConditionRef<'v> {
    /// Whether it names a field of 1 to 64 bytes and has a number or a text of at most 4,096.
    pub(crate) fn fits(&self) -> bool
        ensures { result ≡ is_condition self.now }
    {
        match &self.condition {
            Condition::Has { field } => is_field(*field, ValueRef::Text("")),
            Condition::Eq { field, value } => is_field(*field, *value),
            Condition::Lt { field, value } => is_field(*field, *value),
            Condition::Gt { field, value } => is_field(*field, *value),
            Condition::Prefix { field, value } => is_field(*field, ValueRef::Text(*value)),
        }
    }

    /// The word, the field's name, and the value, if it has one.
    pub(crate) fn parts(&self) -> (&'v str, &'v str, Option<ValueRef<'v>>)
        ensures { condition_data self.now ≡ parts_data result.0.now result.1.now (option_map shown_ref result.2) }
    {
        match &self.condition {
            Condition::Has { field } => ("has", *field, None),
            Condition::Eq { field, value } => ("eq", *field, Some(*value)),
            Condition::Lt { field, value } => ("lt", *field, Some(*value)),
            Condition::Gt { field, value } => ("gt", *field, Some(*value)),
            Condition::Prefix { field, value } => ("prefix", *field, Some(ValueRef::Text(*value))),
        }
    }

    /// The condition, with texts of its own.
    pub(crate) fn to_condition(&self, alloc: Global) -> Result<Condition, NoMemory>
        ensures { IfOk result (λ copy. shown_condition copy ≡ self.now) }
    {
        Ok(match &self.condition {
            Condition::Has { field } => Condition::Has {
                field: String::from_str(alloc, *field)?,
            },
            Condition::Eq { field, value } => Condition::Eq {
                field: String::from_str(alloc, *field)?,
                value: value.to_value(alloc)?,
            },
            Condition::Lt { field, value } => Condition::Lt {
                field: String::from_str(alloc, *field)?,
                value: value.to_value(alloc)?,
            },
            Condition::Gt { field, value } => Condition::Gt {
                field: String::from_str(alloc, *field)?,
                value: value.to_value(alloc)?,
            },
            Condition::Prefix { field, value } => Condition::Prefix {
                field: String::from_str(alloc, *field)?,
                value: String::from_str(alloc, *value)?,
            },
        })
    }
}

/// Whether each condition names a field of 1 to 64 bytes and has a number or a text of at most 4,096.
pub(crate) fn are_conditions(conditions: &[Condition]) -> bool
    ensures { result ≡ list_all is_condition (map shown_condition conditions.now) }
{
    all_fit(conditions)
}

fn all_fit(conditions: &[Condition]) -> bool
    ensures { result ≡ list_all (λ condition. is_condition (shown_condition condition)) conditions.now }
{
    conditions.iter().all(|condition| fits(condition))
}

fn fits(condition: &Condition) -> bool
    ensures { result ≡ is_condition (shown_condition condition.now) }
{
    condition.as_ref().fits()
}

/// The conditions in their order, with texts of their own.
pub(crate) fn copy_conditions(
    alloc: Global,
    conditions: &[Condition],
) -> Result<Vec<Condition>, NoMemory>
    ensures { IfOk result (λ copy. map shown_condition copy.items ≡ map shown_condition conditions.now) }
{
    let mut copy = Vec::with_capacity(alloc, conditions.len())?;
    for condition in conditions {
        copy.push(condition.as_ref().to_condition(alloc)?)?;
    }
    Ok(copy)
}
