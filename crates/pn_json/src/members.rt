//! The members of parsed values: by their kinds, by their names, and moved out of the value.

ghost use Rattle.serde_json.specs.Find.{as_str, as_array, as_object, get};
ghost use Rattle.serde_json.specs.View.{view, items_view, members_view};
ghost use Rattle.std.specs.BTreeMap.{IsOrdered};
ghost use Rattle.std.specs.List.{list_any};
ghost use Rattle.std.specs.Prelude.{◌≡◌, is_some, option_map, string_cmp};
ghost use Rattle.std.specs.Str.{bytes_eq};
ghost use Rattle.pn_json.specs.Answers.{Shows};
ghost use Rattle.pn_json.specs.Members.{seen, signed_number, whole_number, member_as, text_at, texts, only_named, no_others};

use serde_json::{Map, Value};

/// The text that the value is, or the fault if it is absent or of another kind.
pub fn text_of<'v, F: Drop>(value: Option<&'v Value>, fault: F) -> Result<&'v str, F>
    ensures { Shows (λ text. text.now) result (member_as as_str fault (seen value.entry)) }
{
    value.and_then(Value::as_str).ok_or(fault)
}

/// The text that the value is, or the empty text otherwise.
pub fn text_or_empty<'v>(value: Option<&'v Value>) -> &'v str
    ensures { result.now ≡ text_at (seen value.entry) }
{
    value.and_then(Value::as_str).unwrap_or("")
}

/// The whole number below 2^64 that the value is, or the fault otherwise.
pub fn whole_number_of<F: Drop>(value: Option<&Value>, fault: F) -> Result<u64, F>
    ensures { result ≡ member_as whole_number fault (seen value.entry) }
{
    value.and_then(Value::as_u64).ok_or(fault)
}

/// The whole number of 64 bits with a sign that the value is: no fraction, no exponent, no `-0`.
pub fn signed_number_of(value: &Value) -> Option<i64>
    ensures { result ≡ signed_number (view value.now) }
{
    let number = value.as_i64()?;
    if number < 0 || value.is_u64() {
        return Some(number);
    }
    None
}

/// The items of the array that the value is, or the fault otherwise.
pub fn items_of<'v, F: Drop>(value: Option<&'v Value>, fault: F) -> Result<&'v [Value], F>
    ensures { Shows (λ items. items_view items.now) result (member_as as_array fault (seen value.entry)) }
{
    match value.and_then(Value::as_array) {
        Some(items) => Ok(items),
        None => Err(fault),
    }
}

/// The members of the object that the value is, or the fault otherwise.
pub fn object_of<'v, F: Drop>(
    value: Option<&'v Value>,
    fault: F,
) -> Result<&'v Map<String, Value>, F>
    ensures { Shows (λ members. members_view members.now.entries) result (member_as as_object fault (seen value.entry)) }
{
    value.and_then(Value::as_object).ok_or(fault)
}

/// The member of this name, moved out of the value. `None` if the value has none.
pub fn member_from(mut value: Value, name: &str) -> Option<Value>
    ensures { option_map view result ≡ get name.now (view value) }
{
    value.get_mut(name).map(Value::take)
}

/// The items of the array that the value is. `None` if it is of another kind.
pub fn items_from(value: Value) -> Option<Vec<Value>>
    ensures { option_map (λ items. items_view items.items) result ≡ as_array (view value) }
{
    match value {
        Value::Array(items) => Some(items),
        _ => None,
    }
}

/// Checks that each member has one of the names. Returns the fault otherwise.
pub fn check_names<F: Drop>(members: &Map<String, Value>, names: &[&str], fault: F) -> Result<(), F>
    ensures named { result ≡ no_others (texts names.now) fault (members_view members.now.entries) }
    ensures ordered { IsOrdered string_cmp members.now }
{
    if is_only_named(members, names) {
        Ok(())
    } else {
        Err(fault)
    }
}

// Whether each member has one of the names. It is fastest if members come in the order of the names.
fn is_only_named(members: &Map<String, Value>, names: &[&str]) -> bool
    ensures named { result ≡ only_named (texts names.now) (members_view members.now.entries) }
    ensures ordered { IsOrdered string_cmp members.now }
{
    let mut expected = 0;
    for (name, _) in members.iter() {
        match index_among(names, name.as_str(), expected) {
            Some(index) => expected = index.saturating_add(1),
            None => return false,
        }
    }
    true
}

/// An index of the name. The expected one is tried first.
fn index_among(names: &[&str], name: &str, expected: usize) -> Option<usize>
    ensures { is_some result ≡ list_any (bytes_eq name.now) (texts names.now) }
{
    match names.get(expected) {
        Some(other) if is_same(name, other) => Some(expected),
        _ => first_index(names, name),
    }
}

fn first_index(names: &[&str], name: &str) -> Option<usize>
    ensures { is_some result ≡ list_any (bytes_eq name.now) (texts names.now) }
{
    for (index, other) in names.iter().enumerate() {
        if is_same(name, other) {
            return Some(index);
        }
    }
    None
}

fn is_same(name: &str, other: &str) -> bool
    ensures { result ≡ bytes_eq name.now other.now }
{
    name == other
}
