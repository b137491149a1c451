//! Values of fields whose texts are borrowed.

ghost use Rattle.std.specs.Prelude.{◌≡◌, option_map, IfOk};
ghost use Rattle.serde_json.specs.View.{view};
ghost use Rattle.pn_record.specs.Limits.{value_size, is_value};
ghost use Rattle.pn_record.specs.Grammar.{value_in};
ghost use Rattle.pn_record.specs.Showing.{shown_ref, shown_value};

use crate::Value;
use crate::version::{MAX_TEXT_BYTES, NUMBER_BYTES};
use pn_join::NoMemory;
use pn_json::signed_number_of;
use std::alloc::Global;

/// The value of a field, whose text is borrowed.
#[derive(Clone, Copy, Debug, Drop)]
pub enum ValueRef<'v> {
    /// A whole number.
    Number(i64),
    /// A text.
    Text(&'v str),
}

/// The value of a field that a parsed value is: a text, or a whole number of 64 bits with a sign. `None` for any other.
pub fn value_of(value: &serde_json::Value) -> Option<ValueRef<'_>>
    ensures { option_map shown_ref result ≡ value_in (view value.now) }
{
    if let Some(text) = value.as_str() {
        return Some(ValueRef::Text(text));
    }
    Some(ValueRef::Number(signed_number_of(value)?))
}

impl<'v> ValueRef<'v> {
    /// Whether a text has at most 4,096 bytes. A number always fits.
    pub fn fits(self) -> bool
        ensures { result ≡ is_value (shown_ref self.entry) }
    {
        match self {
            ValueRef::Number(_) => true,
            ValueRef::Text(text) => text.len() <= MAX_TEXT_BYTES,
        }
    }

    /// The bytes that the value counts: 20 for a number.
    pub fn size(self) -> usize
        ensures { result ≡ value_size (shown_ref self.entry) }
    {
        match self {
            ValueRef::Number(_) => NUMBER_BYTES,
            ValueRef::Text(text) => text.len(),
        }
    }

    /// An equal value, with a text of its own.
    pub fn to_value(self, alloc: Global) -> Result<Value, NoMemory>
        ensures { IfOk result (λ value. shown_value value ≡ shown_ref self.entry) }
    {
        match self {
            ValueRef::Number(number) => Ok(Value::Number(number)),
            ValueRef::Text(text) => Ok(Value::Text(String::from_str(alloc, text)?)),
        }
    }
}

impl Value {
    /// This value with its text borrowed.
    pub fn as_ref(&self) -> ValueRef<'_>
        ensures { shown_ref result ≡ shown_value self.now }
    {
        match self {
            Value::Number(number) => ValueRef::Number(*number),
            Value::Text(text) => ValueRef::Text(text.as_str()),
        }
    }
}
