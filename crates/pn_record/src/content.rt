//! Contents of records: fields or a deletion, and the master.

ghost use Rattle.std.specs.Prelude.{◌≡◌, IsTrue, ◌↔◌, IfSome, IsSome, IfOk, string_bytes, Option, Some, None, length, map};
ghost use Rattle.std.specs.Ordering.{is_lt, nat_cmp};
ghost use Rattle.std.specs.Cmp.Lexicographic.{slice_cmp};
ghost use Rattle.pn_join.specs.Prelude.{is_name};
ghost use Rattle.pn_record.specs.Limits.{is_body, is_body as body_fits, fields_fit as all_fit, names_rise as all_rise, is_field as one_fits};
ghost use Rattle.pn_record.specs.Showing.{is_numeric, have_number as any_number, holds_number, shown_body, shown_field, shown_ref, shown_value};

use crate::ValueRef;
use crate::version::{MAX_FIELD_BYTES, MAX_FIELD_NAME_BYTES, MAX_FIELDS};
use pn_join::{Dup, Name, NoMemory};
use std::alloc::Global;
use std::marker::Model;

/// The value of a field.
#[derive(Debug, Drop)]
pub enum Value {
    /// A whole number. It counts 20 bytes.
    Number(i64),
    /// A text of at most 4,096 bytes.
    Text(String),
}

/// What an image says of its record.
#[derive(Debug, Drop)]
pub enum Body {
    /// The record's fields, by rising names.
    Fields(Vec<(String, Value)>),
    /// The record is deleted.
    Deleted,
}

/// A body and the name of the record's master. Contents are ordered by body, and then by master. A deletion
/// comes before fields.
#[derive(Debug, Drop)]
pub struct Content {
    pub body: Body,
    pub master: Name,
}

impl Model for Content {
    ghost use Rattle.std.specs.Prelude.{ℕ, List, IsTrue};
    ghost use Rattle.pn_record.specs.Limits.{is_content};
    ghost use Rattle.pn_record.specs.Limits.{ContentValue};

    ghost Value = { ContentValue };

    ghost use Rattle.pn_record.specs.Showing.{shown_body};

    ghost view = { λ content. (shown_body content.body, content.master) };

    ghost invariant = { λ content. IsTrue (is_content (shown_body content.body, content.master)) };
}

impl Content {
    /// `None` exactly if a limit is broken, or the field names do not strictly rise.
    pub fn new(body: Body, master: Name) -> Option<Content>
        ensures made { IfSome result (λ content. content ≡ (shown_body body, master)) }
        ensures exactly { IsSome result ↔ IsTrue (is_body (shown_body body)) }
    {
        recall_name(&master);
        if !is_body(&body) {
            return None;
        }
        Some(Content { body, master })
    }

    /// Whether the value of one of the fields is a number.
    pub fn holds_number(&self) -> bool
        ensures { result ≡ holds_number self.now }
    {
        match &self.body {
            Body::Fields(fields) => have_number(fields),
            Body::Deleted => false,
        }
    }
}

// Recalls for the prover that a master is a name.
fn recall_name(master: &Name)
    ensures { IsTrue (is_name master.now) }
{
    let _ = master.as_str();
}

fn is_body(body: &Body) -> bool
    ensures { result ≡ body_fits (shown_body body.now) }
{
    match body {
        Body::Deleted => true,
        Body::Fields(fields) => fields_fit(fields) && names_rise(fields),
    }
}

fn fields_fit(fields: &[(String, Value)]) -> bool
    ensures { result ≡ all_fit (map shown_field fields.now) }
{
    if fields.len() > MAX_FIELDS {
        return false;
    }
    let mut bytes = 0;
    for field in fields {
        if !fits(field) {
            return false;
        }
        bytes += field.0.len() + field.1.as_ref().size();
    }
    bytes <= MAX_FIELD_BYTES
}

fn fits(field: &(String, Value)) -> bool
    ensures { result ≡ one_fits (shown_field field.now) }
{
    is_field(field.0.as_str(), field.1.as_ref())
}

/// Whether a name and a value keep the limits of a field.
pub fn is_field(name: &str, value: ValueRef<'_>) -> bool
    ensures { result ≡ one_fits (name.now, shown_ref value.entry) }
{
    !name.is_empty() && name.len() <= MAX_FIELD_NAME_BYTES && value.fits()
}

fn names_rise(fields: &[(String, Value)]) -> bool
    ensures { result ≡ all_rise (map shown_field fields.now) }
{
    for i in 1..fields.len() {
        if !is_below(&fields[i - 1], &fields[i]) {
            return false;
        }
    }
    true
}

fn is_below(field: &(String, Value), next: &(String, Value)) -> bool
    ensures { result ≡ is_lt (slice_cmp nat_cmp (shown_field field.now).0 (shown_field next.now).0) }
{
    field.0 < next.0
}

impl Value {
    /// An equal value with a text of its own.
    pub fn dup(&self) -> Result<Value, NoMemory>
        ensures { IfOk result (λ copy. shown_value copy ≡ shown_value self.now) }
    {
        match self {
            Value::Number(number) => Ok(Value::Number(*number)),
            Value::Text(text) => Ok(Value::Text(text.clone()?)),
        }
    }
}

impl Dup for Content {
    fn dup(&self) -> Result<Content, NoMemory>
        ensures { IfOk result (λ copy. copy ≡ self.now) }
    {
        Ok(Content {
            body: dup_body(&self.body)?,
            master: self.master,
        })
    }
}

fn dup_body(body: &Body) -> Result<Body, NoMemory>
    ensures { IfOk result (λ copy. shown_body copy ≡ shown_body body.now) }
{
    match body {
        Body::Deleted => Ok(Body::Deleted),
        Body::Fields(fields) => Ok(Body::Fields(dup_fields(*fields.allocator(), fields)?)),
    }
}

fn dup_fields(alloc: Global, fields: &[(String, Value)]) -> Result<Vec<(String, Value)>, NoMemory>
    ensures { IfOk result (λ copy. map shown_field copy.items ≡ map shown_field fields.now) }
{
    let mut copy = Vec::with_capacity(alloc, fields.len())?;
    for field in fields {
        copy.push(dup_field(field)?)?;
    }
    Ok(copy)
}

fn dup_field(field: &(String, Value)) -> Result<(String, Value), NoMemory>
    ensures { IfOk result (λ copy. shown_field copy ≡ shown_field field.now) }
{
    Ok((field.0.clone()?, field.1.dup()?))
}

fn have_number(fields: &[(String, Value)]) -> bool
    ensures { result ≡ any_number (map shown_field fields.now) }
{
    for field in fields {
        if is_number(&field.1) {
            return true;
        }
    }
    false
}

fn is_number(value: &Value) -> bool
    ensures { result ≡ is_numeric (shown_value value.now) }
{
    match value {
        Value::Number(_) => true,
        Value::Text(_) => false,
    }
}
