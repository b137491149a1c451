//! Versions, contents and images as JSON.

ghost use Rattle.std.specs.Prelude.{◌≡◌, ◌<◌, length, codes, map, Ok, IfOk, OnOk, IsTrue, string_bytes};
ghost use Rattle.serde_json.specs.Data.{object, string, member, no_members};
ghost use Rattle.serde_json.specs.View.{view};
ghost use Rattle.serde_json.specs.Written.{compact_text};
ghost use Rattle.pn_record.specs.Limits.{names_rise, is_version};
ghost use Rattle.pn_record.specs.Showing.{shown_ref, shown_field};
ghost use Rattle.pn_record.specs.Reading.{image_at, is_image, IsImageLine};
ghost use Rattle.pn_record.specs.Writing.{value_data, version_data, fields_data, content_data, image_data};

use crate::content::Value as FieldValue;
use crate::{Body, Content, Image, Key, ValueRef, Version};
use pn_join::NoMemory;
use serde_json::{Map, Value, json};
use std::alloc::Global;

/// The version as JSON: `[generation,number]`.
pub fn version_value(alloc: Global, version: Version) -> Result<Value, NoMemory>
    ensures value { IfOk result (λ value. view value ≡ version_data version) }
    ensures limits { IsTrue (is_version version) }
{
    Ok(json!(in alloc; [version.generation, version.number])?)
}

/// The content as JSON: `{"fields":{..},"master":N}` or `{"deleted":true,"master":N}`.
pub fn content_value(alloc: Global, content: &Content) -> Result<Value, NoMemory>
    ensures { IfOk result (λ value. view value ≡ content_data content.now) }
{
    let master = content.master.as_str();
    match &content.body {
        Body::Deleted => Ok(json!(in alloc; {"deleted": true, "master": master})?),
        Body::Fields(fields) => {
            let fields = fields_value(alloc, fields)?;
            Ok(json!(in alloc; {"fields": fields, "master": master})?)
        }
    }
}

/// The image as JSON: `{"fields":{..},"key":K,"master":N,"version":V}`. A deletion has `"deleted":true`
/// instead of fields.
pub fn image_value(alloc: Global, image: &Image) -> Result<Value, NoMemory>
    ensures value { IfOk result (λ value. view value ≡ image_data image.now) }
    ensures limits { OnOk result (IsTrue (is_image image.now)) }
{
    record_value(alloc, &image.key, image.version, &image.content)
}

// The image with this key, version and content as JSON.
fn record_value(
    alloc: Global,
    key: &Key,
    version: Version,
    content: &Content,
) -> Result<Value, NoMemory>
    ensures value { IfOk result
        (λ value. view value ≡ image_data (record { key = key.now; version = version; content = content.now })) }
    ensures limits { OnOk result (IsTrue (is_image (record { key = key.now; version = version; content = content.now }))) }
{
    let key = key.as_str();
    let version = version_value(alloc, version)?;
    let master = content.master.as_str();
    let Body::Fields(fields) = &content.body else {
        return Ok(
            json!(in alloc; {"deleted": true, "key": key, "master": master, "version": version})?,
        );
    };
    let fields = fields_value(alloc, fields)?;
    with_fields(alloc, fields, key, master, version)
}

fn with_fields(
    alloc: Global,
    fields: Value,
    key: &str,
    master: &str,
    version: Value,
) -> Result<Value, NoMemory>
    ensures { IfOk result (λ value. view value ≡ object
        (member (codes "fields") (view fields)
        (member (codes "key") (string key.now)
        (member (codes "master") (string master.now)
        (member (codes "version") (view version) no_members))))) }
{
    Ok(json!(in alloc; {"fields": fields, "key": key, "master": master, "version": version})?)
}

/// The image's line without its newline: compact JSON. It always fits a line, and is read back as the same
/// image.
pub fn write_image(alloc: Global, image: &Image) -> Result<String, NoMemory>
    ensures text { IfOk result (λ text. string_bytes text ≡ compact_text (image_data image.now)) }
    ensures line { IfOk result (λ text. IsImageLine (string_bytes text) image.now) }
    ensures reads_back { IfOk result (λ text. image_at (string_bytes text) ≡ Ok image.now) }
    ensures short { IfOk result (λ text. length (string_bytes text) < 52000) }
{
    let value = image_value(alloc, image)?;
    Ok(value.to_string(alloc)?)
}

fn fields_value(alloc: Global, fields: &[(String, FieldValue)]) -> Result<Value, NoMemory>
    requires { IsTrue (names_rise (map shown_field fields.now)) }
    ensures { IfOk result (λ value. view value ≡ object (fields_data (map shown_field fields.now))) }
{
    let mut members = Map::new(alloc);
    for (name, value) in fields {
        let value = field_json(alloc, value.as_ref())?;
        serde_json::put(&mut members, alloc, name.as_str(), value)?;
    }
    Ok(Value::Object(members))
}

fn field_json(alloc: Global, value: ValueRef<'_>) -> Result<Value, NoMemory>
    ensures { IfOk result (λ json. view json ≡ value_data (shown_ref value.entry)) }
{
    match value {
        ValueRef::Number(number) => Ok(Value::from(number)),
        ValueRef::Text(text) => Ok(Value::try_from_str(alloc, text)?),
    }
}
