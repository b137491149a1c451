//! Versions, contents and images, added to a buffer that has room for them or written into a line.

ghost use Rattle.std.specs.Prelude.{◌≤◌, ◌∷◌, ◌++◌, IsTrue, length, map, ◌≡◌, OnOk};
ghost use Rattle.json.specs.Print.{quoted};
ghost use Rattle.serde_json.specs.Data.{object};
ghost use Rattle.serde_json.specs.Written.{comma_if, compact_text};
ghost use Rattle.pn_json.specs.Prelude.{AppendsText, Appends, value_tokens};
ghost use Rattle.pn_record.specs.Limits.{is_version};
ghost use Rattle.pn_record.specs.Showing.{shown_body, shown_field, shown_value, shown_ref};
ghost use Rattle.pn_record.specs.Writing.{body_text, content_data, fields_data, image_data, value_data, version_data, body_tokens, field_tokens};

use crate::{Body, Content, Key, Value, ValueRef, Version};
use json::Writer;
use pn_join::NoMemory;
use pn_json::{
    append_comma, append_number, append_signed_number, append_string, append_text,
    write_text_member,
};

/// Adds a version: `[generation,number]`.
pub fn append_version(out: &mut Vec<u8>, version: Version)
    ensures added { AppendsText out.old out.new (compact_text (version_data version)) }
    ensures short { length (compact_text (version_data version)) ≤ 64 }
    ensures limits { IsTrue (is_version version) }
{
    append_text(out, "[");
    append_number(out, version.generation);
    append_text(out, ",");
    append_number(out, version.number);
    append_text(out, "]");
}

/// Adds a content: `{"fields":{..},"master":N}` or `{"deleted":true,"master":N}`.
pub fn append_content(out: &mut Vec<u8>, content: &Content)
    ensures added { AppendsText out.old out.new (compact_text (content_data content.now)) }
    ensures short { length (compact_text (content_data content.now)) ≤ 52000 }
{
    append_text(out, "{");
    append_body(out, &content.body);
    append_text(out, ",\"master\":");
    append_string(out, content.master.as_str());
    append_text(out, "}");
}

/// Adds an image: `{"fields":{..},"key":K,"master":N,"version":V}`. A deletion has `"deleted":true` instead of
/// fields.
pub fn append_image(out: &mut Vec<u8>, key: &Key, version: Version, content: &Content)
    ensures added { AppendsText out.old out.new
        (compact_text (image_data (record { key = key.now; version = version; content = content.now }))) }
    ensures short { length (compact_text (image_data (record { key = key.now; version = version; content = content.now }))) ≤ 52000 }
{
    append_text(out, "{");
    append_body(out, &content.body);
    append_text(out, ",\"key\":");
    append_string(out, key.as_str());
    append_text(out, ",\"master\":");
    append_string(out, content.master.as_str());
    append_text(out, ",\"version\":");
    append_version(out, version);
    append_text(out, "}");
}

// Adds a body as a member: `"fields":{..}` or `"deleted":true`.
fn append_body(out: &mut Vec<u8>, body: &Body)
    ensures { AppendsText out.old out.new (body_text (shown_body body.now)) }
{
    match body {
        Body::Deleted => append_text(out, "\"deleted\":true"),
        Body::Fields(fields) => {
            append_text(out, "\"fields\":");
            append_fields(out, fields);
        }
    }
}

fn append_fields(out: &mut Vec<u8>, fields: &[(String, Value)])
    ensures { AppendsText out.old out.new (compact_text (object (fields_data (map shown_field fields.now)))) }
{
    append_text(out, "{");
    let mut later = false;
    for field in fields {
        append_field(out, later, field);
        later = true;
    }
    append_text(out, "}");
}

fn append_field(out: &mut Vec<u8>, later: bool, field: &(String, Value))
    ensures { AppendsText out.old out.new (comma_if later ++ (quoted (shown_field field.now).0 ++ 58 ∷ compact_text (value_data (shown_field field.now).1))) }
{
    append_comma(out, later);
    append_string(out, field.0.as_str());
    append_text(out, ":");
    append_value(out, &field.1);
}

fn append_value(out: &mut Vec<u8>, value: &Value)
    ensures { AppendsText out.old out.new (compact_text (value_data (shown_value value.now))) }
{
    match value {
        Value::Number(number) => append_signed_number(out, *number),
        Value::Text(text) => append_string(out, text.as_str()),
    }
}

/// Writes a version: `[generation,number]`.
pub fn write_version(writer: &mut Writer, version: Version) -> Result<(), NoMemory>
    ensures { OnOk result (Appends writer.old writer.new (value_tokens (version_data version))) }
{
    writer.begin_array()?;
    writer.u64(version.generation)?;
    writer.u64(version.number)?;
    writer.end_array()?;
    Ok(())
}

/// Writes a body as a member: `"fields":{..}` or `"deleted":true`.
pub fn write_body(writer: &mut Writer, body: &Body) -> Result<(), NoMemory>
    ensures { OnOk result (Appends writer.old writer.new (body_tokens (shown_body body.now))) }
{
    match body {
        Body::Deleted => {
            writer.key("deleted")?;
            writer.boolean(true)?;
        }
        Body::Fields(fields) => {
            writer.key("fields")?;
            write_fields(writer, fields)?;
        }
    }
    Ok(())
}

fn write_fields(writer: &mut Writer, fields: &[(String, Value)]) -> Result<(), NoMemory>
    ensures { OnOk result (Appends writer.old writer.new (value_tokens (object (fields_data (map shown_field fields.now))))) }
{
    writer.begin_object()?;
    for field in fields {
        write_field(writer, field)?;
    }
    writer.end_object()?;
    Ok(())
}

fn write_field(writer: &mut Writer, field: &(String, Value)) -> Result<(), NoMemory>
    ensures { OnOk result (Appends writer.old writer.new (field_tokens (shown_field field.now))) }
{
    match &field.1 {
        Value::Text(text) => write_text_member(writer, field.0.as_str(), text.as_str()),
        Value::Number(number) => {
            writer.key(field.0.as_str())?;
            writer.i64(*number)?;
            Ok(())
        }
    }
}

/// Writes the value of a field: a number or a text.
pub fn write_field_value(writer: &mut Writer, value: ValueRef<'_>) -> Result<(), NoMemory>
    ensures { OnOk result (Appends writer.old writer.new (value_tokens (value_data (shown_ref value.entry)))) }
{
    match value {
        ValueRef::Number(number) => writer.i64(number)?,
        ValueRef::Text(text) => writer.string(text)?,
    }
    Ok(())
}
