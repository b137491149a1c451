//! The members of an image, found in the order of their names, and moved out of parsed values.

ghost use Rattle.std.specs.Prelude.{◌≡◌, codes, option_map, string_bytes, string_cmp, Some, IfSome, map, Ok, IfOk, IsOk, IsTrue};
ghost use Rattle.std.specs.BTreeMap.{IsOrdered};
ghost use Rattle.std.specs.Str.{bytes_eq};
ghost use Rattle.serde_json.specs.Find.{as_object, get};
ghost use Rattle.serde_json.specs.View.{view, members_view};
ghost use Rattle.pn_json.specs.Prelude.{seen, text_at};
ghost use Rattle.pn_json.specs.Members.{no_others};
ghost use Rattle.pn_record.specs.Grammar.{image_members, image_in, ArePartsOf, seen_member, value_or_empty, fields_of, numbers_at, fields_at};
ghost use Rattle.pn_record.specs.Limits.{names_rise as all_rise};
ghost use Rattle.pn_record.specs.Reading.{body_rises};
ghost use Rattle.pn_record.specs.Showing.{shown_value, shown_field, shown_body};

use crate::content::Value as FieldValue;
use crate::{Body, Content, Image, Key, Member, Version, numbers_of};
use pn_join::{Name, NoMemory};
use pn_json::{check_names, member_from, signed_number_of, text_or_empty};
use serde_json::{Map, Value};
use std::alloc::Global;

/// The values at an image's names, and the fault of a member of another name.
#[derive(Drop)]
pub(crate) struct Parts<'v> {
    pub(crate) deleted: Option<&'v Value>,
    pub(crate) fields: Option<&'v Value>,
    pub(crate) key: Option<&'v Value>,
    pub(crate) master: Option<&'v Value>,
    pub(crate) version: Option<&'v Value>,
    pub(crate) named: Result<(), Member>,
}

/// The parts of a value with these members. Those of an image are compared once each.
pub(crate) fn parts_of<'v>(value: &'v Value, members: &'v Map<String, Value>) -> Parts<'v>
    requires { as_object (view value.now) ≡ Some (members_view members.now.entries) }
    ensures deleted { seen result.deleted ≡ get (codes "deleted") (view value.now) }
    ensures fields { seen result.fields ≡ get (codes "fields") (view value.now) }
    ensures key { seen result.key ≡ get (codes "key") (view value.now) }
    ensures master { seen result.master ≡ get (codes "master") (view value.now) }
    ensures version { seen result.version ≡ get (codes "version") (view value.now) }
    ensures named { result.named ≡ no_others image_members Member.Other (members_view members.now.entries) }
    ensures ordered { IsOrdered string_cmp members.now }
{
    match parts_in_order(members) {
        Some(parts) => parts,
        None => {
            let names = ["deleted", "fields", "key", "master", "version"];
            Parts {
                deleted: value.get("deleted"),
                fields: value.get("fields"),
                key: value.get("key"),
                master: value.get("master"),
                version: value.get("version"),
                named: check_names(members, &names, Member::Other),
            }
        }
    }
}

// The parts of members that are those of an image, and no others.
fn parts_in_order(members: &Map<String, Value>) -> Option<Parts<'_>>
    ensures parts { IfSome result (ArePartsOf (members_view members.now.entries)) }
    ensures ordered { IsOrdered string_cmp members.now }
{
    let mut rest = members.iter();
    let (name, body) = rest.next()?;
    let key = value_at("key", rest.next())?;
    let master = value_at("master", rest.next())?;
    let version = value_at("version", rest.next())?;
    if rest.next().is_some() {
        return None;
    }
    let is_deleted = is_named(name, "deleted");
    if !is_deleted && !is_named(name, "fields") {
        return None;
    }
    Some(Parts {
        deleted: is_deleted.then_some(body),
        fields: (!is_deleted).then_some(body),
        key: Some(key),
        master: Some(master),
        version: Some(version),
        named: Ok(()),
    })
}

// The value of the member, if it has this name.
fn value_at<'v>(name: &str, member: Option<(&'v String, &'v Value)>) -> Option<&'v Value>
    ensures { IfSome result (λ value. option_map seen_member member.entry ≡ Some (name.now, value.now)) }
{
    let (other, value) = member?;
    if is_named(other, name) {
        return Some(value);
    }
    None
}

fn is_named(name: &String, other: &str) -> bool
    ensures { result ≡ bytes_eq (string_bytes name.now) other.now }
{
    name.as_str() == other
}

/// The image that a value spells, which was checked before. The names and texts of its fields are moved out of the value.
#[tactic(auto, using(crate::proofs::ImageParts::parts_found))]
pub fn image_from(alloc: Global, value: Value) -> Result<Image, NoMemory>
    requires { IsOk (image_in (view value)) }
    ensures { IfOk result (λ image. image_in (view value) ≡ Ok image) }
{
    let (key, master, (generation, number)) = parts_after_body(&value);
    let master = Name::of(master.as_bytes());
    let key = Key::of_fitting(alloc, key)?;
    let body = body_from(alloc, member_from(value, "fields"))?;
    Ok(Image {
        key,
        version: Version { generation, number },
        content: Content { body, master },
    })
}

// The key, the master and the version. Their names come after the body's, in this order.
fn parts_after_body(value: &Value) -> (&str, &str, (u64, u64))
    requires { IsOk (image_in (view value.now)) }
    ensures key { result.0.now ≡ text_at (get (codes "key") (view value.now)) }
    ensures master { result.1.now ≡ text_at (get (codes "master") (view value.now)) }
    ensures version { result.2 ≡ numbers_at (get (codes "version") (view value.now)) }
{
    let Some(members) = value.as_object() else {
        unreachable!();
    };
    let mut values = members.values();
    let _ = values.next();
    let key = text_or_empty(values.next());
    let master = text_or_empty(values.next());
    (key, master, numbers_or_zeros(values.next()))
}

fn numbers_or_zeros(value: Option<&Value>) -> (u64, u64)
    ensures { result ≡ numbers_at (seen value.entry) }
{
    value.and_then(numbers_of).unwrap_or((0, 0))
}

fn body_from(alloc: Global, fields: Option<Value>) -> Result<Body, NoMemory>
    ensures shown { IfOk result (λ body. shown_body body ≡ fields_at (option_map view fields)) }
    ensures rising { IfOk result (λ body. IsTrue (body_rises (shown_body body))) }
{
    match fields {
        Some(Value::Object(members)) => Ok(Body::Fields(fields_from(alloc, members)?)),
        _ => Ok(Body::Deleted),
    }
}

fn fields_from(
    alloc: Global,
    members: Map<String, Value>,
) -> Result<Vec<(String, FieldValue)>, NoMemory>
    ensures fields { IfOk result (λ fields. map shown_field fields.items ≡ fields_of (members_view members.entries)) }
    ensures rising { IfOk result (λ fields. IsTrue (all_rise (map shown_field fields.items))) }
{
    let mut fields = Vec::with_capacity(alloc, members.len())?;
    for (name, value) in members {
        fields.push((name, field_value_from(alloc, value)))?;
    }
    Ok(fields)
}

fn field_value_from(alloc: Global, value: Value) -> FieldValue
    ensures { shown_value result ≡ value_or_empty (view value) }
{
    match signed_number_of(&value) {
        Some(number) => FieldValue::Number(number),
        None => FieldValue::Text(text_from(alloc, value)),
    }
}

fn text_from(alloc: Global, value: Value) -> String
    ensures { string_bytes result ≡ text_at (Some (view value)) }
{
    match value {
        Value::String(text) => text,
        _ => String::new(alloc),
    }
}
