//! Parts of images that are borrowed from a JSON value, and their ranges.

ghost use Rattle.std.specs.Prelude.{◌≡◌, string_cmp, IsTrue, IfOk};
ghost use Rattle.std.specs.BTreeMap.{IsOrdered};
ghost use Rattle.serde_json.specs.View.{view, items_view, members_view};
ghost use Rattle.pn_json.specs.Prelude.{seen, member_as, Shows};
ghost use Rattle.pn_record.specs.Grammar.{all_values, deleted_in, fields_in, value_or_empty as value_given, fields_of, body_fits as body_in_range, numbers_in};
ghost use Rattle.pn_record.specs.Grammar.{two_numbers, shape_in, ranges_in};
ghost use Rattle.pn_record.specs.Reading.{seen_fields, body_rises};
ghost use Rattle.pn_record.specs.Writing.{image_data};
ghost use Rattle.pn_record.specs.Limits.{fields_fit as all_fit};
ghost use Rattle.pn_record.specs.Showing.{shown_ref};

use crate::as_json::moved::parts_of;
use crate::version::{MAX_FIELD_BYTES, MAX_FIELDS};
use crate::{Key, Member, ValueRef, Version, is_field, value_of};
use pn_join::Name;
use pn_json::text_of;
use serde_json::{Map, Value};
use std::marker::Model;

/// The two whole numbers of an array of two, as a version is written. `None` for any other value.
pub fn numbers_of(value: &Value) -> Option<(u64, u64)>
    ensures { result ≡ numbers_in (view value.now) }
{
    let items = value.as_array()?;
    pair_of(items)
}

fn pair_of(items: &[Value]) -> Option<(u64, u64)>
    ensures { result ≡ two_numbers (items_view items.now) }
{
    let [generation, number] = items else {
        return None;
    };
    Some((generation.as_u64()?, number.as_u64()?))
}

fn deleted_of(value: Option<&Value>) -> Result<bool, Member>
    ensures { result ≡ deleted_in (seen value.entry) }
{
    match value {
        None => Ok(false),
        Some(value) => match value.as_bool() {
            Some(true) => Ok(true),
            _ => Err(Member::Deleted),
        },
    }
}

/// An image as read, borrowed from its parsed value. Its limits are not checked yet. A deletion has no
/// fields.
#[derive(Drop)]
pub struct UncheckedImage<'v> {
    pub(crate) fields: Option<&'v Map<String, Value>>,
    pub(crate) key: &'v str,
    pub(crate) master: &'v str,
    pub(crate) version: (u64, u64),
}

impl<'v> Model for UncheckedImage<'v> {
    ghost use Rattle.pn_record.specs.declared.records.Image.{Image};

    ghost Value = { Image };

    ghost use Rattle.pn_record.specs.Reading.{seen_fields};

    ghost view = { λ s. record { key = s.key.now; version = s.version; content = (seen_fields s.fields, s.master.now) } };
}

/// The image that a value has the shape of, borrowed from the value, or the first member of another shape.
#[tactic(auto, unfolding(crate::specs::Grammar::shape_in))]
pub fn unchecked_image(value: &Value) -> Result<UncheckedImage<'_>, Member>
    ensures exact { result ≡ shape_in (view value.now) }
    ensures found { IfOk result (λ shape. view value.now ≡ image_data shape) }
    ensures rising { IfOk result (λ shape. IsTrue (body_rises shape.content.0)) }
{
    let members = value.as_object().ok_or(Member::Whole)?;
    let parts = parts_of(value, members);
    let is_deleted = deleted_of(parts.deleted)?;
    let fields = fields_of(is_deleted, parts.fields)?;
    let key = text_of(parts.key, Member::Key)?;
    let master = text_of(parts.master, Member::Master)?;
    let version = version_numbers(parts.version)?;
    parts.named?;
    Ok(UncheckedImage {
        fields,
        key,
        master,
        version,
    })
}

fn fields_of<'v>(
    is_deleted: bool,
    value: Option<&'v Value>,
) -> Result<Option<&'v Map<String, Value>>, Member>
    ensures shown { Shows seen_fields result (fields_in is_deleted (seen value.entry)) }
    ensures rising { IfOk result (λ fields. IsTrue (body_rises (seen_fields fields))) }
{
    match (is_deleted, value) {
        (true, None) => Ok(None),
        (false, Some(value)) => match value.as_object() {
            Some(members) if has_values_alone(members) => Ok(Some(members)),
            _ => Err(Member::Fields),
        },
        _ => Err(Member::Fields),
    }
}

fn version_numbers(value: Option<&Value>) -> Result<(u64, u64), Member>
    ensures { result ≡ member_as numbers_in Member.Version (seen value.entry) }
{
    value.and_then(numbers_of).ok_or(Member::Version)
}

fn has_values_alone(members: &Map<String, Value>) -> bool
    ensures values { result ≡ all_values (members_view members.now.entries) }
    ensures ordered { IsOrdered string_cmp members.now }
{
    for (_, value) in members.iter() {
        if value_of(value).is_none() {
            return false;
        }
    }
    true
}

impl UncheckedImage<'_> {
    /// The first member that breaks a limit, if one does: the fields, the key, the master, the version.
    #[tactic(auto, unfolding(crate::specs::Grammar::ranges_in))]
    pub fn check_ranges(&self) -> Result<(), Member>
        ensures { result ≡ ranges_in self.now }
    {
        if !body_fits(self.fields) {
            return Err(Member::Fields);
        }
        if !Key::fits(self.key) {
            return Err(Member::Key);
        }
        if !Name::fits(self.master.as_bytes()) {
            return Err(Member::Master);
        }
        let (generation, number) = self.version;
        if Version::new(generation, number).is_none() {
            return Err(Member::Version);
        }
        Ok(())
    }
}

fn body_fits(fields: Option<&Map<String, Value>>) -> bool
    ensures { result ≡ body_in_range (seen_fields fields.entry) }
{
    match fields {
        None => true,
        Some(members) => fields_fit(members),
    }
}

#[tactic(auto, using(crate::proofs::MarksValues::fields_count))]
fn fields_fit(members: &Map<String, Value>) -> bool
    ensures { result ≡ all_fit (fields_of (members_view members.now.entries)) }
{
    if members.len() > MAX_FIELDS {
        return false;
    }
    let mut bytes = 0;
    for (name, value) in members.iter() {
        let value = value_or_empty(value);
        if !is_field(name.as_str(), value) {
            return false;
        }
        bytes += name.len() + value.size();
        if bytes > MAX_FIELD_BYTES {
            return false;
        }
    }
    true
}

/// The value that a JSON value stands for, or an empty text.
pub(crate) fn value_or_empty(value: &Value) -> ValueRef<'_>
    ensures { shown_ref result ≡ value_given (view value.now) }
{
    value_of(value).unwrap_or(ValueRef::Text(""))
}
