//! Images and versions, read from lines and from parsed values.

ghost use Rattle.std.specs.Prelude.{◌≡◌, ◌⊎◌, ◌<◌, ◌↔◌, length, map, IfOk, IfErr, IsOk, IsErrOf, IsTrue};
ghost use Rattle.serde_json.specs.Errors.{IsMemory};
ghost use Rattle.serde_json.specs.View.{view, members_view};
ghost use Rattle.pn_record.specs.Limits.{names_rise as all_rise, max_line_bytes};
ghost use Rattle.pn_record.specs.Reading.{body_rises, seen_fields, version_in, value_at, image_at, IsImage, IsImageLine};
ghost use Rattle.pn_record.specs.Showing.{shown_field, shown_body};
ghost use Rattle.pn_json.specs.Prelude.{IsUnless, ShowsUnless};
ghost use Rattle.pn_record.specs.Grammar.{IsOfValue, fields_of, ranges_in, image_in};
ghost use Rattle.pn_record.specs.declared.records.Image.{Image as ImageRecord};

use crate::as_json::unchecked::value_or_empty;
use crate::content::Value as FieldValue;
use crate::{
    Body, Content, Image, ImageFault, Key, Member, UncheckedImage, Version, image_from, numbers_of,
    unchecked_image,
};
use pn_join::{Name, NoMemory};
use pn_line::MAX_LINE_BYTES;
use serde_json::{Error, Map, Value};
use std::alloc::Global;

/// The value of a line. `TooLong` if it has more than 65,536 bytes, `NotJson` if it is not JSON.
#[tactic(auto, unfolding(crate::specs::Reading::value_at, crate::specs::Reading::reading))]
pub fn read_value(alloc: Global, line: &[u8]) -> Result<Value, ImageFault>
    ensures exact { ShowsUnless ImageFault.Memory view result (value_at line.now) }
    ensures too_long { IsErrOf result ImageFault.TooLong ↔ (max_line_bytes < length line.now) }
{
    if line.len() > MAX_LINE_BYTES {
        return Err(ImageFault::TooLong);
    }
    match Value::from_slice(alloc, line) {
        Ok(value) => Ok(value),
        Err(error) => Err(fault_of(&error)),
    }
}

// What an error of `serde_json` is called here.
fn fault_of(error: &Error) -> ImageFault
    ensures { (IsMemory error.now × (result ≡ ImageFault.Memory)) ⊎ ((¬ IsMemory error.now) × (result ≡ ImageFault.NotJson)) }
{
    if error.is_memory() {
        ImageFault::Memory
    } else {
        ImageFault::NotJson
    }
}

/// The version that a value spells: an array of two whole numbers. `BadShape` and `OutOfRange` name the
/// member `version`.
pub fn version_of(value: &Value) -> Result<Version, ImageFault>
    ensures { result ≡ version_in (view value.now) }
{
    let Some((generation, number)) = numbers_of(value) else {
        return Err(ImageFault::BadShape(Member::Version));
    };
    Version::new(generation, number).ok_or(ImageFault::OutOfRange(Member::Version))
}

/// The image that a value spells. `BadShape` names the first member of a wrong shape, otherwise `OutOfRange`
/// the first beyond a limit. `Memory` comes only if the value is an image.
pub fn image_of(alloc: Global, value: &Value) -> Result<Image, ImageFault>
    ensures found { IfOk result (λ image. IsImage (view value.now) image) }
    ensures only { (image : ImageRecord) → IsImage (view value.now) image → IsUnless ImageFault.Memory result (Ok image) }

    // Which fault it is.
    ensures exact { IsUnless ImageFault.Memory result (image_in (view value.now)) }
    ensures memory { IsErrOf result ImageFault.Memory → IsOk (image_in (view value.now)) }
    ensures faults { IfErr result IsOfValue }
{
    image_with_copies(alloc, value)
}

fn image_with_copies(alloc: Global, value: &Value) -> Result<Image, ImageFault>
    ensures found { IfOk result (λ image. IsImage (view value.now) image) }
    ensures exact { IsUnless ImageFault.Memory result (image_in (view value.now)) }
    ensures memory { IsErrOf result ImageFault.Memory → IsOk (image_in (view value.now)) }
    ensures faults { IfErr result IsOfValue }
{
    let shape = checked_shape(value)?;
    Ok(shape.image(alloc)?)
}

// The image that a value spells, borrowed and checked, or its first fault.
#[tactic(auto, unfolding(crate::specs::Grammar::image_in))]
fn checked_shape(value: &Value) -> Result<UncheckedImage<'_>, ImageFault>
    ensures found { IfOk result (λ image. IsImage (view value.now) image) }
    ensures exact { result ≡ image_in (view value.now) }
    ensures in_range { IfOk result (λ image. IsOk (ranges_in image)) }
    ensures memory { IsErrOf result ImageFault.Memory → ⊥ }
    ensures faults { IfErr result IsOfValue }
{
    let shape = unchecked_image(value).map_err(ImageFault::BadShape)?;
    shape.check_ranges().map_err(ImageFault::OutOfRange)?;
    Ok(shape)
}

/// The image of a line. `TooLong` if it has more than 65,536 bytes, `NotJson` if it is not JSON, and
/// otherwise as `image_of`.
pub fn read_image(alloc: Global, line: &[u8]) -> Result<Image, ImageFault>
    ensures found { IfOk result (λ image. IsImageLine line.now image) }
    ensures only { (image : ImageRecord) → IsImageLine line.now image → IsUnless ImageFault.Memory result (Ok image) }

    // Which fault it is.
    ensures exact { IsUnless ImageFault.Memory result (image_at line.now) }
    ensures too_long { IsErrOf result ImageFault.TooLong ↔ (max_line_bytes < length line.now) }
{
    image_read(alloc, read_value(alloc, line))
}

// The image of a value that was read, or the fault of reading.
fn image_read(alloc: Global, read: Result<Value, ImageFault>) -> Result<Image, ImageFault>
    ensures found { IfOk read (λ value. IfOk result (λ image. IsImage (view value) image)) }
    ensures exact { IfOk read (λ value. IsUnless ImageFault.Memory result (image_in (view value))) }
    ensures memory { IfOk read (λ value. IsErrOf result ImageFault.Memory → IsOk (image_in (view value))) }
    ensures faults { IfOk read (λ value. IfErr result IsOfValue) }
    ensures unread { IfErr read (λ fault. result ≡ Err fault) }
{
    let value = read?;
    try_image_from(alloc, value)
}

/// The image that a value spells, as `image_of` gives it. The names and texts of its fields are moved out of the value,
/// not copied.
pub fn try_image_from(alloc: Global, value: Value) -> Result<Image, ImageFault>
    ensures found { IfOk result (λ image. IsImage (view value) image) }
    ensures exact { IsUnless ImageFault.Memory result (image_in (view value)) }
    ensures memory { IsErrOf result ImageFault.Memory → IsOk (image_in (view value)) }
    ensures faults { IfErr result IsOfValue }
{
    drop(checked_shape(&value)?);
    Ok(image_from(alloc, value)?)
}

impl UncheckedImage<'_> {
    /// An image with copies of the texts that this one borrows.
    #[tactic(auto, unfolding(crate::specs::Grammar::ranges_in))]
    pub fn image(&self, alloc: Global) -> Result<Image, NoMemory>
        requires { IsOk (ranges_in self.now) }
        ensures { IfOk result (λ image. image ≡ self.now) }
    {
        let key = Key::of_fitting(alloc, self.key)?;
        let body = body_of(alloc, self.fields)?;
        let master = Name::of(self.master.as_bytes());
        let (generation, number) = self.version;
        Ok(Image {
            key,
            version: Version { generation, number },
            content: Content { body, master },
        })
    }
}

fn body_of(alloc: Global, fields: Option<&Map<String, Value>>) -> Result<Body, NoMemory>
    ensures shown { IfOk result (λ body. shown_body body ≡ seen_fields fields.entry) }
    ensures rising { IfOk result (λ body. IsTrue (body_rises (shown_body body))) }
{
    match fields {
        None => Ok(Body::Deleted),
        Some(members) => Ok(Body::Fields(fields_from(alloc, members)?)),
    }
}

fn fields_from(
    alloc: Global,
    members: &Map<String, Value>,
) -> Result<Vec<(String, FieldValue)>, NoMemory>
    ensures fields { IfOk result
        (λ fields. map shown_field fields.items ≡ fields_of (members_view members.now.entries)) }
    ensures rising { IfOk result (λ fields. IsTrue (all_rise (map shown_field fields.items))) }
{
    let mut fields = Vec::with_capacity(alloc, members.len())?;
    for (name, value) in members.iter() {
        let name = String::from_str(alloc, name.as_str())?;
        let value = value_or_empty(value).to_value(alloc)?;
        fields.push((name, value))?;
    }
    Ok(fields)
}
