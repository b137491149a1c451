//! Cases of records and of values.

use pn_record::{
    ImageFault, KeyFault, Member, Value, ValueRef, content_value, image_of, marks_of, marks_value,
    read_image, read_value, value_of, version_of, version_value, write_image,
};
use std::alloc::Global;
use std::test::Fail;
use test_kit::spell_out;

/// The answer to a case.
pub(crate) fn answer(alloc: Global, line: &str) -> Result<String, Fail> {
    let line = spell_out(alloc, line)?;
    let (what, text) = line.as_str().split_once(' ').unwrap_or((line.as_str(), ""));
    match what {
        "image" => image(alloc, text),
        "content" => content(alloc, text),
        "value" => value(alloc, text),
        "version" => version(alloc, text),
        "marks" => marks(alloc, text),
        _ => faults(alloc),
    }
}

fn image(alloc: Global, line: &str) -> Result<String, Fail> {
    match read_image(alloc, line.as_bytes()) {
        Ok(image) => Ok(write_image(alloc, &image)?),
        Err(fault) => Ok(format!(in alloc; "{fault}")?),
    }
}

// The texts of faults that no case meets.
fn faults(alloc: Global) -> Result<String, Fail> {
    let image = ImageFault::BadShape(Member::Image);
    let (none, long) = (ImageFault::Memory, KeyFault::OutOfRange);
    Ok(format!(in alloc; "{image}, {none}, {long}, {}", KeyFault::Memory)?)
}

/// The JSON of an image's content.
pub(crate) fn content(alloc: Global, line: &str) -> Result<String, Fail> {
    let image = image_of(alloc, &read_value(alloc, line.as_bytes())?)?;
    Ok(content_value(alloc, &image.content)?.to_string(alloc)?)
}

pub(crate) fn version(alloc: Global, text: &str) -> Result<String, Fail> {
    let version = version_of(&read_value(alloc, text.as_bytes())?)?;
    Ok(version_value(alloc, version)?.to_string(alloc)?)
}

pub(crate) fn marks(alloc: Global, text: &str) -> Result<String, Fail> {
    match marks_of(alloc, &read_value(alloc, text.as_bytes())?) {
        Ok(marks) => Ok(marks_value(alloc, &marks)?.to_string(alloc)?),
        Err(fault) => Ok(format!(in alloc; "{fault}")?),
    }
}

/// The value of a field that a JSON value is: its kind, and what it counts.
pub(crate) fn value(alloc: Global, text: &str) -> Result<String, Fail> {
    let parsed = read_value(alloc, text.as_bytes())?;
    match value_of(&parsed) {
        Some(value) => describe(alloc, value),
        None => Ok(String::from_str(alloc, "no value of a field")?),
    }
}

fn describe(alloc: Global, value: ValueRef<'_>) -> Result<String, Fail> {
    let (size, fits) = (value.size(), value.fits());
    match value.to_value(alloc)? {
        Value::Number(number) => Ok(format!(in alloc; "number {number}, {size} bytes, {fits}")?),
        Value::Text(text) => {
            let same = Value::Text(text).as_ref().size() == size;
            Ok(format!(in alloc; "text, {size} bytes, {fits}, {same}")?)
        }
    }
}
