//! Why no region takes a line, which field or member is at fault, and what is told of it.

ghost use Rattle.std.specs.Prelude.{◌≡◌, Ok, Result, IfOk, OnOk, codes, option_map};
ghost use Rattle.std.specs.List.{list_any};
ghost use Rattle.std.specs.Str.{bytes_eq};
ghost use Rattle.serde_json.specs.View.{view, members_view};
ghost use Rattle.pn_json.specs.Answers.{fault_as};
ghost use Rattle.pn_json.specs.Prelude.{IsUnless, seen, seen_text, line_of, Appends, member_tokens, value_tokens};
ghost use Rattle.pn_record.specs.Grammar.{image_in, ranges_in, image_members};
ghost use Rattle.pn_record.specs.Prelude.{value_at};
ghost use Rattle.pn_stream.specs.Messages.{Message};
ghost use Rattle.pn_record.specs.declared.fault.ImageFault.{ImageFault as Fault};
ghost use Rattle.pn_check.specs.Told.{fault_at, fault_in, is_message as is_to_be_message, image_of, field_name, first_flawed as first_with};
ghost use Rattle.pn_check.specs.Told.{is_flawed as has_flaw, name_in, other_name as other_in, other_of, member_word as word_of_member, text_or_null, told};
ghost use Rattle.pn_check.specs.Told.{told_data};

use json::Writer;
use pn_join::NoMemory;
use pn_json::{begin_line, finish_line, write_null_member, write_number_member, write_text_member};
use pn_record::{
    Image, ImageFault, Member, UncheckedImage, is_field, read_value, unchecked_image, value_of,
};
use pn_stream::read_message;
use serde_json::{Map, Value};
use std::alloc::Global;

/// Why no region takes the line that a value was read from, if that is so.
pub(crate) fn fault_of_line(
    alloc: Global,
    line: &[u8],
    value: &Value,
) -> Result<Option<ImageFault>, NoMemory>
    requires { value_at line.now ≡ Ok (view value.now) }
    ensures { IfOk result (λ fault. fault ≡ fault_at line.now) }
{
    if is_message(value) {
        fault_unless_memory(read_message(alloc, line))
    } else {
        Ok(fault_of_image(value))
    }
}

/// Whether a value is to be a message: it has a position or an image.
pub(crate) fn is_message(value: &Value) -> bool
    ensures { result ≡ is_to_be_message (view value.now) }
{
    value.get("at").is_some() || value.get("image").is_some()
}

// The fault of a message that was read, if it has one, and memory did not run out.
fn fault_unless_memory(
    read: Result<(u64, Image), ImageFault>,
) -> Result<Option<ImageFault>, NoMemory>
    ensures { (right : Result Message Fault) → IsUnless ImageFault.Memory read right → IfOk result (λ fault. fault ≡ fault_in right) }
{
    match read {
        Ok(_) => Ok(None),
        Err(ImageFault::Memory) => Err(NoMemory),
        Err(fault) => Ok(Some(fault)),
    }
}

// The fault of a value that is to be an image.
#[tactic(auto, unfolding(pn_record::specs::Grammar::image_in))]
fn fault_of_image(value: &Value) -> Option<ImageFault>
    ensures { result ≡ fault_in (image_in (view value.now)) }
{
    match unchecked_image(value) {
        Err(member) => Some(ImageFault::BadShape(member)),
        Ok(image) => fault_of_ranges(&image),
    }
}

fn fault_of_ranges(image: &UncheckedImage<'_>) -> Option<ImageFault>
    ensures { result ≡ fault_in (fault_as ImageFault.OutOfRange (ranges_in image.now)) }
{
    match image.check_ranges() {
        Err(member) => Some(ImageFault::OutOfRange(member)),
        Ok(()) => None,
    }
}

/// What a member may have that it is not to have.
#[derive(Clone, Copy, Debug, PartialEq, Eq)]
pub(crate) enum Flaw {
    /// A value that no field has.
    Kind,
    /// A name or a value beyond the limits of fields.
    Limit,
    /// A name that no member of an image has.
    OfNoImage,
    /// A name that no member of a message has.
    OfNoMessage,
}

/// The name of the field at fault, or of the member that has no place, where one is to blame.
pub(crate) fn name_at_fault<'v>(value: &'v Value, fault: &ImageFault) -> Option<&'v str>
    ensures { seen_text result ≡ name_in fault.now (view value.now) }
{
    match fault {
        ImageFault::BadShape(Member::Fields) => flawed_field(value, Flaw::Kind),
        ImageFault::OutOfRange(Member::Fields) => flawed_field(value, Flaw::Limit),
        ImageFault::BadShape(Member::Other) => unknown_member(value),
        _ => None,
    }
}

// The name of the first field with a flaw.
fn flawed_field(value: &Value, flaw: Flaw) -> Option<&str>
    ensures { seen_text result ≡ field_name flaw (view value.now) }
{
    let fields = image_in(value)?.get("fields")?;
    first_flawed(fields.as_object()?, flaw)
}

// The name of the first member that an image does not have, or else a message.
fn unknown_member(value: &Value) -> Option<&str>
    ensures { seen_text result ≡ other_in (view value.now) }
{
    let image = image_in(value)?;
    other_name(value, image.as_object()?)
}

// The name of the first of an image's members that an image does not have, or else of a value's that a message does not have.
fn other_name<'v>(value: &'v Value, members: &'v Map<String, Value>) -> Option<&'v str>
    ensures { seen_text result ≡ other_of (view value.now) (members_view members.now.entries) }
{
    match first_flawed(members, Flaw::OfNoImage) {
        Some(name) => Some(name),
        None => first_flawed(value.as_object()?, Flaw::OfNoMessage),
    }
}

// The image of a value that is to be a message, or the value.
fn image_in(value: &Value) -> Option<&Value>
    ensures { seen result ≡ image_of (view value.now) }
{
    if is_message(value) {
        value.get("image")
    } else {
        Some(value)
    }
}

// The name of the first member with a flaw.
fn first_flawed(members: &Map<String, Value>, flaw: Flaw) -> Option<&str>
    ensures { seen_text result ≡ first_with flaw (members_view members.now.entries) }
{
    for (name, value) in members.iter() {
        if is_flawed(flaw, name.as_str(), value) {
            return Some(name.as_str());
        }
    }
    None
}

fn is_flawed(flaw: Flaw, name: &str, value: &Value) -> bool
    ensures { result ≡ has_flaw flaw name.now (view value.now) }
{
    match flaw {
        Flaw::Kind => value_of(value).is_none(),
        Flaw::Limit => match value_of(value) {
            Some(value) => !is_field(name, value),
            None => false,
        },
        Flaw::OfNoImage => !is_image_member(name),
        Flaw::OfNoMessage => name != "at" && name != "image",
    }
}

fn is_image_member(name: &str) -> bool
    ensures { result ≡ list_any (bytes_eq name.now) image_members }
{
    name == "deleted" || name == "fields" || name == "key" || name == "master" || name == "version"
}

/// What is printed of the line of a number, if no region takes it.
pub(crate) fn tell_line(
    alloc: Global,
    line: &[u8],
    number: u64,
) -> Result<Option<Vec<u8>>, NoMemory>
    ensures { IfOk result (λ text. option_map (λ text. text.items) text ≡ told number line.now) }
{
    match read_value(alloc, line) {
        Ok(value) => match fault_of_line(alloc, line, &value)? {
            Some(fault) => {
                let name = name_at_fault(&value, &fault);
                Ok(Some(tell(alloc, &fault, number, name)?))
            }
            None => Ok(None),
        },
        Err(ImageFault::Memory) => Err(NoMemory),
        Err(fault) => Ok(Some(tell(alloc, &fault, number, None)?)),
    }
}

// The fault of the line of a number, as `{"error":"bad-shape","line":3,"member":"fields","name":"price"}`.
fn tell(
    alloc: Global,
    fault: &ImageFault,
    number: u64,
    name: Option<&str>,
) -> Result<Vec<u8>, NoMemory>
    ensures { IfOk result (λ text. text.items ≡ line_of (told_data fault.now number (seen_text name.entry))) }
{
    let mut writer = begin_line(alloc)?;
    write_fault(&mut writer, fault, number, name)?;
    finish_line(writer)
}

#[tactic(auto, unfolding(crate::specs::Told::told_data))]
fn write_fault(
    writer: &mut Writer,
    fault: &ImageFault,
    number: u64,
    name: Option<&str>,
) -> Result<(), NoMemory>
    ensures { OnOk result (Appends writer.old writer.new (value_tokens (told_data fault.now number (seen_text name.entry)))) }
{
    writer.begin_object()?;
    write_text_member(writer, "error", fault.word())?;
    write_number_member(writer, "line", number)?;
    write_text_or_null(writer, "member", member_word(fault))?;
    write_text_or_null(writer, "name", name)?;
    writer.end_object()?;
    Ok(())
}

// A member that is a text, or null where there is none.
fn write_text_or_null(writer: &mut Writer, name: &str, text: Option<&str>) -> Result<(), NoMemory>
    ensures { OnOk result (Appends writer.old writer.new (member_tokens name.now (text_or_null (seen_text text.entry)))) }
{
    match text {
        Some(text) => write_text_member(writer, name, text),
        None => write_null_member(writer, name),
    }
}

// The member at fault, if one is.
fn member_word(fault: &ImageFault) -> Option<&'static str>
    ensures { seen_text result ≡ word_of_member fault.now }
{
    match fault {
        ImageFault::BadShape(member) | ImageFault::OutOfRange(member) => Some(member.word()),
        ImageFault::TooLong | ImageFault::NotJson | ImageFault::Memory => None,
    }
}
