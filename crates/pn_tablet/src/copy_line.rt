//! The lines of a copy's text, read one by one.

ghost use Rattle.std.specs.Prelude.{◌≡◌};
ghost use Rattle.serde_json.specs.View.{view};
ghost use Rattle.pn_json.specs.Prelude.{IsUnless, Shows, ShowsUnless, seen, member_as, seen_text};
ghost use Rattle.pn_record.specs.Prelude.{value_at};
ghost use Rattle.pn_tablet.specs.CopyTexts.{is_range};
ghost use Rattle.pn_tablet.specs.CopyReading.{end_of as end_spelled, or_as, if_fits, head_in, mark_in, end_in, record_in, head_at, line_at};

use crate::copy::Form;
use crate::{CopyTextFault, Range};
use pn_join::{LAST_POSITION, Name, StreamName};
use pn_json::{check_names, text_of, whole_number_of};
use pn_record::{Image, ImageFault, read_value, try_image_from};
use serde_json::Value;
use std::alloc::Global;

/// A line after the head.
#[derive(Debug, Drop)]
pub(crate) enum CopyLine {
    /// A stream, and the last position taken from it.
    Mark(StreamName, u64),
    /// One content of a record.
    Record(Image),
    /// The number of marks and images before it.
    End(u64),
}

/// The form and the range of the head that the line is, or the fault.
#[tactic(auto, unfolding(crate::specs::CopyReading::head_at))]
pub(crate) fn read_head(
    alloc: Global,
    line: &[u8],
    fault: CopyTextFault,
) -> Result<(Form, Range), CopyTextFault>
    ensures { IsUnless CopyTextFault.Memory result (head_at fault line.now) }
{
    let value = read_json(alloc, line, fault)?;
    head_of(alloc, &value, fault)
}

/// The line after the head that is read, or the fault.
#[tactic(auto, unfolding(crate::specs::CopyReading::line_at, crate::specs::CopyReading::line_in))]
pub(crate) fn read_line(
    alloc: Global,
    form: Form,
    line: &[u8],
    fault: CopyTextFault,
) -> Result<CopyLine, CopyTextFault>
    ensures { IsUnless CopyTextFault.Memory result (line_at form fault line.now) }
{
    let value = read_json(alloc, line, fault)?;
    if value.get("at").is_some() {
        mark_of(&value, fault)
    } else if value.get("end").is_some() {
        end_line_of(&value, fault)
    } else {
        record_of(alloc, form, value, fault)
    }
}

// The JSON value of a line, or the fault.
fn read_json(alloc: Global, line: &[u8], fault: CopyTextFault) -> Result<Value, CopyTextFault>
    ensures { ShowsUnless CopyTextFault.Memory view result (or_as fault (value_at line.now)) }
{
    match read_value(alloc, line) {
        Ok(value) => Ok(value),
        Err(ImageFault::Memory) => Err(CopyTextFault::Memory),
        Err(_) => Err(fault),
    }
}

#[tactic(auto, unfolding(crate::specs::CopyReading::head_in))]
fn head_of(
    alloc: Global,
    value: &Value,
    fault: CopyTextFault,
) -> Result<(Form, Range), CopyTextFault>
    ensures { IsUnless CopyTextFault.Memory result (head_in fault (view value.now)) }
{
    let members = value.as_object().ok_or(fault)?;
    let number = whole_number_of(value.get("copy"), fault)?;
    let from = end_of(value.get("from"), fault)?;
    let to = end_of(value.get("to"), fault)?;
    check_names(members, &["copy", "from", "to"], fault)?;
    let form = Form::of(number).ok_or(fault)?;
    let range = range_of(alloc, from, to, fault)?;
    Ok((form, range))
}

// An end of a range, borrowed from its value.
fn end_of(value: Option<&Value>, fault: CopyTextFault) -> Result<Option<&str>, CopyTextFault>
    ensures { Shows seen_text result (member_as end_spelled fault (seen value.entry)) }
{
    match value {
        None => Err(fault),
        Some(value) => match value {
            Value::Null => Ok(None),
            Value::String(text) => Ok(Some(text.as_str())),
            _ => Err(fault),
        },
    }
}

// The range of these ends, or the fault where a limit is broken.
fn range_of(
    alloc: Global,
    from: Option<&str>,
    to: Option<&str>,
    fault: CopyTextFault,
) -> Result<Range, CopyTextFault>
    ensures { IsUnless CopyTextFault.Memory result
        (if_fits (is_range (seen_text from.entry, seen_text to.entry)) fault (seen_text from.entry, seen_text to.entry)) }
{
    if !Range::is_end(from) || !Range::is_end(to) {
        return Err(fault);
    }
    let from = Range::end_of(alloc, from)?;
    let to = Range::end_of(alloc, to)?;
    Range::new(from, to).ok_or(fault)
}

#[tactic(auto, unfolding(crate::specs::CopyReading::mark_in))]
fn mark_of(value: &Value, fault: CopyTextFault) -> Result<CopyLine, CopyTextFault>
    ensures { result ≡ mark_in fault (view value.now) }
{
    let members = value.as_object().ok_or(fault)?;
    let position = whole_number_of(value.get("at"), fault)?;
    let name = text_of(value.get("stream"), fault)?;
    check_names(members, &["at", "stream"], fault)?;
    if !Name::fits(name.as_bytes()) || position < 1 || LAST_POSITION < position {
        return Err(fault);
    }
    Ok(CopyLine::Mark(Name::of(name.as_bytes()), position))
}

#[tactic(auto, unfolding(crate::specs::CopyReading::end_in))]
fn end_line_of(value: &Value, fault: CopyTextFault) -> Result<CopyLine, CopyTextFault>
    ensures { result ≡ end_in fault (view value.now) }
{
    let members = value.as_object().ok_or(fault)?;
    let count = whole_number_of(value.get("end"), fault)?;
    check_names(members, &["end"], fault)?;
    Ok(CopyLine::End(count))
}

#[tactic(auto, unfolding(crate::specs::CopyReading::record_in))]
fn record_of(
    alloc: Global,
    form: Form,
    value: Value,
    fault: CopyTextFault,
) -> Result<CopyLine, CopyTextFault>
    ensures { IsUnless CopyTextFault.Memory result (record_in form fault (view value)) }
{
    match try_image_from(alloc, value) {
        Ok(image) if form.may_hold(&image) => Ok(CopyLine::Record(image)),
        Ok(_) => Err(fault),
        Err(ImageFault::Memory) => Err(CopyTextFault::Memory),
        Err(_) => Err(fault),
    }
}
