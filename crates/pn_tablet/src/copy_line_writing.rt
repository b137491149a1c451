//! The lines of a copy, appended to a text.

ghost use Rattle.std.specs.Prelude.{◌≡◌, ◌∷◌, [], ◌++◌, IfOk, OnOk, IsTrue, ◌≤◌, length};
ghost use Rattle.std.specs.Option.{option_copied};
ghost use Rattle.serde_json.specs.Data.{Data};
ghost use Rattle.pn_join.specs.Prelude.{is_position};
ghost use Rattle.pn_json.specs.Prelude.{Appends, value_tokens, AppendsText};
ghost use Rattle.pn_record.specs.Prelude.{is_image, image_data};
ghost use Rattle.pn_tablet.specs.CopyTexts.{head_data, mark_data, end_data, IsHead};
ghost use Rattle.pn_tablet.specs.Layouts.{is_end, are_ends, key_data};
ghost use Rattle.pn_tablet.specs.CopyWriting.{line_text, IsWritten, WritesValue, WritesLines};
ghost use Rattle.pn_tablet.specs.declared.copy_line.CopyLine.TheVariants.{Mark, Record, End};
ghost use Rattle.serde_json.specs.Written.{compact_text};
ghost use Rattle.pn_tablet.specs.declared.copy_line_writing.TheConstants.{MAX_COPY_LINE_BYTES};

use crate::copy::Form;
use crate::{Range, write_end_member};
use json::Writer;
use pn_join::{NoMemory, StreamName};
use pn_json::{append_number, append_string, append_text, write_number_member, write_text_member};
use pn_record::{Content, Key, Version, append_image, write_body, write_version};

/// Writes the line of a copy's head.
pub(crate) fn write_head(text: Vec<u8>, form: Form, range: &Range) -> Result<Vec<u8>, NoMemory>
    ensures written { IfOk result (λ new. new.items ≡ text.items ++ line_text (head_data (form, range.now))) }
    ensures line { OnOk result (IsWritten IsHead (head_data (form, range.now)) (form, range.now)) }
{
    let mut line = Writer::new(text);
    put_head(&mut line, form, range)?;
    end_line(line)
}

/// Writes the line of a mark.
pub(crate) fn write_mark(
    text: Vec<u8>,
    name: &StreamName,
    position: u64,
) -> Result<Vec<u8>, NoMemory>
    requires { IsTrue (is_position position) }
    ensures { IfOk result (λ new. WritesLines text.items new.items (Mark name.now position ∷ [])) }
{
    let mut line = Writer::new(text);
    put_mark(&mut line, name.as_str(), position)?;
    end_line(line)
}

/// Writes the line of an image.
pub(crate) fn write_image(
    text: Vec<u8>,
    key: &Key,
    version: Version,
    content: &Content,
) -> Result<Vec<u8>, NoMemory>
    ensures { IfOk result (λ new. WritesLines text.items new.items
        (Record (record { key = key.now; version = version; content = content.now }) ∷ [])) }
{
    let mut line = Writer::new(text);
    put_image(&mut line, key, version, content)?;
    end_line(line)
}

/// Writes the line of an end.
pub(crate) fn write_end(text: Vec<u8>, count: u64) -> Result<Vec<u8>, NoMemory>
    ensures { IfOk result (λ new. WritesLines text.items new.items (End count ∷ [])) }
{
    let mut line = Writer::new(text);
    put_end(&mut line, count)?;
    end_line(line)
}

// The text with the line of the value that was written, and its newline.
fn end_line(line: Writer) -> Result<Vec<u8>, NoMemory>
    ensures { IfOk result (λ text. (value : Data) → line.tokens ≡ value_tokens value → WritesValue line.before text.items value) }
{
    let mut text = line.into_inner();
    text.push(b'\n')?;
    Ok(text)
}

fn put_head(line: &mut Writer, form: Form, range: &Range) -> Result<(), NoMemory>
    ensures value { OnOk result (Appends line.old line.new (value_tokens (head_data (form, range.now)))) }
    ensures from { OnOk result (IsTrue (is_end range.now.0)) }
    ensures to { OnOk result (IsTrue (is_end range.now.1)) }
    ensures order { OnOk result (IsTrue (are_ends range.now)) }
{
    line.begin_object()?;
    write_number_member(line, "copy", form.number())?;
    write_end_member(line, "from", range.from())?;
    write_end_member(line, "to", range.to())?;
    line.end_object()?;
    Ok(())
}

fn put_mark(line: &mut Writer, name: &str, position: u64) -> Result<(), NoMemory>
    ensures { OnOk result (Appends line.old line.new (value_tokens (mark_data (name.now, position)))) }
{
    line.begin_object()?;
    write_number_member(line, "at", position)?;
    write_text_member(line, "stream", name)?;
    line.end_object()?;
    Ok(())
}

fn put_image(
    line: &mut Writer,
    key: &Key,
    version: Version,
    content: &Content,
) -> Result<(), NoMemory>
    ensures value { OnOk result (Appends line.old line.new
        (value_tokens (image_data (record { key = key.now; version = version; content = content.now })))) }
    ensures limits { OnOk result (IsTrue (is_image (record { key = key.now; version = version; content = content.now }))) }
{
    line.begin_object()?;
    write_body(line, &content.body)?;
    write_text_member(line, "key", key.as_str())?;
    write_text_member(line, "master", content.master.as_str())?;
    line.key("version")?;
    write_version(line, version)?;
    line.end_object()?;
    Ok(())
}

fn put_end(line: &mut Writer, count: u64) -> Result<(), NoMemory>
    ensures { OnOk result (Appends line.old line.new (value_tokens (end_data count))) }
{
    line.begin_object()?;
    write_number_member(line, "end", count)?;
    line.end_object()?;
    Ok(())
}

/// The most bytes of one line of a copy.
pub const MAX_COPY_LINE_BYTES: usize = 60_000;

/// Adds the line of a copy's head.
pub(crate) fn append_head(out: &mut Vec<u8>, form: Form, range: &Range)
    ensures added { AppendsText out.old out.new (line_text (head_data (form, range.now))) }
    ensures short { length (line_text (head_data (form, range.now))) ≤ MAX_COPY_LINE_BYTES }
{
    append_text(out, "{\"copy\":");
    append_number(out, form.number());
    append_text(out, ",\"from\":");
    append_key_or_null(out, range.from());
    append_text(out, ",\"to\":");
    append_key_or_null(out, range.to());
    append_text(out, "}");
    append_text(out, "\n");
}

/// Adds the line of a mark.
pub(crate) fn append_mark(out: &mut Vec<u8>, name: &StreamName, position: u64)
    ensures added { AppendsText out.old out.new (line_text (mark_data (name.now, position))) }
    ensures short { length (line_text (mark_data (name.now, position))) ≤ MAX_COPY_LINE_BYTES }
{
    append_text(out, "{\"at\":");
    append_number(out, position);
    append_text(out, ",\"stream\":");
    append_string(out, name.as_str());
    append_text(out, "}");
    append_text(out, "\n");
}

/// Adds the line of an image.
pub(crate) fn append_image_line(out: &mut Vec<u8>, key: &Key, version: Version, content: &Content)
    ensures added { AppendsText out.old out.new
        (line_text (image_data (record { key = key.now; version = version; content = content.now }))) }
    ensures short { length (line_text (image_data (record { key = key.now; version = version; content = content.now }))) ≤ MAX_COPY_LINE_BYTES }
{
    append_image(out, key, version, content);
    append_text(out, "\n");
}

/// Adds the line of an end.
pub(crate) fn append_end(out: &mut Vec<u8>, count: u64)
    ensures added { AppendsText out.old out.new (line_text (end_data count)) }
    ensures short { length (line_text (end_data count)) ≤ MAX_COPY_LINE_BYTES }
{
    append_text(out, "{\"end\":");
    append_number(out, count);
    append_text(out, "}");
    append_text(out, "\n");
}

// Adds the key of an end of a range, or null where there is none.
fn append_key_or_null(out: &mut Vec<u8>, key: Option<&Key>)
    ensures added { AppendsText out.old out.new (compact_text (key_data (option_copied key.entry))) }
    ensures limits { IsTrue (is_end (option_copied key.entry)) }
{
    match key {
        None => append_text(out, "null"),
        Some(key) => append_string(out, key.as_str()),
    }
}
