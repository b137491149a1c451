//! The replies that show records, pages and notices.

ghost use Rattle.std.specs.Prelude.{◌≡◌, OnOk, map, IfOk};
ghost use Rattle.std.specs.Option.{option_copied};
ghost use Rattle.pn_json.specs.Prelude.{Appends, value_tokens, line_of};
ghost use Rattle.pn_protocol.specs.Reply.Records.{state_word as word_of_state, version_or_null, head_text, next_data, notices_data, missed_data, found_since};
ghost use Rattle.serde_json.specs.Data.{array};
ghost use Rattle.serde_json.specs.View.{items_of};
ghost use Rattle.serde_json.specs.Written.{compact_text};

use json::Writer;
use pn_join::NoMemory;
use pn_json::{begin_line, finish_line, write_number_member, write_text_member};
use pn_record::{CellState, Version, write_version};
use pn_region::{Notice, Since};
use pn_scan::{Query, write_query};
use std::alloc::Global;

/// A state's name in lower case.
pub(crate) fn state_word(state: CellState) -> &'static str
    ensures { result.now ≡ word_of_state state }
{
    match state {
        CellState::One => "one",
        CellState::Deleted => "deleted",
        CellState::Conflict => "conflict",
    }
}

/// Writes a version, or null.
pub(crate) fn write_version_or_null(
    writer: &mut Writer,
    version: Option<Version>,
) -> Result<(), NoMemory>
    ensures { OnOk result (Appends writer.old writer.new (value_tokens (version_or_null version))) }
{
    match version {
        Some(version) => write_version(writer, version),
        None => Ok(writer.null()?),
    }
}

/// What is shown as a value of JSON.
pub(crate) trait Shown {
    ghost use Rattle.std.specs.Prelude.{OnOk};
    ghost use Rattle.serde_json.specs.Data.{Data};
    ghost use Rattle.pn_json.specs.Prelude.{Appends, value_tokens};

    /// The value.
    ghost value: { Self → Data };

    /// Writes the value into a line.
    fn write(&self, writer: &mut Writer) -> Result<(), NoMemory>
        ensures { OnOk result (Appends writer.old writer.new (value_tokens (value self.now))) };
}

/// The line of what is shown.
pub(crate) fn shown_line<T: Shown>(alloc: Global, shown: &T) -> Result<Vec<u8>, NoMemory>
    ensures { IfOk result (λ text. text.items ≡ line_of (T.value shown.now)) }
{
    let mut writer = begin_line(alloc)?;
    shown.write(&mut writer)?;
    finish_line(writer)
}

/// Writes what is shown as an array, in its order.
pub(crate) fn write_array<T: Shown>(writer: &mut Writer, list: &[T]) -> Result<(), NoMemory>
    ensures { OnOk result (Appends writer.old writer.new (value_tokens (array (items_of (map T.value list.now))))) }
{
    writer.begin_array()?;
    for item in list {
        item.write(writer)?;
    }
    writer.end_array()?;
    Ok(())
}

/// What the reply to a scan is before its rows, `{"next":Q,"rows":[`.
pub(crate) fn page_head(alloc: Global, next: Option<&Query>) -> Result<Vec<u8>, NoMemory>
    ensures { IfOk result (λ head. head.items ≡ head_text (option_copied next.entry)) }
{
    let next = next_text(alloc, next)?;
    let mut head = Vec::from_slice(alloc, b"{\"next\":")?;
    head.extend_from_slice(&next)?;
    head.extend_from_slice(b",\"rows\":[")?;
    Ok(head)
}

// The query for the rest as JSON, or null.
fn next_text(alloc: Global, next: Option<&Query>) -> Result<Vec<u8>, NoMemory>
    ensures { IfOk result (λ text. text.items ≡ compact_text (next_data (option_copied next.entry))) }
{
    let mut writer = begin_line(alloc)?;
    write_next(&mut writer, next)?;
    Ok(writer.into_inner())
}

fn write_next(writer: &mut Writer, next: Option<&Query>) -> Result<(), NoMemory>
    ensures { OnOk result (Appends writer.old writer.new (value_tokens (next_data (option_copied next.entry)))) }
{
    match next {
        Some(query) => write_query(writer, query),
        None => Ok(writer.null()?),
    }
}

/// The changes after a number: `{"next":N,"notices":[..]}`, or `{"missed":true,"next":N}`.
pub fn notices_reply(alloc: Global, since: &Since) -> Result<Vec<u8>, NoMemory>
    ensures { IfOk result (λ text. text.items ≡ line_of (found_since since.now)) }
{
    shown_line(alloc, since)
}

impl Shown for Since {
    ghost use Rattle.pn_protocol.specs.Reply.Records.{found_since};

    ghost value = { λ since. found_since since };

    fn write(&self, writer: &mut Writer) -> Result<(), NoMemory> {
        match self {
            Since::Notices { next, list } => write_list(writer, *next, list),
            Since::Missed { next } => write_missed(writer, *next),
        }
    }
}

#[tactic(auto, unfolding(crate::specs::Reply::Records::notices_data))]
fn write_list(writer: &mut Writer, next: u64, list: &[Notice]) -> Result<(), NoMemory>
    ensures { OnOk result (Appends writer.old writer.new (value_tokens (notices_data next list.now))) }
{
    writer.begin_object()?;
    write_number_member(writer, "next", next)?;
    writer.key("notices")?;
    write_array(writer, list)?;
    writer.end_object()?;
    Ok(())
}

#[tactic(auto, unfolding(crate::specs::Reply::Records::missed_data))]
fn write_missed(writer: &mut Writer, next: u64) -> Result<(), NoMemory>
    ensures { OnOk result (Appends writer.old writer.new (value_tokens (missed_data next))) }
{
    writer.begin_object()?;
    writer.key("missed")?;
    writer.boolean(true)?;
    write_number_member(writer, "next", next)?;
    writer.end_object()?;
    Ok(())
}

impl Shown for Notice {
    ghost use Rattle.pn_protocol.specs.Reply.Records.{notice_data};

    ghost value = { λ notice. notice_data notice };

    #[tactic(auto, unfolding(crate::specs::Reply::Records::notice_data))]
    fn write(&self, writer: &mut Writer) -> Result<(), NoMemory> {
        writer.begin_object()?;
        writer.key("after")?;
        write_version(writer, self.change.after)?;
        writer.key("before")?;
        write_version_or_null(writer, self.change.before)?;
        write_text_member(writer, "key", self.change.key.as_str())?;
        write_number_member(writer, "number", self.number)?;
        writer.end_object()?;
        Ok(())
    }
}
