//! Marks as JSON: an object from stream names to positions.

ghost use Rattle.std.specs.Prelude.{◌≡◌, unwrap_or, string_cmp, IfOk, IfErr, IsOk, IsErrOf, OnOk, IsTrue, Ok};
ghost use Rattle.std.specs.List.{list_all};
ghost use Rattle.std.specs.BTreeMap.{IsOrdered};
ghost use Rattle.serde_json.specs.View.{view, members_view};
ghost use Rattle.pn_join.specs.Prelude.{Positions, are_positions, is_name};
ghost use Rattle.pn_json.specs.Prelude.{Appends, IsUnless, value_tokens, whole_number};
ghost use Rattle.pn_record.specs.Grammar.{IsOfValue};
ghost use Rattle.pn_record.specs.Marks.{IsMarks, is_mark as is_mark_of, all_whole, positions_of, positions_data, marks_data, marks_in};

use crate::{ImageFault, Member};
use json::Writer;
use pn_join::{Highest, LAST_POSITION, Marks, Name, NoMemory, Table};
use pn_json::write_number_member;
use serde_json::{Map, Value};
use std::alloc::Global;

/// The marks that a value spells: an object from names to positions of 1 to 10^15. Faults name the member
/// `at`. `Memory` comes only if the value is marks.
pub fn marks_of(alloc: Global, value: &Value) -> Result<Marks, ImageFault>
    ensures exact { IsUnless ImageFault.Memory result (marks_in (view value.now)) }
    ensures memory { IsErrOf result ImageFault.Memory → IsOk (marks_in (view value.now)) }
    ensures faults { IfErr result IsOfValue }

    // The marks are those whose JSON the value is.
    ensures found { IfOk result (λ marks. IsMarks (view value.now) marks) }
    ensures only { (marks : Positions) → IsMarks (view value.now) marks → IsUnless ImageFault.Memory result (Ok marks) }
{
    checked_marks(alloc, value)
}

#[tactic(auto, unfolding(crate::specs::Marks::marks_in))]
fn checked_marks(alloc: Global, value: &Value) -> Result<Marks, ImageFault>
    ensures exact { IsUnless ImageFault.Memory result (marks_in (view value.now)) }
    ensures memory { IsErrOf result ImageFault.Memory → IsOk (marks_in (view value.now)) }
    ensures faults { IfErr result IsOfValue }
{
    let Some(members) = value.as_object() else {
        return Err(ImageFault::BadShape(Member::At));
    };
    if !has_whole_numbers_alone(members) {
        return Err(ImageFault::BadShape(Member::At));
    }
    if !are_marks(members) {
        return Err(ImageFault::OutOfRange(Member::At));
    }
    Ok(marks_from(alloc, members)?)
}

fn has_whole_numbers_alone(members: &Map<String, Value>) -> bool
    ensures { result ≡ all_whole (members_view members.now.entries) }
{
    for (_, value) in members.iter() {
        if !value.is_u64() {
            return false;
        }
    }
    true
}

fn are_marks(members: &Map<String, Value>) -> bool
    ensures marks { result ≡ list_all is_mark_of (positions_of (members_view members.now.entries)) }
    ensures ordered { IsOrdered string_cmp members.now }
{
    for (name, value) in members.iter() {
        if !is_mark(name.as_str(), number_of(value)) {
            return false;
        }
    }
    true
}

fn is_mark(name: &str, position: u64) -> bool
    ensures { result ≡ is_mark_of (name.now, position) }
{
    Name::fits(name.as_bytes()) && 1 <= position && position <= LAST_POSITION
}

fn number_of(value: &Value) -> u64
    ensures { result ≡ unwrap_or (whole_number (view value.now)) 0 }
{
    value.as_u64().unwrap_or(0)
}

fn marks_from(alloc: Global, members: &Map<String, Value>) -> Result<Marks, NoMemory>
    requires marks { IsTrue (list_all is_mark_of (positions_of (members_view members.now.entries))) }
    requires ordered { IsOrdered string_cmp members.now }
    ensures { IfOk result (λ marks. marks ≡ positions_of (members_view members.now.entries)) }
{
    let mut marks = Table::new(alloc);
    for (name, value) in members.iter() {
        let name = Name::of(name.as_str().as_bytes());
        marks.join_entry(name, Highest(number_of(value)))?;
    }
    Ok(marks)
}

/// The marks as JSON: `{"east":5,"west":2}`. They are read back as the same marks if their positions are 1
/// to 10^15.
pub fn marks_value(alloc: Global, marks: &Marks) -> Result<Value, NoMemory>
    ensures value { IfOk result (λ value. view value ≡ marks_data marks.now) }
    ensures reads_back { IsTrue (are_positions marks.now) → IfOk result (λ value. marks_in (view value) ≡ Ok marks.now) }
{
    Ok(Value::Object(members_of(alloc, marks)?))
}

fn members_of(alloc: Global, marks: &Marks) -> Result<Map<String, Value>, NoMemory>
    ensures members { IfOk result (λ members. members_view members.entries ≡ positions_data marks.now) }
    ensures names { OnOk result (IsTrue (list_all (λ mark. is_name mark.0) marks.now)) }
{
    let mut members = Map::new(alloc);
    for (name, position) in marks.iter() {
        serde_json::put(&mut members, alloc, name.as_str(), Value::from(position.0))?;
    }
    Ok(members)
}

/// Writes marks into a line: `{"east":5,"west":2}`.
pub fn write_marks(writer: &mut Writer, marks: &Marks) -> Result<(), NoMemory>
    ensures { OnOk result (Appends writer.old writer.new (value_tokens (marks_data marks.now))) }
{
    writer.begin_object()?;
    for (name, position) in marks.iter() {
        write_number_member(writer, name.as_str(), position.0)?;
    }
    writer.end_object()?;
    Ok(())
}
