//! The commands that lose a tablet, copy it, adopt a copy, and change the layout.

ghost use Rattle.std.specs.Prelude.{◌≡◌, IsOk, IsErrOf};
ghost use Rattle.serde_json.specs.View.{view, members_view};
ghost use Rattle.pn_json.specs.Prelude.{IsUnless, Shows, ShowsUnless, seen};
ghost use Rattle.pn_protocol.specs.Command.Meaning.{command_value};
ghost use Rattle.pn_protocol.specs.Command.Tablets.{need_refusal, need_in, need_at, need_shape, adopt_in, copy_in, lose_in, relayout_in};

use crate::command::build::build_keys;
use crate::command::members::{check_members_of, find_member, parse_keys, parse_number};
use crate::command::ranges::{check_bounds, check_lines};
use crate::command::word::CommandWord;
use crate::{Command, MemberName, Refusal};
use pn_join::{Marks, Table};
use pn_json::whole_number_of;
use pn_record::{ImageFault, marks_of};
use serde_json::{Map, Value};
use std::alloc::Global;

/// Reads the members of an `adopt`.
#[tactic(auto, unfolding(crate::specs::Command::Tablets::adopt_in))]
pub(crate) fn parse_adopt(members: &Map<String, Value>) -> Result<Command, Refusal>
    ensures exact { Shows command_value result (adopt_in (members_view members.now.entries)) }
    ensures memory { IsErrOf result Refusal.Memory → ⊥ }
{
    let lines = parse_number(members, CommandWord::Adopt, "lines", MemberName::Lines)?;
    check_lines(lines)?;
    Ok(Command::Adopt { lines })
}

/// Reads the members of a `lose`.
#[tactic(auto, unfolding(crate::specs::Command::Tablets::lose_in))]
pub(crate) fn parse_lose(members: &Map<String, Value>) -> Result<Command, Refusal>
    ensures exact { Shows command_value result (lose_in (members_view members.now.entries)) }
    ensures memory { IsErrOf result Refusal.Memory → ⊥ }
{
    let tablet = parse_number(members, CommandWord::Lose, "tablet", MemberName::Tablet)?;
    Ok(Command::Lose { tablet })
}

/// Reads the members of a `relayout`.
#[tactic(auto, using(crate::proofs::CommandLimits::bounds_are_keys), unfolding(crate::specs::Command::Tablets::relayout_in))]
pub(crate) fn parse_relayout(
    alloc: Global,
    members: &Map<String, Value>,
) -> Result<Command, Refusal>
    ensures { ShowsUnless Refusal.Memory command_value result (relayout_in (members_view members.now.entries)) }
{
    let bounds = parse_keys(
        alloc,
        members,
        CommandWord::Relayout,
        "bounds",
        MemberName::Bounds,
    )?;
    check_bounds(&bounds)?;
    Ok(Command::Relayout(build_keys(alloc, &bounds)?))
}

/// Reads the members of a `copy`.
#[tactic(auto, unfolding(crate::specs::Command::Tablets::copy_in))]
pub(crate) fn parse_copy(alloc: Global, members: &Map<String, Value>) -> Result<Command, Refusal>
    ensures exact { ShowsUnless Refusal.Memory command_value result (copy_in (members_view members.now.entries)) }
    ensures memory { IsErrOf result Refusal.Memory → IsOk (copy_in (members_view members.now.entries)) }
{
    let need = need_of(alloc, find_member(members, "need"));
    check_need(&need)?;
    let tablet = find_member(members, "tablet");
    let tablet = whole_number_of(tablet, Refusal::BadShape(MemberName::Tablet))?;
    check_members_of(members, CommandWord::Copy)?;
    let need = need?;
    Ok(Command::Copy { need, tablet })
}

// The marks that the copy has to reach: none if the value is missing or null.
fn need_of(alloc: Global, value: Option<&Value>) -> Result<Marks, Refusal>
    ensures exact { IsUnless Refusal.Memory result (need_at (seen value.entry)) }
    ensures memory { IsErrOf result Refusal.Memory → IsOk (need_at (seen value.entry)) }
{
    match value {
        None => Ok(Table::new(alloc)),
        Some(value) => marks_needed(alloc, value),
    }
}

fn marks_needed(alloc: Global, value: &Value) -> Result<Marks, Refusal>
    ensures exact { IsUnless Refusal.Memory result (need_in (view value.now)) }
    ensures memory { IsErrOf result Refusal.Memory → IsOk (need_in (view value.now)) }
{
    if let Value::Null = value {
        return Ok(Table::new(alloc));
    }
    marks_of(alloc, value).map_err(need_fault)
}

// The refusal for a fault in `need`.
fn need_fault(fault: ImageFault) -> Refusal
    ensures { result ≡ need_refusal fault }
{
    match fault {
        ImageFault::TooLong => Refusal::TooLong,
        ImageFault::NotJson => Refusal::NotJson,
        ImageFault::Memory => Refusal::Memory,
        ImageFault::BadShape(_) => Refusal::BadShape(MemberName::Need),
        ImageFault::OutOfRange(_) => Refusal::OutOfRange(MemberName::Need),
    }
}

// Checks the shape of the marks alone.
fn check_need(need: &Result<Marks, Refusal>) -> Result<(), Refusal>
    ensures exact { result ≡ need_shape need.now }
    ensures memory { IsErrOf result Refusal.Memory → ⊥ }
{
    match need {
        Err(Refusal::BadShape(member_name)) => Err(Refusal::BadShape(*member_name)),
        _ => Ok(()),
    }
}
