//! The commands that ask for records, and for what changed.

ghost use Rattle.std.specs.Prelude.{◌≡◌, IsOk, IsErrOf};
ghost use Rattle.serde_json.specs.View.{members_view};
ghost use Rattle.pn_json.specs.Prelude.{IsUnless, Shows, ShowsUnless, seen};
ghost use Rattle.pn_protocol.specs.Command.Lookups.{get_in, notices_in, read_in, scan_in, query_at, query_refusal, query_shape};
ghost use Rattle.pn_protocol.specs.Command.Meaning.{command_value};

use crate::command::build::build_keys;
use crate::command::members::{check_members_of, find_member, parse_keys, parse_number};
use crate::command::ranges::{check_key, check_keys, check_since, check_version};
use crate::command::shapes::version_numbers;
use crate::command::word::CommandWord;
use crate::{Command, MemberName, Refusal};
use pn_json::text_of;
use pn_record::Key;
use pn_scan::{Query, QueryFault, read_query};
use serde_json::{Map, Value};
use std::alloc::Global;

impl From<QueryFault> for Refusal {
    ghost from_gives = { λ fault refusal. refusal ≡ query_refusal fault };

    fn from(fault: QueryFault) -> Refusal {
        match fault {
            QueryFault::BadShape => Refusal::BadShape(MemberName::Query),
            QueryFault::OutOfRange => Refusal::OutOfRange(MemberName::Query),
            QueryFault::Memory => Refusal::Memory,
        }
    }
}

/// Reads the members of a `get`.
#[tactic(auto, using(crate::proofs::CommandLimits::are_keys), unfolding(crate::specs::Command::Lookups::get_in))]
pub(crate) fn parse_get(alloc: Global, members: &Map<String, Value>) -> Result<Command, Refusal>
    ensures { ShowsUnless Refusal.Memory command_value result (get_in (members_view members.now.entries)) }
{
    let keys = parse_keys(alloc, members, CommandWord::Get, "keys", MemberName::Keys)?;
    check_keys(&keys)?;
    Ok(Command::Get(build_keys(alloc, &keys)?))
}

/// Reads the members of a `notices`.
#[tactic(auto, unfolding(crate::specs::Command::Lookups::notices_in))]
pub(crate) fn parse_notices(members: &Map<String, Value>) -> Result<Command, Refusal>
    ensures exact { Shows command_value result (notices_in (members_view members.now.entries)) }
    ensures memory { IsErrOf result Refusal.Memory → ⊥ }
{
    let since = parse_number(members, CommandWord::Notices, "since", MemberName::Since)?;
    check_since(since)?;
    Ok(Command::Notices { since })
}

/// Reads the members of a `read`.
#[tactic(auto, unfolding(crate::specs::Command::Lookups::read_in))]
pub(crate) fn parse_read(alloc: Global, members: &Map<String, Value>) -> Result<Command, Refusal>
    ensures exact { ShowsUnless Refusal.Memory command_value result (read_in (members_view members.now.entries)) }
    ensures memory { IsErrOf result Refusal.Memory → IsOk (read_in (members_view members.now.entries)) }
{
    let text = text_of(
        find_member(members, "key"),
        Refusal::BadShape(MemberName::Key),
    )?;
    let numbers = version_numbers(find_member(members, "version"))?;
    check_members_of(members, CommandWord::Read)?;
    check_key(text, MemberName::Key)?;
    let version = check_version(numbers)?;
    let key = Key::of_fitting(alloc, text)?;
    Ok(Command::Read { key, version })
}

/// Reads the members of a `scan`.
#[tactic(auto, unfolding(crate::specs::Command::Lookups::scan_in))]
pub(crate) fn parse_scan(alloc: Global, members: &Map<String, Value>) -> Result<Command, Refusal>
    ensures exact { ShowsUnless Refusal.Memory command_value result (scan_in (members_view members.now.entries)) }
    ensures memory { IsErrOf result Refusal.Memory → IsOk (scan_in (members_view members.now.entries)) }
{
    let query = query_of(alloc, find_member(members, "query"));
    check_shape(&query)?;
    check_members_of(members, CommandWord::Scan)?;
    Ok(Command::Scan(query?))
}

// Reads a query. A missing one has the wrong shape.
fn query_of(alloc: Global, value: Option<&Value>) -> Result<Query, QueryFault>
    ensures exact { IsUnless QueryFault.Memory result (query_at (seen value.entry)) }
    ensures memory { IsErrOf result QueryFault.Memory → IsOk (query_at (seen value.entry)) }
{
    match value {
        Some(value) => read_query(alloc, value),
        None => Err(QueryFault::BadShape),
    }
}

// Checks the shape of the query alone.
fn check_shape(query: &Result<Query, QueryFault>) -> Result<(), Refusal>
    ensures exact { result ≡ query_shape query.now }
    ensures memory { IsErrOf result Refusal.Memory → ⊥ }
{
    match query {
        Err(QueryFault::BadShape) => Err(Refusal::BadShape(MemberName::Query)),
        _ => Ok(()),
    }
}
