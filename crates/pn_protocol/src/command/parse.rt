//! Reads a line as a command.

ghost use Rattle.std.specs.Prelude.{◌≡◌, ◌<◌, ℕ, List, false, Ok, length, IfOk, IsErrOf, IsTrue};
ghost use Rattle.serde_json.specs.View.{view, members_view};
ghost use Rattle.pn_json.specs.Prelude.{Shows, ShowsUnless};
ghost use Rattle.pn_record.specs.Prelude.{max_line_bytes};
ghost use Rattle.pn_protocol.specs.Command.Lines.{deliver_at, deliver_in, refusal_of, allowed_at, command_at, lookup_at, is_too_long, alone_in, allowed_in};
ghost use Rattle.pn_protocol.specs.Command.Lines.{allowed_word, may_say as may_be_said, TakesMemory};
ghost use Rattle.pn_protocol.specs.Command.Grammar.{IsCommandLine};
ghost use Rattle.pn_protocol.specs.Command.Meaning.{CommandValue, deliver, command_value};

use crate::command::build::{build_deliveries, items_at};
use crate::command::lookups::{parse_get, parse_notices, parse_read, parse_scan};
use crate::command::members::{check_members_of, find_member};
use crate::command::ranges::check_batches;
use crate::command::shapes::{BatchShape, batches_of};
use crate::command::tablets::{parse_adopt, parse_copy, parse_lose, parse_relayout};
use crate::command::word::{CommandUsers, CommandWord, word_of};
use crate::{Command, MemberName, Refusal};
use pn_json::{items_of, member_from};
use pn_record::{ImageFault, read_value};
use serde_json::{Map, Value};
use std::alloc::Global;

impl From<ImageFault> for Refusal {
    ghost from_gives = { λ fault refusal. refusal ≡ refusal_of fault };

    fn from(fault: ImageFault) -> Refusal {
        match fault {
            ImageFault::TooLong => Refusal::TooLong,
            ImageFault::NotJson => Refusal::NotJson,
            ImageFault::Memory => Refusal::Memory,
            ImageFault::BadShape(member) => Refusal::BadShape(MemberName::Image(member)),
            ImageFault::OutOfRange(member) => Refusal::OutOfRange(MemberName::Image(member)),
        }
    }
}

/// No line says two commands. A call does nothing.
pub fn a_line_is_one_command()
    ensures { (line : List ℕ) (one other : CommandValue) → IsCommandLine line one → IsCommandLine line other → one ≡ other }
{}

/// Reads a line as a command, or answers its first fault in the order of [`Refusal`]. `Memory` may replace any fault
/// but `TooLong`.
pub fn command_of(alloc: Global, line: &[u8]) -> Result<Command, Refusal>
    ensures found { IfOk result (λ command. IsCommandLine line.now (command_value command)) }
    ensures only { (command : CommandValue) → IsCommandLine line.now command → ShowsUnless Refusal.Memory command_value result (Ok command) }

    // Exactly this fault.
    ensures exact { ShowsUnless Refusal.Memory command_value result (command_at line.now) }
    ensures too_long { IsTrue (is_too_long line.now) → IsErrOf result Refusal.TooLong }
    ensures memory { IsErrOf result Refusal.Memory → is_too_long line.now ≡ false }
{
    parse_allowed(alloc, line, AllowedCommands::All)
}

/// Reads a line of a session as a lookup, or answers its first fault. `ReadOnly` names another command, whatever its
/// other members are.
pub fn lookup_of(alloc: Global, line: &[u8]) -> Result<Command, Refusal>
    ensures exact { ShowsUnless Refusal.Memory command_value result (lookup_at line.now) }
    ensures memory { IsErrOf result Refusal.Memory → is_too_long line.now ≡ false }
{
    parse_allowed(alloc, line, AllowedCommands::Lookups)
}

/// The commands that a line may say.
#[derive(Clone, Copy)]
pub(crate) enum AllowedCommands {
    All,
    /// `copy`, `get`, `read` and `scan`.
    Lookups,
    /// All but `deliver` and `relayout`.
    Controls,
}

#[tactic(auto, unfolding(crate::specs::Command::Lines::allowed_at))]
fn parse_allowed(alloc: Global, line: &[u8], allowed: AllowedCommands) -> Result<Command, Refusal>
    ensures exact { ShowsUnless Refusal.Memory command_value result (allowed_at allowed line.now) }
    ensures too_long { max_line_bytes < length line.now → IsErrOf result Refusal.TooLong }
{
    let value = read_value(alloc, line)?;
    parse_value(alloc, value, allowed)
}

/// Reads a value as a command. Memory runs out only for a command, or while batches, keys or bounds are collected.
#[tactic(auto, unfolding(crate::specs::Command::Lines::allowed_in, crate::specs::Command::Lines::deliver_at))]
pub(crate) fn parse_value(
    alloc: Global,
    value: Value,
    allowed: AllowedCommands,
) -> Result<Command, Refusal>
    ensures exact { ShowsUnless Refusal.Memory command_value result (allowed_in allowed (view value)) }
    ensures memory { IsErrOf result Refusal.Memory → TakesMemory allowed (view value) }
{
    let members = value
        .as_object()
        .ok_or(Refusal::BadShape(MemberName::Whole))?;
    let word = word_of(find_member(members, "do"))?;
    check_allowed(allowed, word)?;
    match word {
        CommandWord::Adopt => parse_adopt(members),
        CommandWord::Copy => parse_copy(alloc, members),
        CommandWord::Deliver => parse_deliver(alloc, value),
        CommandWord::Get => parse_get(alloc, members),
        CommandWord::Lose => parse_lose(members),
        CommandWord::Marks => parse_alone(members, CommandWord::Marks, Command::Marks),
        CommandWord::Notices => parse_notices(members),
        CommandWord::Read => parse_read(alloc, members),
        CommandWord::Relayout => parse_relayout(alloc, members),
        CommandWord::Scan => parse_scan(alloc, members),
        CommandWord::Tablets => parse_alone(members, CommandWord::Tablets, Command::Tablets),
    }
}

fn check_allowed(allowed: AllowedCommands, word: CommandWord) -> Result<(), Refusal>
    ensures exact { result ≡ allowed_word allowed word }
    ensures memory { IsErrOf result Refusal.Memory → ⊥ }
{
    if may_say(allowed, word.row().users) {
        Ok(())
    } else {
        Err(Refusal::ReadOnly)
    }
}

fn may_say(allowed: AllowedCommands, users: CommandUsers) -> bool
    ensures { result ≡ may_be_said allowed users }
{
    match users {
        CommandUsers::Scripts => matches!(allowed, AllowedCommands::All),
        CommandUsers::Controls => !matches!(allowed, AllowedCommands::Lookups),
        CommandUsers::Sessions => true,
    }
}

// Checks all before it moves anything out of the value.
#[tactic(auto, unfolding(crate::specs::Command::Lines::deliver_at))]
fn parse_deliver(alloc: Global, value: Value) -> Result<Command, Refusal>
    ensures { ShowsUnless Refusal.Memory command_value result (deliver_at (view value)) }
{
    drop(check_deliver(alloc, &value)?);
    let batches = items_at(alloc, member_from(value, "batches"));
    Ok(Command::Deliver(build_deliveries(alloc, batches)?))
}

// The batches of a `deliver` command, borrowed from its value.
#[tactic(auto, unfolding(crate::specs::Command::Lines::deliver_in, crate::specs::Command::Lines::deliver_at))]
fn check_deliver(alloc: Global, value: &Value) -> Result<Vec<BatchShape<'_>>, Refusal>
    ensures { ShowsUnless Refusal.Memory (λ batches. deliver batches.items) result (deliver_at (view value.now)) }
{
    let members = value
        .as_object()
        .ok_or(Refusal::BadShape(MemberName::Whole))?;
    let items = items_of(
        find_member(members, "batches"),
        Refusal::BadShape(MemberName::Batches),
    )?;
    let shapes = batches_of(alloc, items)?;
    check_members_of(members, CommandWord::Deliver)?;
    check_batches(&shapes)?;
    Ok(shapes)
}

// A command whose one member is its word.
#[tactic(auto, unfolding(crate::specs::Command::Lines::alone_in))]
fn parse_alone(
    members: &Map<String, Value>,
    word: CommandWord,
    command: Command,
) -> Result<Command, Refusal>
    ensures exact { Shows command_value result (alone_in word (command_value command) (members_view members.now.entries)) }
    ensures memory { IsErrOf result Refusal.Memory → ⊥ }
{
    check_members_of(members, word)?;
    Ok(command)
}
