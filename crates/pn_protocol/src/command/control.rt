//! Reads a line of a control session.

ghost use Rattle.std.specs.Prelude.{◌≡◌, ◌<◌, ℕ, List, false, Ok, length, IfOk, IsErrOf, IsTrue};
ghost use Rattle.serde_json.specs.View.{view, members_view};
ghost use Rattle.pn_json.specs.Prelude.{Shows, ShowsUnless, seen, texts};
ghost use Rattle.pn_record.specs.Prelude.{max_line_bytes};
ghost use Rattle.pn_protocol.specs.Command.Controls.{IsControlLine, ControlValue, control_at, control_in, control_members, control_value, control_word_in};
ghost use Rattle.pn_protocol.specs.Command.Controls.{control_word_of as word_named, adoption_in, alone_as, seconds_at, seconds_in, stop_in, waiting_in};
ghost use Rattle.pn_protocol.specs.Command.Lines.{is_too_long, TakesMemory};
ghost use Rattle.pn_protocol.specs.Command.Checks.{named_alone};

use crate::command::members::{check_members, find_member, parse_number};
use crate::command::parse::{AllowedCommands, parse_value};
use crate::command::ranges::{check_adopted, check_seconds, check_since};
use crate::command::word::CommandWord;
use crate::{Command, MemberName, Refusal};
use pn_json::whole_number_of;
use pn_record::read_value;
use serde_json::{Map, Value};
use std::alloc::Global;

/// For how many seconds a `stop` that says none waits for the rest.
const STOP_SECONDS: u64 = 10;

/// What a line of a control session asks for.
#[derive(Drop)]
pub enum ControlCommand {
    /// A command of scripts: `adopt`, `copy`, `get`, `lose`, `marks`, `read`, `scan` or `tablets`.
    Script(Command),
    /// Show what changed after the number `since`, and wait for it at most `wait` seconds.
    Notices { since: u64, wait: u64 },
    /// Take as marks what all tablets have taken.
    Advance,
    /// Show what the server has done so far.
    Stats,
    /// End the server after at most `seconds` seconds.
    Stop { seconds: u64 },
}

/// The word of a command that only control sessions have, or that they read in another way.
#[derive(Clone, Copy)]
pub(crate) enum ControlWord {
    Adopt,
    Advance,
    Notices,
    Stats,
    Stop,
}

impl ControlWord {
    fn read(text: &str) -> Option<ControlWord>
        ensures { result ≡ word_named text.now }
    {
        match text {
            "adopt" => Some(ControlWord::Adopt),
            "advance" => Some(ControlWord::Advance),
            "notices" => Some(ControlWord::Notices),
            "stats" => Some(ControlWord::Stats),
            "stop" => Some(ControlWord::Stop),
            _ => None,
        }
    }

    // The names of the members of its command.
    fn members(self) -> &'static [&'static str]
        ensures { texts result.now ≡ control_members self }
    {
        match self {
            ControlWord::Adopt => CommandWord::Adopt.row().members,
            ControlWord::Advance => &["do"],
            ControlWord::Notices => &["do", "since", "wait"],
            ControlWord::Stats => &["do"],
            ControlWord::Stop => &["do", "seconds"],
        }
    }
}

/// No line of a control session says two commands. A call does nothing.
pub fn a_control_line_is_one_command()
    ensures { (line : List ℕ) (one other : ControlValue) → IsControlLine line one → IsControlLine line other → one ≡ other }
{}

/// Reads a line of a control session as a command, or answers its first fault. `ReadOnly` names `deliver` and `relayout`,
/// whatever their other members are. `Memory` may replace any fault but `TooLong`.
pub fn control_of(alloc: Global, line: &[u8]) -> Result<ControlCommand, Refusal>
    ensures found { IfOk result (λ command. IsControlLine line.now (control_value command)) }
    ensures only { (command : ControlValue) → IsControlLine line.now command → ShowsUnless Refusal.Memory control_value result (Ok command) }

    // Exactly this fault.
    ensures exact { ShowsUnless Refusal.Memory control_value result (control_at line.now) }
    ensures too_long { IsTrue (is_too_long line.now) → IsErrOf result Refusal.TooLong }
    ensures memory { IsErrOf result Refusal.Memory → is_too_long line.now ≡ false }
{
    parse_line(alloc, line)
}

fn parse_line(alloc: Global, line: &[u8]) -> Result<ControlCommand, Refusal>
    ensures exact { ShowsUnless Refusal.Memory control_value result (control_at line.now) }
    ensures too_long { max_line_bytes < length line.now → IsErrOf result Refusal.TooLong }
{
    let value = read_value(alloc, line)?;
    parse_control(alloc, value)
}

// Reads a value as a command. Memory runs out only for a command of scripts.
#[tactic(auto, unfolding(crate::specs::Command::Controls::control_in))]
fn parse_control(alloc: Global, value: Value) -> Result<ControlCommand, Refusal>
    ensures exact { ShowsUnless Refusal.Memory control_value result (control_in (view value)) }
    ensures memory { IsErrOf result Refusal.Memory → TakesMemory AllowedCommands.Controls (view value) }
{
    let members = value
        .as_object()
        .ok_or(Refusal::BadShape(MemberName::Whole))?;
    match control_word(find_member(members, "do")) {
        Some(ControlWord::Adopt) => parse_adoption(members),
        Some(ControlWord::Advance) => parse_alone(
            members,
            ControlWord::Advance,
            ControlCommand::Advance,
        ),
        Some(ControlWord::Notices) => parse_waiting(members),
        Some(ControlWord::Stats) => parse_alone(members, ControlWord::Stats, ControlCommand::Stats),
        Some(ControlWord::Stop) => parse_stop(members),
        None => Ok(ControlCommand::Script(parse_value(alloc, value, AllowedCommands::Controls)?)),
    }
}

fn control_word(value: Option<&Value>) -> Option<ControlWord>
    ensures { result ≡ control_word_in (seen value.entry) }
{
    match value.and_then(Value::as_str) {
        Some(text) => ControlWord::read(text),
        None => None,
    }
}

// Checks that each member is one of this word's command.
fn check_control_members(members: &Map<String, Value>, word: ControlWord) -> Result<(), Refusal>
    ensures exact { result ≡ named_alone (control_members word) (members_view members.now.entries) }
    ensures memory { IsErrOf result Refusal.Memory → ⊥ }
{
    check_members(members, word.members())
}

// A command whose one member is its word.
#[tactic(auto, unfolding(crate::specs::Command::Controls::alone_as))]
fn parse_alone(
    members: &Map<String, Value>,
    word: ControlWord,
    command: ControlCommand,
) -> Result<ControlCommand, Refusal>
    ensures exact { Shows control_value result (alone_as word (control_value command) (members_view members.now.entries)) }
    ensures memory { IsErrOf result Refusal.Memory → ⊥ }
{
    check_control_members(members, word)?;
    Ok(command)
}

// An adoption, which may have more lines than one of a script.
#[tactic(auto, unfolding(crate::specs::Command::Controls::adoption_in))]
fn parse_adoption(members: &Map<String, Value>) -> Result<ControlCommand, Refusal>
    ensures exact { Shows control_value result (adoption_in (members_view members.now.entries)) }
    ensures memory { IsErrOf result Refusal.Memory → ⊥ }
{
    let lines = parse_number(members, CommandWord::Adopt, "lines", MemberName::Lines)?;
    check_adopted(lines)?;
    Ok(ControlCommand::Script(Command::Adopt { lines }))
}

#[tactic(auto, unfolding(crate::specs::Command::Controls::waiting_in))]
fn parse_waiting(members: &Map<String, Value>) -> Result<ControlCommand, Refusal>
    ensures exact { Shows control_value result (waiting_in (members_view members.now.entries)) }
    ensures memory { IsErrOf result Refusal.Memory → ⊥ }
{
    let since = whole_number_of(
        find_member(members, "since"),
        Refusal::BadShape(MemberName::Since),
    )?;
    let wait = seconds_of(find_member(members, "wait"), 0, MemberName::Wait)?;
    check_control_members(members, ControlWord::Notices)?;
    check_since(since)?;
    check_seconds(wait, MemberName::Wait)?;
    Ok(ControlCommand::Notices { since, wait })
}

#[tactic(auto, unfolding(crate::specs::Command::Controls::stop_in))]
fn parse_stop(members: &Map<String, Value>) -> Result<ControlCommand, Refusal>
    ensures exact { Shows control_value result (stop_in (members_view members.now.entries)) }
    ensures memory { IsErrOf result Refusal.Memory → ⊥ }
{
    let seconds = seconds_of(
        find_member(members, "seconds"),
        STOP_SECONDS,
        MemberName::Seconds,
    )?;
    check_control_members(members, ControlWord::Stop)?;
    check_seconds(seconds, MemberName::Seconds)?;
    Ok(ControlCommand::Stop { seconds })
}

// The seconds that a member says, or the usual ones where it is missing or null.
fn seconds_of(value: Option<&Value>, usual: u64, member_name: MemberName) -> Result<u64, Refusal>
    ensures exact { result ≡ seconds_at usual member_name (seen value.entry) }
    ensures memory { IsErrOf result Refusal.Memory → ⊥ }
{
    match value {
        None => Ok(usual),
        Some(value) => seconds_said(value, usual, member_name),
    }
}

fn seconds_said(value: &Value, usual: u64, member_name: MemberName) -> Result<u64, Refusal>
    ensures exact { result ≡ seconds_in usual member_name (view value.now) }
    ensures memory { IsErrOf result Refusal.Memory → ⊥ }
{
    match value {
        Value::Null => Ok(usual),
        _ => value.as_u64().ok_or(Refusal::BadShape(member_name)),
    }
}
