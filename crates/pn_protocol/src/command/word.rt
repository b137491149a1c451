//! The words of commands, and the kinds of the lines of sessions.

ghost use Rattle.std.specs.Prelude.{◌≡◌, ◌⊎◌, ◌<◌, false, length, IsErrOf};
ghost use Rattle.pn_json.specs.Prelude.{seen, member_as, texts, ShowsUnless};
ghost use Rattle.pn_protocol.specs.Command.Words.{kind_of, kind_at, kind_of_word, word_at as said_word, members_of, users_of, word_of as word_named, word_in};
ghost use Rattle.pn_protocol.specs.declared.refusal.MemberName.TheVariants.{Do};
ghost use Rattle.serde_json.specs.View.{view};
ghost use Rattle.pn_record.specs.Prelude.{max_line_bytes};
ghost use Rattle.pn_protocol.specs.Command.Lines.{is_too_long, lookup_at};
ghost use Rattle.pn_protocol.specs.Command.Meaning.{command_value};

use crate::command::members::find_member;
use crate::command::parse::{AllowedCommands, parse_value};
use crate::{Command, MemberName, Refusal};
use pn_record::read_value;
use serde_json::Value;
use std::alloc::Global;

/// The value of a command's `do`.
#[derive(Clone, Copy)]
pub(crate) enum CommandWord {
    Adopt,
    Copy,
    Deliver,
    Get,
    Lose,
    Marks,
    Notices,
    Read,
    Relayout,
    Scan,
    Tablets,
}

impl CommandWord {
    fn read(text: &str) -> Option<CommandWord>
        ensures { result ≡ word_named text.now }
    {
        match text {
            "adopt" => Some(CommandWord::Adopt),
            "copy" => Some(CommandWord::Copy),
            "deliver" => Some(CommandWord::Deliver),
            "get" => Some(CommandWord::Get),
            "lose" => Some(CommandWord::Lose),
            "marks" => Some(CommandWord::Marks),
            "notices" => Some(CommandWord::Notices),
            "read" => Some(CommandWord::Read),
            "relayout" => Some(CommandWord::Relayout),
            "scan" => Some(CommandWord::Scan),
            "tablets" => Some(CommandWord::Tablets),
            _ => None,
        }
    }
}

/// Who may say a command. Scripts may say all.
#[derive(Clone, Copy)]
pub(crate) enum CommandUsers {
    /// Nobody else.
    Scripts,
    /// Control sessions too.
    Controls,
    /// Control sessions and sessions too.
    Sessions,
}

/// What is the same of all lines that say a command.
#[derive(Clone, Copy)]
pub(crate) struct CommandRow {
    pub(crate) users: CommandUsers,
    /// As what sessions count it: by which kind of look its reply is found.
    pub(crate) kind: LineKind,
    /// The names of its members.
    pub(crate) members: &'static [&'static str],
}

impl CommandWord {
    /// The table of commands.
    pub(crate) fn row(self) -> CommandRow
        ensures users { result.users ≡ users_of self }
        ensures kind { result.kind ≡ kind_of self }
        ensures members { texts result.members.now ≡ members_of self }
    {
        match self {
            CommandWord::Adopt => row(CommandUsers::Controls, LineKind::Other, &["do", "lines"]),
            CommandWord::Copy => row(
                CommandUsers::Sessions,
                LineKind::Copy,
                &["do", "need", "tablet"],
            ),
            CommandWord::Deliver => row(CommandUsers::Scripts, LineKind::Other, &["batches", "do"]),
            CommandWord::Get => row(CommandUsers::Sessions, LineKind::Get, &["do", "keys"]),
            CommandWord::Lose => row(CommandUsers::Controls, LineKind::Other, &["do", "tablet"]),
            CommandWord::Marks => row(CommandUsers::Controls, LineKind::Other, &["do"]),
            CommandWord::Notices => row(CommandUsers::Controls, LineKind::Other, &["do", "since"]),
            CommandWord::Read => row(
                CommandUsers::Sessions,
                LineKind::Read,
                &["do", "key", "version"],
            ),
            CommandWord::Relayout => row(CommandUsers::Scripts, LineKind::Other, &["bounds", "do"]),
            CommandWord::Scan => row(CommandUsers::Sessions, LineKind::Scan, &["do", "query"]),
            CommandWord::Tablets => row(CommandUsers::Controls, LineKind::Other, &["do"]),
        }
    }
}

fn row(users: CommandUsers, kind: LineKind, members: &'static [&'static str]) -> CommandRow
    ensures users { result.users ≡ users }
    ensures kind { result.kind ≡ kind }
    ensures members { result.members.now ≡ members.now }
{
    CommandRow {
        users,
        kind,
        members,
    }
}

/// Reads the value of `do`.
pub(crate) fn word_of(value: Option<&Value>) -> Result<CommandWord, Refusal>
    ensures { result ≡ member_as word_in (Refusal.BadShape Do) (seen value.entry) }
{
    match value.and_then(Value::as_str) {
        Some(text) => CommandWord::read(text).ok_or(Refusal::BadShape(MemberName::Do)),
        None => Err(Refusal::BadShape(MemberName::Do)),
    }
}

/// What a line of a session asks for, also where it is refused.
#[derive(Clone, Copy, Debug, PartialEq, Eq)]
pub enum LineKind {
    Copy,
    Get,
    /// Another command, or none.
    Other,
    Read,
    Scan,
}

/// Reads a line of a session as `lookup_of` does, and says of which kind it is. Where memory runs out before it is read,
/// it is one of the others.
pub fn kind_and_lookup_of(alloc: Global, line: &[u8]) -> (LineKind, Result<Command, Refusal>)
    ensures kind { (result.0 ≡ kind_at line.now) ⊎ IsErrOf result.1 Refusal.Memory }
    ensures exact { ShowsUnless Refusal.Memory command_value result.1 (lookup_at line.now) }
    ensures memory { IsErrOf result.1 Refusal.Memory → is_too_long line.now ≡ false }
{
    parse_with_kind(alloc, line)
}

#[tactic(auto, unfolding(crate::specs::Command::Lines::allowed_at))]
fn parse_with_kind(alloc: Global, line: &[u8]) -> (LineKind, Result<Command, Refusal>)
    ensures kind { (result.0 ≡ kind_at line.now) ⊎ IsErrOf result.1 Refusal.Memory }
    ensures exact { ShowsUnless Refusal.Memory command_value result.1 (lookup_at line.now) }
    ensures too_long { max_line_bytes < length line.now → IsErrOf result.1 Refusal.TooLong }
{
    match read_value(alloc, line) {
        Ok(value) => {
            let kind = kind_of(command_word(&value));
            (kind, parse_value(alloc, value, AllowedCommands::Lookups))
        }
        Err(fault) => (LineKind::Other, Err(Refusal::from(fault))),
    }
}

// The word of the command that a value says, whatever its other members are.
fn command_word(value: &Value) -> Result<CommandWord, Refusal>
    ensures { result ≡ said_word (view value.now) }
{
    let members = value
        .as_object()
        .ok_or(Refusal::BadShape(MemberName::Whole))?;
    word_of(find_member(members, "do"))
}

fn kind_of(word: Result<CommandWord, Refusal>) -> LineKind
    ensures { result ≡ kind_of_word word }
{
    match word {
        Ok(word) => word.row().kind,
        Err(_) => LineKind::Other,
    }
}
