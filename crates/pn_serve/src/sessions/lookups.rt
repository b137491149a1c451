//! Answers to the lookups of a session.

ghost use Rattle.std.specs.Prelude.{◌≡◌, ◌≤◌, ◌⊎◌};
ghost use Rattle.pn_live.specs.Prelude.{tablets_of};
ghost use Rattle.pn_protocol.specs.Prelude.{command_value, copy as copy_asked, kind_at};
ghost use Rattle.pn_protocol.specs.declared.refusal.Refusal.TheVariants.{Memory as no_memory};
ghost use Rattle.pn_protocol.specs.declared.reply.Reply.TheVariants.{Refused};
ghost use Rattle.pn_scan.specs.Prelude.{Stays};
ghost use Rattle.pn_serve.specs.Session.Resuming.{AnswersWith, answer_left, LooksFor, LooksTo, most_left};
ghost use Rattle.pn_serve.specs.declared.machine.line_answers.LineOutcome.TheVariants.{Done};
ghost use Rattle.pn_serve.specs.Session.Lines.{AnswersLine, LooksUp, LooksUpKey, LooksUpKeys, LooksUpPage, LooksUpCopy};

use crate::machine::line_answers::LineOutcome;
use crate::sessions::pending_lookup::PendingLookup;
use pn_join::Marks;
use pn_live::LiveReader;
use pn_protocol::{
    Command, LineKind, MemberName, Refusal, Reply, answer_copy, answer_get, answer_read,
    answer_scan, kind_and_lookup_of, lookup_of,
};
use pn_record::{Key, Version};
use pn_scan::{Query, View};
use std::alloc::Global;

/// Answers a line by what the reader finds, or begins to look for it.
pub(super) fn answer_line(alloc: Global, reader: &mut LiveReader, line: &[u8]) -> LineOutcome
    ensures answers { AnswersWith (AnswersLine Stays) (LooksFor Stays) reader.old line.now reader.new result }
    ensures same { tablets_of reader.new ≡ tablets_of reader.old }
{
    match lookup_of(alloc, line) {
        Ok(command) => begin(alloc, reader, command),
        Err(refusal) => LineOutcome::Done(Reply::Refused(refusal)),
    }
}

/// Answers a line as `answer_line` does, and says of which kind it is.
pub(super) fn answer_with_kind(
    alloc: Global,
    reader: &mut LiveReader,
    line: &[u8],
) -> (LineKind, LineOutcome)
    ensures kind { (result.0 ≡ kind_at line.now) ⊎ (result.1 ≡ Done (Refused no_memory)) }
    ensures answers { AnswersWith (AnswersLine Stays) (LooksFor Stays) reader.old line.now reader.new result.1 }
    ensures same { tablets_of reader.new ≡ tablets_of reader.old }
    ensures bounded { answer_left result.1 ≤ most_left }
{
    let (kind, command) = kind_and_lookup_of(alloc, line);
    match command {
        Ok(command) => (kind, begin(alloc, reader, command)),
        Err(refusal) => (kind, LineOutcome::Done(Reply::Refused(refusal))),
    }
}

// Answers a command, or begins to look for the answer.
fn begin(alloc: Global, reader: &mut LiveReader, command: Command) -> LineOutcome
    ensures begins { LooksTo Stays reader.old (command_value command) reader.new result }
    ensures same { tablets_of reader.new ≡ tablets_of reader.old }
    ensures bounded { answer_left result ≤ most_left }
{
    match command {
        Command::Copy { need, tablet } => begin_copy(alloc, reader, &need, tablet),
        Command::Get(keys) => LineOutcome::Pending(PendingLookup::keys(alloc, keys)),
        Command::Scan(query) => LineOutcome::Pending(PendingLookup::page(alloc, reader, query)),
        Command::Adopt { .. }
        | Command::Deliver(_)
        | Command::Lose { .. }
        | Command::Marks
        | Command::Notices { .. }
        | Command::Read { .. }
        | Command::Relayout(_)
        | Command::Tablets => LineOutcome::Done(look_up(alloc, reader, command)),
    }
}

// Takes a copy, of which the lines are then counted.
fn begin_copy(alloc: Global, reader: &mut LiveReader, need: &Marks, tablet: u64) -> LineOutcome
    ensures begins { LooksTo Stays reader.old (copy_asked need.now tablet) reader.new result }
    ensures same { tablets_of reader.new ≡ tablets_of reader.old }
    ensures bounded { answer_left result ≤ most_left }
{
    if tablet >= reader.layout().count() as u64 {
        return LineOutcome::Done(Reply::Refused(Refusal::OutOfRange(MemberName::Tablet)));
    }
    match reader.copy(tablet as usize, need) {
        Ok(copy) => LineOutcome::Pending(PendingLookup::copy(copy)),
        fault => LineOutcome::Done(answer_copy(alloc, tablet as usize, fault)),
    }
}

/// Answers a command by what the reader finds.
pub(crate) fn look_up(alloc: Global, reader: &mut LiveReader, command: Command) -> Reply
    ensures looks_up { LooksUp Stays reader.old (command_value command) reader.new result }
    ensures same { tablets_of reader.new ≡ tablets_of reader.old }
{
    match command {
        Command::Copy { need, tablet } => copy_tablet(alloc, reader, &need, tablet),
        Command::Get(keys) => get(alloc, reader, keys),
        Command::Read { key, version } => read(alloc, reader, key, version),
        Command::Scan(query) => scan(alloc, reader, &query),
        Command::Adopt { .. }
        | Command::Deliver(_)
        | Command::Lose { .. }
        | Command::Marks
        | Command::Notices { .. }
        | Command::Relayout(_)
        | Command::Tablets => Reply::Refused(Refusal::ReadOnly),
    }
}

fn read(alloc: Global, reader: &mut LiveReader, key: Key, version: Option<Version>) -> Reply
    ensures looks_up { LooksUpKey reader.old key version reader.new result }
    ensures same { tablets_of reader.new ≡ tablets_of reader.old }
{
    let found = reader.read(&key, version);
    answer_read(alloc, key, found)
}

fn get(alloc: Global, reader: &mut LiveReader, keys: Vec<Key>) -> Reply
    ensures looks_up { LooksUpKeys Stays reader.old keys.items reader.new result }
    ensures same { tablets_of reader.new ≡ tablets_of reader.old }
{
    let found = reader.get(&keys);
    answer_get(alloc, keys, found)
}

fn scan(alloc: Global, reader: &mut LiveReader, query: &Query) -> Reply
    ensures looks_up { LooksUpPage Stays reader.old query.now reader.new result }
    ensures same { tablets_of reader.new ≡ tablets_of reader.old }
{
    answer_scan(alloc, reader.scan(query))
}

fn copy_tablet(alloc: Global, reader: &mut LiveReader, need: &Marks, tablet: u64) -> Reply
    ensures looks_up { LooksUpCopy Stays reader.old need.now tablet reader.new result }
    ensures same { tablets_of reader.new ≡ tablets_of reader.old }
{
    if tablet >= reader.layout().count() as u64 {
        return Reply::Refused(Refusal::OutOfRange(MemberName::Tablet));
    }
    answer_copy(alloc, tablet as usize, reader.copy(tablet as usize, need))
}
