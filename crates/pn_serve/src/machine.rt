//! Runs the commands of lines, which are read, over a region.

ghost use Rattle.std.specs.Prelude.{◌≡◌, false, IsErrOf, ◌≤◌};
ghost use Rattle.pn_json.specs.Prelude.{ShowsUnless};
ghost use Rattle.pn_protocol.specs.Prelude.{command_at, is_too_long, command_value, deliver as asking};
ghost use Rattle.pn_apply.specs.declared.reducing.TheConstants.{MAX_WORKERS};
ghost use Rattle.pn_serve.specs.Machine.Outcomes.{IsAnswer, with_mode, machine_over};
ghost use Rattle.pn_serve.specs.Machine.Turns.{AnswersBy, ConcludesBy, Obeys, HandlesTo, LastsBy};

pub(crate) mod adoption;
pub(crate) mod line_answers;
pub(crate) mod lookups;
pub(crate) mod script_handler;
pub(crate) mod tablets;

use crate::machine::adoption::{AnnouncedText, adopt, take_last_part, take_line};
use crate::machine::lookups::{get, look_up_notices, read, scan};
use crate::machine::tablets::{copy_tablet, lose_tablet, relayout};
use pn_apply::Open;
use pn_protocol::{
    Command, CommandFault, Refusal, Reply, answer_text, marks_reply, refuse, tablets_reply,
};
use pn_region::Region;
use pn_stream::Delivery;
use std::alloc::Global;
use std::thread::Threads;

/// Reads lines as commands. By a reader that never runs out of memory it can be said that a loss does not either.
pub(crate) trait CommandReader {
    // What holds if memory can run out while a line is read.
    ghost may_run_out: { Type 0 };

    /// Reads a line, or answers its first fault.
    fn command_of(alloc: Global, line: &[u8]) -> Result<Command, Refusal>
        ensures exact { ShowsUnless Refusal.Memory command_value result (command_at line.now) }
        ensures short { IsErrOf result Refusal.Memory → is_too_long line.now ≡ false }
        ensures memory { IsErrOf result Refusal.Memory → may_run_out };
}

/// Reads JSON, which takes memory.
pub(crate) struct Json;

impl CommandReader for Json {
    ghost may_run_out = { Unit {0} };

    fn command_of(alloc: Global, line: &[u8]) -> Result<Command, Refusal> {
        pn_protocol::command_of(alloc, line)
    }
}

/// The reply to a line, and the lines that it announces.
pub(crate) type ScriptAnswer = (Reply, Option<AnnouncedText>);

/// Answers a line with its newline: a command, or an announced line. Only a round out of memory leaves some
/// tablets changed.
///
/// If `C` never runs out of memory, losses never do.
pub(crate) fn answer_line<R: Threads + Sync, C: CommandReader>(
    rt: &R,
    alloc: Global,
    region: &mut Region,
    workers: usize,
    announced: Option<AnnouncedText>,
    line: &[u8],
) -> ScriptAnswer
    requires workers { (1 ≤ workers) × (workers ≤ MAX_WORKERS) }
    ensures { AnswersBy C.may_run_out (with_mode announced region.old) line.now (with_mode result.1 region.new) result.0 }
{
    match announced {
        None => run_command::<R, C>(rt, alloc, region, workers, line),
        Some(announced) => take_line(rt, alloc, region, workers, announced, line),
    }
}

fn run_command<R: Threads + Sync, C: CommandReader>(
    rt: &R,
    alloc: Global,
    region: &mut Region,
    workers: usize,
    line: &[u8],
) -> ScriptAnswer
    requires workers { (1 ≤ workers) × (workers ≤ MAX_WORKERS) }
    ensures { AnswersBy C.may_run_out (machine_over region.old) line.now (with_mode result.1 region.new) result.0 }
{
    match C::command_of(alloc, line) {
        Ok(command) => announce(alloc, obey(rt, alloc, region, workers, command)),
        Err(refusal) => (Reply::Refused(refusal), None),
    }
}

// Waits for the lines that a command announces.
fn announce(alloc: Global, handled: CommandStep) -> ScriptAnswer
    ensures { IsAnswer handled result.0 result.1 }
{
    match handled {
        CommandStep::Obeyed(reply) => (reply, None),
        CommandStep::Announces(lines) => (Reply::Silent, Some(AnnouncedText::new(alloc, lines))),
    }
}

/// Answers the end of the input, after a part of a line without newline: a command, an announced part, or nothing.
pub(crate) fn answer_end<R: Threads + Sync, C: CommandReader>(
    rt: &R,
    alloc: Global,
    region: &mut Region,
    workers: usize,
    announced: Option<AnnouncedText>,
    part: &[u8],
) -> Reply
    requires workers { (1 ≤ workers) × (workers ≤ MAX_WORKERS) }
    ensures { ConcludesBy C.may_run_out (with_mode announced region.old) part.now (machine_over region.new) result }
{
    match announced {
        Some(announced) => take_last_part(rt, alloc, region, workers, announced, part),
        None if part.is_empty() => Reply::Silent,
        None => run_last_command::<R, C>(rt, alloc, region, workers, part),
    }
}

// Answers a last line without newline. No line that it announces can come.
fn run_last_command<R: Threads + Sync, C: CommandReader>(
    rt: &R,
    alloc: Global,
    region: &mut Region,
    workers: usize,
    line: &[u8],
) -> Reply
    requires workers { (1 ≤ workers) × (workers ≤ MAX_WORKERS) }
    ensures { LastsBy C.may_run_out region.old line.now region.new result }
{
    match C::command_of(alloc, line) {
        Ok(command) => match obey(rt, alloc, region, workers, command) {
            CommandStep::Obeyed(reply) => reply,
            CommandStep::Announces(_) => adopt(rt, alloc, region, workers, Some(Vec::new(alloc))),
        },
        Err(refusal) => Reply::Refused(refusal),
    }
}

// The first step of a command.
#[derive(Drop)]
enum CommandStep {
    /// It was run, with this reply.
    Obeyed(Reply),
    /// It announces this many lines, which are to come.
    Announces(u64),
}

fn obey<R: Threads + Sync>(
    rt: &R,
    alloc: Global,
    region: &mut Region,
    workers: usize,
    command: Command,
) -> CommandStep
    requires workers { (1 ≤ workers) × (workers ≤ MAX_WORKERS) }
    ensures { HandlesTo region.old (command_value command) region.new result }
{
    match command {
        Command::Adopt { lines } => CommandStep::Announces(lines),
        Command::Copy { need, tablet } => CommandStep::Obeyed(copy_tablet(
            alloc, region, &need, tablet,
        )),
        Command::Deliver(deliveries) => CommandStep::Obeyed(deliver(
            rt, alloc, region, workers, deliveries,
        )),
        Command::Get(keys) => CommandStep::Obeyed(get(alloc, region, keys)),
        Command::Lose { tablet } => CommandStep::Obeyed(lose_tablet(region, tablet)),
        Command::Marks => CommandStep::Obeyed(answer_text(marks_reply(alloc, region.marks()))),
        Command::Notices { since } => CommandStep::Obeyed(look_up_notices(alloc, region, since)),
        Command::Read { key, version } => CommandStep::Obeyed(read(alloc, region, key, version)),
        Command::Relayout(bounds) => CommandStep::Obeyed(relayout(alloc, region, bounds)),
        Command::Scan(query) => CommandStep::Obeyed(scan(alloc, region, &query)),
        Command::Tablets => CommandStep::Obeyed(answer_text(tablets_reply(alloc, region))),
    }
}

// Runs one round of the deliveries.
fn deliver<R: Threads + Sync>(
    rt: &R,
    alloc: Global,
    region: &mut Region,
    workers: usize,
    deliveries: Vec<Delivery>,
) -> Reply
    requires workers { (1 ≤ workers) × (workers ≤ MAX_WORKERS) }
    ensures { Obeys (machine_over region.old) (asking deliveries.items) (machine_over region.new) result }
{
    match region.round(rt, deliveries, workers, &Open) {
        Ok(round) => Reply::Changed(round.changed),
        Err(fault) => refuse(alloc, CommandFault::Round(fault)),
    }
}
