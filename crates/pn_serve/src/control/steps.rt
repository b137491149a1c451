//! What the reader of a control session does with a line.

ghost use Rattle.std.specs.Prelude.{◌≡◌, Ok};
ghost use Rattle.pn_live.specs.Prelude.{tablets_of};
ghost use Rattle.pn_serve.specs.Control.Steps.{CountsTablets, stats_of as stats_shown, AdoptsText, Asks, ObeysControl, ObeysScript, task_of as task_for};
ghost use Rattle.pn_serve.specs.Control.Steps.{RepliesWith, Reports, ShowsCounts, StepsBy, StepsLast};
ghost use Rattle.pn_protocol.specs.Prelude.{command_value, control_at, control_value};
ghost use Rattle.pn_serve.specs.Machine.Outcomes.{bytes_of};

use crate::control::commands::{WriterAnswer, WriterCommand};
use crate::control::session::{ControlSession, StatsSource};
use crate::control::stop::StopSaid;
use crate::machine::adoption::read_text_by;
use crate::sessions::lookups::look_up;
use pn_live::LiveReader;
use pn_protocol::{
    Command, CommandFault, ControlCommand, Refusal, Reply, TabletStats, answer_text, control_of,
    notices_reply, refuse, stats_reply,
};
use pn_scan::{ScanFault, View};
use pn_tablet::RecordCounts;
use std::alloc::Global;
use std::sync::Wait;
use std::thread::Threads;
use std::time::Clock;

/// The counts of the tablets in their order, each found by one entry.
///
/// `NoEntry`: an entry is refused, which ends the call. `Memory` comes only before the first entry.
pub(super) fn count_tablets(
    alloc: Global,
    reader: &mut LiveReader,
) -> Result<Vec<TabletStats>, ScanFault>
    ensures counts { CountsTablets reader.old reader.new result }
    ensures same { tablets_of reader.new ≡ tablets_of reader.old }
{
    let count = reader.layout().count();
    let Ok(mut stats) = Vec::with_capacity(alloc, count) else {
        return Err(ScanFault::Memory);
    };
    for tablet in 0..count {
        let Some(counts) = reader.counts(tablet) else {
            return Err(ScanFault::NoEntry);
        };
        stats.push_reserved(stats_of(counts));
    }
    Ok(stats)
}

fn stats_of(counts: RecordCounts) -> TabletStats
    ensures { result ≡ stats_shown counts }
{
    TabletStats {
        records: counts.records as u64,
        deleted: counts.deleted as u64,
    }
}

/// What a line comes to.
#[derive(Drop)]
pub(crate) enum ControlStep {
    /// A reply.
    Replies(Reply),
    /// This many lines are to come.
    Announces(u64),
    /// The server is asked to end.
    Stops(StopSaid),
    /// Nothing: the writer takes no command any more.
    Ends,
}

/// Who does a command of scripts that a control session gives.
#[derive(Drop)]
enum ScriptTask {
    /// Nobody yet: this many lines are to come.
    Announces(u64),
    /// The writer.
    Asks(WriterCommand),
    /// The reader of the session, which refuses what sessions do not have.
    LooksUp,
}

// Who does a command.
fn task_of(command: &Command) -> ScriptTask
    ensures { result ≡ task_for (command_value command.now) }
{
    match command {
        Command::Adopt { lines } => ScriptTask::Announces(*lines),
        Command::Lose { tablet } => ScriptTask::Asks(WriterCommand::Lose { tablet: *tablet }),
        Command::Marks => ScriptTask::Asks(WriterCommand::Marks),
        Command::Tablets => ScriptTask::Asks(WriterCommand::Tablets),
        Command::Copy { .. }
        | Command::Deliver(_)
        | Command::Get(_)
        | Command::Notices { .. }
        | Command::Read { .. }
        | Command::Relayout(_)
        | Command::Scan(_) => ScriptTask::LooksUp,
    }
}

impl<C: StatsSource + Drop> ControlSession<C> {
    /// Reads a command and does it.
    pub(crate) fn step<R: Wait + Clock>(
        &self,
        rt: &R,
        alloc: Global,
        reader: &mut LiveReader,
        line: &[u8],
    ) -> ControlStep
        ensures { StepsBy reader.old line.now reader.new result }
    {
        match control_of(alloc, line) {
            Ok(command) => self.obey(rt, alloc, reader, line, command),
            Err(refusal) => ControlStep::Replies(Reply::Refused(refusal)),
        }
    }

    /// Reads the last command and does it. No line that it announces can come.
    pub(crate) fn last_step<R: Threads + Wait + Clock>(
        &self,
        rt: &R,
        alloc: Global,
        reader: &mut LiveReader,
        part: &[u8],
    ) -> ControlStep
        ensures { StepsLast reader.old part.now reader.new result }
    {
        match self.step(rt, alloc, reader, part) {
            ControlStep::Announces(_) => self.adopt(rt, alloc, Some(Vec::new(alloc))),
            step => step,
        }
    }

    /// Has the copy of a text adopted. None: memory ran out before.
    pub(crate) fn adopt<R: Threads + Wait>(
        &self,
        rt: &R,
        alloc: Global,
        text: Option<Vec<u8>>,
    ) -> ControlStep
        ensures { AdoptsText (bytes_of text) result }
    {
        let Some(text) = text else {
            return ControlStep::Replies(Reply::Refused(Refusal::Memory));
        };
        match read_text_by(rt, alloc, text, self.workers) {
            Ok(copy) => self.ask(rt, alloc, WriterCommand::Adopt(copy)),
            Err(fault) => ControlStep::Replies(refuse(alloc, CommandFault::CopyText(fault))),
        }
    }

    // Does the command that a line says.
    fn obey<R: Wait + Clock>(
        &self,
        rt: &R,
        alloc: Global,
        reader: &mut LiveReader,
        line: &[u8],
        command: ControlCommand,
    ) -> ControlStep
        requires { control_at line.now ≡ Ok (control_value command) }
        ensures { ObeysControl reader.old (control_value command) reader.new result }
    {
        match command {
            ControlCommand::Script(command) => self.obey_script(rt, alloc, reader, command),
            ControlCommand::Notices { since, wait } => {
                self.wait_past(rt, since, wait);
                self.ask(rt, alloc, WriterCommand::Notices { since })
            }
            ControlCommand::Advance => self.ask(rt, alloc, WriterCommand::Advance),
            ControlCommand::Stats => self.report(alloc, reader),
            ControlCommand::Stop { seconds } => ControlStep::Stops(StopSaid::by(line, seconds)),
        }
    }

    // Does a command of scripts, or has it done.
    fn obey_script<R: Wait>(
        &self,
        rt: &R,
        alloc: Global,
        reader: &mut LiveReader,
        command: Command,
    ) -> ControlStep
        ensures { ObeysScript reader.old (command_value command) reader.new result }
    {
        match task_of(&command) {
            ScriptTask::Announces(lines) => ControlStep::Announces(lines),
            ScriptTask::Asks(asked) => self.ask(rt, alloc, asked),
            ScriptTask::LooksUp => ControlStep::Replies(look_up(alloc, reader, command)),
        }
    }

    // What the writer answers, if it still takes commands.
    fn ask<R: Wait>(&self, rt: &R, alloc: Global, command: WriterCommand) -> ControlStep
        ensures { Asks command result }
    {
        match self.mailboxes.ask(rt, self.number, command) {
            Some(WriterAnswer::Reply(reply)) => ControlStep::Replies(reply),
            Some(WriterAnswer::Found(since)) => {
                ControlStep::Replies(answer_text(notices_reply(alloc, &since)))
            }
            None => ControlStep::Ends,
        }
    }

    // Shows what the server has done so far, and what its tablets have.
    fn report(&self, alloc: Global, reader: &mut LiveReader) -> ControlStep
        ensures { Reports reader.old reader.new result }
    {
        match count_tablets(alloc, reader) {
            Ok(tablets) => self.show_stats(alloc, tablets),
            Err(fault) => ControlStep::Replies(refuse(alloc, CommandFault::Lookup(fault))),
        }
    }

    fn show_stats(&self, alloc: Global, tablets: Vec<TabletStats>) -> ControlStep
        ensures { RepliesWith (ShowsCounts (Ok tablets)) result }
    {
        match self.stats.stats(alloc, tablets) {
            Ok(stats) => ControlStep::Replies(answer_text(stats_reply(alloc, &stats))),
            Err(_) => ControlStep::Replies(Reply::Refused(Refusal::Memory)),
        }
    }

    // Waits, a second at a time, for `seconds` at most while the last number of the log is `number` and the client is there.
    fn wait_past<R: Wait + Clock>(&self, rt: &R, number: u64, seconds: u64) {
        for _ in 0..seconds {
            let is_past = self.mailboxes.wait_past(rt, number, 1);
            if is_past || self.stats.has_client_gone() {
                return;
            }
        }
    }
}
