//! Scripts: each line is read and answered, and its reply is written.

ghost use Rattle.std.specs.Prelude.{◌≡◌, ◌≢◌, ◌+◌, ◌≤◌, IfOk, IfErr, OnOk, IsErrOf};
ghost use Rattle.pn_lines.specs.Driving.{start_at};
ghost use Rattle.pn_region.specs.Prelude.{new_region};
ghost use Rattle.pn_serve.specs.Lines.{HasRun, run_ended, Flushes, polls_of_input};
ghost use Rattle.pn_serve.specs.Machine.Outcomes.{new_machine};
ghost use Rattle.pn_serve.specs.Runs.{Ends, run_start};

use crate::Settings;
use crate::machine::script_handler::ScriptHandler;
use pn_line::{Sink, Source};
use pn_lines::{LineBuffers, LineHandler, LinesFault};
use pn_region::Region;
use std::alloc::Global;
use std::mem;
use std::thread::Threads;
use thiserror::Error;

/// The greatest number of lines that a script may have.
pub const MAX_LINES: u64 = 1_000_000;

/// How many lines were answered, and how many of the replies are refusals.
#[derive(Clone, Copy, Debug, PartialEq, Eq)]
pub struct Counts {
    pub lines: u64,
    pub refused: u64,
}

/// Why a script was not answered to its end.
#[derive(Clone, Copy, Debug, PartialEq, Eq, Error)]
pub enum RunFault {
    /// The reader failed. The replies to all whole lines were written.
    #[error("the input could not be read")]
    Read,
    /// The writer failed or took no byte. A prefix of the replies was written.
    #[error("the replies could not be written")]
    Write,
    /// A line after the first 1,000,000, or a line of 1,000,000,000 bytes without end. The replies to all lines
    /// before it were written.
    #[error("the input has too many lines, or a line without end")]
    TooManyTurns,
    /// Out of memory before the first line. Nothing was read or written.
    #[error("out of memory")]
    Memory,
}

/// A script that was answered as far as it could be. The memory of its region is freed with it.
#[derive(Drop)]
pub struct FinishedRun {
    /// How many lines were answered, or why not all were.
    pub ended: Result<Counts, RunFault>,
    region: Option<Region>,
}

impl FinishedRun {
    /// How it ended. For a process that ends afterwards: the region's memory goes with the process and is not freed.
    pub fn leave_memory(self) -> Result<Counts, RunFault>
        ensures { result ≡ self.ended }
    {
        let FinishedRun { ended, region } = self;
        mem::forget(region);
        ended
    }
}

/// Answers each line of a script with one reply, over a new region. Replies are written before it waits for more
/// input.
pub fn run<R: Threads + Sync, S: Source, W: Sink>(
    rt: &R,
    alloc: Global,
    input: &mut S,
    output: &mut W,
    settings: Settings,
) -> Result<Counts, RunFault>
    ensures ends { Ends (run_start settings (S.left input.old) (W.contents output.old)) (S.left input.new) (W.contents output.new) result }
    ensures read { IsErrOf result RunFault.Read → S.may_fail }
    ensures write { IsErrOf result RunFault.Write → W.may_fail }
    ensures few { IfOk result (λ counts. counts.lines ≤ MAX_LINES) }
    ensures out { Flushes result (W.is_flushed output.new) }
    ensures polls { S.polls input.new ≤ S.polls input.old + polls_of_input }
    ensures end { OnOk result S.may_end }
    ensures unread { IsErrOf result RunFault.Memory → S.polls input.new ≡ S.polls input.old }
{
    run_script(rt, alloc, input, output, settings).ended
}

/// Answers a script as [`run`] does, and leaves its region to the caller.
pub fn run_script<R: Threads + Sync, S: Source, W: Sink>(
    rt: &R,
    alloc: Global,
    input: &mut S,
    output: &mut W,
    settings: Settings,
) -> FinishedRun
    ensures ends { Ends (run_start settings (S.left input.old) (W.contents output.old)) (S.left input.new) (W.contents output.new) result.ended }
    ensures read { IsErrOf result.ended RunFault.Read → S.may_fail }
    ensures write { IsErrOf result.ended RunFault.Write → W.may_fail }
    ensures few { IfOk result.ended (λ counts. counts.lines ≤ MAX_LINES) }
    ensures out { Flushes result.ended (W.is_flushed output.new) }
    ensures polls { S.polls input.new ≤ S.polls input.old + polls_of_input }
    ensures end { OnOk result.ended S.may_end }
    ensures unread { IsErrOf result.ended RunFault.Memory → S.polls input.new ≡ S.polls input.old }
{
    let Ok((mut buffers, mut machine)) = start_script(rt, alloc, settings) else {
        return FinishedRun {
            ended: Err(RunFault::Memory),
            region: None,
        };
    };
    let ended = answer_lines(&mut machine, &mut buffers, input, output);
    let region = Some(machine.into_region());
    FinishedRun { ended, region }
}

// The buffers and the new region of a script.
fn start_script<'a, R: Threads + Sync>(
    rt: &'a R,
    alloc: Global,
    settings: Settings,
) -> Result<(LineBuffers, ScriptHandler<'a, R>), RunFault>
    ensures { IfOk result (λ begun. begun.1 ≡ new_machine (new_region settings.layout)) }
{
    match (
        LineBuffers::new(alloc),
        ScriptHandler::new(rt, alloc, settings),
    ) {
        (Ok(buffers), Ok(machine)) => Ok((buffers, machine)),
        _ => Err(RunFault::Memory),
    }
}

/// Answers all lines of an input, and its end, by a handler that is never closed.
pub(crate) fn answer_lines<M: LineHandler, S: Source, W: Sink>(
    machine: &mut M,
    buffers: &mut LineBuffers,
    input: &mut S,
    output: &mut W,
) -> Result<Counts, RunFault>
    requires { M.ready × ((state : M) → M.handling.closed state → ⊥) }
    ensures ends { HasRun M.handling (start_at machine.old (S.left input.old) (W.contents output.old))
        (S.left input.new) (W.contents output.new) machine.new result }
    ensures faults { (IsErrOf result RunFault.Read → S.may_fail) × (IsErrOf result RunFault.Write → W.may_fail) }
    ensures kept { M.keeps machine.old machine.new }
    ensures few { IfOk result (λ counts. counts.lines ≤ MAX_LINES) }
    ensures out { Flushes result (W.is_flushed output.new) }
    ensures polls { S.polls input.new ≤ S.polls input.old + polls_of_input }
    ensures end { OnOk result S.may_end }
    ensures begun { IfErr result (λ fault. fault ≢ RunFault.Memory) }
{
    end_run(pn_lines::answer_lines(machine, buffers, MAX_LINES, input, output))
}

// What a run ends with. Its handler is never closed.
fn end_run(ended: Result<pn_lines::Counts, LinesFault>) -> Result<Counts, RunFault>
    ensures { result ≡ run_ended ended }
{
    match ended {
        Ok(counts) => Ok(Counts {
            lines: counts.lines,
            refused: counts.refused,
        }),
        Err(LinesFault::Read) => Err(RunFault::Read),
        Err(LinesFault::Write) => Err(RunFault::Write),
        Err(LinesFault::TooManyLines | LinesFault::EndlessLine | LinesFault::Closed) => {
            Err(RunFault::TooManyTurns)
        }
    }
}
