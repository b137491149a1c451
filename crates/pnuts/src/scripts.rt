//! What is read from standard input: scripts, and lines to check.

use crate::failures::fail;
use pn_check::{CheckFault, check};
use pn_serve::{RunFault, Settings, run_script};
use std::io;
use std::io::BufReader;
use std::process::ExitCode;
use std::thread::Threads;

/// How many bytes are read at a time.
const READ_SIZE: usize = 65_536;

/// Answers the script on standard input.
pub(crate) fn replay(
    rt: &(impl AllocGlobal + Input + Print + Eprint + Threads + Sync),
    settings: Settings,
) -> ExitCode {
    match answer_input(rt, settings) {
        Ok(()) => ExitCode::SUCCESS,
        Err(fault) => fail(rt, fault_word(fault)),
    }
}

fn answer_input(
    rt: &(impl AllocGlobal + Input + Print + Threads + Sync),
    settings: Settings,
) -> Result<(), RunFault> {
    let Ok(mut input) = BufReader::with_capacity(rt.alloc(), READ_SIZE, rt.reader()) else {
        return Err(RunFault::Memory);
    };
    let finished = run_script(rt, rt.alloc(), &mut input, &mut io::writer(rt), settings);
    finished.leave_memory()?;
    Ok(())
}

fn fault_word(fault: RunFault) -> &'static str {
    match fault {
        RunFault::Read => "read",
        RunFault::Write => "write",
        RunFault::TooManyTurns => "too-many-turns",
        RunFault::Memory => "memory",
    }
}

/// Tells the lines on standard input that no region takes. Then the status is that of a failure.
pub(crate) fn check_input(rt: &(impl AllocGlobal + Input + Print + Eprint)) -> ExitCode {
    match check_all(rt) {
        Ok(true) => ExitCode::SUCCESS,
        Ok(false) => ExitCode::FAILURE,
        Err(fault) => fail(rt, check_word(fault)),
    }
}

fn check_all(rt: &(impl AllocGlobal + Input + Print)) -> Result<bool, CheckFault> {
    let Ok(mut input) = BufReader::with_capacity(rt.alloc(), READ_SIZE, rt.reader()) else {
        return Err(CheckFault::Memory);
    };
    check(rt.alloc(), &mut input, &mut io::writer(rt))
}

fn check_word(fault: CheckFault) -> &'static str {
    match fault {
        CheckFault::Read => "read",
        CheckFault::Write => "write",
        CheckFault::Endless => "too-many-turns",
        CheckFault::Memory => "memory",
    }
}
