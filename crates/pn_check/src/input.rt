//! Checks the lines of an input.

ghost use Rattle.std.specs.Prelude.{◌≡◌, ◌↔◌, [], IfOk, IfSome, IsErrOf, IsTrue, OnErr, OnOk};
ghost use Rattle.pn_check.specs.Checking.{HasChecked, HasNoEnd, conclusion};

use crate::checker::Checker;
use pn_line::{Sink, Source};
use pn_lines::{Counts, LineBuffers, LinesFault, answer_lines};
use std::alloc::Global;
use thiserror::Error;

/// The most lines of an input.
const MAX_LINES: u64 = u64::MAX;

/// Why an input was not checked to its end.
#[derive(Clone, Copy, Debug, PartialEq, Eq, Error)]
pub enum CheckFault {
    /// The input could not be read on.
    #[error("the input could not be read")]
    Read,
    /// The output took no more.
    #[error("the lines could not be told")]
    Write,
    /// A line did not end within 1,000,000,000 bytes.
    #[error("a line of the input has no end")]
    Endless,
    #[error("out of memory")]
    Memory,
}

/// Checks each line of an input as it comes: tells those that no region takes, in their order. Answers whether all are taken.
pub fn check<S: Source, W: Sink>(
    alloc: Global,
    input: &mut S,
    output: &mut W,
) -> Result<bool, CheckFault>
    ensures told { IfOk result (λ is_taken. IfSome (S.left input.old) (λ text. HasChecked text is_taken (W.contents output.old) (W.contents output.new))) }
    ensures read { IsErrOf result CheckFault.Read → S.may_fail }
    ensures write { IsErrOf result CheckFault.Write → W.may_fail }
    ensures endless { IsErrOf result CheckFault.Endless → IfSome (S.left input.old) HasNoEnd }
    ensures out { OnOk result (W.is_flushed output.new) }
{
    let mut buffers = match LineBuffers::new(alloc) {
        Ok(buffers) => buffers,
        Err(_) => return Err(CheckFault::Memory),
    };
    let mut checker = Checker::new();
    let ended = answer_lines(&mut checker, &mut buffers, MAX_LINES, input, output);
    conclude(ended, checker.is_spent())
}

// Whether no line was refused, or why not all lines were checked.
fn conclude(ended: Result<Counts, LinesFault>, is_spent: bool) -> Result<bool, CheckFault>
    ensures { result ≡ conclusion ended is_spent }
{
    match ended {
        Ok(_) if is_spent => Err(CheckFault::Memory),
        Ok(counts) => Ok(counts.refused == 0),
        Err(LinesFault::Read) => Err(CheckFault::Read),
        Err(LinesFault::Write) => Err(CheckFault::Write),
        Err(LinesFault::TooManyLines | LinesFault::EndlessLine) => Err(CheckFault::Endless),
        Err(LinesFault::Closed) => Err(CheckFault::Memory),
    }
}
