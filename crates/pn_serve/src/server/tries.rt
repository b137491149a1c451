//! Tries of a round, which waits for memory where it ran out.

ghost use Rattle.std.specs.Prelude.{◌≡◌, ◌≤◌, true, All, None, Ok, Err, IfOk, IfSome, OnOk, OnErr, MatchResult};
ghost use Rattle.pn_apply.specs.declared.reducing.TheConstants.{MAX_WORKERS};
ghost use Rattle.pn_live.specs.Prelude.{tablets_in};
ghost use Rattle.pn_serve.specs.Server.Rounds.{value_of, Continues, IsRoundRefused, IsRoundTaken, TakesInput, TriesRound, ends_try, RunsInput};
ghost use Rattle.pn_serve.specs.declared.server.mailboxes.AtFault.TheVariants.{Stop};

use crate::ServeFault;
use crate::server::mailboxes::AtFault;
use crate::server::rounds::RoundInput;
use pn_apply::{Open, Share};
use pn_join::StreamName;
use pn_live::{Front, LiveRegion};
use pn_region::{Round, RoundFault};
use std::alloc::Global;
use std::sync::Wait;
use std::thread::Threads;

/// Runs one round of an input, with the cells for which there is memory now. Gives it back where memory ran out, if that is
/// waited for.
pub(crate) fn run_input<R: Threads + Wait + Sync>(
    rt: &R,
    alloc: Global,
    live: &mut LiveRegion,
    workers: usize,
    at_fault: AtFault,
    input: RoundInput,
) -> Result<Option<RoundInput>, ServeFault>
    requires workers { (1 ≤ workers) × (workers ≤ MAX_WORKERS) }
    requires continues { All (Continues live.old.marks) input.deliveries.items }
    ensures runs { RunsInput at_fault (value_of input) live.old live.new result }
    ensures continues { IfOk result (λ back. IfSome back (λ input. All (Continues live.new.marks) input.deliveries.items)) }
    ensures same { tablets_in live.new ≡ tablets_in live.old }
{
    run_finished(rt, live, workers, at_fault, finish_cells(alloc, input))
}

// Makes the cells for which memory ran out, as far as there is memory now.
fn finish_cells(alloc: Global, input: RoundInput) -> RoundInput
    ensures { value_of result ≡ value_of input }
{
    let RoundInput {
        mut deliveries,
        fault,
    } = input;
    finish_shares(alloc, deliveries.as_mut_slice());
    RoundInput { deliveries, fault }
}

fn finish_shares(alloc: Global, shares: &mut [Share])
    ensures { shares.new ≡ shares.old }
{
    for index in 0..shares.len() {
        let _ = shares[index].finish(alloc);
    }
}

// Runs one round of an input, whose cells are made as far as there was memory.
fn run_finished<R: Threads + Wait + Sync>(
    rt: &R,
    live: &mut LiveRegion,
    workers: usize,
    at_fault: AtFault,
    input: RoundInput,
) -> Result<Option<RoundInput>, ServeFault>
    requires continues { All (Continues live.old.marks) input.deliveries.items }
    requires workers { (1 ≤ workers) × (workers ≤ MAX_WORKERS) }
    ensures same { tablets_in live.new ≡ tablets_in live.old }
    ensures continues { IfOk result (λ back. IfSome back (λ input. All (Continues live.new.marks) input.deliveries.items)) }
    ensures runs { RunsInput at_fault (value_of input) live.old live.new result }
{
    match at_fault {
        AtFault::Stop => {
            run_round(rt, live, workers, input)?;
            Ok(None)
        }
        AtFault::GoOn => {
            if try_round(rt, live, workers, &input.deliveries)? {
                Ok(None)
            } else {
                Ok(Some(input))
            }
        }
    }
}

// Tries one round of messages. False where memory ran out.
fn try_round<R: Threads + Wait + Sync>(
    rt: &R,
    live: &mut LiveRegion,
    workers: usize,
    deliveries: &[Share],
) -> Result<bool, ServeFault>
    requires workers { (1 ≤ workers) × (workers ≤ MAX_WORKERS) }
    requires continues { All (Continues live.old.marks) deliveries.now }
    ensures tries { TriesRound live.old deliveries.now live.new result }
    ensures same { tablets_in live.new ≡ tablets_in live.old }
{
    conclude_try(live.join_shares(rt, deliveries, workers, &Open))
}

// Whether a try was taken, or the fault, unless memory ran out.
fn conclude_try(round: Result<(Round, Front), RoundFault>) -> Result<bool, ServeFault>
    ensures { MatchResult round (λ _. result ≡ Ok true) (λ fault. result ≡ ends_try fault) }
{
    match round {
        Ok(_) => Ok(true),
        Err(RoundFault::Memory) => Ok(false),
        Err(RoundFault::Gap { .. }) => Err(ServeFault::Round),
        Err(RoundFault::TooManyStreams) => Err(ServeFault::Round),
    }
}

// Runs one round of an input, also if a stream has a fault, which stops all streams.
fn run_round<R: Threads + Wait + Sync>(
    rt: &R,
    live: &mut LiveRegion,
    workers: usize,
    input: RoundInput,
) -> Result<(), ServeFault>
    requires workers { (1 ≤ workers) × (workers ≤ MAX_WORKERS) }
    requires continues { All (Continues live.old.marks) input.deliveries.items }
    ensures takes { TakesInput Stop (value_of input) live.old live.new result }
    ensures same { tablets_in live.new ≡ tablets_in live.old }
{
    let RoundInput { deliveries, fault } = input;
    let round = apply_deliveries(rt, live, workers, &deliveries);
    conclude_round(fault, round)
}

// Runs one round of messages, at most 1,000 of each stream.
fn apply_deliveries<R: Threads + Wait + Sync>(
    rt: &R,
    live: &mut LiveRegion,
    workers: usize,
    deliveries: &[Share],
) -> Result<(Round, Front), RoundFault>
    requires workers { (1 ≤ workers) × (workers ≤ MAX_WORKERS) }
    requires continues { All (Continues live.old.marks) deliveries.now }
    ensures taken { OnOk result (IsRoundTaken live.old deliveries.now live.new) }
    ensures refused { OnErr result (IsRoundRefused Stop live.old deliveries.now live.new) }
    ensures same { tablets_in live.new ≡ tablets_in live.old }
{
    live.join_shares(rt, deliveries, workers, &Open)
}

// Answers how the round went, or the fault of a stream that stops all streams.
fn conclude_round(
    fault: Option<StreamName>,
    round: Result<(Round, Front), RoundFault>,
) -> Result<(), ServeFault>
    ensures stream { IfSome fault (λ name. result ≡ Err (ServeFault.Stream name)) }
    ensures round { fault ≡ None → MatchResult round (λ _. result ≡ Ok tt) (λ _. result ≡ Err ServeFault.Round) }
{
    match (fault, round) {
        (Some(name), _) => Err(ServeFault::Stream(name)),
        (None, Err(_)) => Err(ServeFault::Round),
        (None, Ok(_)) => Ok(()),
    }
}
