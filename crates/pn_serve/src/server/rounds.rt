//! Rounds of the messages that streams report.

ghost use Rattle.std.specs.Prelude.{◌≡◌, ◌+◌, ◌<◌, ◌≤◌, [], length, map, vec_len, vec_capacity, All, true, None, IfOk, IfErr, IfSome};
ghost use Rattle.pn_apply.specs.declared.reducing.TheConstants.{MAX_WORKERS};
ghost use Rattle.pn_live.specs.Prelude.{tablets_in};
ghost use Rattle.pn_region.specs.Rounds.{leaves_gap};
ghost use Rattle.pn_serve.specs.Server.Messages.{FitRound};
ghost use Rattle.pn_serve.specs.Server.Rounds.{IsInputOf, first_fault, goes_on, no_input, value_of, with_report, CanBeTaken, Continues, IsNextInput};
ghost use Rattle.pn_serve.specs.Server.Rounds.{TakesRound, waiting_value};
ghost use Rattle.pn_serve.specs.Server.Publishers.{IsSent};
ghost use Rattle.pn_serve.specs.declared.server.mailboxes.AtFault.TheVariants.{Stop, GoOn};

use crate::ServeFault;
use crate::server::mailboxes::{AtFault, StreamMailbox, StreamMailboxes};
use crate::server::messages::RoundShare;
use crate::server::publishers::Sending;
use crate::server::reports::Report;
use crate::server::tries::run_input;
use pn_apply::{Batch, Share};
use pn_join::{Marks, StreamName};
use pn_live::LiveRegion;
use std::alloc::{AllocError, Global};
use std::mem;
use std::sync::Wait;
use std::thread::Threads;

/// What the mailboxes gave for one round.
#[derive(Drop)]
pub(crate) struct RoundInput {
    /// The messages of the streams that have some.
    pub(crate) deliveries: Vec<Share>,
    /// The first stream with a fault.
    pub(crate) fault: Option<StreamName>,
}

/// Runs one round of the input that waits, or else of what the mailboxes give, and counts it. False where memory ran out, if
/// that is waited for: then the input waits, if there is one.
pub(crate) fn take_round<R: Threads + Wait + Sync, M: Sending>(
    rt: &R,
    alloc: Global,
    live: &mut LiveRegion,
    workers: usize,
    mailboxes: &mut StreamMailboxes<M>,
    waiting: &mut Option<RoundInput>,
) -> Result<bool, ServeFault>
    requires workers { (1 ≤ workers) × (workers ≤ MAX_WORKERS) }
    requires continues { IfSome waiting.old (λ input. All (Continues live.old.marks) input.deliveries.items) }
    requires sent { IfSome waiting.old (λ input. All (IsSent M.known M.sends) input.deliveries.items) }
    ensures round { TakesRound (IsSent M.known M.sends) mailboxes.old.at_fault (map (λ stream. stream.name) mailboxes.old.streams.items)
        (waiting_value waiting.old) live.old (map (λ stream. stream.name) mailboxes.new.streams.items) (waiting_value waiting.new) live.new result }
    ensures continues { IfSome waiting.new (λ input. All (Continues live.new.marks) input.deliveries.items) }
    ensures at_fault { mailboxes.new.at_fault ≡ mailboxes.old.at_fault }
    ensures same { tablets_in live.new ≡ tablets_in live.old }
{
    let Some(input) = next_input(rt, alloc, live.marks(), mailboxes, waiting)? else {
        return Ok(false);
    };
    match run_input(rt, alloc, live, workers, mailboxes.at_fault, input)? {
        Some(back) => {
            *waiting = Some(back);
            Ok(false)
        }
        None => {
            mailboxes.count_round(live.marks());
            Ok(true)
        }
    }
}

// Takes the input that waits, or else what the mailboxes give. None where there is no memory to ask them, if that is waited
// for; elsewhere that is the fault.
fn next_input<R: Wait, M: Sending>(
    rt: &R,
    alloc: Global,
    marks: &Marks,
    mailboxes: &mut StreamMailboxes<M>,
    waiting: &mut Option<RoundInput>,
) -> Result<Option<RoundInput>, ServeFault>
    requires continues { IfSome waiting.old (λ input. All (Continues marks.now) input.deliveries.items) }
    requires sent { IfSome waiting.old (λ input. All (IsSent M.known M.sends) input.deliveries.items) }
    ensures next { IfOk result (λ next. IfSome next (λ input. IsNextInput (map (λ stream. stream.name) mailboxes.old.streams.items)
        (waiting_value waiting.old) marks.now (value_of input) (map (λ stream. stream.name) mailboxes.new.streams.items))) }
    ensures continues { IfOk result (λ next. IfSome next (λ input. All (Continues marks.now) input.deliveries.items)) }
    ensures sent { IfOk result (λ next. IfSome next (λ input. All (IsSent M.known M.sends) input.deliveries.items)) }
    ensures none { IfOk result (λ next. next ≡ None → (mailboxes.old.at_fault ≡ GoOn) × (waiting.old ≡ None)
        × (map (λ stream. stream.name) mailboxes.new.streams.items ≡ map (λ stream. stream.name) mailboxes.old.streams.items)) }
    ensures fault { IfErr result (λ fault. (mailboxes.old.at_fault ≡ Stop) × (fault ≡ ServeFault.Round)) }
    ensures taken { waiting.new ≡ None }
    ensures at_fault { mailboxes.new.at_fault ≡ mailboxes.old.at_fault }
{
    if let Some(input) = mem::replace(waiting, None) {
        return Ok(Some(input));
    }
    match (gather(rt, alloc, mailboxes, marks), mailboxes.at_fault) {
        (Ok(input), _) => Ok(Some(input)),
        (Err(fault), AtFault::Stop) => Err(fault),
        (Err(_), AtFault::GoOn) => Ok(None),
    }
}

// Takes one report of each stream that has one. The streams that ended are read no more. The fault is out of memory, before a
// report is taken.
fn gather<R: Wait, M: Sending>(
    rt: &R,
    alloc: Global,
    mailboxes: &mut StreamMailboxes<M>,
    marks: &Marks,
) -> Result<RoundInput, ServeFault>
    ensures gathered { IfOk result (λ input. IsInputOf (map (λ stream. stream.name) mailboxes.old.streams.items) marks.now (value_of input)
        (map (λ stream. stream.name) mailboxes.new.streams.items)) }
    ensures fits { IfOk result (λ input. CanBeTaken (length mailboxes.old.streams.items) marks.now (value_of input)) }
    ensures sent { IfOk result (λ input. All (IsSent M.known M.sends) input.deliveries.items) }
    ensures fault { IfErr result (λ fault. fault ≡ ServeFault.Round) }
    ensures at_fault { mailboxes.new.at_fault ≡ mailboxes.old.at_fault }
    ensures none { IfErr result (λ _. mailboxes.new.streams.items ≡ mailboxes.old.streams.items) }
{
    let Ok((mut input, left)) = new_input(alloc, mailboxes.streams.len()) else {
        return Err(ServeFault::Round);
    };
    let streams = mem::replace(&mut mailboxes.streams, left);
    for stream in streams {
        let report = stream.take(rt);
        if add_report(&mut input, marks, &stream.name, report) {
            mailboxes.streams.push_reserved(stream);
        } else {
            stream.mailbox.close(rt);
        }
    }
    Ok(input)
}

// No reports, with capacity for those of this many streams, and no mailbox, with capacity for theirs.
fn new_input<M: Sending>(
    alloc: Global,
    streams: usize,
) -> Result<(RoundInput, Vec<StreamMailbox<M>>), AllocError>
    ensures none { IfOk result (λ made. value_of made.0 ≡ no_input) }
    ensures capacity { IfOk result (λ made. vec_capacity made.0.deliveries ≡ streams) }
    ensures left { IfOk result (λ made. made.1.items ≡ []) }
    ensures capacity_left { IfOk result (λ made. vec_capacity made.1 ≡ streams) }
{
    let input = RoundInput {
        deliveries: Vec::with_capacity(alloc, streams)?,
        fault: None,
    };
    Ok((input, Vec::with_capacity(alloc, streams)?))
}

// Adds what the mailbox of the stream of a name gave. Answers whether the stream is read on.
fn add_report(
    input: &mut RoundInput,
    marks: &Marks,
    name: &StreamName,
    report: Option<Report>,
) -> bool
    requires fits { vec_len input.old.deliveries < vec_capacity input.old.deliveries }
    ensures added { value_of input.new ≡ with_report marks.now (value_of input.old) name.now report }
    ensures goes_on { result ≡ goes_on marks.now report }
    ensures fit { All FitRound input.old.deliveries.items → All FitRound input.new.deliveries.items }
    ensures continues { All (Continues marks.now) input.old.deliveries.items → All (Continues marks.now) input.new.deliveries.items }
    ensures one { vec_len input.new.deliveries ≤ vec_len input.old.deliveries + 1 }
    ensures capacity { vec_capacity input.new.deliveries ≡ vec_capacity input.old.deliveries }
{
    match report {
        Some(Report::Messages(RoundShare { delivery })) if !is_gap(marks, &delivery) => {
            input.deliveries.push_reserved(delivery);
            true
        }
        Some(Report::End(_)) => false,
        Some(_) => {
            add_fault(&mut input.fault, name);
            false
        }
        None => true,
    }
}

// Notes the stream with a fault, unless an earlier one has a fault.
fn add_fault(fault: &mut Option<StreamName>, name: &StreamName)
    ensures { fault.new ≡ first_fault fault.old name.now true }
{
    if fault.is_none() {
        *fault = Some(*name);
    }
}

// Whether a delivery begins past the position after its stream's mark.
fn is_gap(marks: &Marks, delivery: &Share) -> bool
    ensures { result ≡ leaves_gap marks.now delivery.now }
{
    marks.position(delivery.stream()) < delivery.first() - 1
}
