//! Why a publisher's input is no longer read, and why the system refuses something: in words, and in a line for the publisher.

ghost use Rattle.std.specs.Prelude.{◌≡◌, ◌++◌, codes, decimal, max, string_bytes, IfOk};
ghost use Rattle.pn_serve.specs.Server.Reports.{IsShown};
ghost use Rattle.pn_stay.specs.Remarks.{stream_word, member_detail, stream_detail, refusal_line, image_words, stream_fault_words as stream_words, reason_words};
ghost use Rattle.pn_stay.specs.Remarks.{failure_words};

use pn_join::Name;
use pn_record::ImageFault;
use pn_stream::{ResumeFault, StreamFault};
use std::alloc::{AllocError, Global};
use std::io;

/// The line that tells a publisher where the stream goes on: one past what was handed to rounds or the region's mark at the latest.
pub fn format_after(alloc: Global, handed: u64, taken: u64) -> Result<String, AllocError>
    requires { IsShown taken }
    ensures { IfOk result (λ line. string_bytes line ≡ codes "{\"after\":" ++ (decimal (max handed taken) ++ codes "}\n")) }
{
    let after = handed.max(taken);
    format!(in alloc; "{{\"after\":{after}}}\n")
}

/// The line that tells a publisher up to which position the stream was taken: a mark of the region.
pub fn format_taken(alloc: Global, taken: u64) -> Result<String, AllocError>
    requires { IsShown taken }
    ensures { IfOk result (λ line. string_bytes line ≡ codes "{\"taken\":" ++ (decimal taken ++ codes "}\n")) }
{
    format!(in alloc; "{{\"taken\":{taken}}}\n")
}

/// The line that tells a publisher why its input is no longer read; the message at this position was due.
pub fn format_refusal(
    alloc: Global,
    fault: &ResumeFault,
    position: u64,
) -> Result<String, AllocError>
    ensures { IfOk result (λ line. string_bytes line ≡ refusal_line fault.now position) }
{
    match fault {
        ResumeFault::Gap { got, wanted } => {
            format!(in alloc; "{{\"error\":\"gap\",\"got\":{got},\"wanted\":{wanted}}}\n")
        }
        ResumeFault::Stream(fault) => {
            let word = name_fault(fault);
            let detail = format_detail(alloc, fault)?;
            format!(in alloc; "{{\"at\":{position},\"error\":\"{word}\"{detail}}}\n")
        }
    }
}

/// The message of a stream that failed, as `stream east failed at 5 (line 3): not-json`.
pub fn format_failure(
    alloc: Global,
    name: &Name,
    fault: &ResumeFault,
    position: u64,
    line: u64,
) -> Result<String, AllocError>
    ensures { IfOk result (λ text. string_bytes text ≡ failure_words name.now fault.now position line) }
{
    let name = name.as_str();
    let reason = describe_fault(alloc, fault)?;
    format!(in alloc; "stream {name} failed at {position} (line {line}): {reason}")
}

/// The reason in words, as `out-of-range master`.
pub(crate) fn describe_fault(alloc: Global, fault: &ResumeFault) -> Result<String, AllocError>
    ensures { IfOk result (λ text. string_bytes text ≡ reason_words fault.now) }
{
    match fault {
        ResumeFault::Gap { got, wanted } => { format!(in alloc; "gap, got {got}, wanted {wanted}") }
        ResumeFault::Stream(fault) => describe_stream_fault(alloc, fault),
    }
}

fn describe_stream_fault(alloc: Global, fault: &StreamFault) -> Result<String, AllocError>
    ensures { IfOk result (λ text. string_bytes text ≡ stream_words fault.now) }
{
    match fault {
        StreamFault::OutOfStep { wanted: _, got } => format!(in alloc; "out-of-step, got {got}"),
        StreamFault::BadMessage { at: _, fault } => describe_image(alloc, fault),
        StreamFault::Read | StreamFault::LineTooLong | StreamFault::Memory | StreamFault::Failed =>
            String::from_str(alloc, name_fault(fault)),
    }
}

fn describe_image(alloc: Global, fault: &ImageFault) -> Result<String, AllocError>
    ensures { IfOk result (λ text. string_bytes text ≡ image_words fault.now) }
{
    match fault {
        ImageFault::BadShape(member) => format!(in alloc; "bad-shape {}", member.word()),
        ImageFault::OutOfRange(member) => format!(in alloc; "out-of-range {}", member.word()),
        ImageFault::TooLong | ImageFault::NotJson | ImageFault::Memory => {
            String::from_str(alloc, fault.word())
        }
    }
}

fn name_fault(fault: &StreamFault) -> &'static str
    ensures { result.now ≡ stream_word fault.now }
{
    match fault {
        StreamFault::Read => "read",
        StreamFault::LineTooLong => "too-long",
        StreamFault::BadMessage { at: _, fault } => fault.word(),
        StreamFault::OutOfStep { .. } => "out-of-step",
        StreamFault::Memory => "memory",
        StreamFault::Failed => "read",
    }
}

// What a publisher's line says beside the word.
fn format_detail(alloc: Global, fault: &StreamFault) -> Result<String, AllocError>
    ensures { IfOk result (λ text. string_bytes text ≡ stream_detail fault.now) }
{
    match fault {
        StreamFault::OutOfStep { wanted: _, got } => format!(in alloc; ",\"got\":{got}"),
        StreamFault::BadMessage { at: _, fault } => format_member(alloc, fault),
        StreamFault::Read | StreamFault::LineTooLong | StreamFault::Memory | StreamFault::Failed =>
            Ok(String::new(alloc)),
    }
}

fn format_member(alloc: Global, fault: &ImageFault) -> Result<String, AllocError>
    ensures { IfOk result (λ text. string_bytes text ≡ member_detail fault.now) }
{
    match fault {
        ImageFault::BadShape(member) | ImageFault::OutOfRange(member) => {
            format!(in alloc; ",\"member\":\"{}\"", member.word())
        }
        ImageFault::TooLong | ImageFault::NotJson | ImageFault::Memory => Ok(String::new(alloc)),
    }
}

/// What the system says of an error, without its number.
pub fn describe_error(alloc: Global, error: &io::Error) -> Result<String, AllocError> {
    let text = format!(in alloc; "{error}")?;
    String::from_str(alloc, cut_number(text.as_str()))
}

fn cut_number(text: &str) -> &str {
    match text.split_once(" (os error ") {
        Some((words, _)) => words,
        None => text,
    }
}
