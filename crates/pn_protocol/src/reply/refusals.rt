//! Errors, and the replies that refuse a command.

ghost use Rattle.std.specs.Prelude.{◌≡◌, IfOk, OnOk, codes};
ghost use Rattle.pn_json.specs.Prelude.{line_of, Appends, value_tokens};
ghost use Rattle.pn_protocol.specs.Reply.Faults.{detail_data, details_members, details_tokens, error_data, with_number, at_line, short_data, too_old_data};
ghost use Rattle.pn_protocol.specs.Reply.Faults.{round_fault_data, lookup_fault_data, copy_fault_data, copy_text_fault_data, adopt_fault_data};
ghost use Rattle.pn_protocol.specs.Reply.Faults.{relayout_fault_data, advance_fault_data, Refuses, RefusesWith, SaysWhy};
ghost use Rattle.serde_json.specs.Data.{no_members};
ghost use Rattle.pn_region.specs.declared.fault.AdvanceFault.TheVariants.{Memory as no_memory_to_advance};
ghost use Rattle.pn_region.specs.declared.fault.RelayoutFault.TheVariants.{Memory as no_memory_to_relay};
ghost use Rattle.pn_region.specs.declared.fault.RoundFault.TheVariants.{Memory as no_memory_for_a_round};
ghost use Rattle.pn_scan.specs.declared.view.ScanFault.TheVariants.{Memory as no_memory_to_look};
ghost use Rattle.pn_tablet.specs.declared.fault.CopyFault.TheVariants.{Memory as no_memory_to_copy};
ghost use Rattle.pn_tablet.specs.declared.fault.CopyTextFault.TheVariants.{Memory as no_memory_to_read};
ghost use Rattle.pn_tablet.specs.declared.fault.OpFault.TheVariants.{Memory as no_memory_to_adopt};

use crate::reply::scan::write_version_or_null;
use crate::{Refusal, Reply};
use json::Writer;
use pn_join::{NoMemory, StreamName};
use pn_json::{begin_line, finish_line, write_text_member};
use pn_record::Version;
use pn_region::{AdoptFault, AdvanceFault, RelayoutFault, RoundFault};
use pn_scan::ScanFault;
use pn_tablet::{CopyFault, CopyTextFault};
use std::alloc::Global;

/// What an error says of one thing.
#[derive(Drop)]
pub(crate) enum Detail {
    Number(u64),
    Stream(StreamName),
    /// The version of a record, if there is one.
    Version(Option<Version>),
}

/// The line of an error of this name, with named details, as `{"error":"bad-line","line":3}`.
pub(crate) fn error_reply(
    alloc: Global,
    name: &str,
    details: &[(&str, Detail)],
) -> Result<Vec<u8>, NoMemory>
    ensures { IfOk result (λ text. text.items ≡ line_of (error_data name.now (details_members details.now))) }
{
    let mut writer = begin_line(alloc)?;
    write_error(&mut writer, name, details)?;
    finish_line(writer)
}

fn write_error(writer: &mut Writer, name: &str, details: &[(&str, Detail)]) -> Result<(), NoMemory>
    ensures { OnOk result (Appends writer.old writer.new (value_tokens (error_data name.now (details_members details.now)))) }
{
    writer.begin_object()?;
    write_text_member(writer, "error", name)?;
    write_details(writer, details)?;
    writer.end_object()?;
    Ok(())
}

fn write_details(writer: &mut Writer, details: &[(&str, Detail)]) -> Result<(), NoMemory>
    ensures { OnOk result (Appends writer.old writer.new (details_tokens details.now)) }
{
    for detail in details {
        writer.key(detail.0)?;
        write_detail(writer, &detail.1)?;
    }
    Ok(())
}

fn write_detail(writer: &mut Writer, detail: &Detail) -> Result<(), NoMemory>
    ensures { OnOk result (Appends writer.old writer.new (value_tokens (detail_data detail.now))) }
{
    match detail {
        Detail::Number(number) => Ok(writer.u64(*number)?),
        Detail::Stream(stream) => Ok(writer.string(stream.as_str())?),
        Detail::Version(version) => write_version_or_null(writer, *version),
    }
}

/// Why a command that was read is not run.
#[derive(Debug, Drop)]
pub enum CommandFault {
    /// A read, a get or a scan.
    Lookup(ScanFault),
    /// A copy of the tablet of this number.
    Copy { tablet: usize, fault: CopyFault },
    /// An adoption whose text is no copy.
    CopyText(CopyTextFault),
    /// An adoption of a copy.
    Adoption(AdoptFault),
    /// The round of a delivery.
    Round(RoundFault),
    /// A change of the layout.
    Relayout(RelayoutFault),
    /// Marks that advance.
    Advance(AdvanceFault),
}

/// Refuses a command, as with `{"error":"gap","got":7,"stream":"east","wanted":4}`.
pub fn refuse(alloc: Global, fault: CommandFault) -> Reply
    ensures { Refuses fault result }
{
    match fault {
        CommandFault::Lookup(fault) => refuse_with(lookup_error(alloc, fault)),
        CommandFault::Copy { tablet, fault } => refuse_with(copy_error(alloc, tablet, fault)),
        CommandFault::CopyText(fault) => refuse_with(copy_text_error(alloc, fault)),
        CommandFault::Adoption(fault) => refuse_with(adoption_error(alloc, fault)),
        CommandFault::Round(fault) => refuse_with(round_error(alloc, fault)),
        CommandFault::Relayout(fault) => refuse_with(relayout_error(alloc, fault)),
        CommandFault::Advance(fault) => refuse_with(advance_error(alloc, fault)),
    }
}

// Refuses a command with the error's line. None: memory ran out.
fn refuse_with(error: Option<Result<Vec<u8>, NoMemory>>) -> Reply
    ensures { RefusesWith error result }
{
    let Some(text) = error else {
        return Reply::Refused(Refusal::Memory);
    };
    match text {
        Ok(text) => Reply::NotTaken(text),
        Err(_) => Reply::Refused(Refusal::Memory),
    }
}

// The line of the error for a lookup. None: memory ran out. So the functions for the other commands too.
fn lookup_error(alloc: Global, fault: ScanFault) -> Option<Result<Vec<u8>, NoMemory>>
    ensures { SaysWhy no_memory_to_look fault (lookup_fault_data fault) result }
{
    match fault {
        ScanFault::Recovering(tablet) => Some(tablet_error(alloc, "recovering", tablet)),
        ScanFault::Behind { has } => Some(error_reply(
            alloc,
            "behind",
            &[("has", Detail::Version(has))],
        )),
        ScanFault::Memory => None,
        ScanFault::NoEntry => Some(error_reply(alloc, "no-entry", &[])),
    }
}

fn copy_error(alloc: Global, tablet: usize, fault: CopyFault) -> Option<Result<Vec<u8>, NoMemory>>
    ensures { SaysWhy no_memory_to_copy fault (copy_fault_data tablet fault) result }
{
    match fault {
        CopyFault::Recovering => Some(tablet_error(alloc, "recovering", tablet)),
        CopyFault::Behind {
            stream,
            has,
            wanted,
        } => Some(short_error(alloc, "behind", "has", has, stream, wanted)),
        CopyFault::Memory => None,
        CopyFault::NoEntry => Some(error_reply(alloc, "no-entry", &[])),
    }
}

fn copy_text_error(alloc: Global, fault: CopyTextFault) -> Option<Result<Vec<u8>, NoMemory>>
    ensures { SaysWhy no_memory_to_read fault (copy_text_fault_data fault) result }
{
    match fault {
        CopyTextFault::Truncated => Some(error_reply(alloc, "truncated", &[])),
        CopyTextFault::BadLine(line) => Some(line_error(alloc, "bad-line", line)),
        CopyTextFault::OutsideRange(line) => Some(line_error(alloc, "outside-range", line)),
        CopyTextFault::NotRising(line) => Some(line_error(alloc, "not-rising", line)),
        CopyTextFault::BadEnd => Some(error_reply(alloc, "bad-end", &[])),
        CopyTextFault::Memory => None,
    }
}

fn adoption_error(alloc: Global, fault: AdoptFault) -> Option<Result<Vec<u8>, NoMemory>>
    ensures { SaysWhy no_memory_to_adopt fault (adopt_fault_data fault) result }
{
    match fault {
        AdoptFault::WrongRange => Some(error_reply(alloc, "wrong-range", &[])),
        AdoptFault::TooOld { stream, has, needs } => Some(too_old_error(alloc, has, needs, stream)),
        AdoptFault::Memory => None,
    }
}

fn relayout_error(alloc: Global, fault: RelayoutFault) -> Option<Result<Vec<u8>, NoMemory>>
    ensures { SaysWhy no_memory_to_relay fault (relayout_fault_data fault) result }
{
    match fault {
        RelayoutFault::StillRecovering(tablet) => {
            Some(tablet_error(alloc, "still-recovering", tablet))
        }
        RelayoutFault::Memory => None,
    }
}

fn round_error(alloc: Global, fault: RoundFault) -> Option<Result<Vec<u8>, NoMemory>>
    ensures { SaysWhy no_memory_for_a_round fault (round_fault_data fault) result }
{
    match fault {
        RoundFault::Gap {
            stream,
            wanted,
            got,
        } => Some(short_error(alloc, "gap", "got", got, stream, wanted)),
        RoundFault::TooManyStreams => Some(error_reply(alloc, "too-many-streams", &[])),
        RoundFault::Memory => None,
    }
}

fn advance_error(alloc: Global, fault: AdvanceFault) -> Option<Result<Vec<u8>, NoMemory>>
    ensures { SaysWhy no_memory_to_advance fault (advance_fault_data fault) result }
{
    match fault {
        AdvanceFault::TooManyStreams => Some(error_reply(alloc, "too-many-streams", &[])),
        AdvanceFault::Memory => None,
    }
}

// The error for a tablet.
fn tablet_error(alloc: Global, error: &str, tablet: usize) -> Result<Vec<u8>, NoMemory>
    ensures { IfOk result (λ text. text.items ≡ line_of (error_data error.now (with_number (codes "tablet") tablet no_members))) }
{
    error_reply(alloc, error, &[("tablet", Detail::Number(tablet as u64))])
}

// The error for a line of a text.
fn line_error(alloc: Global, error: &str, line: u64) -> Result<Vec<u8>, NoMemory>
    ensures { IfOk result (λ text. text.items ≡ line_of (at_line error.now line)) }
{
    error_reply(alloc, error, &[("line", Detail::Number(line))])
}

// The error for what there is of a stream, under this name, and what is wanted.
fn short_error(
    alloc: Global,
    error: &str,
    name: &str,
    there: u64,
    stream: StreamName,
    wanted: u64,
) -> Result<Vec<u8>, NoMemory>
    ensures { IfOk result (λ text. text.items ≡ line_of (short_data error.now name.now there stream wanted)) }
{
    let details = [
        (name, Detail::Number(there)),
        ("stream", Detail::Stream(stream)),
        ("wanted", Detail::Number(wanted)),
    ];
    error_reply(alloc, error, &details)
}

// The error for what a copy has of a stream, and what is needed.
fn too_old_error(
    alloc: Global,
    has: u64,
    needs: u64,
    stream: StreamName,
) -> Result<Vec<u8>, NoMemory>
    ensures { IfOk result (λ text. text.items ≡ line_of (too_old_data stream has needs)) }
{
    let details = [
        ("has", Detail::Number(has)),
        ("needs", Detail::Number(needs)),
        ("stream", Detail::Stream(stream)),
    ];
    error_reply(alloc, "too-old", &details)
}
