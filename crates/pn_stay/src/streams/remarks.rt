//! What a publisher says of its stream: in its first line, and between messages, which go on byte for byte.

ghost use Rattle.std.specs.Prelude.{◌≡◌, IfOk, string_bytes, ◌<◌, ◌≤◌, ◌⊎◌, true, false, length, None, IfSome};
ghost use Rattle.serde_json.specs.View.{view};
ghost use Rattle.pn_json.specs.Prelude.{IsUnless, Shows, ShowsUnless, line_of};
ghost use Rattle.pn_stay.specs.Remarks.{agrees, is_identity as names_a_stream, newest_at, newest_in, other_stream_data, remark_at, stream_at, stream_in};
ghost use Rattle.pn_stay.specs.Remarks.{may_go_on, IsKind, IsStep};
ghost use Rattle.pn_record.specs.Prelude.{max_line_bytes};

use memchr::memchr;
use pn_join::{LAST_POSITION, NoMemory};
use pn_json::{begin_line, check_names, finish_line, text_of, whole_number_of, write_text_member};
use pn_line::MAX_LINE_BYTES;
use pn_record::{ImageFault, read_value};
use serde_json::Value;
use std::alloc::Global;

/// How many bytes a text may have that says whose stream it is.
pub const MAX_IDENTITY_BYTES: usize = 256;

/// What a line begins with that says whose stream it is.
pub(crate) const STREAM: &[u8] = b"{\"stream\":";

/// What a line begins with that says how far the broker is.
pub(crate) const NEWEST: &[u8] = b"{\"newest\":";

/// Why a line is not what it was read as.
#[derive(Clone, Copy, Debug, PartialEq, Eq)]
pub enum RemarkFault {
    /// It is another line.
    Other,
    Memory,
}

/// Whose stream a line says it is.
#[tactic(auto, unfolding(crate::specs::Remarks::stream_at))]
pub fn read_stream(alloc: Global, line: &[u8]) -> Result<String, RemarkFault>
    ensures { ShowsUnless RemarkFault.Memory string_bytes result (stream_at line.now) }
{
    let value = read_remark(alloc, STREAM, line)?;
    let stream = stream_of(&value)?;
    match String::from_str(alloc, stream) {
        Ok(stream) => Ok(stream),
        Err(_) => Err(RemarkFault::Memory),
    }
}

/// The broker's newest position that a line says, or 0 where the broker has no message.
#[tactic(auto, unfolding(crate::specs::Remarks::newest_at))]
pub fn read_newest(alloc: Global, line: &[u8]) -> Result<u64, RemarkFault>
    ensures { IsUnless RemarkFault.Memory result (newest_at line.now) }
{
    let value = read_remark(alloc, NEWEST, line)?;
    newest_of(&value)
}

// The value of a line that begins with the first bytes.
#[tactic(auto, unfolding(crate::specs::Remarks::remark_at))]
fn read_remark(alloc: Global, first: &[u8], line: &[u8]) -> Result<Value, RemarkFault>
    ensures { ShowsUnless RemarkFault.Memory view result (remark_at first.now line.now) }
{
    if !begins_as(first, line) {
        return Err(RemarkFault::Other);
    }
    match read_value(alloc, line) {
        Ok(value) => Ok(value),
        Err(ImageFault::Memory) => Err(RemarkFault::Memory),
        Err(ImageFault::TooLong) => Err(RemarkFault::Other),
        Err(ImageFault::NotJson) => Err(RemarkFault::Other),
        Err(ImageFault::BadShape(_)) => Err(RemarkFault::Other),
        Err(ImageFault::OutOfRange(_)) => Err(RemarkFault::Other),
    }
}

/// Whether bytes begin with the first ones, or are the beginning of them.
pub(crate) fn begins_as(first: &[u8], bytes: &[u8]) -> bool
    ensures { result ≡ agrees first.now bytes.now }
{
    if bytes.len() < first.len() {
        return first.starts_with(bytes);
    }
    bytes.starts_with(first)
}

#[tactic(auto, unfolding(crate::specs::Remarks::stream_in))]
fn stream_of(value: &Value) -> Result<&str, RemarkFault>
    ensures { Shows (λ stream. stream.now) result (stream_in (view value.now)) }
{
    let members = value.as_object().ok_or(RemarkFault::Other)?;
    let stream = text_of(value.get("stream"), RemarkFault::Other)?;
    check_names(members, &["stream"], RemarkFault::Other)?;
    if !is_identity(stream) {
        return Err(RemarkFault::Other);
    }
    Ok(stream)
}

fn is_identity(text: &str) -> bool
    ensures { result ≡ names_a_stream text.now }
{
    1 <= text.len() && text.len() <= MAX_IDENTITY_BYTES
}

#[tactic(auto, unfolding(crate::specs::Remarks::newest_in))]
fn newest_of(value: &Value) -> Result<u64, RemarkFault>
    ensures { result ≡ newest_in (view value.now) }
{
    let members = value.as_object().ok_or(RemarkFault::Other)?;
    let newest = whole_number_of(value.get("newest"), RemarkFault::Other)?;
    check_names(members, &["newest"], RemarkFault::Other)?;
    if newest > LAST_POSITION {
        return Err(RemarkFault::Other);
    }
    Ok(newest)
}

/// The line that tells a publisher that the region has another stream than its own.
pub fn format_other_stream(alloc: Global, has: &str, got: &str) -> Result<Vec<u8>, NoMemory>
    ensures { IfOk result (λ line. line.items ≡ line_of (other_stream_data has.now got.now)) }
{
    let mut writer = begin_line(alloc)?;
    writer.begin_object()?;
    write_text_member(&mut writer, "error", "other-stream")?;
    write_text_member(&mut writer, "got", got)?;
    write_text_member(&mut writer, "has", has)?;
    writer.end_object()?;
    finish_line(writer)
}

/// What comes next of a publisher's bytes.
#[derive(Clone, Copy, Debug, PartialEq, Eq)]
pub enum Step {
    /// `count` bytes go on as they are. Whether the next ones belong to a line whose beginning went on.
    Give { count: usize, is_inside: bool },
    /// A line of this length says how far the broker is, and its newline follows.
    Hear { line: usize, newest: u64 },
}

/// What a line is, or the beginning of one.
#[derive(Clone, Copy, Debug, PartialEq, Eq)]
pub enum LineKind {
    /// It goes on.
    Message,
    /// It says how far the broker is.
    Newest(u64),
    /// It may go on to say so.
    Unknown,
}

/// What comes next of these bytes, where there is room for `room`. None where there are none, no room, or a part of a line that
/// may say how far the broker is.
pub fn next_step(
    alloc: Global,
    bytes: &[u8],
    is_inside: bool,
    room: usize,
) -> Result<Option<Step>, NoMemory>
    ensures step { IfOk result (λ next. IfSome next (IsStep is_inside bytes.now room)) }
    ensures waits { IfOk result (λ next. next ≡ None → (room ≡ 0) ⊎ (length bytes.now ≤ max_line_bytes)) }
{
    if bytes.is_empty() || room == 0 {
        return Ok(None);
    }
    let (count, is_ended) = first_line(bytes);
    match kind_of_line(alloc, &bytes[..count], is_inside, is_ended)? {
        LineKind::Message => {
            let (count, is_inside) = give_line(bytes, count, is_ended, room);
            Ok(Some(Step::Give { count, is_inside }))
        }
        LineKind::Newest(newest) => Ok(Some(Step::Hear {
            line: count,
            newest,
        })),
        LineKind::Unknown => Ok(None),
    }
}

// How many bytes the first line has, and whether its newline is there.
fn first_line(bytes: &[u8]) -> (usize, bool)
    ensures within { result.0 ≤ length bytes.now }
    ensures ended { result.1 ≡ true → result.0 < length bytes.now }
    ensures whole { result.1 ≡ false → result.0 ≡ length bytes.now }
{
    match memchr(b'\n', bytes) {
        Some(end) => (end, true),
        None => (bytes.len(), false),
    }
}

// What a line is, of which the beginning went on or not, and whose newline is there or not.
fn kind_of_line(
    alloc: Global,
    line: &[u8],
    is_inside: bool,
    is_ended: bool,
) -> Result<LineKind, NoMemory>
    ensures { IfOk result (IsKind is_inside line.now is_ended) }
{
    if is_inside || !may_go_on_as(NEWEST, line) {
        return Ok(LineKind::Message);
    }
    if !is_ended {
        return Ok(LineKind::Unknown);
    }
    match read_newest(alloc, line) {
        Ok(newest) => Ok(LineKind::Newest(newest)),
        Err(RemarkFault::Other) => Ok(LineKind::Message),
        Err(RemarkFault::Memory) => Err(NoMemory),
    }
}

// How much of the first line goes on: as much as there is room for, with its newline if that is there. Whether the next bytes
// belong to the same line.
fn give_line(bytes: &[u8], count: usize, is_ended: bool, room: usize) -> (usize, bool)
    requires some { 1 ≤ length bytes.now }
    requires room { 1 ≤ room }
    requires within { count ≤ length bytes.now }
    requires ended { is_ended ≡ true → count < length bytes.now }
    requires whole { is_ended ≡ false → count ≡ length bytes.now }
    ensures some { 1 ≤ result.0 }
    ensures room { result.0 ≤ room }
    ensures within { result.0 ≤ length bytes.now }
{
    if count >= room {
        return (room, true);
    }
    if is_ended {
        return (count + 1, false);
    }
    (count, true)
}

/// Whether bytes may be the beginning of a line that begins with the first ones.
pub(crate) fn may_go_on_as(first: &[u8], bytes: &[u8]) -> bool
    ensures { result ≡ may_go_on first.now bytes.now }
{
    bytes.len() <= MAX_LINE_BYTES && begins_as(first, bytes)
}
