//! Adoption: the lines that `adopt` announces are gathered, and their copy is adopted.

ghost use Rattle.std.specs.Prelude.{◌≡◌, ◌++◌, [], Some, IfOk};
ghost use Rattle.pn_line.specs.Prelude.{kept_bytes};
ghost use Rattle.pn_json.specs.Prelude.{IsUnless};
ghost use Rattle.pn_region.specs.Prelude.{after_adoption};
ghost use Rattle.pn_tablet.specs.Prelude.{copy_at};
ghost use Rattle.pn_serve.specs.Machine.Outcomes.{bytes_of, mode_of, with_mode, announced as announced_mode, machine_over};
ghost use Rattle.pn_serve.specs.Machine.Doing.{adoption_turn, text_adoption_turn};
ghost use Rattle.pn_serve.specs.Machine.Turns.{AnswersBy, ConcludesBy, ComesTo, Gathers, IsJoined};

use crate::machine::ScriptAnswer;
use pn_join::NoMemory;
use pn_line::MAX_KEPT_BYTES;
use pn_protocol::{CommandFault, Refusal, Reply, refuse};
use pn_region::Region;
use pn_tablet::{CopyTextFault, TabletCopy, read_copy_by};
use std::alloc::Global;
use std::thread::Threads;

/// The text of a copy that is not complete yet.
#[derive(Drop)]
pub(crate) struct AnnouncedText {
    /// How many lines are still to come.
    left: u64,
    /// The text so far. None once memory ran out.
    text: Option<Vec<u8>>,
}

impl AnnouncedText {
    /// This many lines are to come, and none has come.
    pub(crate) fn new(alloc: Global, lines: u64) -> AnnouncedText
        ensures { mode_of (Some result) ≡ announced_mode lines (Some []) }
    {
        AnnouncedText {
            left: lines,
            text: Some(Vec::new(alloc)),
        }
    }
}

/// What an announced line came to.
#[derive(Drop)]
pub(crate) enum GatherOutcome {
    /// Further lines are to come.
    More(AnnouncedText),
    /// It was the last one: the text of all. None once memory ran out.
    Text(Option<Vec<u8>>),
}

impl AnnouncedText {
    /// Takes a line with its newline.
    pub(crate) fn gather(self, line: &[u8]) -> GatherOutcome
        ensures { Gathers self.left (bytes_of self.text) line.now result }
    {
        let AnnouncedText { left, text } = self;
        let text = append_line(text, line, b"\n");
        if left > 1 {
            let left = left - 1;
            return GatherOutcome::More(AnnouncedText { left, text });
        }
        GatherOutcome::Text(text)
    }

    /// The text of all, after a last part of a line. None once memory ran out.
    pub(crate) fn end(self, part: &[u8]) -> Option<Vec<u8>>
        ensures { IsJoined (bytes_of self.text) part.now [] (bytes_of result) }
    {
        append_line(self.text, part, b"")
    }
}

/// Takes an announced line. The last one adopts the copy, whose lines this number of workers reads.
pub(crate) fn take_line<R: Threads>(
    rt: &R,
    alloc: Global,
    region: &mut Region,
    workers: usize,
    announced: AnnouncedText,
    line: &[u8],
) -> ScriptAnswer
    ensures { AnswersBy ⊥ (with_mode (Some announced) region.old) line.now (with_mode result.1 region.new) result.0 }
{
    match announced.gather(line) {
        GatherOutcome::More(announced) => (Reply::Silent, Some(announced)),
        GatherOutcome::Text(text) => (adopt(rt, alloc, region, workers, text), None),
    }
}

/// Adopts the text so far, after a last part of a line.
pub(crate) fn take_last_part<R: Threads>(
    rt: &R,
    alloc: Global,
    region: &mut Region,
    workers: usize,
    announced: AnnouncedText,
    part: &[u8],
) -> Reply
    ensures { ConcludesBy ⊥ (with_mode (Some announced) region.old) part.now (machine_over region.new) result }
{
    adopt(rt, alloc, region, workers, announced.end(part))
}

// Adds a line to the text. None once memory ran out.
fn append_line(text: Option<Vec<u8>>, line: &[u8], newline: &[u8]) -> Option<Vec<u8>>
    ensures { IsJoined (bytes_of text) line.now newline.now (bytes_of result) }
{
    extend_text(text?, line, newline).ok()
}

// Adds the line's first 65,537 bytes and its newline, if any.
fn extend_text(text: Vec<u8>, line: &[u8], newline: &[u8]) -> Result<Vec<u8>, NoMemory>
    ensures { IfOk result (λ whole. whole.items ≡ text.items ++ (kept_bytes line.now ++ newline.now)) }
{
    let mut text = text;
    let kept = line.len().min(MAX_KEPT_BYTES);
    text.extend_from_slice(&line[..kept])?;
    text.extend_from_slice(newline)?;
    Ok(text)
}

/// Adopts the copy of the text, whose lines this number of workers reads. None: memory ran out before.
pub(crate) fn adopt<R: Threads>(
    rt: &R,
    alloc: Global,
    region: &mut Region,
    workers: usize,
    text: Option<Vec<u8>>,
) -> Reply
    ensures { ComesTo (text_adoption_turn region.old (bytes_of text)) region.old region.new result }
{
    let Some(text) = text else {
        return Reply::Refused(Refusal::Memory);
    };
    match read_text_by(rt, alloc, text, workers) {
        Ok(copy) => adopt_copy(alloc, region, copy),
        Err(fault) => refuse(alloc, CommandFault::CopyText(fault)),
    }
}

/// Parses the copy by this number of workers, and frees its text.
pub(crate) fn read_text_by<R: Threads>(
    rt: &R,
    alloc: Global,
    text: Vec<u8>,
    workers: usize,
) -> Result<TabletCopy, CopyTextFault>
    ensures { IsUnless CopyTextFault.Memory result (copy_at text.items) }
{
    read_copy_by(rt, alloc, &text, workers)
}

fn adopt_copy(alloc: Global, region: &mut Region, copy: TabletCopy) -> Reply
    ensures { ComesTo (adoption_turn region.old (after_adoption region.old.state copy)) region.old region.new result }
{
    match region.adopt(copy) {
        Ok(tablet) => Reply::Adopted(tablet as u64),
        Err(fault) => refuse(alloc, CommandFault::Adoption(fault)),
    }
}
