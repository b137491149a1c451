//! Copies, written as text and read from it.

ghost use Rattle.std.specs.Prelude.{◌≡◌, ◌+◌, ◌≤◌, Ok, IfOk, IsTrue, length, map, string_bytes, IsUtf8, ◌<◌, ◌^◌, ◌∷◌, [], MatchOption};
ghost use Rattle.pn_join.specs.Prelude.{are_positions, IsTable};
ghost use Rattle.pn_record.specs.Prelude.{spell, bytes_cmp, spell_cell, HasContents};
ghost use Rattle.pn_tablet.specs.CopyReading.{copy_at, pieces_of, read_on};
ghost use Rattle.pn_tablet.specs.CopyTexts.{mark_line, IsCopyText};
ghost use Rattle.pn_tablet.specs.CopyWriting.{copy_text, WritesLines};
ghost use Rattle.pn_tablet.specs.declared.copy_line.CopyLine.TheVariants.{Record};
ghost use Rattle.pn_line.specs.Prelude.{IsUnbroken};
ghost use Rattle.pn_json.specs.Prelude.{IsUnless};
ghost use Rattle.pn_tablet.specs.Copies.{TabletCopyValue};

use crate::copy::{Form, form_of};
use crate::copy_draft::CopyDraft;
use crate::copy_line::{CopyLine, read_head, read_line};
use crate::copy_line_writing::{write_end, write_head, write_image, write_mark};
use crate::{CopyTextFault, TabletCopy};
use memchr::memchr;
use pn_join::{Marks, NoMemory};
use pn_record::{Cell, Key, Records};
use std::alloc::Global;

/// The text of a copy: its head, its marks, one line for each content of each record, and its end. It has form 1
/// where no content holds a number, else form 2, and is read as an equal copy.
#[tactic(auto, using(crate::proofs::CopyTextFacts::text_again))]
pub fn write_copy(alloc: Global, copy: &TabletCopy) -> Result<String, NoMemory>
    ensures exact { IfOk result (λ text. string_bytes text ≡ copy_text copy.now) }
    ensures text { IfOk result (λ text. IsCopyText (string_bytes text) copy.now) }
    ensures reads_back { IfOk result (λ text. copy_at (string_bytes text) ≡ Ok copy.now) }
{
    let bytes = write_lines(alloc, copy)?;
    let Ok(text) = String::from_utf8(bytes) else {
        unreachable!()
    };
    Ok(text)
}

// The bytes of the text, all in one buffer.
fn write_lines(alloc: Global, copy: &TabletCopy) -> Result<Vec<u8>, NoMemory>
    ensures exact { IfOk result (λ text. text.items ≡ copy_text copy.now) }
    ensures text { IfOk result (λ text. IsCopyText text.items copy.now) }
    ensures utf8 { IfOk result (λ text. IsUtf8 text.items) }
{
    let form = form_of(&copy.cells);
    let head = write_head(Vec::new(alloc), form, &copy.range)?;
    let marks = write_marks(head, &copy.marks)?;
    let (cells, images) = write_cells(marks, &copy.cells)?;
    write_end(cells, (copy.marks.len() + images) as u64)
}

fn write_marks(text: Vec<u8>, marks: &Marks) -> Result<Vec<u8>, NoMemory>
    requires { IsTrue (are_positions marks.now) }
    ensures { IfOk result (λ new. WritesLines text.items new.items (map mark_line marks.now)) }
{
    let mut text = text;
    for (name, position) in marks.iter() {
        text = write_mark(text, name, position.0)?;
    }
    Ok(text)
}

// Writes a line for each content of each cell, and returns the number of these lines.
fn write_cells(text: Vec<u8>, cells: &Records) -> Result<(Vec<u8>, usize), NoMemory>
    ensures written { IfOk result (λ new. WritesLines text.items new.0.items (map Record (spell cells.now))) }
    ensures count { IfOk result (λ new. new.1 ≡ length (spell cells.now)) }
    ensures longer { IfOk result (λ new. length text.items + new.1 ≤ length new.0.items) }
    ensures table { IsTable bytes_cmp HasContents cells.now }
{
    let mut text = text;
    let mut count = 0;
    for (key, cell) in cells.iter() {
        text = write_cell(text, key, cell)?;
        count += cell.contents().len();
    }
    Ok((text, count))
}

fn write_cell(text: Vec<u8>, key: &Key, cell: &Cell) -> Result<Vec<u8>, NoMemory>
    ensures { IfOk result (λ new. WritesLines text.items new.items (map Record (spell_cell (key.now, cell.now)))) }
{
    let contents = cell.contents();
    let mut text = text;
    for content in contents {
        text = write_image(text, key, cell.version(), content)?;
    }
    Ok(text)
}

/// The copy that a text spells, read in one pass. It takes the memory of the copy and of one line.
///
/// The first faulty line decides: `BadLine` above 65,536 bytes, where it may not stand, out of its limits or with a number in
/// form 1, `OutsideRange`, `NotRising`, `BadEnd`. `Truncated` where the text ends before, which `Memory` never
/// replaces where it has no newline.
pub fn read_copy(alloc: Global, text: &[u8]) -> Result<TabletCopy, CopyTextFault>
    ensures found { IfOk result (λ copy. IsCopyText text.now copy) }
    ensures only { (copy : TabletCopyValue) → IsCopyText text.now copy → IsUnless CopyTextFault.Memory result (Ok copy) }

    // Which fault it is.
    ensures exact { IsUnless CopyTextFault.Memory result (copy_at text.now) }
    ensures no_line { IsUnbroken text.now → result ≡ Err CopyTextFault.Truncated }
{
    read_text(alloc, text)
}

#[tactic(auto, unfolding(crate::specs::CopyReading::copy_at))]
fn read_text(alloc: Global, text: &[u8]) -> Result<TabletCopy, CopyTextFault>
    ensures exact { IsUnless CopyTextFault.Memory result (copy_at text.now) }
    ensures no_line { pieces_of text.now ≡ text.now ∷ [] → result ≡ Err CopyTextFault.Truncated }
{
    let Some((head, rest)) = cut_line(text) else {
        return Err(CopyTextFault::Truncated);
    };
    let (form, range) = read_head(alloc, head, CopyTextFault::BadLine(1))?;
    read_lines(alloc, form, 2, CopyDraft::new(alloc, range), rest)
}

/// Reads the lines of the text, of which the first is line `first`, on from what was read before them.
pub(crate) fn read_lines(
    alloc: Global,
    form: Form,
    first: u64,
    before: CopyDraft,
    text: &[u8],
) -> Result<TabletCopy, CopyTextFault>
    requires after_head { 2 ≤ first }
    requires numbers { first + length text.now < 2 ^ 64 }
    ensures { IsUnless CopyTextFault.Memory result (read_on form first before (pieces_of text.now)) }
{
    let mut draft = before;
    let mut rest = text;
    let mut number = first;
    'lines: while let Some((line, after)) = cut_line(rest) {
        match read_line(alloc, form, line, CopyTextFault::BadLine(number))? {
            CopyLine::Mark(name, position) => draft = draft.with_mark(number, name, position)?,
            CopyLine::Record(image) => draft = draft.with_image(number, image)?,
            CopyLine::End(count) => return draft.finish(number, count, after.is_empty()),
        }
        rest = after;
        number += 1;
    }
    Err(CopyTextFault::Truncated)
}

/// The first line of a text, and the text after its newline. None where there is no newline.
pub(crate) fn cut_line(text: &[u8]) -> Option<(&[u8], &[u8])>
    ensures { MatchOption result (pieces_of text.now ≡ text.now ∷ [])
        (λ cut. (pieces_of text.now ≡ cut.0.now ∷ pieces_of cut.1.now) × (length cut.1.now < length text.now)) }
{
    match memchr(b'\n', text) {
        Some(at) => Some((&text[..at], &text[at + 1..])),
        None => None,
    }
}
