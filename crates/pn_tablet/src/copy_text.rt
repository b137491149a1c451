//! Copies whose text is made a line at a time.

ghost use Rattle.std.specs.Prelude.{◌≡◌, ◌+◌, ◌<◌, ◌↔◌, ◌^◌, [], length, nat_lt, IsTrue, if◌then◌else◌};
ghost use Rattle.pn_json.specs.Prelude.{MakesPiece};
ghost use Rattle.pn_record.specs.Prelude.{spell};
ghost use Rattle.pn_tablet.specs.CopyWriting.{IsCopyCursor, IsTextOf, lines_of_copy, MakesLine, copy_text};
ghost use Rattle.pn_tablet.specs.CopyTexts.{form_of};
ghost use Rattle.pn_tablet.specs.Tablets.{entries_weight as weight_of};
ghost use Rattle.pn_tablet.specs.declared.copy_line_writing.TheConstants.{MAX_COPY_LINE_BYTES};
ghost use Rattle.pn_tablet.specs.declared.copy_text.CopyCursor.TheVariants.{Image, Mark, Written};

use crate::TabletCopy;
use crate::copy::Form;
use crate::copy_line_writing::{append_end, append_head, append_image_line, append_mark};
use pn_join::Marks;
use pn_record::Records;
use std::marker::Model;

/// A copy whose text is made a line at a time.
#[derive(Drop)]
pub struct CopyText {
    copy: TabletCopy,
    form: Form,
    lines: u64,
    // What its records weigh.
    weight: u64,
    cursor: CopyCursor,
}

/// Before which line the text is.
#[derive(Clone, Copy, Debug, PartialEq, Eq)]
enum CopyCursor {
    Head,
    Mark(usize),
    /// The line of a content of a record, or the end where there is no such record.
    Image { index: usize, content: usize },
    /// After the last.
    Written,
}

impl Model for CopyText {
    ghost use Rattle.std.specs.Prelude.{◌≡◌};
    ghost use Rattle.pn_tablet.specs.CopyWriting.{CopyTextValue, IsTextOf, copy_rest, text_code};
    ghost use Rattle.pn_tablet.specs.Tablets.{entries_weight};

    ghost Value = { CopyTextValue };

    ghost coded = { text_code };

    ghost view = { λ text. record { copy = text.copy; left = copy_rest text.copy text.cursor } };

    ghost invariant = { λ text. IsTextOf text.copy text.form text.lines text.cursor × (text.weight ≡ entries_weight text.copy.cells) };
}

impl CopyText {
    /// A copy of which no line is made.
    pub(crate) fn new(copy: TabletCopy, form: Form, lines: u64, weight: u64) -> CopyText
        requires form { form ≡ form_of (spell copy.cells) }
        requires lines { lines ≡ lines_of_copy copy }
        requires weight { weight ≡ weight_of copy.cells }
        ensures { result ≡ record { copy = copy; left = copy_text copy } }
    {
        CopyText {
            copy,
            form,
            lines,
            weight,
            cursor: CopyCursor::Head,
        }
    }

    /// How many lines the text of the copy has.
    pub fn line_count(&self) -> u64
        ensures { result ≡ lines_of_copy self.now.copy }
    {
        self.lines
    }

    /// What its records weigh, as far as that has 64 bits.
    pub fn weight(&self) -> u64
        ensures { result ≡ weight_of self.now.copy.cells }
    {
        self.weight
    }

    /// Whether all lines are made.
    pub fn is_made(&self) -> bool
        ensures { IsTrue result ↔ (self.now.left ≡ []) }
    {
        is_written(self.cursor)
    }

    /// Adds the next line to what a buffer holds that has room for it, if one is left.
    pub fn append_line(&mut self, out: &mut Vec<u8>)
        ensures line { MakesPiece MAX_COPY_LINE_BYTES self.old.left self.new.left out.old out.new }
        ensures copy { self.new.copy ≡ self.old.copy }
    {
        self.cursor = append_next(out, &self.copy, self.form, self.lines, self.cursor);
    }
}

// Whether no line comes after a cursor.
fn is_written(cursor: CopyCursor) -> bool
    ensures { IsTrue result ↔ (cursor ≡ Written) }
{
    match cursor {
        CopyCursor::Written => true,
        _ => false,
    }
}

/// Recalls for the prover that records can be counted.
pub(crate) fn recall_size(cells: &Records)
    ensures { length cells.now < 2 ^ 64 }
{
    let _ = cells.len();
}

// Recalls for the prover that marks can be counted.
fn recall_count(marks: &Marks)
    ensures { length marks.now < 2 ^ 64 }
{
    let _ = marks.len();
}

// Adds the line of a cursor. The next cursor.
fn append_next(
    out: &mut Vec<u8>,
    copy: &TabletCopy,
    form: Form,
    lines: u64,
    cursor: CopyCursor,
) -> CopyCursor
    requires { IsTextOf copy.now form lines cursor }
    ensures { MakesLine copy.now cursor out.old out.new result }
{
    match cursor {
        CopyCursor::Head => {
            append_head(out, form, &copy.range);
            CopyCursor::Mark(0)
        }
        CopyCursor::Mark(index) => append_mark_at(out, copy, lines, index),
        CopyCursor::Image { index, content } => append_image_at(out, copy, lines, index, content),
        CopyCursor::Written => CopyCursor::Written,
    }
}

// Adds the line of a mark, or the first after all marks.
fn append_mark_at(out: &mut Vec<u8>, copy: &TabletCopy, lines: u64, index: usize) -> CopyCursor
    requires { lines ≡ lines_of_copy copy.now }
    ensures { MakesLine copy.now (Mark index) out.old out.new result }
{
    recall_count(&copy.marks);
    match copy.marks.entry_at(index) {
        Some((name, position)) => {
            append_mark(out, name, position.0);
            CopyCursor::Mark(index + 1)
        }
        None => {
            copy.cells.recall_table();
            append_image_at(out, copy, lines, 0, 0)
        }
    }
}

// Adds the line of an image, or the end after all images.
fn append_image_at(
    out: &mut Vec<u8>,
    copy: &TabletCopy,
    lines: u64,
    index: usize,
    content: usize,
) -> CopyCursor
    requires lines { lines ≡ lines_of_copy copy.now }
    requires cursor { IsCopyCursor copy.now (Image index content) }
    ensures { MakesLine copy.now (Image index content) out.old out.new result }
{
    copy.cells.recall_table();
    match copy.cells.entry_at(index) {
        Some((key, cell)) => {
            recall_size(&copy.cells);
            let contents = cell.contents();
            append_image_line(out, key, cell.version(), &contents[content]);
            next_cursor(index, content, contents.len())
        }
        None => {
            let count = lines - 2;
            append_end(out, count);
            CopyCursor::Written
        }
    }
}

// The cursor after a content of these lines.
fn next_cursor(index: usize, content: usize, count: usize) -> CopyCursor
    requires index { index + 1 < 2 ^ 64 }
    requires content { content < count }
    ensures { result ≡ (if nat_lt (content + 1) count then Image index (content + 1) else Image (index + 1) 0) }
{
    if content + 1 < count {
        return CopyCursor::Image {
            index,
            content: content + 1,
        };
    }
    CopyCursor::Image {
        index: index + 1,
        content: 0,
    }
}
