//! The rows of records as text, made a piece at a time in a buffer that has room for it.

ghost use Rattle.std.specs.Prelude.{◌≡◌, ◌==◌, ◌&&◌, ◌+◌, ◌<◌, ◌≤◌, ◌↔◌, ◌^◌, [], false, length, nat_lt, IsTrue, Some};
ghost use Rattle.std.specs.Option.{option_copied};
ghost use Rattle.pn_json.specs.Prelude.{AppendsText, MakesPiece};
ghost use Rattle.pn_protocol.specs.Reply.Making.{HasContent, IsCursorOf, MakesRecord, before_text, end_of, found_in, next_cursor, cursor_rest, row_end};
ghost use Rattle.pn_protocol.specs.Reply.Making.{rows_text};
ghost use Rattle.pn_protocol.specs.declared.reply.rows_text.RowsCursor.TheVariants.{End, Record};
ghost use Rattle.pn_protocol.specs.declared.reply.text.TheConstants.{MAX_PIECE_BYTES};

use crate::reply::scan::state_word;
use crate::reply::shown_records::ShownRecords;
use pn_json::{append_comma, append_string, append_text};
use pn_record::{Body, Cell, Content, Key, Value, append_content, append_version};
use pn_scan::Row;
use std::marker::Model;
use std::sync::atomic::{AtomicUsize, Ordering};

/// The bytes that one memory access loads.
const CACHE_LINE: usize = 64;

/// Prefetches the rows' names and texts.
pub(crate) fn prefetch_rows(rows: &[Row]) {
    // (the compiler drops no atomic write, and so none of the reads that it needs)
    AtomicUsize::new(0).swap(seen_in_rows(rows) as usize, Ordering::SeqCst);
}

fn seen_in_rows(rows: &[Row]) -> u8 {
    let mut seen = 0;
    for row in rows {
        seen |= seen_in_cell(&row.cell);
    }
    seen
}

fn seen_in_cell(cell: &Cell) -> u8 {
    let mut seen = 0;
    for content in cell.contents() {
        seen |= seen_in_content(content);
    }
    seen
}

fn seen_in_content(content: &Content) -> u8 {
    match &content.body {
        Body::Fields(fields) => seen_in_fields(fields),
        Body::Deleted => 0,
    }
}

// Reads a byte of each name and of each cache line of each text.
fn seen_in_fields(fields: &[(String, Value)]) -> u8 {
    let mut seen = 0;
    for (name, value) in fields {
        seen |= first_of(name.as_bytes());
        if let Value::Text(text) = value {
            seen |= seen_in_lines(text.as_bytes());
        }
    }
    seen
}

fn seen_in_lines(text: &[u8]) -> u8 {
    let mut seen = 0;
    for line in text.chunks(CACHE_LINE) {
        seen |= first_of(line);
    }
    seen
}

fn first_of(text: &[u8]) -> u8 {
    text.first().copied().unwrap_or(0)
}

/// The most bytes of what a piece shows of a record.
const MAX_PART_BYTES: usize = 60_000;

/// Records whose rows are made in pieces, and the end of a reply that shows them.
#[derive(Drop)]
pub(crate) struct RowsText {
    shown: ShownRecords,
    cursor: RowsCursor,
}

/// Before what of the rows the text is.
#[derive(Clone, Copy, Debug, PartialEq, Eq)]
enum RowsCursor {
    /// A content of a record, or the end where there is no such record.
    Record { index: usize, content: usize },
    /// After the end.
    End,
}

impl Model for RowsText {
    ghost use Rattle.std.specs.Prelude.{ℕ, List};
    ghost use Rattle.pn_protocol.specs.Reply.Making.{IsCursorOf, end_of, found_in, cursor_rest};

    ghost Value = { List ℕ };

    ghost view = { λ text. cursor_rest (found_in text.shown) (end_of text.shown) text.cursor };

    ghost invariant = { λ text. IsCursorOf (found_in text.shown) text.cursor };
}

impl RowsText {
    /// The rows of these records, of which nothing is made.
    pub(crate) fn new(shown: ShownRecords) -> RowsText
        ensures { result ≡ rows_text false (found_in shown) (end_of shown) }
    {
        RowsText {
            shown,
            cursor: RowsCursor::Record {
                index: 0,
                content: 0,
            },
        }
    }

    /// Whether all is made.
    pub(crate) fn is_made(&self) -> bool
        ensures { IsTrue result ↔ (self.now ≡ []) }
    {
        is_end(self.cursor)
    }

    /// What the records weigh, as far as that has 64 bits.
    pub(crate) fn weight(&self) -> u64 {
        self.shown.weight()
    }

    /// Makes a piece after what a buffer holds that has room for it.
    pub(crate) fn append_piece(&mut self, out: &mut Vec<u8>)
        ensures { MakesPiece MAX_PIECE_BYTES self.old self.new out.old out.new }
    {
        self.cursor = append_at(out, &self.shown, self.cursor);
    }
}

// Adds a piece from a cursor on. The next cursor.
fn append_at(out: &mut Vec<u8>, shown: &ShownRecords, cursor: RowsCursor) -> RowsCursor
    requires { IsCursorOf (found_in shown.now) cursor }
    ensures piece { MakesPiece MAX_PIECE_BYTES (cursor_rest (found_in shown.now) (end_of shown.now) cursor)
        (cursor_rest (found_in shown.now) (end_of shown.now) result) out.old out.new }
    ensures cursor { IsCursorOf (found_in shown.now) result }
{
    match cursor {
        RowsCursor::Record { index, content } => append_from(out, shown, index, content),
        RowsCursor::End => RowsCursor::End,
    }
}

// Adds the part of a record that begins with a content, or the end where there is no such record. The next cursor.
fn append_from(out: &mut Vec<u8>, shown: &ShownRecords, index: usize, content: usize) -> RowsCursor
    requires { IsCursorOf (found_in shown.now) (Record index content) }
    ensures piece { MakesPiece MAX_PIECE_BYTES (cursor_rest (found_in shown.now) (end_of shown.now) (Record index content))
        (cursor_rest (found_in shown.now) (end_of shown.now) result) out.old out.new }
    ensures cursor { IsCursorOf (found_in shown.now) result }
{
    match shown.record_at(index) {
        Some((key, cell)) => {
            shown.prefetch_from(index);
            shown.recall_count();
            append_comma(out, is_later_row(index, content));
            let next = append_record(out, key, cell, content);
            next_cursor(index, next)
        }
        None => {
            append_text(out, shown.end());
            RowsCursor::End
        }
    }
}

// The cursor after a part of a record, by the next content, or 0 after the last.
fn next_cursor(index: usize, next: usize) -> RowsCursor
    requires { index + 1 < 2 ^ 64 }
    ensures { result ≡ next_cursor index next }
{
    if next == 0 {
        return RowsCursor::Record {
            index: index + 1,
            content: 0,
        };
    }
    RowsCursor::Record {
        index,
        content: next,
    }
}

// Whether nothing comes after a cursor.
fn is_end(cursor: RowsCursor) -> bool
    ensures { IsTrue result ↔ (cursor ≡ End) }
{
    match cursor {
        RowsCursor::Record { .. } => false,
        RowsCursor::End => true,
    }
}

// Whether a row begins at a content, and is not the first.
fn is_later_row(index: usize, content: usize) -> bool
    ensures { result ≡ (nat_lt 0 index && content == 0) }
{
    index > 0 && content == 0
}

// Adds the part of a record that begins with a content. The next content, or 0 after the last.
fn append_record(out: &mut Vec<u8>, key: &Key, cell: Option<&Cell>, content: usize) -> usize
    requires { HasContent content (key.now, option_copied cell) }
    ensures { MakesRecord (key.now, option_copied cell.entry) content out.old out.new result }
{
    match cell {
        Some(cell) => append_row_part(out, key, cell, content),
        None => {
            append_text(out, "null");
            0
        }
    }
}

// Adds the part of a row that begins with a content. The next content, or 0 after the last.
fn append_row_part(out: &mut Vec<u8>, key: &Key, cell: &Cell, content: usize) -> usize
    requires { HasContent content (key.now, Some cell.now) }
    ensures { MakesRecord (key.now, Some cell.now) content out.old out.new result }
{
    let contents = cell.contents();
    append_text(out, before_content(content));
    append_content(out, &contents[content]);
    let next = content + 1;
    if next < contents.len() {
        return next;
    }
    append_text(out, "]");
    append_row_end(out, key, cell);
    0
}

// What comes before a content of a row.
fn before_content(content: usize) -> &'static str
    ensures { result.now ≡ before_text content }
{
    if content == 0 { "{\"contents\":[" } else { "," }
}

// Adds what comes after the contents of a row.
fn append_row_end(out: &mut Vec<u8>, key: &Key, cell: &Cell)
    ensures added { AppendsText out.old out.new (row_end key.now cell.now) }
    ensures short { length (row_end key.now cell.now) ≤ 2000 }
{
    append_text(out, ",\"key\":");
    append_string(out, key.as_str());
    append_text(out, ",\"state\":\"");
    append_text(out, state_word(cell.state()));
    append_text(out, "\",\"version\":");
    append_version(out, cell.version());
    append_text(out, "}");
}
