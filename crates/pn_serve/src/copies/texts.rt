//! The texts of copies, cut out of a text in which they stand one after another.

ghost use Rattle.std.specs.Prelude.{◌≡◌, ◌+◌, ◌<◌, ◌≤◌, ℕ, List, [], ◌++◌, vec_len, false, true, Ok, Some, IfOk, IfErr};
ghost use Rattle.pn_line.specs.Line.{ReadsTo};
ghost use Rattle.pn_line.specs.Prelude.{so_far};
ghost use Rattle.pn_serve.specs.Copies.Cutting.{begins_end, line_number, Adds, IsNoTextFault};
ghost use Rattle.pn_serve.specs.Copies.Faulty.{AreCutsToFault, CutsNext, IsCutSoon};

use crate::CopiesFault;
use crate::copies::reading::FrontReader;
use pn_line::{BoundedEnd, LineBuffer, Source, read_bounded_line};
use std::alloc::{AllocError, Global};
use std::marker::Model;
use std::thread::Threads;

/// What the last line of a copy begins with.
const END_WORD: &[u8] = b"{\"end\":";

/// The text of one copy.
#[derive(Drop)]
pub(crate) struct CopyCut {
    pub(crate) text: Vec<u8>,
    /// The number of its first line in the whole text, from 1.
    pub(crate) first: u64,
    /// How many of its lines end in a newline.
    pub(crate) lines: u64,
    /// Whether the line after them is too long, and was not read to its end.
    pub(crate) is_too_long: bool,
}

impl Model for CopyCut {
    ghost use Rattle.pn_serve.specs.Copies.Cutting.{CopyCutValue};

    ghost Value = { CopyCutValue };

    ghost view = { λ cut. record { text = cut.text.items; first = cut.first; lines = cut.lines; is_too_long = cut.is_too_long } };
}

/// The next text of a copy.
#[derive(Drop)]
pub(crate) enum NextText {
    Whole(CopyCut),
    /// Its first lines, of which one is at fault.
    Faulty(CopyCut),
    /// None is left.
    Nothing,
}

/// What is left of a text of copies.
#[derive(Drop)]
pub(crate) struct CopyTexts<S: Drop> {
    alloc: Global,
    source: S,
    line: LineBuffer,
    // The number of the next line, from 1.
    next: u64,
}

impl<S: Drop> Model for CopyTexts<S> {
    ghost use Rattle.pn_serve.specs.Copies.Cutting.{CopyTextsValue};

    ghost Value = { CopyTextsValue S };

    ghost view = { λ texts. record { source = texts.source; line = texts.line; next = texts.next } };
}

impl<S: Source + Drop> CopyTexts<S> {
    /// A text of which nothing was read yet.
    pub(crate) fn new(alloc: Global, source: S) -> Result<CopyTexts<S>, AllocError>
        ensures source { IfOk result (λ texts. texts.source ≡ source) }
        ensures next { IfOk result (λ texts. texts.next ≡ 1) }
    {
        Ok(CopyTexts {
            alloc,
            source,
            line: LineBuffer::new(alloc)?,
            next: 1,
        })
    }

    /// The texts of the next copies, at most this number. Fewer come only at the end, or where the last one is at fault: then
    /// no more is to be read.
    pub(crate) fn next_texts<R: Threads>(
        &mut self,
        rt: &R,
        most: usize,
    ) -> Result<Vec<CopyCut>, CopiesFault>
        ensures cuts { IfOk result (λ texts. (bytes : List ℕ) → S.left self.old.source ≡ Some bytes
            → (rest : List ℕ) × (S.left self.new.source ≡ Some rest)
            × AreCutsToFault (record { next = self.old.next; bytes = bytes }) texts.items (record { next = self.new.next; bytes = rest })) }
        ensures none { IfOk result (λ texts. (bytes : List ℕ) → S.left self.old.source ≡ Some bytes → texts.items ≡ [] → 1 ≤ most → bytes ≡ []) }
        ensures fault { IfErr result (IsNoTextFault S.may_fail) }
    {
        let mut texts = Vec::with_capacity(self.alloc, most)?;
        for _ in 0..most {
            match self.next_text(rt, most)? {
                NextText::Whole(text) => texts.push(text)?,
                NextText::Faulty(text) => {
                    texts.push(text)?;
                    return Ok(texts);
                }
                NextText::Nothing => return Ok(texts),
            }
        }
        Ok(texts)
    }

    // The text of the next copy: up to and with the first line that begins as an end does. At the end it is what is left. It is
    // cut before where these workers find a line at fault.
    fn next_text<R: Threads>(&mut self, rt: &R, workers: usize) -> Result<NextText, CopiesFault>
        ensures cut { IfOk result (λ found. (bytes : List ℕ) → S.left self.old.source ≡ Some bytes
            → (rest : List ℕ) × (S.left self.new.source ≡ Some rest)
            × CutsNext (record { next = self.old.next; bytes = bytes }) found (record { next = self.new.next; bytes = rest })) }
        ensures soon { IfOk result (λ found. (bytes : List ℕ) → S.left self.old.source ≡ Some bytes → IsCutSoon found) }
        ensures fault { IfErr result (IsNoTextFault S.may_fail) }
    {
        let mut text = Vec::new(self.alloc);
        let mut front = FrontReader::new();
        for lines in 0..u64::MAX {
            match self.add_line(&mut text)? {
                AddedLine::Line => {
                    if front.finds_fault(rt, self.alloc, &text, workers)? {
                        return Ok(NextText::Faulty(self.cut_out(text, lines + 1, false)));
                    }
                }
                AddedLine::End => return Ok(NextText::Whole(self.cut_out(text, lines + 1, false))),
                AddedLine::Last if text.is_empty() => return Ok(NextText::Nothing),
                AddedLine::Last => return Ok(NextText::Whole(self.cut_out(text, lines, false))),
                AddedLine::TooLong => return Ok(NextText::Whole(self.cut_out(text, lines, true))),
            }
        }
        unreachable!()
    }

    // Reads a line onto the text, with its newline.
    fn add_line(&mut self, text: &mut Vec<u8>) -> Result<AddedLine, CopiesFault>
        ensures adds { IfOk result (λ added. (bytes : List ℕ) → S.left self.old.source ≡ Some bytes
            → Adds added text.old.items text.new.items bytes (S.left self.new.source)) }
        ensures next { self.new.next ≡ self.old.next }
        ensures grows { result ≡ Ok AddedLine.Line → vec_len text.old < vec_len text.new }
        ensures fault { IfErr result (IsNoTextFault S.may_fail) }
    {
        match self.read_line()? {
            BoundedEnd::TooLong => Ok(AddedLine::TooLong),
            BoundedEnd::EndOfInput => {
                add_bytes(text, self.line.bytes())?;
                Ok(AddedLine::Last)
            }
            BoundedEnd::Newline { .. } => {
                add_bytes(text, self.line.bytes())?;
                add_bytes(text, b"\n")?;
                Ok(added_line(self.line.bytes()))
            }
        }
    }

    // Reads the next line.
    fn read_line(&mut self) -> Result<BoundedEnd, CopiesFault>
        ensures reads { IfOk result (λ end. ReadsTo end (so_far []) self.new.line (S.left self.old.source) (S.left self.new.source)) }
        ensures next { self.new.next ≡ self.old.next }
        ensures fault { IfErr result (IsNoTextFault S.may_fail) }
    {
        self.line.start();
        match read_bounded_line(&mut self.line, &mut self.source) {
            Ok(end) => Ok(end),
            Err(_) => Err(CopiesFault::Read),
        }
    }

    // The text of a copy, whose lines are counted.
    fn cut_out(&mut self, text: Vec<u8>, lines: u64, is_too_long: bool) -> CopyCut
        ensures cut { result ≡ record { text = text.items; first = self.old.next; lines = lines; is_too_long = is_too_long } }
        ensures source { self.new.source ≡ self.old.source }
        ensures next { self.new.next ≡ line_number (self.old.next + lines) }
    {
        let first = self.next;
        self.next = first.saturating_add(lines);
        CopyCut {
            text,
            first,
            lines,
            is_too_long,
        }
    }
}

// What was added to a text.
#[derive(Clone, Copy)]
enum AddedLine {
    /// A line.
    Line,
    /// A line that begins as an end does.
    End,
    /// What is left before the end of the whole text, which has no newline.
    Last,
    /// Nothing, as the line is too long.
    TooLong,
}

// Adds bytes to a text.
fn add_bytes(text: &mut Vec<u8>, bytes: &[u8]) -> Result<(), CopiesFault>
    ensures added { IfOk result (λ _. text.new.items ≡ text.old.items ++ bytes.now) }
    ensures fault { IfErr result (λ fault. fault ≡ CopiesFault.Memory) }
{
    text.extend_from_slice(bytes)?;
    Ok(())
}

// Which line was added.
fn added_line(line: &[u8]) -> AddedLine
    ensures end { begins_end line.now ≡ true → result ≡ AddedLine.End }
    ensures inner { begins_end line.now ≡ false → result ≡ AddedLine.Line }
{
    if line.starts_with(END_WORD) {
        AddedLine::End
    } else {
        AddedLine::Line
    }
}
