//! Copies, read by several workers from a text in which they stand one after another, up to the first faulty line.

ghost use Rattle.std.specs.Prelude.{◌≡◌, ◌-◌, ◌*◌, ◌/◌, ◌^◌, ◌≤◌, ◌<◌, length, min, take, false, true, Ok, IfErr, ◌≢◌, ◌+◌, ℕ, List, [], ◌++◌, ◌∷◌, ◌⊎◌};
ghost use Rattle.std.specs.Prelude.{vec_len, Some, IfOk, OnOk};
ghost use Rattle.pn_json.specs.Prelude.{IsUnless};
ghost use Rattle.pn_tablet.specs.Prelude.{copy_at};
ghost use Rattle.pn_serve.specs.Copies.Faulty.{has_faulty_line};
ghost use Rattle.pn_serve.specs.declared.copies.reading.TheConstants.{FIRST_BYTES, PART};
ghost use Rattle.pn_tablet.specs.declared.layout.TheConstants.{MAX_BOUNDS};
ghost use Rattle.pn_serve.specs.Copies.Reading.{AreAdded, AreRead, CopiesReaderValue, HasRead, StopsAt, StopsReading, copy_in_cut, told_in};

use crate::CopiesFault;
use crate::copies::texts::{CopyCut, CopyTexts};
use pn_line::Source;
use pn_tablet::{CopyTextFault, MAX_BOUNDS, TabletCopy, read_copy_by};
use std::alloc::Global;
use std::marker::Model;
use std::thread;
use std::thread::Threads;

/// How many bytes a text has once its front is read first.
const FIRST_BYTES: usize = 1_048_576;

/// The front is this part of the text.
const PART: usize = 32;

/// When the front of a text is read while the text grows.
#[derive(Drop)]
pub(crate) struct FrontReader {
    // How many bytes the text has then.
    due: usize,
}

impl FrontReader {
    /// Before the first byte of a text.
    pub(crate) fn new() -> FrontReader
        ensures { result.due ≡ FIRST_BYTES }
    {
        FrontReader { due: FIRST_BYTES }
    }

    /// Whether a line of the text is at fault, as far as it is read now: a thirty-second of it whenever it has doubled.
    pub(crate) fn finds_fault<R: Threads>(
        &mut self,
        rt: &R,
        alloc: Global,
        text: &[u8],
        workers: usize,
    ) -> Result<bool, CopiesFault>
        ensures faulty { result ≡ Ok true → has_faulty_line (copy_at text.now) ≡ true }
        ensures right { self.old.due ≤ length text.now → result ≡ Ok false → has_faulty_line (copy_at (take (length text.now / PART) text.now)) ≡ false }
        ensures later { self.old.due ≤ length text.now → self.new.due ≡ min (length text.now * 2) (2 ^ 64 - 1) }
        ensures waits { length text.now < self.old.due → (result ≡ Ok false) × (self.new.due ≡ self.old.due) }
        ensures fault { IfErr result (λ fault. fault ≡ CopiesFault.Memory) }
    {
        if text.len() < self.due {
            return Ok(false);
        }
        self.due = text.len().saturating_mul(2);
        has_faulty_line(rt, alloc, &text[..text.len() / PART], workers)
    }
}

// Whether a line of a text is at fault which is no end, so that it is at fault whatever follows.
fn has_faulty_line<R: Threads>(
    rt: &R,
    alloc: Global,
    text: &[u8],
    workers: usize,
) -> Result<bool, CopiesFault>
    ensures { IsUnless CopiesFault.Memory result (Ok (has_faulty_line (copy_at text.now))) }
{
    match read_copy_by(rt, alloc, text, workers) {
        Ok(_) => Ok(false),
        Err(CopyTextFault::Memory) => Err(CopiesFault::Memory),
        Err(CopyTextFault::Truncated | CopyTextFault::BadEnd) => Ok(false),
        Err(_) => Ok(true),
    }
}

/// Reads the copies of a text by 1 to 16 workers, which share the lines of few copies. Beside the copies it takes the memory
/// of one copy's text a worker, and of what its lines say. A faulty line is found by the time that 64 times
/// the bytes up to its end were read, or a mebibyte.
///
/// The first faulty line of 64 copies decides; then that there are more.
#[derive(Drop)]
pub struct CopiesReader<S: Drop> {
    texts: CopyTexts<S>,
    copies: Vec<TabletCopy>,
    workers: usize,
}

impl<S: Drop> Model for CopiesReader<S> {
    ghost use Rattle.std.specs.Prelude.{◌≤◌};
    ghost use Rattle.pn_serve.specs.Copies.Reading.{CopiesReaderValue};

    ghost Value = { CopiesReaderValue S };

    ghost use Rattle.pn_serve.specs.Proofs.{copies_reader_code};

    ghost coded = { copies_reader_code S.code };

    ghost view = { λ reader. record { source = reader.texts.source; next = reader.texts.next; copies = reader.copies.items } };

    ghost invariant = { λ reader. 1 ≤ reader.workers };
}

impl<S: Source + Drop> CopiesReader<S> {
    /// A reader of a text of which nothing was read yet.
    pub fn new(alloc: Global, source: S, workers: usize) -> Result<CopiesReader<S>, CopiesFault>
        requires workers { 1 ≤ workers }
        ensures reads { IfOk result (λ reader. (text : List ℕ) → S.left source ≡ Some text → HasRead S.left text reader) }
        ensures none { IfOk result (λ reader. reader.copies ≡ []) }
        ensures fault { IfErr result (λ fault. fault ≡ CopiesFault.Memory) }
    {
        let texts = CopyTexts::new(alloc, source)?;
        let copies = Vec::with_capacity(alloc, MAX_BOUNDS + 1)?;
        Ok(CopiesReader {
            texts,
            copies,
            workers,
        })
    }

    /// Reads as many of the next copies as there are workers, all at the same time. False where none was left.
    ///
    /// After a fault it reads no more.
    pub fn read_some<R: Threads + Sync>(
        &mut self,
        rt: &R,
        alloc: Global,
    ) -> Result<bool, CopiesFault>
        ensures reads { OnOk result ((text : List ℕ) → HasRead S.left text self.old → HasRead S.left text self.new) }
        ensures more { result ≡ Ok true → length self.old.copies < length self.new.copies }
        ensures all { result ≡ Ok false → (text : List ℕ) → HasRead S.left text self.old
            → (self.new.copies ≡ self.old.copies) × (S.left self.new.source ≡ Some []) }
        ensures fault { IfErr result (λ fault. (text : List ℕ) → HasRead S.left text self.old → StopsReading S.may_fail text fault) }
    {
        let some = self.texts.next_texts(rt, self.workers)?;
        if some.is_empty() {
            return Ok(false);
        }
        let read = read_each(rt, alloc, some, self.workers)?;
        add_copies(&mut self.copies, read)?;
        Ok(true)
    }

    /// How many copies were read.
    pub fn count(&self) -> usize
        ensures { result ≡ length self.now.copies }
    {
        self.copies.len()
    }

    /// The copies that were read.
    pub fn into_copies(self) -> Vec<TabletCopy>
        ensures { result.items ≡ self.copies }
    {
        let CopiesReader { copies, .. } = self;
        copies
    }
}

// Reads each of the texts, at the same time. Workers that are more than the texts share their lines.
fn read_each<R: Threads + Sync>(
    rt: &R,
    alloc: Global,
    texts: Vec<CopyCut>,
    workers: usize,
) -> Result<Vec<Result<TabletCopy, CopiesFault>>, CopiesFault>
    ensures read { IfOk result (λ reads. AreRead texts.items reads.items) }
    ensures fault { IfErr result (λ fault. fault ≡ CopiesFault.Memory) }
{
    let each = workers / texts.len().max(1);
    Ok(thread::map_vec(rt, texts, &|text| read_text(rt, alloc, text, each))?)
}

// The copy of a text, or at which line of the whole text it has which fault.
fn read_text<R: Threads>(
    rt: &R,
    alloc: Global,
    text: CopyCut,
    workers: usize,
) -> Result<TabletCopy, CopiesFault>
    ensures { IsUnless CopiesFault.Memory result (copy_in_cut text) }
{
    match read_copy_by(rt, alloc, &text.text, workers) {
        Ok(copy) => {
            if text.is_too_long {
                return Err(fault_in(&text, CopyTextFault::BadEnd));
            }
            Ok(copy)
        }
        Err(fault) => Err(fault_in(&text, fault)),
    }
}

// The line of a fault. The text of a copy is truncated at the line that it lacks, and has a bad end in its last one.
fn fault_in(text: &CopyCut, fault: CopyTextFault) -> CopiesFault
    ensures { result ≡ told_in text.now fault }
{
    let after = text.first.saturating_add(text.lines);
    match fault {
        CopyTextFault::BadLine(line)
        | CopyTextFault::OutsideRange(line)
        | CopyTextFault::NotRising(line) => {
            CopiesFault::Line(text.first.saturating_add(line.saturating_sub(1)), fault)
        }
        CopyTextFault::BadEnd => CopiesFault::Line(after.saturating_sub(1), fault),
        CopyTextFault::Truncated if text.is_too_long => {
            CopiesFault::Line(after, CopyTextFault::BadLine(text.lines.saturating_add(1)))
        }
        CopyTextFault::Truncated => CopiesFault::Line(after, fault),
        CopyTextFault::Memory => CopiesFault::Memory,
    }
}

// Adds the copies that were read, up to the first fault, or to the last that a layout has.
fn add_copies(
    copies: &mut Vec<TabletCopy>,
    read: Vec<Result<TabletCopy, CopiesFault>>,
) -> Result<(), CopiesFault>
    ensures added { OnOk result (AreAdded read.items copies.old.items copies.new.items) }
    ensures fault { IfErr result (λ fault. fault ≢ CopiesFault.Memory → StopsAt read.items copies.old.items fault) }
{
    for copy in read {
        add_copy(copies, copy)?;
    }
    Ok(())
}

// Adds a copy that was read, unless there are as many as a layout has.
fn add_copy(
    copies: &mut Vec<TabletCopy>,
    read: Result<TabletCopy, CopiesFault>,
) -> Result<(), CopiesFault>
    ensures added { OnOk result ((copy : _) × (read ≡ Ok copy) × (copies.new.items ≡ copies.old.items ++ copy ∷ [])) }
    ensures fault { IfErr result (λ fault. fault ≢ CopiesFault.Memory
        → ((fault ≡ CopiesFault.TooMany) × (MAX_BOUNDS + 1 ≤ vec_len copies.old)) ⊎ ((read ≡ Err fault) × (vec_len copies.old < MAX_BOUNDS + 1))) }
{
    if copies.len() > MAX_BOUNDS {
        return Err(CopiesFault::TooMany);
    }
    copies.push(read?)?;
    Ok(())
}
