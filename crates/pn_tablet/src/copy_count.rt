//! Copies whose lines are counted, some records at a time, and which are weighed, before their text is made.

ghost use Rattle.std.specs.Prelude.{◌≡◌, ◌+◌, ◌-◌, ◌<◌, ◌≤◌, ◌^◌, length, min, IfOk, OnErr, MatchResult, if◌then◌else◌};
ghost use Rattle.std.specs.FinMap.{keys};
ghost use Rattle.std.specs.List.{list_any};
ghost use Rattle.pn_record.specs.Prelude.{holds_number as content_holds_number, spell};
ghost use Rattle.pn_tablet.specs.CopyCounts.{CountsOn, CountsTo};
ghost use Rattle.pn_tablet.specs.CopyWriting.{IsCountedIn, lines_of_copy};
ghost use Rattle.pn_tablet.specs.Tablets.{record_weight as weighs};
ghost use Rattle.pn_tablet.specs.declared.copy.Form.TheVariants.{Numbers};

use crate::copy::{Form, holds_number};
use crate::copy_text::recall_size;
use crate::weight::record_weight;
use crate::{CopyText, TabletCopy};
use pn_join::NoMemory;
use pn_record::{Cell, Key, Records};
use std::marker::Model;

/// A copy of which some records' lines are counted.
#[derive(Drop)]
pub struct CopyCount {
    copy: TabletCopy,
    counted: LineCount,
}

// How many records are counted, the lines of their images, the form that they need, and what they weigh.
#[derive(Clone, Copy, Debug, PartialEq, Eq)]
struct LineCount {
    records: usize,
    images: u64,
    form: Form,
    weight: u64,
}

impl Model for CopyCount {
    ghost use Rattle.pn_tablet.specs.CopyWriting.{CopyCountValue, IsCountedIn, count_code};

    ghost Value = { CopyCountValue };

    ghost coded = { count_code };

    ghost view = { λ count. record { copy = count.copy; index = count.counted.records } };

    ghost invariant = { λ count. IsCountedIn count.copy.cells count.counted };
}

/// What counting comes to.
#[derive(Drop)]
pub enum CopyStep {
    /// All lines are counted.
    Done(CopyText),
    /// Others are still to be counted.
    Next(CopyCount),
}

impl CopyCount {
    /// A copy of which no line is counted.
    pub fn new(copy: TabletCopy) -> CopyCount
        ensures { result ≡ record { copy = copy; index = 0 } }
    {
        CopyCount {
            copy,
            counted: LineCount {
                records: 0,
                images: 0,
                form: Form::Texts,
                weight: 0,
            },
        }
    }

    /// Counts the lines of at most `records` more records, and weighs these. An error where there are too many lines for 64 bits.
    pub fn go_on(self, records: usize) -> Result<CopyStep, NoMemory>
        ensures { CountsOn records self result }
    {
        let CopyCount { copy, counted } = self;
        match count_some(&copy.cells, counted, records) {
            Ok(counted) => step_of(copy, counted),
            Err(fault) => Err(fault),
        }
    }
}

// What counting comes to where this much is counted.
fn step_of(copy: TabletCopy, counted: LineCount) -> Result<CopyStep, NoMemory>
    requires { IsCountedIn copy.cells counted }
    ensures { CountsTo copy counted result }
{
    if counted.records < copy.cells.len() {
        return Ok(CopyStep::Next(CopyCount { copy, counted }));
    }
    match count_lines(&copy, counted) {
        Ok(lines) => {
            let text = CopyText::new(copy, counted.form, lines, counted.weight);
            Ok(CopyStep::Done(text))
        }
        Err(fault) => Err(fault),
    }
}

// The lines of a copy of which all images are counted.
fn count_lines(copy: &TabletCopy, counted: LineCount) -> Result<u64, NoMemory>
    requires counted { IsCountedIn copy.now.cells counted }
    requires all { length copy.now.cells ≤ counted.records }
    ensures { MatchResult result (λ lines. lines ≡ lines_of_copy copy.now) (λ _. 2 ^ 64 ≤ lines_of_copy copy.now) }
{
    let lines = add(counted.images, copy.marks.len())?;
    add(lines, 2)
}

// Counts at most `records` more records.
fn count_some(cells: &Records, counted: LineCount, records: usize) -> Result<LineCount, NoMemory>
    requires { IsCountedIn cells.now counted }
    ensures ok { IfOk result
        (λ now. IsCountedIn cells.now now × (now.records ≡ min (counted.records + records) (length cells.now))) }
    ensures err { OnErr result (2 ^ 64 ≤ length (spell cells.now)) }
{
    recall_size(cells);
    let mut now = counted;
    let mut left = records;
    for (key, cell) in cells.iter_from(counted.records) {
        if left == 0 {
            return Ok(now);
        }
        left -= 1;
        now = count_record(now, key, cell)?;
    }
    Ok(now)
}

fn count_record(counted: LineCount, key: &Key, cell: &Cell) -> Result<LineCount, NoMemory>
    requires { counted.records + 1 < 2 ^ 64 }
    ensures records { IfOk result (λ now. now.records ≡ counted.records + 1) }
    ensures images { IfOk result (λ now. now.images ≡ counted.images + length (keys cell.now.1)) }
    ensures form { IfOk result
        (λ now. now.form ≡ (if list_any content_holds_number (keys cell.now.1) then Numbers else counted.form)) }
    ensures weight { IfOk result (λ now. now.weight ≡ min (counted.weight + weighs (key.now, cell.now)) (2 ^ 64 - 1)) }
    ensures err { OnErr result (2 ^ 64 ≤ counted.images + length (keys cell.now.1)) }
{
    let images = add(counted.images, cell.contents().len())?;
    let form = if holds_number(cell) {
        Form::Numbers
    } else {
        counted.form
    };
    Ok(LineCount {
        records: counted.records + 1,
        images,
        form,
        weight: counted.weight.saturating_add(record_weight(key, cell)),
    })
}

fn add(count: u64, more: usize) -> Result<u64, NoMemory>
    ensures { MatchResult result (λ sum. sum ≡ count + more) (λ _. 2 ^ 64 ≤ count + more) }
{
    count.checked_add(more as u64).ok_or(NoMemory)
}
