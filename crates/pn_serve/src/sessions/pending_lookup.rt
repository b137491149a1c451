//! Lookups of a session that are resumed: a page, the records of keys, or a copy.

ghost use Rattle.std.specs.Prelude.{◌≡◌, ◌<◌, ◌≤◌, ◌*◌, ◌^◌, ℕ, max, min, List, length, IfErr, IfOk};
ghost use Rattle.pn_live.specs.Lookups.{IsOnGet};
ghost use Rattle.pn_live.specs.Prelude.{LiveReaderValue};
ghost use Rattle.pn_lines.specs.declared.handler.TheConstants.{MAX_ANSWER_UNITS};
ghost use Rattle.pn_protocol.specs.Command.Meaning.{CommandValue};
ghost use Rattle.pn_scan.specs.Paging.{LookMade};
ghost use Rattle.pn_scan.specs.Prelude.{Stays};
ghost use Rattle.pn_serve.specs.Session.Resuming.{answer_left, KnowsNoLess, AreNewKeys, CopyAnswer, CountsUnits, CountsStep, HasFew, IsNewPage, KeysAnswer};
ghost use Rattle.pn_serve.specs.Session.Resuming.{LooksOn, LooksTo, PageAnswer, pending_left, kind_of, most_left};
ghost use Rattle.pn_serve.specs.declared.sessions.pending_lookup.PendingLookup.{PendingLookup as GoingOn};
ghost use Rattle.pn_tablet.specs.CopyCounts.{CountsOn};
ghost use Rattle.pn_tablet.specs.CopyWriting.{CopyCountValue};
ghost use Rattle.pn_tablet.specs.Layouts.{Bounds};

use crate::machine::line_answers::LineOutcome;
use pn_join::NoMemory;
use pn_live::{GetWalk, LiveReader};
use pn_protocol::{CommandFault, LineKind, Refusal, Reply, answer_get, answer_scan, refuse};
use pn_record::{Key, Records};
use pn_scan::{PageStep, PageWalk, Query, ScanFault, View};
use pn_tablet::{CopyCount, CopyStep, Layout, TabletCopy};
use std::alloc::Global;

/// How many lines of a copy are counted in one unit of work.
const UNIT_LINES: usize = 16;

/// A lookup of which some looks were made.
#[derive(Drop)]
pub enum PendingLookup {
    /// A page of a query.
    Page(Query, PageWalk),
    /// The records of keys.
    Keys(GetWalk),
    /// A copy, whose lines are counted.
    Copy(CopyCount),
}

impl PendingLookup {
    /// A page of which nothing was looked for.
    pub(super) fn page(alloc: Global, reader: &LiveReader, query: Query) -> PendingLookup
        ensures new { IsNewPage reader.now.layout query result }
        ensures bounded { pending_left result < most_left }
    {
        recall_tablets(reader.layout());
        let walk = PageWalk::new(alloc, reader.layout(), &query);
        PendingLookup::Page(query, walk)
    }

    /// The records of keys of which none was read.
    pub(super) fn keys(alloc: Global, keys: Vec<Key>) -> PendingLookup
        ensures new { AreNewKeys keys.items result }
        ensures bounded { pending_left result < most_left }
    {
        let _ = keys.len();
        PendingLookup::Keys(GetWalk::new(alloc, keys))
    }

    /// A copy of which no line is counted.
    pub(super) fn copy(copy: TabletCopy) -> PendingLookup
        ensures new { result ≡ PendingLookup.Copy (record { copy = copy; index = 0 }) }
        ensures bounded { pending_left result < most_left }
    {
        recall_records(&copy.cells);
        PendingLookup::Copy(CopyCount::new(copy))
    }

    /// The kind of its line.
    pub fn kind(&self) -> LineKind
        ensures { result ≡ kind_of self.now }
    {
        match self {
            PendingLookup::Page(_, _) => LineKind::Scan,
            PendingLookup::Keys(_) => LineKind::Get,
            PendingLookup::Copy(_) => LineKind::Copy,
        }
    }

    /// Goes on for this number of units of work, or for few. Returns how many that were.
    pub(crate) fn go_on(
        self,
        alloc: Global,
        reader: &mut LiveReader,
        units: u32,
    ) -> (LineOutcome, u32)
        ensures alone { (was between : LiveReaderValue) (command : CommandValue) → LooksOn Stays was command between self
            → Stays between reader.old → LooksTo Stays was command reader.new result.0 }
        ensures shared { (was between : LiveReaderValue) (command : CommandValue) → LooksOn KnowsNoLess was command between self
            → KnowsNoLess between reader.old → LooksTo KnowsNoLess was command reader.new result.0 }
        ensures nearer { 0 < units → answer_left result.0 ≤ pending_left self }
        ensures few { result.1 ≤ max units MAX_ANSWER_UNITS }
        ensures counted { CountsUnits result.0 self result.1 }
        ensures knows { KnowsNoLess reader.old reader.new }
    {
        match self {
            PendingLookup::Page(query, walk) => {
                let step = walk.go_on(alloc, reader, &query, units);
                recall_few(&step);
                let used = units_by(&step, units);
                (page_answer(alloc, query, step), used)
            }
            PendingLookup::Keys(walk) => {
                let most = units.max(1);
                let used = count_keys(walk.left(), most);
                let walk = walk.go_on(reader, most as usize);
                (keys_answer(alloc, walk), used)
            }
            PendingLookup::Copy(count) => (copy_answer(count.go_on(lines_in(units))), units),
        }
    }
}

// Recalls for the prover that tablets can be counted.
fn recall_tablets(layout: &Layout)
    ensures { length layout.now < 2 ^ 64 }
{
    let _ = layout.count();
}

// Recalls for the prover that records can be counted.
fn recall_records(cells: &Records)
    ensures { length cells.now < 2 ^ 64 }
{
    let _ = cells.len();
}

// How many units of work a step of a page was. Where memory ran out, all that it was to do.
fn units_by(step: &Result<PageStep, ScanFault>, units: u32) -> u32
    ensures { CountsStep units step.now result }
{
    match step {
        Ok(PageStep::Done(_)) => 0,
        Ok(PageStep::Next(walk)) => walk.units(),
        Err(ScanFault::Memory) => units,
        Err(_) => 0,
    }
}

// How many of the keys that are left are read: at most this number.
fn count_keys(left: usize, most: u32) -> u32
    ensures { result ≡ min left most }
{
    if left < most as usize {
        return left as u32;
    }
    most
}

// How many lines of a copy are counted in some units.
fn lines_in(units: u32) -> usize
    ensures { result ≡ UNIT_LINES * units }
{
    units as usize * UNIT_LINES
}

// How far a page's look is from its end is counted in 128 bits.
fn recall_few(step: &Result<PageStep, ScanFault>)
    ensures { HasFew step.now }
{
    if let Ok(PageStep::Next(walk)) = step {
        walk.recall_steps();
    }
}

// The answer of a page, once it is found.
fn page_answer(alloc: Global, query: Query, step: Result<PageStep, ScanFault>) -> LineOutcome
    ensures { PageAnswer query step result }
{
    match step {
        Ok(PageStep::Done(page)) => LineOutcome::Done(answer_scan(alloc, Ok(page))),
        Ok(PageStep::Next(walk)) => LineOutcome::Pending(PendingLookup::Page(query, walk)),
        Err(fault) => LineOutcome::Done(answer_scan(alloc, Err(fault))),
    }
}

// The answer of a get, once all keys are read.
fn keys_answer(alloc: Global, walk: Result<GetWalk, ScanFault>) -> LineOutcome
    ensures answers { (bounds : Bounds) (trace : List (LookMade LiveReaderValue)) → IfOk walk (λ keys. IsOnGet bounds keys trace)
        → KeysAnswer bounds trace walk result }
    ensures some { IfOk walk (λ keys. (pending : GoingOn) → result ≡ LineOutcome.Pending pending
        → (pending ≡ PendingLookup.Keys keys) × (keys.read < length keys.keys)) }
    ensures fault { IfErr walk (λ _. answer_left result ≡ 0) }
{
    let walk = match walk {
        Ok(walk) => walk,
        Err(fault) => return LineOutcome::Done(refuse(alloc, CommandFault::Lookup(fault))),
    };
    if walk.left() > 0 {
        return LineOutcome::Pending(PendingLookup::Keys(walk));
    }
    match walk.end() {
        Ok((keys, cells)) => LineOutcome::Done(answer_get(alloc, keys, Ok(cells))),
        Err(fault) => LineOutcome::Done(refuse(alloc, CommandFault::Lookup(fault))),
    }
}

// The answer of a copy, once its lines are counted.
fn copy_answer(step: Result<CopyStep, NoMemory>) -> LineOutcome
    ensures { (records : ℕ) (count : CopyCountValue) → CountsOn records count step → CopyAnswer step result }
{
    match step {
        Ok(CopyStep::Done(copy)) => LineOutcome::Done(Reply::Copy(copy)),
        Ok(CopyStep::Next(count)) => LineOutcome::Pending(PendingLookup::Copy(count)),
        Err(_) => LineOutcome::Done(Reply::Refused(Refusal::Memory)),
    }
}
