//! The log of what changes a region, and its history.

ghost use Rattle.std.specs.Prelude.{◌≡◌, [], ◌∷◌, ◌++◌, ◌≤◌, ◌<◌, ◌+◌, ◌^◌, length, drop, IfOk, IfSome, None, ◌⊎◌};
ghost use Rattle.std.specs.List.{flat_map};
ghost use Rattle.pn_region.specs.declared.notices.TheConstants.{LAST_NUMBER};
ghost use Rattle.pn_region.specs.Log.{entries_of, last_of, notices_from, IsSince, kept_with};
ghost use Rattle.circular_buffer.specs.Buffer.{buffer};

use circular_buffer::HeapCircularBuffer;
use pn_join::{Dup, NoMemory};
use pn_tablet::Change;
use std::alloc::Global;
use std::marker::Model;
use std::snapshot::Snapshot;

/// All items that were added, in order, as clauses see them. Nothing is stored.
#[derive(Drop)]
pub struct History<T> {
    past: Past<T>,
}

// Nothing, or an item after those before it.
#[derive(Drop)]
enum Past<T> {
    Start,
    After(Snapshot<Past<T>>, Snapshot<T>),
}

impl<T> Model for History<T> {
    ghost use Rattle.std.specs.Prelude.{List};
    ghost use Rattle.std.specs.Coded.{coded_list};

    ghost Value = { List T };

    ghost coded = { coded_list T.code };

    ghost use Rattle.pn_region.specs.Log.{items};

    ghost view = { λ history. items history.past };
}

impl<T> History<T> {
    /// An empty history.
    pub fn new() -> History<T>
        ensures { result ≡ [] }
    {
        History { past: Past::Start }
    }

    /// Adds the item at the end.
    pub fn push(&mut self, item: &T)
        ensures { self.new ≡ self.old ++ item.now ∷ [] }
    {
        self.past = Past::After(Snapshot::of(&self.past), Snapshot::of(item));
    }
}

/// How many changes a log keeps.
const MAX_NOTICES: usize = 1024;

/// The last number that an entry has.
pub const LAST_NUMBER: u64 = 1_000_000_000_000_000_000;

/// An entry of a log. Entries are numbered from 1.
#[derive(Drop)]
pub enum Entry {
    /// A round changed a record.
    Changed(Change),
    /// Records may have changed without notices.
    Break,
}

/// A change, with its number in the log.
#[derive(Debug, Drop)]
pub struct Notice {
    pub number: u64,
    pub change: Change,
}

/// The changes after a number. `next` is the last number that was given: the number to ask with next.
#[derive(Debug, Drop)]
pub enum Since {
    /// All changes after the number.
    Notices { next: u64, list: Vec<Notice> },
    /// They are not known: there was a break, they are more than the log keeps, or the number was not given yet.
    Missed { next: u64 },
}

/// The entries of a region, in order. It keeps the last 1,024 changes after the last break; their memory is
/// taken once.
#[derive(Drop)]
pub struct Log {
    entries: History<Entry>,
    // The number of the last entry; one above the greatest once entries came that have no number.
    last: u64,
    kept: HeapCircularBuffer<Change>,
    alloc: Global,
}

impl Model for Log {
    ghost use Rattle.std.specs.Prelude.{List};
    ghost use Rattle.pn_region.specs.declared.notices.Entry.{Entry};
    ghost use Rattle.pn_region.specs.Log.{IsLog};

    ghost Value = { List Entry };

    ghost view = { λ log. log.entries };

    ghost invariant = { λ log. IsLog log.entries log.last log.kept };
}

impl Log {
    /// A log without entries. The allocator serves its answers too.
    pub fn new(alloc: Global) -> Result<Log, NoMemory>
        ensures { IfOk result (λ log. log ≡ []) }
    {
        Ok(Log {
            entries: History::new(),
            last: 0,
            kept: HeapCircularBuffer::with_capacity(alloc, MAX_NOTICES)?,
            alloc,
        })
    }

    /// Adds the changes of a round, in order.
    pub fn add(&mut self, lists: Vec<Vec<Change>>)
        ensures { self.new ≡ self.old ++ entries_of (flat_map (λ list. list.items) lists.items) }
    {
        for list in lists {
            self.add_each(list);
        }
    }

    fn add_each(&mut self, changes: Vec<Change>)
        ensures { self.new ≡ self.old ++ entries_of changes.items }
    {
        for change in changes {
            self.put(Entry::Changed(change));
        }
    }

    /// Adds a break: earlier changes are no longer given.
    pub fn cut(&mut self)
        ensures { self.new ≡ self.old ++ Entry.Break ∷ [] }
    {
        self.put(Entry::Break);
    }

    fn put(&mut self, entry: Entry)
        ensures { self.new ≡ self.old ++ entry ∷ [] }
    {
        self.entries.push(&entry);
        self.last = (self.last + 1).min(LAST_NUMBER + 1);
        keep(&mut self.kept, entry);
        if self.last > LAST_NUMBER {
            self.kept.clear();
        }
    }

    /// The number of the last entry, at most the greatest that an entry has.
    pub fn last_number(&self) -> u64
        ensures { result ≡ last_of self.now }
    {
        self.last.min(LAST_NUMBER)
    }

    /// The notices after the number, or `Missed` where not all of them are kept.
    pub fn since(&self, number: u64) -> Result<Since, NoMemory>
        ensures { IfOk result (λ since. IsSince self.now number since) }
    {
        let next = self.last_number();
        match index_after(number, self.last, self.kept.len()) {
            Some(index) => Ok(Since::Notices {
                next,
                list: copy_notices(self.alloc, &self.kept, index, number)?,
            }),
            None => Ok(Since::Missed { next }),
        }
    }
}

// Adds an entry to the changes that are kept.
fn keep(kept: &mut HeapCircularBuffer<Change>, entry: Entry)
    ensures { kept.new ≡ buffer (kept_with entry kept.old.capacity kept.old.items) kept.old.capacity }
{
    match entry {
        Entry::Changed(change) => {
            let _ = kept.push_back(change);
        }
        Entry::Break => kept.clear(),
    }
}

// Where the changes after a number begin among those that are kept. None if some of them are not kept.
fn index_after(number: u64, last: u64, kept: usize) -> Option<usize>
    ensures some { IfSome result (λ index. (last ≤ LAST_NUMBER) × (index ≤ kept) × (number + kept ≡ last + index)) }
    ensures none { result ≡ None → (LAST_NUMBER < last) ⊎ ((last < number) ⊎ (number + kept < last)) }
{
    if last > LAST_NUMBER {
        return None;
    }
    let later = last.checked_sub(number)?;
    kept.checked_sub(later as usize)
}

// Copies of the changes from an index on, numbered from the one after `before`.
fn copy_notices(
    alloc: Global,
    kept: &HeapCircularBuffer<Change>,
    first: usize,
    before: u64,
) -> Result<Vec<Notice>, NoMemory>
    requires index { first ≤ length kept.now.items }
    requires numbers { before + length kept.now.items < 2 ^ 64 }
    ensures { IfOk result (λ list. list.items ≡ notices_from before (drop first kept.now.items)) }
{
    let mut list = Vec::with_capacity(alloc, kept.len() - first)?;
    let mut number = before;
    for index in first..kept.len() {
        let Some(change) = kept.get(index) else {
            unreachable!();
        };
        number += 1;
        list.push_reserved(Notice {
            number,
            change: copy_of(change)?,
        });
    }
    Ok(list)
}

fn copy_of(change: &Change) -> Result<Change, NoMemory>
    ensures { IfOk result (λ copy. copy ≡ change.now) }
{
    Ok(Change {
        key: change.key.dup()?,
        before: change.before,
        after: change.after,
    })
}
