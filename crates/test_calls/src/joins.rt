//! Cases of `pn_join`: `join` of two tables, `entry` for one entry more, `least` for one below all others, `name` for a name.
//!
//! `slice` is for a part of a table, and `cut` for a table that is cut and put together again.
//!
//! A table is its first key, its step and its count; each key is its own content.

use crate::words::next_number;
use pn_join::{Dup, Entries, Highest, Join, Name, NoMemory, Table};
use std::alloc::Global;
use std::test::Fail;

/// The answer to a case.
pub(crate) fn answer(alloc: Global, line: &str) -> Result<String, Fail> {
    let (what, given) = line.split_once(' ').unwrap_or((line, ""));
    match what {
        "join" => join(alloc, given),
        "entry" => entry(alloc, given),
        "least" => least(alloc, given),
        "slice" => slice(alloc, given),
        "cut" => cut(alloc, given),
        _ => name(alloc, given),
    }
}

fn name(alloc: Global, text: &str) -> Result<String, Fail> {
    match Name::read(text.as_bytes()) {
        Ok(name) => Ok(String::from_str(alloc, name.as_str())?),
        Err(fault) => Ok(format!(in alloc; "{fault}")?),
    }
}

/// The entries of a table from one index to another. Where memory runs out they are taken again.
pub(crate) fn slice(alloc: Global, text: &str) -> Result<String, Fail> {
    let mut words = text;
    let table = table(alloc, &mut words)?;
    let part = part_of(&table, &mut words)?;
    form(alloc, &part)
}

fn part_of(table: &NumberTable, words: &mut &str) -> Result<NumberTable, Fail> {
    let from = (next_number(words)? as usize).min(table.len());
    let to = (next_number(words)? as usize).min(table.len()).max(from);
    match table.slice(from, to) {
        Ok(part) => Ok(part),
        Err(NoMemory) => Ok(table.slice(from, to)?),
    }
}

// A table cut at an index, and put together again.
fn cut_at(table: &NumberTable, index: usize) -> Result<NumberTable, NoMemory> {
    let count = table.len();
    let index = index.min(count);
    let front = table.slice(0, index)?;
    front.followed_by(table, index, count)
}

/// A table that is cut at one index after another and put together each time; whether leaves were added.
/// Where memory runs out it is cut again.
pub(crate) fn cut(alloc: Global, text: &str) -> Result<String, Fail> {
    let mut words = text;
    let table = table(alloc, &mut words)?;
    let before = table.leaves().count();
    let table = cut_at_all(table, words)?;
    cut_text(alloc, &table, before)
}

fn cut_text(alloc: Global, table: &NumberTable, before: usize) -> Result<String, Fail> {
    let few = table.leaves().count() <= before;
    let form = form(alloc, table)?;
    Ok(format!(in alloc; "{form}, no more leaves: {few}")?)
}

// A table that is cut at each of these indices.
fn cut_at_all(table: NumberTable, words: &str) -> Result<NumberTable, Fail> {
    let mut table = table;
    for word in words.split(' ') {
        table = cut_at_word(&table, word)?;
    }
    Ok(table)
}

fn cut_at_word(table: &NumberTable, word: &str) -> Result<NumberTable, Fail> {
    let index = word.parse::<usize>()?;
    match cut_at(table, index) {
        Ok(table) => Ok(table),
        Err(NoMemory) => Ok(cut_at(table, index)?),
    }
}

pub(crate) type NumberTable = Table<Highest, Highest>;

/// The table of a first key, a step and a count.
pub(crate) fn table(alloc: Global, words: &mut &str) -> Result<NumberTable, Fail> {
    let first = next_number(words)?;
    let step = next_number(words)?;
    let count = next_number(words)?;
    let mut table = NumberTable::new(alloc);
    for index in 0..count {
        add_once(&mut table, first.saturating_add(index.saturating_mul(step)))?;
    }
    Ok(table)
}

fn key_at(table: &NumberTable, index: usize) -> Option<u64> {
    let (key, _content) = table.entry_at(index)?;
    Some(key.0)
}

// Whether the leaves, one after another, are the entries, and each has 1 to 64. The table and its list of leaves
// have to show the same leaves.
fn is_in_leaves(table: &NumberTable) -> bool {
    let leaves = table.leaves();
    let mut entries = table.iter();
    for index in 0..leaves.count() {
        let leaf = table.leaf(index).unwrap_or_default();
        if leaf.is_empty() || leaf.len() > 64 || leaves.leaf(index) != Some(leaf) {
            return false;
        }
        if !begin_with(&mut entries, leaf) {
            return false;
        }
    }
    entries.next().is_none() && table.leaf(leaves.count()).is_none()
}

// Whether the next entries have the keys of a leaf.
fn begin_with(entries: &mut Entries<'_, Highest, Highest>, leaf: &[(Highest, Highest)]) -> bool {
    for (key, _content) in leaf {
        match entries.next() {
            Some((other, _content)) if other == key => {}
            _ => return false,
        }
    }
    true
}

// The first key, the step and the count of a table, or that it has no such form.
pub(crate) fn form(alloc: Global, table: &NumberTable) -> Result<String, Fail> {
    let first = key_at(table, 0).unwrap_or(0);
    let step = key_at(table, 1).unwrap_or(first).saturating_sub(first);
    let mut wanted = first;
    for (key, content) in table.iter() {
        if key.0 != wanted || content.0 != wanted {
            return Ok(format!(in alloc; "{} where {wanted} was due", key.0)?);
        }
        wanted = wanted.saturating_add(step);
    }
    if !is_in_leaves(table) {
        return Ok(String::from_str(alloc, "its leaves are not its entries")?);
    }
    Ok(format!(in alloc; "{first} {step} {}", table.len())?)
}

/// The join of two tables. Where memory runs out it is made again.
pub(crate) fn join(alloc: Global, tables: &str) -> Result<String, Fail> {
    let mut words = tables;
    let mut own = table(alloc, &mut words)?;
    let other = table(alloc, &mut words)?;
    if own.join_from(&other).is_err() {
        own.join_from(&other)?;
    }
    form(alloc, &own)
}

// The entries of the last leaf.
fn last_leaf(table: &NumberTable) -> Option<&[(Highest, Highest)]> {
    table.leaf(table.leaves().count().checked_sub(1)?)
}

// With how many equal leaves two tables begin.
fn count_equal_leaves(one: &NumberTable, other: &NumberTable) -> usize {
    let leaves = one.leaves();
    for index in 0..leaves.count() {
        if leaves.leaf(index) != other.leaves().leaf(index) {
            return index;
        }
    }
    leaves.count()
}

// Whether one leaf was changed or cut in two, or the first was made, and all others are as they were.
fn changes_one_leaf(before: &NumberTable, after: &NumberTable) -> bool {
    let (old, new) = (before.leaves(), after.leaves());
    let added = new.count().saturating_sub(old.count());
    let changed = count_equal_leaves(before, after);
    for index in changed.saturating_add(1)..old.count() {
        if old.leaf(index) != new.leaf(index.saturating_add(added)) {
            return false;
        }
    }
    added <= 1 && old.count() <= new.count()
}

// A table, and the same with one entry more. Where memory runs out it is joined again.
fn with_entry(alloc: Global, text: &str) -> Result<(NumberTable, NumberTable), Fail> {
    let mut words = text;
    let mut table = table(alloc, &mut words)?;
    let before = table.dup()?;
    add_entry(&mut table, next_number(&mut words)?)?;
    Ok((before, table))
}

fn add_entry(table: &mut NumberTable, number: u64) -> Result<(), NoMemory> {
    if add_once(table, number).is_ok() {
        return Ok(());
    }
    add_once(table, number)
}

fn add_once(table: &mut NumberTable, number: u64) -> Result<(), NoMemory> {
    let key = Highest(number);
    table.join_entry(key, key)
}

/// A table with one entry more, below all others, and whether its last leaf is as it was.
pub(crate) fn least(alloc: Global, text: &str) -> Result<String, Fail> {
    let (before, table) = with_entry(alloc, text)?;
    least_text(alloc, &before, &table)
}

fn least_text(alloc: Global, before: &NumberTable, table: &NumberTable) -> Result<String, Fail> {
    let stays = last_leaf(before) == last_leaf(table);
    Ok(format!(in alloc; "{} entries, last leaf stays: {stays}", table.len())?)
}

/// A table with one entry more, and whether that changed one leaf alone.
pub(crate) fn entry(alloc: Global, text: &str) -> Result<String, Fail> {
    let (before, table) = with_entry(alloc, text)?;
    entry_text(alloc, &before, &table)
}

fn entry_text(alloc: Global, before: &NumberTable, table: &NumberTable) -> Result<String, Fail> {
    let one = is_in_leaves(table) && changes_one_leaf(before, table);
    Ok(format!(in alloc; "{} entries, one leaf changed: {one}", table.len())?)
}
