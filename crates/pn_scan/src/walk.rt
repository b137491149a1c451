//! Looks into one tablet that are resumed, and what looking at records counts for.

ghost use Rattle.std.specs.Prelude.{◌≡◌, ◌≤◌, ◌+◌, ◌-◌, ◌*◌, ◌/◌, ◌^◌, min, map, ◌<◌, drop, length, max, IfOk};
ghost use Rattle.std.specs.List.{sum_by};
ghost use Rattle.pn_record.specs.Prelude.{shown_value};
ghost use Rattle.pn_scan.specs.Queries.{shown_condition};
ghost use Rattle.pn_scan.specs.Shown.{condition_bytes, content_work as work_of_content, fields_in, units_in, value_bytes, WalksTo};
ghost use Rattle.pn_scan.specs.Paging.{part_at, walk_answer, left_in, part_left, LooksAtMost};
ghost use Rattle.pn_scan.specs.declared.walk.TheConstants.{MAX_PART_WORK};

use crate::filter::look_at;
use crate::part::row_of;
use crate::{Condition, Query, Row};
use pn_join::NoMemory;
use pn_record::{Body, Content, Records, Value};
use pn_tablet::is_before;
use std::marker::Model;

/// How much work a unit is. A record with one content counts two where its conditions are cheap.
pub const UNIT_WORK: usize = 32;

/// The most that a content counts for beside one.
pub(crate) const MAX_COMPARED: usize = 384;

/// The most that the first content of a look counts for, with its record.
pub const MAX_PART_WORK: usize = MAX_COMPARED + 2;

/// How many pairs of a condition and a field count one.
pub(crate) const COMPARED_PAIRS: usize = 4;

/// How many bytes of the conditions' texts count one.
pub(crate) const COMPARED_BYTES: usize = 512;

/// What a content counts for where it is compared with conditions whose texts have this many bytes.
pub(crate) fn content_work(conditions: &[Condition], bytes: usize, content: &Content) -> usize
    requires { bytes ≡ min (sum_by condition_bytes (map shown_condition conditions.now)) (2 ^ 64 - 1) }
    ensures work { result ≡ work_of_content (map shown_condition conditions.now) content.now.0 }
    ensures some { 1 ≤ result }
    ensures few { result ≤ MAX_COMPARED + 1 }
{
    let pairs = conditions.len().saturating_mul(count_fields(content));
    let compared = (pairs / COMPARED_PAIRS).saturating_add(bytes / COMPARED_BYTES);
    1 + compared.min(MAX_COMPARED)
}

fn count_fields(content: &Content) -> usize
    ensures { result ≡ fields_in content.now.0 }
{
    match &content.body {
        Body::Fields(fields) => fields.len(),
        Body::Deleted => 0,
    }
}

/// The bytes of the conditions' texts, as far as that has 64 bits.
pub(crate) fn text_bytes(conditions: &[Condition]) -> usize
    ensures { result ≡ min (sum_by condition_bytes (map shown_condition conditions.now)) (2 ^ 64 - 1) }
{
    let mut bytes: usize = 0;
    for condition in conditions {
        bytes = bytes.saturating_add(bytes_of(condition));
    }
    bytes
}

fn bytes_of(condition: &Condition) -> usize
    ensures { result ≡ condition_bytes (shown_condition condition.now) }
{
    match condition {
        Condition::Has { .. } => 0,
        Condition::Eq { value, .. } => bytes_of_value(value),
        Condition::Lt { value, .. } => bytes_of_value(value),
        Condition::Gt { value, .. } => bytes_of_value(value),
        Condition::Prefix { value, .. } => value.len(),
    }
}

fn bytes_of_value(value: &Value) -> usize
    ensures { result ≡ value_bytes (shown_value value.now) }
{
    match value {
        Value::Number(_) => 0,
        Value::Text(text) => text.len(),
    }
}

/// How many whole units some work is, and one more for a rest, as far as that has 32 bits.
pub(crate) fn units_of(work: usize) -> u32
    ensures { result ≡ units_in work }
{
    u32::try_from(work.div_ceil(UNIT_WORK)).unwrap_or(u32::MAX)
}

/// How much work units are.
pub(crate) fn work_of(units: u32) -> usize
    ensures work { result ≡ UNIT_WORK * units }
    ensures few { result ≤ UNIT_WORK * (2 ^ 32 - 1) }
{
    units as usize * UNIT_WORK
}

/// What a look into a tablet has of its answer.
#[derive(Drop)]
pub enum TabletRows {
    /// The first rows that a query shows of the tablet, whether it shows more, and how much work it was to look.
    Done(Vec<Row>, bool, usize),
    /// The look is to be resumed, over what it took of the tablet.
    Rest(PartWalk),
}

/// How many records were looked at, and how many contents of the next one.
#[derive(Clone, Copy, Debug, PartialEq, Eq)]
pub(crate) struct Place {
    pub(crate) index: usize,
    pub(crate) seen: usize,
}

/// The rows that a look found so far, and the records of its tablet that it has still to look at, as they were found. They are its
/// own, so the tablet may change.
#[derive(Drop)]
pub struct PartWalk {
    rest: Records,
    // What of these was looked at.
    place: Place,
    rows: Vec<Row>,
    room: usize,
}

impl Model for PartWalk {
    ghost use Rattle.std.specs.Prelude.{◌≤◌, drop, length};
    ghost use Rattle.pn_scan.specs.WalkValues.{PartWalkValue};

    ghost Value = { PartWalkValue };

    ghost use Rattle.pn_scan.specs.WalkValues.{part_walk_code};

    ghost coded = { part_walk_code };

    ghost view = { λ walk. record { rows = walk.rows.items; rest = drop walk.place.index walk.rest; seen = walk.place.seen; room = walk.room } };

    ghost invariant = { λ walk. length walk.rows.items ≤ walk.room };
}

impl PartWalk {
    /// A look that found these rows, and has still to look at these records, of the first of which some contents were looked at.
    pub(crate) fn new(rest: Records, seen: usize, rows: Vec<Row>, room: usize) -> PartWalk
        requires { length rows.items ≤ room }
        ensures { result ≡ record { rows = rows.items; rest = rest; seen = seen; room = room } }
    {
        PartWalk {
            rest,
            place: Place { index: 0, seen },
            rows,
            room,
        }
    }

    /// Looks on for this much work, or at one more content. The answer that it comes to stays.
    pub fn go_on(self, query: &Query, work: usize) -> Result<TabletRows, NoMemory>
        ensures same { IfOk result (λ part. part_at query.now part ≡ walk_answer query.now self) }
        ensures few { IfOk result (LooksAtMost query.now (max work MAX_PART_WORK) self) }
        ensures less { IfOk result (λ part. left_in part < part_left self) }
    {
        let PartWalk {
            rest,
            place,
            mut rows,
            room,
        } = self;
        recall_len(&rest);
        recall_seen(place);
        match walk_some(&rest, place, query, room, work.max(1), &mut rows)? {
            WalkOutcome::All(more, spent) => Ok(TabletRows::Done(rows, more, spent)),
            WalkOutcome::To(place) => Ok(TabletRows::Rest(PartWalk {
                rest,
                place,
                rows,
                room,
            })),
        }
    }

    /// Recalls for the prover that how far a look is from its end is counted in 128 bits.
    pub(crate) fn recall_left(&self)
        ensures { part_left self.now ≤ 2 ^ 128 }
    {
        recall_len(&self.rest);
    }
}

// Recalls for the prover that records can be counted.
fn recall_len(cells: &Records)
    ensures { length cells.now < 2 ^ 64 }
{
    let _ = cells.len();
}

// Recalls for the prover that contents can be counted.
fn recall_seen(place: Place)
    ensures { place.seen < 2 ^ 64 }
{
    let _ = place.seen;
}

/// How far a walk over records came.
#[derive(Clone, Copy, Debug, PartialEq, Eq)]
pub(crate) enum WalkOutcome {
    /// The rows that there is room for were found, or all. Whether there are more, and how much work was done.
    All(bool, usize),
    /// What is before this place was looked at.
    To(Place),
}

/// Adds the rows that a query shows from a place on, for this much work, or that of one content.
pub(crate) fn walk_some(
    cells: &Records,
    from: Place,
    query: &Query,
    room: usize,
    most: usize,
    rows: &mut Vec<Row>,
) -> Result<WalkOutcome, NoMemory>
    requires len { length cells.now < 2 ^ 64 }
    requires few { length rows.old.items ≤ room }
    ensures { IfOk result (WalksTo query.now cells.now from most room rows.old.items rows.new.items) }
{
    let mut index = from.index;
    let mut seen = from.seen;
    let mut done: usize = 0;
    for (key, cell) in cells.iter_from(from.index) {
        if done >= most {
            return Ok(WalkOutcome::To(Place { index, seen }));
        }
        done += 1;
        if !is_before(query.to(), key) {
            return Ok(WalkOutcome::All(false, done));
        }
        let look = look_at(query, key, cell, seen, most, done);
        let known = look.known;
        if !known {
            let seen = look.end;
            return Ok(WalkOutcome::To(Place { index, seen }));
        }
        index = index.saturating_add(1);
        seen = 0;
        done = look.done;
        let shows = look.shows;
        if shows {
            if rows.len() == room {
                return Ok(WalkOutcome::All(true, done));
            }
            rows.push(row_of(key, cell)?)?;
        }
    }
    Ok(WalkOutcome::All(false, done))
}
