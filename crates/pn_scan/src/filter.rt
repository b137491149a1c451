//! Which records a query shows.

ghost use Rattle.std.specs.Prelude.{◌≡◌, ◌<◌, ◌≤◌, ◌+◌, ◌&&◌, true, false, max, drop, map, option_map};
ghost use Rattle.std.specs.FinMap.{find, keys};
ghost use Rattle.std.specs.List.{list_all};
ghost use Rattle.std.specs.Option.{option_copied};
ghost use Rattle.pn_record.specs.Prelude.{bytes_cmp, shown_field, shown_value};
ghost use Rattle.pn_tablet.specs.Prelude.{is_from as from_end, is_before as before_end};
ghost use Rattle.pn_scan.specs.Queries.{shown_condition, field_of as name_of, are_equal as equal_values, begins_with as has_prefix};
ghost use Rattle.pn_scan.specs.Queries.{comes_before as is_before_value, is_met as value_met, meets as one_met, shows as all_met};
ghost use Rattle.pn_scan.specs.Shown.{is_after as after_end, is_shown_from, contents_work, shows_from, Knows, Stops};
ghost use Rattle.pn_scan.specs.declared.walk.TheConstants.{MAX_COMPARED, MAX_PART_WORK};

use crate::walk::{content_work, text_bytes};
use crate::{Condition, Query};
use pn_record::{Body, Cell, Content, Key, Value};

/// How far a look at the contents of a record came.
#[derive(Clone, Copy, Debug, PartialEq, Eq)]
pub(crate) struct ContentsLook {
    /// Whether it is known that one of them shows the record, or none.
    pub(crate) known: bool,
    pub(crate) shows: bool,
    /// Those before this index do not show it.
    pub(crate) end: usize,
    /// How much work is done.
    pub(crate) done: usize,
}

/// Looks at the contents of a record from an index on, until one shows it, or before one that would be too much work. Its key is below
/// the query's `to`.
pub(crate) fn look_at(
    query: &Query,
    key: &Key,
    cell: &Cell,
    from: usize,
    most: usize,
    done: usize,
) -> ContentsLook
    requires to { before_end query.now.to key.now ≡ true }
    requires few { done ≤ max most 1 }
    ensures known { result.known ≡ true → Knows (λ n. is_shown_from query.now n (key.now, cell.now))
        (λ n. contents_work query.now.conditions (drop n (keys cell.now.1))) from most done result }
    ensures stopped { result.known ≡ false → Stops (λ n. is_shown_from query.now n (key.now, cell.now))
        (λ n. contents_work query.now.conditions (drop n (keys cell.now.1))) from most done result }
{
    let look = look_at_contents(query.conditions(), cell.contents(), from, most, done);
    let shows = is_shown(query, key, look.shows);
    ContentsLook {
        known: look.known,
        shows,
        end: look.end,
        done: look.done,
    }
}

// Looks at contents until one meets the conditions, or before one that would be too much work.
fn look_at_contents(
    conditions: &[Condition],
    contents: &[Content],
    from: usize,
    most: usize,
    done: usize,
) -> ContentsLook
    requires { done ≤ max most 1 }
    ensures known { result.known ≡ true → Knows (λ n. shows_from (map shown_condition conditions.now) n contents.now)
        (λ n. contents_work (map shown_condition conditions.now) (drop n contents.now)) from most done result }
    ensures stopped { result.known ≡ false → Stops (λ n. shows_from (map shown_condition conditions.now) n contents.now)
        (λ n. contents_work (map shown_condition conditions.now) (drop n contents.now)) from most done result }
{
    let bytes = text_bytes(conditions);
    let mut now = done;
    for index in from..contents.len() {
        let content = &contents[index];
        let more = content_work(conditions, bytes, content);
        if !is_allowed(most, now, more) {
            return look_to(false, false, index, now);
        }
        now = now.saturating_add(more);
        if shows(conditions, content) {
            return look_to(true, true, index, now);
        }
    }
    look_to(true, false, from, now)
}

fn look_to(known: bool, shows: bool, end: usize, done: usize) -> ContentsLook
    ensures { result ≡ record { known = known; shows = shows; end = end; done = done } }
{
    ContentsLook {
        known,
        shows,
        end,
        done,
    }
}

// Whether this much more is allowed: it is not too much, or nothing was compared before.
fn is_allowed(most: usize, done: usize, more: usize) -> bool
    requires some { 1 ≤ more }
    requires few { more ≤ MAX_COMPARED + 1 }
    ensures yes { result ≡ true → done + more ≤ max most MAX_PART_WORK }
    ensures no { result ≡ false → 1 < done }
{
    if done <= 1 {
        return true;
    }
    if more > most.saturating_sub(done) {
        return false;
    }
    true
}

// Whether the query shows the record of a key that is below its `to`, where its contents do or do not.
fn is_shown(query: &Query, key: &Key, shows: bool) -> bool
    ensures { result ≡ (from_end query.now.from key.now && after_end query.now.after key.now && shows) }
{
    is_from(query.from(), key) && is_after(query.after(), key) && shows
}

fn is_from(from: Option<&Key>, key: &Key) -> bool
    ensures { result ≡ from_end (option_copied from.entry) key.now }
{
    match from {
        None => true,
        Some(from) => !(key < from),
    }
}

fn is_after(after: Option<&Key>, key: &Key) -> bool
    ensures { result ≡ after_end (option_copied after.entry) key.now }
{
    match after {
        None => true,
        Some(after) => after < key,
    }
}

fn shows(conditions: &[Condition], content: &Content) -> bool
    ensures { result ≡ all_met (map shown_condition conditions.now) content.now.0 }
{
    match &content.body {
        Body::Fields(fields) => meet_all(fields, conditions),
        Body::Deleted => false,
    }
}

fn meet_all(fields: &[(String, Value)], conditions: &[Condition]) -> bool
    ensures { result ≡ list_all (one_met (map shown_field fields.now)) (map shown_condition conditions.now) }
{
    for condition in conditions {
        if !meet(fields, condition) {
            return false;
        }
    }
    true
}

fn meet(fields: &[(String, Value)], condition: &Condition) -> bool
    ensures { result ≡ one_met (map shown_field fields.now) (shown_condition condition.now) }
{
    match field_value(fields, field_of(condition)) {
        Some(value) => is_met(condition, value),
        None => false,
    }
}

// The value of a field. Names are short and mostly differ in length, so that a walk, which compares lengths first,
// loads fewer texts than a binary search.
fn field_value<'f>(fields: &'f [(String, Value)], name: &str) -> Option<&'f Value>
    ensures { option_map (λ value. shown_value value.now) result ≡ find bytes_cmp name.now (map shown_field fields.now) }
{
    for (other, value) in fields {
        if name == other.as_str() {
            return Some(value);
        }
    }
    None
}

fn field_of(condition: &Condition) -> &str
    ensures { result.now ≡ name_of (shown_condition condition.now) }
{
    match condition {
        Condition::Has { field } => field.as_str(),
        Condition::Eq { field, .. } => field.as_str(),
        Condition::Lt { field, .. } => field.as_str(),
        Condition::Gt { field, .. } => field.as_str(),
        Condition::Prefix { field, .. } => field.as_str(),
    }
}

fn is_met(condition: &Condition, value: &Value) -> bool
    ensures { result ≡ value_met (shown_condition condition.now) (shown_value value.now) }
{
    match condition {
        Condition::Has { .. } => true,
        Condition::Eq { value: asked, .. } => are_equal(value, asked),
        Condition::Lt { value: asked, .. } => comes_before(value, asked),
        Condition::Gt { value: asked, .. } => comes_before(asked, value),
        Condition::Prefix { value: asked, .. } => begins_with(value, asked.as_str()),
    }
}

fn are_equal(value: &Value, other: &Value) -> bool
    ensures { result ≡ equal_values (shown_value value.now) (shown_value other.now) }
{
    match (value, other) {
        (Value::Number(number), Value::Number(other)) => number == other,
        (Value::Text(text), Value::Text(other)) => text == other,
        _ => false,
    }
}

fn comes_before(value: &Value, other: &Value) -> bool
    ensures { result ≡ is_before_value (shown_value value.now) (shown_value other.now) }
{
    match (value, other) {
        (Value::Number(number), Value::Number(other)) => number < other,
        (Value::Text(text), Value::Text(other)) => text < other,
        _ => false,
    }
}

fn begins_with(value: &Value, prefix: &str) -> bool
    ensures { result ≡ has_prefix (shown_value value.now) prefix.now }
{
    match value {
        Value::Number(_) => false,
        Value::Text(text) => text.as_bytes().starts_with(prefix.as_bytes()),
    }
}
