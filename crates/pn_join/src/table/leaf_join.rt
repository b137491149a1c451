//! Joins one entry into one leaf, and cuts a leaf in two.

ghost use Rattle.std.specs.Prelude.{◌≡◌, ◌+◌, ◌-◌, ◌*◌, ◌<◌, ◌≤◌, [], ◌++◌, length, reverse, take, drop, vec_len, vec_capacity, IsTrue, IfOk, OnOk, OnErr};
ghost use Rattle.std.specs.FinMap.{is_sorted};
ghost use Rattle.pn_join.specs.Indices.{index_of};
ghost use Rattle.pn_join.specs.PutAt.{IsAmong, IsJoinedAt};

use crate::{Dup, Join, NoMemory};

/// The most entries of a leaf.
pub const MAX_LEAF_ENTRIES: usize = 64;

/// The index of a key among the entries of one leaf.
pub fn binary_search<K: Ord, C>(entries: &[(K, C)], key: &K) -> Result<usize, usize>
    requires { IsTrue (is_sorted K.cmp entries.now) }
    ensures index { result ≡ index_of K.cmp key.now entries.now }
{
    entries.binary_search_by(|(other, _)| other.cmp(key))
}

/// Joins a content into that at an index, or puts it there with its key. An error leaves the entries as they were.
pub fn join_one<K: Ord + Dup, C: Join>(
    entries: &mut Vec<(K, C)>,
    index: Result<usize, usize>,
    key: K,
    content: C,
) -> Result<(), NoMemory>
    requires index { IsAmong (length entries.old.items) index }
    requires valid { C.valid content }
    ensures ok { OnOk result (IsJoinedAt C.meaning C.joined C.valid index key content entries.old.items entries.new.items) }
    ensures err { OnErr result (entries.new.items ≡ entries.old.items) }
{
    match index {
        Ok(index) => entries[index].1.join_from(&content),
        Err(index) => Ok(entries.insert(index, (key, content))?),
    }
}

/// Moves the greater half to the other vector if there are too many items for one leaf.
pub fn halve_if_long<T>(items: &mut Vec<T>, back: &mut Vec<T>)
    requires empty { back.old.items ≡ [] }
    requires few { length items.old.items ≤ 2 * MAX_LEAF_ENTRIES }
    requires capacity { (MAX_LEAF_ENTRIES < length items.old.items) → length items.old.items ≤ 2 * vec_capacity back.old }
    ensures whole { items.new.items ++ back.new.items ≡ items.old.items }
    ensures sizes { (length items.new.items ≤ MAX_LEAF_ENTRIES) × (length back.new.items ≤ MAX_LEAF_ENTRIES) }
    ensures some { (0 < length items.old.items) → 0 < length items.new.items }
{
    let count = items.len();
    if count > MAX_LEAF_ENTRIES {
        move_from(items, count - count / 2, back);
        back.reverse();
        items.shrink_to(MAX_LEAF_ENTRIES);
    }
}

/// Moves the items from an index on to the end of the others, last first.
pub fn move_from<T>(items: &mut Vec<T>, index: usize, others: &mut Vec<T>)
    requires within { index ≤ vec_len items.old }
    requires fits { vec_len others.old + (vec_len items.old - index) ≤ vec_capacity others.old }
    ensures prefix { items.new.items ≡ take index items.old.items }
    ensures back { others.new.items ≡ others.old.items ++ reverse (drop index items.old.items) }
    ensures len { vec_len items.new ≡ index }
    ensures others_len { vec_len others.new ≡ vec_len others.old + (vec_len items.old - index) }
    ensures capacity { vec_capacity items.new ≡ vec_capacity items.old }
    ensures others_capacity { vec_capacity others.new ≡ vec_capacity others.old }
{
    while items.len() > index {
        others.push_reserved(items.take_last());
    }
}
