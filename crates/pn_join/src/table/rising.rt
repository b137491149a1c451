//! Entries that come in key order, and join one after another.

ghost use Rattle.std.specs.Prelude.{◌≡◌, IsTrue, OnOk, OnErr};
ghost use Rattle.std.specs.FinMap.{is_sorted};
ghost use Rattle.pn_join.specs.Indices.{index_of, AreUpTo};
ghost use Rattle.pn_join.specs.PutInLeaves.{IsPutOf};
ghost use Rattle.pn_join.specs.Tables.{IsTable};

use crate::table::leaf::is_last_below;
use crate::table::leaf_join::join_one;
use crate::{Dup, Join, NoMemory};

/// Joins a content into that at a key, where no entry has a greater one. An error leaves the entries as they were.
pub fn join_last<K: Ord + Dup, C: Join>(
    entries: &mut Vec<(K, C)>,
    key: K,
    content: C,
) -> Result<(), NoMemory>
    requires valid { C.valid content }
    requires table { IsTable K.cmp C.valid entries.old.items }
    requires up_to { AreUpTo K.cmp key entries.old.items }
    ensures ok { OnOk result (IsPutOf K.cmp C.meaning C.joined C.valid key content
        entries.old.items entries.new.items) }
    ensures err { OnErr result (entries.new.items ≡ entries.old.items) }
{
    let index = index_at_end(entries, &key);
    join_one(entries, index, key, content)
}

/// The index of a key among entries of which none has a greater one.
fn index_at_end<K: Ord, C>(entries: &[(K, C)], key: &K) -> Result<usize, usize>
    requires rising { IsTrue (is_sorted K.cmp entries.now) }
    requires up_to { AreUpTo K.cmp key.now entries.now }
    ensures { result ≡ index_of K.cmp key.now entries.now }
{
    if entries.is_empty() {
        return Err(0);
    }
    if is_last_below(entries, key) {
        return Err(entries.len());
    }
    Ok(entries.len() - 1)
}
