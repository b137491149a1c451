//! Answers to reads, gets, scans and notices of a script.

ghost use Rattle.std.specs.Prelude.{◌≡◌, IfOk};
ghost use Rattle.pn_json.specs.Prelude.{line_of};
ghost use Rattle.pn_protocol.specs.Prelude.{get as get_asked, notices as notices_asked, read as read_asked, scan as scan_asked, found_since};
ghost use Rattle.pn_serve.specs.Machine.Outcomes.{machine_over};
ghost use Rattle.pn_serve.specs.Machine.Turns.{Obeys};

use pn_join::NoMemory;
use pn_protocol::{
    Refusal, Reply, answer_get, answer_read, answer_scan, answer_text, notices_reply,
};
use pn_record::{Key, Version};
use pn_region::{Region, Since};
use pn_scan::Query;
use std::alloc::Global;

/// Answers a `get`.
pub(crate) fn get(alloc: Global, region: &Region, keys: Vec<Key>) -> Reply
    ensures { Obeys (machine_over region.now) (get_asked keys.items) (machine_over region.now) result }
{
    let found = region.get(&keys);
    answer_get(alloc, keys, found)
}

/// Answers a `read`.
pub(crate) fn read(alloc: Global, region: &Region, key: Key, version: Option<Version>) -> Reply
    ensures { Obeys (machine_over region.now) (read_asked key version) (machine_over region.now) result }
{
    let found = region.read(&key, version);
    answer_read(alloc, key, found)
}

/// Answers a `scan`.
pub(crate) fn scan(alloc: Global, region: &Region, query: &Query) -> Reply
    ensures { Obeys (machine_over region.now) (scan_asked query.now) (machine_over region.now) result }
{
    answer_scan(alloc, region.scan(query))
}

/// Answers a `notices`.
pub(crate) fn look_up_notices(alloc: Global, region: &Region, since: u64) -> Reply
    ensures { Obeys (machine_over region.now) (notices_asked since) (machine_over region.now) result }
{
    match region.notices_since(since) {
        Ok(found) => answer_text(write_notices(alloc, found)),
        Err(_) => Reply::Refused(Refusal::Memory),
    }
}

// Writes notices, and frees them.
fn write_notices(alloc: Global, found: Since) -> Result<Vec<u8>, NoMemory>
    ensures { IfOk result (λ text. text.items ≡ line_of (found_since found)) }
{
    notices_reply(alloc, &found)
}
