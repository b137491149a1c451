//! Replies to lookups and copies. Out of memory, the reply is that refusal.

ghost use Rattle.std.specs.Prelude.{◌≡◌, MatchResult};
ghost use Rattle.pn_protocol.specs.declared.reply.Reply.TheVariants.{Text, Refused};
ghost use Rattle.pn_protocol.specs.declared.refusal.Refusal.TheVariants.{Memory as no_memory};
ghost use Rattle.pn_protocol.specs.Reply.Texts.{ShowsCopy, ShowsCopyOf, ShowsFound, ShowsPage};
ghost use Rattle.pn_protocol.specs.Reply.Records.{get_data, read_data, scan_data};

use crate::reply::scan::page_head;
use crate::{CommandFault, PageReply, Refusal, Reply, refuse};
use pn_join::NoMemory;
use pn_record::{Cell, Key};
use pn_scan::{Page, ScanFault};
use pn_tablet::{CopyCount, CopyFault, CopyStep, TabletCopy};
use std::alloc::Global;

/// Answers a read of a key with the cell found there, if any.
pub fn answer_read(alloc: Global, key: Key, found: Result<Option<Cell>, ScanFault>) -> Reply
    ensures { ShowsFound (read_data key) found result }
{
    match found {
        Ok(cell) => Reply::Record { key, cell },
        Err(fault) => refuse(alloc, CommandFault::Lookup(fault)),
    }
}

/// Answers a get of keys with the cells found there, in the order of the keys.
pub fn answer_get(
    alloc: Global,
    keys: Vec<Key>,
    found: Result<Vec<Option<Cell>>, ScanFault>,
) -> Reply
    ensures { ShowsFound (λ cells. get_data keys.items cells.items) found result }
{
    match found {
        Ok(cells) => Reply::Records { keys, cells },
        Err(fault) => refuse(alloc, CommandFault::Lookup(fault)),
    }
}

/// Answers a scan with the page that was found.
pub fn answer_scan(alloc: Global, found: Result<Page, ScanFault>) -> Reply
    ensures { ShowsFound (λ page. scan_data (page.rows.items, page.next)) found result }
{
    match found {
        Ok(page) => page_reply(alloc, page),
        Err(fault) => refuse(alloc, CommandFault::Lookup(fault)),
    }
}

fn page_reply(alloc: Global, page: Page) -> Reply
    ensures { ShowsPage (page.rows.items, page.next) result }
{
    let Page { rows, next } = page;
    match page_head(alloc, next.as_ref()) {
        Ok(head) => Reply::Page(PageReply { head, rows }),
        Err(_) => Reply::Refused(Refusal::Memory),
    }
}

/// Answers a `copy` of the tablet of this number, of which all lines are counted at once.
pub fn answer_copy(alloc: Global, tablet: usize, copied: Result<TabletCopy, CopyFault>) -> Reply
    ensures { ShowsCopyOf tablet copied result }
{
    match copied {
        Ok(copy) => copy_reply(copy),
        Err(fault) => refuse(alloc, CommandFault::Copy { tablet, fault }),
    }
}

fn copy_reply(copy: TabletCopy) -> Reply
    ensures { ShowsCopy copy result }
{
    match CopyCount::new(copy).go_on(usize::MAX) {
        Ok(CopyStep::Done(text)) => Reply::Copy(text),
        _ => Reply::Refused(Refusal::Memory),
    }
}

/// Answers a command with this text.
pub fn answer_text(text: Result<Vec<u8>, NoMemory>) -> Reply
    ensures { MatchResult text (λ text. result ≡ Text text) (λ _. result ≡ Refused no_memory) }
{
    match text {
        Ok(text) => Reply::Text(text),
        Err(_) => Reply::Refused(Refusal::Memory),
    }
}
