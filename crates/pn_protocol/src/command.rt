//! The commands that lines say.

mod build;
pub(crate) mod control;
mod lookups;
mod members;
pub(crate) mod parse;
mod ranges;
mod shapes;
mod tablets;
pub(crate) mod word;

use pn_join::Marks;
use pn_record::{Key, Version};
use pn_scan::Query;
use pn_stream::Delivery;

/// What a line asks for.
#[derive(Drop)]
pub enum Command {
    /// Adopt the copy of a tablet whose text the next lines are, 1 to 1,000,000 of them.
    Adopt { lines: u64 },
    /// Show a copy of the tablet of this number that reaches these marks.
    Copy { need: Marks, tablet: u64 },
    /// Take these deliveries, in one round.
    Deliver(Vec<Delivery>),
    /// Show the records of these keys, in this order.
    Get(Vec<Key>),
    /// Lose what the tablet of this number holds.
    Lose { tablet: u64 },
    /// Show how far streams were taken.
    Marks,
    /// Show what changed after this number.
    Notices { since: u64 },
    /// Show the record of a key. Where a version is required, the record must have it or a later one.
    Read { key: Key, version: Option<Version> },
    /// Divide the keys into tablets at these bounds, at most 63. Whether they rise is not checked yet.
    Relayout(Vec<Key>),
    /// Show the records that a query asks for, up to its limit.
    Scan(Query),
    /// Show the tablets.
    Tablets,
}
