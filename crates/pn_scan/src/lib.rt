//! Queries, and reads of pages and of single records. What returns no `Result` takes no memory.
#![tactic(auto)]

mod condition;
mod filter;
pub mod laws;
mod page_walk;
mod pages;
mod part;
mod query;
mod query_json;
mod reads;
mod unchecked_conditions;
mod view;
mod walk;

pub use condition::Condition;
pub use page_walk::{LOOK_UNITS, PageStep, PageWalk};
pub use pages::page;
pub use part::{cell_of, part_of};
pub use query::{MAX_CONDITIONS, MAX_PAGE_ROWS, Query};
pub use query_json::{QueryFault, query_value, read_query, write_query};
pub use reads::{get, read_at_least, with_cell};
pub use view::{Budget, Page, PartResult, Row, ScanFault, View};
pub use walk::{MAX_PART_WORK, PartWalk, TabletRows, UNIT_WORK};
