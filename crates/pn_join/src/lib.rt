//! The base of every layer: values that join, names, and tables that join key by key.
//!
//! What returns no `Result` allocates nothing.
#![tactic(auto)]

mod join;
pub mod laws;
mod marks;
mod memory;
mod table;

pub use join::{Dup, Join};
pub use marks::{
    BadName, Highest, LAST_POSITION, MAX_NAME_BYTES, Marks, Name, StreamName, raise, raise_at,
};
pub use memory::NoMemory;
pub use table::{Entries, LeafList, Table, TableChange, copy_entries, dup_optional, join_last};
