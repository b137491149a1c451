//! Live tablets, which one thread changes while others read them without locks.
//!
//! A call that answers no `Result` takes no memory.
#![tactic(auto)]

mod attempt;
mod fault;
mod front;
mod get_walk;
pub mod laws;
mod live_tablet;
mod publication_order;
mod published_state;
mod published_tablet;
mod read_guard;
mod reader;
mod reader_handle;
mod region;
mod tablet_reader;

pub use fault::{OpenFault, StartFault};
pub use front::Front;
pub use get_walk::GetWalk;
pub use reader::LiveReader;
pub use region::{LiveRegion, MAX_READERS};
