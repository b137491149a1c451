//! Streams of images: messages read from lines, in the order of their positions. What returns no `Result` takes no
//! memory.
#![tactic(auto)]

mod chunks;
mod fault;
mod first;
pub mod laws;
mod lines;
mod memory;
mod message;
mod next;
mod reader;

pub use fault::{ResumeFault, StreamFault};
pub use memory::{NoWait, ReaderMemory};
pub use message::{Delivery, positions_fit, read_message};
pub use reader::{MAX_MESSAGES, StreamReader};
