//! Bounded lines from any buffered reader, and a write loop that says how much was written.
//!
//! What returns no `Result` allocates nothing.
#![tactic(auto)]

mod endless;
mod failing;
mod line_buffer;
mod reading;
mod sink;
mod source;

pub use endless::EndlessSource;
pub use failing::{FailingSink, FailingSource, InMemory};
pub use line_buffer::{ENDLESS, LineBuffer, MAX_KEPT_BYTES, MAX_LINE_BYTES, Piece};
pub use reading::{BoundedEnd, LineEnd, read_bounded_line, read_line};
pub use sink::{Discard, Sink, WriteFault, write_all_of};
pub use source::Source;
