//! Tablets: ranges of keys, the layouts that divide all keys into them, and the state of one tablet under operations.
//! What returns no `Result` takes no memory.
#![tactic(auto)]

mod change;
mod copy;
mod copy_chunks;
mod copy_count;
mod copy_draft;
mod copy_line;
mod copy_line_writing;
mod copy_reading;
mod copy_text;
mod counted_cells;
mod coverage;
mod fault;
pub mod laws;
mod layout;
mod range;
mod state;
mod weight;

pub use change::Change;
pub use copy::TabletCopy;
pub use copy_chunks::read_copy_by;
pub use copy_count::{CopyCount, CopyStep};
pub use copy_line_writing::MAX_COPY_LINE_BYTES;
pub use copy_reading::{read_copy, write_copy};
pub use copy_text::CopyText;
pub use counted_cells::RecordCounts;
pub use fault::{CopyFault, CopyTextFault, OpFault, Shortfall};
pub use layout::{CutFault, Layout, LayoutFault, MAX_BOUNDS, layout_of_copies};
pub use range::{Range, cells_within, is_before, write_end_member};
pub use state::{Status, TabletOp, TabletState};
pub use weight::record_weight;
