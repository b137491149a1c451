//! Rounds over the tablets of a layout, by several workers: the join that deliveries bring to each tablet, and
//! each join applied to its own tablet.
//!
//! Only calls that return a `Result` take memory.
#![tactic(auto)]

mod apply;
pub mod laws;
mod reducing;
mod share;
mod working;

pub use apply::{Gate, Open, Slot, apply_all};
pub use reducing::{MAX_WORKERS, reduce};
pub use share::{Batch, Share, shares_of};
