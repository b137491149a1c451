//! Parses the arguments of the program.
#![tactic(auto)]

mod bounds;
mod faults;
mod help;
mod options;
mod planning;
mod plans;
mod streams;

pub use faults::{PlanFault, Refused, Why};
pub use options::numbers_are_as_written;
pub use planning::plan;
pub use plans::{Address, Plan, Service};
