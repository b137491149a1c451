//! A region: the tablets of a layout, the marks of the streams taken into them, and a log of changes.
//!
//! It takes deliveries in rounds, loses tablets, adopts copies, and answers reads, gets and queries.
//!
//! Only calls that return a `Result` take memory.

#![tactic(auto)]

mod advancing;
mod fault;
pub mod laws;
mod marking;
mod notices;
pub mod read_laws;
mod reads;
pub mod recovery_laws;
mod region;

pub use advancing::{Covered, common_marks};
pub use fault::{AdvanceFault, RelayoutFault, RoundFault};
pub use marking::{MAX_STREAMS, check_marks, next_marks};
pub use notices::{Entry, History, LAST_NUMBER, Log, Notice, Since};
/// Why a copy was not adopted. `WrongRange`: no tablet has its range.
pub use pn_tablet::OpFault as AdoptFault;
pub use region::{Region, Round, recall_soundness};
