//! Checks lines before anybody publishes them: tells those that no region takes, and why.
//!
//! A line is to be an image, of which feeds make a message, or a message.
#![tactic(auto)]

mod checker;
mod input;
mod told;

pub use input::{CheckFault, check};
