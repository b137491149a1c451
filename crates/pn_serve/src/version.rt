//! The version of the program.

/// The version that `--version` says, and `stats`.
pub const VERSION: &str = "0.3.0";
