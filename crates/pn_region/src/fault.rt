//! Why a round or a change of layout was refused, or marks did not advance.

ghost use Rattle.std.specs.Prelude.{◌≡◌};
ghost use Rattle.pn_region.specs.declared.fault.AdvanceFault.TheVariants.{Memory as no_memory_to_advance};
ghost use Rattle.pn_region.specs.declared.fault.RelayoutFault.TheVariants.{Memory as no_memory_to_relay};
ghost use Rattle.pn_region.specs.declared.fault.RoundFault.TheVariants.{Memory as no_memory};

use pn_join::{NoMemory, StreamName};
use thiserror::Error;

/// Why a round was refused.
#[derive(Debug, Drop, Error)]
pub enum RoundFault {
    /// A delivery begins past its stream's next position. Nothing was changed.
    #[error("a gap in stream {name}: position {wanted} was wanted, and {got} came", name = .stream.as_str())]
    Gap {
        stream: StreamName,
        wanted: u64,
        got: u64,
    },
    /// There would be more than 16 streams. Nothing was changed.
    #[error("more than 16 streams")]
    TooManyStreams,
    /// Each tablet is as it was or has taken its part of the round, and at least one is as it was.
    ///
    /// The marks are as they were, and the round can be retried.
    #[error("out of memory")]
    Memory,
}

impl From<NoMemory> for RoundFault {
    ghost from_gives = { λ _ fault. fault ≡ no_memory };

    fn from(_error: NoMemory) -> RoundFault {
        RoundFault::Memory
    }
}

/// Why the layout was not changed. Nothing was changed.
#[derive(Debug, Drop, Error)]
pub enum RelayoutFault {
    /// The first tablet that is recovering.
    #[error("tablet {0} is still recovering")]
    StillRecovering(usize),
    #[error("out of memory")]
    Memory,
}

impl From<NoMemory> for RelayoutFault {
    ghost from_gives = { λ _ fault. fault ≡ no_memory_to_relay };

    fn from(_error: NoMemory) -> RelayoutFault {
        RelayoutFault::Memory
    }
}

/// Why marks did not advance. Nothing was changed.
#[derive(Debug, Drop, Error)]
pub enum AdvanceFault {
    /// All tablets have taken more than 16 streams.
    #[error("more than 16 streams")]
    TooManyStreams,
    #[error("out of memory")]
    Memory,
}

impl From<NoMemory> for AdvanceFault {
    ghost from_gives = { λ _ fault. fault ≡ no_memory_to_advance };

    fn from(_error: NoMemory) -> AdvanceFault {
        AdvanceFault::Memory
    }
}
