//! Why a live region was not opened, or did not start from copies.

ghost use Rattle.std.specs.Prelude.{◌≡◌};
ghost use Rattle.pn_live.specs.declared.fault.OpenFault.TheVariants.{Memory as no_memory};

use pn_join::NoMemory;
use pn_region::{AdoptFault, AdvanceFault};
use std::alloc::AllocError;
use thiserror::Error;

/// Why a live region was not opened.
#[derive(Debug, Drop, Error)]
pub enum OpenFault {
    /// A tablet gave no reader.
    #[error("no reader is left")]
    NoReader,
    #[error("out of memory")]
    Memory,
}

impl From<NoMemory> for OpenFault {
    ghost from_gives = { λ _ fault. fault ≡ no_memory };

    fn from(_error: NoMemory) -> OpenFault {
        OpenFault::Memory
    }
}

impl From<AllocError> for OpenFault {
    ghost from_gives = { λ _ fault. fault ≡ no_memory };

    fn from(_error: AllocError) -> OpenFault {
        OpenFault::Memory
    }
}

/// Why a live region did not start from copies.
#[derive(Debug, Drop, Error)]
pub enum StartFault {
    #[error("{0}")]
    Open(OpenFault),
    /// A copy was not adopted.
    #[error("{0}")]
    Adopt(AdoptFault),
    /// The copies are of more than 16 streams, or memory ran out.
    #[error("{0}")]
    Advance(AdvanceFault),
}
