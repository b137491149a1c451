//! The faults of stream readers.

ghost use Rattle.std.specs.Prelude.{◌≡◌};
ghost use Rattle.pn_stream.specs.declared.fault.ResumeFault.TheVariants.{Stream};
ghost use Rattle.pn_stream.specs.declared.fault.StreamFault.TheVariants.{Memory};

use pn_join::NoMemory;
use pn_record::ImageFault;
use thiserror::Error;

/// Why a reader returns no further message.
#[derive(Clone, Copy, Debug, PartialEq, Eq, Error)]
pub enum StreamFault {
    /// The source returned an error.
    #[error("the stream could not be read")]
    Read,
    /// More than 65,536 bytes came without a newline.
    #[error("a line of the stream is too long")]
    LineTooLong,
    /// The line is not a message. `at` is the position that was expected.
    #[error("no message at {at}: {fault}")]
    BadMessage { at: u64, fault: ImageFault },
    /// The line is a message of another position. After the last position, 10^15, every message is.
    #[error("the message at {wanted} was wanted and that at {got} came")]
    OutOfStep { wanted: u64, got: u64 },
    #[error("out of memory")]
    Memory,
    /// An earlier call returned a fault.
    #[error("the stream failed before")]
    Failed,
}

impl From<NoMemory> for StreamFault {
    ghost from_gives = { λ _ fault. fault ≡ Memory };

    fn from(_error: NoMemory) -> StreamFault {
        StreamFault::Memory
    }
}

/// Why a reader gives no first message of a publisher.
#[derive(Clone, Copy, Debug, PartialEq, Eq, Error)]
pub enum ResumeFault {
    /// As of any message, but never `OutOfStep`, unless an earlier call left it.
    #[error("{0}")]
    Stream(StreamFault),
    /// The line is a message of a position greater than the one that comes next.
    #[error("the message at {wanted} or one before it was wanted and that at {got} came")]
    Gap { got: u64, wanted: u64 },
}

impl From<StreamFault> for ResumeFault {
    ghost from_gives = { λ fault resumed. resumed ≡ Stream fault };

    fn from(fault: StreamFault) -> ResumeFault {
        ResumeFault::Stream(fault)
    }
}

impl From<NoMemory> for ResumeFault {
    ghost from_gives = { λ _ resumed. resumed ≡ Stream Memory };

    fn from(_error: NoMemory) -> ResumeFault {
        ResumeFault::Stream(StreamFault::Memory)
    }
}
