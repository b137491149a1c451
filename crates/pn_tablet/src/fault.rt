//! Why an operation, a copy or the text of a copy was refused.

ghost use Rattle.std.specs.Prelude.{◌≡◌};
ghost use Rattle.pn_tablet.specs.Tablets.{first_shortfall as the_first_shortfall};
ghost use Rattle.pn_tablet.specs.declared.fault.OpFault.TheVariants.{Memory as no_memory};
ghost use Rattle.pn_tablet.specs.declared.fault.CopyFault.TheVariants.{Memory as no_memory_to_copy};
ghost use Rattle.pn_tablet.specs.declared.fault.CopyTextFault.TheVariants.{Memory as no_memory_to_read};

use pn_join::{Marks, NoMemory, StreamName};
use thiserror::Error;

/// Why an operation was refused. The tablet stays as it was.
#[derive(Debug, Drop, Error)]
pub enum OpFault {
    /// A key lies outside the tablet's range, or the copy is of another range.
    #[error("wrong range")]
    WrongRange,
    /// The copy does not reach the tablet's need: the first stream that falls short, the copy's position, 0 for
    /// none, and the one needed.
    #[error("too old: the copy has {has} of stream {name}, and {needs} are needed", name = .stream.as_str())]
    TooOld {
        stream: StreamName,
        has: u64,
        needs: u64,
    },
    #[error("out of memory")]
    Memory,
}

impl From<NoMemory> for OpFault {
    ghost from_gives = { λ _ fault. fault ≡ no_memory };

    fn from(_error: NoMemory) -> OpFault {
        OpFault::Memory
    }
}

/// A stream at which marks fall short of a need: the position that they have, 0 for none, and the one wanted.
#[derive(Drop)]
pub struct Shortfall {
    pub stream: StreamName,
    pub has: u64,
    pub wanted: u64,
}

/// Why no copy was made.
#[derive(Debug, Drop, Error)]
pub enum CopyFault {
    /// The tablet is recovering.
    #[error("recovering")]
    Recovering,
    /// The tablet's cover does not reach the need, or the tablet's reach: the first stream that falls short, the cover's
    /// position, 0 for none, and the one wanted.
    #[error("behind: the tablet has {has} of stream {name}, and {wanted} are wanted", name = .stream.as_str())]
    Behind {
        stream: StreamName,
        has: u64,
        wanted: u64,
    },
    #[error("out of memory")]
    Memory,
    /// No reader could enter. A tablet's own state never returns it.
    #[error("no entry")]
    NoEntry,
}

impl From<NoMemory> for CopyFault {
    ghost from_gives = { λ _ fault. fault ≡ no_memory_to_copy };

    fn from(_error: NoMemory) -> CopyFault {
        CopyFault::Memory
    }
}

/// The first stream, in byte order, at which marks fall short of a need.
pub fn first_shortfall(marks: &Marks, need: &Marks) -> Option<Shortfall>
    ensures { result ≡ the_first_shortfall marks.now need.now }
{
    let index = marks.shortfall(need)?;
    let (stream, wanted) = need.entry_at(index)?;
    Some(Shortfall {
        stream: *stream,
        has: marks.position(stream),
        wanted: wanted.0,
    })
}

/// Why a text is no copy: its first fault. Lines are counted from 1.
#[derive(Clone, Copy, Debug, PartialEq, Eq, Error)]
pub enum CopyTextFault {
    /// The text ends before the newline of its end line.
    #[error("the text of the copy is truncated")]
    Truncated,
    /// The line is too long, may not stand where it does, or has a number in a copy of form 1.
    #[error("line {0} of the copy is bad")]
    BadLine(u64),
    /// The key of the line's image is not in the range of the head.
    #[error("line {0} of the copy is outside of its range")]
    OutsideRange(u64),
    /// The line's mark or image does not come after the one before it.
    #[error("line {0} of the copy does not rise")]
    NotRising(u64),
    /// The end line's count is wrong, or something follows it.
    #[error("the end of the copy is bad")]
    BadEnd,
    #[error("out of memory")]
    Memory,
}

impl From<NoMemory> for CopyTextFault {
    ghost from_gives = { λ _ fault. fault ≡ no_memory_to_read };

    fn from(_error: NoMemory) -> CopyTextFault {
        CopyTextFault::Memory
    }
}
