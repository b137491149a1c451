//! Why a region does not start from copies.

ghost use Rattle.std.specs.Prelude.{◌≡◌};
ghost use Rattle.pn_serve.specs.Copies.{NoRefusal, cut_fault, start_fault};
ghost use Rattle.pn_serve.specs.Copies.Reading.{IsErrorOf};
ghost use Rattle.pn_serve.specs.declared.copies.fault.CopiesFault.TheVariants.{Memory as no_memory};

use pn_join::NoMemory;
use pn_live::StartFault;
use pn_record::Key;
use pn_region::{AdoptFault, AdvanceFault};
use pn_tablet::{CopyFault, CopyTextFault, CutFault, MAX_BOUNDS};
use std::alloc::{AllocError, AllocFailed};
use std::fmt;

/// Why a region does not start from a text of copies.
#[derive(Debug, Drop)]
pub enum CopiesFault {
    /// An error of the reader.
    Read,
    /// The first faulty line of the whole text, counted from 1, and its fault, whose own line is counted in its copy.
    Line(u64, CopyTextFault),
    /// There are more copies than a layout has tablets.
    TooMany,
    /// The first key that is not in exactly one copy is in none. There is no key where it is before all others.
    NoCopy(Option<Key>),
    /// It is in two copies.
    TwoCopies(Option<Key>),
    /// The copies are of more than 16 streams.
    TooManyStreams,
    /// The first tablet of other bounds that would join copies of different marks, and why it gives no copy.
    Unequal(usize, CopyFault),
    Memory,
}

impl fmt::Display for CopiesFault {
    fn fmt<W: fmt::Write>(&self, f: &mut fmt::Formatter<W>) -> fmt::Result {
        match self {
            CopiesFault::Read => f.write_str("read"),
            CopiesFault::Line(line, fault) => write!(f, "line {line}: {}", line_word(*fault)),
            CopiesFault::TooMany => write!(f, "more than {}", MAX_BOUNDS + 1),
            CopiesFault::NoCopy(key) => write!(f, "no copy has the key {:?}", key_text(key)),
            CopiesFault::TwoCopies(key) => write!(f, "two copies have the key {:?}", key_text(key)),
            CopiesFault::TooManyStreams => f.write_str("too-many-streams"),
            CopiesFault::Unequal(tablet, fault) => {
                write!(
                    f,
                    "bounds: tablet {tablet} would join copies of different marks: {fault}"
                )
            }
            CopiesFault::Memory => f.write_str("memory"),
        }
    }
}

// The word of a fault, as replies have it.
fn line_word(fault: CopyTextFault) -> &'static str
    ensures { IsErrorOf fault result.now }
{
    match fault {
        CopyTextFault::Truncated => "truncated",
        CopyTextFault::BadLine(_) => "bad-line",
        CopyTextFault::OutsideRange(_) => "outside-range",
        CopyTextFault::NotRising(_) => "not-rising",
        CopyTextFault::BadEnd => "bad-end",
        CopyTextFault::Memory => "memory",
    }
}

// The text of a key; that of none is empty.
fn key_text(key: &Option<Key>) -> &str {
    match key {
        Some(key) => key.as_str(),
        None => "",
    }
}

impl From<NoMemory> for CopiesFault {
    ghost from_gives = { λ _ fault. fault ≡ no_memory };

    fn from(_error: NoMemory) -> CopiesFault {
        CopiesFault::Memory
    }
}

impl From<AllocError> for CopiesFault {
    ghost from_gives = { λ _ fault. fault ≡ no_memory };

    fn from(_error: AllocError) -> CopiesFault {
        CopiesFault::Memory
    }
}

impl<T: Drop> From<AllocFailed<T>> for CopiesFault {
    ghost from_gives = { λ _ fault. fault ≡ no_memory };

    fn from(_error: AllocFailed<T>) -> CopiesFault {
        CopiesFault::Memory
    }
}

impl From<CutFault> for CopiesFault {
    ghost from_gives = { λ cut fault. fault ≡ cut_fault cut };

    fn from(fault: CutFault) -> CopiesFault {
        match fault {
            CutFault::TooMany => CopiesFault::TooMany,
            CutFault::NoCopy(key) => CopiesFault::NoCopy(key),
            CutFault::TwoCopies(key) => CopiesFault::TwoCopies(key),
            CutFault::Memory => CopiesFault::Memory,
        }
    }
}

/// Why a live region of all tablets does not start, where no copy is refused.
pub(crate) fn start_fault(fault: StartFault) -> CopiesFault
    requires { NoRefusal fault }
    ensures { result ≡ start_fault fault }
{
    match fault {
        StartFault::Advance(AdvanceFault::TooManyStreams) => CopiesFault::TooManyStreams,
        StartFault::Adopt(AdoptFault::WrongRange | AdoptFault::TooOld { .. }) => unreachable!(),
        StartFault::Open(_)
        | StartFault::Adopt(AdoptFault::Memory)
        | StartFault::Advance(AdvanceFault::Memory) => CopiesFault::Memory,
    }
}
