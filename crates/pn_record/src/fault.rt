//! Why a text or a value is no image.

ghost use Rattle.std.specs.Prelude.{◌≡◌, Some};
ghost use Rattle.pn_record.specs.Grammar.{word_of, word_of_fault};
ghost use Rattle.pn_record.specs.declared.fault.ImageFault.TheVariants.{Memory};

use pn_join::NoMemory;
use std::fmt;
use thiserror::Error;

/// The part of a value that is at fault.
#[derive(Clone, Copy, Debug, PartialEq, Eq)]
pub enum Member {
    /// The whole value, which is no object.
    Whole,
    Deleted,
    Fields,
    Key,
    Master,
    Version,
    /// The position of a message.
    At,
    /// The image of a message.
    Image,
    /// A member with an unknown name.
    Other,
}

/// Why an image was refused.
#[derive(Clone, Copy, Debug, PartialEq, Eq, Error)]
pub enum ImageFault {
    #[error("the line has more than 65,536 bytes")]
    TooLong,
    #[error("the line is not JSON")]
    NotJson,
    #[error("out of memory")]
    Memory,
    /// A member is missing, or of another kind.
    #[error("bad shape: {0}")]
    BadShape(Member),
    /// A member is of the right kind but breaks a limit.
    #[error("out of range: {0}")]
    OutOfRange(Member),
}

impl Member {
    /// The member's name in lower case.
    pub fn word(&self) -> &'static str
        ensures { result.now ≡ word_of self.now }
    {
        match self {
            Member::Whole => "whole",
            Member::Deleted => "deleted",
            Member::Fields => "fields",
            Member::Key => "key",
            Member::Master => "master",
            Member::Version => "version",
            Member::At => "at",
            Member::Image => "image",
            Member::Other => "other",
        }
    }
}

impl ImageFault {
    /// The fault's kind in lower case, as `bad-shape`.
    pub fn word(&self) -> &'static str
        ensures { result.now ≡ word_of_fault self.now }
    {
        match self {
            ImageFault::TooLong => "too-long",
            ImageFault::NotJson => "not-json",
            ImageFault::Memory => "memory",
            ImageFault::BadShape(_) => "bad-shape",
            ImageFault::OutOfRange(_) => "out-of-range",
        }
    }
}

impl fmt::Display for Member {
    ghost output = { λ member. Some (word_of member) };

    fn fmt<W: fmt::Write>(&self, f: &mut fmt::Formatter<W>) -> fmt::Result {
        f.write_str(self.word())
    }
}

impl From<NoMemory> for ImageFault {
    ghost from_gives = { λ _ fault. fault ≡ Memory };

    fn from(_error: NoMemory) -> ImageFault {
        ImageFault::Memory
    }
}
