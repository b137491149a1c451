//! Why a line was refused.

ghost use Rattle.std.specs.Prelude.{◌≡◌};
ghost use Rattle.pn_protocol.specs.Reply.Short.{member_word};
ghost use Rattle.pn_protocol.specs.declared.refusal.Refusal.TheVariants.{Memory};

use pn_join::NoMemory;
use pn_record::Member;

/// The member of a line that is at fault.
#[derive(Clone, Copy, Debug, PartialEq, Eq)]
pub enum MemberName {
    /// The line itself, which is not an object.
    Whole,
    Do,
    Batches,
    Bounds,
    First,
    Images,
    Key,
    Keys,
    Lines,
    Need,
    Stream,
    Query,
    Seconds,
    Since,
    Tablet,
    Version,
    Wait,
    /// A member whose name is unknown there.
    Other,
    /// A member of an image.
    Image(Member),
}

impl MemberName {
    /// The member's name in lower case; for a member of an image, its own.
    pub fn word(&self) -> &'static str
        ensures { result.now ≡ member_word self.now }
    {
        match self {
            MemberName::Whole => "whole",
            MemberName::Do => "do",
            MemberName::Batches => "batches",
            MemberName::Bounds => "bounds",
            MemberName::First => "first",
            MemberName::Images => "images",
            MemberName::Key => "key",
            MemberName::Keys => "keys",
            MemberName::Lines => "lines",
            MemberName::Need => "need",
            MemberName::Stream => "stream",
            MemberName::Query => "query",
            MemberName::Seconds => "seconds",
            MemberName::Since => "since",
            MemberName::Tablet => "tablet",
            MemberName::Version => "version",
            MemberName::Wait => "wait",
            MemberName::Other => "other",
            MemberName::Image(member) => member.word(),
        }
    }
}

/// Why a line was refused: its first fault in the order of the variants.
#[derive(Clone, Copy, Debug, PartialEq, Eq)]
pub enum Refusal {
    /// The line has more than 65,536 bytes without its newline.
    TooLong,
    /// `serde_json` reads no value in the line.
    NotJson,
    /// A required member is missing, or a member is of another kind.
    BadShape(MemberName),
    /// A session does not run this command. A script never answers this.
    ReadOnly,
    /// All members are of the right kinds, and this one breaks a limit.
    OutOfRange(MemberName),
    /// Out of memory. It may replace any later fault.
    Memory,
}

impl From<NoMemory> for Refusal {
    ghost from_gives = { λ _ refusal. refusal ≡ Memory };

    fn from(_error: NoMemory) -> Refusal {
        Refusal::Memory
    }
}
