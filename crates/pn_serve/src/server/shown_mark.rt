//! The mark of a stream, which the thread of rounds shows to others.

ghost use Rattle.std.specs.Prelude.{◌≡◌};
ghost use Rattle.pn_join.specs.Prelude.{position_of};
ghost use Rattle.pn_serve.specs.Server.Reports.{IsShown};

use pn_join::{Marks, StreamName};
use std::sync::atomic::{AtomicIn, Ordering, Rule};

/// A position that a mark of a stream had.
#[derive(Clone, Copy)]
pub(crate) struct MarkSeen {
    pub(crate) position: u64,
    ghost is_mark: { IsShown position },
}

impl MarkSeen {
    /// How far these marks have come of the stream of this name.
    pub(crate) fn of(marks: &Marks, name: &StreamName) -> MarkSeen
        ensures { result.position ≡ position_of marks.now name.now }
    {
        MarkSeen {
            position: marks.position(name),
        }
    }
}

/// That a number was a mark of a stream.
pub(crate) struct MarkRule;

impl Rule for MarkRule {
    ghost use Rattle.pn_serve.specs.Server.Reports.{IsShown};

    ghost invariant = { IsShown };
}

/// The region's mark of a stream, as it was shown last: at first 0.
#[derive(Drop)]
pub struct ShownMark(AtomicIn<MarkRule>);

impl ShownMark {
    /// A mark that was not shown.
    pub fn new() -> ShownMark {
        ShownMark(AtomicIn::new(0))
    }

    /// Shows how far these marks have come of the stream of this name.
    pub fn show(&self, marks: &Marks, name: &StreamName) {
        let seen = MarkSeen::of(marks, name);
        self.0.store(seen.position, Ordering::SeqCst);
    }

    /// The mark that was shown last.
    pub fn get(&self) -> u64
        ensures { IsShown result }
    {
        self.0.load(Ordering::SeqCst)
    }
}
