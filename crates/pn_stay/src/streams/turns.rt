//! How often it is printed that a stream's publishers end and begin again.

ghost use Rattle.std.specs.Prelude.{◌≡◌, true};

use crate::seldom::Seldom;
use crate::streams::notes::StreamNotes;
use std::alloc::AllocError;
use std::sync::Wait;
use std::time::Clock;

/// How many ends are printed in a minute at most.
const MAX_PRINTED: u32 = 60;

/// The turns of a stream's publishers. Where many end in a minute, nothing is printed of further ones.
#[derive(Drop)]
pub(crate) struct Turns {
    has_begun: bool,
    minute: Seldom,
    // How many ends were printed in this minute.
    printed: u32,
    // Whether the last end was not printed, and what there is to print of it while no other publisher has come.
    is_unprinted: bool,
    unprinted: Option<String>,
}

impl Turns {
    /// No publisher has come.
    pub(crate) fn new() -> Turns {
        Turns {
            has_begun: false,
            minute: Seldom::new(),
            printed: 0,
            is_unprinted: false,
            unprinted: None,
        }
    }

    /// Every publisher but the first begins again, which is printed where the end before it was.
    pub(crate) fn begin<R: Wait + Drop>(&mut self, notes: &StreamNotes<R>)
        ensures { self.new.has_begun ≡ true }
    {
        if self.has_begun && !self.is_unprinted {
            notes.begin_again();
        }
        self.has_begun = true;
        self.unprinted = None;
    }

    /// Prints how a publisher ended, or keeps it.
    pub(crate) fn end<R>(&mut self, notes: &StreamNotes<R>, how: Result<String, AllocError>)
    where
        R: Wait + Clock + Drop,
    {
        if self.minute.is_due(&notes.rt) {
            self.printed = 0;
        }
        if self.printed < MAX_PRINTED {
            self.printed += 1;
            self.is_unprinted = false;
            notes.leave(how);
        } else {
            self.is_unprinted = true;
            self.unprinted = how.ok();
        }
    }

    /// Prints how the last publisher ended, if that was kept and its minute is over.
    pub(crate) fn look<R: Wait + Clock + Drop>(&mut self, notes: &StreamNotes<R>) {
        if self.unprinted.is_none() || !self.minute.is_due(&notes.rt) {
            return;
        }
        if let Some(how) = self.unprinted.take() {
            notes.leave(Ok(how));
        }
        self.printed = 1;
        self.is_unprinted = false;
    }
}
