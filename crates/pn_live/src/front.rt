//! Fronts: what is published of all tablets of a live region.

ghost use Rattle.std.specs.Prelude.{◌≡◌};
ghost use Rattle.pn_live.specs.Attempts.{settled_of};

use crate::publication_order::PublishPosition;
use pn_tablet::TabletOp;
use std::marker::Model;

/// What is published of one tablet.
#[derive(Drop)]
pub struct TabletNote {
    position: PublishPosition<TabletOp>,
}

impl Model for TabletNote {
    ghost use Rattle.pn_live.specs.Attempts.{settled_of};
    ghost use Rattle.pn_live.specs.PublishedTablets.{TabletNoteValue};

    ghost Value = { TabletNoteValue };

    ghost use Rattle.pn_live.specs.Proofs.{note_code};

    ghost coded = { note_code };

    ghost view = { λ note. record { book = note.position.seen.book; list = settled_of note.position.seen.log } };
}

impl TabletNote {
    /// The note of this position.
    pub fn of(position: PublishPosition<TabletOp>) -> TabletNote
        ensures book { result.book ≡ position.seen.book }
        ensures list { result.list ≡ settled_of position.seen.log }
    {
        TabletNote { position }
    }

    /// The position of the note.
    pub fn into_position(self) -> PublishPosition<TabletOp>
        ensures book { result.seen.book ≡ self.book }
        ensures list { settled_of result.seen.log ≡ self.list }
    {
        let TabletNote { position } = self;
        position
    }
}

/// What was published of each tablet of a live region when a call had ended. A reader of the region that
/// learns it reads no less from then on.
#[derive(Drop)]
pub struct Front {
    notes: Vec<TabletNote>,
}

impl Model for Front {
    ghost use Rattle.pn_live.specs.PublishedTablets.{TabletNoteValue};
    ghost use Rattle.std.specs.Prelude.{List};

    ghost Value = { List TabletNoteValue };

    ghost use Rattle.std.specs.Coded.{coded_list};
    ghost use Rattle.pn_live.specs.Proofs.{note_code};

    ghost coded = { coded_list note_code };

    ghost view = { λ front. front.notes.items };
}

impl Front {
    /// The front of these notes, one for each tablet.
    pub fn of(notes: Vec<TabletNote>) -> Front
        ensures { result ≡ notes.items }
    {
        Front { notes }
    }

    /// The notes of the front, one for each tablet.
    pub fn into_notes(self) -> Vec<TabletNote>
        ensures { result.items ≡ self }
    {
        let Front { notes } = self;
        notes
    }
}
