//! What a client has not taken of its replies, and which clients are ended for it.

ghost use Rattle.std.specs.Prelude.{◌≡◌, ◌↔◌, IsTrue};
ghost use Rattle.pn_stay.specs.Unread.{IsEnded, after_turn, aged, is_deaf as deaf, new_unread, quiet_of};

use crate::connection::IdleTimeout;
use std::marker::Model;

/// For how many quarters of a second a client takes no byte before it may be ended because the limit is passed: a second.
pub(crate) const QUIET_QUARTERS: u32 = 4;

/// For how many quarters of a second a client takes no byte before it is ended: half a minute.
pub(crate) const DEAF_QUARTERS: u32 = 120;

/// What a client has not taken: for how long it takes no byte, and what the records weigh that its reply keeps.
#[derive(Drop)]
pub(crate) struct UnreadReply {
    quiet: IdleTimeout,
    weight: u64,
}

impl Model for UnreadReply {
    ghost use Rattle.pn_stay.specs.Unread.{UnreadValue};

    ghost Value = { UnreadValue };

    ghost view = { λ unread. record { quiet = unread.quiet; weight = unread.weight } };
}

impl UnreadReply {
    /// Replies begin to wait for a client.
    pub(crate) fn new(weight: u64) -> UnreadReply
        ensures { result ≡ new_unread weight }
    {
        UnreadReply {
            quiet: IdleTimeout::new(),
            weight,
        }
    }

    /// What the records weigh that the reply keeps.
    pub(crate) fn weight(&self) -> u64
        ensures { result ≡ self.now.weight }
    {
        self.weight
    }

    /// Notes after a turn whether the client took a byte, and what the records weigh that its reply keeps now.
    pub(crate) fn note_turn(&mut self, has_taken: bool, weight: u64)
        ensures { self.new ≡ after_turn has_taken weight self.old }
    {
        self.quiet.note_activity(has_taken);
        self.weight = weight;
    }

    /// A quarter of a second is over.
    pub(crate) fn end_quarter(&mut self)
        ensures { self.new ≡ aged self.old }
    {
        self.quiet.end_quarter();
    }

    /// Whether the client took no byte for half a minute.
    pub(crate) fn is_deaf(&self) -> bool
        ensures { result ≡ deaf self.now }
    {
        DEAF_QUARTERS <= self.quiet.quarters()
    }

    /// For how many quarters of a second the client took no byte, where its reply keeps records.
    pub(crate) fn quiet_quarters(&self) -> u32
        ensures { result ≡ quiet_of self.now }
    {
        if self.weight == 0 {
            return 0;
        }
        self.quiet.quarters()
    }
}

/// Whether a client is ended because the limit is passed: of those whose replies keep records it has taken no byte for longest, and
/// for a second at least.
pub(crate) fn is_ended(quarters: u32, longest: u32, is_past: bool) -> bool
    ensures { IsTrue result ↔ IsEnded quarters longest is_past }
{
    is_past && quarters == longest && longest >= QUIET_QUARTERS
}
