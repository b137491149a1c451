//! Room for the records that replies keep: how much there is, and which line waits for it.

ghost use Rattle.std.specs.Prelude.{◌≡◌, ◌==◌, ◌⊎◌, ◌<◌, ◌≤◌, ◌+◌, ◌-◌, ◌^◌, ◌↔◌, IsTrue, if◌then◌else◌};
ghost use Rattle.pn_stay.specs.Looks.{after_turn as becomes, given_in, kept_after, kept_for, let_in as lets_in, number_in, numbered, put_off_for, wanted_in};
ghost use Rattle.pn_stay.specs.declared.room.Room.TheVariants.{Given, Unasked};
ghost use Rattle.pn_stay.specs.declared.room.TheConstants.{SMALL_REPLY};

/// How many bytes the records of a reply may have that never waits for room.
const SMALL_REPLY: u64 = 65_536;

/// Room for any reply.
pub(crate) const ANY_ROOM: u64 = u64::MAX;

/// Whether a line waits for room for what its reply keeps.
#[derive(Clone, Copy, Debug, PartialEq, Eq)]
pub(crate) enum Room {
    /// None does.
    Unasked,
    /// It waits for room for `bytes`. `number` is its turn among the lines that wait, 0 before it has one.
    Wanted { number: u64, bytes: u64 },
    /// The line of this number was let in, with room for `bytes`.
    Given { line: u64, bytes: u64 },
}

impl Room {
    /// For how many bytes its line waits.
    pub(crate) fn wanted(self) -> u64
        ensures { result ≡ wanted_in self }
    {
        match self {
            Room::Wanted { bytes, .. } => bytes,
            Room::Unasked | Room::Given { .. } => 0,
        }
    }

    /// For how many bytes its line was let in.
    pub(crate) fn given(self) -> u64
        ensures { result ≡ given_in self }
    {
        match self {
            Room::Given { bytes, .. } => bytes,
            Room::Unasked | Room::Wanted { .. } => 0,
        }
    }

    /// The number of its line among those that wait.
    pub(crate) fn number(self) -> Option<u64>
        ensures { result ≡ number_in self }
    {
        match self {
            Room::Wanted { number, .. } => Some(number),
            Room::Unasked | Room::Given { .. } => None,
        }
    }

    /// A line that waits, and has no number, has this one.
    pub(crate) fn numbered(self, number: u64) -> Room
        ensures { result ≡ numbered number self }
    {
        match self {
            Room::Unasked => Room::Unasked,
            Room::Wanted { number: own, bytes } => Room::Wanted {
                number: number_or(own, number),
                bytes,
            },
            Room::Given { line, bytes } => Room::Given { line, bytes },
        }
    }

    /// A line that waits is let in. It is this one of its connection.
    pub(crate) fn let_in(self, line: u64) -> Room
        ensures { result ≡ lets_in line self }
    {
        match self {
            Room::Unasked => Room::Unasked,
            Room::Wanted { bytes, .. } => Room::Given { line, bytes },
            Room::Given { line, bytes } => Room::Given { line, bytes },
        }
    }

    /// After a turn in which a line was put off for `wanted` bytes, or none was. Room that was given is kept while the look for the reply to
    /// its line goes on, which is that to `pending`, if one does.
    pub(crate) fn after_turn(self, wanted: Option<u64>, pending: Option<u64>) -> Room
        ensures { result ≡ becomes wanted pending self }
    {
        match wanted {
            Some(bytes) => self.put_off(bytes),
            None => self.kept_after(pending),
        }
    }

    // A line was put off, now or before.
    fn put_off(self, bytes: u64) -> Room
        ensures { result ≡ put_off_for bytes self }
    {
        match self {
            Room::Unasked | Room::Given { .. } => Room::Wanted { number: 0, bytes },
            Room::Wanted { number, bytes } => Room::Wanted { number, bytes },
        }
    }

    // None was put off.
    fn kept_after(self, pending: Option<u64>) -> Room
        ensures { result ≡ kept_after pending self }
    {
        match pending {
            Some(line) => self.kept_for(line),
            None => Room::Unasked,
        }
    }

    // Room that was given is kept for its line.
    fn kept_for(self, pending: u64) -> Room
        ensures { result ≡ kept_for pending self }
    {
        match self {
            Room::Unasked | Room::Wanted { .. } => Room::Unasked,
            Room::Given { line, bytes } => given_if(line == pending, line, bytes),
        }
    }
}

// Room for a line, if this is so.
fn given_if(is_so: bool, line: u64, bytes: u64) -> Room
    ensures { result ≡ (if is_so then Given line bytes else Unasked) }
{
    if is_so {
        return Room::Given { line, bytes };
    }
    Room::Unasked
}

// A line's own number, or this one where it has none.
fn number_or(own: u64, number: u64) -> u64
    ensures { result ≡ (if own == 0 then number else own) }
{
    if own == 0 {
        return number;
    }
    own
}

/// Whether what unread replies keep and what lines wait for are past the limit.
pub(crate) fn is_past(kept: u64, wanted: u64, limit: u64) -> bool
    ensures { IsTrue result ↔ ((limit - kept < wanted) ⊎ (limit < kept)) }
{
    limit.saturating_sub(kept) < wanted || limit < kept
}

/// How much room there is for a reply where others keep `kept` bytes and wait for `wanted`: any, where both are 0.
pub(crate) fn room_beside(kept: u64, wanted: u64, limit: u64) -> u64
    ensures any { kept + wanted ≡ 0 → result ≡ 2 ^ 64 - 1 }
    ensures left { 0 < kept + wanted → result ≡ limit - (kept + wanted) }
{
    let taken = kept.saturating_add(wanted);
    if taken == 0 {
        return ANY_ROOM;
    }
    limit.saturating_sub(taken)
}

/// Whether there is room for a line that waits: within the limit, or where nobody keeps anything.
pub(crate) fn has_room(bytes: u64, kept: u64, limit: u64) -> bool
    ensures { IsTrue result ↔ ((kept ≡ 0) ⊎ ((kept ≤ limit) × (bytes ≤ limit - kept))) }
{
    kept == 0 || (kept <= limit && bytes <= limit.saturating_sub(kept))
}

/// Whether a reply is handed over by what it keeps: it is small, or there is room.
pub(crate) fn fits(weight: u64, room: u64) -> bool
    ensures { IsTrue result ↔ ((weight ≤ SMALL_REPLY) ⊎ (weight ≤ room)) }
{
    weight <= SMALL_REPLY || weight <= room
}
