//! A connection of an event loop: its socket, what it keeps between two turns, and for how long it is idle.

ghost use Rattle.std.specs.Prelude.{◌≡◌, ◌||◌, ◌+◌, ◌-◌, ◌^◌, ◌≤◌, ◌↔◌, min, true, IsTrue};
ghost use Rattle.pn_serve.specs.Session.Resuming.{KnowsNoLess};
ghost use Rattle.pn_stay.specs.Unread.{new_idle_timeout, after_quarter, aged, is_deaf, weight_in};
ghost use Rattle.std.specs.Option.{option_map};

use crate::bounded_reader::{BoundedLookup, BoundedReader};
use crate::counters::{Kept, UnreadCounters};
use crate::input_buffer::PolledInput;
use crate::quarter_clock::LineClock;
use crate::room::Room;
use crate::socket::{Socket, TrackedSocket};
use crate::unread::UnreadReply;
use mio::event::Event;
use pn_lines::{Counts, LineTurns, LinesEnd, Pause, PieceText, TurnBuffers, TurnOutcome};
use pn_protocol::LineCounts;
use pn_serve::{MAX_LINES, ReplyPieces, TimeCounters};
use std::alloc::Global;
use std::marker::Model;
use std::time::{Clock, Instant};

/// A connection with its socket.
#[derive(Drop)]
pub(crate) struct Connection {
    socket: Socket,
    lines: LineTurns<BoundedLookup, ReplyPieces>,
    pub(crate) idle: IdleTimeout,
    clock: LineClock,
    /// What waits for its client, if anything does.
    pub(crate) unread: Option<UnreadReply>,
    // What the reply weighs that was weighed last, after the number of lines up to its own.
    weighed: (u64, u64),
    pub(crate) room: Room,
    /// Whether it is among those that are to have a turn.
    pub(crate) is_ready: bool,
    /// Whether its socket is kept until its client has taken the replies: it had as many lines as may be.
    pub(crate) lingers: bool,
    /// Whether its input ends after what has come of it.
    pub(crate) is_ending: bool,
    // Whether the end of its input was reported, or a fault.
    is_closed: bool,
}

impl Connection {
    /// A connection of which nothing was read.
    pub(crate) fn new(alloc: Global, socket: Socket) -> Connection {
        Connection {
            socket,
            lines: LineTurns::new(alloc, MAX_LINES),
            idle: IdleTimeout::new(),
            clock: LineClock::new(),
            unread: None,
            weighed: (0, 0),
            room: Room::Unasked,
            is_ready: false,
            lingers: false,
            is_ending: false,
            is_closed: false,
        }
    }

    /// Notes what an event of its socket says of the end.
    pub(crate) fn note_event(&mut self, event: &Event) {
        self.is_closed |= event.is_read_closed() || event.is_error();
    }

    /// Its client's input ends after what has come of it.
    pub(crate) fn end_input(&mut self)
        ensures { self.new.is_ending ≡ true }
    {
        self.is_ending = true;
    }

    pub(crate) fn into_socket(self) -> Socket {
        let Connection { socket, .. } = self;
        socket
    }

    /// One turn, after which it is not ready. None where the connection has ended. The lines that it takes are counted.
    pub(crate) fn turn(
        &mut self,
        buffers: &mut TurnBuffers,
        reader: &mut BoundedReader,
        counted: &mut LineCounts,
    ) -> Option<Pause>
        ensures knows { KnowsNoLess reader.old reader.new }
    {
        self.is_ready = false;
        let mut socket = TrackedSocket::new(&self.socket);
        socket.end_input_if(self.is_ending);
        let mut input = PolledInput::new(socket, !self.is_ending && !self.is_closed);
        let mut output = TrackedSocket::new(&self.socket);
        let before = self.lines.counts();
        let turned = self.lines.turn(buffers, reader, &mut input, &mut output);
        add_lines(counted, before, self.lines.counts());
        let wanted = reader.wanted();
        let has_taken = output.has_moved();
        self.note_turn(turned, wanted, has_taken)
    }

    // Notes what a turn came to, whether the client took a byte, and for how many bytes its line waits, if it does: then it asks for no turn.
    fn note_turn(
        &mut self,
        turned: TurnOutcome,
        wanted: Option<u64>,
        has_taken: bool,
    ) -> Option<Pause> {
        let has_more = turned == TurnOutcome::Goes(Pause::Turn) || self.lines.is_pending();
        self.idle.note_activity(has_more || has_taken);
        self.room = self.room.after_turn(wanted, self.going_line());
        self.note_unread(turned == TurnOutcome::Goes(Pause::Output), has_taken);
        match turned {
            TurnOutcome::Goes(_) if has_more && wanted.is_none() => Some(Pause::Turn),
            TurnOutcome::Goes(Pause::Turn) => Some(Pause::Input),
            TurnOutcome::Goes(pause) => Some(pause),
            TurnOutcome::Ended(end) => {
                self.lingers = end != LinesEnd::Input;
                None
            }
            TurnOutcome::Failed(_) => None,
        }
    }

    /// Counts how long the lines took that have their replies since the last turn. Those of this one were at hand then.
    pub(crate) fn count_times<R: Clock>(
        &mut self,
        rt: &R,
        at_hand: &Option<Instant>,
        times: &TimeCounters,
    ) {
        let (lines, is_pending) = (self.lines.counts().lines, self.lines.is_pending());
        self.clock.end_turn(rt, at_hand, lines, is_pending, times);
    }

    /// What the records weigh that its reply keeps, where that waits for its client.
    pub(crate) fn unread_weight(&self) -> u64
        ensures { result ≡ weight_in self.now.unread }
    {
        match &self.unread {
            Some(unread) => unread.weight(),
            None => 0,
        }
    }

    /// What it counts for.
    pub(crate) fn kept(&self) -> Kept {
        Kept {
            bytes: self.unread_weight(),
            wanted: self.room.wanted(),
        }
    }

    /// How many bytes of records a reply may keep in its next turn: what its line was let in for, if it was.
    pub(crate) fn room_in(&self, unread: &UnreadCounters) -> u64 {
        match self.room {
            Room::Unasked => unread.room_beside(self.unread_weight()),
            Room::Wanted { .. } => 0,
            Room::Given { bytes, .. } => bytes,
        }
    }

    /// The number of its line that waits for room, if one does, and the client has taken all replies before.
    pub(crate) fn waits(&self) -> Option<u64> {
        match &self.unread {
            Some(_) => None,
            None => self.room.number(),
        }
    }

    /// Its line is let in that waits for room.
    pub(crate) fn let_in(&mut self) {
        self.room = self.room.let_in(self.lines.counts().lines);
        self.unread = Some(UnreadReply::new(self.room.given()));
    }

    // The line whose reply is looked for, if one is.
    fn going_line(&self) -> Option<u64> {
        if self.lines.is_pending() {
            return Some(self.lines.counts().lines);
        }
        None
    }

    /// A quarter of a second is over for the client, if replies wait for it. Whether it took no byte for half a minute. One whose line
    /// waits for room is not idle.
    pub(crate) fn age_unread(&mut self) -> Option<bool>
        ensures aged { self.new.unread ≡ option_map aged self.old.unread }
        ensures deaf { result ≡ option_map is_deaf self.new.unread }
    {
        self.idle.note_activity(self.lines.is_pending());
        match &mut self.unread {
            Some(unread) => {
                unread.end_quarter();
                Some(unread.is_deaf())
            }
            None => None,
        }
    }

    // Notes after a turn whether replies wait for the client, and whether it took a byte. A reply whose text is still to be made keeps
    // its records also where nothing waits: then the client is not what holds it up.
    fn note_unread(&mut self, waits: bool, has_taken: bool) {
        let weight = self.weigh();
        if !waits && weight == 0 {
            self.unread = None;
            return;
        }
        match &mut self.unread {
            Some(unread) => unread.note_turn(has_taken || !waits, weight),
            None => self.unread = Some(UnreadReply::new(weight)),
        }
    }

    // What the reply weighs whose text is still to be made, or the room given for it. It is looked over once: its line is the last taken.
    fn weigh(&mut self) -> u64 {
        let line = self.lines.counts().lines;
        match self.lines.unmade() {
            Some(text) if !text.is_made() => {
                if self.weighed.0 != line {
                    self.weighed = (line, text.0.weight());
                }
                self.weighed.1
            }
            _ => self.room.given(),
        }
    }
}

// Adds the lines that were taken between two counts.
fn add_lines(lines: &mut LineCounts, before: Counts, after: Counts)
    ensures answered { lines.new.answered ≡ min (lines.old.answered + (after.lines - before.lines)) (2 ^ 64 - 1) }
    ensures refused { lines.new.refused ≡ min (lines.old.refused + (after.refused - before.refused)) (2 ^ 64 - 1) }
{
    let answered = after.lines.saturating_sub(before.lines);
    let refused = after.refused.saturating_sub(before.refused);
    lines.answered = lines.answered.saturating_add(answered);
    lines.refused = lines.refused.saturating_add(refused);
}

/// For how many quarters of a second a client was idle: no reply went to it, and no turn of it had more to do.
#[derive(Drop)]
pub struct IdleTimeout {
    quarters: u32,
    has_moved: bool,
}

impl Model for IdleTimeout {
    ghost use Rattle.pn_stay.specs.Unread.{IdleTimeoutValue};

    ghost Value = { IdleTimeoutValue };

    ghost view = { λ timeout. record { quarters = timeout.quarters; has_moved = timeout.has_moved } };
}

impl IdleTimeout {
    /// The timeout of a client that has just come.
    pub fn new() -> IdleTimeout
        ensures { result ≡ new_idle_timeout }
    {
        IdleTimeout {
            quarters: 0,
            has_moved: true,
        }
    }

    /// Notes whether the client was active.
    pub fn note_activity(&mut self, has_moved: bool)
        ensures { self.new ≡ record self.old { has_moved = self.old.has_moved || has_moved } }
    {
        self.has_moved |= has_moved;
    }

    /// A quarter of a second is over.
    pub fn end_quarter(&mut self)
        ensures { self.new ≡ after_quarter self.old }
    {
        self.quarters = if self.has_moved {
            0
        } else {
            self.quarters.saturating_add(1)
        };
        self.has_moved = false;
    }

    /// For how many whole quarters the client was idle.
    pub fn quarters(&self) -> u32
        ensures { result ≡ self.now.quarters }
    {
        self.quarters
    }

    /// Whether the client was idle for `most` whole quarters.
    pub fn is_over(&self, most: u32) -> bool
        ensures { IsTrue result ↔ (most ≤ self.now.quarters) }
    {
        most <= self.quarters
    }
}
