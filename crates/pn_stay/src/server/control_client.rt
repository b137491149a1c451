//! The clients of a control thread, and the buffers that they use one after another.

ghost use Rattle.std.specs.Prelude.{◌≡◌, ◌≢◌, true, false, [], IfOk, Some, None};
ghost use Rattle.std.specs.Io.KnownBytes.{IsAtEnd, Keeps, prepend_known};

use crate::input_buffer::InputBuffer;
use crate::socket::{end_both_of, end_input_of};
use pn_line::{LineBuffer, Piece, Source};
use pn_lines::{Input, LineBuffers};
use std::alloc::{AllocError, Global};
use std::io;
use std::os::fd::RawFd;
use std::sync::{Mutex, Wait};

/// The buffers of a control thread. Their memory is allocated when they are made, and never again.
#[derive(Drop)]
pub(super) struct ControlBuffers {
    pub(super) lines: LineBuffers,
    pub(super) input: InputBuffer,
}

impl ControlBuffers {
    pub(super) fn new(alloc: Global) -> Result<ControlBuffers, AllocError> {
        let lines = LineBuffers::new(alloc)?;
        let input = InputBuffer::new(alloc)?;
        Ok(ControlBuffers { lines, input })
    }
}

/// An input, and what was read of it and is not answered yet.
#[derive(Drop)]
pub(super) struct HeldInput<I: Drop> {
    held: InputBuffer,
    input: I,
}

impl<I: Input + Drop> HeldInput<I> {
    /// An input of which nothing was read. What the buffer holds of another is dropped.
    pub(super) fn new(buffer: InputBuffer, input: I) -> HeldInput<I>
        ensures none { result.held ≡ [] }
        ensures input { result.input ≡ input }
    {
        let mut held = buffer;
        held.fill(&[]);
        HeldInput { held, input }
    }

    /// Gives the buffer back.
    pub(super) fn into_buffer(self) -> InputBuffer {
        let HeldInput { held, input: _ } = self;
        held
    }

    // Reads more where nothing is held. False at the end of the input.
    fn has_input(&mut self) -> io::Result<bool>
        ensures more { IfOk result (λ more. more ≡ true → self.new.held ≢ []) }
        ensures end { IfOk result (λ more. more ≡ false → (self.new.held ≡ []) × IsAtEnd (I.remaining self.new.input)) }
        ensures kept { Keeps (prepend_known self.old.held (I.remaining self.old.input)) (prepend_known self.new.held (I.remaining self.new.input)) }
    {
        if !self.held.is_empty() {
            return Ok(true);
        }
        self.held.read_from(&mut self.input)
    }
}

impl<I: Input + Drop> Source for HeldInput<I> {
    ghost use Rattle.std.specs.Io.KnownBytes.{prepend_known};

    ghost left = { λ source. prepend_known source.held (I.remaining source.input) };

    ghost may_fail = { Unit {0} };

    ghost may_end = { Unit {0} };

    ghost polls = { λ _. 0 };

    fn take_some(&mut self, line: &mut LineBuffer) -> io::Result<Piece> {
        if !self.has_input()? {
            return Ok(Piece::NoMore);
        }
        // Where what is held ends, the input may go on.
        match self.held.take_some(line)? {
            Piece::NoMore => Ok(Piece::Part),
            piece => Ok(piece),
        }
    }

    fn has_more(&mut self) -> io::Result<bool> {
        self.has_input()
    }
}

/// The client whom a control thread answers, and whether the thread has ended.
#[derive(Drop)]
pub(super) struct ControlClient(Mutex<ClientState>);

#[derive(Drop)]
struct ClientState {
    // The number of its socket, which is open while it stands here.
    socket: Option<RawFd>,
    // Whether the thread is to end once the lines that have come are answered.
    is_stopping: bool,
    // Whether no client is answered any more.
    is_cut: bool,
    has_ended: bool,
}

impl ControlClient {
    /// No client has come.
    pub(super) fn new() -> ControlClient {
        ControlClient(Mutex::new(ClientState {
            socket: None,
            is_stopping: false,
            is_cut: false,
            has_ended: false,
        }))
    }

    /// A client has come. Where the thread is to end, the lines that have come of it are answered, and no more.
    pub(super) fn begin<R: Wait>(&self, rt: &R, socket: RawFd) {
        self.0.lock(rt).begin(socket);
    }

    /// The client was answered to its end. Its socket is closed only after that.
    pub(super) fn end<R: Wait>(&self, rt: &R) {
        self.0.lock(rt).end();
    }

    /// The thread is to end once the lines that have come are answered.
    pub(super) fn stop<R: Wait>(&self, rt: &R) {
        self.0.lock(rt).stop();
    }

    /// From now on nothing is written to the client, nor to a later one.
    pub(super) fn cut<R: Wait>(&self, rt: &R) {
        self.0.lock(rt).cut();
    }

    /// Whether the thread is to end.
    pub(super) fn is_stopping<R: Wait>(&self, rt: &R) -> bool {
        self.0.lock(rt).is_stopping
    }

    /// The thread has ended.
    pub(super) fn note_end<R: Wait>(&self, rt: &R) {
        self.0.lock(rt).has_ended = true;
    }

    /// Whether the thread has ended.
    pub(super) fn has_ended<R: Wait>(&self, rt: &R) -> bool {
        self.0.lock(rt).has_ended
    }
}

impl ClientState {
    fn begin(&mut self, socket: RawFd)
        ensures socket { self.new.socket ≡ Some socket }
        ensures same { self.new.is_stopping ≡ self.old.is_stopping }
    {
        self.socket = Some(socket);
        if self.is_stopping {
            end_input_of(socket);
        }
        if self.is_cut {
            end_both_of(socket);
        }
    }

    fn end(&mut self)
        ensures socket { self.new.socket ≡ None }
        ensures same { self.new.is_stopping ≡ self.old.is_stopping }
    {
        self.socket = None;
    }

    fn stop(&mut self)
        ensures { self.new.is_stopping ≡ true }
    {
        self.is_stopping = true;
        if let Some(socket) = self.socket {
            end_input_of(socket);
        }
    }

    fn cut(&mut self)
        ensures { self.new.is_cut ≡ true }
    {
        self.is_cut = true;
        if let Some(socket) = self.socket {
            end_both_of(socket);
        }
    }
}
