//! A publisher's input without what it says of its stream: the rest are messages, byte for byte.

ghost use Rattle.std.specs.Prelude.{◌≡◌, ◌≤◌, [], drop, false, length, vec_len, IfOk};

use crate::streams::remarks::{RemarkFault, STREAM, Step, may_go_on_as, next_step, read_stream};
use memchr::memchr;
use pn_line::MAX_LINE_BYTES;
use std::alloc::{AllocError, Global};
use std::io;
use std::io::{ErrorKind, Read};

/// How many bytes are read at a time, at most.
pub(crate) const READ_SIZE: usize = 262_144;

/// How many bytes are read at a time before the first message.
const FIRST_READ_SIZE: usize = 4_096;

/// Who hears how far a broker is.
pub trait NewestListener {
    /// Hears the broker's newest position.
    fn hear_newest(&self, newest: u64);

    /// Waits before memory is asked for again.
    fn await_memory(&self);
}

/// A publisher's input. What it says of its stream is heard, and not given on.
#[derive(Drop)]
pub struct MessageInput<I: Drop, L: Drop> {
    alloc: Global,
    input: I,
    listener: L,
    // What was read and is not given on yet.
    held: Vec<u8>,
    // Whether the beginning of its first line was given on.
    is_inside: bool,
}

/// How many bytes were given on, and whether memory ran out then.
#[derive(Clone, Copy, Debug)]
struct Passed {
    given: usize,
    lacks_memory: bool,
}

impl<I: Read + Drop, L: NewestListener + Drop> MessageInput<I, L> {
    /// The input of a publisher, of which nothing was read.
    pub(crate) fn new(
        alloc: Global,
        input: I,
        listener: L,
    ) -> Result<MessageInput<I, L>, AllocError>
        ensures input { IfOk result (λ made. made.input ≡ input) }
        ensures held { IfOk result (λ made. made.held.items ≡ []) }
        ensures inside { IfOk result (λ made. made.is_inside ≡ false) }
    {
        let held = Vec::with_capacity(alloc, MAX_LINE_BYTES + READ_SIZE)?;
        Ok(MessageInput {
            alloc,
            input,
            listener,
            held,
            is_inside: false,
        })
    }

    /// What it reads from.
    pub(crate) fn input_mut(&mut self) -> &mut I {
        &mut self.input
    }

    /// What it reads from. What was read is dropped.
    pub(crate) fn into_input(self) -> I
        ensures { result ≡ self.input }
    {
        self.input
    }

    /// Waits for the first line, and takes it if it says whose stream the publisher's is.
    pub(crate) fn take_stream(&mut self) -> io::Result<Option<String>>
        ensures inside { self.new.is_inside ≡ self.old.is_inside }
    {
        let mut more = [0u8; FIRST_READ_SIZE];
        'lines: for _ in 0..u64::MAX {
            match memchr(b'\n', &self.held) {
                Some(end) => match read_stream(self.alloc, &self.held[..end]) {
                    Ok(stream) => {
                        self.drop_first(end + 1);
                        return Ok(Some(stream));
                    }
                    Err(RemarkFault::Other) => return Ok(None),
                    Err(RemarkFault::Memory) => self.listener.await_memory(),
                },
                None => {
                    if !may_go_on_as(STREAM, &self.held) || !self.read_more(&mut more)? {
                        return Ok(None);
                    }
                }
            }
        }
        Ok(None)
    }

    // Reads what is there after what is held, by way of a buffer. False at the end.
    fn read_more(&mut self, buf: &mut [u8]) -> io::Result<bool>
        ensures inside { self.new.is_inside ≡ self.old.is_inside }
        ensures size { length buf.new ≡ length buf.old }
    {
        let room = buf.len().min(READ_SIZE);
        self.held.reserve(room)?;
        let count = self.input.read(&mut buf[..room])?;
        self.held.extend_from_slice(&buf[..count]).unwrap();
        Ok(count > 0)
    }

    // Hears and gives on what is held, up to a line that may say how far the broker is once more of it comes.
    fn pass_on(&mut self, buf: &mut [u8]) -> Passed
        ensures within { result.given ≤ length buf.new }
        ensures size { length buf.new ≡ length buf.old }
        ensures input { self.new.input ≡ self.old.input }
    {
        let (mut used, mut given) = (0, 0);
        'steps: while used < self.held.len() && given < buf.len() {
            let rest = &self.held[used..];
            match next_step(self.alloc, rest, self.is_inside, buf.len() - given) {
                Ok(Some(Step::Give { count, is_inside })) => {
                    buf[given..given + count].copy_from_slice(&rest[..count]);
                    self.is_inside = is_inside;
                    given += count;
                    used += count;
                }
                Ok(Some(Step::Hear { line, newest })) => {
                    self.listener.hear_newest(newest);
                    used += line + 1;
                }
                Ok(None) => return self.passed(used, given, false),
                Err(_) => return self.passed(used, given, true),
            }
        }
        self.passed(used, given, false)
    }

    // `used` bytes of what was held were used, and `given` were given on.
    fn passed(&mut self, used: usize, given: usize, lacks_memory: bool) -> Passed
        requires { used ≤ vec_len self.old.held }
        ensures passed { result ≡ record { given = given; lacks_memory = lacks_memory } }
        ensures held { self.new.held.items ≡ drop used self.old.held.items }
        ensures input { self.new.input ≡ self.old.input }
        ensures inside { self.new.is_inside ≡ self.old.is_inside }
    {
        self.drop_first(used);
        Passed {
            given,
            lacks_memory,
        }
    }

    // Gives on what is held at the end of the input. How many bytes that are.
    fn give_rest(&mut self, buf: &mut [u8]) -> usize
        ensures within { result ≤ length buf.new }
        ensures input { self.new.input ≡ self.old.input }
    {
        let count = self.held.len().min(buf.len());
        buf[..count].copy_from_slice(&self.held[..count]);
        self.drop_first(count);
        self.is_inside = true;
        count
    }

    // Drops the first bytes of what is held.
    fn drop_first(&mut self, count: usize)
        requires { count ≤ vec_len self.old.held }
        ensures held { self.new.held.items ≡ drop count self.old.held.items }
        ensures input { self.new.input ≡ self.old.input }
        ensures inside { self.new.is_inside ≡ self.old.is_inside }
    {
        let left = self.held.len() - count;
        self.held.copy_within(count.., 0);
        self.held.truncate(left);
    }
}

impl<I: Read + Drop, L: NewestListener + Drop> Read for MessageInput<I, L> {
    fn read(&mut self, buf: &mut [u8]) -> io::Result<usize> {
        if buf.is_empty() {
            return Ok(0);
        }
        'turns: for _ in 0..u64::MAX {
            let passed = self.pass_on(buf);
            if passed.given > 0 {
                return Ok(passed.given);
            }
            if passed.lacks_memory {
                self.listener.await_memory();
            } else if !self.read_more(buf)? {
                return Ok(self.give_rest(buf));
            }
        }
        Err(io::Error::from(ErrorKind::OutOfMemory))
    }
}
