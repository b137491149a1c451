//! A reader that shows its bytes in pieces.

use std::io;
use std::io::{BufRead, ErrorKind, Read};

/// Shows at most `size` bytes at a time, and fails at poll number `fails_at`, of which the first is 1.
#[derive(Drop)]
pub struct PiecewiseReader<'a> {
    rest: &'a [u8],
    size: usize,
    polls: usize,
    fails_at: usize,
}

impl<'a> PiecewiseReader<'a> {
    /// A reader that never fails.
    pub fn new(bytes: &'a [u8], size: usize) -> PiecewiseReader<'a> {
        PiecewiseReader::failing(bytes, size, 0)
    }

    /// A reader that fails at one poll.
    pub fn failing(bytes: &'a [u8], size: usize, fails_at: usize) -> PiecewiseReader<'a> {
        PiecewiseReader {
            rest: bytes,
            size,
            polls: 0,
            fails_at,
        }
    }
}

impl Read for PiecewiseReader<'_> {
    fn read(&mut self, _buf: &mut [u8]) -> io::Result<usize> {
        Err(io::Error::from(ErrorKind::Unsupported))
    }
}

impl BufRead for PiecewiseReader<'_> {
    fn fill_buf(&mut self) -> io::Result<&[u8]> {
        self.polls = self.polls.wrapping_add(1);
        if self.polls == self.fails_at {
            return Err(io::Error::from(ErrorKind::Interrupted));
        }
        Ok(&self.rest[..self.size.min(self.rest.len())])
    }

    fn consume(&mut self, amount: usize) {
        self.rest = &self.rest[amount.min(self.rest.len())..];
    }
}
