//! A writer that takes little at a time, and fails at one write.

use std::alloc::Global;
use std::io;
use std::io::{ErrorKind, Write};

/// Takes at most `size` bytes at a time, and fails at write number `fails_at`, of which the first is 1.
#[derive(Drop)]
pub struct PiecewiseWriter {
    /// What was written.
    pub taken: Vec<u8>,
    /// How many writes there were.
    pub writes: usize,
    size: usize,
    fails_at: usize,
}

impl PiecewiseWriter {
    /// A writer that never fails.
    pub fn new(alloc: Global, size: usize) -> PiecewiseWriter {
        PiecewiseWriter::failing(alloc, size, 0)
    }

    /// A writer that fails at one write.
    pub fn failing(alloc: Global, size: usize, fails_at: usize) -> PiecewiseWriter {
        PiecewiseWriter {
            taken: Vec::new(alloc),
            writes: 0,
            size,
            fails_at,
        }
    }
}

impl Write for PiecewiseWriter {
    fn write(&mut self, buf: &[u8]) -> io::Result<usize> {
        self.writes = self.writes.wrapping_add(1);
        if self.writes == self.fails_at {
            return Err(io::Error::from(ErrorKind::BrokenPipe));
        }
        let count = self.size.min(buf.len());
        self.taken.extend_from_slice(&buf[..count])?;
        Ok(count)
    }

    fn flush(&mut self) -> io::Result<()> {
        Ok(())
    }
}
