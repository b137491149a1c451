//! What lines are read from in turns: any reader, or one that says whether it has failed, and whether a poll reports what comes.

ghost use Rattle.std.specs.Prelude.{◌≡◌, ◌≢◌, ◌⊎◌, ℕ, List, Option, IfErr, MatchBool};
ghost use Rattle.std.specs.Io.{ReadsAtMost};
ghost use Rattle.std.specs.Io.KnownBytes.{ReadConsumes};
ghost use Rattle.std.specs.IoError.{error_kind};

use std::io;
use std::io::{ErrorKind, Read};

/// How many bytes one read brings at most.
pub const READ_SIZE: usize = 16_384;

/// What lines are read from.
pub trait Input {
    // The bytes that reads will give from here on, where the type shows them.
    ghost remaining: { Self → Option (List ℕ) };

    // A read of it has failed, where the type shows it. A read that would block has not failed.
    ghost has_failed: { Self → Type 0 };

    /// Reads what is at hand, as far as there is room for it. Where it fails nothing is taken.
    fn read_some(&mut self, buf: &mut [u8]) -> io::Result<usize>
        ensures bound { ReadsAtMost result buf.new }
        ensures bytes { ReadConsumes (remaining self.old) (remaining self.new) result buf.new }
        ensures failed { IfErr result (λ error. (error_kind error ≡ ErrorKind.WouldBlock) ⊎ has_failed self.new) };

    /// Whether a poll reports what comes later, and the end. Then nothing more is at hand after a read that brought less than there
    /// was room for.
    fn is_polled(&self) -> bool;
}

impl<R: Read> Input for R {
    ghost remaining = { λ reader. R.remaining reader };

    ghost has_failed = { λ _. Unit {0} };

    fn read_some(&mut self, buf: &mut [u8]) -> io::Result<usize> {
        self.read(buf)
    }

    fn is_polled(&self) -> bool {
        false
    }
}

/// Whether an error says that the call would have waited.
pub fn is_wait(error: &io::Error) -> bool
    ensures { MatchBool result (error_kind error.now ≡ ErrorKind.WouldBlock) (error_kind error.now ≢ ErrorKind.WouldBlock) }
{
    match error.kind() {
        ErrorKind::WouldBlock => true,
        _ => false,
    }
}
