//! Where lines are written, and why a write fails.

ghost use Rattle.std.specs.Prelude.{◌≡◌, length, IsOk, OnOk, OnErr, ◌<◌, ◌≤◌, ◌⊎◌, ℕ, List, Option, take, IfOk, IfErr};
ghost use Rattle.std.specs.Io.KnownBytes.{Appends, Keeps};
ghost use Rattle.pn_line.specs.Sent.{AppendsPrefix, WouldBlock};

use std::error::Error;
use std::io::Write;
use std::{fmt, io};

/// Why not all bytes were written.
#[derive(Debug, Drop)]
pub enum WriteFault {
    /// The writer gave this error.
    Failed(io::Error),
    /// The writer accepted no byte although some were left.
    TookNothing,
}

impl fmt::Display for WriteFault {
    fn fmt<W: fmt::Write>(&self, f: &mut fmt::Formatter<W>) -> fmt::Result {
        match self {
            WriteFault::Failed(error) => write!(f, "the writer failed: {error}"),
            WriteFault::TookNothing => write!(f, "the writer takes no more bytes"),
        }
    }
}

impl Error for WriteFault {}

/// Writes all the bytes, and does not flush the writer.
///
/// Any error of the writer ends it, `Interrupted` too: retries without limit might never end.
pub fn write_all_of<W: Sink>(writer: &mut W, bytes: &[u8]) -> Result<(), WriteFault>
    ensures ok { OnOk result (Appends (W.contents writer.old) (W.contents writer.new) bytes.now) }
    ensures err { OnErr result
        (AppendsPrefix (W.contents writer.old) (W.contents writer.new) bytes.now) }
    ensures fault { OnErr result W.may_fail }
    ensures nothing { length bytes.now ≡ 0 → IsOk result }
{
    let mut rest = bytes;
    while !rest.is_empty() {
        let count = writer.write_some(rest)?;
        rest = &rest[count..];
    }
    Ok(())
}

/// What bytes are written to.
pub trait Sink {
    // The bytes written so far, where the type shows them.
    ghost contents: { Self → Option (List ℕ) };

    // False for a type whose writes never fail.
    ghost may_fail: { Type 0 };

    // What was written so far was flushed, where the type shows it.
    ghost is_flushed: { Self → Type 0 };

    // A call of it has failed, where the type shows it. A write that would block has not failed.
    ghost has_failed: { Self → Type 0 };

    /// Writes a prefix of the bytes, at least one if there is one, and returns its length.
    ///
    /// A fault is an error of the writer, `Interrupted` too, or that it accepts no byte. Then nothing is written.
    fn write_some(&mut self, bytes: &[u8]) -> Result<usize, WriteFault>
        ensures within { IfOk result (λ count. count ≤ length bytes.now) }
        ensures some { IfOk result (λ count. 0 < length bytes.now → 0 < count) }
        ensures written { IfOk result
            (λ count. Appends (contents self.old) (contents self.new) (take count bytes.now)) }
        ensures fault { OnErr result may_fail }
        ensures kept { OnErr result (Keeps (contents self.old) (contents self.new)) }
        ensures failed { IfErr result (λ fault. WouldBlock fault ⊎ has_failed self.new) };

    /// Flushes the writer.
    fn flush(&mut self) -> Result<(), WriteFault>
        ensures all { OnOk result (is_flushed self.new) }
        ensures fault { OnErr result may_fail }
        ensures kept { Keeps (contents self.old) (contents self.new) }
        ensures failed { OnErr result (has_failed self.new) };
}

impl<W: Write> Sink for W {
    ghost contents = { λ writer. W.contents writer };

    ghost may_fail = { Unit {0} };

    ghost is_flushed = { λ _. Unit {0} };

    ghost has_failed = { λ _. Unit {0} };

    fn write_some(&mut self, bytes: &[u8]) -> Result<usize, WriteFault> {
        match self.write(bytes) {
            Ok(0) if !bytes.is_empty() => Err(WriteFault::TookNothing),
            Ok(count) => Ok(count),
            Err(error) => Err(WriteFault::Failed(error)),
        }
    }

    fn flush(&mut self) -> Result<(), WriteFault> {
        Write::flush(self).map_err(WriteFault::Failed)
    }
}

/// A sink that takes all bytes, keeps none and never fails.
#[derive(Clone, Copy, Debug)]
pub struct Discard;

impl Sink for Discard {
    ghost use Rattle.std.specs.Prelude.{None};

    ghost contents = { λ _. None };

    ghost may_fail = { ⊥ };

    ghost is_flushed = { λ _. Unit {0} };

    ghost has_failed = { λ _. ⊥ };

    fn write_some(&mut self, bytes: &[u8]) -> Result<usize, WriteFault> {
        Ok(bytes.len())
    }

    fn flush(&mut self) -> Result<(), WriteFault> {
        Ok(())
    }
}
