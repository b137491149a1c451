//! The next messages of a stream, read from the lines of its source.

ghost use Rattle.std.specs.Prelude.{◌≡◌, ◌≢◌, ℕ, ◌+◌, ◌<◌, ◌≤◌, false, [], ◌++◌, length, IfOk, IfErr, IfSome, OnOk, OnErr, IsErrOf, IsTrue};
ghost use Rattle.pn_join.specs.declared.marks.TheConstants.{LAST_POSITION};
ghost use Rattle.pn_stream.specs.Streams.{line_ended, message_due, Refuses, Stands};
ghost use Rattle.pn_stream.specs.Messages.{IsMessageLine};
ghost use Rattle.pn_stream.specs.Batches.{Batch, IsPart, IsNext, IsTaken, part_of};

use crate::fault::StreamFault;
use crate::memory::{ReaderMemory, make_in_memory, new_line, push_one};
use crate::message::read_message;
use pn_join::NoMemory;
use pn_line::{BoundedEnd, LineBuffer, Source, read_bounded_line};
use pn_record::{Image, ImageFault};
use std::alloc::Global;
use std::io;

/// How many messages are asked for: at most `most`, and fewer than `least` only where no further whole line is there
/// or a fault follows.
#[derive(Clone, Copy, Debug)]
pub(crate) struct BatchSize {
    pub(crate) least: usize,
    pub(crate) most: usize,
}

impl BatchSize {
    /// Whether to read on after `count` messages: they are too few, or a further newline was seen and the most is not reached.
    pub(crate) fn wants(self, count: usize, more: bool) -> bool
        requires { self.least ≤ self.most }
        ensures most { IsTrue result → count < self.most }
        ensures few { IsTrue result → more ≡ false → count < self.least }
        ensures enough { result ≡ false → self.least ≤ count }
    {
        count < self.least || more && count < self.most
    }
}

/// A message that was read, and whether a further newline was seen after its line.
#[derive(Drop)]
pub(crate) struct NextMessage {
    pub(crate) at: u64,
    pub(crate) image: Image,
    more: bool,
}

/// Adds the images of the next messages, until there are enough, no whole line is left, or a fault comes. The part of
/// a line that was read is kept.
pub(crate) fn next_images<S: Source, M: ReaderMemory>(
    memory: &M,
    held: &mut Option<LineBuffer>,
    source: &mut S,
    position: u64,
    size: BatchSize,
    images: &mut Vec<Image>,
) -> Result<(), StreamFault>
    requires part { IfSome held.old IsPart }
    requires none { images.old.items ≡ [] }
    requires position { position ≤ LAST_POSITION }
    requires some { 1 ≤ size.least }
    requires few { size.least ≤ size.most }
    ensures within { length images.new.items ≤ size.most }
    ensures positions { position + length images.new.items ≤ LAST_POSITION }
    ensures ok { OnOk result (IfSome (S.left source.old) (λ text.
        Batch size.least size.most position (part_of held.old ++ text) images.new.items None (part_of held.new) (S.left source.new))) }
    ensures err { IfErr result (λ fault. IfSome (S.left source.old) (λ text.
        Batch size.least size.most position (part_of held.old ++ text) images.new.items (Some fault) (part_of held.new) (S.left source.new))) }
    ensures part { IfSome held.new IsPart }
    ensures read { IsErrOf result StreamFault.Read → S.may_fail }
    ensures gives_up { IsErrOf result StreamFault.Memory → M.may_give_up }
    ensures not_failed { IsErrOf result StreamFault.Failed → ⊥ }
{
    let mut line = take_line(memory, held)?;
    let mut more = false;
    'images: while size.wants(images.len(), more) {
        let wanted = position + images.len() as u64 + 1;
        match next_message(memory, &mut line, source, wanted)? {
            Some(next) => {
                check_step(wanted, next.at)?;
                more = next.more;
                push_one(memory, images, next.image)?;
            }
            None => {
                *held = Some(line);
                return Ok(());
            }
        }
    }
    *held = Some(line);
    Ok(())
}

/// The line whose part was kept, or a new one.
pub(crate) fn take_line<M: ReaderMemory>(
    memory: &M,
    held: &mut Option<LineBuffer>,
) -> Result<LineBuffer, StreamFault>
    requires { IfSome held.old IsPart }
    ensures part { IfOk result IsPart }
    ensures front { IfOk result (λ line. line.bytes ≡ part_of held.old) }
    ensures memory { IfErr result (λ fault. fault ≡ StreamFault.Memory) }
    ensures gives_up { OnErr result M.may_give_up }
    ensures taken { held.new ≡ None }
{
    match held.take() {
        Some(line) => Ok(line),
        None => Ok(new_line(memory)?),
    }
}

/// Whether the message at `at` has the position `wanted`.
pub(crate) fn check_step(wanted: u64, at: u64) -> Result<(), StreamFault>
    ensures ok { OnOk result (at ≡ wanted) }
    ensures err { IfErr result (λ fault. (fault ≡ StreamFault.OutOfStep wanted at) × (at ≢ wanted)) }
{
    if at == wanted {
        Ok(())
    } else {
        Err(StreamFault::OutOfStep { wanted, got: at })
    }
}

/// The next message, of any position, or why there is none where that of `wanted` is due. None where no whole line is
/// left.
pub(crate) fn next_message<S: Source, M: ReaderMemory>(
    memory: &M,
    line: &mut LineBuffer,
    source: &mut S,
    wanted: u64,
) -> Result<Option<NextMessage>, StreamFault>
    requires { IsPart line.old }
    ensures next { IfOk result (λ found. IfSome (S.left source.old) (λ text.
        IsNext (line.old.bytes ++ text) found line.new.bytes (S.left source.new))) }
    ensures taken { IfOk result (λ found. IfSome found (λ message.
        IsTaken line.new.bytes (S.left source.old) (S.left source.new) message)) }
    ensures stands { IfErr result (λ fault. IfSome (S.left source.old) (λ text.
        Stands wanted (line.old.bytes ++ text) fault)) }
    ensures any_step { IfErr result (λ fault. (named got : ℕ) → fault ≢ StreamFault.OutOfStep named got) }
    ensures part { OnOk result (IsPart line.new) }
    ensures read { IsErrOf result StreamFault.Read → S.may_fail }
    ensures gives_up { IsErrOf result StreamFault.Memory → M.may_give_up }
    ensures not_failed { IsErrOf result StreamFault.Failed → ⊥ }
{
    let Some(more) = whole_line(read_bounded_line(line, source))? else {
        return Ok(None);
    };
    let (at, image) = message_in_memory(memory, line.bytes(), wanted)?;
    line.start();
    Ok(Some(NextMessage { at, image, more }))
}

// The message of a line, as `message_of_line` reads it. Where memory runs out, it is read again.
fn message_in_memory<M: ReaderMemory>(
    memory: &M,
    line: &[u8],
    wanted: u64,
) -> Result<(u64, Image), StreamFault>
    ensures ok { IfOk result (λ message. IsMessageLine line.now message) }
    ensures err { IfErr result (λ fault. Refuses wanted line.now fault) }
    ensures any_step { IfErr result (λ fault. (named got : ℕ) → fault ≢ StreamFault.OutOfStep named got) }
    ensures gives_up { IsErrOf result StreamFault.Memory → M.may_give_up }
{
    let mut attempt = || unless_memory(message_of_line(memory.alloc(), line, wanted));
    make_in_memory(memory, &mut attempt)?
}

// What was read, unless memory ran out.
fn unless_memory<T: Drop>(read: Result<T, StreamFault>) -> Result<Result<T, StreamFault>, NoMemory>
    ensures read { IfOk result (λ made. made ≡ read) }
    ensures memory { IfOk result (λ made. IsErrOf made StreamFault.Memory → ⊥) }
{
    match read {
        Err(StreamFault::Memory) => Err(NoMemory),
        read => Ok(read),
    }
}

/// Whether a further newline was seen after the line, if a whole one was read.
pub(crate) fn whole_line(end: io::Result<BoundedEnd>) -> Result<Option<bool>, StreamFault>
    ensures { result ≡ line_ended end }
{
    match end {
        Ok(BoundedEnd::Newline { more }) => Ok(Some(more)),
        Ok(BoundedEnd::EndOfInput) => Ok(None),
        Ok(BoundedEnd::TooLong) => Err(StreamFault::LineTooLong),
        Err(_) => Err(StreamFault::Read),
    }
}

/// The message of a line, or why it is none where that of `wanted` is due.
pub(crate) fn message_of_line(
    alloc: Global,
    line: &[u8],
    wanted: u64,
) -> Result<(u64, Image), StreamFault>
    ensures ok { IfOk result (λ message. IsMessageLine line.now message) }
    ensures err { IfErr result (λ fault. Refuses wanted line.now fault) }
    ensures any_step { IfErr result (λ fault. (named got : ℕ) → fault ≢ StreamFault.OutOfStep named got) }
{
    due(wanted, read_message(alloc, line))
}

// The message that was read, or why there is none of the position `wanted`.
fn due(wanted: u64, read: Result<(u64, Image), ImageFault>) -> Result<(u64, Image), StreamFault>
    ensures { result ≡ message_due wanted read }
{
    match read {
        Ok(message) => Ok(message),
        Err(ImageFault::Memory) => Err(StreamFault::Memory),
        Err(fault) => Err(StreamFault::BadMessage { at: wanted, fault }),
    }
}
