//! Lines that several threads read, each a chunk of consecutive lines at the positions that follow from its number.

ghost use Rattle.std.specs.Prelude.{◌≡◌, ◌⊎◌, ◌↔◌, [], ◌++◌, None, Some, IfOk, IfErr, OnOk, OnErr, IsSome, IsTrue};
ghost use Rattle.pn_stream.specs.Streams.{Refuses};
ghost use Rattle.pn_stream.specs.Batches.{AddsMessage, CanBeRead, IsRead};
ghost use Rattle.pn_stream.specs.Messages.{IsMessageLine};

use crate::fault::StreamFault;
use crate::lines::WholeLine;
use crate::memory::{NoWait, ReaderMemory, push_one};
use crate::next::{check_step, message_of_line};
use pn_record::Image;
use std::alloc::Global;
use std::thread::{Threads, join};

/// The fewest lines worth a thread.
pub(crate) const MIN_LINES_PER_THREAD: usize = 128;

/// The images of messages in step, and the fault that ended them, if one did.
#[derive(Drop)]
pub(crate) struct ReadRun {
    pub(crate) images: Vec<Image>,
    pub(crate) fault: Option<StreamFault>,
}

impl ReadRun {
    // Whether memory ran out for a message.
    fn lacks_memory(&self) -> bool
        ensures { IsTrue result ↔ (self.now.fault ≡ Some StreamFault.Memory) }
    {
        matches!(self.fault, Some(StreamFault::Memory))
    }
}

/// How many of the workers get a chunk of this many lines.
pub(crate) fn chunk_count(workers: usize, lines: usize) -> usize {
    workers.min(lines / MIN_LINES_PER_THREAD)
}

/// Reads the messages of the lines, of which the first is due after `position`. While there are two workers or more, one's
/// chunk is cut off and read in a thread of its own.
#[cycle(chunks)]
pub(crate) fn read_chunks<R: Threads>(
    rt: &R,
    alloc: Global,
    lines: &[WholeLine],
    position: u64,
    workers: usize,
) -> ReadRun
    requires lines { CanBeRead position lines.now }
    ensures { IsRead position lines.now result.images.items result.fault }
{
    if workers < 2 || lines.len() < 2 {
        return read_lines(alloc, lines, position);
    }
    let count = (lines.len() / workers).clamp(1, lines.len() - 1);
    let (low, high) = lines.split_at(count);
    let (next, others) = (position + count as u64, workers - 1);
    let front = || -> ReadRun
        requires { CanBeRead position low.now }
        ensures { IsRead position low.entry.now result.images.items result.fault }
    { read_lines(alloc, low, position) };
    let back = || -> ReadRun
        requires { CanBeRead next high.now }
        ensures { IsRead next high.entry.now result.images.items result.fault }
    { read_chunks(rt, alloc, high, next, others) };
    let (earlier, later) = join(rt, front, back);
    put_together(earlier, later)
}

/// Reads the messages of the lines as `read_chunks` does. Where memory runs out, it goes on from the line that it ran out
/// for, in one thread.
pub(crate) fn read_in_memory<R: Threads, M: ReaderMemory>(
    rt: &R,
    memory: &M,
    lines: &[WholeLine],
    position: u64,
    workers: usize,
) -> ReadRun
    requires lines { CanBeRead position lines.now }
    ensures read { IsRead position lines.now result.images.items result.fault }
    ensures gives_up { result.fault ≡ Some StreamFault.Memory → M.may_give_up }
{
    let mut run = read_chunks(rt, memory.alloc(), lines, position, workers);
    for _ in 0..u64::MAX {
        if !run.lacks_memory() || !memory.wait() {
            return run;
        }
        run = read_on(memory.alloc(), lines, position, run);
    }
    memory.give_up();
    run
}

// Reads on from the line that memory ran out for.
fn read_on(alloc: Global, lines: &[WholeLine], position: u64, run: ReadRun) -> ReadRun
    requires lines { CanBeRead position lines.now }
    requires so_far { IsRead position lines.now run.images.items (Some StreamFault.Memory) }
    ensures { IsRead position lines.now result.images.items result.fault }
{
    let count = run.images.len();
    let (_, left) = lines.split_at(count);
    let next = read_lines(alloc, left, position + count as u64);
    let before = ReadRun {
        images: run.images,
        fault: None,
    };
    put_together(before, next)
}

// The images of a chunk and of what follows it; those of the chunk alone where a fault ended it.
fn put_together(front: ReadRun, back: ReadRun) -> ReadRun
    ensures hidden { IsSome front.fault → (result.images.items ≡ front.images.items) × (result.fault ≡ front.fault) }
    ensures follows { front.fault ≡ None → ((result.images.items ≡ front.images.items ++ back.images.items) × (result.fault ≡ back.fault))
        ⊎ ((result.images.items ≡ front.images.items) × (result.fault ≡ Some StreamFault.Memory)) }
{
    if front.fault.is_some() {
        return front;
    }
    let (mut both, mut more) = (front, back);
    match both.images.append(&mut more.images) {
        Ok(()) => ReadRun {
            images: both.images,
            fault: more.fault,
        },
        Err(_) => ReadRun {
            images: both.images,
            fault: Some(StreamFault::Memory),
        },
    }
}

// Reads the messages of the lines, until one is refused.
fn read_lines(alloc: Global, lines: &[WholeLine], position: u64) -> ReadRun
    requires lines { CanBeRead position lines.now }
    ensures { IsRead position lines.now result.images.items result.fault }
{
    let mut images = Vec::new(alloc);
    match push_messages(alloc, lines, position, &mut images) {
        Ok(()) => ReadRun {
            images,
            fault: None,
        },
        Err(fault) => ReadRun {
            images,
            fault: Some(fault),
        },
    }
}

// Adds the images of the lines' messages, until one is refused.
fn push_messages(
    alloc: Global,
    lines: &[WholeLine],
    position: u64,
    images: &mut Vec<Image>,
) -> Result<(), StreamFault>
    requires none { images.old.items ≡ [] }
    requires lines { CanBeRead position lines.now }
    ensures ok { OnOk result (IsRead position lines.now images.new.items None) }
    ensures err { IfErr result (λ fault. IsRead position lines.now images.new.items (Some fault)) }
{
    for line in lines {
        let wanted = position + images.len() as u64 + 1;
        push_message(alloc, line.bytes(), wanted, images)?;
    }
    Ok(())
}

// Adds the image of the line's message, which must have the position `wanted`. An error leaves the images as they were.
fn push_message(
    alloc: Global,
    line: &[u8],
    wanted: u64,
    images: &mut Vec<Image>,
) -> Result<(), StreamFault>
    ensures ok { OnOk result (AddsMessage wanted line.now images.old.items images.new.items) }
    ensures err { IfErr result (λ fault. Refuses wanted line.now fault) }
    ensures kept { OnErr result (images.new.items ≡ images.old.items) }
{
    let image = image_in_step(alloc, line, wanted)?;
    push_one(&NoWait::new(alloc), images, image)?;
    Ok(())
}

// The image of the line's message, which must have the position `wanted`.
fn image_in_step(alloc: Global, line: &[u8], wanted: u64) -> Result<Image, StreamFault>
    ensures ok { IfOk result (λ image. IsMessageLine line.now (wanted, image)) }
    ensures err { IfErr result (λ fault. Refuses wanted line.now fault) }
{
    let (at, image) = message_of_line(alloc, line, wanted)?;
    check_step(wanted, at)?;
    Ok(image)
}
