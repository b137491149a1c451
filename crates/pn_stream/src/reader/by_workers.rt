//! The next messages of a stream, whose lines several threads read.

ghost use Rattle.std.specs.Prelude.{◌≡◌, ◌≢◌, ◌≤◌, ◌++◌, length, All, Some, IfSome};
ghost use Rattle.pn_record.specs.Prelude.{max_line_bytes};
ghost use Rattle.pn_stream.specs.Calls.{GivesUp, IsCall, Takes};
ghost use Rattle.pn_stream.specs.Batches.{Gathered, IsWhole, first_fault as fault_before};
ghost use Rattle.pn_stream.specs.declared.reader.TheConstants.{MAX_MESSAGES};

use super::StreamReader;
use crate::chunks::{chunk_count, read_in_memory};
use crate::fault::StreamFault;
use crate::lines::{WholeLine, take_lines};
use crate::memory::ReaderMemory;
use crate::message::Delivery;
use crate::next::BatchSize;
use pn_line::Source;
use pn_record::Image;
use std::thread::Threads;

#[tactic(auto, using(crate::proofs::Steps::part_within))]
impl<S: Source + Drop> StreamReader<S> {
    /// The images of the next messages that already arrived, as of `next_ready`. Where there are many, this number of
    /// workers reads them, each some of the lines. A message that memory runs out for is read again once it was waited for.
    pub fn next_ready_by<R: Threads, M: ReaderMemory>(
        &mut self,
        rt: &R,
        memory: &M,
        workers: usize,
        max: usize,
    ) -> Result<Delivery, StreamFault>
        requires some { 1 ≤ max }
        requires few { max ≤ MAX_MESSAGES }
        ensures call { IsCall S.left S.may_fail 1 max self.old result self.new }
        ensures gives_up { GivesUp M.may_give_up self.old result self.new }
    {
        if workers < 2 {
            let size = BatchSize {
                least: 1,
                most: max,
            };
            return self.next_of_size(memory, size);
        }
        if let Some(fault) = self.waiting_fault() {
            return Err(self.fail(fault));
        }
        let (images, fault) = self.take_by(rt, memory, workers, max);
        self.settle(fault, images.is_empty())?;
        Ok(self.deliver(images))
    }

    // The images of the next messages, and the fault that follows them, if there is one.
    fn take_by<R: Threads, M: ReaderMemory>(
        &mut self,
        rt: &R,
        memory: &M,
        workers: usize,
        most: usize,
    ) -> (Vec<Image>, Option<StreamFault>)
        requires some { 1 ≤ most }
        requires few { most ≤ MAX_MESSAGES }
        ensures { Takes S.left S.may_fail M.may_give_up 1 most self.old result.0.items result.1 self.new }
    {
        let position = self.position();
        let (lines, end) = self.lines_at_hand(memory, most);
        let chunks = chunk_count(workers, lines.len());
        let read = read_in_memory(rt, memory, &lines, position, chunks);
        (read.images, first_fault(read.fault, end))
    }

    // The next lines that already arrived, and what ended them, if a fault did.
    fn lines_at_hand<M: ReaderMemory>(
        &mut self,
        memory: &M,
        most: usize,
    ) -> (Vec<WholeLine>, Option<StreamFault>)
        requires some { 1 ≤ most }
        ensures within { length result.0.items ≤ most }
        ensures whole { All IsWhole result.0.items }
        ensures lines { IfSome (S.left self.old.source) (λ text.
            Gathered 1 most (self.old.part ++ text) result.0.items result.1 self.new.part (S.left self.new.source)) }
        ensures read { result.1 ≡ Some StreamFault.Read → S.may_fail }
        ensures gives_up { result.1 ≡ Some StreamFault.Memory → M.may_give_up }
        ensures not_failed { result.1 ≢ Some StreamFault.Failed }
        ensures kept { self.new ≡ record self.old { part = self.new.part; source = self.new.source } }
        ensures part { length self.new.part ≤ max_line_bytes }
    {
        let mut lines = Vec::new(memory.alloc());
        let size = BatchSize { least: 1, most };
        let ended = take_lines(memory, &mut self.line, &mut self.source, size, &mut lines);
        match ended {
            Ok(()) => (lines, None),
            Err(fault) => (lines, Some(fault)),
        }
    }
}

// The fault at one of the lines, or else the fault that ended them.
fn first_fault(read: Option<StreamFault>, end: Option<StreamFault>) -> Option<StreamFault>
    ensures { result ≡ fault_before read end }
{
    match read {
        Some(fault) => Some(fault),
        None => end,
    }
}
