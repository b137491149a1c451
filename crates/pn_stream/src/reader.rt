//! Readers of streams: the next messages of a stream in the order of their positions, however its bytes arrive.

ghost use Rattle.std.specs.Prelude.{◌≡◌, ◌+◌, ◌≤◌, [], ◌++◌, length, min, IfOk, IfErr, IfSome, OnOk, IsErrOf, IsTrue};
ghost use Rattle.pn_record.specs.Prelude.{max_line_bytes};
ghost use Rattle.pn_stream.specs.Calls.{GivesUp, IsCall, Takes, IsFirst, IsResumed, StandsFirst};
ghost use Rattle.pn_stream.specs.Brokers.{are_positions};
ghost use Rattle.pn_stream.specs.Streams.{NoLine, IsLeft};

use crate::fault::{ResumeFault, StreamFault};
use crate::first::first_message;
use crate::memory::{NoWait, ReaderMemory};
use crate::message::Delivery;
use crate::next::{BatchSize, next_images};
use pn_join::{LAST_POSITION, StreamName};
use pn_line::{LineBuffer, Source};
use pn_record::Image;
use std::alloc::Global;
use std::marker::Model;

mod by_workers;

/// The most messages that one call can be asked for.
pub const MAX_MESSAGES: usize = 1_000;

/// Reads the messages of one stream from any buffered reader, or from bytes in memory.
#[derive(Drop)]
pub struct StreamReader<S: Drop> {
    alloc: Global,
    name: StreamName,
    position: u64,
    // The part of a line that was read. None before the first call, and after a fault.
    line: Option<LineBuffer>,
    // The fault that the next call returns.
    fault: Option<StreamFault>,
    source: S,
}

impl<S: Drop> Model for StreamReader<S> {
    ghost use Rattle.std.specs.Prelude.{◌≤◌, IfSome};
    ghost use Rattle.pn_join.specs.declared.marks.TheConstants.{LAST_POSITION};
    ghost use Rattle.pn_stream.specs.Batches.{Stream, IsPart, part_of};

    ghost Value = { Stream S };

    ghost view = { λ r. record { name = r.name; position = r.position; part = part_of r.line; fault = r.fault; source = r.source } };

    ghost invariant = { λ r. (r.position ≤ LAST_POSITION) × IfSome r.line IsPart };
}

#[tactic(auto, using(crate::proofs::Steps::part_within))]
impl<S: Source + Drop> StreamReader<S> {
    /// A reader of the stream `name` that begins after the position `after`, at most 10^15. Only later calls
    /// take memory.
    pub fn new(alloc: Global, name: StreamName, after: u64, source: S) -> StreamReader<S>
        requires { after ≤ LAST_POSITION }
        ensures { result ≡ record { name = name; position = after; part = []; fault = None; source = source } }
    {
        StreamReader {
            alloc,
            name,
            position: after,
            line: None,
            fault: None,
            source,
        }
    }

    /// The position of the last message returned, at first that of `new`.
    pub fn position(&self) -> u64
        ensures position { result ≡ self.now.position }
        ensures within { result ≤ LAST_POSITION }
    {
        self.position
    }

    /// The name of the stream.
    pub fn name(&self) -> &StreamName
        ensures { result.now ≡ self.now.name }
    {
        &self.name
    }

    /// The images of the next messages, at most `max`, from 1 to 1,000. Fewer come only where no further whole
    /// line is there or a fault follows.
    ///
    /// Without a whole line there are none, and the part of one is kept.
    ///
    /// Messages before a fault are returned first; the next call returns the fault, and each later one
    /// `Failed`. A new reader goes on from `position`.
    pub fn next_batch(&mut self, max: usize) -> Result<Delivery, StreamFault>
        requires some { 1 ≤ max }
        requires few { max ≤ MAX_MESSAGES }
        ensures { IsCall S.left S.may_fail max max self.old result self.new }
    {
        let size = BatchSize {
            least: max,
            most: max,
        };
        self.next_of_size(&NoWait::new(self.alloc), size)
    }

    /// The images of the next messages that already arrived, at most `max`, from 1 to 1,000. It waits only for the
    /// first.
    ///
    /// Faults come as from `next_batch`.
    pub fn next_ready(&mut self, max: usize) -> Result<Delivery, StreamFault>
        requires some { 1 ≤ max }
        requires few { max ≤ MAX_MESSAGES }
        ensures { IsCall S.left S.may_fail 1 max self.old result self.new }
    {
        let size = BatchSize {
            least: 1,
            most: max,
        };
        self.next_of_size(&NoWait::new(self.alloc), size)
    }

    /// The first message of a publisher, for which it waits. It may have any position from 1 to one past `position`, and
    /// the reader goes on after it. Without a whole line there is none, and the part of one is kept.
    ///
    /// Faults come as from `next_batch`, but that a message of a greater position is a gap. A message that memory runs out
    /// for is read again once it was waited for.
    pub fn resume<M: ReaderMemory>(&mut self, memory: &M) -> Result<Option<Delivery>, ResumeFault>
        ensures resumed { IsResumed S.left S.may_fail self.old result self.new }
        ensures gives_up { self.old.fault ≡ None → IsErrOf result (ResumeFault.Stream StreamFault.Memory) → M.may_give_up }
    {
        if let Some(fault) = self.waiting_fault() {
            return Err(ResumeFault::Stream(self.fail(fault)));
        }
        match self.take_first(memory) {
            Ok(Some((at, images))) => Ok(Some(self.begin(at, images))),
            Ok(None) => Ok(None),
            Err(fault) => Err(self.fail(fault)),
        }
    }

    /// What it reads from. A part of a line that was read is dropped.
    pub fn into_source(self) -> S
        ensures { result ≡ self.source }
    {
        let StreamReader { source, .. } = self;
        source
    }

    // The position and the one image of the first message, if a whole line is there.
    fn take_first<M: ReaderMemory>(
        &mut self,
        memory: &M,
    ) -> Result<Option<(u64, Vec<Image>)>, ResumeFault>
        ensures first { IfOk result (λ found. IfSome found (λ first.
            IsFirst self.old.position self.old.part (S.left self.old.source) first.0 first.1.items self.new.part (S.left self.new.source))) }
        ensures none { IfOk result (λ found. found ≡ None → IfSome (S.left self.old.source) (λ text.
            NoLine (self.old.part ++ text) × IsLeft (self.old.part ++ text) self.new.part (S.left self.new.source))) }
        ensures stands { IfErr result (λ fault. IfSome (S.left self.old.source) (λ text.
            StandsFirst (self.old.position + 1) (self.old.part ++ text) fault)) }
        ensures read { IsErrOf result (ResumeFault.Stream StreamFault.Read) → S.may_fail }
        ensures gives_up { IsErrOf result (ResumeFault.Stream StreamFault.Memory) → M.may_give_up }
        ensures not_failed { IsErrOf result (ResumeFault.Stream StreamFault.Failed) → ⊥ }
        ensures kept { self.new ≡ record self.old { part = self.new.part; source = self.new.source } }
        ensures part { length self.new.part ≤ max_line_bytes }
    {
        first_message(memory, &mut self.line, &mut self.source, self.position)
    }

    // A delivery of the image at the position `at`, after which the reader goes on.
    fn begin(&mut self, at: u64, images: Vec<Image>) -> Delivery
        requires { IsTrue (are_positions at (length images.items)) }
        ensures moved { self.new ≡ record self.old { position = at } }
        ensures delivery { result ≡ record { stream = self.old.name; first = at; images = images.items } }
    {
        self.position = at;
        Delivery::of(self.name, at, images)
    }

    // The images of the next messages, as many as the size says.
    fn next_of_size<M: ReaderMemory>(
        &mut self,
        memory: &M,
        size: BatchSize,
    ) -> Result<Delivery, StreamFault>
        requires some { 1 ≤ size.least }
        requires few { size.least ≤ size.most }
        ensures call { IsCall S.left S.may_fail size.least size.most self.old result self.new }
        ensures gives_up { GivesUp M.may_give_up self.old result self.new }
    {
        if let Some(fault) = self.waiting_fault() {
            return Err(self.fail(fault));
        }
        let (images, fault) = self.take_next(memory, size);
        self.settle(fault, images.is_empty())?;
        Ok(self.deliver(images))
    }

    // The fault that waits for this call, if there is one.
    fn waiting_fault(&self) -> Option<StreamFault>
        ensures fault { result ≡ self.now.fault }
        ensures part { length self.now.part ≤ max_line_bytes }
    {
        self.fault
    }

    // Answers with the fault. From now on the reader has failed.
    fn fail<F>(&mut self, fault: F) -> F
        ensures failed { self.new ≡ record self.old { fault = Some StreamFault.Failed } }
        ensures fault { result ≡ fault }
    {
        self.fault = Some(StreamFault::Failed);
        fault
    }

    // The images of the next messages, and the fault that follows them, if there is one.
    fn take_next<M: ReaderMemory>(
        &mut self,
        memory: &M,
        size: BatchSize,
    ) -> (Vec<Image>, Option<StreamFault>)
        requires some { 1 ≤ size.least }
        requires few { size.least ≤ size.most }
        ensures { Takes S.left S.may_fail M.may_give_up size.least size.most self.old result.0.items result.1 self.new }
    {
        let mut images = Vec::new(memory.alloc());
        let ended = next_images(
            memory,
            &mut self.line,
            &mut self.source,
            self.position,
            size,
            &mut images,
        );
        match ended {
            Ok(()) => (images, None),
            Err(fault) => (images, Some(fault)),
        }
    }

    // A fault with no message before it is returned now, another one by the next call.
    fn settle(&mut self, fault: Option<StreamFault>, is_first: bool) -> Result<(), StreamFault>
        ensures ok { OnOk result (self.new ≡ record self.old { fault = fault }) }
        ensures waits { OnOk result (IsTrue is_first → fault ≡ None) }
        ensures err { IfErr result (λ answered.
            (fault ≡ Some answered) × IsTrue is_first × (self.new ≡ record self.old { fault = Some StreamFault.Failed })) }
    {
        match fault {
            Some(fault) if is_first => Err(self.fail(fault)),
            _ => {
                self.fault = fault;
                Ok(())
            }
        }
    }

    // A delivery of the images after the last position, which becomes that of the last image.
    fn deliver(&mut self, images: Vec<Image>) -> Delivery
        requires { self.old.position + length images.items ≤ LAST_POSITION }
        ensures moved { self.new ≡ record self.old { position = self.old.position + length images.items } }
        ensures delivery { result
            ≡ record { stream = self.old.name; first = min (self.old.position + 1) LAST_POSITION; images = images.items } }
    {
        let first = (self.position + 1).min(LAST_POSITION);
        self.position += images.len() as u64;
        Delivery::of(self.name, first, images)
    }
}
