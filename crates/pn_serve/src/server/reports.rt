//! Reports of the threads of streams, and where a thread leaves them.

ghost use Rattle.std.specs.Prelude.{◌≡◌, IsTrue, IfOk};
ghost use Rattle.pn_serve.specs.Server.Reports.{name_in};
ghost use Rattle.pn_serve.specs.Server.Publishers.{IsSentReport};

use crate::server::held_report::{ClosedMailbox, LeftReport};
use crate::server::mailboxes::{AtFault, Mailbox};
use crate::server::messages::RoundShare;
use crate::server::publishers::{PublisherEnd, Sending};
use crate::server::times::Counter;
use crate::server::wakeup::Wakeup;
use pn_apply::Batch;
use pn_join::StreamName;
use pn_stream::{ReaderMemory, ResumeFault, StreamFault};
use std::alloc::Global;
use std::sync::{Arc, Wait};
use std::time::Clock;

/// What the thread of a stream reports for the next round.
#[derive(Drop)]
pub(crate) enum Report {
    /// The next messages of the stream that they name.
    Messages(RoundShare),
    /// The stream of this name is at its end.
    End(StreamName),
    /// The stream of this name has a fault, and is at its end.
    Fault(StreamName),
}

impl Report {
    /// The name of the stream whose report it is.
    pub(crate) fn name(&self) -> &StreamName
        ensures { result.now ≡ name_in self.now }
    {
        match self {
            Report::Messages(messages) => messages.delivery.stream(),
            Report::End(name) => name,
            Report::Fault(name) => name,
        }
    }

    /// Whether it is a report of the stream of this name.
    pub(crate) fn is_of(&self, name: &StreamName) -> bool
        ensures { IsTrue result → name_in self.now ≡ name.now }
    {
        self.name() == name
    }
}

/// Where the thread of a stream leaves its reports, and what is to follow from its fault.
#[derive(Drop)]
pub(crate) struct Reporter<M: Sending> {
    pub(crate) name: StreamName,
    pub(crate) mailbox: Arc<Mailbox<M>>,
    pub(crate) wakeup: Arc<Wakeup>,
    pub(crate) at_fault: AtFault,
    /// How many streams wait for memory, where somebody looks at that.
    pub(crate) waiting: Option<Arc<Counter>>,
    /// 1 while this stream waits for memory, otherwise 0.
    pub(crate) waits: Counter,
}

/// What a thread is given that leaves reports.
pub(crate) trait HasReporter<M: Sending> {
    /// Where it leaves them.
    fn reporter(&self) -> &Reporter<M>;
}

impl<M: Sending> HasReporter<M> for Reporter<M> {
    fn reporter(&self) -> &Reporter<M> {
        self
    }
}

impl<M: Sending> Reporter<M> {
    /// Leaves a report once the last one is taken, and wakes the thread that takes it. The error shows that no more are taken.
    pub(crate) fn leave<R: Wait>(&self, rt: &R, report: Report) -> Result<LeftReport, ClosedMailbox>
        requires { IsSentReport M.known M.sends report }
        ensures { IfOk result (λ left. left ≡ report) }
    {
        let left = self.mailbox.put(rt, report);
        self.wakeup.notify(rt);
        left
    }

    /// Shows whether the stream waits for memory.
    pub(crate) fn show_shortage(&self, is_short: bool) {
        if is_short == (self.waits.get() > 0) {
            return;
        }
        self.waits.set(if is_short { 1 } else { 0 });
        match &self.waiting {
            Some(waiting) if is_short => waiting.add(1),
            Some(waiting) => waiting.subtract(1),
            None => {}
        }
    }

    /// That no more reports are taken, if the stream ended since memory ran out and it is read no more.
    pub(crate) fn stopped<R: Wait>(&self, rt: &R, end: &PublisherEnd) -> Option<ClosedMailbox> {
        if self.at_fault == AtFault::GoOn && lacks_memory(end) {
            self.mailbox.closed(rt)
        } else {
            None
        }
    }

    // Waits for a second where a fault ends this stream alone. False where no more reports are taken, or where it does not wait.
    fn wait_for_memory<R: Wait + Clock>(&self, rt: &R) -> bool {
        if self.at_fault == AtFault::Stop {
            return false;
        }
        self.show_shortage(true);
        self.mailbox.wait_for_memory(rt)
    }
}

fn lacks_memory(end: &PublisherEnd) -> bool {
    matches!(
        end,
        PublisherEnd::Fault {
            fault: ResumeFault::Stream(StreamFault::Memory),
            ..
        }
    )
}

/// The memory of the thread of a stream.
#[derive(Drop)]
pub(crate) struct StreamMemory<'a, R: Wait + Clock, M: Sending> {
    pub(crate) rt: &'a R,
    pub(crate) alloc: Global,
    pub(crate) reporter: &'a Reporter<M>,
}

impl<'a, R: Wait + Clock, M: Sending> ReaderMemory for StreamMemory<'a, R, M> {
    ghost may_give_up = { Unit {0} };

    fn alloc(&self) -> Global {
        self.alloc
    }

    fn wait(&self) -> bool {
        self.reporter.wait_for_memory(self.rt)
    }

    fn give_up(&self) {}
}
