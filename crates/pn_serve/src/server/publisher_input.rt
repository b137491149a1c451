//! A publisher's input while it is read.

ghost use Rattle.std.specs.Prelude.{◌≡◌, ◌+◌, max, min, None, Some, IsSome};
ghost use Rattle.pn_join.specs.declared.marks.TheConstants.{LAST_POSITION};
ghost use Rattle.pn_serve.specs.Server.Publishers.{Gives, HasUpTo, IsReaderFrom, line_after};

use crate::server::held_report::LeftReport;
use crate::server::messages::RoundMessages;
use crate::server::publishers::{NextPublisher, PublisherEnd};
use pn_join::{LAST_POSITION, StreamName};
use pn_line::Source;
use pn_stream::{MAX_MESSAGES, ReaderMemory, ResumeFault, StreamReader};
use std::alloc::Global;
use std::thread::Threads;

/// A publisher's input, the position before its first message once that is known, the last position of the stream that the region
/// had when the publisher began or that was reported, and how many threads read its lines where there are many.
#[derive(Drop)]
pub(crate) struct PublisherInput<S: Source + Drop> {
    pub(crate) reader: StreamReader<S>,
    pub(crate) before: Option<u64>,
    pub(crate) last: u64,
    pub(crate) workers: usize,
}

/// How many workers read the lines of one of several streams.
pub(crate) fn workers_of_each(workers: usize, streams: usize) -> usize {
    workers / streams.max(1)
}

/// What a publisher gives next.
#[derive(Drop)]
pub(crate) enum Given {
    /// The next messages.
    Messages(RoundMessages),
    /// Nothing more.
    Ended(PublisherEnd),
}

impl<S: Source + Drop> PublisherInput<S> {
    /// The input of a reader, which gives the messages after its position.
    pub(crate) fn of(reader: StreamReader<S>, workers: usize) -> PublisherInput<S>
        ensures reader { result.reader ≡ reader }
        ensures before { result.before ≡ Some reader.position }
    {
        let position = reader.position();
        PublisherInput {
            reader,
            before: Some(position),
            last: position,
            workers,
        }
    }

    /// The input of a publisher of the stream, which begins after its position: its first message may have any position up to one
    /// past that.
    pub(crate) fn begin(
        alloc: Global,
        name: StreamName,
        next: NextPublisher<S>,
        workers: usize,
    ) -> PublisherInput<S>
        ensures reader { IsReaderFrom name (min next.after LAST_POSITION) result.reader }
        ensures source { result.reader.source ≡ next.source }
        ensures before { result.before ≡ None }
        ensures last { result.last ≡ next.after }
    {
        let NextPublisher { source, after } = next;
        PublisherInput {
            reader: StreamReader::new(alloc, name, after.min(LAST_POSITION), source),
            before: None,
            last: after,
            workers,
        }
    }

    /// The name of the stream.
    pub(crate) fn name(&self) -> StreamName
        ensures { result ≡ self.now.reader.name }
    {
        *self.reader.name()
    }

    /// Waits for the next message, and gives it with those at hand, or says how the input ended.
    pub(crate) fn next<R: Threads, M: ReaderMemory>(&mut self, rt: &R, memory: &M) -> Given
        ensures gives { Gives S.left self.old.before self.old.reader result self.new.before self.new.reader }
        ensures name { self.new.reader.name ≡ self.old.reader.name }
        ensures last { self.new.last ≡ self.old.last }
    {
        match self.before {
            Some(_) => self.next_messages(rt, memory),
            None => self.first_message(memory),
        }
    }

    // The next messages after those before.
    fn next_messages<R: Threads, M: ReaderMemory>(&mut self, rt: &R, memory: &M) -> Given
        requires { IsSome self.old.before }
        ensures gives { Gives S.left self.old.before self.old.reader result self.new.before self.new.reader }
        ensures name { self.new.reader.name ≡ self.old.reader.name }
        ensures last { self.new.last ≡ self.old.last }
    {
        match self
            .reader
            .next_ready_by(rt, memory, self.workers, MAX_MESSAGES)
        {
            Ok(delivery) if delivery.images().is_empty() => Given::Ended(PublisherEnd::End),
            Ok(delivery) => Given::Messages(RoundMessages { delivery }),
            Err(fault) => Given::Ended(self.fault(ResumeFault::Stream(fault))),
        }
    }

    // The first message of the publisher.
    fn first_message<M: ReaderMemory>(&mut self, memory: &M) -> Given
        requires { self.old.before ≡ None }
        ensures gives { Gives S.left self.old.before self.old.reader result self.new.before self.new.reader }
        ensures name { self.new.reader.name ≡ self.old.reader.name }
        ensures last { self.new.last ≡ self.old.last }
    {
        match self.reader.resume(memory) {
            Ok(Some(delivery)) => {
                self.before = Some(self.reader.position().saturating_sub(1));
                Given::Messages(RoundMessages { delivery })
            }
            Ok(None) => Given::Ended(PublisherEnd::End),
            Err(fault) => Given::Ended(self.fault(fault)),
        }
    }

    // The fault at the position that was due, and at the line that was read there.
    fn fault(&self, fault: ResumeFault) -> PublisherEnd
        ensures { result ≡ PublisherEnd.Fault fault (self.now.reader.position + 1) (line_after self.now.before self.now.reader.position) }
    {
        let position = self.reader.position();
        let messages = match self.before {
            Some(before) => position.saturating_sub(before),
            None => 0,
        };
        PublisherEnd::Fault {
            fault,
            position: position + 1,
            line: messages + 1,
        }
    }

    /// Notes that its messages so far were reported, the last of them in this report.
    pub(crate) fn note_handed(&mut self, left: LeftReport)
        requires { HasUpTo self.old.reader left }
        ensures last { self.new.last ≡ max self.old.last self.old.reader.position }
        ensures reader { self.new.reader ≡ self.old.reader }
        ensures before { self.new.before ≡ self.old.before }
    {
        drop(left);
        self.last = self.last.max(self.reader.position());
    }
}
