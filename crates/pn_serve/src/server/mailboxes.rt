//! The mailboxes in which the threads of streams leave reports.

ghost use Rattle.std.specs.Prelude.{◌≡◌, [], ◌∷◌, ◌++◌, map, vec_len, IfOk, IfSome, OnOk};
ghost use Rattle.pn_serve.specs.Server.Reports.{name_in};
ghost use Rattle.pn_serve.specs.Server.Publishers.{IsSentReport};

use crate::server::held_report::{ClosedMailbox, KeptReport, LeftReport};
use crate::server::publishers::Sending;
use crate::server::reports::{Report, Reporter};
use crate::server::shown_mark::ShownMark;
use crate::server::times::{Counter, TimeCounters};
use crate::server::wakeup::{Waited, Wakeup};
use crate::shared::share;
use pn_join::{Marks, StreamName};
use std::alloc::{AllocError, Global};
use std::sync::{Arc, Condvar, CondvarTimeouts, Mutex, Wait};
use std::time::{Clock, Duration};

/// The mailboxes of the streams that are read, what wakes the thread that takes their reports, and the count of its rounds
/// and who waits for memory, where somebody looks at them.
#[derive(Drop)]
pub(crate) struct StreamMailboxes<M: Sending> {
    pub(crate) streams: Vec<StreamMailbox<M>>,
    pub(crate) at_fault: AtFault,
    pub(crate) wakeup: Arc<Wakeup>,
    pub(crate) rounds: Option<Arc<Counter>>,
    pub(crate) times: Option<Arc<TimeCounters>>,
    pub(crate) shortage: Option<Arc<Counter>>,
    pub(crate) waiting: Option<Arc<Counter>>,
}

/// Shows that the thread of some stream has left a report.
#[derive(Drop)]
pub(crate) struct ReportSeen(());

/// What follows from a stream's fault.
#[derive(Clone, Copy, Debug, PartialEq, Eq)]
pub(crate) enum AtFault {
    /// No stream is read any more.
    Stop,
    /// The others are read on.
    GoOn,
}

/// The mailbox of the stream of a name, and where its mark is shown.
#[derive(Drop)]
pub(crate) struct StreamMailbox<M: Sending> {
    pub(crate) name: StreamName,
    pub(crate) mailbox: Arc<Mailbox<M>>,
    pub(crate) taken: Option<Arc<ShownMark>>,
}

impl<M: Sending> StreamMailbox<M> {
    /// Takes the stream's report, if there is one. A report of another stream is dropped.
    pub(crate) fn take<R: Wait>(&self, rt: &R) -> Option<Report>
        ensures own { IfSome result (λ report. name_in report ≡ self.now.name) }
        ensures sent { IfSome result (IsSentReport M.known M.sends) }
    {
        match self.mailbox.take(rt) {
            Some(report) if report.is_of(&self.name) => Some(report),
            _ => None,
        }
    }

    // Shows how far the stream was taken.
    fn show(&self, marks: &Marks) {
        if let Some(taken) = &self.taken {
            taken.show(marks, &self.name);
        }
    }
}

impl<M: Sending> StreamMailboxes<M> {
    /// No mailbox, with capacity for those of this many streams.
    pub(crate) fn new(
        alloc: Global,
        streams: usize,
        at_fault: AtFault,
        rounds: Option<Arc<Counter>>,
        wakeup: Arc<Wakeup>,
    ) -> Result<StreamMailboxes<M>, AllocError>
        ensures at_fault { IfOk result (λ mailboxes. mailboxes.at_fault ≡ at_fault) }
        ensures none { IfOk result (λ mailboxes. mailboxes.streams.items ≡ []) }
        ensures count { IfOk result (λ mailboxes. vec_len mailboxes.streams ≡ 0) }
    {
        Ok(StreamMailboxes {
            streams: Vec::with_capacity(alloc, streams)?,
            at_fault,
            wakeup,
            rounds,
            times: None,
            shortage: None,
            waiting: None,
        })
    }

    /// Adds the mailbox of a stream. Answers where its thread leaves reports.
    pub(crate) fn add(
        &mut self,
        alloc: Global,
        name: StreamName,
        taken: Option<Arc<ShownMark>>,
    ) -> Result<Reporter<M>, AllocError>
        ensures names { OnOk result (map (λ stream. stream.name) self.new.streams.items
            ≡ map (λ stream. stream.name) self.old.streams.items ++ name ∷ []) }
        ensures at_fault { OnOk result (self.new.at_fault ≡ self.old.at_fault) }
    {
        let mailbox = Arc::new(alloc, Mailbox::new())?;
        let reporter = Reporter {
            name,
            mailbox: Arc::try_clone(&mailbox)?,
            wakeup: Arc::try_clone(&self.wakeup)?,
            at_fault: self.at_fault,
            waiting: share(&self.waiting)?,
            waits: Counter::new(),
        };
        self.streams.push(StreamMailbox {
            name,
            mailbox,
            taken,
        })?;
        Ok(reporter)
    }

    /// Whether the thread of some stream has left a report.
    pub(crate) fn has_report<R: Wait>(&self, rt: &R) -> bool {
        self.find_report(rt).is_some()
    }

    /// Shows that the thread of some stream has left a report, if one has.
    pub(crate) fn find_report<R: Wait>(&self, rt: &R) -> Option<ReportSeen> {
        for stream in self.streams.iter() {
            if stream.mailbox.has_report(rt) {
                return Some(ReportSeen(()));
            }
        }
        None
    }

    /// Waits until a report is left, or was left since the last call.
    pub(crate) fn wait<R: Wait>(&self, rt: &R) -> Waited {
        self.wakeup.wait(rt)
    }

    /// Waits for a second, or until a report or a command is left. So a round that memory ran out for is tried again.
    pub(crate) fn wait_for_memory<R: Wait + Clock>(&self, rt: &R) -> Waited {
        self.wakeup.wait_at_most(rt, Duration::from_secs(1))
    }

    /// Counts a round that was run, and shows how far it took the streams.
    pub(crate) fn count_round(&self, marks: &Marks) {
        if let Some(rounds) = &self.rounds {
            rounds.add(1);
        }
        self.show(marks);
    }

    /// Shows whether a round waits for memory.
    pub(crate) fn show_shortage(&self, is_short: bool) {
        if let Some(shortage) = &self.shortage {
            shortage.set(if is_short { 1 } else { 0 });
        }
    }

    /// Shows how far the streams were taken.
    pub(crate) fn show(&self, marks: &Marks) {
        show_marks(&self.streams, marks);
    }

    /// Closes the mailboxes. Each thread ends after its current wait for messages.
    pub(crate) fn close<R: Wait>(&self, rt: &R) {
        for stream in self.streams.iter() {
            stream.mailbox.close(rt);
        }
    }
}

/// Shows how far these streams were taken.
pub(crate) fn show_marks<M: Sending>(streams: &[StreamMailbox<M>], marks: &Marks) {
    for stream in streams.iter() {
        stream.show(marks);
    }
}

/// Holds at most one report. A thread that puts another waits until it is taken.
#[derive(Drop)]
pub(crate) struct Mailbox<M: Sending> {
    held: Mutex<KeptReport<M>>,
    emptied: Condvar,
}

impl<M: Sending> Mailbox<M> {
    /// A mailbox that holds nothing.
    pub(crate) fn new() -> Mailbox<M> {
        Mailbox {
            held: Mutex::new(KeptReport::new()),
            emptied: Condvar::new(),
        }
    }

    /// Puts a report into the mailbox once it holds none. The error shows that it is closed.
    pub(crate) fn put<R: Wait>(&self, rt: &R, report: Report) -> Result<LeftReport, ClosedMailbox>
        requires { IsSentReport M.known M.sends report }
        ensures { IfOk result (λ left. left ≡ report) }
    {
        let guard = self.held.lock(rt);
        let mut held = self
            .emptied
            .wait_while(rt, guard, |held| held.held.is_left());
        held.put(report)
    }

    /// Whether there is a report.
    pub(crate) fn has_report<R: Wait>(&self, rt: &R) -> bool {
        self.held.lock(rt).held.is_left()
    }

    /// Takes the report, if there is one.
    pub(crate) fn take<R: Wait>(&self, rt: &R) -> Option<Report>
        ensures { IfSome result (IsSentReport M.known M.sends) }
    {
        let report = self.held.lock(rt).take();
        if report.is_some() {
            self.emptied.notify_one();
        }
        report
    }

    /// Waits for a second, or until it is closed. False if it is closed.
    pub(crate) fn wait_for_memory<R: Wait + Clock>(&self, rt: &R) -> bool {
        let guard = self.held.lock(rt);
        let most = Duration::from_secs(1);
        let (held, _) = self
            .emptied
            .wait_timeout_while(rt, guard, most, |held| !held.held.is_closed());
        !held.held.is_closed()
    }

    /// That it is closed, if it is.
    pub(crate) fn closed<R: Wait>(&self, rt: &R) -> Option<ClosedMailbox> {
        self.held.lock(rt).held.closed()
    }

    /// Closes the mailbox, and wakes the thread that waits there.
    pub(crate) fn close<R: Wait>(&self, rt: &R) {
        self.held.lock(rt).close();
        self.emptied.notify_one();
    }
}
