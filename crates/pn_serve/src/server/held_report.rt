//! What the mailbox of a stream holds and keeps.

ghost use Rattle.std.specs.Prelude.{◌≡◌, ◌≢◌, true, false, None, MatchOption, MatchResult, IfSome};
ghost use Rattle.pn_serve.specs.Server.Reports.{is_closed, is_left};
ghost use Rattle.pn_serve.specs.declared.server.held_report.HeldReport.TheVariants.{Nothing, Left, Closed};
ghost use Rattle.pn_serve.specs.Server.Publishers.{HoldsSent, HoldsSent-prop, IsSentReport};

use crate::server::publishers::Sending;
use crate::server::reports::Report;
use std::marker::{Model, PhantomData};
use std::mem;
use std::snapshot::Snapshot;

/// What a mailbox holds.
#[derive(Drop)]
pub(crate) enum HeldReport {
    Nothing,
    /// A report, until it is taken.
    Left(Report),
    /// Nothing: from now on no report is taken.
    Closed,
}

/// Shows that this report was left in a mailbox that held none and was open.
#[derive(Drop)]
pub(crate) struct LeftReport(Snapshot<Report>);

impl Model for LeftReport {
    ghost use Rattle.pn_serve.specs.declared.server.reports.Report.{Report};

    ghost Value = { Report };

    ghost view = { λ left. left.0.value };
}

/// Shows that a mailbox is closed.
#[derive(Drop)]
pub(crate) struct ClosedMailbox(());

impl HeldReport {
    /// Whether it is a report.
    pub(crate) fn is_left(&self) -> bool
        ensures { result ≡ is_left self.now }
    {
        matches!(self, HeldReport::Left(_))
    }

    /// Whether the mailbox is closed.
    pub(crate) fn is_closed(&self) -> bool
        ensures { result ≡ is_closed self.now }
    {
        matches!(self, HeldReport::Closed)
    }

    /// That the mailbox is closed, if it is.
    pub(crate) fn closed(&self) -> Option<ClosedMailbox>
        ensures { MatchOption result (is_closed self.now ≡ false) (λ _. is_closed self.now ≡ true) }
    {
        if self.is_closed() {
            Some(ClosedMailbox(()))
        } else {
            None
        }
    }

    /// Puts a report into a mailbox that holds none, unless it is closed.
    pub(crate) fn put(&mut self, report: Report) -> Result<LeftReport, ClosedMailbox>
        requires { is_left self.old ≡ false }
        ensures { MatchResult result (λ left. (left ≡ report) × (self.old ≡ Nothing) × (self.new ≡ Left report))
            (λ _. (self.old ≡ Closed) × (self.new ≡ Closed)) }
    {
        if let Some(closed) = self.closed() {
            return Err(closed);
        }
        let left = LeftReport(Snapshot::of(&report));
        *self = HeldReport::Left(report);
        Ok(left)
    }

    /// Takes the report, if there is one. A closed mailbox stays closed.
    pub(crate) fn take(&mut self) -> Option<Report>
        ensures taken { MatchOption result (self.new ≡ self.old) (λ report. (self.old ≡ Left report) × (self.new ≡ Nothing)) }
        ensures none { result ≡ None → self.old ≢ Nothing → self.old ≡ Closed }
    {
        match mem::replace(self, HeldReport::Nothing) {
            HeldReport::Left(report) => Some(report),
            HeldReport::Nothing => None,
            HeldReport::Closed => {
                *self = HeldReport::Closed;
                None
            }
        }
    }

    /// Closes the mailbox. A report that it holds is dropped.
    pub(crate) fn close(&mut self)
        ensures { self.new ≡ Closed }
    {
        *self = HeldReport::Closed;
    }
}

/// What a mailbox holds: if that is messages, they were read of what a publisher of their stream may send.
#[derive(Drop)]
pub(crate) struct KeptReport<M: Sending> {
    pub(crate) held: HeldReport,
    pub(crate) of: PhantomData<M>,
    ghost sent: { HoldsSent M.known M.sends held } by { HoldsSent-prop M.known M.sends held },
}

impl<M: Sending> KeptReport<M> {
    /// No report.
    pub(crate) fn new() -> KeptReport<M>
        ensures { result.held ≡ Nothing }
    {
        KeptReport {
            held: HeldReport::Nothing,
            of: PhantomData,
        }
    }

    /// Puts a report into a mailbox that holds none, unless it is closed.
    pub(crate) fn put(&mut self, report: Report) -> Result<LeftReport, ClosedMailbox>
        requires empty { is_left self.old.held ≡ false }
        requires sent { IsSentReport M.known M.sends report }
        ensures { MatchResult result (λ left. (left ≡ report) × (self.old.held ≡ Nothing) × (self.new.held ≡ Left report))
            (λ _. (self.old.held ≡ Closed) × (self.new.held ≡ Closed)) }
    {
        self.held.put(report)
    }

    /// Takes the report, if there is one. A closed mailbox stays closed.
    pub(crate) fn take(&mut self) -> Option<Report>
        ensures taken { MatchOption result (self.new.held ≡ self.old.held) (λ report. (self.old.held ≡ Left report) × (self.new.held ≡ Nothing)) }
        ensures sent { IfSome result (IsSentReport M.known M.sends) }
    {
        self.held.take()
    }

    /// Closes the mailbox. A report that it holds is dropped.
    pub(crate) fn close(&mut self)
        ensures { self.new.held ≡ Closed }
    {
        self.held.close();
    }
}
