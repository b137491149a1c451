//! What the writer of a live region does for control sessions.

ghost use Rattle.std.specs.Prelude.{◌≡◌, ◌+◌, length, Ok};
ghost use Rattle.pn_region.specs.Recovery.{after_advance, with_marks};
ghost use Rattle.pn_live.specs.LiveRegions.{core};
ghost use Rattle.pn_live.specs.Prelude.{tablets_in};
ghost use Rattle.pn_serve.specs.Control.Commands.{ObeysLive, answer_of, said_by};
ghost use Rattle.pn_serve.specs.declared.control.commands.WriterCommand.TheVariants as commands;

use pn_join::Marks;
use pn_live::LiveRegion;
use pn_protocol::{
    CommandFault, MemberName, Refusal, Reply, ShownTablets, answer_text, marks_reply, refuse,
    tablets_reply,
};
use pn_region::{AdoptFault, Since};
use pn_tablet::{TabletCopy, TabletState};
use std::alloc::Global;
use std::sync::Wait;

/// What the writer is asked for.
#[derive(Drop)]
pub(crate) enum WriterCommand {
    /// Adopt a copy of a tablet.
    Adopt(TabletCopy),
    /// Take as marks what all tablets have taken.
    Advance,
    /// Lose what the tablet of this number holds.
    Lose { tablet: u64 },
    /// Show how far streams were taken.
    Marks,
    /// Show what changed after this number.
    Notices { since: u64 },
    /// Show the tablets.
    Tablets,
}

/// What the writer answers.
#[derive(Drop)]
pub(crate) enum WriterAnswer {
    Reply(Reply),
    /// What changed, of which the session writes the reply.
    Found(Since),
}

/// The tablets of a live region.
#[derive(Drop)]
struct LiveTablets<'a>(&'a LiveRegion);

impl ShownTablets for LiveTablets<'_> {
    ghost use Rattle.pn_live.specs.LiveRegions.{core};

    ghost tablets = { λ shown. (core shown.0.now).tablets };

    fn count(&self) -> usize {
        recall_tablet_count(self.0);
        self.0.layout().count()
    }

    fn tablet(&self, number: usize) -> &TabletState {
        recall_tablet_count(self.0);
        self.0.tablet(number)
    }
}

// A region has one tablet more than its layout has bounds.
fn recall_tablet_count(live: &LiveRegion)
    ensures { length (core live.now).tablets ≡ length live.now.layout + 1 }
{
    let _layout = live.layout();
}

/// Does what a control session asks for. The reply is that of a script over the same region, or says that memory ran out.
/// A refusal changes nothing.
pub(crate) fn obey<R: Wait>(
    rt: &R,
    alloc: Global,
    live: &mut LiveRegion,
    command: WriterCommand,
) -> WriterAnswer
    ensures obeys { ObeysLive live.old command live.new (answer_of result) }
    ensures same { tablets_in live.new ≡ tablets_in live.old }
{
    match command {
        WriterCommand::Adopt(copy) => WriterAnswer::Reply(adopt(rt, alloc, live, copy)),
        WriterCommand::Advance => WriterAnswer::Reply(advance(alloc, live)),
        WriterCommand::Lose { tablet } => WriterAnswer::Reply(lose(rt, live, tablet)),
        WriterCommand::Marks => WriterAnswer::Reply(show_marks(alloc, live)),
        WriterCommand::Notices { since } => look_up_notices(live, since),
        WriterCommand::Tablets => WriterAnswer::Reply(show_tablets(alloc, live)),
    }
}

fn adopt<R: Wait>(rt: &R, alloc: Global, live: &mut LiveRegion, copy: TabletCopy) -> Reply
    ensures obeys { ObeysLive live.old (commands.Adopt copy) live.new (said_by result) }
    ensures same { tablets_in live.new ≡ tablets_in live.old }
{
    let Some(tablet) = live.tablet_for(&copy.range) else {
        return refuse(alloc, CommandFault::Adoption(AdoptFault::WrongRange));
    };
    match live.adopt(rt, copy) {
        Ok(_front) => Reply::Adopted(tablet as u64),
        Err(fault) => refuse(alloc, CommandFault::Adoption(fault)),
    }
}

fn advance(alloc: Global, live: &mut LiveRegion) -> Reply
    ensures obeys { ObeysLive live.old commands.Advance live.new (said_by result) }
    ensures same { tablets_in live.new ≡ tablets_in live.old }
{
    match live.common_marks() {
        Ok(marks) => advance_to(alloc, live, &marks),
        Err(fault) => refuse(alloc, CommandFault::Advance(fault)),
    }
}

// Advances the region to `marks`. The reply is written first: where there is no memory for it, the marks stay.
fn advance_to(alloc: Global, live: &mut LiveRegion, marks: &Marks) -> Reply
    requires { after_advance (core live.old) ≡ Ok (with_marks (core live.old) marks.now) }
    ensures obeys { ObeysLive live.old commands.Advance live.new (said_by result) }
    ensures same { tablets_in live.new ≡ tablets_in live.old }
{
    let Ok(text) = marks_reply(alloc, marks) else {
        return Reply::Refused(Refusal::Memory);
    };
    match live.advance() {
        Ok(()) => Reply::Text(text),
        Err(fault) => refuse(alloc, CommandFault::Advance(fault)),
    }
}

fn lose<R: Wait>(rt: &R, live: &mut LiveRegion, tablet: u64) -> Reply
    ensures obeys { ObeysLive live.old (commands.Lose tablet) live.new (said_by result) }
    ensures same { tablets_in live.new ≡ tablets_in live.old }
{
    if tablet >= live.layout().count() as u64 {
        return Reply::Refused(Refusal::OutOfRange(MemberName::Tablet));
    }
    match live.lose(rt, tablet as usize) {
        Ok(_front) => Reply::Lost(tablet),
        Err(_) => Reply::Refused(Refusal::Memory),
    }
}

fn show_marks(alloc: Global, live: &LiveRegion) -> Reply
    ensures { ObeysLive live.now commands.Marks live.now (said_by result) }
{
    answer_text(marks_reply(alloc, live.marks()))
}

fn look_up_notices(live: &LiveRegion, since: u64) -> WriterAnswer
    ensures { ObeysLive live.now (commands.Notices since) live.now (answer_of result) }
{
    match live.notices_since(since) {
        Ok(found) => WriterAnswer::Found(found),
        Err(_) => WriterAnswer::Reply(Reply::Refused(Refusal::Memory)),
    }
}

fn show_tablets(alloc: Global, live: &LiveRegion) -> Reply
    ensures { ObeysLive live.now commands.Tablets live.now (said_by result) }
{
    answer_text(tablets_reply(alloc, &LiveTablets(live)))
}
