//! Answers to losses and copies of tablets, and to changes of the layout.

ghost use Rattle.std.specs.Prelude.{length, ◌+◌};
ghost use Rattle.pn_protocol.specs.Prelude.{copy as copy_asked, lose as lose_asked, relayout as relayout_asked};
ghost use Rattle.pn_serve.specs.Machine.Outcomes.{machine_over};
ghost use Rattle.pn_region.specs.Recovery.{after_relayout};
ghost use Rattle.pn_serve.specs.Machine.Turns.{Obeys, ComesTo};
ghost use Rattle.pn_serve.specs.Machine.Doing.{relaid_turn};

use pn_join::Marks;
use pn_protocol::{CommandFault, MemberName, Refusal, Reply, answer_copy, refuse};
use pn_record::Key;
use pn_region::Region;
use pn_tablet::Layout;
use std::alloc::Global;

/// Answers a `lose`.
pub(crate) fn lose_tablet(region: &mut Region, tablet: u64) -> Reply
    ensures { Obeys (machine_over region.old) (lose_asked tablet) (machine_over region.new) result }
{
    if tablet >= region.layout().count() as u64 {
        return Reply::Refused(Refusal::OutOfRange(MemberName::Tablet));
    }
    region.lose(tablet as usize);
    Reply::Lost(tablet)
}

/// Answers a `copy`.
pub(crate) fn copy_tablet(alloc: Global, region: &Region, need: &Marks, tablet: u64) -> Reply
    ensures { Obeys (machine_over region.now) (copy_asked need.now tablet) (machine_over region.now) result }
{
    if tablet >= region.layout().count() as u64 {
        return Reply::Refused(Refusal::OutOfRange(MemberName::Tablet));
    }
    answer_copy(alloc, tablet as usize, region.copy(tablet as usize, need))
}

/// Answers a `relayout`.
pub(crate) fn relayout(alloc: Global, region: &mut Region, bounds: Vec<Key>) -> Reply
    ensures { Obeys (machine_over region.old) (relayout_asked bounds.items) (machine_over region.new) result }
{
    match Layout::new(bounds) {
        Ok(layout) => relayout_to(alloc, region, layout),
        Err(_) => Reply::Refused(Refusal::OutOfRange(MemberName::Bounds)),
    }
}

fn relayout_to(alloc: Global, region: &mut Region, layout: Layout) -> Reply
    ensures { ComesTo (relaid_turn (machine_over region.old) (length layout + 1) (after_relayout region.old.state layout)) region.old region.new result }
{
    let count = layout.count() as u64;
    match region.relayout(layout) {
        Ok(()) => Reply::Relaid(count),
        Err(fault) => refuse(alloc, CommandFault::Relayout(fault)),
    }
}
