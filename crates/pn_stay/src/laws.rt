//! The laws of servers that stay, as contracts of functions that do nothing.

ghost use Rattle.pn_lines.specs.Driving.{start_at};
ghost use Rattle.pn_lines.specs.Engines.{EngineValue};
ghost use Rattle.pn_lines.specs.Turns.{Finishes};
ghost use Rattle.std.specs.Prelude.{◌≡◌, ℕ, List, [], None, Option, Some, IfOk, IfSome, map};
ghost use Rattle.pn_stay.specs.Fakes.{bytes_of};
ghost use Rattle.pn_live.specs.PublishedTablets.{AreHonestTablets};
ghost use Rattle.pn_live.specs.LiveRegions.{LiveRegionValue, core};
ghost use Rattle.pn_record.specs.Prelude.{SameImages, table_of};
ghost use Rattle.pn_region.specs.Laws.{AreFaithful};
ghost use Rattle.pn_region.specs.Prelude.{all_cells, new_region};
ghost use Rattle.pn_region.specs.Reads.{AllServe};
ghost use Rattle.pn_serve.specs.Script.Events.{Settled};
ghost use Rattle.pn_serve.specs.Script.Laws.{Told, images_of, records_of};
ghost use Rattle.pn_stay.specs.Servers.{LivedHonestly, images_lived};
ghost use Rattle.pn_stream.specs.Prelude.{BrokerRecord};

use crate::fakes::{FakeSink, FakeSource};
use pn_join::NoMemory;
use pn_lines::{
    LineTurns, Others, PieceText, RefusesLong, TurnBuffers, TurnOutcome, answer_in_turns,
};
use pn_serve::MAX_LINES;
use std::alloc::Global;

/// How a connection ended, if it did, how many lines it took, and what its client took.
#[derive(Drop)]
pub struct AnsweredInTurns {
    pub ended: Option<TurnOutcome>,
    pub lines: u64,
    pub taken: Vec<u8>,
}

/// For every list of pieces, with waits among them, every list of what a sink takes, with waits among them, and all that others
/// do in between: a connection that ends leaves what a session of all the bytes leaves.
pub fn every_way_of_coming_and_going<
    G: Drop,
    T: PieceText,
    M: RefusesLong<Pending = G, Text = T>,
    O: Others<M>,
>(
    alloc: Global,
    machine: &mut M,
    pieces: &[Vec<u8>],
    takes: &[usize],
    others: &mut O,
) -> Result<AnsweredInTurns, NoMemory>
    requires ready { M.ready }
    ensures finishes { IfOk result (λ answered. IfSome answered.ended (λ ended.
        (engine : EngineValue G) × (engine.counts.lines ≡ answered.lines) × (rest : Option (List ℕ))
        × Finishes M.handling (start_at machine.old (Some (bytes_of (map (λ piece. piece.items) pieces.now))) (Some []))
        rest (Some answered.taken.items) machine.new engine ended)) }
    ensures gives_up { IfOk result (λ answered. answered.ended ≡ None → O.may_give_up) }
{
    let mut buffers = TurnBuffers::new(alloc)?;
    let mut lines = LineTurns::new(alloc, MAX_LINES);
    let mut input = FakeSource::new(pieces);
    let mut output = FakeSink::new(alloc, takes);
    let ended = answer_in_turns(
        &mut lines,
        &mut buffers,
        machine,
        &mut input,
        &mut output,
        others,
    );
    Ok(AnsweredInTurns {
        ended,
        lines: lines.counts().lines,
        taken: output.into_bytes(),
    })
}

/// A server that began anew or from honest copies, and then read honest streams beside commands, of which each adopted honest
/// copies alone: at each moment its tablets are faithful, and where all serve, it has exactly the records of what it took.
///
/// So two such servers that took the same images have the same records, whatever was lost, adopted and advanced meanwhile, and
/// so have a server and a script.
pub fn a_server_has_what_it_took()
    ensures faithful { (broker : BrokerRecord) (live : LiveRegionValue) → LivedHonestly broker live → AreFaithful broker (core live).tablets }
    ensures published { (broker : BrokerRecord) (live : LiveRegionValue) (lived : LivedHonestly broker live) → lived.copies ≡ None
        → AreHonestTablets broker live.tablets }
    ensures records { (broker : BrokerRecord) (live : LiveRegionValue) (lived : LivedHonestly broker live) → AllServe (core live)
        → all_cells (core live) ≡ table_of (images_lived lived) }
    ensures alike { (broker : BrokerRecord) (one other : LiveRegionValue) (lived : LivedHonestly broker one) (lives : LivedHonestly broker other)
        → AllServe (core one) → AllServe (core other) → SameImages (images_lived lived) (images_lived lives)
        → all_cells (core one) ≡ all_cells (core other) }
    ensures script { (broker : BrokerRecord) (live : LiveRegionValue) (lived : LivedHonestly broker live) (told : Told) → AllServe (core live)
        → Settled broker (new_region told.layout) told.input → SameImages (images_lived lived) (images_of broker told)
        → all_cells (core live) ≡ records_of told }
{}
