//! The laws of scripts, servers and copies, as contracts of functions that do nothing.

ghost use Rattle.std.specs.Prelude.{◌≡◌, ℕ, max, List, Option, Ok, ◌≢◌, [], None, Some, IsTrue, false, ◌++◌, map, ◌+◌};
ghost use Rattle.std.specs.List.{AllByRecursion, flat_map};
ghost use Rattle.std.specs.FinMap.{find, is_sorted};
ghost use Rattle.pn_join.specs.Prelude.{JoinLaws, key_by_key};
ghost use Rattle.pn_record.specs.Prelude.{table_of, cell_joined, Entries, bytes_cmp};
ghost use Rattle.pn_region.specs.Prelude.{AreHonestEvents, new_region, HoldsStill, all_cells, IsRegion};
ghost use Rattle.pn_protocol.specs.Prelude.{command_at, AsksForRecords, scan};
ghost use Rattle.pn_serve.specs.Machine.Turns.{end_turn, turn};
ghost use Rattle.pn_serve.specs.Machine.Outcomes.{Outcome};
ghost use Rattle.pn_serve.specs.Script.Events.{events_of_input, events_since, NothingLost};
ghost use Rattle.pn_serve.specs.Script.Written.{Input, all_lines, after_input, NoLosses, told_lines, ToldLine, after_line, AsksNoNotices};
ghost use Rattle.pn_serve.specs.Script.Laws.{Told, machine_of, records_of, images_of, TookTheSame, AwaitsCommand, reply_of, last_reply, AreAlike, IsNoOlder};
ghost use Rattle.pn_serve.specs.Script.Laws.{ShowsPage, ShowPages, shown_cell, IsRefused, IsRepeated, IsToldWithout};
ghost use Rattle.pn_stream.specs.Prelude.{BrokerRecord, DeliveryValue, up_to};
ghost use Rattle.pn_live.specs.PublishedTablets.{IsHonestList, AreHonestTablets};
ghost use Rattle.pn_live.specs.Readers.{LiveReaderValue, AllKnowPublished, AreOfTablets, TabletReaderValue};
ghost use Rattle.pn_protocol.specs.declared.reply.Reply.{Reply};
ghost use Rattle.pn_record.specs.Sets.{CellValue, Stamp};
ghost use Rattle.pn_serve.specs.Lines.{AllAnswer};
ghost use Rattle.pn_serve.specs.Session.Resuming.{KnowsNoLess};
ghost use Rattle.pn_serve.specs.Session.Lines.{AnswersLine, LooksUpKey};
ghost use Rattle.pn_scan.specs.Prelude.{QueryValue, PageValue, shown_rows, left_by, rows_of};
ghost use Rattle.pn_scan.specs.Shown.{is_after};
ghost use Rattle.pn_tablet.specs.Prelude.{Bounds, IsLayout, TabletCopyValue};
ghost use Rattle.pn_apply.specs.Prelude.{ranges};
ghost use Rattle.pn_region.specs.Reads.{AllServe, ServesAt};
ghost use Rattle.pn_region.specs.Events.{AreHonestCopies, start_events, all_taken, AllLeadTo};
ghost use Rattle.pn_live.specs.LiveRegions.{LiveRegionValue, core, IsNewLive, StartsLive};
ghost use Rattle.pn_serve.specs.Server.Events.{AllDone, WriterEvent, BringAll, RunsOn, region_events, AdoptsHonestly, DidHonestly, TookHonestly, ReadToEnds};
ghost use Rattle.pn_serve.specs.Server.Rounds.{RoundInputValue};
ghost use Rattle.pn_serve.specs.declared.server.mailboxes.AtFault.{AtFault};
ghost use Rattle.pn_serve.specs.Copies.{AreRecut};
ghost use Rattle.pn_record.specs.declared.records.Image.{Image};
ghost use Rattle.pn_region.specs.Laws.{AreFaithful, HasImages};
ghost use Rattle.pn_serve.specs.Server.Publishers.{IsHonestPublisher};
ghost use Rattle.pn_serve.specs.declared.server.events.ReadingEnd.{ReadingEnd};
ghost use Rattle.pn_stream.specs.Batches.{Batch};
ghost use Rattle.pn_stream.specs.Brokers.{IsHonest};
ghost use Rattle.pn_stream.specs.Streams.{Run};
ghost use Rattle.pn_stream.specs.declared.fault.StreamFault.{StreamFault};
ghost use Rattle.pn_serve.specs.Control.Commands.{ObeysLive, Said, event_by, with_event};
ghost use Rattle.pn_serve.specs.declared.control.commands.WriterCommand.{WriterCommand};

/// Two regions that took the same images hold exactly their records, and answer further lookups alike, unless memory
/// runs out. Honest lines make no record of a serving tablet older.
///
/// The record of brokers is what was published. Without losses and adoptions, any record will do.
///
/// Rounds that failed in between leave no trace once they are repeated: `repeated_delivers_leave_the_same_region`.
pub fn regions_converge()
    ensures records { (broker : BrokerRecord) (one other : Told) → TookTheSame broker one other
        → (records_of one ≡ table_of (images_of broker one)) × (records_of other ≡ table_of (images_of broker one)) }
    ensures replies { (broker : BrokerRecord) (one other : Told) → TookTheSame broker one other → AwaitsCommand one → AwaitsCommand other
        → (text : List ℕ) (went goes : Outcome) → AsksForRecords (command_at text)
        → AreAlike (reply_of one went text) (reply_of other goes text) × AreAlike (last_reply one went text) (last_reply other goes text) }
    ensures positions_join { JoinLaws max }
    ensures cells_join { JoinLaws cell_joined }
    ensures tables_join { JoinLaws (key_by_key {K = List ℕ} max) × JoinLaws (key_by_key {K = List ℕ} cell_joined) }
    ensures no_older { (told : Told) (outcome : Outcome) (text key : List ℕ)
        → IsNoOlder (machine_of told).region (turn (machine_of told) outcome text).machine.region key
        × IsNoOlder (machine_of told).region (end_turn (machine_of told) outcome text).machine.region key }
    ensures nor_later { (broker : BrokerRecord) (told : Told) (more : Input) (key : List ℕ)
        → AreHonestEvents broker (events_of_input (new_region told.layout) told.input) → AreHonestEvents broker (events_since (machine_of told) more)
        → IsNoOlder (machine_of told).region (after_input (machine_of told) more).region key }
    ensures any_record { (broker other : BrokerRecord) (told : Told) → NothingLost (new_region told.layout) told.input
        → images_of broker told ≡ images_of other told }
    ensures no_losses { (told : Told) → NoLosses (all_lines told.input) → NothingLost (new_region told.layout) told.input × AwaitsCommand told }
{}

/// Of two replies of one reader to `read` of a key, the later one shows no older record, nor fewer contents of a version,
/// whatever it answered in between, to whom, and across losses, where what it saw is honest.
///
/// Lines leave a reader that knows no less, also where other connections have it between two looks.
pub fn later_replies_show_no_older_record()
    ensures lines { (old : LiveReaderValue) (lines : List (List ℕ)) (replies : List Reply) (new : LiveReaderValue)
        → AllAnswer (AnswersLine KnowsNoLess) old lines replies new → KnowsNoLess old new }
    ensures reads { (broker : BrokerRecord) (first seen later last : LiveReaderValue) (key : List ℕ) (one other : Option Stamp) (reply again : Reply)
        (was : LooksUpKey first key one seen reply) → KnowsNoLess seen later → (now : LooksUpKey later key other last again)
        → AllByRecursion (λ reader. IsHonestList broker reader.range reader.seen) last.tablet_readers
        → (cell further : Option CellValue) → was.answer ≡ Ok cell → now.answer ≡ Ok further → HoldsStill cell further }
{}

/// A `scan` line that is not refused shows the page that the region has, with a newline or as the last of the input.
pub fn a_scan_line_shows_the_page_of_its_region()
    ensures line { (told : Told) (text : List ℕ) (outcome : Outcome) (query : QueryValue) → AwaitsCommand told
        → command_at text ≡ Ok (scan query) → (turn (machine_of told) outcome text).refused ≡ false
        → (page : PageValue) × ShowsPage (machine_of told) text (turn (machine_of told) outcome text) query page }
    ensures last { (told : Told) (text : List ℕ) (outcome : Outcome) (query : QueryValue) → AwaitsCommand told → text ≢ []
        → command_at text ≡ Ok (scan query) → (end_turn (machine_of told) outcome text).refused ≡ false
        → (page : PageValue) × ShowsPage (machine_of told) text (end_turn (machine_of told) outcome text) query page }
{}

/// Keys strictly rise from page to page of a script, whatever its other lines do in between.
///
/// All are above the key that the first query excludes.
pub fn keys_rise_from_page_to_page_of_a_script()
    ensures rise { (told : Told) (more : Input) (query : QueryValue) (pages : List PageValue)
        → ShowPages (λ region. Unit {0}) (machine_of told) (told_lines more.lines more.outcomes) more.end (Some query) pages
        → IsTrue (is_sorted bytes_cmp (rows_of pages)) }
    ensures after { (told : Told) (more : Input) (query : QueryValue) (pages : List PageValue)
        → ShowPages (λ region. Unit {0}) (machine_of told) (told_lines more.lines more.outcomes) more.end (Some query) pages
        → AllByRecursion (λ row. IsTrue (is_after query.after row.0)) (rows_of pages) }
{}

/// The pages of a script, to the last one, are together the rows that its cells show, while these stay the same.
///
/// Where they change, a record that stayed as it was is in the pages exactly if the query shows it.
pub fn pages_of_a_script_are_together_its_rows()
    ensures same_cells { (told : Told) (more : Input) (query : QueryValue) (pages : List PageValue) (cells : Entries)
        → ShowPages (λ region. all_cells region ≡ cells) (machine_of told) (told_lines more.lines more.outcomes) more.end (Some query) pages
        → left_by (Some query) pages ≡ None → rows_of pages ≡ shown_rows query cells }
    ensures stayed { (told : Told) (more : Input) (query : QueryValue) (pages : List PageValue) (key : List ℕ) (cell : Option CellValue)
        → ShowPages (λ region. find bytes_cmp key (all_cells region) ≡ cell) (machine_of told) (told_lines more.lines more.outcomes) more.end (Some query) pages
        → left_by (Some query) pages ≡ None → find bytes_cmp key (rows_of pages) ≡ shown_cell query key cell }
{}

/// A `deliver` that was refused, as where memory ran out, leaves no trace once it is repeated and accepted, with only
/// rounds in between.
///
/// Tablets, marks, and the lines that are awaited, are then those of the same input without it.
pub fn a_repeated_deliver_leaves_no_trace_of_a_refused_one()
    ensures region { (told : Told) (line : ToldLine) (deliveries : List DeliveryValue) (more : Input)
        → IsRefused (machine_of told) line deliveries
        → IsRepeated (after_line (machine_of told) line) (told_lines more.lines more.outcomes) more.end deliveries
        → (after_input (after_line (machine_of told) line) more).region ≡ (after_input (machine_of told) more).region }
    ensures mode { (told : Told) (line : ToldLine) (deliveries : List DeliveryValue) (more : Input)
        → IsRefused (machine_of told) line deliveries
        → IsRepeated (after_line (machine_of told) line) (told_lines more.lines more.outcomes) more.end deliveries
        → (after_input (after_line (machine_of told) line) more).mode ≡ (after_input (machine_of told) more).mode }
{}

/// A new region ends as it would without its refused `deliver` lines, if each is accepted when repeated, with only rounds
/// in between.
///
/// It has the same tablets and marks, and replies alike to each further line that asks for no notices.
pub fn repeated_delivers_leave_the_same_region()
    ensures region { (one other : Told) → IsToldWithout one other → (machine_of one).region ≡ (machine_of other).region }
    ensures mode { (one other : Told) → IsToldWithout one other → (machine_of one).mode ≡ (machine_of other).mode }
    ensures replies { (one other : Told) (outcome : Outcome) (text : List ℕ) → IsToldWithout one other → AsksNoNotices (command_at text)
        → (reply_of one outcome text ≡ reply_of other outcome text) × (last_reply one outcome text ≡ last_reply other outcome text) }
{}

/// A live region that starts from honest copies, those of its tablets in order, and then takes honest streams and does
/// commands that bring honest copies, has exactly what these brought once all its tablets serve.
pub fn a_start_from_copies_leaves_what_was_taken()
    ensures { (broker : BrokerRecord) (copies : List TabletCopyValue) (bounds : Bounds) (at_fault : AtFault)
        (names : List (List ℕ)) (started : LiveRegionValue) (events : List WriterEvent) (left : List (List ℕ)) (waits : Option RoundInputValue)
        (live : LiveRegionValue)
        → IsLayout bounds → map (λ copy. copy.range) copies ≡ ranges bounds → StartsLive copies bounds started → AreHonestCopies broker copies
        → AllDone at_fault names None started events left waits live → AreHonestEvents broker (region_events events) → AllServe (core live)
        → all_cells (core live) ≡ table_of (all_taken broker (start_events copies ++ region_events events)) }
{}

/// Copies that are recut are copies of the tablets of the other layout, in order, and honest where the ones before were. So a region that
/// starts from them starts as one of its layout does. They have all records, and no others.
pub fn recut_copies_are_as_good()
    ensures ranges { (copies recut : List TabletCopyValue) (bounds : Bounds) → AreRecut copies bounds recut → map (λ copy. copy.range) recut ≡ ranges bounds }
    ensures honest { (broker : BrokerRecord) (copies recut : List TabletCopyValue) (bounds : Bounds) → IsLayout bounds → AreRecut copies bounds recut
        → AreHonestCopies broker copies → AreHonestCopies broker recut }
    ensures records { (copies recut : List TabletCopyValue) (bounds : Bounds) → IsLayout bounds → (is : AreRecut copies bounds recut)
        → flat_map (λ copy. copy.cells) recut ≡ all_cells is.started }
{}

/// A live region whose streams came from any number of publishers, one after another, each honest about what was published,
/// holds exactly what was published up to its marks: as if each stream had been sent once. What publishers send again changes
/// nothing.
///
/// What is read of an honest publisher is honest, wherever it begins, and what is left of its input is honest too.
pub fn streams_that_resume_leave_what_was_published()
    ensures honest { (broker : BrokerRecord) (name text part : List ℕ) (least most position : ℕ) (images : List Image)
        (fault : Option StreamFault) (left : Option (List ℕ))
        → IsHonestPublisher broker name text → Batch least most position text images fault part left
        → IsHonest broker (record { stream = name; first = position + 1; images = images }) }
    ensures further { (broker : BrokerRecord) (name text rest : List ℕ) (position : ℕ) (images : List Image)
        → IsHonestPublisher broker name text → Run position text images rest → IsHonestPublisher broker name rest }
    ensures took { (broker : BrokerRecord) (bounds : Bounds) (at_fault : AtFault) (names : List (List ℕ)) (opened live : LiveRegionValue)
        → IsLayout bounds → IsNewLive bounds opened → ReadToEnds (IsHonest broker) at_fault names opened live → TookHonestly broker live }
    ensures holds { (broker : BrokerRecord) (live : LiveRegionValue) → TookHonestly broker live → HasImages (core live) (up_to broker live.marks) }
    ensures records { (broker : BrokerRecord) (live : LiveRegionValue) → TookHonestly broker live → all_cells (core live) ≡ table_of (up_to broker live.marks) }
    ensures alike { (broker : BrokerRecord) (one other : LiveRegionValue) → TookHonestly broker one → TookHonestly broker other → one.marks ≡ other.marks
        → all_cells (core one) ≡ all_cells (core other) }
{}

/// Rounds of streams and commands of control sessions, one after another, are events of the region. Where streams and adopted
/// copies are honest, a region whose tablets all serve has exactly the records of what it took, whatever else was done
/// meanwhile; and a record that its tablet serves before and after is still held.
pub fn streams_beside_commands_leave_what_was_taken()
    ensures events { (at_fault : AtFault) (names : List (List ℕ)) (waiting : Option RoundInputValue) (old : LiveRegionValue)
        (events : List WriterEvent) (left : List (List ℕ)) (waits : Option RoundInputValue) (new : LiveRegionValue)
        → AllDone at_fault names waiting old events left waits new → AllLeadTo (region_events events) (core old) (core new) }
    ensures did { (broker : BrokerRecord) (bounds : Bounds) (at_fault : AtFault) (names : List (List ℕ)) (opened live : LiveRegionValue)
        (end : ReadingEnd) (ran : RunsOn (IsHonest broker) at_fault names opened live end)
        → IsLayout bounds → IsNewLive bounds opened → AllByRecursion (AdoptsHonestly broker) ran.events → DidHonestly broker live }
    ensures honest { (broker : BrokerRecord) (events : List WriterEvent)
        → BringAll (IsHonest broker) events → AllByRecursion (AdoptsHonestly broker) events → AreHonestEvents broker (region_events events) }
    ensures records { (broker : BrokerRecord) (live : LiveRegionValue) (did : DidHonestly broker live) → AllServe (core live)
        → all_cells (core live) ≡ table_of (all_taken broker (region_events did.events)) }
    ensures served { (broker : BrokerRecord) (at_fault : AtFault) (names : List (List ℕ)) (waiting : Option RoundInputValue)
        (old : LiveRegionValue) (events : List WriterEvent) (left : List (List ℕ)) (waits : Option RoundInputValue) (new : LiveRegionValue) (key : List ℕ)
        → IsRegion (core old) → AreFaithful broker (core old).tablets → AllDone at_fault names waiting old events left waits new
        → AreHonestEvents broker (region_events events) → ServesAt (core old) key → ServesAt (core new) key
        → HoldsStill (find bytes_cmp key (all_cells (core old))) (find bytes_cmp key (all_cells (core new))) }
{}

/// Where streams and adopted copies are honest, all that a live region publishes is honest, whatever rounds, commands and faults
/// come. So is all that a reader saw that knows no more than what is published: its answers never go back, across losses too.
pub fn honest_events_keep_what_is_published_honest()
    ensures kept { (broker : BrokerRecord) (at_fault : AtFault) (names : List (List ℕ)) (waiting : Option RoundInputValue)
        (old : LiveRegionValue) (events : List WriterEvent) (left : List (List ℕ)) (waits : Option RoundInputValue) (new : LiveRegionValue)
        → IsRegion (core old) → AreHonestTablets broker old.tablets → AllDone at_fault names waiting old events left waits new
        → AreHonestEvents broker (region_events events) → AreHonestTablets broker new.tablets }
    ensures published { (broker : BrokerRecord) (live : LiveRegionValue) → DidHonestly broker live → AreHonestTablets broker live.tablets }
    ensures seen { (broker : BrokerRecord) (live : LiveRegionValue) (readers : List TabletReaderValue)
        → DidHonestly broker live → AreOfTablets live.tablets readers → AllKnowPublished live.tablets readers
        → AllByRecursion (λ reader. IsHonestList broker reader.range reader.seen) readers }
{}

/// What the writer does for a control session is an event of the region, as a round is: a loss, an adoption, or marks that
/// advance. A question and a refused command leave the region as it was. So what holds of all events holds beside control
/// sessions. A call does nothing.
pub fn commands_are_events()
    ensures { (old new : LiveRegionValue) (asked : WriterCommand) (said : Said) → ObeysLive old asked new said
        → AllLeadTo (with_event (event_by asked said) []) (core old) (core new) }
{}
