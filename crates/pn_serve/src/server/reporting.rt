//! Reports a stream from one publisher after another, in its thread.

ghost use Rattle.std.specs.Prelude.{◌≡◌, ◌≤◌, max, min, None, IfOk, IfErr, IfSome, IsOk, IsSome, MatchResult};
ghost use Rattle.pn_join.specs.declared.marks.TheConstants.{LAST_POSITION};
ghost use Rattle.pn_serve.specs.Server.Publishers.{IsOfPublisher, EndsStream, EndsInput, IsReaderFrom};
ghost use Rattle.pn_serve.specs.declared.server.publishers.PublisherEnd.TheVariants.{End};

use crate::server::held_report::ClosedMailbox;
use crate::server::publisher_input::{Given, PublisherInput};
use crate::server::publishers::{Origin, PublisherEnd, Sending};
use crate::server::reports::{Report, Reporter, StreamMemory};
use pn_join::StreamName;
use pn_line::Source;
use std::alloc::Global;
use std::sync::Wait;
use std::thread::Threads;
use std::time::Clock;

/// The end of a stream: its name, and the position of its last message.
#[derive(Drop)]
pub(crate) struct StreamEnd {
    pub(crate) name: StreamName,
    pub(crate) last: u64,
}

/// Reports a stream from this input on, from one publisher after another, until there is none, or until the mailbox is closed.
/// The error is the stream's name.
pub(crate) fn report_stream<R, S, O, M>(
    rt: &R,
    alloc: Global,
    input: PublisherInput<S>,
    origin: O,
    reporter: &Reporter<M>,
) -> Result<StreamEnd, StreamName>
where
    R: Threads + Wait + Clock,
    S: Source + Drop,
    O: Origin<S, M> + Drop,
    M: Sending,
    requires { M.known → IsOfPublisher M.sends S.left input.reader }
    ensures { (O.may_go_on → ⊥) → IsSome input.before → EndsStream S.left input.reader result }
{
    let mut input = input;
    let mut origin = origin;
    for _ in rt.forever() {
        let end = match read_publisher::<R, S, O, M>(rt, alloc, &mut input, &mut origin, reporter) {
            Ok(end) => end,
            Err(closed) => return Err(stop_reading::<S, O, M>(input, &mut origin, closed)),
        };
        let ended = end_of(&input, &end);
        match what_comes_next::<S, O, M>(alloc, input, &end, &mut origin) {
            Some(next) => input = next,
            None => {
                let _ = reporter.leave(rt, last_report(&ended));
                return ended;
            }
        }
    }
    unreachable!()
}

// Gives back what a publisher was read from before its end, since its mailbox is closed. Answers the stream's name.
fn stop_reading<S: Source + Drop, O: Origin<S, M>, M: Sending>(
    input: PublisherInput<S>,
    origin: &mut O,
    _closed: ClosedMailbox,
) -> StreamName
    ensures { result ≡ input.reader.name }
{
    let name = input.name();
    origin.stop_publisher(input.reader.into_source());
    name
}

// Reports the messages of a publisher. Answers how its input ended. The error shows that the mailbox takes nothing more.
fn read_publisher<R, S, O, M>(
    rt: &R,
    alloc: Global,
    input: &mut PublisherInput<S>,
    origin: &mut O,
    reporter: &Reporter<M>,
) -> Result<PublisherEnd, ClosedMailbox>
where
    R: Threads + Wait + Clock,
    S: Source + Drop,
    O: Origin<S, M>,
    M: Sending,
    requires { M.known → IsOfPublisher M.sends S.left input.old.reader }
    ensures ends { IfOk result (λ end. EndsInput S.left input.old.before input.old.reader end input.new.before input.new.reader) }
    ensures last { input.old.reader.position ≤ input.old.last → IsOk result → input.new.last ≡ max input.old.last input.new.reader.position }
    ensures name { input.new.reader.name ≡ input.old.reader.name }
{
    let memory = StreamMemory {
        rt,
        alloc,
        reporter,
    };
    for _ in rt.forever() {
        match input.next(rt, &memory) {
            Given::Messages(messages) => {
                reporter.show_shortage(false);
                let share = messages.into_share(alloc);
                let left = reporter.leave(rt, Report::Messages(share))?;
                input.note_handed(left);
                origin.note_handed(input.last);
            }
            Given::Ended(end) => {
                reporter.show_shortage(false);
                return unless_stopped(rt, reporter, end);
            }
        }
    }
    unreachable!()
}

// How a publisher's input ended, unless memory ran out for it and the mailbox takes nothing more.
fn unless_stopped<R: Wait, M: Sending>(
    rt: &R,
    reporter: &Reporter<M>,
    end: PublisherEnd,
) -> Result<PublisherEnd, ClosedMailbox>
    ensures { IfOk result (λ ended. ended ≡ end) }
{
    match reporter.stopped(rt, &end) {
        Some(closed) => Err(closed),
        None => Ok(end),
    }
}

// How a stream ends if no publisher follows this one.
fn end_of<S: Source + Drop>(
    input: &PublisherInput<S>,
    end: &PublisherEnd,
) -> Result<StreamEnd, StreamName>
    ensures ok { IfOk result (λ ended. (end.now ≡ End) × (ended.name ≡ input.now.reader.name) × (ended.last ≡ input.now.reader.position)) }
    ensures err { IfErr result (λ name. name ≡ input.now.reader.name) }
    ensures whole { end.now ≡ End → IsOk result }
{
    let name = input.name();
    match end {
        PublisherEnd::End => Ok(StreamEnd {
            name,
            last: input.reader.position(),
        }),
        PublisherEnd::Fault { .. } => Err(name),
    }
}

// What comes after a publisher's input: that of the next one, which begins after what was reported or later, with no part of the
// last one's line. None where the stream has ended.
fn what_comes_next<S: Source + Drop, O: Origin<S, M>, M: Sending>(
    alloc: Global,
    input: PublisherInput<S>,
    end: &PublisherEnd,
    origin: &mut O,
) -> Option<PublisherInput<S>>
    ensures goes_on { IsSome result → O.may_go_on }
    ensures anew { IfSome result (λ next. IsReaderFrom input.reader.name (min next.last LAST_POSITION) next.reader) }
    ensures begins { IfSome result (λ next. O.begins_after next.reader.source next.last) }
    ensures sent { IfSome result (λ next. M.known → IsOfPublisher M.sends S.left next.reader) }
    ensures before { IfSome result (λ next. next.before ≡ None) }
    ensures last { IfSome result (λ next. input.last ≤ next.last) }
{
    let PublisherInput {
        reader,
        last,
        workers,
        ..
    } = input;
    let name = *reader.name();
    origin.end_publisher(reader.into_source(), end, last);
    next_input::<S, O, M>(alloc, name, last, workers, origin)
}

/// The input of the next publisher of a stream, all of which was reported up to `last`. It begins after the position that the
/// origin says. None where the stream has ended.
pub(crate) fn next_input<S: Source + Drop, O: Origin<S, M>, M: Sending>(
    alloc: Global,
    name: StreamName,
    last: u64,
    workers: usize,
    origin: &mut O,
) -> Option<PublisherInput<S>>
    ensures goes_on { IsSome result → O.may_go_on }
    ensures anew { IfSome result (λ next. IsReaderFrom name (min next.last LAST_POSITION) next.reader) }
    ensures begins { IfSome result (λ next. O.begins_after next.reader.source next.last) }
    ensures sent { IfSome result (λ next. M.known → IsOfPublisher M.sends S.left next.reader) }
    ensures before { IfSome result (λ next. next.before ≡ None) }
    ensures last { IfSome result (λ next. last ≤ next.last) }
{
    match origin.next_publisher(&name, last) {
        Some(next) => Some(PublisherInput::begin(alloc, name, next, workers)),
        None => None,
    }
}

// The last report of a stream, by how its input ended.
fn last_report(ended: &Result<StreamEnd, StreamName>) -> Report
    ensures { MatchResult ended.now (λ end. result ≡ Report.End end.name) (λ name. result ≡ Report.Fault name) }
{
    match ended {
        Ok(end) => Report::End(end.name),
        Err(name) => Report::Fault(*name),
    }
}
