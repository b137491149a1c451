//! The marks of streams after deliveries.

ghost use Rattle.std.specs.Prelude.{◌≡◌, ◌≤◌, ◌+◌, ◌∷◌, [], length, map, Ok, Err, IsTrue, IfOk, IfErr, IfSome, OnOk};
ghost use Rattle.std.specs.FinMap.{is_sorted};
ghost use Rattle.std.specs.Int.{from_bool};
ghost use Rattle.pn_join.specs.Prelude.{name_cmp, is_position, position_of, are_positions};
ghost use Rattle.pn_tablet.specs.Prelude.{Refuses};
ghost use Rattle.pn_region.specs.declared.marking.TheConstants.{MAX_STREAMS};
ghost use Rattle.pn_region.specs.Rounds.{with_images, last_of as the_last_of, last_of_stream as the_last_of_stream, with_deliveries, marks_after, new_marks};
ghost use Rattle.pn_region.specs.Rounds.{is_memory};

use crate::RoundFault;
use pn_apply::Batch;
use pn_join::{Dup, Marks, NoMemory, StreamName, raise_at};

/// The most streams that a region takes.
pub const MAX_STREAMS: usize = 16;

/// The marks after the deliveries, in order. One with images raises its stream's mark to its last position.
/// The positions of the marks are 1 to 10^15, before and after.
///
/// `Gap` comes exactly where a delivery begins more than one past its stream's mark, and names the first; else
/// `TooManyStreams` exactly where there would be more than 16 names.
pub fn next_marks<B: Batch>(marks: &Marks, deliveries: &[B]) -> Result<Marks, RoundFault>
    requires positions { IsTrue (are_positions marks.now) }
    ensures ok { IfOk result (λ next. new_marks marks.now (map B.delivery deliveries.now) ≡ Ok next) }
    ensures refused { IfErr result (λ fault. Refuses is_memory fault (new_marks marks.now (map B.delivery deliveries.now))) }
    ensures positions { IfOk result (λ next. IsTrue (are_positions next)) }
    ensures few { IfOk result (λ next. length next ≤ MAX_STREAMS) }
{
    check_marks(marks, deliveries)?;
    Ok(raise_all(marks, deliveries)?)
}

/// The first fault of the deliveries: a gap, or else too many streams. It takes no memory.
pub fn check_marks<B: Batch>(marks: &Marks, deliveries: &[B]) -> Result<(), RoundFault>
    requires { IsTrue (are_positions marks.now) }
    ensures ok { OnOk result (new_marks marks.now (map B.delivery deliveries.now) ≡ Ok (with_deliveries marks.now (map B.delivery deliveries.now))) }
    ensures few { OnOk result (length (with_deliveries marks.now (map B.delivery deliveries.now)) ≤ MAX_STREAMS) }
    ensures refused { IfErr result (λ fault. new_marks marks.now (map B.delivery deliveries.now) ≡ Err fault) }
{
    let mut streams = marks.len();
    for (index, delivery) in deliveries.iter().enumerate() {
        let is_new = is_new_stream(marks, &deliveries[..index], delivery)?;
        streams = streams.saturating_add(usize::from(is_new));
    }
    if streams > MAX_STREAMS {
        return Err(RoundFault::TooManyStreams);
    }
    Ok(())
}

// Whether the delivery has images of a stream that neither the marks nor the deliveries before it have.
fn is_new_stream<B: Batch>(marks: &Marks, before: &[B], delivery: &B) -> Result<bool, RoundFault>
    requires positions { IsTrue (are_positions (with_deliveries marks.now (map B.delivery before.now))) }
    requires rising { IsTrue (is_sorted name_cmp (with_deliveries marks.now (map B.delivery before.now))) }
    ensures ok { OnOk result (marks_after (with_deliveries marks.now (map B.delivery before.now)) (with_images (B.delivery delivery.now ∷ []))
        ≡ Ok (with_deliveries (with_deliveries marks.now (map B.delivery before.now)) (B.delivery delivery.now ∷ []))) }
    ensures count { IfOk result (λ is_new. length (with_deliveries (with_deliveries marks.now (map B.delivery before.now)) (B.delivery delivery.now ∷ []))
        ≡ length (with_deliveries marks.now (map B.delivery before.now)) + from_bool is_new) }
    ensures positions { OnOk result (IsTrue (are_positions
        (with_deliveries (with_deliveries marks.now (map B.delivery before.now)) (B.delivery delivery.now ∷ [])))) }
    ensures refused { IfErr result (λ fault.
        marks_after (with_deliveries marks.now (map B.delivery before.now)) (with_images (B.delivery delivery.now ∷ [])) ≡ Err fault) }
{
    if delivery.count() == 0 {
        return Ok(false);
    }
    let mark = mark_after(marks, before, delivery.stream());
    let first = delivery.first();
    if mark < first - 1 {
        return Err(RoundFault::Gap {
            stream: *delivery.stream(),
            wanted: mark + 1,
            got: first,
        });
    }
    Ok(mark == 0)
}

// The mark of the stream after the deliveries, whether or not there is a gap between them.
fn mark_after<B: Batch>(marks: &Marks, deliveries: &[B], stream: &StreamName) -> u64
    ensures { result ≡ position_of (with_deliveries marks.now (map B.delivery deliveries.now)) stream.now }
{
    let mut mark = marks.position(stream);
    for delivery in deliveries {
        mark = mark.max(last_of_stream(stream, delivery).unwrap_or(0));
    }
    mark
}

// The position of the delivery's last image, if it is of the stream.
fn last_of_stream<B: Batch>(stream: &StreamName, delivery: &B) -> Option<u64>
    ensures { result ≡ the_last_of_stream stream.now (B.delivery delivery.now) }
{
    if delivery.stream() != stream {
        return None;
    }
    last_of(delivery)
}

// The position of the delivery's last image.
fn last_of<B: Batch>(delivery: &B) -> Option<u64>
    ensures last { result ≡ the_last_of (B.delivery delivery.now) }
    ensures position { IfSome result (λ last. IsTrue (is_position last)) }
{
    let (first, count) = (delivery.first(), delivery.count() as u64);
    if count == 0 {
        return None;
    }
    Some(first + count - 1)
}

// The marks after deliveries without a gap between them.
fn raise_all<B: Batch>(marks: &Marks, deliveries: &[B]) -> Result<Marks, NoMemory>
    requires { IsTrue (are_positions marks.now) }
    ensures ok { IfOk result (λ next. next ≡ with_deliveries marks.now (map B.delivery deliveries.now)) }
    ensures positions { IfOk result (λ next. IsTrue (are_positions next)) }
{
    let mut next = marks.dup()?;
    for delivery in deliveries {
        raise_by(&mut next, delivery)?;
    }
    Ok(next)
}

// Raises the mark of the delivery's stream.
fn raise_by<B: Batch>(marks: &mut Marks, delivery: &B) -> Result<(), NoMemory>
    requires { IsTrue (are_positions marks.old) }
    ensures ok { OnOk result (marks.new ≡ with_deliveries marks.old (B.delivery delivery.now ∷ [])) }
    ensures positions { OnOk result (IsTrue (are_positions marks.new)) }
{
    let Some(last) = last_of(delivery) else {
        return Ok(());
    };
    raise_at(marks, *delivery.stream(), last)?;
    Ok(())
}
