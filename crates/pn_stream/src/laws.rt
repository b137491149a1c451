//! The laws of streams, as contracts. A call does nothing.

ghost use Rattle.std.specs.Prelude.{◌≡◌, ℕ, ◌+◌, pred, List, ◌++◌, length, All, Option, Some, None, Ok, IfSome};
ghost use Rattle.pn_record.specs.declared.records.Image.{Image};
ghost use Rattle.pn_stream.specs.Batches.{Stream, Batch, IsRead, IsWhole};
ghost use Rattle.pn_stream.specs.Calls.{IsCall, IsResumed};
ghost use Rattle.pn_stream.specs.Streams.{IsOfText, Run};
ghost use Rattle.pn_stream.specs.Messages.{IsMessageLine, Message};
ghost use Rattle.pn_stream.specs.Brokers.{DeliveryValue};
ghost use Rattle.pn_stream.specs.declared.fault.StreamFault.{StreamFault};

use pn_line::Source;

/// No line is read as two messages.
pub fn a_line_is_one_message()
    ensures { (line : List ℕ) (one other : Message) → IsMessageLine line one → IsMessageLine line other → one ≡ other }
{}

/// A text has one batch: however its bytes arrive, the images and the fault after them are the same, unless memory
/// runs out or the source fails.
pub fn the_pieces_make_no_difference()
    ensures { (max position : ℕ) (text : List ℕ) (one other : List Image) (fault next : Option StreamFault)
        (part piece : List ℕ) (left leaves : Option (List ℕ))
        → Batch max max position text one fault part left → Batch max max position text other next piece leaves
        → IsOfText fault → IsOfText next → (one ≡ other) × (fault ≡ next) }
{}

/// Consecutive batches concatenate to one run of messages.
pub fn batches_follow_one_another()
    ensures { (position : ℕ) (text rest more : List ℕ) (one other : List Image)
        → Run position text one rest → Run (position + length one) rest other more
        → Run position text (one ++ other) more }
{}

/// Two calls, one after another, give what one call gives that asks for as many messages.
pub fn two_calls_are_one()
    ensures { (least most fewest max position : ℕ) (text part piece : List ℕ) (one other : List Image) (fault : Option StreamFault)
        (left leaves : Option (List ℕ))
        → Batch least most position text one None part left
        → IfSome left (λ rest. Batch fewest max (position + length one) (part ++ rest) other fault piece leaves)
        → Batch (length one + fewest) (length one + max) position text (one ++ other) fault piece leaves }
{}

/// What is read of lines and then of the lines after them, at the positions that follow theirs, is what is read of all of
/// them; and the fault at one of the earlier lines hides what is read of the later ones.
pub fn chunks_are_read_as_one()
    ensures follow { (position : ℕ) (low high : List (List ℕ)) (one other : List Image) (fault : Option StreamFault)
        → IsRead position low one None → IsRead (position + length low) high other fault
        → IsRead position (low ++ high) (one ++ other) fault }
    ensures hidden { (position : ℕ) (low high : List (List ℕ)) (one : List Image) (fault : StreamFault)
        → IsRead position low one (Some fault) → IsRead position (low ++ high) one (Some fault) }
{}

/// Whole lines are read in one way, unless memory runs out: in how many chunks makes no difference.
pub fn chunks_make_no_difference()
    ensures { (position : ℕ) (lines : List (List ℕ)) (one other : List Image) (fault next : Option StreamFault)
        → All IsWhole lines → IsRead position lines one fault → IsRead position lines other next
        → IsOfText fault → IsOfText next → (one ≡ other) × (fault ≡ next) }
{}

/// What a publisher's first message and a call after it give is what one call gives that begins just before that message:
/// one run of messages in step from the first one on.
pub fn a_publisher_gives_one_run<S: Source + Drop>()
    ensures { (least most : ℕ) (old begun new : Stream S) (first next : DeliveryValue)
        → IsResumed S.left S.may_fail old (Ok (Some first)) begun → IsCall S.left S.may_fail least most begun (Ok next) new
        → IfSome (S.left old.source) (λ text. Batch (1 + least) (1 + most) (pred first.first) (old.part ++ text)
        (first.images ++ next.images) new.fault new.part (S.left new.source)) }
{}
