//! The first message of a publisher, which may come again.

ghost use Rattle.std.specs.Prelude.{◌≡◌, ◌+◌, ◌<◌, ◌≤◌, [], ◌∷◌, ◌++◌, IfOk, IfErr, IfSome, OnOk, OnErr, IsErrOf};
ghost use Rattle.pn_join.specs.declared.marks.TheConstants.{LAST_POSITION};
ghost use Rattle.pn_stream.specs.Batches.{IsPart, part_of};
ghost use Rattle.pn_stream.specs.Calls.{IsFirst, StandsFirst};
ghost use Rattle.pn_stream.specs.Streams.{NoLine, IsLeft};

use crate::fault::{ResumeFault, StreamFault};
use crate::memory::{ReaderMemory, push_one};
use crate::next::{next_message, take_line};
use pn_join::NoMemory;
use pn_line::{LineBuffer, Source};
use pn_record::Image;

/// The position of the first message, from 1 to one past `position`, and its one image. None where no whole line is
/// left. The part of a line that was read is kept.
pub(crate) fn first_message<S: Source, M: ReaderMemory>(
    memory: &M,
    held: &mut Option<LineBuffer>,
    source: &mut S,
    position: u64,
) -> Result<Option<(u64, Vec<Image>)>, ResumeFault>
    requires part { IfSome held.old IsPart }
    requires position { position ≤ LAST_POSITION }
    ensures first { IfOk result (λ found. IfSome found (λ first.
        IsFirst position (part_of held.old) (S.left source.old) first.0 first.1.items (part_of held.new) (S.left source.new))) }
    ensures none { IfOk result (λ found. found ≡ None → IfSome (S.left source.old) (λ text.
        NoLine (part_of held.old ++ text) × IsLeft (part_of held.old ++ text) (part_of held.new) (S.left source.new))) }
    ensures stands { IfErr result (λ fault. IfSome (S.left source.old) (λ text.
        StandsFirst (position + 1) (part_of held.old ++ text) fault)) }
    ensures part { IfSome held.new IsPart }
    ensures read { IsErrOf result (ResumeFault.Stream StreamFault.Read) → S.may_fail }
    ensures gives_up { IsErrOf result (ResumeFault.Stream StreamFault.Memory) → M.may_give_up }
    ensures not_failed { IsErrOf result (ResumeFault.Stream StreamFault.Failed) → ⊥ }
{
    let mut line = take_line(memory, held)?;
    let wanted = position + 1;
    let found = next_message(memory, &mut line, source, wanted)?;
    *held = Some(line);
    let Some(first) = found else {
        return Ok(None);
    };
    check_no_gap(wanted, first.at)?;
    let images = one_image(memory, first.image)?;
    Ok(Some((first.at, images)))
}

// Whether the message at `at` leaves none out before it, where the one at `wanted` comes next.
fn check_no_gap(wanted: u64, at: u64) -> Result<(), ResumeFault>
    ensures ok { OnOk result (at ≤ wanted) }
    ensures err { IfErr result (λ fault. (fault ≡ ResumeFault.Gap at wanted) × (wanted < at)) }
{
    if at <= wanted {
        Ok(())
    } else {
        Err(ResumeFault::Gap { got: at, wanted })
    }
}

// A list of one image.
fn one_image<M: ReaderMemory>(memory: &M, image: Image) -> Result<Vec<Image>, NoMemory>
    ensures image { IfOk result (λ images. images.items ≡ image ∷ []) }
    ensures gives_up { OnErr result M.may_give_up }
{
    let mut images = Vec::new(memory.alloc());
    push_one(memory, &mut images, image)?;
    Ok(images)
}
