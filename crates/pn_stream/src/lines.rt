//! Whole lines of a stream, taken from its source before their messages are read.

ghost use Rattle.std.specs.Prelude.{◌≡◌, ℕ, ◌≤◌, [], ◌++◌, length, All, None, Some, IfOk, IfErr, IfSome, OnOk, OnErr, OnSome, IsErrOf, IsSome};
ghost use Rattle.pn_line.specs.Prelude.{HasShown};
ghost use Rattle.pn_stream.specs.Batches.{IsPart, part_of, Gathered, IsNextLine, IsWhole};
ghost use Rattle.pn_stream.specs.Streams.{Stands};

use crate::fault::StreamFault;
use crate::memory::{ReaderMemory, make_in_memory, push_one};
use crate::next::{BatchSize, take_line, whole_line};
use pn_join::NoMemory;
use pn_line::{LineBuffer, Source, read_bounded_line};
use std::alloc::Global;
use std::marker::Model;

/// The bytes of a whole line, without its newline.
#[derive(Drop)]
pub(crate) struct WholeLine {
    bytes: Vec<u8>,
}

impl Model for WholeLine {
    ghost use Rattle.std.specs.Prelude.{ℕ, List};

    ghost Value = { List ℕ };

    ghost view = { λ line. line.bytes.items };
}

impl WholeLine {
    /// A copy of these bytes.
    fn copy_of(alloc: Global, bytes: &[u8]) -> Result<WholeLine, NoMemory>
        ensures { IfOk result (λ line. line ≡ bytes.now) }
    {
        Ok(WholeLine {
            bytes: Vec::from_slice(alloc, bytes)?,
        })
    }

    /// Its bytes.
    pub(crate) fn bytes(&self) -> &[u8]
        ensures { result.now ≡ self.now }
    {
        &self.bytes
    }
}

/// A line that was taken, and whether a further newline was seen after it.
#[derive(Drop)]
pub(crate) struct NextLine {
    pub(crate) line: WholeLine,
    more: bool,
}

/// Adds the next lines, until there are enough, no whole line is left, or a fault comes. The part of a line that was
/// read is kept.
pub(crate) fn take_lines<S: Source, M: ReaderMemory>(
    memory: &M,
    held: &mut Option<LineBuffer>,
    source: &mut S,
    size: BatchSize,
    lines: &mut Vec<WholeLine>,
) -> Result<(), StreamFault>
    requires part { IfSome held.old IsPart }
    requires none { lines.old.items ≡ [] }
    requires some { 1 ≤ size.least }
    requires few { size.least ≤ size.most }
    ensures within { length lines.new.items ≤ size.most }
    ensures whole { All IsWhole lines.new.items }
    ensures ok { OnOk result (IfSome (S.left source.old) (λ text.
        Gathered size.least size.most (part_of held.old ++ text) lines.new.items None (part_of held.new) (S.left source.new))) }
    ensures err { IfErr result (λ fault. IfSome (S.left source.old) (λ text.
        Gathered size.least size.most (part_of held.old ++ text) lines.new.items (Some fault) (part_of held.new) (S.left source.new))) }
    ensures part { IfSome held.new IsPart }
    ensures read { IsErrOf result StreamFault.Read → S.may_fail }
    ensures gives_up { IsErrOf result StreamFault.Memory → M.may_give_up }
    ensures not_failed { IsErrOf result StreamFault.Failed → ⊥ }
{
    let mut line = take_line(memory, held)?;
    let mut more = false;
    'lines: while size.wants(lines.len(), more) {
        match next_line(memory, &mut line, source)? {
            Some(next) => {
                more = next.more;
                push_one(memory, lines, next.line)?;
            }
            None => {
                *held = Some(line);
                return Ok(());
            }
        }
    }
    *held = Some(line);
    Ok(())
}

// A copy of these bytes. Where memory runs out, they are copied again.
fn copy_in_memory<M: ReaderMemory>(memory: &M, bytes: &[u8]) -> Result<WholeLine, NoMemory>
    ensures copy { IfOk result (λ line. line ≡ bytes.now) }
    ensures gives_up { OnErr result M.may_give_up }
{
    make_in_memory(memory, &mut || WholeLine::copy_of(memory.alloc(), bytes))
}

// The next whole line. None where none is left.
fn next_line<S: Source, M: ReaderMemory>(
    memory: &M,
    line: &mut LineBuffer,
    source: &mut S,
) -> Result<Option<NextLine>, StreamFault>
    requires { IsPart line.old }
    ensures next { IfOk result (λ found. IfSome (S.left source.old) (λ text.
        IsNextLine (line.old.bytes ++ text) found line.new.bytes (S.left source.new))) }
    ensures whole { IfOk result (λ found. IfSome found (λ next. IsWhole next.line)) }
    ensures taken { IfOk result (λ found. IsSome found → line.new.bytes ≡ []) }
    ensures more { IfOk result (λ found. IfSome found (λ next.
        OnSome (S.left source.old) (HasShown next.more (S.left source.new)))) }
    ensures stands { IfErr result (λ fault. IfSome (S.left source.old) (λ text.
        (wanted : ℕ) → Stands wanted (line.old.bytes ++ text) fault)) }
    ensures part { OnOk result (IsPart line.new) }
    ensures read { IsErrOf result StreamFault.Read → S.may_fail }
    ensures gives_up { IsErrOf result StreamFault.Memory → M.may_give_up }
    ensures not_failed { IsErrOf result StreamFault.Failed → ⊥ }
{
    let Some(more) = whole_line(read_bounded_line(line, source))? else {
        return Ok(None);
    };
    let copy = copy_in_memory(memory, line.bytes())?;
    line.start();
    Ok(Some(NextLine { line: copy, more }))
}
