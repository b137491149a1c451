//! The memory of a reader, which may be waited for where it runs out.

ghost use Rattle.std.specs.Prelude.{◌≡◌, ◌<◌, [], ◌∷◌, ◌++◌, false, vec_len, vec_capacity, IfOk, OnOk, OnErr};
ghost use Rattle.pn_stream.specs.Calls.{FailedSoFar, MadeAtLast};
ghost use Rattle.pn_line.specs.Prelude.{so_far};

use pn_join::NoMemory;
use pn_line::LineBuffer;
use std::alloc::Global;

/// Where a reader's memory comes from, and what is done where it runs out.
pub trait ReaderMemory {
    // False where memory is asked for until there is some.
    ghost may_give_up: { Type 0 };

    /// What allocates.
    fn alloc(&self) -> Global;

    /// Waits until memory may be there again. False where it is not to be asked for again.
    fn wait(&self) -> bool
        ensures { result ≡ false → may_give_up };

    /// Gives up, after 2^64 - 1 waits.
    fn give_up(&self)
        ensures { may_give_up };
}

/// Memory that is not waited for.
#[derive(Drop)]
pub struct NoWait {
    alloc: Global,
}

impl NoWait {
    /// What is allocated here is not waited for.
    pub fn new(alloc: Global) -> NoWait {
        NoWait { alloc }
    }
}

impl ReaderMemory for NoWait {
    ghost may_give_up = { Unit {0} };

    fn alloc(&self) -> Global {
        self.alloc
    }

    fn wait(&self) -> bool {
        false
    }

    fn give_up(&self) {}
}

/// What the attempt makes. Where memory runs out for it, memory is waited for, and the attempt is made again.
pub(crate) fn make_in_memory<T, M: ReaderMemory, F: FnMut() -> Result<T, NoMemory>>(
    memory: &M,
    attempt: &mut F,
) -> Result<T, NoMemory>
    requires { F.IsAlwaysCallable attempt.old }
    ensures made { IfOk result (λ made. MadeAtLast F.step attempt.old made attempt.new) }
    ensures failed { OnErr result (FailedSoFar F.step attempt.old attempt.new) }
    ensures gives_up { OnErr result M.may_give_up }
{
    for _ in 0..u64::MAX {
        if let Ok(made) = attempt() {
            return Ok(made);
        }
        if !memory.wait() {
            return Err(NoMemory);
        }
    }
    memory.give_up();
    Err(NoMemory)
}

/// A line that has no byte yet.
pub(crate) fn new_line<M: ReaderMemory>(memory: &M) -> Result<LineBuffer, NoMemory>
    ensures line { IfOk result (λ line. line ≡ so_far []) }
    ensures gives_up { OnErr result M.may_give_up }
{
    make_in_memory(memory, &mut || Ok(LineBuffer::new(memory.alloc())?))
}

// Reserves memory for one more.
fn reserve_one<T, M: ReaderMemory>(memory: &M, list: &mut Vec<T>) -> Result<(), NoMemory>
    ensures room { OnOk result (vec_len list.new < vec_capacity list.new) }
    ensures items { list.new.items ≡ list.old.items }
    ensures gives_up { OnErr result M.may_give_up }
{
    make_in_memory(memory, &mut || Ok(list.reserve(1)?))
}

/// Adds one more. An error leaves the list as it was.
pub(crate) fn push_one<T: Drop, M: ReaderMemory>(
    memory: &M,
    list: &mut Vec<T>,
    item: T,
) -> Result<(), NoMemory>
    ensures ok { OnOk result (list.new.items ≡ list.old.items ++ item ∷ []) }
    ensures err { OnErr result (list.new.items ≡ list.old.items) }
    ensures gives_up { OnErr result M.may_give_up }
{
    reserve_one(memory, list)?;
    list.push_reserved(item);
    Ok(())
}
