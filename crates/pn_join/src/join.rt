//! Values that can be copied, and values that join with others of their type.

ghost use Rattle.std.specs.Prelude.{◌≡◌, ◌≢◌, unwrap_or, IfOk, IfSome, OnOk, OnErr};
ghost use Rattle.pn_join.specs.Laws.{JoinLaws};

use crate::NoMemory;

/// A value that can be copied if there is memory.
pub trait Dup: Sized + Drop {
    /// An equal value.
    fn dup(&self) -> Result<Self, NoMemory>
        ensures { IfOk result (λ copy. copy ≡ self.now) };

    /// Brings what a copy will need into the cache, before many are copied.
    fn prefetch(&self) {}
}

/// A value that joins with others of its type. Joining is commutative, associative and idempotent in what the
/// values mean.
pub trait Join: Dup {
    /// What a value means.
    ghost Meaning: { Type 0 };

    ghost meaning: { Self → Meaning };

    /// What the join of two values means.
    ghost joined: { Meaning → Meaning → Meaning };

    /// What holds of every value of the type but is not seen in a contract.
    ghost valid: { Self → Type 0 } = { λ _. Unit {0} };

    /// Becomes the join of itself and the other. An error leaves it as it was.
    fn join_from(&mut self, other: &Self) -> Result<(), NoMemory>
        ensures ok { OnOk result (meaning self.new ≡ joined (meaning self.old) (meaning other.now)) }
        ensures err { OnErr result (self.new ≡ self.old) }
        ensures are_valid { valid self.old × valid other.now × valid self.new };

    /// The join of both, or `None` if this value already means the same.
    fn changed_by(&self, other: &Self) -> Result<Option<Self>, NoMemory>
        ensures joined { IfOk result (λ value. meaning (unwrap_or value self.now) ≡ joined (meaning self.now) (meaning other.now)) }
        ensures differs { IfOk result (λ value. IfSome value (λ v. meaning v ≢ meaning self.now)) }
        ensures are_valid { IfOk result (λ value. valid self.now × valid other.now × valid (unwrap_or value self.now)) };

    ghost laws: { JoinLaws joined };
}
