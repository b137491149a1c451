//! What a join changes in a table.

ghost use Rattle.std.specs.Prelude.{◌≡◌, IfOk};
ghost use Rattle.std.specs.Option.{option_copied};

use crate::{Dup, NoMemory};

/// A key whose content a join changes, with its content before, if any, and after.
#[derive(Debug, Drop)]
pub struct TableChange<K, C> {
    pub key: K,
    pub before: Option<C>,
    pub after: C,
}

/// A copy of the content, if there is one.
pub fn dup_optional<C: Dup>(content: Option<&C>) -> Result<Option<C>, NoMemory>
    ensures { IfOk result (λ copy. copy ≡ option_copied content.entry) }
{
    match content {
        Some(content) => Ok(Some(content.dup()?)),
        None => Ok(None),
    }
}
