//! What is shared with others, where there is any.

ghost use Rattle.std.specs.Prelude.{◌↔◌, IfOk, IsSome};

use std::alloc::AllocError;
use std::sync::Arc;

/// Another handle of a shared value, if there is one.
pub fn share<T: Drop>(shared: &Option<Arc<T>>) -> Result<Option<Arc<T>>, AllocError>
    ensures { IfOk result (λ again. IsSome again ↔ IsSome shared.now) }
{
    match shared {
        Some(shared) => Ok(Some(Arc::try_clone(shared)?)),
        None => Ok(None),
    }
}
