//! Pointers to parts.
ghost use Rattle.std.specs.Prelude.{◌≡◌, IfOk};
ghost use Rattle.image_parts.specs.Shared.{value_behind};

use std::alloc::AllocError;
use std::rc::Rc;

/// Another pointer to a part. Takes no memory.
pub(crate) fn some_pointer<T: Drop>(part: &Rc<T>) -> Result<Option<Rc<T>>, AllocError>
    ensures { IfOk result (λ copy. value_behind copy ≡ value_behind (Some part.now)) }
{
    let copy = part.clone()?;
    Ok(Some(copy))
}
