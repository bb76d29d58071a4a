//! Pointers to parts.
ghost use Rattle.std.specs.Prelude.{◌≡◌, IfOk};
ghost use Rattle.image_parts.specs.Shared.{value_behind};

use std::alloc::AllocError;
use std::rc::Rc;

/// Another pointer to the same part, if there is one. Takes no memory.
pub(crate) fn pointer<T: Drop>(part: &Option<Rc<T>>) -> Result<Option<Rc<T>>, AllocError>
    ensures { IfOk result (λ copy. value_behind copy ≡ value_behind part.now) }
{
    match part {
        None => Ok(None),
        Some(part) => {
            let copy = part.clone()?;
            Ok(Some(copy))
        }
    }
}
