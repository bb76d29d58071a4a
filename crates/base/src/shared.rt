//! A value that several hold.
ghost use Rattle.std.specs.Prelude.{◌≡◌, ◌⊎◌, IfOk};
ghost use Rattle.std.specs.Option.{option_copied};
ghost use Rattle.std.specs.Borrow.{sem};
ghost use Rattle.base.specs.Unshared.{LendsUnshared};

use std::alloc::{AllocError, Global};
use std::marker::Model;
use std::rc::Rc;

/// A handle on a value that several hold. Contracts see the value alone, whichever the handle.
///
/// The value goes with the last handle. No handle can change it.
#[derive(Debug, Drop)]
pub struct Shared<T> {
    rc: Rc<T>,
}

impl<T> Model for Shared<T> {
    ghost Value = { T };

    ghost view = { λ s. s.rc.value };
}

impl<T: Drop> Shared<T> {
    /// The first handle on a value. Takes memory for the value itself and two counts; want of it is the
    /// only error.
    pub fn new(alloc: Global, value: T) -> Result<Shared<T>, AllocError>
        ensures { IfOk result (λ s. s ≡ value) }
    {
        Ok(Shared {
            rc: Rc::new(alloc, value)?,
        })
    }

    /// The value. Takes constant time.
    pub fn get(&self) -> &T
        ensures { result.now ≡ self.now }
    {
        &self.rc
    }

    /// Another handle on the same value. Takes constant time and no memory; the only error is that the
    /// count of handles is full.
    pub fn share(&self) -> Result<Shared<T>, AllocError>
        ensures { IfOk result (λ s. s ≡ self.now) }
    {
        let rc = self.rc.clone()?;
        Ok(Shared { rc })
    }

    /// Another pointer to the same value, which counts as a handle. Takes constant time and no memory;
    /// the only error is that the count of handles is full.
    pub fn pointer(&self) -> Result<Rc<T>, AllocError>
        ensures { IfOk result (λ rc. rc.value ≡ self.now) }
    {
        let rc = self.rc.clone()?;
        Ok(rc)
    }
}

impl<T: Drop> Clone for Shared<T> {
    ghost is_clone = { λ a b. b ≡ a };

    fn clone(&self) -> Result<Shared<T>, AllocError> {
        self.share()
    }
}

/// Another handle on the same value, if there is one. Takes constant time and no memory; the only error
/// is that the count of handles is full.
pub fn share_of<T: Drop>(value: Option<&Shared<T>>) -> Result<Option<Shared<T>>, AllocError>
    ensures { IfOk result (λ v. v ≡ option_copied value.entry) }
{
    match value {
        Some(value) => {
            let value = value.share()?;
            Ok(Some(value))
        }
        None => Ok(None),
    }
}

/// The value behind a handle, to be changed; where others hold it too, a copy of it takes its place first, and they
/// keep theirs. Takes memory for that copy alone: where no other holds the value, this costs nothing, and
/// `Rc::make_mut` clears the room for a copy each time.
pub fn unshare<T: Clone + Drop>(handle: &mut Rc<T>) -> Result<&mut T, AllocError>
    ensures* writes_back { sem 𝓛 (LendsUnshared T.row T.is_clone handle.entry result) }
    ensures value { IfOk result (λ x. (x.now ≡ handle.old.value) ⊎ T.is_clone handle.old.value x.now) }
{
    if Rc::strong_count(handle) > 1 || Rc::weak_count(handle) > 0 {
        return Rc::make_mut(handle);
    }
    match Rc::get_mut(handle) {
        Some(value) => Ok(value),
        None => Err(AllocError),
    }
}
